//! Blocked addresses, among which a peer's is found by halving.

ghost use Rattle.std.specs.Prelude.{◌≡◌, IfOk};
ghost use Rattle.std.specs.List.Sorted.{IsNonDecreasing};
ghost use Rattle.svc_base.specs.NumberSets.{is_in};
ghost use Rattle.svc_text.specs.Filters.{is_blocked};
ghost use Rattle.svc_text.specs.BlockedNumbers.{StandInOrder};

use std::alloc::Global;
use std::marker::Model;
use svc_base::{Items, NoMemory, copy_items};
use svc_socket::{IpNumber, PeerAddr, ip6_number};

/// Blocked addresses. Contracts see them as they were given. Beside them stand their numbers, in
/// ascending order, in which a peer's is found by halving.
#[derive(Drop)]
pub struct BlockedAddrs {
    given: Items<IpNumber>,
    v4: Vec<u128>,
    v6: Vec<u128>,
}

impl Model for BlockedAddrs {
    ghost use Rattle.std.specs.Prelude.{List};
    ghost use Rattle.svc_socket.specs.declared.reading.IpNumber.{IpNumber};
    ghost use Rattle.svc_text.specs.BlockedNumbers.{StandInOrder};

    ghost Value = { List IpNumber };

    ghost view = { λ b. b.given };

    ghost invariant = { λ b. StandInOrder b.given b.v4.items b.v6.items };
}

/// The numbers of the addresses of 32 bits and of those of 128, each in ascending order.
fn in_order(alloc: Global, blocked: &[IpNumber]) -> Result<(Vec<u128>, Vec<u128>), NoMemory>
    ensures { IfOk result (λ made. StandInOrder blocked.now made.0.items made.1.items) }
{
    let mut v4 = Vec::new(alloc);
    let mut v6 = Vec::new(alloc);
    for ip in blocked {
        match *ip {
            IpNumber::V4(n) => v4.push(n as u128)?,
            IpNumber::V6(n) => v6.push(n)?,
        }
    }
    v4.sort_unstable();
    v6.sort_unstable();
    Ok((v4, v6))
}

/// The number is among these, which ascend.
fn is_among(numbers: &[u128], number: u128) -> bool
    requires { IsNonDecreasing numbers.now }
    ensures { result ≡ is_in number numbers.now }
{
    match numbers.binary_search(&number) {
        Ok(_) => true,
        Err(_) => false,
    }
}

impl BlockedAddrs {
    /// These addresses once more.
    pub fn new(alloc: Global, blocked: &[IpNumber]) -> Result<BlockedAddrs, NoMemory>
        ensures { IfOk result (λ made. made ≡ blocked.now) }
    {
        let (v4, v6) = in_order(alloc, blocked)?;
        Ok(BlockedAddrs {
            given: copy_items(alloc, blocked)?,
            v4,
            v6,
        })
    }

    /// The peer's address is among them. A peer of a Unix socket, None, has no address.
    pub fn has(&self, peer: Option<PeerAddr>) -> bool
        ensures { result ≡ is_blocked self.now peer }
    {
        match peer {
            Some(PeerAddr::V4 { ip, .. }) => is_among(&self.v4, ip as u128),
            Some(PeerAddr::V6 { high, low, .. }) => is_among(&self.v6, ip6_number(high, low)),
            None => false,
        }
    }
}
