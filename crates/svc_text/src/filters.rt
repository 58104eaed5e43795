//! The filters of services that block addresses.

ghost use Rattle.std.specs.Prelude.{◌≡◌, ◌≤◌, length, count_by};
ghost use Rattle.std.specs.List.{list_any};
ghost use Rattle.svc_text.specs.Filters.{is_at, is_blocked, blocks, filter_number};

use crate::service::ServiceLine;
use svc_socket::{IpNumber, PeerAddr, ip6_number};

/// The peer has this address, on whatever port.
fn is_at(peer: PeerAddr, blocked: IpNumber) -> bool
    ensures { result ≡ is_at peer blocked }
{
    match peer {
        PeerAddr::V4 { ip, .. } => match blocked {
            IpNumber::V4(other) => ip == other,
            IpNumber::V6(_) => false,
        },
        PeerAddr::V6 { high, low, .. } => match blocked {
            IpNumber::V4(_) => false,
            IpNumber::V6(other) => ip6_number(high, low) == other,
        },
    }
}

/// The service blocks addresses.
pub fn blocks(line: &ServiceLine) -> bool
    ensures { result ≡ blocks line.now }
{
    !line.blocked.is_empty()
}

/// How many of the services block addresses.
fn filter_count(lines: &[ServiceLine]) -> usize
    ensures count { result ≡ count_by blocks lines.now }
    ensures few { result ≤ length lines.now }
{
    let mut count = 0;
    for line in lines {
        if blocks(line) {
            count += 1;
        }
    }
    count
}

/// The number of the filter of a service behind these. Those that block addresses have one each,
/// numbered from 0 in their order.
pub fn filter_number(before: &[ServiceLine], line: &ServiceLine) -> Option<u32>
    requires { length before.now ≤ 1024 }
    ensures { result ≡ filter_number before.now line.now }
{
    if blocks(line) {
        Some(filter_count(before) as u32)
    } else {
        None
    }
}

/// The peer has one of these addresses.
fn is_among(peer: PeerAddr, blocked: &[IpNumber]) -> bool
    ensures { result ≡ list_any (is_at peer) blocked.now }
{
    blocked.iter().any(|ip| is_at(peer, *ip))
}

/// The peer's address is among the blocked ones. A peer of a Unix socket, None, has no address.
pub fn is_blocked(blocked: &[IpNumber], peer: Option<PeerAddr>) -> bool
    ensures { result ≡ is_blocked blocked.now peer }
{
    match peer {
        Some(peer) => is_among(peer, blocked),
        None => false,
    }
}
