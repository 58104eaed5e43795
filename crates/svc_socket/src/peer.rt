//! Who is at the other end.

ghost use Rattle.std.specs.Prelude.{◌≡◌, ◌<◌, ◌^◌, Some, [], ◌∷◌};
ghost use Rattle.svc_socket.specs.Peers.{four_digits, octets, ip6_number, peer6, half_text, peer_addr_text, peer_text};

use std::fmt;

/// The address of a TCP peer.
#[derive(Clone, Copy, PartialEq, Eq, Debug)]
pub enum PeerAddr {
    /// The 32 bits of an address, and a port.
    V4 { ip: u32, port: u16 },
    /// The upper and the lower 64 bits of an address of 128. A number of 128 bits would be aligned
    /// to 16 bytes, and all that holds an address with it.
    V6 { high: u64, low: u64, port: u16 },
}

/// The number of an address of 128 bits: its upper 64 bits and its lower ones.
pub fn ip6_number(high: u64, low: u64) -> u128
    ensures { result ≡ ip6_number high low }
{
    high as u128 * 0x1_0000_0000_0000_0000 + low as u128
}

impl PeerAddr {
    /// The address of 128 bits with this number, and a port.
    pub fn from_ip6(ip: u128, port: u16) -> PeerAddr
        ensures { result ≡ peer6 ip port }
    {
        PeerAddr::V6 {
            high: (ip / 0x1_0000_0000_0000_0000) as u64,
            low: (ip % 0x1_0000_0000_0000_0000) as u64,
            port,
        }
    }
}

/// Who is at the other end of a connection.
#[derive(Clone, Copy, PartialEq, Eq, Debug)]
pub enum Peer {
    /// It isn't known.
    Unknown,
    /// The user of a Unix socket.
    Unix,
    /// A TCP address.
    Inet(PeerAddr),
}

/// The four numbers of an address of 32 bits, the highest first.
fn octets(ip: u32) -> [u8; 4]
    ensures { result ≡ octets ip }
{
    [
        (ip / 0x100_0000) as u8,
        (ip / 0x1_0000 % 0x100) as u8,
        (ip / 0x100 % 0x100) as u8,
        (ip % 0x100) as u8,
    ]
}

/// The four groups of half an address, the highest first.
fn half_groups(half: u64) -> [u16; 4]
    ensures { result ≡ four_digits (2 ^ 16) half }
{
    [
        (half / 0x1_0000_0000_0000) as u16,
        (half / 0x1_0000_0000 % 0x1_0000) as u16,
        (half / 0x1_0000 % 0x1_0000) as u16,
        (half % 0x1_0000) as u16,
    ]
}

/// Half an address of 128 bits: four groups.
#[derive(Clone, Copy)]
struct Half(u64);

/// Four groups of hexadecimal digits with colons between them.
impl fmt::Display for Half {
    ghost output = { λ half. Some (half_text half.0) };

    fn fmt<W: fmt::Write>(&self, f: &mut fmt::Formatter<W>) -> fmt::Result {
        let [a, b, c, d] = half_groups(self.0);
        write!(f, "{a:x}:{b:x}:{c:x}:{d:x}")
    }
}

/// Four decimal numbers, or eight groups of hexadecimal digits in brackets, then the port.
impl fmt::Display for PeerAddr {
    ghost output = { λ addr. Some (peer_addr_text addr) };

    fn fmt<W: fmt::Write>(&self, f: &mut fmt::Formatter<W>) -> fmt::Result {
        match *self {
            PeerAddr::V4 { ip, port } => {
                let [a, b, c, d] = octets(ip);
                write!(f, "{a}.{b}.{c}.{d}:{port}")
            }
            PeerAddr::V6 { high, low, port } => {
                let high = Half(high);
                let low = Half(low);
                write!(f, "[{high}:{low}]:{port}")
            }
        }
    }
}

/// A dash where it isn't known, `unix`, or the address.
impl fmt::Display for Peer {
    ghost output = { λ peer. Some (peer_text peer) };

    fn fmt<W: fmt::Write>(&self, f: &mut fmt::Formatter<W>) -> fmt::Result {
        match self {
            Peer::Unknown => write!(f, "-"),
            Peer::Unix => write!(f, "unix"),
            Peer::Inet(addr) => write!(f, "{addr}"),
        }
    }
}
