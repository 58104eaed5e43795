//! A dialer over the network.

ghost use Rattle.std.specs.Prelude.{◌≡◌, None, true};
ghost use Rattle.std.specs.Option.{option_copied};
ghost use Rattle.svc_socket.specs.Connects.{is_bound};
ghost use Rattle.svc_socket.specs.DialerData.{IsDialed};

use super::dialer::{BindTo, DialAnswer, DialFault, Dialer, OsFault, Target};
use crate::peer::{PeerAddr, ip6_number};
use std::io;
use std::net::{
    Ipv4Addr, Ipv6Addr, Net, OpenStream, SocketAddr, SocketAddrV4, SocketAddrV6, TcpStream,
};
use std::os::unix::net::UnixStream;

/// A stream that was connected.
#[derive(Drop)]
pub enum Dialed<S> {
    /// A TCP stream.
    Inet(S),
    /// A stream of a Unix socket.
    Unix(UnixStream),
}

/// A dialer over the network. It can't bind: a dial from an address or from a range of ports fails
/// with `Bind`.
#[derive(Drop)]
pub struct NetDialer<'a, R, S> {
    net: &'a R,
    /// The stream of the last dial that connected, unless it was taken. The next one replaces it.
    pub dialed: Option<Dialed<S>>,
    pub count: u64,
}

impl<'a, R: Net> NetDialer<'a, R, R::Stream> {
    /// A dialer that hasn't dialed yet.
    pub fn new(net: &'a R) -> Self
        ensures { result.count ≡ 0 }
    {
        NetDialer {
            net,
            dialed: None,
            count: 0,
        }
    }
}

/// Whether the dial is to go out from a given address or port.
fn is_bound(from: Option<&BindTo>) -> bool
    ensures { result ≡ is_bound (option_copied from.entry) }
{
    match from {
        Some(from) => from.addr.is_some() || from.port_range.is_some(),
        None => false,
    }
}

/// What the system's error is: its kind, and its number, where it has one.
fn os_fault(error: &io::Error) -> OsFault {
    OsFault::of(error.kind(), error.raw_os_error().unwrap_or(0))
}

fn socket_addr(addr: PeerAddr) -> SocketAddr {
    match addr {
        PeerAddr::V4 { ip, port } => {
            SocketAddr::V4(SocketAddrV4::new(Ipv4Addr::from_bits(ip), port))
        }
        PeerAddr::V6 { high, low, port } => {
            let ip = Ipv6Addr::from_bits(ip6_number(high, low));
            SocketAddr::V6(SocketAddrV6::new(ip, port, 0, 0))
        }
    }
}

fn peer_addr(addr: SocketAddr) -> PeerAddr {
    match addr {
        SocketAddr::V4(addr) => PeerAddr::V4 {
            ip: addr.ip().to_bits(),
            port: addr.port(),
        },
        SocketAddr::V6(addr) => PeerAddr::from_ip6(addr.ip().to_bits(), addr.port()),
    }
}

/// The stream that was connected, and its local address, where it is known.
fn open<R: Net>(net: &R, target: &Target) -> io::Result<(Dialed<R::Stream>, Option<PeerAddr>)> {
    match target {
        Target::Inet(addr) => {
            let stream = TcpStream::connect(net, socket_addr(*addr))?;
            let local = stream.local_addr().ok().map(peer_addr);
            Ok((Dialed::Inet(stream), local))
        }
        Target::Unix(path) => Ok((Dialed::Unix(UnixStream::connect(net, path.as_str())?), None)),
    }
}

impl<R: Net> Dialer for NetDialer<'_, R, R::Stream> {
    ghost seen = { λ d. record { called = None; room = 0; faults = d.count } };

    fn faults(&self) -> u64 {
        self.count
    }

    fn dial(&mut self, target: &Target, from: Option<&BindTo>) -> DialAnswer
        ensures dialed { IsDialed (record { called = None; room = 0; faults = self.old.count }) (record { called = None; room = 0; faults = self.new.count })
            (record { target = target.now; from = option_copied from.entry; answer = result }) }
        ensures bound { is_bound (option_copied from.entry) ≡ true → result ≡ DialAnswer.Failed DialFault.Bind None }
        ensures kept { (fault : _) (local : _) → result ≡ DialAnswer.Failed fault local → self.new.dialed ≡ self.old.dialed }
    {
        if is_bound(from) {
            self.count = self.count.saturating_add(1);
            return DialAnswer::Failed(DialFault::Bind, None);
        }
        match open(self.net, target) {
            Ok((dialed, local)) => {
                self.dialed = Some(dialed);
                DialAnswer::Connected(local)
            }
            Err(error) => {
                self.count = self.count.saturating_add(1);
                DialAnswer::Failed(DialFault::Os(os_fault(&error)), None)
            }
        }
    }
}
