//! How a server connects.

use crate::checking::{holds, same};
use std::io::ErrorKind;
use std::net::{Net, OpenListener, OpenStream, SocketAddr, TcpListener};
use std::process::Abort;
use svc_base::Text;
use svc_socket::{
    BindTo, ConnectError, ConnectKind, DialAnswer, DialFault, Dialed, Dialer, FailingDial,
    MemoryDialer, NetDialer, OsFault, PeerAddr, SteadyDialer, Target, connect, connect_uds,
};

const PEER: PeerAddr = PeerAddr::V4 {
    ip: 0x7f00_0001,
    port: 80,
};

/// A dialer whose first dials fail so.
fn dialer<R: Abort + AllocGlobal>(rt: &R, faults: &[DialFault]) -> MemoryDialer {
    let mut failing = Vec::new(rt.alloc());
    for (call, fault) in faults.iter().enumerate() {
        let call = call as u64;
        let fault = *fault;
        assert!(rt; failing.push(FailingDial { call, fault }).is_ok());
    }
    MemoryDialer::new(rt.alloc(), 8, failing).expect(rt, "a dialer")
}

fn range(fallback: bool) -> BindTo {
    BindTo {
        addr: Some(PEER),
        port_range: Some((4000, 5000)),
        fallback,
    }
}

/// The kind of a connect's error.
fn kind<T: Drop>(answer: Result<T, ConnectError>) -> Option<ConnectKind> {
    answer.err().map(|error| error.kind)
}

#[test]
fn a_connect_falls_back_once(rt: HostRuntime) {
    let rt = &rt;
    let range = range(true);
    holds(rt, range.will_fallback());
    let mut dialer = dialer(rt, &[DialFault::Bind]);
    same(rt, connect(&mut dialer, &PEER, Some(&range)), Ok(None));
    let again = BindTo {
        addr: Some(PEER),
        port_range: None,
        fallback: false,
    };
    let told = dialer.calls.told().expect(rt, "calls");
    for (call, from) in told.iter().zip([range, again].iter()) {
        holds(rt, call.target == Target::Inet(PEER));
        same(rt, call.from, Some(*from));
    }
    same(rt, told.len(), 2);
    same(rt, dialer.faults(), 1);
}

#[test]
fn a_connect_falls_back_where_it_will(rt: HostRuntime) {
    let rt = &rt;
    let bind = DialFault::Bind;
    let gone = DialFault::Os(OsFault::AddrNotAvailable);
    let refused = DialFault::Os(OsFault::Refused);
    for (faults, from, expected, dials) in [
        ([bind, bind], Some(range(true)), ConnectKind::BindError, 2),
        (
            [gone, refused],
            Some(range(true)),
            ConnectKind::ConnectRefused,
            2,
        ),
        (
            [refused, bind],
            Some(range(true)),
            ConnectKind::ConnectRefused,
            1,
        ),
        ([bind, bind], Some(range(false)), ConnectKind::BindError, 1),
        ([bind, bind], None, ConnectKind::BindError, 1),
    ] {
        let mut dialer = dialer(rt, &faults);
        let answer = connect(&mut dialer, &PEER, from.as_ref());
        same(rt, kind(answer), Some(expected));
        same(rt, dialer.faults(), dials);
    }
}

#[test]
fn each_fault_has_a_kind(rt: HostRuntime) {
    for (fault, expected) in [
        (DialFault::Socket, ConnectKind::SocketError),
        (DialFault::Bind, ConnectKind::BindError),
        (DialFault::Os(OsFault::Refused), ConnectKind::ConnectRefused),
        (
            DialFault::Os(OsFault::TimedOut),
            ConnectKind::ConnectTimedout,
        ),
        (
            DialFault::Os(OsFault::AddrNotAvailable),
            ConnectKind::BindError,
        ),
        (
            DialFault::Os(OsFault::PermissionDenied),
            ConnectKind::InternalError,
        ),
        (
            DialFault::Os(OsFault::AddrInUse),
            ConnectKind::InternalError,
        ),
        (
            DialFault::Os(OsFault::NetUnreachable),
            ConnectKind::ConnectNoRoute,
        ),
        (
            DialFault::Os(OsFault::HostUnreachable),
            ConnectKind::ConnectNoRoute,
        ),
        (DialFault::Os(OsFault::Other(5)), ConnectKind::ConnectError),
    ] {
        let answer = connect(&mut dialer(&rt, &[fault]), &PEER, None);
        same(&rt, kind(answer), Some(expected));
    }
}

#[test]
fn each_kind_of_the_systems_errors_has_a_fault(rt: HostRuntime) {
    for (kind, fault) in [
        (ErrorKind::ConnectionRefused, OsFault::Refused),
        (ErrorKind::TimedOut, OsFault::TimedOut),
        (ErrorKind::AddrNotAvailable, OsFault::AddrNotAvailable),
        (ErrorKind::PermissionDenied, OsFault::PermissionDenied),
        (ErrorKind::AddrInUse, OsFault::AddrInUse),
        (ErrorKind::NetworkUnreachable, OsFault::NetUnreachable),
        (ErrorKind::HostUnreachable, OsFault::HostUnreachable),
        (ErrorKind::ConnectionReset, OsFault::Other(5)),
        (ErrorKind::Other, OsFault::Other(5)),
    ] {
        same(&rt, OsFault::of(kind, 5), fault);
    }
}

#[test]
fn a_steady_dialer_never_fails(rt: HostRuntime) {
    let rt = &rt;
    let mut steady = SteadyDialer::new(rt.alloc(), 2).expect(rt, "a dialer");
    steady.local = Some(PEER);
    same(rt, connect(&mut steady, &PEER, None), Ok(Some(PEER)));
    same(rt, connect_uds(rt.alloc(), &mut steady, "/tmp/u"), Ok(()));
    same(rt, steady.faults(), 0);
    let path = Text::new(rt.alloc(), "/tmp/u").expect(rt, "a path");
    let calls = steady.calls.told().expect(rt, "calls");
    let last = calls.last().expect(rt, "a call");
    holds(rt, last.target == Target::Unix(path));
    holds(rt, last.answer == DialAnswer::Connected(Some(PEER)));
}

/// The address in the form that connects take.
fn peer(addr: SocketAddr) -> PeerAddr {
    match addr {
        SocketAddr::V4(addr) => PeerAddr::V4 {
            ip: addr.ip().to_bits(),
            port: addr.port(),
        },
        SocketAddr::V6(addr) => PeerAddr::from_ip6(addr.ip().to_bits(), addr.port()),
    }
}

/// The other end of the dialer's stream.
fn far_end<S: OpenStream>(dialed: &Option<Dialed<S>>) -> Option<PeerAddr> {
    match dialed {
        Some(Dialed::Inet(stream)) => stream.peer_addr().ok().map(peer),
        _ => None,
    }
}

/// Listens at this address, dials there, and accepts: the listener's address.
fn dial_in<R: Abort + Net>(
    rt: &R,
    address: &str,
    dialer: &mut NetDialer<'_, R, R::Stream>,
) -> PeerAddr {
    let listener = TcpListener::bind(rt, address).expect(rt, "a listener");
    let addr = peer(listener.local_addr().expect(rt, "an address"));
    let local = connect(dialer, &addr, None);
    let (_, from) = listener.accept().expect(rt, "a connection");
    assert_eq!(rt; local, Ok(Some(peer(from))));
    assert_eq!(rt; far_end(&dialer.dialed), Some(addr));
    addr
}

/// A dial that would have to go out from there fails, and keeps the stream of the one before.
fn dial_from<R: Abort + Net>(
    rt: &R,
    addr: PeerAddr,
    from: BindTo,
    dialer: &mut NetDialer<'_, R, R::Stream>,
) {
    let bound = connect(dialer, &addr, Some(&from));
    assert_eq!(rt; kind(bound), Some(ConnectKind::BindError));
    assert_eq!(rt; far_end(&dialer.dialed), Some(addr));
}

#[test]
fn a_net_dialer_dials_over_loopback(rt: HostRuntime) {
    let rt = &rt;
    let mut dialer = NetDialer::new(rt);
    for address in ["127.0.0.1:0", "[::1]:0", "127.0.0.1:0"] {
        let addr = dial_in(rt, address, &mut dialer);
        let from_addr = BindTo {
            addr: Some(PEER),
            port_range: None,
            fallback: false,
        };
        let from_ports = BindTo {
            addr: None,
            port_range: Some((4000, 5000)),
            fallback: false,
        };
        dial_from(rt, addr, range(false), &mut dialer);
        dial_from(rt, addr, from_addr, &mut dialer);
        dial_from(rt, addr, from_ports, &mut dialer);
        // Nobody listens there any more.
        let refused = connect(&mut dialer, &addr, None);
        same(rt, kind(refused), Some(ConnectKind::ConnectRefused));
    }
    let nowhere = connect_uds(rt.alloc(), &mut dialer, "/nowhere/socket");
    same(rt, kind(nowhere), Some(ConnectKind::ConnectError));
    same(rt, dialer.faults(), 13);
}
