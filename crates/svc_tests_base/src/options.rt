//! What is set on sockets.

use crate::checking::{prints, same};
use std::net::{Net, OpenListener, OpenStream, TcpListener, TcpStream};
use std::process::Abort;
use svc_socket::{
    Family, MemoryOptions, NetOptions, OptionCall, OptionError, Options, Setting, SockOption,
    SteadyOptions, TcpKeepalive, TcpSocketOptions, apply_bind_options, set_dscp, set_recv_buf,
    set_snd_buf, set_tcp_fastopen_backlog, set_tcp_fastopen_connect, set_tcp_keepalive,
    settings_of,
};

const KEEPALIVE: TcpKeepalive = TcpKeepalive {
    idle: 60_999_999_999,
    interval: 5_000_000_000,
    count: 5,
    user_timeout: 85_999_999,
};

#[test]
fn a_keepalive_is_printed_in_nanoseconds(rt: HostRuntime) {
    let rt = &rt;
    prints(rt, KEEPALIVE, "60999999999ns/5000000000ns/5/85999999ns");
}

/// A socket of this family, which fails at these calls.
fn socket<R: Abort + AllocGlobal>(rt: &R, family: Family, failing: &[u64]) -> MemoryOptions {
    let failing = failing.to_vec(rt.alloc()).expect(rt, "numbers");
    MemoryOptions::new(rt.alloc(), 8, family, failing).expect(rt, "a socket")
}

/// These are the options that were set.
fn has_set<R: Abort + AllocGlobal>(rt: &R, calls: Option<&[OptionCall]>, wanted: &[SockOption]) {
    let mut set = Vec::new(rt.alloc());
    for call in calls.expect(rt, "calls") {
        if call.set {
            assert!(rt; set.push(call.option).is_ok());
        }
    }
    assert_eq!(rt; set.as_slice(), wanted);
}

#[test]
fn sizes_are_set_up_to_the_greatest(rt: HostRuntime) {
    let rt = &rt;
    let mut socket = socket(rt, Family::V4, &[3]);
    same(rt, set_recv_buf(&mut socket, 2_147_483_647), Ok(()));
    same(rt, set_snd_buf(&mut socket, 1), Ok(()));
    same(rt, set_tcp_fastopen_backlog(&mut socket, 5), Ok(()));
    let failed = Err(OptionError::ConnectError);
    same(rt, set_tcp_fastopen_connect(&mut socket), failed);
    let too_large = Err(OptionError::TooLarge);
    same(rt, set_recv_buf(&mut socket, 2_147_483_648), too_large);
    let wanted = [
        SockOption::RcvBuf(2_147_483_647),
        SockOption::SndBuf(1),
        SockOption::FastopenBacklog(5),
    ];
    has_set(rt, socket.calls.told(), &wanted);
    same(rt, socket.faults(), 1);
}

#[test]
fn the_byte_is_that_of_the_family(rt: HostRuntime) {
    let rt = &rt;
    for (family, answer, wanted) in [
        (Family::V4, Ok(()), [SockOption::Tos(10)].as_slice()),
        (Family::V6, Ok(()), [SockOption::TClass(10)].as_slice()),
        (Family::Other, Err(OptionError::SocketError), [].as_slice()),
    ] {
        let mut socket = socket(rt, family, &[]);
        same(rt, set_dscp(&mut socket, 10), answer);
        has_set(rt, socket.calls.told(), wanted);
    }
}

#[test]
fn a_keepalive_is_set_step_by_step(rt: HostRuntime) {
    let rt = &rt;
    let steps = [
        SockOption::KeepAlive,
        SockOption::KeepIdle(60),
        SockOption::KeepInterval(5),
        SockOption::KeepCount(5),
        SockOption::UserTimeout(85),
    ];
    let mut socket = socket(rt, Family::V4, &[]);
    same(rt, set_tcp_keepalive(&mut socket, &KEEPALIVE), Ok(()));
    has_set(rt, socket.calls.told(), &steps);
}

#[test]
fn options_are_set_before_a_bind(rt: HostRuntime) {
    let rt = &rt;
    let mut opt = TcpSocketOptions::default();
    opt.ipv6_only = Some(true);
    opt.so_reuseport = Some(false);
    opt.tcp_fastopen = Some(10);
    opt.dscp = Some(1);
    opt.tcp_snd_buf = Some(7);
    let mut steady = SteadyOptions::new(rt.alloc(), 8, Family::V6).expect(rt, "a socket");
    same(rt, apply_bind_options(&mut steady, &opt), Ok(()));
    let wanted = [
        SockOption::V6Only(true),
        SockOption::ReusePort(false),
        SockOption::FastopenBacklog(10),
        SockOption::TClass(1),
    ];
    has_set(rt, steady.calls.told(), &wanted);
    same(rt, steady.family(), Family::V6);
    same(rt, steady.faults(), 0);
    for (failing, error) in [
        (0, OptionError::BindError),
        (1, OptionError::BindError),
        (2, OptionError::ConnectError),
        (3, OptionError::SocketError),
    ] {
        let mut socket = socket(rt, Family::V4, &[failing]);
        same(rt, apply_bind_options(&mut socket, &opt), Err(error));
    }
}

#[test]
fn a_connection_has_its_settings_in_order(rt: HostRuntime) {
    let rt = &rt;
    let opt = TcpSocketOptions {
        ipv6_only: Some(true),
        tcp_fastopen: Some(10),
        tcp_keepalive: Some(KEEPALIVE),
        dscp: Some(10),
        so_reuseport: None,
        tcp_snd_buf: Some(5),
        tcp_recv_buf: Some(6),
    };
    let all = settings_of(rt.alloc(), Some(&opt)).expect(rt, "settings");
    let wanted = [
        Setting::NoDelay,
        Setting::KeepAlive(KEEPALIVE),
        Setting::Dscp(10),
        Setting::SndBuf(5),
        Setting::RcvBuf(6),
    ];
    same(rt, all.as_slice(), wanted.as_slice());
}

/// The options of a stream to this address: the one on small segments is set, the others fail.
fn sets_no_delay<R: Abort + Net>(rt: &R, address: &str, family: Family) {
    let listener = TcpListener::bind(rt, address).expect(rt, "a listener");
    let address = listener.local_addr().expect(rt, "an address");
    let stream = TcpStream::connect(rt, address).expect(rt, "a stream");
    assert_eq!(rt; stream.nodelay().ok(), Some(false));
    let mut options = NetOptions::new(&stream);
    assert_eq!(rt; options.family(), family);
    assert!(rt; options.set(SockOption::NoDelay));
    assert_eq!(rt; options.faults(), 0);
    assert_eq!(rt; set_dscp(&mut options, 10), Err(OptionError::SocketError));
    assert_eq!(rt;
        set_snd_buf(&mut options, 1),
        Err(OptionError::ConnectError)
    );
    assert_eq!(rt; options.faults(), 2);
    assert_eq!(rt; stream.nodelay().ok(), Some(true));
}

#[test]
fn the_options_of_a_stream_are_set_as_far_as_can_be(rt: HostRuntime) {
    sets_no_delay(&rt, "127.0.0.1:0", Family::V4);
    sets_no_delay(&rt, "[::1]:0", Family::V6);
}
