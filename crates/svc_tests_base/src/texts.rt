//! The texts of errors and addresses.

use crate::checking::prints;
use svc_listen::{BindErrorKind, ConfigError, ListenError};
use svc_socket::protocols::tls::noop_tls::listeners::NoTls;
use svc_socket::protocols::tls::noop_tls::utils::CertKey;
use svc_socket::{
    ConnectError, ConnectErrorDetails, ConnectKind, DialFault, OptionError, OsFault, Peer, PeerAddr,
};

const LOCAL: PeerAddr = PeerAddr::V4 {
    ip: 0x7f00_0001,
    port: 8080,
};

const FAR: PeerAddr = PeerAddr::V6 {
    high: 0x2001_0db8_0000_0000,
    low: 0xff,
    port: 443,
};

#[test]
fn peers_have_texts(rt: HostRuntime) {
    let rt = &rt;
    prints(rt, LOCAL, "127.0.0.1:8080");
    prints(rt, Peer::Inet(FAR), "[2001:db8:0:0:0:0:0:ff]:443");
    prints(rt, Peer::Unknown, "-");
    prints(rt, Peer::Unix, "unix");
}

#[test]
fn errors_of_options_have_texts(rt: HostRuntime) {
    let rt = &rt;
    for (error, text) in [
        (OptionError::TooLarge, "a value is over 2147483647"),
        (
            OptionError::ConnectError,
            "an option of a connection couldn't be set",
        ),
        (
            OptionError::SocketError,
            "an option of a socket couldn't be set",
        ),
        (
            OptionError::BindError,
            "an option of a listening socket couldn't be set",
        ),
    ] {
        prints(rt, error, text);
    }
    prints(rt, NoTls, "there is no TLS");
    prints(rt, CertKey, "");
}

#[test]
fn errors_of_a_connect_have_texts(rt: HostRuntime) {
    let rt = &rt;
    for (kind, text) in [
        (ConnectKind::SocketError, "the socket couldn't be made"),
        (
            ConnectKind::BindError,
            "the local address couldn't be bound",
        ),
        (ConnectKind::ConnectRefused, "the connection was refused"),
        (ConnectKind::ConnectTimedout, "the connection timed out"),
        (ConnectKind::ConnectNoRoute, "there is no route"),
        (ConnectKind::InternalError, "internal error"),
        (ConnectKind::ConnectError, "the connection failed"),
        (ConnectKind::NoMemory, "out of memory"),
    ] {
        let source = None;
        let local_addr = None;
        let details = ConnectErrorDetails { source, local_addr };
        prints(rt, ConnectError { kind, details }, text);
    }
    for (source, local_addr, text) in [
        (None, Some(LOCAL), "local address 127.0.0.1:8080"),
        (None, None, ""),
        (Some(DialFault::Socket), None, "Socket"),
        (Some(DialFault::Bind), None, "Bind"),
        (Some(DialFault::Os(OsFault::Refused)), None, "Os"),
    ] {
        prints(rt, ConnectErrorDetails { source, local_addr }, text);
    }
}

#[test]
fn errors_of_a_listener_have_texts(rt: HostRuntime) {
    let rt = &rt;
    prints(rt, ConfigError::NotTcp, "the endpoint isn't TCP");
    prints(rt, ConfigError::NotUds, "the endpoint isn't a Unix socket");
    prints(rt, ListenError::NoAddress, "no address was given");
    prints(rt, ListenError::NoMemory, "out of memory");
    for (kind, text) in [
        (
            BindErrorKind::AdoptFailed,
            "the held descriptor couldn't be adopted",
        ),
        (BindErrorKind::Failed, "the address couldn't be bound"),
        (BindErrorKind::StillInUse, "the address is still in use"),
    ] {
        prints(rt, kind, text);
        prints(rt, ListenError::BindError(kind), text);
    }
}
