//! Addresses of peers are read.

use crate::checking::same;
use svc_socket::{IpNumber, Peer, PeerAddr, read_ip, read_peer, read_peer_word};

const LOCAL: PeerAddr = PeerAddr::V4 {
    ip: 0x7f00_0001,
    port: 8080,
};

const WIDE: PeerAddr = PeerAddr::V6 {
    high: 0,
    low: 1,
    port: 65535,
};

#[test]
fn addresses_are_read(rt: HostRuntime) {
    for (text, ip) in [
        ("127.0.0.1", Some(IpNumber::V4(0x7f00_0001))),
        (
            "fe80:0:0:0:0:0:a:1",
            Some(IpNumber::V6(0xfe80_0000_0000_0000_0000_0000_000a_0001)),
        ),
        ("256.0.0.1", None),
        ("127.0.0.01", None),
        ("127.0.0", None),
        ("::1", None),
        ("1:2:3:4:5:6:7", None),
        ("1:2:3:4:5:6:7:08", None),
        ("1:2:3:4:5:6:7:A", None),
    ] {
        same(&rt, read_ip(text), ip);
    }
}

#[test]
fn peers_are_read(rt: HostRuntime) {
    let rt = &rt;
    for (text, peer) in [
        ("127.0.0.1:8080", Some(LOCAL)),
        ("[0:0:0:0:0:0:0:1]:65535", Some(WIDE)),
        ("127.0.0.1", None),
        ("127.0.0.1:65536", None),
        ("127.0.0.1:080", None),
        ("0:0:0:0:0:0:0:1:65535", None),
        ("[127.0.0.1]:80", None),
    ] {
        same(rt, read_peer(text), peer);
    }
    for (word, peer) in [
        (b"-".as_slice(), Some(Peer::Unknown)),
        (b"unix".as_slice(), Some(Peer::Unix)),
        (b"127.0.0.1:8080".as_slice(), Some(Peer::Inet(LOCAL))),
        (b"nobody".as_slice(), None),
    ] {
        same(rt, read_peer_word(word), peer);
    }
}
