//! What stands for TLS, a digest of it, and sockets that are no sockets of the system.

use crate::checking::{holds, same};
use std::process::Abort;
use svc_base::{Bytes, Text};
use svc_socket::protocols::tls::noop_tls::listeners::TlsSettings;
use svc_socket::protocols::tls::noop_tls::stream::SslStream;
use svc_socket::protocols::tls::noop_tls::utils::get_organization_unit;
use svc_socket::protocols::tls::noop_tls::{CertWrapper, TlsRef, connectors};
use svc_socket::{
    IoPoll, SslDigest, TcpKeepalive, VirtualSockOpt, VirtualSocket, VirtualSocketStream,
};
use svc_streams::{TlsAccept, TlsAcceptCallbacks};

#[test]
fn tls_that_is_none_refuses(rt: HostRuntime) {
    let rt = &rt;
    let mut settings = TlsSettings::intermediate("cert", "key");
    settings.enable_h2();
    settings.set_offload_threadpool(1, 2);
    let refused = settings.build().tls_handshake(7u8).err();
    same(rt, refused.expect(rt, "a refusal").stream, 7);
    let _ = connectors::Connector::new();
    same(rt, CertWrapper.not_after(), "");
    holds(rt, get_organization_unit(&CertWrapper).is_none());
}

#[test]
fn a_stream_without_tls_moves_nothing(rt: HostRuntime) {
    let rt = &rt;
    let mut stream: SslStream<u8> = connectors::tls_connect(7u8);
    let mut buffer = [0u8; 4];
    same(rt, stream.poll_read(&mut buffer), IoPoll::Ready(0));
    same(rt, stream.poll_write(b"hello"), IoPoll::Ready(5));
    same(rt, stream.poll_flush(), IoPoll::Ready(0));
    same(rt, stream.poll_shutdown(), IoPoll::Ready(0));
    stream.shutdown();
    same(rt, stream.id(), 0);
    same(rt, stream.get_socket_digest(), None);
}

/// Calls of a handshake that keep every default.
#[derive(Drop)]
struct Silent;

impl TlsAccept for Silent {}

#[test]
fn tls_calls_have_defaults(rt: HostRuntime) {
    let rt = &rt;
    let mut calls: TlsAcceptCallbacks = Box::new(rt.alloc(), Silent).ok().expect(rt, "a box");
    let mut ssl = TlsRef;
    calls.certificate_callback(&mut ssl);
    same(rt, calls.handshake_complete_callback(&ssl), None);
}

fn text<R: Abort + AllocGlobal>(rt: &R, text: &str) -> Text {
    Text::new(rt.alloc(), text).expect(rt, "a text")
}

#[test]
fn a_digest_is_copied(rt: HostRuntime) {
    let rt = &rt;
    let mut bytes = Bytes::new(rt.alloc());
    holds(rt, bytes.push(rt.alloc(), 9).is_ok());
    let organization = Some(text(rt, "org"));
    let mut digest = SslDigest::new(
        text(rt, "AES"),
        text(rt, "TLSv1.3"),
        organization,
        None,
        bytes,
    );
    digest.extension.set(5u8);
    let copy = digest.copy(rt.alloc()).expect(rt, "a digest");
    same(rt, copy.cipher.as_str(), "AES");
    same(rt, copy.version.as_str(), "TLSv1.3");
    let organization = copy.organization.expect(rt, "an organization");
    same(rt, organization.as_str(), "org");
    holds(rt, copy.serial_number.is_none());
    same(rt, copy.cert_digest.as_slice(), [9].as_slice());
    same(rt, copy.extension.get().copied(), Some(5));
}

/// A stream that gives and takes up to so many bytes.
#[derive(Drop)]
struct Pipe {
    bytes: u64,
}

impl VirtualSocket for Pipe {
    ghost may_call = { λ _ _. Unit {0} };

    fn poll_read(&mut self, buf: &mut [u8]) -> IoPoll {
        for byte in buf.iter_mut() {
            *byte = 7;
        }
        IoPoll::Ready(self.bytes.min(buf.len() as u64))
    }

    fn poll_write(&mut self, buf: &[u8]) -> IoPoll {
        IoPoll::Ready(self.bytes.min(buf.len() as u64))
    }

    fn poll_flush(&mut self) -> IoPoll {
        IoPoll::Pending
    }

    fn poll_shutdown(&mut self) -> IoPoll {
        IoPoll::Failed
    }

    fn set_socket_option(&mut self, opt: VirtualSockOpt) -> bool {
        opt == VirtualSockOpt::NoDelay
    }
}

#[test]
fn a_virtual_stream_forwards_its_calls(rt: HostRuntime) {
    let rt = &rt;
    let pipe = Box::new(rt.alloc(), Pipe { bytes: 2 })
        .ok()
        .expect(rt, "a box");
    let mut stream: VirtualSocketStream = VirtualSocketStream::new(pipe);
    let mut buf = [0u8; 3];
    same(rt, stream.poll_read(&mut buf), IoPoll::Ready(2));
    same(rt, buf, [7, 7, 7]);
    same(rt, stream.poll_write(b"a"), IoPoll::Ready(1));
    same(rt, stream.poll_flush(), IoPoll::Pending);
    same(rt, stream.poll_shutdown(), IoPoll::Failed);
    let keepalive = TcpKeepalive {
        idle: 1,
        interval: 2,
        count: 3,
        user_timeout: 4,
    };
    for (option, set) in [
        (VirtualSockOpt::NoDelay, true),
        (VirtualSockOpt::KeepAlive(keepalive), false),
    ] {
        same(rt, stream.set_socket_option(option), set);
    }
}
