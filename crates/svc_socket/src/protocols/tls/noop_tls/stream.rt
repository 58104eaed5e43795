//! The stream that moves nothing.

ghost use Rattle.std.specs.Prelude.{◌≡◌, length, None};

use crate::peer::PeerAddr;
use crate::protocols::l4::virt::IoPoll;
use std::marker::PhantomData;

/// The stream that moves nothing: it reads no bytes, and drops those that it is given.
#[derive(Drop)]
pub struct SslStream<S> {
    of: PhantomData<S>,
}

impl<S> Default for SslStream<S> {
    fn default() -> Self {
        SslStream { of: PhantomData }
    }
}

impl<S> SslStream<S> {
    /// Reads no bytes.
    pub fn poll_read(&mut self, _buf: &mut [u8]) -> IoPoll
        ensures { result ≡ IoPoll.Ready 0 }
    {
        IoPoll::Ready(0)
    }

    /// Takes all bytes, and drops them.
    pub fn poll_write(&mut self, buf: &[u8]) -> IoPoll
        ensures { result ≡ IoPoll.Ready (length buf.now) }
    {
        IoPoll::Ready(buf.len() as u64)
    }

    /// There is nothing to flush.
    pub fn poll_flush(&mut self) -> IoPoll
        ensures { result ≡ IoPoll.Ready 0 }
    {
        IoPoll::Ready(0)
    }

    /// There is nothing to end.
    pub fn poll_shutdown(&mut self) -> IoPoll
        ensures { result ≡ IoPoll.Ready 0 }
    {
        IoPoll::Ready(0)
    }

    /// Its number: 0.
    pub fn id(&self) -> u64
        ensures { result ≡ 0 }
    {
        0
    }

    /// Does nothing.
    pub fn shutdown(&mut self)
        ensures { self.new ≡ self.old }
    {}

    /// The addresses of its socket, which it has none of.
    pub fn get_socket_digest(&self) -> Option<PeerAddr>
        ensures { result ≡ None }
    {
        None
    }
}
