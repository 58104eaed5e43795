//! Streams that are no sockets.

ghost use Rattle.std.specs.Prelude.{List, length};
ghost use Rattle.svc_socket.specs.VirtualSockets.{SocketCall, read, write, flush, shutdown, set_option, IsCalled, MovedWithin};

use std::marker::Model;
use svc_base::TcpKeepalive;

/// What a poll of a stream answers.
#[derive(Clone, Copy, PartialEq, Eq, Debug)]
pub enum IoPoll {
    /// It moved so many bytes.
    Ready(u64),
    /// It is to be polled again.
    Pending,
    /// The stream failed.
    Failed,
}

/// An option of a virtual socket.
#[derive(Clone, Copy, PartialEq, Eq, Debug)]
pub enum VirtualSockOpt {
    /// Small pieces are sent at once.
    NoDelay,
    /// The connection is probed where there is no traffic, by these times.
    KeepAlive(TcpKeepalive),
}

/// A stream that isn't a socket of the system, and that is used as one.
pub trait VirtualSocket: Drop {
    // Which calls may come, one after another, with what they answer and leave.
    ghost may_call: { Self → List SocketCall → Type 0 };

    /// Reads into the buffer.
    fn poll_read(&mut self, buf: &mut [u8]) -> IoPoll
        ensures called { IsCalled may_call self.old self.new (read buf.old buf.new result) }
        ensures within { MovedWithin result (length buf.old) };

    /// Writes of the bytes.
    fn poll_write(&mut self, buf: &[u8]) -> IoPoll
        ensures called { IsCalled may_call self.old self.new (write buf.now result) }
        ensures within { MovedWithin result (length buf.now) };

    /// Writes what is kept.
    fn poll_flush(&mut self) -> IoPoll
        ensures { IsCalled may_call self.old self.new (flush result) };

    /// Ends what is written.
    fn poll_shutdown(&mut self) -> IoPoll
        ensures { IsCalled may_call self.old self.new (shutdown result) };

    /// Sets an option, and answers whether it did.
    fn set_socket_option(&mut self, opt: VirtualSockOpt) -> bool
        ensures { IsCalled may_call self.old self.new (set_option opt result) };
}

/// Each call goes to the socket in the box.
impl VirtualSocket for Box<dyn VirtualSocket> {
    ghost may_call = { λ b. (VirtualSocket-box b).may_call b.value };

    fn poll_read(&mut self, buf: &mut [u8]) -> IoPoll {
        (**self).poll_read(buf)
    }

    fn poll_write(&mut self, buf: &[u8]) -> IoPoll {
        (**self).poll_write(buf)
    }

    fn poll_flush(&mut self) -> IoPoll {
        (**self).poll_flush()
    }

    fn poll_shutdown(&mut self) -> IoPoll {
        (**self).poll_shutdown()
    }

    fn set_socket_option(&mut self, opt: VirtualSockOpt) -> bool {
        (**self).set_socket_option(opt)
    }
}

/// A stream over a virtual socket. Contracts see it as the socket.
#[derive(Drop)]
pub struct VirtualSocketStream<S = Box<dyn VirtualSocket>> {
    socket: S,
}

impl<S> Model for VirtualSocketStream<S> {
    ghost Value = { S };

    ghost view = { λ stream. stream.socket };
}

impl<S: VirtualSocket> VirtualSocketStream<S> {
    ghost use Rattle.std.specs.Prelude.{◌≡◌};

    /// A stream over the socket.
    pub fn new(socket: S) -> Self
        ensures { result ≡ socket }
    {
        VirtualSocketStream { socket }
    }

    /// Reads into the buffer.
    pub fn poll_read(&mut self, buf: &mut [u8]) -> IoPoll
        ensures called { IsCalled S.may_call self.old self.new (read buf.old buf.new result) }
        ensures within { MovedWithin result (length buf.old) }
    {
        self.socket.poll_read(buf)
    }

    /// Writes of the bytes.
    pub fn poll_write(&mut self, buf: &[u8]) -> IoPoll
        ensures called { IsCalled S.may_call self.old self.new (write buf.now result) }
        ensures within { MovedWithin result (length buf.now) }
    {
        self.socket.poll_write(buf)
    }

    /// Writes what is kept.
    pub fn poll_flush(&mut self) -> IoPoll
        ensures { IsCalled S.may_call self.old self.new (flush result) }
    {
        self.socket.poll_flush()
    }

    /// Ends what is written.
    pub fn poll_shutdown(&mut self) -> IoPoll
        ensures { IsCalled S.may_call self.old self.new (shutdown result) }
    {
        self.socket.poll_shutdown()
    }

    /// Sets an option, and answers whether it did.
    pub fn set_socket_option(&mut self, opt: VirtualSockOpt) -> bool
        ensures { IsCalled S.may_call self.old self.new (set_option opt result) }
    {
        self.socket.set_socket_option(opt)
    }
}
