//! A connection that goes on to another address.

ghost use Rattle.std.specs.Prelude.{◌<◌, length};

use crate::address::Address;
use crate::connections::{PIECES, Turn};
use crate::streams::{Incoming, Outgoing};
use std::alloc::Global;
use std::net::{Net, Shutdown, TcpStream};
use std::os::fd::{AsRawFd, OwnedFd, RawFd};
use svc_work::{Conveyance, Conveyed};

/// What a turn left of one direction.
#[derive(Clone, Copy, PartialEq)]
enum Way {
    Waits,
    More,
    /// The one stream has ended, and the other one was told so, after all that came.
    Ended,
    Failed,
}

/// Bytes go on from one stream to the other. Where the one has ended, the other is told so once.
fn go(
    alloc: Global,
    bytes: &mut Conveyance,
    from: &TcpStream,
    to: &TcpStream,
    room: &mut [u8],
) -> Way
    requires { 0 < length room.old }
{
    let mut incoming = Incoming::of(from);
    let mut outgoing = Outgoing::of(to);
    match bytes.convey(alloc, &mut incoming, &mut outgoing, room, PIECES) {
        Conveyed::More => Way::More,
        Conveyed::End if to.shutdown(Shutdown::Write).is_ok() => Way::Ended,
        Conveyed::Over => Way::Ended,
        Conveyed::ReadFault if incoming.waits => Way::Waits,
        Conveyed::WriteFault if outgoing.waits => Way::Waits,
        _ => Way::Failed,
    }
}

/// The stream to which a connection goes on, and what waits in each direction.
#[derive(Drop)]
pub(crate) struct Forward {
    far: TcpStream,
    is_connected: bool,
    there: Conveyance,
    back: Conveyance,
}

/// Begins to connect to an address. None where that can't be.
fn begun<R: Net>(rt: &R, target: &Address) -> Option<TcpStream> {
    match target {
        Address::Tcp(address) => match mio::net::TcpStream::connect(rt, *address) {
            Ok(stream) => Some(TcpStream::from(OwnedFd::from(stream))),
            Err(_) => None,
        },
        Address::Unix(path) => match mio::net::UnixStream::connect(rt, path.as_str()) {
            Ok(stream) => Some(TcpStream::from(OwnedFd::from(stream))),
            Err(_) => None,
        },
        Address::Unknown => None,
    }
}

/// What both directions leave together.
fn joined(there: Way, back: Way) -> Turn {
    if there == Way::Failed || back == Way::Failed {
        Turn::Over
    } else if there == Way::More || back == Way::More {
        Turn::More
    } else if there == Way::Ended && back == Way::Ended {
        Turn::Over
    } else {
        Turn::Waits
    }
}

impl Forward {
    /// Begins to connect to the address that a connection goes on to. None where that can't be.
    pub(crate) fn begin<R: Net>(rt: &R, alloc: Global, target: &Address) -> Option<Self> {
        let far = begun(rt, target)?;
        Some(Forward {
            far,
            is_connected: matches!(target, Address::Unix(_)),
            there: Conveyance::new(alloc),
            back: Conveyance::new(alloc),
        })
    }

    /// The system's number of the stream.
    pub(crate) fn raw(&self) -> RawFd {
        self.far.as_raw_fd()
    }

    /// The stream is connected. Bytes that come before that wait in the system.
    fn is_there(&mut self) -> bool {
        if !self.is_connected {
            self.is_connected = self.far.peer_addr().is_ok();
        }
        self.is_connected
    }

    /// The stream can't be connected.
    fn has_failed(&self) -> bool {
        !matches!(self.far.take_error(), Ok(None))
    }

    /// Both directions have their turn.
    pub(crate) fn turn(&mut self, alloc: Global, near: &TcpStream, room: &mut [u8]) -> Turn
        requires { 0 < length room.old }
    {
        if !self.is_there() {
            return if self.has_failed() {
                Turn::Unconnected
            } else {
                Turn::Waits
            };
        }
        let there = go(alloc, &mut self.there, near, &self.far, room);
        let back = go(alloc, &mut self.back, &self.far, near, room);
        joined(there, back)
    }
}
