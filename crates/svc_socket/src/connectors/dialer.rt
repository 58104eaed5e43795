//! What a connect asks of its dialer.

ghost use Rattle.std.specs.Prelude.{◌≡◌, IfOk, ◌&&◌, is_some};
ghost use Rattle.std.specs.Option.{option_copied};
ghost use Rattle.svc_socket.specs.Connects.{fault_of};
ghost use Rattle.svc_socket.specs.DialerData.{DialerData, IsDialed};

use crate::peer::PeerAddr;
use std::alloc::Global;
use std::io::ErrorKind;
use svc_base::{NoMemory, Text};

/// Where a connect goes.
#[derive(PartialEq, Eq, Debug, Drop)]
pub enum Target {
    /// A TCP address.
    Inet(PeerAddr),
    /// The path of a Unix socket.
    Unix(Text),
}

impl Target {
    /// The same target once more.
    pub fn copy(&self, alloc: Global) -> Result<Target, NoMemory>
        ensures { IfOk result (λ target. target ≡ self.now) }
    {
        match self {
            Target::Inet(addr) => Ok(Target::Inet(*addr)),
            Target::Unix(path) => match path.copy(alloc) {
                Ok(path) => Ok(Target::Unix(path)),
                Err(error) => Err(error),
            },
        }
    }
}

/// From where a connect goes out.
#[derive(Clone, Copy, PartialEq, Eq, Debug)]
pub struct BindTo {
    pub addr: Option<PeerAddr>,
    /// The least and the greatest port.
    pub port_range: Option<(u16, u16)>,
    /// Whether any port will do where none in the range can be bound.
    pub fallback: bool,
}

impl BindTo {
    /// Whether a bind that fails is tried once more without the range.
    pub fn will_fallback(&self) -> bool
        ensures { result ≡ (self.now.fallback && is_some self.now.port_range) }
    {
        self.fallback && self.port_range.is_some()
    }
}

/// What the system answered to a connect.
#[derive(Clone, Copy, PartialEq, Eq, Debug)]
pub enum OsFault {
    /// Nobody listens there.
    Refused,
    /// No answer came in time.
    TimedOut,
    /// The local address isn't this machine's.
    AddrNotAvailable,
    /// The process isn't permitted to connect there.
    PermissionDenied,
    /// The local address is in use.
    AddrInUse,
    /// No route leads to the network.
    NetUnreachable,
    /// No route leads to the host.
    HostUnreachable,
    /// Another error number.
    Other(i32),
}

impl OsFault {
    /// The fault of an error of this kind. One without a fault of its own is told by its number.
    pub fn of(kind: ErrorKind, number: i32) -> OsFault
        ensures { result ≡ fault_of kind number }
    {
        match kind {
            ErrorKind::ConnectionRefused => OsFault::Refused,
            ErrorKind::TimedOut => OsFault::TimedOut,
            ErrorKind::AddrNotAvailable => OsFault::AddrNotAvailable,
            ErrorKind::PermissionDenied => OsFault::PermissionDenied,
            ErrorKind::AddrInUse => OsFault::AddrInUse,
            ErrorKind::NetworkUnreachable => OsFault::NetUnreachable,
            ErrorKind::HostUnreachable => OsFault::HostUnreachable,
            _ => OsFault::Other(number),
        }
    }
}

/// Why a dial failed.
#[derive(Clone, Copy, PartialEq, Eq, Debug)]
pub enum DialFault {
    /// The socket couldn't be made, or an option couldn't be set.
    Socket,
    /// It couldn't be bound.
    Bind,
    /// It couldn't be connected.
    Os(OsFault),
}

/// What a dial answers, with the local address, where it is known.
#[derive(Clone, Copy, PartialEq, Eq, Debug)]
pub enum DialAnswer {
    /// There is a connection.
    Connected(Option<PeerAddr>),
    /// There is none, for this reason.
    Failed(DialFault, Option<PeerAddr>),
}

/// A dial, with its answer.
#[derive(Drop)]
pub struct DialCall {
    pub target: Target,
    pub from: Option<BindTo>,
    pub answer: DialAnswer,
}

/// What makes connections.
pub trait Dialer {
    // What contracts see of it.
    ghost seen: { Self → DialerData };

    /// How often a dial failed. The count never falls; at its greatest value it stays.
    fn faults(&self) -> u64
        ensures { result ≡ (seen self.now).faults };

    /// Tries once to connect, and answers what came of it. What was told stays told as long as there is room; where
    /// there is no memory to tell this dial, no room is left.
    fn dial(&mut self, target: &Target, from: Option<&BindTo>) -> DialAnswer
        ensures { IsDialed (seen self.old) (seen self.new) (record {
          target = target.now;
          from = option_copied from.entry;
          answer = result;
        }) };
}
