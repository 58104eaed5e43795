//! A connect: a dial, and where that can't bind within a range of ports, one more without the range.

ghost use Rattle.std.specs.Prelude.{◌≡◌, Err, OnErr, ◌⊎◌};
ghost use Rattle.std.specs.Option.{option_copied};
ghost use Rattle.svc_base.specs.Streams.{Rose};
ghost use Rattle.svc_socket.specs.Connects.{kind_of, error_of, outcome, outcome_uds, is_bind_error, is_unbound, second_from, Connects, ConnectsOnce, no_memory};

use super::dialer::{BindTo, DialAnswer, DialFault, Dialer, OsFault, Target};
use crate::peer::PeerAddr;
use std::alloc::Global;
use std::fmt;
use svc_base::Text;
use thiserror::Error;

/// The kind of an error of a connect.
#[derive(Clone, Copy, PartialEq, Eq, Debug, Error)]
pub enum ConnectKind {
    /// The socket couldn't be made, or an option couldn't be set.
    #[error("the socket couldn't be made")]
    SocketError,
    /// The local address couldn't be bound, or isn't there.
    #[error("the local address couldn't be bound")]
    BindError,
    /// The other end refused.
    #[error("the connection was refused")]
    ConnectRefused,
    /// The other end didn't answer in time.
    #[error("the connection timed out")]
    ConnectTimedout,
    /// No route leads to the other end.
    #[error("there is no route")]
    ConnectNoRoute,
    /// The system denied it, or the local address is in use.
    #[error("internal error")]
    InternalError,
    /// The system answered with another error number.
    #[error("the connection failed")]
    ConnectError,
    /// There is no memory. Nothing was dialed.
    #[error("out of memory")]
    NoMemory,
}

/// What is known of a connect that failed.
#[derive(Clone, Copy, PartialEq, Eq, Debug)]
pub struct ConnectErrorDetails {
    /// The fault of the last dial.
    pub source: Option<DialFault>,
    pub local_addr: Option<PeerAddr>,
}

/// The name of the source, else the local address, else nothing.
impl fmt::Display for ConnectErrorDetails {
    fn fmt<W: fmt::Write>(&self, f: &mut fmt::Formatter<W>) -> fmt::Result {
        match (self.source, self.local_addr) {
            (Some(DialFault::Socket), _) => write!(f, "Socket"),
            (Some(DialFault::Bind), _) => write!(f, "Bind"),
            (Some(DialFault::Os(_)), _) => write!(f, "Os"),
            (None, Some(addr)) => write!(f, "local address {addr}"),
            (None, None) => Ok(()),
        }
    }
}

/// Why a connect failed.
#[derive(Clone, Copy, PartialEq, Eq, Debug, Error)]
#[error("{kind}")]
pub struct ConnectError {
    pub kind: ConnectKind,
    pub details: ConnectErrorDetails,
}

/// The kind of an error, by the system's answer.
fn kind_of_os(fault: OsFault) -> ConnectKind
    ensures { result ≡ kind_of (DialFault.Os fault) }
{
    match fault {
        OsFault::Refused => ConnectKind::ConnectRefused,
        OsFault::TimedOut => ConnectKind::ConnectTimedout,
        OsFault::AddrNotAvailable => ConnectKind::BindError,
        OsFault::PermissionDenied | OsFault::AddrInUse => ConnectKind::InternalError,
        OsFault::NetUnreachable | OsFault::HostUnreachable => ConnectKind::ConnectNoRoute,
        OsFault::Other(_) => ConnectKind::ConnectError,
    }
}

/// The kind of an error, by the fault.
fn kind_of(fault: DialFault) -> ConnectKind
    ensures { result ≡ kind_of fault }
{
    match fault {
        DialFault::Socket => ConnectKind::SocketError,
        DialFault::Bind => ConnectKind::BindError,
        DialFault::Os(answer) => kind_of_os(answer),
    }
}

/// The error of a dial that failed.
fn error_of(fault: DialFault, local_addr: Option<PeerAddr>) -> ConnectError
    ensures { result ≡ error_of fault local_addr }
{
    ConnectError {
        kind: kind_of(fault),
        details: ConnectErrorDetails {
            source: Some(fault),
            local_addr,
        },
    }
}

/// What a dial leads to.
fn outcome(answer: DialAnswer) -> Result<Option<PeerAddr>, ConnectError>
    ensures { result ≡ outcome answer }
{
    match answer {
        DialAnswer::Connected(local) => Ok(local),
        DialAnswer::Failed(fault, local) => Err(error_of(fault, local)),
    }
}

/// The same where the local address isn't told.
fn outcome_uds(answer: DialAnswer) -> Result<(), ConnectError>
    ensures { result ≡ outcome_uds answer }
{
    match answer {
        DialAnswer::Connected(_) => Ok(()),
        DialAnswer::Failed(fault, local) => Err(error_of(fault, local)),
    }
}

fn is_bind_error(kind: ConnectKind) -> bool
    ensures { result ≡ is_bind_error kind }
{
    match kind {
        ConnectKind::BindError => true,
        _ => false,
    }
}

/// Whether the dial couldn't bind.
fn is_unbound(answer: DialAnswer) -> bool
    ensures { result ≡ is_unbound answer }
{
    match answer {
        DialAnswer::Connected(_) => false,
        DialAnswer::Failed(fault, _) => is_bind_error(kind_of(fault)),
    }
}

/// From where it is dialed once more, if it is.
fn second_from(from: Option<&BindTo>, answer: DialAnswer) -> Option<BindTo>
    ensures { result ≡ second_from (option_copied from.entry) answer }
{
    let from = from?;
    if is_unbound(answer) && from.will_fallback() {
        Some(BindTo {
            addr: from.addr,
            port_range: None,
            fallback: false,
        })
    } else {
        None
    }
}

/// Connects, and answers the local address, where it is known. Where the local address can't be bound
/// and `from` will fall back, it is tried once more without the range of ports. An error has the kind
/// and the fault of the last dial.
pub fn connect<D: Dialer>(
    dialer: &mut D,
    addr: &PeerAddr,
    from: Option<&BindTo>,
) -> Result<Option<PeerAddr>, ConnectError>
    ensures connects { Connects (D.seen dialer.old) (D.seen dialer.new)
        (Target.Inet addr.now) (option_copied from.entry) result }
    ensures cause { OnErr result (Rose (D.seen dialer.old).faults (D.seen dialer.new).faults) }
{
    let target = Target::Inet(*addr);
    let first = dialer.dial(&target, from);
    match second_from(from, first) {
        None => outcome(first),
        Some(again) => outcome(dialer.dial(&target, Some(&again))),
    }
}

/// The error that there is no memory.
fn no_memory() -> ConnectError
    ensures { result ≡ no_memory }
{
    ConnectError {
        kind: ConnectKind::NoMemory,
        details: ConnectErrorDetails {
            source: None,
            local_addr: None,
        },
    }
}

/// Connects to the Unix socket at the path. An error has the kind and the fault of the dial;
/// `NoMemory` where there is no memory for the path, and then nothing was dialed.
pub fn connect_uds<D: Dialer>(alloc: Global, dialer: &mut D, path: &str) -> Result<(), ConnectError>
    ensures connects { ((result ≡ Err no_memory) × (dialer.new ≡ dialer.old))
        ⊎ ConnectsOnce (D.seen dialer.old) (D.seen dialer.new) (Target.Unix path.now) result }
    ensures cause { OnErr result ((result ≡ Err no_memory)
        ⊎ Rose (D.seen dialer.old).faults (D.seen dialer.new).faults) }
{
    match Text::new(alloc, path) {
        Ok(path) => outcome_uds(dialer.dial(&Target::Unix(path), None)),
        Err(_) => Err(no_memory()),
    }
}
