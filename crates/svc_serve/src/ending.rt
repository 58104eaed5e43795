//! How the program ends.

ghost use Rattle.std.specs.Prelude.{◌≤◌};

use std::fmt;
use svc_conf::Key;
use svc_record::BootstrapError;
use svc_server::{Outcome, RunError};

/// How the program ends.
#[derive(Clone, Copy, PartialEq, Eq, Debug)]
pub enum Ending {
    /// The words were refused.
    Words,
    /// The file was refused at this line, from 1; at 0 it is too long.
    Line(u64),
    /// The file couldn't be read, or one that it names.
    ReadFault,
    /// A file with the rules of a gate was refused.
    Gate,
    /// A file with jobs was refused.
    Jobs,
    /// This key asks for what the program doesn't do, or has a value that no server can run with.
    Config(Key),
    /// The log, the pid file, the control address or what watches sockets couldn't be opened.
    HostFault,
    /// Every service was given up, so that nothing could be served any more.
    NoService,
    /// The sockets were to go over to a newer generation, and none took them.
    NoSuccessor,
    /// Memory was refused.
    NoMemory,
    /// The run ended so.
    Run(Result<Outcome, RunError>),
}

/// The last line, of an end that has one.
#[derive(Clone, Copy, PartialEq, Eq, Debug)]
pub struct EndLine(Ending);

impl Ending {
    /// The last line; none where memory was refused.
    pub(crate) fn line(self) -> Option<EndLine> {
        match self {
            Ending::NoMemory | Ending::Run(Err(RunError::NoMemory)) => None,
            _ => Some(EndLine(self)),
        }
    }

    /// The status with which the program ends: 0 exactly where the run went through its shutdown or tested.
    pub(crate) fn status(self) -> u8
        ensures { result ≤ 8 }
    {
        match self {
            Ending::Words => 2,
            Ending::Line(_) | Ending::Gate | Ending::Jobs => 3,
            Ending::ReadFault => 5,
            Ending::NoMemory | Ending::Run(Err(RunError::NoMemory)) => 7,
            Ending::Run(Ok(Outcome::Served | Outcome::TestPassed | Outcome::Parent(0))) => 0,
            Ending::Run(Ok(Outcome::Parent(_))) => 1,
            Ending::Config(_) | Ending::HostFault | Ending::NoSuccessor | Ending::Run(Err(_)) => 4,
            Ending::NoService => 8,
        }
    }
}

/// The end of a run that failed.
fn put_error<W: fmt::Write>(f: &mut fmt::Formatter<W>, error: RunError) -> fmt::Result {
    match error {
        RunError::Config(key) => write!(f, "status config {}", key.name()),
        RunError::Bootstrap(BootstrapError::Transfer) => write!(f, "status transfer"),
        RunError::Bootstrap(BootstrapError::NoSender) => write!(f, "status no sender"),
        RunError::Bootstrap(BootstrapError::BadMessage) => write!(f, "status bad message"),
        RunError::HostFault => write!(f, "status host fault"),
        RunError::Stray(k) => write!(f, "status stray {k}"),
        RunError::OutOfEvents => write!(f, "status out of events"),
        RunError::TurnsSpent => write!(f, "status turns spent"),
        RunError::NoMemory => write!(f, "status no memory"),
    }
}

impl fmt::Display for EndLine {
    fn fmt<W: fmt::Write>(&self, f: &mut fmt::Formatter<W>) -> fmt::Result {
        match self.0 {
            Ending::Words => write!(f, "status words"),
            Ending::Line(n) => write!(f, "status line {n}"),
            Ending::ReadFault => write!(f, "status read fault"),
            Ending::Gate => write!(f, "status gate"),
            Ending::Jobs => write!(f, "status jobs"),
            Ending::Config(key) => write!(f, "status config {}", key.name()),
            Ending::HostFault => write!(f, "status host fault"),
            Ending::NoService => write!(f, "status no service"),
            Ending::NoSuccessor => write!(f, "status no successor"),
            Ending::NoMemory => write!(f, "status no memory"),
            Ending::Run(Ok(Outcome::Served)) => write!(f, "status served"),
            Ending::Run(Ok(Outcome::TestPassed)) => write!(f, "status tested"),
            Ending::Run(Ok(Outcome::Parent(n))) => write!(f, "status parent {n}"),
            Ending::Run(Err(error)) => put_error(f, error),
        }
    }
}
