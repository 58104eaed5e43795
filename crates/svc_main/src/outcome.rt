ghost use Rattle.std.specs.Prelude.{◌≡◌, Some};
ghost use Rattle.svc_main.specs.Status.{end_text, status_text, status_of};

use std::fmt;
use svc_base::Status;
use svc_conf::Key;
use svc_record::BootstrapError;

/// How a run ended.
#[derive(Clone, Copy, Debug, PartialEq, Eq)]
pub enum RunEnd {
    /// It went through its shutdown.
    Served,
    /// It tested that it can start.
    Tested,
    /// This process is the parent of the server's, which ends with this status.
    Parent(u8),
    /// The configuration is refused for this key.
    Config(Key),
    /// The script's next item was a fault.
    HostFault,
    /// The sockets of an older server couldn't be taken over.
    Bootstrap(BootstrapError),
    /// The event with this number, from 1, didn't fit.
    Stray(u64),
    /// The events were used up before the shutdown.
    OutOfEvents,
}

/// The last line of the output.
#[derive(Clone, Copy, Debug, PartialEq, Eq)]
pub enum StatusLine {
    /// The command words were refused.
    Words,
    /// The text was refused at this line, from 1; at 0 it is too long.
    Line(u64),
    /// The source failed.
    ReadFault,
    /// The server ran, and ended so.
    Run(RunEnd),
}

impl fmt::Display for RunEnd {
    ghost output = { λ e. Some (end_text e) };

    fn fmt<W: fmt::Write>(&self, f: &mut fmt::Formatter<W>) -> fmt::Result {
        match self {
            RunEnd::Served => write!(f, "served"),
            RunEnd::Tested => write!(f, "tested"),
            RunEnd::Parent(n) => write!(f, "parent {n}"),
            RunEnd::Config(key) => write!(f, "config {}", key.name()),
            RunEnd::HostFault => write!(f, "host fault"),
            RunEnd::Bootstrap(BootstrapError::Transfer) => write!(f, "transfer"),
            RunEnd::Bootstrap(BootstrapError::NoSender) => write!(f, "no sender"),
            RunEnd::Bootstrap(BootstrapError::BadMessage) => write!(f, "bad message"),
            RunEnd::Stray(k) => write!(f, "stray {k}"),
            RunEnd::OutOfEvents => write!(f, "out of events"),
        }
    }
}

impl fmt::Display for StatusLine {
    ghost output = { λ s. Some (status_text s) };

    fn fmt<W: fmt::Write>(&self, f: &mut fmt::Formatter<W>) -> fmt::Result {
        match self {
            StatusLine::Words => write!(f, "status words"),
            StatusLine::Line(n) => write!(f, "status line {n}"),
            StatusLine::ReadFault => write!(f, "status read fault"),
            StatusLine::Run(end) => write!(f, "status {end}"),
        }
    }
}

impl StatusLine {
    /// The status with which the program ends after this line.
    pub fn status(self) -> Status
        ensures { result.0 ≡ status_of self }
    {
        match self {
            StatusLine::Words => Status(2),
            StatusLine::Line(_) => Status(3),
            StatusLine::ReadFault => Status(5),
            StatusLine::Run(RunEnd::Served | RunEnd::Tested | RunEnd::Parent(0)) => Status(0),
            StatusLine::Run(RunEnd::Parent(_)) => Status(1),
            StatusLine::Run(_) => Status(4),
        }
    }
}
