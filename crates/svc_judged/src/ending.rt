//! How the program ends.

ghost use Rattle.std.specs.Prelude.{◌≡◌};
ghost use Rattle.svc_judged.specs.Judgements.{status_of};

use std::fmt;
use svc_conf::Key;

/// How the program ends.
#[derive(Clone, Copy, PartialEq, Eq, Debug)]
pub enum Ending {
    /// The record served, or is right.
    Judged,
    /// The record isn't right.
    NotRight,
    /// The words were refused.
    Words,
    /// The record was refused at this line, from 1; at 0 it is too long.
    Line(u64),
    /// The script was refused at this line, from 1; at 0 it is too long.
    ScriptLine(u64),
    /// No server can run with the value of this key of the script's configuration.
    Config(Key),
    /// The script or the record couldn't be read.
    ReadFault,
    /// The verdict couldn't be written.
    WriteFault,
    /// Memory was refused.
    NoMemory,
}

/// The last line, of an end that has one.
#[derive(Clone, Copy, PartialEq, Eq, Debug)]
pub struct EndLine(Ending);

impl Ending {
    /// The last line; none where nothing can be written, or memory was refused.
    pub(crate) fn line(self) -> Option<EndLine> {
        match self {
            Ending::NoMemory | Ending::WriteFault => None,
            _ => Some(EndLine(self)),
        }
    }

    /// The status with which the program ends.
    pub(crate) fn status(self) -> u8
        ensures { result ≡ status_of self }
    {
        match self {
            Ending::Judged => 0,
            Ending::Words => 2,
            Ending::Line(_) | Ending::ScriptLine(_) => 3,
            Ending::NotRight | Ending::Config(_) => 4,
            Ending::ReadFault => 5,
            Ending::WriteFault => 6,
            Ending::NoMemory => 7,
        }
    }
}

impl fmt::Display for EndLine {
    fn fmt<W: fmt::Write>(&self, f: &mut fmt::Formatter<W>) -> fmt::Result {
        match self.0 {
            Ending::Judged => write!(f, "status judged"),
            Ending::NotRight => write!(f, "status not right"),
            Ending::Words => write!(f, "status words"),
            Ending::Line(n) => write!(f, "status line {n}"),
            Ending::ScriptLine(n) => write!(f, "status script line {n}"),
            Ending::Config(key) => write!(f, "status config {}", key.name()),
            Ending::ReadFault => write!(f, "status read fault"),
            Ending::WriteFault => write!(f, "status write fault"),
            Ending::NoMemory => write!(f, "status no memory"),
        }
    }
}
