//! How serving a chain ends, and its status line.

ghost use Rattle.std.specs.Prelude.{◌≡◌, Some};
ghost use Rattle.svc_generations.specs.ChainStatus.{refusal_text, status_text, status_of};

use std::fmt;
use svc_base::Status;
use svc_main::StatusLine;

/// Why a step isn't taken.
#[derive(Clone, Copy, Debug, PartialEq, Eq)]
pub enum StepRefusal {
    /// No block is left for a further generation.
    NoMore,
    /// The newest generation hasn't taken over yet.
    NotReady,
    /// No generation with this number has begun.
    Unknown,
    /// The signal comes before the generation has taken over.
    Early,
    /// The event may not come.
    Stray,
}

/// The last line of the output.
#[derive(Clone, Copy, Debug, PartialEq, Eq)]
pub enum ChainLine {
    /// Nothing has begun: the words, the text or a configuration is refused, or the source failed.
    Unbegun(StatusLine),
    /// All steps were taken.
    Chained,
    /// The step with this number, from 1, is the first that wasn't.
    Step(u64, StepRefusal),
}

impl fmt::Display for StepRefusal {
    ghost output = { λ r. Some (refusal_text r) };

    fn fmt<W: fmt::Write>(&self, f: &mut fmt::Formatter<W>) -> fmt::Result {
        match self {
            StepRefusal::NoMore => write!(f, "nomore"),
            StepRefusal::NotReady => write!(f, "notready"),
            StepRefusal::Unknown => write!(f, "unknown"),
            StepRefusal::Early => write!(f, "early"),
            StepRefusal::Stray => write!(f, "stray"),
        }
    }
}

impl fmt::Display for ChainLine {
    ghost output = { λ s. Some (status_text s) };

    fn fmt<W: fmt::Write>(&self, f: &mut fmt::Formatter<W>) -> fmt::Result {
        match self {
            ChainLine::Unbegun(line) => write!(f, "{line}"),
            ChainLine::Chained => write!(f, "status chained"),
            ChainLine::Step(k, refusal) => write!(f, "status step {k} {refusal}"),
        }
    }
}

impl ChainLine {
    /// The status with which the program ends after this line.
    pub fn status(self) -> Status
        ensures { result.0 ≡ status_of self }
    {
        match self {
            ChainLine::Unbegun(line) => line.status(),
            ChainLine::Chained => Status(0),
            ChainLine::Step(_, _) => Status(4),
        }
    }
}
