//! The numbers that the calls answer, and their texts.

ghost use Rattle.std.specs.Prelude.{◌≡◌};
ghost use Rattle.svc_c.specs.Numbers.{end_number, make_number, error_number, fits_number, step_number, close_number, told_number, reason};

use crate::making::MakeError;
use crate::session::{Asked, StepError, ToldError};
use svc_record::{BootstrapError, StepEnd};

/// The number of a run's end: 0 where it goes on.
pub(crate) fn end_number(end: StepEnd) -> u32
    ensures { result ≡ end_number end }
{
    match end {
        StepEnd::On => 0,
        StepEnd::Served => 1,
        StepEnd::Tested => 2,
        StepEnd::Parent(0) => 3,
        StepEnd::Parent(_) => 4,
        StepEnd::Ended(BootstrapError::Transfer) => 5,
        StepEnd::Ended(BootstrapError::NoSender) => 6,
        StepEnd::Ended(BootstrapError::BadMessage) => 7,
    }
}

/// The number of why no session was made.
pub(crate) fn make_number(error: MakeError) -> u32
    ensures { result ≡ make_number error }
{
    match error {
        MakeError::NoMemory => 16,
        MakeError::Line(_) => 17,
        MakeError::Config(_) => 18,
    }
}

/// The number of why a call of a session was refused.
fn error_number(error: StepError) -> u32
    ensures { result ≡ error_number error }
{
    match error {
        StepError::NoMemory => 16,
        StepError::NoEvent => 19,
        StepError::Stray => 20,
        StepError::Order => 21,
    }
}

/// The number of a step's answer.
pub(crate) fn step_number(answer: Result<StepEnd, StepError>) -> u32
    ensures { result ≡ step_number answer }
{
    match answer {
        Ok(end) => end_number(end),
        Err(error) => error_number(error),
    }
}

/// The number of what is asked: 1 where a filter is.
pub(crate) fn fits_number(answer: Result<Asked, StepError>) -> u32
    ensures { result ≡ fits_number answer }
{
    match answer {
        Ok(Asked { filter: None, .. }) => 0,
        Ok(
            Asked {
                filter: Some(_),
                ..
            },
        ) => 1,
        Err(error) => error_number(error),
    }
}

/// The number of a close's answer.
pub(crate) fn close_number(answer: Result<(), StepError>) -> u32
    ensures { result ≡ close_number answer }
{
    match answer {
        Ok(()) => 0,
        Err(error) => error_number(error),
    }
}

/// The number of what was told.
pub(crate) fn told_number(answer: Result<u64, ToldError>) -> u32
    ensures { result ≡ told_number answer }
{
    match answer {
        Ok(_) => 0,
        Err(ToldError::NoMemory) => 16,
        Err(ToldError::TooShort(_)) => 22,
    }
}

/// The text of a number that a call answered.
pub(crate) fn reason(number: u32) -> &'static str
    ensures { result.now ≡ reason number }
{
    match number {
        0 => "the run goes on",
        1 => "the run went through its shutdown",
        2 => "the run tested that it can start",
        3 => "this process is the parent of the server's, which is ready or isn't waited for",
        4 => "this process is the parent of the server's, which isn't ready",
        5 => "a try to receive the sockets of an older server failed",
        6 => "no older server sent its sockets",
        7 => "what the older server sent is no message",
        16 => "out of memory",
        17 => "a line of the script is refused",
        18 => "the configuration is refused",
        19 => "the line is no event",
        20 => "the event doesn't fit",
        21 => "the call came out of its order",
        22 => "the buffer is too short",
        _ => "no call answers this number",
    }
}
