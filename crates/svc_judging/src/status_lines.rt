//! How the status line of a record says that its run ended.

ghost use Rattle.std.specs.Prelude.{◌≡◌};
ghost use Rattle.svc_base.specs.Words.{words};
ghost use Rattle.svc_judging.specs.StatusLines.{closed_end, is_stray, end_of};

use svc_base::{number, split_word};

/// How a record says that its run ended.
#[derive(Clone, Copy, PartialEq, Eq, Debug)]
pub enum RecordEnd {
    /// It has no status line: it is the record so far.
    Open,
    /// The run went through its shutdown.
    Served,
    /// The run ended otherwise: behind its last step all that was live is cut, and all that was open closed.
    Closed,
    /// The same, and the last event is one that didn't fit.
    Stray,
}

/// The end of a run that neither served nor had an event that didn't fit.
#[tactic(auto, unfolding(crate::specs::StatusLines::closed_end))]
fn closed_end(line: &[u8]) -> Option<RecordEnd>
    ensures { result ≡ closed_end line.now }
{
    if line == b"status out of events".as_slice() {
        Some(RecordEnd::Closed)
    } else if line == b"status host fault".as_slice() {
        Some(RecordEnd::Closed)
    } else if line == b"status turns spent".as_slice() {
        Some(RecordEnd::Closed)
    } else if line == b"status tested".as_slice() {
        Some(RecordEnd::Closed)
    } else if line == b"status parent 0".as_slice() {
        Some(RecordEnd::Closed)
    } else if line == b"status parent 1".as_slice() {
        Some(RecordEnd::Closed)
    } else if line == b"status transfer".as_slice() {
        Some(RecordEnd::Closed)
    } else if line == b"status no sender".as_slice() {
        Some(RecordEnd::Closed)
    } else if line == b"status bad message".as_slice() {
        Some(RecordEnd::Closed)
    } else {
        None
    }
}

/// The line's words are `status stray` and a number.
#[tactic(auto, unfolding(crate::specs::StatusLines::is_stray))]
fn is_stray(line: &[u8]) -> bool
    ensures { result ≡ is_stray (words line.now) }
{
    let Some((first, rest)) = split_word(line) else {
        return false;
    };
    let Some((second, rest)) = split_word(rest) else {
        return false;
    };
    let Some((third, rest)) = split_word(rest) else {
        return false;
    };
    if split_word(rest).is_some() {
        return false;
    }
    first == b"status".as_slice() && second == b"stray".as_slice() && number(third).is_some()
}

/// How the line says that the run ended, if it is the status line of a run with a record.
#[tactic(auto, unfolding(crate::specs::StatusLines::end_of))]
pub(crate) fn end_of(line: &[u8]) -> Option<RecordEnd>
    ensures { result ≡ end_of line.now }
{
    if line == b"status served".as_slice() {
        Some(RecordEnd::Served)
    } else if is_stray(line) {
        Some(RecordEnd::Stray)
    } else {
        closed_end(line)
    }
}
