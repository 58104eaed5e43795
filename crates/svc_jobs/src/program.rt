//! The program of jobs as one call.

ghost use Rattle.std.specs.Prelude.{◌≡◌, ◌≢◌, ◌⊎◌, [], map, List, ℕ, IfOk, Some, string_bytes};
ghost use Rattle.std.specs.Rc.{rc_str_bytes};
ghost use Rattle.std.specs.Io.KnownBytes.{Appends};
ghost use Rattle.svc_base.specs.Streams.{Rose};
ghost use Rattle.svc_main.specs.declared.outcome.StatusLine.TheVariants.{Words, ReadFault};
ghost use Rattle.svc_main.specs.Status.{status_line, IsStatus};
ghost use Rattle.svc_main.specs.Program.{Faults, Writes};
ghost use Rattle.svc_jobs.specs.JobTexts.{JobParts};
ghost use Rattle.svc_jobs.specs.JobPrograms.{Ran, RefusedText, IsAnswer, Ends, WritesFront, IsWholeText};

use crate::answering::{Answer, answer_jobs, said};
use crate::reading::read_jobs;
use std::alloc::Global;
use std::rc::RcStr;
use svc_base::{NoMemory, ReadAllError, Sink, Source, Status, read_all, write_all};
use svc_main::StatusLine;
use svc_text::ScriptError;

/// What is to be written.
fn make_answer<S: Source>(
    alloc: Global,
    words: &[RcStr],
    source: &mut S,
) -> Result<Answer, NoMemory>
    ensures answer { IfOk result (λ a. IsAnswer (map rc_str_bytes words.now) (S.left source.old) a.line (string_bytes a.text)) }
    ensures ended { IfOk result (λ a. Ends a.line (S.left source.new)) }
    ensures fault { IfOk result (λ a. Faults a.line (S.faulted source.old) (S.faulted source.new)) }
{
    if !words.is_empty() {
        return said(alloc, StatusLine::Words);
    }
    let bytes = match read_all(alloc, source) {
        Ok(bytes) => bytes,
        Err(ReadAllError::Fault) => return said(alloc, StatusLine::ReadFault),
        Err(ReadAllError::TooLong) => return said(alloc, StatusLine::Line(0)),
        Err(ReadAllError::NoMemory) => return Err(NoMemory),
    };
    match read_jobs(alloc, &bytes) {
        Ok(jobs) => answer_jobs(alloc, jobs),
        Err(ScriptError::Line(n)) => said(alloc, StatusLine::Line(n as u64)),
        Err(ScriptError::NoMemory) => Err(NoMemory),
    }
}

/// Serves jobs: reads their text from the source to its end, runs them over the text's items, and
/// writes each of their runs and a status line to the sink. The words are those after the program's
/// name: there are none.
pub fn serve_jobs<S: Source, K: Sink>(
    alloc: Global,
    words: &[RcStr],
    source: &mut S,
    sink: &mut K,
) -> Status
    // Served: what was read, to its end, says jobs, and what was written is their runs that are due by
    // the record of the run, and how it ended.
    ensures served { result.0 ≡ 0 → Ran 0 (map rc_str_bytes words.now) (S.left source.old) (S.left source.new) (K.written sink.old) (K.written sink.new) }

    // Words give 2, unless the sink fails or memory runs out, and nothing else does.
    ensures words_refused { (map rc_str_bytes words.now ≢ []) → (result.0 ≡ 2) ⊎ ((result.0 ≡ 6) ⊎ (result.0 ≡ 7)) }
    ensures words { result.0 ≡ 2 → (map rc_str_bytes words.now ≢ []) × Appends (K.written sink.old) (K.written sink.new) (status_line Words) }

    // The first refused line, or 0 for a text that is too long.
    ensures refused { result.0 ≡ 3 → (map rc_str_bytes words.now ≡ [])
        × Writes (K.written sink.old) (K.written sink.new) (λ out. RefusedText (S.left source.old) (S.left source.new) out) }

    // A run that ended otherwise: its configuration is refused, an event didn't fit, the host failed, or
    // the items were used up.
    ensures run_error { result.0 ≡ 4 → Ran 4 (map rc_str_bytes words.now) (S.left source.old) (S.left source.new) (K.written sink.old) (K.written sink.new) }

    ensures read_fault { result.0 ≡ 5 → (map rc_str_bytes words.now ≡ []) × Rose (S.faulted source.old) (S.faulted source.new)
        × Appends (K.written sink.old) (K.written sink.new) (status_line ReadFault) }

    ensures write_fault { result.0 ≡ 6 → Rose (K.faulted sink.old) (K.faulted sink.new)
        × WritesFront (map rc_str_bytes words.now) (S.left source.old) (S.left source.new) (S.faulted source.old) (S.faulted source.new)
        (K.written sink.old) (K.written sink.new) }

    // Where memory ran out, nothing was written.
    ensures no_memory { result.0 ≡ 7 → K.written sink.new ≡ K.written sink.old }
    ensures others { IsStatus result.0 }

    // There is no parent to end for.
    ensures parent { result.0 ≢ 1 }

    // A whole text of jobs whose items fit and go through the shutdown gives the status 0, unless memory
    // runs out or the source or the sink fails.
    ensures complete { (bytes : List ℕ) (parts : JobParts) → S.left source.old ≡ Some bytes → IsWholeText (map rc_str_bytes words.now) bytes parts
        → (Rose (S.faulted source.old) (S.faulted source.new) → ⊥) → (Rose (K.faulted sink.old) (K.faulted sink.new) → ⊥) → (result.0 ≡ 0) ⊎ (result.0 ≡ 7) }
{
    match make_answer(alloc, words, source) {
        Ok(answer) => match write_all(sink, answer.text.as_bytes()) {
            Ok(()) => answer.line.status(),
            Err(_) => Status(6),
        },
        Err(_) => Status(7),
    }
}
