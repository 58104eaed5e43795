//! The program as one call.

ghost use Rattle.std.specs.Prelude.{◌≡◌, ◌≢◌, ◌⊎◌, ◌<◌, ◌++◌, [], map, List, All, ℕ, IfOk, OnOk, Some, None, string_bytes};
ghost use Rattle.std.specs.Rc.{rc_str_bytes};
ghost use Rattle.std.specs.Io.KnownBytes.{Appends, Consumes};
ghost use Rattle.svc_base.specs.Streams.{Rose};
ghost use Rattle.svc_record.specs.declared.entry.Entry.{Entry};
ghost use Rattle.svc_record.specs.Text.{text_of, EntryFits};
ghost use Rattle.svc_text.specs.Script.{Parts};
ghost use Rattle.svc_main.specs.declared.outcome.StatusLine.{StatusLine};
ghost use Rattle.svc_main.specs.declared.outcome.StatusLine.TheVariants.{Words, ReadFault, Run};
ghost use Rattle.svc_main.specs.declared.outcome.RunEnd.TheVariants.{Served};
ghost use Rattle.svc_main.specs.Status.{status_line, StatusFits, IsStatus};
ghost use Rattle.svc_main.specs.CommandWords.{TakesWords, RefusesWords, made_size};
ghost use Rattle.svc_main.specs.Program.{Ran, Made, RefusedText, IsAnswer, Ends, Faults, Writes, WritesFront, IsWholeScript};

use crate::answering::{Answer, answer_made, answer_script, said};
use crate::kept::KeptTexts;
use crate::outcome::StatusLine;
use crate::words::{made_size, read_words};
use std::alloc::Global;
use std::mem::drop;
use std::rc::RcStr;
use svc_base::{NoMemory, ReadAllError, Sink, Source, Status, read_to_end, write_all};
use svc_text::{ScriptError, parse};

/// What is to be written, where the words don't ask for the generator.
fn answer_run<S: Source>(
    alloc: Global,
    words: &[RcStr],
    source: &mut S,
    bytes: &mut Vec<u8>,
) -> Result<Answer, NoMemory>
    requires run { made_size (map rc_str_bytes words.now) ≡ None }
    requires unread { bytes.old.items ≡ [] }
    ensures answer { IfOk result (λ a. IsAnswer (map rc_str_bytes words.now) (S.left source.old) a.line (string_bytes a.text)) }
    ensures ended { IfOk result (λ a. Ends (map rc_str_bytes words.now) a.line (S.left source.new)) }
    ensures fault { IfOk result (λ a. Faults a.line (S.faulted source.old) (S.faulted source.new)) }
    ensures kept { OnOk result (Consumes (S.left source.old) (S.left source.new) bytes.new.items) }
{
    let Some(opt) = read_words(alloc, words)? else {
        return said(alloc, StatusLine::Words);
    };
    match read_to_end(source, bytes) {
        Ok(()) => {}
        Err(ReadAllError::Fault) => return said(alloc, StatusLine::ReadFault),
        Err(ReadAllError::TooLong) => return said(alloc, StatusLine::Line(0)),
        Err(ReadAllError::NoMemory) => return Err(NoMemory),
    }
    match parse(alloc, bytes.as_slice()) {
        Ok(script) => answer_script(alloc, opt, script),
        Err(ScriptError::Line(n)) => said(alloc, StatusLine::Line(n as u64)),
        Err(ScriptError::NoMemory) => Err(NoMemory),
    }
}

/// What is to be written.
fn make_answer<S: Source>(
    alloc: Global,
    words: &[RcStr],
    source: &mut S,
    bytes: &mut Vec<u8>,
) -> Result<Answer, NoMemory>
    requires { bytes.old.items ≡ [] }
    ensures answer { IfOk result (λ a. IsAnswer (map rc_str_bytes words.now) (S.left source.old) a.line (string_bytes a.text)) }
    ensures ended { IfOk result (λ a. Ends (map rc_str_bytes words.now) a.line (S.left source.new)) }
    ensures fault { IfOk result (λ a. Faults a.line (S.faulted source.old) (S.faulted source.new)) }
    ensures made { (n : ℕ) → made_size (map rc_str_bytes words.now) ≡ Some n → IfOk result (λ a. a.line ≡ Run Served) }
    ensures unread { (n : ℕ) → made_size (map rc_str_bytes words.now) ≡ Some n → source.new ≡ source.old }
    ensures kept { OnOk result (Consumes (S.left source.old) (S.left source.new) bytes.new.items) }
{
    match made_size(words) {
        Some(n) => answer_made(alloc, n),
        None => answer_run(alloc, words, source, bytes),
    }
}

/// Serves a script as `serve_script` does. What was read and what was to be written is kept beside, so that how
/// it ended can be explained. Nothing is kept yet.
pub fn serve_kept<S: Source, K: Sink>(
    alloc: Global,
    words: &[RcStr],
    source: &mut S,
    sink: &mut K,
    kept: &mut KeptTexts,
) -> Status
    requires { kept.old.script.items ≡ [] }

    // Served, tested, or the parent of the process that serves: what was read, to its end, is a script,
    // and what was written is the record of its run with the flags, and how it ended. Or the words ask
    // for the generator, and the counts of its run were written.
    ensures served { result.0 ≡ 0 → Ran 0 (map rc_str_bytes words.now) (S.left source.old) (S.left source.new) (K.written sink.old) (K.written sink.new)
        ⊎ Made (map rc_str_bytes words.now) (K.written sink.old) (K.written sink.new) }

    // The generator's events run through, unless memory runs out or the sink fails. It reads nothing.
    ensures made { (n : ℕ) → made_size (map rc_str_bytes words.now) ≡ Some n → (result.0 ≡ 0) ⊎ ((result.0 ≡ 6) ⊎ (result.0 ≡ 7)) }
    ensures unread { (n : ℕ) → made_size (map rc_str_bytes words.now) ≡ Some n → source.new ≡ source.old }

    // The parent of a process that isn't ready.
    ensures parent { result.0 ≡ 1 → Ran 1 (map rc_str_bytes words.now) (S.left source.old) (S.left source.new) (K.written sink.old) (K.written sink.new) }

    // Words that are refused give 2, unless the sink fails or memory runs out, and nothing else does.
    ensures words_refused { RefusesWords (map rc_str_bytes words.now) → (result.0 ≡ 2) ⊎ ((result.0 ≡ 6) ⊎ (result.0 ≡ 7)) }
    ensures words { result.0 ≡ 2 → RefusesWords (map rc_str_bytes words.now)
        × Appends (K.written sink.old) (K.written sink.new) (status_line Words) }

    // The first refused line, or 0 for a text that is too long.
    ensures refused { result.0 ≡ 3 → TakesWords (map rc_str_bytes words.now)
        × Writes (K.written sink.old) (K.written sink.new) (λ out. RefusedText (S.left source.old) (S.left source.new) out) }

    // A run that ended otherwise: its configuration is refused, an event didn't fit, the host failed,
    // the items were used up, or an older server's sockets weren't taken over. All is closed.
    ensures run_error { result.0 ≡ 4 → Ran 4 (map rc_str_bytes words.now) (S.left source.old) (S.left source.new) (K.written sink.old) (K.written sink.new) }

    ensures read_fault { result.0 ≡ 5 → TakesWords (map rc_str_bytes words.now) × Rose (S.faulted source.old) (S.faulted source.new)
        × Appends (K.written sink.old) (K.written sink.new) (status_line ReadFault) }

    ensures write_fault { result.0 ≡ 6 → Rose (K.faulted sink.old) (K.faulted sink.new)
        × WritesFront (map rc_str_bytes words.now) (S.left source.old) (S.left source.new) (S.faulted source.old) (S.faulted source.new)
        (K.written sink.old) (K.written sink.new) }

    // Where memory ran out, nothing was written.
    ensures no_memory { result.0 ≡ 7 → K.written sink.new ≡ K.written sink.old }
    ensures others { IsStatus result.0 }

    // A whole script of events that fit and go through the shutdown gives the status 0, unless memory
    // runs out or the source or the sink fails.
    ensures complete { (bytes : List ℕ) (parts : Parts) → S.left source.old ≡ Some bytes → IsWholeScript (map rc_str_bytes words.now) bytes parts
        → (Rose (S.faulted source.old) (S.faulted source.new) → ⊥) → (Rose (K.faulted sink.old) (K.faulted sink.new) → ⊥) → (result.0 ≡ 0) ⊎ (result.0 ≡ 7) }

    // What was read is kept, unless memory ran out, and what was written, unless the sink failed, too.
    ensures script_kept { result.0 ≢ 7 → Consumes (S.left source.old) (S.left source.new) kept.new.script.items }
    ensures text_kept { result.0 ≢ 6 → result.0 ≢ 7 → Appends (K.written sink.old) (K.written sink.new) (string_bytes kept.new.text) }
{
    match make_answer(alloc, words, source, &mut kept.script) {
        Ok(answer) => match write_all(sink, answer.text.as_bytes()) {
            Ok(()) => {
                kept.text = answer.text;
                answer.line.status()
            }
            Err(_) => Status(6),
        },
        Err(_) => Status(7),
    }
}

/// Serves a script: reads it from the source to its end, runs it, and writes the record and a status
/// line to the sink. With `gen` and a number it serves so many services of the generator, and writes
/// how many services were started, endpoints bound and descriptors closed. The words are those after
/// the program's name.
pub fn serve_script<S: Source, K: Sink>(
    alloc: Global,
    words: &[RcStr],
    source: &mut S,
    sink: &mut K,
) -> Status
    // Served, tested, or the parent of the process that serves: what was read, to its end, is a script,
    // and what was written is the record of its run with the flags, and how it ended. Or the words ask
    // for the generator, and the counts of its run were written.
    ensures served { result.0 ≡ 0 → Ran 0 (map rc_str_bytes words.now) (S.left source.old) (S.left source.new) (K.written sink.old) (K.written sink.new)
        ⊎ Made (map rc_str_bytes words.now) (K.written sink.old) (K.written sink.new) }

    // The generator's events run through, unless memory runs out or the sink fails. It reads nothing.
    ensures made { (n : ℕ) → made_size (map rc_str_bytes words.now) ≡ Some n → (result.0 ≡ 0) ⊎ ((result.0 ≡ 6) ⊎ (result.0 ≡ 7)) }
    ensures unread { (n : ℕ) → made_size (map rc_str_bytes words.now) ≡ Some n → source.new ≡ source.old }

    // The parent of a process that isn't ready.
    ensures parent { result.0 ≡ 1 → Ran 1 (map rc_str_bytes words.now) (S.left source.old) (S.left source.new) (K.written sink.old) (K.written sink.new) }

    // Words that are refused give 2, unless the sink fails or memory runs out, and nothing else does.
    ensures words_refused { RefusesWords (map rc_str_bytes words.now) → (result.0 ≡ 2) ⊎ ((result.0 ≡ 6) ⊎ (result.0 ≡ 7)) }
    ensures words { result.0 ≡ 2 → RefusesWords (map rc_str_bytes words.now)
        × Appends (K.written sink.old) (K.written sink.new) (status_line Words) }

    // The first refused line, or 0 for a text that is too long.
    ensures refused { result.0 ≡ 3 → TakesWords (map rc_str_bytes words.now)
        × Writes (K.written sink.old) (K.written sink.new) (λ out. RefusedText (S.left source.old) (S.left source.new) out) }

    // A run that ended otherwise: its configuration is refused, an event didn't fit, the host failed,
    // the items were used up, or an older server's sockets weren't taken over. All is closed.
    ensures run_error { result.0 ≡ 4 → Ran 4 (map rc_str_bytes words.now) (S.left source.old) (S.left source.new) (K.written sink.old) (K.written sink.new) }

    ensures read_fault { result.0 ≡ 5 → TakesWords (map rc_str_bytes words.now) × Rose (S.faulted source.old) (S.faulted source.new)
        × Appends (K.written sink.old) (K.written sink.new) (status_line ReadFault) }

    ensures write_fault { result.0 ≡ 6 → Rose (K.faulted sink.old) (K.faulted sink.new)
        × WritesFront (map rc_str_bytes words.now) (S.left source.old) (S.left source.new) (S.faulted source.old) (S.faulted source.new)
        (K.written sink.old) (K.written sink.new) }

    // Where memory ran out, nothing was written.
    ensures no_memory { result.0 ≡ 7 → K.written sink.new ≡ K.written sink.old }
    ensures others { IsStatus result.0 }

    // A whole script of events that fit and go through the shutdown gives the status 0, unless memory
    // runs out or the source or the sink fails.
    ensures complete { (bytes : List ℕ) (parts : Parts) → S.left source.old ≡ Some bytes → IsWholeScript (map rc_str_bytes words.now) bytes parts
        → (Rose (S.faulted source.old) (S.faulted source.new) → ⊥) → (Rose (K.faulted sink.old) (K.faulted sink.new) → ⊥) → (result.0 ≡ 0) ⊎ (result.0 ≡ 7) }
{
    let mut kept = KeptTexts::new(alloc);
    let status = serve_kept(alloc, words, source, sink, &mut kept);
    drop(kept);
    status
}

/// What was written tells the record: two records that give one text are equal.
pub fn one_answer()
    ensures { (r q : List Entry) (s t : StatusLine) → All EntryFits r → All EntryFits q → StatusFits s → StatusFits t
        → text_of r ++ status_line s ≡ text_of q ++ status_line t → r ≡ q }
{}
