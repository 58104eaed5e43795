//! What is said of a program that has ended.

ghost use Rattle.std.specs.Prelude.{◌≡◌, ◌<◌, ◌≤◌, IfOk, IfSome, IsNone, IsSome, MatchOption, length, string_bytes};
ghost use Rattle.svc_messages.specs.Refusals.{AlwaysTold, IsTaken, NamesRefusal};

use crate::command::words_message;
use crate::ends::end_message;
use crate::script::script_message;
use crate::words::said;
use std::alloc::Global;
use std::rc::RcStr;
use svc_base::{NoMemory, READ_LIMIT};

/// How the program ended.
#[derive(Clone, Copy)]
pub struct Ending<'a> {
    /// The words behind its name.
    pub words: &'a [RcStr],
    /// What it read, where that was kept.
    pub script: Option<&'a [u8]>,
    /// What it wrote, where that was kept; nothing where it wasn't.
    pub record: &'a [u8],
    /// The last line that it wrote, without its end.
    pub line: &'a [u8],
    /// Its exit status.
    pub status: u8,
}

/// Why a script of these bytes was refused.
fn text_message(alloc: Global, bytes: &[u8]) -> Result<Option<String>, NoMemory>
    ensures { length bytes.now ≤ READ_LIMIT →
        IfOk result (λ message. MatchOption message (IsTaken bytes.now) (λ text. NamesRefusal bytes.now (string_bytes text))) }
{
    if bytes.len() > READ_LIMIT {
        let text = "the script is too long; it may have 16777216 bytes";
        return Ok(Some(said(alloc, text)?));
    }
    script_message(alloc, bytes)
}

/// Why the program ended so, in one line, or in several where the help is asked for; None where nothing is
/// to be explained. The status decides, so a run that went through its shutdown isn't explained.
pub fn explanation(alloc: Global, ending: Ending<'_>) -> Result<Option<String>, NoMemory>
    ensures served { ending.entry.status ≡ 0 → IfOk result (λ told. IsNone told) }
    ensures told { AlwaysTold ending.entry.status → IfOk result (λ told. IsSome told) }
    ensures refused { ending.entry.status ≡ 3 → IfSome ending.entry.script (λ bytes. length bytes.now ≤ READ_LIMIT →
        IfOk result (λ told. MatchOption told (IsTaken bytes.now) (λ text. NamesRefusal bytes.now (string_bytes text)))) }
{
    match (ending.status, ending.script) {
        (1, _) => Ok(Some(said(alloc, "the daemon's child isn't ready")?)),
        (2, _) => Ok(Some(words_message(alloc, ending.words)?)),
        (3, Some(bytes)) => text_message(alloc, bytes),
        (4, Some(bytes)) => end_message(alloc, bytes, ending.record, ending.line),
        (5, _) => Ok(Some(said(alloc, "standard input can't be read")?)),
        (6, _) => Ok(Some(said(alloc, "standard output can't be written")?)),
        (7, _) => Ok(Some(said(alloc, "out of memory")?)),
        _ => Ok(None),
    }
}
