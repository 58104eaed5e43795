//! The text of a record read back.

ghost use Rattle.std.specs.Prelude.{ℕ, ◌≡◌, ◌≢◌, ◌⊎◌, ◌+◌, ◌<◌, ◌^◌, ◌++◌, [], ◌∷◌, None, length, reverse, IfOk, IfErr, MatchBool, MatchResult};
ghost use Rattle.std.specs.Str.Lines.{lines};
ghost use Rattle.svc_judging.specs.EntryLines.{entry_text, IsNoEntry};
ghost use Rattle.svc_judging.specs.StatusLines.{end_of};
ghost use Rattle.svc_judging.specs.Readings.{IsEndLine, AreRecord, RefusesLine};
ghost use Rattle.svc_judging.specs.declared.reading.RecordError.TheVariants as errors;
ghost use Rattle.svc_record.specs.declared.entry.Entry.{Entry};

use crate::entry_lines::read_entry;
use crate::status_lines::{RecordEnd, end_of};
use std::alloc::Global;
use std::mem::drop;
use svc_base::{NoMemory, split_line};
use svc_record::Entry;
use thiserror::Error;

/// A record that was read.
#[derive(Drop)]
pub struct ReadRecord {
    /// Its entries, the newest first.
    pub entries: Vec<Entry>,
    /// How its run ended.
    pub end: RecordEnd,
}

/// Why a text is no record.
#[derive(Clone, Copy, Debug, PartialEq, Eq, Error)]
pub enum RecordError {
    /// The line with this number, from 1, is the first that is no entry's, and no status line that is the last one.
    #[error("line {0} is no entry")]
    Line(u64),
    /// There was no memory.
    #[error("out of memory")]
    NoMemory,
}

impl From<NoMemory> for RecordError {
    ghost use Rattle.svc_judging.specs.declared.reading.RecordError.TheVariants.{NoMemory};

    ghost from_gives = { λ _ e. e ≡ NoMemory };

    fn from(_: NoMemory) -> Self {
        RecordError::NoMemory
    }
}

/// Adds the entry whose line this is.
fn take_line(alloc: Global, entries: &mut Vec<Entry>, line: &[u8]) -> Result<bool, NoMemory>
    ensures { IfOk result (λ taken. MatchBool taken
        ((e : Entry) × (line.now ≡ entry_text e) × (entries.new.items ≡ entries.old.items ++ e ∷ []))
        (IsNoEntry line.now × (entries.new.items ≡ entries.old.items))) }
{
    let Some(entry) = read_entry(alloc, line)? else {
        return Ok(false);
    };
    entries.push(entry)?;
    Ok(true)
}

/// How the run ended, by the first line that is no entry's and what follows it.
fn ended(line: &[u8], after: &[u8], number: u64) -> Result<RecordEnd, RecordError>
    ensures { MatchResult result (IsEndLine line.now (lines after.now))
        (λ error. (error ≡ errors.Line number) × ((end_of line.now ≡ None) ⊎ (lines after.now ≢ []))) }
{
    let Some(end) = end_of(line) else {
        return Err(RecordError::Line(number));
    };
    if split_line(after).is_some() {
        return Err(RecordError::Line(number));
    }
    Ok(end)
}

/// Adds the entries of the lines, the oldest first, and says how the run ended.
fn read_lines(
    alloc: Global,
    entries: &mut Vec<Entry>,
    text: &[u8],
) -> Result<RecordEnd, RecordError>
    requires none { entries.old.items ≡ [] }
    requires short { length text.now + 1 < 2 ^ 64 }
    ensures record { IfOk result (λ end. AreRecord (lines text.now) entries.new.items end) }
    ensures refused { IfErr result (λ error. (n : ℕ) → error ≡ errors.Line n → RefusesLine (lines text.now) n) }
{
    let mut number = 1u64;
    let mut rest = text;
    'lines: while let Some((line, after)) = split_line(rest) {
        if !take_line(alloc, entries, line)? {
            return ended(line, after, number);
        }
        number += 1;
        rest = after;
    }
    Ok(RecordEnd::Open)
}

/// The record that the text is: a line for each entry, the oldest first, and then at most a status line.
/// `Line` with the first line that is no entry's, and no status line that is the last one; a carriage return
/// right before a line feed is dropped. `NoMemory` where there is none for the entries.
pub fn read_record(alloc: Global, text: &[u8]) -> Result<ReadRecord, RecordError>
    requires { length text.now + 1 < 2 ^ 64 }
    ensures record { IfOk result (λ read. AreRecord (lines text.now) (reverse read.entries.items) read.end) }
    ensures refused { IfErr result (λ error. (n : ℕ) → error ≡ errors.Line n → RefusesLine (lines text.now) n) }
{
    let mut entries = Vec::new(alloc);
    match read_lines(alloc, &mut entries, text) {
        Ok(end) => {
            entries.reverse();
            Ok(ReadRecord { entries, end })
        }
        Err(error) => {
            drop(entries);
            Err(error)
        }
    }
}
