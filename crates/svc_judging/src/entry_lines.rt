//! What a record's line says as an entry.

ghost use Rattle.std.specs.Prelude.{◌≡◌, ◌==◌, IfOk, MatchOption};
ghost use Rattle.std.specs.Str.{bytes_eq};
ghost use Rattle.svc_base.specs.Words.{words};
ghost use Rattle.svc_judging.specs.EntryLines.{entry_of, entry_text, IsNoEntry};

use crate::action_lines::action_of_key;
use std::alloc::Global;
use std::mem::drop;
use svc_base::{NoMemory, split_word};
use svc_record::Entry;
use svc_text::event_of_line;

/// The event that was got, if there is one.
#[tactic(auto, unfolding(crate::specs::EntryLines::entry_of))]
fn entry_of_line(alloc: Global, line: &[u8]) -> Result<Option<Entry>, NoMemory>
    ensures { IfOk result (λ o. o ≡ entry_of (words line.now)) }
{
    let Some((key, rest)) = split_word(line) else {
        return Ok(None);
    };
    if key == b"got".as_slice() {
        return match event_of_line(alloc, rest)? {
            Some(event) => Ok(Some(Entry::Got(event))),
            None => Ok(None),
        };
    }
    match action_of_key(alloc, key, rest)? {
        Some(action) => Ok(Some(Entry::Told(action))),
        None => Ok(None),
    }
}

/// The line is the entry's, as it is printed.
fn is_printed(alloc: Global, entry: &Entry, line: &[u8]) -> Result<bool, NoMemory>
    ensures { IfOk result (λ same. same ≡ bytes_eq (entry_text entry.now) line.now) }
{
    let text = format!(in alloc; "{entry}")?;
    Ok(text.as_bytes() == line)
}

/// The entry whose line this is, without its line feed; none where the line is no entry's. `NoMemory` where
/// there is none for the entry and its text.
pub fn read_entry(alloc: Global, line: &[u8]) -> Result<Option<Entry>, NoMemory>
    ensures { IfOk result (λ o. MatchOption o (IsNoEntry line.now) (λ e. line.now ≡ entry_text e)) }
{
    let Some(entry) = entry_of_line(alloc, line)? else {
        return Ok(None);
    };
    match is_printed(alloc, &entry, line) {
        Ok(true) => Ok(Some(entry)),
        Ok(false) => {
            drop(entry);
            Ok(None)
        }
        Err(NoMemory) => {
            drop(entry);
            Err(NoMemory)
        }
    }
}
