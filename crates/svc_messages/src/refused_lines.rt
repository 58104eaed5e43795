//! The lines with which a script is refused behind the first one.

ghost use Rattle.std.specs.Prelude.{◌≡◌, ◌≢◌, ◌≤◌, [], All, IfOk, string_bytes, vec_len};
ghost use Rattle.svc_messages.specs.Messages.{IsMessage};
ghost use Rattle.svc_messages.specs.Refusals.{TellsOfSome};

use crate::explaining::Ending;
use crate::places::{Section, place_of};
use crate::script::first_refusal;
use crate::spelling::is_one_off;
use std::alloc::Global;
use std::str;
use svc_base::{NoMemory, READ_LIMIT, number, split_line, split_word};

/// How many refused lines are told behind the first one at most.
const MORE: usize = 9;

/// What stands before a refused line's number in a status line.
const REFUSED: &[u8] = b"status line ";

/// What stands in place of a refused line while more are looked for. Nothing where what follows depends on it.
#[derive(Clone, Copy, PartialEq, Eq)]
enum Stand<'a> {
    /// A blank line.
    Blank,
    /// The line of a service with this name, so that the services behind it keep their numbers.
    Service(&'a [u8]),
}

/// What stands in place of a refused line among the services.
fn service_stand(line: &[u8]) -> Option<Stand<'_>> {
    let (name, rest) = split_word(line)?;
    let is_alone = split_word(rest).is_none();
    if name == b"eager".as_slice() || (is_alone && is_one_off(name, b"eager")) {
        return Some(Stand::Blank);
    }
    if name.len() > 255 || str::from_utf8(name).is_err() {
        return Some(Stand::Service(b"-"));
    }
    Some(Stand::Service(name))
}

/// What stands in place of this refused line, if more lines are looked for behind it.
fn stand_of(bytes: &[u8], number: usize) -> Option<Stand<'_>> {
    let place = place_of(bytes, number);
    let line = place.line?;
    if let Some((word, _)) = split_word(line)
        && word.first() == Some(&b'%')
    {
        return None;
    }
    match place.section {
        Section::Nothing => None,
        Section::Configuration | Section::Events => Some(Stand::Blank),
        Section::Services => service_stand(line),
    }
}

/// Puts a line behind a text.
fn push_line(text: &mut Vec<u8>, line: &[u8]) -> Result<(), NoMemory> {
    text.extend_from_slice(line)?;
    text.push(b'\n')?;
    Ok(())
}

/// Puts what stands in place of a line behind a text.
fn push_stand(text: &mut Vec<u8>, stand: Stand<'_>) -> Result<(), NoMemory> {
    match stand {
        Stand::Blank => push_line(text, b""),
        Stand::Service(name) => {
            text.extend_from_slice(name)?;
            push_line(text, b" plain")
        }
    }
}

/// The text in which this stands in place of the line with this number, from 1.
fn replaced(
    alloc: Global,
    bytes: &[u8],
    number: usize,
    stand: Stand<'_>,
) -> Result<Vec<u8>, NoMemory> {
    let mut text = Vec::new(alloc);
    let mut rest = bytes;
    let mut passed = 1usize;
    while let Some((line, after)) = split_line(rest) {
        if passed == number {
            push_stand(&mut text, stand)?;
        } else {
            push_line(&mut text, line)?;
        }
        rest = after;
        passed = passed.saturating_add(1);
    }
    Ok(text)
}

/// The text of a script whose line with this number is refused, with another line in its place; None where
/// what follows depends on it.
fn without_line(alloc: Global, bytes: &[u8], number: usize) -> Result<Option<Vec<u8>>, NoMemory> {
    match stand_of(bytes, number) {
        Some(stand) => Ok(Some(replaced(alloc, bytes, number, stand)?)),
        None => Ok(None),
    }
}

/// The number that stands in the status line of a refused script.
fn refused_number(line: &[u8]) -> Option<usize> {
    let digits = line.strip_prefix(REFUSED)?;
    Some(number(digits)? as usize)
}

/// Why further lines of these bytes are refused, where the one with this number is.
fn refusals_behind(alloc: Global, bytes: &[u8], first: usize) -> Result<Vec<String>, NoMemory>
    ensures messages { IfOk result (λ notes. All (λ note. IsMessage (string_bytes note)) notes.items) }
    ensures lines { IfOk result (λ notes. All (λ note. TellsOfSome (string_bytes note)) notes.items) }
    ensures few { IfOk result (λ notes. vec_len notes ≤ 9) }
{
    let mut notes = Vec::new(alloc);
    let mut number = first;
    let mut text = without_line(alloc, bytes, number)?;
    for _ in 0..MORE {
        let Some(next) = text.take() else {
            return Ok(notes);
        };
        let Some(refusal) = first_refusal(alloc, next.as_slice())? else {
            return Ok(notes);
        };
        if refusal.number == number {
            return Ok(notes);
        }
        number = refusal.number;
        notes.push(refusal.text)?;
        text = without_line(alloc, next.as_slice(), number)?;
    }
    Ok(notes)
}

/// Why further lines of a refused script are refused, at most nine, a line each: those that are where the
/// ones before them are passed over. None is looked for behind a line that should begin a part. `NoMemory`
/// where there is none for them.
pub fn more_refusals(alloc: Global, ending: Ending<'_>) -> Result<Vec<String>, NoMemory>
    ensures messages { IfOk result (λ notes. All (λ note. IsMessage (string_bytes note)) notes.items) }
    ensures lines { IfOk result (λ notes. All (λ note. TellsOfSome (string_bytes note)) notes.items) }
    ensures few { IfOk result (λ notes. vec_len notes ≤ 9) }
    ensures none { ending.entry.status ≢ 3 → IfOk result (λ notes. notes.items ≡ []) }
{
    match ending.script {
        Some(bytes) if ending.status == 3 && bytes.len() <= READ_LIMIT => {
            match refused_number(ending.line) {
                Some(first) => refusals_behind(alloc, bytes, first),
                None => Ok(Vec::new(alloc)),
            }
        }
        _ => Ok(Vec::new(alloc)),
    }
}
