//! Why a run ended otherwise than by its shutdown.

ghost use Rattle.std.specs.Prelude.{IfOk, IfSome, string_bytes};
ghost use Rattle.svc_messages.specs.Messages.{IsPlain, IsMessage};

use crate::configuration::key_message;
use crate::events::fits_where;
use crate::pieces::{Piece, told};
use crate::places::{Section, header};
use crate::record_lines::before_last_event;
use crate::stray::{Judged, put_cause};
use crate::waits::used_up;
use std::alloc::Global;
use std::str;
use svc_base::{NoMemory, number, split_line, split_word};

/// The line is one of an event.
fn is_event(line: &[u8]) -> bool {
    match split_word(line) {
        Some((word, _)) => word != b"fault".as_slice() && word.first() != Some(&b'#'),
        None => false,
    }
}

/// The line of the k-th event of a script, from 1, with its number, from 1.
fn event_line(bytes: &[u8], k: u64) -> Option<(usize, &[u8])> {
    let mut section = Section::Nothing;
    let mut rest = bytes;
    let mut number = 1usize;
    let mut events = 0u64;
    while let Some((line, after)) = split_line(rest) {
        if let Some(next) = header(line) {
            section = next;
        } else if section == Section::Events && is_event(line) {
            events = events.saturating_add(1);
            if events >= k {
                return Some((number, line));
            }
        }
        rest = after;
        number = number.saturating_add(1);
    }
    None
}

/// Where the k-th event, which was refused, would fit.
fn fits_text(alloc: Global, number: usize, line: &[u8], k: u64) -> Result<Option<String>, NoMemory>
    ensures { IfOk result (λ told. IfSome told (λ text. IsMessage (string_bytes text))) }
{
    let where_it_fits = match split_word(line) {
        Some((word, _)) => fits_where(word),
        None => return Ok(None),
    };
    let pieces = [
        Piece::Number(number as u64),
        Piece::Text(": "),
        Piece::Word(line),
        Piece::Text(", event "),
        Piece::Number(k),
        Piece::Text(", doesn't fit there; it fits where "),
        Piece::Text(where_it_fits),
    ];
    Ok(Some(told(alloc, "line ", &pieces)?))
}

/// Why the k-th event was refused.
fn stray_message(
    alloc: Global,
    bytes: &[u8],
    record: &[u8],
    k: u64,
) -> Result<Option<String>, NoMemory>
    ensures { IfOk result (λ told. IfSome told (λ text. IsMessage (string_bytes text))) }
{
    let Some((number, line)) = event_line(bytes, k) else {
        return Ok(None);
    };
    let Some((key, words)) = split_word(line) else {
        return Ok(None);
    };
    let judged = Judged {
        script: bytes,
        record: before_last_event(record),
        words,
    };
    let pieces = [
        Piece::Number(number as u64),
        Piece::Text(": "),
        Piece::Word(line),
        Piece::Text(", event "),
        Piece::Number(k),
        Piece::Text(", doesn't fit there: "),
    ];
    let mut text = told(alloc, "line ", &pieces)?;
    if !record.is_empty() && put_cause(alloc, &mut text, &judged, key)? {
        return Ok(Some(text));
    }
    fits_text(alloc, number, line, k)
}

/// What stands behind `status stray `.
fn stray_number(line: &str) -> Option<u64> {
    number(line.strip_prefix("status stray ")?.as_bytes())
}

/// Why a run that left this status line ended, where that is known without its script.
fn plain_message(line: &str) -> Option<&'static str>
    ensures { IfSome result (λ text. IsMessage text.now) }
{
    match line {
        "status host fault" => Some(
            "a line fault came, at which the host fails in place of giving an event",
        ),
        "status out of events" => Some(
            "the events are used up before the shutdown; signal fast, terminate or upgrade begins one, and the grace period needs moment lines",
        ),
        "status transfer" => Some(
            "receivefailed came: a try to receive from the older server failed; received HEX FDS brings what it sent",
        ),
        "status no sender" => Some(
            "no older server sent its descriptors, after all tries; received HEX FDS brings what it sent",
        ),
        "status bad message" => Some(
            "what came by received is no message; its bytes are one address for each descriptor, joined by blanks, none twice",
        ),
        _ => None,
    }
}

/// Why a run that left this status line ended, of which this record was kept.
pub fn end_message(
    alloc: Global,
    bytes: &[u8],
    record: &[u8],
    line: &[u8],
) -> Result<Option<String>, NoMemory>
    ensures { IsPlain line.now → IfOk result (λ told. IfSome told (λ text. IsMessage (string_bytes text))) }
{
    let Ok(text) = str::from_utf8(line) else {
        return Ok(None);
    };
    if let Some(k) = stray_number(text) {
        return stray_message(alloc, bytes, record, k);
    }
    if let Some(name) = text.strip_prefix("status config ") {
        return Ok(Some(key_message(alloc, bytes, name)?));
    }
    if text == "status out of events" && !record.is_empty() {
        return Ok(Some(used_up(alloc, bytes, record)?));
    }
    match plain_message(text) {
        Some(text) => Ok(Some(String::from_str(alloc, text)?)),
        None => Ok(None),
    }
}
