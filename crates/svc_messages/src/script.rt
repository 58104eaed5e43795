//! Why a script is refused.

ghost use Rattle.std.specs.Prelude.{◌≡◌, IfOk, IfSome, MatchOption, string_bytes};
ghost use Rattle.svc_messages.specs.FirstRefusals.{IsRefusal};
ghost use Rattle.svc_messages.specs.Messages.{IsMessage};
ghost use Rattle.svc_messages.specs.Refusals.{IsTaken, RefusesLine, NamesRefusal};

use crate::configuration::configuration_message;
use crate::dependencies::{dependency_message, refused_service};
use crate::events::event_message;
use crate::pieces::{Piece, about, numbered, told};
use crate::places::{Section, header, place_of};
use crate::services::service_message;
use crate::words::{said, unknown_word};
use std::alloc::Global;
use std::mem::drop;
use std::str;
use svc_base::{NoMemory, split_word};
use svc_text::{ScriptError, parse};

/// The lines that begin a part.
const HEADERS: [&str; 3] = ["%conf", "%services", "%events"];

/// The bytes of a byte order mark.
const MARK: &[u8] = b"\xef\xbb\xbf";

/// What a script should go on with where it ends.
fn missing_part(alloc: Global, section: Section) -> Result<String, NoMemory>
    ensures { IfOk result (λ text. IsMessage (string_bytes text)) }
{
    match section.next_header() {
        Some(header) => told(
            alloc,
            "the script ends without the line ",
            &[
                Piece::Word(header.as_bytes()),
                Piece::Text("; its parts are %conf, %services and %events"),
            ],
        ),
        None => said(alloc, "the script is refused behind its last line"),
    }
}

/// Why a line that begins a part stands wrongly.
fn header_message(alloc: Global, section: Section, line: &[u8]) -> Result<String, NoMemory>
    ensures { IfOk result (λ text. IsMessage (string_bytes text)) }
{
    match section.next_header() {
        Some(header) => about(
            alloc,
            line,
            " stands out of order; the next part is ",
            &[Piece::Word(header.as_bytes())],
        ),
        None => about(
            alloc,
            line,
            " stands out of order; %events is the last part",
            &[],
        ),
    }
}

/// Why a line that begins with `%` begins no part.
fn percent_message(alloc: Global, word: &[u8]) -> Result<String, NoMemory>
    ensures { IfOk result (λ text. IsMessage (string_bytes text)) }
{
    if header(word).is_some() {
        return about(
            alloc,
            word,
            " stands alone in its line, without blanks around it",
            &[],
        );
    }
    unknown_word(alloc, word, "part of a script", &HEADERS)
}

/// Why a line of the script is refused, without the number of the line.
fn line_message(alloc: Global, bytes: &[u8], number: usize) -> Result<String, NoMemory>
    ensures { IfOk result (λ text. IsMessage (string_bytes text)) }
{
    let place = place_of(bytes, number);
    let Some(line) = place.line else {
        return missing_part(alloc, place.section);
    };
    if str::from_utf8(line).is_err() {
        return said(alloc, "the line isn't UTF-8, as a script is");
    }
    if number == 1 && line.starts_with(MARK) {
        return said(
            alloc,
            "a byte order mark, the bytes ef bb bf, stands before the first line; a script begins without one",
        );
    }
    if header(line).is_some() {
        return header_message(alloc, place.section, line);
    }
    if let Some((word, _)) = split_word(line)
        && word.first() == Some(&b'%')
    {
        return percent_message(alloc, word);
    }
    match place.section {
        Section::Nothing => about(
            alloc,
            line,
            " stands before the line %conf; comments behind # alone may",
            &[],
        ),
        Section::Configuration => configuration_message(alloc, bytes, number, line),
        Section::Services => service_message(alloc, bytes, line),
        Section::Events => event_message(alloc, line),
    }
}

/// The line with which a script is refused, and why.
#[derive(Drop)]
pub struct Refusal {
    /// The number of the line, from 1.
    pub number: usize,
    /// What is said of it, with its number before.
    pub text: String,
}

/// The refusal of the line with this number, for this cause.
fn refusal_of(alloc: Global, number: usize, cause: &str) -> Result<Refusal, NoMemory>
    requires { IsMessage cause.now }
    ensures { IfOk result (λ refusal. (refusal.number ≡ number) × IsRefusal refusal) }
{
    let text = numbered(alloc, number, cause)?;
    Ok(Refusal { number, text })
}

/// The first line with which the script is refused, and why; None where it isn't refused.
pub fn first_refusal(alloc: Global, bytes: &[u8]) -> Result<Option<Refusal>, NoMemory>
    ensures { IfOk result (λ found. MatchOption found (IsTaken bytes.now) (λ refusal. RefusesLine bytes.now refusal.number × IsRefusal refusal)) }
{
    let script = match parse(alloc, bytes) {
        Ok(script) => script,
        Err(ScriptError::NoMemory) => return Err(NoMemory),
        Err(ScriptError::Line(number)) => {
            let cause = line_message(alloc, bytes, number)?;
            return Ok(Some(refusal_of(alloc, number, cause.as_str())?));
        }
    };
    match refused_service(alloc, &script.services) {
        Ok(Some(k)) => {
            let number = script.lines[k];
            let cause = dependency_message(alloc, &script.services, k);
            drop(script);
            let cause = cause?;
            Ok(Some(refusal_of(alloc, number, cause.as_str())?))
        }
        Ok(None) => {
            drop(script);
            Ok(None)
        }
        Err(NoMemory) => {
            drop(script);
            Err(NoMemory)
        }
    }
}

/// Why the script is refused, in one line that begins with the number of the refused one; None where it isn't.
pub fn script_message(alloc: Global, bytes: &[u8]) -> Result<Option<String>, NoMemory>
    ensures refused { IfOk result (λ message. MatchOption message (IsTaken bytes.now) (λ text. NamesRefusal bytes.now (string_bytes text))) }
    ensures message { IfOk result (λ told. IfSome told (λ text. IsMessage (string_bytes text))) }
{
    match first_refusal(alloc, bytes)? {
        Some(refusal) => Ok(Some(refusal.text)),
        None => Ok(None),
    }
}
