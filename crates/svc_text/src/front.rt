//! The lines of a script up to the first that doesn't fit those before it.

ghost use Rattle.std.specs.Prelude.{◌≡◌, ◌++◌, ◌∷◌, [], nat_lt, if◌then◌else◌, length, IfOk, OnOk};
ghost use Rattle.svc_text.specs.Fronts.{IsFront};

use crate::conf_text::ConfText;
use crate::reading::{LineError, Reading, is_text};
use std::alloc::Global;
use std::mem::drop;
use svc_base::{NoMemory, split_line};

/// The lines of a script up to the first that doesn't fit those before it. Those of the configuration
/// are found, and not yet looked at.
#[derive(Drop)]
pub struct ParsedPrefix {
    /// How many lines fit.
    pub number: usize,
    /// The next line doesn't fit.
    pub refused: bool,
    /// Where the text of the configuration stands.
    pub conf: ConfText,
    /// What the lines say, where all fit.
    pub reading: Reading,
    /// The number of each service's line.
    pub lines: Vec<usize>,
}

impl ParsedPrefix {
    /// The prefix that has these parts.
    fn new(
        number: usize,
        refused: bool,
        conf: ConfText,
        reading: Reading,
        lines: Vec<usize>,
    ) -> Self
        ensures { result ≡ record { number = number; refused = refused; conf = conf; reading = reading; lines = lines } }
    {
        ParsedPrefix {
            number,
            refused,
            conf,
            reading,
            lines,
        }
    }
}

/// Notes a line's number, where it said a service.
fn note_line(lines: &mut Vec<usize>, services: usize, number: usize) -> Result<(), NoMemory>
    ensures { OnOk result (lines.new.items ≡ (if nat_lt (length lines.old.items) services then lines.old.items ++ number ∷ [] else lines.old.items)) }
{
    if lines.len() < services {
        lines.push(number)?;
    }
    Ok(())
}

/// The lines of these bytes that fit.
pub fn parse_prefix(alloc: Global, bytes: &[u8]) -> Result<ParsedPrefix, NoMemory>
    ensures { IfOk result (λ front. IsFront bytes.now front) }
{
    let mut lines = Vec::new(alloc);
    let mut reading = Reading::new(alloc);
    let mut conf = ConfText {
        before: 1,
        start: 0,
        end: 0,
    };
    // Where the whole is a text, each line is one.
    let known = is_text(bytes);
    let mut rest = bytes;
    let mut number = 0usize;
    while let Some((line, after)) = split_line(rest) {
        let was = reading.part;
        match reading.take_line(alloc, line, known) {
            Ok(()) => {}
            Err(LineError::Refused) => {
                return Ok(ParsedPrefix::new(number, true, conf, reading, lines));
            }
            Err(LineError::NoMemory) => {
                drop(reading);
                drop(lines);
                return Err(NoMemory);
            }
        }
        rest = after;
        number += 1;
        conf.pass(was, reading.part, bytes.len() - rest.len());
        let Ok(()) = note_line(&mut lines, reading.services.len(), number) else {
            drop(reading);
            drop(lines);
            return Err(NoMemory);
        };
    }
    Ok(ParsedPrefix::new(number, false, conf, reading, lines))
}
