//! The parts of a file: a script without its events, and perhaps what its services do.

ghost use Rattle.std.specs.Prelude.{◌≡◌, ◌+◌, ◌<◌, ◌≤◌, ◌^◌, length, IfOk, IfErr};
ghost use Rattle.std.specs.Str.Lines.{lines};
ghost use Rattle.svc_base.specs.Words.{words};
ghost use Rattle.svc_work.specs.Parts.{is_skipped, is_header, AreParts, AreSaid, IsAdded, IsRefused};

use crate::works::{WorkLine, line_of};
use std::alloc::Global;
use svc_base::{NoMemory, Text, split_line, split_word};
use thiserror::Error;

/// The header of the lines that say what services do.
const HEADER: &[u8] = b"%work";

/// A file's script, and the lines behind the header `%work`.
#[derive(Clone, Copy)]
pub struct FileParts<'a> {
    pub script: &'a [u8],
    pub works: &'a [u8],
    /// The number of the header's line, from 1. Where there is none, that of the line behind the last.
    pub number: u64,
}

/// The line is the header.
fn is_header(line: &[u8]) -> bool
    ensures { result ≡ is_header line.now }
{
    line == HEADER
}

/// The parts of a file. Where it has no header `%work`, there are no lines behind it.
pub fn file_parts(bytes: &[u8]) -> FileParts<'_>
    requires { length bytes.now + 1 < 2 ^ 64 }
    ensures parts { AreParts bytes.now result.script.now result.works.now result.number }
    ensures short { result.number + length result.works.now ≤ length bytes.now + 1 }
{
    let mut rest = bytes;
    let mut number = 1u64;
    while let Some((line, after)) = split_line(rest) {
        if is_header(line) {
            return FileParts {
                script: &bytes[..bytes.len() - rest.len()],
                works: after,
                number,
            };
        }
        number += 1;
        rest = after;
    }
    FileParts {
        script: bytes,
        works: &[],
        number,
    }
}

/// Why lines don't say what services do.
#[derive(Clone, Copy, Debug, PartialEq, Eq, Error)]
pub enum WorksRefused {
    /// The line with this number is the first that says nothing that a service does.
    #[error("line {0} says nothing that a service does")]
    Line(u64),
    /// There was no memory.
    #[error("out of memory")]
    NoMemory,
}

impl From<NoMemory> for WorksRefused {
    ghost use Rattle.svc_work.specs.declared.parts.WorksRefused.TheVariants.{NoMemory};

    ghost from_gives = { λ _ e. e ≡ NoMemory };

    fn from(_: NoMemory) -> Self {
        WorksRefused::NoMemory
    }
}

/// The line is blank, or a comment.
#[tactic(auto, unfolding(crate::specs::Parts::is_skipped))]
fn is_skipped(line: &[u8]) -> bool
    ensures { result ≡ is_skipped (words line.now) }
{
    match split_word(line) {
        None => true,
        Some((word, _)) => matches!(word.first(), Some(b'#')),
    }
}

/// Adds what a line says. Answers whether it may stand there.
fn add_line(
    alloc: Global,
    names: &[Text],
    works: &mut Vec<WorkLine>,
    line: &[u8],
) -> Result<bool, NoMemory>
    ensures { IfOk result (λ may. IsAdded names.now line.now works.old.items works.new.items may) }
{
    if is_skipped(line) {
        return Ok(true);
    }
    match line_of(alloc, names, line)? {
        Some(work) => {
            works.push(work)?;
            Ok(true)
        }
        None => Ok(false),
    }
}

/// What the lines say of services with these names, in their order, or the first that says nothing. The first
/// line has this number.
pub fn works_of(
    alloc: Global,
    names: &[Text],
    text: &[u8],
    first: u64,
) -> Result<Vec<WorkLine>, WorksRefused>
    requires { first + length text.now < 2 ^ 64 }
    ensures said { IfOk result (λ works. AreSaid names.now first (lines text.now) works.items) }
    ensures refused { IfErr result (λ refused. IsRefused names.now first (lines text.now) refused) }
{
    let mut works = Vec::new(alloc);
    let mut number = first;
    let mut rest = text;
    while let Some((line, after)) = split_line(rest) {
        if !add_line(alloc, names, &mut works, line)? {
            return Err(WorksRefused::Line(number));
        }
        number += 1;
        rest = after;
    }
    Ok(works)
}
