//! The text of a block, line by line.

ghost use Rattle.std.specs.Prelude.{◌≡◌, ◌+◌, ◌≤◌, ◌<◌, ◌++◌, ◌∷◌, ◌^◌, [], true, false, length, IfOk, IfSome, OnOk, Some, None, MatchOption};
ghost use Rattle.std.specs.Str.Lines.{lines};
ghost use Rattle.svc_main.specs.TextLines.{part_with};
ghost use Rattle.svc_generations.specs.Inputs.{is_mark, block_lines, behind_block, script_lines, daemon_from, makes_daemon};
ghost use Rattle.svc_generations.specs.BlockTexts.{daemon_with, ends_block};

use std::alloc::Global;
use svc_base::{NoMemory, split_line};
use svc_main::{is_daemon, is_header};

/// The lines of a block so far, as the text of a script.
#[derive(Drop)]
pub(crate) struct BlockText {
    /// The lines, each with a carriage return and a line feed behind it.
    pub text: Vec<u8>,
    /// How many lines there are.
    pub count: usize,
    /// How many parts have begun.
    part: usize,
    /// The number of the first line, from 1, that makes the server a daemon.
    pub daemon: Option<usize>,
}

/// The line begins a block, or the steps, or the events of a script.
fn is_mark(line: &[u8]) -> bool
    ensures { result ≡ is_mark line.now }
{
    line == b"%generation".as_slice()
        || line == b"%steps".as_slice()
        || line == b"%events".as_slice()
}

/// Appends a line with what ends it.
fn add_line(text: &mut Vec<u8>, line: &[u8]) -> Result<(), NoMemory>
    ensures { OnOk result (text.new.items ≡ text.old.items ++ (line.now ++ 13 ∷ 10 ∷ [])) }
{
    text.extend_from_slice(line)?;
    text.extend_from_slice(b"\r\n")?;
    Ok(())
}

/// A line of the configuration makes the server a daemon.
fn makes_daemon(alloc: Global, part: usize, line: &[u8]) -> Result<bool, NoMemory>
    ensures { IfOk result (λ makes. makes ≡ makes_daemon part line.now) }
{
    if part == 1 {
        is_daemon(alloc, line)
    } else {
        Ok(false)
    }
}

impl BlockText {
    /// A block without lines.
    fn new(alloc: Global) -> BlockText
        ensures text { result.text.items ≡ [] }
        ensures count { result.count ≡ 0 }
        ensures part { result.part ≡ 0 }
        ensures daemon { result.daemon ≡ None }
    {
        BlockText {
            text: Vec::new(alloc),
            count: 0,
            part: 0,
            daemon: None,
        }
    }

    /// Notes the line, where it is the first that makes the server a daemon.
    fn note_daemon(&mut self, alloc: Global, line: &[u8]) -> Result<(), NoMemory>
        requires { self.old.count + 1 < 2 ^ 64 }
        ensures { OnOk result (self.new ≡ record self.old { daemon = daemon_with self.old.daemon self.old.part self.old.count line.now }) }
    {
        if self.daemon.is_none() && makes_daemon(alloc, self.part, line)? {
            self.daemon = Some(self.count + 1);
        }
        Ok(())
    }

    /// Takes one more line.
    fn take_line(&mut self, alloc: Global, line: &[u8]) -> Result<(), NoMemory>
        requires count { self.old.count + 1 < 2 ^ 64 }
        requires part { self.old.part ≤ self.old.count }
        ensures text { OnOk result (self.new.text.items ≡ self.old.text.items ++ (line.now ++ 13 ∷ 10 ∷ [])) }
        ensures count { OnOk result (self.new.count ≡ self.old.count + 1) }
        ensures part { OnOk result (self.new.part ≡ part_with self.old.part line.now) }
        ensures daemon { OnOk result (self.new.daemon ≡ daemon_with self.old.daemon self.old.part self.old.count line.now) }
    {
        self.note_daemon(alloc, line)?;
        add_line(&mut self.text, line)?;
        self.count += 1;
        if is_header(line) {
            self.part += 1;
        }
        Ok(())
    }
}

/// The next line of a block, and what follows it; None where the block ends.
fn next_line(text: &[u8]) -> Option<(&[u8], &[u8])>
    ensures cut { MatchOption result (ends_block (lines text.now) ≡ true)
        (λ cut. (lines text.now ≡ cut.0.now ∷ lines cut.1.now) × (is_mark cut.0.now ≡ false)) }
    ensures shorter { IfSome result (λ cut. length cut.1.now < length text.now) }
{
    match split_line(text) {
        Some((line, after)) => {
            if is_mark(line) {
                None
            } else {
                Some((line, after))
            }
        }
        None => None,
    }
}

/// The lines of the block that a text begins with, and what follows it.
pub(crate) fn read_lines(alloc: Global, text: &[u8]) -> Result<(BlockText, &[u8]), NoMemory>
    ensures lines { IfOk result (λ r. lines r.0.text.items ≡ script_lines (block_lines (lines text.now))) }
    ensures count { IfOk result (λ r. r.0.count ≡ length (block_lines (lines text.now))) }
    ensures daemon { IfOk result (λ r. r.0.daemon ≡ daemon_from 0 0 (block_lines (lines text.now))) }
    ensures rest { IfOk result (λ r. lines r.1.now ≡ behind_block (lines text.now)) }
    ensures short { IfOk result (λ r. r.0.count + length r.1.now ≤ length text.now) }
{
    let mut block = BlockText::new(alloc);
    let mut rest = text;
    while let Some((line, after)) = next_line(rest) {
        block.take_line(alloc, line)?;
        rest = after;
    }
    add_line(&mut block.text, b"%events")?;
    Ok((block, rest))
}
