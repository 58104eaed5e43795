//! The input of a chain: its blocks, and its steps.

ghost use Rattle.std.specs.Prelude.{◌≡◌, ℕ, ◌+◌, ◌<◌, ◌≤◌, ◌^◌, ◌∷◌, false, length, All, Ok, IfOk, IfErr, IfSome, MatchOption};
ghost use Rattle.std.specs.Str.Lines.{lines};
ghost use Rattle.svc_text.specs.Outcome.{parts_of};
ghost use Rattle.svc_text.specs.Script.{AreLines, script};
ghost use Rattle.svc_text.specs.Accepted.{AreAccepted};
ghost use Rattle.svc_generations.specs.StepLines.{Reads};
ghost use Rattle.svc_generations.specs.Inputs.{begins_with, refused_at, block_of, blocks_from, behind_block, block_lines, script_lines, steps_behind, first_block, input_from, input_of, input_parts_of};
ghost use Rattle.svc_generations.specs.BlockReadings.{IsBlock, IsBehind, RefusesBlock, first_line, begins_front};

use crate::block_text::{BlockText, read_lines};
use crate::steps::{Step, is_text, read_steps};
use std::alloc::Global;
use std::mem::drop;
use svc_base::{Items, NoMemory, split_line};
use svc_main::is_skipped;
use svc_text::{Script, ScriptError, parse};

/// A block of an input.
#[derive(Drop)]
pub(crate) struct Block {
    /// What its lines say.
    pub script: Script,
    /// Its lines, as the text of a script without events.
    pub text: Vec<u8>,
    /// How many lines stand before it.
    pub before: usize,
}

/// What an input says.
#[derive(Drop)]
pub(crate) struct Input {
    pub blocks: Items<Block>,
    pub steps: Vec<Step>,
}

/// The first of two refused lines; the one, where the other isn't there.
fn first_refused(daemon: Option<usize>, n: usize) -> usize
    ensures { result ≡ first_line daemon n }
{
    match daemon {
        Some(d) => d.min(n),
        None => n,
    }
}

/// What the lines of a block say, or its first refused line.
fn script_of(alloc: Global, block: &BlockText) -> Result<Script, ScriptError>
    ensures read { Reads parts_of result (refused_at block.now.daemon (script block.now.text.items)) }
    ensures accepted { IfOk result (λ s. AreAccepted s.services.items) }
    ensures numbers { IfOk result (λ s. AreLines (lines block.now.text.items) (length s.services.items) s.lines.items) }
{
    match parse(alloc, &block.text) {
        Ok(script) => match block.daemon {
            None => Ok(script),
            Some(n) => {
                drop(script);
                Err(ScriptError::Line(n))
            }
        },
        Err(ScriptError::Line(n)) => Err(ScriptError::Line(first_refused(block.daemon, n))),
        Err(ScriptError::NoMemory) => Err(ScriptError::NoMemory),
    }
}

/// The refusal of a line behind so many lines.
pub(crate) fn refused_behind(before: usize, n: usize) -> ScriptError
    ensures { IsBehind before n result }
{
    match before.checked_add(n) {
        Some(number) => ScriptError::Line(number),
        // No text has so many lines.
        None => ScriptError::NoMemory,
    }
}

/// The block that a text begins with, whose lines stand behind so many; how many lines it has, and what
/// follows them.
fn read_block(
    alloc: Global,
    text: &[u8],
    before: usize,
) -> Result<(Block, usize, &[u8]), ScriptError>
    ensures says { IfOk result (λ r. block_of (block_lines (lines text.now)) ≡ Ok (parts_of r.0.script)) }
    ensures own { IfOk result (λ r. lines r.0.text.items ≡ script_lines (block_lines (lines text.now))) }
    ensures before { IfOk result (λ r. r.0.before ≡ before) }
    ensures is_block { IfOk result (λ r. IsBlock r.0) }
    ensures count { IfOk result (λ r. r.1 ≡ length (block_lines (lines text.now))) }
    ensures rest { IfOk result (λ r. lines r.2.now ≡ behind_block (lines text.now)) }
    ensures short { IfOk result (λ r. r.1 + length r.2.now ≤ length text.now) }
    ensures refused { IfErr result (RefusesBlock before (block_of (block_lines (lines text.now)))) }
{
    let Ok((block, rest)) = read_lines(alloc, text) else {
        return Err(ScriptError::NoMemory);
    };
    match script_of(alloc, &block) {
        Ok(script) => {
            let BlockText { text, count, .. } = block;
            let block = Block {
                script,
                text,
                before,
            };
            Ok((block, count, rest))
        }
        Err(ScriptError::Line(n)) => Err(refused_behind(before, n)),
        Err(ScriptError::NoMemory) => Err(ScriptError::NoMemory),
    }
}

/// What stands behind the first line of a text, where that line is this one.
fn behind<'a>(text: &'a [u8], mark: &[u8]) -> Option<&'a [u8]>
    ensures first { MatchOption result (begins_with mark.now (lines text.now) ≡ false) (λ after. lines text.now ≡ mark.now ∷ lines after.now) }
    ensures shorter { IfSome result (λ after. length after.now < length text.now) }
{
    match split_line(text) {
        Some((line, after)) => { if line == mark { Some(after) } else { None } }
        None => None,
    }
}

/// The steps behind the last block, before which so many lines stand.
fn steps_behind(alloc: Global, text: &[u8], passed: usize) -> Result<Vec<Step>, ScriptError>
    requires { passed + length text.now + 1 < 2 ^ 64 }
    ensures { Reads (λ steps. steps.items) result (steps_behind passed (lines text.now)) }
{
    match behind(text, b"%steps") {
        Some(after) => read_steps(alloc, after, passed + 1),
        None => Err(ScriptError::Line(passed + 1)),
    }
}

/// What a text says that begins with a block, and before which so many lines stand.
fn read_blocks(alloc: Global, text: &[u8], before: usize) -> Result<Input, ScriptError>
    requires { before + length text.now + 1 < 2 ^ 64 }
    ensures read { Reads input_parts_of result (blocks_from 64 before (lines text.now)) }
    ensures blocks { IfOk result (λ input. All IsBlock input.blocks) }
{
    let mut blocks = Items::new(alloc);
    let mut rest = text;
    let mut passed = before;
    let mut left = 64u32;
    while let Some(after) = behind(rest, b"%generation") {
        if left == 0 {
            drop(blocks);
            return Err(ScriptError::Line(passed + 1));
        }
        let (block, count, behind) = match read_block(alloc, after, passed + 1) {
            Ok(read) => read,
            Err(error) => {
                drop(blocks);
                return Err(error);
            }
        };
        match blocks.push(alloc, block) {
            Ok(()) => {}
            Err(refused) => {
                drop(refused);
                drop(blocks);
                return Err(ScriptError::NoMemory);
            }
        }
        passed += 1 + count;
        rest = behind;
        left -= 1;
    }
    match steps_behind(alloc, rest, passed) {
        Ok(steps) => Ok(Input { blocks, steps }),
        Err(error) => {
            drop(blocks);
            Err(error)
        }
    }
}

/// What a text says that begins with its first block, before which so many lines stand.
fn first_block(alloc: Global, text: &[u8], before: usize) -> Result<Input, ScriptError>
    requires { before + length text.now + 1 < 2 ^ 64 }
    ensures read { Reads input_parts_of result (first_block before (lines text.now)) }
    ensures blocks { IfOk result (λ input. All IsBlock input.blocks) }
{
    if behind(text, b"%generation").is_none() {
        return Err(ScriptError::Line(before + 1));
    }
    read_blocks(alloc, text, before)
}

/// What stands behind the first line of a text, where that line is blank or a comment.
fn behind_front(text: &[u8]) -> Option<&[u8]>
    ensures front { MatchOption result (begins_front (lines text.now) ≡ false)
        (λ after. (before : ℕ) → input_from before (lines text.now) ≡ input_from (before + 1) (lines after.now)) }
    ensures shorter { IfSome result (λ after. length after.now < length text.now) }
{
    match split_line(text) {
        Some((line, after)) => {
            if is_text(line) && is_skipped(line) {
                Some(after)
            } else {
                None
            }
        }
        None => None,
    }
}

/// What an input says, or its first refused line.
#[tactic(auto, unfolding(crate::specs::Inputs::input_of))]
pub(crate) fn read_input(alloc: Global, bytes: &[u8]) -> Result<Input, ScriptError>
    ensures read { Reads input_parts_of result (input_of (lines bytes.now)) }
    ensures blocks { IfOk result (λ input. All IsBlock input.blocks) }
{
    let mut rest = bytes;
    let mut passed = 0usize;
    while let Some(after) = behind_front(rest) {
        rest = after;
        passed += 1;
    }
    first_block(alloc, rest, passed)
}
