//! The steps of a chain, as lines say them.

ghost use Rattle.std.specs.Prelude.{◌≡◌, ◌+◌, ◌<◌, ◌^◌, length, IfOk};
ghost use Rattle.std.specs.Str.{is_utf8};
ghost use Rattle.std.specs.Str.Lines.{lines};
ghost use Rattle.svc_base.specs.Words.{words};
ghost use Rattle.svc_generations.specs.StepLines.{launch_of, step_of, step_in, steps_from, Reads};

use std::alloc::Global;
use std::str;
use svc_base::{NoMemory, number, split_line, split_word};
use svc_main::is_skipped;
use svc_record::Event;
use svc_text::{ScriptError, event_of_line};

/// One step of a chain.
#[derive(Debug, Drop)]
pub enum Step {
    /// The next generation is launched.
    Launch,
    /// The generation with this number gets the event.
    Event(u64, Event),
}

/// A launch, where nothing follows the word.
fn launch_of(rest: &[u8]) -> Option<Step>
    ensures { result ≡ launch_of (words rest.now) }
{
    match split_word(rest) {
        None => Some(Step::Launch),
        Some(_) => None,
    }
}

/// The step that a line says.
#[tactic(auto, unfolding(crate::specs::StepLines::step_of))]
fn step_of_line(alloc: Global, line: &[u8]) -> Result<Option<Step>, NoMemory>
    ensures { IfOk result (λ o. o ≡ step_of (words line.now)) }
{
    let Some((word, rest)) = split_word(line) else {
        return Ok(None);
    };
    if word == b"launch".as_slice() {
        return Ok(launch_of(rest));
    }
    let Some(generation) = number(word) else {
        return Ok(None);
    };
    match event_of_line(alloc, rest)? {
        Some(event) => Ok(Some(Step::Event(generation, event))),
        None => Ok(None),
    }
}

/// The bytes are UTF-8.
pub(crate) fn is_text(line: &[u8]) -> bool
    ensures { result ≡ is_utf8 line.now }
{
    match str::from_utf8(line) {
        Ok(_) => true,
        Err(_) => false,
    }
}

/// The step that a line says, or None for one that is skipped. `Line(number)` where it says none.
#[tactic(auto, unfolding(crate::specs::StepLines::step_in))]
fn read_step(alloc: Global, line: &[u8], number: usize) -> Result<Option<Step>, ScriptError>
    ensures { Reads (λ o. o) result (step_in number line.now) }
{
    if !is_text(line) {
        return Err(ScriptError::Line(number));
    }
    if is_skipped(line) {
        return Ok(None);
    }
    match step_of_line(alloc, line) {
        Ok(Some(step)) => Ok(Some(step)),
        Ok(None) => Err(ScriptError::Line(number)),
        Err(NoMemory) => Err(ScriptError::NoMemory),
    }
}

/// The steps that the lines of a text say, before which so many stand.
pub(crate) fn read_steps(
    alloc: Global,
    text: &[u8],
    before: usize,
) -> Result<Vec<Step>, ScriptError>
    requires { before + length text.now < 2 ^ 64 }
    ensures { Reads (λ steps. steps.items) result (steps_from before (lines text.now)) }
{
    let mut steps = Vec::new(alloc);
    let mut rest = text;
    let mut passed = before;
    while let Some((line, after)) = split_line(rest) {
        passed += 1;
        rest = after;
        match read_step(alloc, line, passed) {
            Ok(None) => {}
            Ok(Some(step)) => match steps.push(step) {
                Ok(()) => {}
                Err(_) => return Err(ScriptError::NoMemory),
            },
            Err(error) => return Err(error),
        }
    }
    Ok(steps)
}
