//! The text of the configuration in a script, and what it says.

ghost use Rattle.std.specs.Prelude.{◌≡◌, ◌+◌, ◌<◌, ◌^◌, length};
ghost use Rattle.std.specs.Str.{IsUtf8};
ghost use Rattle.std.specs.Str.Lines.{lines};
ghost use Rattle.svc_conf.specs.ConfigurationText.{configuration};
ghost use Rattle.svc_text.specs.Script.{section_index};
ghost use Rattle.svc_text.specs.Outcome.{SaysConf};
ghost use Rattle.svc_text.specs.ConfTexts.{passed};

use crate::parsing::ScriptError;
use crate::part::Section;
use std::alloc::Global;
use std::str;
use svc_conf::{ReadError, ServerConf};

/// Where the text of the configuration stands, as far as a script's lines were passed.
#[derive(Clone, Copy)]
pub struct ConfText {
    /// How many lines stand before it, with the one that begins its part.
    pub before: usize,
    pub start: usize,
    pub end: usize,
}

impl ConfText {
    /// Passes one more line, which ends at this place. `was` is the part in which it stands, `now` the
    /// part of what follows it.
    pub fn pass(&mut self, was: Section, now: Section, place: usize)
        requires { self.old.before + 1 < 2 ^ 64 }
        ensures { self.new ≡ passed self.old (section_index was) (section_index now) place }
    {
        match now {
            Section::Nothing => self.before += 1,
            Section::Conf => {
                if matches!(was, Section::Nothing) {
                    self.start = place;
                }
                self.end = place;
            }
            Section::Services | Section::Events => {}
        }
    }
}

/// The configuration that a text says; or its first refused line, counted with the lines before it.
pub fn read_conf(alloc: Global, text: &[u8], before: usize) -> Result<ServerConf, ScriptError>
    requires text { IsUtf8 text.now }
    requires room { before + length (lines text.now) < 2 ^ 64 }
    ensures { SaysConf result before (configuration text.now) }
{
    let Ok(text) = str::from_utf8(text) else {
        unreachable!()
    };
    match ServerConf::parse(alloc, text) {
        Ok(conf) => Ok(conf),
        Err(ReadError::Line(line)) => Err(ScriptError::Line(before + line as usize)),
        Err(ReadError::Value { line, .. }) => Err(ScriptError::Line(before + line as usize)),
        Err(ReadError::NoMemory) => Err(ScriptError::NoMemory),
        // No text gives these.
        Err(ReadError::Invalid(_)) => unreachable!(),
        Err(ReadError::Fault) => unreachable!(),
        Err(ReadError::NoPath) => unreachable!(),
    }
}
