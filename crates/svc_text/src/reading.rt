//! The lines of a script, one after the other.

ghost use Rattle.std.specs.Prelude.{List, ℕ, ◌≡◌, ◌+◌, ◌++◌, ◌==◌, ◌||◌, [], ◌∷◌, not, true, false, OnOk, is_some};
ghost use Rattle.std.specs.Str.{is_utf8};
ghost use Rattle.svc_text.specs.declared.part.Section.TheVariants.{Nothing};
ghost use Rattle.svc_text.specs.Outcome.{After, Said, Tests};
ghost use Rattle.std.specs.Option.{option_to_list};
ghost use Rattle.svc_text.specs.EventLines.{item_of};
ghost use Rattle.svc_base.specs.Words.{words};
ghost use Rattle.svc_text.specs.ServiceLines.{service_of, is_eager};
ghost use Rattle.svc_text.specs.Script.{section_index, is_skipped, is_next, says_service, says_item, line_fits};

use crate::event_lines::item_of_key;
use crate::part::{Section, header_of};
use crate::script_items::ScriptItems;
use crate::service::{ServiceLine, is_eager, service_of_line};
use std::alloc::{AllocFailed, Global};
use std::mem::drop;
use std::str;
use svc_base::{NoMemory, split_word};

/// Why a line wasn't taken.
#[derive(Clone, Copy)]
pub enum LineError {
    /// The line doesn't fit those before it.
    Refused,
    /// There was no memory.
    NoMemory,
}

impl From<NoMemory> for LineError {
    ghost use Rattle.svc_text.specs.declared.reading.LineError.TheVariants.{NoMemory};

    ghost from_gives = { λ _ e. e ≡ NoMemory };

    fn from(_: NoMemory) -> Self {
        LineError::NoMemory
    }
}

impl<T: Drop> From<AllocFailed<T>> for LineError {
    ghost use Rattle.svc_text.specs.declared.reading.LineError.TheVariants.{NoMemory};

    ghost from_gives = { λ _ e. e ≡ NoMemory };

    fn from(_: AllocFailed<T>) -> Self {
        LineError::NoMemory
    }
}

/// What the lines so far said.
#[derive(Drop)]
pub struct Reading {
    pub part: Section,
    pub services: Vec<ServiceLine>,
    pub eager: bool,
    pub items: ScriptItems,
}

/// The line whose first word this is is a comment.
#[tactic(auto, unfolding(crate::specs::Script::is_skipped))]
fn is_comment(word: &[u8]) -> bool
    ensures { (ws : List (List ℕ)) → result ≡ is_skipped (word.now ∷ ws) }
{
    matches!(word.first(), Some(b'#'))
}

/// The bytes are a text in UTF-8.
pub(crate) fn is_text(bytes: &[u8]) -> bool
    ensures { result ≡ is_utf8 bytes.now }
{
    match str::from_utf8(bytes) {
        Ok(_) => true,
        Err(_) => false,
    }
}

/// The line is a text in UTF-8, which may be known already.
fn is_text_line(line: &[u8], known: bool) -> bool
    requires { known ≡ true → is_utf8 line.now ≡ true }
    ensures { result ≡ is_utf8 line.now }
{
    known || is_text(line)
}

impl Reading {
    /// Nothing read yet: no part has begun.
    pub fn new(alloc: Global) -> Self
        ensures part { result.part ≡ Nothing }
        ensures services { result.services.items ≡ [] }
        ensures eager { result.eager ≡ false }
        ensures items { result.items ≡ [] }
    {
        Reading {
            part: Section::Nothing,
            services: Vec::new(alloc),
            eager: false,
            items: ScriptItems::new(alloc),
        }
    }

    /// Begins the next part.
    fn begin(&mut self, part: Section) -> Result<(), LineError>
        ensures test { Tests (section_index part == section_index self.old.part + 1) result }
        ensures ok { OnOk result (self.new ≡ record self.old { part = part }) }
    {
        if part.number() != self.part.number() + 1 {
            return Err(LineError::Refused);
        }
        self.part = part;
        Ok(())
    }

    fn take_service(&mut self, alloc: Global, line: &[u8]) -> Result<(), LineError>
        ensures test { Tests (is_next self.old.services.items (service_of (words line.now))) result }
        ensures services { OnOk result (self.new.services.items ≡ self.old.services.items ++ option_to_list (service_of (words line.now))) }
        ensures part { OnOk result (self.new.part ≡ self.old.part) }
        ensures eager { OnOk result (self.new.eager ≡ self.old.eager) }
        ensures items { OnOk result (self.new.items ≡ self.old.items) }
    {
        let Some(service) = service_of_line(alloc, line)? else {
            return Err(LineError::Refused);
        };
        if self.services.len() >= 1024 {
            drop(service);
            return Err(LineError::Refused);
        }
        self.services.push(service)?;
        Ok(())
    }

    /// Takes the line `eager`, once.
    fn take_eager(&mut self) -> Result<(), LineError>
        ensures test { Tests (not self.old.eager) result }
        ensures ok { OnOk result (self.new ≡ record self.old { eager = true }) }
    {
        if self.eager {
            return Err(LineError::Refused);
        }
        self.eager = true;
        Ok(())
    }

    #[tactic(auto, unfolding(crate::specs::Script::says_service, crate::specs::ServiceLines::service_of))]
    fn take_service_line(&mut self, alloc: Global, line: &[u8]) -> Result<(), LineError>
        ensures test { Tests (says_service self.old.eager self.old.services.items (words line.now)) result }
        ensures services { OnOk result (self.new.services.items ≡ self.old.services.items ++ option_to_list (service_of (words line.now))) }
        ensures eager { OnOk result (self.new.eager ≡ (self.old.eager || is_eager (words line.now))) }
        ensures part { OnOk result (self.new.part ≡ self.old.part) }
        ensures items { OnOk result (self.new.items ≡ self.old.items) }
    {
        if is_eager(line) {
            return self.take_eager();
        }
        self.take_service(alloc, line)
    }

    fn take_event(&mut self, alloc: Global, key: &[u8], rest: &[u8]) -> Result<(), LineError>
        ensures test { Tests (is_some (item_of (key.now ∷ words rest.now))) result }
        ensures items { OnOk result (self.new.items ≡ self.old.items ++ option_to_list (item_of (key.now ∷ words rest.now))) }
        ensures part { OnOk result (self.new.part ≡ self.old.part) }
        ensures services { OnOk result (self.new.services.items ≡ self.old.services.items) }
        ensures eager { OnOk result (self.new.eager ≡ self.old.eager) }
    {
        let Some(item) = item_of_key(alloc, key, rest)? else {
            return Err(LineError::Refused);
        };
        self.items.push(alloc, item)?;
        Ok(())
    }

    /// Takes a line that begins no part, cut behind its first word.
    #[tactic(auto, unfolding(crate::specs::Script::says_item))]
    fn take_item(
        &mut self,
        alloc: Global,
        line: &[u8],
        word: &[u8],
        rest: &[u8],
    ) -> Result<(), LineError>
        requires { words line.now ≡ word.now ∷ words rest.now }
        ensures test { Tests (says_item (section_index self.old.part) self.old.eager self.old.services.items (words line.now)) result }
        ensures said { OnOk result (Said self.old (words line.now) self.new) }
    {
        match self.part {
            Section::Services => self.take_service_line(alloc, line),
            Section::Events => self.take_event(alloc, word, rest),
            Section::Nothing | Section::Conf => Err(LineError::Refused),
        }
    }

    /// Takes one more line, where it fits those before it. Those of the configuration aren't looked at.
    /// `known`: the line is known to be a text in UTF-8.
    pub fn take_line(&mut self, alloc: Global, line: &[u8], known: bool) -> Result<(), LineError>
        requires { known ≡ true → is_utf8 line.now ≡ true }
        ensures test { Tests (line_fits (section_index self.old.part) self.old.eager self.old.services.items line.now) result }
        ensures after { OnOk result (After self.old line.now self.new) }
    {
        if !is_text_line(line, known) {
            return Err(LineError::Refused);
        }
        if let Some(part) = header_of(line) {
            return self.begin(part);
        }
        if self.part.number() == 1 {
            return Ok(());
        }
        let Some((word, rest)) = split_word(line) else {
            return Ok(());
        };
        if is_comment(word) {
            return Ok(());
        }
        self.take_item(alloc, line, word, rest)
    }
}
