//! The parts of a script.

ghost use Rattle.std.specs.Prelude.{◌≡◌};
ghost use Rattle.svc_text.specs.Script.{header_of, section_index};

use crate::keys::spells;

/// The part of a script that a line stands in.
#[derive(Clone, Copy)]
pub enum Section {
    /// Before `%conf`.
    Nothing,
    /// From `%conf` on.
    Conf,
    /// From `%services` on.
    Services,
    /// From `%events` on.
    Events,
}

impl Section {
    /// How many headers stand from the start of the script to this part.
    pub fn number(self) -> u8
        ensures { result ≡ section_index self }
    {
        match self {
            Section::Nothing => 0,
            Section::Conf => 1,
            Section::Services => 2,
            Section::Events => 3,
        }
    }
}

/// The part that a header line begins.
#[tactic(auto, unfolding(crate::specs::Script::header_of))]
pub fn header_of(line: &[u8]) -> Option<Section>
    ensures { result ≡ header_of line.now }
{
    if spells(line, b"%conf") {
        Some(Section::Conf)
    } else if spells(line, b"%services") {
        Some(Section::Services)
    } else if spells(line, b"%events") {
        Some(Section::Events)
    } else {
        None
    }
}
