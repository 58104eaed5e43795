//! Where a line of a script stands.

ghost use Rattle.std.specs.Prelude.{◌≡◌, ◌≤◌, ◌-◌, length, take, slice_get, MatchOption, IsSomeAnd};
ghost use Rattle.std.specs.Str.Lines.{lines};
ghost use Rattle.svc_messages.specs.Places.{Begins, BeginsNone, next_section, StandsBehind};

use svc_base::split_line;

/// The part of a script that a line stands in.
#[derive(Clone, Copy, PartialEq, Eq, Debug)]
pub enum Section {
    /// Before `%conf`.
    Nothing,
    /// From `%conf` on.
    Configuration,
    /// From `%services` on.
    Services,
    /// From `%events` on.
    Events,
}

impl Section {
    /// The line that begins the next part, if one follows.
    pub fn next_header(self) -> Option<&'static str>
        ensures { MatchOption result (next_section self ≡ None) (λ line. IsSomeAnd (next_section self) (λ next. Begins next line.now)) }
    {
        match self {
            Section::Nothing => Some("%conf"),
            Section::Configuration => Some("%services"),
            Section::Services => Some("%events"),
            Section::Events => None,
        }
    }
}

/// The part that the line begins, if it begins one.
pub fn header(line: &[u8]) -> Option<Section>
    ensures { MatchOption result (BeginsNone line.now) (λ section. Begins section line.now) }
{
    if line == b"%conf".as_slice() {
        Some(Section::Configuration)
    } else if line == b"%services".as_slice() {
        Some(Section::Services)
    } else if line == b"%events".as_slice() {
        Some(Section::Events)
    } else {
        None
    }
}

/// A line of a script, and the part that it stands in.
#[derive(Clone, Copy)]
pub struct Place<'a> {
    pub section: Section,
    /// The line without its end; None behind the last one.
    pub line: Option<&'a [u8]>,
}

/// The line with this number, from 1.
pub fn place_of(bytes: &[u8], number: usize) -> Place<'_>
    ensures line { MatchOption result.line (length (lines bytes.now) ≤ number - 1) (λ line. slice_get (lines bytes.now) (number - 1) ≡ Some line.now) }
    ensures section { StandsBehind (take (number - 1) (lines bytes.now)) result.section }
{
    let mut section = Section::Nothing;
    let mut rest = bytes;
    let mut passed = 1usize;
    while let Some((line, after)) = split_line(rest) {
        if passed >= number {
            return Place {
                section,
                line: Some(line),
            };
        }
        section = header(line).unwrap_or(section);
        rest = after;
        passed = passed.saturating_add(1);
    }
    Place {
        section,
        line: None,
    }
}

/// What follows the line that begins this part of a script; nothing where there is no such line.
pub(crate) fn behind_header(bytes: &[u8], part: Section) -> &[u8] {
    let mut rest = bytes;
    while let Some((line, after)) = split_line(rest) {
        if header(line) == Some(part) {
            return after;
        }
        rest = after;
    }
    &[]
}
