//! A reader of the phases that were told.

ghost use Rattle.std.specs.Prelude.{◌≡◌, ◌+◌, ◌≤◌, ◌↔◌, length, slice_get, IsNone, IfNone, OnSome};

use std::marker::Model;
use svc_record::ExecutionPhase;

/// A place in the list of the phases that were told. Contracts see it as the place, from 0 on.
#[derive(Debug, Drop)]
pub struct PhaseReader {
    place: usize,
}

impl Model for PhaseReader {
    ghost use Rattle.std.specs.Prelude.{ℕ};

    ghost Value = { ℕ };

    ghost view = { λ reader. reader.place };
}

impl PhaseReader {
    /// A reader at the list's beginning.
    pub fn new() -> Self
        ensures { result ≡ 0 }
    {
        PhaseReader { place: 0 }
    }

    /// The phase at the reader's place, which goes on to the next one; `None` exactly at the list's
    /// end, where the reader stays for what is told later.
    pub fn recv(&mut self, phases: &[ExecutionPhase]) -> Option<ExecutionPhase>
        ensures phase { result ≡ slice_get phases.now self.old }
        ensures end { IsNone result ↔ (length phases.now ≤ self.old) }
        ensures goes_on { OnSome result (self.new ≡ self.old + 1) }
        ensures stays { IfNone result (self.new ≡ self.old) }
    {
        let phase = phases.get(self.place).copied()?;
        self.place += 1;
        Some(phase)
    }
}
