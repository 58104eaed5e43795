//! What contracts see and the program doesn't keep: a history as a list, and how many steps were taken.
#![tactic(auto)]

ghost use Rattle.std.specs.Prelude.{◌≡◌, [], ◌∷◌};
ghost use Rattle.svc_history.specs.Entries.{entries};

mod steps;

use std::marker::Model;
use std::snapshot::Snapshot;
pub use steps::Steps;

/// What came so far, the newest first: contracts see a list, and the program keeps nothing.
#[cycle(history)]
#[derive(Drop)]
pub struct History<T> {
    told: Snapshot<Told<T>>,
}

// One level of a history. It is made only to be shown to `Snapshot::of`.
#[cycle(history)]
#[derive(Drop)]
enum Told<T> {
    Nothing,
    More(Snapshot<T>, Snapshot<History<T>>),
}

impl<T> Model for History<T> {
    ghost use Rattle.std.specs.Prelude.{List, length};

    ghost Value = { List T };

    ghost use Rattle.svc_history.specs.Entries.{entries};

    ghost view = { λ h. entries h.told.value };

    ghost size = { length };

    ghost use Rattle.svc_history.specs.Levels.{deep_le_length};

    ghost size_decreases = { λ h _. deep_le_length h.told.value };
}

impl<T> History<T> {
    /// A history of nothing.
    pub fn new() -> Self
        ensures { result ≡ [] }
    {
        Self::of(Told::Nothing)
    }

    /// Adds an entry.
    pub fn push(&mut self, entry: &T)
        ensures { self.new ≡ entry.now ∷ self.old }
    {
        *self = self.with(entry);
    }

    /// The same history with one more entry.
    pub fn with(&self, entry: &T) -> Self
        ensures { result ≡ entry.now ∷ self.now }
    {
        Self::of(Told::More(Snapshot::of(entry), Snapshot::of(self)))
    }

    fn of(told: Told<T>) -> Self
        ensures { result ≡ entries told }
    {
        History {
            told: Snapshot::of(&told),
        }
    }
}
