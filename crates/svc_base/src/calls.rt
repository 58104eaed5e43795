//! A list of calls.

ghost use Rattle.std.specs.Prelude.{◌≡◌, ◌-◌, ◌<◌, ◌≤◌, [], ◌∷◌, Some, None, is_some, IfOk};
ghost use Rattle.std.specs.Option.{option_map};
ghost use Rattle.svc_base.specs.Calls.{told_of, room_of, Adds, Stays};

use crate::items::Reserved;
use crate::memory::NoMemory;
use std::alloc::Global;
use std::marker::Model;

/// The calls that an object in memory was asked, each with its answer. It tells them, the oldest
/// first, as long as it has room for each; from the first on that it has none for it tells none.
#[derive(Drop)]
pub struct Calls<T> {
    made: Reserved<T>,
    room: u64,
    whole: bool,
}

impl<T> Model for Calls<T> {
    ghost use Rattle.std.specs.Prelude.{List, ℕ, ◌≤◌, Option, Some, None, if◌then◌else◌};

    ghost Value = { Option (List T) × ℕ };

    ghost view = { λ s. (if s.whole then Some s.made.0 else None, s.room) };

    ghost invariant = { λ s. s.room ≤ s.made.1 };
}

impl<T: Drop> Calls<T> {
    /// No calls, and room for so many. `NoMemory` where there is none for them.
    pub fn new(alloc: Global, room: u64) -> Result<Self, NoMemory>
        ensures told { IfOk result (λ calls. told_of calls ≡ Some []) }
        ensures room { IfOk result (λ calls. room_of calls ≡ room) }
    {
        let mut made = Reserved::new(alloc);
        made.reserve(alloc, room)?;
        Ok(Calls {
            made,
            room,
            whole: true,
        })
    }

    /// The calls that it tells.
    pub fn told(&self) -> Option<&[T]>
        ensures { option_map (λ calls. calls.now) result ≡ told_of self.now }
    {
        if self.whole {
            Some(self.made.as_slice())
        } else {
            None
        }
    }

    /// Tells no calls from now on, and has no room any more.
    pub fn lose(&mut self)
        ensures { self.new ≡ (None, 0) }
    {
        self.whole = false;
        self.room = 0;
    }

    /// One call more.
    pub fn note(&mut self, call: T)
        ensures call { Adds (told_of self.old) (told_of self.new) (call ∷ []) }
        ensures told { 0 < room_of self.old → is_some (told_of self.new) ≡ is_some (told_of self.old) }
        ensures room { room_of self.new ≡ room_of self.old - 1 }
        ensures stays { Stays (told_of self.old) (told_of self.new) (room_of self.old) (room_of self.new) }
    {
        if self.room == 0 {
            self.whole = false;
            return;
        }
        self.room -= 1;
        self.made.put(call);
    }
}
