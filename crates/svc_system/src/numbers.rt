//! The numbers that the listeners of a letter get.

ghost use Rattle.std.specs.Prelude.{◌≡◌, ◌+◌, ◌<◌, ◌≤◌, ◌==◌, [], ◌∷◌, ◌++◌, IfOk, length};
ghost use Rattle.svc_base.specs.Items.{list_of, spare};

use crate::offer::MOST_HANDED;
use std::alloc::Global;
use svc_base::{Items, NoMemory, Reserved};

/// At most 32 numbers, with room for so many.
#[derive(Drop)]
pub(crate) struct Numbers {
    items: Reserved<u64>,
    ghost few: { length (list_of items) ≤ 32 },
    ghost room: { 32 ≤ length (list_of items) + spare items },
}

impl Numbers {
    /// None yet, with room for 32.
    pub(crate) fn new(alloc: Global) -> Result<Self, NoMemory>
        ensures { IfOk result (λ numbers. list_of numbers.items ≡ []) }
    {
        let mut items = Reserved::new(alloc);
        items.reserve(alloc, MOST_HANDED as u64)?;
        Ok(Numbers { items })
    }

    /// No more find room.
    pub(crate) fn is_full(&self) -> bool
        ensures { result ≡ (length (list_of self.now.items) == 32) }
    {
        self.items.len() == MOST_HANDED as u64
    }

    /// One more.
    pub(crate) fn put(&mut self, number: u64)
        requires { length (list_of self.old.items) < 32 }
        ensures { list_of self.new.items ≡ list_of self.old.items ++ number ∷ [] }
    {
        self.items.put(number);
    }

    /// All of them.
    pub(crate) fn into_items(self) -> Items<u64>
        ensures items { result ≡ list_of self.items }
        ensures few { length result ≤ 32 }
    {
        let Numbers { items } = self;
        items.into_items()
    }
}
