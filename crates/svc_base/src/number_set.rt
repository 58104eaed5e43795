//! Sets of numbers.

ghost use Rattle.std.specs.Prelude.{◌≡◌, ◌+◌, ◌<◌, ◌≤◌, OnOk, [], false};
ghost use Rattle.svc_base.specs.Blocks.{joined};
ghost use Rattle.svc_base.specs.Items.{list_of, spare};
ghost use Rattle.svc_base.specs.NumberSets.{is_in, put_number};

use crate::blocks::Blocks;
use crate::memory::NoMemory;
use std::alloc::Global;
use std::marker::Model;

/// Numbers without doubles, in ascending order. Contracts see them and for how many more there is
/// memory.
#[derive(Drop)]
pub struct NumberSet {
    numbers: Blocks<u64>,
}

impl Model for NumberSet {
    ghost use Rattle.std.specs.Prelude.{List, ℕ};

    ghost Value = { List ℕ × ℕ };

    ghost view = { λ s. s.numbers };
}

impl NumberSet {
    /// No numbers.
    pub fn new(alloc: Global) -> NumberSet
        ensures { list_of result ≡ [] }
    {
        NumberSet {
            numbers: Blocks::new(alloc),
        }
    }

    /// After it there is room for so many more numbers. `NoMemory` where there is none; nothing has
    /// changed then.
    pub fn reserve(&mut self, count: usize) -> Result<(), NoMemory>
        ensures numbers { list_of self.new ≡ list_of self.old }
        ensures room { OnOk result (count ≤ spare self.new) }
    {
        self.numbers.reserve(count)
    }

    /// The number is among them.
    pub fn has(&self, number: u64) -> bool
        ensures { result ≡ is_in number (list_of self.now) }
    {
        self.numbers.find(number).is_some()
    }

    /// The numbers, ascending, block after block.
    pub fn as_blocks(&self) -> &[Vec<u64>]
        ensures { joined result.now ≡ list_of self.now }
    {
        self.numbers.as_blocks()
    }

    /// Takes a new number.
    pub fn add(&mut self, number: u64)
        requires new { is_in number (list_of self.old) ≡ false }
        requires room { 0 < spare self.old }
        ensures numbers { list_of self.new ≡ put_number number (list_of self.old) }
        ensures room { spare self.old ≤ spare self.new + 1 }
    {
        self.numbers.insert(number);
    }
}
