//! Entries in ascending key.

ghost use Rattle.std.specs.Prelude.{◌≡◌, ◌+◌, ◌<◌, ◌≤◌, ◌++◌, ◌∷◌, ◌^◌, [], length, OnOk, IfSome, IfNone, true, false};
ghost use Rattle.std.specs.Bool.{OnTrue, OnFalse};
ghost use Rattle.svc_base.specs.Items.{list_of, spare};
ghost use Rattle.svc_base.specs.Blocks.{joined, later_filled, put_by, has_key, is_over, rises_by, StandsIn, StandsLast};

use crate::block_edits::{insert_at, remove_at, replace_at};
use crate::block_memory::{SLACK, make_room, note_rest};
use crate::block_places::{find_place, last_place, place_for};
use crate::keyed::Keyed;
use crate::memory::NoMemory;
use std::alloc::Global;
use std::marker::Model;
use std::mem;

/// More entries have no memory.
const MOST: usize = (1 << 59) - 1;

/// How many entries there are.
fn count_of<T>(blocks: &[Vec<T>]) -> usize
    requires { length (joined blocks.now) < 2 ^ 59 }
    ensures { result ≡ length (joined blocks.now) }
{
    let mut count = 0;
    for block in blocks {
        count += block.len();
    }
    count
}

/// The blocks that have entries.
fn filled_blocks<T: Drop>(mut blocks: Vec<Vec<T>>) -> Vec<Vec<T>>
    ensures entries { joined result.items ≡ joined blocks.items }
    ensures filled { later_filled result.items ≡ true }
{
    blocks.retain(|block| !block.is_empty());
    blocks
}

/// Entries in ascending key, those of equal keys in the order in which they came. They stand in blocks, so that
/// one that comes or goes moves few others, and the blocks' first keys beside them, so that a search reads one
/// block. Contracts see them and for how many more there is memory.
#[derive(Drop)]
pub struct Blocks<T: Keyed> {
    blocks: Vec<Vec<T>>,
    firsts: Vec<u64>,
    count: usize,
    room: usize,
    alloc: Global,
}

impl<T: Keyed> Model for Blocks<T> {
    ghost use Rattle.std.specs.Prelude.{List, ℕ};
    ghost use Rattle.svc_base.specs.Blocks.{joined, IsTable};

    ghost Value = { List T × ℕ };

    ghost view = { λ b. (joined b.blocks.items, b.room) };

    ghost invariant = { λ b. IsTable T.key_of b.blocks.items b.firsts.items b.count b.room };
}

impl<T: Keyed> Blocks<T> {
    /// No entries, and no memory yet.
    pub fn new(alloc: Global) -> Self
        ensures { list_of result ≡ [] }
    {
        Blocks {
            blocks: Vec::new(alloc),
            firsts: Vec::new(alloc),
            count: 0,
            room: 0,
            alloc,
        }
    }

    /// After it there is room for so many more entries. `NoMemory` where there is none; no entry has changed
    /// then.
    pub fn reserve(&mut self, count: usize) -> Result<(), NoMemory>
        ensures entries { list_of self.new ≡ list_of self.old }
        ensures room { OnOk result (count ≤ spare self.new) }
    {
        if count <= self.room {
            return Ok(());
        }
        let room = count.max(SLACK);
        if MOST - self.count < room {
            return Err(NoMemory);
        }
        self.room = 0;
        make_room(&mut self.blocks, &mut self.firsts, room, self.alloc)?;
        self.room = room;
        Ok(())
    }

    /// How many entries there are.
    pub fn len(&self) -> usize
        ensures small { result < 2 ^ 59 }
        ensures length { result ≡ length (list_of self.now) }
    {
        self.count
    }

    /// The entries, block after block.
    pub fn as_blocks(&self) -> &[Vec<T>]
        ensures { joined result.now ≡ list_of self.now }
    {
        &self.blocks
    }

    /// The last entry with the key.
    pub fn find(&self, key: u64) -> Option<&T>
        ensures found { IfSome result (λ x. StandsIn T.key_of key (list_of self.now) x.now) }
        ensures absent { IfNone result (has_key T.key_of key (list_of self.now) ≡ false) }
    {
        match find_place(&self.blocks, &self.firsts, key) {
            Some(place) => {
                let block = &self.blocks[place.block];
                Some(&block[place.entry])
            }
            None => None,
        }
    }

    /// The last entry whose key is at most this.
    pub fn last_up_to(&self, key: u64) -> Option<&T>
        ensures found { IfSome result (λ x. StandsLast T.key_of key (list_of self.now) x.now) }
        ensures absent { IfNone result (is_over T.key_of key (list_of self.now) ≡ true) }
    {
        match last_place(&self.blocks, &self.firsts, key) {
            Some(place) => {
                let block = &self.blocks[place.block];
                Some(&block[place.entry])
            }
            None => None,
        }
    }

    /// Takes an entry.
    pub fn insert(&mut self, entry: T)
        requires { 0 < spare self.old }
        ensures entries { list_of self.new ≡ put_by T.key_of entry (list_of self.old) }
        ensures room { spare self.old ≤ spare self.new + 1 }
    {
        let place = place_for(&self.blocks, &self.firsts, entry.key());
        insert_at(&mut self.blocks, place, entry);
        self.count += 1;
        self.room -= 1;
    }

    /// Takes an entry in place of the last one with its key. Whether there is one.
    pub fn replace(&mut self, entry: T) -> bool
        ensures replaced { OnTrue result ((x : T) × (s : StandsIn T.key_of (T.key_of entry) (list_of self.old) x)
            × (list_of self.new ≡ s.front ++ entry ∷ s.back)) }
        ensures absent { OnFalse result (has_key T.key_of (T.key_of entry) (list_of self.old) ≡ false) }
        ensures same { OnFalse result (self.new ≡ self.old) }
        ensures room { spare self.new ≡ spare self.old }
    {
        match find_place(&self.blocks, &self.firsts, entry.key()) {
            Some(place) => {
                replace_at(&mut self.blocks, place, entry);
                true
            }
            None => false,
        }
    }

    /// The last entry with the key goes.
    pub fn remove(&mut self, key: u64) -> Option<T>
        ensures removed { IfSome result (λ x. (s : StandsIn T.key_of key (list_of self.old) x) × (list_of self.new ≡ s.front ++ s.back)) }
        ensures absent { IfNone result (has_key T.key_of key (list_of self.old) ≡ false) }
        ensures same { IfNone result (self.new ≡ self.old) }
        ensures room { spare self.new ≡ spare self.old }
    {
        match find_place(&self.blocks, &self.firsts, key) {
            Some(place) => {
                self.count -= 1;
                Some(remove_at(&mut self.blocks, &mut self.firsts, place))
            }
            None => None,
        }
    }

    /// The entries go, block after block.
    pub fn take_blocks(&mut self) -> Vec<Vec<T>>
        ensures none { list_of self.new ≡ [] }
        ensures entries { joined result.items ≡ list_of self.old }
        ensures rise { rises_by T.key_of (joined result.items) ≡ true }
        ensures few { length (joined result.items) < 2 ^ 59 }
    {
        self.count = 0;
        self.room = 0;
        self.firsts.clear();
        let alloc = self.alloc;
        mem::replace(&mut self.blocks, Vec::new(alloc))
    }

    /// Takes entries in order, block after block, in place of those that are here.
    pub fn put_blocks(&mut self, blocks: Vec<Vec<T>>)
        requires rise { rises_by T.key_of (joined blocks.items) ≡ true }
        requires few { length (joined blocks.items) < 2 ^ 59 }
        ensures { list_of self.new ≡ joined blocks.items }
    {
        self.count = count_of(&blocks);
        self.room = 0;
        self.blocks = filled_blocks(blocks);
        self.firsts.clear();
        let _ = note_rest(&mut self.firsts, &self.blocks);
    }
}
