//! The items of a script, in the order of their lines.

ghost use Rattle.std.specs.Prelude.{◌≡◌, ◌++◌, ◌∷◌, [], length, None, IfOk, OnOk, OnErr};
ghost use Rattle.std.specs.Option.{option_to_list};
ghost use Rattle.svc_base.specs.Blocks.{joined};
ghost use Rattle.svc_text.specs.PackedItems.{left_in};

use crate::packed_item::PackedItem;
use std::alloc::Global;
use std::collections::VecDeque;
use std::marker::Model;
use std::mem::{drop, replace, swap};
use svc_base::NoMemory;
use svc_record::Item;

/// So many items stand in a block: 128 KiB, for which an allocator asks the system, so that the memory goes
/// back to it with the block.
const BLOCK: usize = 4096;

/// The items of a script, in the order of their lines, with memory for at most 32 bytes each but for long
/// messages and for peers with addresses of 128 bits. Those that are taken from the front leave memory as
/// they go. Contracts see the items that are left, in order.
#[derive(Drop)]
pub struct ScriptItems {
    /// Those in front, the last one first.
    front: Vec<PackedItem>,
    /// The blocks behind them.
    blocks: VecDeque<Vec<PackedItem>>,
    /// Those behind the blocks.
    last: Vec<PackedItem>,
    /// How many there are.
    count: usize,
}

impl Model for ScriptItems {
    ghost use Rattle.std.specs.Prelude.{◌≡◌, List, length};
    ghost use Rattle.svc_record.specs.declared.item.Item.{Item};

    ghost Value = { List Item };

    ghost use Rattle.svc_text.specs.PackedItems.{left_in};

    ghost view = { λ s. left_in s.front.items s.blocks.items s.last.items };

    ghost invariant = { λ s. s.count ≡ length (left_in s.front.items s.blocks.items s.last.items) };
}

/// Makes a block of the last items, where they are as many as a block has.
fn close_block(
    alloc: Global,
    blocks: &mut VecDeque<Vec<PackedItem>>,
    last: &mut Vec<PackedItem>,
) -> Result<(), NoMemory>
    ensures { joined blocks.new.items ++ last.new.items ≡ joined blocks.old.items ++ last.old.items }
{
    if last.len() < BLOCK {
        return Ok(());
    }
    blocks.reserve(1)?;
    let next = Vec::with_capacity(alloc, BLOCK)?;
    blocks.push_back_reserved(replace(last, next));
    Ok(())
}

/// Puts the next items in front, where none stand there.
fn turn_block(
    front: &mut Vec<PackedItem>,
    blocks: &mut VecDeque<Vec<PackedItem>>,
    last: &mut Vec<PackedItem>,
)
    requires { front.old.items ≡ [] }
    ensures left { left_in front.new.items blocks.new.items last.new.items ≡ left_in front.old.items blocks.old.items last.old.items }
    ensures none { front.new.items ≡ [] → left_in front.new.items blocks.new.items last.new.items ≡ [] }
{
    while front.is_empty() {
        let Some(mut block) = blocks.pop_front() else {
            last.reverse();
            swap(front, last);
            return;
        };
        block.reverse();
        drop(replace(front, block));
    }
}

impl ScriptItems {
    /// No items.
    pub fn new(alloc: Global) -> Self
        ensures { result ≡ [] }
    {
        ScriptItems {
            front: Vec::new(alloc),
            blocks: VecDeque::new(alloc),
            last: Vec::new(alloc),
            count: 0,
        }
    }

    /// How many items are left.
    pub fn len(&self) -> usize
        ensures { result ≡ length self.now }
    {
        self.count
    }

    /// Appends. Where there is no memory for it, the item is let go.
    pub fn push(&mut self, alloc: Global, item: Item) -> Result<(), NoMemory>
        ensures ok { OnOk result (self.new ≡ self.old ++ item ∷ []) }
        ensures refused { OnErr result (self.new ≡ self.old) }
    {
        let Some(count) = self.count.checked_add(1) else {
            drop(item);
            return Err(NoMemory);
        };
        if close_block(alloc, &mut self.blocks, &mut self.last).is_err() {
            drop(item);
            return Err(NoMemory);
        }
        let packed = PackedItem::of(alloc, item)?;
        self.last.push(packed)?;
        self.count = count;
        Ok(())
    }

    /// Takes the first item.
    pub fn next(&mut self) -> Option<Item>
        ensures items { self.old ≡ option_to_list result ++ self.new }
        ensures none { result ≡ None → self.new ≡ [] }
    {
        if self.front.is_empty() {
            turn_block(&mut self.front, &mut self.blocks, &mut self.last);
        }
        let packed = self.front.pop()?;
        self.count -= 1;
        Some(packed.into_item())
    }

    /// All of them as a list. Where there is no memory for it, they are let go.
    pub fn into_items(self, alloc: Global) -> Result<Vec<Item>, NoMemory>
        ensures { IfOk result (λ list. list.items ≡ self) }
    {
        let mut left = self;
        let mut list = Vec::new(alloc);
        while let Some(item) = left.next() {
            let Ok(()) = list.push(item) else {
                drop(left);
                return Err(NoMemory);
            };
        }
        drop(left);
        Ok(list)
    }
}
