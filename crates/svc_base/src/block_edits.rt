//! What becomes of entries in blocks.

ghost use Rattle.std.specs.Prelude.{◌≡◌, ℕ, ◌+◌, ◌<◌, ◌≤◌, ◌++◌, ◌∷◌, suc, length, insert, remove, slice_index_or, Vec, vec_len, vec_capacity, true};
ghost use Rattle.svc_base.specs.Blocks.{joined, later_filled, are_wide, before, behind, first_key, is_index, renoted, KeepsFirsts, IsPlaceOf};

use crate::block_places::{Place, first_key};
use crate::keyed::Keyed;
use std::alloc::Global;

/// Inserts into a block that has memory for it.
fn insert_in<T: Drop>(block: &mut Vec<T>, place: usize, entry: T)
    requires place { place ≤ vec_len block.old }
    requires room { vec_len block.old < vec_capacity block.old }
    ensures items { block.new.items ≡ insert block.old.items place entry }
    ensures room { vec_capacity block.new ≡ vec_capacity block.old }
{
    let _ = block.insert(place, entry);
}

/// Inserts at the place. The block has memory for it.
pub(crate) fn insert_at<T: Drop>(blocks: &mut Vec<Vec<T>>, place: Place, entry: T)
    requires within { place.block < vec_len blocks.old }
    requires inside { (d : Vec T Global) → place.entry ≤ length (slice_index_or blocks.old.items place.block d).items }
    requires wide { are_wide 1 blocks.old.items ≡ true }
    ensures entries { joined blocks.new.items
        ≡ before blocks.old.items place.block place.entry ++ entry ∷ behind blocks.old.items place.block place.entry }
    ensures filled { later_filled blocks.old.items ≡ true → later_filled blocks.new.items ≡ true }
    ensures wide { (n : ℕ) → are_wide (n + 1) blocks.old.items ≡ true → are_wide n blocks.new.items ≡ true }
    ensures same { length blocks.new.items ≡ length blocks.old.items }
    ensures firsts { (key : T → ℕ) → (0 < place.block → 0 < place.entry) → KeepsFirsts key blocks.old.items blocks.new.items }
{
    insert_in(&mut blocks[place.block], place.entry, entry);
}

/// Puts another entry at the place.
pub(crate) fn replace_at<T: Drop>(blocks: &mut Vec<Vec<T>>, place: Place, entry: T)
    requires within { place.block < vec_len blocks.old }
    requires inside { (d : Vec T Global) → place.entry < length (slice_index_or blocks.old.items place.block d).items }
    ensures entries { joined blocks.new.items
        ≡ before blocks.old.items place.block place.entry ++ entry ∷ behind blocks.old.items place.block (suc place.entry) }
    ensures filled { later_filled blocks.old.items ≡ true → later_filled blocks.new.items ≡ true }
    ensures wide { (n : ℕ) → are_wide n blocks.old.items ≡ true → are_wide n blocks.new.items ≡ true }
    ensures same { length blocks.new.items ≡ length blocks.old.items }
    ensures firsts { (key : T → ℕ) → IsPlaceOf key (key entry) blocks.old.items place.block place.entry → KeepsFirsts key blocks.old.items blocks.new.items }
{
    let block = &mut blocks[place.block];
    block[place.entry] = entry;
}

/// Notes the first key of the block anew, where the entry at the place was its first one.
fn note_after<T: Keyed>(firsts: &mut Vec<u64>, place: Place, block: &[T])
    ensures { firsts.new.items ≡ renoted T.key_of place.block place.entry block.now firsts.old.items }
{
    if place.entry == 0 && place.block < firsts.len() {
        firsts[place.block] = first_key(block);
    }
}

/// The first key of the block there is noted no longer.
fn forget_first(firsts: &mut Vec<u64>, at: usize)
    ensures { firsts.new.items ≡ remove firsts.old.items at }
{
    if at < firsts.len() {
        let _ = firsts.remove(at);
    }
}

/// Takes the entry at the place out of its block, which keeps others or is the first.
fn remove_in<T: Keyed>(blocks: &mut Vec<Vec<T>>, firsts: &mut Vec<u64>, place: Place) -> T
    requires within { place.block < vec_len blocks.old }
    requires inside { (d : Vec T Global) → place.entry < length (slice_index_or blocks.old.items place.block d).items }
    requires others { (d : Vec T Global) → 0 < place.block → 1 < length (slice_index_or blocks.old.items place.block d).items }
    ensures entries { joined blocks.new.items
        ≡ before blocks.old.items place.block place.entry ++ behind blocks.old.items place.block (suc place.entry) }
    ensures taken { behind blocks.old.items place.block place.entry ≡ result ∷ behind blocks.old.items place.block (suc place.entry) }
    ensures filled { later_filled blocks.old.items ≡ true → later_filled blocks.new.items ≡ true }
    ensures wide { (n : ℕ) → are_wide n blocks.old.items ≡ true → are_wide n blocks.new.items ≡ true }
    ensures same { length blocks.new.items ≡ length blocks.old.items }
    ensures index { is_index T.key_of firsts.old.items blocks.old.items ≡ true → is_index T.key_of firsts.new.items blocks.new.items ≡ true }
{
    let block = &mut blocks[place.block];
    let entry = block.remove(place.entry);
    note_after(firsts, place, block);
    entry
}

/// Takes out the block, of which this is the only entry.
fn remove_block<T: Keyed>(blocks: &mut Vec<Vec<T>>, firsts: &mut Vec<u64>, place: Place) -> T
    requires within { place.block < vec_len blocks.old }
    requires inside { (d : Vec T Global) → place.entry < length (slice_index_or blocks.old.items place.block d).items }
    requires alone { (d : Vec T Global) → length (slice_index_or blocks.old.items place.block d).items ≡ 1 }
    requires later { 0 < place.block }
    ensures entries { joined blocks.new.items
        ≡ before blocks.old.items place.block place.entry ++ behind blocks.old.items place.block (suc place.entry) }
    ensures taken { behind blocks.old.items place.block place.entry ≡ result ∷ behind blocks.old.items place.block (suc place.entry) }
    ensures filled { later_filled blocks.old.items ≡ true → later_filled blocks.new.items ≡ true }
    ensures wide { (n : ℕ) → are_wide n blocks.old.items ≡ true → are_wide n blocks.new.items ≡ true }
    ensures some { 0 < length blocks.new.items }
    ensures index { is_index T.key_of firsts.old.items blocks.old.items ≡ true → is_index T.key_of firsts.new.items blocks.new.items ≡ true }
{
    forget_first(firsts, place.block);
    let mut block = blocks.remove(place.block);
    block.remove(place.entry)
}

/// Takes the entry at the place out. No block but the first is left without entries.
pub(crate) fn remove_at<T: Keyed>(
    blocks: &mut Vec<Vec<T>>,
    firsts: &mut Vec<u64>,
    place: Place,
) -> T
    requires within { place.block < vec_len blocks.old }
    requires inside { (d : Vec T Global) → place.entry < length (slice_index_or blocks.old.items place.block d).items }
    ensures entries { joined blocks.new.items
        ≡ before blocks.old.items place.block place.entry ++ behind blocks.old.items place.block (suc place.entry) }
    ensures taken { behind blocks.old.items place.block place.entry ≡ result ∷ behind blocks.old.items place.block (suc place.entry) }
    ensures filled { later_filled blocks.old.items ≡ true → later_filled blocks.new.items ≡ true }
    ensures wide { (n : ℕ) → are_wide n blocks.old.items ≡ true → are_wide n blocks.new.items ≡ true }
    ensures some { 0 < length blocks.new.items }
    ensures index { is_index T.key_of firsts.old.items blocks.old.items ≡ true → is_index T.key_of firsts.new.items blocks.new.items ≡ true }
{
    if place.block > 0 && blocks[place.block].len() == 1 {
        remove_block(blocks, firsts, place)
    } else {
        remove_in(blocks, firsts, place)
    }
}
