//! Memory for more entries in blocks.

ghost use Rattle.std.specs.Prelude.{◌≡◌, ℕ, ◌+◌, ◌<◌, ◌^◌, length, take, OnOk, vec_len, vec_capacity, true};
ghost use Rattle.svc_base.specs.Blocks.{are_wide, first_key, is_index, put_note, KeepsFirsts, KeepsEntries};

use crate::block_places::first_key;
use crate::keyed::Keyed;
use crate::memory::NoMemory;
use std::alloc::Global;
use std::mem::drop;

/// A block with more entries is cut.
const FULL: usize = 64;

/// So many entries go from a block that is cut.
const HALF: usize = FULL / 2;

/// How much more is reserved than what is asked for.
pub(crate) const SLACK: usize = 64;

/// Where a block of so many entries is cut. The last one stays full, so that keys that ascend leave no
/// block half empty.
fn cut_place(len: usize, is_last: bool) -> usize
    requires { 64 < len }
    ensures lower { 0 < result }
    ensures upper { result < len }
{
    if is_last && len < 2 * FULL {
        FULL
    } else {
        len - HALF
    }
}

/// Notes the first key of a new block there, behind others that are noted.
fn note_new<T: Keyed>(firsts: &mut Vec<u64>, at: usize, block: &[T])
    requires { vec_len firsts.old < vec_capacity firsts.old }
    ensures { firsts.new.items ≡ put_note at (first_key T.key_of block.now) firsts.old.items }
{
    if at <= firsts.len() {
        let _ = firsts.insert(at, first_key(block));
    }
}

/// Notes the first keys of the blocks behind those whose keys are noted.
pub(crate) fn note_rest<T: Keyed>(firsts: &mut Vec<u64>, blocks: &[Vec<T>]) -> Result<(), NoMemory>
    ensures { is_index T.key_of firsts.old.items blocks.now ≡ true → is_index T.key_of firsts.new.items blocks.now ≡ true }
{
    for at in firsts.len()..blocks.len() {
        firsts.push(first_key(&blocks[at]))?;
    }
    Ok(())
}

/// Cuts entries off the block there, if it has too many.
fn cut<T: Keyed>(blocks: &mut Vec<Vec<T>>, firsts: &mut Vec<u64>, at: usize) -> Result<(), NoMemory>
    requires { at < vec_len blocks.old }
    ensures kept { KeepsEntries blocks.old.items blocks.new.items }
    ensures index { is_index T.key_of firsts.old.items blocks.old.items ≡ true → is_index T.key_of firsts.new.items blocks.new.items ≡ true }
{
    let len = blocks[at].len();
    if len <= FULL {
        return Ok(());
    }
    let place = cut_place(len, at + 1 == blocks.len());
    blocks.reserve(1)?;
    firsts.reserve(1)?;
    let upper = blocks[at].split_off(place)?;
    note_new(firsts, at + 1, &upper);
    drop(blocks.insert(at + 1, upper));
    Ok(())
}

/// Cuts the block there into blocks that are no larger than the others.
fn cut_whole<T: Keyed>(
    blocks: &mut Vec<Vec<T>>,
    firsts: &mut Vec<u64>,
    at: usize,
) -> Result<(), NoMemory>
    requires { at < vec_len blocks.old }
    ensures kept { KeepsEntries blocks.old.items blocks.new.items }
    ensures index { is_index T.key_of firsts.old.items blocks.old.items ≡ true → is_index T.key_of firsts.new.items blocks.new.items ≡ true }
{
    for _part in 0..blocks[at].len() / HALF {
        cut(blocks, firsts, at)?;
    }
    Ok(())
}

/// Cuts each block that has too many entries.
fn cut_each<T: Keyed>(blocks: &mut Vec<Vec<T>>, firsts: &mut Vec<u64>) -> Result<(), NoMemory>
    ensures kept { KeepsEntries blocks.old.items blocks.new.items }
    ensures index { is_index T.key_of firsts.old.items blocks.old.items ≡ true → is_index T.key_of firsts.new.items blocks.new.items ≡ true }
{
    for at in (0..blocks.len()).rev() {
        cut_whole(blocks, firsts, at)?;
    }
    Ok(())
}

/// Reserves memory for so many more entries in the block there, and a little more where it has none.
fn widen<T>(blocks: &mut Vec<Vec<T>>, at: usize, room: usize) -> Result<(), NoMemory>
    requires at { at < vec_len blocks.old }
    requires few { room < 2 ^ 60 }
    ensures kept { KeepsEntries blocks.old.items blocks.new.items }
    ensures same { length blocks.new.items ≡ length blocks.old.items }
    ensures room { OnOk result (are_wide room (take at blocks.old.items) ≡ true → are_wide room (take (at + 1) blocks.new.items) ≡ true) }
    ensures firsts { (key : T → ℕ) → KeepsFirsts key blocks.old.items blocks.new.items }
{
    let block = &mut blocks[at];
    if block.capacity() - block.len() < room {
        block.reserve_exact(room + SLACK / 4)?;
    }
    Ok(())
}

/// Reserves memory for so many more entries in each block.
fn widen_each<T>(blocks: &mut Vec<Vec<T>>, room: usize) -> Result<(), NoMemory>
    requires { room < 2 ^ 60 }
    ensures kept { KeepsEntries blocks.old.items blocks.new.items }
    ensures room { OnOk result (are_wide room blocks.new.items ≡ true) }
    ensures firsts { (key : T → ℕ) → KeepsFirsts key blocks.old.items blocks.new.items }
{
    for at in 0..blocks.len() {
        widen(blocks, at, room)?;
    }
    Ok(())
}

/// There is a first block.
fn begin<T: Drop>(blocks: &mut Vec<Vec<T>>, alloc: Global) -> Result<(), NoMemory>
    ensures kept { KeepsEntries blocks.old.items blocks.new.items }
    ensures some { OnOk result (0 < length blocks.new.items) }
    ensures firsts { (key : T → ℕ) → KeepsFirsts key blocks.old.items blocks.new.items }
{
    if blocks.is_empty() {
        blocks.push(Vec::new(alloc))?;
    }
    Ok(())
}

/// After it there is a block, none has too many entries, and each has memory for so many more.
pub(crate) fn make_room<T: Keyed>(
    blocks: &mut Vec<Vec<T>>,
    firsts: &mut Vec<u64>,
    room: usize,
    alloc: Global,
) -> Result<(), NoMemory>
    requires { room < 2 ^ 60 }
    ensures kept { KeepsEntries blocks.old.items blocks.new.items }
    ensures some { OnOk result (0 < length blocks.new.items) }
    ensures room { OnOk result (are_wide room blocks.new.items ≡ true) }
    ensures index { is_index T.key_of firsts.old.items blocks.old.items ≡ true → is_index T.key_of firsts.new.items blocks.new.items ≡ true }
{
    begin(blocks, alloc)?;
    note_rest(firsts, blocks)?;
    cut_each(blocks, firsts)?;
    widen_each(blocks, room)
}
