//! Where an entry stands in blocks, or goes.

ghost use Rattle.std.specs.Prelude.{◌≡◌, ◌<◌, ◌≤◌, length, take, drop, slice_index_or, Vec, nat_lt, nat_le, IfSome, IfNone, true, false};
ghost use Rattle.std.specs.List.{list_all};
ghost use Rattle.svc_base.specs.Blocks.{joined, later_filled, rises_by, has_key, is_over, starts, first_key, is_index, IsBlockFor, IsPlaceFor, IsPlaceOf, IsLastPlace};

use crate::keyed::Keyed;
use std::alloc::Global;

/// A place in a block.
#[derive(Clone, Copy)]
pub(crate) struct Place {
    pub block: usize,
    pub entry: usize,
}

/// The key of the first entry, or 0 without one.
pub(crate) fn first_key<T: Keyed>(block: &[T]) -> u64
    ensures { result ≡ first_key T.key_of block.now }
{
    match block.first() {
        Some(first) => first.key(),
        None => 0,
    }
}

/// The block there starts at most at the key. Its own first entry is read only where its key isn't noted.
fn starts_at<T: Keyed>(blocks: &[Vec<T>], firsts: &[u64], at: usize, key: u64) -> bool
    requires later { 0 < at }
    requires within { at < length blocks.now }
    requires index { is_index T.key_of firsts.now blocks.now ≡ true }
    ensures { (d : Vec T Global) → result ≡ starts T.key_of key (slice_index_or blocks.now at d).items }
{
    if at < firsts.len() {
        firsts[at] <= key
    } else {
        first_key(&blocks[at]) <= key
    }
}

/// The block of the key, by halving: the last one that starts at most there.
fn block_for<T: Keyed>(blocks: &[Vec<T>], firsts: &[u64], key: u64) -> usize
    requires some { 0 < length blocks.now }
    requires index { is_index T.key_of firsts.now blocks.now ≡ true }
    ensures { IsBlockFor T.key_of key blocks.now result }
{
    let mut low = 0;
    let mut high = blocks.len();
    while low + 1 < high {
        let middle = low + (high - low) / 2;
        if starts_at(blocks, firsts, middle, key) {
            low = middle;
        } else {
            high = middle;
        }
    }
    low
}

/// How many keys of the block are at most this, by halving.
fn count_up_to<T: Keyed>(block: &[T], key: u64) -> usize
    requires { rises_by T.key_of block.now ≡ true }
    ensures within { result ≤ length block.now }
    ensures below { list_all (λ x. nat_le (T.key_of x) key) (take result block.now) ≡ true }
    ensures above { list_all (λ x. nat_lt key (T.key_of x)) (drop result block.now) ≡ true }
{
    block.partition_point(|entry| entry.key() <= key)
}

/// Where an entry with the key goes: behind all whose keys are at most that.
pub(crate) fn place_for<T: Keyed>(blocks: &[Vec<T>], firsts: &[u64], key: u64) -> Place
    requires some { 0 < length blocks.now }
    requires filled { later_filled blocks.now ≡ true }
    requires rise { rises_by T.key_of (joined blocks.now) ≡ true }
    requires index { is_index T.key_of firsts.now blocks.now ≡ true }
    ensures { IsPlaceFor T.key_of key blocks.now result.block result.entry }
{
    let block = block_for(blocks, firsts, key);
    let entry = count_up_to(&blocks[block], key);
    Place { block, entry }
}

/// Where the last entry stands whose key is at most this, if there is one.
pub(crate) fn last_place<T: Keyed>(blocks: &[Vec<T>], firsts: &[u64], key: u64) -> Option<Place>
    requires filled { later_filled blocks.now ≡ true }
    requires rise { rises_by T.key_of (joined blocks.now) ≡ true }
    requires index { is_index T.key_of firsts.now blocks.now ≡ true }
    ensures found { IfSome result (λ p. IsLastPlace T.key_of key blocks.now p.block p.entry) }
    ensures absent { IfNone result (is_over T.key_of key (joined blocks.now) ≡ true) }
{
    if blocks.is_empty() {
        return None;
    }
    let behind = place_for(blocks, firsts, key);
    if behind.entry == 0 {
        return None;
    }
    Some(Place {
        block: behind.block,
        entry: behind.entry - 1,
    })
}

/// Where the last entry with the key stands, if there is one.
pub(crate) fn find_place<T: Keyed>(blocks: &[Vec<T>], firsts: &[u64], key: u64) -> Option<Place>
    requires filled { later_filled blocks.now ≡ true }
    requires rise { rises_by T.key_of (joined blocks.now) ≡ true }
    requires index { is_index T.key_of firsts.now blocks.now ≡ true }
    ensures found { IfSome result (λ p. IsPlaceOf T.key_of key blocks.now p.block p.entry) }
    ensures absent { IfNone result (has_key T.key_of key (joined blocks.now) ≡ false) }
{
    match last_place(blocks, firsts, key) {
        Some(place) => {
            let block = &blocks[place.block];
            if block[place.entry].key() == key {
                Some(place)
            } else {
                None
            }
        }
        None => None,
    }
}
