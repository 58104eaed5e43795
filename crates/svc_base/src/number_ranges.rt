//! Sets of numbers, kept as ranges.

ghost use Rattle.std.specs.Prelude.{◌≡◌, ◌==◌, ℕ, ◌+◌, ◌<◌, ◌≤◌, OnOk, IfSome, IfNone, [], true, false};
ghost use Rattle.svc_base.specs.Items.{list_of, spare};
ghost use Rattle.svc_base.specs.NumberSets.{is_in, put_number};
ghost use Rattle.svc_base.specs.NumberRanges.{AreRanges, are_apart, last_from, without_next, attached, ends_at, EndsBefore, stretches, count_up};

use crate::blocks::Blocks;
use crate::keyed::Keyed;
use crate::memory::NoMemory;
use std::alloc::Global;
use std::marker::Model;

/// The numbers from the first to the last, both among them.
#[derive(Clone, Copy)]
struct NumberRange {
    first: u64,
    last: u64,
}

impl Keyed for NumberRange {
    ghost use Rattle.svc_base.specs.NumberRanges.{first_of};

    ghost key_of = { first_of };

    fn key(&self) -> u64 {
        self.first
    }
}

/// Numbers without doubles, in ascending order. What takes memory is not each number but each stretch of them:
/// numbers that follow one another take one range, however many they are. Contracts see the numbers and for how
/// many more there is memory, whichever they are.
#[derive(Drop)]
pub struct NumberRanges {
    ranges: Blocks<NumberRange>,
}

impl Model for NumberRanges {
    ghost use Rattle.std.specs.Prelude.{List, ℕ};
    ghost use Rattle.svc_base.specs.Items.{list_of, spare};
    ghost use Rattle.svc_base.specs.NumberRanges.{numbers_of, AreRanges};

    ghost Value = { List ℕ × ℕ };

    ghost view = { λ s. (numbers_of (list_of s.ranges), spare s.ranges) };

    ghost invariant = { λ s. AreRanges (list_of s.ranges) };
}

/// The range that begins right behind the number goes. Its last number, or the number itself where there is none.
fn take_next(ranges: &mut Blocks<NumberRange>, number: u64) -> u64
    requires { AreRanges (list_of ranges.old) }
    ensures last { result ≡ last_from number (list_of ranges.old) }
    ensures rest { list_of ranges.new ≡ without_next number (list_of ranges.old) }
    ensures room { spare ranges.new ≡ spare ranges.old }
{
    if number == u64::MAX {
        return number;
    }
    match ranges.remove(number + 1) {
        Some(next) => next.last,
        None => number,
    }
}

/// The range ends right before the number.
fn is_right_before(range: &NumberRange, number: u64) -> bool
    ensures { result ≡ (range.now.last + 1 == number) }
{
    range.last < number && number - range.last == 1
}

/// The range that ends right before the number, if there is one.
fn ends_before(ranges: &Blocks<NumberRange>, number: u64) -> Option<NumberRange>
    requires { are_apart (list_of ranges.now) ≡ true }
    ensures found { IfSome result (λ x. EndsBefore number (list_of ranges.now) x) }
    ensures absent { IfNone result (ends_at number (list_of ranges.now) ≡ false) }
{
    match ranges.last_up_to(number) {
        Some(range) => {
            if is_right_before(range, number) {
                Some(*range)
            } else {
                None
            }
        }
        None => None,
    }
}

/// Takes a range of new numbers. It is joined to the one that ends right before it.
fn attach(ranges: &mut Blocks<NumberRange>, range: NumberRange)
    requires apart { are_apart (list_of ranges.old) ≡ true }
    requires room { 0 < spare ranges.old }
    ensures ranges { list_of ranges.new ≡ attached range (list_of ranges.old) }
    ensures room { spare ranges.old ≤ spare ranges.new + 1 }
{
    match ends_before(ranges, range.first) {
        Some(before) => {
            let _ = ranges.replace(NumberRange {
                first: before.first,
                last: range.last,
            });
        }
        None => ranges.insert(range),
    }
}

impl NumberRanges {
    /// No numbers.
    pub fn new(alloc: Global) -> NumberRanges
        ensures { list_of result ≡ [] }
    {
        NumberRanges {
            ranges: Blocks::new(alloc),
        }
    }

    /// After it there is room for so many more numbers. `NoMemory` where there is none; nothing has changed then.
    pub fn reserve(&mut self, count: usize) -> Result<(), NoMemory>
        ensures numbers { list_of self.new ≡ list_of self.old }
        ensures room { OnOk result (count ≤ spare self.new) }
    {
        self.ranges.reserve(count)
    }

    /// The number is among them.
    pub fn has(&self, number: u64) -> bool
        ensures { result ≡ is_in number (list_of self.now) }
    {
        match self.ranges.last_up_to(number) {
            Some(range) => number <= range.last,
            None => false,
        }
    }

    /// How many ranges they take: as many as there are stretches of numbers that follow one another, so one at
    /// most where each number follows the one before it, however many came.
    pub fn range_count(&self) -> usize
        ensures stretches { result ≡ stretches (list_of self.now) }
        ensures one { (n k : ℕ) → list_of self.now ≡ count_up n k → result ≤ 1 }
    {
        self.ranges.len()
    }

    /// Takes a new number.
    pub fn add(&mut self, number: u64)
        requires new { is_in number (list_of self.old) ≡ false }
        requires room { 0 < spare self.old }
        ensures numbers { list_of self.new ≡ put_number number (list_of self.old) }
        ensures room { spare self.old ≤ spare self.new + 1 }
    {
        let last = take_next(&mut self.ranges, number);
        attach(
            &mut self.ranges,
            NumberRange {
                first: number,
                last,
            },
        );
    }
}
