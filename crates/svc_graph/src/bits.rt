//! Rows of bits.

ghost use Rattle.std.specs.Prelude.{◌≡◌, ◌≢◌, ◌<◌, ◌≤◌, ◌+◌, ◌*◌, ◌/◌, ◌==◌, ◌&&◌, ◌||◌, not, ℕ, [], true, false, length, OnOk, IfOk, IfSome, IfNone};
ghost use Rattle.std.specs.Int.{bit_at};
ghost use Rattle.svc_graph.specs.Bits.{is_set, word_of, HasRows};

use std::alloc::Global;
use std::marker::Model;
use svc_base::NoMemory;

/// How many words a row has.
const ROW_WORDS: usize = 16;

/// Rows of 1,024 bits, none of them set at first: sets of services, and of places in their order. Contracts see the words.
#[derive(Debug, Drop)]
pub struct Bits {
    words: Vec<u64>,
}

impl Model for Bits {
    ghost use Rattle.std.specs.Prelude.{List, ℕ};

    ghost Value = { List ℕ };

    ghost view = { λ s. s.words.items };
}

/// Whether the bit is set.
fn has_bit(word: u64, k: u32) -> bool
    requires { k < 64 }
    ensures { result ≡ (bit_at word k == 1) }
{
    (word >> k) & 1 == 1
}

/// The word with the bit set.
fn with_bit(word: u64, k: u32) -> u64
    requires { k < 64 }
    ensures set { bit_at result k ≡ 1 }
    ensures others { (i : ℕ) → i ≢ k → bit_at result i ≡ bit_at word i }
{
    word | (1 << k)
}

/// The word without the bit.
fn without_bit(word: u64, k: u32) -> u64
    requires { k < 64 }
    ensures clear { bit_at result k ≡ 0 }
    ensures others { (i : ℕ) → i < 64 → i ≢ k → bit_at result i ≡ bit_at word i }
{
    word & !(1 << k)
}

/// The least bit from `low` on that is set.
fn least_bit(word: u64, low: u32) -> Option<u32>
    requires { low < 64 }
    ensures found { IfSome result (λ k. (low ≤ k) × (k < 64) × (bit_at word k ≡ 1)) }
    ensures least { IfSome result (λ k. (i : ℕ) → low ≤ i → i < k → bit_at word i ≡ 0) }
    ensures none { IfNone result ((i : ℕ) → low ≤ i → bit_at word i ≡ 0) }
{
    let rest = word >> low;
    if rest == 0 {
        return None;
    }
    Some(low + rest.trailing_zeros())
}

/// The place of the word that has the bit.
fn word_of(x: u32, y: u32) -> usize
    ensures { result ≡ word_of x y }
{
    ROW_WORDS * x as usize + (y / 64) as usize
}

impl Bits {
    /// No row.
    pub fn new(alloc: Global) -> Self
        ensures { result ≡ [] }
    {
        Bits {
            words: Vec::new(alloc),
        }
    }

    /// The same bits once more. Refused where memory runs out (`NoMemory`).
    pub fn copied(&self, alloc: Global) -> Result<Bits, NoMemory>
        ensures { IfOk result (λ copy. copy ≡ self.now) }
    {
        Ok(Bits {
            words: self.words.to_vec(alloc)?,
        })
    }

    /// Makes at least this many rows; the bits are as they were. Refused where memory runs out (`NoMemory`).
    pub fn grow(&mut self, rows: u32) -> Result<(), NoMemory>
        ensures rows { OnOk result (HasRows self.new rows) }
        ensures kept { length self.old ≤ length self.new }
        ensures same { (a b : ℕ) → is_set self.new a b ≡ is_set self.old a b }
    {
        let wanted = ROW_WORDS * rows as usize;
        if self.words.len() < wanted {
            self.words.resize(wanted, 0)?;
        }
        Ok(())
    }

    /// Whether bit `y` of row `x` is set.
    pub fn has(&self, x: u32, y: u32) -> bool
        requires row { HasRows self.now (x + 1) }
        requires bit { y < 1024 }
        ensures { result ≡ is_set self.now x y }
    {
        has_bit(self.words[word_of(x, y)], y % 64)
    }

    /// Sets bit `y` of row `x`.
    pub fn set(&mut self, x: u32, y: u32)
        requires row { HasRows self.old (x + 1) }
        requires bit { y < 1024 }
        ensures len { length self.new ≡ length self.old }
        ensures bits { (a b : ℕ) → is_set self.new a b ≡ (is_set self.old a b || (a == x && b == y)) }
    {
        let at = word_of(x, y);
        self.words[at] = with_bit(self.words[at], y % 64);
    }

    /// Clears bit `y` of row `x`.
    pub fn clear(&mut self, x: u32, y: u32)
        requires row { HasRows self.old (x + 1) }
        requires bit { y < 1024 }
        ensures len { length self.new ≡ length self.old }
        ensures bits { (a b : ℕ) → is_set self.new a b ≡ (is_set self.old a b && not (a == x && b == y)) }
    {
        let at = word_of(x, y);
        self.words[at] = without_bit(self.words[at], y % 64);
    }

    /// A row takes over the bits of another one.
    pub fn join(&mut self, into: u32, from: u32)
        requires into { HasRows self.old (into + 1) }
        requires from { HasRows self.old (from + 1) }
        requires apart { into ≢ from }
        ensures len { length self.new ≡ length self.old }
        ensures bits { (a b : ℕ)
            → is_set self.new a b ≡ (is_set self.old a b || (a == into && is_set self.old from b)) }
    {
        for k in 0..ROW_WORDS {
            let word = self.words[ROW_WORDS * from as usize + k];
            self.words[ROW_WORDS * into as usize + k] |= word;
        }
    }

    /// The least bit of a row from `from` on that is set.
    pub fn next(&self, x: u32, from: u32) -> Option<u32>
        requires row { HasRows self.now (x + 1) }
        ensures found { IfSome result (λ b. (from ≤ b) × (b < 1024) × (is_set self.now x b ≡ true)) }
        ensures least { IfSome result (λ b. (c : ℕ) → from ≤ c → c < b → is_set self.now x c ≡ false) }
        ensures none { IfNone result ((c : ℕ) → from ≤ c → is_set self.now x c ≡ false) }
    {
        if from >= 1024 {
            return None;
        }
        let mut low = from % 64;
        for k in from / 64..16 {
            let word = self.words[ROW_WORDS * x as usize + k as usize];
            if let Some(bit) = least_bit(word, low) {
                return Some(64 * k + bit);
            }
            low = 0;
        }
        None
    }

    /// A bit of a row of others that row `x` doesn't have.
    pub(crate) fn other(&self, x: u32, others: &Bits, y: u32) -> Option<u32>
        requires row { HasRows self.now (x + 1) }
        requires others { HasRows others.now (y + 1) }
        ensures found { IfSome result (λ b. (b < 1024) × (is_set others.now y b ≡ true) × (is_set self.now x b ≡ false)) }
        ensures none { IfNone result ((b : ℕ) → is_set others.now y b ≡ true → is_set self.now x b ≡ true) }
    {
        for k in 0..16u32 {
            let word = others.words[ROW_WORDS * y as usize + k as usize];
            let own = self.words[ROW_WORDS * x as usize + k as usize];
            if let Some(bit) = least_bit(word & !own, 0) {
                return Some(64 * k + bit);
            }
        }
        None
    }
}
