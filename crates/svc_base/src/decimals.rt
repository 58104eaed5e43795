//! Numbers as texts have them.

ghost use Rattle.std.specs.Prelude.{◌≡◌, ◌≤◌, ◌<◌, ◌^◌, true, length, slice_index, Some, IfSome};
ghost use Rattle.svc_base.specs.Words.{has_spare_front, number_of};

use std::str;

/// The most digits of which no number is too large for 64 bits, with one to spare.
const MOST_DIGITS: usize = 18;

/// The word has 1 to 18 bytes, of which the first is no zero, unless it's alone.
fn is_short(word: &[u8]) -> bool
    ensures some { result ≡ true → 0 < length word.now }
    ensures few { result ≡ true → length word.now ≤ 18 }
    ensures plain { result ≡ true → slice_index word.now 0 ≡ 48 → length word.now ≡ 1 }
{
    match word {
        [] => false,
        [b'0', ..] => word.len() == 1,
        _ => word.len() <= MOST_DIGITS,
    }
}

/// The number that at most 18 digits spell, without a leading zero. Any other word has none here.
fn short_number(word: &[u8]) -> Option<u64>
    ensures { IfSome result (λ n. number_of (2 ^ 64) word.now ≡ Some n) }
{
    if !is_short(word) {
        return None;
    }
    let mut value = 0u64;
    for digit in word {
        if !digit.is_ascii_digit() {
            return None;
        }
        value = value * 10 + (*digit - b'0') as u64;
    }
    Some(value)
}

fn has_spare_front(word: &[u8]) -> bool
    ensures { result ≡ has_spare_front word.now }
{
    match word {
        [b'+', ..] => true,
        [b'0', ..] => word.len() > 1,
        _ => false,
    }
}

/// The number that any word spells, which is looked at as a text.
fn parsed_number(word: &[u8]) -> Option<u64>
    ensures { result ≡ number_of (2 ^ 64) word.now }
{
    if has_spare_front(word) {
        return None;
    }
    match str::from_utf8(word) {
        Ok(text) => text.parse::<u64>().ok(),
        Err(_) => None,
    }
}

/// The number that a word spells: in decimal, without a sign or a leading zero.
pub fn number(word: &[u8]) -> Option<u64>
    ensures { result ≡ number_of (2 ^ 64) word.now }
{
    match short_number(word) {
        Some(n) => Some(n),
        None => parsed_number(word),
    }
}

/// The same for numbers of 8 bits.
#[tactic(auto, unfolding(crate::specs::Words::number_of))]
pub fn number8(word: &[u8]) -> Option<u8>
    ensures { result ≡ number_of (2 ^ 8) word.now }
{
    u8::try_from(number(word)?).ok()
}

/// The same for numbers of 16 bits.
#[tactic(auto, unfolding(crate::specs::Words::number_of))]
pub fn number16(word: &[u8]) -> Option<u16>
    ensures { result ≡ number_of (2 ^ 16) word.now }
{
    u16::try_from(number(word)?).ok()
}

/// The same for numbers of 32 bits.
#[tactic(auto, unfolding(crate::specs::Words::number_of))]
pub fn number32(word: &[u8]) -> Option<u32>
    ensures { result ≡ number_of (2 ^ 32) word.now }
{
    u32::try_from(number(word)?).ok()
}
