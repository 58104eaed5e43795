//! The two words of a message: its bytes, and the numbers of its descriptors.

ghost use Rattle.std.specs.Prelude.{◌≡◌, ◌<◌, IfOk, IfSome};
ghost use Rattle.svc_text.specs.EventLines.{hex_digit_of, hex_byte_of, hex_of, bytes_of, listed_of, descriptors_of};
ghost use Rattle.svc_text.specs.NumberLists.{joined_of};

use crate::lists::push_item;
use std::alloc::Global;
use svc_base::{Bytes, NoMemory, number};
use svc_fds::FdList;

/// The most descriptors of a message.
const MOST_DESCRIPTORS: u64 = 32;

/// The value of a lower-case hexadecimal digit.
#[tactic(auto, unfolding(crate::specs::EventLines::hex_digit_of))]
fn hex_digit_of(b: u8) -> Option<u8>
    ensures value { result ≡ hex_digit_of b }
    ensures small { IfSome result (λ digit. digit < 16) }
{
    match b {
        b'0'..=b'9' => Some(b - b'0'),
        b'a'..=b'f' => Some(b - b'a' + 10),
        _ => None,
    }
}

/// A byte of two digits.
#[tactic(auto, unfolding(crate::specs::EventLines::hex_byte_of))]
fn hex_byte_of(high: u8, low: u8) -> Option<u8>
    ensures { result ≡ hex_byte_of high low }
{
    let high = hex_digit_of(high)?;
    let low = hex_digit_of(low)?;
    Some(16 * high + low)
}

/// Bytes of two digits each.
fn hex_of(alloc: Global, word: &[u8]) -> Result<Option<Bytes>, NoMemory>
    ensures { IfOk result (λ o. o ≡ hex_of word.now) }
{
    let mut bytes = Bytes::new(alloc);
    let mut rest = word;
    while let [high, low, after @ ..] = rest {
        let Some(byte) = hex_byte_of(*high, *low) else {
            return Ok(None);
        };
        push_item(alloc, &mut bytes, byte)?;
        rest = after;
    }
    if rest.is_empty() {
        Ok(Some(bytes))
    } else {
        Ok(None)
    }
}

/// The bytes that a word has in hexadecimal. A dash stands for none.
#[tactic(auto, unfolding(crate::specs::EventLines::bytes_of))]
pub fn bytes_of(alloc: Global, word: &[u8]) -> Result<Option<Bytes>, NoMemory>
    ensures { IfOk result (λ o. o ≡ bytes_of word.now) }
{
    if word == b"-".as_slice() {
        return Ok(Some(Bytes::new(alloc)));
    }
    hex_of(alloc, word)
}

/// Numbers joined by commas.
pub fn joined_of(alloc: Global, word: &[u8]) -> Result<Option<FdList>, NoMemory>
    ensures { IfOk result (λ o. o ≡ joined_of word.now) }
{
    let mut numbers = FdList::new(alloc);
    for piece in word.split(|b| *b == b',') {
        let Some(n) = number(piece) else {
            return Ok(None);
        };
        push_item(alloc, &mut numbers, n)?;
    }
    Ok(Some(numbers))
}

/// The numbers that a word lists. A dash stands for none.
#[tactic(auto, unfolding(crate::specs::EventLines::listed_of))]
fn listed_of(alloc: Global, word: &[u8]) -> Result<Option<FdList>, NoMemory>
    ensures { IfOk result (λ o. o ≡ listed_of word.now) }
{
    if word == b"-".as_slice() {
        return Ok(Some(FdList::new(alloc)));
    }
    joined_of(alloc, word)
}

/// The numbers of at most 32 descriptors.
#[tactic(auto, unfolding(crate::specs::EventLines::descriptors_of))]
pub fn descriptors_of(alloc: Global, word: &[u8]) -> Result<Option<FdList>, NoMemory>
    ensures { IfOk result (λ o. o ≡ descriptors_of word.now) }
{
    let Some(fds) = listed_of(alloc, word)? else {
        return Ok(None);
    };
    if fds.len() <= MOST_DESCRIPTORS {
        Ok(Some(fds))
    } else {
        Ok(None)
    }
}
