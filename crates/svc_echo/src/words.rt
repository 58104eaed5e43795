//! The words of the command line.

ghost use Rattle.std.specs.Prelude.{◌≡◌, ◌≤◌, [], ◌∷◌, map, IfSome};
ghost use Rattle.std.specs.Rc.{rc_str_bytes};
ghost use Rattle.svc_echo.specs.Words.{is_address, turns_by, turns_of};

use std::rc::RcStr;
use svc_base::number;

/// The most turns of each worker.
const MOST_TURNS: u64 = 1_000_000_000;

/// The address has 1 to 4,096 bytes.
fn is_address(word: &str) -> bool
    ensures { result ≡ is_address word.now }
{
    (1..=4096).contains(&word.len())
}

/// How many turns a word says: from 1 to 1,000,000,000.
#[tactic(auto, unfolding(crate::specs::Words::turns_by))]
fn turns_by(word: &[u8]) -> Option<u64>
    ensures turns { result ≡ turns_by word.now }
    ensures range { IfSome result (λ n. (1 ≤ n) × (n ≤ 1000000000)) }
{
    let n = number(word)?;
    if n >= 1 && n <= MOST_TURNS {
        Some(n)
    } else {
        None
    }
}

/// How many turns each worker has, where the words are two different addresses and that number.
pub(crate) fn turns_of(words: &[RcStr]) -> Option<u64>
    ensures { result ≡ turns_of (map rc_str_bytes words.now) }
{
    match words {
        [address, control, turns] => turns_for(address.as_str(), control.as_str(), turns.as_str()),
        _ => None,
    }
}

/// The same of three words.
fn turns_for(address: &str, control: &str, turns: &str) -> Option<u64>
    ensures { result ≡ turns_of (address.now ∷ control.now ∷ turns.now ∷ []) }
{
    if !is_address(address) || !is_address(control) || address == control {
        return None;
    }
    turns_by(turns.as_bytes())
}
