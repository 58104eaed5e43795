//! The words of the command line.

ghost use Rattle.std.specs.Prelude.{◌≡◌, ◌≤◌, map, IfOk, IfSome};
ghost use Rattle.std.specs.Bool.{Decides};
ghost use Rattle.std.specs.Option.{MatchOption};
ghost use Rattle.std.specs.Rc.{rc_str_bytes};
ghost use Rattle.svc_main.specs.CommandWords.{BeginsWithRun, TakesWords, RefusesRun, size_of, size_after, made_size, flags_of};

use std::alloc::Global;
use std::rc::RcStr;
use svc_base::{NoMemory, number};
use svc_conf::{Opt, OptError};

fn is_run(words: &[RcStr]) -> bool
    ensures { Decides result (BeginsWithRun (map rc_str_bytes words.now)) }
{
    match words {
        [word, ..] => word.as_str() == "run",
        [] => false,
    }
}

/// How many services the generator is to make, by a word.
#[tactic(auto, unfolding(crate::specs::CommandWords::size_of))]
fn size_of(word: &[u8]) -> Option<u32>
    ensures size { result ≡ size_of word.now }
    ensures range { IfSome result (λ n. (1 ≤ n) × (n ≤ 1024)) }
{
    let n = number(word)?;
    if n >= 1 && n <= 1024 {
        Some(n as u32)
    } else {
        None
    }
}

/// The same, where the word before it is `gen`.
fn size_after(key: &RcStr, word: &RcStr) -> Option<u32>
    ensures size { result ≡ size_after (rc_str_bytes key.now) (rc_str_bytes word.now) }
    ensures range { IfSome result (λ n. (1 ≤ n) × (n ≤ 1024)) }
{
    if key.as_str() == "gen" {
        size_of(word.as_str().as_bytes())
    } else {
        None
    }
}

/// How many services the generator is to make, where the words are `gen` and a number.
pub(crate) fn made_size(words: &[RcStr]) -> Option<u32>
    ensures size { result ≡ made_size (map rc_str_bytes words.now) }
    ensures range { IfSome result (λ n. (1 ≤ n) × (n ≤ 1024)) }
{
    match words {
        [key, word] => size_after(key, word),
        _ => None,
    }
}

/// The flags that follow the word `run`, or None where the words are refused.
pub(crate) fn read_words(alloc: Global, words: &[RcStr]) -> Result<Option<Opt>, NoMemory>
    ensures { IfOk result (λ o. MatchOption o
        (RefusesRun (map rc_str_bytes words.now))
        (λ opt. TakesWords (map rc_str_bytes words.now) × (opt ≡ flags_of (map rc_str_bytes words.now)))) }
{
    if !is_run(words) {
        return Ok(None);
    }
    match Opt::parse_args(alloc, words) {
        Ok(opt) => Ok(Some(opt)),
        Err(OptError::Words(_)) => Ok(None),
        Err(OptError::NoMemory) => Err(NoMemory),
    }
}
