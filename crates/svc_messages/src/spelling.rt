//! The known word that a misspelled one was meant to be.

ghost use Rattle.std.specs.Prelude.{◌≡◌, ◌↔◌, IsTrue, All, Any, MatchOption};
ghost use Rattle.svc_messages.specs.Spelling.{IsOneOff, SwapsFront, BehindShared};

/// What the two go on with behind the bytes that both begin with.
pub fn behind_shared<'a>(a: &'a [u8], b: &'a [u8]) -> (&'a [u8], &'a [u8])
    ensures { BehindShared a.now b.now result.0.now result.1.now }
{
    let (mut left, mut right) = (a, b);
    while let ([x, more @ ..], [y, rest @ ..]) = (left, right)
        && x == y
    {
        left = more;
        right = rest;
    }
    (left, right)
}

/// The two begin with two neighbours that are swapped, and go on alike.
fn is_swapped(a: &[u8], b: &[u8]) -> bool
    ensures { IsTrue result ↔ SwapsFront a.now b.now }
{
    match (a, b) {
        ([x, y, left @ ..], [z, w, right @ ..]) if x == w && y == z => left == right,
        _ => false,
    }
}

/// The one is the other with one byte too many, too few, another one, or two neighbours swapped.
pub fn is_one_off(a: &[u8], b: &[u8]) -> bool
    ensures { IsTrue result ↔ IsOneOff a.now b.now }
{
    match behind_shared(a, b) {
        ([], right) => right.len() == 1,
        (left, []) => left.len() == 1,
        ([_, more @ ..], [_, rest @ ..]) if more == rest => true,
        ([_, more @ ..], right) if more == right => true,
        (left, [_, rest @ ..]) if left == rest => true,
        (left, right) => is_swapped(left, right),
    }
}

/// The first of the known words that the word is one letter off, if one is.
pub fn nearest(word: &[u8], known: &[&'static str]) -> Option<&'static str>
    ensures { MatchOption result
        (All (λ name. IsOneOff word.now name.now → ⊥) known.now)
        (λ meant. IsOneOff word.now meant.now × Any (λ name. name.now ≡ meant.now) known.now) }
{
    for name in known {
        if is_one_off(word, name.as_bytes()) {
            return Some(*name);
        }
    }
    None
}
