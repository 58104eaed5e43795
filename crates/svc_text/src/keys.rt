//! A word is compared with a known one.

ghost use Rattle.std.specs.Prelude.{◌≡◌};
ghost use Rattle.std.specs.Str.{bytes_eq};

/// The word is this one. Those of another length are told apart at once.
pub(crate) fn spells(word: &[u8], known: &[u8]) -> bool
    ensures { result ≡ bytes_eq word.now known.now }
{
    word.len() == known.len() && word == known
}
