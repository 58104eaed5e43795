//! Words as a person can read them, and words that aren't known.

ghost use Rattle.std.specs.Prelude.{◌≡◌, ◌↔◌, ◌+◌, ◌≤◌, IsTrue, OnOk, IfOk, Any, string_bytes, string_len};
ghost use Rattle.svc_messages.specs.Messages.{IsPlain, ArePlain, IsMessage, Hints};

use crate::spelling::nearest;
use std::alloc::Global;
use std::str;
use svc_base::NoMemory;

/// The most characters of a word that are shown.
const LONGEST: usize = 60;

/// The text, in memory of its own.
pub fn said(alloc: Global, text: &str) -> Result<String, NoMemory>
    ensures { IfOk result (λ said. string_bytes said ≡ text.now) }
{
    Ok(String::from_str(alloc, text)?)
}

/// Puts the character behind the text, or its number where it is a control character.
fn push_shown(alloc: Global, text: &mut String, c: char) -> Result<(), NoMemory>
    ensures plain { OnOk result (IsPlain (string_bytes text.old) → IsPlain (string_bytes text.new)) }
    ensures short { OnOk result (string_len text.new ≤ string_len text.old + 4) }
{
    if c.is_control() {
        let code = c as u32;
        text.push_str(format!(in alloc; "<{code:02x}>")?.as_str())?;
    } else {
        text.push(c)?;
    }
    Ok(())
}

/// The word as a person can read it, on one line: a long one is cut, and control characters are named by number.
pub fn shown(alloc: Global, word: &[u8]) -> Result<String, NoMemory>
    ensures plain { IfOk result (λ shown. IsPlain (string_bytes shown)) }
    ensures short { IfOk result (λ shown. string_len shown ≤ 242) }
{
    let Ok(text) = str::from_utf8(word) else {
        return said(alloc, "a word that isn't UTF-8");
    };
    let mut shown = String::new(alloc);
    let mut left = LONGEST;
    for c in text.chars() {
        if left == 0 {
            shown.push_str("..")?;
            return Ok(shown);
        }
        left -= 1;
        push_shown(alloc, &mut shown, c)?;
    }
    Ok(shown)
}

/// The word is one of the known ones.
pub fn is_known(word: &[u8], known: &[&'static str]) -> bool
    ensures { IsTrue result ↔ Any (λ name. name.now ≡ word.now) known.now }
{
    known.iter().any(|name| name.as_bytes() == word)
}

/// The word is none of the known ones: what it was meant to be, where one is a letter off, or else all of them.
pub fn unknown_word(
    alloc: Global,
    word: &[u8],
    sort: &str,
    known: &[&'static str],
) -> Result<String, NoMemory>
    ensures plain { IsPlain sort.now → ArePlain known.now → IfOk result (λ text. IsMessage (string_bytes text)) }
    ensures hint { IfOk result (λ text. Hints word.now known.now (string_bytes text)) }
{
    let word_shown = shown(alloc, word)?;
    if let Some(meant) = nearest(word, known) {
        return Ok(format!(in alloc; "{word_shown} is no {sort}; did you mean {meant}?")?);
    }
    let mut text = format!(in alloc; "{word_shown} is no {sort}; known are")?;
    for name in known {
        text.push_str(" ")?;
        text.push_str(name)?;
    }
    Ok(text)
}
