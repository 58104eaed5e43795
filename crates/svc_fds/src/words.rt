//! The words of a message, and whether one stands twice.

ghost use Rattle.std.specs.Prelude.{◌≡◌, ◌<◌, None, Some, IfOk, IfErr, OnOk, IfSome, MatchOption, ◌==◌, position, length, true, false};
ghost use Rattle.svc_fds.specs.Lists.{is_among, has_repeat};
ghost use Rattle.svc_fds.specs.Messages.{joined_words, cut_word, front_word, framed_words, is_well_formed, words, IsMessage, DecodeRefusalFits};

use crate::encoding::VERSION_2;
use crate::errors::DecodeError;
use std::alloc::Global;
use std::str;
use svc_base::{NoMemory, Text, number};

/// The words of a text, which stand between blanks.
fn joined_words(alloc: Global, text: &str) -> Result<Vec<Text>, NoMemory>
    ensures { IfOk result (λ found. found.items ≡ joined_words text.now) }
{
    let mut found = Vec::new(alloc);
    for word in text.split_ascii_whitespace() {
        found.push(Text::new(alloc, word)?)?;
    }
    Ok(found)
}

/// Where the first colon stands.
fn colon_at(bytes: &[u8]) -> Option<usize>
    ensures { result ≡ position (λ b. b == 58) bytes.now }
{
    bytes.iter().position(|byte| *byte == b':')
}

/// So many bytes as a word, which has one at least, and what follows them.
fn cut_word(length: usize, bytes: &[u8]) -> Option<(&str, &[u8])>
    ensures { MatchOption result (cut_word length bytes.now ≡ None)
        (λ cut. cut_word length bytes.now ≡ Some (cut.0.now, cut.1.now)) }
{
    if length == 0 || length > bytes.len() {
        return None;
    }
    match str::from_utf8(&bytes[..length]) {
        Ok(word) => Some((word, &bytes[length..])),
        Err(_) => None,
    }
}

/// The word at the front, after its length and a colon, and what follows it.
fn front_word(bytes: &[u8]) -> Option<(&str, &[u8])>
    ensures cut { MatchOption result (front_word bytes.now ≡ None)
        (λ cut. front_word bytes.now ≡ Some (cut.0.now, cut.1.now)) }
    ensures shorter { IfSome result (λ cut. length cut.1.now < length bytes.now) }
{
    let Some(colon) = colon_at(bytes) else {
        return None;
    };
    match number(&bytes[..colon]) {
        Some(length) => cut_word(length as usize, &bytes[colon + 1..]),
        None => None,
    }
}

/// The words of version 2, each after its length, one after the other and nothing else; none where the
/// bytes aren't so.
fn framed_words(alloc: Global, bytes: &[u8]) -> Result<Option<Vec<Text>>, NoMemory>
    ensures { IfOk result (λ found. MatchOption found (framed_words bytes.now ≡ None)
        (λ read. framed_words bytes.now ≡ Some read.items)) }
{
    let mut found = Vec::new(alloc);
    let mut rest = bytes;
    while !rest.is_empty() {
        let Some((word, after)) = front_word(rest) else {
            return Ok(None);
        };
        found.push(Text::new(alloc, word)?)?;
        rest = after;
    }
    Ok(Some(found))
}

/// The words of a text, in either version; none where it begins as version 2 and isn't a list of lengths
/// and words.
fn words_of(alloc: Global, text: &str) -> Result<Option<Vec<Text>>, NoMemory>
    ensures { IfOk result (λ found. MatchOption found (is_well_formed text.now ≡ false)
        (λ read. (is_well_formed text.now ≡ true) × (read.items ≡ words text.now))) }
{
    if text.starts_with(VERSION_2) {
        return framed_words(alloc, &text.as_bytes()[VERSION_2.len()..]);
    }
    Ok(Some(joined_words(alloc, text)?))
}

/// Whether a text stands among others.
fn is_among(text: &str, texts: &[Text]) -> bool
    ensures { result ≡ is_among text.now texts.now }
{
    texts.iter().any(|other| other.as_str() == text)
}

/// Whether a text stands twice.
pub fn has_repeat(texts: &[Text]) -> bool
    ensures { result ≡ has_repeat texts.now }
{
    for (index, text) in texts.iter().enumerate() {
        if is_among(text.as_str(), &texts[index + 1..]) {
            return true;
        }
    }
    false
}

/// The words of a message that came with so many descriptors. The k-th is the address of the k-th
/// descriptor.
pub fn decode(alloc: Global, bytes: &[u8], count: usize) -> Result<Vec<Text>, DecodeError>
    ensures message { OnOk result (IsMessage bytes.now count) }
    ensures words { IfOk result (λ found. found.items ≡ words bytes.now) }
    ensures refusal { IfErr result (DecodeRefusalFits bytes.now count) }
{
    let text = match str::from_utf8(bytes) {
        Ok(text) => text,
        Err(_) => return Err(DecodeError::NotUtf8),
    };
    let found = match words_of(alloc, text) {
        Ok(found) => found,
        Err(NoMemory) => return Err(DecodeError::NoMemory),
    };
    let Some(binds) = found else {
        return Err(DecodeError::BadForm);
    };
    if binds.len() != count {
        return Err(DecodeError::Unequal);
    }
    if has_repeat(&binds) {
        return Err(DecodeError::Repeated);
    }
    Ok(binds)
}
