//! The message that carries a table of descriptors.

ghost use Rattle.std.specs.Prelude.{◌≡◌, ◌==◌, ◌<◌, ◌++◌, [], ◌∷◌, true, false, IfOk, IfErr, OnOk, MatchOption, length, not, if◌then◌else◌};
ghost use Rattle.std.specs.Char.{is_ascii_whitespace};
ghost use Rattle.std.specs.List.{list_any};
ghost use Rattle.std.specs.String.{string_bytes};
ghost use Rattle.svc_fds.specs.Tables.{addresses, numbers, IsAscending};
ghost use Rattle.svc_fds.specs.Messages.{AreTexts, has_empty_address, is_unjoinable, has_unjoinable, joined, is_joinable, frame, framed, is_framed, is_sayable, message_bytes, IsEncodable, written, EncodeRefusalFits, IsMessage, table_of};

use crate::errors::EncodeError;
use crate::fd::Fd;
use std::alloc::Global;
use svc_base::{Bytes, Items, NoMemory, Text, copy_items};

/// The most bytes of a message of version 1.
pub const JOINED_LIMIT: usize = 2048;

/// The most bytes of a message.
pub const MESSAGE_LIMIT: usize = 65_536;

/// The most descriptors of a message.
pub const FD_LIMIT: usize = 32;

/// What a message of version 2 begins with.
pub(crate) const VERSION_2: &str = " v2 ";

/// A table on its way: the addresses, joined by single spaces or each after its length, and the numbers
/// of their descriptors, in the same order.
#[derive(Debug, Drop)]
pub struct Message {
    pub bytes: Bytes,
    pub fds: Items<u64>,
}

/// The addresses of the entries.
pub(crate) fn texts_of(alloc: Global, entries: &[(Text, Fd)]) -> Result<Vec<Text>, NoMemory>
    ensures { IfOk result (λ texts. texts.items ≡ addresses entries.now) }
{
    let mut texts = Vec::new(alloc);
    for entry in entries {
        texts.push(entry.0.copy(alloc)?)?;
    }
    Ok(texts)
}

/// The numbers of the entries' descriptors.
pub(crate) fn numbers_of(alloc: Global, entries: &[(Text, Fd)]) -> Result<Items<u64>, NoMemory>
    ensures { IfOk result (λ fds. fds ≡ numbers entries.now) }
{
    let mut fds = Items::new(alloc);
    for entry in entries {
        if let Err(refused) = fds.push(alloc, entry.1.number()) {
            return Err(refused.reason);
        }
    }
    Ok(fds)
}

/// Whether there is ASCII whitespace.
fn has_blank(bytes: &[u8]) -> bool
    ensures { result ≡ list_any is_ascii_whitespace bytes.now }
{
    bytes.iter().any(|byte| byte.is_ascii_whitespace())
}

/// Whether version 1 doesn't say an address.
fn is_unjoinable(address: &str) -> bool
    ensures { result ≡ is_unjoinable address.now }
{
    address.is_empty() || has_blank(address.as_bytes())
}

/// Whether version 1 doesn't say one of the addresses.
fn has_unjoinable(entries: &[(Text, Fd)]) -> bool
    ensures { result ≡ has_unjoinable entries.now }
{
    entries.iter().any(|entry| is_unjoinable(entry.0.as_str()))
}

/// Whether one of the addresses is empty.
fn has_empty_address(entries: &[(Text, Fd)]) -> bool
    ensures { result ≡ has_empty_address entries.now }
{
    entries.iter().any(|entry| entry.0.as_str().is_empty())
}

/// What stands before the word of this index.
fn gap(index: usize) -> &'static str
    ensures { result.now ≡ (if index == 0 then [] else 32 ∷ []) }
{
    if index == 0 { "" } else { " " }
}

/// The addresses, joined by single spaces.
fn joined(alloc: Global, entries: &[(Text, Fd)]) -> Result<String, NoMemory>
    ensures { IfOk result (λ text. string_bytes text ≡ joined entries.now) }
{
    let mut text = String::new(alloc);
    for (index, entry) in entries.iter().enumerate() {
        text.push_str(gap(index))?;
        text.push_str(entry.0.as_str())?;
    }
    Ok(text)
}

/// Puts an address after its length in bytes and a colon.
fn push_frame(alloc: Global, address: &str, text: &mut String) -> Result<(), NoMemory>
    ensures { OnOk result (string_bytes text.new ≡ string_bytes text.old ++ frame address.now) }
{
    let length = format!(in alloc; "{}:", address.len())?;
    text.push_str(length.as_str())?;
    text.push_str(address)?;
    Ok(())
}

/// The addresses, each after its length, in version 2.
fn framed(alloc: Global, entries: &[(Text, Fd)]) -> Result<String, NoMemory>
    ensures text { IfOk result (λ text. string_bytes text ≡ framed entries.now) }
    ensures read { OnOk result (AreTexts entries.now) }
{
    let mut text = String::from_str(alloc, VERSION_2)?;
    for entry in entries {
        push_frame(alloc, entry.0.as_str(), &mut text)?;
    }
    Ok(text)
}

/// The text of version 1, where that says the table.
fn joinable(alloc: Global, entries: &[(Text, Fd)]) -> Result<Option<String>, NoMemory>
    ensures { IfOk result (λ found. MatchOption found (is_joinable entries.now ≡ false)
        (λ text. (is_joinable entries.now ≡ true) × (string_bytes text ≡ joined entries.now))) }
{
    if has_unjoinable(entries) {
        return Ok(None);
    }
    let text = joined(alloc, entries)?;
    if text.len() > JOINED_LIMIT {
        return Ok(None);
    }
    Ok(Some(text))
}

/// The text of the message of a table that has no empty address: version 1 where that says it.
fn said(alloc: Global, entries: &[(Text, Fd)]) -> Result<String, EncodeError>
    requires { has_empty_address entries.now ≡ false }
    ensures said { OnOk result (is_sayable entries.now ≡ true) }
    ensures text { IfOk result (λ text. string_bytes text ≡ message_bytes entries.now) }
    ensures read { OnOk result (is_joinable entries.now ≡ false → AreTexts entries.now) }
    ensures refusal { IfErr result (λ error. EncodeRefusalFits entries.now error) }
{
    if let Some(text) = joinable(alloc, entries)? {
        return Ok(text);
    }
    let text = framed(alloc, entries)?;
    if text.len() > MESSAGE_LIMIT {
        return Err(EncodeError::TooLong);
    }
    Ok(text)
}

/// The message of a table.
pub(crate) fn encoded(alloc: Global, entries: &[(Text, Fd)]) -> Result<Message, EncodeError>
    requires { IsAscending entries.now }
    ensures ok { IfOk result (λ message. IsEncodable entries.now
        × (message ≡ written entries.now)) }
    ensures version { IfOk result (λ message. is_framed message.bytes
        ≡ not (is_joinable entries.now)) }
    ensures again { IfOk result (λ message. IsMessage message.bytes (length message.fds)
        × (table_of message.bytes message.fds ≡ entries.now)) }
    ensures refusal { IfErr result (λ error. EncodeRefusalFits entries.now error) }
{
    if has_empty_address(entries) {
        return Err(EncodeError::BadAddress);
    }
    let text = said(alloc, entries)?;
    if entries.len() > FD_LIMIT {
        return Err(EncodeError::TooMany);
    }
    let bytes = copy_items(alloc, text.as_str().as_bytes())?;
    let fds = numbers_of(alloc, entries)?;
    Ok(Message { bytes, fds })
}
