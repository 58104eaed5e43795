//! Messages that are put together from pieces.

ghost use Rattle.std.specs.Prelude.{◌≡◌, IsTrue, OnOk, IfOk, string_bytes};
ghost use Rattle.svc_messages.specs.Messages.{IsMessage};
ghost use Rattle.svc_messages.specs.Pieces.{is_plain_piece, are_plain_pieces};
ghost use Rattle.svc_messages.specs.Refusals.{line_text};

use crate::words::{said, shown};
use std::alloc::Global;
use svc_base::NoMemory;

/// What a message is put together from.
#[derive(Clone, Copy)]
pub enum Piece<'a> {
    /// Words of the message itself.
    Text(&'a str),
    /// A number in decimal digits.
    Number(u64),
    /// A word of the input, as a person can read it.
    Word(&'a [u8]),
}

/// Puts a piece behind a message.
fn put_piece(alloc: Global, text: &mut String, piece: Piece<'_>) -> Result<(), NoMemory>
    requires { IsTrue (is_plain_piece piece) }
    ensures { OnOk result (IsMessage (string_bytes text.old) → IsMessage (string_bytes text.new)) }
{
    match piece {
        Piece::Text(words) => text.push_str(words)?,
        Piece::Number(n) => text.push_str(format!(in alloc; "{n}")?.as_str())?,
        Piece::Word(word) => text.push_str(shown(alloc, word)?.as_str())?,
    }
    Ok(())
}

/// Puts the pieces behind a message. `NoMemory` where there is none for them.
pub fn put(alloc: Global, text: &mut String, pieces: &[Piece<'_>]) -> Result<(), NoMemory>
    requires { IsTrue (are_plain_pieces pieces.now) }
    ensures { OnOk result (IsMessage (string_bytes text.old) → IsMessage (string_bytes text.new)) }
{
    for piece in pieces {
        put_piece(alloc, text, *piece)?;
    }
    Ok(())
}

/// The message that these words begin and the pieces go on with. `NoMemory` where there is none for it.
pub fn told(alloc: Global, first: &str, pieces: &[Piece<'_>]) -> Result<String, NoMemory>
    requires first { IsMessage first.now }
    requires pieces { IsTrue (are_plain_pieces pieces.now) }
    ensures { IfOk result (λ text. IsMessage (string_bytes text)) }
{
    let mut text = said(alloc, first)?;
    put(alloc, &mut text, pieces)?;
    Ok(text)
}

/// The message that says of a word of the input what these words begin and the pieces go on with. `NoMemory` where there is
/// none for it.
pub fn about(
    alloc: Global,
    word: &[u8],
    says: &str,
    pieces: &[Piece<'_>],
) -> Result<String, NoMemory>
    requires says { IsMessage says.now }
    requires pieces { IsTrue (are_plain_pieces pieces.now) }
    ensures { IfOk result (λ text. IsMessage (string_bytes text)) }
{
    let mut text = shown(alloc, word)?;
    text.push_str(says)?;
    put(alloc, &mut text, pieces)?;
    Ok(text)
}

/// A message on a line: its number, from 1, and what is said of it. `NoMemory` where there is none for it.
pub fn numbered(alloc: Global, number: usize, cause: &str) -> Result<String, NoMemory>
    ensures text { IfOk result (λ text. string_bytes text ≡ line_text number cause.now) }
    ensures message { IsMessage cause.now → IfOk result (λ text. IsMessage (string_bytes text)) }
{
    Ok(format!(in alloc; "line {number}: {cause}")?)
}
