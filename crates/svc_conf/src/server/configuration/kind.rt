//! The lines of a configuration text.

ghost use Rattle.std.specs.Prelude.{◌≡◌, is_some, IfSome};
ghost use Rattle.std.specs.Str.Lines.{lines};
ghost use Rattle.svc_conf.specs.TextLines.{first_is, is_start, is_key_line, key_in, after_key, is_item, after_dash, is_inner};
ghost use Rattle.svc_base.specs.Words.{is_blank};
ghost use Rattle.svc_conf.specs.ConfigurationText.{item_follows};
ghost use Rattle.svc_conf.specs.Kinds.{key_kind, kind_of, kind_in};

use super::cuts::{is_end, is_gap, is_skipped, key_len, past_blanks};
use super::field::{Field, ListKey, field_of, key_of};
use crate::server::configuration::Key;
use svc_base::{is_blank, split_line};

/// What a line is.
#[derive(Clone, Copy)]
pub enum Kind {
    /// It says nothing.
    Skipped,
    /// The line `---`.
    Start,
    /// It gives a known key a value.
    Known(Key),
    /// It begins the items of a list.
    Opens(ListKey),
    /// It has a key that isn't known.
    Unknown,
    /// An item of a list.
    Item,
    /// None of these: it is refused.
    Other,
}

/// A blank at the front.
fn is_followed(rest: &[u8]) -> bool
    ensures { result ≡ first_is is_blank rest.now }
{
    match rest {
        [] => false,
        [first, ..] => is_blank(*first),
    }
}

/// Three dashes and nothing more.
fn is_start(line: &[u8]) -> bool
    ensures { result ≡ is_start line.now }
{
    match line {
        [b'-', b'-', b'-', rest @ ..] => is_end(rest),
        _ => false,
    }
}

/// The line begins with a blank or with `-`.
fn is_inner(line: &[u8]) -> bool
    ensures { result ≡ is_inner line.now }
{
    match line {
        [] => false,
        [first, ..] => is_blank(*first) || *first == b'-',
    }
}

/// A line with a key that is known, if it is.
fn key_kind(key: Option<Key>, rest: &[u8]) -> (Kind, &[u8])
    ensures kind { result.0 ≡ (key_kind key rest.now).0 }
    ensures rest { result.1.now ≡ (key_kind key rest.now).1 }
{
    let Some(key) = key else {
        return (Kind::Unknown, &[]);
    };
    if let Field::List(list) = field_of(key)
        && is_skipped(rest)
    {
        return (Kind::Opens(list), &[]);
    }
    (Kind::Known(key), rest)
}

/// The key at the front of a line, where a colon is behind it and then nothing or a blank; and what
/// follows the colon.
fn split_key(line: &[u8]) -> Option<(&[u8], &[u8])>
    ensures line { is_some result ≡ is_key_line line.now }
    ensures key { IfSome result (λ cut. cut.0.now ≡ key_in line.now) }
    ensures rest { IfSome result (λ cut. cut.1.now ≡ after_key line.now) }
{
    let (key, rest) = line.split_at(key_len(line));
    match rest {
        [b':', after @ ..] if !key.is_empty() && is_gap(after) => Some((key, after)),
        _ => None,
    }
}

/// What follows the dash of an item.
fn split_item(line: &[u8]) -> Option<&[u8]>
    ensures line { is_some result ≡ is_item line.now }
    ensures rest { IfSome result (λ rest. rest.now ≡ after_dash line.now) }
{
    match past_blanks(line) {
        [b'-', rest @ ..] if is_followed(rest) => Some(rest),
        _ => None,
    }
}

/// What a line is by itself, and where its value is looked for.
#[tactic(auto, unfolding(crate::specs::Kinds::kind_of))]
fn kind_of(line: &[u8]) -> (Kind, &[u8])
    ensures kind { result.0 ≡ (kind_of line.now).0 }
    ensures rest { result.1.now ≡ (kind_of line.now).1 }
{
    if is_skipped(line) {
        return (Kind::Skipped, &[]);
    }
    if is_start(line) {
        return (Kind::Start, &[]);
    }
    if let Some((key, rest)) = split_key(line) {
        return key_kind(key_of(key), rest);
    }
    match split_item(line) {
        Some(rest) => (Kind::Item, rest),
        None => (Kind::Other, &[]),
    }
}

/// What it is behind an unknown key, or elsewhere.
pub fn kind_in(skips: bool, line: &[u8]) -> (Kind, &[u8])
    ensures kind { result.0 ≡ (kind_in skips line.now).0 }
    ensures rest { result.1.now ≡ (kind_in skips line.now).1 }
{
    if skips && is_inner(line) {
        return (Kind::Skipped, &[]);
    }
    kind_of(line)
}

/// The next line that isn't blank and isn't a comment is an item.
pub fn item_follows(text: &[u8]) -> bool
    ensures { result ≡ item_follows (lines text.now) }
{
    let mut rest = text;
    while let Some((line, after)) = split_line(rest) {
        if !is_skipped(line) {
            return split_item(line).is_some();
        }
        rest = after;
    }
    false
}
