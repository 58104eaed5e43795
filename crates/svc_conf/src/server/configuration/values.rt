//! The values of a configuration text.

ghost use Rattle.std.specs.Prelude.{◌≡◌, ◌^◌, ◌≤◌, ◌==◌, [], ◌∷◌, length, false, IfOk, IfSome, MatchOption, Some, None};
ghost use Rattle.std.specs.Option.{option_map};
ghost use Rattle.svc_conf.specs.TextLines.{first_is};
ghost use Rattle.svc_conf.specs.Values.{single, double, escaped, behind, value_in, quoted_value, is_mark, has_colon, ends_in_colon, is_plain, plain_value, value_from, value_of, is_null_word, is_unset, flag_in, scale_in, number_value, flag_value, scale_value, text_value, optional, may_be_zero, allowed, empty_list, said_of};
ghost use Rattle.svc_base.specs.Words.{number_of};

use super::cuts::{before_comment, is_end, past_blanks, without_end};
use super::field::{Field, OptionalNumberKey};
use super::said::Said;
use std::alloc::Global;
use std::str;
use svc_base::{NoMemory, RuntimeMetricsPollTimeHistogramScale, Text, number};

/// The value of a line: what it means, and whether it stood in quotes.
#[derive(Drop)]
pub struct Value {
    pub quoted: bool,
    pub text: Text,
}

/// The text up to a closing single quote, and what follows it.
fn single<'a>(alloc: Global, text: &'a [u8]) -> Result<Option<(Vec<u8>, &'a [u8])>, NoMemory>
    ensures { IfOk result (λ cut. option_map (λ c. (c.0.items, c.1.now)) cut ≡ single text.now) }
{
    let mut bytes = Vec::new(alloc);
    let mut rest = text;
    while let [first, after @ ..] = rest {
        rest = after;
        if *first == b'\'' {
            let [b'\'', more @ ..] = after else {
                return Ok(Some((bytes, after)));
            };
            rest = more;
        }
        bytes.push(*first)?;
    }
    Ok(None)
}

/// The text up to a closing single quote, and what follows it, as they stand. `None` where no quote
/// closes it or two stand for one before that.
fn whole_single(text: &[u8]) -> Option<(&[u8], &[u8])>
    ensures { IfSome result (λ cut. single text.now ≡ Some (cut.0.now, cut.1.now)) }
{
    for (i, b) in text.iter().enumerate() {
        if *b == b'\'' {
            let after = &text[i + 1..];
            return match after {
                [b'\'', ..] => None,
                _ => Some((&text[..i], after)),
            };
        }
    }
    None
}

/// What a byte behind a backslash stands for.
fn escaped(b: u8) -> Option<u8>
    ensures { result ≡ escaped b }
{
    match b {
        b'"' => Some(b'"'),
        b'\\' => Some(b'\\'),
        b'n' => Some(b'\n'),
        b'r' => Some(b'\r'),
        b't' => Some(b'\t'),
        _ => None,
    }
}

/// The byte that the front of a text in double quotes stands for, and what follows it.
fn meant(first: u8, after: &[u8]) -> Option<(u8, &[u8])>
    ensures next { (first == 34) ≡ false
        → MatchOption result (double (first ∷ after.now) ≡ None) (λ m. double (first ∷ after.now) ≡ behind (m.0 ∷ []) (double m.1.now)) }
    ensures shorter { IfSome result (λ m. length m.1.now ≤ length after.now) }
{
    if first != b'\\' {
        return Some((first, after));
    }
    let [next, more @ ..] = after else {
        return None;
    };
    match escaped(*next) {
        Some(byte) => Some((byte, more)),
        None => None,
    }
}

/// The text up to a closing double quote, and what follows it.
fn double<'a>(alloc: Global, text: &'a [u8]) -> Result<Option<(Vec<u8>, &'a [u8])>, NoMemory>
    ensures { IfOk result (λ cut. option_map (λ c. (c.0.items, c.1.now)) cut ≡ double text.now) }
{
    let mut bytes = Vec::new(alloc);
    let mut rest = text;
    while let [first, after @ ..] = rest {
        if *first == b'"' {
            return Ok(Some((bytes, after)));
        }
        let Some((byte, more)) = meant(*first, after) else {
            return Ok(None);
        };
        bytes.push(byte)?;
        rest = more;
    }
    Ok(None)
}

/// The text up to a closing double quote, and what follows it, as they stand. `None` where no quote
/// closes it or a backslash stands before that.
fn whole_double(text: &[u8]) -> Option<(&[u8], &[u8])>
    ensures { IfSome result (λ cut. double text.now ≡ Some (cut.0.now, cut.1.now)) }
{
    for (i, b) in text.iter().enumerate() {
        if *b == b'"' {
            return Some((&text[..i], &text[i + 1..]));
        }
        if *b == b'\\' {
            return None;
        }
    }
    None
}

/// The bytes as a value, where they are a text.
fn value_in(alloc: Global, quoted: bool, bytes: &[u8]) -> Result<Option<Value>, NoMemory>
    ensures { IfOk result (λ value. value ≡ value_in quoted bytes.now) }
{
    match str::from_utf8(bytes) {
        Ok(text) => {
            let text = Text::new(alloc, text)?;
            Ok(Some(Value { quoted, text }))
        }
        Err(_) => Ok(None),
    }
}

/// Behind the closing quote at most a comment may stand.
fn quoted_value(alloc: Global, cut: Option<(Vec<u8>, &[u8])>) -> Result<Option<Value>, NoMemory>
    ensures { IfOk result (λ value. value ≡ quoted_value (option_map (λ c. (c.0.items, c.1.now)) cut.entry)) }
{
    match cut {
        Some((bytes, after)) if is_end(after) => value_in(alloc, true, &bytes),
        _ => Ok(None),
    }
}

/// The value of a quoted text that stands as it is, before what follows its closing quote.
fn whole_value(alloc: Global, text: &[u8], after: &[u8]) -> Result<Option<Value>, NoMemory>
    ensures { IfOk result (λ value. value ≡ quoted_value (Some (text.now, after.now))) }
{
    if is_end(after) {
        value_in(alloc, true, text)
    } else {
        Ok(None)
    }
}

/// The value in single quotes, behind the first of them.
fn single_value(alloc: Global, text: &[u8]) -> Result<Option<Value>, NoMemory>
    ensures { IfOk result (λ value. value ≡ quoted_value (single text.now)) }
{
    match whole_single(text) {
        Some((whole, after)) => whole_value(alloc, whole, after),
        None => quoted_value(alloc, single(alloc, text)?),
    }
}

/// The value in double quotes, behind the first of them.
fn double_value(alloc: Global, text: &[u8]) -> Result<Option<Value>, NoMemory>
    ensures { IfOk result (λ value. value ≡ quoted_value (double text.now)) }
{
    match whole_double(text) {
        Some((whole, after)) => whole_value(alloc, whole, after),
        None => quoted_value(alloc, double(alloc, text)?),
    }
}

/// No plain value begins with it.
fn is_mark(b: u8) -> bool
    ensures { result ≡ is_mark b }
{
    b"[{]}&*!|>%@,?`".as_slice().contains(&b)
}

/// A colon with a space behind it stands somewhere.
fn has_colon(text: &[u8]) -> bool
    ensures { result ≡ has_colon text.now }
{
    let mut rest = text;
    while let [first, more @ ..] = rest {
        if *first == b':' && matches!(more, [b' ', ..]) {
            return true;
        }
        rest = more;
    }
    false
}

/// Whether the text's last byte is a colon.
pub fn ends_in_colon(text: &[u8]) -> bool
    ensures { result ≡ ends_in_colon text.now }
{
    let mut rest = text;
    let mut last = false;
    while let [first, more @ ..] = rest {
        last = *first == b':';
        rest = more;
    }
    last
}

fn begins_with_mark(text: &[u8]) -> bool
    ensures { result ≡ first_is is_mark text.now }
{
    match text {
        [] => false,
        [first, ..] => is_mark(*first),
    }
}

fn is_plain(text: &[u8]) -> bool
    ensures { result ≡ is_plain text.now }
{
    text == b"[]".as_slice()
        || (!begins_with_mark(text) && !has_colon(text) && !ends_in_colon(text))
}

fn plain_value(alloc: Global, text: &[u8]) -> Result<Option<Value>, NoMemory>
    ensures { IfOk result (λ value. value ≡ plain_value text.now) }
{
    if is_plain(text) {
        value_in(alloc, false, text)
    } else {
        Ok(None)
    }
}

fn value_from(alloc: Global, text: &[u8]) -> Result<Option<Value>, NoMemory>
    ensures { IfOk result (λ value. value ≡ value_from text.now) }
{
    match text {
        [b'\'', more @ ..] => single_value(alloc, more),
        [b'"', more @ ..] => double_value(alloc, more),
        _ => plain_value(alloc, without_end(before_comment(text))),
    }
}

/// The value that stands behind a key's colon or an item's dash, if it is one.
#[tactic(auto, unfolding(crate::specs::Values::value_of))]
pub fn value_of(alloc: Global, rest: &[u8]) -> Result<Option<Value>, NoMemory>
    ensures { IfOk result (λ value. value ≡ value_of rest.now) }
{
    value_from(alloc, past_blanks(rest))
}

/// Whether the text is one of the words for a value that isn't there: `null`, `Null`, `NULL` or `~`.
pub fn is_null_word(text: &[u8]) -> bool
    ensures { result ≡ is_null_word text.now }
{
    text == b"null".as_slice()
        || text == b"Null".as_slice()
        || text == b"NULL".as_slice()
        || text == b"~".as_slice()
}

/// Nothing, or a null word.
fn is_unset(value: &Value) -> bool
    ensures { result ≡ is_unset value.now }
{
    let text = value.text.as_str().as_bytes();
    !value.quoted && (text.is_empty() || is_null_word(text))
}

/// The number that a word spells: in decimal, without a sign or a leading zero.
fn number_in(word: &str) -> Option<u64>
    ensures { result ≡ number_of (2 ^ 64) word.now }
{
    number(word.as_bytes())
}

fn flag_in(text: &[u8]) -> Option<bool>
    ensures { result ≡ flag_in text.now }
{
    if text == b"true".as_slice() || text == b"True".as_slice() || text == b"TRUE".as_slice() {
        return Some(true);
    }
    if text == b"false".as_slice() || text == b"False".as_slice() || text == b"FALSE".as_slice() {
        return Some(false);
    }
    None
}

fn scale_in(text: &[u8]) -> Option<RuntimeMetricsPollTimeHistogramScale>
    ensures { result ≡ scale_in text.now }
{
    if text == b"linear".as_slice() {
        return Some(RuntimeMetricsPollTimeHistogramScale::Linear);
    }
    if text == b"log".as_slice() {
        return Some(RuntimeMetricsPollTimeHistogramScale::Log);
    }
    None
}

fn number_value(value: &Value) -> Option<u64>
    ensures { result ≡ number_value value.now }
{
    if value.quoted {
        return None;
    }
    number_in(value.text.as_str())
}

fn flag_value(value: &Value) -> Option<bool>
    ensures { result ≡ flag_value value.now }
{
    if value.quoted {
        return None;
    }
    flag_in(value.text.as_str().as_bytes())
}

fn scale_value(value: &Value) -> Option<RuntimeMetricsPollTimeHistogramScale>
    ensures { result ≡ scale_value value.now }
{
    if value.quoted {
        return None;
    }
    scale_in(value.text.as_str().as_bytes())
}

/// The text that a value is, quoted or plain.
pub fn text_value(value: Value) -> Option<Text>
    ensures { result ≡ text_value value }
{
    if is_unset(&value) {
        return None;
    }
    Some(value.text)
}

fn optional_text(value: Value) -> Option<Option<Text>>
    ensures { result ≡ optional text_value value }
{
    if is_unset(&value) {
        return Some(None);
    }
    Some(Some(value.text))
}

fn optional_number(value: &Value) -> Option<Option<u64>>
    ensures { result ≡ optional number_value value.now }
{
    if is_unset(value) {
        return Some(None);
    }
    match number_value(value) {
        Some(number) => Some(Some(number)),
        None => None,
    }
}

fn optional_scale(value: &Value) -> Option<Option<RuntimeMetricsPollTimeHistogramScale>>
    ensures { result ≡ optional scale_value value.now }
{
    if is_unset(value) {
        return Some(None);
    }
    match scale_value(value) {
        Some(scale) => Some(Some(scale)),
        None => None,
    }
}

fn may_be_zero(key: OptionalNumberKey) -> bool
    ensures { result ≡ may_be_zero key }
{
    !matches!(
        key,
        OptionalNumberKey::DaemonReadyTimeoutSeconds | OptionalNumberKey::DaemonNotifyTimeoutSeconds
    )
}

fn allowed(key: OptionalNumberKey, number: Option<Option<u64>>) -> Option<Option<u64>>
    ensures { result ≡ allowed key number }
{
    match number {
        Some(Some(0)) if !may_be_zero(key) => None,
        _ => number,
    }
}

fn empty_list(value: &Value) -> bool
    ensures { result ≡ empty_list value.now }
{
    !value.quoted && value.text.as_str() == "[]"
}

/// What the value of a key's line says, if it is of the key's sort.
pub fn said_of(field: Field, value: Value) -> Option<Said>
    ensures { result ≡ said_of field value }
{
    match field {
        Field::Number(key) => Some(Said::Number(key, number_value(&value)?)),
        Field::Flag(key) => Some(Said::Flag(key, flag_value(&value)?)),
        Field::Text(key) => Some(Said::Text(key, text_value(value)?)),
        Field::OptionalText(key) => Some(Said::OptionalText(key, optional_text(value)?)),
        Field::OptionalNumber(key) => Some(Said::OptionalNumber(
            key,
            allowed(key, optional_number(&value))?,
        )),
        Field::Scale => Some(Said::Scale(optional_scale(&value)?)),
        Field::List(key) if empty_list(&value) => Some(Said::Empty(key)),
        Field::List(_) => None,
    }
}
