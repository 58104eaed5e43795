//! A line is cut where its blanks, its key and its comment end.

ghost use Rattle.std.specs.Prelude.{◌≡◌, ◌<◌, ◌≤◌, [], length, position, true};
ghost use Rattle.svc_conf.specs.TextLines.{is_key_byte, not_key_byte, key_len, past_blanks, is_silent, is_skipped, is_end, is_gap, before_comment, without_end};
ghost use Rattle.svc_base.specs.Words.{is_blank};

use svc_base::is_blank;

fn is_key_byte(b: u8) -> bool
    ensures { result ≡ is_key_byte b }
{
    b.is_ascii_alphanumeric() || b == b'_' || b == b'-' || b == b'.'
}

fn key_end(line: &[u8]) -> Option<usize>
    ensures { result ≡ position not_key_byte line.now }
{
    line.iter().position(|b| !is_key_byte(*b))
}

/// How many bytes at the front are those of a key.
pub fn key_len(line: &[u8]) -> usize
    ensures len { result ≡ key_len line.now }
    ensures bound { result ≤ length line.now }
{
    key_end(line).unwrap_or(line.len())
}

/// What follows the blanks at the front.
pub fn past_blanks(line: &[u8]) -> &[u8]
    ensures { result.now ≡ past_blanks line.now }
{
    let mut rest = line;
    while let [b' ' | b'\t', more @ ..] = rest {
        rest = more;
    }
    rest
}

/// Nothing, or a comment.
fn is_silent(text: &[u8]) -> bool
    ensures { result ≡ is_silent text.now }
{
    match text {
        [] => true,
        [first, ..] => *first == b'#',
    }
}

/// Blanks alone, or a comment behind them.
pub fn is_skipped(line: &[u8]) -> bool
    ensures { result ≡ is_skipped line.now }
{
    is_silent(past_blanks(line))
}

/// What may follow a closing quote: nothing, or blanks with a comment behind them perhaps.
pub fn is_end(text: &[u8]) -> bool
    ensures { result ≡ is_end text.now }
{
    match text {
        [] => true,
        [first, more @ ..] => is_blank(*first) && is_skipped(more),
    }
}

/// Nothing, or something behind a blank.
pub fn is_gap(text: &[u8]) -> bool
    ensures { result ≡ is_gap text.now }
{
    match text {
        [] => true,
        [first, ..] => is_blank(*first),
    }
}

/// What stands before a comment, which begins at a `#` that is the first byte or follows a blank.
pub fn before_comment(value: &[u8]) -> &[u8]
    ensures { result.now ≡ before_comment true value.now }
{
    let mut free = true;
    for (i, b) in value.iter().enumerate() {
        if free && *b == b'#' {
            return &value[..i];
        }
        free = is_blank(*b);
    }
    value
}

/// The bytes without the blanks at the end.
pub fn without_end(text: &[u8]) -> &[u8]
    ensures { result.now ≡ without_end text.now }
{
    let mut front = text;
    while let [more @ .., last] = front {
        if !is_blank(*last) {
            break;
        }
        front = more;
    }
    front
}
