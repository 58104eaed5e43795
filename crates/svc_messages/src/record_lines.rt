//! What the lines of a record say of an event.

use svc_base::{split_line, split_word};

/// The two have the same front of so many words.
fn same_front(a: &[u8], b: &[u8], count: usize) -> bool {
    let (mut left, mut right) = (a, b);
    for _ in 0..count {
        let (Some((x, more)), Some((y, rest))) = (split_word(left), split_word(right)) else {
            return false;
        };
        if x != y {
            return false;
        }
        left = more;
        right = rest;
    }
    true
}

/// The line begins with this word, and goes on with the same front of so many words.
pub(crate) fn is_action(line: &[u8], key: &str, words: &[u8], count: usize) -> bool {
    match split_word(line) {
        Some((word, rest)) => word == key.as_bytes() && same_front(rest, words, count),
        None => false,
    }
}

/// The line is one of an event that begins so.
pub(crate) fn is_event(line: &[u8], key: &str, words: &[u8], count: usize) -> bool {
    match split_word(line) {
        Some((word, rest)) => word == b"got".as_slice() && is_action(rest, key, words, count),
        None => false,
    }
}

/// An action that begins so was told.
pub(crate) fn has_action(record: &[u8], key: &str, words: &[u8], count: usize) -> bool {
    let mut rest = record;
    while let Some((line, after)) = split_line(rest) {
        if is_action(line, key, words, count) {
            return true;
        }
        rest = after;
    }
    false
}

/// How many events came that begin so.
pub(crate) fn count_events(record: &[u8], key: &str, words: &[u8], count: usize) -> u64 {
    let mut found = 0u64;
    let mut rest = record;
    while let Some((line, after)) = split_line(rest) {
        if is_event(line, key, words, count) {
            found = found.saturating_add(1);
        }
        rest = after;
    }
    found
}

/// An event came that begins so.
pub(crate) fn has_event(record: &[u8], key: &str, words: &[u8], count: usize) -> bool {
    count_events(record, key, words, count) > 0
}

/// The lines of a record before its last event.
pub(crate) fn before_last_event(record: &[u8]) -> &[u8] {
    let mut kept = record.len();
    let mut rest = record;
    while let Some((line, after)) = split_line(rest) {
        if let Some((word, _)) = split_word(line)
            && word == b"got".as_slice()
        {
            kept = record.len().saturating_sub(rest.len());
        }
        rest = after;
    }
    &record[..kept.min(record.len())]
}
