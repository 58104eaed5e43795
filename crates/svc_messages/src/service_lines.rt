//! The services' lines of a script.

use crate::places::{Section, behind_header, header};
use svc_base::{split_line, split_word};

/// The line among those of the services says that the server bootstraps first.
fn is_eager(line: &[u8]) -> bool {
    match split_word(line) {
        Some((word, rest)) => word == b"eager".as_slice() && split_word(rest).is_none(),
        None => false,
    }
}

/// The line among those of the services is one of a service: no comment, and not blank.
fn is_service(line: &[u8]) -> bool {
    match split_word(line) {
        Some((name, _)) => name.first() != Some(&b'#') && !is_eager(line),
        None => false,
    }
}

/// The line's first word is this name.
fn is_named(line: &[u8], name: &[u8]) -> bool {
    match split_word(line) {
        Some((word, _)) => word == name,
        None => false,
    }
}

/// The number of the first service of a script that has this name.
pub(crate) fn number_of(bytes: &[u8], name: &[u8]) -> Option<u64> {
    let mut rest = behind_header(bytes, Section::Services);
    let mut number = 0u64;
    while let Some((line, after)) = split_line(rest) {
        if header(line).is_some() {
            return None;
        }
        if is_service(line) {
            if is_named(line, name) {
                return Some(number);
            }
            number = number.saturating_add(1);
        }
        rest = after;
    }
    None
}

/// The line of the service of a script that has this number.
pub(crate) fn line_of(bytes: &[u8], service: u64) -> Option<&[u8]> {
    let mut rest = behind_header(bytes, Section::Services);
    let mut number = 0u64;
    while let Some((line, after)) = split_line(rest) {
        if header(line).is_some() {
            return None;
        }
        if is_service(line) {
            if number == service {
                return Some(line);
            }
            number = number.saturating_add(1);
        }
        rest = after;
    }
    None
}

/// The line is that of a service of this kind.
fn is_of_kind(line: &[u8], wanted: &[u8]) -> bool {
    let Some((_, rest)) = split_word(line) else {
        return false;
    };
    match split_word(rest) {
        Some((kind, _)) => kind == wanted && is_service(line),
        None => false,
    }
}

/// The line is that of a service that bootstraps.
pub(crate) fn is_bootstrap(line: &[u8]) -> bool {
    is_of_kind(line, b"bootstrap")
}

/// The line is that of a service that says when it is ready.
pub(crate) fn is_notify(line: &[u8]) -> bool {
    is_of_kind(line, b"notify")
}

/// The script has the line `eager`, or a service that bootstraps.
pub(crate) fn can_bootstrap(bytes: &[u8]) -> bool {
    let mut rest = behind_header(bytes, Section::Services);
    while let Some((line, after)) = split_line(rest) {
        if header(line).is_some() {
            return false;
        }
        if is_eager(line) || is_bootstrap(line) {
            return true;
        }
        rest = after;
    }
    false
}

/// An item of a service's line.
#[derive(Clone, Copy)]
pub struct LineItem<'a> {
    pub key: &'a [u8],
    /// The word behind it, which `undeclared` hasn't.
    pub value: &'a [u8],
    /// What follows.
    pub rest: &'a [u8],
}

/// The first of these items.
pub(crate) fn first_item(items: &[u8]) -> Option<LineItem<'_>> {
    let (key, rest) = split_word(items)?;
    if key == b"undeclared".as_slice() {
        return Some(LineItem {
            key,
            value: &[],
            rest,
        });
    }
    let (value, rest) = split_word(rest)?;
    Some(LineItem { key, value, rest })
}

/// What stands behind the name and the kind of a service.
pub(crate) fn items_of(line: &[u8]) -> &[u8] {
    let Some((_, rest)) = split_word(line) else {
        return &[];
    };
    match split_word(rest) {
        Some((_, items)) => items,
        None => &[],
    }
}
