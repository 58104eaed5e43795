//! Which words are addresses that a socket is bound to.

use std::str;
use svc_base::number16;
use svc_socket::{IpNumber, read_ip};

/// The word is an IP of four numbers.
fn is_ip4(word: &[u8]) -> bool {
    let Ok(text) = str::from_utf8(word) else {
        return false;
    };
    matches!(read_ip(text), Some(IpNumber::V4(_)))
}

/// The word is in brackets, and made of what an IP of eight groups is written with.
fn is_bracketed(word: &[u8]) -> bool {
    match word {
        [b'[', inner @ .., b']'] => {
            inner.contains(&b':')
                && inner
                    .iter()
                    .all(|b| b.is_ascii_hexdigit() || *b == b':' || *b == b'.')
        }
        _ => false,
    }
}

/// The word is cut behind its last colon: what stands before it, and behind it.
fn cut_port(word: &[u8]) -> Option<(&[u8], &[u8])> {
    let mut colon = None;
    for k in 0..word.len() {
        if word[k] == b':' {
            colon = Some(k);
        }
    }
    match colon {
        Some(k) if k < word.len() => Some((&word[..k], &word[k + 1..])),
        _ => None,
    }
}

/// The word is an IP and a port of at most 65,535.
pub(crate) fn is_address(word: &[u8]) -> bool {
    match cut_port(word) {
        Some((host, port)) => { number16(port).is_some() && (is_ip4(host) || is_bracketed(host)) }
        None => false,
    }
}
