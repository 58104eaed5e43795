//! Addresses and peers are read from their texts.

ghost use Rattle.std.specs.Prelude.{◌≡◌, ◌==◌, ◌<◌, ◌^◌, if◌then◌else◌, true, false, [], ◌∷◌, length, position, MatchOption, Some, None};
ghost use Rattle.std.specs.Char.{digit_value};
ghost use Rattle.std.specs.List.{slice_split};
ghost use Rattle.svc_socket.specs.ReadPeers.{is_hex_digit, has_spare_zero, is_short, group_of, in_base, octets_in, groups_in, ip4_of, ip6_of, ip_of, port_of, inet4_of, inet6_of, peer_addr_of, peer_of};

use crate::peer::{Peer, PeerAddr};
use svc_base::{number8, number16};

/// The number of an address: of 32 bits, or of 128.
#[derive(Clone, Copy, PartialEq, Eq, Debug)]
pub enum IpNumber {
    /// 32 bits.
    V4(u32),
    /// 128 bits.
    V6(u128),
}

fn port(word: &[u8]) -> Option<u16>
    ensures { result ≡ port_of word.now }
{
    number16(word)
}

fn hex_digit(b: u8) -> Option<u16>
    ensures { result ≡ (if is_hex_digit b then Some (digit_value b) else None) }
{
    match b {
        b'0'..=b'9' => Some((b - b'0') as u16),
        b'a'..=b'f' => Some((b - b'a' + 10) as u16),
        _ => None,
    }
}

fn has_spare_zero(word: &[u8]) -> bool
    ensures { result ≡ has_spare_zero word.now }
{
    match word {
        [b'0', ..] => word.len() >= 2,
        _ => false,
    }
}

fn is_short(word: &[u8]) -> bool
    ensures { result ≡ is_short word.now }
{
    !word.is_empty() && word.len() <= 4 && !has_spare_zero(word)
}

/// One of the eight groups of an address.
fn group(word: &[u8]) -> Option<u16>
    ensures { result ≡ group_of word.now }
{
    if !is_short(word) {
        return None;
    }
    let mut group = 0;
    for b in word {
        let Some(digit) = hex_digit(*b) else {
            return None;
        };
        group = group * 16 + digit;
    }
    Some(group)
}

fn place(text: &[u8], separator: u8) -> Option<usize>
    ensures { result ≡ position (λ b. b == separator) text.now }
{
    text.iter().position(|b| *b == separator)
}

/// What stands before the first separator, and what follows it.
fn cut(text: &[u8], separator: u8) -> Option<(&[u8], &[u8])>
    ensures { MatchOption result (slice_split (λ b. b == separator) text.now ≡ text.now ∷ [])
        (λ pair. slice_split (λ b. b == separator) text.now ≡ pair.0.now ∷ slice_split (λ b. b == separator) pair.1.now) }
{
    let Some(end) = place(text, separator) else {
        return None;
    };
    Some((&text[..end], &text[end + 1..]))
}

/// Whether a separator stands in the text.
fn is_cut(text: &[u8], separator: u8) -> bool
    ensures one { result ≡ false → slice_split (λ b. b == separator) text.now ≡ text.now ∷ [] }
    ensures several { result ≡ true → 1 < length (slice_split (λ b. b == separator) text.now) }
{
    match cut(text, separator) {
        Some(_) => true,
        None => false,
    }
}

fn octets_in(text: &[u8]) -> Option<[u8; 4]>
    ensures { result ≡ octets_in text.now }
{
    let mut octets = [0; 4];
    let mut rest = text;
    for i in 0..3 {
        let Some((word, later)) = cut(rest, b'.') else {
            return None;
        };
        let Some(octet) = number8(word) else {
            return None;
        };
        octets[i] = octet;
        rest = later;
    }
    if is_cut(rest, b'.') {
        return None;
    }
    let Some(octet) = number8(rest) else {
        return None;
    };
    octets[3] = octet;
    Some(octets)
}

fn groups_in(text: &[u8]) -> Option<[u16; 8]>
    ensures { result ≡ groups_in text.now }
{
    let mut groups = [0; 8];
    let mut rest = text;
    for i in 0..7 {
        let Some((word, later)) = cut(rest, b':') else {
            return None;
        };
        let Some(group) = group(word) else {
            return None;
        };
        groups[i] = group;
        rest = later;
    }
    if is_cut(rest, b':') {
        return None;
    }
    let Some(group) = group(rest) else {
        return None;
    };
    groups[7] = group;
    Some(groups)
}

/// The number with these groups as digits.
fn half_of(a: u16, b: u16, c: u16, d: u16) -> u64
    ensures { result ≡ in_base (2 ^ 16) (a ∷ b ∷ c ∷ d ∷ []) }
{
    let high = a as u64 * 0x1_0000 + b as u64;
    let low = c as u64 * 0x1_0000 + d as u64;
    high * 0x1_0000_0000 + low
}

#[tactic(auto, unfolding(crate::specs::ReadPeers::ip4_of))]
fn ip4(text: &[u8]) -> Option<u32>
    ensures { result ≡ ip4_of text.now }
{
    let [a, b, c, d] = octets_in(text)?;
    let high = a as u32 * 0x100 + b as u32;
    let low = c as u32 * 0x100 + d as u32;
    Some(high * 0x1_0000 + low)
}

/// The number with these groups as digits.
fn whole_of(groups: [u16; 8]) -> u128
    ensures { result ≡ in_base (2 ^ 16) groups }
{
    let [a, b, c, d, e, f, g, h] = groups;
    let high = half_of(a, b, c, d) as u128;
    let low = half_of(e, f, g, h) as u128;
    high * 0x1_0000_0000_0000_0000 + low
}

#[tactic(auto, unfolding(crate::specs::ReadPeers::ip6_of))]
fn ip6(text: &[u8]) -> Option<u128>
    ensures { result ≡ ip6_of text.now }
{
    let groups = groups_in(text)?;
    Some(whole_of(groups))
}

/// The number of an address: four decimal numbers with points between them, or eight groups of
/// hexadecimal digits with colons. Every other text has none.
pub fn read_ip(text: &str) -> Option<IpNumber>
    ensures { result ≡ ip_of text.now }
{
    let text = text.as_bytes();
    match ip4(text) {
        Some(ip) => Some(IpNumber::V4(ip)),
        None => Some(IpNumber::V6(ip6(text)?)),
    }
}

#[tactic(auto, unfolding(crate::specs::ReadPeers::inet4_of))]
fn inet4(text: &[u8]) -> Option<PeerAddr>
    ensures { result ≡ inet4_of (slice_split (λ b. b == 58) text.now) }
{
    let Some((host, word)) = cut(text, b':') else {
        return None;
    };
    if is_cut(word, b':') {
        return None;
    }
    let ip = ip4(host)?;
    let port = port(word)?;
    Some(PeerAddr::V4 { ip, port })
}

#[tactic(auto, unfolding(crate::specs::ReadPeers::inet6_of))]
fn inet6(text: &[u8]) -> Option<PeerAddr>
    ensures { result ≡ inet6_of (slice_split (λ b. b == 93) text.now) }
{
    let Some((host, rest)) = cut(text, b']') else {
        return None;
    };
    if is_cut(rest, b']') {
        return None;
    }
    let ip = ip6(host)?;
    match rest {
        [b':', word @ ..] => {
            let port = port(word)?;
            Some(PeerAddr::from_ip6(ip, port))
        }
        _ => None,
    }
}

#[tactic(auto, unfolding(crate::specs::ReadPeers::peer_addr_of))]
fn peer_addr(text: &[u8]) -> Option<PeerAddr>
    ensures { result ≡ peer_addr_of text.now }
{
    match text {
        [b'[', rest @ ..] => inet6(rest),
        _ => inet4(text),
    }
}

/// The address of a peer: one of 32 bits, a colon and a port, or one of 128 bits in brackets, a
/// colon and a port. Every other text has none.
pub fn read_peer(text: &str) -> Option<PeerAddr>
    ensures { result ≡ peer_addr_of text.now }
{
    peer_addr(text.as_bytes())
}

/// The peer that a word names: `-`, `unix`, or an address. Every other word names none.
#[tactic(auto, unfolding(crate::specs::ReadPeers::peer_of))]
pub fn read_peer_word(word: &[u8]) -> Option<Peer>
    ensures { result ≡ peer_of word.now }
{
    if word == b"-".as_slice() {
        return Some(Peer::Unknown);
    }
    if word == b"unix".as_slice() {
        return Some(Peer::Unix);
    }
    Some(Peer::Inet(peer_addr(word)?))
}
