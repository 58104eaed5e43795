//! The lines of a record's entries.

ghost use Rattle.std.specs.Prelude.{◌≡◌, ◌+◌, ◌≤◌, ◌++◌, ◌∷◌, [], drop, decimal, IsAscii, OnOk, string_bytes};
ghost use Rattle.svc_socket.specs.declared.peer.PeerAddr.TheVariants.{V4};
ghost use Rattle.svc_socket.specs.declared.peer.Peer.TheVariants.{Inet};
ghost use Rattle.svc_socket.specs.Peers.{peer_text};
ghost use Rattle.svc_record.specs.declared.event.Event.TheVariants.{Arrived};
ghost use Rattle.svc_record.specs.declared.entry.Entry.TheVariants.{Got};
ghost use Rattle.svc_record.specs.Text.{spaced, line_of};
ghost use Rattle.svc_text.specs.LineTails.{numbers_text, tail_text};

use crate::line_tails::{LineTail, Numbers, action_tail, event_tail};
use itoa::write_digits;
use std::fmt::Write;
use std::str;
use svc_base::NoMemory;
use svc_record::{Entry, Event};
use svc_socket::{Peer, PeerAddr};

/// The bytes of the longest line's numbers: eight of up to 20 digits, with a mark behind each.
const LINE: usize = 8 * 21;

/// Writes a number and what follows it so that they end at this place. It answers where they start.
fn write_before(n: u64, mark: u8, line: &mut [u8; LINE], end: usize) -> usize
    requires { (21 ≤ end) × (end ≤ 168) }
    ensures start { (result ≤ end) × (end ≤ result + 21) }
    ensures written { drop result line.new ≡ decimal n ++ mark ∷ drop end line.old }
{
    line[end - 1] = mark;
    write_digits(n, line, end - 1)
}

/// Writes where a connection arrived, its number and its peer's address so that they end at this
/// place. It answers where they start.
fn write_arrived(s: u32, i: u32, c: u64, ip: u32, port: u16, line: &mut [u8; LINE]) -> usize
    ensures within { result ≤ 168 }
    ensures written { drop result line.new ≡ spaced (decimal s ∷ decimal i ∷ decimal c ∷ peer_text (Inet (V4 ip port)) ∷ []) ++ (10 ∷ []) }
    ensures ascii { IsAscii (drop result line.new) }
{
    let at = write_before(port as u64, b'\n', line, LINE);
    let at = write_before((ip % 0x100) as u64, b':', line, at);
    let at = write_before((ip / 0x100 % 0x100) as u64, b'.', line, at);
    let at = write_before((ip / 0x1_0000 % 0x100) as u64, b'.', line, at);
    let at = write_before((ip / 0x100_0000) as u64, b'.', line, at);
    let at = write_before(c, b' ', line, at);
    let at = write_before(i as u64, b' ', line, at);
    write_before(s as u64, b' ', line, at)
}

/// Writes a space and a number so that they end at this place. It answers where they start.
fn write_behind_space(n: u64, line: &mut [u8; LINE], end: usize) -> usize
    requires { (21 ≤ end) × (end ≤ 168) }
    ensures start { (result ≤ end) × (end ≤ result + 21) }
    ensures written { drop result line.new ≡ 32 ∷ decimal n ++ drop end line.old }
    ensures ascii { IsAscii (drop end line.old) → IsAscii (drop result line.new) }
{
    let at = write_digits(n, line, end);
    line[at - 1] = b' ';
    at - 1
}

/// Writes numbers, with a space before each, and a line feed so that they end where the bytes do.
/// It answers where they start.
fn write_numbers(numbers: Numbers, line: &mut [u8; LINE]) -> usize
    ensures within { result ≤ 168 }
    ensures written { drop result line.new ≡ numbers_text numbers }
    ensures ascii { IsAscii (drop result line.new) }
{
    line[LINE - 1] = b'\n';
    match numbers {
        Numbers::One(n) => write_behind_space(n, line, LINE - 1),
        Numbers::Two(m, n) => {
            let at = write_behind_space(n, line, LINE - 1);
            write_behind_space(m, line, at)
        }
        Numbers::Three(k, m, n) => {
            let at = write_behind_space(n, line, LINE - 1);
            let at = write_behind_space(m, line, at);
            write_behind_space(k, line, at)
        }
    }
}

/// Appends the bytes of a line from this place on.
fn push_from(text: &mut String, line: &[u8; LINE], start: usize) -> Result<(), NoMemory>
    requires within { start ≤ 168 }
    requires ascii { IsAscii (drop start line.now) }
    ensures { OnOk result (string_bytes text.new ≡ string_bytes text.old ++ drop start line.now) }
{
    let Ok(rest) = str::from_utf8(&line[start..]) else {
        unreachable!()
    };
    text.push_str(rest)?;
    Ok(())
}

/// Appends the line of a connection that arrived from a peer with an address of 32 bits.
fn push_arrived(
    text: &mut String,
    s: u32,
    i: u32,
    c: u64,
    ip: u32,
    port: u16,
) -> Result<(), NoMemory>
    ensures { OnOk result (string_bytes text.new ≡ string_bytes text.old ++ line_of (Got (Arrived s i c (Inet (V4 ip port))))) }
{
    let mut line = [0; LINE];
    let start = write_arrived(s, i, c, ip, port, &mut line);
    text.push_str("got arrived ")?;
    push_from(text, &line, start)
}

/// Appends numbers, with a space before each, and a line feed.
fn push_numbers(text: &mut String, numbers: Numbers) -> Result<(), NoMemory>
    ensures { OnOk result (string_bytes text.new ≡ string_bytes text.old ++ numbers_text numbers) }
{
    let mut line = [0; LINE];
    let start = write_numbers(numbers, &mut line);
    push_from(text, &line, start)
}

/// Appends a space, a number, and what ends the line.
fn push_number_end(text: &mut String, n: u64, end: &str) -> Result<(), NoMemory>
    ensures { OnOk result (string_bytes text.new ≡ string_bytes text.old ++ 32 ∷ decimal n ++ end.now) }
{
    let mut line = [0; LINE];
    let start = write_behind_space(n, &mut line, LINE);
    push_from(text, &line, start)?;
    text.push_str(end)?;
    Ok(())
}

/// Appends a space and a word.
fn push_word(text: &mut String, word: &str) -> Result<(), NoMemory>
    ensures { OnOk result (string_bytes text.new ≡ string_bytes text.old ++ 32 ∷ word.now) }
{
    text.push_str(" ")?;
    text.push_str(word)?;
    Ok(())
}

/// Appends what stands in a line behind its keyword.
fn push_tail(text: &mut String, tail: LineTail) -> Result<(), NoMemory>
    ensures { OnOk result (string_bytes text.new ≡ string_bytes text.old ++ tail_text tail) }
{
    match tail {
        LineTail::Nothing => text.push_str("\n")?,
        LineTail::Word(word) => {
            push_word(text, word)?;
            text.push_str("\n")?;
        }
        LineTail::Numbers(numbers) => push_numbers(text, numbers)?,
        LineTail::WordNumber(word, n) => {
            push_word(text, word)?;
            push_numbers(text, Numbers::One(n))?;
        }
        LineTail::NumberEnd(n, end) => push_number_end(text, n, end)?,
    }
    Ok(())
}

/// Appends the line of an entry of any kind.
fn push_any(text: &mut String, entry: &Entry) -> Result<(), NoMemory>
    ensures { OnOk result (string_bytes text.new ≡ string_bytes text.old ++ line_of entry.now) }
{
    writeln!(text, "{entry}")?;
    Ok(())
}

/// Appends the line of an entry. Where memory is wanting, some of the line may stand.
pub(crate) fn push_line(text: &mut String, entry: &Entry) -> Result<(), NoMemory>
    ensures { OnOk result (string_bytes text.new ≡ string_bytes text.old ++ line_of entry.now) }
{
    match entry {
        Entry::Got(Event::Arrived(s, i, c, Peer::Inet(PeerAddr::V4 { ip, port }))) => {
            push_arrived(text, *s, *i, *c, *ip, *port)
        }
        Entry::Got(event) => match event_tail(event) {
            Some(tail) => {
                text.push_str("got ")?;
                text.push_str(event.keyword())?;
                push_tail(text, tail)
            }
            None => push_any(text, entry),
        },
        Entry::Told(action) => match action_tail(action) {
            Some(tail) => {
                text.push_str(action.keyword())?;
                push_tail(text, tail)
            }
            None => push_any(text, entry),
        },
    }
}
