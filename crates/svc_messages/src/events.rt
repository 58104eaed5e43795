//! Why a line isn't one of an event.

ghost use Rattle.std.specs.Prelude.{IfOk, string_bytes};
ghost use Rattle.svc_messages.specs.Messages.{IsPlain, ArePlain, IsMessage};

use crate::pieces::{Piece, about, put, told};
use crate::spelling::nearest;
use crate::words::{is_known, said, shown, unknown_word};
use std::alloc::Global;
use std::str;
use svc_base::{NoMemory, number, split_word};
use svc_socket::read_peer_word;

/// The first words of event lines, and of the line on which the host fails.
const WORDS: [&str; 30] = [
    "moment",
    "ready",
    "ended",
    "bound",
    "inuse",
    "bindfailed",
    "adopted",
    "adoptfailed",
    "received",
    "nosender",
    "receivefailed",
    "connected",
    "notthere",
    "connecting",
    "connectfailed",
    "sent",
    "sendbusy",
    "sendfailed",
    "arrived",
    "acceptfailed",
    "set",
    "shaken",
    "finished",
    "loopended",
    "signal",
    "side",
    "childready",
    "childgone",
    "dropfailed",
    "fault",
];

/// What stands behind the first word of an event line.
#[derive(Clone, Copy)]
enum Slot {
    Moment,
    Service,
    Endpoint,
    Descriptor,
    Connection,
    ErrorNumber,
    AcceptLoop,
    Answer,
    Signal,
    Side,
    Peer,
    Bytes,
    Descriptors,
}

impl Slot {
    /// Its name in the form of a line.
    fn name(self) -> &'static str
        ensures { IsPlain result.now }
    {
        match self {
            Slot::Moment => "MS",
            Slot::Service => "S",
            Slot::Endpoint => "I",
            Slot::Descriptor => "FD",
            Slot::Connection => "C",
            Slot::ErrorNumber => "N",
            Slot::AcceptLoop => "J",
            Slot::Answer => "ok|no",
            Slot::Signal => "fast|terminate|upgrade",
            Slot::Side => "child|parent",
            Slot::Peer => "PEER",
            Slot::Bytes => "HEX",
            Slot::Descriptors => "FDS",
        }
    }

    /// What it has to be.
    fn wanted(self) -> &'static str
        ensures { IsPlain result.now }
    {
        match self {
            Slot::Moment => "a time in milliseconds, in decimal digits",
            Slot::Service => "the number of a service, from 0",
            Slot::Endpoint => "the number of an endpoint of its service, from 0",
            Slot::Descriptor => "the number of a descriptor",
            Slot::Connection => "the number of a connection",
            Slot::ErrorNumber => "the number of an error",
            Slot::AcceptLoop => "the number of an accept loop, from 0",
            Slot::Answer => "ok or no",
            Slot::Signal => "fast, terminate or upgrade",
            Slot::Side => "child or parent",
            Slot::Peer => "-, unix, IP:PORT or [IP]:PORT",
            Slot::Bytes => "bytes in lower-case hexadecimal, two digits each, or -",
            Slot::Descriptors => "at most 32 numbers joined by commas, or -",
        }
    }

    /// The words that may stand there, where they are few.
    fn known(self) -> &'static [&'static str]
        ensures { ArePlain result.now }
    {
        match self {
            Slot::Answer => &["ok", "no"],
            Slot::Signal => &["fast", "terminate", "upgrade"],
            Slot::Side => &["child", "parent"],
            _ => &[],
        }
    }

    /// The word may stand there.
    fn takes(self, word: &[u8]) -> bool {
        match self {
            Slot::Moment | Slot::Descriptor | Slot::Connection | Slot::AcceptLoop => {
                number(word).is_some()
            }
            Slot::Service | Slot::Endpoint | Slot::ErrorNumber => is_small(word),
            Slot::Answer | Slot::Signal | Slot::Side => is_known(word, self.known()),
            Slot::Peer => read_peer_word(word).is_some(),
            Slot::Bytes => is_hexadecimal(word),
            Slot::Descriptors => are_descriptors(word),
        }
    }
}

/// A number of 32 bits.
fn is_small(word: &[u8]) -> bool {
    match number(word) {
        Some(n) => n <= u32::MAX as u64,
        None => false,
    }
}

fn is_hexadecimal(word: &[u8]) -> bool {
    let is_digits = word.iter().all(|b| matches!(*b, b'0'..=b'9' | b'a'..=b'f'));
    word == b"-".as_slice() || (word.len() % 2 == 0 && is_digits)
}

fn are_descriptors(word: &[u8]) -> bool {
    let are_numbers = word
        .split(|b| *b == b',')
        .all(|piece| number(piece).is_some());
    let commas = word.iter().filter(|b| **b == b',').count();
    word == b"-".as_slice() || (are_numbers && commas < 32)
}

/// What stands behind the first word of the line, if the word begins one.
fn slots(key: &[u8]) -> Option<&'static [Slot]> {
    let text = str::from_utf8(key).ok()?;
    match text {
        "moment" => Some(&[Slot::Moment]),
        "ready" | "ended" => Some(&[Slot::Service]),
        "bound" => Some(&[Slot::Service, Slot::Endpoint, Slot::Descriptor]),
        "inuse" | "bindfailed" | "adopted" | "adoptfailed" => {
            Some(&[Slot::Service, Slot::Endpoint])
        }
        "received" => Some(&[Slot::Bytes, Slot::Descriptors]),
        "arrived" => Some(&[Slot::Service, Slot::Endpoint, Slot::Connection, Slot::Peer]),
        "acceptfailed" => Some(&[Slot::Service, Slot::Endpoint, Slot::ErrorNumber]),
        "set" | "shaken" => Some(&[Slot::Connection, Slot::Answer]),
        "finished" => Some(&[Slot::Connection]),
        "loopended" => Some(&[Slot::Service, Slot::Endpoint, Slot::AcceptLoop]),
        "signal" => Some(&[Slot::Signal]),
        "side" => Some(&[Slot::Side]),
        _ if is_known(key, &WORDS) => Some(&[]),
        _ => None,
    }
}

/// The form of a line with this first word.
fn form_text(alloc: Global, key: &str, slots: &[Slot]) -> Result<String, NoMemory>
    requires { IsPlain key.now }
    ensures { IfOk result (λ text. IsPlain (string_bytes text)) }
{
    let mut text = said(alloc, key)?;
    for slot in slots {
        text.push_str(" ")?;
        text.push_str(slot.name())?;
    }
    Ok(text)
}

/// The form of an event line.
#[derive(Clone, Copy)]
struct Form<'a> {
    key: &'a str,
    slots: &'static [Slot],
    /// The key, and the names of the slots.
    text: &'a str,
}

/// Why the word may not stand in the slot, in a line of this form.
fn word_fault(alloc: Global, form: &Form<'_>, slot: Slot, word: &[u8]) -> Result<String, NoMemory>
    requires key { IsPlain form.now.key.now }
    requires text { IsPlain form.now.text.now }
    ensures { IfOk result (λ text. IsMessage (string_bytes text)) }
{
    let (key, text, wanted) = (form.key, form.text, slot.wanted());
    let mut fault = about(
        alloc,
        word,
        " behind ",
        &[
            Piece::Text(key),
            Piece::Text(" isn't "),
            Piece::Text(wanted),
        ],
    )?;
    match nearest(word, slot.known()) {
        Some(meant) => put(
            alloc,
            &mut fault,
            &[
                Piece::Text("; did you mean "),
                Piece::Word(meant.as_bytes()),
                Piece::Text("?"),
            ],
        )?,
        None => put(
            alloc,
            &mut fault,
            &[Piece::Text("; the line is written "), Piece::Text(text)],
        )?,
    }
    Ok(fault)
}

/// What lacks in a line of this form that ends before the slot.
fn missing_word(alloc: Global, form: &Form<'_>, slot: Slot) -> Result<String, NoMemory>
    requires text { IsPlain form.now.text.now }
    ensures { IfOk result (λ text. IsMessage (string_bytes text)) }
{
    let (text, name, wanted) = (form.text, slot.name(), slot.wanted());
    let pieces = [
        Piece::Text(name),
        Piece::Text(", "),
        Piece::Text(wanted),
        Piece::Text("; the line is written "),
        Piece::Text(text),
    ];
    about(alloc, form.key.as_bytes(), " lacks ", &pieces)
}

/// Why the words behind the first one are none of a line of this form.
fn words_fault(alloc: Global, form: &Form<'_>, words: &[u8]) -> Result<String, NoMemory>
    requires key { IsPlain form.now.key.now }
    requires text { IsPlain form.now.text.now }
    ensures { IfOk result (λ text. IsMessage (string_bytes text)) }
{
    let (key, text) = (form.key, form.text);
    let mut rest = words;
    for slot in form.slots {
        let Some((word, after)) = split_word(rest) else {
            return missing_word(alloc, form, *slot);
        };
        if !slot.takes(word) {
            return word_fault(alloc, form, *slot, word);
        }
        rest = after;
    }
    let Some((word, _)) = split_word(rest) else {
        let pieces = [
            Piece::Text(key),
            Piece::Text(" are refused; the line is written "),
            Piece::Text(text),
        ];
        return told(alloc, "the words behind ", &pieces);
    };
    let pieces = [Piece::Text(text)];
    about(
        alloc,
        word,
        " is one word too many; the line is written ",
        &pieces,
    )
}

/// Why the line is none of an event.
pub fn event_message(alloc: Global, line: &[u8]) -> Result<String, NoMemory>
    ensures { IfOk result (λ text. IsMessage (string_bytes text)) }
{
    let Some((word, rest)) = split_word(line) else {
        return said(alloc, "an event line begins with a word");
    };
    let Some(slots) = slots(word) else {
        return unknown_word(alloc, word, "event", &WORDS);
    };
    let key = shown(alloc, word)?;
    let text = form_text(alloc, key.as_str(), slots)?;
    let form = Form {
        key: key.as_str(),
        slots,
        text: text.as_str(),
    };
    words_fault(alloc, &form, rest)
}

/// Where an event with this first word fits.
pub fn fits_where(key: &[u8]) -> &'static str
    ensures { IsMessage result.now }
{
    let Ok(text) = str::from_utf8(key) else {
        return "the run goes on";
    };
    match text {
        "moment" => "its time is not below the last moment's",
        "ready" => "its service is of the kind notify, is started and hasn't said so before",
        "ended" =>
            "its service is started, bootstraps not, has no endpoints and hasn't ended before",
        "bound" =>
            "a bind of the endpoint was told and isn't answered yet, and the number is a new one",
        "inuse" | "bindfailed" => "a bind of the endpoint was told and isn't answered yet",
        "adopted" | "adoptfailed" => "an adopt of the endpoint was told and isn't answered yet",
        "received" => "a tryreceive was told and isn't answered yet, and each number is a new one",
        "nosender" | "receivefailed" => "a tryreceive was told and isn't answered yet",
        "signal" => "phase Running was told",
        "connected" | "notthere" | "connecting" | "connectfailed" => {
            "a connect was told and isn't answered yet"
        }
        "sent" | "sendbusy" | "sendfailed" => "a send was told and isn't answered yet",
        "arrived" => "all endpoints of its service are bound, and the number is a new one",
        "acceptfailed" => "all endpoints of its service are bound, and an accept loop goes on",
        "set" => "settings of the connection were told and aren't answered yet",
        "shaken" => "a handshake of the connection was told and isn't answered yet",
        "finished" => "a serve of the connection was told, and it is live",
        "loopended" => "broadcast was told, and the accept loop is there and hasn't ended before",
        "side" => "daemonize was told and isn't answered yet",
        _ => "the process is a parent that waits for its child",
    }
}
