//! The one condition that an event that doesn't fit failed.

ghost use Rattle.std.specs.Prelude.{OnOk, IsTrue, ◌&&◌, string_bytes};
ghost use Rattle.std.specs.List.{list_all};
ghost use Rattle.svc_messages.specs.Messages.{is_plain, IsMessage};

use crate::configuration::key_number;
use crate::pieces::{Piece, put};
use crate::record_lines::{count_events, has_action, has_event, is_action, is_event};
use crate::service_lines::{first_item, is_bootstrap, is_notify, items_of, line_of};
use crate::waits::Watch;
use std::alloc::Global;
use std::str;
use svc_base::{NoMemory, number, split_line, split_word};

/// What an event that doesn't fit is judged by.
#[derive(Clone, Copy)]
pub struct Judged<'a> {
    /// The bytes of the script.
    pub script: &'a [u8],
    /// The lines of the record before the event.
    pub record: &'a [u8],
    /// The event's words behind the first one.
    pub words: &'a [u8],
}

/// A condition that failed: what is said before and behind the event's words that it names.
#[derive(Clone, Copy)]
struct Cause {
    says: &'static str,
    /// How many of the words behind the event's first one are named.
    words: usize,
    more: &'static str,
    ghost plain: { IsTrue (list_all is_plain says.now && list_all is_plain more.now) },
}

/// The cause that is said so.
fn plain(says: &'static str) -> Option<Cause>
    requires { IsTrue (list_all is_plain says.now) }
{
    Some(Cause {
        says,
        words: 0,
        more: "",
    })
}

/// The action that an event answers.
#[derive(Clone, Copy)]
struct Question {
    /// The first word of the action.
    asks: &'static str,
    /// What is said where it wasn't told.
    never: &'static str,
    /// How many words stand behind it.
    words: usize,
    /// The first words of the events that answer it.
    answers: &'static [&'static str],
    ghost plain: { IsTrue (list_all is_plain asks.now && list_all is_plain never.now) },
}

/// The action about an endpoint or a connection that an event with this first word answers.
fn question_of_one(key: &str) -> Option<Question> {
    match key {
        "bound" | "inuse" | "bindfailed" => Some(Question {
            asks: "bind",
            never: "no bind",
            words: 2,
            answers: &["bound", "inuse", "bindfailed"],
        }),
        "adopted" | "adoptfailed" => Some(Question {
            asks: "adopt",
            never: "no adopt",
            words: 2,
            answers: &["adopted", "adoptfailed"],
        }),
        "set" => Some(Question {
            asks: "settings",
            never: "no settings",
            words: 1,
            answers: &["set"],
        }),
        "shaken" => Some(Question {
            asks: "handshake",
            never: "no handshake",
            words: 1,
            answers: &["shaken"],
        }),
        "finished" => Some(Question {
            asks: "serve",
            never: "no serve",
            words: 1,
            answers: &["finished"],
        }),
        _ => None,
    }
}

/// The action that an event with this first word answers.
fn question_of(key: &str) -> Option<Question> {
    match key {
        "received" | "nosender" | "receivefailed" => Some(Question {
            asks: "tryreceive",
            never: "no tryreceive",
            words: 0,
            answers: &["received", "nosender", "receivefailed"],
        }),
        "connected" | "notthere" | "connecting" | "connectfailed" => Some(Question {
            asks: "connect",
            never: "no connect",
            words: 0,
            answers: &["connected", "notthere", "connecting", "connectfailed"],
        }),
        "sent" | "sendbusy" | "sendfailed" => Some(Question {
            asks: "send",
            never: "no send",
            words: 0,
            answers: &["sent", "sendbusy", "sendfailed"],
        }),
        "side" => Some(Question {
            asks: "daemonize",
            never: "no daemonize",
            words: 0,
            answers: &["side"],
        }),
        key => question_of_one(key),
    }
}

/// Whether an action was told, and answered.
#[derive(Clone, Copy, PartialEq, Eq)]
enum Told {
    Never,
    Open,
    Answered,
}

/// The line is one of an event that answers the question.
fn is_answer(line: &[u8], question: &Question, words: &[u8]) -> bool {
    for key in question.answers {
        if is_event(line, key, words, question.words) {
            return true;
        }
    }
    false
}

/// Whether the question was told last, or answered.
fn told_of(record: &[u8], question: &Question, words: &[u8]) -> Told {
    let mut told = Told::Never;
    let mut rest = record;
    while let Some((line, after)) = split_line(rest) {
        if is_action(line, question.asks, words, question.words) {
            told = Told::Open;
        } else if is_answer(line, question, words) {
            told = Told::Answered;
        }
        rest = after;
    }
    told
}

/// A number stands twice in this list.
fn repeats(list: &[u8]) -> bool {
    let mut rest = list;
    for _ in 0..list.len() {
        let Some(end) = rest.iter().position(|b| *b == b',') else {
            return false;
        };
        let (piece, more) = (&rest[..end], &rest[end + 1..]);
        if more.split(|b| *b == b',').any(|other| other == piece) {
            return true;
        }
        rest = more;
    }
    false
}

/// Why an event that brings descriptors fails where its question is open.
fn brought_cause(key: &str, words: &[u8]) -> Option<Cause> {
    match key {
        "bound" => plain("an earlier event brought the number of its descriptor"),
        "received" => {
            let (_, list) = split_word(words)?;
            let (list, _) = split_word(list)?;
            if repeats(list) {
                plain("a number stands twice among its descriptors")
            } else {
                plain("an earlier event brought the number of one of its descriptors")
            }
        }
        _ => None,
    }
}

/// Why an answer failed.
fn answer_cause(judged: &Judged<'_>, key: &str, question: &Question) -> Option<Cause> {
    match told_of(judged.record, question, judged.words) {
        Told::Never => Some(Cause {
            says: question.never,
            words: question.words,
            more: " was told before",
        }),
        Told::Answered => Some(Cause {
            says: question.asks,
            words: question.words,
            more: " is answered already",
        }),
        Told::Open => brought_cause(key, judged.words),
    }
}

/// Why an event of a service failed, where the service isn't started.
fn start_cause(judged: &Judged<'_>) -> Option<Cause> {
    if has_action(judged.record, "start", judged.words, 1) {
        return None;
    }
    Some(Cause {
        says: "no start",
        words: 1,
        more: " was told before",
    })
}

/// The number of the service that the event names, and its line.
fn service_of<'a>(judged: &Judged<'a>) -> Option<&'a [u8]> {
    let (word, _) = split_word(judged.words)?;
    line_of(judged.script, number(word)?)
}

/// Why `ready` or `ended` failed, where its service is started.
fn word_cause(judged: &Judged<'_>, key: &str) -> Option<Cause> {
    let line = service_of(judged)?;
    if has_event(judged.record, "ended", judged.words, 1) && key == "ended" {
        return plain("its end came before");
    }
    if has_event(judged.record, "ready", judged.words, 1) && key == "ready" {
        return plain("its service said so before");
    }
    if key == "ready" {
        return if is_notify(line) {
            None
        } else {
            plain("its service isn't of the kind notify")
        };
    }
    if is_bootstrap(line) {
        return plain("its service bootstraps");
    }
    plain("its service has endpoints")
}

/// How many endpoints the service of a line has.
fn endpoint_count(line: &[u8]) -> u64 {
    let mut count = 0u64;
    let mut rest = items_of(line);
    for _ in 0..line.len() {
        let Some(item) = first_item(rest) else {
            return count;
        };
        if item.key == b"tcp".as_slice() || item.key == b"unix".as_slice() {
            count = count.saturating_add(1);
        }
        rest = item.rest;
    }
    count
}

/// The number at this place of the words, from 0; a large one where none stands there.
fn number_at(words: &[u8], place: usize) -> u64 {
    let mut rest = words;
    for _ in 0..place {
        match split_word(rest) {
            Some((_, more)) => rest = more,
            None => return u64::MAX,
        }
    }
    match split_word(rest) {
        Some((word, _)) => number(word).unwrap_or(u64::MAX),
        None => u64::MAX,
    }
}

/// How many accept loops an endpoint has.
fn loops_in(script: &[u8]) -> u64 {
    key_number(script, b"listener_tasks_per_fd").unwrap_or(1)
}

/// Why an event of an endpoint failed, where its service is started: the service was given up, or has no
/// such endpoint.
fn endpoint_cause(judged: &Judged<'_>) -> Option<Cause> {
    let line = service_of(judged)?;
    if has_action(judged.record, "fail", judged.words, 1) {
        return plain("its service was given up");
    }
    if number_at(judged.words, 1) >= endpoint_count(line) {
        return plain("its service has no such endpoint");
    }
    None
}

/// An arrival with this number came before.
fn came_before(record: &[u8], connection: u64) -> bool {
    let mut rest = record;
    while let Some((line, after)) = split_line(rest) {
        if is_event(line, "arrived", &[], 0) && number_at(line, 4) == connection {
            return true;
        }
        rest = after;
    }
    false
}

/// Why an arrival or a failed accept failed, where its endpoint is there.
fn accept_cause(judged: &Judged<'_>, key: &str) -> Option<Cause> {
    if key == "arrived" && came_before(judged.record, number_at(judged.words, 2)) {
        return plain("an earlier event brought the number of its connection");
    }
    if count_events(judged.record, "loopended", judged.words, 2) >= loops_in(judged.script) {
        return plain("each accept loop of its endpoint has ended");
    }
    plain("not each endpoint of its service is held")
}

/// Why the end of an accept loop failed, where its endpoint is there.
fn loop_cause(judged: &Judged<'_>) -> Option<Cause> {
    if number_at(judged.words, 2) >= loops_in(judged.script) {
        return plain("its number isn't below listener_tasks_per_fd");
    }
    if has_event(judged.record, "loopended", judged.words, 3) {
        return plain("the end of this accept loop came before");
    }
    plain("not each endpoint of its service is held")
}

/// Why an event of a service failed.
fn service_cause(judged: &Judged<'_>, key: &str) -> Option<Cause> {
    if key == "loopended" && !has_action(judged.record, "broadcast", &[], 0) {
        return plain("no broadcast was told before");
    }
    if let Some(cause) = start_cause(judged) {
        return Some(cause);
    }
    if key == "ready" || key == "ended" {
        return word_cause(judged, key);
    }
    if let Some(cause) = endpoint_cause(judged) {
        return Some(cause);
    }
    if key == "loopended" {
        return loop_cause(judged);
    }
    accept_cause(judged, key)
}

/// The condition that an event with this first word failed, where it can be told.
fn cause_of(judged: &Judged<'_>, key: &str) -> Option<Cause> {
    if let Some(question) = question_of(key) {
        return answer_cause(judged, key, &question);
    }
    match key {
        "signal" if !Watch::of(judged.record).running => plain("no phase Running was told before"),
        "ready" | "ended" | "arrived" | "acceptfailed" | "loopended" => service_cause(judged, key),
        "childready" | "childgone" | "dropfailed" => plain(
            "the process isn't a parent that waits for its child",
        ),
        _ => None,
    }
}

/// Puts so many words behind a message.
fn put_words(alloc: Global, text: &mut String, words: &[u8], count: usize) -> Result<(), NoMemory>
    ensures { OnOk result (IsMessage (string_bytes text.old) → IsMessage (string_bytes text.new)) }
{
    let mut rest = words;
    for _ in 0..count {
        let Some((word, more)) = split_word(rest) else {
            return Ok(());
        };
        put(alloc, text, &[Piece::Text(" "), Piece::Word(word)])?;
        rest = more;
    }
    Ok(())
}

/// Puts behind a message the condition that an event with this first word failed. It answers whether one
/// was found. `NoMemory` where there is none for it.
pub fn put_cause(
    alloc: Global,
    text: &mut String,
    judged: &Judged<'_>,
    key: &[u8],
) -> Result<bool, NoMemory>
    ensures { OnOk result (IsMessage (string_bytes text.old) → IsMessage (string_bytes text.new)) }
{
    let key = str::from_utf8(key).unwrap_or("");
    if key == "moment" {
        let moment = Watch::of(judged.record).moment;
        put(
            alloc,
            text,
            &[Piece::Text("the last moment is "), Piece::Number(moment)],
        )?;
        return Ok(true);
    }
    let Some(cause) = cause_of(judged, key) else {
        return Ok(false);
    };
    put(alloc, text, &[Piece::Text(cause.says)])?;
    put_words(alloc, text, judged.words, cause.words)?;
    put(alloc, text, &[Piece::Text(cause.more)])?;
    Ok(true)
}
