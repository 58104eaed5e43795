//! What a run waited for when its events were used up.

ghost use Rattle.std.specs.Prelude.{IfOk, OnOk, IsTrue, ◌&&◌, string_bytes};
ghost use Rattle.std.specs.List.{list_all};
ghost use Rattle.svc_messages.specs.Messages.{is_plain, IsMessage};

use crate::configuration::key_number;
use crate::pieces::{Piece, put, told};
use std::alloc::Global;
use std::str;
use svc_base::{NoMemory, number, split_line, split_word};

/// What a run waits for.
#[derive(Clone, Copy, PartialEq, Eq)]
enum Wait {
    /// Nothing that its record tells.
    Nothing,
    /// The answer to `daemonize`.
    Side,
    /// The child of the process, which is a parent.
    Child,
    /// The answer to `tryreceive`.
    Receive,
    /// The next try to receive.
    NextReceive,
    /// A signal.
    Signal,
    /// The answer to `connect`.
    Connect,
    /// The next connect, where no successor was there.
    NextConnect,
    /// The next connect, where the last one wasn't done.
    LaterConnect,
    /// The answer to `send`.
    Send,
    /// The next send.
    NextSend,
    /// The end of the seconds behind an offer.
    Close,
    /// The end of the grace period.
    Grace,
}

/// What the lines of a record tell so far of what the run waits for.
#[derive(Clone, Copy)]
pub struct Watch {
    wait: Wait,
    /// The moment at which the wait began, in milliseconds.
    since: u64,
    /// The last moment, in milliseconds.
    pub moment: u64,
    /// Whether `phase Running` was told.
    pub running: bool,
}

/// The number that the first word is; 0 where it is none.
fn first_number(words: &[u8]) -> u64 {
    match split_word(words) {
        Some((word, _)) => number(word).unwrap_or(0),
        None => 0,
    }
}

/// The first word as a text; none where it isn't one.
fn first_text(words: &[u8]) -> &str {
    match split_word(words) {
        Some((word, _)) => str::from_utf8(word).unwrap_or(""),
        None => "",
    }
}

impl Watch {
    /// What a record without lines tells.
    const START: Watch = Watch {
        wait: Wait::Nothing,
        since: 0,
        moment: 0,
        running: false,
    };

    /// A wait begins.
    fn begin(&mut self, wait: Wait) {
        self.wait = wait;
        self.since = self.moment;
    }

    /// Begins a wait, unless the run goes on beside it.
    fn begin_before(&mut self, wait: Wait) {
        if !self.running {
            self.begin(wait);
        }
    }

    /// Takes an event, cut behind its first word.
    fn take_event(&mut self, word: &str, rest: &[u8]) {
        match word {
            "moment" => self.moment = first_number(rest),
            "side" if first_text(rest) == "parent" => self.begin(Wait::Child),
            "side" => self.begin(Wait::Nothing),
            "nosender" => self.begin_before(Wait::NextReceive),
            "received" => self.begin_before(Wait::Nothing),
            "notthere" => self.begin(Wait::NextConnect),
            "connecting" => self.begin(Wait::LaterConnect),
            "sendbusy" => self.begin(Wait::NextSend),
            _ => {}
        }
    }

    /// Takes a phase.
    fn take_phase(&mut self, name: &str) {
        match name {
            "Running" => {
                self.running = true;
                self.begin(Wait::Signal);
            }
            "GracefulUpgradeCloseTimeout" => self.begin(Wait::Close),
            "ShutdownGracePeriod" => self.begin(Wait::Grace),
            _ => {}
        }
    }

    /// Takes a line of the record.
    fn take(&mut self, line: &[u8]) {
        let Some((_, rest)) = split_word(line) else {
            return;
        };
        match first_text(line) {
            "got" => {
                if let Some((_, more)) = split_word(rest) {
                    self.take_event(first_text(rest), more);
                }
            }
            "daemonize" => self.begin(Wait::Side),
            "tryreceive" => self.begin_before(Wait::Receive),
            "connect" => self.begin(Wait::Connect),
            "send" => self.begin(Wait::Send),
            "phase" => self.take_phase(first_text(rest)),
            _ => {}
        }
    }

    /// What this record tells.
    pub(crate) fn of(record: &[u8]) -> Watch {
        let mut watch = Watch::START;
        let mut rest = record;
        while let Some((line, after)) = split_line(rest) {
            watch.take(line);
            rest = after;
        }
        watch
    }
}

/// What is said of a wait.
#[derive(Clone, Copy)]
struct WaitText {
    /// What there is since it began.
    what: &'static str,
    /// What ends it. Where it ends at a moment, that follows.
    then: &'static str,
    ghost plain: { IsTrue (list_all is_plain what.now && list_all is_plain then.now) },
}

/// What is said of a wait of a run that goes on.
fn text_of_run(wait: Wait) -> WaitText {
    match wait {
        Wait::Close => WaitText {
            what: "the offer is over",
            then: "the shutdown begins at moment ",
        },
        Wait::Grace => WaitText {
            what: "the grace period goes on",
            then: "it is over at moment ",
        },
        _ => WaitText {
            what: "the run goes on without a signal",
            then: "signal fast, terminate or upgrade begins the shutdown",
        },
    }
}

/// What is said of a wait of an offer.
fn text_of_offer(wait: Wait) -> WaitText {
    match wait {
        Wait::Connect => WaitText {
            what: "connect isn't answered",
            then: "connected, notthere, connecting or connectfailed answers it",
        },
        Wait::NextConnect => WaitText {
            what: "no successor is there",
            then: "the next connect comes at moment ",
        },
        Wait::LaterConnect => WaitText {
            what: "the connect isn't done",
            then: "the next connect comes at moment ",
        },
        Wait::Send => WaitText {
            what: "send isn't answered",
            then: "sent, sendbusy or sendfailed answers it",
        },
        Wait::NextSend => WaitText {
            what: "the send isn't done",
            then: "the next send comes at moment ",
        },
        wait => text_of_run(wait),
    }
}

/// What is said of a wait.
fn text_of(wait: Wait) -> WaitText {
    match wait {
        Wait::Side => WaitText {
            what: "daemonize isn't answered",
            then: "side child or side parent answers it",
        },
        Wait::Child => WaitText {
            what: "the parent waits for its child",
            then: "childready or childgone ends that, and so does moment ",
        },
        Wait::Receive => WaitText {
            what: "tryreceive isn't answered",
            then: "received, nosender or receivefailed answers it",
        },
        Wait::NextReceive => WaitText {
            what: "no older server is there",
            then: "the next try comes at moment ",
        },
        wait => text_of_offer(wait),
    }
}

/// A key of the configuration on which a wait depends, and its value.
#[derive(Clone, Copy)]
struct WaitKey {
    name: &'static str,
    /// What stands between the name and the value.
    is: &'static str,
    value: u64,
    ghost plain: { IsTrue (list_all is_plain name.now && list_all is_plain is.now) },
}

/// The name of the key, and its value where it isn't set.
fn key_of(wait: Wait) -> Option<WaitKey> {
    let (name, value) = match wait {
        Wait::Child => ("daemon_ready_timeout_seconds", 600),
        Wait::Grace => ("grace_period_seconds", 300),
        Wait::NextReceive | Wait::NextConnect => ("upgrade_sock_connect_accept_max_retries", 5),
        _ => return None,
    };
    Some(WaitKey {
        name,
        is: " isn't set, so it is ",
        value,
    })
}

/// The key on which a wait depends, with its value in a script.
fn key_in(bytes: &[u8], wait: Wait) -> Option<WaitKey> {
    let key = key_of(wait)?;
    match key_number(bytes, key.name.as_bytes()) {
        Some(value) => Some(WaitKey {
            name: key.name,
            is: " is ",
            value,
        }),
        None => Some(key),
    }
}

/// How many milliseconds the wait lasts, where that is known. The value of its key is in seconds.
fn lasts(wait: Wait, value: u64) -> Option<u64> {
    match wait {
        Wait::Child | Wait::Grace => Some(value.saturating_mul(1000)),
        Wait::NextReceive | Wait::NextConnect => Some(1000),
        Wait::LaterConnect | Wait::NextSend => Some(500),
        Wait::Close => Some(5000),
        _ => None,
    }
}

/// Puts behind a message when a wait ends, and the key on which that depends.
fn put_end(
    alloc: Global,
    text: &mut String,
    watch: &Watch,
    key: Option<WaitKey>,
) -> Result<(), NoMemory>
    ensures { OnOk result (IsMessage (string_bytes text.old) → IsMessage (string_bytes text.new)) }
{
    let value = match key {
        Some(key) => key.value,
        None => 0,
    };
    if let Some(lasts) = lasts(watch.wait, value) {
        put(
            alloc,
            text,
            &[Piece::Number(watch.since.saturating_add(lasts))],
        )?;
    }
    if let Some(key) = key {
        let pieces = [
            Piece::Text(" ("),
            Piece::Text(key.name),
            Piece::Text(key.is),
            Piece::Number(key.value),
            Piece::Text(")"),
        ];
        put(alloc, text, &pieces)?;
    }
    Ok(())
}

/// What a run with this record waited for when the events of its script were used up: since when, until
/// when, and by which key. `NoMemory` where there is none for it.
pub fn used_up(alloc: Global, bytes: &[u8], record: &[u8]) -> Result<String, NoMemory>
    ensures { IfOk result (λ text. IsMessage (string_bytes text)) }
{
    let watch = Watch::of(record);
    let said = text_of(watch.wait);
    let pieces = [
        Piece::Number(watch.moment),
        Piece::Text(": "),
        Piece::Text(said.what),
        Piece::Text(" since moment "),
        Piece::Number(watch.since),
        Piece::Text("; "),
        Piece::Text(said.then),
    ];
    let mut text = told(alloc, "the events are used up at moment ", &pieces)?;
    put_end(alloc, &mut text, &watch, key_in(bytes, watch.wait))?;
    Ok(text)
}
