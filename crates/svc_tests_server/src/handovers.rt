//! Schedules of a handover as rows of text, and what they leave.

use std::alloc::Global;
use std::process::Abort;
use std::str::SplitWhitespace;
use svc_base::{Bytes, Numbers, Settings, Text, Texts};
use svc_core::{Entry, Event, Plan, ServiceList, ServicePlan, ShutdownSignal};
use svc_fds::FdList;
use svc_graph::{EndpointList, EndpointPlan, Kind};
use svc_handover::{PairRefused, PairRun, PairStep, handover_law};

mod operator;
mod schedules;

/// A service that declares the addresses on which it listens, joined by a plus sign.
fn service(rt: &impl Abort, alloc: Global, name: &str, kind: Kind, addresses: &str) -> ServicePlan {
    let mut declared = Texts::new(alloc);
    let mut endpoints = EndpointList::new(alloc);
    for address in addresses.split('+').filter(|address| !address.is_empty()) {
        let text = Text::new(alloc, address).expect(rt, "memory");
        declared.push(alloc, text).expect(rt, "memory");
        let endpoint = EndpointPlan {
            address: Text::new(alloc, address).expect(rt, "memory"),
            unix: false,
            options: Settings::new(alloc),
            filter: None,
        };
        endpoints.push(alloc, endpoint).expect(rt, "memory");
    }
    ServicePlan {
        name: Text::new(alloc, name).expect(rt, "memory"),
        kind,
        depends: Numbers::new(alloc),
        declared: Some(declared),
        endpoints,
    }
}

/// A plan of these services, which tries a handover twice at most and waits for no connection.
fn plan_of(services: ServiceList, upgrade: bool, eager: bool) -> Plan {
    Plan {
        services,
        grace: 0,
        stop: 5,
        tasks: 1,
        limit: 1,
        upgrade,
        test: false,
        eager,
        daemon: false,
        wait: false,
        ready_timeout: 600,
    }
}

/// The plan of a word and of addresses joined by a plus sign, at which its service `web` listens: of an
/// `old` server; of a `new` one, which asks for an older one's sockets before all else; of a server that
/// asks for them as its second service starts, at once (`second`) or after a word of the first (`late`).
fn plan(rt: &impl Abort, alloc: Global, text: &str) -> Plan {
    let (word, addresses) = text.split_once(' ').expect(rt, "a plan");
    let is_late = word == "late";
    let kind = if is_late {
        Kind::Notifying
    } else {
        Kind::Plain
    };
    let mut services = ServiceList::new(alloc);
    let web = service(rt, alloc, "web", kind, addresses);
    services.push(alloc, web).expect(rt, "memory");
    if is_late || word == "second" {
        let mut second = service(rt, alloc, "second", Kind::Bootstrap, "");
        second.depends.push(alloc, 0).expect(rt, "memory");
        services.push(alloc, second).expect(rt, "memory");
    }
    plan_of(services, word != "old", word == "new")
}

fn number(rt: &impl Abort, word: Option<&str>) -> u64 {
    word.expect(rt, "a number")
        .parse::<u64>()
        .expect(rt, "a number")
}

fn small(rt: &impl Abort, word: Option<&str>) -> u32 {
    word.expect(rt, "a number")
        .parse::<u32>()
        .expect(rt, "a number")
}

/// Addresses joined by a plus sign, as a message, and the numbers after them.
fn received(rt: &impl Abort, alloc: Global, words: &mut SplitWhitespace<'_>) -> Event {
    let mut bytes = Bytes::new(alloc);
    for byte in words.next().expect(rt, "addresses").bytes() {
        let byte = if byte == b'+' { b' ' } else { byte };
        bytes.push(alloc, byte).expect(rt, "memory");
    }
    let mut fds = FdList::new(alloc);
    for word in words {
        fds.push(alloc, number(rt, Some(word))).expect(rt, "memory");
    }
    Event::Received(bytes, fds)
}

fn signal_of(rt: &impl Abort, word: Option<&str>) -> ShutdownSignal {
    match word.expect(rt, "a signal").as_bytes() {
        b"upgrade" => ShutdownSignal::GracefulUpgrade,
        b"terminate" => ShutdownSignal::GracefulTerminate,
        _ => ShutdownSignal::FastShutdown,
    }
}

/// An answer of the offer, or one of the tries to receive.
fn answer_of(rt: &impl Abort, word: &str) -> Event {
    match word.as_bytes() {
        b"connected" => Event::Connected,
        b"notthere" => Event::NotThere,
        b"connecting" => Event::StillConnecting,
        b"connectfailed" => Event::ConnectFailed,
        b"sent" => Event::Sent,
        b"sendbusy" => Event::SendBusy,
        b"sendfailed" => Event::SendFailed,
        b"nosender" => Event::NoSenderYet,
        b"receivefailed" => Event::ReceiveFailed,
        _ => panic!(rt; "unknown event {word}"),
    }
}

/// The event of a line as a record shows it.
fn event_of(rt: &impl Abort, alloc: Global, words: &mut SplitWhitespace<'_>) -> Event {
    let kind = words.next().expect(rt, "an event");
    match kind.as_bytes() {
        b"received" => received(rt, alloc, words),
        b"signal" => Event::Signal(signal_of(rt, words.next())),
        b"moment" => Event::Moment(number(rt, words.next())),
        b"ready" => Event::Ready(small(rt, words.next())),
        b"bound" => Event::Bound(
            small(rt, words.next()),
            small(rt, words.next()),
            number(rt, words.next()),
        ),
        b"inuse" => Event::InUse(small(rt, words.next()), small(rt, words.next())),
        b"bindfailed" => Event::BindFailed(small(rt, words.next()), small(rt, words.next())),
        b"adopted" => Event::Adopted(small(rt, words.next()), small(rt, words.next())),
        b"adoptfailed" => Event::AdoptFailed(small(rt, words.next()), small(rt, words.next())),
        _ => answer_of(rt, kind),
    }
}

/// Steps parted by semicolons, each a side and an event.
fn schedule_of(rt: &impl Abort, alloc: Global, steps: &str) -> Vec<PairStep> {
    let mut schedule = Vec::new(alloc);
    for step in steps.split(';') {
        let mut words = step.split_whitespace();
        if let Some(side) = words.next() {
            let step = PairStep {
                old: side == "old",
                event: event_of(rt, alloc, &mut words),
                said: true,
            };
            schedule.push(step).expect(rt, "memory");
        }
    }
    schedule
}

/// The first steps that a row names by a word: the old server holds its address and is told to upgrade;
/// it has connected; its message is sent; the new server has received it.
fn start_of(word: &str) -> &str {
    match word.as_bytes() {
        b"offered" => "old bound 0 0 7; old signal upgrade; ",
        b"connected" => "old bound 0 0 7; old signal upgrade; old connected; ",
        b"sent" => "old bound 0 0 7; old signal upgrade; old connected; old sent; ",
        b"taken" => {
            "old bound 0 0 7; old signal upgrade; old connected; old sent; new received x 3; "
        }
        _ => "",
    }
}

/// What the schedule leaves.
fn run(
    rt: &impl Abort,
    alloc: Global,
    old: &str,
    new: &str,
    steps: &str,
) -> Result<PairRun, PairRefused> {
    let old = plan(rt, alloc, old);
    let old_is_valid = old.valid(alloc).expect(rt, "memory");
    assert!(rt; old_is_valid);
    let new = plan(rt, alloc, new);
    let new_is_valid = new.valid(alloc).expect(rt, "memory");
    assert!(rt; new_is_valid);
    let schedule = schedule_of(rt, alloc, steps);
    handover_law(alloc, old, new, schedule.as_slice())
}

/// The record ends in these lines, each with a semicolon behind it.
fn ends(rt: &impl Abort, alloc: Global, entries: &[Entry], lines: &str, row: &str) {
    let count = lines
        .split(';')
        .filter(|line| !line.trim().is_empty())
        .count();
    assert!(rt; count <= entries.len(), "{row}");
    let last = &entries[entries.len() - count..];
    for (entry, line) in last.iter().zip(lines.split(';')) {
        let text = format!(in alloc; "{entry}").expect(rt, "memory");
        assert_eq!(rt; text.as_str(), line.trim(), "{row}");
    }
}

/// A row: both plans, how the schedule starts, its further steps, the channel that it leaves or why it
/// is refused, and how each record ends.
fn play(rt: &impl Abort, alloc: Global, row: &str) {
    let mut fields = row.split('|');
    let old = fields.next().expect(rt, "an old plan").trim();
    let new = fields.next().expect(rt, "a new plan").trim();
    let start = start_of(fields.next().expect(rt, "a start").trim());
    let more = fields.next().expect(rt, "steps");
    let outcome = fields.next().expect(rt, "an outcome").trim();
    let steps = format!(in alloc; "{start}{more}").expect(rt, "memory");
    match run(rt, alloc, old, new, steps.as_str()) {
        Err(refused) => {
            let text = format!(in alloc; "{refused}").expect(rt, "memory");
            assert_eq!(rt; text.as_str(), outcome, "{row}");
        }
        Ok(left) => {
            let channel = left.channel;
            let text = format!(in alloc; "{channel:?}").expect(rt, "memory");
            assert_eq!(rt; text.as_str(), outcome, "{row}");
            let old_end = fields.next().expect(rt, "the old record's end").trim();
            ends(rt, alloc, left.old.as_slice(), old_end, row);
            let new_end = fields.next().expect(rt, "the new record's end").trim();
            ends(rt, alloc, left.new.as_slice(), new_end, row);
        }
    }
}
