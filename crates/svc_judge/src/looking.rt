//! How a record is looked back over, from its newest entry on.

ghost use Rattle.std.specs.Prelude.{◌≡◌, ◌==◌, length};
ghost use Rattle.std.specs.List.{list_any};
ghost use Rattle.svc_record.specs.Record.{has, times, now, signal_of, is_graceful, has_cut};
ghost use Rattle.svc_record.specs.Descriptors.{brings, numbers_of};
ghost use Rattle.svc_record.specs.Endpoints.{in_use_within};
ghost use Rattle.svc_record.specs.Boot.{try_rests, may_try};
ghost use Rattle.svc_record.specs.Offer.{answer_rests, sends_next};
ghost use Rattle.svc_record.specs.Connections.{is_full_at};
ghost use Rattle.svc_judge.specs.Queries.{query_test, is_ask_open};

use crate::query::{Ask, Query, is_pair};
use svc_record::{Action, Entry, Event, ShutdownSignal};

/// The number is one of these.
pub(crate) fn is_in(number: u64, numbers: &[u64]) -> bool
    ensures { result ≡ list_any (λ n. n == number) numbers.now }
{
    numbers.iter().any(|other| *other == number)
}

/// Among the entries is one that passes the test.
#[inline(always)]
pub(crate) fn has(query: Query, entries: &[Entry]) -> bool
    ensures { result ≡ has (query_test query) entries.now }
{
    let mut rest = entries;
    'entries: while let Some((entry, before)) = rest.split_first() {
        if query.matches(entry) {
            return true;
        }
        rest = before;
    }
    false
}

/// How many entries pass the test.
#[inline(always)]
pub(crate) fn times(query: Query, entries: &[Entry]) -> u64
    ensures { result ≡ times (query_test query) entries.now }
{
    let _most = entries.len();
    let mut rest = entries;
    let mut count = 0;
    'entries: while let Some((entry, before)) = rest.split_first() {
        if query.matches(entry) {
            count += 1;
        }
        rest = before;
    }
    count
}

/// Of the asks and the answers of this kind the newest entry is an ask.
pub(crate) fn is_open(ask: Ask, entries: &[Entry]) -> bool
    ensures { result ≡ is_ask_open ask entries.now }
{
    let mut rest = entries;
    'entries: while let Some((entry, before)) = rest.split_first() {
        if ask.is_told(entry) {
            return true;
        }
        if ask.is_answered(entry) {
            return false;
        }
        rest = before;
    }
    false
}

/// The last moment that came, in milliseconds, else 0.
pub(crate) fn now(entries: &[Entry]) -> u64
    ensures { result ≡ now entries.now }
{
    let mut rest = entries;
    'entries: while let Some((entry, before)) = rest.split_first() {
        if let Entry::Got(Event::Moment(ms)) = entry {
            return *ms;
        }
        rest = before;
    }
    0
}

/// The kind of the first signal.
#[tactic(auto, using(crate::proofs::FirstOfLemmas::signal_step))]
pub(crate) fn signal_of(entries: &[Entry]) -> Option<ShutdownSignal>
    ensures { result ≡ signal_of entries.now }
{
    let mut rest = entries;
    let mut found = None;
    'entries: while let Some((entry, before)) = rest.split_first() {
        if let Entry::Got(Event::Signal(kind)) = entry {
            found = Some(*kind);
        }
        rest = before;
    }
    found
}

/// The signal lets the server end gracefully.
fn is_graceful(signal: Option<ShutdownSignal>) -> bool
    ensures { result ≡ is_graceful signal }
{
    match signal {
        Some(ShutdownSignal::GracefulTerminate | ShutdownSignal::GracefulUpgrade) => true,
        _ => false,
    }
}

/// A cut came: a fast signal after a first signal that isn't fast.
pub(crate) fn has_cut(entries: &[Entry]) -> bool
    ensures { result ≡ has_cut entries.now }
{
    let mut rest = entries;
    'entries: while let Some((entry, before)) = rest.split_first() {
        if let Entry::Got(Event::Signal(ShutdownSignal::FastShutdown)) = entry
            && is_graceful(signal_of(before))
        {
            return true;
        }
        rest = before;
    }
    false
}

/// The entry brings the descriptor's number.
fn brings(fd: u64, entry: &Entry) -> bool
    ensures { result ≡ brings fd entry.now }
{
    match entry {
        Entry::Got(Event::Bound(_, _, number)) => *number == fd,
        Entry::Got(Event::Received(_, fds)) => fds.as_slice().contains(&fd),
        _ => false,
    }
}

/// An event of the record brought the descriptor's number.
pub(crate) fn has_brought(fd: u64, entries: &[Entry]) -> bool
    ensures { result ≡ has (brings fd) entries.now }
{
    let mut rest = entries;
    'entries: while let Some((entry, before)) = rest.split_first() {
        if brings(fd, entry) {
            return true;
        }
        rest = before;
    }
    false
}

/// How many descriptors an entry brings.
pub(crate) fn count_brought(entry: &Entry) -> usize
    ensures { result ≡ length (numbers_of entry.now) }
{
    match entry {
        Entry::Got(Event::Bound(_, _, _)) => 1,
        Entry::Got(Event::Received(_, fds)) => fds.as_slice().len(),
        _ => 0,
    }
}

/// Of the endpoint's binds and their answers the newest is `InUse`, under 1,000 ms before the moment.
pub(crate) fn in_use_within(moment: u64, entries: &[Entry], service: u64, endpoint: u64) -> bool
    ensures { result ≡ in_use_within moment entries.now service endpoint }
{
    let mut rest = entries;
    'entries: while let Some((entry, before)) = rest.split_first() {
        match entry {
            Entry::Told(Action::Bind(s, i)) => {
                if is_pair(*s, *i, service, endpoint) {
                    return false;
                }
            }
            Entry::Got(Event::InUse(s, i)) => {
                if is_pair(*s, *i, service, endpoint) {
                    return moment.saturating_sub(now(before)) < 1000;
                }
            }
            Entry::Got(Event::Bound(s, i, _)) => {
                if is_pair(*s, *i, service, endpoint) {
                    return false;
                }
            }
            Entry::Got(Event::BindFailed(s, i)) => {
                if is_pair(*s, *i, service, endpoint) {
                    return false;
                }
            }
            _ => {}
        }
        rest = before;
    }
    false
}

/// The last try was answered by a message, or by `NoSenderYet` under 1,000 ms before the moment.
pub(crate) fn try_rests(moment: u64, entries: &[Entry]) -> bool
    ensures { result ≡ try_rests moment entries.now }
{
    let mut rest = entries;
    'entries: while let Some((entry, before)) = rest.split_first() {
        match entry {
            Entry::Got(Event::Received(_, _)) => return true,
            Entry::Got(Event::NoSenderYet) => {
                return moment.saturating_sub(now(before)) < 1000;
            }
            Entry::Got(Event::ReceiveFailed) => return false,
            _ => {}
        }
        rest = before;
    }
    false
}

/// No try was answered yet, or the last answer is `NoSenderYet` 1,000 ms or more before the moment.
pub(crate) fn may_try(moment: u64, entries: &[Entry]) -> bool
    ensures { result ≡ may_try moment entries.now }
{
    let mut rest = entries;
    'entries: while let Some((entry, before)) = rest.split_first() {
        match entry {
            Entry::Got(Event::Received(_, _)) => return false,
            Entry::Got(Event::NoSenderYet) => {
                return 1000 <= moment.saturating_sub(now(before));
            }
            Entry::Got(Event::ReceiveFailed) => return false,
            _ => {}
        }
        rest = before;
    }
    true
}

/// The last answer of the offer leaves a rest that isn't over at the moment.
pub(crate) fn answer_rests(moment: u64, entries: &[Entry]) -> bool
    ensures { result ≡ answer_rests moment entries.now }
{
    let mut rest = entries;
    'entries: while let Some((entry, before)) = rest.split_first() {
        match entry {
            Entry::Got(Event::NotThere) => {
                return moment.saturating_sub(now(before)) < 1000;
            }
            Entry::Got(Event::StillConnecting | Event::SendBusy) => {
                return moment.saturating_sub(now(before)) < 500;
            }
            Entry::Got(Event::Connected | Event::ConnectFailed | Event::Sent | Event::SendFailed) =>
                return false,
            _ => {}
        }
        rest = before;
    }
    false
}

/// The last answer of the offer is one after which the message is sent.
pub(crate) fn sends_next(entries: &[Entry]) -> bool
    ensures { result ≡ sends_next entries.now }
{
    let mut rest = entries;
    'entries: while let Some((entry, before)) = rest.split_first() {
        match entry {
            Entry::Got(Event::Connected | Event::SendBusy) => return true,
            Entry::Got(
                Event::NotThere
                | Event::StillConnecting
                | Event::ConnectFailed
                | Event::Sent
                | Event::SendFailed,
            ) => return false,
            _ => {}
        }
        rest = before;
    }
    false
}

/// The last event is a failed accept of the endpoint since too many files are open, and no rest was told
/// since.
pub(crate) fn is_full_at(entries: &[Entry], service: u64, endpoint: u64) -> bool
    ensures { result ≡ is_full_at entries.now service endpoint }
{
    let mut rest = entries;
    'entries: while let Some((entry, before)) = rest.split_first() {
        match entry {
            Entry::Got(Event::AcceptFailed(s, i, number)) => {
                return is_pair(*s, *i, service, endpoint) && *number == 24;
            }
            Entry::Got(_) => return false,
            Entry::Told(Action::Rest(_, _)) => return false,
            Entry::Told(_) => {}
        }
        rest = before;
    }
    false
}
