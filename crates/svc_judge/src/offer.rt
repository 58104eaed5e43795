//! What is offered to a successor after an upgrade signal, and how the offer goes.

ghost use Rattle.std.specs.Prelude.{◌≡◌, ◌==◌, ◌∷◌, true, length};
ghost use Rattle.std.specs.List.{list_any};
ghost use Rattle.svc_fds.specs.Tables.{Entry as TableEntry};
ghost use Rattle.svc_record.specs.Offer.{is_upgrade, table, is_empty_table, is_written, has_offer, is_offered, is_answered, is_over, is_held_back, over_moment, goes_on, is_message, offer_due, offer_right, retry_due, one_holds, one_ask};
ghost use Rattle.svc_record.specs.Message.{encode};
ghost use Rattle.svc_judge.specs.Pasts.{IsPast, plan_of, record_of};
ghost use Rattle.svc_record.specs.Record.{has, is_signal, signal_of};
ghost use Rattle.svc_judge.specs.Steps.{is_asking, has_offer_ended, may_end_offer};

use crate::looking::{
    answer_rests, has, has_cut, is_in, is_open, now, sends_next, signal_of, times,
};
use crate::past::{Past, Split};
use crate::query::{Ask, News, Query};
use svc_fds::Message;
use svc_record::{Action, Entry, Event, ShutdownSignal};

/// The first signal asks for an upgrade.
fn is_upgrade_signal(entries: &[Entry]) -> bool
    ensures { result ≡ is_upgrade (signal_of entries.now) }
{
    matches!(signal_of(entries), Some(ShutdownSignal::GracefulUpgrade))
}

/// The same. Where it does, a signal came.
pub(crate) fn is_upgrade(entries: &[Entry]) -> bool
    ensures is { result ≡ is_upgrade (signal_of entries.now) }
    ensures came { result ≡ true → has is_signal entries.now ≡ true }
{
    is_upgrade_signal(entries)
}

/// There is no number.
fn is_none(numbers: &[u64]) -> bool
    ensures { result ≡ (length numbers.now == 0) }
{
    numbers.is_empty()
}

/// Nothing was on offer at the signal.
fn is_nothing_offered(past: &Past) -> bool
    requires past { IsPast past.now }
    requires signalled { has is_signal (record_of past.now) ≡ true }
    ensures { result ≡ is_empty_table (table (plan_of past.now) (record_of past.now)) }
{
    is_none(&past.offer.numbers)
}

/// There is a message.
fn has_message(message: &Option<Message>) -> bool
    ensures { result ≡ is_written message.now }
{
    match message {
        Some(_) => true,
        None => false,
    }
}

/// What was on offer at the signal can be written.
fn is_written(past: &Past) -> bool
    requires past { IsPast past.now }
    requires signalled { has is_signal (record_of past.now) ≡ true }
    ensures { result ≡ is_written (encode (table (plan_of past.now) (record_of past.now))) }
{
    has_message(&past.offer.message)
}

/// The first signal is an upgrade, and something is offered.
pub(crate) fn has_offer(past: &Past) -> bool
    requires { IsPast past.now }
    ensures is { result ≡ has_offer (plan_of past.now) (record_of past.now) }
    ensures came { result ≡ true → has is_signal (record_of past.now) ≡ true }
{
    is_upgrade(past.entries) && !is_nothing_offered(past)
}

/// The descriptor is among what was on offer at the signal.
fn is_in_offer(past: &Past, fd: u64) -> bool
    requires past { IsPast past.now }
    requires signalled { has is_signal (record_of past.now) ≡ true }
    ensures { result ≡ list_any (λ (x : TableEntry). x.1 == fd) (table (plan_of past.now) (record_of past.now)) }
{
    is_in(fd, &past.offer.numbers)
}

/// The descriptor is among what is offered.
fn is_offered(past: &Past, fd: u64) -> bool
    requires { IsPast past.now }
    ensures { result ≡ is_offered (plan_of past.now) (record_of past.now) fd }
{
    is_upgrade(past.entries) && is_in_offer(past, fd)
}

/// It was sent or failed, nobody was there too often, or somebody was busy too often.
fn is_answered(past: &Past) -> bool
    ensures { result ≡ is_answered (plan_of past.now) (record_of past.now) }
{
    has(Query::News(News::LastAnswer), past.entries)
        || past.plan.limit < times(Query::News(News::NotThere), past.entries)
        || 20 <= times(Query::News(News::BusyAnswer), past.entries)
}

/// The offer of an upgrade signal is over: it can't be written, a cut came, or it was answered.
fn has_offer_ended(past: &Past) -> bool
    requires past { IsPast past.now }
    requires signalled { has is_signal (record_of past.now) ≡ true }
    ensures { result ≡ has_offer_ended (plan_of past.now) (record_of past.now) }
{
    (!is_nothing_offered(past) && (!is_written(past) || has_cut(past.entries))) || is_answered(past)
}

/// The offer is over.
pub(crate) fn is_over(past: &Past) -> bool
    requires { IsPast past.now }
    ensures { result ≡ is_over (plan_of past.now) (record_of past.now) }
{
    is_upgrade(past.entries) && has_offer_ended(past)
}

/// The descriptor is on offer: it is among what is offered, and the offer isn't over.
pub(crate) fn is_held_back(past: &Past, fd: u64) -> bool
    requires { IsPast past.now }
    ensures { result ≡ is_held_back (plan_of past.now) (record_of past.now) fd }
{
    is_offered(past, fd) && !is_over(past)
}

/// By the event an offer may be over.
fn may_end_offer(entry: &Entry) -> bool
    ensures { result ≡ may_end_offer entry.now }
{
    matches!(
        entry,
        Entry::Got(
            Event::Signal(_)
                | Event::Sent
                | Event::ConnectFailed
                | Event::SendFailed
                | Event::NotThere
                | Event::StillConnecting
                | Event::SendBusy
        )
    )
}

/// Whether the offer is over before the entry, where it is known whether it is with it.
#[tactic(auto, using(crate::proofs::OverLemmas::over_same))]
fn is_over_before(over: bool, entry: &Entry, before: &Past) -> bool
    requires past { IsPast before.now }
    requires over { over ≡ is_over (plan_of before.now) (entry.now ∷ record_of before.now) }
    ensures { result ≡ is_over (plan_of before.now) (record_of before.now) }
{
    if may_end_offer(entry) {
        return is_over(before);
    }
    over
}

/// The moment of the first entry since which the offer is over.
pub(crate) fn over_moment(past: &Past) -> u64
    requires { IsPast past.now }
    ensures { result ≡ over_moment (plan_of past.now) (record_of past.now) }
{
    let mut rest = *past;
    let mut over = is_over(past);
    'entries: while let Some(
        Split {
            entry,
            news: _,
            before,
        },
    ) = rest.split()
    {
        over = is_over_before(over, entry, &before);
        if let Entry::Got(_) = entry
            && !over
        {
            return now(rest.entries);
        }
        rest = before;
    }
    0
}

/// There is an offer, it can be written, and it isn't over.
fn goes_on(past: &Past) -> bool
    requires { IsPast past.now }
    ensures is { result ≡ goes_on (plan_of past.now) (record_of past.now) }
    ensures came { result ≡ true → has is_signal (record_of past.now) ≡ true }
{
    has_offer(past) && is_written(past) && !is_over(past)
}

/// A connect or a send is open.
fn is_asking(entries: &[Entry]) -> bool
    ensures { result ≡ is_asking entries.now }
{
    is_open(Ask::Connect, entries) || is_open(Ask::Send, entries)
}

/// There is a message, of these bytes and descriptors.
fn says(message: &Option<Message>, bytes: &[u8], fds: &[u64]) -> bool
    ensures { result ≡ is_message bytes.now fds.now message.now }
{
    match message {
        Some(message) => bytes == message.bytes.as_slice() && fds == message.fds.as_slice(),
        None => false,
    }
}

/// What was on offer at the signal is said by these bytes and descriptors.
fn is_message(past: &Past, bytes: &[u8], fds: &[u64]) -> bool
    requires past { IsPast past.now }
    requires signalled { has is_signal (record_of past.now) ≡ true }
    ensures { result ≡ is_message bytes.now fds.now (encode (table (plan_of past.now) (record_of past.now))) }
{
    says(&past.offer.message, bytes, fds)
}

/// An ask of the offer comes while it goes on, after an answer to the one before, and is the one that this
/// answer calls for.
pub(crate) fn offer_due(entry: &Entry, before: &Past) -> bool
    requires { IsPast before.now }
    ensures { result ≡ offer_due (plan_of before.now) entry.now (record_of before.now) }
{
    match entry {
        Entry::Told(Action::Connect) => {
            goes_on(before) && !is_asking(before.entries) && !sends_next(before.entries)
        }
        Entry::Told(Action::Send(bytes, fds)) => {
            goes_on(before)
                && !is_asking(before.entries)
                && sends_next(before.entries)
                && is_message(before, bytes.as_slice(), fds.as_slice())
        }
        _ => true,
    }
}

/// While the offer goes on, one of its asks is open, or the last answer rests.
pub(crate) fn offer_right(past: &Past) -> bool
    requires { IsPast past.now }
    ensures { result ≡ offer_right (plan_of past.now) (record_of past.now) }
{
    !goes_on(past) || (is_asking(past.entries) || answer_rests(now(past.entries), past.entries))
}

/// A retry comes only when the rest after the last answer is over.
pub(crate) fn retry_due(entry: &Entry, before: &[Entry]) -> bool
    ensures { result ≡ retry_due entry.now before.now }
{
    match entry {
        Entry::Told(Action::Connect) => !answer_rests(now(before), before),
        Entry::Told(Action::Send(_, _)) => !answer_rests(now(before), before),
        _ => true,
    }
}

/// Exactly one of the three holds.
fn one_holds(a: bool, b: bool, c: bool) -> bool
    ensures { result ≡ one_holds a b c }
{
    match (a, b) {
        (true, _) => !(b || c),
        (false, true) => !c,
        (false, false) => c,
    }
}

/// While the offer goes on, exactly one holds: a connect is open, a send is open, or the last answer rests.
pub(crate) fn one_ask(past: &Past) -> bool
    requires { IsPast past.now }
    ensures { result ≡ one_ask (plan_of past.now) (record_of past.now) }
{
    !goes_on(past)
        || one_holds(
            is_open(Ask::Connect, past.entries),
            is_open(Ask::Send, past.entries),
            answer_rests(now(past.entries), past.entries),
        )
}
