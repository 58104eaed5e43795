//! How a run begins: the fork, bootstrapping, and when it runs.

ghost use Rattle.std.specs.Prelude.{◌≡◌, ◌==◌, ◌&&◌, ◌||◌, not, if◌then◌else◌};
ghost use Rattle.std.specs.List.{list_any};
ghost use Rattle.svc_record.specs.Record.{once_if, has, now};
ghost use Rattle.svc_record.specs.Asks.{is_try, is_try_open};
ghost use Rattle.svc_record.specs.Boot.{is_good_message, is_bad_message, may_begin, has_begun, boots, receive_right, complete_right, runs, try_rests, boot_entries_right, stands_first, fork_first, start_after_boot, try_due, boot_due};
ghost use Rattle.svc_judge.specs.Queries.{query_test};
ghost use Rattle.svc_judge.specs.Steps.{has_boot_service};
ghost use Rattle.svc_judge.specs.Pasts.{IsPast, plan_of, record_of};

use crate::failed::is_started;
use crate::looking::{has, is_open, may_try, now, times, try_rests};
use crate::past::Past;
use crate::plans::{has_kind, service_count};
use crate::query::{Ask, News, Order, Query};
use svc_graph::Kind;
use svc_record::{Action, Entry, ExecutionPhase};

/// Entries that pass the test stand in the record once if this holds, else not at all.
pub(crate) fn once_if(holds: bool, query: Query, entries: &[Entry]) -> bool
    ensures { result ≡ once_if holds (query_test query) entries.now }
{
    times(query, entries) == if holds { 1 } else { 0 }
}

/// One of the messages could be read.
fn has_read(reads: &[bool]) -> bool
    ensures { result ≡ list_any (λ read. read) reads.now }
{
    reads.iter().any(|read| *read)
}

/// One of the messages couldn't be read.
fn has_unread(reads: &[bool]) -> bool
    ensures { result ≡ list_any (λ read. not read) reads.now }
{
    reads.iter().any(|read| !*read)
}

/// A message came that can be read.
fn has_good_message(past: &Past) -> bool
    requires { IsPast past.now }
    ensures { result ≡ has is_good_message (record_of past.now) }
{
    has_read(past.reads)
}

/// A message came that can't be read.
pub(crate) fn has_bad_message(past: &Past) -> bool
    requires { IsPast past.now }
    ensures { result ≡ has is_bad_message (record_of past.now) }
{
    has_unread(past.reads)
}

/// No fork is awaited: the process is no daemon, or it is the daemon's child.
pub(crate) fn may_begin(past: &Past) -> bool
    ensures { result ≡ may_begin (plan_of past.now) (record_of past.now) }
{
    !past.plan.daemon || has(Query::News(News::SideChild), past.entries)
}

/// A service that bootstraps was started.
fn has_boot_service(past: &Past) -> bool
    ensures { result ≡ has_boot_service (plan_of past.now) (record_of past.now) }
{
    (0..service_count(past.plan)).any(|s| has_kind(past.plan, Kind::Bootstrap, s)
        && is_started(past.entries, s))
}

/// Bootstrapping has begun, eagerly or as a service of that kind started.
pub(crate) fn has_begun(past: &Past) -> bool
    ensures { result ≡ has_begun (plan_of past.now) (record_of past.now) }
{
    (past.plan.eager && may_begin(past)) || has_boot_service(past)
}

/// Bootstrapping has begun, and isn't the end.
fn boots(past: &Past) -> bool
    ensures { result ≡ boots (plan_of past.now) (record_of past.now) }
{
    has_begun(past) && !past.plan.test
}

/// A handover is received.
fn receives(past: &Past) -> bool
    ensures { result ≡ (boots (plan_of past.now) (record_of past.now) && (plan_of past.now).upgrade) }
{
    boots(past) && past.plan.upgrade
}

/// Where a handover is received, a try is open, or it rests or was answered by a message; else there is no try.
fn tries_right(receives: bool, entries: &[Entry]) -> bool
    ensures { result ≡ (if receives then (is_try_open entries.now || try_rests (now entries.now) entries.now) else not (has is_try entries.now)) }
{
    if receives {
        is_open(Ask::Receive, entries) || try_rests(now(entries), entries)
    } else {
        !has(Query::Ask(Ask::Receive), entries)
    }
}

/// Where a handover is received, the receiver is open, and a try is open, or it rests or was answered by a
/// message.
fn receive_right(past: &Past) -> bool
    ensures { result ≡ receive_right (plan_of past.now) (record_of past.now) }
{
    let receives = receives(past);
    once_if(receives, Query::Order(Order::OpenReceiver), past.entries)
        && tries_right(receives, past.entries)
}

/// There is nothing to receive, or a message was read.
fn is_complete(past: &Past) -> bool
    requires { IsPast past.now }
    ensures { result ≡ (boots (plan_of past.now) (record_of past.now)
        && (not (plan_of past.now).upgrade || has is_good_message (record_of past.now))) }
{
    boots(past) && (!past.plan.upgrade || has_good_message(past))
}

/// Bootstrapping is complete where there is nothing to receive, or a message was read.
fn complete_right(past: &Past) -> bool
    requires { IsPast past.now }
    ensures { result ≡ complete_right (plan_of past.now) (record_of past.now) }
{
    once_if(
        is_complete(past),
        Query::Order(Order::BootstrapComplete),
        past.entries,
    )
}

/// A daemon's parent waits for bootstrapping.
fn has_parent(past: &Past) -> bool
    ensures { result ≡ (boots (plan_of past.now) (record_of past.now) && ((plan_of past.now).daemon && (plan_of past.now).wait)) }
{
    boots(past) && (past.plan.daemon && past.plan.wait)
}

/// Whether the run runs.
pub(crate) fn runs(past: &Past) -> bool
    ensures { result ≡ runs (plan_of past.now) (record_of past.now) }
{
    may_begin(past)
        && (!past.plan.eager || has(Query::Order(Order::BootstrapComplete), past.entries))
}

/// Each entry of the beginning stands where it is due, and nowhere else.
pub(crate) fn boot_entries_right(past: &Past) -> bool
    requires { IsPast past.now }
    ensures { result ≡ boot_entries_right (plan_of past.now) (record_of past.now) }
{
    once_if(past.plan.daemon, Query::Ask(Ask::Fork), past.entries)
        && once_if(
            has_begun(past),
            Query::Order(Order::Bootstrap),
            past.entries,
        )
        && (once_if(
            has_parent(past),
            Query::Order(Order::NotifyParent),
            past.entries,
        ) && receive_right(past))
        && (complete_right(past) && once_if(runs(past), Query::Order(Order::Running), past.entries))
}

/// The fork is the first entry.
pub(crate) fn stands_first(entry: &Entry, before: &[Entry]) -> bool
    ensures { result ≡ stands_first entry.now before.now }
{
    match entry {
        Entry::Told(Action::Daemonize) => match before {
            [] => true,
            [_, ..] => false,
        },
        _ => true,
    }
}

/// A daemon tells nothing but the fork before it is the child.
pub(crate) fn fork_first(entry: &Entry, before: &Past) -> bool
    ensures { result ≡ fork_first (plan_of before.now) entry.now (record_of before.now) }
{
    match entry {
        Entry::Told(_) => {
            !before.plan.daemon
                || Ask::Fork.is_told(entry)
                || has(Query::News(News::SideChild), before.entries)
        }
        Entry::Got(_) => true,
    }
}

/// With `eager` no service starts before bootstrapping is complete.
pub(crate) fn start_after_boot(entry: &Entry, before: &Past) -> bool
    ensures { result ≡ start_after_boot (plan_of before.now) entry.now (record_of before.now) }
{
    match entry {
        Entry::Told(Action::Start(_)) => {
            !before.plan.eager || has(Query::Order(Order::BootstrapComplete), before.entries)
        }
        _ => true,
    }
}

/// A try to receive comes after the receiver was opened, while none is open, and only where there may be
/// one.
pub(crate) fn try_due(entry: &Entry, before: &[Entry]) -> bool
    ensures { result ≡ try_due entry.now before.now }
{
    match entry {
        Entry::Told(Action::TryReceive) => {
            has(Query::Order(Order::OpenReceiver), before)
                && !is_open(Ask::Receive, before)
                && may_try(now(before), before)
        }
        _ => true,
    }
}

/// What belongs to bootstrapping comes after the phase `Bootstrap`, and with `eager` the run runs after
/// bootstrapping is complete.
pub(crate) fn boot_due(entry: &Entry, before: &Past) -> bool
    ensures { result ≡ boot_due (plan_of before.now) entry.now (record_of before.now) }
{
    match entry {
        Entry::Told(
            Action::NotifyParent
            | Action::OpenReceiver
            | Action::TryReceive
            | Action::Phase(ExecutionPhase::BootstrapComplete, _),
        ) => has(Query::Order(Order::Bootstrap), before.entries),
        Entry::Told(Action::Phase(ExecutionPhase::Running, _)) => {
            !before.plan.eager || has(Query::Order(Order::BootstrapComplete), before.entries)
        }
        _ => true,
    }
}
