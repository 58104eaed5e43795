//! What of a settled prefix is looked at anew, where no rule was broken up to the one before it.

ghost use Rattle.std.specs.Prelude.{◌≡◌, ◌==◌, ◌||◌};
ghost use Rattle.svc_judge.specs.Pasts.{IsPast, plan_of, record_of};
ghost use Rattle.svc_judge.specs.Rules.{entry_test};
ghost use Rattle.svc_judge.specs.Anew.{is_of_connection, only_connections, touches, is_touched, is_connection_kept, connections_kept, conn_kept, boot_kept, each_new};
ghost use Rattle.svc_judge.specs.Chains.{IsChains};
ghost use Rattle.svc_judge.specs.ConnectionSteps.{arrival};

use crate::alone;
use crate::boot::boot_entries_right;
use crate::chains::Chains;
use crate::connections::{connection_right, rests_right};
use crate::past::{Past, Split};
use crate::rules::{EntryRule, each_entry};
use svc_record::{Action, Entry, Event, ExecutionPhase};
use svc_socket::Peer;

/// The entry is of a connection, and comes while the run goes on.
pub(crate) fn is_of_connection(entry: &Entry) -> bool
    ensures { result ≡ is_of_connection entry.now }
{
    match entry {
        Entry::Got(
            Event::Arrived(_, _, _, _)
            | Event::Set(_, _)
            | Event::Shaken(_, _)
            | Event::Finished(_),
        ) => true,
        Entry::Told(
            Action::Judged(_, _)
            | Action::Refuse(_)
            | Action::Settings(_, _)
            | Action::Handshake(_)
            | Action::Serve(_)
            | Action::Drop(_),
        ) => true,
        _ => false,
    }
}

/// There is an event, and the last one and what was told since are of connections.
pub(crate) fn only_connections(entries: &[Entry]) -> bool
    ensures { result ≡ only_connections entries.now }
{
    let mut rest = entries;
    'entries: while let Some((entry, before)) = rest.split_first() {
        if !is_of_connection(entry) {
            return false;
        }
        if let Entry::Got(_) = entry {
            return true;
        }
        rest = before;
    }
    false
}

/// The entry is of this connection, or cuts what is left of any.
fn touches(c: u64, entry: &Entry) -> bool
    ensures { result ≡ touches c entry.now }
{
    match entry {
        Entry::Got(
            Event::Arrived(_, _, n, _)
            | Event::Set(n, _)
            | Event::Shaken(n, _)
            | Event::Finished(n),
        ) => *n == c,
        Entry::Told(
            Action::Judged(n, _)
            | Action::Refuse(n)
            | Action::Settings(n, _)
            | Action::Handshake(n)
            | Action::Serve(n)
            | Action::Drop(n)
            | Action::Cut(n),
        ) => *n == c,
        Entry::Told(Action::Phase(ExecutionPhase::ShutdownRuntimes, _)) => true,
        _ => false,
    }
}

/// The last event, or what was told since, is of the connection.
fn is_touched(c: u64, entries: &[Entry]) -> bool
    ensures { result ≡ is_touched c entries.now }
{
    let mut rest = entries;
    'entries: while let Some((entry, before)) = rest.split_first() {
        if touches(c, entry) {
            return true;
        }
        if let Entry::Got(_) = entry {
            return false;
        }
        rest = before;
    }
    false
}

/// The connection is right, if it is touched.
#[tactic(auto, unfolding(crate::specs::Anew::is_connection_kept))]
fn is_connection_kept(past: &Past, s: u64, i: u64, c: u64, peer: Peer) -> bool
    requires { IsPast past.now }
    ensures { result ≡ is_connection_kept (plan_of past.now) (record_of past.now) (arrival s i c peer) }
{
    !is_touched(c, past.entries) || connection_right(past, s, i, c, peer)
}

/// Each connection that is touched is right.
pub(crate) fn connections_kept(past: &Past) -> bool
    requires { IsPast past.now }
    ensures { result ≡ connections_kept (plan_of past.now) (record_of past.now) }
{
    let mut rest = past.entries;
    'entries: while let Some((entry, before)) = rest.split_first() {
        if let Entry::Got(Event::Arrived(s, i, c, peer)) = entry
            && !is_connection_kept(past, u64::from(*s), u64::from(*i), *c, *peer)
        {
            return false;
        }
        rest = before;
    }
    true
}

/// The last event and what was told since keep the rule.
pub(crate) fn each_new(rule: EntryRule, past: &Past) -> bool
    requires { IsPast past.now }
    ensures { result ≡ each_new (entry_test rule (plan_of past.now)) (record_of past.now) }
{
    let mut rest = *past;
    'entries: while let Some(
        Split {
            entry,
            news: _,
            before,
        },
    ) = rest.split()
    {
        if !rule.holds(entry, &before) {
            return false;
        }
        if let Entry::Got(_) = entry {
            return true;
        }
        rest = before;
    }
    true
}

/// What is asked of connections, where it held before the last event.
pub(crate) fn conn_kept(past: &Past, chains: &Chains) -> bool
    requires past { IsPast past.now }
    requires chains { IsChains chains.now (record_of past.now) }
    ensures { result ≡ conn_kept (plan_of past.now) (record_of past.now) }
{
    alone::connections_kept(past, chains)
        && rests_right(past.entries)
        && each_entry(EntryRule::RestDue, past)
}

/// What is asked of the beginning, where it held before the last event.
pub(crate) fn boot_kept(past: &Past) -> bool
    requires { IsPast past.now }
    ensures { result ≡ boot_kept (plan_of past.now) (record_of past.now) }
{
    boot_entries_right(past)
        && (each_entry(EntryRule::StandsFirst, past)
            && each_new(EntryRule::ForkFirst, past)
            && each_entry(EntryRule::StartAfterBoot, past))
}
