//! What becomes of connections, each looked for among the entries on it.

ghost use Rattle.std.specs.Prelude.{◌≡◌, ◌&&◌, ◌<◌, length, IfOk};
ghost use Rattle.std.specs.List.{list_all};
ghost use Rattle.svc_record.specs.Record.{Record, has, before_runtimes};
ghost use Rattle.svc_record.specs.Connections.{arrivals, is_arrival, goes_on, connection_known};
ghost use Rattle.svc_judge.specs.ConnectionSteps.{arrival, connections_right, is_kept};
ghost use Rattle.svc_judge.specs.Anew.{connections_kept};
ghost use Rattle.svc_judge.specs.Chains.{IsChains, alone_fits, is_numbered_right, are_numbered_right, is_number_right, touched_numbers};
ghost use Rattle.svc_judge.specs.Pasts.{IsPast, plan_of, record_of};

use crate::anew;
use crate::chains::{Chains, number_at};
use crate::connections::{connection_right_by, goes_on, is_live_connection};
use crate::looking::{has, is_open};
use crate::past::Past;
use crate::plans::is_endpoint;
use crate::query::{Answer, Ask, Deed, Query};
use std::alloc::Global;
use std::mem::drop;
use svc_base::NoMemory;
use svc_record::{Action, Entry, Event};
use svc_socket::Peer;

/// The plan with these entries.
fn along<'a>(past: &Past<'a>, entries: &'a [Entry]) -> Past<'a>
    ensures plan { plan_of result ≡ plan_of past.now }
    ensures entries { record_of result ≡ entries.now }
{
    Past {
        plan: past.plan,
        entries,
        opened: past.opened,
        reads: past.reads,
        offer: past.offer,
        order: past.order,
    }
}

/// The connection is there, and goes on.
fn is_there(entries: &[Entry], c: u64) -> bool
    ensures { result ≡ (has (is_arrival c) entries.now && goes_on entries.now c) }
{
    has(Query::Answer(Answer::Arrival(c)), entries) && goes_on(entries, c)
}

/// The connection was there at `ShutdownRuntimes`, before which the chains' record stands, and went on.
fn is_there_in(at: &Chains, c: u64) -> bool
    requires { 0 < length at.now.parts }
    ensures { (q : Record) → IsChains at.now q → result ≡ (has (is_arrival c) q && goes_on q c) }
{
    is_there(at.of(c), c)
}

/// The connection is right, by the entries on it, and by those of them that stand before `ShutdownRuntimes`.
fn is_right_in(
    past: &Past,
    chains: &Chains,
    at: &Chains,
    s: u64,
    i: u64,
    c: u64,
    peer: Peer,
) -> bool
    requires chains { IsChains chains.now (record_of past.now) }
    requires at { IsChains at.now (before_runtimes (record_of past.now)) }
    ensures { result ≡ is_kept (plan_of past.now) (record_of past.now) (arrival s i c peer) }
{
    let cut = is_there_in(at, c);
    connection_right_by(&along(past, chains.of(c)), cut, s, i, c, peer)
}

/// Each connection is right.
fn are_right_in(past: &Past, chains: &Chains, at: &Chains) -> bool
    requires chains { IsChains chains.now (record_of past.now) }
    requires at { IsChains at.now (before_runtimes (record_of past.now)) }
    ensures { result ≡ list_all (is_kept (plan_of past.now) (record_of past.now)) (arrivals (record_of past.now)) }
{
    let mut rest = past.entries;
    'entries: while let Some((entry, before)) = rest.split_first() {
        if let Entry::Got(Event::Arrived(s, i, c, peer)) = entry
            && !is_right_in(past, chains, at, u64::from(*s), u64::from(*i), *c, *peer)
        {
            return false;
        }
        rest = before;
    }
    true
}

/// Each connection is right.
#[tactic(auto, unfolding(crate::specs::ConnectionSteps::is_kept))]
pub(crate) fn connections_right(alloc: Global, past: &Past) -> Result<bool, NoMemory>
    requires { IsPast past.now }
    ensures { IfOk result (λ right. right ≡ connections_right (plan_of past.now) (record_of past.now)) }
{
    let before = past.before_runtimes();
    let chains = Chains::new(alloc, past.entries)?;
    match Chains::new(alloc, before.entries) {
        Ok(at) => {
            let right = are_right_in(past, &chains, &at);
            drop(at);
            drop(chains);
            Ok(right)
        }
        Err(NoMemory) => {
            drop(chains);
            Err(NoMemory)
        }
    }
}

/// The connection is another one, or right.
#[tactic(auto, unfolding(crate::specs::Chains::is_numbered_right))]
fn is_numbered_right(past: &Past, c: u64, s: u64, i: u64, number: u64, peer: Peer) -> bool
    ensures { result ≡ is_numbered_right (plan_of past.now) (record_of past.now) c (arrival s i number peer) }
{
    c != number || connection_right_by(past, false, s, i, number, peer)
}

/// Each connection with this number is right, where the run's end cuts none off.
fn are_numbered_right(past: &Past, c: u64) -> bool
    ensures { result ≡ are_numbered_right (plan_of past.now) (record_of past.now) c }
{
    let mut rest = past.entries;
    'entries: while let Some((entry, before)) = rest.split_first() {
        if let Entry::Got(Event::Arrived(s, i, number, peer)) = entry
            && !is_numbered_right(past, c, u64::from(*s), u64::from(*i), *number, *peer)
        {
            return false;
        }
        rest = before;
    }
    true
}

/// The same, by the entries on it.
fn is_number_right(past: &Past, chains: &Chains, c: u64) -> bool
    requires { IsChains chains.now (record_of past.now) }
    ensures { result ≡ is_number_right (plan_of past.now) (record_of past.now) c }
{
    are_numbered_right(&along(past, chains.of(c)), c)
}

/// The same, of the connections that the last event and what was told since are of.
fn are_touched_right(past: &Past, chains: &Chains) -> bool
    requires { IsChains chains.now (record_of past.now) }
    ensures { result ≡ list_all (is_number_right (plan_of past.now) (record_of past.now)) (touched_numbers (record_of past.now)) }
{
    let mut rest = past.entries;
    'entries: while let Some((entry, before)) = rest.split_first() {
        if let Some(c) = number_at(entry)
            && !is_number_right(past, chains, c)
        {
            return false;
        }
        if let Entry::Got(_) = entry {
            return true;
        }
        rest = before;
    }
    true
}

/// Each connection that is touched is right.
pub(crate) fn connections_kept(past: &Past, chains: &Chains) -> bool
    requires past { IsPast past.now }
    requires chains { IsChains chains.now (record_of past.now) }
    ensures { result ≡ connections_kept (plan_of past.now) (record_of past.now) }
{
    if chains.goes_on() {
        are_touched_right(past, chains)
    } else {
        anew::connections_kept(past)
    }
}

/// What the event asks of the entries on its connection.
fn is_alone_right(entry: &Entry, entries: &[Entry]) -> bool
    ensures { result ≡ alone_fits entry.now entries.now }
{
    match entry {
        Entry::Got(Event::Arrived(_, _, c, _)) => {
            !has(Query::Answer(Answer::Arrival(*c)), entries)
        }
        Entry::Got(Event::Set(c, _)) => is_open(Ask::Settings(*c), entries),
        Entry::Got(Event::Shaken(c, _)) => is_open(Ask::Handshake(*c), entries),
        Entry::Got(Event::Finished(c)) => {
            has(Query::Deed(Deed::Serve(*c)), entries) && is_live_connection(entries, *c)
        }
        _ => true,
    }
}

/// The same, by the chains.
pub(crate) fn alone_fits(entry: &Entry, chains: &Chains) -> bool
    requires { 0 < length chains.now.parts }
    ensures { (q : Record) → IsChains chains.now q → result ≡ alone_fits entry.now q }
{
    match number_at(entry) {
        Some(c) => is_alone_right(entry, chains.of(c)),
        None => true,
    }
}

/// A connection has arrived.
pub(crate) fn has_arrived(chains: &Chains, c: u64) -> bool
    requires { 0 < length chains.now.parts }
    ensures { (q : Record) → IsChains chains.now q → result ≡ has (is_arrival c) q }
{
    has(Query::Answer(Answer::Arrival(c)), chains.of(c))
}

/// A loop that rests is of an endpoint of the plan, and what is told of a connection is of one that has
/// arrived.
pub(crate) fn connection_known(entry: &Entry, before: &Past, chains: &Chains) -> bool
    requires { IsChains chains.now (record_of before.now) }
    ensures { result ≡ connection_known (plan_of before.now) entry.now (record_of before.now) }
{
    match entry {
        Entry::Told(Action::Rest(s, i)) => {
            is_endpoint(before.plan, u64::from(*s), u64::from(*i))
        }
        Entry::Told(
            Action::Judged(c, _)
            | Action::Refuse(c)
            | Action::Settings(c, _)
            | Action::Handshake(c)
            | Action::Serve(c)
            | Action::Drop(c)
            | Action::Cut(c),
        ) => has_arrived(chains, *c),
        _ => true,
    }
}
