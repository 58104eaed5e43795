//! Which descriptors are gone, and so closed.

ghost use Rattle.std.specs.Prelude.{◌≡◌, ◌==◌, ◌&&◌, ◌||◌, not};
ghost use Rattle.std.specs.List.{list_any, list_all};
ghost use Rattle.std.specs.Option.{option_copied};
ghost use Rattle.svc_record.specs.Plans.{services, endpoint_numbers, names};
ghost use Rattle.svc_record.specs.Closes.{is_abandoned, is_received, ended_loops, have_loops_ended, is_adopt_of_open, is_holder, is_drained, is_address_unclaimed, is_address_abandoned, is_gone, close_right, closes_right, close_once};
ghost use Rattle.svc_record.specs.Right.{close_due};
ghost use Rattle.svc_judge.specs.Pasts.{IsPast, plan_of, record_of};
ghost use Rattle.svc_judge.specs.Steps.{has_holder, are_holders_done, is_closed_once, is_adopt_open_of, has_adopt_open, ends_loop, is_done_with};
ghost use Rattle.svc_record.specs.Descriptors.{address_of};
ghost use Rattle.svc_judge.specs.Closing.{close_kept};
ghost use Rattle.svc_record.specs.Offer.{is_held_back};
ghost use Rattle.svc_record.specs.Failed.{has_failed};

use crate::descriptors::{address_of, is_doubled, is_opened, is_received};
use crate::endpoints::{is_adopted, is_held_by, serves};
use crate::failed::has_failed;
use crate::looking::{has, is_open, times};
use crate::offer::is_held_back;
use crate::past::{Opened, Past, Split};
use crate::plans::{endpoint_count, is_unclaimed, names, service_count};
use crate::query::{Answer, Ask, Deed, Order, Query, is_pair};
use svc_record::{Action, Entry, Event};

/// Some service names the address.
fn is_named(past: &Past, address: &str) -> bool
    ensures { result ≡ list_any (λ s. names (plan_of past.now) s address.now) (services (plan_of past.now)) }
{
    (0..service_count(past.plan)).any(|s| names(past.plan, s, address))
}

/// The service has failed, or doesn't name the address.
fn is_lost_to(past: &Past, s: u64, address: &str) -> bool
    requires { IsPast past.now }
    ensures { result ≡ (not (names (plan_of past.now) s address.now) || has_failed (plan_of past.now) (record_of past.now) s) }
{
    !names(past.plan, s, address) || has_failed(past, s)
}

/// All services that name the address have failed.
fn is_lost(past: &Past, address: &str) -> bool
    requires { IsPast past.now }
    ensures { result ≡ list_all (λ s. not (names (plan_of past.now) s address.now) || has_failed (plan_of past.now) (record_of past.now) s)
        (services (plan_of past.now)) }
{
    (0..service_count(past.plan)).all(|s| is_lost_to(past, s, address))
}

/// Some service names the address, and all that name it have failed.
fn is_abandoned(past: &Past, address: &str) -> bool
    requires { IsPast past.now }
    ensures { result ≡ is_abandoned (plan_of past.now) (record_of past.now) address.now }
{
    is_named(past, address) && is_lost(past, address)
}

/// The entry is the first end of a loop of the endpoint.
fn ends_loop(entry: &Entry, before: &Past, s: u64, i: u64) -> bool
    ensures { result ≡ ends_loop (plan_of before.now) entry.now (record_of before.now) s i }
{
    match entry {
        Entry::Got(Event::LoopEnded(t, k, j)) => {
            is_pair(*t, *k, s, i)
                && *j < before.plan.tasks
                && !has(Query::Answer(Answer::LoopEnd(s, i, *j)), before.entries)
        }
        _ => false,
    }
}

/// How many loops of the endpoint have ended, each counted once.
#[tactic(auto, using(crate::proofs::LoopLemmas::ended_step))]
fn ended_loops(past: &Past, s: u64, i: u64) -> u64
    requires { IsPast past.now }
    ensures { result ≡ ended_loops (plan_of past.now) (record_of past.now) s i }
{
    let _most = past.entries.len();
    let mut rest = *past;
    let mut count = 0;
    'entries: while let Some(
        Split {
            entry,
            news: _,
            before,
        },
    ) = rest.split()
    {
        if ends_loop(entry, &before, s, i) {
            count += 1;
        }
        rest = before;
    }
    count
}

/// Each loop of the endpoint has ended.
pub(crate) fn have_loops_ended(past: &Past, s: u64, i: u64) -> bool
    requires { IsPast past.now }
    ensures { result ≡ have_loops_ended (plan_of past.now) (record_of past.now) s i }
{
    ended_loops(past, s, i) == past.plan.tasks
}

/// An `Adopt` of the descriptor for the endpoint is open.
fn is_adopt_open_of(past: &Past, s: u64, i: u64, fd: u64) -> bool
    ensures { result ≡ is_adopt_open_of (record_of past.now) s i fd }
{
    is_open(Ask::Adopt(s, i), past.entries) && is_adopted(past.entries, s, i, fd)
}

/// An `Adopt` of the descriptor for an endpoint of the service is open.
fn has_adopt_open(past: &Past, s: u64, fd: u64) -> bool
    ensures { result ≡ has_adopt_open (plan_of past.now) (record_of past.now) s fd }
{
    (0..endpoint_count(past.plan, s)).any(|i| is_adopt_open_of(past, s, i, fd))
}

/// An `Adopt` of the descriptor is open for an endpoint of a service.
fn has_any_adopt_open(past: &Past, fd: u64) -> bool
    ensures { result ≡ list_any (λ s. has_adopt_open (plan_of past.now) (record_of past.now) s fd) (services (plan_of past.now)) }
{
    (0..service_count(past.plan)).any(|s| has_adopt_open(past, s, fd))
}

/// An `Adopt` of the descriptor is open.
fn is_adopt_of_open(past: &Past, fd: u64) -> bool
    ensures { result ≡ is_adopt_of_open (plan_of past.now) (record_of past.now) fd }
{
    has_any_adopt_open(past, fd)
}

/// An endpoint of a service that hasn't failed holds the descriptor.
fn is_holder(past: &Past, fd: u64, s: u64, i: u64) -> bool
    requires { IsPast past.now }
    ensures { result ≡ is_holder (plan_of past.now) (record_of past.now) fd s i }
{
    !has_failed(past, s) && is_held_by(past, s, i, fd)
}

/// An endpoint of the service holds the descriptor.
fn has_holder_in(past: &Past, fd: u64, s: u64) -> bool
    requires { IsPast past.now }
    ensures { result ≡ list_any (is_holder (plan_of past.now) (record_of past.now) fd s) (endpoint_numbers (plan_of past.now) s) }
{
    (0..endpoint_count(past.plan, s)).any(|i| is_holder(past, fd, s, i))
}

/// Some endpoint holds the descriptor.
fn has_holder(past: &Past, fd: u64) -> bool
    requires { IsPast past.now }
    ensures { result ≡ has_holder (plan_of past.now) (record_of past.now) fd }
{
    (0..service_count(past.plan)).any(|s| has_holder_in(past, fd, s))
}

/// The endpoint is done with the descriptor, if it holds it.
fn is_done_with(past: &Past, fd: u64, s: u64, i: u64) -> bool
    requires { IsPast past.now }
    ensures { result ≡ is_done_with (plan_of past.now) (record_of past.now) fd s i }
{
    !is_holder(past, fd, s, i) || (serves(past, s) && have_loops_ended(past, s, i))
}

/// The service's endpoints are done with the descriptor.
fn are_done_in(past: &Past, fd: u64, s: u64) -> bool
    requires { IsPast past.now }
    ensures { result ≡ list_all (is_done_with (plan_of past.now) (record_of past.now) fd s) (endpoint_numbers (plan_of past.now) s) }
{
    (0..endpoint_count(past.plan, s)).all(|i| is_done_with(past, fd, s, i))
}

/// All that hold the descriptor are done with it.
fn are_holders_done(past: &Past, fd: u64) -> bool
    requires { IsPast past.now }
    ensures { result ≡ are_holders_done (plan_of past.now) (record_of past.now) fd }
{
    (0..service_count(past.plan)).all(|s| are_done_in(past, fd, s))
}

/// After the broadcast: some endpoint holds the descriptor, and all that do are done with it.
fn is_drained(past: &Past, fd: u64) -> bool
    requires { IsPast past.now }
    ensures { result ≡ is_drained (plan_of past.now) (record_of past.now) fd }
{
    has(Query::Order(Order::Broadcast), past.entries)
        && !is_adopt_of_open(past, fd)
        && has_holder(past, fd)
        && are_holders_done(past, fd)
}

/// There is an address, and no service claims it.
fn is_address_unclaimed(past: &Past, address: Option<&str>) -> bool
    ensures { result ≡ is_address_unclaimed (plan_of past.now) (option_copied address.entry) }
{
    match address {
        Some(address) => is_unclaimed(past.plan, address),
        None => false,
    }
}

/// There is an address, and it is abandoned.
fn is_address_abandoned(past: &Past, address: Option<&str>) -> bool
    requires { IsPast past.now }
    ensures { result ≡ is_address_abandoned (plan_of past.now) (record_of past.now) (option_copied address.entry) }
{
    match address {
        Some(address) => is_abandoned(past, address),
        None => false,
    }
}

/// It was received, and no service claims its address.
fn is_turned_away(past: &Past, fd: u64) -> bool
    requires { IsPast past.now }
    ensures { result ≡ (is_received (plan_of past.now) (record_of past.now) fd
        && is_address_unclaimed (plan_of past.now) (address_of (plan_of past.now) (record_of past.now) fd)) }
{
    is_received(past, fd) && is_address_unclaimed(past, address_of(past, fd))
}

/// Its address is abandoned, and it is no longer on offer.
fn is_given_up(past: &Past, fd: u64) -> bool
    requires { IsPast past.now }
    ensures { result ≡ (is_address_abandoned (plan_of past.now) (record_of past.now) (address_of (plan_of past.now) (record_of past.now) fd)
        && not (is_held_back (plan_of past.now) (record_of past.now) fd)) }
{
    is_address_abandoned(past, address_of(past, fd)) && !is_held_back(past, fd)
}

/// Received and unclaimed, or doubled, or abandoned and no longer on offer, or drained.
fn is_gone(past: &Past, fd: u64) -> bool
    requires { IsPast past.now }
    ensures { result ≡ is_gone (plan_of past.now) (record_of past.now) fd }
{
    is_turned_away(past, fd)
        || is_doubled(past, fd)
        || is_given_up(past, fd)
        || is_drained(past, fd)
}

/// The descriptor has one close if it is gone, else none.
fn close_right(past: &Past, fd: u64) -> bool
    requires { IsPast past.now }
    ensures { result ≡ close_right (plan_of past.now) (record_of past.now) fd }
{
    times(Query::Deed(Deed::Close(fd)), past.entries) == if is_gone(past, fd) { 1 } else { 0 }
}

/// The descriptor has one close if it is gone, else none.
fn is_close_kept(past: &Past, one: &Opened) -> bool
    requires { IsPast past.now }
    ensures { result ≡ close_kept (plan_of past.now) (record_of past.now) one.now }
{
    close_right(past, one.number())
}

/// Of these descriptors exactly what is gone has a close, and one.
fn are_closes_right(past: &Past, opened: &[Opened]) -> bool
    requires { IsPast past.now }
    ensures { result ≡ list_all (close_kept (plan_of past.now) (record_of past.now)) opened.now }
{
    opened.iter().all(|one| is_close_kept(past, one))
}

/// Of what was opened, exactly what is gone has a close, and one.
pub(crate) fn closes_right(past: &Past) -> bool
    requires { IsPast past.now }
    ensures { result ≡ closes_right (plan_of past.now) (record_of past.now) }
{
    are_closes_right(past, past.opened)
}

/// Each descriptor that was opened has one close.
pub(crate) fn is_closed_once(past: &Past) -> bool
    requires { IsPast past.now }
    ensures { result ≡ is_closed_once (plan_of past.now) (record_of past.now) }
{
    past.opened.iter().all(|opened| times(Query::Deed(Deed::Close(opened.number())), past.entries)
        == 1)
}

/// A close is of a descriptor that was opened before, and isn't closed yet.
pub(crate) fn close_once(entry: &Entry, before: &Past) -> bool
    requires { IsPast before.now }
    ensures { result ≡ close_once (plan_of before.now) entry.now (record_of before.now) }
{
    match entry {
        Entry::Told(Action::Close(fd)) => {
            is_opened(before, *fd) && !has(Query::Deed(Deed::Close(*fd)), before.entries)
        }
        _ => true,
    }
}

/// A close is of a descriptor that was opened before.
pub(crate) fn close_due(entry: &Entry, before: &Past) -> bool
    requires { IsPast before.now }
    ensures { result ≡ close_due (plan_of before.now) entry.now (record_of before.now) }
{
    match entry {
        Entry::Told(Action::Close(fd)) => is_opened(before, *fd),
        _ => true,
    }
}
