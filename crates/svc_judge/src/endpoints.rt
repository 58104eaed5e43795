//! Which endpoints are held, and which wait.

ghost use Rattle.std.specs.Prelude.{◌≡◌, ◌==◌, ◌&&◌, ◌||◌, not, map, filter, true};
ghost use Rattle.std.specs.Option.{option_copied, option_to_list};
ghost use Rattle.svc_record.specs.declared.entry.Entry.TheVariants.{Told};
ghost use Rattle.svc_record.specs.Record.{has};
ghost use Rattle.svc_record.specs.Plans.{endpoint_numbers, address, same_address};
ghost use Rattle.svc_record.specs.Descriptors.{Descriptor, has_live, live_numbers_with};
ghost use Rattle.svc_record.specs.Asks.{last_adopt, is_ask_open};
ghost use Rattle.svc_record.specs.Endpoints.{is_held, is_held_by, holds, is_at_work, rests, is_busy, is_busy_elsewhere, waits_at, first_missing, waits, serves, endpoint_right, endpoint_right_late, endpoints_right, endpoints_right_late};
ghost use Rattle.svc_record.specs.AskRules.{has_turn, ask_due, ask_known};
ghost use Rattle.svc_judge.specs.Pasts.{IsPast, plan_of, record_of};
ghost use Rattle.svc_judge.specs.Facts.{is_unclosed};
ghost use Rattle.svc_judge.specs.Holding.{is_some_number, is_taken, lets_hold, lets_hold_by};
ghost use Rattle.svc_judge.specs.Steps.{is_any_busy, is_busy_in, is_worked_on_in, bind_due, adopt_due};
ghost use Rattle.std.specs.List.{list_all, list_any, find, range_with_len};

use crate::descriptors::{count_live_with, has_live, is_live_with, is_unclosed};
use crate::failed::{has_failed, is_started};
use crate::looking::{in_use_within, is_open, now};
use crate::past::{Opened, Past, Split};
use crate::plans::{address, endpoint_count, is_endpoint, same_address, service_count};
use crate::query::{Ask, is_pair};
use svc_record::{Action, Entry, Event};

/// The descriptor of the newest `Adopt` of the endpoint.
pub(crate) fn last_adopt(entries: &[Entry], s: u64, i: u64) -> Option<u64>
    ensures { option_to_list result ≡ last_adopt entries.now s i }
{
    let mut rest = entries;
    'entries: while let Some((entry, before)) = rest.split_first() {
        if let Entry::Told(Action::Adopt(t, j, fd)) = entry
            && is_pair(*t, *j, s, i)
        {
            return Some(*fd);
        }
        rest = before;
    }
    None
}

/// An ask of the endpoint is open.
pub(crate) fn is_ask_open(entries: &[Entry], s: u64, i: u64) -> bool
    ensures { result ≡ is_ask_open entries.now s i }
{
    is_open(Ask::Bind(s, i), entries) || is_open(Ask::Adopt(s, i), entries)
}

/// There was an `Adopt` of the endpoint.
fn has_adopt(entries: &[Entry], s: u64, i: u64) -> bool
    ensures { result ≡ is_some_number (last_adopt entries.now s i) }
{
    match last_adopt(entries, s, i) {
        Some(_) => true,
        None => false,
    }
}

/// The newest `Adopt` of the endpoint is of this descriptor.
pub(crate) fn is_adopted(entries: &[Entry], s: u64, i: u64, fd: u64) -> bool
    ensures { result ≡ list_any (λ n. n == fd) (last_adopt entries.now s i) }
{
    match last_adopt(entries, s, i) {
        Some(number) => number == fd,
        None => false,
    }
}

/// A bind of this endpoint lets the other one be held: it is the same one, and no live descriptor has its
/// address.
fn binds(before: &Past, t: u64, j: u64, s: u64, i: u64) -> bool
    requires { IsPast before.now }
    ensures { result ≡ ((t == s && j == i) && not (has_live (plan_of before.now) (record_of before.now) (address (plan_of before.now) t j))) }
{
    t == s && j == i && !has_live(before, address(before.plan, t, j))
}

/// By the entry some descriptor holds the endpoint.
fn lets_hold(entry: &Entry, before: &Past, s: u64, i: u64) -> bool
    requires { IsPast before.now }
    ensures { result ≡ lets_hold (plan_of before.now) s i entry.now (record_of before.now) }
{
    match entry {
        Entry::Got(Event::Bound(t, j, _)) => binds(before, u64::from(*t), u64::from(*j), s, i),
        Entry::Got(Event::Adopted(t, j)) => {
            is_pair(*t, *j, s, i) && has_adopt(before.entries, s, i)
        }
        _ => false,
    }
}

/// By the entry this descriptor holds it.
fn lets_hold_by(entry: &Entry, before: &Past, s: u64, i: u64, fd: u64) -> bool
    requires { IsPast before.now }
    ensures { result ≡ lets_hold_by (plan_of before.now) s i fd entry.now (record_of before.now) }
{
    match entry {
        Entry::Got(Event::Bound(t, j, number)) => {
            binds(before, u64::from(*t), u64::from(*j), s, i) && *number == fd
        }
        Entry::Got(Event::Adopted(t, j)) => {
            is_pair(*t, *j, s, i) && is_adopted(before.entries, s, i, fd)
        }
        _ => false,
    }
}

/// A bind or an adoption of the endpoint ended well.
fn is_taken(s: u64, i: u64, entry: &Entry) -> bool
    ensures { result ≡ is_taken s i entry.now }
{
    match entry {
        Entry::Got(Event::Bound(t, j, _) | Event::Adopted(t, j)) => is_pair(*t, *j, s, i),
        _ => false,
    }
}

/// Some bind or adoption of it did.
fn has_taken(entries: &[Entry], s: u64, i: u64) -> bool
    ensures { result ≡ has (is_taken s i) entries.now }
{
    let mut rest = entries;
    'entries: while let Some((entry, before)) = rest.split_first() {
        if is_taken(s, i, entry) {
            return true;
        }
        rest = before;
    }
    false
}

/// Some descriptor holds the endpoint, where first it is looked whether any bind or adoption of it ended well.
#[tactic(auto, using(crate::proofs::EndpointLemmas::never_taken))]
pub(crate) fn is_held(past: &Past, s: u64, i: u64) -> bool
    requires { IsPast past.now }
    ensures { result ≡ is_held (plan_of past.now) (record_of past.now) s i }
{
    if !has_taken(past.entries, s, i) {
        return false;
    }
    is_held_at(past, s, i)
}

/// Some descriptor holds the endpoint.
#[tactic(auto, using(crate::proofs::EndpointLemmas::held_step))]
fn is_held_at(past: &Past, s: u64, i: u64) -> bool
    requires { IsPast past.now }
    ensures { result ≡ is_held (plan_of past.now) (record_of past.now) s i }
{
    let mut rest = *past;
    'entries: while let Some(
        Split {
            entry,
            news: _,
            before,
        },
    ) = rest.split()
    {
        if lets_hold(entry, &before, s, i) {
            return true;
        }
        rest = before;
    }
    false
}

/// This descriptor holds it.
#[tactic(auto, using(crate::proofs::EndpointLemmas::held_by_step))]
pub(crate) fn is_held_by(past: &Past, s: u64, i: u64, fd: u64) -> bool
    requires { IsPast past.now }
    ensures { result ≡ is_held_by (plan_of past.now) (record_of past.now) s i fd }
{
    let mut rest = *past;
    'entries: while let Some(
        Split {
            entry,
            news: _,
            before,
        },
    ) = rest.split()
    {
        if lets_hold_by(entry, &before, s, i, fd) {
            return true;
        }
        rest = before;
    }
    false
}

/// Some of the descriptors with its address that aren't closed holds the endpoint.
fn is_held_by_any(past: &Past, s: u64, i: u64, opened: &[Opened], address: Option<&str>) -> bool
    requires { IsPast past.now }
    ensures { result ≡ list_any (is_held_by (plan_of past.now) (record_of past.now) s i) (map (λ (d : Descriptor). d.number)
        (filter (is_unclosed (record_of past.now)) (filter (λ (d : Descriptor). same_address d.address (option_copied address.entry)) opened.now))) }
{
    opened
        .iter()
        .filter(|one| same_address(one.address(), address))
        .filter(|one| is_unclosed(past.entries, one))
        .map(|one| one.number())
        .any(|number| is_held_by(past, s, i, number))
}

/// Some live descriptor with its address holds the endpoint.
fn is_held_live(past: &Past, s: u64, i: u64, address: Option<&str>) -> bool
    requires { IsPast past.now }
    ensures { result ≡ list_any (is_held_by (plan_of past.now) (record_of past.now) s i)
        (live_numbers_with (plan_of past.now) (record_of past.now) (option_copied address.entry)) }
{
    is_held_by_any(past, s, i, past.opened, address)
}

/// It is held by the one live descriptor with its address.
#[tactic(auto, using(crate::proofs::EndpointLemmas::held_by_one))]
fn holds(past: &Past, s: u64, i: u64) -> bool
    requires { IsPast past.now }
    ensures { result ≡ holds (plan_of past.now) (record_of past.now) s i }
{
    let address = address(past.plan, s, i);
    count_live_with(past, address) == 1 && is_held_live(past, s, i, address)
}

/// The service is started and hasn't failed.
pub(crate) fn is_at_work(past: &Past, s: u64) -> bool
    requires { IsPast past.now }
    ensures { result ≡ is_at_work (plan_of past.now) (record_of past.now) s }
{
    is_started(past.entries, s) && !has_failed(past, s)
}

/// Its last bind found the address in use under 1,000 ms ago; it isn't held, its service hasn't failed,
/// and no live descriptor has the address.
fn rests(past: &Past, s: u64, i: u64) -> bool
    requires { IsPast past.now }
    ensures { result ≡ rests (plan_of past.now) (record_of past.now) s i }
{
    !has_failed(past, s)
        && !is_held(past, s, i)
        && in_use_within(now(past.entries), past.entries, s, i)
        && !has_live(past, address(past.plan, s, i))
}

/// An ask of the endpoint is open, or it rests.
pub(crate) fn is_busy(past: &Past, s: u64, i: u64) -> bool
    requires { IsPast past.now }
    ensures { result ≡ is_busy (plan_of past.now) (record_of past.now) s i }
{
    is_ask_open(past.entries, s, i) || rests(past, s, i)
}

/// An endpoint of the service with this address is busy.
fn is_busy_in(past: &Past, t: u64, address: Option<&str>) -> bool
    requires { IsPast past.now }
    ensures { result ≡ is_busy_in (plan_of past.now) (record_of past.now) t (option_copied address.entry) }
{
    (0..endpoint_count(past.plan, t)).any(|k| same_address(self::address(past.plan, t, k), address)
        && is_busy(past, t, k))
}

/// An endpoint with this address is busy.
pub(crate) fn is_any_busy(past: &Past, address: Option<&str>) -> bool
    requires { IsPast past.now }
    ensures { result ≡ is_any_busy (plan_of past.now) (record_of past.now) (option_copied address.entry) }
{
    (0..service_count(past.plan)).any(|t| is_busy_in(past, t, address))
}

/// The endpoint is of a service at work, and busy.
fn is_worked_on(past: &Past, t: u64, k: u64) -> bool
    requires { IsPast past.now }
    ensures { result ≡ (is_at_work (plan_of past.now) (record_of past.now) t && is_busy (plan_of past.now) (record_of past.now) t k) }
{
    is_at_work(past, t) && is_busy(past, t, k)
}

/// An endpoint of the service with this address is busy, and the service is at work.
fn is_worked_on_in(past: &Past, t: u64, address: Option<&str>) -> bool
    requires { IsPast past.now }
    ensures { result ≡ is_worked_on_in (plan_of past.now) (record_of past.now) t (option_copied address.entry) }
{
    (0..endpoint_count(past.plan, t)).any(|k| same_address(self::address(past.plan, t, k), address)
        && is_worked_on(past, t, k))
}

/// An endpoint with this address, of a service at work, is busy.
fn is_busy_elsewhere(past: &Past, address: Option<&str>) -> bool
    requires { IsPast past.now }
    ensures { result ≡ is_busy_elsewhere (plan_of past.now) (record_of past.now) (option_copied address.entry) }
{
    (0..service_count(past.plan)).any(|t| is_worked_on_in(past, t, address))
}

/// What the service's first endpoint that isn't held waits for.
fn waits_at(past: &Past, s: u64, j: u64) -> bool
    requires { IsPast past.now }
    ensures { result ≡ waits_at (plan_of past.now) (record_of past.now) s j }
{
    let address = address(past.plan, s, j);
    is_busy(past, s, j) || (!has_live(past, address) && is_busy_elsewhere(past, address))
}

/// The first of the service's endpoints that is found not to be held.
fn first_unheld(past: &Past, s: u64) -> Option<u64>
    requires { IsPast past.now }
    ensures { result ≡ find (λ i. not (is_held (plan_of past.now) (record_of past.now) s i)) (endpoint_numbers (plan_of past.now) s) }
{
    (0..endpoint_count(past.plan, s)).find(|i| !is_held(past, s, *i))
}

/// The first of the service's endpoints that isn't held.
fn first_missing(past: &Past, s: u64) -> Option<u64>
    requires { IsPast past.now }
    ensures { result ≡ first_missing (plan_of past.now) (record_of past.now) s (endpoint_numbers (plan_of past.now) s) }
{
    first_unheld(past, s)
}

/// The service's first endpoint that isn't held is this one or an earlier one, and waits.
fn waits(past: &Past, s: u64, i: u64) -> bool
    requires { IsPast past.now }
    ensures { result ≡ waits (plan_of past.now) (record_of past.now) s i }
{
    match first_missing(past, s) {
        Some(j) => j <= i && waits_at(past, s, j),
        None => false,
    }
}

/// The endpoints with numbers below this one are seen to be held by one walk, if the last of them was taken last, and so on.
fn are_held_in_turn(past: &Past, s: u64, count: u64) -> bool
    requires { IsPast past.now }
    ensures { result ≡ true → list_all (is_held (plan_of past.now) (record_of past.now) s) (range_with_len 0 count) ≡ true }
{
    let mut rest = *past;
    let mut left = count;
    'entries: while let Some(
        Split {
            entry,
            news: _,
            before,
        },
    ) = rest.split()
    {
        if left == 0 {
            return true;
        }
        if lets_hold(entry, &before, s, left - 1) {
            left -= 1;
        }
        rest = before;
    }
    left == 0
}

/// The endpoints with numbers below this one are held, each looked for by itself.
fn are_held_each(past: &Past, s: u64, count: u64) -> bool
    requires { IsPast past.now }
    ensures { result ≡ list_all (is_held (plan_of past.now) (record_of past.now) s) (range_with_len 0 count) }
{
    (0..count).all(|i| is_held(past, s, i))
}

/// The endpoints with numbers below this one are held.
fn are_held_below(past: &Past, s: u64, count: u64) -> bool
    requires { IsPast past.now }
    ensures { result ≡ list_all (is_held (plan_of past.now) (record_of past.now) s) (range_with_len 0 count) }
{
    are_held_in_turn(past, s, count) || are_held_each(past, s, count)
}

/// The service is at work, and all its endpoints are held.
pub(crate) fn serves(past: &Past, s: u64) -> bool
    requires { IsPast past.now }
    ensures { result ≡ serves (plan_of past.now) (record_of past.now) s }
{
    is_at_work(past, s) && are_held_below(past, s, endpoint_count(past.plan, s))
}

/// Each endpoint of the service holds or waits.
fn all_hold(past: &Past, s: u64) -> bool
    requires { IsPast past.now }
    ensures { result ≡ list_all (λ i. holds (plan_of past.now) (record_of past.now) s i || waits (plan_of past.now) (record_of past.now) s i)
        (endpoint_numbers (plan_of past.now) s) }
{
    (0..endpoint_count(past.plan, s)).all(|i| holds(past, s, i) || waits(past, s, i))
}

/// The same after the signal, where what is held need not be live.
fn all_held(past: &Past, s: u64) -> bool
    requires { IsPast past.now }
    ensures { result ≡ list_all (λ i. is_held (plan_of past.now) (record_of past.now) s i || waits (plan_of past.now) (record_of past.now) s i)
        (endpoint_numbers (plan_of past.now) s) }
{
    (0..endpoint_count(past.plan, s)).all(|i| is_held(past, s, i) || waits(past, s, i))
}

/// Each endpoint of the service holds or waits, where the service is at work.
#[tactic(auto, using(crate::proofs::EndsLemmas::right_at_once))]
pub(crate) fn are_right(past: &Past, s: u64) -> bool
    requires { IsPast past.now }
    ensures { result ≡ list_all (endpoint_right (plan_of past.now) (record_of past.now) s) (endpoint_numbers (plan_of past.now) s) }
{
    !is_at_work(past, s) || all_hold(past, s)
}

/// The same after the signal.
#[tactic(auto, using(crate::proofs::EndsLemmas::late_at_once))]
pub(crate) fn are_right_late(past: &Past, s: u64) -> bool
    requires { IsPast past.now }
    ensures { result ≡ list_all (endpoint_right_late (plan_of past.now) (record_of past.now) s) (endpoint_numbers (plan_of past.now) s) }
{
    !is_at_work(past, s) || all_held(past, s)
}

/// Each endpoint of a service at work holds or waits.
pub(crate) fn endpoints_right(past: &Past) -> bool
    requires { IsPast past.now }
    ensures { result ≡ endpoints_right (plan_of past.now) (record_of past.now) }
{
    (0..service_count(past.plan)).all(|s| are_right(past, s))
}

/// The same after the signal.
pub(crate) fn endpoints_right_late(past: &Past) -> bool
    requires { IsPast past.now }
    ensures { result ≡ endpoints_right_late (plan_of past.now) (record_of past.now) }
{
    (0..service_count(past.plan)).all(|s| are_right_late(past, s))
}

/// It is the endpoint's turn: its service is at work, the earlier endpoints are held, it isn't, and no ask
/// of it is open.
fn has_turn(past: &Past, s: u64, i: u64) -> bool
    requires { IsPast past.now }
    ensures { result ≡ has_turn (plan_of past.now) (record_of past.now) s i }
{
    is_endpoint(past.plan, s, i)
        && is_at_work(past, s)
        && are_held_below(past, s, i)
        && (!is_held(past, s, i) && !is_ask_open(past.entries, s, i))
}

/// A bind of the endpoint is due.
fn bind_due(past: &Past, s: u64, i: u64) -> bool
    requires { IsPast past.now }
    ensures { result ≡ bind_due (plan_of past.now) (record_of past.now) s i }
{
    let address = address(past.plan, s, i);
    has_turn(past, s, i) && !has_live(past, address) && !is_any_busy(past, address)
}

/// An adoption of the descriptor for the endpoint is due.
fn adopt_due(past: &Past, s: u64, i: u64, fd: u64) -> bool
    requires { IsPast past.now }
    ensures { result ≡ adopt_due (plan_of past.now) (record_of past.now) s i fd }
{
    has_turn(past, s, i) && is_live_with(past, address(past.plan, s, i), fd)
}

/// The action is told in its turn, if it binds an endpoint or offers it a descriptor.
fn is_action_due(action: &Action, before: &Past) -> bool
    requires { IsPast before.now }
    ensures { result ≡ ask_due (plan_of before.now) (Told action.now) (record_of before.now) }
{
    match action {
        Action::Bind(s, i) => bind_due(before, u64::from(*s), u64::from(*i)),
        Action::Adopt(s, i, fd) => adopt_due(before, u64::from(*s), u64::from(*i), *fd),
        _ => true,
    }
}

/// An endpoint is bound in its turn, where no live descriptor has its address and no endpoint with it is
/// busy; and it is offered a live descriptor of its address in its turn.
pub(crate) fn ask_due(entry: &Entry, before: &Past) -> bool
    requires { IsPast before.now }
    ensures { result ≡ ask_due (plan_of before.now) entry.now (record_of before.now) }
{
    match entry {
        Entry::Told(action) => is_action_due(action, before),
        Entry::Got(_) => true,
    }
}

/// What is given up is a service of the plan, and what is bound or offered a descriptor an endpoint of it.
pub(crate) fn ask_known(entry: &Entry, before: &Past) -> bool
    ensures { result ≡ ask_known (plan_of before.now) entry.now (record_of before.now) }
{
    match entry {
        Entry::Told(Action::Fail(s)) => u64::from(*s) < service_count(before.plan),
        Entry::Told(Action::Bind(s, i)) => is_endpoint(before.plan, u64::from(*s), u64::from(*i)),
        Entry::Told(Action::Adopt(s, i, _)) => {
            is_endpoint(before.plan, u64::from(*s), u64::from(*i))
        }
        _ => true,
    }
}
