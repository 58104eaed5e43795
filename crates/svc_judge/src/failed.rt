//! Which services have failed, which are started, and which are due.

ghost use Rattle.std.specs.Prelude.{◌≡◌, ◌==◌, nat_le};
ghost use Rattle.std.specs.List.{list_all};
ghost use Rattle.svc_record.specs.Failed.{is_in_use, in_use_count, in_use_limit, has_failed};
ghost use Rattle.svc_record.specs.Starts.{is_started, is_ready, is_due, start_due, start_right, starts_right, start_known};
ghost use Rattle.svc_record.specs.AskRules.{fails_right};
ghost use Rattle.svc_record.specs.Record.{has, times};
ghost use Rattle.svc_judge.specs.Steps.{fail_right, is_met, is_trouble};
ghost use Rattle.svc_judge.specs.Pasts.{IsPast, plan_of, record_of};

use crate::descriptors::has_live;
use crate::looking::{has, times};
use crate::past::{Past, Split};
use crate::plans::{address, depends, endpoint_count, has_kind, in_use_limit, service_count};
use crate::query::{Answer, Deed, Order, Query, is_pair};
use svc_graph::Kind;
use svc_record::{Action, Entry, Event};

/// How many answers `InUse` came for the endpoint before which no live descriptor had its address.
pub(crate) fn in_use_count(past: &Past, s: u64, i: u64) -> u64
    requires { IsPast past.now }
    ensures { result ≡ in_use_count (plan_of past.now) (record_of past.now) s i }
{
    let _most = past.entries.len();
    let mut rest = *past;
    let mut count = 0;
    'entries: while let Some(
        Split {
            entry,
            news: _,
            before,
        },
    ) = rest.split()
    {
        if let Entry::Got(Event::InUse(t, j)) = entry
            && is_pair(*t, *j, s, i)
            && !has_live(&before, address(before.plan, s, i))
        {
            count += 1;
        }
        rest = before;
    }
    count
}

/// The event is that the endpoint's address is in use.
fn is_in_use(s: u64, i: u64, entry: &Entry) -> bool
    ensures { result ≡ is_in_use s i entry.now }
{
    match entry {
        Entry::Got(Event::InUse(t, j)) => is_pair(*t, *j, s, i),
        _ => false,
    }
}

/// How often the endpoint's address was in use.
fn times_in_use(entries: &[Entry], s: u64, i: u64) -> u64
    ensures { result ≡ times (is_in_use s i) entries.now }
{
    let _most = entries.len();
    let mut rest = entries;
    let mut count = 0;
    'entries: while let Some((entry, before)) = rest.split_first() {
        if is_in_use(s, i, entry) {
            count += 1;
        }
        rest = before;
    }
    count
}

/// The endpoint's address was in use too often. It is first looked whether it was in use so often at all, since that asks for no descriptors.
fn is_in_use_often(past: &Past, s: u64, i: u64) -> bool
    requires { IsPast past.now }
    ensures { result ≡ nat_le (in_use_limit (plan_of past.now) s i) (in_use_count (plan_of past.now) (record_of past.now) s i) }
{
    let limit = in_use_limit(past.plan, s, i);
    limit <= times_in_use(past.entries, s, i) && limit <= in_use_count(past, s, i)
}

/// The address of an endpoint of the service is in use, or a bind or an adoption of one failed.
fn is_trouble(s: u64, entry: &Entry) -> bool
    ensures { result ≡ is_trouble s entry.now }
{
    match entry {
        Entry::Got(Event::InUse(t, _) | Event::BindFailed(t, _) | Event::AdoptFailed(t, _)) =>
            u64::from(*t) == s,
        _ => false,
    }
}

/// An address of the service was in use, or a bind or an adoption of one failed.
fn has_trouble(entries: &[Entry], s: u64) -> bool
    ensures { result ≡ has (is_trouble s) entries.now }
{
    let mut rest = entries;
    'entries: while let Some((entry, before)) = rest.split_first() {
        if is_trouble(s, entry) {
            return true;
        }
        rest = before;
    }
    false
}

/// Some endpoint of the service couldn't be bound or adopted, or was in use too often, by a walk for each endpoint.
fn has_failed_at(past: &Past, s: u64) -> bool
    requires { IsPast past.now }
    ensures { result ≡ has_failed (plan_of past.now) (record_of past.now) s }
{
    (0..endpoint_count(past.plan, s)).any(|i| has(
        Query::Answer(Answer::Failure(s, i)),
        past.entries,
    ) || is_in_use_often(past, s, i))
}

/// The same, where first one walk for all of them looks whether any could have failed.
#[tactic(auto, using(crate::proofs::FailLemmas::untroubled))]
pub(crate) fn has_failed(past: &Past, s: u64) -> bool
    requires { IsPast past.now }
    ensures { result ≡ has_failed (plan_of past.now) (record_of past.now) s }
{
    if !has_trouble(past.entries, s) {
        return false;
    }
    has_failed_at(past, s)
}

/// The service was started.
pub(crate) fn is_started(entries: &[Entry], s: u64) -> bool
    ensures { result ≡ is_started entries.now s }
{
    has(Query::Deed(Deed::Start(s)), entries)
}

/// Its word came, or its work is done, or it has failed, or it is started and plain, or it is started,
/// bootstraps, and bootstrapping is complete.
fn is_ready(past: &Past, s: u64) -> bool
    requires { IsPast past.now }
    ensures { result ≡ is_ready (plan_of past.now) (record_of past.now) s }
{
    has(Query::Answer(Answer::Ready(s)), past.entries)
        || has(Query::Answer(Answer::Ended(s)), past.entries)
        || has_failed(past, s)
        || (is_started(past.entries, s)
            && (has_kind(past.plan, Kind::Plain, s)
                || (has_kind(past.plan, Kind::Bootstrap, s)
                    && has(Query::Order(Order::BootstrapComplete), past.entries))))
}

/// The service on which another depends is ready.
fn is_met(past: &Past, s: u64) -> bool
    requires { IsPast past.now }
    ensures { result ≡ is_met (plan_of past.now) (record_of past.now) s }
{
    is_ready(past, s)
}

/// Each of these services is ready.
fn are_met(past: &Past, numbers: &[u32]) -> bool
    requires { IsPast past.now }
    ensures { result ≡ list_all (is_met (plan_of past.now) (record_of past.now)) numbers.now }
{
    let mut rest = numbers;
    'services: while let Some((s, more)) = rest.split_first() {
        if !is_met(past, u64::from(*s)) {
            return false;
        }
        rest = more;
    }
    true
}

/// Every dependency of the service is ready.
pub(crate) fn is_due(past: &Past, s: u64) -> bool
    requires { IsPast past.now }
    ensures { result ≡ is_due (plan_of past.now) (record_of past.now) s }
{
    are_met(past, depends(past.plan, s))
}

/// A service starts once, and after its dependencies are ready.
pub(crate) fn start_due(entry: &Entry, before: &Past) -> bool
    requires { IsPast before.now }
    ensures { result ≡ start_due (plan_of before.now) entry.now (record_of before.now) }
{
    match entry {
        Entry::Told(Action::Start(s)) => {
            !is_started(before.entries, u64::from(*s)) && is_due(before, u64::from(*s))
        }
        _ => true,
    }
}

/// A start is of a service of the plan.
pub(crate) fn start_known(entry: &Entry, before: &Past) -> bool
    ensures { result ≡ start_known (plan_of before.now) entry.now (record_of before.now) }
{
    match entry {
        Entry::Told(Action::Start(s)) => u64::from(*s) < service_count(before.plan),
        _ => true,
    }
}

/// The service is started once where it is due, and not at all elsewhere.
pub(crate) fn start_right(past: &Past, s: u64) -> bool
    requires { IsPast past.now }
    ensures { result ≡ start_right (plan_of past.now) (record_of past.now) s }
{
    times(Query::Deed(Deed::Start(s)), past.entries) == if is_due(past, s) { 1 } else { 0 }
}

/// Each service is started exactly where it is due.
pub(crate) fn starts_right(past: &Past) -> bool
    requires { IsPast past.now }
    ensures { result ≡ starts_right (plan_of past.now) (record_of past.now) }
{
    (0..service_count(past.plan)).all(|s| start_right(past, s))
}

/// The service was given up once if it has failed, else not at all.
fn fail_right(past: &Past, s: u64) -> bool
    requires { IsPast past.now }
    ensures { result ≡ fail_right (plan_of past.now) (record_of past.now) s }
{
    times(Query::Deed(Deed::Fail(s)), past.entries) == if has_failed(past, s) { 1 } else { 0 }
}

/// Each service that has failed was given up once, and no other.
pub(crate) fn fails_right(past: &Past) -> bool
    requires { IsPast past.now }
    ensures { result ≡ fails_right (plan_of past.now) (record_of past.now) }
{
    (0..service_count(past.plan)).all(|s| fail_right(past, s))
}
