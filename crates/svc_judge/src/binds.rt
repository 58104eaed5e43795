//! Whether a bind that ended well, and the one of the service's next endpoint, leave all else that is asked of a record.

ghost use Rattle.std.specs.Prelude.{◌≡◌, ◌∷◌};
ghost use Rattle.std.specs.List.{list_all};
ghost use Rattle.std.specs.Option.{option_copied};
ghost use Rattle.svc_record.specs.Plans.{endpoint_numbers};
ghost use Rattle.svc_judge.specs.Pasts.{IsPast, plan_of, record_of};
ghost use Rattle.svc_judge.specs.Binds.{is_far, is_alone, names_it, has_own_address, is_free, binds_well, is_next_bound, is_well_bound};

use crate::boot::may_begin;
use crate::descriptors::has_live;
use crate::failed::has_failed;
use crate::looking::has;
use crate::past::{Past, Split};
use crate::plans::{address, endpoint_count, names, same_address, service_count};
use crate::query::{Order, Query};
use svc_record::{Action, Entry, Event, Plan};

/// The endpoint is this one, or has another address.
fn is_far(plan: &Plan, s: u64, i: u64, t: u64, k: u64) -> bool
    ensures { result ≡ is_far plan.now s i t k }
{
    (s == t && i == k) || !same_address(address(plan, s, i), address(plan, t, k))
}

/// Each endpoint of the service is this one, or has another address.
fn are_far(plan: &Plan, s: u64, i: u64, t: u64) -> bool
    ensures { result ≡ list_all (is_far plan.now s i t) (endpoint_numbers plan.now t) }
{
    (0..endpoint_count(plan, t)).all(|k| is_far(plan, s, i, t, k))
}

/// No other endpoint has its address.
fn is_alone(plan: &Plan, s: u64, i: u64) -> bool
    ensures { result ≡ is_alone plan.now s i }
{
    (0..service_count(plan)).all(|t| are_far(plan, s, i, t))
}

/// The service names the address, if there is one.
fn names_it(plan: &Plan, s: u64, address: Option<&str>) -> bool
    ensures { result ≡ names_it plan.now s (option_copied address.entry) }
{
    match address {
        Some(address) => names(plan, s, address),
        None => true,
    }
}

/// The service is of the plan, and its endpoint has an address for itself.
fn has_own_address(plan: &Plan, s: u64, i: u64) -> bool
    ensures { result ≡ has_own_address plan.now s i }
{
    let own = address(plan, s, i);
    (s < service_count(plan) && (same_address(own, own) && names_it(plan, s, own)))
        && is_alone(plan, s, i)
}

/// The process may begin, nothing was broadcast, the service hasn't failed, and no live descriptor has the endpoint's
/// address.
fn is_free(past: &Past, s: u64, i: u64) -> bool
    requires { IsPast past.now }
    ensures { result ≡ is_free (plan_of past.now) (record_of past.now) s i }
{
    (may_begin(past) && !has(Query::Order(Order::Broadcast), past.entries))
        && (!has_failed(past, s) && !has_live(past, address(past.plan, s, i)))
}

/// Where the bind of the endpoint ends well, that leaves all else.
fn binds_well(past: &Past, s: u64, i: u64) -> bool
    requires { IsPast past.now }
    ensures { result ≡ binds_well (plan_of past.now) (record_of past.now) s i }
{
    has_own_address(past.plan, s, i) && is_free(past, s, i)
}

/// The entry is that the bind of the endpoint right before this one ended so.
fn is_bound_before(entry: &Entry, before: &Past, t: u64, j: u64) -> bool
    requires { IsPast before.now }
    ensures { result ≡ is_next_bound (plan_of before.now) t j (entry.now ∷ record_of before.now) }
{
    match entry {
        Entry::Got(Event::Bound(s, i, _)) => {
            (u64::from(*s) == t && u64::from(*i) + 1 == j)
                && binds_well(before, u64::from(*s), u64::from(*i))
        }
        _ => false,
    }
}

/// The last entry is.
fn is_next_bound(past: &Past, t: u64, j: u64) -> bool
    requires { IsPast past.now }
    ensures { result ≡ is_next_bound (plan_of past.now) t j (record_of past.now) }
{
    match past.split() {
        Some(
            Split {
                entry,
                news: _,
                before,
            },
        ) => is_bound_before(entry, &before, t, j),
        None => false,
    }
}

/// The entry is that a bind ended so, or the bind of the service's next endpoint behind that.
fn is_bound_at(entry: &Entry, before: &Past) -> bool
    requires { IsPast before.now }
    ensures { result ≡ is_well_bound (plan_of before.now) (entry.now ∷ record_of before.now) }
{
    match entry {
        Entry::Got(Event::Bound(s, i, _)) => {
            u64::from(*i) + 1 == endpoint_count(before.plan, u64::from(*s))
                && binds_well(before, u64::from(*s), u64::from(*i))
        }
        Entry::Told(Action::Bind(t, j)) => is_next_bound(before, u64::from(*t), u64::from(*j)),
        _ => false,
    }
}

/// The last event is that a bind ended so, and since then the bind of the service's next endpoint was told, if there is
/// one.
pub(crate) fn is_well_bound(past: &Past) -> bool
    requires { IsPast past.now }
    ensures { result ≡ is_well_bound (plan_of past.now) (record_of past.now) }
{
    match past.split() {
        Some(
            Split {
                entry,
                news: _,
                before,
            },
        ) => is_bound_at(entry, &before),
        None => false,
    }
}
