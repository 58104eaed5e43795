//! Whether words of services, their starts, binds and addresses in use alone came since the last step, and what of the
//! services is looked at anew then.

ghost use Rattle.std.specs.Prelude.{◌≡◌, ◌∷◌};
ghost use Rattle.std.specs.List.{list_all};
ghost use Rattle.svc_record.specs.declared.entry.Entry.TheVariants.{Got};
ghost use Rattle.svc_record.specs.Plans.{services};
ghost use Rattle.svc_record.specs.Starts.{is_start};
ghost use Rattle.svc_judge.specs.Pasts.{IsPast, plan_of, record_of};
ghost use Rattle.svc_judge.specs.Stirred.{is_in_run, stays_busy, is_stir, are_stirs, needs, stirs_start, has_new, is_start_kept, are_ends_kept, are_ends_kept_late, starts_stirred, ends_stirred, stirred_breach};

use crate::boot::runs;
use crate::endpoints::{are_right, are_right_late, is_at_work, is_busy};
use crate::failed::start_right;
use crate::judging::Rule;
use crate::looking::has;
use crate::past::{Past, Split};
use crate::plans::{depends, has_kind, service_count};
use crate::query::{Deed, Order, Query};
use crate::settled::in_service;
use svc_graph::Kind;
use svc_record::{Action, Entry, Event, Plan};

/// The run runs, and nothing was broadcast.
pub(crate) fn is_in_run(past: &Past) -> bool
    ensures { result ≡ is_in_run (plan_of past.now) (record_of past.now) }
{
    (runs(past) && has(Query::Order(Order::Running), past.entries))
        && !has(Query::Order(Order::Broadcast), past.entries)
}

/// The service is at work, and the endpoint busy.
fn stays_busy(past: &Past, s: u64, i: u64) -> bool
    requires { IsPast past.now }
    ensures { result ≡ stays_busy (plan_of past.now) (record_of past.now) s i }
{
    is_at_work(past, s) && is_busy(past, s, i)
}

/// The newest entry is the event, and that a word of a service, or an address in use of an endpoint that rests.
fn is_event_stir(past: &Past, event: &Event, entry: &Entry, before: &[Entry]) -> bool
    requires past { IsPast past.now }
    requires event { entry.now ≡ Got event.now }
    requires entry { record_of past.now ≡ entry.now ∷ before.now }
    ensures { result ≡ is_stir (plan_of past.now) entry.now before.now }
{
    match event {
        Event::Ready(_) | Event::Ended(_) => true,
        Event::InUse(s, i) => stays_busy(past, u64::from(*s), u64::from(*i)),
        _ => false,
    }
}

/// The newest entry is a word of a service, an address in use of an endpoint that rests, a bind, or a start of a
/// service that doesn't bootstrap.
fn is_stir(past: &Past, entry: &Entry, before: &[Entry]) -> bool
    requires past { IsPast past.now }
    requires entry { record_of past.now ≡ entry.now ∷ before.now }
    ensures { result ≡ is_stir (plan_of past.now) entry.now before.now }
{
    match entry {
        Entry::Got(event) => is_event_stir(past, event, entry, before),
        Entry::Told(Action::Start(s)) => !has_kind(past.plan, Kind::Bootstrap, u64::from(*s)),
        Entry::Told(Action::Bind(_, _)) => true,
        Entry::Told(_) => false,
    }
}

/// There is an event, and so are the last one and what was told since.
pub(crate) fn are_stirs(past: &Past) -> bool
    requires { IsPast past.now }
    ensures { result ≡ are_stirs (plan_of past.now) (record_of past.now) }
{
    let mut rest = *past;
    'entries: while let Some(
        Split {
            entry,
            news: _,
            before,
        },
    ) = rest.split()
    {
        if !is_stir(&rest, entry, before.entries) {
            return false;
        }
        if let Entry::Got(_) = entry {
            return true;
        }
        rest = before;
    }
    false
}

/// The service depends on the other one.
fn needs(plan: &Plan, s: u64, t: u32) -> bool
    ensures { result ≡ needs plan.now s t }
{
    depends(plan, s).iter().any(|d| t == *d)
}

/// By the entry the start of the service may be due, or is told.
fn stirs_start(plan: &Plan, s: u64, entry: &Entry) -> bool
    ensures { result ≡ stirs_start plan.now s entry.now }
{
    match entry {
        Entry::Got(Event::Ready(t) | Event::Ended(t)) => needs(plan, s, *t),
        Entry::Told(Action::Start(t)) => u64::from(*t) == s || needs(plan, s, *t),
        _ => false,
    }
}

/// The start of the service may be due, or was told, by the last event or what was told since.
fn is_start_stirred(plan: &Plan, s: u64, entries: &[Entry]) -> bool
    ensures { result ≡ has_new (stirs_start plan.now s) entries.now }
{
    let mut rest = entries;
    'entries: while let Some((entry, before)) = rest.split_first() {
        if stirs_start(plan, s, entry) {
            return true;
        }
        if let Entry::Got(_) = entry {
            return false;
        }
        rest = before;
    }
    false
}

/// The start of the service was told since the last event.
fn is_new_start(s: u64, entries: &[Entry]) -> bool
    ensures { result ≡ has_new (is_start s) entries.now }
{
    let mut rest = entries;
    'entries: while let Some((entry, before)) = rest.split_first() {
        if Deed::Start(s).matches(entry) {
            return true;
        }
        if let Entry::Got(_) = entry {
            return false;
        }
        rest = before;
    }
    false
}

/// The service is started exactly where it is due, if that may have changed.
fn is_start_kept(past: &Past, s: u64) -> bool
    requires { IsPast past.now }
    ensures { result ≡ is_start_kept (plan_of past.now) (record_of past.now) s }
{
    !is_start_stirred(past.plan, s, past.entries) || start_right(past, s)
}

/// Its endpoints are held or wait, if it was started.
fn are_ends_kept(past: &Past, s: u64) -> bool
    requires { IsPast past.now }
    ensures { result ≡ are_ends_kept (plan_of past.now) (record_of past.now) s }
{
    !is_new_start(s, past.entries) || are_right(past, s)
}

/// The same as after the signal.
fn are_ends_kept_late(past: &Past, s: u64) -> bool
    requires { IsPast past.now }
    ensures { result ≡ are_ends_kept_late (plan_of past.now) (record_of past.now) s }
{
    !is_new_start(s, past.entries) || are_right_late(past, s)
}

/// Each service is started exactly where it is due, if that may have changed.
fn starts_stirred(past: &Past) -> bool
    requires { IsPast past.now }
    ensures { result ≡ starts_stirred (plan_of past.now) (record_of past.now) }
{
    (0..service_count(past.plan)).all(|s| is_start_kept(past, s))
}

/// The endpoints of each service that was started are held or wait.
fn are_all_kept(past: &Past) -> bool
    requires { IsPast past.now }
    ensures { result ≡ list_all (are_ends_kept (plan_of past.now) (record_of past.now)) (services (plan_of past.now)) }
{
    (0..service_count(past.plan)).all(|s| are_ends_kept(past, s))
}

/// The same as after the signal.
fn are_all_kept_late(past: &Past) -> bool
    requires { IsPast past.now }
    ensures { result ≡ list_all (are_ends_kept_late (plan_of past.now) (record_of past.now)) (services (plan_of past.now)) }
{
    (0..service_count(past.plan)).all(|s| are_ends_kept_late(past, s))
}

/// Those of each service are: as they have to be before the signal, and as after it.
fn ends_stirred(past: &Past) -> bool
    requires { IsPast past.now }
    ensures { result ≡ ends_stirred (plan_of past.now) (record_of past.now) }
{
    are_all_kept_late(past) && (are_all_kept(past) || !in_service(past.entries))
}

/// The first rule that a settled prefix breaks after such entries alone, if it breaks one.
pub(crate) fn stirred_breach(past: &Past) -> Option<Rule>
    requires { IsPast past.now }
    ensures { result ≡ stirred_breach (plan_of past.now) (record_of past.now) }
{
    if !starts_stirred(past) {
        return Some(Rule::Starts);
    }
    if !ends_stirred(past) {
        return Some(Rule::Endpoints);
    }
    None
}
