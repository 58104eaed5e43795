//! Which event may come after a record.

ghost use Rattle.std.specs.Prelude.{◌≡◌, true};
ghost use Rattle.svc_record.specs.declared.plan.Plan.{Plan};
ghost use Rattle.svc_judge.specs.Groups.{is_answer};
ghost use Rattle.svc_record.specs.Fits.{is_new, are_new, may_end, accepts, parent_waits, fits_row, event_fits};
ghost use Rattle.svc_judge.specs.Pasts.{IsPast, plan_of, record_of};
ghost use Rattle.svc_judge.specs.Steps.{loop_fits};

use crate::closes::have_loops_ended;
use crate::connections::is_live_connection;
use crate::endpoints::serves;
use crate::failed::is_started;
use crate::looking::{has, has_brought, is_in, is_open, now};
use crate::past::Past;
use crate::plans::{endpoint_count, has_kind, is_endpoint};
use crate::query::{Answer, Ask, Deed, News, Order, Query};
use crate::waits::has_ended;
use svc_graph::Kind;
use svc_record::{Entry, Event};

/// No earlier event brought the descriptor's number.
fn is_new(entries: &[Entry], fd: u64) -> bool
    ensures { result ≡ is_new entries.now fd }
{
    !has_brought(fd, entries)
}

/// The numbers are new, and no two of them equal.
fn are_new(entries: &[Entry], fds: &[u64]) -> bool
    ensures { result ≡ are_new entries.now fds.now }
{
    let mut rest = fds;
    'numbers: while let Some((fd, more)) = rest.split_first() {
        if !is_new(entries, *fd) {
            return false;
        }
        if is_in(*fd, more) {
            return false;
        }
        rest = more;
    }
    true
}

/// The service takes no connections and doesn't bootstrap.
fn may_end(past: &Past, s: u64) -> bool
    ensures { result ≡ may_end (plan_of past.now) s }
{
    (has_kind(past.plan, Kind::Plain, s) || has_kind(past.plan, Kind::Notifying, s))
        && endpoint_count(past.plan, s) == 0
}

/// The service serves, and a loop of its endpoint goes on.
pub(crate) fn accepts(past: &Past, s: u64, i: u64) -> bool
    requires { IsPast past.now }
    ensures { result ≡ accepts (plan_of past.now) (record_of past.now) s i }
{
    serves(past, s) && is_endpoint(past.plan, s, i) && !have_loops_ended(past, s, i)
}

/// The process is the parent, and waits for its child.
fn parent_waits(past: &Past) -> bool
    ensures { result ≡ parent_waits (plan_of past.now) (record_of past.now) }
{
    has(Query::News(News::SideParent), past.entries) && past.plan.wait
}

/// A loop of the endpoint may end: after the broadcast, and once.
fn loop_fits(past: &Past, s: u64, i: u64, j: u64) -> bool
    requires { IsPast past.now }
    ensures { result ≡ loop_fits (plan_of past.now) (record_of past.now) s i j }
{
    (has(Query::Order(Order::Broadcast), past.entries)
        && serves(past, s)
        && is_endpoint(past.plan, s, i))
        && (j < past.plan.tasks && !has(Query::Answer(Answer::LoopEnd(s, i, j)), past.entries))
}

/// The ask is open that the event answers.
fn fits_answer(event: &Event, entries: &[Entry]) -> bool
    requires { is_answer event.now ≡ true }
    ensures { (p : Plan) → result ≡ fits_row p entries.now event.now }
{
    match event {
        Event::InUse(s, i) => is_open(Ask::Bind(u64::from(*s), u64::from(*i)), entries),
        Event::BindFailed(s, i) => is_open(Ask::Bind(u64::from(*s), u64::from(*i)), entries),
        Event::Adopted(s, i) => is_open(Ask::Adopt(u64::from(*s), u64::from(*i)), entries),
        Event::AdoptFailed(s, i) => is_open(Ask::Adopt(u64::from(*s), u64::from(*i)), entries),
        Event::NoSenderYet | Event::ReceiveFailed => is_open(Ask::Receive, entries),
        Event::Connected | Event::NotThere | Event::StillConnecting | Event::ConnectFailed =>
            is_open(Ask::Connect, entries),
        Event::Sent | Event::SendBusy | Event::SendFailed => is_open(Ask::Send, entries),
        Event::Set(c, _) => is_open(Ask::Settings(*c), entries),
        Event::Shaken(c, _) => is_open(Ask::Handshake(*c), entries),
        Event::Side(_) => is_open(Ask::Fork, entries),
        _ => unreachable!(),
    }
}

/// The event's condition holds.
pub(crate) fn fits_row(event: &Event, past: &Past) -> bool
    requires { IsPast past.now }
    ensures { result ≡ fits_row (plan_of past.now) (record_of past.now) event.now }
{
    let entries = past.entries;
    match event {
        Event::Moment(ms) => now(entries) <= *ms,
        Event::Ready(s) => {
            has_kind(past.plan, Kind::Notifying, u64::from(*s))
                && is_started(entries, u64::from(*s))
                && !has(Query::Answer(Answer::Ready(u64::from(*s))), entries)
        }
        Event::Ended(s) => {
            may_end(past, u64::from(*s))
                && is_started(entries, u64::from(*s))
                && !has(Query::Answer(Answer::Ended(u64::from(*s))), entries)
        }
        Event::Bound(s, i, fd) => {
            is_open(Ask::Bind(u64::from(*s), u64::from(*i)), entries) && is_new(entries, *fd)
        }
        Event::Received(_, fds) => {
            is_open(Ask::Receive, entries)
                && fds.as_slice().len() <= 32
                && are_new(entries, fds.as_slice())
        }
        Event::Arrived(s, i, c, _) => {
            accepts(past, u64::from(*s), u64::from(*i))
                && !has(Query::Answer(Answer::Arrival(*c)), entries)
        }
        Event::AcceptFailed(s, i, _) => accepts(past, u64::from(*s), u64::from(*i)),
        Event::Finished(c) => {
            has(Query::Deed(Deed::Serve(*c)), entries) && is_live_connection(entries, *c)
        }
        Event::LoopEnded(s, i, j) => loop_fits(past, u64::from(*s), u64::from(*i), *j),
        Event::Signal(_) => has(Query::Order(Order::Running), entries),
        Event::ChildReady | Event::ChildGone | Event::DropFailed => parent_waits(past),
        _ => fits_answer(event, entries),
    }
}

/// An event fits what stands before it: the run hasn't ended, and the event's condition holds.
pub(crate) fn event_fits(entry: &Entry, before: &Past) -> bool
    requires { IsPast before.now }
    ensures { result ≡ event_fits (plan_of before.now) entry.now (record_of before.now) }
{
    match entry {
        Entry::Got(event) => !has_ended(before) && fits_row(event, before),
        Entry::Told(_) => true,
    }
}
