//! A worker over a desk in memory stops for each cause.

ghost use Rattle.svc_shared.specs.Posting.{IsOf};

use crate::checking::{holds, same};
use crate::plans::{OpenGate, plan_of};
use std::alloc::Global;
use std::mem::drop;
use std::process::Abort;
use std::sync::Wait;
use svc_desk::{DeskItem, MemoryDesk, StrayList, WorkEnd, work};
use svc_graph::Kind;
use svc_record::{Action, Event, ShutdownSignal};
use svc_shared::{Pass, SharedServer};

/// The actions' lines, each ended by a semicolon.
pub(crate) fn lines(rt: &impl Abort, alloc: Global, actions: &[Action]) -> String {
    let mut text = String::new(alloc);
    for action in actions {
        let line = format!(in alloc; "{action}; ").expect(rt, "a text");
        text.push_str(&line).expect(rt, "a text");
    }
    text
}

/// A server over a plan of one service, with its one pass.
fn opened<R: Abort>(rt: &R, alloc: Global, limit: u32) -> (SharedServer, Pass)
    ensures { IsOf result.0 result.1 }
{
    let plan = plan_of(rt, alloc, "a", Kind::Notifying, &[]);
    let is_valid = plan.valid(alloc).expect(rt, "memory");
    holds(rt, is_valid);
    let begun = SharedServer::new(alloc, plan, limit as u64);
    let (server, pass, opening) = begun.expect(rt, "a server");
    drop(opening);
    (server, pass)
}

/// Why a worker stopped, its strays, and what its desk performed and took back.
fn told_of(
    rt: &impl Abort,
    alloc: Global,
    end: WorkEnd,
    strays: &StrayList,
    desk: &MemoryDesk,
) -> String {
    let mut text = format!(in alloc; "{end:?}; ").expect(rt, "a text");
    for stray in strays.as_slice() {
        let line = format!(in alloc; "stray {} {}; ", stray.place, stray.seen);
        text.push_str(&line.expect(rt, "a text"))
            .expect(rt, "a text");
    }
    let told = desk.performed.told().expect(rt, "its actions");
    let performed = lines(rt, alloc, told);
    text.push_str(&performed).expect(rt, "a text");
    let back = taken_back(rt, alloc, desk);
    text.push_str(&back).expect(rt, "a text");
    text
}

/// What a desk took back.
fn taken_back(rt: &impl Abort, alloc: Global, desk: &MemoryDesk) -> String {
    let mut text = String::new(alloc);
    for event in desk.refused.told().expect(rt, "what it took back") {
        let line = format!(in alloc; "back {event}; ").expect(rt, "a text");
        text.push_str(&line).expect(rt, "a text");
    }
    text
}

/// What a worker over these items comes to.
fn played<R: Abort + Wait>(
    rt: &R,
    alloc: Global,
    items: Vec<DeskItem>,
    limit: u32,
    turns: u64,
) -> String {
    let (server, pass) = opened(rt, alloc, limit);
    let mut desk = MemoryDesk::new(alloc, 100, items).expect(rt, "a desk");
    let worked = work(rt, alloc, &server, pass, &mut desk, &OpenGate, turns);
    let told = told_of(rt, alloc, worked.end, &worked.strays, &desk);
    drop(worked);
    drop(desk);
    drop(server);
    told
}

/// A desk's items: these events.
fn items_of(rt: &impl Abort, alloc: Global, first: Event, second: Event) -> Vec<DeskItem> {
    vec![in alloc; DeskItem::Event(first), DeskItem::Event(second)].expect(rt, "memory")
}

/// The service says that it is ready, and then the time is told.
fn ready_and_moment(rt: &impl Abort, alloc: Global) -> Vec<DeskItem> {
    items_of(rt, alloc, Event::Ready(0), Event::Moment(1))
}

/// Nothing comes, and then the desk fails.
fn nothing_and_failure(rt: &impl Abort, alloc: Global) -> Vec<DeskItem> {
    vec![in alloc; DeskItem::Nothing, DeskItem::Failed].expect(rt, "memory")
}

#[test]
fn a_worker_goes_on_after_a_stray_and_ends_the_run(rt: HostRuntime) {
    let alloc = rt.alloc();
    let fast = Event::Signal(ShutdownSignal::FastShutdown);
    let items = items_of(&rt, alloc, Event::Finished(1), fast);
    let text = played(&rt, alloc, items, 10, 10);
    let over =
        "Over; stray 1 0; phase ShutdownStarted 0; phase ShutdownRuntimes 0; stop 0; phase Terminated 0; back finished 1; ";
    same(&rt, text.as_str(), over);
}

#[test]
fn a_worker_stops_for_each_cause(rt: HostRuntime) {
    let alloc = rt.alloc();
    let full = played(&rt, alloc, ready_and_moment(&rt, alloc), 1, 10);
    same(&rt, full.as_str(), "Full; back moment 1; ");
    let closed = played(&rt, alloc, ready_and_moment(&rt, alloc), 2, 10);
    same(&rt, closed.as_str(), "Closed; ");
    let spent = played(&rt, alloc, nothing_and_failure(&rt, alloc), 1, 1);
    same(&rt, spent.as_str(), "TurnsSpent; ");
    let failed = played(&rt, alloc, nothing_and_failure(&rt, alloc), 1, 10);
    same(&rt, failed.as_str(), "Fault; ");
}
