//! Two desks in memory over one server, and the echo server over them.

use crate::checking::{holds, prints, same};
use crate::plans::{OpenGate, plan_of};
use crate::workers::lines;
use std::alloc::Global;
use std::mem::drop;
use std::process::Abort;
use std::rc::RcStr;
use std::sync::Wait;
use std::sync::atomic::{AtomicU64, Ordering};
use std::thread;
use std::thread::Threads;
use svc_base::MemorySink;
use svc_desk::{DeskItem, EchoReason, Echoed, Gate, MemoryDesk, WorkEnd, serve_desks};
use svc_echo::run_echo;
use svc_graph::Kind;
use svc_record::{Event, Plan, ShutdownSignal};
use svc_socket::Peer;

/// A desk with room for more entries than a test makes.
fn desk_of(rt: &impl Abort, alloc: Global, events: Vec<Event>) -> MemoryDesk {
    let mut items = Vec::new(alloc);
    for event in events {
        items.push(DeskItem::Event(event)).expect(rt, "memory");
    }
    MemoryDesk::new(alloc, 100, items).expect(rt, "a desk")
}

/// Each worker waits after its first answer for the other's first. It counts the calls for each worker,
/// and those whose number of answers isn't their count.
#[derive(Drop)]
struct Turnstile {
    left: AtomicU64,
    right: AtomicU64,
    late: AtomicU64,
    wrong: AtomicU64,
}

impl Gate for Turnstile {
    fn after(&self, worker: u32, answered: u64) {
        let (mine, theirs) = if worker == 0 {
            (&self.left, &self.right)
        } else {
            (&self.right, &self.left)
        };
        let earlier = mine.fetch_add(1, Ordering::SeqCst);
        if answered != earlier.saturating_add(1) {
            self.wrong.fetch_add(1, Ordering::SeqCst);
        }
        if answered > 1 {
            return;
        }
        for _ in 0..10_000_000 {
            if theirs.load(Ordering::SeqCst) > 0 {
                return;
            }
            thread::yield_now();
        }
        self.late.store(1, Ordering::SeqCst);
    }
}

/// What two desks with these events come to.
fn served<G: Gate + Sync, R: Threads + Wait + Sync + Abort>(
    rt: &R,
    alloc: Global,
    plan: Plan,
    left: Vec<Event>,
    right: Vec<Event>,
    gate: &G,
) -> Echoed<MemoryDesk> {
    let left = desk_of(rt, alloc, left);
    let right = desk_of(rt, alloc, right);
    match serve_desks(rt, alloc, plan, 10, 10, left, right, gate) {
        Ok(echoed) => echoed,
        Err(_) => panic!(rt; "refused"),
    }
}

/// The ends of both workers, and the actions that the left desk performed.
fn ends_of(rt: &impl Abort, alloc: Global, echoed: &Echoed<MemoryDesk>) -> String {
    let told = echoed.left.performed.told();
    let actions = lines(rt, alloc, told.expect(rt, "the left desk's actions"));
    let (left, right) = (echoed.left_end, echoed.right_end);
    format!(in alloc; "{left:?} {right:?}; {actions}").expect(rt, "a text")
}

/// The events of one connection, and a signal.
fn connection(rt: &impl Abort, alloc: Global) -> Vec<Event> {
    let events = vec![in alloc;
        Event::Bound(0, 0, 7),
        Event::Bound(0, 1, 8),
        Event::Arrived(0, 0, 1, Peer::Unknown),
        Event::Set(1, true),
        Event::Shaken(1, true),
        Event::Finished(1),
        Event::Signal(ShutdownSignal::FastShutdown),
    ];
    events.expect(rt, "memory")
}

#[test]
fn one_desk_serves_a_connection_and_ends_the_run(rt: HostRuntime) {
    let alloc = rt.alloc();
    let plan = plan_of(&rt, alloc, "echo", Kind::Plain, &["a:1", "b:2"]);
    let none = Vec::new(alloc);
    let echoed = served(&rt, alloc, plan, connection(&rt, alloc), none, &OpenGate);
    let text = ends_of(&rt, alloc, &echoed);
    same(&rt, echoed.journal.len(), 7);
    holds(&rt, text.as_str().starts_with("Over Closed; "));
    let last = "close 7; close 8; stop 0; phase Terminated 0; ";
    holds(&rt, text.as_str().ends_with(last));
    drop(echoed);
}

/// Whether the journal begins with a post of either worker.
fn begins_with_either(echoed: &Echoed<MemoryDesk>) -> bool {
    match echoed.journal.first() {
        Some(post) => post.event == Event::Ready(0) || post.event == Event::Moment(1),
        None => false,
    }
}

#[test]
fn both_workers_work_at_once(rt: HostRuntime) {
    let alloc = rt.alloc();
    let gate = Turnstile {
        left: AtomicU64::new(0),
        right: AtomicU64::new(0),
        late: AtomicU64::new(0),
        wrong: AtomicU64::new(0),
    };
    let plan = plan_of(&rt, alloc, "a", Kind::Notifying, &[]);
    let fast = Event::Signal(ShutdownSignal::FastShutdown);
    // The left worker's first event strays, so that it takes two and has one answer.
    let left = vec![in alloc; Event::Finished(1), Event::Ready(0)].expect(&rt, "memory");
    let right = vec![in alloc; Event::Moment(1), fast].expect(&rt, "memory");
    let echoed = served(&rt, alloc, plan, left, right, &gate);
    same(&rt, gate.late.load(Ordering::SeqCst), 0);
    same(&rt, gate.wrong.load(Ordering::SeqCst), 0);
    same(&rt, gate.left.load(Ordering::SeqCst), 1);
    same(&rt, gate.right.load(Ordering::SeqCst), 2);
    same(&rt, echoed.right_end, WorkEnd::Over);
    holds(&rt, begins_with_either(&echoed));
    drop(echoed);
}

#[test]
fn a_plan_that_is_not_valid_is_refused(rt: HostRuntime) {
    let alloc = rt.alloc();
    let left = desk_of(&rt, alloc, Vec::new(alloc));
    let right = desk_of(&rt, alloc, Vec::new(alloc));
    let plan = plan_of(&rt, alloc, "echo", Kind::Plain, &[""]);
    let answer = serve_desks(&rt, alloc, plan, 10, 10, left, right, &OpenGate);
    let reason = answer.err().map(|refused| refused.reason);
    same(&rt, reason, Some(EchoReason::BadPlan));
    prints(&rt, EchoReason::BadPlan, "the plan isn't valid");
    prints(&rt, EchoReason::NoMemory, "out of memory");
}

/// The words, and what the echo server over desks in memory comes to with them: its status, how many posts
/// there were, and what it wrote.
fn ran<R: Threads + Wait + Sync + Abort>(
    rt: &R,
    alloc: Global,
    words: &[&str],
) -> (u8, usize, MemorySink) {
    let left = desk_of(rt, alloc, connection(rt, alloc));
    let right = desk_of(rt, alloc, Vec::new(alloc));
    let mut texts = Vec::new(alloc);
    for word in words {
        let text = RcStr::from_str(alloc, *word).expect(rt, "memory");
        texts.push(text).expect(rt, "memory");
    }
    let mut sink = MemorySink::new(alloc, 100, Vec::new(alloc));
    let run = run_echo(rt, alloc, &texts, left, right, &mut sink);
    let (status, posts) = (run.status.0, run.journal.len());
    drop(run);
    (status, posts, sink)
}

#[test]
fn the_echo_server_says_how_its_run_ended(rt: HostRuntime) {
    let alloc = rt.alloc();
    let (status, posts, sink) = ran(&rt, alloc, &["a:1", "b:2", "10"]);
    same(&rt, (status, posts), (0, 7));
    holds(
        &rt,
        sink.bytes.as_slice() == b"posts 7\nstatus served\n".as_slice(),
    );
    let (status, posts, sink) = ran(&rt, alloc, &["a:1", "b:2", "6"]);
    same(&rt, (status, posts), (4, 6));
    holds(
        &rt,
        sink.bytes.as_slice() == b"posts 6\nstatus TurnsSpent Closed\n".as_slice(),
    );
    let (status, posts, sink) = ran(&rt, alloc, &["a:1", "a:1", "10"]);
    same(&rt, (status, posts), (2, 0));
    holds(&rt, sink.bytes.as_slice() == b"status words\n".as_slice());
}
