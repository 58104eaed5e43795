//! A server that threads share.

ghost use Rattle.std.specs.Prelude.{◌≡◌};
ghost use Rattle.svc_shared.specs.Feeding.{IsFed};
ghost use Rattle.svc_shared.specs.Posting.{IsOf, hand_in};
ghost use Rattle.svc_shared.specs.Views.{IsWhole};

use crate::checking::{holds, same};
use std::process::Abort;
use std::sync::atomic::{AtomicU64, Ordering};
use std::thread;
use std::thread::join;
use svc_base::{Numbers, Text};
use svc_core::Core;
use svc_graph::{EndpointList, Kind};
use svc_record::{Actions, Event, Plan, ServiceList, ServicePlan, ShutdownSignal, StepEnd};
use svc_shared::{Fed, Feed, Gate, Pass, Post, PostReason, SharedServer, SplitReason};

fn service<R: Abort + AllocGlobal>(rt: &R, name: &str, kind: Kind, after: &[u32]) -> ServicePlan {
    let mut depends = Numbers::new(rt.alloc());
    for dependency in after {
        assert!(rt; depends.push(rt.alloc(), *dependency).is_ok());
    }
    ServicePlan {
        name: Text::new(rt.alloc(), name).expect(rt, "a name"),
        kind,
        depends,
        declared: None,
        endpoints: EndpointList::new(rt.alloc()),
    }
}

/// A service that waits for another one to say that it is ready.
fn plan<R: Abort + AllocGlobal>(rt: &R) -> Plan {
    let mut services = ServiceList::new(rt.alloc());
    let a = service(rt, "a", Kind::Notifying, &[]);
    assert!(rt; services.push(rt.alloc(), a).is_ok());
    let b = service(rt, "b", Kind::Plain, &[0]);
    assert!(rt; services.push(rt.alloc(), b).is_ok());
    Plan {
        services,
        grace: 300,
        stop: 5,
        tasks: 1,
        limit: 5,
        upgrade: false,
        test: false,
        eager: false,
        daemon: false,
        wait: false,
        ready_timeout: 600,
    }
}

/// A server over that plan, with the one pass and what it told.
fn opened<R: Abort + AllocGlobal>(rt: &R, limit: u32) -> (SharedServer, Pass, Actions)
    ensures of { IsOf result.0 result.1 }
    ensures whole { IsWhole (hand_in result.1) }
{
    let plan = plan(rt);
    let is_valid = plan.valid(rt.alloc()).expect(rt, "an answer");
    assert!(rt; is_valid);
    SharedServer::new(rt.alloc(), plan, limit as u64).expect(rt, "a server")
}

/// These actions were told, each ended by a semicolon.
fn told<R: Abort + AllocGlobal>(rt: &R, actions: &Actions, expected: &str) {
    let mut text = String::new(rt.alloc());
    for action in actions.as_slice() {
        let line = format!(in rt.alloc(); "{action};").expect(rt, "a text");
        assert!(rt; text.push_str(line.as_str()).is_ok());
    }
    assert_eq!(rt; text.as_str(), expected);
}

#[test]
fn two_passes_make_one_journal(rt: HostRuntime) {
    let alloc = rt.alloc();
    let (server, pass, opening) = opened(&rt, 2);
    told(&rt, &opening, "start 0;phase Running 0;");
    let Ok((first, second)) = server.split(&rt, alloc, pass) else {
        panic!(rt; "split")
    };
    same(&rt, (server.seat(&first), server.seat(&second)), (0, 1));
    let Ok(one) = server.try_post(alloc, first, Event::Ready(0), true) else {
        panic!(rt; "first")
    };
    same(&rt, (one.place, one.end), (1, StepEnd::On));
    told(&rt, &one.actions, "start 1;");
    let signal = Event::Signal(ShutdownSignal::FastShutdown);
    let Ok(two) = server.post(&rt, alloc, second, signal, true) else {
        panic!(rt; "second")
    };
    same(&rt, (two.place, two.end), (2, StepEnd::Served));
    let Err(full) = server.try_post(alloc, one.pass, Event::Moment(1), true) else {
        panic!(rt; "third")
    };
    same(&rt, full.reason, PostReason::Full);
    let whole = server.join(full.pass, two.pass);
    let Ok(posts) = server.close(alloc, whole) else {
        panic!(rt; "close")
    };
    same(&rt, posts.len(), 2);
}

#[test]
fn the_65th_split_is_thin(rt: HostRuntime) {
    let rt = &rt;
    let (server, mut pass, _) = opened(rt, 2);
    for _ in 0..64 {
        let Ok((first, _second)) = server.split(rt, rt.alloc(), pass) else {
            panic!(rt; "split")
        };
        pass = first;
    }
    let Err(refused) = server.split(rt, rt.alloc(), pass) else {
        panic!(rt; "thin")
    };
    same(rt, refused.reason, SplitReason::Thin);
}

/// Each worker waits after its first answer for the other's first. What the gate is told is counted.
#[derive(Drop)]
struct Turnstile {
    left: AtomicU64,
    right: AtomicU64,
    /// How often it was told another worker, or a count that doesn't follow the one before.
    wrong: AtomicU64,
    /// How often a worker was given up.
    late: AtomicU64,
}

impl Gate for Turnstile {
    fn after(&self, worker: u32, answered: u64) {
        let (mine, theirs) = match worker {
            0 => (&self.left, &self.right),
            1 => (&self.right, &self.left),
            _ => {
                self.wrong.fetch_add(1, Ordering::SeqCst);
                return;
            }
        };
        let before = mine.fetch_add(1, Ordering::SeqCst);
        if answered != before.saturating_add(1) {
            self.wrong.fetch_add(1, Ordering::SeqCst);
        }
        if answered > 1 {
            return;
        }
        for _ in 0..10_000_000 {
            if theirs.load(Ordering::SeqCst) > 0 {
                return;
            }
            thread::yield_now();
        }
        self.late.fetch_add(1, Ordering::SeqCst);
    }
}

fn closed_turnstile() -> Turnstile {
    Turnstile {
        left: AtomicU64::new(0),
        right: AtomicU64::new(0),
        wrong: AtomicU64::new(0),
        late: AtomicU64::new(0),
    }
}

/// The workers were at the gate so often, each after an answer of its own, and none waited in vain.
fn passed<R: Abort>(rt: &R, gate: &Turnstile, left: u64, right: u64) {
    assert_eq!(rt; gate.left.load(Ordering::SeqCst), left);
    assert_eq!(rt; gate.right.load(Ordering::SeqCst), right);
    assert_eq!(rt; gate.wrong.load(Ordering::SeqCst), 0);
    assert_eq!(rt; gate.late.load(Ordering::SeqCst), 0);
}

#[test]
fn two_workers_post_at_once(rt: HostRuntime) {
    let alloc = rt.alloc();
    let (server, pass, _) = opened(&rt, 4);
    let Ok((left, right)) = server.split(&rt, alloc, pass) else {
        panic!(rt; "split")
    };
    let gate = closed_turnstile();
    let events = vec![in alloc; Event::Ready(0), Event::Moment(1)].expect(&rt, "events");
    let left = Feed { pass: left, events };
    let events = vec![in alloc; Event::Moment(1), Event::Ended(0)].expect(&rt, "events");
    let right = Feed {
        pass: right,
        events,
    };
    let (one, two) = server.post_two(&rt, alloc, left, right, &gate);
    passed(&rt, &gate, 2, 2);
    holds(&rt, one.rest.is_empty() && one.refused.is_none());
    holds(&rt, two.rest.is_empty() && two.refused.is_none());
    let whole = server.join(one.pass, two.pass);
    let Ok(posts) = server.close(alloc, whole) else {
        panic!(rt; "close")
    };
    same(&rt, posts.len(), 4);
}

#[test]
fn a_gate_is_told_of_answered_posts_alone(rt: HostRuntime) {
    let alloc = rt.alloc();
    let (server, pass, _) = opened(&rt, 4);
    let Ok((left, right)) = server.split(&rt, alloc, pass) else {
        panic!(rt; "split")
    };
    let gate = closed_turnstile();
    let events = vec![in alloc; Event::Ready(0), Event::Ready(0)].expect(&rt, "events");
    let left = Feed { pass: left, events };
    let events = vec![in alloc; Event::Moment(1), Event::Moment(1)].expect(&rt, "events");
    let right = Feed {
        pass: right,
        events,
    };
    let (one, two) = server.post_two(&rt, alloc, left, right, &gate);
    passed(&rt, &gate, 1, 2);
    holds(&rt, matches!(one.refused, Some(PostReason::Stray(_))));
    same(&rt, (one.rest.len(), two.rest.len()), (1, 0));
}

/// Holds nobody.
#[derive(Drop)]
struct OpenGate;

impl Gate for OpenGate {
    fn after(&self, _worker: u32, _answered: u64) {}
}

/// How many events each thread posts.
const POSTS: usize = 10_000;

/// A feed of as many events, in which the first service, if it is this feed's, is ready at first and
/// ends at last; the others are moments.
fn feed<R: Abort + AllocGlobal>(rt: &R, pass: Pass, has_service: bool) -> Feed
    ensures { result.pass ≡ pass }
{
    let mut events = Vec::new(rt.alloc());
    for at in 0..POSTS {
        let event = match at {
            0 if has_service => Event::Ready(0),
            9_999 if has_service => Event::Ended(0),
            _ => Event::Moment(1),
        };
        assert!(rt; events.push(event).is_ok());
    }
    Feed { pass, events }
}

/// One core that gets the posts' events, one after the other, tells what they tell.
fn is_legal<R: Abort + AllocGlobal>(rt: &R, opening: &Actions, posts: &[Post]) -> bool {
    let plan = plan(rt);
    let is_valid = plan.valid(rt.alloc()).expect(rt, "an answer");
    assert!(rt; is_valid);
    let mut core = Core::new(rt.alloc(), plan).expect(rt, "a core");
    let mut actions = Actions::new(rt.alloc());
    core.begin(rt.alloc(), &mut actions).expect(rt, "an end");
    let mut is_legal = actions.as_slice() == opening.as_slice();
    for post in posts {
        assert!(rt; core.fits(&post.event));
        let mut actions = Actions::new(rt.alloc());
        core.step(rt.alloc(), &post.event, post.said, &mut actions)
            .expect(rt, "an end");
        is_legal = is_legal && actions.as_slice() == post.actions.as_slice();
    }
    is_legal
}

#[test]
fn four_threads_make_a_legal_journal(rt: HostRuntime) {
    let alloc = rt.alloc();
    let (server, pass, opening) = opened(&rt, 40_010);
    let Ok((low, high)) = server.split(&rt, alloc, pass) else {
        panic!(rt; "split")
    };
    let Ok((first, second)) = server.split(&rt, alloc, low) else {
        panic!(rt; "split")
    };
    let Ok((third, fourth)) = server.split(&rt, alloc, high) else {
        panic!(rt; "split")
    };
    let first = feed(&rt, first, true);
    let second = feed(&rt, second, false);
    let third = feed(&rt, third, false);
    let fourth = feed(&rt, fourth, false);
    let (shared, threads) = (&server, &rt);
    let (low, high) = join(
        &rt,
        || -> (Fed, Fed)
            requires { IsOf shared.now first.pass × IsOf shared.now second.pass }
            ensures { IsFed shared.entry.now first.pass first.events.items result.0 × IsFed shared.entry.now second.pass second.events.items result.1 }
        { shared.post_two(threads, alloc, first, second, &OpenGate) },
        || -> (Fed, Fed)
            requires { IsOf shared.now third.pass × IsOf shared.now fourth.pass }
            ensures { IsFed shared.entry.now third.pass third.events.items result.0 × IsFed shared.entry.now fourth.pass fourth.events.items result.1 }
        { shared.post_two(threads, alloc, third, fourth, &OpenGate) },
    );
    let (one, two) = low;
    let (three, four) = high;
    let lower = server.join(one.pass, two.pass);
    let upper = server.join(three.pass, four.pass);
    let whole = server.join(lower, upper);
    let Ok(posts) = server.close(alloc, whole) else {
        panic!(rt; "close")
    };
    same(&rt, posts.len(), 4 * POSTS);
    holds(&rt, is_legal(&rt, &opening, &posts));
}
