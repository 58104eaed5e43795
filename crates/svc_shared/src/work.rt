//! Two workers, each with a pass and a list of events.
ghost use Rattle.std.specs.Prelude.{◌≡◌, ◌<◌, [], ◌∷◌, reverse, Some, IfOk, IfErr, vec_len, vec_capacity};
ghost use Rattle.svc_shared.specs.Feeding.{IsFedSo, IsStopped, IsFed};
ghost use Rattle.svc_shared.specs.Posting.{IsOf};
ghost use denote.Param.Send.{IsSync};

use crate::pass::{Pass, Posted, SharedServer};
use crate::refusals::{PostReason, PostRefused};
use std::alloc::Global;
use std::sync::Wait;
use std::thread::{Threads, join};
use svc_record::Event;

/// What is called after each answered post of a worker.
pub trait Gate {
    /// This worker, 0 for the left one and 1 for the right one, had so many answers.
    fn after(&self, worker: u32, answered: u64);
}

/// What a worker posts, in this order.
#[derive(Drop)]
pub struct Feed {
    pub pass: Pass,
    pub events: Vec<Event>,
}

/// A worker's pass after its posts, the events that it didn't post, and why it stopped.
#[derive(Drop)]
pub struct Fed {
    pub pass: Pass,
    pub rest: Vec<Event>,
    pub refused: Option<PostReason>,
}

/// A worker that stopped: what is left are the refused event and those that were to come after it,
/// which are here in reverse.
fn stopped(mut later: Vec<Event>, refused: PostRefused) -> Fed
    requires room { vec_len later < vec_capacity later }
    ensures rest { result.rest.items ≡ refused.event ∷ reverse later.items }
    ensures pass { result.pass ≡ refused.pass }
    ensures reason { result.refused ≡ Some refused.reason }
{
    let PostRefused {
        reason,
        pass,
        event,
    } = refused;
    later.push_reserved(event);
    later.reverse();
    Fed {
        pass,
        rest: later,
        refused: Some(reason),
    }
}

impl SharedServer {
    /// One post of a worker.
    fn one<R: Wait>(
        &self,
        rt: &R,
        alloc: Global,
        pass: Pass,
        event: Event,
    ) -> Result<Pass, PostRefused>
        requires { IsOf self.now pass }
        ensures ok { IfOk result (IsFedSo self.now pass (event ∷ [])) }
        ensures back { IfErr result (λ r. r.event ≡ event) }
        ensures refused { IfErr result (λ r. IsStopped self.now pass event r.reason r.pass) }
    {
        match self.post(rt, alloc, pass, event, true) {
            Ok(posted) => Ok(posted.pass),
            Err(refused) => Err(refused),
        }
    }

    /// Posts the events in order, up to the first refusal.
    fn post_all<R: Wait, G: Gate>(
        &self,
        rt: &R,
        alloc: Global,
        feed: Feed,
        worker: u32,
        gate: &G,
    ) -> Fed
        requires { IsOf self.now feed.pass }
        ensures { IsFed self.now feed.pass feed.events.items result }
    {
        let Feed {
            mut pass,
            mut events,
        } = feed;
        let mut answered = 0u64;
        events.reverse();
        while let Some(event) = events.pop() {
            match self.one(rt, alloc, pass, event) {
                Ok(next) => pass = next,
                Err(refused) => return stopped(events, refused),
            }
            answered += 1;
            gate.after(worker, answered);
        }
        Fed {
            pass,
            rest: events,
            refused: None,
        }
    }

    /// Posts each feed by a worker of its own, up to its end or its first refusal, with a filter that
    /// says yes. Both workers have ended when it returns.
    pub fn post_two<G: Gate + Sync, R: Threads + Wait + Sync>(
        &self,
        rt: &R,
        alloc: Global,
        left: Feed,
        right: Feed,
        gate: &G,
    ) -> (Fed, Fed)
        requires left { IsOf self.now left.pass }
        requires right { IsOf self.now right.pass }
        ensures left { IsFed self.now left.pass left.events.items result.0 }
        ensures right { IsFed self.now right.pass right.events.items result.1 }
    {
        let server = self;
        join(
            rt,
            || -> Fed
                requires { IsOf server.now left.pass }
                ensures { IsFed server.entry.now left.pass left.events.items result }
            { server.post_all(rt, alloc, left, 0, gate) },
            || -> Fed
                requires { IsOf server.now right.pass }
                ensures { IsFed server.entry.now right.pass right.events.items result }
            { server.post_all(rt, alloc, right, 1, gate) },
        )
    }
}
