//! What accepts connections, in memory.

ghost use Rattle.std.specs.Prelude.{◌≡◌, [], Some, IfOk};
ghost use Rattle.svc_base.specs.Calls.{told_of, room_of};

use crate::accepting::{Accepting, AcceptingCall, Arrival};
use std::alloc::Global;
use svc_base::{Calls, NoMemory};
use svc_socket::Setting;
use svc_streams::Peer;

/// The number of the error with which a listed accept fails: too many open descriptors.
const TOO_MANY_OPEN: u32 = 24;

/// What accepts in memory. The calls of `accept` and `set` whose numbers, from 0, are listed fail.
#[derive(Drop)]
pub struct MemoryAccepting {
    pub calls: Calls<AcceptingCall>,
    /// What the next accepts answer, the first one first. Later ones find no connection.
    pub arrivals: Vec<Arrival>,
    pub failing: Vec<u64>,
    pub asked: u64,
    pub count: u64,
    pub wait_count: u64,
}

impl MemoryAccepting {
    /// What accepts so, and tells so many calls. `NoMemory` where there is none for them.
    pub fn new(
        alloc: Global,
        room: u64,
        arrivals: Vec<Arrival>,
        failing: Vec<u64>,
    ) -> Result<Self, NoMemory>
        ensures calls { IfOk result (λ a. told_of a.calls ≡ Some []) }
        ensures room { IfOk result (λ a. room_of a.calls ≡ room) }
        ensures faults { IfOk result (λ a. a.count ≡ 0) }
        ensures waits { IfOk result (λ a. a.wait_count ≡ 0) }
    {
        Ok(MemoryAccepting {
            calls: Calls::new(alloc, room)?,
            arrivals,
            failing,
            asked: 0,
            count: 0,
            wait_count: 0,
        })
    }

    /// Counts a call, and answers whether it is to fail.
    fn fails(&mut self) -> bool
        ensures { self.new ≡ record self.old { asked = self.new.asked } }
    {
        let call = self.asked;
        self.asked = self.asked.saturating_add(1);
        self.failing.contains(&call)
    }

    fn next_arrival(&mut self) -> Arrival
        ensures { self.new ≡ record self.old { asked = self.new.asked; arrivals = self.new.arrivals } }
    {
        if self.fails() {
            return Arrival::Failed(TOO_MANY_OPEN);
        }
        if self.arrivals.is_empty() {
            Arrival::NotYet
        } else {
            self.arrivals.remove(0)
        }
    }
}

impl Accepting for MemoryAccepting {
    ghost seen = { λ a. record { called = told_of a.calls; room = room_of a.calls; faults = a.count; waits = a.wait_count } };

    fn faults(&self) -> u64 {
        self.count
    }

    fn waits(&self) -> u64 {
        self.wait_count
    }

    fn accept(&mut self) -> Arrival {
        let arrival = self.next_arrival();
        match arrival {
            Arrival::Came(_, _) => {}
            Arrival::NotYet => self.wait_count = self.wait_count.saturating_add(1),
            Arrival::Failed(_) => self.count = self.count.saturating_add(1),
        }
        self.calls.note(AcceptingCall::Accept(arrival));
        arrival
    }

    fn refuse(&mut self, c: u64) {
        self.calls.note(AcceptingCall::Refuse(c));
    }

    fn set(&mut self, c: u64, s: &Setting) -> bool {
        let set = !self.fails();
        if !set {
            self.count = self.count.saturating_add(1);
        }
        self.calls.note(AcceptingCall::Set(c, *s, set));
        set
    }
}

/// What accepts in memory and never fails.
#[derive(Drop)]
pub struct SteadyAccepting {
    pub calls: Calls<AcceptingCall>,
    /// The connections that come next, the first one first, each with who is at its other end.
    pub coming: Vec<(u64, Peer)>,
    pub wait_count: u64,
}

impl SteadyAccepting {
    /// What accepts so, and tells so many calls. `NoMemory` where there is none for them.
    pub fn new(alloc: Global, room: u64, coming: Vec<(u64, Peer)>) -> Result<Self, NoMemory>
        ensures calls { IfOk result (λ a. told_of a.calls ≡ Some []) }
        ensures room { IfOk result (λ a. room_of a.calls ≡ room) }
        ensures waits { IfOk result (λ a. a.wait_count ≡ 0) }
    {
        Ok(SteadyAccepting {
            calls: Calls::new(alloc, room)?,
            coming,
            wait_count: 0,
        })
    }
}

impl Accepting for SteadyAccepting {
    ghost seen = { λ a. record { called = told_of a.calls; room = room_of a.calls; faults = 0; waits = a.wait_count } };

    fn faults(&self) -> u64 {
        0
    }

    fn waits(&self) -> u64 {
        self.wait_count
    }

    fn accept(&mut self) -> Arrival {
        if self.coming.is_empty() {
            self.wait_count = self.wait_count.saturating_add(1);
            self.calls.note(AcceptingCall::Accept(Arrival::NotYet));
            return Arrival::NotYet;
        }
        let (c, peer) = self.coming.remove(0);
        let arrival = Arrival::Came(c, peer);
        self.calls.note(AcceptingCall::Accept(arrival));
        arrival
    }

    fn refuse(&mut self, c: u64) {
        self.calls.note(AcceptingCall::Refuse(c));
    }

    fn set(&mut self, c: u64, s: &Setting) -> bool {
        self.calls.note(AcceptingCall::Set(c, *s, true));
        true
    }
}
