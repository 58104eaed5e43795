//! Binders in memory.

ghost use Rattle.std.specs.Prelude.{◌≡◌, ◌∷◌, [], Some, IfOk};
ghost use Rattle.svc_base.specs.Calls.{told_of, room_of, Adds, Stays};
ghost use Rattle.svc_listen.specs.BinderData.{outcome_of};
ghost use Rattle.svc_listen.specs.MemoryBinders.{IsTried};

use crate::binder::{BindAnswer, BindOutcome, Binder, BinderCall};
use crate::listeners::l4::ServerAddress;
use std::alloc::Global;
use svc_base::{Calls, NoMemory};
use svc_fds::Fd;

/// Notes a bind. Where there is no memory for it no call is told any more, and no room is left.
fn note_bind(
    alloc: Global,
    calls: &mut Calls<BinderCall>,
    addr: &ServerAddress,
    outcome: BindOutcome,
)
    ensures calls { Adds (told_of calls.old) (told_of calls.new) (BinderCall.Bind addr.now outcome ∷ []) }
    ensures stays { Stays (told_of calls.old) (told_of calls.new) (room_of calls.old) (room_of calls.new) }
{
    match addr.copy(alloc) {
        Ok(addr) => calls.note(BinderCall::Bind(addr, outcome)),
        Err(_) => calls.lose(),
    }
}

/// Notes an adoption. Where there is no memory for it no call is told any more, and no room is left.
fn note_adopt(
    alloc: Global,
    calls: &mut Calls<BinderCall>,
    addr: &ServerAddress,
    fd: u64,
    adopted: bool,
)
    ensures calls { Adds (told_of calls.old) (told_of calls.new) (BinderCall.Adopt addr.now fd adopted ∷ []) }
    ensures stays { Stays (told_of calls.old) (told_of calls.new) (room_of calls.old) (room_of calls.new) }
{
    match addr.copy(alloc) {
        Ok(addr) => calls.note(BinderCall::Adopt(addr, fd, adopted)),
        Err(_) => calls.lose(),
    }
}

/// A binder in memory. The calls of `bind` and `adopt` whose numbers, from 0, are listed fail.
#[derive(Drop)]
pub struct MemoryBinder {
    pub alloc: Global,
    pub calls: Calls<BinderCall>,
    pub failing: Vec<u64>,
    /// So many of the next binds find the address in use.
    pub busy: u64,
    /// The number of the next descriptor.
    pub number: u64,
    pub asked: u64,
    pub count: u64,
    pub wait_count: u64,
}

impl MemoryBinder {
    /// A binder whose descriptors are numbered from this one on, and that tells so many calls.
    /// `NoMemory` where there is none for them.
    pub fn new(alloc: Global, room: u64, number: u64, failing: Vec<u64>) -> Result<Self, NoMemory>
        ensures calls { IfOk result (λ binder. told_of binder.calls ≡ Some []) }
        ensures room { IfOk result (λ binder. room_of binder.calls ≡ room) }
        ensures number { IfOk result (λ binder. binder.number ≡ number) }
        ensures busy { IfOk result (λ binder. binder.busy ≡ 0) }
        ensures faults { IfOk result (λ binder. binder.count ≡ 0) }
        ensures waits { IfOk result (λ binder. binder.wait_count ≡ 0) }
    {
        Ok(MemoryBinder {
            alloc,
            calls: Calls::new(alloc, room)?,
            failing,
            busy: 0,
            number,
            asked: 0,
            count: 0,
            wait_count: 0,
        })
    }

    /// Counts a call, and answers whether it is to fail.
    fn fails(&mut self) -> bool
        ensures { self.new ≡ record self.old { asked = self.new.asked } }
    {
        let call = self.asked;
        self.asked = self.asked.saturating_add(1);
        self.failing.contains(&call)
    }

    fn outcome(&mut self) -> BindOutcome
        ensures { IsTried self.old self.new result }
    {
        if self.fails() {
            self.count = self.count.saturating_add(1);
            return BindOutcome::Failed;
        }
        if self.busy > 0 {
            self.busy -= 1;
            self.wait_count = self.wait_count.saturating_add(1);
            return BindOutcome::InUse;
        }
        let number = self.number;
        self.number = number.saturating_add(1);
        BindOutcome::Bound(number)
    }
}

/// The answer of a try, with its descriptor.
fn answer_of(outcome: BindOutcome) -> BindAnswer
    ensures { outcome_of result ≡ outcome }
{
    match outcome {
        BindOutcome::Bound(number) => BindAnswer::Bound(Fd::new(number)),
        BindOutcome::InUse => BindAnswer::InUse,
        BindOutcome::Failed => BindAnswer::Failed,
    }
}

impl Binder for MemoryBinder {
    ghost seen = { λ b. record { called = told_of b.calls; room = room_of b.calls; faults = b.count; waits = b.wait_count } };

    fn faults(&self) -> u64 {
        self.count
    }

    fn waits(&self) -> u64 {
        self.wait_count
    }

    fn bind(&mut self, addr: &ServerAddress) -> BindAnswer {
        let outcome = self.outcome();
        note_bind(self.alloc, &mut self.calls, addr, outcome);
        answer_of(outcome)
    }

    fn adopt(&mut self, addr: &ServerAddress, fd: u64) -> bool {
        let fails = self.fails();
        if fails {
            self.count = self.count.saturating_add(1);
        }
        note_adopt(self.alloc, &mut self.calls, addr, fd, !fails);
        !fails
    }

    fn rest(&mut self, ms: u64) {
        self.calls.note(BinderCall::Rest(ms));
    }
}

/// A binder in memory that never fails, and that finds no address in use.
#[derive(Drop)]
pub struct SteadyBinder {
    pub alloc: Global,
    pub calls: Calls<BinderCall>,
    /// The number of the next descriptor.
    pub number: u64,
}

impl SteadyBinder {
    /// A binder whose descriptors are numbered from this one on, and that tells so many calls.
    /// `NoMemory` where there is none for them.
    pub fn new(alloc: Global, room: u64, number: u64) -> Result<Self, NoMemory>
        ensures calls { IfOk result (λ binder. told_of binder.calls ≡ Some []) }
        ensures room { IfOk result (λ binder. room_of binder.calls ≡ room) }
        ensures number { IfOk result (λ binder. binder.number ≡ number) }
    {
        Ok(SteadyBinder {
            alloc,
            calls: Calls::new(alloc, room)?,
            number,
        })
    }
}

impl Binder for SteadyBinder {
    ghost seen = { λ b. record { called = told_of b.calls; room = room_of b.calls; faults = 0; waits = 0 } };

    fn faults(&self) -> u64 {
        0
    }

    fn waits(&self) -> u64 {
        0
    }

    fn bind(&mut self, addr: &ServerAddress) -> BindAnswer {
        let number = self.number;
        self.number = number.saturating_add(1);
        note_bind(
            self.alloc,
            &mut self.calls,
            addr,
            BindOutcome::Bound(number),
        );
        BindAnswer::Bound(Fd::new(number))
    }

    fn adopt(&mut self, addr: &ServerAddress, fd: u64) -> bool {
        note_adopt(self.alloc, &mut self.calls, addr, fd, true);
        true
    }

    fn rest(&mut self, ms: u64) {
        self.calls.note(BinderCall::Rest(ms));
    }
}
