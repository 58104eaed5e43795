//! Sockets in memory.

ghost use Rattle.std.specs.Prelude.{◌≡◌, [], Some, IfOk};
ghost use Rattle.svc_base.specs.Calls.{told_of, room_of};

use crate::options::{Family, OptionCall, Options, SockOption};
use std::alloc::Global;
use svc_base::{Calls, NoMemory};

/// A socket in memory. The calls whose numbers, from 0, are listed fail.
#[derive(Drop)]
pub struct MemoryOptions {
    pub calls: Calls<OptionCall>,
    pub family: Family,
    pub failing: Vec<u64>,
    pub asked: u64,
    pub count: u64,
}

impl MemoryOptions {
    /// A socket that tells so many calls; `NoMemory` where there is none for them.
    pub fn new(
        alloc: Global,
        room: u64,
        family: Family,
        failing: Vec<u64>,
    ) -> Result<Self, NoMemory>
        ensures calls { IfOk result (λ o. told_of o.calls ≡ Some []) }
        ensures room { IfOk result (λ o. room_of o.calls ≡ room) }
        ensures family { IfOk result (λ o. o.family ≡ family) }
        ensures count { IfOk result (λ o. o.count ≡ 0) }
    {
        Ok(MemoryOptions {
            calls: Calls::new(alloc, room)?,
            family,
            failing,
            asked: 0,
            count: 0,
        })
    }

    /// Counts a call, and answers whether it is to fail.
    fn fails(&mut self) -> bool
        ensures { self.new ≡ record self.old { asked = self.new.asked } }
    {
        let call = self.asked;
        self.asked = self.asked.saturating_add(1);
        self.failing.contains(&call)
    }
}

impl Options for MemoryOptions {
    ghost seen = { λ o. record { called = told_of o.calls; room = room_of o.calls; family = o.family; faults = o.count } };

    fn faults(&self) -> u64 {
        self.count
    }

    fn set(&mut self, option: SockOption) -> bool {
        if self.fails() {
            self.count = self.count.saturating_add(1);
            self.calls.note(OptionCall { option, set: false });
            return false;
        }
        self.calls.note(OptionCall { option, set: true });
        true
    }

    fn family(&self) -> Family {
        self.family
    }
}

/// A socket in memory that never fails.
#[derive(Drop)]
pub struct SteadyOptions {
    pub calls: Calls<OptionCall>,
    pub family: Family,
}

impl SteadyOptions {
    /// A socket that tells so many calls; `NoMemory` where there is none for them.
    pub fn new(alloc: Global, room: u64, family: Family) -> Result<Self, NoMemory>
        ensures calls { IfOk result (λ o. told_of o.calls ≡ Some []) }
        ensures room { IfOk result (λ o. room_of o.calls ≡ room) }
        ensures family { IfOk result (λ o. o.family ≡ family) }
    {
        Ok(SteadyOptions {
            calls: Calls::new(alloc, room)?,
            family,
        })
    }
}

impl Options for SteadyOptions {
    ghost seen = { λ o. record { called = told_of o.calls; room = room_of o.calls; family = o.family; faults = 0 } };

    fn faults(&self) -> u64 {
        0
    }

    fn set(&mut self, option: SockOption) -> bool {
        self.calls.note(OptionCall { option, set: true });
        true
    }

    fn family(&self) -> Family {
        self.family
    }
}
