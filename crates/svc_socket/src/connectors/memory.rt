//! Dialers in memory.

ghost use Rattle.std.specs.Prelude.{◌≡◌, [], ◌∷◌, Some, IfOk};
ghost use Rattle.std.specs.Option.{option_copied};
ghost use Rattle.svc_base.specs.Calls.{told_of, room_of, Adds, Stays};

use super::dialer::{BindTo, DialAnswer, DialCall, DialFault, Dialer, Target};
use crate::peer::PeerAddr;
use std::alloc::Global;
use svc_base::{Calls, NoMemory};

/// Notes a dial. Where there is no memory for it no dial is told any more, and no room is left.
fn note_dial(
    alloc: Global,
    calls: &mut Calls<DialCall>,
    target: &Target,
    from: Option<&BindTo>,
    answer: DialAnswer,
)
    ensures calls { Adds (told_of calls.old) (told_of calls.new) (record {
      target = target.now;
      from = option_copied from.entry;
      answer = answer;
    } ∷ []) }
    ensures stays { Stays (told_of calls.old) (told_of calls.new) (room_of calls.old) (room_of calls.new) }
{
    match target.copy(alloc) {
        Ok(target) => calls.note(DialCall {
            target,
            from: from.copied(),
            answer,
        }),
        Err(_) => calls.lose(),
    }
}

/// A dial that is to fail.
#[derive(Clone, Copy)]
pub struct FailingDial {
    /// The number of the dial, from 0.
    pub call: u64,
    pub fault: DialFault,
}

/// A dialer in memory. The dials that are listed fail.
#[derive(Drop)]
pub struct MemoryDialer {
    pub alloc: Global,
    pub calls: Calls<DialCall>,
    /// The local address of each dial.
    pub local: Option<PeerAddr>,
    pub failing: Vec<FailingDial>,
    pub asked: u64,
    pub count: u64,
}

impl MemoryDialer {
    /// A dialer that tells so many dials, and knows no local address; `NoMemory` where there is none
    /// for them.
    pub fn new(alloc: Global, room: u64, failing: Vec<FailingDial>) -> Result<Self, NoMemory>
        ensures calls { IfOk result (λ dialer. told_of dialer.calls ≡ Some []) }
        ensures room { IfOk result (λ dialer. room_of dialer.calls ≡ room) }
        ensures count { IfOk result (λ dialer. dialer.count ≡ 0) }
    {
        Ok(MemoryDialer {
            alloc,
            calls: Calls::new(alloc, room)?,
            local: None,
            failing,
            asked: 0,
            count: 0,
        })
    }

    /// Counts a dial, and answers how it is to fail, if it is.
    fn fault(&mut self) -> Option<DialFault>
        ensures { self.new ≡ record self.old { asked = self.new.asked } }
    {
        let call = self.asked;
        self.asked = self.asked.saturating_add(1);
        let listed = self.failing.iter().find(|failing| failing.call == call);
        listed.map(|failing| failing.fault)
    }
}

impl Dialer for MemoryDialer {
    ghost seen = { λ d. record { called = told_of d.calls; room = room_of d.calls; faults = d.count } };

    fn faults(&self) -> u64 {
        self.count
    }

    fn dial(&mut self, target: &Target, from: Option<&BindTo>) -> DialAnswer {
        let answer = match self.fault() {
            None => DialAnswer::Connected(self.local),
            Some(fault) => {
                self.count = self.count.saturating_add(1);
                DialAnswer::Failed(fault, self.local)
            }
        };
        note_dial(self.alloc, &mut self.calls, target, from, answer);
        answer
    }
}

/// A dialer in memory that never fails.
#[derive(Drop)]
pub struct SteadyDialer {
    pub alloc: Global,
    pub calls: Calls<DialCall>,
    /// The local address of each dial.
    pub local: Option<PeerAddr>,
}

impl SteadyDialer {
    /// A dialer that tells so many dials, and knows no local address; `NoMemory` where there is none
    /// for them.
    pub fn new(alloc: Global, room: u64) -> Result<Self, NoMemory>
        ensures calls { IfOk result (λ dialer. told_of dialer.calls ≡ Some []) }
        ensures room { IfOk result (λ dialer. room_of dialer.calls ≡ room) }
    {
        Ok(SteadyDialer {
            alloc,
            calls: Calls::new(alloc, room)?,
            local: None,
        })
    }
}

impl Dialer for SteadyDialer {
    ghost seen = { λ d. record { called = told_of d.calls; room = room_of d.calls; faults = 0 } };

    fn faults(&self) -> u64 {
        0
    }

    fn dial(&mut self, target: &Target, from: Option<&BindTo>) -> DialAnswer {
        let answer = DialAnswer::Connected(self.local);
        note_dial(self.alloc, &mut self.calls, target, from, answer);
        answer
    }
}
