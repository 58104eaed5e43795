//! A desk in memory.

ghost use Rattle.std.specs.Prelude.{◌≡◌, ◌+◌, ◌≤◌, [], reverse, Some, IfOk};
ghost use Rattle.svc_base.specs.Calls.{told_of, room_of, Adds, Stays};
ghost use Rattle.svc_desk.specs.Desks.{brought, least_room};
ghost use Rattle.svc_desk.specs.MemoryDesks.{GivesNext};

use crate::desk::{Desk, DeskAnswer};
use std::alloc::Global;
use std::mem::drop;
use svc_base::{Calls, NoMemory};
use svc_record::{Action, Event, Plan};

/// What a desk in memory answers at a take.
#[derive(Debug, Drop)]
pub enum DeskItem {
    /// An event comes.
    Event(Event),
    /// Nothing came in time.
    Nothing,
    /// The desk fails.
    Failed,
}

/// A desk in memory. Its takes give its items in order, and then `Closed`. It says yes to every
/// arrival. It tells each of its three lists for as many entries as it was made with room for, since a
/// take for whose entry there is no memory gives no event.
#[derive(Drop)]
pub struct MemoryDesk {
    /// What is to come, the next item last.
    pub coming: Vec<DeskItem>,
    /// Whether it met a plan.
    pub met: bool,
    pub taken: Calls<Event>,
    pub performed: Calls<Action>,
    pub refused: Calls<Event>,
    pub takes: u64,
    pub fault_count: u64,
    pub idle_count: u64,
}

impl MemoryDesk {
    /// A desk that gives these items, with room for so many entries in each list. `NoMemory` where
    /// there is none for them.
    pub fn new(alloc: Global, room: u64, mut items: Vec<DeskItem>) -> Result<Self, NoMemory>
        ensures coming { IfOk result (λ desk. desk.coming.items ≡ reverse items.items) }
        ensures taken { IfOk result (λ desk. told_of desk.taken ≡ Some []) }
        ensures performed { IfOk result (λ desk. told_of desk.performed ≡ Some []) }
        ensures refused { IfOk result (λ desk. told_of desk.refused ≡ Some []) }
        ensures takes { IfOk result (λ desk. desk.takes ≡ 0) }
        ensures room { IfOk result (λ desk. least_room (room_of desk.taken) (room_of desk.performed) (room_of desk.refused) desk.takes ≡ room) }
        ensures faults { IfOk result (λ desk. desk.fault_count ≡ 0) }
        ensures idles { IfOk result (λ desk. desk.idle_count ≡ 0) }
    {
        let Ok(taken) = Calls::new(alloc, room) else {
            drop(items);
            return Err(NoMemory);
        };
        let Ok(performed) = Calls::new(alloc, room) else {
            drop(items);
            drop(taken);
            return Err(NoMemory);
        };
        let Ok(refused) = Calls::new(alloc, room) else {
            drop(items);
            drop(taken);
            drop(performed);
            return Err(NoMemory);
        };
        items.reverse();
        Ok(MemoryDesk {
            coming: items,
            met: false,
            taken,
            performed,
            refused,
            takes: 0,
            fault_count: 0,
            idle_count: 0,
        })
    }
}

/// Gives the next item, and notes its event.
fn next(alloc: Global, coming: &mut Vec<DeskItem>, taken: &mut Calls<Event>) -> DeskAnswer
    ensures next { GivesNext result coming.old.items coming.new.items }
    ensures taken { Adds (told_of taken.old) (told_of taken.new) (brought result) }
    ensures stays { Stays (told_of taken.old) (told_of taken.new) (room_of taken.old) (room_of taken.new) }
    ensures place { room_of taken.old ≤ room_of taken.new + 1 }
{
    match coming.pop() {
        Some(DeskItem::Event(event)) => match event.copy(alloc) {
            Ok(copied) => {
                taken.note(copied);
                DeskAnswer::Event(event)
            }
            Err(NoMemory) => {
                coming.push_reserved(DeskItem::Event(event));
                DeskAnswer::NoMemory
            }
        },
        Some(DeskItem::Nothing) => DeskAnswer::Nothing,
        Some(DeskItem::Failed) => DeskAnswer::Failed,
        None => DeskAnswer::Closed,
    }
}

impl Desk for MemoryDesk {
    ghost use Rattle.std.specs.Prelude.{Some, None, true, ltb, if◌then◌else◌};
    ghost use Rattle.svc_base.specs.Calls.{told_of, room_of};
    ghost use Rattle.svc_desk.specs.Desks.{least_room};

    // The takes are told until their count stands at its greatest value.
    ghost seen = { λ d. record {
      met = d.met;
      says = λ event. true;
      taken = told_of d.taken;
      performed = told_of d.performed;
      refused = told_of d.refused;
      takes = if ltb d.takes 18446744073709551615 then Some d.takes else None;
      room = least_room (room_of d.taken) (room_of d.performed) (room_of d.refused) d.takes;
      faults = d.fault_count;
      idles = d.idle_count;
    } };

    fn faults(&self) -> u64 {
        self.fault_count
    }

    fn idles(&self) -> u64 {
        self.idle_count
    }

    fn meet(&mut self, _alloc: Global, _plan: &Plan) -> Result<(), NoMemory> {
        self.met = true;
        Ok(())
    }

    fn take(&mut self, alloc: Global) -> DeskAnswer {
        self.takes = self.takes.saturating_add(1);
        match next(alloc, &mut self.coming, &mut self.taken) {
            DeskAnswer::Event(event) => DeskAnswer::Event(event),
            DeskAnswer::Nothing => DeskAnswer::Nothing,
            DeskAnswer::Closed => {
                self.idle_count = self.idle_count.saturating_add(1);
                DeskAnswer::Closed
            }
            DeskAnswer::Failed => {
                self.fault_count = self.fault_count.saturating_add(1);
                DeskAnswer::Failed
            }
            DeskAnswer::NoMemory => DeskAnswer::NoMemory,
        }
    }

    fn said(&mut self, _event: &Event) -> bool {
        true
    }

    fn perform(&mut self, action: Action) {
        self.performed.note(action);
    }

    fn refuse(&mut self, event: Event) {
        self.refused.note(event);
    }
}
