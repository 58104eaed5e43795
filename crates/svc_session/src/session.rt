//! A session: a core that has begun, with the record of its run and the room for closing all.

ghost use Rattle.std.specs.Prelude.{◌≡◌, ◌+◌, ◌≤◌, ◌++◌, ◌↔◌, [], false, length, List, IsTrue, IfOk, IfErr, OnOk, OnErr};
ghost use Rattle.svc_base.specs.Items.{list_of, spare};
ghost use Rattle.svc_record.specs.declared.action.Action.{Action};
ghost use Rattle.svc_record.specs.Fits.{Fits};
ghost use Rattle.svc_record.specs.Record.{Record};
ghost use Rattle.svc_record.specs.Validity.{IsValid};
ghost use Rattle.svc_core.specs.Stands.{Represents, MayCome};
ghost use Rattle.svc_session.specs.Sessions.{Begins, Takes, Closes, told_entries};

use std::alloc::Global;
use std::marker::Model;
use std::mem::drop;
use svc_base::NoMemory;
use svc_core::Core;
use svc_record::{Actions, Entries, Entry, Event, Plan, StepEnd};

/// A core that has begun, and what it got and told, the first entry first. Until all was closed there is
/// room for closing all that is open, so that this is never refused.
#[derive(Drop)]
pub struct Session {
    core: Core,
    entries: Entries,
    /// Where the core tells its actions. Between calls it is empty, and its memory is kept.
    told: Actions,
    closed: bool,
}

impl Model for Session {
    ghost use Rattle.svc_base.specs.Items.{list_of};
    ghost use Rattle.svc_session.specs.SessionData.{SessionData, IsKept};

    ghost Value = { SessionData };

    ghost view = { λ s. record { core = s.core; entries = list_of s.entries; closed = s.closed } };

    ghost invariant = { λ s. IsKept s.core s.entries s.told s.closed };
}

/// Makes so much room in both lists.
fn make_room(
    alloc: Global,
    room: u64,
    entries: &mut Entries,
    told: &mut Actions,
) -> Result<(), NoMemory>
    ensures entries { (list_of entries.new ≡ list_of entries.old) × (spare entries.old ≤ spare entries.new) }
    ensures told { (list_of told.new ≡ list_of told.old) × (spare told.old ≤ spare told.new) }
    ensures room { OnOk result ((room ≤ spare entries.new) × (room ≤ spare told.new)) }
{
    entries.reserve(alloc, room)?;
    told.reserve(alloc, room)?;
    Ok(())
}

/// Moves what was told into the record's reserved room.
fn put_told(told: &mut Actions, entries: &mut Entries)
    requires room { length (list_of told.old) ≤ spare entries.old }
    ensures put { list_of entries.new ≡ list_of entries.old ++ told_entries (list_of told.old) }
    ensures room { spare entries.old ≤ spare entries.new + length (list_of told.old) }
    ensures left { list_of told.new ≡ [] }
    ensures kept { spare told.old ≤ spare told.new }
{
    told.reverse();
    while let Some(action) = told.pop_last() {
        entries.put(Entry::Told(action));
    }
}

impl Session {
    /// The server of the plan begins.
    pub fn begin(alloc: Global, plan: Plan) -> Result<Session, NoMemory>
        requires valid { IsValid plan }
        ensures begins { IfOk result (λ session. (told : List Action) × Begins plan session told) }
    {
        let mut core = Core::new(alloc, plan)?;
        let room = core.step_room();
        let mut entries = Entries::new(alloc);
        let mut told = Actions::new(alloc);
        let Ok(()) = make_room(alloc, room, &mut entries, &mut told) else {
            drop(core);
            drop(entries);
            drop(told);
            return Err(NoMemory);
        };
        let Ok(_) = core.begin(alloc, &mut told) else {
            drop(core);
            drop(entries);
            drop(told);
            return Err(NoMemory);
        };
        put_told(&mut told, &mut entries);
        Ok(Session {
            core,
            entries,
            told,
            closed: false,
        })
    }

    /// The record, the first entry first.
    pub fn entries(&self) -> &Entries
        ensures { list_of result.now ≡ self.now.entries }
    {
        &self.entries
    }

    /// Whether the event may come now.
    pub fn fits(&self, event: &Event) -> bool
        ensures may { IsTrue result ↔ MayCome self.now.core event.now }
        ensures means { (q : Record) → Represents self.now.core q → IsTrue result ↔ Fits self.now.core.plan q event.now }
    {
        self.core.fits(event)
    }

    /// One event, which may come, with the answer of the filter that it asks, if it asks one. Where
    /// memory is refused it comes back, and nothing has changed.
    pub fn step(&mut self, alloc: Global, event: Event, said: bool) -> Result<StepEnd, Event>
        requires may { MayCome self.old.core event }
        ensures takes { IfOk result (λ end. (told : List Action) × Takes self.old self.new event said end told) }
        ensures back { IfErr result (λ back. back ≡ event) }
        ensures refused { OnErr result (self.new ≡ self.old) }
    {
        let room = self.core.step_room();
        let Ok(()) = make_room(alloc, room, &mut self.entries, &mut self.told) else {
            return Err(event);
        };
        let Ok(end) = self.core.step(alloc, &event, said, &mut self.told) else {
            return Err(event);
        };
        self.entries.put(Entry::Got(event));
        put_told(&mut self.told, &mut self.entries);
        Ok(end)
    }

    /// Cuts each live connection and closes each open descriptor, in room that is there. After it no
    /// event is to be taken.
    pub fn close(&mut self)
        requires open { self.old.closed ≡ false }
        ensures closes { (told : List Action) × Closes self.old self.new told }
    {
        self.core.close_all(None, &mut self.told);
        put_told(&mut self.told, &mut self.entries);
        self.closed = true;
    }

    /// The record alone.
    pub fn into_entries(self) -> Entries
        ensures { list_of result ≡ self.entries }
    {
        let Session {
            core,
            entries,
            told,
            closed: _,
        } = self;
        drop(core);
        drop(told);
        entries
    }
}
