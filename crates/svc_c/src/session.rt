//! A session: a core, and the lines of the record that its last call added.

ghost use Rattle.std.specs.Prelude.{◌≡◌, ◌≤◌, ◌+◌, ◌++◌, [], length, map, vec_len, vec_capacity, IfSome};
ghost use Rattle.svc_base.specs.Items.{list_of};
ghost use Rattle.std.specs.Option.{option_copied};
ghost use Rattle.svc_record.specs.declared.entry.Entry.TheVariants.{Told};
ghost use Rattle.svc_core.specs.Dues.{TellsNothingBefore, TellsAt};
ghost use Rattle.svc_core.specs.Rooms.{close_need};
ghost use Rattle.svc_core.specs.Stands.{HasNotBegun, MayCome};
ghost use Rattle.svc_c.specs.Sessions.{own_word, put_in, brought_by, entries_of, IsBegun, IsAsked, IsStepped, IsTaken, IsClosed, IsEndedWith, IsToldIn, Says};

use crate::stage::Stage;
use std::alloc::Global;
use std::marker::Model;
use std::mem::drop;
use svc_base::NoMemory;
use svc_core::Core;
use svc_record::{Actions, Entry, Event, StepEnd};
use svc_socket::Peer;
use svc_text::{ServiceLine, event_of_line, is_blocked, record_text};

/// Why a call of a session was refused.
#[derive(Clone, Copy, PartialEq, Eq, Debug)]
pub enum StepError {
    /// There was no memory.
    NoMemory,
    /// The line is no event.
    NoEvent,
    /// The event doesn't fit.
    Stray,
    /// The call came before the first step, was a second first step, or came after all was closed.
    Order,
}

/// Why the lines weren't written.
#[derive(Clone, Copy, PartialEq, Eq, Debug)]
pub enum ToldError {
    /// There was no memory.
    NoMemory,
    /// They are so many bytes.
    TooShort(u64),
}

/// What is asked at an event.
#[derive(Clone, Copy, Debug)]
pub struct Asked {
    /// The number of the filter.
    pub filter: Option<u32>,
    /// What the blocked addresses of the service say.
    pub said: bool,
}

/// A core with the services of its script, and what its last call got and told.
#[derive(Drop)]
pub struct Session {
    core: Core,
    services: Vec<ServiceLine>,
    stage: Stage,
    end: StepEnd,
    entries: Vec<Entry>,
    /// Where a step tells its actions. Between calls it is empty, and its memory is kept.
    told: Actions,
}

impl Model for Session {
    ghost use Rattle.svc_base.specs.Items.{list_of};
    ghost use Rattle.svc_c.specs.SessionData.{SessionData, IsKept};

    ghost Value = { SessionData };

    ghost view = { λ s. record { core = s.core; services = s.services.items; stage = s.stage; end = s.end; entries = s.entries.items } };

    ghost invariant = { λ s. IsKept s.core s.stage (list_of s.told) };
}

/// The actions are appended as entries, and leave their list.
fn keep_told(told: &mut Actions, entries: &mut Vec<Entry>)
    requires room { vec_len entries.old + length (list_of told.old) ≤ vec_capacity entries.old }
    ensures all { entries.new.items ≡ entries.old.items ++ map Told (list_of told.old) }
    ensures left { list_of told.new ≡ [] }
{
    told.reverse();
    while let Some(action) = told.pop_last() {
        entries.push_reserved(Entry::Told(action));
    }
}

/// How many descriptors the event brings, if there is one.
fn brought(also: Option<&Event>) -> u64
    ensures { result ≡ brought_by (option_copied also.entry) }
{
    match also {
        Some(Event::Bound(_, _, _)) => 1,
        Some(Event::Received(_, fds)) => fds.len(),
        _ => 0,
    }
}

/// Room for the closes of all, with what an event brought, and for one more.
fn close_room(core: &Core, also: Option<&Event>) -> Option<u64>
    ensures { IfSome result (λ room. close_need core.now (option_copied also.entry) + 1 ≤ room) }
{
    let most = core.step_room();
    let more = brought(also);
    let room = most.checked_add(more);
    room
}

/// The entries are the event, if there is one, and the actions, which leave their list.
fn keep_all(also: Option<Event>, told: &mut Actions, entries: &mut Vec<Entry>)
    requires room { length (list_of told.old) + 1 ≤ vec_capacity entries.old }
    ensures all { entries.new.items ≡ entries_of also ++ map Told (list_of told.old) }
    ensures left { list_of told.new ≡ [] }
{
    entries.clear();
    if let Some(event) = also {
        entries.push_reserved(Entry::Got(event));
    }
    keep_told(told, entries);
}

/// What the blocked addresses of the event's service say of its peer: no to a blocked one.
fn own_word(services: &[ServiceLine], event: &Event) -> bool
    ensures { result ≡ own_word services.now event.now }
{
    match event {
        Event::Arrived(s, _, _, Peer::Inet(peer)) => match services.get(*s as usize) {
            Some(line) => !is_blocked(line.blocked.as_slice(), Some(*peer)),
            None => true,
        },
        _ => true,
    }
}

/// Writes a text to the front, as far as it fits, and answers its length.
pub(crate) fn put_front(text: &[u8], out: &mut [u8]) -> usize
    ensures length { result ≡ length text.now }
    ensures front { out.new ≡ put_in text.now out.old }
{
    let count = text.len().min(out.len());
    out[..count].copy_from_slice(&text[..count]);
    text.len()
}

/// The event of a line.
fn event_of(alloc: Global, line: &[u8]) -> Result<Event, StepError>
    ensures { Says line.now result }
{
    match event_of_line(alloc, line) {
        Ok(Some(event)) => Ok(event),
        Ok(None) => Err(StepError::NoEvent),
        Err(NoMemory) => Err(StepError::NoMemory),
    }
}

impl Session {
    /// A session whose first step wasn't taken.
    pub fn new(alloc: Global, core: Core, services: Vec<ServiceLine>) -> Session
        requires { HasNotBegun core }
        ensures { result ≡ record { core = core; services = services.items; stage = Stage.Fresh; end = StepEnd.On; entries = [] } }
    {
        Session {
            core,
            services,
            stage: Stage::Fresh,
            end: StepEnd::On,
            entries: Vec::new(alloc),
            told: Actions::new(alloc),
        }
    }

    /// How the run has ended, as far as it has.
    pub fn end(&self) -> StepEnd
        ensures { result ≡ self.now.end }
    {
        self.end
    }

    /// The least moment, in milliseconds, at which the step of a moment tells something or ends the run; none
    /// while only other events can, or where that moment is beyond 64 bits.
    pub fn next_due(&self) -> Option<u64>
        ensures before { TellsNothingBefore self.now.core result }
        ensures due { TellsAt self.now.core result }
    {
        self.core.next_due()
    }

    /// The first step.
    pub fn begin(&mut self, alloc: Global) -> Result<StepEnd, StepError>
        ensures { IsBegun self.old self.new result }
    {
        if !matches!(self.stage, Stage::Fresh) {
            return Err(StepError::Order);
        }
        let room = self.core.step_room();
        if self.entries.reserve(room as usize).is_err() {
            return Err(StepError::NoMemory);
        }
        let Ok(end) = self.core.begin(alloc, &mut self.told) else {
            return Err(StepError::NoMemory);
        };
        self.entries.clear();
        keep_told(&mut self.told, &mut self.entries);
        self.stage = Stage::Begun;
        self.end = end;
        Ok(end)
    }

    /// What is asked at the event of a line, which may come now.
    pub fn asks(&self, alloc: Global, line: &[u8]) -> Result<Asked, StepError>
        ensures { IsAsked line.now self.now result }
    {
        if !matches!(self.stage, Stage::Begun) {
            return Err(StepError::Order);
        }
        let event = event_of(alloc, line)?;
        if !self.core.fits(&event) {
            drop(event);
            return Err(StepError::Stray);
        }
        let asked = Asked {
            filter: self.core.asks(&event),
            said: own_word(self.services.as_slice(), &event),
        };
        drop(event);
        Ok(asked)
    }

    /// The step of a line's event, with what was said of its peer.
    pub fn step(&mut self, alloc: Global, line: &[u8], said: bool) -> Result<StepEnd, StepError>
        ensures { IsStepped line.now said self.old self.new result }
    {
        if !matches!(self.stage, Stage::Begun) {
            return Err(StepError::Order);
        }
        let event = event_of(alloc, line)?;
        if !self.core.fits(&event) {
            drop(event);
            return Err(StepError::Stray);
        }
        self.take(alloc, event, said)
    }

    /// The step of an event, which fits.
    fn take(&mut self, alloc: Global, event: Event, said: bool) -> Result<StepEnd, StepError>
        requires begun { self.old.stage ≡ Stage.Begun }
        requires fits { MayCome self.old.core event }
        ensures { IsTaken event said self.old self.new result }
    {
        let room = self.core.step_room();
        if self.entries.reserve(room as usize).is_err() {
            drop(event);
            return Err(StepError::NoMemory);
        }
        let Ok(end) = self.core.step(alloc, &event, said, &mut self.told) else {
            drop(event);
            return Err(StepError::NoMemory);
        };
        keep_all(Some(event), &mut self.told, &mut self.entries);
        self.end = end;
        Ok(end)
    }

    /// Closes all, with what the event of a line brought. An empty line is no event.
    pub fn close(&mut self, alloc: Global, line: &[u8]) -> Result<(), StepError>
        ensures { IsClosed line.now self.old self.new result }
    {
        if matches!(self.stage, Stage::Closed) {
            return Err(StepError::Order);
        }
        if line.is_empty() {
            return self.end_with(alloc, None);
        }
        let event = event_of(alloc, line)?;
        self.end_with(alloc, Some(event))
    }

    /// Closes all, with what an event brought.
    fn end_with(&mut self, alloc: Global, also: Option<Event>) -> Result<(), StepError>
        ensures { IsEndedWith also self.old self.new result }
    {
        let Some(room) = close_room(&self.core, also.as_ref()) else {
            drop(also);
            return Err(StepError::NoMemory);
        };
        if self.told.reserve(alloc, room).is_err() || self.entries.reserve(room as usize).is_err() {
            drop(also);
            return Err(StepError::NoMemory);
        }
        self.core.close_all(also.as_ref(), &mut self.told);
        keep_all(also, &mut self.told, &mut self.entries);
        self.stage = Stage::Closed;
        Ok(())
    }

    /// Writes the lines of what the last call got and told, and answers how many bytes they are.
    pub fn told(&self, alloc: Global, out: &mut [u8]) -> Result<u64, ToldError>
        ensures { IsToldIn self.now.entries out.old out.new result }
    {
        let Ok(text) = record_text(alloc, self.entries.as_slice()) else {
            return Err(ToldError::NoMemory);
        };
        let text = text.as_bytes();
        if text.len() > out.len() {
            return Err(ToldError::TooShort(text.len() as u64));
        }
        Ok(put_front(text, out) as u64)
    }
}
