//! A worker: it takes a desk's events, posts them, and lets the desk perform the actions of its posts.

ghost use Rattle.std.specs.Prelude.{◌≡◌, ◌≢◌, ◌+◌, ◌<◌, ◌≤◌, Some};
ghost use Rattle.svc_base.specs.Items.{list_of, spare};
ghost use Rattle.svc_desk.specs.Desks.{IsPerformed};
ghost use Rattle.svc_desk.specs.Working.{IsWorked, IsHandled, IsTurned, IsSettled, end_by, fate_by};
ghost use Rattle.svc_shared.specs.Posting.{IsOf, hand_in};

use crate::desk::{Desk, DeskAnswer};
use crate::stray::{StrayList, Strayed};
use std::alloc::Global;
use std::sync::Wait;
use svc_record::{Actions, Event, StepEnd};
use svc_shared::{Gate, Pass, PostReason, SharedServer};

/// Why a worker stopped.
#[derive(Clone, Copy, PartialEq, Eq, Debug)]
pub enum WorkEnd {
    /// Its last post ended the run.
    Over,
    /// The desk says that nothing comes any more.
    Closed,
    /// The journal has as many posts as it may have. The event in hand was refused.
    Full,
    /// The desk was asked as often as it might be.
    TurnsSpent,
    /// The desk failed.
    Fault,
    /// There was no memory. An event in hand was refused.
    NoMemory,
}

/// A worker's pass after its posts, why it stopped, and its strays.
#[derive(Drop)]
pub struct Worked {
    pub pass: Pass,
    pub end: WorkEnd,
    pub strays: StrayList,
}

/// What became of an event.
#[derive(Clone, Copy)]
pub(crate) enum Fate {
    Posted(StepEnd),
    Strayed(u64),
    Full,
    NoMemory,
}

/// The pass after an event, and what became of the event.
#[derive(Drop)]
pub(crate) struct Handled {
    pub pass: Pass,
    pub fate: Fate,
}

/// The pass after a turn, and why the worker stops, if it does.
#[derive(Drop)]
pub(crate) struct Turned {
    pub pass: Pass,
    pub end: Option<WorkEnd>,
}

/// What a worker counts: its strays, how many events it took, and how many posts were answered.
#[derive(Drop)]
pub(crate) struct Tally {
    pub strays: StrayList,
    pub taken: u64,
    pub answered: u64,
}

/// Lets the desk perform the actions, in order.
pub(crate) fn perform_all<D: Desk>(desk: &mut D, mut actions: Actions)
    ensures performed { IsPerformed (D.seen desk.old) (D.seen desk.new) (list_of actions) }
{
    actions.reverse();
    while let Some(action) = actions.pop_last() {
        desk.perform(action);
    }
}

/// What becomes of an event whose post was refused. A post that waits is never `Busy`.
fn fate_by(reason: PostReason) -> Fate
    ensures fate { result ≡ fate_by reason }
{
    match reason {
        PostReason::Busy(_) => Fate::NoMemory,
        PostReason::Full => Fate::Full,
        PostReason::Stray(seen) => Fate::Strayed(seen),
        PostReason::NoMemory => Fate::NoMemory,
    }
}

/// Posts an event and lets the desk perform its actions, or gives the event back to the desk.
fn handle<D: Desk, R: Wait>(
    rt: &R,
    alloc: Global,
    shared: &SharedServer,
    pass: Pass,
    desk: &mut D,
    event: Event,
) -> Handled
    requires { IsOf shared.now pass }
    ensures handled { IsHandled shared.now pass (D.seen desk.old) (D.seen desk.new) event result.fate result.pass }
{
    let said = desk.said(&event);
    match shared.post(rt, alloc, pass, event, said) {
        Ok(posted) => {
            perform_all(desk, posted.actions);
            Handled {
                pass: posted.pass,
                fate: Fate::Posted(posted.end),
            }
        }
        Err(refused) => {
            desk.refuse(refused.event);
            Handled {
                pass: refused.pass,
                fate: fate_by(refused.reason),
            }
        }
    }
}

/// Why the worker stops after a post that leaves the run so, if it does.
fn end_by(end: StepEnd) -> Option<WorkEnd>
    ensures end { result ≡ end_by end }
{
    match end {
        StepEnd::On => None,
        _ => Some(WorkEnd::Over),
    }
}

/// Counts an event by what became of it, and says why the worker stops, if it does.
fn settle(fate: Fate, tally: &mut Tally) -> Option<WorkEnd>
    requires room { 0 < spare tally.old.strays }
    requires few { tally.old.taken < u64.MAX }
    requires fewer { tally.old.answered ≤ tally.old.taken }
    ensures settled { IsSettled fate tally.old tally.new result }
    ensures taken { tally.new.taken ≡ tally.old.taken + 1 }
    ensures fewer { tally.new.answered ≤ tally.new.taken }
{
    tally.taken += 1;
    match fate {
        Fate::Posted(end) => {
            tally.answered += 1;
            end_by(end)
        }
        Fate::Strayed(seen) => {
            let place = tally.taken;
            tally.strays.put(Strayed { place, seen });
            None
        }
        Fate::Full => Some(WorkEnd::Full),
        Fate::NoMemory => Some(WorkEnd::NoMemory),
    }
}

/// Which of two workers has the pass: 0 where its seat has the number 0, else 1.
fn worker_of(shared: &SharedServer, pass: &Pass) -> u32
    requires { IsOf shared.now pass.now }
    ensures left { (hand_in pass.now).number ≡ 0 → result ≡ 0 }
    ensures right { (hand_in pass.now).number ≢ 0 → result ≡ 1 }
{
    if shared.seat(pass) == 0 { 0 } else { 1 }
}

/// The last turn, without an event.
fn stopped(pass: Pass, end: WorkEnd) -> Turned
    ensures pass { result.pass ≡ pass }
    ensures end { result.end ≡ Some end }
{
    Turned {
        pass,
        end: Some(end),
    }
}

/// One turn: the next event, if one comes in time, and what becomes of it.
fn turn<D: Desk, G: Gate, R: Wait>(
    rt: &R,
    alloc: Global,
    shared: &SharedServer,
    pass: Pass,
    desk: &mut D,
    gate: &G,
    tally: &mut Tally,
) -> Turned
    requires of { IsOf shared.now pass }
    requires few { tally.old.taken < u64.MAX }
    requires fewer { tally.old.answered ≤ tally.old.taken }
    ensures turned { IsTurned shared.now pass (D.seen desk.old) (D.seen desk.new) tally.old tally.new result.pass result.end }
    ensures few { tally.new.taken ≤ tally.old.taken + 1 }
    ensures fewer { tally.new.answered ≤ tally.new.taken }
{
    if tally.strays.reserve(alloc, 1).is_err() {
        return stopped(pass, WorkEnd::NoMemory);
    }
    match desk.take(alloc) {
        DeskAnswer::Event(event) => {
            let handled = handle(rt, alloc, shared, pass, desk, event);
            let end = settle(handled.fate, tally);
            if let Fate::Posted(_) = handled.fate {
                gate.after(worker_of(shared, &handled.pass), tally.answered);
            }
            Turned {
                pass: handled.pass,
                end,
            }
        }
        DeskAnswer::Nothing => Turned { pass, end: None },
        DeskAnswer::Closed => stopped(pass, WorkEnd::Closed),
        DeskAnswer::Failed => stopped(pass, WorkEnd::Fault),
        DeskAnswer::NoMemory => stopped(pass, WorkEnd::NoMemory),
    }
}

/// Asks the desk for an event at most `turns` times. Posts each event, lets the desk perform the
/// actions of its post in order, and calls `gate.after(w, n)` after the n-th post that was answered,
/// where w is 0 for the seat numbered 0 and else 1. An event that doesn't fit goes back to the desk,
/// and the work goes on. It waits for the server's turn.
pub fn work<D: Desk, G: Gate, R: Wait>(
    rt: &R,
    alloc: Global,
    shared: &SharedServer,
    mut pass: Pass,
    desk: &mut D,
    gate: &G,
    turns: u64,
) -> Worked
    requires { IsOf shared.now pass }
    ensures worked { IsWorked shared.now pass turns (D.seen desk.old) (D.seen desk.new) result }
{
    let mut tally = Tally {
        strays: StrayList::new(alloc),
        taken: 0,
        answered: 0,
    };
    for _ in 0..turns {
        let turned = turn(rt, alloc, shared, pass, desk, gate, &mut tally);
        pass = turned.pass;
        match turned.end {
            Some(end) => {
                return Worked {
                    pass,
                    end,
                    strays: tally.strays,
                };
            }
            None => {}
        }
    }
    Worked {
        pass,
        end: WorkEnd::TurnsSpent,
        strays: tally.strays,
    }
}
