//! Desks over sockets.

ghost use Rattle.std.specs.Prelude.{◌≡◌, ◌+◌, ◌≤◌, [], ◌∷◌, Some, None, IfOk, IfSome, OnErr};
ghost use Rattle.svc_base.specs.Calls.{told_of, room_of, Adds, Stays};
ghost use Rattle.svc_desk.specs.Desks.{least_room};

use std::alloc::Global;
use std::mem::drop;
use std::net::{Net, TcpListener, TcpStream};
use std::sync::{Mutex, Wait};
use std::thread;
use std::time::{Clock, Duration};
use svc_base::{Calls, NoMemory};
use svc_desk::{Desk, DeskAnswer};
use svc_record::{Action, Event, Plan};
use svc_sockets::{NextRefused, Seat, Slot, Sockets};

/// One of the two desks of a server over sockets, which both share under a lock. It tells each of its
/// three lists for as many entries as it was made with room for, since a take for whose entry there is
/// no memory gives no event.
#[derive(Drop)]
pub struct RealDesk<'a, R: Wait + Net<Listener = TcpListener, Stream = TcpStream> + Clock> {
    pub rt: &'a R,
    pub seat: Seat,
    pub sockets: &'a Mutex<Sockets>,
    pub slot: &'a Mutex<Slot<TcpListener>>,
    /// Whether it met a plan.
    pub met: bool,
    pub taken: Calls<Event>,
    pub performed: Calls<Action>,
    pub refused: Calls<Event>,
    /// An event for whose entry there was no memory.
    pub kept: Option<Event>,
    pub takes: u64,
    pub fault_count: u64,
    pub idle_count: u64,
}

/// What a look at the sockets found.
enum Found {
    Event(Event),
    Nothing,
    Closed,
    Failed,
    NoMemory,
}

/// Looks at the sockets, without waiting for a peer.
fn look<R: Wait + Clock>(rt: &R, sockets: &Mutex<Sockets>, seat: Seat) -> Found {
    let mut guard = sockets.lock(rt);
    if guard.has_ended() {
        return Found::Closed;
    }
    match guard.next(rt, seat) {
        Ok(Some(event)) => Found::Event(event),
        Ok(None) => Found::Nothing,
        Err(NextRefused::NoMemory) => Found::NoMemory,
        Err(NextRefused::Clock) => Found::Failed,
    }
}

/// The event that was kept, or what a look at the sockets finds.
fn found_next<R: Wait + Clock>(
    rt: &R,
    sockets: &Mutex<Sockets>,
    seat: Seat,
    kept: &mut Option<Event>,
) -> Found
    ensures kept { IfSome kept.old (λ event. result ≡ Found.Event event) }
    ensures none { kept.new ≡ None }
{
    match kept.take() {
        Some(event) => Found::Event(event),
        None => look(rt, sockets, seat),
    }
}

/// Notes an event and gives it back. Where there is no memory for its entry, it is kept for the next take.
fn noted(
    alloc: Global,
    event: Event,
    taken: &mut Calls<Event>,
    kept: &mut Option<Event>,
) -> Result<Event, NoMemory>
    requires none { kept.old ≡ None }
    ensures given { IfOk result (λ given. given ≡ event) }
    ensures taken { IfOk result (λ given. Adds (told_of taken.old) (told_of taken.new) (event ∷ [])) }
    ensures kept { OnErr result (kept.new ≡ Some event) }
    ensures same { OnErr result (taken.new ≡ taken.old) }
    ensures stays { Stays (told_of taken.old) (told_of taken.new) (room_of taken.old) (room_of taken.new) }
    ensures place { room_of taken.old ≤ room_of taken.new + 1 }
{
    match event.copy(alloc) {
        Ok(copied) => {
            taken.note(copied);
            Ok(event)
        }
        Err(NoMemory) => {
            *kept = Some(event);
            Err(NoMemory)
        }
    }
}

/// A desk over these sockets, with the slot between its server and another one, and with room for so
/// many entries in each list. `NoMemory` where there is none for them.
pub fn real_desk<'a, R: Wait + Net<Listener = TcpListener, Stream = TcpStream> + Clock>(
    rt: &'a R,
    alloc: Global,
    seat: Seat,
    sockets: &'a Mutex<Sockets>,
    slot: &'a Mutex<Slot<TcpListener>>,
    room: u64,
) -> Result<RealDesk<'a, R>, NoMemory>
    ensures taken { IfOk result (λ desk. told_of desk.taken ≡ Some []) }
    ensures performed { IfOk result (λ desk. told_of desk.performed ≡ Some []) }
    ensures refused { IfOk result (λ desk. told_of desk.refused ≡ Some []) }
    ensures takes { IfOk result (λ desk. desk.takes ≡ 0) }
    ensures room { IfOk result (λ desk. least_room (room_of desk.taken) (room_of desk.performed) (room_of desk.refused) desk.takes ≡ room) }
    ensures faults { IfOk result (λ desk. desk.fault_count ≡ 0) }
    ensures idles { IfOk result (λ desk. desk.idle_count ≡ 0) }
{
    let Ok(taken) = Calls::new(alloc, room) else {
        return Err(NoMemory);
    };
    let Ok(performed) = Calls::new(alloc, room) else {
        drop(taken);
        return Err(NoMemory);
    };
    let Ok(refused) = Calls::new(alloc, room) else {
        drop(taken);
        drop(performed);
        return Err(NoMemory);
    };
    Ok(RealDesk {
        rt,
        seat,
        sockets,
        slot,
        met: false,
        taken,
        performed,
        refused,
        kept: None,
        takes: 0,
        fault_count: 0,
        idle_count: 0,
    })
}

impl<'a, R: Wait + Net<Listener = TcpListener, Stream = TcpStream> + Clock> Desk
    for RealDesk<'a, R> {
    ghost use Rattle.std.specs.Prelude.{Some, None, true, ltb, if◌then◌else◌};
    ghost use Rattle.svc_base.specs.Calls.{told_of, room_of};
    ghost use Rattle.svc_desk.specs.Desks.{least_room};

    // The takes are told until their count stands at its greatest value.
    ghost seen = { λ d. record {
      met = d.met;
      says = λ event. true;
      taken = told_of d.taken;
      performed = told_of d.performed;
      refused = told_of d.refused;
      takes = if ltb d.takes 18446744073709551615 then Some d.takes else None;
      room = least_room (room_of d.taken) (room_of d.performed) (room_of d.refused) d.takes;
      faults = d.fault_count;
      idles = d.idle_count;
    } };

    fn faults(&self) -> u64 {
        self.fault_count
    }

    fn idles(&self) -> u64 {
        self.idle_count
    }

    fn meet(&mut self, _alloc: Global, plan: &Plan) -> Result<(), NoMemory> {
        self.sockets.lock(self.rt).meet(self.rt, plan)?;
        self.met = true;
        Ok(())
    }

    fn take(&mut self, alloc: Global) -> DeskAnswer {
        self.takes = self.takes.saturating_add(1);
        match found_next(self.rt, self.sockets, self.seat, &mut self.kept) {
            Found::Event(event) => match noted(alloc, event, &mut self.taken, &mut self.kept) {
                Ok(event) => DeskAnswer::Event(event),
                Err(NoMemory) => DeskAnswer::NoMemory,
            },
            Found::Nothing => {
                thread::sleep(self.rt, Duration::from_millis(1));
                DeskAnswer::Nothing
            }
            Found::Closed => {
                self.idle_count = self.idle_count.saturating_add(1);
                DeskAnswer::Closed
            }
            Found::Failed => {
                self.fault_count = self.fault_count.saturating_add(1);
                DeskAnswer::Failed
            }
            Found::NoMemory => DeskAnswer::NoMemory,
        }
    }

    fn said(&mut self, _event: &Event) -> bool {
        true
    }

    fn perform(&mut self, action: Action) {
        self.sockets
            .lock(self.rt)
            .perform(self.rt, self.slot, &action);
        self.performed.note(action);
    }

    fn refuse(&mut self, event: Event) {
        self.sockets.lock(self.rt).refuse(&event);
        self.refused.note(event);
    }
}
