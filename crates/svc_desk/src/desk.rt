//! One worker's part of the outside.

ghost use Rattle.std.specs.Prelude.{◌≡◌, [], ◌∷◌, IfErr, OnOk};
ghost use Rattle.svc_desk.specs.Desks.{DeskData, IsTaken, IsPerformed, IsRefusedBy, meeting};

use std::alloc::Global;
use svc_base::NoMemory;
use svc_record::{Action, Event, Plan};

/// What a desk answers where it is asked for the next event.
#[derive(Debug, Drop)]
pub enum DeskAnswer {
    /// An event came.
    Event(Event),
    /// Nothing came in time.
    Nothing,
    /// Nothing comes any more; the count of idles rose.
    Closed,
    /// The desk failed; the count of faults rose.
    Failed,
    /// There was no memory for the entry. The event stays for the next take.
    NoMemory,
}

/// One worker's part of the outside: it gives events, performs actions, and takes back the events
/// that weren't posted.
///
/// A desk may tell three lists, of the events that it gave, of the actions that it performed and of
/// the events that it took back, and the number of its takes. What it tells it goes on to tell as long
/// as it has room; each call takes room for one at most. Its two counts never fall; only `take`
/// changes them. A count that stands at its greatest value stays there, and is then said to have risen.
pub trait Desk {
    // What contracts see of it.
    ghost seen: { Self → DeskData };

    /// How often it failed.
    fn faults(&self) -> u64
        ensures { result ≡ (seen self.now).faults };

    /// How often nothing came any more.
    fn idles(&self) -> u64
        ensures { result ≡ (seen self.now).idles };

    /// Learns the plan's services and addresses. It is asked first. `NoMemory` where there is none for
    /// what it has to keep of them; the desk is then as it was.
    fn meet(&mut self, alloc: Global, plan: &Plan) -> Result<(), NoMemory>
        ensures met { OnOk result (seen self.new ≡ meeting (seen self.old)) }
        ensures refused { IfErr result (λ _. seen self.new ≡ seen self.old) };

    /// Takes the next event, if one comes in time.
    fn take(&mut self, alloc: Global) -> DeskAnswer
        ensures { IsTaken (seen self.old) (seen self.new) result };

    /// What the endpoint's filter says of an arrival, at each time the same. At other events the answer
    /// has no effect.
    fn said(&mut self, event: &Event) -> bool
        ensures said { result ≡ (seen self.old).says event.now }
        ensures seen { seen self.new ≡ seen self.old };

    /// Performs an action. It takes no memory.
    fn perform(&mut self, action: Action)
        ensures { IsPerformed (seen self.old) (seen self.new) (action ∷ []) };

    /// Takes back an event that wasn't posted; what it brought is dropped.
    fn refuse(&mut self, event: Event)
        ensures { IsRefusedBy (seen self.old) (seen self.new) event };
}
