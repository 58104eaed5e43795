//! The outside of a run: what gives events, is handed services, and is told actions.

ghost use Rattle.std.specs.Prelude.{◌≡◌, ◌+◌, ◌<◌, ◌≤◌, ℕ, List, Option, Some, None, IsSome, IfSome, OnOk};
ghost use Rattle.std.specs.Option.{option_map};
ghost use Rattle.svc_record.specs.declared.event.Event.{Event};
ghost use Rattle.svc_record.specs.declared.item.Item.{Item};
ghost use Rattle.svc_record.specs.declared.entry.Entry.TheVariants.{Told};
ghost use Rattle.svc_server.specs.Hosts.{Account, HostMake, Counts, ComesWith, CountsAfter, AheadAfter, MayTell, account_after, item_of, with_entry, with_handed};

use std::alloc::Global;
use svc_base::NoMemory;
use svc_graph::services::ServiceWithDependents;
use svc_record::{Action, Event};

/// What a host answers where it is asked for the next event.
#[derive(Clone, Copy, PartialEq, Eq, Debug)]
pub enum Next {
    /// An event came: `Host::event` lends it.
    Event,
    /// Nothing comes any more.
    None,
    /// The host failed.
    Failed,
}

/// What a server runs over: it gives events, is handed the services that it is to start, and is told
/// actions.
///
/// A host may tell its account: the record of all that it gave and was told, and the list of the
/// services that it was handed. Its three counts never fall; only `next` changes them. A count that
/// stands at its greatest value stays there, and is then said to have risen.
pub trait Host {
    /// The services that it takes over: `Box<dyn ServiceWithDependents>` for most.
    type Service: ServiceWithDependents;

    // What was got, told and handed over, where the host tells it.
    ghost account: { Self → Option Account };

    // The counts of faults, of answers that nothing comes, and of events that tell a failure.
    ghost counts: { Self → Counts };

    // For how many more events, services and actions there is memory.
    ghost spare: { Self → ℕ };

    // The last event that came.
    ghost last: { Self → Option Event };

    // What it will answer, where that is known beforehand.
    ghost ahead: { Self → Option (List Item) } = { λ _. None };

    // What it was made of, where it tells that: it stays, whatever it gives and is told.
    ghost made_of: { Self → Option HostMake } = { λ _. None };

    /// How often the host failed.
    fn faults(&self) -> u64
        ensures { result ≡ (counts self.now).faults };

    /// How often nothing came any more.
    fn idles(&self) -> u64
        ensures { result ≡ (counts self.now).idles };

    /// How many events came that tell a failure.
    fn failures(&self) -> u64
        ensures { result ≡ (counts self.now).failures };

    /// Makes room for `n` events, services and actions together.
    fn reserve(&mut self, alloc: Global, n: u64) -> Result<(), NoMemory>
        ensures room { OnOk result (n ≤ spare self.new) }
        ensures kept { spare self.old ≤ spare self.new }
        ensures account { account self.new ≡ account self.old }
        ensures counts { counts self.new ≡ counts self.old }
        ensures ahead { ahead self.new ≡ ahead self.old }
        ensures made { made_of self.new ≡ made_of self.old };

    /// Whether it wants to be told before each event until when no moment is due (`wait_until`). A host
    /// that waits for the system does. One that has its events already doesn't: finding the moment may
    /// look at each service.
    fn asks_due(&self) -> bool {
        false
    }

    /// Is told the least moment, in milliseconds, at which the event `Moment` tells something; none
    /// where only other events do. An earlier `Moment` tells nothing, so it may wait until then.
    fn wait_until(&mut self, _due: Option<u64>)
        ensures room { spare self.old ≤ spare self.new }
        ensures account { account self.new ≡ account self.old }
        ensures counts { counts self.new ≡ counts self.old }
        ensures ahead { ahead self.new ≡ ahead self.old }
        ensures made { made_of self.new ≡ made_of self.old }
    {}

    /// Takes the next event, if one comes. It needs room for one, and uses it. An event brings at
    /// most 32 descriptors.
    fn next(&mut self) -> Next
        requires room { 0 < spare self.old }
        ensures room { spare self.old ≤ spare self.new + 1 }
        ensures event { ComesWith result (last self.new) }
        ensures account { account self.new ≡ account_after result (last self.new) (account self.old) }
        ensures counts { CountsAfter result (last self.new) (counts self.old) (counts self.new) }
        ensures ahead { AheadAfter (item_of result (last self.new)) (ahead self.old) (ahead self.new) }
        ensures made { made_of self.new ≡ made_of self.old };

    /// The last event that came.
    fn event(&self) -> &Event
        requires { IsSome (last self.now) }
        ensures { last self.now ≡ Some result.now };

    /// Takes over the service that is to be started next, whose number is `s`. It needs room for one,
    /// and uses it.
    fn hand(&mut self, s: u32, service: Self::Service)
        requires room { 0 < spare self.old }
        ensures room { spare self.old ≤ spare self.new + 1 }
        ensures account { account self.new
            ≡ option_map (with_handed (record { service = s; name = Self.Service.named service }))
            (account self.old) }
        ensures counts { counts self.new ≡ counts self.old }
        ensures ahead { ahead self.new ≡ ahead self.old }
        ensures made { made_of self.new ≡ made_of self.old };

    /// Is told an action. It needs room for one, and uses it. Before a start, where the host tells its
    /// account, the services that were started were handed over, in order, and then this one.
    fn tell(&mut self, action: Action)
        requires room { 0 < spare self.old }
        requires handed { IfSome (account self.old) (MayTell action) }
        ensures room { spare self.old ≤ spare self.new + 1 }
        ensures account { account self.new ≡ option_map (with_entry (Told action)) (account self.old) }
        ensures counts { counts self.new ≡ counts self.old }
        ensures ahead { ahead self.new ≡ ahead self.old }
        ensures made { made_of self.new ≡ made_of self.old };
}
