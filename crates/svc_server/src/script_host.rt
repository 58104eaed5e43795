//! A host that is made from a list of what it gives.

ghost use Rattle.std.specs.Prelude.{◌≡◌, [], map, reverse, All, Some, None};
ghost use Rattle.svc_base.specs.Items.{list_of};
ghost use Rattle.svc_server.specs.Hosts.{no_account};
ghost use Rattle.svc_server.specs.ScriptHosts.{FollowsScript, GivesFew, phases_of, counts_with, handed_with};

use crate::account_host::AccountHost;
use crate::host::{Host, Next};
use crate::script_items::ScriptItems;
use std::alloc::Global;
use std::marker::Model;
use svc_base::NoMemory;
use svc_graph::services::ServiceWithDependents;
use svc_record::{Action, Entries, Event, ExecutionPhase, Item};

/// A host that gives the items of a list, one after the other. It keeps what it gave and was told,
/// and the services that it was handed, to its end: an item is moved into its record. `reserve` makes
/// so much room in each of its lists.
///
/// Contracts see the items that it gave and those that are left, its record, the services, its counts,
/// its room and the last event.
#[derive(Drop)]
pub struct ScriptHost<B> {
    host: AccountHost<ScriptItems, B>,
}

impl<B> Model for ScriptHost<B> {
    ghost use Rattle.svc_server.specs.ScriptHostData.{ScriptHostData};
    ghost use Rattle.svc_server.specs.ScriptHosts.{items_given};
    ghost use Rattle.svc_server.specs.Runs.{events_of};

    ghost Value = { ScriptHostData B };

    ghost view = { λ a. record {
      taken = items_given a.host.inner.answers (events_of a.host.entries);
      left = a.host.inner.left;
      entries = a.host.entries;
      handed = a.host.handed;
      faults = a.host.faults;
      idles = a.host.idles;
      failures = a.host.failures;
      spare = a.host.spare;
      last = a.host.last;
    } };
}

impl<B: ServiceWithDependents> ScriptHost<B> {
    /// A host that gives these items, in order, of which none brings more than 32 descriptors. It
    /// makes no memory of its own.
    pub fn new(alloc: Global, items: Vec<Item>) -> Self
        requires { All GivesFew items.items }
        ensures taken { result.taken ≡ [] }
        ensures ahead { ⟦<ScriptHost<B> as Host>⟧.ahead result ≡ Some items.items }
        ensures account { ⟦<ScriptHost<B> as Host>⟧.account result ≡ Some no_account }
        ensures counts { ⟦<ScriptHost<B> as Host>⟧.counts result ≡ counts_with 0 0 0 }
        ensures last { ⟦<ScriptHost<B> as Host>⟧.last result ≡ None }
    {
        ScriptHost {
            host: AccountHost::new(alloc, ScriptItems::new(alloc, items)),
        }
    }

    /// What it gave and was told, the oldest first.
    pub fn entries(&self) -> &Entries
        ensures entries { list_of result.now ≡ reverse self.now.entries }
        ensures follows { FollowsScript self.now.taken self.now.left self.now.entries self.now.faults self.now.idles }
    {
        let _items = self.host.inner();
        self.host.entries()
    }

    /// What it gave and was told, the oldest first. All else is let go.
    pub fn into_entries(self) -> Entries
        ensures entries { list_of result ≡ reverse self.entries }
        ensures follows { FollowsScript self.taken self.left self.entries self.faults self.idles }
    {
        let _items = self.host.inner();
        self.host.into_entries()
    }

    /// The phases that it was told, the oldest first.
    pub fn phases(&self) -> &[ExecutionPhase]
        ensures { result.now ≡ phases_of self.now.entries }
    {
        self.host.inner().phases()
    }
}

/// It tells everything.
impl<B: ServiceWithDependents> Host for ScriptHost<B> {
    type Service = B;

    ghost account = { λ h. Some (record { entries = h.entries; handed = map (handed_with B.named) h.handed }) };

    ghost counts = { λ h. counts_with h.faults h.idles h.failures };

    ghost spare = { λ h. h.spare };

    ghost last = { λ h. h.last };

    ghost ahead = { λ h. Some h.left };

    fn faults(&self) -> u64 {
        self.host.faults()
    }

    fn idles(&self) -> u64 {
        self.host.idles()
    }

    fn failures(&self) -> u64 {
        self.host.failures()
    }

    fn reserve(&mut self, alloc: Global, n: u64) -> Result<(), NoMemory> {
        self.host.reserve(alloc, n)
    }

    fn next(&mut self) -> Next {
        self.host.next()
    }

    fn event(&self) -> &Event {
        self.host.event()
    }

    fn hand(&mut self, s: u32, service: B) {
        self.host.hand(s, service);
    }

    fn tell(&mut self, action: Action) {
        self.host.tell(action);
    }
}
