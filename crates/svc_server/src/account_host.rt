//! A host that keeps the account of a run over an inner host, which does the rest.

ghost use Rattle.std.specs.Prelude.{◌≡◌, [], map, reverse, Some, None};
ghost use Rattle.svc_base.specs.Items.{list_of};
ghost use Rattle.svc_server.specs.ScriptHosts.{counts_with, handed_with};

use crate::account::HostAccount;
use crate::host::{Host, Next};
use crate::inner_host::InnerHost;
use std::alloc::Global;
use std::marker::Model;
use std::mem::drop;
use svc_base::NoMemory;
use svc_graph::services::ServiceWithDependents;
use svc_record::{Action, Entries, Event, Item};

/// A host that keeps what it gave and was told, the services that it was handed, and its counts, to
/// its end. An inner host says what it gives.
///
/// Contracts see the inner host, the record, the services, the counts, the room and the last event.
#[derive(Drop)]
pub struct AccountHost<H: InnerHost, B> {
    inner: H,
    account: HostAccount<B>,
}

impl<H: InnerHost, B> Model for AccountHost<H, B> {
    ghost use Rattle.std.specs.Prelude.{min};
    ghost use Rattle.svc_server.specs.AccountHostData.{AccountHostData};

    ghost Value = { AccountHostData H B };

    ghost view = { λ a. record {
      inner = a.inner;
      entries = a.account.entries;
      handed = a.account.handed;
      faults = a.account.faults;
      idles = a.account.idles;
      failures = a.account.failures;
      spare = min (H.spare a.inner) a.account.spare;
      last = a.account.last;
    } };

    ghost invariant = { λ a. H.keeps a.inner a.account.entries a.account.faults a.account.idles };
}

impl<H: InnerHost, B> AccountHost<H, B> {
    /// A host of a run that hasn't begun. It makes no memory of its own.
    pub fn new(alloc: Global, inner: H) -> Self
        requires { H.keeps inner [] 0 0 }
        ensures inner { result.inner ≡ inner }
        ensures entries { result.entries ≡ [] }
        ensures handed { result.handed ≡ [] }
        ensures faults { result.faults ≡ 0 }
        ensures idles { result.idles ≡ 0 }
        ensures failures { result.failures ≡ 0 }
        ensures last { result.last ≡ None }
    {
        AccountHost {
            inner,
            account: HostAccount::new(alloc),
        }
    }

    /// The inner host, with what it keeps.
    pub fn inner(&self) -> &H
        ensures inner { result.now ≡ self.now.inner }
        ensures keeps { H.keeps self.now.inner self.now.entries self.now.faults self.now.idles }
    {
        &self.inner
    }

    /// What it gave and was told, the oldest first.
    pub fn entries(&self) -> &Entries
        ensures { list_of result.now ≡ reverse self.now.entries }
    {
        self.account.entries()
    }
}

impl<H: InnerHost + Drop, B: Drop> AccountHost<H, B> {
    /// What it gave and was told, the oldest first. All else is let go.
    pub fn into_entries(self) -> Entries
        ensures { list_of result ≡ reverse self.entries }
    {
        let AccountHost { inner, account } = self;
        drop(inner);
        account.into_entries()
    }
}

/// It tells everything.
impl<H: InnerHost, B: ServiceWithDependents> Host for AccountHost<H, B> {
    type Service = B;

    ghost account = { λ h. Some (record { entries = h.entries; handed = map (handed_with B.named) h.handed }) };

    ghost counts = { λ h. counts_with h.faults h.idles h.failures };

    ghost spare = { λ h. h.spare };

    ghost last = { λ h. h.last };

    ghost ahead = { λ h. H.ahead h.inner };

    ghost made_of = { λ h. H.made_of h.inner };

    fn faults(&self) -> u64 {
        self.account.faults()
    }

    fn idles(&self) -> u64 {
        self.account.idles()
    }

    fn failures(&self) -> u64 {
        self.account.failures()
    }

    fn reserve(&mut self, alloc: Global, n: u64) -> Result<(), NoMemory> {
        self.inner.reserve(alloc, n)?;
        self.account.reserve(alloc, n)
    }

    fn asks_due(&self) -> bool {
        self.inner.asks_due()
    }

    fn wait_until(&mut self, due: Option<u64>) {
        self.inner.wait_until(due);
    }

    fn next(&mut self) -> Next {
        match self.inner.give() {
            Some(Item::Event(event)) => {
                self.account.take(event);
                Next::Event
            }
            Some(Item::Fault) => {
                self.account.fail();
                Next::Failed
            }
            None => {
                self.account.idle();
                Next::None
            }
        }
    }

    fn event(&self) -> &Event {
        self.account.event()
    }

    fn hand(&mut self, s: u32, service: B) {
        self.account.hand(s, service);
    }

    fn tell(&mut self, action: Action) {
        self.inner.note(&action);
        self.account.tell(action);
    }
}
