//! The account that a host tells of a run, kept apart from what the host does by itself.

ghost use Rattle.std.specs.Prelude.{◌≡◌, ◌+◌, ◌<◌, ◌≤◌, [], ◌∷◌, reverse, Some, None, IsSome, MatchBool, OnOk};
ghost use Rattle.svc_base.specs.Items.{list_of};
ghost use Rattle.svc_base.specs.Streams.{Rose};
ghost use Rattle.svc_record.specs.declared.entry.Entry.TheVariants.{Got, Told};
ghost use Rattle.svc_server.specs.Hosts.{tells_failure};
ghost use Rattle.svc_server.specs.InnerHosts.{counted};
ghost use Rattle.svc_server.specs.ScriptHosts.{last_event};

use std::alloc::Global;
use std::marker::Model;
use std::mem::drop;
use svc_base::{NoMemory, Reserved};
use svc_record::{Action, Entries, Entry, Event};

/// What a host gave and was told, the services that it was handed, and its counts. Contracts see them
/// with the newest first, its room, and the last event.
#[derive(Drop)]
pub(crate) struct HostAccount<B> {
    entries: Entries,
    handed: Reserved<(u32, B)>,
    /// Where the last event that came stands among the entries.
    last: Option<usize>,
    faults: u64,
    idles: u64,
    failures: u64,
}

impl<B> Model for HostAccount<B> {
    ghost use Rattle.std.specs.Prelude.{reverse, min};
    ghost use Rattle.svc_base.specs.Items.{list_of, spare};
    ghost use Rattle.svc_server.specs.ScriptHosts.{last_event};
    ghost use Rattle.svc_server.specs.AccountData.{AccountData};

    ghost Value = { AccountData B };

    ghost view = { λ a. record {
      entries = reverse (list_of a.entries);
      handed = reverse (list_of a.handed);
      faults = a.faults;
      idles = a.idles;
      failures = a.failures;
      spare = min (spare a.entries) (spare a.handed);
      last = last_event (list_of a.entries) a.last;
    } };
}

/// The event at this place of the entries.
fn event_at(entries: &[Entry], place: Option<usize>) -> &Event
    requires { IsSome (last_event entries.now place) }
    ensures { last_event entries.now place ≡ Some result.now }
{
    let Some(i) = place else { unreachable!() };
    match entries.get(i) {
        Some(Entry::Got(event)) => event,
        _ => unreachable!(),
    }
}

/// The count of events that tell a failure, with this event.
pub fn failures_with(failures: u64, event: &Event) -> u64
    ensures { MatchBool (tells_failure event.now) (Rose failures result) (result ≡ failures) }
{
    match event {
        Event::BindFailed(..)
        | Event::AdoptFailed(..)
        | Event::ReceiveFailed
        | Event::ConnectFailed
        | Event::SendFailed
        | Event::AcceptFailed(..) => failures.saturating_add(1),
        _ => failures,
    }
}

impl<B: Drop> HostAccount<B> {
    /// What was got and told, the oldest first. All else is let go.
    pub(crate) fn into_entries(self) -> Entries
        ensures { list_of result ≡ reverse self.entries }
    {
        let HostAccount {
            entries,
            handed,
            last: _,
            faults: _,
            idles: _,
            failures: _,
        } = self;
        drop(handed);
        entries
    }
}

impl<B> HostAccount<B> {
    /// The account of a run that hasn't begun.
    pub(crate) fn new(alloc: Global) -> Self
        ensures entries { result.entries ≡ [] }
        ensures handed { result.handed ≡ [] }
        ensures faults { result.faults ≡ 0 }
        ensures idles { result.idles ≡ 0 }
        ensures failures { result.failures ≡ 0 }
        ensures last { result.last ≡ None }
    {
        HostAccount {
            entries: Entries::new(alloc),
            handed: Reserved::new(alloc),
            last: None,
            faults: 0,
            idles: 0,
            failures: 0,
        }
    }

    /// What was got and told, the oldest first.
    pub(crate) fn entries(&self) -> &Entries
        ensures { list_of result.now ≡ reverse self.now.entries }
    {
        &self.entries
    }

    /// How often the host failed.
    pub(crate) fn faults(&self) -> u64
        ensures { result ≡ self.now.faults }
    {
        self.faults
    }

    /// How often nothing came.
    pub(crate) fn idles(&self) -> u64
        ensures { result ≡ self.now.idles }
    {
        self.idles
    }

    /// How many events came that tell a failure.
    pub(crate) fn failures(&self) -> u64
        ensures { result ≡ self.now.failures }
    {
        self.failures
    }

    /// The last event that came.
    pub(crate) fn event(&self) -> &Event
        requires { IsSome self.now.last }
        ensures { self.now.last ≡ Some result.now }
    {
        event_at(self.entries.as_slice(), self.last)
    }

    /// Makes room for `n` events, services and actions together.
    pub(crate) fn reserve(&mut self, alloc: Global, n: u64) -> Result<(), NoMemory>
        ensures room { OnOk result (n ≤ self.new.spare) }
        ensures kept { self.old.spare ≤ self.new.spare }
        ensures same { self.new ≡ record self.old { spare = self.new.spare } }
    {
        self.entries.reserve(alloc, n)?;
        self.handed.reserve(alloc, n)
    }

    /// An event comes.
    pub(crate) fn take(&mut self, event: Event)
        requires { 0 < self.old.spare }
        ensures entries { self.new.entries ≡ Got event ∷ self.old.entries }
        ensures last { self.new.last ≡ Some event }
        ensures handed { self.new.handed ≡ self.old.handed }
        ensures faults { self.new.faults ≡ self.old.faults }
        ensures idles { self.new.idles ≡ self.old.idles }
        ensures failures { MatchBool (tells_failure event) (Rose self.old.failures self.new.failures) (self.new.failures ≡ self.old.failures) }
        ensures room { self.old.spare ≤ self.new.spare + 1 }
    {
        self.failures = failures_with(self.failures, &event);
        self.last = Some(self.entries.as_slice().len());
        self.entries.put(Entry::Got(event));
    }

    /// The host fails.
    pub(crate) fn fail(&mut self)
        ensures faults { self.new.faults ≡ counted self.old.faults }
        ensures same { self.new ≡ record self.old { faults = self.new.faults } }
    {
        self.faults = self.faults.saturating_add(1);
    }

    /// Nothing comes.
    pub(crate) fn idle(&mut self)
        ensures idles { self.new.idles ≡ counted self.old.idles }
        ensures same { self.new ≡ record self.old { idles = self.new.idles } }
    {
        self.idles = self.idles.saturating_add(1);
    }

    /// A service is handed over.
    pub(crate) fn hand(&mut self, s: u32, service: B)
        requires { 0 < self.old.spare }
        ensures handed { self.new.handed ≡ (s, service) ∷ self.old.handed }
        ensures room { self.old.spare ≤ self.new.spare + 1 }
        ensures same { self.new ≡ record self.old { handed = self.new.handed; spare = self.new.spare } }
    {
        self.handed.put((s, service));
    }

    /// An action is told.
    pub(crate) fn tell(&mut self, action: Action)
        requires { 0 < self.old.spare }
        ensures entries { self.new.entries ≡ Told action ∷ self.old.entries }
        ensures handed { self.new.handed ≡ self.old.handed }
        ensures faults { self.new.faults ≡ self.old.faults }
        ensures idles { self.new.idles ≡ self.old.idles }
        ensures failures { self.new.failures ≡ self.old.failures }
        ensures room { self.old.spare ≤ self.new.spare + 1 }
    {
        self.entries.put(Entry::Told(action));
    }
}
