//! The account of a run, of which the last event alone is kept.

ghost use Rattle.std.specs.Prelude.{◌≡◌, [], ◌∷◌, Some, None, IsSome, MatchBool};
ghost use Rattle.svc_base.specs.Streams.{Rose};
ghost use Rattle.svc_record.specs.declared.entry.Entry.TheVariants.{Got, Told};
ghost use Rattle.svc_server.specs.Hosts.{tells_failure};
ghost use Rattle.svc_server.specs.InnerHosts.{counted};

use crate::recorder::Recorder;
use std::marker::Model;
use svc_history::History;
use svc_record::{Action, Entry, Event};
use svc_server::failures_with;

/// What a host gave and was told, the services that it was handed, and its counts. Contracts see it all,
/// with the newest first; the program keeps the last event and the counts.
#[derive(Drop)]
pub(crate) struct ToldAccount<B> {
    entries: History<Entry>,
    handed: History<(u32, B)>,
    last: Option<Event>,
    faults: u64,
    idles: u64,
    failures: u64,
}

impl<B> Model for ToldAccount<B> {
    ghost use Rattle.svc_host.specs.ToldAccountData.{ToldAccountData};

    ghost Value = { ToldAccountData B };

    ghost view = { λ a. record {
      entries = a.entries;
      handed = a.handed;
      last = a.last;
      faults = a.faults;
      idles = a.idles;
      failures = a.failures;
    } };
}

impl<B: Drop> ToldAccount<B> {
    /// The account of a run that hasn't begun.
    pub(crate) fn new() -> Self
        ensures { result ≡ record { entries = []; handed = []; last = None; faults = 0; idles = 0; failures = 0 } }
    {
        ToldAccount {
            entries: History::new(),
            handed: History::new(),
            last: None,
            faults: 0,
            idles: 0,
            failures: 0,
        }
    }

    /// How often the host failed.
    pub(crate) fn faults(&self) -> u64
        ensures { result ≡ self.now.faults }
    {
        self.faults
    }

    /// How often nothing came.
    pub(crate) fn idles(&self) -> u64
        ensures { result ≡ self.now.idles }
    {
        self.idles
    }

    /// How many events came that tell a failure.
    pub(crate) fn failures(&self) -> u64
        ensures { result ≡ self.now.failures }
    {
        self.failures
    }

    /// The last event that came.
    pub(crate) fn event(&self) -> &Event
        requires { IsSome self.now.last }
        ensures { self.now.last ≡ Some result.now }
    {
        match &self.last {
            Some(event) => event,
            None => unreachable!(),
        }
    }

    /// An event comes, and is shown to the recorder.
    pub(crate) fn take<K: Recorder>(&mut self, event: Event, recorder: &mut K)
        ensures entries { self.new.entries ≡ Got event ∷ self.old.entries }
        ensures last { self.new.last ≡ Some event }
        ensures handed { self.new.handed ≡ self.old.handed }
        ensures faults { self.new.faults ≡ self.old.faults }
        ensures idles { self.new.idles ≡ self.old.idles }
        ensures failures { MatchBool (tells_failure event) (Rose self.old.failures self.new.failures) (self.new.failures ≡ self.old.failures) }
    {
        self.failures = failures_with(self.failures, &event);
        let entry = Entry::Got(event);
        recorder.note(&entry);
        self.entries.push(&entry);
        match entry {
            Entry::Got(event) => self.last = Some(event),
            Entry::Told(_action) => {}
        }
    }

    /// The host fails.
    pub(crate) fn fail(&mut self)
        ensures { self.new ≡ record self.old { faults = counted self.old.faults } }
    {
        self.faults = self.faults.saturating_add(1);
    }

    /// Nothing comes.
    pub(crate) fn idle(&mut self)
        ensures { self.new ≡ record self.old { idles = counted self.old.idles } }
    {
        self.idles = self.idles.saturating_add(1);
    }

    /// A service is handed over, and let go.
    pub(crate) fn hand(&mut self, s: u32, service: B)
        ensures { self.new ≡ record self.old { handed = (s, service) ∷ self.old.handed } }
    {
        self.handed.push(&(s, service));
    }

    /// An action is told, and is shown to the recorder.
    pub(crate) fn tell<K: Recorder>(&mut self, action: Action, recorder: &mut K)
        ensures { self.new ≡ record self.old { entries = Told action ∷ self.old.entries } }
    {
        let entry = Entry::Told(action);
        recorder.note(&entry);
        self.entries.push(&entry);
    }
}
