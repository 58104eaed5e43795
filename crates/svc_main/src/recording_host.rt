//! A host that gives the items of a script, and shows what comes and is told to a recorder.

ghost use Rattle.std.specs.Prelude.{◌≡◌, ◌^◌, [], ◌∷◌, map, All, Some, None, MatchBool};
ghost use Rattle.svc_base.specs.Streams.{Rose};
ghost use Rattle.svc_record.specs.declared.entry.Entry.TheVariants.{Got};
ghost use Rattle.svc_server.specs.Hosts.{no_account, tells_failure};
ghost use Rattle.svc_server.specs.ScriptHosts.{GivesFew, counts_with, handed_with};

use crate::recorder::Recorder;
use std::alloc::Global;
use std::marker::Model;
use std::mem::{drop, replace};
use svc_base::NoMemory;
use svc_graph::services::ServiceWithDependents;
use svc_history::History;
use svc_record::{Action, Entry, Event, Item};
use svc_server::{Host, Next, failures_with};
use svc_text::ScriptItems;

/// A host that gives the items of a list, one after the other. It keeps the last event, shows each
/// event and action to a recorder, and lets the services go that it is handed. It tells its account,
/// of which it keeps nothing.
#[derive(Drop)]
pub(crate) struct RecordingHost<R: Recorder, B> {
    /// The items that are left.
    left: ScriptItems,
    recorder: R,
    handed: History<(u32, B)>,
    last: Option<Event>,
    faults: u64,
    idles: u64,
    failures: u64,
}

impl<R: Recorder, B> Model for RecordingHost<R, B> {
    ghost use Rattle.std.specs.Prelude.{All};
    ghost use Rattle.svc_main.specs.RecordingHostData.{RecordingHostData};
    ghost use Rattle.svc_server.specs.ScriptHosts.{GivesFew};

    ghost Value = { RecordingHostData R B };

    ghost view = { λ h. record {
      left = h.left;
      recorder = h.recorder;
      handed = h.handed;
      last = h.last;
      faults = h.faults;
      idles = h.idles;
      failures = h.failures;
    } };

    ghost invariant = { λ h. All GivesFew h.left };
}

impl<R: Recorder, B: ServiceWithDependents + Drop> RecordingHost<R, B> {
    /// A host of a run that hasn't begun: it will give these items, in order, of which none brings
    /// more than 32 descriptors.
    pub(crate) fn new(items: ScriptItems, recorder: R) -> Self
        requires few { All GivesFew items }
        requires first { R.shown recorder ≡ [] }
        ensures ahead { ⟦<RecordingHost<R, B> as Host>⟧.ahead result ≡ Some items }
        ensures account { ⟦<RecordingHost<R, B> as Host>⟧.account result ≡ Some no_account }
    {
        RecordingHost {
            left: items,
            recorder,
            handed: History::new(),
            last: None,
            faults: 0,
            idles: 0,
            failures: 0,
        }
    }

    /// An event comes.
    fn take(&mut self, event: Event)
        ensures shown { R.shown self.new.recorder ≡ Got event ∷ R.shown self.old.recorder }
        ensures last { self.new.last ≡ Some event }
        ensures failures { MatchBool (tells_failure event) (Rose self.old.failures self.new.failures) (self.new.failures ≡ self.old.failures) }
        ensures left { self.new.left ≡ self.old.left }
        ensures handed { self.new.handed ≡ self.old.handed }
        ensures faults { self.new.faults ≡ self.old.faults }
        ensures idles { self.new.idles ≡ self.old.idles }
    {
        self.failures = failures_with(self.failures, &event);
        let entry = Entry::Got(event);
        self.recorder.note(&entry);
        match entry {
            Entry::Got(event) => drop(replace(&mut self.last, Some(event))),
            Entry::Told(action) => drop(action),
        }
    }
}

impl<R: Recorder + Drop, B: Drop> RecordingHost<R, B> {
    /// The recorder, with what it was shown.
    pub(crate) fn into_recorder(self) -> R
        ensures { result ≡ self.recorder }
    {
        let RecordingHost {
            left,
            recorder,
            handed,
            last,
            faults: _,
            idles: _,
            failures: _,
        } = self;
        drop(left);
        drop(handed);
        drop(last);
        recorder
    }
}

/// It tells everything.
impl<R: Recorder, B: ServiceWithDependents + Drop> Host for RecordingHost<R, B> {
    type Service = B;

    ghost account = { λ h. Some (record { entries = R.shown h.recorder; handed = map (handed_with B.named) h.handed }) };

    ghost counts = { λ h. counts_with h.faults h.idles h.failures };

    // It takes no memory by itself.
    ghost spare = { λ _. 2 ^ 64 };

    ghost last = { λ h. h.last };

    ghost ahead = { λ h. Some h.left };

    fn faults(&self) -> u64 {
        self.faults
    }

    fn idles(&self) -> u64 {
        self.idles
    }

    fn failures(&self) -> u64 {
        self.failures
    }

    fn reserve(&mut self, _alloc: Global, _n: u64) -> Result<(), NoMemory> {
        Ok(())
    }

    fn next(&mut self) -> Next {
        match self.left.next() {
            Some(Item::Event(event)) => {
                self.take(event);
                Next::Event
            }
            Some(Item::Fault) => {
                self.faults = self.faults.saturating_add(1);
                Next::Failed
            }
            None => {
                self.idles = self.idles.saturating_add(1);
                Next::None
            }
        }
    }

    fn event(&self) -> &Event {
        match &self.last {
            Some(event) => event,
            None => unreachable!(),
        }
    }

    fn hand(&mut self, s: u32, service: B) {
        self.handed.push(&(s, service));
    }

    fn tell(&mut self, action: Action) {
        self.recorder.note(&Entry::Told(action));
    }
}
