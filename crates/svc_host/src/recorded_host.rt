//! A host that tells the account of a run, and keeps none of it, over an inner host, which does the rest.

ghost use Rattle.std.specs.Prelude.{◌≡◌, ◌≤◌, [], map, Some};
ghost use Rattle.svc_server.specs.Hosts.{no_account};
ghost use Rattle.svc_server.specs.ScriptHosts.{counts_with, handed_with};

use crate::recorder::Recorder;
use crate::told_account::ToldAccount;
use crate::waiting::Waiting;
use std::alloc::Global;
use std::marker::Model;
use svc_base::NoMemory;
use svc_graph::services::ServiceWithDependents;
use svc_record::{Action, Event, Item};
use svc_server::{Host, InnerHost, Next};
use svc_system::earlier;

/// A host that shows what it gave and was told to a recorder, and keeps of it the last event alone. So it
/// tells its account however long the run is. The services that it is handed it lets go: what they do is
/// the inner host's.
///
/// Contracts see the inner host, the recorder, the record, the services, the counts and the last event.
#[derive(Drop)]
pub struct RecordedHost<H: InnerHost, K: Recorder, B> {
    inner: H,
    recorder: K,
    account: ToldAccount<B>,
}

impl<H: InnerHost, K: Recorder, B> Model for RecordedHost<H, K, B> {
    ghost use Rattle.svc_host.specs.RecordedHostData.{RecordedHostData};

    ghost Value = { RecordedHostData H K B };

    ghost view = { λ h. record {
      inner = h.inner;
      recorder = h.recorder;
      entries = h.account.entries;
      handed = h.account.handed;
      last = h.account.last;
      faults = h.account.faults;
      idles = h.account.idles;
      failures = h.account.failures;
    } };

    ghost invariant = { λ h. H.keeps h.inner h.account.entries h.account.faults h.account.idles };
}

impl<H: Waiting, K: Recorder, B: ServiceWithDependents> RecordedHost<H, K, B> {
    /// A host of a run that hasn't begun.
    pub fn new(inner: H, recorder: K) -> Self
        requires { H.keeps inner [] 0 0 }
        ensures account { ⟦<RecordedHost<H, K, B> as Host>⟧.account result ≡ Some no_account }
        ensures inner { result.inner ≡ inner }
    {
        RecordedHost {
            inner,
            recorder,
            account: ToldAccount::new(),
        }
    }

    /// The run is over: the recorder lets go what it holds back.
    pub fn settle(&mut self)
        ensures { self.new ≡ record self.old { recorder = self.new.recorder } }
    {
        let _ = self.recorder.settle();
    }

    /// Begins what an operator asks for, if one does.
    fn upgrade(&mut self)
        ensures room { H.spare self.old.inner ≤ H.spare self.new.inner }
        ensures ahead { H.ahead self.new.inner ≡ H.ahead self.old.inner }
        ensures made { H.made_of self.new.inner ≡ H.made_of self.old.inner }
        ensures rest { self.new ≡ record self.old { inner = self.new.inner; recorder = self.new.recorder } }
    {
        if let Some(file) = self.inner.take_upgrade() {
            let answer = self.recorder.upgrade(file.as_str());
            self.inner.answer_upgrade(answer);
        }
    }

    /// The inner host.
    pub fn inner(&self) -> &H
        ensures { result.now ≡ self.now.inner }
    {
        &self.inner
    }

    /// What is shown the record.
    pub fn recorder(&self) -> &K
        ensures { result.now ≡ self.now.recorder }
    {
        &self.recorder
    }
}

/// It tells everything.
impl<H: Waiting, K: Recorder, B: ServiceWithDependents> Host for RecordedHost<H, K, B> {
    type Service = B;

    ghost account = { λ h. Some (record { entries = h.entries; handed = map (handed_with B.named) h.handed }) };

    ghost counts = { λ h. counts_with h.faults h.idles h.failures };

    ghost spare = { λ h. H.spare h.inner };

    ghost last = { λ h. h.last };

    ghost ahead = { λ h. H.ahead h.inner };

    ghost made_of = { λ h. H.made_of h.inner };

    fn faults(&self) -> u64 {
        self.account.faults()
    }

    fn idles(&self) -> u64 {
        self.account.idles()
    }

    fn failures(&self) -> u64 {
        self.account.failures()
    }

    fn reserve(&mut self, alloc: Global, n: u64) -> Result<(), NoMemory> {
        self.inner.reserve(alloc, n)
    }

    fn asks_due(&self) -> bool {
        self.inner.asks_due()
    }

    fn wait_until(&mut self, due: Option<u64>) {
        self.inner.wait_until(earlier(due, self.recorder.due()));
    }

    fn next(&mut self) -> Next {
        self.inner.advance();
        if self.inner.is_at_rest() {
            let log = self.recorder.settle();
            self.inner.tell_log(log);
        }
        self.upgrade();
        match self.inner.give() {
            Some(Item::Event(event)) => {
                self.account.take(event, &mut self.recorder);
                Next::Event
            }
            Some(Item::Fault) => {
                self.account.fail();
                Next::Failed
            }
            None => {
                self.account.idle();
                Next::None
            }
        }
    }

    fn event(&self) -> &Event {
        self.account.event()
    }

    fn hand(&mut self, s: u32, service: B) {
        self.account.hand(s, service);
    }

    fn tell(&mut self, action: Action) {
        self.inner.note(&action);
        self.account.tell(action, &mut self.recorder);
    }
}
