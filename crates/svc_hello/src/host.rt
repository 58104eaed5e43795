//! The host: it gives the server events, polls its services, and is told actions.

ghost use Rattle.std.specs.Prelude.{◌≡◌, ◌-◌, ◌≤◌, map, reverse, min, All, Some, IsSome, IfSome, vec_len, vec_capacity};
ghost use Rattle.std.specs.VecDeque.{deque_len, deque_capacity};
ghost use Rattle.svc_base.specs.Items.{list_of, spare};
ghost use Rattle.svc_server.specs.Hosts.{BringsFew, no_account};
ghost use Rattle.svc_server.specs.ScriptHosts.{last_event};
ghost use Rattle.svc_hello.specs.Handed.{handed_over};

use crate::hosted::Hosted;
use crate::services::HelloService;
use crate::world::World;
use std::alloc::Global;
use std::collections::VecDeque;
use svc_base::{NoMemory, Reserved};
use svc_record::{Action, Entries, Entry, Event};
use svc_server::{Host, Next, failures_with};

/// A host in memory, with its world. It keeps the record of its run.
#[derive(Drop)]
pub struct HelloHost {
    /// What it gave and was told, the oldest first.
    pub entries: Entries,
    /// The services that it was handed, in the order of their starts.
    services: Vec<Hosted>,
    /// Which of them is polled next.
    turn: usize,
    /// The answers that it owes, the oldest first.
    answers: VecDeque<Event>,
    /// Where the last event that came stands among the entries.
    last: Option<usize>,
    /// How many events told that something failed.
    failures: u64,
    pub world: World,
    ghost few: { All BringsFew answers.items },
}

/// The event at this place of the entries.
fn event_at(entries: &[Entry], place: Option<usize>) -> &Event
    requires { IsSome (last_event entries.now place) }
    ensures { last_event entries.now place ≡ Some result.now }
{
    let Some(i) = place else { unreachable!() };
    match entries.get(i) {
        Some(Entry::Got(event)) => event,
        _ => unreachable!(),
    }
}

/// Polls the services from this one on, until one has something to tell.
fn poll_from(services: &mut [Hosted], turn: &mut usize, shutdown: bool) -> Option<Event>
    ensures handed { map handed_over services.new ≡ map handed_over services.old }
    ensures few { IfSome result BringsFew }
{
    for place in *turn..services.len() {
        if let Some(event) = services[place].poll(shutdown) {
            *turn = place + 1;
            return Some(event);
        }
    }
    *turn = 0;
    None
}

impl HelloHost {
    /// A host to which so many visitors come.
    pub fn new(alloc: Global, visitors: u64) -> Self
        ensures { ⟦<HelloHost as Host>⟧.account result ≡ Some no_account }
    {
        HelloHost {
            entries: Reserved::new(alloc),
            services: Vec::new(alloc),
            turn: 0,
            answers: VecDeque::new(alloc),
            last: None,
            failures: 0,
            world: World::new(visitors),
        }
    }

    /// What comes next: an answer that is owed, or what a service has to tell, or the world.
    fn next_event(&mut self) -> Event
        ensures entries { self.new.entries ≡ self.old.entries }
        ensures failures { self.new.failures ≡ self.old.failures }
        ensures handed { map handed_over self.new.services.items ≡ map handed_over self.old.services.items }
        ensures services { vec_len self.new.services ≡ vec_len self.old.services }
        ensures places { vec_capacity self.new.services ≡ vec_capacity self.old.services }
        ensures owed { deque_len self.new.answers ≤ deque_len self.old.answers }
        ensures room { deque_capacity self.new.answers ≡ deque_capacity self.old.answers }
        ensures few { BringsFew result }
    {
        if let Some(answer) = self.answers.pop_front() {
            return answer;
        }
        match poll_from(&mut self.services, &mut self.turn, self.world.shutdown) {
            Some(event) => event,
            None => self.world.happen(),
        }
    }
}

impl Host for HelloHost {
    type Service = HelloService;

    ghost account = { λ h. Some (record { entries = reverse (list_of h.entries); handed = reverse (map handed_over h.services.items) }) };

    ghost counts = { λ h. record { faults = 0; idles = 0; failures = h.failures } };

    ghost spare = { λ h. min (spare h.entries) (min (vec_capacity h.services - vec_len h.services) (deque_capacity h.answers - deque_len h.answers)) };

    ghost last = { λ h. last_event (list_of h.entries) h.last };

    fn faults(&self) -> u64 {
        0
    }

    fn idles(&self) -> u64 {
        0
    }

    fn failures(&self) -> u64 {
        self.failures
    }

    fn reserve(&mut self, alloc: Global, n: u64) -> Result<(), NoMemory> {
        self.entries.reserve(alloc, n)?;
        self.services.reserve(n as usize)?;
        self.answers.reserve(n as usize)?;
        Ok(())
    }

    fn asks_due(&self) -> bool {
        true
    }

    fn wait_until(&mut self, due: Option<u64>) {
        self.world.due = due;
    }

    fn next(&mut self) -> Next {
        let event = self.next_event();
        self.failures = failures_with(self.failures, &event);
        self.last = Some(self.entries.as_slice().len());
        self.entries.put(Entry::Got(event));
        Next::Event
    }

    fn event(&self) -> &Event {
        event_at(self.entries.as_slice(), self.last)
    }

    fn hand(&mut self, s: u32, service: HelloService) {
        self.services.push_reserved(Hosted::new(s, service));
    }

    fn tell(&mut self, action: Action) {
        if let Some(answer) = self.world.perform(&action) {
            self.answers.push_back_reserved(answer);
        }
        self.entries.put(Entry::Told(action));
    }
}
