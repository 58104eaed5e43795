//! A service that was handed to the host, which polls it.

ghost use Rattle.std.specs.Prelude.{◌≡◌, IfSome};
ghost use Rattle.svc_server.specs.Hosts.{BringsFew};

use crate::services::HelloService;
use svc_graph::Kind;
use svc_graph::services::{RunPoll, ServiceReadyNotifier, ServiceWithDependents, StartPoll};
use svc_record::Event;

/// How far a service is.
#[derive(Clone, Copy, PartialEq, Eq, Debug)]
pub enum Stage {
    /// It isn't ready yet.
    Starting,
    /// It was started and is ready.
    Running,
    /// It has ended.
    Ended,
}

/// A service that was handed over, with its number.
#[derive(Drop)]
pub struct Hosted {
    pub number: u32,
    pub service: HelloService,
    stage: Stage,
}

impl Hosted {
    /// A service that is to be started.
    pub fn new(number: u32, service: HelloService) -> Self
        ensures number { result.number ≡ number }
        ensures service { result.service ≡ service }
    {
        Hosted {
            number,
            service,
            stage: Stage::Starting,
        }
    }

    /// Polls it once, and gives what the server has to learn.
    pub fn poll(&mut self, shutdown: bool) -> Option<Event>
        ensures number { self.new.number ≡ self.old.number }
        ensures name { self.new.service.name ≡ self.old.service.name }
        ensures few { IfSome result BringsFew }
    {
        match self.stage {
            Stage::Starting => self.poll_start(shutdown),
            Stage::Running => match self.service.poll_run(shutdown) {
                RunPoll::Pending => None,
                RunPoll::Ended => Some(self.end()),
            },
            Stage::Ended => None,
        }
    }

    /// Polls its start: it may wait, be ready from now on, or have ended.
    fn poll_start(&mut self, shutdown: bool) -> Option<Event>
        ensures number { self.new.number ≡ self.old.number }
        ensures name { self.new.service.name ≡ self.old.service.name }
        ensures few { IfSome result BringsFew }
    {
        let notifier = ServiceReadyNotifier::new(self.number);
        match self.service.poll_start(shutdown, 1, notifier) {
            StartPoll::Waiting(_) => None,
            StartPoll::Running => {
                self.stage = Stage::Running;
                self.ready()
            }
            StartPoll::Ended => Some(self.end()),
        }
    }

    /// Only a service that says itself when it is ready tells it; the others are ready when started.
    fn ready(&self) -> Option<Event>
        ensures { IfSome result BringsFew }
    {
        match self.service.kind() {
            Kind::Notifying => Some(Event::Ready(self.number)),
            Kind::Plain | Kind::Bootstrap => None,
        }
    }

    /// It has ended. Of a service that listens the server learns that its one accept loop has.
    fn end(&mut self) -> Event
        ensures number { self.new.number ≡ self.old.number }
        ensures service { self.new.service ≡ self.old.service }
        ensures few { BringsFew result }
    {
        self.stage = Stage::Ended;
        if self.service.listens() {
            Event::LoopEnded(self.number, 0, 0)
        } else {
            Event::Ended(self.number)
        }
    }
}
