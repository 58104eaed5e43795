//! What a host of the operating system does by itself: it performs actions, and gives what comes of them.

ghost use Rattle.std.specs.Prelude.{◌≡◌};

use crate::answers::Answers;
use crate::waiting::Waiting;
use std::alloc::Global;
use std::fs::File;
use std::net::{Net, TcpListener, TcpStream};
use std::rt::Files;
use std::time::Clock;
use svc_base::{NoMemory, Text};
use svc_record::{Action, Item};
use svc_server::InnerHost;
use svc_system::{LogState, System, UpgradeAnswer};

/// A host over the operating system, without its account.
#[derive(Drop)]
pub struct SystemHost<
    'a,
    R: Net<Listener = TcpListener, Stream = TcpStream> + Files<File = File> + Clock,
> {
    system: System<'a, R>,
    answers: Answers,
}

impl<
    'a,
    R: Net<Listener = TcpListener, Stream = TcpStream> + Files<File = File> + Clock,
> SystemHost<'a, R> {
    /// A host over this side of the system, to which nothing was told yet.
    pub fn new(alloc: Global, system: System<'a, R>) -> Self
        ensures { result.system ≡ system.entry }
    {
        SystemHost {
            system,
            answers: Answers::new(alloc),
        }
    }

    /// The system's side of the server.
    pub fn system(&self) -> &System<'a, R>
        ensures { result.now ≡ self.now.system }
    {
        &self.system
    }
}

impl<'a, R: Net<Listener = TcpListener, Stream = TcpStream> + Files<File = File> + Clock> InnerHost
    for SystemHost<'a, R> {
    ghost use Rattle.svc_host.specs.Answers.{room};

    ghost keeps = { λ _ _ _ _. Unit {0} };

    ghost spare = { λ h. room h.answers };

    fn reserve(&mut self, _alloc: Global, n: u64) -> Result<(), NoMemory> {
        self.answers.reserve(n)
    }

    /// It waits for the system, and so for nothing longer than until something is due.
    fn asks_due(&self) -> bool {
        true
    }

    fn wait_until(&mut self, due: Option<u64>) {
        self.system.wait_until(due);
    }

    fn give(&mut self) -> Option<Item> {
        match self.answers.take() {
            Some(event) => {
                self.system.give(&event);
                Some(Item::Event(event))
            }
            None => self.system.next(),
        }
    }

    fn note(&mut self, action: &Action) {
        if let Some(answer) = self.system.perform(action) {
            self.answers.put(answer);
        }
    }
}

impl<'a, R: Net<Listener = TcpListener, Stream = TcpStream> + Files<File = File> + Clock> Waiting
    for SystemHost<'a, R> {
    fn advance(&mut self) {
        if self.answers.is_empty() {
            self.system.advance();
        }
    }

    fn is_at_rest(&self) -> bool {
        self.answers.is_empty() && self.system.is_at_rest()
    }

    fn tell_log(&mut self, log: LogState) {
        self.system.tell_log(log);
    }

    fn take_upgrade(&mut self) -> Option<Text> {
        self.system.take_upgrade()
    }

    fn answer_upgrade(&mut self, answer: UpgradeAnswer) {
        self.system.answer_upgrade(answer);
    }
}
