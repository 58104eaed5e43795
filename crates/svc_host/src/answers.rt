//! The answers that a host owes.

ghost use Rattle.std.specs.Prelude.{◌+◌, ◌<◌, ◌≤◌, All, IfSome, OnOk};
ghost use Rattle.svc_server.specs.Hosts.{BringsFew};

use std::alloc::Global;
use std::collections::VecDeque;
use svc_base::NoMemory;
use svc_record::Event;

/// The answers to actions that weren't given yet, the oldest first.
#[derive(Drop)]
pub(crate) struct Answers {
    events: VecDeque<Event>,
    ghost few: { All BringsFew events.items },
}

impl Answers {
    ghost use Rattle.svc_host.specs.Answers.{room};

    /// None is owed.
    pub(crate) fn new(alloc: Global) -> Self {
        Answers {
            events: VecDeque::new(alloc),
        }
    }

    /// None is owed.
    pub(crate) fn is_empty(&self) -> bool {
        self.events.is_empty()
    }

    /// Makes room for so many more.
    pub(crate) fn reserve(&mut self, n: u64) -> Result<(), NoMemory>
        ensures room { OnOk result (n ≤ room self.new) }
        ensures kept { room self.old ≤ room self.new }
    {
        self.events.reserve(n as usize)?;
        Ok(())
    }

    /// One more is owed.
    pub(crate) fn put(&mut self, event: Event)
        requires few { BringsFew event }
        requires room { 0 < room self.old }
        ensures { room self.old ≤ room self.new + 1 }
    {
        self.events.push_back_reserved(event);
    }

    /// The oldest one, which then isn't owed any more.
    pub(crate) fn take(&mut self) -> Option<Event>
        ensures few { IfSome result BringsFew }
        ensures room { room self.old ≤ room self.new }
    {
        self.events.pop_front()
    }
}
