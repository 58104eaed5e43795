//! Which events may come.

ghost use Rattle.std.specs.Prelude.{IsTrue, ◌↔◌};
ghost use Rattle.svc_record.specs.Record.{Record};
ghost use Rattle.svc_record.specs.Fits.{Fits};
ghost use Rattle.svc_core.specs.Stands.{Represents, MayCome, ReadyMayCome, EndedMayCome, ReceivedMayCome, BoundMayCome, BindMayBeAnswered, AdoptMayBeAnswered, LoopMayEnd, MayAccept, ArrivedMayCome};

use super::Core;
use crate::ends::is_on;
use crate::plans::{endpoint_count, is_notifying, may_end, service_count};
use svc_record::Event;

impl Core {
    /// Whether the event may come now.
    pub fn fits(&self, event: &Event) -> bool
        ensures may { IsTrue result ↔ MayCome self.now event.now }
        ensures means { (q : Record) → Represents self.now q → IsTrue result ↔ Fits self.now.plan q event.now }
    {
        if !is_on(self.end) {
            return false;
        }
        match event {
            Event::Moment(ms) => self.drain.moment() <= *ms,
            Event::Ready(s) => self.ready_fits(*s),
            Event::Ended(s) => self.ended_fits(*s),
            Event::Bound(s, i, fd) => self.bound_fits(*s, *i, *fd),
            Event::InUse(s, i) => self.bind_answer_fits(*s, *i),
            Event::BindFailed(s, i) => self.bind_answer_fits(*s, *i),
            Event::Adopted(s, i) => self.adopt_answer_fits(*s, *i),
            Event::AdoptFailed(s, i) => self.adopt_answer_fits(*s, *i),
            Event::Received(_, fds) => self.received_fits(fds.as_slice()),
            Event::NoSenderYet => self.boot.is_trying(),
            Event::ReceiveFailed => self.boot.is_trying(),
            Event::Connected => self.offer.is_connecting(),
            Event::NotThere => self.offer.is_connecting(),
            Event::StillConnecting => self.offer.is_connecting(),
            Event::ConnectFailed => self.offer.is_connecting(),
            Event::Sent => self.offer.is_sending(),
            Event::SendBusy => self.offer.is_sending(),
            Event::SendFailed => self.offer.is_sending(),
            Event::Arrived(s, i, c, _) => self.arrived_fits(*s, *i, *c),
            Event::AcceptFailed(s, i, _) => self.accepts(*s, *i),
            Event::Set(c, _) => self.connections.is_setting(*c),
            Event::Shaken(c, _) => self.connections.is_shaking(*c),
            Event::Finished(c) => self.connections.is_serving(*c),
            Event::LoopEnded(s, i, j) => self.loop_fits(*s, *i, *j),
            Event::Signal(_) => self.drain.is_running(),
            Event::Side(_) => self.boot.is_fork_asked(),
            Event::ChildReady => self.boot.is_parent_waiting(),
            Event::ChildGone => self.boot.is_parent_waiting(),
            Event::DropFailed => self.boot.is_parent_waiting(),
        }
    }

    /// A try is open, and the message brings few descriptors, which are new.
    fn received_fits(&self, fds: &[u64]) -> bool
        ensures { IsTrue result ↔ ReceivedMayCome self.now fds.now }
    {
        self.boot.is_trying() && fds.len() <= 32 && self.endpoints.are_new(fds)
    }

    fn ready_fits(&self, s: u32) -> bool
        ensures { IsTrue result ↔ ReadyMayCome self.now s }
    {
        if s as usize >= service_count(&self.plan) || !is_notifying(&self.plan, s) {
            return false;
        }
        self.starts.is_started(&self.plan, s) && !self.starts.has_ready(&self.plan, s)
    }

    fn ended_fits(&self, s: u32) -> bool
        ensures { IsTrue result ↔ EndedMayCome self.now s }
    {
        if s as usize >= service_count(&self.plan) || !may_end(&self.plan, s) {
            return false;
        }
        self.starts.is_started(&self.plan, s) && !self.starts.has_ended(&self.plan, s)
    }

    fn bound_fits(&self, s: u32, i: u32, fd: u64) -> bool
        ensures { IsTrue result ↔ BoundMayCome self.now s i fd }
    {
        self.bind_answer_fits(s, i) && !self.endpoints.has_number(fd)
    }

    /// The service has the endpoint, and its bind is open.
    fn bind_answer_fits(&self, s: u32, i: u32) -> bool
        ensures { IsTrue result ↔ BindMayBeAnswered self.now s i }
    {
        if s as usize >= service_count(&self.plan) || i as usize >= endpoint_count(&self.plan, s) {
            return false;
        }
        self.endpoints.is_binding(&self.plan, s, i)
    }

    /// The service has the endpoint, and its adoption is open.
    fn adopt_answer_fits(&self, s: u32, i: u32) -> bool
        ensures { IsTrue result ↔ AdoptMayBeAnswered self.now s i }
    {
        if s as usize >= service_count(&self.plan) || i as usize >= endpoint_count(&self.plan, s) {
            return false;
        }
        self.endpoints.is_adopting(&self.plan, s, i)
    }

    /// The broadcast was told, the service serves, and the loop is one of its endpoint's and goes on.
    fn loop_fits(&self, s: u32, i: u32, j: u64) -> bool
        ensures { IsTrue result ↔ LoopMayEnd self.now s i j }
    {
        if s as usize >= service_count(&self.plan) || !self.drain.has_broadcast() {
            return false;
        }
        let started = self.starts.is_started(&self.plan, s);
        self.endpoints.loop_fits(&self.plan, s, i, j, started)
    }

    /// The service serves, and a loop of its endpoint goes on.
    fn accepts(&self, s: u32, i: u32) -> bool
        ensures { IsTrue result ↔ MayAccept self.now s i }
    {
        if s as usize >= service_count(&self.plan) || i as usize >= endpoint_count(&self.plan, s) {
            return false;
        }
        let started = self.starts.is_started(&self.plan, s);
        self.endpoints.accepts(&self.plan, s, i, started)
    }

    /// The same, and no connection with this number arrived.
    fn arrived_fits(&self, s: u32, i: u32, c: u64) -> bool
        ensures { IsTrue result ↔ ArrivedMayCome self.now s i c }
    {
        self.accepts(s, i) && self.connections.is_new(c)
    }
}
