//! Events and actions once more.

ghost use Rattle.std.specs.Prelude.{◌≡◌, IfOk};

use crate::action::Action;
use crate::event::Event;
use std::alloc::Global;
use svc_base::{NoMemory, copy_items};

impl Event {
    /// The same event once more.
    pub fn copy(&self, alloc: Global) -> Result<Event, NoMemory>
        ensures { IfOk result (λ e. e ≡ self.now) }
    {
        match self {
            Event::Moment(ms) => Ok(Event::Moment(*ms)),
            Event::Ready(s) => Ok(Event::Ready(*s)),
            Event::Ended(s) => Ok(Event::Ended(*s)),
            Event::Bound(s, i, fd) => Ok(Event::Bound(*s, *i, *fd)),
            Event::InUse(s, i) => Ok(Event::InUse(*s, *i)),
            Event::BindFailed(s, i) => Ok(Event::BindFailed(*s, *i)),
            Event::Adopted(s, i) => Ok(Event::Adopted(*s, *i)),
            Event::AdoptFailed(s, i) => Ok(Event::AdoptFailed(*s, *i)),
            Event::Received(bytes, fds) => Ok(Event::Received(
                copy_items(alloc, bytes.as_slice())?,
                copy_items(alloc, fds.as_slice())?,
            )),
            Event::NoSenderYet => Ok(Event::NoSenderYet),
            Event::ReceiveFailed => Ok(Event::ReceiveFailed),
            Event::Connected => Ok(Event::Connected),
            Event::NotThere => Ok(Event::NotThere),
            Event::StillConnecting => Ok(Event::StillConnecting),
            Event::ConnectFailed => Ok(Event::ConnectFailed),
            Event::Sent => Ok(Event::Sent),
            Event::SendBusy => Ok(Event::SendBusy),
            Event::SendFailed => Ok(Event::SendFailed),
            Event::Arrived(s, i, c, peer) => Ok(Event::Arrived(*s, *i, *c, *peer)),
            Event::AcceptFailed(s, i, n) => Ok(Event::AcceptFailed(*s, *i, *n)),
            Event::Set(c, ok) => Ok(Event::Set(*c, *ok)),
            Event::Shaken(c, ok) => Ok(Event::Shaken(*c, *ok)),
            Event::Finished(c) => Ok(Event::Finished(*c)),
            Event::LoopEnded(s, i, j) => Ok(Event::LoopEnded(*s, *i, *j)),
            Event::Signal(kind) => Ok(Event::Signal(*kind)),
            Event::Side(side) => Ok(Event::Side(*side)),
            Event::ChildReady => Ok(Event::ChildReady),
            Event::ChildGone => Ok(Event::ChildGone),
            Event::DropFailed => Ok(Event::DropFailed),
        }
    }
}

impl Action {
    /// The same action once more.
    pub fn copy(&self, alloc: Global) -> Result<Action, NoMemory>
        ensures { IfOk result (λ a. a ≡ self.now) }
    {
        match self {
            Action::Start(s) => Ok(Action::Start(*s)),
            Action::Fail(s) => Ok(Action::Fail(*s)),
            Action::Bind(s, i) => Ok(Action::Bind(*s, *i)),
            Action::Adopt(s, i, fd) => Ok(Action::Adopt(*s, *i, *fd)),
            Action::Close(fd) => Ok(Action::Close(*fd)),
            Action::OpenReceiver => Ok(Action::OpenReceiver),
            Action::TryReceive => Ok(Action::TryReceive),
            Action::NotifyParent => Ok(Action::NotifyParent),
            Action::Connect => Ok(Action::Connect),
            Action::Send(bytes, fds) => Ok(Action::Send(
                copy_items(alloc, bytes.as_slice())?,
                copy_items(alloc, fds.as_slice())?,
            )),
            Action::Phase(p, ms) => Ok(Action::Phase(*p, *ms)),
            Action::Broadcast => Ok(Action::Broadcast),
            Action::Judged(c, said) => Ok(Action::Judged(*c, *said)),
            Action::Refuse(c) => Ok(Action::Refuse(*c)),
            Action::Settings(c, list) => Ok(Action::Settings(
                *c,
                copy_items(alloc, list.as_slice())?,
            )),
            Action::Handshake(c) => Ok(Action::Handshake(*c)),
            Action::Serve(c) => Ok(Action::Serve(*c)),
            Action::Drop(c) => Ok(Action::Drop(*c)),
            Action::Rest(s, i) => Ok(Action::Rest(*s, *i)),
            Action::Cut(c) => Ok(Action::Cut(*c)),
            Action::Stop(seconds) => Ok(Action::Stop(*seconds)),
            Action::Daemonize => Ok(Action::Daemonize),
        }
    }
}
