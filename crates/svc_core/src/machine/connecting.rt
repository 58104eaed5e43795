//! What becomes of connections in a step.

ghost use Rattle.std.specs.Prelude.{OnOk};
ghost use Rattle.svc_core.specs.Steps.{MayStep, Steps, StepsOr, Judges};

use super::Core;
use crate::plans::verdict_on;
use std::alloc::Global;
use svc_base::NoMemory;
use svc_connections::{on_accept_failed, settings_of};
use svc_record::{Actions, Event, StepEnd};
use svc_socket::Peer;

// At an event of a connection nothing else falls due, so what is told of the connection is all.
impl Core {
    /// A connection arrived: it is judged where its peer is known, and refused or set up. An endpoint
    /// without a filter takes every peer.
    pub(super) fn step_arrived(
        &mut self,
        alloc: Global,
        s: u32,
        i: u32,
        c: u64,
        peer: &Peer,
        said: bool,
        actions: &mut Actions,
    ) -> Result<StepEnd, NoMemory>
        requires { MayStep self.old (Event.Arrived s i c peer.now) actions.old }
        ensures steps { StepsOr self.old self.new (Event.Arrived s i c peer.now) actions.old actions.new result }
        ensures judged { OnOk result (Judges self.old (Event.Arrived s i c peer.now) said actions.old actions.new) }
    {
        let settings = settings_of(alloc, &self.plan, s, i)?;
        self.connections.reserve()?;
        let verdict = verdict_on(&self.plan, s, i, said);
        self.connections
            .on_arrived(c, peer, verdict, settings, actions);
        Ok(self.end)
    }

    /// Accepting failed with this number: the loop rests where too many files are open.
    pub(super) fn step_accept_failed(
        &mut self,
        s: u32,
        i: u32,
        number: u32,
        actions: &mut Actions,
    ) -> StepEnd
        requires { MayStep self.old (Event.AcceptFailed s i number) actions.old }
        ensures { Steps self.old self.new (Event.AcceptFailed s i number) actions.old actions.new result }
    {
        on_accept_failed(s, i, number, actions);
        self.end
    }

    /// The connection's settings were applied, and its handshake is polled; or it is dropped.
    pub(super) fn step_set(&mut self, c: u64, ok: bool, actions: &mut Actions) -> StepEnd
        requires { MayStep self.old (Event.Set c ok) actions.old }
        ensures { Steps self.old self.new (Event.Set c ok) actions.old actions.new result }
    {
        self.connections.on_set(c, ok, actions);
        self.end
    }

    /// The connection's handshake is done, and it is served; or it is dropped.
    pub(super) fn step_shaken(&mut self, c: u64, ok: bool, actions: &mut Actions) -> StepEnd
        requires { MayStep self.old (Event.Shaken c ok) actions.old }
        ensures { Steps self.old self.new (Event.Shaken c ok) actions.old actions.new result }
    {
        self.connections.on_shaken(c, ok, actions);
        self.end
    }

    /// The application is done with the connection. Nothing is told.
    pub(super) fn step_finished(&mut self, c: u64, actions: &mut Actions) -> StepEnd
        requires { MayStep self.old (Event.Finished c) actions.old }
        ensures { Steps self.old self.new (Event.Finished c) actions.old actions.new result }
    {
        self.connections.on_finished(c);
        self.end
    }
}
