//! The core: one step for each event.

ghost use Rattle.std.specs.Prelude.{◌≡◌, ◌+◌, ◌*◌, ◌<◌, ◌≤◌, ◌&&◌, [], ◌∷◌, false, true, IfOk, OnErr, OnOk, Option, None, is_some};
ghost use Rattle.svc_base.specs.Items.{list_of, spare};
ghost use Rattle.svc_record.specs.Record.{Record};
ghost use Rattle.svc_record.specs.Plans.{service_count};
ghost use Rattle.svc_record.specs.Starts.{is_ready};
ghost use Rattle.svc_record.specs.Building.{IsGraphUpTo};
ghost use Rattle.svc_record.specs.Validity.{IsValid, IsStartupOrder, IsInOrder};
ghost use Rattle.svc_record.specs.Told.{TellsBoth};
ghost use Rattle.svc_offer.specs.OfferEffects.{event_of};
ghost use Rattle.svc_record.specs.Judging.{TellsJudged, judged_at, asked_filter};
ghost use Rattle.svc_fds.specs.declared.encoding.Message.{Message};
ghost use Rattle.svc_core.specs.Copies.{TellsCopied, message_at, copy_at};
ghost use Rattle.svc_core.specs.EventKinds.{is_plain, is_answer};
ghost use Rattle.svc_core.specs.CoreData.{is_on, is_served};
ghost use Rattle.svc_core.specs.Passes.{may_start};
ghost use Rattle.svc_core.specs.Stands.{Represents, HasNotBegun, AfterEvent, AfterPass, AfterRetry, MayCome, StepKeeps, BeginKeeps};
ghost use Rattle.svc_core.specs.Steps.{MayStep, Steps, StepsOr, Ignores, Takes, Goes, Visits, EndsRun, finish_room, visit_room, go_room, answer_room};
ghost use Rattle.svc_core.specs.Signals.{OffersBy, IgnoresLater, is_reached};
ghost use Rattle.svc_core.specs.Rooms.{TellsWithin, KeepsRoom, tell_room, step_room, most_open};

mod closing;
mod connecting;
mod dues;
mod fitting;
mod forking;

use crate::copies::{OwnedPayload, append_copies};
use crate::ends::{is_on, is_served};
use crate::pass::pass;
use crate::plans::{address_of, asked_filter};
use crate::starts::Starts;
use crate::waits::Waits;
use std::alloc::Global;
use std::marker::Model;
use std::mem::drop;
use svc_base::NoMemory;
use svc_boot::Boot;
use svc_connections::{Connections, settings_of};
use svc_drain::Drain;
use svc_endpoints::Endpoints;
use svc_fds::{Message, SendAnswer};
use svc_graph::DependencyGraph;
use svc_graph::services::ServiceReadyWatch;
use svc_offer::Offer;
use svc_record::{Actions, Event, Plan, ShutdownSignal, StepEnd, startup_graph};

/// The lifecycle of one server: what it is told, step by step, and what it tells.
#[derive(Drop)]
pub struct Core {
    plan: Plan,
    order: Vec<u32>,
    starts: Starts,
    endpoints: Endpoints,
    boot: Boot,
    offer: Offer,
    drain: Drain,
    connections: Connections,
    end: StepEnd,
    /// Which services the pass visits.
    waits: Waits,
}

impl Model for Core {
    ghost use Rattle.svc_core.specs.CoreData.{CoreData};
    ghost use Rattle.svc_core.specs.WaitsState.{IsKept};

    ghost Value = { CoreData };

    ghost view = { λ c. record {
      plan = c.plan;
      order = c.order.items;
      starts = c.starts;
      endpoints = c.endpoints.parts;
      boot = c.boot;
      offer = c.offer;
      drain = c.drain;
      connections = c.connections.parts;
      end = c.end;
    } };

    ghost invariant = { λ c. IsKept c.plan c.order.items c.starts c.endpoints.parts c.boot.complete c.waits };
}

impl Core {
    /// A core that has told nothing yet.
    pub fn new(alloc: Global, plan: Plan) -> Result<Core, NoMemory>
        requires valid { IsValid plan }
        ensures plan { IfOk result (λ core. core.plan ≡ plan) }
        ensures first { IfOk result HasNotBegun }
    {
        match startup_graph(alloc, &plan) {
            Ok((graph, order)) => {
                let made = Core::in_order(alloc, plan, &graph, order);
                drop(graph);
                made
            }
            Err(NoMemory) => {
                drop(plan);
                Err(NoMemory)
            }
        }
    }

    /// A core that has told nothing yet, by a graph of the services' dependencies that is there already.
    pub fn with_graph(alloc: Global, plan: Plan, graph: &DependencyGraph) -> Result<Core, NoMemory>
        requires valid { IsValid plan }
        requires graph { IsGraphUpTo plan (service_count plan) graph.now }
        ensures plan { IfOk result (λ core. core.plan ≡ plan) }
        ensures first { IfOk result HasNotBegun }
    {
        match graph.topological_sort(alloc) {
            Ok(order) => Core::in_order(alloc, plan, graph, order),
            Err(NoMemory) => {
                drop(plan);
                Err(NoMemory)
            }
        }
    }

    /// A core that has told nothing yet, and that starts its services in this order.
    fn in_order(
        alloc: Global,
        plan: Plan,
        graph: &DependencyGraph,
        order: Vec<u32>,
    ) -> Result<Core, NoMemory>
        requires valid { IsValid plan }
        requires graph { IsGraphUpTo plan (service_count plan) graph.now }
        requires least { IsStartupOrder plan order.items }
        requires in_order { IsInOrder plan order.items }
        ensures plan { IfOk result (λ core. core.plan ≡ plan) }
        ensures first { IfOk result HasNotBegun }
    {
        let starts = Starts::new(alloc, &plan)?;
        let endpoints = Endpoints::new(alloc, &plan)?;
        let boot = Boot::new(plan.limit);
        let offer = Offer::new(plan.limit);
        let connections = Connections::new(alloc);
        let waits = Waits::new(alloc, graph, &order)?;
        Ok(Core {
            plan,
            order,
            starts,
            endpoints,
            boot,
            offer,
            drain: Drain::new(),
            connections,
            end: StepEnd::On,
            waits,
        })
    }

    /// What the server is run by.
    pub fn plan(&self) -> &Plan
        ensures { result.now ≡ self.now.plan }
    {
        &self.plan
    }

    /// How many actions the next step, and a `close_all` after it, tell at most, together with the
    /// boxes of the services that they start.
    pub fn step_room(&self) -> u64
        ensures { result ≡ step_room self.now }
    {
        let open = self.endpoints.open_len() as u64 + self.connections.live_len() as u64;
        4 * self.order.len() as u64 + 2 * open + 160
    }

    /// How many actions the next step, and a `close_all` after it, tell at most.
    fn tell_room(&self) -> u64
        ensures { result ≡ tell_room self.now }
    {
        let open = self.endpoints.open_len() as u64 + self.connections.live_len() as u64;
        2 * self.order.len() as u64 + open + 80
    }

    /// Whether the watched service is ready: its word came, or its work is done, or it has failed,
    /// or it is started and plain, or it is started, bootstraps, and bootstrapping is complete.
    pub fn ready(&self, watch: &ServiceReadyWatch) -> bool
        requires service { watch.now < service_count self.now.plan }
        ensures { (q : Record) → Represents self.now q → result ≡ is_ready self.now.plan q watch.now }
    {
        self.starts.is_ready(
            &self.plan,
            self.endpoints.failed(),
            self.boot.is_complete(),
            watch.service(),
        )
    }

    /// The filter that is asked at the event: the endpoint's, where a connection arrived whose peer
    /// is known.
    pub fn asks(&self, event: &Event) -> Option<u32>
        ensures { result ≡ asked_filter self.now.plan event.now }
    {
        asked_filter(&self.plan, event)
    }

    /// The first step: a daemon asks for its fork; and else it begins to bootstrap where that comes
    /// first, starts what is due, asks for endpoints, and tells that the server runs. After `NoMemory`
    /// nothing has changed.
    pub fn begin(&mut self, alloc: Global, actions: &mut Actions) -> Result<StepEnd, NoMemory>
        requires first { HasNotBegun self.old }
        ensures plan { IfOk result (λ _. self.new.plan ≡ self.old.plan) }
        ensures refused { OnErr result (self.new ≡ self.old) }
        ensures untold { OnErr result (list_of actions.new ≡ list_of actions.old) }
        ensures kept { IfOk result (λ end. BeginKeeps self.new (list_of actions.old) (list_of actions.new) end) }
        ensures judged { OnOk result (TellsJudged [] (list_of actions.old) (list_of actions.new)) }
        ensures few { OnOk result (TellsWithin self.old self.new actions.old actions.new) }
        ensures room { KeepsRoom self.old self.new actions.old actions.new }
    {
        actions.reserve(alloc, self.tell_room())?;
        if self.is_daemon() {
            return Ok(self.ask_fork(actions));
        }
        Ok(self.bootstrap(actions))
    }

    /// What follows from an event: bootstrapping is completed, services are visited, the server runs,
    /// a handover is tried for again, and what is due of the offer and of the signal is told. Where
    /// the event ended the run, nothing follows. The copy is of the message, where its send is due.
    fn settle(&mut self, copy: Option<Message>, actions: &mut Actions) -> StepEnd
        requires { finish_room self.old ≤ spare actions.old }
        ensures { Goes (AfterEvent self.old copy) (finish_room self.old) self.old self.new copy actions.old actions.new result }
    {
        self.end = self.boot.end(&self.plan);
        if !is_on(self.end) {
            return self.end;
        }
        self.boot.complete(self.drain.moment(), actions);
        self.startup_pass(actions);
        self.advance(copy, actions)
    }

    /// Visits the services, where they may start.
    fn startup_pass(&mut self, actions: &mut Actions)
        requires { visit_room self.old ≤ spare actions.old }
        ensures { Visits self.old self.new actions.old actions.new }
    {
        if self.may_start() {
            self.waits.wake(self.drain.moment());
            self.waits.catch_up(
                &self.plan,
                &self.order,
                &self.starts,
                self.endpoints.failed(),
                self.boot.is_complete(),
            );
            pass(
                &self.plan,
                &self.order,
                &self.drain,
                &mut self.starts,
                &mut self.endpoints,
                &mut self.boot,
                &mut self.waits,
                actions,
            );
        }
    }

    /// No fork is awaited, and bootstrapping is complete, or needn't be.
    fn may_start(&self) -> bool
        ensures { result ≡ may_start self.now.plan self.now.boot }
    {
        self.boot.may_run(&self.plan) && (!self.plan.eager || self.boot.is_complete())
    }

    /// The server runs, a handover is tried for again, and the offer and the signal are answered,
    /// unless the run was tested.
    fn advance(&mut self, copy: Option<Message>, actions: &mut Actions) -> StepEnd
        requires { go_room self.old ≤ spare actions.old }
        ensures { Goes (AfterPass self.old copy) (go_room self.old) self.old self.new copy actions.old actions.new result }
    {
        self.end = self.boot.end(&self.plan);
        if !is_on(self.end) {
            return self.end;
        }
        if !self.may_start() {
            self.boot.try_again(self.drain.moment(), actions);
            return self.advance_shutdown(copy, actions);
        }
        self.drain.run_once(actions);
        self.boot.try_again(self.drain.moment(), actions);
        self.advance_shutdown(copy, actions)
    }

    /// Tells what follows the signal, and asks the successor for what is due of the offer. The run
    /// ends where all the signal's waits have passed.
    fn advance_shutdown(&mut self, copy: Option<Message>, actions: &mut Actions) -> StepEnd
        requires { answer_room self.old ≤ spare actions.old }
        ensures { Goes (AfterRetry self.old copy) (answer_room self.old) self.old self.new copy actions.old actions.new result }
    {
        let over = self.offer.over_since();
        let passed = self.drain.publish_due(&self.plan, over, actions);
        self.offer.ask(self.drain.moment(), copy, actions);
        if passed {
            return self.end_run(actions);
        }
        self.end
    }

    /// The live connections are cut, the live descriptors close, and the run ends.
    fn end_run(&mut self, actions: &mut Actions) -> StepEnd
        requires { most_open self.old + 3 ≤ spare actions.old }
        ensures { EndsRun self.old self.new actions.old actions.new result }
    {
        self.drain.shut_down(actions);
        self.connections.cut_all(actions);
        self.endpoints.close_open(actions);
        self.drain.stop(&self.plan, actions);
        self.end = StepEnd::Served;
        self.end
    }

    /// One event, with the answer of the filter that it asked, if it asked one. After `NoMemory`
    /// nothing has changed.
    pub fn step(
        &mut self,
        alloc: Global,
        event: &Event,
        said: bool,
        actions: &mut Actions,
    ) -> Result<StepEnd, NoMemory>
        requires fits { MayCome self.old event.now }
        ensures plan { IfOk result (λ _. self.new.plan ≡ self.old.plan) }
        ensures refused { OnErr result (self.new ≡ self.old) }
        ensures untold { OnErr result (list_of actions.new ≡ list_of actions.old) }
        ensures kept { IfOk result (λ end. StepKeeps self.old self.new event.now (list_of actions.old) (list_of actions.new) end) }
        ensures later { IgnoresLater self.old self.new event.now (list_of actions.old) (list_of actions.new) result }
        ensures copied { OnOk result (TellsCopied (copy_at self.old event.now) (list_of actions.old) (list_of actions.new)) }
        ensures judged { OnOk result (TellsJudged (judged_at self.old.plan event.now said) (list_of actions.old) (list_of actions.new)) }
        ensures few { OnOk result (TellsWithin self.old self.new actions.old actions.new) }
        ensures room { KeepsRoom self.old self.new actions.old actions.new }
    {
        actions.reserve(alloc, self.tell_room())?;
        self.take_event(alloc, event, said, actions)
    }

    /// The event's own step, where there is room for it.
    fn take_event(
        &mut self,
        alloc: Global,
        event: &Event,
        said: bool,
        actions: &mut Actions,
    ) -> Result<StepEnd, NoMemory>
        requires { MayStep self.old event.now actions.old }
        ensures { Takes self.old self.new event.now said actions.old actions.new result }
    {
        match event {
            Event::Moment(ms) => self.step_moment(alloc, *ms, actions),
            Event::Bound(s, i, fd) => self.step_bound(alloc, *s, *i, *fd, actions),
            Event::Received(bytes, fds) => {
                self.step_received(alloc, bytes.as_slice(), fds.as_slice(), actions)
            }
            Event::Connected => self.step_connected(alloc, actions),
            Event::Arrived(s, i, c, peer) => {
                self.step_arrived(alloc, *s, *i, *c, peer, said, actions)
            }
            Event::LoopEnded(s, i, j) => self.step_loop_ended(*s, *i, *j, actions),
            Event::Signal(kind) => self.step_signal(alloc, *kind, actions),
            _ => Ok(self.take_plain(event, actions)),
        }
    }

    /// The step of an event for which no memory is wanted.
    fn take_plain(&mut self, event: &Event, actions: &mut Actions) -> StepEnd
        requires may { MayStep self.old event.now actions.old }
        requires plain { is_plain event.now ≡ true }
        ensures { Steps self.old self.new event.now actions.old actions.new result }
    {
        match event {
            Event::Ready(s) => self.step_ready(*s, actions),
            Event::Ended(s) => self.step_ended(*s, actions),
            Event::InUse(s, i) => self.step_in_use(*s, *i, actions),
            Event::BindFailed(s, i) => self.step_bind_failed(*s, *i, actions),
            Event::Adopted(s, i) => self.step_adopted(*s, *i, actions),
            Event::AdoptFailed(s, i) => self.step_adopt_failed(*s, *i, actions),
            Event::NoSenderYet => self.step_no_sender(actions),
            Event::ReceiveFailed => self.step_receive_failed(actions),
            Event::AcceptFailed(s, i, n) => self.step_accept_failed(*s, *i, *n, actions),
            Event::Set(c, ok) => self.step_set(*c, *ok, actions),
            Event::Shaken(c, ok) => self.step_shaken(*c, *ok, actions),
            Event::Finished(c) => self.step_finished(*c, actions),
            Event::Side(side) => self.step_side(*side, actions),
            Event::ChildReady => self.step_child_ready(actions),
            Event::ChildGone | Event::DropFailed => self.step_parent_failure(event, actions),
            _ => self.take_answer(event, actions),
        }
    }

    /// The step of an answer to a connect or a send that doesn't connect.
    fn take_answer(&mut self, event: &Event, actions: &mut Actions) -> StepEnd
        requires may { MayStep self.old event.now actions.old }
        requires answers { is_answer event.now ≡ true }
        ensures { Steps self.old self.new event.now actions.old actions.new result }
    {
        let answer = match event {
            Event::NotThere => SendAnswer::NotThere,
            Event::StillConnecting => SendAnswer::StillConnecting,
            Event::ConnectFailed => SendAnswer::ConnectFailed,
            Event::Sent => SendAnswer::Sent,
            Event::SendBusy => SendAnswer::SendBusy,
            Event::SendFailed => SendAnswer::SendFailed,
            _ => unreachable!(),
        };
        self.step_answer(answer, actions)
    }

    /// As `step`, and the same actions are appended to `again` too. After `NoMemory` nothing has
    /// changed, in the core and in both lists.
    pub fn step_twice(
        &mut self,
        alloc: Global,
        event: &Event,
        said: bool,
        actions: &mut Actions,
        again: &mut Actions,
    ) -> Result<StepEnd, NoMemory>
        requires fits { MayCome self.old event.now }
        ensures plan { IfOk result (λ _. self.new.plan ≡ self.old.plan) }
        ensures refused { OnErr result (self.new ≡ self.old) }
        ensures untold { OnErr result (list_of actions.new ≡ list_of actions.old) }
        ensures untold_again { OnErr result (list_of again.new ≡ list_of again.old) }
        ensures kept { IfOk result (λ end. StepKeeps self.old self.new event.now (list_of actions.old) (list_of actions.new) end) }
        ensures judged { OnOk result (TellsJudged (judged_at self.old.plan event.now said) (list_of actions.old) (list_of actions.new)) }
        ensures twice { OnOk result (TellsBoth (list_of actions.old) (list_of actions.new) (list_of again.old) (list_of again.new)) }
        ensures few { OnOk result (TellsWithin self.old self.new actions.old actions.new) }
        ensures room { KeepsRoom self.old self.new actions.old actions.new }
    {
        again.reserve(alloc, self.tell_room())?;
        let copy = self.copy_at(alloc, event)?;
        let from = actions.len() as usize;
        let end = self.step(alloc, event, said, actions)?;
        append_copies(&actions.as_slice()[from..], copy, again);
        Ok(end)
    }

    /// A copy of what the event's step may tell that owns memory: an endpoint's settings where a
    /// connection arrived, else the message.
    fn copy_at(&self, alloc: Global, event: &Event) -> Result<OwnedPayload, NoMemory>
        requires fits { MayCome self.now event.now }
        ensures { IfOk result (λ copy. copy ≡ copy_at self.now event.now) }
    {
        match event {
            Event::Arrived(s, i, _, _) => Ok(OwnedPayload::OfSettings(settings_of(
                alloc, &self.plan, *s, *i,
            )?)),
            _ => Ok(OwnedPayload::of_message(self.message_at(alloc, event)?)),
        }
    }

    /// A copy of the message, where the event lets its send fall due.
    fn message_at(&self, alloc: Global, event: &Event) -> Result<Option<Message>, NoMemory>
        ensures { IfOk result (λ copy. copy ≡ message_at self.now event.now) }
    {
        if !self.offer.sends_at(event) {
            return Ok(None);
        }
        self.offer.copy_for(alloc, event)
    }

    /// Rests and waits that are over end with it, and so may the wait of a parent.
    fn step_moment(
        &mut self,
        alloc: Global,
        ms: u64,
        actions: &mut Actions,
    ) -> Result<StepEnd, NoMemory>
        requires { MayStep self.old (Event.Moment ms) actions.old }
        ensures { StepsOr self.old self.new (Event.Moment ms) actions.old actions.new result }
    {
        if self.is_held() {
            return Ok(self.step_waiting(ms, actions));
        }
        let copy = self.message_at(alloc, &Event::Moment(ms))?;
        self.drain.on_moment(ms);
        Ok(self.settle(copy, actions))
    }

    /// What waited for the service's word starts.
    fn step_ready(&mut self, s: u32, actions: &mut Actions) -> StepEnd
        requires { MayStep self.old (Event.Ready s) actions.old }
        ensures { Steps self.old self.new (Event.Ready s) actions.old actions.new result }
    {
        self.starts.on_ready(&self.plan, s);
        self.waits.mark(&self.order, s);
        self.settle(None, actions)
    }

    /// What waited for the end of the service's work starts.
    fn step_ended(&mut self, s: u32, actions: &mut Actions) -> StepEnd
        requires { MayStep self.old (Event.Ended s) actions.old }
        ensures { Steps self.old self.new (Event.Ended s) actions.old actions.new result }
    {
        self.starts.on_ended(&self.plan, s);
        self.waits.mark(&self.order, s);
        self.settle(None, actions)
    }

    /// The descriptor is held, or closed again where its address has one.
    fn step_bound(
        &mut self,
        alloc: Global,
        s: u32,
        i: u32,
        fd: u64,
        actions: &mut Actions,
    ) -> Result<StepEnd, NoMemory>
        requires { MayStep self.old (Event.Bound s i fd) actions.old }
        ensures { StepsOr self.old self.new (Event.Bound s i fd) actions.old actions.new result }
    {
        let address = address_of(&self.plan, s, i).copy(alloc)?;
        self.endpoints.reserve()?;
        self.endpoints
            .on_bound(&self.plan, s, i, fd, address, actions);
        let alone = self.endpoints.is_alone(&self.plan, s, i);
        self.waits.reopen(&self.order, s);
        self.waits.free_more(!alone, s);
        Ok(self.settle(None, actions))
    }

    /// The endpoint rests, or its service fails.
    fn step_in_use(&mut self, s: u32, i: u32, actions: &mut Actions) -> StepEnd
        requires { MayStep self.old (Event.InUse s i) actions.old }
        ensures { Steps self.old self.new (Event.InUse s i) actions.old actions.new result }
    {
        let moment = self.drain.moment();
        let kept = self.offer.numbers_on_offer();
        self.endpoints
            .on_in_use(&self.plan, s, i, moment, kept, actions);
        self.waits.reopen(&self.order, s);
        self.waits
            .mark_failed(&self.order, self.endpoints.failed(), s);
        self.settle(None, actions)
    }

    /// The service fails.
    fn step_bind_failed(&mut self, s: u32, i: u32, actions: &mut Actions) -> StepEnd
        requires { MayStep self.old (Event.BindFailed s i) actions.old }
        ensures { Steps self.old self.new (Event.BindFailed s i) actions.old actions.new result }
    {
        let kept = self.offer.numbers_on_offer();
        self.endpoints
            .on_bind_failed(&self.plan, s, i, kept, actions);
        self.waits.reopen(&self.order, s);
        self.waits
            .mark_failed(&self.order, self.endpoints.failed(), s);
        self.settle(None, actions)
    }

    /// The endpoint is held.
    fn step_adopted(&mut self, s: u32, i: u32, actions: &mut Actions) -> StepEnd
        requires { MayStep self.old (Event.Adopted s i) actions.old }
        ensures { Steps self.old self.new (Event.Adopted s i) actions.old actions.new result }
    {
        self.endpoints.on_adopted(&self.plan, s, i);
        self.waits.reopen(&self.order, s);
        self.waits.free(s);
        self.settle(None, actions)
    }

    /// The service fails.
    fn step_adopt_failed(&mut self, s: u32, i: u32, actions: &mut Actions) -> StepEnd
        requires { MayStep self.old (Event.AdoptFailed s i) actions.old }
        ensures { Steps self.old self.new (Event.AdoptFailed s i) actions.old actions.new result }
    {
        let kept = self.offer.numbers_on_offer();
        self.endpoints
            .on_adopt_failed(&self.plan, s, i, kept, actions);
        self.waits.reopen(&self.order, s);
        self.waits
            .mark_failed(&self.order, self.endpoints.failed(), s);
        self.settle(None, actions)
    }

    /// What an older server sent is held, or closed where nobody needs it; and bootstrapping is
    /// complete, or ends the run.
    fn step_received(
        &mut self,
        alloc: Global,
        bytes: &[u8],
        fds: &[u64],
        actions: &mut Actions,
    ) -> Result<StepEnd, NoMemory>
        requires { MayStep self.old (Event.Received bytes.now fds.now) actions.old }
        ensures { StepsOr self.old self.new (Event.Received bytes.now fds.now) actions.old actions.new result }
    {
        let good = self
            .endpoints
            .on_received(alloc, &self.plan, bytes, fds, actions)?;
        self.waits.free_all();
        self.boot.on_received(good);
        Ok(self.settle(None, actions))
    }

    /// The handover is tried for again later, or given up.
    fn step_no_sender(&mut self, actions: &mut Actions) -> StepEnd
        requires { MayStep self.old Event.NoSenderYet actions.old }
        ensures { Steps self.old self.new Event.NoSenderYet actions.old actions.new result }
    {
        self.boot.on_no_sender(self.drain.moment());
        self.settle(None, actions)
    }

    /// The run ends.
    fn step_receive_failed(&mut self, actions: &mut Actions) -> StepEnd
        requires { MayStep self.old Event.ReceiveFailed actions.old }
        ensures { Steps self.old self.new Event.ReceiveFailed actions.old actions.new result }
    {
        self.boot.on_receive_failed();
        self.settle(None, actions)
    }

    /// The successor is there: the message is sent.
    fn step_connected(&mut self, alloc: Global, actions: &mut Actions) -> Result<StepEnd, NoMemory>
        requires { MayStep self.old Event.Connected actions.old }
        ensures { StepsOr self.old self.new Event.Connected actions.old actions.new result }
    {
        let copy = self.message_at(alloc, &Event::Connected)?;
        self.offer.take(SendAnswer::Connected, self.drain.moment());
        Ok(self.settle(copy, actions))
    }

    /// The offer goes on later, or is over. Once it is over, what is abandoned and was on offer
    /// closes.
    fn step_answer(&mut self, answer: SendAnswer, actions: &mut Actions) -> StepEnd
        requires may { MayStep self.old (event_of answer) actions.old }
        requires rests { is_reached answer ≡ false }
        ensures { Steps self.old self.new (event_of answer) actions.old actions.new result }
    {
        self.offer.take(answer, self.drain.moment());
        if self.offer.over_since().is_some() {
            self.endpoints.release(&self.plan, actions);
            return self.settle(None, actions);
        }
        self.settle(None, actions)
    }

    /// A loop of an endpoint ended: a descriptor that no loop uses any more closes.
    fn step_loop_ended(
        &mut self,
        s: u32,
        i: u32,
        j: u64,
        actions: &mut Actions,
    ) -> Result<StepEnd, NoMemory>
        requires { MayStep self.old (Event.LoopEnded s i j) actions.old }
        ensures { StepsOr self.old self.new (Event.LoopEnded s i j) actions.old actions.new result }
    {
        self.endpoints.reserve_loop()?;
        let kept = self.offer.numbers_on_offer();
        self.endpoints
            .on_loop_ended(&self.plan, s, i, j, kept, actions);
        Ok(self.settle(None, actions))
    }

    /// The first signal begins the shutdown. By an upgrade what is live is offered. A further signal
    /// cuts its waits short or changes nothing.
    fn step_signal(
        &mut self,
        alloc: Global,
        kind: ShutdownSignal,
        actions: &mut Actions,
    ) -> Result<StepEnd, NoMemory>
        requires { MayStep self.old (Event.Signal kind) actions.old }
        ensures steps { StepsOr self.old self.new (Event.Signal kind) actions.old actions.new result }
        ensures later { Ignores self.old self.new (Event.Signal kind) actions.old actions.new }
    {
        if self.drain.signal().is_some() {
            return Ok(self.step_further(kind, actions));
        }
        if self.offers_by(kind) {
            let message = self.endpoints.message(alloc)?;
            self.offer.begin(message, self.drain.moment());
            self.drain.on_signal(kind, true);
            return Ok(self.settle(None, actions));
        }
        self.drain.on_signal(kind, false);
        Ok(self.settle(None, actions))
    }

    /// A fast signal after a graceful one ends the run at once: the offer is over, so what is abandoned
    /// and was on offer closes, and nothing more is waited for. Any other further signal changes nothing.
    fn step_further(&mut self, kind: ShutdownSignal, actions: &mut Actions) -> StepEnd
        requires may { MayStep self.old (Event.Signal kind) actions.old }
        requires further { is_some self.old.drain.signal ≡ true }
        ensures steps { Steps self.old self.new (Event.Signal kind) actions.old actions.new result }
        ensures later { Ignores self.old self.new (Event.Signal kind) actions.old actions.new }
    {
        if !self.drain.cuts(kind) {
            return self.end;
        }
        self.offer.cut(self.drain.moment());
        self.drain.on_signal(kind, false);
        self.endpoints.release(&self.plan, actions);
        self.settle(None, actions)
    }

    /// The signal asks for an upgrade, and something is live that can be offered.
    fn offers_by(&self, kind: ShutdownSignal) -> bool
        ensures { OffersBy self.now kind result }
    {
        matches!(kind, ShutdownSignal::GracefulUpgrade) && self.endpoints.offers_anything()
    }
}
