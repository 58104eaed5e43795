//! The run of a plan over a host, turn by turn.

ghost use Rattle.std.specs.Prelude.{◌≡◌, ◌+◌, ◌*◌, ◌<◌, ◌≤◌, ℕ, [], ◌∷◌, List, Option, Some, None, length, map, Ok, Err, IfSome, IfOk, OnOk, OnErr};
ghost use Rattle.svc_base.specs.Items.{list_of, spare};
ghost use Rattle.svc_record.specs.declared.entry.Entry.TheVariants.{Got};
ghost use Rattle.svc_record.specs.declared.item.Item.{Item};
ghost use Rattle.svc_record.specs.Record.{Record};
ghost use Rattle.svc_record.specs.Right.{Right};
ghost use Rattle.svc_record.specs.Connections.{Verdict};
ghost use Rattle.svc_record.specs.Plans.{service_count};
ghost use Rattle.svc_record.specs.Building.{IsGraphUpTo};
ghost use Rattle.svc_record.specs.Validity.{IsValid};
ghost use Rattle.svc_streams.specs.Verdicts.{verdict_at};
ghost use Rattle.svc_core.specs.CoreData.{is_served};
ghost use Rattle.svc_core.specs.Rooms.{tell_room, close_room};
ghost use Rattle.svc_core.specs.Stands.{Represents, HasNotBegun, MayCome};
ghost use Rattle.svc_server.specs.Hosts.{ComesWith, no_account};
ghost use Rattle.svc_server.specs.Handing.{names_left, Hands};
ghost use Rattle.svc_server.specs.Judges.{Judges, NamesFilters};
ghost use Rattle.svc_server.specs.Turns.{IsAt, IsSomewhere, IsJudgedSomewhere, IsSomewhereAtEvent, IsAhead, HasRoom, CanClose, ClosesTo, CanTake, Leaves, RunGives, TurnGives, TurnCounts, EventGives, FailsBy, AnswersEvent};
ghost use Rattle.svc_server.specs.Runs.{RunTells, RunCounts, RunTakes, IsConfigured, answer_of, names_of};

use crate::asking::ask_filter;
use crate::handing::tell_all;
use crate::host::{Host, Next};
use crate::pending_services::PendingServices;
use crate::run::{Outcome, RunError};
use std::alloc::Global;
use std::mem::drop;
use svc_base::NoMemory;
use svc_core::Core;
use svc_graph::DependencyGraph;
use svc_graph::services::ServiceWithDependents;
use svc_record::{Actions, Plan, StepEnd};
use svc_streams::{ConnectionFilter, Filters};

/// What is run: a plan, and the graph of its services' dependencies.
#[derive(Drop)]
pub(crate) struct Planned {
    pub plan: Plan,
    pub graph: DependencyGraph,
}

/// A run on its way: the core, the services that aren't handed over yet, the filters, an empty list
/// that has room for the closes of all, and one for what an event's step tells, which keeps its room.
#[derive(Drop)]
struct Run<B, F> {
    core: Core,
    pending: PendingServices<B>,
    filters: Filters<F>,
    closing: Actions,
    told: Actions,
}

/// Takes all actions out. The room stays.
fn empty(actions: &mut Actions)
    ensures { list_of actions.new ≡ [] }
{
    while let Some(action) = actions.pop_first() {
        let _ = action;
    }
}

impl<B: ServiceWithDependents, F: ConnectionFilter> Run<B, F> {
    /// Nothing was told yet, and all services are left.
    fn new(
        alloc: Global,
        planned: Planned,
        services: Vec<B>,
        filters: Filters<F>,
    ) -> Result<Self, NoMemory>
        requires valid { IsValid planned.plan }
        requires graph { IsGraphUpTo planned.plan (service_count planned.plan) planned.graph }
        ensures plan { IfOk result (λ run. run.core.plan ≡ planned.plan) }
        ensures first { IfOk result (λ run. HasNotBegun run.core) }
        ensures left { IfOk result (λ run. run.pending ≡ map Some services.items) }
        ensures filters { IfOk result (λ run. run.filters ≡ filters) }
        ensures empty { IfOk result (λ run. list_of run.closing ≡ []) }
    {
        let Planned { plan, graph } = planned;
        let made = Core::with_graph(alloc, plan, &graph);
        drop(graph);
        match made {
            Ok(core) => match PendingServices::new(alloc, services) {
                Ok(pending) => Ok(Run {
                    core,
                    pending,
                    filters,
                    closing: Actions::new(alloc),
                    told: Actions::new(alloc),
                }),
                Err(NoMemory) => {
                    drop(core);
                    drop(filters);
                    Err(NoMemory)
                }
            },
            Err(NoMemory) => {
                drop(services);
                drop(filters);
                Err(NoMemory)
            }
        }
    }

    /// Closes all.
    fn close<H: Host<Service = B>>(&mut self, host: &mut H)
        requires room { HasRoom self.old.core self.old.closing (H.spare host.old) }
        requires can { CanClose self.old.core (names_left B.named self.old.pending) (H.account host.old) None }
        ensures closed { ClosesTo self.old.core (names_left B.named self.old.pending) (names_left B.named self.new.pending) (H.account host.old)
            (H.account host.new) None }
        ensures core { self.new.core ≡ self.old.core }
        ensures filters { self.new.filters ≡ self.old.filters }
        ensures counts { H.counts host.new ≡ H.counts host.old }
        ensures ahead { H.ahead host.new ≡ H.ahead host.old }
        ensures made { H.made_of host.new ≡ H.made_of host.old }
    {
        self.core.close_all(None, &mut self.closing);
        tell_all(self.core.plan(), &mut self.pending, &mut self.closing, host);
    }

    /// Closes all, with what the host's last event brought, which is left unfinished.
    fn close_with_event<H: Host<Service = B>>(&mut self, host: &mut H)
        requires room { HasRoom self.old.core self.old.closing (H.spare host.old) }
        requires few { ComesWith Next.Event (H.last host.old) }
        requires can { CanClose self.old.core (names_left B.named self.old.pending) (H.account host.old) (H.last host.old) }
        ensures closed { ClosesTo self.old.core (names_left B.named self.old.pending) (names_left B.named self.new.pending) (H.account host.old)
            (H.account host.new) (H.last host.old) }
        ensures core { self.new.core ≡ self.old.core }
        ensures filters { self.new.filters ≡ self.old.filters }
        ensures counts { H.counts host.new ≡ H.counts host.old }
        ensures ahead { H.ahead host.new ≡ H.ahead host.old }
        ensures made { H.made_of host.new ≡ H.made_of host.old }
    {
        self.core.close_all(Some(host.event()), &mut self.closing);
        tell_all(self.core.plan(), &mut self.pending, &mut self.closing, host);
    }

    /// Tells the host until when no moment is due, where it asks.
    fn tell_due<H: Host<Service = B>>(&self, host: &mut H)
        ensures room { H.spare host.old ≤ H.spare host.new }
        ensures account { H.account host.new ≡ H.account host.old }
        ensures counts { H.counts host.new ≡ H.counts host.old }
        ensures ahead { H.ahead host.new ≡ H.ahead host.old }
        ensures made { H.made_of host.new ≡ H.made_of host.old }
    {
        if host.asks_due() {
            host.wait_until(self.core.next_due());
        }
    }

    /// Takes the memory of the next step, and of the closes after it. The host may then wait until
    /// something is due.
    fn make_room<H: Host<Service = B>>(
        &mut self,
        alloc: Global,
        host: &mut H,
    ) -> Result<(), NoMemory>
        requires room { HasRoom self.old.core self.old.closing (H.spare host.old) }
        ensures room { HasRoom self.new.core self.new.closing (H.spare host.new) }
        ensures list { OnOk result (tell_room self.new.core ≤ spare self.new.closing) }
        ensures host { OnOk result (2 * tell_room self.new.core + 1 ≤ H.spare host.new) }
        ensures core { self.new.core ≡ self.old.core }
        ensures pending { self.new.pending ≡ self.old.pending }
        ensures filters { self.new.filters ≡ self.old.filters }
        ensures account { H.account host.new ≡ H.account host.old }
        ensures counts { H.counts host.new ≡ H.counts host.old }
        ensures ahead { H.ahead host.new ≡ H.ahead host.old }
        ensures made { H.made_of host.new ≡ H.made_of host.old }
    {
        let room = self.core.step_room();
        self.closing.reserve(alloc, room)?;
        host.reserve(alloc, room + 1)?;
        self.tell_due(host);
        Ok(())
    }

    /// The first step, with its actions told. After `NoMemory` nothing was told.
    fn begin<H: Host<Service = B>>(
        &mut self,
        alloc: Global,
        host: &mut H,
    ) -> Result<StepEnd, NoMemory>
        requires first { HasNotBegun self.old.core }
        requires empty { list_of self.old.closing ≡ [] }
        requires hands { Hands (names_left B.named self.old.pending) (H.account host.old) self.old.core.plan [] }
        ensures plan { IfOk result (λ _. self.new.core.plan ≡ self.old.core.plan) }
        ensures filters { self.new.filters ≡ self.old.filters }
        ensures leaves { IfOk result (λ end. Leaves (verdict_at F.verdict self.old.filters) (verdict_at F.verdict self.new.filters)
            self.new.core (names_left B.named self.new.pending) (H.account host.new) end []) }
        ensures room { OnOk result (HasRoom self.new.core self.new.closing (H.spare host.new)) }
        ensures untold { OnErr result (H.account host.new ≡ H.account host.old) }
        ensures counts { H.counts host.new ≡ H.counts host.old }
        ensures ahead { H.ahead host.new ≡ H.ahead host.old }
        ensures made { H.made_of host.new ≡ H.made_of host.old }
    {
        let room = self.core.step_room();
        self.closing.reserve(alloc, room)?;
        host.reserve(alloc, room)?;
        let mut actions = Actions::new(alloc);
        match self.core.begin(alloc, &mut actions) {
            Ok(end) => {
                tell_all(self.core.plan(), &mut self.pending, &mut actions, host);
                drop(actions);
                Ok(end)
            }
            Err(NoMemory) => {
                drop(actions);
                Err(NoMemory)
            }
        }
    }

    /// The step of the host's last event, which fits, with its actions told. Before it the filter is
    /// asked that is asked at the event. After `NoMemory` nothing else has changed.
    fn take<H: Host<Service = B>>(
        &mut self,
        alloc: Global,
        host: &mut H,
    ) -> Result<StepEnd, NoMemory>
        requires fits { IfSome (H.last host.old) (MayCome self.old.core) }
        requires room { 2 * tell_room self.old.core ≤ H.spare host.old }
        requires can { CanTake self.old.core (names_left B.named self.old.pending) (H.account host.old) (H.last host.old) }
        requires known { NamesFilters self.old.core.plan (length self.old.filters) }
        ensures plan { IfOk result (λ _. self.new.core.plan ≡ self.old.core.plan) }
        ensures leaves { IfOk result (λ end. IfSome (H.last host.old) (λ e. (q : Record) → Represents self.old.core q → Right self.old.core.plan q
            → Hands (names_left B.named self.old.pending) (H.account host.old) self.old.core.plan (Got e ∷ q)
            → Leaves (verdict_at F.verdict self.old.filters) (verdict_at F.verdict self.new.filters)
            self.new.core (names_left B.named self.new.pending) (H.account host.new) end (Got e ∷ q))) }
        ensures room { OnOk result (2 * close_room self.new.core ≤ H.spare host.new) }
        ensures few { OnOk result (close_room self.new.core ≤ tell_room self.old.core) }
        ensures refused { OnErr result (self.new.core ≡ self.old.core) }
        ensures left { OnErr result (self.new.pending ≡ self.old.pending) }
        ensures untold { OnErr result (host.new ≡ host.old) }
        ensures filters { length self.new.filters ≡ length self.old.filters }
        ensures list { self.new.closing ≡ self.old.closing }
        ensures counts { H.counts host.new ≡ H.counts host.old }
        ensures ahead { H.ahead host.new ≡ H.ahead host.old }
        ensures made { H.made_of host.new ≡ H.made_of host.old }
    {
        empty(&mut self.told);
        let event = host.event();
        let said = ask_filter(&mut self.filters, self.core.asks(event), event);
        let end = self.core.step(alloc, event, said, &mut self.told)?;
        self.pending.note_event(event);
        tell_all(self.core.plan(), &mut self.pending, &mut self.told, host);
        Ok(end)
    }

    /// Takes the event that came, if it fits. Where it doesn't, or memory is refused, all is closed.
    fn take_event<H: Host<Service = B>>(
        &mut self,
        alloc: Global,
        k: u64,
        host: &mut H,
    ) -> Result<StepEnd, RunError>
        requires small { k < u64.MAX }
        requires room { HasRoom self.old.core self.old.closing (H.spare host.old) }
        requires list { tell_room self.old.core ≤ spare self.old.closing }
        requires told { 2 * tell_room self.old.core ≤ H.spare host.old }
        requires at { IsSomewhereAtEvent self.old.core (names_left B.named self.old.pending) (H.account host.old) k (H.last host.old) }
        requires known { NamesFilters self.old.core.plan (length self.old.filters) }
        ensures gives { IfSome (H.last host.old)
            (EventGives (verdict_at F.verdict self.old.filters) (verdict_at F.verdict self.new.filters) self.old.core self.new.core
            (names_left B.named self.old.pending) (names_left B.named self.new.pending)
            (H.account host.old) (H.account host.new) k result (H.ahead host.old) (H.ahead host.new)) }
        ensures room { OnOk result (HasRoom self.new.core self.new.closing (H.spare host.new)) }
        ensures plan { self.new.core.plan ≡ self.old.core.plan }
        ensures filters { length self.new.filters ≡ length self.old.filters }
        ensures failed { IfSome (H.last host.old) (FailsBy result) }
        ensures cause { AnswersEvent result }
        ensures counts { H.counts host.new ≡ H.counts host.old }
        ensures made { H.made_of host.new ≡ H.made_of host.old }
    {
        if !self.core.fits(host.event()) {
            self.close_with_event(host);
            return Err(RunError::Stray(k + 1));
        }
        match self.take(alloc, host) {
            Ok(end) => Ok(end),
            Err(NoMemory) => {
                self.close_with_event(host);
                Err(RunError::NoMemory)
            }
        }
    }

    /// One turn: memory, and then the next event, if one comes. Where none is taken, all is closed.
    fn turn<H: Host<Service = B>>(
        &mut self,
        alloc: Global,
        k: u64,
        host: &mut H,
    ) -> Result<StepEnd, RunError>
        requires small { k < u64.MAX }
        requires room { HasRoom self.old.core self.old.closing (H.spare host.old) }
        requires at { IsSomewhere self.old.core (names_left B.named self.old.pending) (H.account host.old) k StepEnd.On }
        requires known { NamesFilters self.old.core.plan (length self.old.filters) }
        ensures gives { (verdict : Verdict) (turns : ℕ) (before : Option (List Item)) (q : Record) → k < turns
            → IsAt self.old.core (names_left B.named self.old.pending) (H.account host.old) k StepEnd.On q
            → IsAhead before (H.ahead host.old) q
            → Judges verdict (verdict_at F.verdict self.old.filters) self.old.core.plan q
            → TurnGives verdict (verdict_at F.verdict self.new.filters) self.new.core (names_left B.named self.new.pending)
            (H.account host.new) k turns result before (H.ahead host.new) }
        ensures room { OnOk result (HasRoom self.new.core self.new.closing (H.spare host.new)) }
        ensures plan { self.new.core.plan ≡ self.old.core.plan }
        ensures filters { length self.new.filters ≡ length self.old.filters }
        ensures counts { TurnCounts result (H.counts host.old) (H.counts host.new) }
        ensures configured { IsConfigured result }
        ensures made { H.made_of host.new ≡ H.made_of host.old }
    {
        if self.make_room(alloc, host).is_err() {
            self.close(host);
            return Err(RunError::NoMemory);
        }
        match host.next() {
            Next::Event => self.take_event(alloc, k, host),
            Next::None => {
                self.close(host);
                Err(RunError::OutOfEvents)
            }
            Next::Failed => {
                self.close(host);
                Err(RunError::HostFault)
            }
        }
    }

    /// Ends a run that has ended so, with its answer. Where it didn't serve, all is closed.
    fn finish<H: Host<Service = B>>(
        &mut self,
        end: StepEnd,
        answer: Result<Outcome, RunError>,
        host: &mut H,
    ) -> Result<Outcome, RunError>
        requires answers { answer_of end ≡ Some answer }
        requires room { HasRoom self.old.core self.old.closing (H.spare host.old) }
        requires at { (k : ℕ) × IsSomewhere self.old.core (names_left B.named self.old.pending) (H.account host.old) k end }
        ensures gives { (verdict : Verdict) (k turns : ℕ) (before : Option (List Item)) (q : Record) → k ≤ turns
            → IsAt self.old.core (names_left B.named self.old.pending) (H.account host.old) k end q
            → IsAhead before (H.ahead host.old) q
            → Judges verdict (verdict_at F.verdict self.old.filters) self.old.core.plan q
            → RunGives verdict self.old.core.plan turns result (H.account host.new) before (H.ahead host.new) }
        ensures answers { result ≡ answer }
        ensures counts { H.counts host.new ≡ H.counts host.old }
        ensures made { H.made_of host.new ≡ H.made_of host.old }
    {
        if has_served(end) {
            return answer;
        }
        self.close(host);
        answer
    }

    /// Turn after turn, until the run ends or they are spent.
    fn take_turns<H: Host<Service = B>>(
        &mut self,
        alloc: Global,
        turns: u64,
        host: &mut H,
    ) -> Result<Outcome, RunError>
        requires room { HasRoom self.old.core self.old.closing (H.spare host.old) }
        requires at { IsJudgedSomewhere (verdict_at F.verdict self.old.filters) self.old.core (names_left B.named self.old.pending)
            (H.account host.old) 0 StepEnd.On }
        requires known { NamesFilters self.old.core.plan (length self.old.filters) }
        ensures gives { (verdict : Verdict) (before : Option (List Item)) (q : Record)
            → IsAt self.old.core (names_left B.named self.old.pending) (H.account host.old) 0 StepEnd.On q
            → IsAhead before (H.ahead host.old) q
            → Judges verdict (verdict_at F.verdict self.old.filters) self.old.core.plan q
            → RunGives verdict self.old.core.plan turns result (H.account host.new) before (H.ahead host.new) }
        ensures counts { RunCounts result (H.counts host.old) (H.counts host.new) }
        ensures configured { IsConfigured result }
        ensures made { H.made_of host.new ≡ H.made_of host.old }
    {
        for k in 0..turns {
            let end = match self.turn(alloc, k, host) {
                Ok(end) => end,
                Err(error) => return Err(error),
            };
            match answer_of(end) {
                Some(answer) => return self.finish(end, answer, host),
                None => {}
            }
        }
        self.close(host);
        Err(RunError::TurnsSpent)
    }

    /// The whole run.
    fn run<H: Host<Service = B>>(
        &mut self,
        alloc: Global,
        turns: u64,
        host: &mut H,
    ) -> Result<Outcome, RunError>
        requires first { HasNotBegun self.old.core }
        requires empty { list_of self.old.closing ≡ [] }
        requires hands { Hands (names_left B.named self.old.pending) (H.account host.old) self.old.core.plan [] }
        requires known { NamesFilters self.old.core.plan (length self.old.filters) }
        ensures gives { RunGives (verdict_at F.verdict self.old.filters) self.old.core.plan turns result (H.account host.new) (H.ahead host.old)
            (H.ahead host.new) }
        ensures counts { RunCounts result (H.counts host.old) (H.counts host.new) }
        ensures configured { IsConfigured result }
        ensures made { H.made_of host.new ≡ H.made_of host.old }
    {
        let end = match self.begin(alloc, host) {
            Ok(end) => end,
            Err(NoMemory) => return Err(RunError::NoMemory),
        };
        match answer_of(end) {
            Some(answer) => self.finish(end, answer, host),
            None => self.take_turns(alloc, turns, host),
        }
    }
}

/// The run went through its shutdown.
fn has_served(end: StepEnd) -> bool
    ensures { result ≡ is_served end }
{
    matches!(end, StepEnd::Served)
}

/// What a run answers that has ended so; none where it goes on.
fn answer_of(end: StepEnd) -> Option<Result<Outcome, RunError>>
    ensures { result ≡ answer_of end }
{
    match end {
        StepEnd::On => None,
        StepEnd::Served => Some(Ok(Outcome::Served)),
        StepEnd::Tested => Some(Ok(Outcome::TestPassed)),
        StepEnd::Parent(status) => Some(Ok(Outcome::Parent(status))),
        StepEnd::Ended(error) => Some(Err(RunError::Bootstrap(error))),
    }
}

/// Runs a plan over a host, with at most so many events. The services are the plan's, in order, and
/// the filters those that its endpoints name.
pub(crate) fn run_plan<B: ServiceWithDependents, F: ConnectionFilter, H: Host<Service = B>>(
    alloc: Global,
    planned: Planned,
    services: Vec<B>,
    filters: Filters<F>,
    turns: u64,
    host: &mut H,
) -> Result<Outcome, RunError>
    requires valid { IsValid planned.plan }
    requires graph { IsGraphUpTo planned.plan (service_count planned.plan) planned.graph }
    requires known { NamesFilters planned.plan (length filters) }
    requires names { map B.named services.items ≡ names_of planned.plan }
    requires first { IfSome (H.account host.old) (λ a. a ≡ no_account) }
    ensures tells { IfSome (H.account host.new) (RunTells (verdict_at F.verdict filters) planned.plan turns result) }
    ensures counts { RunCounts result (H.counts host.old) (H.counts host.new) }
    ensures takes { IfSome (H.account host.new) (λ a. IfSome (H.ahead host.old) (λ before. IfSome (H.ahead host.new) (RunTakes result a.entries before))) }
    ensures configured { IsConfigured result }
    ensures made { H.made_of host.new ≡ H.made_of host.old }
{
    match Run::new(alloc, planned, services, filters) {
        Ok(begun) => {
            let mut begun = begun;
            let answer = begun.run(alloc, turns, host);
            drop(begun);
            answer
        }
        Err(NoMemory) => Err(RunError::NoMemory),
    }
}
