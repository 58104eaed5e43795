//! The end of a run, from the first signal to the last action.

ghost use Rattle.std.specs.Prelude.{◌≡◌, ◌+◌, ◌≤◌, ◌++◌, [], ◌∷◌, length, not, ℕ, Option, Some, None, true, false, if◌then◌else◌, is_some};
ghost use Rattle.svc_base.specs.Items.{list_of, spare};
ghost use Rattle.svc_record.specs.declared.plan.Plan.{Plan};
ghost use Rattle.svc_record.specs.declared.entry.Entry.TheVariants.{Got};
ghost use Rattle.svc_record.specs.declared.event.Event.TheVariants.{Moment, Signal};
ghost use Rattle.svc_record.specs.declared.event.ShutdownSignal.TheVariants.{GracefulUpgrade};
ghost use Rattle.svc_record.specs.declared.action.Action.TheVariants.{Phase, Broadcast};
ghost use Rattle.svc_record.specs.declared.action.ExecutionPhase.TheVariants.{GracefulUpgradeTransferringFds, GracefulTerminate, ShutdownStarted};
ghost use Rattle.svc_record.specs.Record.{Record, tell, has, is_signal, is_graceful};
ghost use Rattle.svc_record.specs.Descriptors.{live_table};
ghost use Rattle.svc_record.specs.Offer.{is_upgrade, is_empty_table};
ghost use Rattle.svc_moments.specs.Least.{IsLeast};
ghost use Rattle.svc_drain.specs.declared.stage.Stage.TheVariants.{Running, Offering, CloseTimeout, Grace, Terminating, CutShort};
ghost use Rattle.svc_drain.specs.DrainState.{DrainStands, IsDrainSettled, OverIs, passes, rest_from, is_broadcast_told, is_cut};
ghost use Rattle.svc_drain.specs.DrainDues.{is_due_at};
ghost use Rattle.svc_drain.specs.DrainPuts.{Puts};
ghost use Rattle.svc_drain.specs.DrainEffects.{still, at_moment, signalled, further, cuts, cut_stage, run, run_told, at_stage, next_stage, gone_on, row_told, stage_told, timeout_told, grace_told, rested_told, shutdown_told, stop_after, stop_told};

use crate::stage::Stage;
use std::marker::Model;
use svc_moments::{after, after_seconds};
use svc_record::{Action, Actions, ExecutionPhase, Plan, ShutdownSignal};

/// How long it is waited after the offer is over, in milliseconds.
const CLOSE_TIMEOUT: u64 = 5000;

/// Whether the server runs, the last moment that came, the first signal, and how far the shutdown
/// was told.
#[derive(Drop)]
pub struct Drain {
    running: bool,
    moment: u64,
    signal: Option<ShutdownSignal>,
    since: u64,
    offers: bool,
    stage: Stage,
}

impl Model for Drain {
    ghost use Rattle.svc_drain.specs.DrainData.{DrainData};

    ghost Value = { DrainData };

    ghost view = { λ d. record { running = d.running; moment = d.moment; signal = d.signal; since = d.since; offers = d.offers; stage = d.stage } };
}

/// The signal asks for an upgrade.
fn is_upgrade_signal(kind: ShutdownSignal) -> bool
    ensures { result ≡ is_upgrade (Some kind) }
{
    matches!(kind, ShutdownSignal::GracefulUpgrade)
}

/// The first signal lets the server end gracefully.
fn is_graceful(first: Option<ShutdownSignal>) -> bool
    ensures { result ≡ is_graceful first }
{
    match first {
        Some(ShutdownSignal::GracefulTerminate | ShutdownSignal::GracefulUpgrade) => true,
        _ => false,
    }
}

/// At each moment, or at none.
fn at_once(due: bool) -> Option<u64>
    ensures { IsLeast (λ t. due ≡ true) result }
{
    if due { Some(0) } else { None }
}

/// The least moment at which it was waited long enough since the offer is over.
fn rest_over(over: Option<u64>) -> Option<u64>
    ensures { IsLeast (λ t. is_some (rest_from over t) ≡ true) result }
{
    match over {
        Some(at) => after(at, CLOSE_TIMEOUT),
        None => None,
    }
}

impl Drain {
    /// Nothing has happened.
    pub fn new() -> Drain
        ensures fresh { result ≡ still }
        ensures stands { (p : Plan) → DrainStands p result None [] }
        ensures settled { IsDrainSettled result None }
    {
        Drain {
            running: false,
            moment: 0,
            signal: None,
            since: 0,
            offers: false,
            stage: Stage::Running,
        }
    }

    /// Whether it was told that the server runs.
    pub fn is_running(&self) -> bool
        ensures { result ≡ self.now.running }
    {
        self.running
    }

    /// The last moment that came, in milliseconds.
    pub fn moment(&self) -> u64
        ensures { result ≡ self.now.moment }
    {
        self.moment
    }

    /// The kind of the first signal.
    pub fn signal(&self) -> Option<ShutdownSignal>
        ensures { result ≡ self.now.signal }
    {
        self.signal
    }

    /// Whether the services' workers were told to finish, and the grace period lasts.
    pub fn has_broadcast(&self) -> bool
        ensures { result ≡ is_broadcast_told self.now }
    {
        matches!(self.stage, Stage::Grace(_))
    }

    /// Time has gone on to this moment.
    pub fn on_moment(&mut self, ms: u64)
        ensures after { self.new ≡ at_moment ms self.old }
        ensures stands { (p : Plan) (over : Option ℕ) (q : Record) → IsDrainSettled self.old over → DrainStands p self.old over q
            → DrainStands p self.new over (Got (Moment ms) ∷ q) }
    {
        self.moment = ms;
    }

    /// Whether a further signal of this kind cuts the waits of the first one short: a fast one after
    /// a graceful one.
    pub fn cuts(&self, kind: ShutdownSignal) -> bool
        ensures { result ≡ cuts self.now.signal kind }
    {
        match kind {
            ShutdownSignal::FastShutdown => is_graceful(self.signal),
            _ => false,
        }
    }

    /// A signal came, by which something is offered or not. Of the further ones only a fast one after
    /// a graceful one has an effect: it cuts the waits short.
    pub fn on_signal(&mut self, kind: ShutdownSignal, offers: bool)
        ensures after { self.new ≡ signalled kind offers self.old }
        ensures first { (p : Plan) (over : Option ℕ) (q : Record) → has is_signal q ≡ false → self.old.running ≡ true
            → (is_upgrade (Some kind) ≡ true → offers ≡ not (is_empty_table (live_table p q))) → OverIs p (Got (Signal kind) ∷ q) over
            → DrainStands p self.old None q → DrainStands p self.new over (Got (Signal kind) ∷ q) }
        ensures later { (p : Plan) (over : Option ℕ) (q : Record) → has is_signal q ≡ true → cuts self.old.signal kind ≡ false → DrainStands p self.old over q
            → DrainStands p self.new over (Got (Signal kind) ∷ q) }
        ensures cut { (p : Plan) (over over2 : Option ℕ) (q : Record) → cuts self.old.signal kind ≡ true → is_cut self.old.stage ≡ false
            → IsDrainSettled self.old over
            → OverIs p (Got (Signal kind) ∷ q) over2 → DrainStands p self.old over q → DrainStands p self.new over2 (Got (Signal kind) ∷ q) }
    {
        if self.signal.is_some() {
            self.on_further_signal(kind);
            return;
        }
        self.signal = Some(kind);
        self.since = self.moment;
        self.offers = is_upgrade_signal(kind) && offers;
    }

    /// A further signal came.
    fn on_further_signal(&mut self, kind: ShutdownSignal)
        ensures { self.new ≡ further kind self.old }
    {
        if self.cuts(kind) {
            self.stage = self.cut_stage();
        }
    }

    /// The stage at a cut: only where the grace period lasts it was told that the shutdown has
    /// started.
    fn cut_stage(&self) -> Stage
        ensures { result ≡ cut_stage self.now.stage }
    {
        match self.stage {
            Stage::Running | Stage::Offering | Stage::CloseTimeout => Stage::CutShort(false),
            Stage::Grace(_) => Stage::CutShort(true),
            Stage::CutShort(started) => Stage::CutShort(started),
            Stage::Terminating => Stage::Terminating,
        }
    }

    /// Tells that the server runs, where that wasn't told yet.
    pub fn run_once(&mut self, actions: &mut Actions)
        requires room { 1 ≤ spare actions.old }
        ensures after { self.new ≡ run self.old }
        ensures told { list_of actions.new ≡ list_of actions.old ++ run_told self.old }
        ensures stands { (p : Plan) (over : Option ℕ) (q : Record) → DrainStands p self.old over q → DrainStands p self.new over (tell q (run_told self.old)) }
        ensures room { spare actions.old ≤ spare actions.new + 1 }
        ensures few { length (list_of actions.new) ≤ length (list_of actions.old) + 1 }
    {
        if self.running {
            return;
        }
        actions.put(Action::Phase(ExecutionPhase::Running, self.moment));
        self.running = true;
    }

    /// Tells what is due of the shutdown, where the offer is over since the moment, if it is. Whether
    /// all waits have passed.
    pub fn publish_due(&mut self, plan: &Plan, over: Option<u64>, actions: &mut Actions) -> bool
        requires room { 4 ≤ spare actions.old }
        ensures after { self.new ≡ gone_on self.old over }
        ensures told { list_of actions.new ≡ list_of actions.old ++ row_told self.old over }
        ensures passes { result ≡ passes plan.now self.new }
        ensures settled { (p : Plan) (q : Record) → DrainStands p self.old over q → IsDrainSettled self.new over }
        ensures stands { (p : Plan) (q : Record) → DrainStands p self.old over q → DrainStands p self.new over (tell q (row_told self.old over)) }
        ensures room { spare actions.old ≤ spare actions.new + 4 }
        ensures few { length (list_of actions.new) ≤ length (list_of actions.old) + 4 }
    {
        self.publish_next(over, actions);
        self.waits_are_over(plan)
    }

    /// Tells the next stage, where one is due.
    fn publish_next(&mut self, over: Option<u64>, actions: &mut Actions)
        requires room { 4 ≤ spare actions.old }
        ensures after { self.new ≡ gone_on self.old over }
        ensures tells { Puts (row_told self.old over) actions.old actions.new }
    {
        match self.stage {
            Stage::Running => self.answer(over, actions),
            Stage::Offering => self.end_offer(over, actions),
            Stage::CloseTimeout => self.end_rest(over, actions),
            Stage::CutShort(started) => self.end_short(started, actions),
            Stage::Grace(_) | Stage::Terminating => {}
        }
    }

    /// The grace period has passed, or there is none, or the waits were cut short.
    fn waits_are_over(&self, plan: &Plan) -> bool
        ensures { result ≡ passes plan.now self.now }
    {
        match self.stage {
            Stage::Grace(at) => plan.grace <= self.moment.saturating_sub(at) / 1000,
            Stage::Terminating | Stage::CutShort(_) => true,
            _ => false,
        }
    }

    /// Tells what follows the first signal at once.
    fn answer(&mut self, over: Option<u64>, actions: &mut Actions)
        requires running { self.old.stage ≡ Running }
        requires room { 4 ≤ spare actions.old }
        ensures after { self.new ≡ at_stage (next_stage Running self.old.signal self.old.offers over self.old.moment) self.old }
        ensures tells { Puts (stage_told Running self.old.signal self.old.offers over self.old.moment) actions.old actions.new }
    {
        match self.signal {
            Some(ShutdownSignal::FastShutdown) => self.answer_fast(actions),
            Some(ShutdownSignal::GracefulTerminate) => self.answer_terminate(actions),
            Some(ShutdownSignal::GracefulUpgrade) => self.answer_upgrade(over, actions),
            None => {}
        }
    }

    /// The run ends at once.
    fn answer_fast(&mut self, actions: &mut Actions)
        requires room { 1 ≤ spare actions.old }
        ensures after { self.new ≡ at_stage Terminating self.old }
        ensures tells { Puts (Phase ShutdownStarted self.old.moment ∷ []) actions.old actions.new }
    {
        actions.put(Action::Phase(ExecutionPhase::ShutdownStarted, self.moment));
        self.stage = Stage::Terminating;
    }

    /// The waits were cut short: the run ends at once.
    fn end_short(&mut self, started: bool, actions: &mut Actions)
        requires short { self.old.stage ≡ CutShort started }
        requires room { 1 ≤ spare actions.old }
        ensures after { self.new ≡ at_stage (CutShort true) self.old }
        ensures tells { Puts (stage_told (CutShort started) self.old.signal self.old.offers None self.old.moment) actions.old actions.new }
    {
        if !started {
            actions.put(Action::Phase(ExecutionPhase::ShutdownStarted, self.moment));
        }
        self.stage = Stage::CutShort(true);
    }

    /// The services are told to end.
    fn answer_terminate(&mut self, actions: &mut Actions)
        requires room { 4 ≤ spare actions.old }
        ensures after { self.new ≡ at_stage (Grace self.old.moment) self.old }
        ensures tells { Puts (Broadcast ∷ Phase GracefulTerminate self.old.moment ∷ grace_told self.old.moment) actions.old actions.new }
    {
        actions.put(Action::Broadcast);
        actions.put(Action::Phase(ExecutionPhase::GracefulTerminate, self.moment));
        self.begin_grace(actions);
    }

    /// What is live is offered, or the services are told to end.
    fn answer_upgrade(&mut self, over: Option<u64>, actions: &mut Actions)
        requires room { 4 ≤ spare actions.old }
        ensures after { self.new ≡ at_stage (next_stage Running (Some GracefulUpgrade) self.old.offers over self.old.moment) self.old }
        ensures tells { Puts (stage_told Running (Some GracefulUpgrade) self.old.offers over self.old.moment) actions.old actions.new }
    {
        actions.put(Action::Phase(ExecutionPhase::GracefulUpgradeTransferringFds, self.moment));
        if self.offers {
            self.stage = Stage::Offering;
            self.end_offer(over, actions);
        } else {
            actions.put(Action::Broadcast);
            self.begin_grace(actions);
        }
    }

    /// The grace period begins.
    fn begin_grace(&mut self, actions: &mut Actions)
        requires room { 2 ≤ spare actions.old }
        ensures after { self.new ≡ at_stage (Grace self.old.moment) self.old }
        ensures tells { Puts (grace_told self.old.moment) actions.old actions.new }
    {
        actions.put(Action::Phase(ExecutionPhase::ShutdownStarted, self.moment));
        actions.put(Action::Phase(ExecutionPhase::ShutdownGracePeriod, self.moment));
        self.stage = Stage::Grace(self.moment);
    }

    /// Where the offer is over, it is waited.
    fn end_offer(&mut self, over: Option<u64>, actions: &mut Actions)
        requires room { 1 ≤ spare actions.old }
        ensures after { self.new ≡ at_stage (if is_some over then CloseTimeout else self.old.stage) self.old }
        ensures tells { Puts (timeout_told over self.old.moment) actions.old actions.new }
    {
        if over.is_some() {
            actions.put(Action::Phase(ExecutionPhase::GracefulUpgradeCloseTimeout, self.moment));
            self.stage = Stage::CloseTimeout;
        }
    }

    /// It was waited long enough since the offer is over.
    fn has_rested(&self, over: Option<u64>) -> bool
        ensures { result ≡ is_some (rest_from over self.now.moment) }
    {
        match over {
            Some(at) => CLOSE_TIMEOUT <= self.moment.saturating_sub(at),
            None => false,
        }
    }

    /// Where that has passed, the services are told to end.
    fn end_rest(&mut self, over: Option<u64>, actions: &mut Actions)
        requires room { 3 ≤ spare actions.old }
        ensures after { self.new ≡ at_stage (if is_some (rest_from over self.old.moment) then Grace self.old.moment else self.old.stage) self.old }
        ensures tells { Puts (rested_told over self.old.moment) actions.old actions.new }
    {
        if self.has_rested(over) {
            actions.put(Action::Broadcast);
            self.begin_grace(actions);
        }
    }

    /// The least moment, in milliseconds, at which something more is due of the shutdown, or all waits
    /// have passed, where the offer is over since the moment, if it is, and nothing but moments comes;
    /// none where no such moment is of 64 bits.
    pub fn next_due(&self, plan: &Plan, over: Option<u64>) -> Option<u64>
        ensures { IsLeast (λ t. is_due_at plan.now self.now over t ≡ true) result }
    {
        match self.stage {
            Stage::Running => at_once(self.signal.is_some()),
            Stage::Offering => at_once(over.is_some()),
            Stage::CloseTimeout => rest_over(over),
            Stage::Grace(at) => after_seconds(at, plan.grace),
            Stage::Terminating | Stage::CutShort(_) => Some(0),
        }
    }

    /// Tells that the run ends; the live descriptors close next.
    pub fn shut_down(&self, actions: &mut Actions)
        requires room { 1 ≤ spare actions.old }
        ensures told { list_of actions.new ≡ list_of actions.old ++ shutdown_told self.now }
        ensures room { spare actions.old ≤ spare actions.new + 1 }
    {
        actions.put(Action::Phase(ExecutionPhase::ShutdownRuntimes, self.moment));
    }

    /// The waits were cut short.
    fn is_cut(&self) -> bool
        ensures { result ≡ is_cut self.now.stage }
    {
        matches!(self.stage, Stage::CutShort(_))
    }

    /// How long the services' workers have to stop, in seconds: not at all after a fast signal.
    fn stop_after(&self, plan: &Plan) -> u64
        ensures { result ≡ stop_after plan.now self.now }
    {
        match self.signal {
            Some(ShutdownSignal::FastShutdown) => 0,
            _ if self.is_cut() => 0,
            _ => plan.stop,
        }
    }

    /// Tells the last that is told.
    pub fn stop(&self, plan: &Plan, actions: &mut Actions)
        requires room { 2 ≤ spare actions.old }
        ensures told { list_of actions.new ≡ list_of actions.old ++ stop_told plan.now self.now }
        ensures room { spare actions.old ≤ spare actions.new + 2 }
    {
        actions.put(Action::Stop(self.stop_after(plan)));
        actions.put(Action::Phase(ExecutionPhase::Terminated, self.moment));
    }
}
