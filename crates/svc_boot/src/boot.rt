//! How a run begins: the fork of a daemon, and bootstrapping up to the message of an older server.

ghost use Rattle.std.specs.Prelude.{◌≡◌, ◌+◌, ◌-◌, ◌≤◌, nat_lt, ◌++◌, [], ◌∷◌, ℕ, List, length, true, false};
ghost use Rattle.svc_base.specs.Items.{list_of, spare};
ghost use Rattle.svc_record.specs.declared.plan.Plan.{Plan};
ghost use Rattle.svc_record.specs.declared.entry.Entry.TheVariants.{Got, Told};
ghost use Rattle.svc_record.specs.declared.event.Event.{Event};
ghost use Rattle.svc_record.specs.declared.event.Event.TheVariants.{Moment, Received, NoSenderYet, ReceiveFailed, Side as Sides, ChildReady};
ghost use Rattle.svc_record.specs.declared.action.Action.TheVariants.{Daemonize};
ghost use Rattle.svc_record.specs.Record.{Record, now, tell};
ghost use Rattle.svc_record.specs.Message.{decode};
ghost use Rattle.svc_record.specs.Boot.{is_read};
ghost use Rattle.svc_record.specs.Ends.{is_parent_failure};
ghost use Rattle.svc_moments.specs.Least.{IsLeast};
ghost use Rattle.svc_boot.specs.declared.fork.Fork.TheVariants.{Asked, Over};
ghost use Rattle.svc_boot.specs.ForkState.{is_asked, is_waiting, is_parent_over, may_run};
ghost use Rattle.svc_boot.specs.BootState.{BootStands, is_trying, is_due_in};
ghost use Rattle.svc_boot.specs.BootEffects.{unbegun, forked, side_taken, waited, notify_told, receive_told, begun_from, begun_by, told_from, begin_told, begun_with, missed, failed, received, is_complete_due, completed_if, complete_told, tried_if, try_told, end_from, end_of, is_over};

use crate::fork::Fork;
use crate::receiving::Receiving;
use std::marker::Model;
use svc_fds::{ReceiveKind, ReceiveNext, ReceiveRetry};
use svc_moments::{ParentEvent, ParentNext, ParentWait, after, after_seconds};
use svc_record::{Action, Actions, BootstrapError, ExecutionPhase, Plan, Side, StepEnd};

/// How long nothing is tried after a try that met no sender, in milliseconds.
const REST: u64 = 1000;

/// What became of the fork, whether bootstrapping has begun, whether it is complete, how far the
/// receiving has come, and how often it is tried again.
#[derive(Drop)]
pub struct Boot {
    fork: Fork,
    begun: bool,
    complete: bool,
    receiving: Receiving,
    retry: ReceiveRetry,
}

impl Model for Boot {
    ghost use Rattle.svc_boot.specs.BootData.{BootData};

    ghost Value = { BootData };

    ghost view = { λ b. record { fork = b.fork; begun = b.begun; complete = b.complete; receiving = b.receiving; retries = b.retry } };
}

/// A try met no sender. Whether that was once too often.
fn miss(retry: &mut ReceiveRetry) -> bool
    ensures last { result ≡ nat_lt retry.old 1 }
    ensures after { retry.new ≡ retry.old - 1 }
{
    matches!(retry.step(ReceiveKind::NotYet), ReceiveNext::Refused(_))
}

/// The fork after it came at the moment, in milliseconds, by whether a parent waits.
fn fork_after(side: Side, wait: bool, moment: u64) -> Fork
    ensures { result ≡ side_taken wait side moment }
{
    match side {
        Side::Child => Fork::Child,
        Side::Parent if wait => Fork::Waiting(moment),
        Side::Parent => Fork::Over(0),
    }
}

/// The fork at a moment, in milliseconds: a parent that has waited so many seconds ends.
fn wait_until(fork: Fork, limit: u64, moment: u64) -> Fork
    ensures { result ≡ waited limit moment fork }
{
    let Fork::Waiting(since) = fork else {
        return fork;
    };
    match ParentWait::new(limit, since).step(ParentEvent::Moment(moment)) {
        ParentNext::Exit(status) => Fork::Over(status),
        ParentNext::Wait => fork,
    }
}

/// Tells that the parent is notified, where one is.
fn notify_parent(notify: bool, actions: &mut Actions)
    requires room { 1 ≤ spare actions.old }
    ensures told { list_of actions.new ≡ list_of actions.old ++ notify_told notify }
    ensures room { spare actions.old ≤ spare actions.new + 1 }
    ensures few { length (list_of actions.new) ≤ length (list_of actions.old) + 1 }
{
    if notify {
        actions.put(Action::NotifyParent);
    }
}

impl Boot {
    /// Nothing has begun. So many tries may meet no sender.
    pub fn new(limit: u64) -> Boot
        ensures fresh { result ≡ unbegun limit }
        ensures stands { (p : Plan) → p.limit ≡ limit → BootStands p result [] }
    {
        Boot {
            fork: Fork::Unforked,
            begun: false,
            complete: false,
            receiving: Receiving::Unasked,
            retry: ReceiveRetry::new(limit),
        }
    }

    /// Whether bootstrapping has begun.
    pub fn is_begun(&self) -> bool
        ensures { result ≡ self.now.begun }
    {
        self.begun
    }

    /// Whether it was told that bootstrapping is complete.
    pub fn is_complete(&self) -> bool
        ensures { result ≡ self.now.complete }
    {
        self.complete
    }

    /// Whether a try to receive is open.
    pub fn is_trying(&self) -> bool
        ensures { result ≡ is_trying self.now.receiving }
    {
        matches!(self.receiving, Receiving::Trying)
    }

    /// Whether the server goes on in the run of the plan: it is no daemon, or the process is the child.
    pub fn may_run(&self, plan: &Plan) -> bool
        ensures { result ≡ may_run plan.now self.now.fork }
    {
        !plan.daemon || matches!(self.fork, Fork::Child)
    }

    /// Whether the fork is awaited.
    pub fn is_fork_asked(&self) -> bool
        ensures { result ≡ is_asked self.now.fork }
    {
        matches!(self.fork, Fork::Asked)
    }

    /// Whether the process is a parent that waits for its child.
    pub fn is_parent_waiting(&self) -> bool
        ensures { result ≡ is_waiting self.now.fork }
    {
        matches!(self.fork, Fork::Waiting(_))
    }

    /// Asks for the fork, before all else.
    pub fn ask_fork(&mut self, actions: &mut Actions)
        requires room { 1 ≤ spare actions.old }
        ensures after { self.new ≡ forked Asked self.old }
        ensures told { list_of actions.new ≡ list_of actions.old ++ Daemonize ∷ [] }
        ensures stands { (p : Plan) → p.daemon ≡ true → BootStands p self.old [] → BootStands p self.new (Told Daemonize ∷ []) }
        ensures room { spare actions.old ≤ spare actions.new + 1 }
        ensures few { length (list_of actions.new) ≤ length (list_of actions.old) + 1 }
    {
        self.fork = Fork::Asked;
        actions.put(Action::Daemonize);
    }

    /// The fork that was awaited came at the moment, in milliseconds: the child goes on, and the
    /// parent waits for it, or ends where the plan doesn't wait.
    pub fn on_side(&mut self, plan: &Plan, side: Side, moment: u64)
        requires { is_asked self.old.fork ≡ true }
        ensures after { self.new ≡ forked (side_taken plan.now.wait side moment) self.old }
        ensures stands { (q : Record) → moment ≡ now q → BootStands plan.now self.old q → BootStands plan.now self.new (Got (Sides side) ∷ q) }
    {
        self.fork = fork_after(side, plan.wait, moment);
    }

    /// The child is ready for which the parent waits, and so the parent ends well.
    pub fn on_child_ready(&mut self)
        requires { is_waiting self.old.fork ≡ true }
        ensures after { self.new ≡ forked (Over 0) self.old }
        ensures stands { (p : Plan) (q : Record) → BootStands p self.old q → BootStands p self.new (Got ChildReady ∷ q) }
    {
        self.fork = Fork::Over(0);
    }

    /// The child is gone for which the parent waits, or the parent couldn't drop its rights, and so
    /// the parent ends badly.
    pub fn on_parent_failure(&mut self)
        requires { is_waiting self.old.fork ≡ true }
        ensures after { self.new ≡ forked (Over 1) self.old }
        ensures stands { (p : Plan) (q : Record) (e : Event) → is_parent_failure (Got e) ≡ true → BootStands p self.old q → BootStands p self.new (Got e ∷ q) }
    {
        self.fork = Fork::Over(1);
    }

    /// A moment came, in milliseconds: a parent that waits ends badly where it has waited long enough
    /// by the plan.
    pub fn wait_on(&mut self, plan: &Plan, moment: u64)
        ensures after { self.new ≡ forked (waited plan.now.ready_timeout moment self.old.fork) self.old }
        ensures stands { (q : Record) → is_parent_over self.old.fork ≡ false → BootStands plan.now self.old q
            → BootStands plan.now self.new (Got (Moment moment) ∷ q) }
    {
        self.fork = wait_until(self.fork, plan.ready_timeout, moment);
    }

    /// How bootstrapping ends a run that tests or not.
    pub fn end_with(&self, test: bool) -> StepEnd
        ensures { result ≡ end_from test self.now }
    {
        if test && self.begun {
            return StepEnd::Tested;
        }
        if let Fork::Over(status) = self.fork {
            return StepEnd::Parent(status);
        }
        match self.receiving {
            Receiving::Refused(reason) => StepEnd::Ended(reason),
            _ => StepEnd::On,
        }
    }

    /// How bootstrapping ends the run of the plan.
    pub fn end(&self, plan: &Plan) -> StepEnd
        ensures { result ≡ end_of plan.now self.now }
    {
        self.end_with(plan.test)
    }

    /// Whether bootstrapping ends the run of the plan.
    pub fn is_over(&self, plan: &Plan) -> bool
        ensures { result ≡ is_over plan.now self.now }
    {
        (plan.test && self.begun)
            || matches!(self.fork, Fork::Over(_))
            || matches!(self.receiving, Receiving::Refused(_))
    }

    /// An older server's message is received, where that is asked for, and else all is complete.
    fn receive(&mut self, upgrade: bool, moment: u64, actions: &mut Actions)
        requires room { 2 ≤ spare actions.old }
        requires begun { self.old.begun ≡ true }
        ensures after { self.new ≡ begun_with false upgrade self.old }
        ensures told { list_of actions.new ≡ list_of actions.old ++ receive_told upgrade moment }
        ensures room { spare actions.old ≤ spare actions.new + 2 }
        ensures few { length (list_of actions.new) ≤ length (list_of actions.old) + 2 }
    {
        if upgrade {
            self.receiving = Receiving::Trying;
            actions.put(Action::OpenReceiver);
            actions.put(Action::TryReceive);
        } else {
            self.complete = true;
            actions.put(Action::Phase(ExecutionPhase::BootstrapComplete, moment));
        }
    }

    /// Bootstrapping begins at the moment, in milliseconds. Only the first time changes and tells
    /// something: with `test` the phase alone, and else, after the parent is notified where `notify`
    /// is set, with `upgrade` the first try to receive, and without it that all is complete.
    pub fn begin_with(
        &mut self,
        test: bool,
        notify: bool,
        upgrade: bool,
        moment: u64,
        actions: &mut Actions,
    )
        requires room { 4 ≤ spare actions.old }
        ensures after { self.new ≡ begun_from test upgrade self.old }
        ensures told { list_of actions.new ≡ list_of actions.old ++ told_from test notify upgrade self.old moment }
        ensures once { self.old.begun ≡ true → (self.new ≡ self.old) × (list_of actions.new ≡ list_of actions.old) }
        ensures room { spare actions.old ≤ spare actions.new + 4 }
        ensures few { length (list_of actions.new) ≤ length (list_of actions.old) + 4 }
    {
        if self.begun {
            return;
        }
        self.begun = true;
        actions.put(Action::Phase(ExecutionPhase::Bootstrap, moment));
        if test {
            return;
        }
        notify_parent(notify, actions);
        self.receive(upgrade, moment, actions);
    }

    /// Bootstrapping begins in the run of the plan, once the fork isn't awaited. A daemon's child
    /// notifies its parent where the plan waits.
    pub fn begin(&mut self, plan: &Plan, moment: u64, actions: &mut Actions)
        requires room { 4 ≤ spare actions.old }
        ensures after { self.new ≡ begun_by plan.now self.old }
        ensures told { list_of actions.new ≡ list_of actions.old ++ begin_told plan.now self.old moment }
        ensures stands { (q : Record) → may_run plan.now self.old.fork ≡ true → BootStands plan.now self.old q
            → BootStands plan.now self.new (tell q (begin_told plan.now self.old moment)) }
        ensures once { self.old.begun ≡ true → (self.new ≡ self.old) × (list_of actions.new ≡ list_of actions.old) }
        ensures room { spare actions.old ≤ spare actions.new + 4 }
        ensures few { length (list_of actions.new) ≤ length (list_of actions.old) + 4 }
    {
        self.begin_with(
            plan.test,
            plan.daemon && plan.wait,
            plan.upgrade,
            moment,
            actions,
        );
    }

    /// The open try met no sender at the moment, in milliseconds: it is tried again later, or there
    /// was one miss too many.
    pub fn on_no_sender(&mut self, moment: u64)
        requires { is_trying self.old.receiving ≡ true }
        ensures after { self.new ≡ missed moment self.old }
        ensures stands { (p : Plan) (q : Record) → moment ≡ now q → BootStands p self.old q → BootStands p self.new (Got NoSenderYet ∷ q) }
    {
        self.receiving = if miss(&mut self.retry) {
            Receiving::Refused(BootstrapError::NoSender)
        } else {
            Receiving::Missed(moment)
        };
    }

    /// The open try failed.
    pub fn on_receive_failed(&mut self)
        requires { is_trying self.old.receiving ≡ true }
        ensures after { self.new ≡ failed self.old }
        ensures stands { (p : Plan) (q : Record) → BootStands p self.old q → BootStands p self.new (Got ReceiveFailed ∷ q) }
    {
        self.receiving = Receiving::Refused(BootstrapError::Transfer);
    }

    /// The open try brought a message. It can be read, or ends the run.
    pub fn on_received(&mut self, good: bool)
        requires { is_trying self.old.receiving ≡ true }
        ensures after { self.new ≡ received good self.old }
        ensures stands { (p : Plan) (q : Record) (bytes fds : List ℕ) → good ≡ is_read (decode bytes (length fds)) → BootStands p self.old q
            → BootStands p self.new (Got (Received bytes fds) ∷ q) }
    {
        self.receiving = if good {
            Receiving::Came
        } else {
            Receiving::Refused(BootstrapError::BadMessage)
        };
    }

    /// Tells at the moment, in milliseconds, that bootstrapping is complete, where a message has
    /// come and it wasn't told yet.
    pub fn complete(&mut self, moment: u64, actions: &mut Actions) -> bool
        requires room { 1 ≤ spare actions.old }
        ensures due { result ≡ is_complete_due self.old }
        ensures after { self.new ≡ completed_if result self.old }
        ensures told { list_of actions.new ≡ list_of actions.old ++ complete_told result moment }
        ensures stands { (p : Plan) (q : Record) → may_run p self.old.fork ≡ true → BootStands p self.old q
            → BootStands p self.new (tell q (complete_told result moment)) }
        ensures room { spare actions.old ≤ spare actions.new + 1 }
        ensures few { length (list_of actions.new) ≤ length (list_of actions.old) + 1 }
    {
        if self.complete || !matches!(self.receiving, Receiving::Came) {
            return false;
        }
        self.complete = true;
        actions.put(Action::Phase(ExecutionPhase::BootstrapComplete, moment));
        true
    }

    /// Whether it is tried again at the moment, in milliseconds.
    fn is_due(&self, moment: u64) -> bool
        ensures { result ≡ is_due_in self.now.receiving moment }
    {
        match self.receiving {
            Receiving::Missed(at) => REST <= moment.saturating_sub(at),
            _ => false,
        }
    }

    /// The least moment, in milliseconds, at which it is tried again, if nothing but moments comes; none
    /// where no such moment is of 64 bits.
    pub fn next_try(&self) -> Option<u64>
        ensures { IsLeast (λ t. is_due_in self.now.receiving t ≡ true) result }
    {
        match self.receiving {
            Receiving::Missed(at) => after(at, REST),
            _ => None,
        }
    }

    /// The least moment, in milliseconds, at which a parent that waits ends badly, or it has ended, if
    /// nothing but moments comes; none where no such moment is of 64 bits.
    pub fn next_end(&self, plan: &Plan) -> Option<u64>
        ensures { IsLeast (λ t. is_parent_over (waited plan.now.ready_timeout t self.now.fork) ≡ true) result }
    {
        match self.fork {
            Fork::Waiting(at) => after_seconds(at, plan.ready_timeout),
            Fork::Over(_) => Some(0),
            Fork::Unforked | Fork::Asked | Fork::Child => None,
        }
    }

    /// Tries again at the moment, in milliseconds, where the last try met no sender 1,000 ms or more
    /// before.
    pub fn try_again(&mut self, moment: u64, actions: &mut Actions) -> bool
        requires room { 1 ≤ spare actions.old }
        ensures due { result ≡ is_due_in self.old.receiving moment }
        ensures after { self.new ≡ tried_if result self.old }
        ensures told { list_of actions.new ≡ list_of actions.old ++ try_told result }
        ensures stands { (p : Plan) (q : Record) → moment ≡ now q → may_run p self.old.fork ≡ true → BootStands p self.old q
            → BootStands p self.new (tell q (try_told result)) }
        ensures room { spare actions.old ≤ spare actions.new + 1 }
        ensures few { length (list_of actions.new) ≤ length (list_of actions.old) + 1 }
    {
        if !self.is_due(moment) {
            return false;
        }
        self.receiving = Receiving::Trying;
        actions.put(Action::TryReceive);
        true
    }
}
