//! How a run begins, and what becomes of a daemon's fork.

ghost use Rattle.std.specs.Prelude.{◌≡◌, ◌≤◌, not, true, false, None};
ghost use Rattle.svc_base.specs.Items.{spare};
ghost use Rattle.svc_record.specs.declared.entry.Entry.TheVariants.{Got};
ghost use Rattle.svc_record.specs.Ends.{is_parent_failure};
ghost use Rattle.svc_boot.specs.ForkState.{may_run};
ghost use Rattle.svc_boot.specs.BootEffects.{end_of};
ghost use Rattle.svc_core.specs.CoreData.{with_end};
ghost use Rattle.svc_core.specs.Stands.{MayBootstrap};
ghost use Rattle.svc_core.specs.Steps.{MayStep, MayFork, Steps, Begins, Goes, bootstrap_room};

use super::Core;
use svc_record::{Actions, Event, Side, StepEnd};

impl Core {
    /// The server forks before all else.
    pub(super) fn is_daemon(&self) -> bool
        ensures { result ≡ self.now.plan.daemon }
    {
        self.plan.daemon
    }

    /// Bootstrapping comes before the services.
    fn is_eager(&self) -> bool
        ensures { result ≡ self.now.plan.eager }
    {
        self.plan.eager
    }

    /// The fork is awaited, or the process is the parent.
    pub(super) fn is_held(&self) -> bool
        ensures { result ≡ not (may_run self.now.plan self.now.boot.fork) }
    {
        !self.boot.may_run(&self.plan)
    }

    /// A server's run begins: with `eager` it bootstraps at once, and then follows the rest of the
    /// step.
    pub(super) fn bootstrap(&mut self, actions: &mut Actions) -> StepEnd
        requires { bootstrap_room self.old ≤ spare actions.old }
        ensures { Goes (MayBootstrap self.old) (bootstrap_room self.old) self.old self.new None actions.old actions.new result }
    {
        if self.is_eager() {
            self.boot.begin(&self.plan, self.drain.moment(), actions);
            return self.settle(None, actions);
        }
        self.settle(None, actions)
    }

    /// Nothing is told: what came says how the run goes on.
    fn hold(&mut self) -> StepEnd
        ensures after { self.new ≡ with_end (end_of self.old.plan self.old.boot) self.old }
        ensures end { result ≡ self.new.end }
    {
        self.end = self.boot.end(&self.plan);
        self.end
    }

    /// A daemon asks for its fork, and awaits it.
    pub(super) fn ask_fork(&mut self, actions: &mut Actions) -> StepEnd
        requires { MayFork self.old actions.old }
        ensures { Begins self.old self.new actions.old actions.new result }
    {
        self.boot.ask_fork(actions);
        self.hold()
    }

    /// The fork came. The child goes on, and the parent waits for it, or ends.
    pub(super) fn step_side(&mut self, side: Side, actions: &mut Actions) -> StepEnd
        requires { MayStep self.old (Event.Side side) actions.old }
        ensures { Steps self.old self.new (Event.Side side) actions.old actions.new result }
    {
        match side {
            Side::Child => self.step_child(actions),
            Side::Parent => self.step_parent(actions),
        }
    }

    /// The process is the child, and a server's run begins.
    fn step_child(&mut self, actions: &mut Actions) -> StepEnd
        requires { MayStep self.old (Event.Side Side.Child) actions.old }
        ensures { Steps self.old self.new (Event.Side Side.Child) actions.old actions.new result }
    {
        self.boot
            .on_side(&self.plan, Side::Child, self.drain.moment());
        self.bootstrap(actions)
    }

    /// The process is the parent, which waits for its child, or ends.
    fn step_parent(&mut self, actions: &mut Actions) -> StepEnd
        requires { MayStep self.old (Event.Side Side.Parent) actions.old }
        ensures { Steps self.old self.new (Event.Side Side.Parent) actions.old actions.new result }
    {
        self.boot
            .on_side(&self.plan, Side::Parent, self.drain.moment());
        self.hold()
    }

    /// The child is ready, and the parent ends well.
    pub(super) fn step_child_ready(&mut self, actions: &mut Actions) -> StepEnd
        requires { MayStep self.old Event.ChildReady actions.old }
        ensures { Steps self.old self.new Event.ChildReady actions.old actions.new result }
    {
        self.boot.on_child_ready();
        self.hold()
    }

    /// The child is gone, or the parent couldn't drop its rights, and so it ends badly.
    pub(super) fn step_parent_failure(&mut self, event: &Event, actions: &mut Actions) -> StepEnd
        requires may { MayStep self.old event.now actions.old }
        requires failure { is_parent_failure (Got event.now) ≡ true }
        ensures { Steps self.old self.new event.now actions.old actions.new result }
    {
        self.boot.on_parent_failure();
        self.hold()
    }

    /// A moment came while the fork is awaited, or to a parent, which ends badly where it has waited
    /// long enough.
    pub(super) fn step_waiting(&mut self, ms: u64, actions: &mut Actions) -> StepEnd
        requires may { MayStep self.old (Event.Moment ms) actions.old }
        requires held { may_run self.old.plan self.old.boot.fork ≡ false }
        ensures { Steps self.old self.new (Event.Moment ms) actions.old actions.new result }
    {
        self.drain.on_moment(ms);
        self.boot.wait_on(&self.plan, ms);
        self.hold()
    }
}
