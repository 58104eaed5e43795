//! The part of the core that starts services.

ghost use Rattle.std.specs.Prelude.{◌≡◌, ◌+◌, ◌<◌, ◌≤◌, ◌++◌, not, length, IfOk};
ghost use Rattle.svc_base.specs.Items.{list_of, spare};
ghost use Rattle.svc_record.specs.Plans.{service_count};
ghost use Rattle.svc_core.specs.StartsState.{IsStartsSized, IsBlank, is_flagged, ready_now, start_if, start_told, word_taken, end_taken};

use crate::plans::{is_bootstrap, is_plain, service_count};
use std::alloc::Global;
use std::marker::Model;
use svc_base::NoMemory;
use svc_record::{Action, Actions, Plan};

/// Which services are started, which said that they are ready, and whose work is done.
#[derive(Drop)]
pub struct Starts {
    started: Vec<bool>,
    ready: Vec<bool>,
    ended: Vec<bool>,
}

impl Model for Starts {
    ghost use Rattle.svc_core.specs.StartsData.{StartsData};

    ghost Value = { StartsData };

    ghost view = { λ s. record { started = s.started.items; ready = s.ready.items; ended = s.ended.items } };
}

impl Starts {
    /// Nothing is started yet.
    pub(crate) fn new(alloc: Global, plan: &Plan) -> Result<Starts, NoMemory>
        ensures sized { IfOk result (IsStartsSized plan.now) }
        ensures blank { IfOk result IsBlank }
    {
        let started = vec![in alloc; false; service_count(plan)]?;
        let ready = vec![in alloc; false; service_count(plan)]?;
        let ended = vec![in alloc; false; service_count(plan)]?;
        Ok(Starts {
            started,
            ready,
            ended,
        })
    }

    /// The service's word came, or its work is done, or it has failed, or it is started and plain, or
    /// it is started, bootstraps, and bootstrapping is complete.
    pub(crate) fn is_ready(&self, plan: &Plan, failed: &[bool], complete: bool, s: u32) -> bool
        requires service { s < service_count plan.now }
        requires sized { IsStartsSized plan.now self.now }
        requires flags { length failed.now ≡ service_count plan.now }
        ensures { result ≡ ready_now plan.now self.now failed.now complete s }
    {
        ((self.ready[s as usize] || self.ended[s as usize]) || failed[s as usize])
            || (self.started[s as usize]
                && (is_plain(plan, s) || (is_bootstrap(plan, s) && complete)))
    }

    pub(crate) fn is_started(&self, plan: &Plan, s: u32) -> bool
        requires service { s < service_count plan.now }
        requires sized { IsStartsSized plan.now self.now }
        ensures { result ≡ is_flagged self.now.started s }
    {
        self.started[s as usize]
    }

    /// The service's own word came.
    pub(crate) fn has_ready(&self, plan: &Plan, s: u32) -> bool
        requires service { s < service_count plan.now }
        requires sized { IsStartsSized plan.now self.now }
        ensures { result ≡ is_flagged self.now.ready s }
    {
        self.ready[s as usize]
    }

    /// The service's work is done.
    pub(crate) fn has_ended(&self, plan: &Plan, s: u32) -> bool
        requires service { s < service_count plan.now }
        requires sized { IsStartsSized plan.now self.now }
        ensures { result ≡ is_flagged self.now.ended s }
    {
        self.ended[s as usize]
    }

    /// The service says that it is ready.
    pub(crate) fn on_ready(&mut self, plan: &Plan, s: u32)
        requires service { s < service_count plan.now }
        requires sized { IsStartsSized plan.now self.old }
        ensures sized { IsStartsSized plan.now self.new }
        ensures word { self.new ≡ word_taken s self.old }
    {
        self.ready[s as usize] = true;
    }

    /// The service's work is done.
    pub(crate) fn on_ended(&mut self, plan: &Plan, s: u32)
        requires service { s < service_count plan.now }
        requires sized { IsStartsSized plan.now self.old }
        ensures sized { IsStartsSized plan.now self.new }
        ensures end { self.new ≡ end_taken s self.old }
    {
        self.ended[s as usize] = true;
    }

    /// Starts the service, if it isn't started, and says so.
    pub(crate) fn visit(&mut self, plan: &Plan, s: u32, actions: &mut Actions) -> bool
        requires service { s < service_count plan.now }
        requires sized { IsStartsSized plan.now self.old }
        requires room { 0 < spare actions.old }
        ensures sized { IsStartsSized plan.now self.new }
        ensures fresh { result ≡ not (is_flagged self.old.started s) }
        ensures after { self.new ≡ start_if result s self.old }
        ensures told { list_of actions.new ≡ list_of actions.old ++ start_told result s }
        ensures few { length (list_of actions.new) ≤ length (list_of actions.old) + 1 }
        ensures room { spare actions.old ≤ spare actions.new + 1 }
    {
        if self.started[s as usize] {
            return false;
        }
        self.started[s as usize] = true;
        actions.put(Action::Start(s));
        true
    }
}
