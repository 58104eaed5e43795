//! What is asked for as a service is visited.

ghost use Rattle.std.specs.Prelude.{◌≡◌, ◌+◌, ◌<◌, ◌≤◌, ◌++◌, ◌∷◌, ◌==◌, ◌&&◌, ◌||◌, [], length, Some, None, true, false};
ghost use Rattle.svc_base.specs.Items.{list_of, spare};
ghost use Rattle.svc_record.specs.Plans.{service_count, endpoints, address, any_with, same_address};
ghost use Rattle.svc_record.specs.Record.{Record, now};
ghost use Rattle.svc_record.specs.Starts.{is_started};
ghost use Rattle.svc_record.specs.Told.{Tells};
ghost use Rattle.svc_endpoints.specs.EndpointsState.{IsEndpointsSized, EndpointsStand};
ghost use Rattle.svc_endpoints.specs.Stays.{StaysHeld, StaysUnheld, OthersStay};
ghost use Rattle.svc_endpoints.specs.Visits.{busy_in, any_busy, decide_at, IsWithin, IsDecided, IsAskOf, Visited, told_by, after};
ghost use Rattle.svc_endpoints.specs.Counts.{is_known_visit};

use crate::endpoints::Endpoints;
use crate::naming::{address_of, endpoint_count, service_count};
use crate::states::{EndpointStatus, is_asking, is_busy};
use svc_record::{Action, Actions, Plan};

/// What a visit of a service tells.
#[derive(Clone, Copy, Drop)]
pub(crate) enum Visit {
    Nothing,
    /// Bind this endpoint.
    Binds(u32),
    /// Listen for this endpoint on this descriptor.
    Adopts(u32, u64),
}

impl Endpoints {
    /// Visits a service: where it is started and hasn't failed, its first endpoint that isn't held
    /// is offered the live descriptor with its address, or bound if nobody is busy with the
    /// address. The moment is in milliseconds.
    pub fn visit(&mut self, plan: &Plan, s: u32, started: bool, moment: u64, actions: &mut Actions)
        requires sized { IsEndpointsSized plan.now self.old.parts }
        requires service { s < service_count plan.now }
        requires room { 0 < spare actions.old }
        ensures sized { IsEndpointsSized plan.now self.new.parts }
        ensures visited { Tells (list_of actions.old) (list_of actions.new) (λ told. IsAskOf s told
            × ((q : Record) → moment ≡ now q → started ≡ is_started q s → EndpointsStand plan.now self.old.parts q
            → Visited plan.now self.new.parts s q told)) }
        ensures table { self.new.parts.table ≡ self.old.parts.table }
        ensures failed { self.new.parts.failed ≡ self.old.parts.failed }
        ensures came { self.new.parts.came ≡ self.old.parts.came }
        ensures room { spare actions.old ≤ spare actions.new + 1 }
        ensures few { length (list_of actions.new) ≤ length (list_of actions.old) + 1 }
        ensures held { StaysHeld self.old.parts self.new.parts }
        ensures unheld { StaysUnheld self.old.parts self.new.parts }
        ensures others { OthersStay s self.old.parts self.new.parts }
    {
        let visit = self.decide(plan, s, started, moment);
        self.tell_visit(plan, s, visit, actions);
    }

    /// What a visit of the service tells.
    fn decide(&self, plan: &Plan, s: u32, started: bool, moment: u64) -> Visit
        requires sized { IsEndpointsSized plan.now self.now.parts }
        requires service { s < service_count plan.now }
        ensures is { IsDecided plan.now self.now.parts s started moment result }
        ensures within { IsWithin plan.now s result }
        ensures known { is_known_visit result self.now.parts.came ≡ true }
    {
        if !started || self.has_failed(s as usize) {
            return Visit::Nothing;
        }
        let j = self.first_missing(plan, s);
        if (j as usize) >= endpoint_count(plan, s as usize) {
            return Visit::Nothing;
        }
        self.decide_at(plan, s, j, moment)
    }

    /// What is done for the first endpoint that isn't held.
    fn decide_at(&self, plan: &Plan, s: u32, j: u32, moment: u64) -> Visit
        requires sized { IsEndpointsSized plan.now self.now.parts }
        requires service { s < service_count plan.now }
        requires endpoint { j < length (endpoints plan.now s) }
        ensures is { result ≡ decide_at plan.now self.now.parts s moment j }
        ensures within { IsWithin plan.now s result }
        ensures known { is_known_visit result self.now.parts.came ≡ true }
    {
        if is_asking(self.last(s as usize, j as usize)) {
            return Visit::Nothing;
        }
        let text = address_of(plan, s as usize, j as usize);
        match self.find(text) {
            Some(fd) => Visit::Adopts(j, fd),
            None => {
                if self.is_kept_busy(plan, s as usize, j as usize, moment) {
                    Visit::Nothing
                } else {
                    Visit::Binds(j)
                }
            }
        }
    }

    /// Binds or adopts, and says so.
    fn tell_visit(&mut self, plan: &Plan, s: u32, visit: Visit, actions: &mut Actions)
        requires sized { IsEndpointsSized plan.now self.old.parts }
        requires service { s < service_count plan.now }
        requires within { IsWithin plan.now s visit }
        requires known { is_known_visit visit self.old.parts.came ≡ true }
        requires room { 0 < spare actions.old }
        ensures after { self.new.parts ≡ after self.old.parts s visit }
        ensures told { list_of actions.new ≡ list_of actions.old ++ told_by s visit }
        ensures room { spare actions.old ≤ spare actions.new + 1 }
    {
        match visit {
            Visit::Nothing => {}
            Visit::Binds(i) => {
                self.note_asked(s, i);
                self.put_last(s as usize, i as usize, EndpointStatus::Binding);
                actions.put(Action::Bind(s, i));
            }
            Visit::Adopts(i, fd) => {
                self.put_last(s as usize, i as usize, EndpointStatus::Adopting(fd));
                actions.put(Action::Adopt(s, i, fd));
            }
        }
    }

    /// An endpoint with the address of this one is asked for, or rests. Most often it is this one itself
    /// that rests, or no other one has the address, or it is the one that was asked for last.
    fn is_kept_busy(&self, plan: &Plan, s: usize, j: usize, moment: u64) -> bool
        requires sized { IsEndpointsSized plan.now self.now.parts }
        requires service { s < service_count plan.now }
        requires endpoint { j < length (endpoints plan.now s) }
        ensures { result ≡ any_with plan.now (address plan.now s j) (busy_in self.now.parts moment) }
    {
        let text = address_of(plan, s, j);
        if self.is_itself_busy(plan, s, j, moment) {
            return true;
        }
        if !self.may_share(text) {
            return false;
        }
        self.is_last_busy(plan, text, moment) || self.is_any_busy(plan, text, moment)
    }

    /// The endpoint that was asked for last has the address, and is asked for or rests.
    fn is_last_busy(&self, plan: &Plan, text: &str, moment: u64) -> bool
        requires sized { IsEndpointsSized plan.now self.now.parts }
        ensures { result ≡ true → any_with plan.now (Some text.now) (busy_in self.now.parts moment) ≡ true }
    {
        let (s, i) = self.last_asked();
        let (s, i) = (s as usize, i as usize);
        if s >= service_count(plan) || i >= endpoint_count(plan, s) {
            return false;
        }
        self.is_busy_at(plan, s, i, text, moment)
    }

    /// An endpoint with the address is asked for, or rests.
    fn is_any_busy(&self, plan: &Plan, text: &str, moment: u64) -> bool
        requires sized { IsEndpointsSized plan.now self.now.parts }
        ensures { result ≡ any_with plan.now (Some text.now) (busy_in self.now.parts moment) }
    {
        let mut from = 0;
        while let Some(t) = self.next_busy(from) {
            if self.is_row_busy(plan, t as usize, text, moment) {
                return true;
            }
            from = t + 1;
        }
        false
    }

    /// The same for the endpoints of one service.
    fn is_row_busy(&self, plan: &Plan, t: usize, text: &str, moment: u64) -> bool
        requires sized { IsEndpointsSized plan.now self.now.parts }
        requires service { t < service_count plan.now }
        ensures { result ≡ any_busy plan.now self.now.parts moment (Some text.now) t }
    {
        let (from, touched) = self.open_range(t);
        for k in from..touched.min(endpoint_count(plan, t)) {
            if self.is_busy_at(plan, t, k, text, moment) {
                return true;
            }
        }
        false
    }

    /// The endpoint has the address, and is asked for or rests.
    fn is_busy_at(&self, plan: &Plan, t: usize, k: usize, text: &str, moment: u64) -> bool
        requires sized { IsEndpointsSized plan.now self.now.parts }
        requires service { t < service_count plan.now }
        requires endpoint { k < length (endpoints plan.now t) }
        ensures { result ≡ (same_address (address plan.now t k) (Some text.now) && busy_in self.now.parts moment t k) }
    {
        self.is_itself_busy(plan, t, k, moment) && address_of(plan, t, k) == text
    }

    /// The endpoint is asked for, or rests.
    fn is_itself_busy(&self, plan: &Plan, t: usize, k: usize, moment: u64) -> bool
        requires sized { IsEndpointsSized plan.now self.now.parts }
        requires service { t < service_count plan.now }
        requires endpoint { k < length (endpoints plan.now t) }
        ensures { result ≡ busy_in self.now.parts moment t k }
    {
        is_busy(self.has_failed(t), moment, self.last(t, k))
    }
}
