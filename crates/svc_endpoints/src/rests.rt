//! How a started service stands, as far as a visit of it goes.

ghost use Rattle.std.specs.Prelude.{◌≡◌, ◌<◌, ℕ, Some, true, false, length};
ghost use Rattle.svc_record.specs.Plans.{service_count, endpoints, address};
ghost use Rattle.svc_endpoints.specs.EndpointsState.{IsEndpointsSized, failed_at};
ghost use Rattle.svc_endpoints.specs.Effects.{has_open};
ghost use Rattle.svc_endpoints.specs.Visits.{IsFirst};
ghost use Rattle.svc_endpoints.specs.Rests.{AsksWith, IsAlone, IsStanding, LackSame};

use crate::endpoints::Endpoints;
use crate::naming::{address_of, endpoint_count, service_count};
use crate::states::{is_asking, rest_end};
use svc_record::Plan;

/// How a started service stands. A visit of it tells nothing, unless it is due.
#[derive(Clone, Copy, Drop)]
pub enum Standing {
    /// It has failed, or each of its endpoints is held.
    Served,
    /// Its first endpoint that isn't held is asked for.
    Asking,
    /// That one rests up to this moment, in milliseconds.
    Resting(u64),
    /// The address of that one is asked for by this service.
    Behind(u32),
    /// None of these is known of it.
    Due,
}

impl Endpoints {
    /// How the service, which is started, stands at the moment, in milliseconds.
    pub fn standing(&self, plan: &Plan, s: u32, moment: u64) -> Standing
        requires sized { IsEndpointsSized plan.now self.now.parts }
        requires service { s < service_count plan.now }
        ensures { IsStanding plan.now self.now.parts s moment result }
    {
        if self.has_failed(s as usize) {
            return Standing::Served;
        }
        let j = self.first_missing(plan, s);
        if (j as usize) >= endpoint_count(plan, s as usize) {
            return Standing::Served;
        }
        self.standing_at(plan, s, j, moment)
    }

    /// The same, by the first endpoint that isn't held.
    fn standing_at(&self, plan: &Plan, s: u32, j: u32, moment: u64) -> Standing
        requires sized { IsEndpointsSized plan.now self.now.parts }
        requires service { s < service_count plan.now }
        requires free { failed_at self.now.parts s ≡ false }
        requires first { IsFirst plan.now self.now.parts s j }
        ensures { IsStanding plan.now self.now.parts s moment result }
    {
        let last = self.last(s as usize, j as usize);
        if is_asking(last) {
            return Standing::Asking;
        }
        if self.is_open(address_of(plan, s as usize, j as usize)) {
            return Standing::Due;
        }
        match rest_end(moment, last) {
            Some(end) => Standing::Resting(end),
            None => self.standing_behind(plan, s, j),
        }
    }

    /// Whether the endpoint that was asked for last keeps the address of this one busy.
    fn standing_behind(&self, plan: &Plan, s: u32, j: u32) -> Standing
        requires sized { IsEndpointsSized plan.now self.now.parts }
        requires service { s < service_count plan.now }
        requires first { IsFirst plan.now self.now.parts s j }
        requires none { has_open self.now.parts.table (address plan.now s j) ≡ false }
        ensures { (moment : ℕ) → IsStanding plan.now self.now.parts s moment result }
    {
        let text = address_of(plan, s as usize, j as usize);
        let (t, k) = self.last_asked();
        if (t as usize) >= service_count(plan) {
            return Standing::Due;
        }
        if self.asks_with(plan, t, k, text) {
            return Standing::Behind(t);
        }
        Standing::Due
    }

    /// The endpoint has the address, is the first of its service that isn't held, and is asked for.
    fn asks_with(&self, plan: &Plan, t: u32, k: u32, text: &str) -> bool
        requires sized { IsEndpointsSized plan.now self.now.parts }
        requires service { t < service_count plan.now }
        ensures { result ≡ true → AsksWith plan.now self.now.parts t k (Some text.now) }
    {
        if (k as usize) >= endpoint_count(plan, t as usize) || self.first_missing(plan, t) != k {
            return false;
        }
        is_asking(self.last(t as usize, k as usize))
            && address_of(plan, t as usize, k as usize) == text
    }

    /// No other service has an endpoint with the address of this one. Where it says no, one may have.
    pub fn is_alone(&self, plan: &Plan, s: u32, i: u32) -> bool
        requires sized { IsEndpointsSized plan.now self.now.parts }
        requires service { s < service_count plan.now }
        requires endpoint { i < length (endpoints plan.now s) }
        ensures { result ≡ true → IsAlone plan.now s i }
    {
        !self.may_share(address_of(plan, s as usize, i as usize))
    }

    /// The first endpoints of the two services that aren't held have the same address.
    pub fn lack_same(&self, plan: &Plan, service: u32, other: u32) -> bool
        requires sized { IsEndpointsSized plan.now self.now.parts }
        requires service { service < service_count plan.now }
        requires other { other < service_count plan.now }
        ensures { result ≡ true → LackSame plan.now self.now.parts service other }
    {
        let missing = self.first_missing(plan, service) as usize;
        let lacks = self.first_missing(plan, other) as usize;
        let (service, other) = (service as usize, other as usize);
        if missing >= endpoint_count(plan, service) || lacks >= endpoint_count(plan, other) {
            return false;
        }
        address_of(plan, service, missing) == address_of(plan, other, lacks)
    }
}
