//! From which moment on a started service is to be asked for.

ghost use Rattle.std.specs.Prelude.{ℕ, ◌≡◌, ◌<◌, ◌&&◌, length, Some, false};
ghost use Rattle.svc_record.specs.Plans.{service_count, endpoints, address, same_address, any_with};
ghost use Rattle.svc_moments.specs.Least.{IsLeast, EndsAt};
ghost use Rattle.svc_endpoints.specs.EndpointsState.{IsEndpointsSized, failed_at};
ghost use Rattle.svc_endpoints.specs.Visits.{busy_in, any_busy, IsFirst};
ghost use Rattle.svc_endpoints.specs.Calm.{IsServiceCalm};
ghost use Rattle.svc_endpoints.specs.Dues.{AsksAt};

use crate::endpoints::Endpoints;
use crate::naming::{address_of, endpoint_count};
use crate::states::{busy_end, is_asking};
use svc_moments::later;
use svc_record::Plan;

impl Endpoints {
    /// Whether some endpoint may be asked for, or rest, at some moment.
    pub fn may_be_busy(&self) -> bool
        ensures { result ≡ false → (s : ℕ) → s < length self.now.parts.rows → IsServiceCalm self.now.parts s }
    {
        self.next_busy(0).is_some()
    }

    /// The least moment, in milliseconds, at which a visit of the service, which is started, tells
    /// something, if nothing but moments comes; none where no such moment is of 64 bits. Where the
    /// address may be shared, each endpoint is looked at that may be busy.
    pub fn next_ask(&self, plan: &Plan, s: u32) -> Option<u64>
        requires sized { IsEndpointsSized plan.now self.now.parts }
        requires service { s < service_count plan.now }
        ensures { IsLeast (AsksAt plan.now self.now.parts s) result }
    {
        if self.has_failed(s as usize) {
            return None;
        }
        let j = self.first_missing(plan, s);
        if (j as usize) >= endpoint_count(plan, s as usize) {
            return None;
        }
        self.next_ask_for(plan, s, j)
    }

    /// The same, by the first endpoint that isn't held.
    fn next_ask_for(&self, plan: &Plan, s: u32, j: u32) -> Option<u64>
        requires sized { IsEndpointsSized plan.now self.now.parts }
        requires service { s < service_count plan.now }
        requires free { failed_at self.now.parts s ≡ false }
        requires first { IsFirst plan.now self.now.parts s j }
        ensures { IsLeast (AsksAt plan.now self.now.parts s) result }
    {
        if is_asking(self.last(s as usize, j as usize)) {
            return None;
        }
        if self.is_open(address_of(plan, s as usize, j as usize)) {
            return Some(0);
        }
        self.kept_busy_end(plan, s as usize, j as usize)
    }

    /// From when on no endpoint with the address of this one is asked for or rests.
    fn kept_busy_end(&self, plan: &Plan, s: usize, j: usize) -> Option<u64>
        requires sized { IsEndpointsSized plan.now self.now.parts }
        requires service { s < service_count plan.now }
        requires endpoint { j < length (endpoints plan.now s) }
        ensures { EndsAt (λ t. any_with plan.now (address plan.now s j) (busy_in self.now.parts t)) result }
    {
        let text = address_of(plan, s, j);
        if !self.may_share(text) {
            return busy_end(self.has_failed(s), self.last(s, j));
        }
        self.any_busy_end(plan, text)
    }

    /// From when on no endpoint with the address is asked for or rests.
    fn any_busy_end(&self, plan: &Plan, text: &str) -> Option<u64>
        requires sized { IsEndpointsSized plan.now self.now.parts }
        ensures { EndsAt (λ t. any_with plan.now (Some text.now) (busy_in self.now.parts t)) result }
    {
        let mut end = Some(0);
        let mut from = 0;
        while let Some(t) = self.next_busy(from) {
            end = later(end, self.row_busy_end(plan, t as usize, text));
            from = t + 1;
        }
        end
    }

    /// The same for the endpoints of one service.
    fn row_busy_end(&self, plan: &Plan, t: usize, text: &str) -> Option<u64>
        requires sized { IsEndpointsSized plan.now self.now.parts }
        requires service { t < service_count plan.now }
        ensures { EndsAt (λ m. any_busy plan.now self.now.parts m (Some text.now) t) result }
    {
        let (from, touched) = self.open_range(t);
        let mut end = Some(0);
        for k in from..touched.min(endpoint_count(plan, t)) {
            end = later(end, self.busy_end_at(plan, t, k, text));
        }
        end
    }

    /// The same for one endpoint.
    fn busy_end_at(&self, plan: &Plan, t: usize, k: usize, text: &str) -> Option<u64>
        requires sized { IsEndpointsSized plan.now self.now.parts }
        requires service { t < service_count plan.now }
        requires endpoint { k < length (endpoints plan.now t) }
        ensures { EndsAt (λ m. same_address (address plan.now t k) (Some text.now) && busy_in self.now.parts m t k) result }
    {
        if address_of(plan, t, k) != text {
            return Some(0);
        }
        busy_end(self.has_failed(t), self.last(t, k))
    }
}
