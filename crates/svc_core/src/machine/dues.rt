//! The moment at which the core next wants to know the time.

ghost use Rattle.std.specs.Prelude.{◌≡◌, ◌<◌, length};
ghost use Rattle.svc_moments.specs.Least.{IsLeast};
ghost use Rattle.svc_record.specs.Validity.{IsInOrder};
ghost use Rattle.svc_endpoints.specs.EndpointsState.{IsEndpointsSized};
ghost use Rattle.svc_core.specs.StartsState.{IsStartsSized};
ghost use Rattle.svc_core.specs.Dues.{TellsNothingBefore, TellsAt, AsksSome, AsksThere, RunsAndAsks, IsRested, IsDueAt, from_last};

use super::Core;
use crate::ends::is_on;
use crate::starts::Starts;
use svc_endpoints::Endpoints;
use svc_moments::earlier;
use svc_record::Plan;

/// The least moment at which a visit of one of the started services tells something.
fn next_ask(plan: &Plan, order: &[u32], starts: &Starts, endpoints: &Endpoints) -> Option<u64>
    requires in_order { IsInOrder plan.now order.now }
    requires starts { IsStartsSized plan.now starts.now }
    requires sized { IsEndpointsSized plan.now endpoints.now.parts }
    ensures { IsLeast (AsksSome plan.now order.now starts.now.started endpoints.now.parts) result }
{
    let mut least = None;
    for k in 0..order.len() {
        least = earlier(least, next_ask_at(plan, order, k, starts, endpoints));
    }
    least
}

/// The same of the service at the place.
fn next_ask_at(
    plan: &Plan,
    order: &[u32],
    k: usize,
    starts: &Starts,
    endpoints: &Endpoints,
) -> Option<u64>
    requires in_order { IsInOrder plan.now order.now }
    requires place { k < length order.now }
    requires starts { IsStartsSized plan.now starts.now }
    requires sized { IsEndpointsSized plan.now endpoints.now.parts }
    ensures { IsLeast (AsksThere plan.now order.now starts.now.started endpoints.now.parts k) result }
{
    if !starts.is_started(plan, order[k]) {
        return None;
    }
    endpoints.next_ask(plan, order[k])
}

impl Core {
    /// The least moment, in milliseconds, at which an event `Moment` would tell something or end the run;
    /// none while only other events can, where that moment is beyond 64 bits, and once the run has ended.
    /// Each earlier moment tells nothing. It costs a few steps, unless an endpoint rests, or a service waits
    /// for an address that is busy: then each service is looked at, and for one that waits for an address
    /// that may be shared each endpoint that may be busy.
    pub fn next_due(&self) -> Option<u64>
        ensures before { TellsNothingBefore self.now result }
        ensures due { TellsAt self.now result }
    {
        if !is_on(self.end) {
            return None;
        }
        if self.is_held() {
            return self.from_last(self.boot.next_end(&self.plan));
        }
        self.from_last(self.next_step())
    }

    /// The moment, or the last one that came where it is before that: moments don't go back.
    fn from_last(&self, at: Option<u64>) -> Option<u64>
        ensures { result ≡ from_last self.now.drain.moment at }
    {
        match at {
            Some(moment) => Some(moment.max(self.drain.moment())),
            None => None,
        }
    }

    /// The least moment at which something is due of a server that goes on.
    fn next_step(&self) -> Option<u64>
        ensures { IsRested self.now → IsLeast (IsDueAt self.now) result }
    {
        let over = self.offer.over_since();
        let asks = earlier(self.boot.next_try(), self.offer.next_due());
        let ends = earlier(self.drain.next_due(&self.plan, over), self.next_visit());
        earlier(asks, ends)
    }

    /// The least moment at which a visit of one of the services tells something, as the server runs.
    fn next_visit(&self) -> Option<u64>
        ensures { IsRested self.now → IsLeast (RunsAndAsks self.now) result }
    {
        if !self.drain.is_running() {
            return None;
        }
        if self.waits.is_still(self.order.len()) {
            return None;
        }
        if !self.endpoints.may_be_busy() {
            return None;
        }
        next_ask(&self.plan, &self.order, &self.starts, &self.endpoints)
    }
}
