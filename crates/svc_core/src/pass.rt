//! The pass over the services: it starts what is due, asks for endpoints, and begins to bootstrap.

ghost use Rattle.std.specs.Prelude.{◌≡◌, ◌+◌, ◌*◌, ◌<◌, ◌≤◌, length, true, false, IfSome};
ghost use Rattle.svc_base.specs.Items.{list_of, spare};
ghost use Rattle.svc_record.specs.Plans.{service_count, endpoints};
ghost use Rattle.svc_record.specs.Validity.{IsInOrder};
ghost use Rattle.svc_core.specs.Copies.{TellsBare};
ghost use Rattle.svc_core.specs.CoreData.{IsFormed};
ghost use Rattle.svc_core.specs.StartsState.{IsStartsSized, is_flagged};
ghost use Rattle.svc_core.specs.Passes.{VisitsAll, is_tested, begin_room};
ghost use Rattle.svc_core.specs.Steps.{Spends};
ghost use Rattle.svc_endpoints.specs.Rests.{IsStanding, WaitsBehind};
ghost use Rattle.svc_endpoints.specs.Stays.{StaysHeld, StaysUnheld, OthersStay};
ghost use Rattle.svc_core.specs.Visits.{IsNextHeir, IsPlaceFormed, Knows, KnowsPlaces, MayVisit, StartsAt, StartsNoOther, VisitsAt, service_at, service_of};
ghost use Rattle.svc_core.specs.WaitsState.{IsKnown, WaitsStill, is_open};

use crate::plans::is_bootstrap;
use crate::starts::Starts;
use crate::waits::Waits;
use svc_boot::Boot;
use svc_drain::Drain;
use svc_endpoints::{Endpoints, Standing};
use svc_record::{Actions, Plan};

/// The run was tested: bootstrapping has begun, and that is all.
fn is_tested(plan: &Plan, boot: &Boot) -> bool
    ensures { result ≡ is_tested plan.now boot.now }
{
    plan.test && boot.is_begun()
}

/// A place whose service was visited, as the services and their endpoints stand after it.
#[derive(Drop)]
struct VisitedPlace<'a> {
    plan: &'a Plan,
    order: &'a [u32],
    starts: &'a Starts,
    endpoints: &'a Endpoints,
    /// Whether bootstrapping is complete.
    complete: bool,
    /// In milliseconds.
    moment: u64,
    /// Below the length of the order.
    place: usize,
}

impl VisitedPlace<'_> {
    /// What becomes of the place: it is left out of the next visits while they would tell nothing.
    fn settle(&self, waits: &mut Waits)
        requires formed { IsPlaceFormed self.now }
        requires known { KnowsPlaces self.now self.now.place waits.old }
        requires open { is_open waits.old self.now.place ≡ true }
        ensures { KnowsPlaces self.now (self.now.place + 1) waits.new }
    {
        let s = self.order[self.place];
        if !self.starts.is_started(self.plan, s) {
            return;
        }
        let standing = self.endpoints.standing(self.plan, s, self.moment);
        self.settle_started(standing, waits);
    }

    /// The same of a service that is started, by how it stands.
    fn settle_started(&self, standing: Standing, waits: &mut Waits)
        requires formed { IsPlaceFormed self.now }
        requires started { is_flagged self.now.starts.now.started (service_of self.now) ≡ true }
        requires stands { IsStanding self.now.plan.now self.now.endpoints.now.parts (service_of self.now) self.now.moment standing }
        requires known { KnowsPlaces self.now self.now.place waits.old }
        requires open { is_open waits.old self.now.place ≡ true }
        ensures { KnowsPlaces self.now (self.now.place + 1) waits.new }
    {
        let s = self.order[self.place];
        match standing {
            Standing::Asking => waits.close_asking(self.place),
            Standing::Resting(end) => waits.rest(self.place, s, end),
            Standing::Served => {
                self.hand_on(waits);
                waits.close(self.place);
            }
            Standing::Behind(t) => {
                waits.free(s);
                self.settle_behind(t, waits);
            }
            Standing::Due => waits.free(s),
        }
    }

    /// The service asks for nothing more: of what waits behind it the first place alone is visited
    /// again, and the others wait behind that one, if it wants the same address; else all are.
    fn hand_on(&self, waits: &mut Waits)
        requires formed { IsPlaceFormed self.now }
        requires known { KnowsPlaces self.now self.now.place waits.old }
        requires open { is_open waits.old self.now.place ≡ true }
        ensures { KnowsPlaces self.now (self.now.place + 1) waits.new }
    {
        let s = self.order[self.place];
        match self.heir(waits) {
            Some(next) => waits.hand_on(s, self.order[next], next),
            None => waits.free(s),
        }
    }

    /// The first place that waits, or has waited, behind the service, where its service is started and
    /// wants the same address.
    fn heir(&self, waits: &Waits) -> Option<usize>
        requires formed { IsPlaceFormed self.now }
        requires count { length waits.now.counts.marks ≡ service_count self.now.plan.now }
        ensures { IfSome result (IsNextHeir self.now waits.now) }
    {
        let s = self.order[self.place];
        let next = waits.next_behind(s, self.place + 1, self.order.len())?;
        let t = self.order[next];
        if self.starts.is_started(self.plan, t) && self.endpoints.lack_same(self.plan, s, t) {
            Some(next)
        } else {
            None
        }
    }

    /// The service is started and waits behind another one, where that one has an earlier place.
    fn settle_behind(&self, t: u32, waits: &mut Waits)
        requires formed { IsPlaceFormed self.now }
        requires started { is_flagged self.now.starts.now.started (service_of self.now) ≡ true }
        requires waits { WaitsBehind self.now.plan.now self.now.endpoints.now.parts (service_of self.now) t }
        requires known { KnowsPlaces self.now (self.now.place + 1) waits.old }
        requires open { is_open waits.old self.now.place ≡ true }
        ensures { KnowsPlaces self.now (self.now.place + 1) waits.new }
    {
        let e = waits.last_asked();
        if e > self.place || self.order[e] != t {
            return;
        }
        if self.starts.is_started(self.plan, t) {
            waits.park_behind(self.place, t);
        }
    }
}

/// A place of the startup order that a pass has come to.
#[derive(Drop)]
struct Place<'a> {
    plan: &'a Plan,
    order: &'a [u32],
    drain: &'a Drain,
    /// Below the length of the order.
    place: usize,
}

impl Place<'_> {
    /// Starts the service at the place, which is due, if it isn't started. With the first that bootstraps
    /// bootstrapping begins.
    fn start(
        &self,
        starts: &mut Starts,
        endpoints: &Endpoints,
        boot: &mut Boot,
        actions: &mut Actions,
    )
        requires formed { IsFormed self.now.plan.now self.now.order.now starts.old endpoints.now.parts }
        requires place { self.now.place < length self.now.order.now }
        requires untested { is_tested self.now.plan.now boot.old ≡ false }
        requires due { MayVisit self.now starts.old endpoints.now.parts.failed boot.old.complete }
        requires room { 1 + begin_room boot.old ≤ spare actions.old }
        ensures starts_sized { IsStartsSized self.now.plan.now starts.new }
        ensures bare { TellsBare (list_of actions.old) (list_of actions.new) }
        ensures spends { Spends (begin_room boot.old + 1) (begin_room boot.new) actions.old actions.new }
        ensures only { StartsNoOther self.now endpoints.now.parts.failed boot.old.complete starts.old starts.new }
        ensures late { boot.old.complete ≡ true → boot.new.complete ≡ true }
        ensures started { StartsAt self.now starts.old starts.new endpoints.now boot.old boot.new actions.old actions.new }
    {
        let s = self.order[self.place];
        let starts_now = starts.visit(self.plan, s, actions);
        if starts_now && is_bootstrap(self.plan, s) && !boot.is_begun() {
            boot.begin(self.plan, self.drain.moment(), actions);
        }
    }

    /// Starts the service at the place, which is due, if it isn't started, and asks for its endpoints, unless
    /// the run was tested before or by that.
    fn visit(
        &self,
        starts: &mut Starts,
        endpoints: &mut Endpoints,
        boot: &mut Boot,
        actions: &mut Actions,
    )
        requires formed { IsFormed self.now.plan.now self.now.order.now starts.old endpoints.old.parts }
        requires place { self.now.place < length self.now.order.now }
        requires due { MayVisit self.now starts.old endpoints.old.parts.failed boot.old.complete }
        requires room { 2 + begin_room boot.old ≤ spare actions.old }
        ensures formed { IsFormed self.now.plan.now self.now.order.now starts.new endpoints.new.parts }
        ensures table { endpoints.new.parts.table ≡ endpoints.old.parts.table }
        ensures bare { TellsBare (list_of actions.old) (list_of actions.new) }
        ensures spends { Spends (begin_room boot.old + 2) (begin_room boot.new) actions.old actions.new }
        ensures failed { endpoints.new.parts.failed ≡ endpoints.old.parts.failed }
        ensures held { StaysHeld endpoints.old.parts endpoints.new.parts }
        ensures unheld { StaysUnheld endpoints.old.parts endpoints.new.parts }
        ensures others { OthersStay (service_at self.now) endpoints.old.parts endpoints.new.parts }
        ensures only { StartsNoOther self.now endpoints.old.parts.failed boot.old.complete starts.old starts.new }
        ensures late { boot.old.complete ≡ true → boot.new.complete ≡ true }
        ensures passed { VisitsAt self.now starts.old starts.new endpoints.old endpoints.new boot.old boot.new actions.old actions.new }
    {
        if is_tested(self.plan, boot) {
            return;
        }
        self.start(starts, endpoints, boot, actions);
        if is_tested(self.plan, boot) {
            return;
        }
        let s = self.order[self.place];
        let is_started = starts.is_started(self.plan, s);
        endpoints.visit(self.plan, s, is_started, self.drain.moment(), actions);
    }

    /// Where the service at the place isn't started and lacks a dependency, the place isn't visited until it
    /// lacks none.
    fn waits_still(&self, starts: &Starts, waits: &mut Waits) -> bool
        requires in_order { IsInOrder self.now.plan.now self.now.order.now }
        requires place { self.now.place < length self.now.order.now }
        requires sized { IsStartsSized self.now.plan.now starts.now }
        requires count { length waits.old.counts.marks ≡ service_count self.now.plan.now }
        ensures { WaitsStill starts.now (service_at self.now) self.now.place waits.old waits.new result }
    {
        let s = self.order[self.place];
        if starts.is_started(self.plan, s) {
            return false;
        }
        if waits.missing(s) == 0 {
            return false;
        }
        waits.close(self.place);
        true
    }

    /// Visits the service at an open place, and keeps what is known of the places.
    fn attend(
        &self,
        starts: &mut Starts,
        endpoints: &mut Endpoints,
        boot: &mut Boot,
        waits: &mut Waits,
        actions: &mut Actions,
    )
        requires formed { IsFormed self.now.plan.now self.now.order.now starts.old endpoints.old.parts }
        requires place { self.now.place < length self.now.order.now }
        requires room { 2 + begin_room boot.old ≤ spare actions.old }
        requires known { Knows self.now self.now.place starts.old endpoints.old boot.old waits.old }
        requires open { is_open waits.old self.now.place ≡ true }
        ensures formed { IsFormed self.now.plan.now self.now.order.now starts.new endpoints.new.parts }
        ensures table { endpoints.new.parts.table ≡ endpoints.old.parts.table }
        ensures known { Knows self.now (self.now.place + 1) starts.new endpoints.new boot.new waits.new }
        ensures bare { TellsBare (list_of actions.old) (list_of actions.new) }
        ensures spends { Spends (begin_room boot.old + 2) (begin_room boot.new) actions.old actions.new }
        ensures passed { VisitsAt self.now starts.old starts.new endpoints.old endpoints.new boot.old boot.new actions.old actions.new }
    {
        if self.waits_still(starts, waits) {
            return;
        }
        waits.leave(self.place);
        self.visit(starts, endpoints, boot, actions);
        let complete = boot.is_complete();
        waits.note(
            self.plan,
            self.order,
            starts,
            endpoints.failed(),
            complete,
            self.order[self.place],
        );
        let visited = VisitedPlace {
            plan: self.plan,
            order: self.order,
            starts,
            endpoints,
            complete,
            moment: self.drain.moment(),
            place: self.place,
        };
        visited.settle(waits);
    }
}

/// Visits each service once, in the startup order, unless the run was tested at one of them. A service
/// of which a visit would tell nothing is passed over at once.
pub(crate) fn pass(
    plan: &Plan,
    order: &[u32],
    drain: &Drain,
    starts: &mut Starts,
    endpoints: &mut Endpoints,
    boot: &mut Boot,
    waits: &mut Waits,
    actions: &mut Actions,
)
    requires formed { IsFormed plan.now order.now starts.old endpoints.old.parts }
    requires room { 2 * length order.now + begin_room boot.old ≤ spare actions.old }
    requires known { IsKnown plan.now order.now starts.old endpoints.old.parts boot.old.complete drain.now.moment 0 waits.old }
    ensures formed { IsFormed plan.now order.now starts.new endpoints.new.parts }
    ensures table { endpoints.new.parts.table ≡ endpoints.old.parts.table }
    ensures known { IsKnown plan.now order.now starts.new endpoints.new.parts boot.new.complete drain.now.moment (length order.now) waits.new }
    ensures bare { TellsBare (list_of actions.old) (list_of actions.new) }
    ensures spends { Spends (begin_room boot.old + 2 * length order.now) (begin_room boot.new) actions.old actions.new }
    ensures passed { VisitsAll plan.now order.now drain.now starts.old starts.new endpoints.old endpoints.new boot.old boot.new actions.old actions.new }
{
    let mut from = 0;
    while let Some(k) = waits.next(from, order.len()) {
        let place = Place {
            plan,
            order,
            drain,
            place: k,
        };
        place.attend(starts, endpoints, boot, waits, actions);
        from = k + 1;
    }
}
