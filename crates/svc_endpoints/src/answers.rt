//! What answers to asks make of the endpoints.

ghost use Rattle.std.specs.Prelude.{◌≡◌, ◌+◌, ◌<◌, ◌≤◌, ◌++◌, ◌∷◌, ◌==◌, [], length, ℕ, Some, None, IfSome, true, false, not, ◌&&◌, nat_lt, map};
ghost use Rattle.std.specs.List.{list_any};
ghost use Rattle.std.specs.Option.{option_to_list};
ghost use Rattle.svc_base.specs.NumberSets.{is_in};
ghost use Rattle.svc_record.specs.declared.action.Action.TheVariants.{Close, Fail};
ghost use Rattle.svc_base.specs.Items.{list_of, spare};
ghost use Rattle.svc_record.specs.declared.entry.Entry.TheVariants.{Got};
ghost use Rattle.svc_record.specs.declared.event.Event.{Event};
ghost use Rattle.svc_record.specs.declared.event.Event.TheVariants.{Bound, InUse, BindFailed, Adopted, AdoptFailed, LoopEnded};
ghost use Rattle.svc_record.specs.Offer.{is_held_back};
ghost use Rattle.svc_record.specs.Plans.{service_count, endpoints, address, is_endpoint};
ghost use Rattle.svc_record.specs.Closes.{is_loop_end};
ghost use Rattle.svc_record.specs.Endpoints.{serves};
ghost use Rattle.svc_record.specs.Fits.{fits_row, accepts};
ghost use Rattle.svc_record.specs.Starts.{is_started};
ghost use Rattle.svc_record.specs.Record.{Record, has, now, tell};
ghost use Rattle.svc_record.specs.Told.{Tells, IsGivingUp};
ghost use Rattle.svc_endpoints.specs.EndpointsState.{IsEndpointsSized, EndpointsStand, AreOnOffer, last_at, open_numbers, is_binding, is_adopting, is_done, held_of};
ghost use Rattle.svc_endpoints.specs.Foreign.{is_endpoints_event};
ghost use Rattle.svc_endpoints.specs.Effects.{is_last_refusal, refused, bind_failed, adopt_failed, adopted, bound_or_again, has_open, close_told, drains_at, closed_out, numbers_among};
ghost use Rattle.svc_endpoints.specs.Failing.{ClosesOwn, ClosesOwnIf};
ghost use Rattle.svc_endpoints.specs.Loops.{has_loop};
ghost use Rattle.svc_endpoints.specs.Stays.{FailsOnly, StaysHeld, StaysUnheld, OthersStay, GainsNone, GainsOnly};
ghost use Rattle.svc_endpoints.specs.Uses.{serves_by, accepts_by};

use crate::endpoints::Endpoints;
use crate::loops::is_done;
use crate::naming::{address_of, endpoint_count, limit, service_count};
use crate::states::{EndpointState, EndpointStatus, fd_of};
use svc_base::Text;
use svc_record::{Action, Actions, Plan};

impl Endpoints {
    /// The bind of the endpoint brought a descriptor: it holds the endpoint, or is closed again
    /// where a live one has the address. Room for it was reserved.
    pub fn on_bound(
        &mut self,
        plan: &Plan,
        s: u32,
        i: u32,
        fd: u64,
        text: Text,
        actions: &mut Actions,
    )
        requires sized { IsEndpointsSized plan.now self.old.parts }
        requires service { s < service_count plan.now }
        requires endpoint { i < length (endpoints plan.now s) }
        requires asks { is_binding (last_at self.old.parts s i) ≡ true }
        requires text { Some text ≡ address plan.now s i }
        requires new { list_any (λ n. n == fd) self.old.parts.came ≡ false }
        requires memory { 0 < self.old.room }
        requires room { length self.old.parts.table + 2 ≤ spare actions.old }
        ensures sized { IsEndpointsSized plan.now self.new.parts }
        ensures stands { Tells (list_of actions.old) (list_of actions.new) (λ told. IsGivingUp told
            × ((q : Record) → EndpointsStand plan.now self.old.parts q → EndpointsStand plan.now self.new.parts (tell (Got (Bound s i fd) ∷ q) told))) }
        ensures room { spare actions.old + length self.new.parts.table ≤ spare actions.new + length self.old.parts.table + 2 }
        ensures few { length (list_of actions.new) + length self.new.parts.table ≤ length (list_of actions.old) + length self.old.parts.table + 2 }
        ensures failed { self.new.parts.failed ≡ self.old.parts.failed }
        ensures held { StaysHeld self.old.parts self.new.parts }
        ensures gains { GainsOnly (address plan.now s i) self.old.parts self.new.parts }
        ensures others { OthersStay s self.old.parts self.new.parts }
    {
        self.bind_or_close(plan, s, i, fd, text, actions);
    }

    /// The address of the endpoint was in use at the moment, in milliseconds. The endpoint rests,
    /// or its service fails, is given up, and what nobody needs any more is closed. What is on offer
    /// to a successor is kept.
    pub fn on_in_use(
        &mut self,
        plan: &Plan,
        s: u32,
        i: u32,
        moment: u64,
        kept: &[u64],
        actions: &mut Actions,
    )
        requires sized { IsEndpointsSized plan.now self.old.parts }
        requires service { s < service_count plan.now }
        requires endpoint { i < length (endpoints plan.now s) }
        requires asks { is_binding (last_at self.old.parts s i) ≡ true }
        requires room { length self.old.parts.table + 2 ≤ spare actions.old }
        ensures sized { IsEndpointsSized plan.now self.new.parts }
        ensures stands { Tells (list_of actions.old) (list_of actions.new) (λ told. IsGivingUp told
            × ((q : Record) → moment ≡ now q → AreOnOffer plan.now kept.now q → EndpointsStand plan.now self.old.parts q
            → EndpointsStand plan.now self.new.parts (tell (Got (InUse s i) ∷ q) told))) }
        ensures room { spare actions.old + length self.new.parts.table ≤ spare actions.new + length self.old.parts.table + 2 }
        ensures few { length (list_of actions.new) + length self.new.parts.table ≤ length (list_of actions.old) + length self.old.parts.table + 2 }
        ensures failed { FailsOnly s self.old.parts.failed self.new.parts.failed }
        ensures held { StaysHeld self.old.parts self.new.parts }
        ensures unheld { StaysUnheld self.old.parts self.new.parts }
        ensures gains { GainsNone self.old.parts self.new.parts }
        ensures others { OthersStay s self.old.parts self.new.parts }
    {
        let fails = self.refuse(plan, s, i, moment);
        self.give_up_if(fails, plan, s, kept, actions);
    }

    /// The endpoint couldn't be bound: its service fails, is given up, and what nobody needs any
    /// more is closed. What is on offer to a successor is kept.
    pub fn on_bind_failed(
        &mut self,
        plan: &Plan,
        s: u32,
        i: u32,
        kept: &[u64],
        actions: &mut Actions,
    )
        requires sized { IsEndpointsSized plan.now self.old.parts }
        requires service { s < service_count plan.now }
        requires endpoint { i < length (endpoints plan.now s) }
        requires asks { is_binding (last_at self.old.parts s i) ≡ true }
        requires room { length self.old.parts.table + 2 ≤ spare actions.old }
        ensures sized { IsEndpointsSized plan.now self.new.parts }
        ensures stands { Tells (list_of actions.old) (list_of actions.new) (λ told. IsGivingUp told
            × ((q : Record) → AreOnOffer plan.now kept.now q → EndpointsStand plan.now self.old.parts q
            → EndpointsStand plan.now self.new.parts (tell (Got (BindFailed s i) ∷ q) told))) }
        ensures room { spare actions.old + length self.new.parts.table ≤ spare actions.new + length self.old.parts.table + 2 }
        ensures few { length (list_of actions.new) + length self.new.parts.table ≤ length (list_of actions.old) + length self.old.parts.table + 2 }
        ensures failed { FailsOnly s self.old.parts.failed self.new.parts.failed }
        ensures held { StaysHeld self.old.parts self.new.parts }
        ensures unheld { StaysUnheld self.old.parts self.new.parts }
        ensures gains { GainsNone self.old.parts self.new.parts }
        ensures others { OthersStay s self.old.parts self.new.parts }
    {
        self.end_bind(plan, s, i);
        self.give_up(plan, s, None, kept, actions);
    }

    /// The endpoint holds the descriptor that it was offered.
    pub fn on_adopted(&mut self, plan: &Plan, s: u32, i: u32)
        requires sized { IsEndpointsSized plan.now self.old.parts }
        requires service { s < service_count plan.now }
        requires endpoint { i < length (endpoints plan.now s) }
        requires asks { is_adopting (last_at self.old.parts s i) ≡ true }
        ensures sized { IsEndpointsSized plan.now self.new.parts }
        ensures stands { (q : Record) → EndpointsStand plan.now self.old.parts q → EndpointsStand plan.now self.new.parts (Got (Adopted s i) ∷ q) }
        ensures table { self.new.parts.table ≡ self.old.parts.table }
        ensures failed { self.new.parts.failed ≡ self.old.parts.failed }
        ensures held { StaysHeld self.old.parts self.new.parts }
        ensures others { OthersStay s self.old.parts self.new.parts }
    {
        self.hold(plan, s, i);
    }

    /// The endpoint couldn't take the descriptor that it was offered: its service fails, is given
    /// up, and what nobody needs any more is closed. What is on offer to a successor is kept.
    pub fn on_adopt_failed(
        &mut self,
        plan: &Plan,
        s: u32,
        i: u32,
        kept: &[u64],
        actions: &mut Actions,
    )
        requires sized { IsEndpointsSized plan.now self.old.parts }
        requires service { s < service_count plan.now }
        requires endpoint { i < length (endpoints plan.now s) }
        requires asks { is_adopting (last_at self.old.parts s i) ≡ true }
        requires room { length self.old.parts.table + 2 ≤ spare actions.old }
        ensures sized { IsEndpointsSized plan.now self.new.parts }
        ensures stands { Tells (list_of actions.old) (list_of actions.new) (λ told. IsGivingUp told
            × ((q : Record) → AreOnOffer plan.now kept.now q → EndpointsStand plan.now self.old.parts q
            → EndpointsStand plan.now self.new.parts (tell (Got (AdoptFailed s i) ∷ q) told))) }
        ensures room { spare actions.old + length self.new.parts.table ≤ spare actions.new + length self.old.parts.table + 2 }
        ensures few { length (list_of actions.new) + length self.new.parts.table ≤ length (list_of actions.old) + length self.old.parts.table + 2 }
        ensures failed { FailsOnly s self.old.parts.failed self.new.parts.failed }
        ensures held { StaysHeld self.old.parts self.new.parts }
        ensures unheld { StaysUnheld self.old.parts self.new.parts }
        ensures gains { GainsNone self.old.parts self.new.parts }
        ensures others { OthersStay s self.old.parts self.new.parts }
    {
        let offered = fd_of(self.last(s as usize, i as usize));
        self.end_adopt(plan, s, i);
        self.give_up(plan, s, offered, kept, actions);
    }

    /// A loop of an endpoint ended: what is drained by that is closed. What is on offer to a
    /// successor is kept. Room for the loop was reserved.
    pub fn on_loop_ended(
        &mut self,
        plan: &Plan,
        s: u32,
        i: u32,
        j: u64,
        kept: &[u64],
        actions: &mut Actions,
    )
        requires sized { IsEndpointsSized plan.now self.old.parts }
        requires memory { 0 < self.old.loop_room }
        requires room { length self.old.parts.table ≤ spare actions.old }
        ensures sized { IsEndpointsSized plan.now self.new.parts }
        ensures stands { Tells (list_of actions.old) (list_of actions.new) (λ told. IsGivingUp told
            × ((q : Record) → fits_row plan.now q (LoopEnded s i j) ≡ true → AreOnOffer plan.now kept.now q → EndpointsStand plan.now self.old.parts q
            → EndpointsStand plan.now self.new.parts (tell (Got (LoopEnded s i j) ∷ q) told))) }
        ensures failed { self.new.parts.failed ≡ self.old.parts.failed }
        ensures came { self.new.parts.came ≡ self.old.parts.came }
        ensures room { spare actions.old + length self.new.parts.table ≤ spare actions.new + length self.old.parts.table }
        ensures few { length (list_of actions.new) + length self.new.parts.table ≤ length (list_of actions.old) + length self.old.parts.table }
        ensures held { StaysHeld self.old.parts self.new.parts }
        ensures gains { GainsNone self.old.parts self.new.parts }
        ensures rows { self.new.parts.rows ≡ self.old.parts.rows }
    {
        self.end_loop(s, i, j);
        let drained = self.drained_at(plan, s as usize, i as usize);
        self.close_drained(drained, actions);
    }

    /// Closes the live descriptor with the number, if there is one.
    fn close_drained(&mut self, drained: Option<u64>, actions: &mut Actions)
        requires room { length self.old.parts.table ≤ spare actions.old }
        ensures after { self.new.parts ≡ closed_out (option_to_list drained) self.old.parts }
        ensures told { list_of actions.new ≡ list_of actions.old ++ map Close (numbers_among (option_to_list drained) self.old.parts.table) }
        ensures room { spare actions.old + length self.new.parts.table ≤ spare actions.new + length self.old.parts.table }
    {
        if let Some(fd) = drained {
            self.close_number(fd, actions);
        }
    }

    /// The descriptor that holds the endpoint, where it is drained by the end of the endpoint's last
    /// loop. No other descriptor can be.
    fn drained_at(&self, plan: &Plan, s: usize, i: usize) -> Option<u64>
        requires sized { IsEndpointsSized plan.now self.now.parts }
        ensures { (fd : ℕ) → is_in fd (open_numbers self.now.parts) ≡ true → is_in fd (option_to_list result) ≡ drains_at plan.now self.now.parts s i fd }
    {
        let fd = self.held_at(plan, s, i)?;
        if is_done(self.ended_loops(), plan.tasks, s, i) && self.is_drained(plan, fd) {
            return Some(fd);
        }
        None
    }

    /// The descriptor that holds the endpoint.
    fn held_at(&self, plan: &Plan, s: usize, i: usize) -> Option<u64>
        requires sized { IsEndpointsSized plan.now self.now.parts }
        ensures held { option_to_list result ≡ held_of (last_at self.now.parts s i) }
        ensures inside { IfSome result (λ fd. (s < service_count plan.now) × (i < length (endpoints plan.now s))) }
    {
        if s >= service_count(plan) || i >= endpoint_count(plan, s) {
            return None;
        }
        match self.last(s, i) {
            EndpointStatus::Holding(fd) => Some(fd),
            _ => None,
        }
    }

    /// Whether the loop is one of an endpoint of a service that serves, and hasn't ended yet. Says
    /// nothing of the broadcast.
    pub fn loop_fits(&self, plan: &Plan, s: u32, i: u32, j: u64, started: bool) -> bool
        requires sized { IsEndpointsSized plan.now self.now.parts }
        requires service { s < service_count plan.now }
        ensures is { result ≡ (serves_by plan.now self.now.parts started s
            && (is_endpoint plan.now s i && (nat_lt j plan.now.tasks && not (has_loop self.now.parts.loops s i j)))) }
        ensures means { (q : Record) → started ≡ is_started q s → EndpointsStand plan.now self.now.parts q
            → result ≡ ((serves plan.now q s && is_endpoint plan.now s i) && (nat_lt j plan.now.tasks && not (has (is_loop_end s i j) q))) }
    {
        self.serves(plan, s, started) && self.goes_on(plan, s, i, j)
    }

    /// Whether the service serves and a loop of its endpoint goes on. The flag says whether it is
    /// started.
    pub fn accepts(&self, plan: &Plan, s: u32, i: u32, started: bool) -> bool
        requires sized { IsEndpointsSized plan.now self.now.parts }
        requires service { s < service_count plan.now }
        ensures is { result ≡ accepts_by plan.now self.now.parts started s i }
        ensures means { (q : Record) → started ≡ is_started q s → EndpointsStand plan.now self.now.parts q → result ≡ accepts plan.now q s i }
    {
        self.serves(plan, s, started) && self.has_loop_left(plan, s, i)
    }

    /// The service is started where the flag says so, hasn't failed, and all its endpoints are held.
    fn serves(&self, plan: &Plan, s: u32, started: bool) -> bool
        requires sized { IsEndpointsSized plan.now self.now.parts }
        requires service { s < service_count plan.now }
        ensures { result ≡ serves_by plan.now self.now.parts started s }
    {
        if !started || self.has_failed(s as usize) {
            return false;
        }
        self.first_missing(plan, s) as usize >= endpoint_count(plan, s as usize)
    }

    /// The loop is one of an endpoint of the service, and hasn't ended yet.
    fn goes_on(&self, plan: &Plan, s: u32, i: u32, j: u64) -> bool
        requires service { s < service_count plan.now }
        ensures { result ≡ (is_endpoint plan.now s i && (nat_lt j plan.now.tasks && not (has_loop self.now.parts.loops s i j))) }
    {
        (i as usize) < endpoint_count(plan, s as usize)
            && (j < plan.tasks && !self.ended_loops().has(s as usize, i as usize, j))
    }

    /// The endpoint is one of the service, and not each of its loops has ended.
    fn has_loop_left(&self, plan: &Plan, s: u32, i: u32) -> bool
        requires service { s < service_count plan.now }
        ensures { result ≡ (is_endpoint plan.now s i && not (is_done plan.now self.now.parts s i)) }
    {
        (i as usize) < endpoint_count(plan, s as usize)
            && !is_done(self.ended_loops(), plan.tasks, s as usize, i as usize)
    }

    /// The offer to a successor is over: what is abandoned is closed now, in ascending number.
    pub fn release(&mut self, plan: &Plan, actions: &mut Actions)
        requires sized { IsEndpointsSized plan.now self.old.parts }
        requires room { length self.old.parts.table ≤ spare actions.old }
        ensures sized { IsEndpointsSized plan.now self.new.parts }
        ensures stands { Tells (list_of actions.old) (list_of actions.new) (λ told. IsGivingUp told
            × ((q : Record) (e : Event) → is_endpoints_event e ≡ false → ((fd : ℕ) → is_held_back plan.now (Got e ∷ q) fd ≡ false)
            → EndpointsStand plan.now self.old.parts q → EndpointsStand plan.now self.new.parts (tell (Got e ∷ q) told))) }
        ensures failed { self.new.parts.failed ≡ self.old.parts.failed }
        ensures came { self.new.parts.came ≡ self.old.parts.came }
        ensures room { spare actions.old + length self.new.parts.table ≤ spare actions.new + length self.old.parts.table }
        ensures few { length (list_of actions.new) + length self.new.parts.table ≤ length (list_of actions.old) + length self.old.parts.table }
        ensures held { StaysHeld self.old.parts self.new.parts }
        ensures gains { GainsNone self.old.parts self.new.parts }
        ensures rows { self.new.parts.rows ≡ self.old.parts.rows }
    {
        self.clear(plan, &[], actions);
    }

    /// The descriptor holds the endpoint, or is closed again where a live one has its address.
    fn bind_or_close(
        &mut self,
        plan: &Plan,
        s: u32,
        i: u32,
        fd: u64,
        text: Text,
        actions: &mut Actions,
    )
        requires sized { IsEndpointsSized plan.now self.old.parts }
        requires service { s < service_count plan.now }
        requires endpoint { i < length (endpoints plan.now s) }
        requires new { list_any (λ n. n == fd) self.old.parts.came ≡ false }
        requires memory { 0 < self.old.room }
        requires room { 0 < spare actions.old }
        ensures after { self.new.parts ≡ bound_or_again (has_open self.old.parts.table (Some text)) self.old.parts s i fd text }
        ensures told { list_of actions.new ≡ list_of actions.old ++ close_told (has_open self.old.parts.table (Some text)) fd }
        ensures room { spare actions.old ≤ spare actions.new + length (close_told (has_open self.old.parts.table (Some text)) fd) }
    {
        if self.is_open(text.as_str()) {
            self.take_number(fd);
            self.put_last(s as usize, i as usize, EndpointStatus::Idle);
            actions.put(Action::Close(fd));
        } else {
            self.take_bound(s as usize, i as usize, fd, text);
        }
    }

    /// The endpoint's address was in use. Whether its service fails by that.
    fn refuse(&mut self, plan: &Plan, s: u32, i: u32, moment: u64) -> bool
        requires sized { IsEndpointsSized plan.now self.old.parts }
        requires service { s < service_count plan.now }
        requires endpoint { i < length (endpoints plan.now s) }
        ensures last { result ≡ is_last_refusal plan.now self.old.parts s i }
        ensures after { self.new.parts ≡ refused plan.now self.old.parts s i moment }
    {
        let state = self.state(s as usize, i as usize);
        let open = self.is_open(address_of(plan, s as usize, i as usize));
        let last = EndpointStatus::AddressInUse(moment);
        if open {
            self.put_last(s as usize, i as usize, last);
            return false;
        }
        if state.times_in_use >= limit(plan, s, i) - 1 {
            self.put_last(s as usize, i as usize, last);
            self.set_failed(s as usize);
            return true;
        }
        let times_in_use = state.times_in_use + 1;
        self.put(s as usize, i as usize, EndpointState { last, times_in_use });
        false
    }

    /// The endpoint is unasked, and its service has failed.
    fn end_bind(&mut self, plan: &Plan, s: u32, i: u32)
        requires sized { IsEndpointsSized plan.now self.old.parts }
        requires service { s < service_count plan.now }
        requires endpoint { i < length (endpoints plan.now s) }
        ensures { self.new.parts ≡ bind_failed self.old.parts s i }
    {
        self.put_last(s as usize, i as usize, EndpointStatus::Idle);
        self.set_failed(s as usize);
    }

    /// The endpoint is lost, and its service has failed.
    fn end_adopt(&mut self, plan: &Plan, s: u32, i: u32)
        requires sized { IsEndpointsSized plan.now self.old.parts }
        requires service { s < service_count plan.now }
        requires endpoint { i < length (endpoints plan.now s) }
        ensures { self.new.parts ≡ adopt_failed self.old.parts s i }
    {
        self.put_last(s as usize, i as usize, EndpointStatus::AdoptionFailed);
        self.set_failed(s as usize);
    }

    /// What is offered to the endpoint is held.
    fn hold(&mut self, plan: &Plan, s: u32, i: u32)
        requires sized { IsEndpointsSized plan.now self.old.parts }
        requires service { s < service_count plan.now }
        requires endpoint { i < length (endpoints plan.now s) }
        ensures { self.new.parts ≡ adopted self.old.parts s i }
    {
        let last = self.last_held(s as usize, i as usize);
        self.put_last(s as usize, i as usize, last);
    }

    /// Says that the service, which may have been offered the descriptor, is given up, and closes what nobody
    /// needs any more by that, but for what is kept.
    fn give_up(
        &mut self,
        plan: &Plan,
        s: u32,
        offered: Option<u64>,
        kept: &[u64],
        actions: &mut Actions,
    )
        requires sized { IsEndpointsSized plan.now self.old.parts }
        requires service { s < service_count plan.now }
        requires room { length self.old.parts.table + 1 ≤ spare actions.old }
        ensures { ClosesOwn (Fail s ∷ []) plan.now kept.now s offered self.old.parts self.new.parts actions.old actions.new }
    {
        actions.put(Action::Fail(s));
        self.close_own(plan, s, offered, kept, actions);
    }

    /// The same where the service fails.
    fn give_up_if(&mut self, fails: bool, plan: &Plan, s: u32, kept: &[u64], actions: &mut Actions)
        requires sized { IsEndpointsSized plan.now self.old.parts }
        requires service { s < service_count plan.now }
        requires room { length self.old.parts.table + 1 ≤ spare actions.old }
        ensures { ClosesOwnIf fails (Fail s ∷ []) plan.now kept.now s None self.old.parts self.new.parts actions.old actions.new }
    {
        if fails {
            self.give_up(plan, s, None, kept, actions);
        }
    }
}
