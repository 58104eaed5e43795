//! What closes as a service fails: of the descriptors that its endpoints have, or that have their addresses,
//! those that nobody needs any more.

ghost use Rattle.std.specs.Prelude.{◌≡◌, ◌≢◌, ◌+◌, ◌<◌, ◌≤◌, ◌++◌, ◌∷◌, [], length, ℕ, Option, Some, IfSome, map, slice_index_or, true, false};
ghost use Rattle.std.specs.List.{list_any};
ghost use Rattle.std.specs.List.Sorted.{IsNonDecreasing};
ghost use Rattle.svc_base.specs.Blocks.{rises_by};
ghost use Rattle.svc_base.specs.Items.{list_of, spare};
ghost use Rattle.svc_base.specs.NumberSets.{distinct};
ghost use Rattle.svc_record.specs.declared.action.Action.TheVariants.{Close};
ghost use Rattle.svc_record.specs.Plans.{service_count, endpoints};
ghost use Rattle.svc_endpoints.specs.declared.table.Open.{Open};
ghost use Rattle.svc_endpoints.specs.EndpointsState.{IsEndpointsSized, open_numbers};
ghost use Rattle.svc_endpoints.specs.Effects.{is_abandoned_by, passes};
ghost use Rattle.svc_endpoints.specs.Failing.{AreListed, HasOwn, ClosesOwn, goes_among, left_among, gone_among};

use crate::came::contains;
use crate::endpoints::Endpoints;
use crate::naming::{address_of, claims_none, endpoints_of, has_endpoint};
use crate::states::{Row, fd_of};
use crate::table::{Open, Table};
use svc_record::{Actions, Plan};

/// The number stands at the place, if there is one.
fn note(numbers: &mut [u64], at: usize, number: Option<u64>)
    requires { at < length numbers.old }
    ensures length { length numbers.new ≡ length numbers.old }
    ensures here { IfSome number (λ n. slice_index_or numbers.new at 0 ≡ n) }
    ensures others { (k : ℕ) → k ≢ at → slice_index_or numbers.new k 0 ≡ slice_index_or numbers.old k 0 }
{
    if let Some(number) = number {
        numbers[at] = number;
    }
}

/// Of each of the service's endpoints what it has or is offered, and what has its address.
fn note_all(numbers: &mut [u64], plan: &Plan, row: &Row, table: &Table, s: usize)
    requires service { s < service_count plan.now }
    requires size { length row.now ≡ length (endpoints plan.now s) }
    requires few { length row.now ≤ 64 }
    requires room { length numbers.old ≡ 129 }
    ensures length { length numbers.new ≡ 129 }
    ensures noted { AreListed plan.now row.now (list_of table.now) s (length row.now) numbers.new }
    ensures first { slice_index_or numbers.new 0 0 ≡ slice_index_or numbers.old 0 0 }
{
    for i in 0..row.len() {
        note(numbers, 2 * i + 1, fd_of(row.get(i).last));
        note(numbers, 2 * i + 2, table.find(address_of(plan, s, i)));
    }
}

/// The numbers of the descriptors that the service's endpoints have or are offered, or that have their
/// addresses, and of the one that was offered to it, in ascending order; where there are fewer, the largest
/// number stands for the others.
fn own_numbers(plan: &Plan, row: &Row, table: &Table, s: usize, offered: Option<u64>) -> [u64; 129]
    requires service { s < service_count plan.now }
    requires size { length row.now ≡ length (endpoints plan.now s) }
    requires few { length row.now ≤ 64 }
    ensures rise { IsNonDecreasing result }
    ensures own { HasOwn plan.now row.now (list_of table.now) s offered result }
{
    let mut numbers = [u64::MAX; 129];
    note(&mut numbers, 0, offered);
    note_all(&mut numbers, plan, row, table, s);
    numbers.sort_unstable();
    numbers
}

impl Endpoints {
    /// Closes what nobody needs any more since the service failed, but for what is kept. Only what its
    /// endpoints have can go by that, what has their addresses, and what it was offered; where it claims
    /// an address that none of them has, each live descriptor is looked at.
    pub(crate) fn close_own(
        &mut self,
        plan: &Plan,
        s: u32,
        offered: Option<u64>,
        kept: &[u64],
        actions: &mut Actions,
    )
        requires sized { IsEndpointsSized plan.now self.old.parts }
        requires service { s < service_count plan.now }
        requires room { length self.old.parts.table ≤ spare actions.old }
        ensures { ClosesOwn [] plan.now kept.now s offered self.old.parts self.new.parts actions.old actions.new }
    {
        if !claims_none(plan, s as usize) {
            self.clear(plan, kept, actions);
            return;
        }
        let row = self.row(s as usize);
        let own = own_numbers(plan, row, self.table(), s as usize, offered);
        self.close_among(plan, s, &own, kept, actions);
    }

    /// Closes those of the numbers that go, which ascend.
    fn close_among(&mut self, plan: &Plan, s: u32, own: &[u64], kept: &[u64], actions: &mut Actions)
        requires sized { IsEndpointsSized plan.now self.old.parts }
        requires service { s < service_count plan.now }
        requires rise { IsNonDecreasing own.now }
        requires room { length self.old.parts.table ≤ spare actions.old }
        ensures left { self.new.parts ≡ left_among plan.now kept.now own.now self.old.parts }
        ensures told { list_of actions.new ≡ list_of actions.old ++ map Close (gone_among plan.now kept.now own.now self.old.parts) }
        ensures room { spare actions.old + length self.new.parts.table ≤ spare actions.new + length self.old.parts.table }
    {
        for fd in own {
            self.close_if_gone(plan, s, *fd, kept, actions);
        }
    }

    /// Closes the live descriptor with the number, if there is one and it goes.
    fn close_if_gone(&mut self, plan: &Plan, s: u32, fd: u64, kept: &[u64], actions: &mut Actions)
        requires sized { IsEndpointsSized plan.now self.old.parts }
        requires service { s < service_count plan.now }
        requires room { length self.old.parts.table ≤ spare actions.old }
        ensures left { self.new.parts ≡ left_among plan.now kept.now (fd ∷ []) self.old.parts }
        ensures told { list_of actions.new ≡ list_of actions.old ++ map Close (gone_among plan.now kept.now (fd ∷ []) self.old.parts) }
        ensures room { spare actions.old + length self.new.parts.table ≤ spare actions.new + length self.old.parts.table }
        ensures rise { rises_by (λ (o : Open). o.fd) self.old.parts.table ≡ true }
    {
        if self.goes(plan, s, fd, kept) {
            self.close_number(fd, actions);
        }
    }

    /// There is a live descriptor with the number, and it goes.
    fn goes(&self, plan: &Plan, s: u32, fd: u64, kept: &[u64]) -> bool
        requires sized { IsEndpointsSized plan.now self.now.parts }
        requires service { s < service_count plan.now }
        ensures is { result ≡ list_any (goes_among plan.now kept.now self.now.parts (fd ∷ [])) self.now.parts.table }
        ensures once { distinct (open_numbers self.now.parts) ≡ true }
        ensures rise { rises_by (λ (o : Open). o.fd) self.now.parts.table ≡ true }
    {
        match self.entry(fd) {
            Some(entry) => {
                (self.is_left(plan, s, entry) && !contains(kept, fd)) || self.is_drained(plan, fd)
            }
            None => false,
        }
    }

    /// The descriptor has an address, and it is abandoned.
    fn is_left(&self, plan: &Plan, s: u32, entry: &Open) -> bool
        requires sized { IsEndpointsSized plan.now self.now.parts }
        requires service { s < service_count plan.now }
        ensures { result ≡ passes (is_abandoned_by plan.now self.now.parts.failed) entry.now.address }
    {
        match &entry.address {
            Some(text) => {
                self.is_left_alone(plan, s, text.as_str()) || self.is_abandoned(plan, text.as_str())
            }
            None => false,
        }
    }

    /// The service has failed, and it alone has an endpoint with the address, which no other service claims.
    fn is_left_alone(&self, plan: &Plan, s: u32, address: &str) -> bool
        requires sized { IsEndpointsSized plan.now self.now.parts }
        requires service { s < service_count plan.now }
        ensures { result ≡ true → is_abandoned_by plan.now self.now.parts.failed address.now ≡ true }
    {
        if !self.has_failed(s as usize) || self.may_share(address) {
            return false;
        }
        has_endpoint(endpoints_of(plan, s as usize), address)
    }
}
