//! The endpoints of all services, and the descriptors that came.

ghost use Rattle.std.specs.Prelude.{◌≡◌, ◌+◌, ◌<◌, ◌≤◌, ◌++◌, ◌∷◌, ◌==◌, [], length, slice_index_or, ℕ, Some, Option, IfOk, IfSome, IfNone, OnOk, map, filter, not, ◌&&◌, slice_index, take, drop, true, false, ◌^◌, ◌≢◌};
ghost use Rattle.std.specs.List.{list_any};
ghost use Rattle.svc_base.specs.Items.{list_of, spare};
ghost use Rattle.svc_graph.specs.Bits.{is_set, HasRows};
ghost use Rattle.svc_record.specs.declared.action.Action.TheVariants.{Close};
ghost use Rattle.svc_record.specs.Plans.{service_count, endpoints, address};
ghost use Rattle.svc_record.specs.Tail.{each_once};
ghost use Rattle.svc_record.specs.Validity.{IsValid};
ghost use Rattle.svc_endpoints.specs.EndpointsState.{IsEndpointsSized, EndpointsStand, last_at, failed_at, state_at, open_numbers, numbers_with, is_binding, is_adopting, is_holding, all_new};
ghost use Rattle.svc_base.specs.Blocks.{rises_by, has_key, StandsIn};
ghost use Rattle.svc_base.specs.NumberSets.{is_in, distinct};
ghost use Rattle.svc_endpoints.specs.declared.table.Open.{Open};
ghost use Rattle.svc_endpoints.specs.declared.states.EndpointStatus.TheVariants.{Idle};
ghost use Rattle.svc_endpoints.specs.Effects.{held_now, put, put_last, bound, fail_if, has_open, first_of, with_number, cleared, gone_numbers, loop_ended, is_abandoned_by, put_opens, put_numbers, opens_of, without_numbers, without_number, numbers_like};
ghost use Rattle.svc_endpoints.specs.Sums.{sum_of};
ghost use Rattle.svc_endpoints.specs.Calm.{IsServiceCalm};
ghost use Rattle.svc_endpoints.specs.Uses.{is_drained_by};
ghost use Rattle.svc_endpoints.specs.Counts.{row_share, changed_to, put_unused, counted_numbers, are_few, is_known};

use crate::came::{add_all, contains};
use crate::loops::{LoopEnd, Loops, is_done};
use crate::naming::{is_abandoned, service_count};
use crate::states::{
    EndpointState, EndpointStatus, Row, held_now, is_adopting, is_binding, new_flags, new_rows,
};
use crate::sums::{shared_sums, sum_of};
use crate::table::{Open, Table};
use crate::uses::{Share, Uses, holder_share, share_of};
use std::alloc::Global;
use std::marker::Model;
use svc_base::{NoMemory, NumberRanges, NumberSet, Text};
use svc_graph::Bits;
use svc_record::{Action, Actions, Plan};

/// The state of each endpoint, which services have failed, the loops that ended, the live
/// descriptors with their addresses, the numbers of all descriptors that came, and the sums of the
/// addresses that several endpoints may have; beside them how many endpoints use each live descriptor, a bit
/// for each service, which is set where one of its endpoints may be busy with its address at some moment, and
/// the endpoint that was asked for last, which contracts don't see.
#[derive(Drop)]
pub struct Endpoints {
    rows: Vec<Row>,
    failed: Vec<bool>,
    loops: Loops,
    table: Table,
    came: NumberRanges,
    shared: NumberSet,
    tasks: u64,
    uses: Uses,
    busy: Bits,
    last_asked: (u32, u32),
}

impl Model for Endpoints {
    ghost use Rattle.std.specs.Prelude.{min};
    ghost use Rattle.svc_base.specs.Items.{list_of, spare};
    ghost use Rattle.svc_endpoints.specs.EndpointsData.{EndpointsRoom};
    ghost use Rattle.svc_endpoints.specs.Calm.{AreBusyKnown};
    ghost use Rattle.svc_endpoints.specs.Counts.{AreUsesKept};

    ghost Value = { EndpointsRoom };

    ghost view = { λ e. record {
      parts = record {
        rows = e.rows.items;
        failed = e.failed.items;
        loops = list_of e.loops;
        table = list_of e.table;
        came = list_of e.came;
        shared = list_of e.shared;
        tasks = e.tasks;
      };
      room = min (min (spare e.table) (spare e.came)) (spare e.uses);
      loop_room = spare e.loops;
    } };

    ghost invariant = { λ e. AreBusyKnown e.rows.items e.failed.items e.busy × AreUsesKept
        (record {
          rows = e.rows.items;
          failed = e.failed.items;
          loops = list_of e.loops;
          table = list_of e.table;
          came = list_of e.came;
          shared = list_of e.shared;
          tasks = e.tasks;
        }) (list_of e.uses) };
}

/// A bit for each service, none of them set.
fn no_bits(alloc: Global) -> Result<Bits, NoMemory>
    ensures { IfOk result (λ bits. HasRows bits 1) }
{
    let mut bits = Bits::new(alloc);
    bits.grow(1)?;
    Ok(bits)
}

/// Sets the service's bit, or clears it.
fn put_bit(bits: &mut Bits, s: u32, on: bool)
    requires bits { HasRows bits.old 1 }
    requires service { s < 1024 }
    ensures rows { length bits.new ≡ length bits.old }
    ensures here { is_set bits.new 0 s ≡ on }
    ensures others { (t : ℕ) → t ≢ s → is_set bits.new 0 t ≡ is_set bits.old 0 t }
{
    if on {
        bits.set(0, s);
    } else {
        bits.clear(0, s);
    }
}

/// What the endpoint has of a descriptor, if it is one of a service's.
fn share_in(
    rows: &[Row],
    failed: &[bool],
    loops: &Loops,
    tasks: u64,
    s: usize,
    i: usize,
) -> Option<Share>
    requires { length failed.now ≡ length rows.now }
    ensures { result ≡ row_share (slice_index_or failed.now s false) (list_of loops.now) tasks s (slice_index_or rows.now s []) i }
{
    if s >= rows.len() || i >= rows[s].len() {
        return None;
    }
    share_of(failed[s], is_done(loops, tasks, s, i), rows[s].get(i).last)
}

/// The service fails, and its endpoints hold nothing any more.
fn fail_shares(uses: &mut Uses, row: &Row, failed: bool, loops: &Loops, tasks: u64, s: usize)
    requires few { (n : ℕ) → n < length row.now → are_few (changed_to (row_share failed (list_of loops.now) tasks s row.now)
        (row_share true (list_of loops.now) tasks s row.now) n (list_of uses.old)) ≡ true }
    ensures { list_of uses.new ≡ changed_to (row_share failed (list_of loops.now) tasks s row.now) (row_share true (list_of loops.now) tasks s row.now)
        (length row.now) (list_of uses.old) }
{
    for i in 0..row.len() {
        let done = is_done(loops, tasks, s, i);
        let last = row.get(i).last;
        uses.change(share_of(failed, done, last), share_of(true, done, last));
    }
}

/// Takes the numbers that aren't left out.
fn add_counts(uses: &mut Uses, fds: &[u64], out: &NumberSet)
    requires new { all_new (counted_numbers (list_of uses.old)) fds.now ≡ true }
    requires room { length fds.now ≤ spare uses.old }
    ensures { list_of uses.new ≡ put_unused (filter (λ n. not (is_in n (list_of out.now))) fds.now) (list_of uses.old) }
{
    for k in 0..fds.len() {
        if !out.has(fds[k]) {
            uses.add(fds[k]);
        }
    }
}

impl Endpoints {
    /// Nothing is asked for yet.
    pub fn new(alloc: Global, plan: &Plan) -> Result<Endpoints, NoMemory>
        requires { IsValid plan.now }
        ensures sized { IfOk result (λ e. IsEndpointsSized plan.now e.parts) }
        ensures stands { IfOk result (λ e. EndpointsStand plan.now e.parts []) }
    {
        let rows = new_rows(alloc, plan)?;
        let failed = new_flags(alloc, service_count(plan))?;
        let loops = Loops::new(alloc, plan)?;
        let table = Table::new(alloc);
        let came = NumberRanges::new(alloc);
        let shared = shared_sums(alloc, plan)?;
        let uses = Uses::new(alloc);
        let busy = no_bits(alloc)?;
        Ok(Endpoints {
            rows,
            failed,
            loops,
            table,
            came,
            shared,
            tasks: plan.tasks,
            uses,
            busy,
            last_asked: (0, 0),
        })
    }

    /// After it there is memory for one more descriptor.
    pub fn reserve(&mut self) -> Result<(), NoMemory>
        ensures parts { self.new.parts ≡ self.old.parts }
        ensures room { OnOk result (0 < self.new.room) }
    {
        self.reserve_for(1)
    }

    /// After it there is memory for so many more descriptors.
    pub(crate) fn reserve_for(&mut self, count: usize) -> Result<(), NoMemory>
        ensures parts { self.new.parts ≡ self.old.parts }
        ensures room { OnOk result (count ≤ self.new.room) }
    {
        self.table.reserve(count)?;
        self.uses.reserve(count)?;
        self.came.reserve(count)
    }

    /// After it there is memory for one more loop that ends.
    pub fn reserve_loop(&mut self) -> Result<(), NoMemory>
        ensures parts { self.new.parts ≡ self.old.parts }
        ensures room { OnOk result (0 < self.new.loop_room) }
    {
        self.loops.reserve()
    }

    /// Which services have failed.
    pub fn failed(&self) -> &[bool]
        ensures { result.now ≡ self.now.parts.failed }
    {
        &self.failed
    }

    /// A bind of the endpoint is open.
    pub fn is_binding(&self, plan: &Plan, s: u32, i: u32) -> bool
        requires sized { IsEndpointsSized plan.now self.now.parts }
        requires service { s < service_count plan.now }
        requires endpoint { i < length (endpoints plan.now s) }
        ensures { result ≡ is_binding (last_at self.now.parts s i) }
    {
        is_binding(self.last(s as usize, i as usize))
    }

    /// A descriptor is offered to the endpoint.
    pub fn is_adopting(&self, plan: &Plan, s: u32, i: u32) -> bool
        requires sized { IsEndpointsSized plan.now self.now.parts }
        requires service { s < service_count plan.now }
        requires endpoint { i < length (endpoints plan.now s) }
        ensures { result ≡ is_adopting (last_at self.now.parts s i) }
    {
        is_adopting(self.last(s as usize, i as usize))
    }

    /// A descriptor with this number came.
    pub fn has_number(&self, fd: u64) -> bool
        ensures { result ≡ list_any (λ n. n == fd) self.now.parts.came }
    {
        self.came.has(fd)
    }

    /// None of the numbers came, and no two of them are equal.
    pub fn are_new(&self, fds: &[u64]) -> bool
        ensures { result ≡ all_new self.now.parts.came fds.now }
    {
        for k in 0..fds.len() {
            if !self.is_new_before(fds, k) {
                return false;
            }
        }
        true
    }

    /// How many descriptors are live.
    pub fn open_len(&self) -> usize
        ensures small { result < 2 ^ 60 }
        ensures length { result ≡ length self.now.parts.table }
    {
        self.table.len()
    }

    /// Closes each live descriptor, in ascending number.
    pub fn close_open(&self, actions: &mut Actions)
        requires room { length self.now.parts.table ≤ spare actions.old }
        ensures told { list_of actions.new ≡ list_of actions.old ++ map Close (open_numbers self.now.parts) }
        ensures room { spare actions.old ≤ spare actions.new + length self.now.parts.table }
    {
        self.table.close_all(actions);
    }

    /// Closes each of the numbers that didn't come, once, in the order of the list.
    pub fn close_new(&self, fds: &[u64], actions: &mut Actions)
        requires room { length fds.now ≤ spare actions.old }
        ensures told { list_of actions.new ≡ list_of actions.old ++ map Close (each_once (filter (λ n. not (is_in n self.now.parts.came)) fds.now)) }
        ensures room { spare actions.old ≤ spare actions.new + length fds.now }
    {
        for k in 0..fds.len() {
            if self.is_new_after(fds, k) {
                actions.put(Action::Close(fds[k]));
            }
        }
    }

    /// The k-th number didn't come, and isn't among those after it.
    fn is_new_before(&self, fds: &[u64], k: usize) -> bool
        requires { k < length fds.now }
        ensures { result ≡ (not (is_in (slice_index fds.now k) self.now.parts.came) && not (is_in (slice_index fds.now k) (drop (k + 1) fds.now))) }
    {
        !self.came.has(fds[k]) && !contains(&fds[k + 1..], fds[k])
    }

    /// The k-th number didn't come, and isn't among those before it.
    fn is_new_after(&self, fds: &[u64], k: usize) -> bool
        requires { k < length fds.now }
        ensures { result ≡ (not (is_in (slice_index fds.now k) self.now.parts.came) && not (is_in (slice_index fds.now k) (take k fds.now))) }
    {
        !self.came.has(fds[k]) && !contains(&fds[..k], fds[k])
    }

    /// The table with the descriptors of these numbers, each with the word at its place if there is
    /// one, but for those that are left out.
    pub(crate) fn take_rest(&mut self, words: Vec<Text>, fds: &[u64], out: &NumberSet)
        requires new { all_new self.old.parts.came fds.now ≡ true }
        requires room { length fds.now ≤ self.old.room }
        ensures { self.new.parts ≡ record self.old.parts {
          table = put_opens
              (without_numbers (list_of out.now) (opens_of fds.now words.items)) self.old.parts.table;
          came = put_numbers fds.now self.old.parts.came;
        } }
    {
        self.table.add_rest(words, fds, out);
        add_counts(&mut self.uses, fds, out);
        add_all(&mut self.came, fds);
    }

    pub(crate) fn state(&self, s: usize, i: usize) -> EndpointState
        requires service { s < length self.now.parts.rows }
        requires endpoint { i < length (slice_index_or self.now.parts.rows s []) }
        ensures { result ≡ state_at self.now.parts s i }
    {
        self.rows[s].get(i)
    }

    /// The service's endpoints that may be asked for, or rest: those before the first number are held, and
    /// of those from the second on nothing is known.
    pub(crate) fn open_range(&self, s: usize) -> (usize, usize)
        requires { s < length self.now.parts.rows }
        ensures before { (k : ℕ) → k < result.0 → is_holding (last_at self.now.parts s k) ≡ true }
        ensures after { (k : ℕ) → result.1 ≤ k → last_at self.now.parts s k ≡ Idle }
    {
        let row = &self.rows[s];
        row.open_range()
    }

    pub(crate) fn last(&self, s: usize, i: usize) -> EndpointStatus
        requires service { s < length self.now.parts.rows }
        requires endpoint { i < length (slice_index_or self.now.parts.rows s []) }
        ensures { result ≡ last_at self.now.parts s i }
    {
        self.state(s, i).last
    }

    /// What became of the endpoint, where it holds what was offered to it.
    pub(crate) fn last_held(&self, s: usize, i: usize) -> EndpointStatus
        requires service { s < length self.now.parts.rows }
        requires endpoint { i < length (slice_index_or self.now.parts.rows s []) }
        ensures is { result ≡ held_now (last_at self.now.parts s i) }
        ensures known { is_known result self.now.parts.came ≡ true }
    {
        let row = &self.rows[s];
        held_now(row.get(i).last)
    }

    pub(crate) fn put(&mut self, s: usize, i: usize, state: EndpointState)
        requires service { s < length self.old.parts.rows }
        requires endpoint { i < length (slice_index_or self.old.parts.rows s []) }
        requires known { is_known state.last self.old.parts.came ≡ true }
        ensures { self.new.parts ≡ put self.old.parts s i state }
    {
        let failed = self.failed[s];
        let done = is_done(&self.loops, self.tasks, s, i);
        let row = &mut self.rows[s];
        let was = share_of(failed, done, row.get(i).last);
        row.set(i, state);
        self.uses.change(was, share_of(failed, done, state.last));
        let is_busy = row.is_ever_busy(false);
        put_bit(&mut self.busy, s as u32, is_busy);
    }

    /// The endpoint has this state, and its count stays.
    pub(crate) fn put_last(&mut self, s: usize, i: usize, last: EndpointStatus)
        requires service { s < length self.old.parts.rows }
        requires endpoint { i < length (slice_index_or self.old.parts.rows s []) }
        requires known { is_known last self.old.parts.came ≡ true }
        ensures { self.new.parts ≡ put_last self.old.parts s i last }
    {
        let times_in_use = self.state(s, i).times_in_use;
        self.put(s, i, EndpointState { last, times_in_use });
    }

    /// More than one endpoint may have the address.
    pub(crate) fn may_share(&self, address: &str) -> bool
        ensures { result ≡ is_in (sum_of address.now) self.now.parts.shared }
    {
        self.shared.has(sum_of(address))
    }

    /// The first service from this one on of which an endpoint may be busy with its address at some moment.
    pub(crate) fn next_busy(&self, from: u32) -> Option<u32>
        ensures found { IfSome result (λ t. (from ≤ t) × (t < length self.now.parts.rows)) }
        ensures few { IfSome result (λ t. t < 1024) }
        ensures least { IfSome result (λ t. (u : ℕ) → from ≤ u → u < t → IsServiceCalm self.now.parts u) }
        ensures none { IfNone result ((u : ℕ) → from ≤ u → u < length self.now.parts.rows → IsServiceCalm self.now.parts u) }
    {
        match self.busy.next(0, from) {
            Some(t) => {
                if (t as usize) < self.rows.len() {
                    Some(t)
                } else {
                    None
                }
            }
            None => None,
        }
    }

    /// The endpoint that was asked for last. Nothing is claimed of it.
    pub(crate) fn last_asked(&self) -> (u32, u32) {
        self.last_asked
    }

    /// The endpoint is asked for.
    pub(crate) fn note_asked(&mut self, s: u32, i: u32)
        ensures { self.new ≡ self.old }
    {
        self.last_asked = (s, i);
    }

    pub(crate) fn has_failed(&self, s: usize) -> bool
        requires { s < length self.now.parts.failed }
        ensures { result ≡ failed_at self.now.parts s }
    {
        self.failed[s]
    }

    pub(crate) fn set_failed(&mut self, s: usize)
        requires { s < length self.old.parts.failed }
        ensures { self.new.parts ≡ fail_if true s self.old.parts }
    {
        let row = &self.rows[s];
        let failed = self.failed[s];
        fail_shares(&mut self.uses, row, failed, &self.loops, self.tasks, s);
        self.failed[s] = true;
        let is_busy = row.is_ever_busy(true);
        put_bit(&mut self.busy, s as u32, is_busy);
    }

    /// The loops that ended, in order.
    pub(crate) fn ended_loops(&self) -> &Loops
        ensures { list_of result.now ≡ self.now.parts.loops }
    {
        &self.loops
    }

    /// A loop of the endpoint ended.
    pub(crate) fn end_loop(&mut self, s: u32, i: u32, j: u64)
        requires { 0 < self.old.loop_room }
        ensures { self.new.parts ≡ loop_ended self.old.parts s i j }
    {
        let (service, endpoint) = (s as usize, i as usize);
        let was = share_in(
            &self.rows,
            &self.failed,
            &self.loops,
            self.tasks,
            service,
            endpoint,
        );
        self.loops.add(LoopEnd {
            service,
            endpoint,
            number: j,
        });
        let is = share_in(
            &self.rows,
            &self.failed,
            &self.loops,
            self.tasks,
            service,
            endpoint,
        );
        self.uses.change(was, is);
    }

    /// The first endpoint of the service that isn't held, else their number.
    pub(crate) fn first_missing(&self, plan: &Plan, s: u32) -> u32
        requires sized { IsEndpointsSized plan.now self.now.parts }
        requires service { s < service_count plan.now }
        ensures within { result ≤ length (endpoints plan.now s) }
        ensures missing { result < length (endpoints plan.now s) → is_holding (last_at self.now.parts s result) ≡ false }
        ensures earlier { (k : ℕ) → k < result → is_holding (last_at self.now.parts s k) ≡ true }
    {
        let row = &self.rows[s as usize];
        row.first_missing()
    }

    /// The live descriptors.
    pub(crate) fn table(&self) -> &Table
        ensures { list_of result.now ≡ self.now.parts.table }
    {
        &self.table
    }

    /// The states of the service's endpoints.
    pub(crate) fn row(&self, s: usize) -> &Row
        requires { s < length self.now.parts.rows }
        ensures { result.now ≡ slice_index_or self.now.parts.rows s [] }
    {
        &self.rows[s]
    }

    /// The live descriptor with the number.
    pub(crate) fn entry(&self, fd: u64) -> Option<&Open>
        ensures found { IfSome result (λ o. StandsIn (λ (x : Open). x.fd) fd self.now.parts.table o.now) }
        ensures absent { IfNone result (has_key (λ (x : Open). x.fd) fd self.now.parts.table ≡ false) }
        ensures rise { rises_by (λ (x : Open). x.fd) self.now.parts.table ≡ true }
        ensures once { distinct (open_numbers self.now.parts) ≡ true }
    {
        self.table.entry(fd)
    }

    /// The live descriptor with this address.
    pub(crate) fn find(&self, address: &str) -> Option<u64>
        ensures came { IfSome result (λ fd. is_in fd self.now.parts.came ≡ true) }
        ensures is { result ≡ first_of (numbers_with self.now.parts.table (Some address.now)) }
    {
        self.table.find(address)
    }

    /// A live descriptor has the address.
    pub(crate) fn is_open(&self, address: &str) -> bool
        ensures { result ≡ has_open self.now.parts.table (Some address.now) }
    {
        self.find(address).is_some()
    }

    /// Some service names the address, and all that name it have failed.
    pub(crate) fn is_abandoned(&self, plan: &Plan, address: &str) -> bool
        requires { length self.now.parts.failed ≡ service_count plan.now }
        ensures { result ≡ is_abandoned_by plan.now self.now.parts.failed address.now }
    {
        is_abandoned(plan, &self.failed, address)
    }

    /// The number came.
    pub(crate) fn take_number(&mut self, fd: u64)
        requires new { list_any (λ n. n == fd) self.old.parts.came ≡ false }
        requires room { 0 < self.old.room }
        ensures { self.new.parts ≡ with_number fd self.old.parts }
    {
        self.came.add(fd);
    }

    /// The number came, its descriptor is live, and it holds the endpoint.
    pub(crate) fn take_bound(&mut self, s: usize, i: usize, fd: u64, address: Text)
        requires service { s < length self.old.parts.rows }
        requires endpoint { i < length (slice_index_or self.old.parts.rows s []) }
        requires new { list_any (λ n. n == fd) self.old.parts.came ≡ false }
        requires room { 0 < self.old.room }
        ensures { self.new.parts ≡ bound self.old.parts s i fd address }
    {
        let failed = self.failed[s];
        let done = is_done(&self.loops, self.tasks, s, i);
        let row = &mut self.rows[s];
        let state = row.get(i);
        let last = EndpointStatus::Holding(fd);
        let times_in_use = state.times_in_use;
        row.set(i, EndpointState { last, times_in_use });
        let busy = row.is_ever_busy(false);
        self.table.add(fd, Some(address));
        self.uses.add_shared(
            share_of(failed, done, state.last),
            holder_share(failed, done, fd),
        );
        self.came.add(fd);
        put_bit(&mut self.busy, s as u32, busy);
    }

    /// The live descriptor is drained.
    pub(crate) fn is_drained(&self, plan: &Plan, fd: u64) -> bool
        requires sized { IsEndpointsSized plan.now self.now.parts }
        ensures { is_in fd (open_numbers self.now.parts) ≡ true → result ≡ is_drained_by plan.now self.now.parts fd }
    {
        self.uses.is_let_go(fd)
    }

    /// Closes the live descriptor with this number.
    pub(crate) fn close_number(&mut self, fd: u64, actions: &mut Actions)
        requires room { length self.old.parts.table ≤ spare actions.old }
        ensures after { self.new.parts ≡ without_number fd self.old.parts }
        ensures told { list_of actions.new ≡ list_of actions.old ++ map Close (numbers_like fd self.old.parts.table) }
        ensures room { spare actions.old + length self.new.parts.table ≤ spare actions.new + length self.old.parts.table }
    {
        self.table.close_number(fd, actions);
        self.uses.remove(fd);
    }

    /// Closes what nobody needs any more, but for what is kept.
    pub(crate) fn clear(&mut self, plan: &Plan, kept: &[u64], actions: &mut Actions)
        requires sized { IsEndpointsSized plan.now self.old.parts }
        requires room { length self.old.parts.table ≤ spare actions.old }
        ensures after { self.new.parts ≡ cleared plan.now kept.now self.old.parts }
        ensures told { list_of actions.new ≡ list_of actions.old ++ map Close (gone_numbers plan.now kept.now self.old.parts self.old.parts.table) }
        ensures room { spare actions.old + length self.new.parts.table ≤ spare actions.new + length self.old.parts.table }
    {
        self.table
            .close_gone(plan, &self.failed, kept, &self.uses, actions);
        self.uses.keep(&self.table);
    }
}
