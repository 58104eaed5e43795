//! The places of the startup order that a pass visits, and what the others wait for.

ghost use Rattle.std.specs.Prelude.{◌≡◌, ◌<◌, ◌≤◌, ◌+◌, ◌≢◌, ℕ, true, false, length, slice_index, slice_set, IfOk, IfSome, IfNone};
ghost use Rattle.svc_graph.specs.Bits.{is_set, HasRows};
ghost use Rattle.svc_graph.specs.Graphs.{node_count, is_edge};
ghost use Rattle.svc_graph.specs.Waitings.{missing_of, waits_for};
ghost use Rattle.svc_record.specs.Plans.{service_count};
ghost use Rattle.svc_core.specs.StartsState.{IsStartsSized, is_flagged, ready_now};
ghost use Rattle.std.specs.Bool.{OnTrue};
ghost use Rattle.svc_core.specs.WaitsState.{is_open, is_behind, KnowsReady, KnowsOthers, Opens, MarksOnly, IsMarked, MarksIf, ClosesPlace, IsShortOrder, Reopens, JoinsRow, Frees, HandsOn, FreesAll, FreesMore, Wakes, LeavesPlace, ParksBehind, ParksResting};

use crate::starts::Starts;
use std::alloc::Global;
use std::marker::{Brand, Model};
use std::sync::ledger::{Blank, Ledger};
use svc_base::NoMemory;
use svc_graph::{Bits, DependencyGraph, Steps, Waiting};
use svc_record::Plan;

/// The row of the places that are open.
const OPEN: u32 = 0;

/// Which places are open, so that a pass visits them. A service that isn't started and lacks a dependency
/// waits at its place until it lacks none; one that is started and has failed, or holds each of
/// its endpoints, is done; one of which an ask is open waits for the answer; and one whose address is kept
/// busy waits behind the service of which an endpoint does so, where it rests behind itself. Any other
/// place is open.
#[derive(Drop)]
pub(crate) struct Waits {
    /// A row of the places that are open; for each service a row of those that wait behind it, then one of
    /// all these, and one of those that rest.
    bits: Bits,
    /// Which services are marked, those that are ready, and how many dependencies of each aren't.
    counts: Waiting,
    /// How many services there are.
    services: u32,
    /// Whether all were looked at.
    fresh: bool,
    /// Whether bootstrapping was complete when all were last looked at.
    complete: bool,
    /// Up to which moment all that rest do, in milliseconds.
    until: u64,
    /// The place of the service that was last seen to ask, which contracts don't see.
    asked: usize,
    /// The place of each service in the startup order, which contracts don't see.
    places: Vec<u32>,
}

impl Model for Waits {
    ghost use Rattle.svc_core.specs.WaitsData.{WaitsData, AreWaitsSized};

    ghost Value = { WaitsData };

    ghost view = { λ w. record { bits = w.bits; counts = w.counts; fresh = w.fresh; complete = w.complete; until = w.until } };

    ghost invariant = { λ w. AreWaitsSized w.bits w.counts w.services };
}

/// Rows for so many services, and among them the one in which each of so many places is open.
fn all_open(alloc: Global, services: u32, places: usize) -> Result<Bits, NoMemory>
    requires services { services ≤ 1024 }
    requires places { places ≤ 1024 }
    ensures rows { IfOk result (λ bits. HasRows bits (services + 3)) }
    ensures open { IfOk result (λ bits. (k : ℕ) → k < places → is_set bits 0 k ≡ true) }
{
    let mut bits = Bits::new(alloc);
    bits.grow(services + 3)?;
    for k in 0..places {
        bits.set(OPEN, k as u32);
    }
    Ok(bits)
}

/// The place of each of so many services, and 0 where it has none.
fn places_in(alloc: Global, services: usize, order: &[u32]) -> Result<Vec<u32>, NoMemory>
    requires { length order.now ≤ 1024 }
{
    let mut places = vec![in alloc; 0u32; services]?;
    for k in 0..order.len() {
        if let Some(place) = places.get_mut(order[k] as usize) {
            *place = k as u32;
        }
    }
    Ok(places)
}

/// The place that is noted for the service, if the service stands there.
fn noted_place(places: &[u32], order: &[u32], s: u32) -> Option<usize>
    ensures { IfSome result (λ k. (k < length order.now) × (slice_index order.now k ≡ s)) }
{
    let k = *places.get(s as usize)? as usize;
    if k < order.len() && order[k] == s {
        Some(k)
    } else {
        None
    }
}

/// The place of the service, from the front.
fn first_place(order: &[u32], s: u32) -> Option<usize>
    ensures found { IfSome result (λ k. (k < length order.now) × (slice_index order.now k ≡ s)) }
    ensures none { IfNone result ((k : ℕ) → k < length order.now → slice_index order.now k ≢ s) }
{
    for k in 0..order.len() {
        if order[k] == s {
            return Some(k);
        }
    }
    None
}

/// The place of the service. Where one is noted it is looked for there first.
fn place_of(places: &[u32], order: &[u32], s: u32) -> Option<usize>
    ensures found { IfSome result (λ k. (k < length order.now) × (slice_index order.now k ≡ s)) }
    ensures none { IfNone result ((k : ℕ) → k < length order.now → slice_index order.now k ≢ s) }
{
    let noted = noted_place(places, order, s);
    if noted.is_some() {
        return noted;
    }
    first_place(order, s)
}

/// The service's place is open.
fn open_place(bits: &mut Bits, places: &[u32], order: &[u32], s: u32)
    requires row { HasRows bits.old 1 }
    requires order { IsShortOrder order.now }
    ensures len { length bits.new ≡ length bits.old }
    ensures kept { (a b : ℕ) → is_set bits.old a b ≡ true → is_set bits.new a b ≡ true }
    ensures opened { (k : ℕ) → k < length order.now → slice_index order.now k ≡ s → is_set bits.new 0 k ≡ true }
{
    if let Some(k) = place_of(places, order, s) {
        bits.set(OPEN, k as u32);
    }
}

/// The places of those that depend on the service and lack no dependency are open.
fn open_freed(bits: &mut Bits, counts: &Waiting, places: &[u32], order: &[u32], s: u32)
    requires row { HasRows bits.old 1 }
    requires service { s < length counts.now.marks }
    requires order { IsShortOrder order.now }
    ensures len { length bits.new ≡ length bits.old }
    ensures kept { (a b : ℕ) → is_set bits.old a b ≡ true → is_set bits.new a b ≡ true }
    ensures opened { (k : ℕ) → k < length order.now → waits_for counts.now (slice_index order.now k) s ≡ true
        → missing_of counts.now (slice_index order.now k) ≡ 0 → is_set bits.new 0 k ≡ true }
{
    for dependent in counts.dependents(s) {
        if counts.missing(*dependent) == 0 {
            open_place(bits, places, order, *dependent);
        }
    }
}

/// Marks the service. Nobody counts the steps.
fn count<L: Ledger>(counts: &mut Waiting, s: u32, blank: Blank)
    requires name { blank.name ≡ L.name }
    requires parts { blank.parts ≡ L.parts }
    requires some { 0 < blank.parts }
    requires node { s < length counts.old.marks }
    requires fresh { is_flagged counts.old.marks s ≡ false }
    ensures depends { counts.new.depends ≡ counts.old.depends }
    ensures marks { counts.new.marks ≡ slice_set counts.old.marks s true }
{
    let mut steps = Steps::<L>::new(blank);
    counts.mark(s, &mut steps);
}

impl Waits {
    /// Each place is open, and no service is known to be ready.
    pub(crate) fn new(
        alloc: Global,
        graph: &DependencyGraph,
        order: &[u32],
    ) -> Result<Waits, NoMemory>
        requires services { node_count graph.now ≤ 1024 }
        requires places { length order.now ≤ 1024 }
        ensures count { IfOk result (λ w. length w.counts.marks ≡ node_count graph.now) }
        ensures edges { IfOk result (λ w. (a b : ℕ) → waits_for w.counts a b ≡ is_edge graph.now a b) }
        ensures none { IfOk result (λ w. (s : ℕ) → is_flagged w.counts.marks s ≡ false) }
        ensures open { IfOk result (λ w. (k : ℕ) → k < length order.now → is_open w k ≡ true) }
        ensures stale { IfOk result (λ w. w.fresh ≡ false) }
        ensures early { IfOk result (λ w. w.complete ≡ false) }
    {
        let services = graph.len() as u32;
        let places = places_in(alloc, services as usize, order)?;
        let bits = all_open(alloc, services, order.len())?;
        let counts = Waiting::new(alloc, graph)?;
        Ok(Waits {
            bits,
            counts,
            services,
            fresh: false,
            complete: false,
            until: u64::MAX,
            asked: 0,
            places,
        })
    }

    /// The row of the places that wait behind a service.
    fn parked_row(&self) -> u32
        ensures row { result ≡ length self.now.counts.marks + 1 }
        ensures few { result ≤ 1025 }
    {
        self.services + 1
    }

    /// The row of the places that rest.
    fn resting_row(&self) -> u32
        ensures row { result ≡ length self.now.counts.marks + 2 }
        ensures few { result ≤ 1026 }
    {
        self.services + 2
    }

    /// The least place of a row from one on, before the end.
    fn next_in(&self, row: u32, from: usize, end: usize) -> Option<usize>
        requires row { row < length self.now.counts.marks + 3 }
        requires end { end ≤ 1024 }
        ensures found { IfSome result (λ k. (from ≤ k) × (k < end)) }
        ensures is_set { IfSome result (λ k. is_set self.now.bits row k ≡ true) }
        ensures least { IfSome result (λ k. (c : ℕ) → from ≤ c → c < k → is_set self.now.bits row c ≡ false) }
        ensures none { IfNone result ((c : ℕ) → from ≤ c → c < end → is_set self.now.bits row c ≡ false) }
    {
        if from >= end {
            return None;
        }
        match self.bits.next(row, from as u32) {
            Some(k) => {
                if (k as usize) < end {
                    Some(k as usize)
                } else {
                    None
                }
            }
            None => None,
        }
    }

    /// The least open place from one on, before the end.
    pub(crate) fn next(&self, from: usize, end: usize) -> Option<usize>
        requires { end ≤ 1024 }
        ensures found { IfSome result (λ k. (from ≤ k) × (k < end)) }
        ensures open { IfSome result (λ k. is_open self.now k ≡ true) }
        ensures least { IfSome result (λ k. (c : ℕ) → from ≤ c → c < k → is_open self.now c ≡ false) }
        ensures none { IfNone result ((c : ℕ) → from ≤ c → c < end → is_open self.now c ≡ false) }
    {
        self.next_in(OPEN, from, end)
    }

    /// The least place from one on, before the end, that waits or has waited behind the service.
    pub(crate) fn next_behind(&self, service: u32, from: usize, end: usize) -> Option<usize>
        requires service { service < length self.now.counts.marks }
        requires end { end ≤ 1024 }
        ensures found { IfSome result (λ k. (from ≤ k) × (k < end)) }
        ensures least { IfSome result (λ k. (c : ℕ) → from ≤ c → c < k → is_behind self.now service c ≡ false) }
    {
        prove!(service < self.services);
        self.next_in(1 + service, from, end)
    }

    /// No place before the end is open, and no rest is known to end at a moment of 64 bits.
    pub(crate) fn is_still(&self, end: usize) -> bool
        requires end { end ≤ 1024 }
        ensures shut { result ≡ true → (k : ℕ) → k < end → is_open self.now k ≡ false }
        ensures long { result ≡ true → self.now.until ≡ u64.MAX }
    {
        self.until == u64::MAX && self.next(0, end).is_none()
    }

    /// Marks the service as ready where it isn't yet, and opens the places of those that lack nothing then.
    pub(crate) fn mark(&mut self, order: &[u32], s: u32)
        requires service { s < length self.old.counts.marks }
        requires order { IsShortOrder order.now }
        ensures { IsMarked order.now s self.old self.new }
    {
        if self.counts.marked(s) {
            return;
        }
        count::<Brand>(&mut self.counts, s, Blank::new(1));
        open_freed(&mut self.bits, &self.counts, &self.places, order, s);
    }

    /// Marks the service as ready where it has failed.
    pub(crate) fn mark_failed(&mut self, order: &[u32], failed: &[bool], s: u32)
        requires service { s < length self.old.counts.marks }
        requires order { IsShortOrder order.now }
        requires flags { length failed.now ≡ length self.old.counts.marks }
        ensures { MarksIf (is_flagged failed.now s) order.now s self.old self.new }
    {
        if failed[s as usize] {
            self.mark(order, s);
        }
    }

    /// The service's place is visited again.
    pub(crate) fn reopen(&mut self, order: &[u32], s: u32)
        requires { IsShortOrder order.now }
        ensures { Reopens order.now s self.old self.new }
    {
        open_place(&mut self.bits, &self.places, order, s);
    }

    /// The place isn't visited any more.
    pub(crate) fn close(&mut self, k: usize)
        requires { k < 1024 }
        ensures { ClosesPlace k self.old self.new }
    {
        self.bits.clear(OPEN, k as u32);
    }

    /// The places that wait behind the service are visited again.
    pub(crate) fn free(&mut self, t: u32)
        requires { t < length self.old.counts.marks }
        ensures { Frees t self.old self.new }
    {
        self.bits.join(OPEN, 1 + t);
    }

    /// The places that wait behind the service wait behind the other one too, whose place is visited again.
    pub(crate) fn hand_on(&mut self, service: u32, other: u32, place: usize)
        requires service { service < length self.old.counts.marks }
        requires other { other < length self.old.counts.marks }
        requires apart { service ≢ other }
        requires place { place < 1024 }
        ensures { HandsOn service other place self.old self.new }
    {
        self.bits.join(1 + other, 1 + service);
        self.bits.set(OPEN, place as u32);
    }

    /// All places that wait behind a service are visited again.
    pub(crate) fn free_all(&mut self)
        ensures { FreesAll self.old self.new }
    {
        let row = self.parked_row();
        self.bits.join(OPEN, row);
    }

    /// The places that wait behind the service are visited again, or all that wait behind some service.
    pub(crate) fn free_more(&mut self, all: bool, t: u32)
        requires { t < length self.old.counts.marks }
        ensures { FreesMore all t self.old self.new }
    {
        if all {
            self.free_all();
        } else {
            self.free(t);
        }
    }

    /// What rests is visited again, once one of the rests is over at the moment, in milliseconds.
    pub(crate) fn wake(&mut self, moment: u64)
        ensures wakes { Wakes self.old self.new }
        ensures soon { moment ≤ self.new.until }
    {
        if moment <= self.until {
            return;
        }
        self.wake_all();
    }

    /// What rests is visited again.
    fn wake_all(&mut self)
        ensures wakes { JoinsRow (length self.old.counts.marks + 2) self.new.until self.old self.new }
        ensures last { self.new.until ≡ u64.MAX }
    {
        let row = self.resting_row();
        self.bits.join(OPEN, row);
        self.until = u64::MAX;
    }

    /// The place waits behind no service.
    pub(crate) fn leave(&mut self, k: usize)
        requires { k < 1024 }
        ensures { LeavesPlace k self.old self.new }
    {
        let row = self.parked_row();
        self.bits.clear(row, k as u32);
        self.bits.clear(row + 1, k as u32);
    }

    /// The place isn't visited until the service has another state.
    pub(crate) fn park_behind(&mut self, k: usize, t: u32)
        requires place { k < 1024 }
        requires service { t < length self.old.counts.marks }
        ensures { ParksBehind k t self.old self.new }
    {
        let row = self.parked_row();
        self.bits.set(1 + t, k as u32);
        self.bits.set(row, k as u32);
        self.bits.clear(OPEN, k as u32);
    }

    /// The service's place isn't visited until its rest is over.
    pub(crate) fn rest(&mut self, k: usize, s: u32, end: u64)
        requires place { k < 1024 }
        requires service { s < length self.old.counts.marks }
        ensures { ParksResting k s end self.old self.new }
    {
        let row = self.parked_row();
        self.bits.set(1 + s, k as u32);
        self.bits.set(row, k as u32);
        self.bits.set(row + 1, k as u32);
        self.bits.clear(OPEN, k as u32);
        self.until = self.until.min(end);
    }

    /// The service at the place asks, so its place isn't visited.
    pub(crate) fn close_asking(&mut self, k: usize)
        requires { k < 1024 }
        ensures { ClosesPlace k self.old self.new }
    {
        self.close(k);
        self.asked = k;
    }

    /// The place of the service that was last seen to ask. Nothing is claimed of it.
    pub(crate) fn last_asked(&self) -> usize {
        self.asked
    }

    /// How many dependencies of the service aren't marked.
    pub(crate) fn missing(&self, s: u32) -> u64
        requires { s < length self.now.counts.marks }
        ensures { result ≡ missing_of self.now.counts s }
    {
        self.counts.missing(s)
    }

    /// Marks the service where it is ready.
    fn look_at(
        &mut self,
        plan: &Plan,
        order: &[u32],
        starts: &Starts,
        failed: &[bool],
        complete: bool,
        s: u32,
    )
        requires count { length self.old.counts.marks ≡ service_count plan.now }
        requires service { s < service_count plan.now }
        requires order { IsShortOrder order.now }
        requires sized { IsStartsSized plan.now starts.now }
        requires flags { length failed.now ≡ service_count plan.now }
        ensures opens { Opens order.now self.old self.new }
        ensures complete { self.new.complete ≡ self.old.complete }
        ensures ready { ready_now plan.now starts.now failed.now complete s ≡ true → is_flagged self.new.counts.marks s ≡ true }
        ensures only { MarksOnly (ready_now plan.now starts.now failed.now complete) self.old self.new }
    {
        if !starts.is_ready(plan, failed, complete, s) {
            return;
        }
        self.mark(order, s);
    }

    /// Marks each service that is ready.
    fn refresh(
        &mut self,
        plan: &Plan,
        order: &[u32],
        starts: &Starts,
        failed: &[bool],
        complete: bool,
    )
        requires count { length self.old.counts.marks ≡ service_count plan.now }
        requires order { IsShortOrder order.now }
        requires sized { IsStartsSized plan.now starts.now }
        requires flags { length failed.now ≡ service_count plan.now }
        ensures opens { Opens order.now self.old self.new }
        ensures complete { self.new.complete ≡ complete }
        ensures ready { KnowsReady plan.now starts.now failed.now complete self.new }
        ensures only { MarksOnly (ready_now plan.now starts.now failed.now complete) self.old self.new }
    {
        self.look_at_all(plan, order, starts, failed, complete);
        self.fresh = true;
        self.complete = complete;
    }

    fn look_at_all(
        &mut self,
        plan: &Plan,
        order: &[u32],
        starts: &Starts,
        failed: &[bool],
        complete: bool,
    )
        requires count { length self.old.counts.marks ≡ service_count plan.now }
        requires order { IsShortOrder order.now }
        requires sized { IsStartsSized plan.now starts.now }
        requires flags { length failed.now ≡ service_count plan.now }
        ensures opens { Opens order.now self.old self.new }
        ensures ready { KnowsReady plan.now starts.now failed.now complete self.new }
        ensures only { MarksOnly (ready_now plan.now starts.now failed.now complete) self.old self.new }
    {
        for s in 0..self.services {
            self.look_at(plan, order, starts, failed, complete, s);
        }
    }

    /// Each service that is ready is marked, by a look at all where that isn't known.
    pub(crate) fn catch_up(
        &mut self,
        plan: &Plan,
        order: &[u32],
        starts: &Starts,
        failed: &[bool],
        complete: bool,
    )
        requires count { length self.old.counts.marks ≡ service_count plan.now }
        requires order { IsShortOrder order.now }
        requires sized { IsStartsSized plan.now starts.now }
        requires flags { length failed.now ≡ service_count plan.now }
        requires watched { OnTrue self.old.fresh (KnowsReady plan.now starts.now failed.now self.old.complete self.old) }
        ensures opens { Opens order.now self.old self.new }
        ensures complete { self.new.complete ≡ complete }
        ensures ready { KnowsReady plan.now starts.now failed.now complete self.new }
        ensures only { MarksOnly (ready_now plan.now starts.now failed.now complete) self.old self.new }
    {
        if self.is_fresh_at(complete) {
            return;
        }
        self.refresh(plan, order, starts, failed, complete);
    }

    /// Nothing may have become ready since all were looked at, but by an event that marked it.
    fn is_fresh_at(&self, complete: bool) -> bool
        ensures fresh { result ≡ true → self.now.fresh ≡ true }
        ensures complete { result ≡ true → self.now.complete ≡ complete }
    {
        self.fresh && self.is_at(complete)
    }

    /// All were looked at with bootstrapping as far as that.
    fn is_at(&self, complete: bool) -> bool
        ensures { result ≡ true → self.now.complete ≡ complete }
    {
        self.complete == complete
    }

    /// After a visit of the service: it is marked where it is ready by now, and where bootstrapping has
    /// become complete all are looked at.
    pub(crate) fn note(
        &mut self,
        plan: &Plan,
        order: &[u32],
        starts: &Starts,
        failed: &[bool],
        complete: bool,
        s: u32,
    )
        requires count { length self.old.counts.marks ≡ service_count plan.now }
        requires order { IsShortOrder order.now }
        requires service { s < service_count plan.now }
        requires sized { IsStartsSized plan.now starts.now }
        requires flags { length failed.now ≡ service_count plan.now }
        requires others { KnowsOthers plan.now starts.now failed.now self.old.complete s self.old }
        ensures opens { Opens order.now self.old self.new }
        ensures complete { self.new.complete ≡ complete }
        ensures ready { KnowsReady plan.now starts.now failed.now complete self.new }
        ensures only { MarksOnly (ready_now plan.now starts.now failed.now complete) self.old self.new }
    {
        if !self.is_at(complete) {
            self.refresh(plan, order, starts, failed, complete);
            return;
        }
        self.look_at(plan, order, starts, failed, complete, s);
    }
}
