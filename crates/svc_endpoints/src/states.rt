//! What became of endpoints.

ghost use Rattle.std.specs.Prelude.{◌≡◌, ◌<◌, ◌≤◌, [], length, ℕ, true, false, slice_index_or, slice_set, vec_len, IfOk, IfSome, ◌+◌, ◌^◌, ◌≢◌};
ghost use Rattle.std.specs.Option.{option_to_list};
ghost use Rattle.svc_record.specs.declared.plan.Plan.{Plan};
ghost use Rattle.svc_record.specs.Plans.{service_count, endpoints};
ghost use Rattle.svc_moments.specs.Least.{EndsAt};
ghost use Rattle.svc_endpoints.specs.declared.states.EndpointStatus.TheVariants.{Idle};
ghost use Rattle.svc_endpoints.specs.EndpointsState.{idle, fd_of, is_binding, is_adopting, is_asking, is_holding};
ghost use Rattle.svc_endpoints.specs.Effects.{held_now};
ghost use Rattle.svc_endpoints.specs.Visits.{busy_of};
ghost use Rattle.svc_endpoints.specs.Calm.{IsCalm, IsRowCalm};

use crate::naming::{endpoint_count, service_count};
use std::alloc::Global;
use std::marker::Model;
use svc_base::NoMemory;
use svc_record::Plan;

/// How long an endpoint rests after its address was in use, in milliseconds.
const REST: u64 = 1000;

/// What became of an endpoint last.
#[derive(Clone, Copy, Drop)]
pub(crate) enum EndpointStatus {
    /// It isn't asked for, or its bind failed, or what it brought was closed again.
    Idle,
    /// A bind is open.
    Binding,
    /// Its address was in use at this moment, in milliseconds.
    AddressInUse(u64),
    /// This descriptor is offered to it.
    Adopting(u64),
    /// This descriptor holds it.
    Holding(u64),
    /// It couldn't take what it was offered.
    AdoptionFailed,
}

/// An endpoint's state.
#[derive(Clone, Copy, Drop)]
pub(crate) struct EndpointState {
    pub last: EndpointStatus,
    /// How often its address was in use while no live descriptor had it.
    pub times_in_use: u32,
}

/// The states of one service's endpoints; beside them how many are surely held from the first on, and from
/// which on none was asked for yet. Contracts see the states alone.
#[derive(Drop)]
pub(crate) struct Row {
    states: Vec<EndpointState>,
    held: usize,
    touched: usize,
}

impl Model for Row {
    ghost use Rattle.std.specs.Prelude.{List};
    ghost use Rattle.svc_endpoints.specs.declared.states.EndpointState.{EndpointState};
    ghost use Rattle.svc_endpoints.specs.Rows.{IsRowKept};

    ghost Value = { List EndpointState };

    ghost view = { λ r. r.states.items };

    ghost invariant = { λ r. IsRowKept r.states.items r.held r.touched };
}

/// How many are surely held from the first on, as the endpoint at this place becomes held or not.
fn held_after(held: usize, at: usize, holding: bool) -> usize
    requires { at < 2 ^ 60 }
    ensures before { (k : ℕ) → k < result → k ≢ at → k < held }
    ensures there { at < result → holding ≡ true }
    ensures small { result ≤ held + 1 }
    ensures next { held < result → at ≡ held }
{
    if holding && at == held {
        return held + 1;
    }
    if !holding && at < held {
        return at;
    }
    held
}

impl Row {
    /// Nothing is known of so many endpoints.
    pub(crate) fn new(alloc: Global, count: usize) -> Result<Row, NoMemory>
        ensures blank { IfOk result (λ row. (i : ℕ) → slice_index_or row i idle ≡ idle) }
        ensures size { IfOk result (λ row. length row ≡ count) }
    {
        let state = EndpointState {
            last: EndpointStatus::Idle,
            times_in_use: 0,
        };
        let states = vec![in alloc; state; count]?;
        Ok(Row {
            states,
            held: 0,
            touched: 0,
        })
    }

    pub(crate) fn len(&self) -> usize
        ensures { result ≡ length self.now }
    {
        self.states.len()
    }

    pub(crate) fn get(&self, i: usize) -> EndpointState
        requires { i < length self.now }
        ensures { (d : EndpointState) → result ≡ slice_index_or self.now i d }
    {
        self.states[i]
    }

    pub(crate) fn set(&mut self, i: usize, state: EndpointState)
        requires { i < length self.old }
        ensures { self.new ≡ slice_set self.old i state }
    {
        self.held = held_after(self.held, i, is_holding(state.last));
        self.touched = self.touched.max(i + 1);
        self.states[i] = state;
    }

    /// The endpoints that may be asked for, or rest: those before the first number are held, and of those
    /// from the second on nothing is known.
    pub(crate) fn open_range(&self) -> (usize, usize)
        ensures before { (k : ℕ) → k < result.0 → is_holding (slice_index_or self.now k idle).last ≡ true }
        ensures after { (k : ℕ) → result.1 ≤ k → (slice_index_or self.now k idle).last ≡ Idle }
    {
        (self.held, self.touched)
    }

    /// One of the endpoints is busy with its address at some moment, if nothing changes.
    pub(crate) fn is_ever_busy(&self, failed: bool) -> bool
        ensures { result ≡ false → IsRowCalm failed self.now }
    {
        let (from, touched) = self.open_range();
        for k in from..touched.min(self.states.len()) {
            if is_ever_busy(failed, self.get(k).last) {
                return true;
            }
        }
        false
    }

    /// The first endpoint that isn't held, else their number.
    pub(crate) fn first_missing(&self) -> u32
        requires few { length self.now ≤ 64 }
        ensures within { result ≤ length self.now }
        ensures missing { result < length self.now → is_holding (slice_index_or self.now result idle).last ≡ false }
        ensures earlier { (k : ℕ) → k < result → is_holding (slice_index_or self.now k idle).last ≡ true }
    {
        for i in self.held..self.states.len() {
            if !is_holding(self.states[i].last) {
                return i as u32;
            }
        }
        self.states.len() as u32
    }
}

/// A row for each service, with no endpoint asked for.
pub(crate) fn new_rows(alloc: Global, plan: &Plan) -> Result<Vec<Row>, NoMemory>
    ensures blank { IfOk result (λ rows. (s i : ℕ) → slice_index_or (slice_index_or rows.items s []) i idle ≡ idle) }
    ensures services { IfOk result (λ rows. vec_len rows ≡ service_count plan.now) }
    ensures each { IfOk result (λ rows. (s : ℕ) → s < service_count plan.now → length (slice_index_or rows.items s []) ≡ length (endpoints plan.now s)) }
{
    let mut rows = Vec::new(alloc);
    for s in 0..service_count(plan) {
        let row = Row::new(alloc, endpoint_count(plan, s))?;
        match rows.push(row) {
            Ok(()) => {}
            Err(_) => return Err(NoMemory),
        }
    }
    Ok(rows)
}

/// No service has failed.
pub(crate) fn new_flags(alloc: Global, count: usize) -> Result<Vec<bool>, NoMemory>
    ensures blank { IfOk result (λ flags. (i : ℕ) → slice_index_or flags.items i false ≡ false) }
    ensures size { IfOk result (λ flags. vec_len flags ≡ count) }
{
    let flags = vec![in alloc; false; count]?;
    Ok(flags)
}

pub(crate) fn is_binding(last: EndpointStatus) -> bool
    ensures { result ≡ is_binding last }
{
    match last {
        EndpointStatus::Binding => true,
        _ => false,
    }
}

pub(crate) fn is_adopting(last: EndpointStatus) -> bool
    ensures { result ≡ is_adopting last }
{
    match last {
        EndpointStatus::Adopting(_) => true,
        _ => false,
    }
}

pub(crate) fn is_asking(last: EndpointStatus) -> bool
    ensures { result ≡ is_asking last }
{
    match last {
        EndpointStatus::Binding | EndpointStatus::Adopting(_) => true,
        _ => false,
    }
}

pub(crate) fn is_holding(last: EndpointStatus) -> bool
    ensures { result ≡ is_holding last }
{
    match last {
        EndpointStatus::Holding(_) => true,
        _ => false,
    }
}

/// The descriptor that it has or is offered.
pub(crate) fn fd_of(last: EndpointStatus) -> Option<u64>
    ensures { option_to_list result ≡ fd_of last }
{
    match last {
        EndpointStatus::Adopting(fd) | EndpointStatus::Holding(fd) => Some(fd),
        _ => None,
    }
}

/// An ask is open, or the endpoint of a service that hasn't failed rests.
pub(crate) fn is_busy(failed: bool, moment: u64, last: EndpointStatus) -> bool
    ensures { result ≡ busy_of failed moment last }
{
    match last {
        EndpointStatus::Binding | EndpointStatus::Adopting(_) => true,
        EndpointStatus::AddressInUse(at) => !failed && moment.saturating_sub(at) < REST,
        _ => false,
    }
}

/// The same at some moment.
fn is_ever_busy(failed: bool, last: EndpointStatus) -> bool
    ensures { result ≡ false → IsCalm failed last }
{
    match last {
        EndpointStatus::Binding | EndpointStatus::Adopting(_) => true,
        EndpointStatus::AddressInUse(_) => !failed,
        _ => false,
    }
}

/// The last moment of the rest that lasts at this one.
pub(crate) fn rest_end(moment: u64, last: EndpointStatus) -> Option<u64>
    ensures lasts { IfSome result (λ end. moment ≤ end) }
    ensures busy { IfSome result (λ end. (m : ℕ) → m ≤ end → busy_of false m last ≡ true) }
{
    match last {
        EndpointStatus::AddressInUse(at) => {
            if moment.saturating_sub(at) < REST {
                Some(at.saturating_add(REST - 1))
            } else {
                None
            }
        }
        _ => None,
    }
}

/// The moment from which on the endpoint isn't busy, in milliseconds: never while an ask of it is open,
/// and after the rest of a service that hasn't failed.
pub(crate) fn busy_end(failed: bool, last: EndpointStatus) -> Option<u64>
    ensures { EndsAt (λ t. busy_of failed t last) result }
{
    match last {
        EndpointStatus::Binding | EndpointStatus::Adopting(_) => None,
        EndpointStatus::AddressInUse(at) if !failed => svc_moments::rest_end(at, REST),
        _ => Some(0),
    }
}

/// What is offered is held.
pub(crate) fn held_now(last: EndpointStatus) -> EndpointStatus
    ensures { result ≡ held_now last }
{
    match last {
        EndpointStatus::Adopting(fd) => EndpointStatus::Holding(fd),
        other => other,
    }
}
