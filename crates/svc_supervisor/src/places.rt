//! A generation among its neighbours, and after them.

ghost use Rattle.std.specs.Prelude.{◌≡◌, ◌<◌, ◌≤◌, suc, true, false, length, map, slice_get, IsTrue, IfSome, IfOk, IfErr, OnOk, OnErr, MatchBool};
ghost use Rattle.std.specs.Option.{option_copied};
ghost use Rattle.svc_record.specs.declared.entry.Entry.TheVariants.{Got};
ghost use Rattle.svc_record.specs.Record.{is_signal};
ghost use Rattle.svc_core.specs.Stands.{MayCome};
ghost use Rattle.svc_supervisor.specs.Chains.{has_taken_at, may_come_at, is_early, generation_before, MayBegin, Steps};
ghost use Rattle.svc_supervisor.specs.Refusals.{IsFirstRefusal, IsLaunchRefusal, IsStepRefusal};
ghost use Rattle.svc_supervisor.specs.Generations.{Begins, Linked, MayStep, MayLaunch, data_of};

use crate::generation::{Generation, may_come};
use crate::refused::ChainRefused;
use std::alloc::Global;
use svc_base::NoMemory;
use svc_core::{Event, Plan, StepEnd};

/// Whether the generation with this number has taken over from the one before it. The first takes nothing over.
fn has_taken_at(generations: &[Generation], index: usize) -> bool
    requires begun { index < length generations.now }
    ensures { Linked generations.now → result ≡ has_taken_at (map data_of generations.now) index }
{
    index == 0 || generations[index].marks.taken
}

fn is_signal(event: &Event) -> bool
    ensures { result ≡ is_signal (Got event.now) }
{
    matches!(event, Event::Signal(_))
}

/// The generation before the one with this number, if there is one.
fn generation_before(generations: &[Generation], index: usize) -> Option<&Generation>
    ensures { option_copied result ≡ generation_before generations.now index }
{
    if index == 0 {
        return None;
    }
    generations.get(index - 1)
}

/// The generation after the one with this number, if there is one.
fn generation_after(generations: &[Generation], index: usize) -> Option<&Generation>
    requires { index < length generations.now }
    ensures { option_copied result ≡ slice_get generations.now (suc index) }
{
    generations.get(index + 1)
}

/// Whether the event may come to the generation with this number.
fn may_come_at(generations: &[Generation], index: usize, event: &Event) -> bool
    requires begun { index < length generations.now }
    ensures may { IsTrue result → IfSome (slice_get generations.now index) (λ g. MayCome g.session.core event.now) }
    ensures means { Linked generations.now → result ≡ may_come_at (map data_of generations.now) index event.now }
{
    let before = generation_before(generations, index);
    let next = generation_after(generations, index);
    may_come(before, &generations[index], next, event)
}

/// A signal comes to the generation with this number before it has taken over.
fn is_early(generations: &[Generation], index: usize, event: &Event) -> bool
    requires begun { index < length generations.now }
    ensures { Linked generations.now → result ≡ is_early (map data_of generations.now) index event.now }
{
    if is_signal(event) {
        !has_taken_at(generations, index)
    } else {
        false
    }
}

/// The event, where it may come to the generation with this number; else why it may not.
pub(crate) fn check_step(
    generations: &[Generation],
    index: usize,
    event: Event,
) -> Result<Event, ChainRefused>
    ensures may { IfOk result (λ e. MayStep generations.now index e) }
    ensures back { IfOk result (λ e. e ≡ event) }
    ensures cause { IfErr result (λ refused. Linked generations.now → IsStepRefusal (map data_of generations.now) index event refused) }
{
    if index >= generations.len() {
        return Err(ChainRefused::UnknownGeneration(event));
    }
    if is_early(generations, index, &event) {
        return Err(ChainRefused::Early(event));
    }
    if !may_come_at(generations, index, &event) {
        return Err(ChainRefused::Stray(event));
    }
    Ok(event)
}

/// The generation with this number takes the event, which may come to it. Where memory is refused the event
/// comes back, and nothing has changed.
pub(crate) fn take_at(
    generations: &mut [Generation],
    index: usize,
    alloc: Global,
    event: Event,
    said: bool,
) -> Result<StepEnd, Event>
    requires may { MayStep generations.old index event }
    ensures linked { Linked generations.old → Linked generations.new }
    ensures takes { IfOk result (λ end. Linked generations.old → Steps (map data_of generations.old) (map data_of generations.new) index event said end) }
    ensures back { IfErr result (λ back. back ≡ event) }
    ensures same { OnErr result (map data_of generations.new ≡ map data_of generations.old) }
{
    generations[index].take(alloc, event, said)
}

/// Whether a generation can be run by the plan, as the first one or as a later one.
fn may_begin(alloc: Global, plan: &Plan, later: bool) -> Result<bool, NoMemory>
    ensures { IfOk result (λ may. MatchBool may (MayBegin later plan.now) (MayBegin later plan.now → ⊥)) }
{
    if plan.test || plan.daemon || plan.upgrade != later {
        return Ok(false);
    }
    plan.valid(alloc)
}

/// The first generation of a chain.
pub(crate) fn first_generation(alloc: Global, plan: Plan) -> Result<Generation, ChainRefused>
    ensures begins { IfOk result (Begins plan) }
    ensures may { OnOk result (MayBegin false plan) }
    ensures cause { IfErr result (IsFirstRefusal plan) }
{
    match may_begin(alloc, &plan, false) {
        Ok(true) => {}
        Ok(false) => return Err(ChainRefused::BadPlan(plan)),
        Err(NoMemory) => return Err(ChainRefused::NoMemory(None)),
    }
    match Generation::begin(alloc, plan) {
        Ok(generation) => Ok(generation),
        Err(NoMemory) => Err(ChainRefused::NoMemory(None)),
    }
}

/// The generation after these.
pub(crate) fn next_generation(
    alloc: Global,
    generations: &[Generation],
    plan: Plan,
) -> Result<Generation, ChainRefused>
    requires some { 0 < length generations.now }
    requires few { length generations.now ≤ 64 }
    ensures may { IfOk result (MayLaunch generations.now plan) }
    ensures cause { IfErr result (λ refused. Linked generations.now → IsLaunchRefusal (map data_of generations.now) plan refused) }
{
    match may_begin(alloc, &plan, true) {
        Ok(true) => {}
        Ok(false) => return Err(ChainRefused::BadPlan(plan)),
        Err(NoMemory) => return Err(ChainRefused::NoMemory(None)),
    }
    if generations.len() >= 64 {
        return Err(ChainRefused::TooMany(plan));
    }
    if !has_taken_at(generations, generations.len() - 1) {
        return Err(ChainRefused::NotReady(plan));
    }
    match Generation::begin(alloc, plan) {
        Ok(generation) => Ok(generation),
        Err(NoMemory) => Err(ChainRefused::NoMemory(None)),
    }
}
