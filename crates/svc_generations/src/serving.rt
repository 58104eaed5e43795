//! The steps of a chain are taken, in order.

ghost use Rattle.std.specs.Prelude.{◌≡◌, List, [], slice_get, IfOk, OnOk};
ghost use Rattle.std.specs.Option.{option_copied};
ghost use Rattle.svc_generations.specs.declared.steps.Step.{Step};
ghost use Rattle.svc_generations.specs.declared.steps.Step.TheVariants as step_of;
ghost use Rattle.svc_generations.specs.Inputs.{BlockParts};
ghost use Rattle.svc_generations.specs.PlanReadings.{HasPlans, MayServe, lines_in};
ghost use Rattle.svc_generations.specs.Serving.{says, said_at, said_by};
ghost use Rattle.svc_generations.specs.Servings.{IsServing, IsOpen, TookOrNot, EndsAt};

use crate::outcome::StepRefusal;
use crate::plans::Plans;
use crate::steps::Step;
use std::alloc::Global;
use std::mem::drop;
use svc_base::{Items, NoMemory};
use svc_record::{Event, Plan};
use svc_socket::Peer;
use svc_supervisor::{Chain, ChainRefused};
use svc_text::{ServiceLine, is_blocked};

/// A chain that is being served: the plans that are left for further generations, and the services'
/// lines of each generation.
#[derive(Drop)]
pub(crate) struct Serving {
    pub chain: Chain,
    plans: Items<Plan>,
    services: Items<Vec<ServiceLine>>,
}

/// What the filter of a service says to a peer: no exactly where the service blocks the peer's address.
fn says(line: Option<&ServiceLine>, peer: Peer) -> bool
    ensures { result ≡ says (option_copied line.entry) peer }
{
    match (line, peer) {
        (Some(line), Peer::Inet(addr)) => !is_blocked(line.blocked.as_slice(), Some(addr)),
        (_, _) => true,
    }
}

/// What is said at the event.
fn said_at(services: &[ServiceLine], event: &Event) -> bool
    ensures { result ≡ said_at services.now event.now }
{
    match event {
        Event::Arrived(service, _, _, peer) => says(services.get(*service as usize), *peer),
        _ => true,
    }
}

/// The same of the generation with this number; yes where there is none.
fn said_to(services: &[Vec<ServiceLine>], generation: usize, event: &Event) -> bool
    ensures { result ≡ said_by (slice_get (lines_in services.now) generation) event.now }
{
    match services.get(generation) {
        Some(lines) => said_at(lines.as_slice(), event),
        None => true,
    }
}

impl Serving {
    /// The first generation begins. Since it can be run by its plan, only memory can be wanted.
    pub(crate) fn new(alloc: Global, plans: Plans) -> Result<Serving, NoMemory>
        requires { MayServe plans.plans }
        ensures serving { (blocks : List BlockParts) → HasPlans blocks plans → IfOk result (IsServing blocks []) }
        ensures open { IfOk result IsOpen }
    {
        let Plans {
            mut plans,
            services,
            refused: _,
        } = plans;
        let Some(first) = plans.pop_first() else {
            unreachable!()
        };
        match Chain::new(alloc, first) {
            Ok(chain) => Ok(Serving {
                chain,
                plans,
                services,
            }),
            Err(ChainRefused::NoMemory(event)) => {
                drop(event);
                drop(plans);
                drop(services);
                Err(NoMemory)
            }
            Err(_) => unreachable!(),
        }
    }

    /// Launches the next generation; or why it isn't launched. Since it can be run by its plan, and no
    /// chain has more than 64 plans, only memory can be wanted else.
    fn launch(&mut self, alloc: Global) -> Result<Option<StepRefusal>, NoMemory>
        requires open { IsOpen self.old }
        ensures took { (blocks : List BlockParts) (before : List Step) → IsServing blocks before self.old
            → IfOk result (TookOrNot blocks before step_of.Launch self.old self.new) }
        ensures open { OnOk result (IsOpen self.new) }
    {
        let Some(plan) = self.plans.pop_first() else {
            return Ok(Some(StepRefusal::NoMore));
        };
        match self.chain.launch(alloc, plan) {
            Ok(_) => Ok(None),
            Err(ChainRefused::NotReady(plan)) => {
                drop(plan);
                Ok(Some(StepRefusal::NotReady))
            }
            Err(ChainRefused::NoMemory(event)) => {
                drop(event);
                Err(NoMemory)
            }
            Err(_) => unreachable!(),
        }
    }

    /// Gives a generation an event; or why it doesn't get it.
    fn give(
        &mut self,
        alloc: Global,
        generation: u64,
        event: Event,
    ) -> Result<Option<StepRefusal>, NoMemory>
        requires open { IsOpen self.old }
        ensures took { (blocks : List BlockParts) (before : List Step) → IsServing blocks before self.old
            → IfOk result (TookOrNot blocks before (step_of.Event generation event) self.old self.new) }
        ensures open { OnOk result (IsOpen self.new) }
    {
        if generation >= self.chain.generations() as u64 {
            drop(event);
            return Ok(Some(StepRefusal::Unknown));
        }
        let number = generation as u32;
        let said = said_to(self.services.as_slice(), number as usize, &event);
        match self.chain.step(alloc, number, event, said) {
            Ok(_) => Ok(None),
            Err(ChainRefused::Early(event)) => {
                drop(event);
                Ok(Some(StepRefusal::Early))
            }
            Err(ChainRefused::Stray(event)) => {
                drop(event);
                Ok(Some(StepRefusal::Stray))
            }
            Err(ChainRefused::NoMemory(event)) => {
                drop(event);
                Err(NoMemory)
            }
            Err(_) => unreachable!(),
        }
    }

    /// One step; or why it isn't taken.
    fn take(&mut self, alloc: Global, step: &Step) -> Result<Option<StepRefusal>, NoMemory>
        requires open { IsOpen self.old }
        ensures took { (blocks : List BlockParts) (before : List Step) → IsServing blocks before self.old
            → IfOk result (TookOrNot blocks before step.now self.old self.new) }
        ensures open { OnOk result (IsOpen self.new) }
    {
        match step {
            Step::Launch => self.launch(alloc),
            Step::Event(generation, event) => self.give(alloc, *generation, event.copy(alloc)?),
        }
    }

    /// The steps in order, up to the first that isn't taken: its number, from 1, and why.
    pub(crate) fn take_all(
        &mut self,
        alloc: Global,
        steps: &[Step],
    ) -> Result<Option<(u64, StepRefusal)>, NoMemory>
        requires open { IsOpen self.old }
        ensures ends { (blocks : List BlockParts) → IsServing blocks [] self.old → IfOk result (λ end. EndsAt blocks steps.now self.new end) }
        ensures open { OnOk result (IsOpen self.new) }
    {
        for k in 0..steps.len() {
            if let Some(refusal) = self.take(alloc, &steps[k])? {
                return Ok(Some((k as u64 + 1, refusal)));
            }
        }
        Ok(None)
    }
}
