//! What the generations of a chain are run by, as its blocks say.

ghost use Rattle.std.specs.Prelude.{◌≡◌, ◌<◌, ◌≤◌, ◌++◌, ◌∷◌, [], None, length, map, All, IfOk, IfErr, OnOk};
ghost use Rattle.std.specs.Option.{option_or};
ghost use Rattle.svc_text.specs.Dependencies.{RefusesNone};
ghost use Rattle.svc_generations.specs.BlockReadings.{IsBlock};
ghost use Rattle.svc_generations.specs.ChainPrograms.{AllSound};
ghost use Rattle.svc_generations.specs.Inputs.{block_parts_of};
ghost use Rattle.svc_generations.specs.PlanReadings.{HasPlan, HasPlans, MayServe, RefusesIn, RefusesLine};
ghost use Rattle.svc_supervisor.specs.Chains.{MayBegin};
ghost use Rattle.svc_generations.specs.Serving.{flags_of};

use crate::input::{Block, refused_behind};
use std::alloc::Global;
use std::mem::drop;
use svc_base::{Items, NoMemory};
use svc_conf::{Key, Opt};
use svc_main::{PlannedScript, plan_script};
use svc_record::Plan;
use svc_text::{ScriptError, ServiceLine};

/// The plans of the blocks, in order, with the services' lines of each, and the key of the first
/// configuration that is refused.
#[derive(Drop)]
pub(crate) struct Plans {
    pub plans: Items<Plan>,
    pub services: Items<Vec<ServiceLine>>,
    pub refused: Option<Key>,
}

/// The flags of a generation: each but the first takes over.
fn flags_of(later: bool) -> Opt
    ensures { result ≡ flags_of later }
{
    Opt {
        upgrade: later,
        daemon: false,
        nocapture: false,
        test: false,
        conf: None,
    }
}

/// What the server of a block is run by.
fn plan_block(alloc: Global, block: Block, later: bool) -> Result<PlannedScript, ScriptError>
    requires { IsBlock block }
    ensures plan { IfOk result (HasPlan later (block_parts_of block)) }
    ensures may { IfOk result (λ planned. planned.refused ≡ None → MayBegin later planned.plan) }
    ensures edges { OnOk result (RefusesNone block.script.services.items) }
    ensures refused { IfErr result (RefusesIn (block_parts_of block)) }
{
    let Block {
        script,
        text,
        before,
    } = block;
    drop(text);
    match plan_script(alloc, flags_of(later), script) {
        Ok(planned) => Ok(planned),
        Err(ScriptError::Line(n)) => Err(refused_behind(before, n)),
        Err(ScriptError::NoMemory) => Err(ScriptError::NoMemory),
    }
}

impl Plans {
    fn new(alloc: Global) -> Plans
        ensures plans { result.plans ≡ [] }
        ensures services { result.services ≡ [] }
        ensures refused { result.refused ≡ None }
    {
        Plans {
            plans: Items::new(alloc),
            services: Items::new(alloc),
            refused: None,
        }
    }

    /// Appends what one more server is run by.
    fn add(&mut self, alloc: Global, planned: PlannedScript) -> Result<(), NoMemory>
        ensures plans { OnOk result (self.new.plans ≡ self.old.plans ++ planned.plan ∷ []) }
        ensures services { OnOk result (self.new.services ≡ self.old.services ++ planned.services ∷ []) }
        ensures refused { OnOk result (self.new.refused ≡ option_or self.old.refused planned.refused) }
    {
        let PlannedScript {
            plan,
            services,
            refused,
        } = planned;
        match self.plans.push(alloc, plan) {
            Ok(()) => {}
            Err(back) => {
                drop(back);
                drop(services);
                return Err(NoMemory);
            }
        }
        match self.services.push(alloc, services) {
            Ok(()) => {}
            Err(back) => {
                drop(back);
                return Err(NoMemory);
            }
        }
        if self.refused.is_none() {
            self.refused = refused;
        }
        Ok(())
    }
}

/// The plans of the blocks. `Line` with the line of the first service whose dependencies are refused.
pub(crate) fn plans_of(alloc: Global, blocks: Items<Block>) -> Result<Plans, ScriptError>
    requires blocks { All IsBlock blocks }
    requires some { 0 < length blocks }
    requires few { length blocks ≤ 64 }
    ensures plans { IfOk result (HasPlans (map block_parts_of blocks)) }
    ensures may { IfOk result (λ plans. plans.refused ≡ None → MayServe plans.plans) }
    ensures edges { OnOk result (AllSound (map block_parts_of blocks)) }
    ensures refused { IfErr result (RefusesLine (map block_parts_of blocks)) }
{
    let mut plans = Plans::new(alloc);
    let mut blocks = blocks;
    while let Some(block) = blocks.pop_first() {
        let later = !plans.plans.is_empty();
        match plan_block(alloc, block, later) {
            Ok(planned) => match plans.add(alloc, planned) {
                Ok(()) => {}
                Err(NoMemory) => {
                    drop(plans);
                    drop(blocks);
                    return Err(ScriptError::NoMemory);
                }
            },
            Err(error) => {
                drop(plans);
                drop(blocks);
                return Err(error);
            }
        }
    }
    drop(blocks);
    Ok(plans)
}
