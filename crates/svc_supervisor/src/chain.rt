//! The chain: generations that take over one from the other.

ghost use Rattle.std.specs.Prelude.{◌≡◌, ◌<◌, ◌≤◌, false, true, IfOk, IfErr, OnOk, OnErr, length, slice_get, reverse, IfSome};
ghost use Rattle.svc_base.specs.Items.{list_of};
ghost use Rattle.svc_supervisor.specs.Chains.{Launches, Steps, AreClosed, finished_chain, BeginsChain};
ghost use Rattle.svc_supervisor.specs.Kept.{ChainKept};
ghost use Rattle.svc_supervisor.specs.Refusals.{IsFirstRefusal, IsLaunchRefusal, IsStepRefusal};

use crate::generation::{Generation, close_each};
use crate::places::{check_step, first_generation, next_generation, take_at};
use crate::refused::ChainRefused;
use std::alloc::Global;
use std::marker::Model;
use std::mem::drop;
use svc_base::NoMemory;
use svc_core::{Entries, Event, Plan, StepEnd};

/// Generations of one server, numbered from 0. Each but the first takes over from the one before it,
/// and the newest one waits for its successor.
#[derive(Drop)]
pub struct Chain {
    generations: Vec<Generation>,
    finished: bool,
}

impl Model for Chain {
    ghost use Rattle.svc_supervisor.specs.ChainData.{ChainData};
    ghost use Rattle.svc_supervisor.specs.Generations.{chain_of, IsChain};

    ghost Value = { ChainData };

    ghost view = { λ c. chain_of c.generations.items c.finished };

    ghost invariant = { λ c. IsChain c.generations.items c.finished };
}

impl Chain {
    /// A chain of one generation, which begins. A plan that isn't valid, or that has `test`, `daemon` or
    /// `upgrade` set, is refused (`BadPlan`).
    pub fn new(alloc: Global, first: Plan) -> Result<Chain, ChainRefused>
        ensures begun { IfOk result (λ chain. BeginsChain first chain.generations) }
        ensures open { IfOk result (λ chain. chain.finished ≡ false) }
        ensures kept { IfOk result (λ chain. ChainKept chain.generations) }
        ensures cause { IfErr result (IsFirstRefusal first) }
    {
        let generation = first_generation(alloc, first)?;
        let mut generations = Vec::new(alloc);
        match generations.push(generation) {
            Ok(()) => Ok(Chain {
                generations,
                finished: false,
            }),
            Err(refused) => {
                drop(refused);
                drop(generations);
                Err(ChainRefused::NoMemory(None))
            }
        }
    }

    /// How many generations have begun: from 1 to 64.
    pub fn generations(&self) -> u32
        ensures count { result ≡ length self.now.generations }
        ensures some { 0 < result }
        ensures few { result ≤ 64 }
    {
        self.generations.len() as u32
    }

    /// The record of a generation that has begun.
    pub fn entries(&self, generation: u32) -> &Entries
        requires begun { generation < length self.now.generations }
        ensures { IfSome (slice_get self.now.generations generation) (λ g. g.history ≡ reverse (list_of result.now)) }
    {
        self.generations[generation as usize].session.entries()
    }

    /// Begins the next generation, and answers its number. In this order: a plan that isn't valid, that has
    /// `test` or `daemon` set, or that hasn't `upgrade` set, is refused (`BadPlan`); so is one past the 64th
    /// generation (`TooMany`), and one while the newest generation hasn't taken over (`NotReady`).
    #[tactic(none)]
    pub fn launch(&mut self, alloc: Global, plan: Plan) -> Result<u32, ChainRefused>
        requires open { self.old.finished ≡ false }
        ensures launched { OnOk result (Launches self.old.generations self.new.generations plan) }
        ensures number { IfOk result (λ number. number ≡ length self.old.generations) }
        ensures open { self.new.finished ≡ false }
        ensures kept { ChainKept self.new.generations }
        ensures cause { IfErr result (IsLaunchRefusal self.old.generations plan) }
        ensures refused { OnErr result (self.new ≡ self.old) }
    {
        let number = self.generations.len() as u32;
        let generation = match next_generation(alloc, self.generations.as_slice(), plan) {
            Ok(generation) => generation,
            Err(refused) => return Err(refused),
        };
        match self.generations.push(generation) {
            Ok(()) => Ok(number),
            Err(refused) => {
                drop(refused);
                Err(ChainRefused::NoMemory(None))
            }
        }
    }

    /// One event for a generation, with the answer of the filter that it asks, if it asks one. In this order:
    /// no generation has the number (`UnknownGeneration`); a signal comes before the generation has taken
    /// over (`Early`); the event doesn't fit its record, or a channel to a neighbour doesn't allow it (`Stray`).
    #[tactic(none)]
    pub fn step(
        &mut self,
        alloc: Global,
        generation: u32,
        event: Event,
        said: bool,
    ) -> Result<StepEnd, ChainRefused>
        requires open { self.old.finished ≡ false }
        ensures steps { IfOk result (λ end. Steps self.old.generations self.new.generations generation event said end) }
        ensures open { self.new.finished ≡ false }
        ensures kept { ChainKept self.new.generations }
        ensures cause { IfErr result (IsStepRefusal self.old.generations generation event) }
        ensures refused { OnErr result (self.new ≡ self.old) }
    {
        let index = generation as usize;
        let event = match check_step(self.generations.as_slice(), index, event) {
            Ok(event) => event,
            Err(refused) => return Err(refused),
        };
        match take_at(self.generations.as_mut_slice(), index, alloc, event, said) {
            Ok(end) => Ok(end),
            Err(event) => Err(ChainRefused::NoMemory(Some(event))),
        }
    }

    /// Cuts each live connection and closes each open descriptor, of each generation in order. One that has
    /// served has none. After it no generation is launched or stepped. The room for it was taken before, so
    /// that memory is never refused.
    #[tactic(none)]
    pub fn finish(&mut self) -> Result<(), NoMemory>
        requires open { self.old.finished ≡ false }
        ensures finished { OnOk result (self.new ≡ finished_chain self.old) }
        ensures closed { OnOk result (AreClosed self.old.generations) }
        ensures refused { OnErr result (self.new ≡ self.old) }
    {
        close_each(self.generations.as_mut_slice());
        self.finished = true;
        Ok(())
    }
}
