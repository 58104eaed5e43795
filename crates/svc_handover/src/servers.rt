//! The two servers of a handover, and how far it has come.

ghost use Rattle.std.specs.Prelude.{◌≡◌, ◌&&◌, List, [], true, false, IsTrue, IfOk, OnOk};
ghost use Rattle.svc_base.specs.Items.{list_of};
ghost use Rattle.svc_record.specs.declared.plan.Plan.{Plan};
ghost use Rattle.svc_record.specs.Fits.{fits};
ghost use Rattle.svc_record.specs.Validity.{IsValid};
ghost use Rattle.svc_core.specs.Stands.{MayCome};
ghost use Rattle.svc_handover.specs.declared.pair.PairStep.{PairStep};
ghost use Rattle.svc_handover.specs.Channel.{old_may, new_may};
ghost use Rattle.svc_handover.specs.Pair.{is_allowed};
ghost use Rattle.svc_handover.specs.Runs.{Runs, Grows, MayTake, TakesStep};

use crate::addresses::read_addresses;
use crate::channel::{after_new, after_old, after_told, new_may, old_may};
use crate::pair::{ChannelState, PairRun, PairStep};
use std::alloc::Global;
use std::mem::drop;
use svc_base::NoMemory;
use svc_core::{Event, Plan};
use svc_session::Session;

/// Both servers, which have begun.
#[derive(Drop)]
pub struct Servers {
    pub predecessor: Session,
    pub successor: Session,
    pub channel: ChannelState,
}

/// One step of the one of them that it is for.
fn step_one(server: &mut Session, alloc: Global, step: &PairStep) -> Result<(), NoMemory>
    requires may { MayCome server.old.core step.now.event }
    ensures takes { OnOk result (TakesStep server.old server.new step.now) }
{
    let event = step.event.copy(alloc)?;
    match server.step(alloc, event, step.said) {
        Ok(_) => Ok(()),
        Err(event) => {
            drop(event);
            Err(NoMemory)
        }
    }
}

impl Servers {
    /// Both servers begin.
    pub(crate) fn begin(alloc: Global, old: Plan, new: Plan) -> Result<Servers, NoMemory>
        requires old_valid { IsValid old }
        requires new_valid { IsValid new }
        ensures begins { IfOk result (λ servers. Runs old new [] servers) }
    {
        read_addresses(&old);
        let predecessor = match Session::begin(alloc, old) {
            Ok(predecessor) => predecessor,
            Err(NoMemory) => {
                drop(new);
                return Err(NoMemory);
            }
        };
        let successor = match Session::begin(alloc, new) {
            Ok(successor) => successor,
            Err(NoMemory) => {
                drop(predecessor);
                return Err(NoMemory);
            }
        };
        let channel = after_told(successor.entries().as_slice(), ChannelState::Missing);
        Ok(Servers {
            predecessor,
            successor,
            channel,
        })
    }

    /// Whether the step may come: its event fits its server's record, and the channel allows it.
    pub(crate) fn allows(&self, step: &PairStep) -> bool
        ensures may { IsTrue result → MayTake self.now step.now }
        ensures means { (p n : Plan) (before : List PairStep) → (runs : Runs p n before self.now)
            → result ≡ is_allowed p n runs.world step.now }
    {
        if step.old {
            self.allows_old(&step.event)
        } else {
            self.allows_new(&step.event)
        }
    }

    fn allows_old(&self, event: &Event) -> bool
        ensures may { IsTrue result → MayCome self.now.predecessor.core event.now }
        ensures means { (p n : Plan) (before : List PairStep) → (runs : Runs p n before self.now)
            → result ≡ (fits p runs.world.old event.now && old_may runs.world.channel event.now) }
    {
        self.predecessor.fits(event) && old_may(self.channel, event)
    }

    fn allows_new(&self, event: &Event) -> bool
        ensures may { IsTrue result → MayCome self.now.successor.core event.now }
        ensures means { (p n : Plan) (before : List PairStep) → (runs : Runs p n before self.now)
            → result ≡ (fits n runs.world.new event.now
            && new_may runs.world.channel runs.world.old event.now) }
    {
        self.successor.fits(event)
            && new_may(self.channel, self.predecessor.entries().as_slice(), event)
    }

    /// One step, which may come.
    pub(crate) fn take(&mut self, alloc: Global, step: &PairStep) -> Result<(), NoMemory>
        requires may { MayTake self.old step.now }
        ensures grows { OnOk result (Grows self.old self.new step.now) }
    {
        if step.old {
            self.take_old(alloc, step)
        } else {
            self.take_new(alloc, step)
        }
    }

    fn take_old(&mut self, alloc: Global, step: &PairStep) -> Result<(), NoMemory>
        requires side { step.now.old ≡ true }
        requires may { MayCome self.old.predecessor.core step.now.event }
        ensures grows { OnOk result (Grows self.old self.new step.now) }
    {
        step_one(&mut self.predecessor, alloc, step)?;
        self.channel = after_old(&step.event, self.channel);
        Ok(())
    }

    fn take_new(&mut self, alloc: Global, step: &PairStep) -> Result<(), NoMemory>
        requires side { step.now.old ≡ false }
        requires may { MayCome self.old.successor.core step.now.event }
        ensures grows { OnOk result (Grows self.old self.new step.now) }
    {
        let before = self.successor.entries().len() as usize;
        step_one(&mut self.successor, alloc, step)?;
        let channel = after_new(&step.event, self.channel);
        self.channel = after_told(&self.successor.entries().as_slice()[before..], channel);
        Ok(())
    }

    /// Both records, and the channel.
    pub(crate) fn into_run(self) -> PairRun
        ensures old { list_of result.old ≡ self.predecessor.entries }
        ensures new { list_of result.new ≡ self.successor.entries }
        ensures channel { result.channel ≡ self.channel }
    {
        let Servers {
            predecessor,
            successor,
            channel,
        } = self;
        PairRun {
            old: predecessor.into_entries(),
            new: successor.into_entries(),
            channel,
        }
    }
}
