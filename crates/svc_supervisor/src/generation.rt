//! A generation of a chain: a session, with what of its handovers is done.

ghost use Rattle.std.specs.Prelude.{◌≡◌, map, IsTrue, IfOk, IfErr, OnErr, None};
ghost use Rattle.std.specs.Option.{option_copied, option_map};
ghost use Rattle.svc_record.specs.Validity.{IsValid};
ghost use Rattle.svc_core.specs.Stands.{MayCome};
ghost use Rattle.svc_supervisor.specs.Chains.{may_come, before_may, channel_to, closed, AreClosed};
ghost use Rattle.svc_supervisor.specs.Generations.{Begins, Takes, Stands, IsClosed, EachStands, AllStand, data_of};

use crate::marks::{Marks, channel_between};
use std::alloc::Global;
use svc_base::NoMemory;
use svc_core::{Event, Plan, StepEnd};
use svc_handover::ChannelState;
use svc_handover::addresses::read_addresses;
use svc_handover::channel::{new_may, old_may};
use svc_session::Session;

/// A core that has begun, with its record, and what of its handovers is done.
#[derive(Drop)]
pub(crate) struct Generation {
    pub(crate) session: Session,
    pub(crate) marks: Marks,
}

impl Generation {
    /// The server of the plan begins.
    pub(crate) fn begin(alloc: Global, plan: Plan) -> Result<Generation, NoMemory>
        requires valid { IsValid plan }
        ensures begins { IfOk result (Begins plan) }
    {
        read_addresses(&plan);
        let session = Session::begin(alloc, plan)?;
        let marks = Marks::new().after(session.entries().as_slice());
        Ok(Generation { session, marks })
    }

    /// One event, which may come. Where memory is refused it comes back, and nothing has changed.
    pub(crate) fn take(&mut self, alloc: Global, event: Event, said: bool) -> Result<StepEnd, Event>
        requires may { MayCome self.old.session.core event }
        ensures takes { IfOk result (λ end. Takes self.old self.new event said end) }
        ensures back { IfErr result (λ back. back ≡ event) }
        ensures refused { OnErr result (self.new ≡ self.old) }
    {
        let before = self.session.entries().len() as usize;
        match self.session.step(alloc, event, said) {
            Ok(end) => {
                let added = &self.session.entries().as_slice()[before..];
                self.marks = self.marks.after(added);
                Ok(end)
            }
            Err(event) => Err(event),
        }
    }

    /// Cuts each live connection and closes each open descriptor.
    fn close(&mut self)
        requires stands { Stands self.old }
        ensures closed { IsClosed self.old self.new }
    {
        self.session.close();
    }
}

/// Closes all that is open in each generation.
pub(crate) fn close_each(generations: &mut [Generation])
    requires stand { EachStands generations.old }
    ensures closed { map data_of generations.new ≡ map closed (map data_of generations.old) }
    ensures whole { AreClosed (map data_of generations.old) }
{
    for generation in generations.iter_mut() {
        generation.close();
    }
}

/// Whether the event may come to the generation between these two: it fits its record, and both
/// channels allow it.
#[tactic(none)]
pub(crate) fn may_come(
    before: Option<&Generation>,
    generation: &Generation,
    next: Option<&Generation>,
    event: &Event,
) -> bool
    ensures may { IsTrue result → MayCome generation.now.session.core event.now }
    ensures means { AllStand (option_copied before.entry) generation.now (option_copied next.entry)
        → result ≡ may_come (option_map data_of (option_copied before.entry)) (data_of generation.now)
        (option_map data_of (option_copied next.entry)) event.now }
{
    if !generation.session.fits(event) {
        return false;
    }
    if !before_may(before, generation, event) {
        return false;
    }
    old_may(channel_to(generation, next), event)
}

fn before_may(before: Option<&Generation>, generation: &Generation, event: &Event) -> bool
    ensures { AllStand (option_copied before.entry) generation.now None
        → result ≡ before_may (option_map data_of (option_copied before.entry)) (data_of generation.now) event.now }
{
    let Some(old) = before else {
        return true;
    };
    new_may(
        channel_between(old.marks, generation.marks),
        old.session.entries().as_slice(),
        event,
    )
}

/// How far the handover to the next generation has come.
fn channel_to(generation: &Generation, next: Option<&Generation>) -> ChannelState
    ensures { AllStand None generation.now (option_copied next.entry)
        → result ≡ channel_to (data_of generation.now) (option_map data_of (option_copied next.entry)) }
{
    match next {
        Some(new) => channel_between(generation.marks, new.marks),
        None => ChannelState::Missing,
    }
}
