//! How a generation begins the next one.

use crate::generation::Generation;
use crate::generations::{Ground, News};
use crate::planning::{Planned, Stays, planned_newer};
use crate::refusal::Refusal;
use std::mem::drop;
use std::sync::Wait;
use svc_base::NoMemory;
use svc_system::{Handover, UpgradeAnswer};

/// What begins newer generations, of one that runs.
#[derive(Drop)]
pub(crate) struct Successors<'t, 'a, R: Wait> {
    ground: &'t Ground<'a, R>,
    stays: Stays,
    /// The number of the next one.
    next: u64,
}

/// Two handles of one way, for the older generation and for the newer one.
fn way(rt: &HostRuntime) -> Result<(Handover, Handover), NoMemory> {
    let older = Handover::new(rt.alloc())?;
    match older.share() {
        Ok(newer) => Ok((older, newer)),
        Err(NoMemory) => {
            drop(older);
            Err(NoMemory)
        }
    }
}

impl<'t, 'a, R: Wait> Successors<'t, 'a, R> {
    /// What begins those behind the generation with this number, of which this stays.
    pub(crate) fn new(ground: &'t Ground<'a, R>, stays: Stays, number: u64) -> Self {
        Successors {
            ground,
            stays,
            next: number.saturating_add(1),
        }
    }

    /// Opens what the next one needs, and hands it to the thread that starts it.
    fn hand(&mut self, planned: Planned) -> Result<Handover, Refusal> {
        let rt = self.ground.rt;
        let (older, newer) = match way(rt) {
            Ok(ways) => ways,
            Err(NoMemory) => {
                drop(planned);
                return Err(Refusal::memory());
            }
        };
        match Generation::newer(rt, self.next, planned, newer, &self.ground.log) {
            Ok(generation) => self.start(generation, older),
            Err(refusal) => {
                drop(older);
                Err(refusal)
            }
        }
    }

    /// Hands the next one to the thread that starts it.
    fn start(&mut self, generation: Generation<'a>, older: Handover) -> Result<Handover, Refusal> {
        match self
            .ground
            .to
            .send(self.ground.threads, News::Begin(generation))
        {
            Ok(()) => {
                self.next = self.next.saturating_add(1);
                Ok(older)
            }
            Err(error) => {
                drop(error);
                drop(older);
                Err(Refusal::memory())
            }
        }
    }

    /// Begins one that is run with the file at this path, where that is read, planned, and what it needs is open.
    pub(crate) fn begin(&mut self, file: &str) -> UpgradeAnswer {
        let begun = match planned_newer(self.ground.rt, file, &self.stays) {
            Ok(planned) => self.hand(planned),
            Err(refusal) => Err(refusal),
        };
        match begun {
            Ok(handover) => UpgradeAnswer::Begun(handover),
            Err(refusal) => refusal.answer(),
        }
    }
}
