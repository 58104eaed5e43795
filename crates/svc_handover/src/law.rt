//! The law of a handover between two cores.

ghost use Rattle.std.specs.Prelude.{◌≡◌, ℕ, IfOk, Err};
ghost use Rattle.svc_base.specs.Items.{list_of};
ghost use Rattle.svc_record.specs.Validity.{IsValid};
ghost use Rattle.svc_handover.specs.Law.{Gives, RefusesAt};

use crate::pair::{PairRefused, PairRun, PairStep};
use crate::servers::Servers;
use std::alloc::Global;
use std::mem::drop;
use svc_base::NoMemory;
use svc_core::Plan;

/// Runs an old and a new server through the schedule, whose steps are events for one of them, in
/// order, and answers both records and the channel.
///
/// The servers begin, the old one first. Each step has to fit its server's record and the channel
/// between them; the first that doesn't is refused by its number, from one (`Stray`). No call waits,
/// and no socket is touched: the schedule says what the system answers.
pub fn handover_law(
    alloc: Global,
    old: Plan,
    new: Plan,
    schedule: &[PairStep],
) -> Result<PairRun, PairRefused>
    requires old_valid { IsValid old }
    requires new_valid { IsValid new }
    ensures hands_over { IfOk result (λ run. Gives old new schedule.now (list_of run.old) (list_of run.new) run.channel) }
    ensures stray { (k : ℕ) → result ≡ Err (PairRefused.Stray k) → RefusesAt old new schedule.now k }
{
    let mut servers = match Servers::begin(alloc, old, new) {
        Ok(servers) => servers,
        Err(NoMemory) => return Err(PairRefused::NoMemory),
    };
    for (index, step) in schedule.iter().enumerate() {
        if !servers.allows(step) {
            drop(servers);
            return Err(PairRefused::Stray(index as u64 + 1));
        }
        let Ok(()) = servers.take(alloc, step) else {
            drop(servers);
            return Err(PairRefused::NoMemory);
        };
    }
    Ok(servers.into_run())
}
