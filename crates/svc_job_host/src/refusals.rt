//! Why a host of jobs isn't made.

use crate::plan::JobPlan;
use svc_base::NoMemory;
use svc_record::Item;
use thiserror::Error;

/// Why a host of jobs isn't made. The first of these that stands is answered, but for want of memory,
/// which may come instead of each.
#[derive(Clone, Copy, PartialEq, Eq, Debug, Error)]
pub enum JobError {
    /// There aren't as many jobs as plans.
    #[error("there aren't as many jobs as plans")]
    Unequal,
    /// There are more than 4,294,967,296 jobs: some have no number.
    #[error("there are more jobs than numbers for them")]
    TooMany,
    /// The plan with this index, from 0, is the first whose period is 0.
    #[error("the period of job {0} is 0")]
    ZeroPeriod(u64),
    /// There was no memory.
    #[error("out of memory")]
    NoMemory,
}

impl From<NoMemory> for JobError {
    ghost use Rattle.std.specs.Prelude.{◌≡◌};
    ghost use Rattle.svc_job_host.specs.declared.refusals.JobError.TheVariants as errors;

    ghost from_gives = { λ _ error. error ≡ errors.NoMemory };

    fn from(_: NoMemory) -> Self {
        JobError::NoMemory
    }
}

/// What a host wasn't made of comes back.
#[derive(Drop)]
pub struct JobRefused<J> {
    pub reason: JobError,
    pub plans: Vec<JobPlan>,
    pub jobs: Vec<J>,
    pub items: Vec<Item>,
}
