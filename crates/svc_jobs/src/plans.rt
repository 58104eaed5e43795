//! What a host of jobs is made of.

ghost use Rattle.std.specs.Prelude.{◌≡◌, length, IfOk};
ghost use Rattle.svc_job_host.specs.Timetables.{periods_of};

use crate::quiet::QuietJob;
use std::alloc::Global;
use svc_base::{NoMemory, copy_items};
use svc_job_host::JobPlan;
use svc_text::ServiceLine;

/// The plan of a job with this period, of the line of its service.
fn plan_of(alloc: Global, line: &ServiceLine, every: u64) -> Result<JobPlan, NoMemory>
    ensures { IfOk result (λ plan. plan.every ≡ every) }
{
    Ok(JobPlan {
        name: line.name.copy(alloc)?,
        every,
        depends: copy_items(alloc, line.dependencies())?,
    })
}

/// The plans of the jobs with these periods, of the lines of their services.
pub(crate) fn plans_of(
    alloc: Global,
    lines: &[ServiceLine],
    periods: &[u64],
) -> Result<Vec<JobPlan>, NoMemory>
    requires { length lines.now ≡ length periods.now }
    ensures { IfOk result (λ plans. periods_of plans.items ≡ periods.now) }
{
    let mut plans = Vec::new(alloc);
    for s in 0..lines.len() {
        plans.push(plan_of(alloc, &lines[s], periods[s])?)?;
    }
    Ok(plans)
}

/// So many jobs.
pub(crate) fn quiet_jobs(alloc: Global, count: usize) -> Result<Vec<QuietJob>, NoMemory>
    ensures { IfOk result (λ jobs. length jobs.items ≡ count) }
{
    let mut jobs = Vec::new(alloc);
    for k in 0..count {
        jobs.push(QuietJob)?;
    }
    Ok(jobs)
}
