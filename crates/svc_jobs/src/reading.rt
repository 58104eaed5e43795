//! What a text of jobs says.

ghost use Rattle.std.specs.Prelude.{◌≡◌, length, IfOk};
ghost use Rattle.svc_text.specs.Accepted.{AreAccepted};
ghost use Rattle.svc_text.specs.Script.{AreLines};
ghost use Rattle.svc_job_host.specs.JobHosts.{AreJobItems};
ghost use Rattle.svc_jobs.specs.JobTexts.{ArePeriods, script_lines, jobs_in};
ghost use Rattle.svc_jobs.specs.JobReadings.{GivesJobs};

use crate::script_text::{ScriptText, script_text};
use std::alloc::Global;
use svc_text::{Script, ScriptError, parse};

/// What a text of jobs says.
#[derive(Drop)]
pub(crate) struct JobsText {
    /// The configuration, the services of the jobs, the items, and the number of each job's line.
    pub script: Script,
    /// The jobs' periods, in milliseconds.
    pub periods: Vec<u64>,
}

/// What the bytes say of jobs, or the first refused line.
pub(crate) fn read_jobs(alloc: Global, bytes: &[u8]) -> Result<JobsText, ScriptError>
    ensures parts { GivesJobs result (jobs_in bytes.now) }
    ensures accepted { IfOk result (λ t. AreAccepted t.script.services.items) }
    ensures sized { IfOk result (λ t. length t.script.services.items ≡ length t.periods.items) }
    ensures paced { IfOk result (λ t. ArePeriods t.periods.items) }
    ensures items { IfOk result (λ t. AreJobItems t.script.items) }
    ensures numbers { IfOk result (λ t. AreLines (script_lines bytes.now) (length t.script.services.items) t.script.lines.items) }
{
    let Ok(ScriptText { text, periods, .. }) = script_text(alloc, bytes) else {
        return Err(ScriptError::NoMemory);
    };
    match parse(alloc, &text) {
        Ok(script) => Ok(JobsText { script, periods }),
        Err(error) => Err(error),
    }
}
