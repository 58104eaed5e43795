//! Jobs that stand in a file of their own, without a configuration and items.

ghost use Rattle.std.specs.Prelude.{◌≡◌, ◌≤◌, ℕ, length, slice_index, IfOk, IfErr, OnOk};
ghost use Rattle.svc_text.specs.declared.parsing.ScriptError.TheVariants as errors;
ghost use Rattle.svc_text.specs.Dependencies.{RefusesNone, RefusesAt};
ghost use Rattle.svc_job_host.specs.Timetables.{periods_of};
ghost use Rattle.svc_jobs.specs.JobFiles.{text_of, in_file, SaysPeriods, RefusesText, RefusesFile};

use crate::plans::plans_of;
use crate::reading::{JobsText, read_jobs};
use crate::services::server_of_jobs;
use std::alloc::Global;
use std::mem::drop;
use svc_base::NoMemory;
use svc_job_host::JobPlan;
use svc_text::ScriptError;

/// What stands before the lines of jobs in a text that has nothing else.
const BEFORE: &[u8] = b"%conf\n%jobs\n";

/// What stands behind them.
const BEHIND: &[u8] = b"\n%events\n";

/// So many lines stand before them.
const LINES_BEFORE: usize = 2;

/// The text with these lines of jobs, an empty configuration and no items.
fn text_of(alloc: Global, lines: &[u8]) -> Result<Vec<u8>, NoMemory>
    ensures { IfOk result (λ text. text.items ≡ text_of lines.now) }
{
    let mut text = Vec::new(alloc);
    text.extend_from_slice(BEFORE)?;
    text.extend_from_slice(lines)?;
    text.extend_from_slice(BEHIND)?;
    Ok(text)
}

/// The refusal at a line of the text as one at a line of the file.
fn in_file(error: ScriptError) -> ScriptError
    ensures { result ≡ in_file error }
{
    match error {
        ScriptError::Line(n) => ScriptError::Line(n.saturating_sub(LINES_BEFORE)),
        ScriptError::NoMemory => ScriptError::NoMemory,
    }
}

/// The plans of jobs, whose dependencies are known and close no cycle.
fn plans_in(alloc: Global, jobs: JobsText) -> Result<Vec<JobPlan>, ScriptError>
    requires few { length jobs.script.services.items ≤ 1024 }
    requires lines { length jobs.script.lines.items ≡ length jobs.script.services.items }
    requires sized { length jobs.script.services.items ≡ length jobs.periods.items }
    ensures periods { IfOk result (λ plans. periods_of plans.items ≡ jobs.periods.items) }
    ensures edges { OnOk result (RefusesNone jobs.script.services.items) }
    ensures refused { IfErr result (λ error. (n : ℕ) → error ≡ errors.Line n
        → (k : ℕ) × (RefusesAt jobs.script.services.items k × (n ≡ slice_index jobs.script.lines.items k))) }
{
    let JobsText { script, periods } = jobs;
    match server_of_jobs(alloc, &script) {
        Ok(server) => {
            drop(server);
            match plans_of(alloc, script.services.as_slice(), periods.as_slice()) {
                Ok(plans) => {
                    drop(script);
                    Ok(plans)
                }
                Err(NoMemory) => {
                    drop(script);
                    Err(ScriptError::NoMemory)
                }
            }
        }
        Err(error) => {
            drop(script);
            Err(error)
        }
    }
}

/// The plans of the jobs that a text says, in order.
fn read_plans(alloc: Global, text: &[u8]) -> Result<Vec<JobPlan>, ScriptError>
    ensures says { IfOk result (λ plans. SaysPeriods text.now (periods_of plans.items)) }
    ensures refused { IfErr result (RefusesText text.now) }
{
    match read_jobs(alloc, text) {
        Ok(jobs) => plans_in(alloc, jobs),
        Err(error) => Err(error),
    }
}

/// The plans of the jobs that the lines of a file say, in order. `Line` with the first line that says no job,
/// or with that of the first job whose dependencies are refused; lines are counted from 1.
pub fn read_job_file(alloc: Global, lines: &[u8]) -> Result<Vec<JobPlan>, ScriptError>
    ensures says { IfOk result (λ plans. SaysPeriods (text_of lines.now) (periods_of plans.items)) }
    ensures refused { IfErr result (RefusesFile lines.now) }
{
    match text_of(alloc, lines) {
        Ok(text) => match read_plans(alloc, text.as_slice()) {
            Ok(plans) => Ok(plans),
            Err(error) => Err(in_file(error)),
        },
        Err(NoMemory) => Err(ScriptError::NoMemory),
    }
}
