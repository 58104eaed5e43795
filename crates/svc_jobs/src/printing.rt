//! The text of runs.

ghost use Rattle.std.specs.Prelude.{◌≡◌, ◌++◌, IfOk, OnOk, string_bytes};
ghost use Rattle.svc_jobs.specs.JobPrograms.{run_line, runs_text};

use std::alloc::Global;
use std::fmt::Write;
use svc_base::NoMemory;
use svc_job_host::JobRun;

/// Appends the line of a run.
fn add_run(text: &mut String, run: JobRun) -> Result<(), NoMemory>
    ensures { OnOk result (string_bytes text.new ≡ string_bytes text.old ++ run_line run) }
{
    let job = run.job;
    let due = run.due;
    let moment = run.moment;
    writeln!(text, "run {job} {due} {moment}")?;
    Ok(())
}

/// The text of runs: a line for each, the oldest first.
pub(crate) fn runs_text(alloc: Global, runs: &[JobRun]) -> Result<String, NoMemory>
    ensures { IfOk result (λ text. string_bytes text ≡ runs_text runs.now) }
{
    let mut text = String::new(alloc);
    for run in runs {
        add_run(&mut text, *run)?;
    }
    Ok(text)
}
