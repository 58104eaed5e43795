//! What is answered to a text of jobs.

ghost use Rattle.std.specs.Prelude.{◌≡◌, ◌≤◌, ◌++◌, length, IfOk, string_bytes};
ghost use Rattle.svc_job_host.specs.JobHosts.{AreJobItems};
ghost use Rattle.svc_main.specs.declared.outcome.StatusLine.TheVariants.{Run as RunLine};
ghost use Rattle.svc_main.specs.Status.{status_line};
ghost use Rattle.svc_jobs.specs.JobReadings.{job_parts_of};
ghost use Rattle.svc_jobs.specs.JobTexts.{ArePeriods};
ghost use Rattle.svc_jobs.specs.JobPrograms.{runs_text, AnswersJobs};

use crate::printing::runs_text;
use crate::reading::JobsText;
use crate::runs::{RunLeft, run_text};
use crate::services::server_of_jobs;
use std::alloc::Global;
use std::fmt::Write;
use std::mem::drop;
use svc_base::NoMemory;
use svc_job_host::JobRun;
use svc_main::{RunEnd, StatusLine};
use svc_text::{Script, ScriptError};

/// A status line, and what is to be written with it.
#[derive(Debug, Drop)]
pub(crate) struct Answer {
    pub line: StatusLine,
    pub text: String,
}

/// A status line alone.
pub(crate) fn said(alloc: Global, line: StatusLine) -> Result<Answer, NoMemory>
    ensures { IfOk result (λ a. (a.line ≡ line) × (string_bytes a.text ≡ status_line line)) }
{
    let mut text = String::new(alloc);
    writeln!(text, "{line}")?;
    Ok(Answer { line, text })
}

/// The runs of jobs, and how it ended.
fn ran(alloc: Global, end: RunEnd, runs: &[JobRun]) -> Result<Answer, NoMemory>
    ensures { IfOk result (λ a. (a.line ≡ RunLine end) × (string_bytes a.text ≡ runs_text runs.now ++ status_line (RunLine end))) }
{
    let line = StatusLine::Run(end);
    let mut text = runs_text(alloc, runs)?;
    writeln!(text, "{line}")?;
    Ok(Answer { line, text })
}

/// The answer to a text of jobs.
pub(crate) fn answer_jobs(alloc: Global, jobs: JobsText) -> Result<Answer, NoMemory>
    requires few { length jobs.script.services.items ≤ 1024 }
    requires lines { length jobs.script.lines.items ≡ length jobs.script.services.items }
    requires sized { length jobs.script.services.items ≡ length jobs.periods.items }
    requires paced { ArePeriods jobs.periods.items }
    requires items { AreJobItems jobs.script.items }
    ensures { IfOk result (λ a. AnswersJobs (job_parts_of jobs) jobs.script.lines.items a.line (string_bytes a.text)) }
{
    let JobsText { script, periods } = jobs;
    match server_of_jobs(alloc, &script) {
        Ok(mut server) => {
            let Script {
                conf,
                services,
                eager: _,
                items,
                lines,
            } = script;
            drop(lines);
            server.configuration = conf;
            match run_text(alloc, server, &services, &periods, items) {
                Ok(left) => {
                    drop(services);
                    let RunLeft { end, host } = left;
                    let answer = ran(alloc, end, host.runs().as_slice());
                    drop(host);
                    answer
                }
                Err(NoMemory) => {
                    drop(services);
                    Err(NoMemory)
                }
            }
        }
        Err(ScriptError::Line(n)) => {
            drop(script);
            said(alloc, StatusLine::Line(n as u64))
        }
        Err(ScriptError::NoMemory) => {
            drop(script);
            Err(NoMemory)
        }
    }
}
