//! The run of a text's jobs, and how it ended.

ghost use Rattle.std.specs.Prelude.{◌≡◌, ◌+◌, ◌≤◌, length, false, None, Some, IfOk};
ghost use Rattle.svc_server.specs.Hosts.{no_account};
ghost use Rattle.svc_server.specs.Servers.{answers_of, IsSound};
ghost use Rattle.svc_job_host.specs.JobHosts.{AreJobItems};
ghost use Rattle.svc_job_host.specs.Dues.{due_runs};
ghost use Rattle.svc_job_host.specs.declared.refusals.JobError.TheVariants as errors;
ghost use Rattle.svc_job_host.specs.Timetables.{periods_of};
ghost use Rattle.svc_main.specs.Program.{answer_of};
ghost use Rattle.svc_jobs.specs.JobEnds.{MayEnd};
ghost use Rattle.svc_jobs.specs.JobServices.{IsJobServer};
ghost use Rattle.svc_jobs.specs.JobTexts.{ArePeriods, JobParts};
ghost use Rattle.svc_jobs.specs.JobPrograms.{IsJobRun};

use crate::plans::{plans_of, quiet_jobs};
use crate::quiet::QuietJob;
use crate::services::JobServer;
use std::alloc::Global;
use std::mem::drop;
use svc_base::NoMemory;
use svc_graph::services::ServiceWithDependents;
use svc_job_host::{JobError, JobHost, JobRefused, JobService, run_jobs};
use svc_main::RunEnd;
use svc_record::Item;
use svc_server::{Host, Outcome, RunArgs, RunError};
use svc_text::{ScriptItems, ServiceLine};

/// How a run of jobs ended that answers so. It has as many turns as events may come, neither takes over
/// an older server's sockets nor only tests that it can start, and has no parent.
fn end_of(answer: Result<Outcome, RunError>) -> Result<RunEnd, NoMemory>
    requires { MayEnd answer }
    ensures { IfOk result (λ end. answer ≡ answer_of end) }
{
    match answer {
        Ok(Outcome::Served) => Ok(RunEnd::Served),
        Err(RunError::Config(key)) => Ok(RunEnd::Config(key)),
        Err(RunError::HostFault) => Ok(RunEnd::HostFault),
        Err(RunError::Stray(k)) => Ok(RunEnd::Stray(k)),
        Err(RunError::OutOfEvents) => Ok(RunEnd::OutOfEvents),
        Err(RunError::NoMemory) => Err(NoMemory),
        Ok(Outcome::TestPassed) | Ok(Outcome::Parent(_)) => unreachable!(),
        Err(RunError::Bootstrap(_)) | Err(RunError::TurnsSpent) => unreachable!(),
    }
}

/// A want of memory, where a host of jobs isn't made.
fn memory_alone(reason: JobError) -> NoMemory
    requires { reason ≡ errors.NoMemory }
{
    match reason {
        JobError::NoMemory => NoMemory,
        JobError::Unequal | JobError::TooMany | JobError::ZeroPeriod(_) => unreachable!(),
    }
}

/// How many turns a run of jobs has: one more than there are items and jobs.
fn turns_of(items: &[Item], periods: &[u64]) -> u64
    ensures { result ≡ (length items.now + length periods.now) + 1 }
{
    items.len() as u64 + periods.len() as u64 + 1
}

/// The host of jobs with these periods, of the lines of their services, which gives these items. No
/// cause stands against it, so it is memory that is wanted.
fn host_of(
    alloc: Global,
    lines: &[ServiceLine],
    periods: &[u64],
    items: Vec<Item>,
) -> Result<JobHost<QuietJob>, NoMemory>
    requires sized { length lines.now ≡ length periods.now }
    requires few { length periods.now ≤ 1024 }
    requires paced { ArePeriods periods.now }
    requires items { AreJobItems items.items }
    ensures periods { IfOk result (λ host. periods_of host.plans ≡ periods.now) }
    ensures items { IfOk result (λ host. host.items ≡ items.items) }
    ensures first { IfOk result (λ host. ⟦<JobHost<QuietJob> as Host>⟧.account host ≡ Some no_account) }
{
    let plans = match plans_of(alloc, lines, periods) {
        Ok(plans) => plans,
        Err(NoMemory) => {
            drop(items);
            return Err(NoMemory);
        }
    };
    let jobs = match quiet_jobs(alloc, periods.len()) {
        Ok(jobs) => jobs,
        Err(NoMemory) => {
            drop(plans);
            drop(items);
            return Err(NoMemory);
        }
    };
    match JobHost::new(alloc, plans, jobs, items) {
        Ok(host) => Ok(host),
        Err(refused) => {
            let JobRefused {
                reason,
                plans,
                jobs,
                items,
            } = refused;
            drop(plans);
            drop(jobs);
            drop(items);
            Err(memory_alone(reason))
        }
    }
}

/// Runs the server of jobs over their host.
fn run_host(
    alloc: Global,
    server: JobServer,
    turns: u64,
    host: &mut JobHost<QuietJob>,
) -> Result<RunEnd, NoMemory>
    requires sound { IsSound server.dependencies (length server.filters) (answers_of ⟦<JobService as ServiceWithDependents>⟧ server.services.items) }
    requires bare { (server.options ≡ None) × (server.eager ≡ false) }
    requires first { ⟦<JobHost<QuietJob> as Host>⟧.account host.old ≡ Some no_account }
    requires turns { turns ≡ (length host.old.items + length (periods_of host.old.plans)) + 1 }
    ensures run { (parts : JobParts) → IsJobServer parts.script server.configuration server.options server.eager server.dependencies
        (length server.filters) (answers_of ⟦<JobService as ServiceWithDependents>⟧ server.services.items)
        → parts.periods ≡ periods_of host.old.plans → parts.script.items ≡ host.old.items → IfOk result (λ end. IsJobRun parts end host.new.entries) }
    ensures due { host.new.runs ≡ due_runs (periods_of host.old.plans) host.new.entries }
{
    let answer = run_jobs(alloc, server, RunArgs { turns }, host);
    host.read_kept();
    end_of(answer)
}

/// What the run of jobs leaves.
#[derive(Drop)]
pub(crate) struct RunLeft {
    pub end: RunEnd,
    pub host: JobHost<QuietJob>,
}

/// Runs the server of jobs with these periods, of the lines of their services, over these items.
pub(crate) fn run_text(
    alloc: Global,
    server: JobServer,
    lines: &[ServiceLine],
    periods: &[u64],
    items: ScriptItems,
) -> Result<RunLeft, NoMemory>
    requires sound { IsSound server.dependencies (length server.filters) (answers_of ⟦<JobService as ServiceWithDependents>⟧ server.services.items) }
    requires bare { (server.options ≡ None) × (server.eager ≡ false) }
    requires sized { length lines.now ≡ length periods.now }
    requires few { length periods.now ≤ 1024 }
    requires paced { ArePeriods periods.now }
    requires items { AreJobItems items }
    ensures run { (parts : JobParts) → IsJobServer parts.script server.configuration server.options server.eager server.dependencies
        (length server.filters) (answers_of ⟦<JobService as ServiceWithDependents>⟧ server.services.items)
        → parts.periods ≡ periods.now → parts.script.items ≡ items → IfOk result (λ left. IsJobRun parts left.end left.host.entries) }
    ensures due { IfOk result (λ left. left.host.runs ≡ due_runs periods.now left.host.entries) }
{
    let items = match items.into_items(alloc) {
        Ok(items) => items,
        Err(NoMemory) => {
            drop(server);
            return Err(NoMemory);
        }
    };
    let turns = turns_of(&items, periods);
    match host_of(alloc, lines, periods, items) {
        Ok(mut host) => match run_host(alloc, server, turns, &mut host) {
            Ok(end) => Ok(RunLeft { end, host }),
            Err(NoMemory) => {
                drop(host);
                Err(NoMemory)
            }
        },
        Err(NoMemory) => {
            drop(server);
            Err(NoMemory)
        }
    }
}
