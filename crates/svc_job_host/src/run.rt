//! The run of a server over a host of jobs.

ghost use Rattle.std.specs.Prelude.{◌≡◌, ◌↔◌, true, Some, Err, IfSome, length, map};
ghost use Rattle.svc_conf.specs.Configuration.{judged};
ghost use Rattle.svc_streams.specs.Verdicts.{verdict_at};
ghost use Rattle.svc_record.specs.Record.{EachEntry};
ghost use Rattle.svc_server.specs.Hosts.{no_account};
ghost use Rattle.svc_server.specs.Runs.{RunTells, RunCounts, GoesWell, GoesThrough};
ghost use Rattle.svc_server.specs.Servers.{answers_of, plan_of, IsSound};
ghost use Rattle.svc_server.specs.declared.run.RunError.{RunError};
ghost use Rattle.svc_job_host.specs.JobMakes.{heard_after};
ghost use Rattle.svc_job_host.specs.JobRuns.{TellsJobs, EndsTold, ComesNext, start_after_runs};
ghost use Rattle.svc_job_host.specs.Timetables.{periods_of};

use crate::host::JobHost;
use crate::job::Job;
use crate::service::JobService;
use std::alloc::Global;
use svc_graph::services::ServiceWithDependents;
use svc_server::{Host, Outcome, RunArgs, RunError, Server};
use svc_streams::ConnectionFilter;

/// Runs a server whose services stand for jobs, by number, over their host: the jobs run when they are
/// due, and each starts after the first run of each that it depends on. It answers what
/// `Server::run` does.
pub fn run_jobs<F: ConnectionFilter, J: Job>(
    alloc: Global,
    server: Server<JobService, F>,
    args: RunArgs,
    host: &mut JobHost<J>,
) -> Result<Outcome, RunError>
    requires sound { IsSound server.dependencies (length server.filters) (answers_of ⟦<JobService as ServiceWithDependents>⟧ server.services.items) }
    requires first { ⟦<JobHost<J> as Host>⟧.account host.old ≡ Some no_account }

    // The host is the one that was handed in: its jobs have the same periods, its items are the same, and
    // each job that tells what it was told has been told the due numbers of its runs since.
    ensures periods { periods_of host.new.plans ≡ periods_of host.old.plans }
    ensures items { host.new.items ≡ host.old.items }
    ensures heard { map J.told host.new.jobs ≡ heard_after 0 host.new.runs (map J.told host.old.jobs) }

    // The runs are those that are due by the record, and the items are given in order.
    ensures jobs { TellsJobs J.told host.new }

    // Each job whose first run was at the last item has said that it is ready, unless the turns were
    // spent or memory ran out.
    ensures words { EndsTold result (periods_of host.old.plans) host.new.entries }
    ensures next { ComesNext result host.new }

    // So a job starts after the first run of each that it depends on.
    ensures order { EachEntry (λ e before. start_after_runs (plan_of server.configuration server.options server.eager server.dependencies
        (answers_of ⟦<JobService as ServiceWithDependents>⟧ server.services.items)) (periods_of host.old.plans) e before ≡ true) host.new.entries }

    // The record, by the answer, and what was handed over.
    ensures tells { IfSome (⟦<JobHost<J> as Host>⟧.account host.new) (RunTells (verdict_at F.verdict server.filters) (plan_of server.configuration
        server.options server.eager server.dependencies (answers_of ⟦<JobService as ServiceWithDependents>⟧ server.services.items)) args.turns result) }
    ensures counts { RunCounts result (⟦<JobHost<J> as Host>⟧.counts host.old) (⟦<JobHost<J> as Host>⟧.counts host.new) }
    ensures config { (key : _) → (result ≡ Err (RunError.Config key)) ↔ (judged server.configuration ≡ Err key) }
    ensures complete { GoesWell (plan_of server.configuration server.options server.eager server.dependencies
        (answers_of ⟦<JobService as ServiceWithDependents>⟧ server.services.items)) host.new.entries → GoesThrough result }
{
    host.read_kept();
    let answer = server.run(alloc, args, host);
    host.read_kept();
    answer
}
