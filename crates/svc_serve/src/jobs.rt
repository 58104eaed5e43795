//! The jobs of services: they are read from files before a generation begins.

ghost use Rattle.std.specs.Prelude.{None};

use crate::ending::Ending;
use crate::files::{bytes_at, refuse_unread};
use crate::refusal::Refusal;
use std::alloc::Global;
use svc_base::NoMemory;
use svc_job_host::{JobError, JobPlan, JobRun, JobTeller, ServedJobs};
use svc_jobs::read_job_file;
use svc_text::ScriptError;
use svc_work::{WorkFile, WorkLine, file_path};

/// Says each run of a job in a line on standard output.
#[derive(Clone, Copy)]
pub(crate) struct JobLines<'a> {
    rt: &'a HostRuntime,
}

impl<'a> JobLines<'a> {
    /// Lines on this program's standard output.
    pub(crate) fn new(rt: &'a HostRuntime) -> Self {
        JobLines { rt }
    }
}

impl<'a> JobTeller for JobLines<'a> {
    ghost told = { λ _. None };

    fn tell(&mut self, name: &str, run: JobRun) {
        let rt = self.rt;
        let moment = run.moment;
        let _ = println!(rt; "job {name} {moment}");
    }
}

/// What is wrong with the line of a file of jobs.
fn line_cause(alloc: Global, path: &str, n: usize) -> Result<String, NoMemory> {
    Ok(format!(in alloc;
        "{path}: line {n} says no job, or one that comes after itself or after none"
    )?)
}

/// A file says no jobs.
fn refuse_jobs(alloc: Global, path: &str, refused: ScriptError) -> Refusal {
    match refused {
        ScriptError::NoMemory => Refusal::memory(),
        ScriptError::Line(n) => Refusal::new(alloc, Ending::Jobs, line_cause(alloc, path, n)),
    }
}

/// Why jobs can't be run.
fn plans_cause(alloc: Global, path: &str, refused: JobError) -> Result<String, NoMemory> {
    Ok(format!(in alloc; "{path}: {refused}")?)
}

/// Jobs can't be run.
fn refuse_plans(alloc: Global, path: &str, refused: JobError) -> Refusal {
    match refused {
        JobError::NoMemory => Refusal::memory(),
        _ => Refusal::new(alloc, Ending::Jobs, plans_cause(alloc, path, refused)),
    }
}

/// The jobs in the file at this path.
fn jobs_at(rt: &HostRuntime, path: &str) -> Result<Vec<JobPlan>, Refusal> {
    let bytes = match bytes_at(rt, rt.alloc(), path) {
        Ok(bytes) => bytes,
        Err(unread) => return Err(refuse_unread(rt.alloc(), path, unread)),
    };
    match read_job_file(rt.alloc(), bytes.as_slice()) {
        Ok(plans) => Ok(plans),
        Err(refused) => Err(refuse_jobs(rt.alloc(), path, refused)),
    }
}

/// Adds the jobs of the service with this number, if these lines say that it has some.
fn add_jobs(
    rt: &HostRuntime,
    jobs: &mut Vec<ServedJobs>,
    works: &[WorkLine],
    service: u32,
) -> Result<(), Refusal> {
    let Some(path) = file_path(works, service as usize, WorkFile::Jobs) else {
        return Ok(());
    };
    let plans = jobs_at(rt, path.as_str())?;
    match ServedJobs::new(rt.alloc(), service, plans) {
        Ok(served) => match jobs.push(served) {
            Ok(()) => Ok(()),
            Err(_) => Err(Refusal::memory()),
        },
        Err(refused) => Err(refuse_plans(rt.alloc(), path.as_str(), refused)),
    }
}

/// The jobs of so many services, as these lines say it.
pub(crate) fn jobs_of(
    rt: &HostRuntime,
    works: &[WorkLine],
    services: u32,
) -> Result<Vec<ServedJobs>, Refusal> {
    let mut jobs = Vec::new(rt.alloc());
    for service in 0..services {
        add_jobs(rt, &mut jobs, works, service)?;
    }
    Ok(jobs)
}
