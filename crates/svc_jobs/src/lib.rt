//! Background jobs: periodic jobs as services of a server, over a host that runs them; and their program
//! as one call: a text of jobs and moments in, the runs that were due and a status line out.
#![tactic(auto)]

mod answering;
mod job_file;
mod job_line;
mod plans;
mod printing;
mod program;
mod quiet;
mod reading;
mod runs;
mod script_line;
mod script_text;
mod services;

pub use job_file::read_job_file;
pub use program::serve_jobs;
pub use svc_job_host::{
    Job, JobError, JobHost, JobPlan, JobRefused, JobRun, JobService, RunList, run_jobs,
};
