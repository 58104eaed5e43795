//! Background jobs: periodic jobs as services of a server, which start in the order of their
//! dependencies, run once for their due moments, and stop at the shutdown.
#![tactic(auto)]

mod host;
mod job;
mod plan;
mod refusals;
mod row;
mod run;
mod runner;
mod served;
mod service;
mod teller;
mod timetable;
mod upcoming;

pub use host::JobHost;
pub use job::Job;
pub use plan::{JobPlan, JobRun, RunList};
pub use refusals::{JobError, JobRefused};
pub use run::run_jobs;
pub use served::ServedJobs;
pub use service::JobService;
pub use teller::JobTeller;
