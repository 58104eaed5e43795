//! A host that runs jobs.

ghost use Rattle.std.specs.Prelude.{◌≡◌, ◌<◌, ◌≤◌, ◌^◌, [], length, map, reverse, position, slice_get, Some, None, IfOk, IfErr, OnOk};
ghost use Rattle.svc_base.specs.Items.{list_of};
ghost use Rattle.svc_record.specs.declared.item.Item.TheVariants as items_given;
ghost use Rattle.svc_server.specs.Hosts.{no_account};
ghost use Rattle.svc_server.specs.ScriptHosts.{counts_with, handed_with};
ghost use Rattle.svc_job_host.specs.Dues.{due_runs};
ghost use Rattle.svc_job_host.specs.JobHosts.{AreJobItems};
ghost use Rattle.svc_job_host.specs.JobMakes.{host_make};
ghost use Rattle.svc_job_host.specs.JobRuns.{TellsJobs, KeepsWords};
ghost use Rattle.svc_job_host.specs.JobRefusals.{fault_of, is_idle, IsReason};
ghost use Rattle.svc_job_host.specs.Rows.{HavePeriods, owing};
ghost use Rattle.svc_job_host.specs.Timetables.{periods_of};

use crate::job::Job;
use crate::plan::{JobPlan, RunList};
use crate::refusals::{JobError, JobRefused};
use crate::runner::JobRunner;
use crate::service::JobService;
use crate::timetable::Timetable;
use std::alloc::Global;
use std::marker::Model;
use svc_base::NoMemory;
use svc_graph::services::ServiceWithDependents;
use svc_record::{Action, Entries, Event, Item};
use svc_server::{AccountHost, Host, Next};

/// A host that runs jobs: it gives the items of a list, one after the other, and at each moment runs
/// the jobs that are due. A job's first run is followed by its word that it is ready. It keeps what it
/// gave and was told, the services that it was handed, and the runs, to its end.
///
/// Contracts see the plans, the jobs, the items, its record, the services, the runs, its counts, its
/// room and the last event.
#[derive(Drop)]
pub struct JobHost<J: Job> {
    host: AccountHost<JobRunner<J>, JobService>,
}

impl<J: Job> Model for JobHost<J> {
    ghost use Rattle.svc_job_host.specs.JobHostData.{JobHostData};

    ghost Value = { JobHostData J };

    ghost view = { λ h. record {
      plans = h.host.inner.plans;
      jobs = h.host.inner.jobs;
      items = h.host.inner.items;
      given = h.host.inner.given;
      entries = h.host.entries;
      handed = h.host.handed;
      runs = h.host.inner.timetable.runs;
      faults = h.host.faults;
      idles = h.host.idles;
      failures = h.host.failures;
      spare = h.host.spare;
      last = h.host.last;
    } };
}

/// The index of the first plan whose period is 0.
fn first_idle(plans: &[JobPlan]) -> Option<usize>
    ensures { result ≡ position is_idle plans.now }
{
    plans.iter().position(|plan| plan.every == 0)
}

/// Why no host is made of these plans and so many jobs, if there is a cause.
pub(crate) fn fault_of(plans: &[JobPlan], jobs: usize) -> Option<JobError>
    ensures cause { result ≡ fault_of plans.now jobs }
    ensures periods { result ≡ None → HavePeriods plans.now }
    ensures equal { result ≡ None → length plans.now ≡ jobs }
    ensures few { result ≡ None → length plans.now ≤ 2 ^ 32 }
{
    if plans.len() != jobs {
        return Some(JobError::Unequal);
    }
    if plans.len() > 4_294_967_296 {
        return Some(JobError::TooMany);
    }
    match first_idle(plans) {
        Some(index) => Some(JobError::ZeroPeriod(index as u64)),
        None => None,
    }
}

impl<J: Job> JobHost<J> {
    /// A host that runs the jobs, by their plans, and gives these items in order. A refusal hands all
    /// back, with the first cause that stands.
    pub fn new(
        alloc: Global,
        plans: Vec<JobPlan>,
        jobs: Vec<J>,
        items: Vec<Item>,
    ) -> Result<Self, JobRefused<J>>
        requires { AreJobItems items.items }
        ensures good { OnOk result (fault_of plans.items (length jobs.items) ≡ None) }
        ensures plans { IfOk result (λ host. host.plans ≡ plans.items) }
        ensures jobs { IfOk result (λ host. host.jobs ≡ jobs.items) }
        ensures items { IfOk result (λ host. host.items ≡ items.items) }
        ensures given { IfOk result (λ host. host.given ≡ 0) }
        ensures account { IfOk result (λ host. ⟦<JobHost<J> as Host>⟧.account host ≡ Some no_account) }
        ensures counts { IfOk result (λ host. ⟦<JobHost<J> as Host>⟧.counts host ≡ counts_with 0 0 0) }
        ensures cause { IfErr result (λ refused. IsReason (fault_of plans.items (length jobs.items)) refused.reason) }
        ensures plans_back { IfErr result (λ refused. refused.plans.items ≡ plans.items) }
        ensures jobs_back { IfErr result (λ refused. refused.jobs.items ≡ jobs.items) }
        ensures items_back { IfErr result (λ refused. refused.items.items ≡ items.items) }
    {
        if let Some(reason) = fault_of(&plans, jobs.len()) {
            return Err(JobRefused {
                reason,
                plans,
                jobs,
                items,
            });
        }
        match Timetable::new(alloc, &plans) {
            Ok(timetable) => {
                let runner = JobRunner::new(plans, jobs, items, timetable);
                let host = AccountHost::new(alloc, runner);
                Ok(JobHost { host })
            }
            Err(NoMemory) => Err(JobRefused {
                reason: JobError::NoMemory,
                plans,
                jobs,
                items,
            }),
        }
    }

    /// The runs so far, the oldest first: those that are due by its record.
    pub fn runs(&self) -> &RunList
        ensures runs { list_of result.now ≡ self.now.runs }
        ensures due { self.now.runs ≡ due_runs (periods_of self.now.plans) self.now.entries }
    {
        self.host.inner().runs()
    }

    /// What it keeps at any time.
    pub fn read_kept(&self)
        ensures tells { TellsJobs J.told self.now }
        ensures words { KeepsWords (periods_of self.now.plans) self.now.entries }
        ensures faulted { 0 < self.now.faults → slice_get self.now.items self.now.given ≡ Some items_given.Fault }
        ensures faulted_last { 0 < self.now.faults → owing (periods_of self.now.plans) self.now.entries ≡ [] }
        ensures finished { 0 < self.now.idles → self.now.given ≡ length self.now.items }
        ensures finished_last { 0 < self.now.idles → owing (periods_of self.now.plans) self.now.entries ≡ [] }
    {
        let _runner = self.host.inner();
    }

    /// What it gave and was told, the oldest first.
    pub fn entries(&self) -> &Entries
        ensures { list_of result.now ≡ reverse self.now.entries }
    {
        self.host.entries()
    }
}

/// It tells everything.
impl<J: Job> Host for JobHost<J> {
    type Service = JobService;

    ghost account = { λ h. Some (record { entries = h.entries; handed = map (handed_with ⟦<JobService as ServiceWithDependents>⟧.named) h.handed }) };

    ghost counts = { λ h. counts_with h.faults h.idles h.failures };

    ghost spare = { λ h. h.spare };

    ghost last = { λ h. h.last };

    ghost made_of = { λ h. Some (host_make J.told h) };

    fn faults(&self) -> u64 {
        self.host.faults()
    }

    fn idles(&self) -> u64 {
        self.host.idles()
    }

    fn failures(&self) -> u64 {
        self.host.failures()
    }

    fn reserve(&mut self, alloc: Global, n: u64) -> Result<(), NoMemory> {
        self.host.reserve(alloc, n)
    }

    fn next(&mut self) -> Next {
        self.host.next()
    }

    fn event(&self) -> &Event {
        self.host.event()
    }

    fn hand(&mut self, s: u32, service: JobService) {
        self.host.hand(s, service);
    }

    fn tell(&mut self, action: Action) {
        self.host.tell(action);
    }
}
