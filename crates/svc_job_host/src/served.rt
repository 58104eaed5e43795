//! The jobs of a service that is served: they run at their moments, by the record of the run.

ghost use Rattle.std.specs.Prelude.{◌≡◌, ◌<◌, ℕ, [], length, Some, None, IfOk, IfErr, OnOk, slice_get};
ghost use Rattle.std.specs.List.{list_all};
ghost use Rattle.svc_moments.specs.Least.{IsLeast};
ghost use Rattle.svc_record.specs.declared.entry.Entry.TheVariants.{Got, Told};
ghost use Rattle.svc_record.specs.declared.event.Event.TheVariants.{Moment};
ghost use Rattle.svc_record.specs.declared.action.Action.TheVariants.{Start};
ghost use Rattle.svc_record.specs.Record.{Record};
ghost use Rattle.svc_job_host.specs.Dues.{runs_at};
ghost use Rattle.svc_job_host.specs.JobRecords.{may_start, with_start, with_all};
ghost use Rattle.svc_job_host.specs.JobRefusals.{fault_of, IsReason};
ghost use Rattle.svc_job_host.specs.Rows.{ArePaced, IsDueAmong, has_run_in, row_of};
ghost use Rattle.svc_job_host.specs.ServedJobs.{IsKnownOf, AreServedBy, StartBy, StepBy, GoOn, TellsDue, RunsSome};
ghost use Rattle.svc_job_host.specs.Tellers.{named, TellsMore};
ghost use Rattle.svc_job_host.specs.Timetables.{periods_of};

use crate::host::fault_of;
use crate::plan::JobPlan;
use crate::refusals::JobError;
use crate::row::JobRow;
use crate::teller::JobTeller;
use crate::timetable::Timetable;
use std::alloc::Global;
use std::marker::Model;
use std::mem::drop;
use svc_base::NoMemory;
use svc_moments::earlier;
use svc_record::{Action, Entry, Event};

/// The jobs of one service. From the service's start on until the shutdown begins each runs once at each
/// moment, for all of its due moments since the moment before, if there are any. Those that come after
/// others start when all of these have run.
///
/// Contracts see the service's number, the plans, what is known of the jobs, and whether the service was
/// started.
#[derive(Drop)]
pub struct ServedJobs {
    service: u32,
    /// By the jobs' numbers.
    plans: Vec<JobPlan>,
    /// It keeps no runs.
    timetable: Timetable,
    is_started: bool,
}

impl Model for ServedJobs {
    ghost use Rattle.std.specs.Prelude.{◌≡◌, length};
    ghost use Rattle.svc_job_host.specs.ServedJobsData.{ServedJobsData};

    ghost Value = { ServedJobsData };

    ghost view = { λ s. record { service = s.service; plans = s.plans.items; timetable = s.timetable; started = s.is_started } };

    ghost invariant = { λ s. length s.timetable.rows ≡ length s.plans.items };
}

/// There is a job with the number, and it has run.
fn has_run(rows: &[JobRow], number: u32) -> bool
    ensures { result ≡ has_run_in (slice_get rows.now number) }
{
    match rows.get(number as usize) {
        Some(row) => row.ran,
        None => false,
    }
}

/// Each of the jobs with these numbers has run.
fn have_run(rows: &[JobRow], numbers: &[u32]) -> bool
    ensures { result ≡ list_all (λ k. has_run_in (slice_get rows.now k)) numbers.now }
{
    numbers.iter().all(|number| has_run(rows, *number))
}

/// The job is to start: it wasn't started, and each that it comes after has run.
fn may_start(plans: &[JobPlan], rows: &[JobRow], s: usize) -> bool
    requires plan { s < length plans.now }
    requires sized { length rows.now ≡ length plans.now }
    ensures { (q : Record) → ((k : ℕ) → k < length plans.now → slice_get rows.now k ≡ Some (row_of (periods_of plans.now) q k))
        → result ≡ may_start plans.now q s }
{
    rows[s].started.is_none() && have_run(rows, plans[s].depends.as_slice())
}

/// The least moment at which one of the jobs has due moments since the last moment.
fn next_of(rows: &[JobRow], last: u64) -> Option<u64>
    requires { ArePaced rows.now }
    ensures { IsLeast (IsDueAmong rows.now last (length rows.now)) result }
{
    let mut least = None;
    for s in 0..rows.len() {
        least = earlier(least, rows[s].next_due(last));
    }
    least
}

impl ServedJobs {
    /// The jobs of the service with this number, by their plans. Neither was started yet. An error is the
    /// first cause that stands for which a host of jobs isn't made, but for want of memory.
    pub fn new(alloc: Global, service: u32, plans: Vec<JobPlan>) -> Result<Self, JobError>
        ensures good { OnOk result (fault_of plans.items (length plans.items) ≡ None) }
        ensures service { IfOk result (λ jobs. jobs.service ≡ service) }
        ensures plans { IfOk result (λ jobs. jobs.plans ≡ plans.items) }
        ensures served { IfOk result (λ jobs. AreServedBy jobs []) }
        ensures cause { IfErr result (IsReason (fault_of plans.items (length plans.items))) }
    {
        if let Some(reason) = fault_of(&plans, plans.len()) {
            drop(plans);
            return Err(reason);
        }
        match Timetable::new(alloc, &plans) {
            Ok(timetable) => Ok(ServedJobs {
                service,
                plans,
                timetable,
                is_started: false,
            }),
            Err(NoMemory) => {
                drop(plans);
                Err(JobError::NoMemory)
            }
        }
    }

    /// Starts the job, where it is to start.
    fn start_one(&mut self, s: usize)
        requires { s < length self.old.plans }
        ensures { StartBy self.old self.new (λ q. with_start self.old.plans q s) }
    {
        if may_start(self.plans.as_slice(), self.timetable.rows(), s) {
            self.timetable.note_start(s);
        }
    }

    /// Starts the jobs that are to start.
    fn start_all(&mut self)
        ensures { StartBy self.old self.new (with_all self.old.plans) }
    {
        for s in 0..self.plans.len() {
            self.start_one(s);
        }
    }

    /// The service is started.
    fn start(&mut self)
        ensures { StepBy self.old self.new (Told (Start self.old.service)) }
    {
        self.is_started = true;
        self.start_all();
    }

    /// A moment comes.
    fn take_moment<T: JobTeller>(&mut self, moment: u64, teller: &mut T)
        ensures steps { StepBy self.old self.new (Got (Moment moment)) }
        ensures told { (q : Record) → IsKnownOf (periods_of self.old.plans) self.old.timetable q
            → TellsMore (T.told teller.old) (T.told teller.new) (named self.old.plans (runs_at (periods_of self.old.plans) q moment)) }
    {
        self.timetable
            .tell_moment(self.plans.as_slice(), moment, teller);
        if self.is_started {
            self.start_all();
        }
    }

    /// Is shown the next entry of the server's record. The teller is told the runs that are due by it.
    pub fn note<T: JobTeller>(&mut self, entry: &Entry, teller: &mut T)
        ensures goes_on { GoOn self.old self.new entry.now }
        ensures told { TellsDue self.old entry.now (T.told teller.old) (T.told teller.new) }
    {
        match entry {
            Entry::Got(Event::Moment(moment)) => self.take_moment(*moment, teller),
            Entry::Told(Action::Start(s)) => {
                if *s == self.service {
                    self.start();
                }
            }
            Entry::Told(action) => self.timetable.note(action),
            Entry::Got(_) => {}
        }
    }

    /// The least moment, in milliseconds, at which a job runs; none where none does any more unless something
    /// else comes before, or where that moment is beyond 64 bits.
    pub fn next_due(&self) -> Option<u64>
        ensures { (q : Record) → AreServedBy self.now q → IsLeast (RunsSome self.now q) result }
    {
        if self.timetable.is_shut() {
            return None;
        }
        next_of(self.timetable.rows(), self.timetable.last())
    }
}
