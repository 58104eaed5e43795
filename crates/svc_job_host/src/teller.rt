//! Who is told the runs of jobs that are served.

ghost use Rattle.std.specs.Prelude.{◌≡◌, ◌<◌, ◌≤◌, ◌^◌, ℕ, List, [], ◌∷◌, length, Option, Some, slice_get, slice_set};
ghost use Rattle.svc_job_host.specs.declared.plan.JobRun.{JobRun};
ghost use Rattle.svc_job_host.specs.declared.row.JobRow.{JobRow};
ghost use Rattle.svc_job_host.specs.Dues.{run_of};
ghost use Rattle.svc_job_host.specs.Rows.{ArePaced, row_due, ran_row, runs_in};
ghost use Rattle.svc_job_host.specs.Tellers.{named, TellsMore};

use crate::plan::{JobPlan, JobRun};
use crate::row::JobRow;

/// Who is told each run of a job as it happens.
pub trait JobTeller {
    // The runs that it was told with the names of their jobs, the oldest first, where it tells them.
    ghost told: { Self → Option (List (List ℕ × JobRun)) };

    /// The job with this name has this run.
    fn tell(&mut self, name: &str, run: JobRun)
        ensures { TellsMore (told self.old) (told self.new) ((name.now, run) ∷ []) };
}

/// Tells a run, where it is for due moments.
fn tell_run<T: JobTeller>(plans: &[JobPlan], run: JobRun, teller: &mut T)
    requires { run.job < length plans.now }
    ensures { TellsMore (T.told teller.old) (T.told teller.new) (named plans.now (run_of run.job run.due run.moment)) }
{
    if run.due != 0 {
        teller.tell(plans[run.job as usize].name.as_str(), run);
    }
}

/// Runs the job at the place, if it has due moments.
fn tell_one<T: JobTeller>(
    rows: &mut [JobRow],
    plans: &[JobPlan],
    s: usize,
    last: u64,
    moment: u64,
    teller: &mut T,
)
    requires row { s < length rows.old }
    requires plan { s < length plans.now }
    requires number { s < 2 ^ 32 }
    requires paced { ArePaced rows.old }
    ensures rows { (row : JobRow) → slice_get rows.old s ≡ Some row → rows.new ≡ slice_set rows.old s (ran_row row (row_due row last moment)) }
    ensures told { (row : JobRow) → slice_get rows.old s ≡ Some row
        → TellsMore (T.told teller.old) (T.told teller.new) (named plans.now (run_of s (row_due row last moment) moment)) }
{
    let row = rows[s];
    let due = row.due(last, moment);
    rows[s] = row.after_run(due);
    let job = s as u32;
    tell_run(plans, JobRun { job, due, moment }, teller);
}

/// Runs each job that has due moments, in ascending number.
pub(crate) fn tell_all<T: JobTeller>(
    rows: &mut [JobRow],
    plans: &[JobPlan],
    last: u64,
    moment: u64,
    teller: &mut T,
)
    requires plans { length plans.now ≡ length rows.old }
    requires numbers { length rows.old ≤ 2 ^ 32 }
    requires paced { ArePaced rows.old }
    ensures rows { (s : ℕ) (row : JobRow) → slice_get rows.old s ≡ Some row → slice_get rows.new s ≡ Some (ran_row row (row_due row last moment)) }
    ensures paced { ArePaced rows.new }
    ensures told { TellsMore (T.told teller.old) (T.told teller.new) (named plans.now (runs_in rows.old last moment (length rows.old))) }
{
    for s in 0..rows.len() {
        tell_one(rows, plans, s, last, moment, teller);
    }
}
