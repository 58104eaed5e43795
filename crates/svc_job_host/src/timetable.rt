//! Which jobs are due, by what has happened.

ghost use Rattle.std.specs.Prelude.{◌≡◌, ◌+◌, ◌<◌, ◌≤◌, ◌^◌, ◌||◌, ◌++◌, ℕ, List, [], ◌∷◌, length, map, Option, IfOk, OnOk, IfSome, MatchOption, Some, slice_get, slice_set, position, nat_lt};
ghost use Rattle.svc_base.specs.Items.{list_of, spare};
ghost use Rattle.svc_record.specs.declared.entry.Entry.TheVariants.{Got};
ghost use Rattle.svc_record.specs.declared.event.Event.TheVariants as events;
ghost use Rattle.svc_record.specs.Record.{Record};
ghost use Rattle.svc_job_host.specs.declared.row.JobRow.{JobRow};
ghost use Rattle.svc_job_host.specs.Dues.{run_of, runs_at, due_at};
ghost use Rattle.svc_job_host.specs.Rows.{ArePaced, AreNewRows, HavePeriods, row_due, ran_row, runs_in, due_in, owing, told_after};
ghost use Rattle.svc_job_host.specs.ServedJobs.{IsKnownOf};
ghost use Rattle.svc_job_host.specs.Tellers.{named, TellsMore};
ghost use Rattle.svc_job_host.specs.Timetables.{IsTimetableOf, periods_of, with_row, started_row, noted, readied};

use crate::job::Job;
use crate::plan::{JobPlan, JobRun, RunList};
use crate::row::JobRow;
use crate::teller::{JobTeller, tell_all};
use std::alloc::Global;
use std::marker::Model;
use svc_base::NoMemory;
use svc_record::{Action, ExecutionPhase};

/// What is known of each job, and its runs. Contracts see it without its memory, but for the room.
#[derive(Drop)]
pub(crate) struct Timetable {
    /// By the jobs' numbers.
    rows: Vec<JobRow>,
    /// The last moment that came, in milliseconds.
    last: u64,
    /// The shutdown has begun: nothing runs any more.
    shut: bool,
    runs: RunList,
}

impl Model for Timetable {
    ghost use Rattle.std.specs.Prelude.{length, ◌≤◌, ◌^◌};
    ghost use Rattle.svc_base.specs.Items.{list_of, spare};
    ghost use Rattle.svc_job_host.specs.TimetableData.{TimetableData};
    ghost use Rattle.svc_job_host.specs.Rows.{ArePaced};

    ghost Value = { TimetableData };

    ghost view = { λ t. record { rows = t.rows.items; last = t.last; shut = t.shut; runs = list_of t.runs; spare = spare t.runs } };

    ghost invariant = { λ t. ArePaced t.rows.items × (length t.rows.items ≤ 2 ^ 32) };
}

/// Runs the job at the place for so many due moments, if there are any.
fn run_job<J: Job>(jobs: &mut [J], s: usize, due: u64)
    requires { s < length jobs.old }
    ensures { (told : Option (List ℕ)) → slice_get (map J.told jobs.old) s ≡ Some told
        → map J.told jobs.new ≡ slice_set (map J.told jobs.old) s (told_after told due) }
{
    if due != 0 {
        jobs[s].run(due);
    }
}

/// Runs the job at the place, if it has due moments.
fn run_one<J: Job>(
    rows: &mut [JobRow],
    jobs: &mut [J],
    runs: &mut RunList,
    s: usize,
    last: u64,
    moment: u64,
)
    requires row { s < length rows.old }
    requires job { s < length jobs.old }
    requires number { s < 2 ^ 32 }
    requires paced { ArePaced rows.old }
    requires room { 0 < spare runs.old }
    ensures rows { (row : JobRow) → slice_get rows.old s ≡ Some row → rows.new ≡ slice_set rows.old s (ran_row row (row_due row last moment)) }
    ensures runs { (row : JobRow) → slice_get rows.old s ≡ Some row → list_of runs.new ≡ list_of runs.old ++ run_of s (row_due row last moment) moment }
    ensures told { (row : JobRow) (told : Option (List ℕ)) → slice_get rows.old s ≡ Some row → slice_get (map J.told jobs.old) s ≡ Some told
        → map J.told jobs.new ≡ slice_set (map J.told jobs.old) s (told_after told (row_due row last moment)) }
    ensures room { spare runs.old ≤ spare runs.new + 1 }
{
    let row = rows[s];
    let due = row.due(last, moment);
    rows[s] = row.after_run(due);
    run_job(jobs, s, due);
    if due != 0 {
        let job = s as u32;
        runs.put(JobRun { job, due, moment });
    }
}

/// Runs each job that has due moments, in ascending number.
fn run_all<J: Job>(rows: &mut [JobRow], jobs: &mut [J], runs: &mut RunList, last: u64, moment: u64)
    requires jobs { length jobs.old ≡ length rows.old }
    requires numbers { length rows.old ≤ 2 ^ 32 }
    requires paced { ArePaced rows.old }
    requires room { length rows.old ≤ spare runs.old }
    ensures rows { (s : ℕ) (row : JobRow) → slice_get rows.old s ≡ Some row → slice_get rows.new s ≡ Some (ran_row row (row_due row last moment)) }
    ensures paced { ArePaced rows.new }
    ensures runs { list_of runs.new ≡ list_of runs.old ++ runs_in rows.old last moment (length rows.old) }
    ensures told { (s : ℕ) (told : Option (List ℕ)) → slice_get (map J.told jobs.old) s ≡ Some told
        → slice_get (map J.told jobs.new) s ≡ Some (told_after told (due_in (slice_get rows.old s) last moment)) }
    ensures room { spare runs.old ≤ spare runs.new + length rows.old }
{
    for s in 0..rows.len() {
        run_one(rows, jobs, runs, s, last, moment);
    }
}

/// The rows of jobs that weren't started yet.
fn new_rows(alloc: Global, plans: &[JobPlan]) -> Result<Vec<JobRow>, NoMemory>
    ensures { IfOk result (λ rows. AreNewRows plans.now rows.items) }
{
    let mut rows = Vec::new(alloc);
    for plan in plans {
        rows.push(JobRow {
            every: plan.every,
            started: None,
            ran: false,
            owes: false,
        })?;
    }
    Ok(rows)
}

/// The first row of a job that has run and hasn't said yet that it is ready.
fn owing_at(rows: &[JobRow]) -> Option<usize>
    ensures { result ≡ position (λ (row : JobRow). row.owes) rows.now }
{
    rows.iter().position(|row| row.owes)
}

impl Timetable {
    /// The timetable of jobs that weren't started yet.
    pub(crate) fn new(alloc: Global, plans: &[JobPlan]) -> Result<Self, NoMemory>
        requires periods { HavePeriods plans.now }
        requires few { length plans.now ≤ 2 ^ 32 }
        ensures table { IfOk result (λ t. IsTimetableOf (periods_of plans.now) t []) }
    {
        let rows = new_rows(alloc, plans)?;
        Ok(Timetable {
            rows,
            last: 0,
            shut: false,
            runs: RunList::new(alloc),
        })
    }

    /// How many jobs there are.
    pub(crate) fn len(&self) -> usize
        ensures { result ≡ length self.now.rows }
    {
        self.rows.len()
    }

    /// The runs so far, the oldest first.
    pub(crate) fn runs(&self) -> &RunList
        ensures { list_of result.now ≡ self.now.runs }
    {
        &self.runs
    }

    /// Makes room for so many runs.
    pub(crate) fn reserve(&mut self, alloc: Global, n: u64) -> Result<(), NoMemory>
        ensures room { OnOk result (n ≤ self.new.spare) }
        ensures kept { self.old.spare ≤ self.new.spare }
        ensures same { self.new ≡ record self.old { spare = self.new.spare } }
    {
        self.runs.reserve(alloc, n)
    }

    /// What is known of each job, by number.
    pub(crate) fn rows(&self) -> &[JobRow]
        ensures rows { result.now ≡ self.now.rows }
        ensures paced { ArePaced self.now.rows }
    {
        self.rows.as_slice()
    }

    /// The last moment that came.
    pub(crate) fn last(&self) -> u64
        ensures { result ≡ self.now.last }
    {
        self.last
    }

    /// The shutdown has begun.
    pub(crate) fn is_shut(&self) -> bool
        ensures { result ≡ self.now.shut }
    {
        self.shut
    }

    /// Nothing runs at the moment: the shutdown has begun, or time goes back.
    fn is_late(&self, moment: u64) -> bool
        ensures { result ≡ (self.now.shut || nat_lt moment self.now.last) }
    {
        self.shut || moment < self.last
    }

    /// Time goes on to a moment: each job that is due runs.
    pub(crate) fn take_moment<J: Job>(&mut self, jobs: &mut [J], moment: u64)
        requires jobs { length jobs.old ≡ length self.old.rows }
        requires room { length self.old.rows ≤ self.old.spare }
        ensures table { (periods : List ℕ) (q : Record) → IsTimetableOf periods self.old q → IsTimetableOf periods self.new (Got (events.Moment moment) ∷ q) }
        ensures told { (periods : List ℕ) (q : Record) (s : ℕ) (told : Option (List ℕ)) → IsTimetableOf periods self.old q
            → slice_get (map J.told jobs.old) s ≡ Some told
            → slice_get (map J.told jobs.new) s ≡ Some (told_after told (due_at periods q moment s)) }
        ensures room { self.old.spare ≤ self.new.spare + length self.old.rows }
        ensures sized { length self.new.rows ≡ length self.old.rows }
    {
        if self.is_late(moment) {
            self.last = moment;
            return;
        }
        run_all(&mut self.rows, jobs, &mut self.runs, self.last, moment);
        self.last = moment;
    }

    /// Time goes on to a moment: each job that is due runs, which is told. The runs aren't kept.
    pub(crate) fn tell_moment<T: JobTeller>(
        &mut self,
        plans: &[JobPlan],
        moment: u64,
        teller: &mut T,
    )
        requires plans { length plans.now ≡ length self.old.rows }
        ensures known { (periods : List ℕ) (q : Record) → IsKnownOf periods self.old q → IsKnownOf periods self.new (Got (events.Moment moment) ∷ q) }
        ensures told { (periods : List ℕ) (q : Record) → IsKnownOf periods self.old q
            → TellsMore (T.told teller.old) (T.told teller.new) (named plans.now (runs_at periods q moment)) }
        ensures sized { length self.new.rows ≡ length self.old.rows }
    {
        if self.is_late(moment) {
            self.last = moment;
            return;
        }
        tell_all(&mut self.rows, plans, self.last, moment, teller);
        self.last = moment;
    }

    /// The first job that has run and hasn't said yet that it is ready.
    pub(crate) fn first_owing(&self) -> Option<usize>
        ensures place { IfSome result (λ s. s < length self.now.rows) }
        ensures number { length self.now.rows ≤ 2 ^ 32 }
        ensures owing { (periods : List ℕ) (q : Record) → IsTimetableOf periods self.now q
            → MatchOption result (owing periods q ≡ []) (λ s. owing periods q ≡ s ∷ owing periods (Got (events.Ready s) ∷ q)) }
    {
        owing_at(&self.rows)
    }

    /// A job says that it is ready.
    pub(crate) fn take_ready(&mut self, s: usize)
        requires { s < length self.old.rows }
        ensures { self.new ≡ readied self.old s }
    {
        let row = self.rows[s];
        self.rows[s] = row.after_ready();
    }

    /// Notes an action: a start, or that the shutdown begins.
    pub(crate) fn note(&mut self, action: &Action)
        ensures { self.new ≡ noted self.old action.now }
    {
        match action {
            Action::Start(s) => self.note_start(*s as usize),
            Action::Broadcast => self.shut = true,
            Action::Phase(ExecutionPhase::ShutdownRuntimes, _) => self.shut = true,
            _ => {}
        }
    }

    /// Notes a start.
    pub(crate) fn note_start(&mut self, s: usize)
        ensures { self.new ≡ record self.old { rows = with_row self.old.rows s (λ row. started_row row self.old.last) } }
    {
        if s < self.rows.len() {
            let row = self.rows[s];
            self.rows[s] = row.after_start(self.last);
        }
    }
}
