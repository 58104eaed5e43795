//! What is known of one job.

ghost use Rattle.std.specs.Prelude.{◌≡◌, ◌<◌};
ghost use Rattle.svc_moments.specs.Least.{IsLeast};
ghost use Rattle.svc_job_host.specs.Dues.{due_since};
ghost use Rattle.svc_job_host.specs.Rows.{row_due, ran_row};
ghost use Rattle.svc_job_host.specs.Timetables.{started_row, told_row};

/// What is known of a job.
#[derive(Clone, Copy)]
pub(crate) struct JobRow {
    /// Its period, in milliseconds.
    pub every: u64,
    /// The moment at which it was started.
    pub started: Option<u64>,
    pub ran: bool,
    /// It has run, and hasn't said yet that it is ready.
    pub owes: bool,
}

/// How many due moments lie after the last moment and up to this one.
fn due_since(every: u64, started: Option<u64>, last: u64, moment: u64) -> u64
    requires { 0 < every }
    ensures { result ≡ due_since every started last moment }
{
    match started {
        None => 0,
        Some(start) => {
            let due = moment.saturating_sub(start) / every;
            due.saturating_sub(last.saturating_sub(start) / every)
        }
    }
}

impl JobRow {
    /// The least moment at which it has due moments since the last moment; none where it wasn't started, or
    /// where that moment is beyond 64 bits.
    pub(crate) fn next_due(&self, last: u64) -> Option<u64>
        requires { 0 < self.now.every }
        ensures { IsLeast (λ t. 0 < row_due self.now last t) result }
    {
        let start = self.started?;
        let passed = last.saturating_sub(start) / self.every;
        let later = passed.checked_add(1)?.checked_mul(self.every)?;
        start.checked_add(later)
    }

    /// How many due moments it has since the last moment.
    pub(crate) fn due(&self, last: u64, moment: u64) -> u64
        requires { 0 < self.now.every }
        ensures { result ≡ row_due self.now last moment }
    {
        due_since(self.every, self.started, last, moment)
    }

    /// The row after a run for so many due moments.
    pub(crate) fn after_run(self, due: u64) -> JobRow
        ensures { result ≡ ran_row self due }
    {
        if due == 0 {
            return self;
        }
        JobRow {
            every: self.every,
            started: self.started,
            ran: true,
            owes: self.owes || !self.ran,
        }
    }

    /// The row after a start at this moment.
    pub(crate) fn after_start(self, moment: u64) -> JobRow
        ensures { result ≡ started_row self moment }
    {
        JobRow {
            started: Some(moment),
            ..self
        }
    }

    /// The row after the job's word that it is ready.
    pub(crate) fn after_ready(self) -> JobRow
        ensures { result ≡ told_row self }
    {
        JobRow {
            owes: false,
            ..self
        }
    }
}
