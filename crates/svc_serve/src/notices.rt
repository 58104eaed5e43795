//! What a run says besides: its record in a log file, on standard error what an operator should know, and on
//! standard output the runs of jobs.

ghost use Rattle.std.specs.Prelude.{◌≡◌};

use crate::generation::ServedLog;
use crate::generations::Ground;
use crate::jobs::JobLines;
use crate::planning::Stays;
use crate::successors::Successors;
use std::fmt;
use std::sync::Wait;
use svc_host::Recorder;
use svc_job_host::ServedJobs;
use svc_record::{Action, Entry, Event, Plan, ShutdownSignal};
use svc_system::{LogState, UpgradeAnswer};

/// The log, if there is one, the jobs, and standard error, where services and addresses stand by their names.
#[derive(Drop)]
pub(crate) struct Notices<'t, 'a, R: Wait> {
    rt: &'a HostRuntime,
    speaker: Speaker,
    plan: Plan,
    log: ServedLog,
    jobs: Vec<ServedJobs>,
    successors: Successors<'t, 'a, R>,
    /// The next moment at which one of them runs, if there is one.
    due: Option<u64>,
    /// That the log isn't whole was said.
    is_said: bool,
    /// The sockets are to go over to a newer generation, and no operator has ended this one at once since.
    is_offered: bool,
}

/// Who says something on standard error: the program, or one of its generations behind the first.
#[derive(Clone, Copy)]
struct Speaker(u64);

impl fmt::Display for Speaker {
    fn fmt<W: fmt::Write>(&self, f: &mut fmt::Formatter<W>) -> fmt::Result {
        match self.0 {
            1 => write!(f, "svc serve"),
            number => write!(f, "svc serve: generation {number}"),
        }
    }
}

/// The name of a service.
fn name_of(plan: &Plan, service: u32) -> &str {
    match plan.services.as_slice().get(service as usize) {
        Some(service) => service.name.as_str(),
        None => "",
    }
}

/// The address of an endpoint.
fn address_of(plan: &Plan, service: u32, number: u32) -> &str {
    match plan.services.as_slice().get(service as usize) {
        Some(service) => match service.endpoints.as_slice().get(number as usize) {
            Some(endpoint) => endpoint.address.as_str(),
            None => "",
        },
        None => "",
    }
}

/// Jobs may be due at another moment after the entry: it is a moment, a start or of a shutdown.
fn may_change_due(entry: &Entry) -> bool {
    matches!(
        entry,
        Entry::Got(Event::Moment(_))
            | Entry::Told(Action::Start(_) | Action::Broadcast | Action::Phase(_, _))
    )
}

/// The signal that came, if the entry says one.
fn signal_in(entry: &Entry) -> Option<ShutdownSignal> {
    let Entry::Got(event) = entry else {
        return None;
    };
    match event {
        Event::Signal(signal) => Some(*signal),
        _ => None,
    }
}

impl<'t, 'a, R: Wait> Notices<'t, 'a, R> {
    /// Notices of a run of this plan that hasn't begun, of the generation with this number.
    pub(crate) fn new(
        ground: &'t Ground<'a, R>,
        number: u64,
        plan: Plan,
        log: ServedLog,
        jobs: Vec<ServedJobs>,
        stays: Stays,
    ) -> Self {
        Notices {
            rt: ground.rt,
            speaker: Speaker(number),
            plan,
            log,
            jobs,
            successors: Successors::new(ground, stays, number),
            due: None,
            is_said: false,
            is_offered: false,
        }
    }

    /// The sockets are to go over to a newer generation, and no operator has ended this one at once since.
    pub(crate) fn is_offered(&self) -> bool
        ensures { result ≡ self.now.is_offered }
    {
        self.is_offered
    }

    /// Says what became of an endpoint.
    fn say_endpoint(&self, service: u32, number: u32, what: &str) {
        let rt = self.rt;
        let speaker = self.speaker;
        let name = name_of(&self.plan, service);
        let address = address_of(&self.plan, service, number);
        let _ = eprintln!(rt; "{speaker}: {name}: {address} {what}");
    }

    /// Says that an accept failed.
    fn say_accept(&self, service: u32, number: u32, error: u32) {
        let rt = self.rt;
        let speaker = self.speaker;
        let name = name_of(&self.plan, service);
        let address = address_of(&self.plan, service, number);
        let _ = eprintln!(rt; "{speaker}: {name}: {address} can't accept: error {error}");
    }

    /// Says that a service is given up.
    fn say_failed(&self, service: u32) {
        let rt = self.rt;
        let speaker = self.speaker;
        let name = name_of(&self.plan, service);
        let _ = eprintln!(rt; "{speaker}: {name} is given up");
    }

    /// Says that no newer generation got the sockets.
    fn say_unsent(&self) {
        let rt = self.rt;
        let speaker = self.speaker;
        let _ = eprintln!(rt; "{speaker}: the sockets can't be handed over");
    }

    /// Says what an entry means for an operator.
    fn say(&self, entry: &Entry) {
        match entry {
            Entry::Got(Event::BindFailed(s, i)) => self.say_endpoint(*s, *i, "can't be bound"),
            Entry::Got(Event::InUse(s, i)) => {
                self.say_endpoint(*s, *i, "is in use, and is tried again in a second")
            }
            Entry::Got(Event::AcceptFailed(s, i, n)) => self.say_accept(*s, *i, *n),
            Entry::Got(Event::SendFailed) => self.say_unsent(),
            Entry::Told(Action::Fail(s)) => self.say_failed(*s),
            _ => {}
        }
    }

    /// Notes that the sockets are to go over, or that this generation is ended at once.
    fn note_signal(&mut self, entry: &Entry) {
        match signal_in(entry) {
            Some(ShutdownSignal::GracefulUpgrade) => self.is_offered = true,
            Some(ShutdownSignal::FastShutdown) => self.is_offered = false,
            _ => {}
        }
    }

    /// Shows an entry to the jobs, which run where they are due.
    fn run_jobs(&mut self, entry: &Entry) {
        let mut lines = JobLines::new(self.rt);
        for jobs in self.jobs.iter_mut() {
            jobs.note(entry, &mut lines);
        }
        if may_change_due(entry) {
            self.due = self.jobs.iter().filter_map(|jobs| jobs.next_due()).min();
        }
    }

    /// Says once that the log isn't whole.
    fn say_cut(&mut self) {
        if !self.is_said {
            self.is_said = true;
            let rt = self.rt;
            let speaker = self.speaker;
            let _ = eprintln!(rt; "{speaker}: the log can't be written any more");
        }
    }
}

impl<'t, 'a, R: Wait> Recorder for Notices<'t, 'a, R> {
    fn note(&mut self, entry: &Entry) {
        self.say(entry);
        self.note_signal(entry);
        if let Some(log) = &mut self.log {
            log.note(entry);
        }
        self.run_jobs(entry);
    }

    fn due(&self) -> Option<u64> {
        self.due
    }

    fn settle(&mut self) -> LogState {
        let state = match &mut self.log {
            Some(log) => log.settle(),
            None => LogState::Absent,
        };
        if state == LogState::Cut {
            self.say_cut();
        }
        state
    }

    fn upgrade(&mut self, file: &str) -> UpgradeAnswer {
        self.successors.begin(file)
    }
}
