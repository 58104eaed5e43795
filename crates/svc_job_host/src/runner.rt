//! What a host of jobs does by itself: it gives its items and the jobs' words, and runs what is due.

ghost use Rattle.std.specs.Prelude.{◌≡◌, ◌+◌, ◌<◌, ◌≤◌, ℕ, Option, [], ◌∷◌, length, slice_get, Some, IfSome};
ghost use Rattle.svc_base.specs.Items.{list_of};
ghost use Rattle.svc_record.specs.declared.entry.Entry.TheVariants.{Got};
ghost use Rattle.svc_record.specs.declared.event.Event.TheVariants as events;
ghost use Rattle.svc_record.specs.declared.item.Item.TheVariants as items_given;
ghost use Rattle.svc_record.specs.Record.{Record};
ghost use Rattle.svc_server.specs.InnerHosts.{record_with, faults_with, idles_with};
ghost use Rattle.svc_server.specs.ScriptHosts.{GivesFew};
ghost use Rattle.svc_job_host.specs.JobHosts.{AreJobItems};
ghost use Rattle.svc_job_host.specs.JobMakes.{runner_make};
ghost use Rattle.svc_job_host.specs.JobRunners.{KeepsRunner, moments_left};
ghost use Rattle.svc_job_host.specs.Rows.{owing};
ghost use Rattle.svc_job_host.specs.Timetables.{periods_of};

use crate::job::Job;
use crate::plan::{JobPlan, RunList};
use crate::timetable::Timetable;
use crate::upcoming::{NextItem, upcoming};
use std::alloc::Global;
use std::marker::Model;
use svc_base::NoMemory;
use svc_record::{Action, Event, Item};
use svc_server::InnerHost;

/// Jobs, and the items that are given between their words: at each moment the jobs that are due run,
/// and a job's first run is followed by its word that it is ready.
///
/// Contracts see the plans, the jobs, the items, and what is known of the jobs.
#[derive(Drop)]
pub(crate) struct JobRunner<J: Job> {
    /// By the jobs' numbers.
    plans: Vec<JobPlan>,
    jobs: Vec<J>,
    items: Vec<Item>,
    /// How many items it gave.
    given: usize,
    timetable: Timetable,
}

impl<J: Job> Model for JobRunner<J> {
    ghost use Rattle.std.specs.Prelude.{◌≡◌, length};
    ghost use Rattle.svc_job_host.specs.JobRunnerData.{JobRunnerData};
    ghost use Rattle.svc_job_host.specs.JobHosts.{AreJobItems};

    ghost Value = { JobRunnerData J };

    ghost view = { λ h. record {
      plans = h.plans.items;
      jobs = h.jobs.items;
      items = h.items.items;
      given = h.given;
      timetable = h.timetable;
    } };

    ghost invariant = { λ h. (length h.jobs.items ≡ length h.plans.items) × (length h.timetable.rows ≡ length h.plans.items) × AreJobItems h.items.items };
}

impl<J: Job> JobRunner<J> {
    /// Jobs by their plans, of which none was started yet, and items of which none was given.
    pub(crate) fn new(
        plans: Vec<JobPlan>,
        jobs: Vec<J>,
        items: Vec<Item>,
        timetable: Timetable,
    ) -> Self
        requires equal { length jobs.items ≡ length plans.items }
        requires rows { length timetable.rows ≡ length plans.items }
        requires items { AreJobItems items.items }
        ensures { result ≡ record { plans = plans.items; jobs = jobs.items; items = items.items; given = 0; timetable = timetable } }
    {
        JobRunner {
            plans,
            jobs,
            items,
            given: 0,
            timetable,
        }
    }

    /// The runs so far, the oldest first.
    pub(crate) fn runs(&self) -> &RunList
        ensures { list_of result.now ≡ self.now.timetable.runs }
    {
        self.timetable.runs()
    }

    /// A job says that it is ready: the first that owes its word.
    fn take_ready(&mut self, s: usize)
        requires row { s < length self.old.timetable.rows }
        ensures keeps { (q : Record) (faults idles : ℕ) → KeepsRunner J.told self.old q faults idles
            → owing (periods_of self.old.plans) q ≡ s ∷ owing (periods_of self.old.plans) (Got (events.Ready s) ∷ q)
            → KeepsRunner J.told self.new (Got (events.Ready s) ∷ q) faults idles }
        ensures made { runner_make J.told self.new ≡ runner_make J.told self.old }
        ensures room { moments_left self.new ≡ moments_left self.old }
    {
        self.timetable.take_ready(s);
    }

    /// Time goes on, and each job that is due runs.
    fn take_moment(&mut self, moment: u64)
        requires room { 0 < moments_left self.old }
        requires next { slice_get self.old.items self.old.given ≡ Some (items_given.Event (events.Moment moment)) }
        ensures keeps { (q : Record) (faults idles : ℕ) → KeepsRunner J.told self.old q faults idles → owing (periods_of self.old.plans) q ≡ []
            → KeepsRunner J.told self.new (Got (events.Moment moment) ∷ q) faults idles }
        ensures made { (q : Record) (faults idles : ℕ) → KeepsRunner J.told self.old q faults idles
            → runner_make J.told self.new ≡ runner_make J.told self.old }
        ensures room { moments_left self.old ≤ moments_left self.new + 1 }
    {
        self.given += 1;
        self.timetable.take_moment(&mut self.jobs, moment);
    }

    /// Gives the next item of the list, where no job owes its word.
    fn give_item(&mut self) -> Option<Item>
        requires room { 0 < moments_left self.old }
        ensures few { IfSome result GivesFew }
        ensures keeps { (q : Record) (faults idles : ℕ) → KeepsRunner J.told self.old q faults idles → owing (periods_of self.old.plans) q ≡ []
            → KeepsRunner J.told self.new (record_with result q) (faults_with result faults) (idles_with result idles) }
        ensures made { (q : Record) (faults idles : ℕ) → KeepsRunner J.told self.old q faults idles
            → runner_make J.told self.new ≡ runner_make J.told self.old }
        ensures room { moments_left self.old ≤ moments_left self.new + 1 }
    {
        match upcoming(&self.items, self.given) {
            NextItem::Moment(moment) => {
                self.take_moment(moment);
                Some(Item::Event(Event::Moment(moment)))
            }
            NextItem::Signal(kind) => {
                self.given += 1;
                Some(Item::Event(Event::Signal(kind)))
            }
            NextItem::Fault => Some(Item::Fault),
            NextItem::Nothing => None,
        }
    }
}

impl<J: Job> InnerHost for JobRunner<J> {
    ghost keeps = { λ h q faults idles. KeepsRunner J.told h q faults idles };

    ghost spare = { λ h. moments_left h };

    ghost made_of = { λ h. Some (runner_make J.told h) };

    fn reserve(&mut self, alloc: Global, n: u64) -> Result<(), NoMemory> {
        let Some(runs) = n.checked_mul(self.jobs.len() as u64 + 1) else {
            return Err(NoMemory);
        };
        self.timetable.reserve(alloc, runs)
    }

    fn give(&mut self) -> Option<Item> {
        match self.timetable.first_owing() {
            Some(s) => {
                self.take_ready(s);
                Some(Item::Event(Event::Ready(s as u32)))
            }
            None => self.give_item(),
        }
    }

    fn note(&mut self, action: &Action) {
        self.timetable.note(action);
    }
}
