//! What is known of a record's prefix, and stays so while entries of connections and moments alone are taken away.

ghost use Rattle.std.specs.Prelude.{Bool, ◌≡◌, ◌∷◌, Some};
ghost use Rattle.svc_record.specs.declared.plan.Plan.{Plan};
ghost use Rattle.svc_record.specs.Record.{Record};
ghost use Rattle.svc_record.specs.Ends.{has_ended};
ghost use Rattle.svc_record.specs.Fits.{accepts, fits_row, event_fits};
ghost use Rattle.svc_record.specs.declared.entry.Entry.TheVariants.{Got};
ghost use Rattle.svc_record.specs.declared.event.Event.TheVariants.{Moment};
ghost use Rattle.svc_judge.specs.Chains.{IsChains};
ghost use Rattle.svc_judge.specs.Still.{is_still, is_idle};
ghost use Rattle.svc_judge.specs.Stirred.{is_in_run, only_stirs};
ghost use Rattle.svc_judge.specs.Memos.{IsMemo, is_of_service, ended_alone};
ghost use Rattle.svc_judge.specs.Pasts.{IsPast, plan_of, record_of};

use crate::alone::alone_fits;
use crate::anew::is_of_connection;
use crate::chains::Chains;
use crate::looking::now;
use crate::past::Past;
use crate::still::is_at_moment;
use crate::stirred::are_stirs;
use crate::{fits, still, stirred, waits};
use svc_record::{Action, Entry, Event};

/// Whether an endpoint accepts.
#[derive(Clone, Copy)]
pub(crate) struct Accepting {
    service: u64,
    endpoint: u64,
    holds: bool,
}

/// Whether the run has ended, whether time alone changes nothing, whether the run runs and nothing was broadcast, and whether
/// an endpoint accepts, where that is known.
#[derive(Clone, Copy)]
pub(crate) struct Memo {
    ended: Option<bool>,
    still: Option<bool>,
    in_run: Option<bool>,
    accepting: Option<Accepting>,
}

/// The entry is of a service, of an endpoint, or a close, by none of which a run ends.
fn is_of_service(entry: &Entry) -> bool
    ensures { result ≡ is_of_service entry.now }
{
    match entry {
        Entry::Got(
            Event::Ready(_)
            | Event::Ended(_)
            | Event::Bound(_, _, _)
            | Event::InUse(_, _)
            | Event::BindFailed(_, _)
            | Event::Adopted(_, _)
            | Event::AdoptFailed(_, _),
        ) => true,
        Entry::Told(
            Action::Start(_)
            | Action::Fail(_)
            | Action::Bind(_, _)
            | Action::Adopt(_, _, _)
            | Action::Close(_),
        ) => true,
        _ => false,
    }
}

impl Memo {
    /// Nothing is known.
    pub(crate) fn new() -> Self
        ensures { (p : Plan) (q : Record) → IsMemo result p q }
    {
        Memo {
            ended: None,
            still: None,
            in_run: None,
            accepting: None,
        }
    }

    /// Whether the run had ended before its newest entry, a moment, where that is known.
    fn ended_before(self, ms: u64, before: &[Entry]) -> Option<bool>
        ensures { (p : Plan) → IsMemo self p (Got (Moment ms) ∷ before.now) → (b : Bool) → result ≡ Some b → b ≡ has_ended p before.now }
    {
        if let Some(false) = self.ended
            && let Some(true) = self.still
            && now(before) <= ms
        {
            return Some(false);
        }
        None
    }

    /// What is known without the newest entry, a moment.
    fn before_moment(self, ms: u64, before: &[Entry]) -> Self
        ensures { (p : Plan) → IsMemo self p (Got (Moment ms) ∷ before.now) → IsMemo result p before.now }
    {
        Memo {
            ended: self.ended_before(ms, before),
            still: self.still,
            in_run: self.in_run,
            accepting: self.accepting,
        }
    }

    /// Whether the run has ended, and whether it runs, where that is known, and nothing else.
    fn ended_alone(self) -> Self
        ensures { result ≡ ended_alone self }
    {
        Memo {
            ended: self.ended,
            still: None,
            in_run: self.in_run,
            accepting: None,
        }
    }

    /// What is known without the newest entry.
    #[tactic(auto, using(crate::proofs::MemoLemmas::memo_before, crate::proofs::MemoLemmas::memo_service))]
    pub(crate) fn before(self, entry: &Entry, before: &[Entry]) -> Self
        ensures { (p : Plan) → IsMemo self p (entry.now ∷ before.now) → IsMemo result p before.now }
    {
        if is_of_connection(entry) {
            return self;
        }
        if is_of_service(entry) {
            return self.ended_alone();
        }
        match entry {
            Entry::Got(Event::Moment(ms)) => self.before_moment(*ms, before),
            _ => Memo::new(),
        }
    }

    /// Whether the run has ended.
    fn has_ended(&mut self, past: &Past) -> bool
        requires past { IsPast past.now }
        requires memo { IsMemo self.old (plan_of past.now) (record_of past.now) }
        ensures is { result ≡ has_ended (plan_of past.now) (record_of past.now) }
        ensures memo { IsMemo self.new (plan_of past.now) (record_of past.now) }
    {
        if let Some(ended) = self.ended {
            return ended;
        }
        let ended = waits::has_ended(past);
        self.ended = Some(ended);
        ended
    }

    /// Whether neither a bind nor a try nor an offer rests.
    fn is_still(&mut self, past: &Past) -> bool
        requires { IsMemo self.old (plan_of past.now) (record_of past.now) }
        ensures is { result ≡ is_still (record_of past.now) }
        ensures memo { IsMemo self.new (plan_of past.now) (record_of past.now) }
    {
        if let Some(still) = self.still {
            return still;
        }
        let still = still::is_still(past.entries);
        self.still = Some(still);
        still
    }

    /// Whether a moment came last, nothing rests, and the run goes on.
    pub(crate) fn is_idle(&mut self, past: &Past) -> bool
        requires past { IsPast past.now }
        requires memo { IsMemo self.old (plan_of past.now) (record_of past.now) }
        ensures is { result ≡ is_idle (plan_of past.now) (record_of past.now) }
        ensures memo { IsMemo self.new (plan_of past.now) (record_of past.now) }
    {
        is_at_moment(past.entries) && self.is_still(past) && !self.has_ended(past)
    }

    /// Whether the run runs, and nothing was broadcast.
    fn is_in_run(&mut self, past: &Past) -> bool
        requires { IsMemo self.old (plan_of past.now) (record_of past.now) }
        ensures is { result ≡ is_in_run (plan_of past.now) (record_of past.now) }
        ensures memo { IsMemo self.new (plan_of past.now) (record_of past.now) }
    {
        if let Some(in_run) = self.in_run {
            return in_run;
        }
        let in_run = stirred::is_in_run(past);
        self.in_run = Some(in_run);
        in_run
    }

    /// Whether words of services, their starts, binds and addresses in use alone came since the last step, in a run that
    /// runs.
    pub(crate) fn only_stirs(&mut self, past: &Past) -> bool
        requires past { IsPast past.now }
        requires memo { IsMemo self.old (plan_of past.now) (record_of past.now) }
        ensures is { result ≡ only_stirs (plan_of past.now) (record_of past.now) }
        ensures memo { IsMemo self.new (plan_of past.now) (record_of past.now) }
    {
        are_stirs(past) && self.is_in_run(past)
    }

    /// Whether the endpoint accepts.
    fn accepts(&mut self, past: &Past, s: u64, i: u64) -> bool
        requires past { IsPast past.now }
        requires memo { IsMemo self.old (plan_of past.now) (record_of past.now) }
        ensures is { result ≡ accepts (plan_of past.now) (record_of past.now) s i }
        ensures memo { IsMemo self.new (plan_of past.now) (record_of past.now) }
    {
        if let Some(known) = self.accepting
            && known.service == s
            && known.endpoint == i
        {
            return known.holds;
        }
        let holds = fits::accepts(past, s, i);
        self.accepting = Some(Accepting {
            service: s,
            endpoint: i,
            holds,
        });
        holds
    }

    /// The event's condition holds.
    fn fits_row(&mut self, event: &Event, entry: &Entry, past: &Past, chains: &Chains) -> bool
        requires entry { entry.now ≡ Got event.now }
        requires past { IsPast past.now }
        requires memo { IsMemo self.old (plan_of past.now) (record_of past.now) }
        requires chains { IsChains chains.now (record_of past.now) }
        ensures is { result ≡ fits_row (plan_of past.now) (record_of past.now) event.now }
        ensures memo { IsMemo self.new (plan_of past.now) (record_of past.now) }
    {
        match event {
            Event::Arrived(s, i, _, _) => {
                self.accepts(past, u64::from(*s), u64::from(*i)) && alone_fits(entry, chains)
            }
            Event::Set(_, _) | Event::Shaken(_, _) | Event::Finished(_) => {
                alone_fits(entry, chains)
            }
            _ => fits::fits_row(event, past),
        }
    }

    /// An event fits what stands before it: the run hasn't ended, and the event's condition holds.
    pub(crate) fn event_fits(&mut self, entry: &Entry, past: &Past, chains: &Chains) -> bool
        requires past { IsPast past.now }
        requires memo { IsMemo self.old (plan_of past.now) (record_of past.now) }
        requires chains { IsChains chains.now (record_of past.now) }
        ensures is { result ≡ event_fits (plan_of past.now) entry.now (record_of past.now) }
        ensures memo { IsMemo self.new (plan_of past.now) (record_of past.now) }
    {
        match entry {
            Entry::Got(event) => {
                !self.has_ended(past) && self.fits_row(event, entry, past, chains)
            }
            Entry::Told(_) => true,
        }
    }
}
