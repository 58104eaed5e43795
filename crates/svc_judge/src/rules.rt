//! The rules of a right record: those of an entry with what stands before it, and those of a settled prefix.

ghost use Rattle.std.specs.Prelude.{◌≡◌, ◌==◌};
ghost use Rattle.svc_record.specs.Record.{each_entry};
ghost use Rattle.svc_record.specs.Drain.{is_boot_phase, moment_right, every_moment_right};
ghost use Rattle.svc_judge.specs.Pasts.{IsPast, plan_of, record_of};
ghost use Rattle.svc_judge.specs.Rules.{entry_test};

use crate::boot::{boot_due, fork_first, stands_first, start_after_boot, try_due};
use crate::closes::{close_due, close_once};
use crate::connections::{connection_known, rest_due};
use crate::endpoints::{ask_due, ask_known};
use crate::failed::{start_due, start_known};
use crate::fits::event_fits;
use crate::looking::now;
use crate::offer::{offer_due, retry_due};
use crate::past::{Past, Split};
use svc_record::{Action, Entry, ExecutionPhase};

/// A rule of an entry with what stands before it.
#[derive(Clone, Copy)]
pub(crate) enum EntryRule {
    Fits,
    StartDue,
    AskDue,
    BootDue,
    TryDue,
    RetryDue,
    CloseOnce,
    EveryMoment,
    StartKnown,
    AskKnown,
    ConnectionKnown,
    StandsFirst,
    ForkFirst,
    StartAfterBoot,
    OfferDue,
    RestDue,
    Moment,
    CloseDue,
}

/// One of bootstrap's two phases.
pub(crate) fn is_boot_phase(phase: ExecutionPhase) -> bool
    ensures { result ≡ is_boot_phase phase }
{
    match phase {
        ExecutionPhase::Bootstrap | ExecutionPhase::BootstrapComplete => true,
        _ => false,
    }
}

/// A phase carries its moment; bootstrap's two aside, and with them.
fn moment_right(entry: &Entry, before: &[Entry]) -> bool
    ensures { result ≡ moment_right entry.now before.now }
{
    match entry {
        Entry::Told(Action::Phase(phase, ms)) => is_boot_phase(*phase) || *ms == now(before),
        _ => true,
    }
}

/// A phase carries its moment, bootstrap's two among them.
fn every_moment_right(entry: &Entry, before: &[Entry]) -> bool
    ensures { result ≡ every_moment_right entry.now before.now }
{
    match entry {
        Entry::Told(Action::Phase(_, ms)) => *ms == now(before),
        _ => true,
    }
}

impl EntryRule {
    /// The entry keeps the rule after what stands before it.
    pub(crate) fn holds(self, entry: &Entry, before: &Past) -> bool
        requires { IsPast before.now }
        ensures { result ≡ entry_test self (plan_of before.now) entry.now (record_of before.now) }
    {
        match self {
            EntryRule::Fits => event_fits(entry, before),
            EntryRule::StartDue => start_due(entry, before),
            EntryRule::AskDue => ask_due(entry, before),
            EntryRule::BootDue => boot_due(entry, before),
            EntryRule::TryDue => try_due(entry, before.entries),
            EntryRule::RetryDue => retry_due(entry, before.entries),
            EntryRule::CloseOnce => close_once(entry, before),
            EntryRule::EveryMoment => every_moment_right(entry, before.entries),
            EntryRule::StartKnown => start_known(entry, before),
            EntryRule::AskKnown => ask_known(entry, before),
            EntryRule::ConnectionKnown => connection_known(entry, before),
            EntryRule::StandsFirst => stands_first(entry, before.entries),
            EntryRule::ForkFirst => fork_first(entry, before),
            EntryRule::StartAfterBoot => start_after_boot(entry, before),
            EntryRule::OfferDue => offer_due(entry, before),
            EntryRule::RestDue => rest_due(entry, before.entries),
            EntryRule::Moment => moment_right(entry, before.entries),
            EntryRule::CloseDue => close_due(entry, before),
        }
    }
}

/// Each entry keeps the rule.
pub(crate) fn each_entry(rule: EntryRule, past: &Past) -> bool
    requires { IsPast past.now }
    ensures { result ≡ each_entry (entry_test rule (plan_of past.now)) (record_of past.now) }
{
    let mut rest = *past;
    'entries: while let Some(
        Split {
            entry,
            news: _,
            before,
        },
    ) = rest.split()
    {
        if !rule.holds(entry, &before) {
            return false;
        }
        rest = before;
    }
    true
}
