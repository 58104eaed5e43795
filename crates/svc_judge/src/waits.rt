//! Whether the waits after the first signal are over, and how a run has ended.

ghost use Rattle.std.specs.Prelude.{◌≡◌, Option};
ghost use Rattle.svc_record.specs.Record.{now};
ghost use Rattle.svc_record.specs.Drain.{rest_end, grace_over, signal_grace_over, offer_grace_over, has_passed_by, waits_are_over};
ghost use Rattle.svc_record.specs.Ends.{has_ended, step_end};
ghost use Rattle.svc_judge.specs.Pasts.{IsPast, plan_of, record_of};
ghost use Rattle.svc_judge.specs.Steps.{has_rested, failed_end};

use crate::boot::has_bad_message;
use crate::ends::{
    ends_no_sender, ends_parent_badly, ends_parent_well, ends_tested, ends_transfer,
    has_ended_early,
};
use crate::looking::{has_cut, now, signal_of};
use crate::offer::{has_offer, is_over, over_moment};
use crate::past::{Past, Split};
use svc_record::{BootstrapError, Entry, Event, Plan, ShutdownSignal, StepEnd};

/// The offer was over 5,000 ms or more before the moment.
fn has_rested(before: &Past, ms: u64) -> bool
    requires { IsPast before.now }
    ensures { result ≡ has_rested (plan_of before.now) (record_of before.now) ms }
{
    is_over(before) && 5000 <= ms.saturating_sub(over_moment(before))
}

/// The first moment, once the offer is over, that is 5,000 ms or more after that.
#[tactic(auto, using(crate::proofs::FirstOfLemmas::rest_step))]
pub(crate) fn rest_end(past: &Past) -> Option<u64>
    requires { IsPast past.now }
    ensures { result ≡ rest_end (plan_of past.now) (record_of past.now) }
{
    let mut rest = *past;
    let mut found = None;
    'entries: while let Some(
        Split {
            entry,
            news: _,
            before,
        },
    ) = rest.split()
    {
        if let Entry::Got(Event::Moment(ms)) = entry
            && has_rested(&before, *ms)
        {
            found = Some(*ms);
        }
        rest = before;
    }
    found
}

/// The grace period that began at the one moment has passed at the other.
fn grace_over(plan: &Plan, moment: u64, since: u64) -> bool
    ensures { result ≡ grace_over plan.now moment since }
{
    plan.grace <= moment.saturating_sub(since) / 1000
}

/// The grace period that began at the signal has passed.
fn signal_grace_over(past: &Past) -> bool
    requires { IsPast past.now }
    ensures { result ≡ signal_grace_over (plan_of past.now) (record_of past.now) }
{
    let before = past.before_signal();
    grace_over(past.plan, now(past.entries), now(before.entries))
}

/// The time after the offer has passed, and the grace period that began then.
fn offer_grace_over(past: &Past) -> bool
    requires { IsPast past.now }
    ensures { result ≡ offer_grace_over (plan_of past.now) (record_of past.now) }
{
    match rest_end(past) {
        Some(since) => grace_over(past.plan, now(past.entries), since),
        None => false,
    }
}

/// The waits of the kind of signal have passed.
fn has_passed_by(past: &Past, signal: Option<ShutdownSignal>) -> bool
    requires { IsPast past.now }
    ensures { result ≡ has_passed_by (plan_of past.now) (record_of past.now) signal }
{
    match signal {
        None => false,
        Some(ShutdownSignal::FastShutdown) => true,
        Some(ShutdownSignal::GracefulTerminate) => signal_grace_over(past),
        Some(ShutdownSignal::GracefulUpgrade) => {
            if has_offer(past) {
                offer_grace_over(past)
            } else {
                signal_grace_over(past)
            }
        }
    }
}

/// The first signal has come, and its waits have passed or a cut ended them.
pub(crate) fn waits_are_over(past: &Past) -> bool
    requires { IsPast past.now }
    ensures { result ≡ waits_are_over (plan_of past.now) (record_of past.now) }
{
    has_cut(past.entries) || has_passed_by(past, signal_of(past.entries))
}

/// The run has ended in some way.
pub(crate) fn has_ended(past: &Past) -> bool
    requires { IsPast past.now }
    ensures { result ≡ has_ended (plan_of past.now) (record_of past.now) }
{
    waits_are_over(past) || ends_tested(past) || has_ended_early(past)
}

/// Why the server couldn't take over, if it couldn't.
fn failed_end(past: &Past) -> StepEnd
    requires { IsPast past.now }
    ensures { result ≡ failed_end (plan_of past.now) (record_of past.now) }
{
    if ends_transfer(past.entries) {
        StepEnd::Ended(BootstrapError::Transfer)
    } else if ends_no_sender(past) {
        StepEnd::Ended(BootstrapError::NoSender)
    } else if has_bad_message(past) {
        StepEnd::Ended(BootstrapError::BadMessage)
    } else {
        StepEnd::On
    }
}

/// How the run has ended, if it has.
pub(crate) fn step_end(past: &Past) -> StepEnd
    requires { IsPast past.now }
    ensures { result ≡ step_end (plan_of past.now) (record_of past.now) }
{
    if waits_are_over(past) {
        StepEnd::Served
    } else if ends_tested(past) {
        StepEnd::Tested
    } else if ends_parent_well(past) {
        StepEnd::Parent(0)
    } else if ends_parent_badly(past) {
        StepEnd::Parent(1)
    } else {
        failed_end(past)
    }
}
