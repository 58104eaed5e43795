//! Whether each phase, and the broadcast, is told when it is due.

ghost use Rattle.std.specs.Prelude.{◌≡◌, ◌==◌, Option};
ghost use Rattle.std.specs.Option.{option_copied};
ghost use Rattle.svc_record.specs.Drain.{same_mark, phase_number, offer_row, row_by, wait_row, phases_right};
ghost use Rattle.svc_judge.specs.Pasts.{IsPast, plan_of, record_of};
ghost use Rattle.svc_judge.specs.Marks.{mark_of, before_mark, after_mark, strip, has_no_mark, has_start, phase_mark};

use crate::looking::{has, has_cut, signal_of};
use crate::offer::{has_offer, is_over};
use crate::past::Past;
use crate::query::{Order, Query};
use crate::rules::is_boot_phase;
use crate::waits::{rest_end, waits_are_over};
use svc_record::{Action, Entry, ExecutionPhase, ShutdownSignal};

/// A phase or the broadcast.
#[derive(Clone, Copy)]
pub(crate) enum Sign {
    Phase(ExecutionPhase),
    Broadcast,
}

/// The two phases are one.
fn same_phase(one: ExecutionPhase, other: ExecutionPhase) -> bool
    ensures { result ≡ (phase_number one == phase_number other) }
{
    phase_number(one) == phase_number(other)
}

/// A number for each phase, to compare by.
pub(crate) fn phase_number(phase: ExecutionPhase) -> u8
    ensures { result ≡ phase_number phase }
{
    match phase {
        ExecutionPhase::Setup => 0,
        ExecutionPhase::Bootstrap => 1,
        ExecutionPhase::BootstrapComplete => 2,
        ExecutionPhase::Running => 3,
        ExecutionPhase::GracefulUpgradeTransferringFds => 4,
        ExecutionPhase::GracefulUpgradeCloseTimeout => 5,
        ExecutionPhase::GracefulTerminate => 6,
        ExecutionPhase::ShutdownStarted => 7,
        ExecutionPhase::ShutdownGracePeriod => 8,
        ExecutionPhase::ShutdownRuntimes => 9,
        ExecutionPhase::Terminated => 10,
    }
}

impl Sign {
    /// It is this phase.
    fn is_phase(self, phase: ExecutionPhase) -> bool
        ensures { result ≡ same_mark (phase_mark phase) (mark_of self) }
    {
        match self {
            Sign::Phase(own) => same_phase(phase, own),
            Sign::Broadcast => false,
        }
    }
}

/// What stands before the newest mark, where that is this one; none where it isn't.
fn before_mark(sign: Sign, entries: &[Entry]) -> Option<&[Entry]>
    ensures { option_copied result ≡ before_mark (mark_of sign) entries.now }
{
    let mut rest = entries;
    'entries: while let Some((entry, before)) = rest.split_first() {
        match entry {
            Entry::Told(Action::Phase(phase, _)) => {
                if !is_boot_phase(*phase) {
                    return if sign.is_phase(*phase) {
                        Some(before)
                    } else {
                        None
                    };
                }
            }
            Entry::Told(Action::Broadcast) => {
                return match sign {
                    Sign::Phase(_) => None,
                    Sign::Broadcast => Some(before),
                };
            }
            _ => {}
        }
        rest = before;
    }
    None
}

/// The same, where there is a record.
fn after<'a>(sign: Sign, rest: Option<&'a [Entry]>) -> Option<&'a [Entry]>
    ensures { option_copied result ≡ after_mark (mark_of sign) (option_copied rest.entry) }
{
    match rest {
        Some(entries) => before_mark(sign, entries),
        None => None,
    }
}

/// The same, of a phase.
fn after_phase<'a>(phase: ExecutionPhase, rest: Option<&'a [Entry]>) -> Option<&'a [Entry]>
    ensures { option_copied result ≡ after_mark (phase_mark phase) (option_copied rest.entry) }
{
    after(Sign::Phase(phase), rest)
}

/// No mark is left.
fn has_no_mark(entries: &[Entry]) -> bool
    ensures { result ≡ has_no_mark entries.now }
{
    let mut rest = entries;
    'entries: while let Some((entry, before)) = rest.split_first() {
        match entry {
            Entry::Told(Action::Phase(phase, _)) => {
                if !is_boot_phase(*phase) {
                    return false;
                }
            }
            Entry::Told(Action::Broadcast) => return false,
            _ => {}
        }
        rest = before;
    }
    true
}

/// What stands before the phases and the broadcast that are due after an upgrade signal and before the end,
/// where something is offered.
#[tactic(auto, using(crate::proofs::MarkLemmas::strip_append))]
fn strip_offer_row<'a>(past: &Past, rest: Option<&'a [Entry]>) -> Option<&'a [Entry]>
    requires { IsPast past.now }
    ensures { option_copied result ≡ strip (offer_row (plan_of past.now) (record_of past.now)) (option_copied rest.entry) }
{
    let rested = if rest_end(past).is_some() {
        let grace = after_phase(ExecutionPhase::ShutdownGracePeriod, rest);
        let started = after_phase(ExecutionPhase::ShutdownStarted, grace);
        after(Sign::Broadcast, started)
    } else {
        rest
    };
    let timed = if is_over(past) {
        after_phase(ExecutionPhase::GracefulUpgradeCloseTimeout, rested)
    } else {
        rested
    };
    after_phase(ExecutionPhase::GracefulUpgradeTransferringFds, timed)
}

/// What stands before those that are due after the kind of signal and before its end.
fn strip_row_by<'a>(
    past: &Past,
    signal: Option<ShutdownSignal>,
    rest: Option<&'a [Entry]>,
) -> Option<&'a [Entry]>
    requires { IsPast past.now }
    ensures { option_copied result ≡ strip (row_by (plan_of past.now) (record_of past.now) signal) (option_copied rest.entry) }
{
    match signal {
        None => rest,
        Some(ShutdownSignal::FastShutdown) => after_phase(ExecutionPhase::ShutdownStarted, rest),
        Some(ShutdownSignal::GracefulTerminate) => {
            let grace = after_phase(ExecutionPhase::ShutdownGracePeriod, rest);
            let started = after_phase(ExecutionPhase::ShutdownStarted, grace);
            let terminating = after_phase(ExecutionPhase::GracefulTerminate, started);
            after(Sign::Broadcast, terminating)
        }
        Some(ShutdownSignal::GracefulUpgrade) => {
            if has_offer(past) {
                strip_offer_row(past, rest)
            } else {
                let grace = after_phase(ExecutionPhase::ShutdownGracePeriod, rest);
                let started = after_phase(ExecutionPhase::ShutdownStarted, grace);
                let transferring = after(Sign::Broadcast, started);
                after_phase(ExecutionPhase::GracefulUpgradeTransferringFds, transferring)
            }
        }
    }
}

/// The start of the shutdown is among them.
fn has_start(past: &Past, signal: Option<ShutdownSignal>) -> bool
    requires { IsPast past.now }
    ensures { result ≡ has_start (plan_of past.now) (record_of past.now) signal }
{
    match signal {
        None => false,
        Some(ShutdownSignal::FastShutdown | ShutdownSignal::GracefulTerminate) => true,
        Some(ShutdownSignal::GracefulUpgrade) => !has_offer(past) || rest_end(past).is_some(),
    }
}

/// What stands before those that are due after the signal and before the end: at a cut those that were due
/// before it, and the start of the shutdown.
fn strip_wait_row<'a>(past: &Past, rest: Option<&'a [Entry]>) -> Option<&'a [Entry]>
    requires { IsPast past.now }
    ensures { option_copied result ≡ strip (wait_row (plan_of past.now) (record_of past.now)) (option_copied rest.entry) }
{
    if has_cut(past.entries) {
        let cut = past.before_cut();
        let signal = signal_of(cut.entries);
        let started = if has_start(&cut, signal) {
            rest
        } else {
            after_phase(ExecutionPhase::ShutdownStarted, rest)
        };
        strip_row_by(&cut, signal, started)
    } else {
        strip_row_by(past, signal_of(past.entries), rest)
    }
}

/// What was told so far of the phases, and the broadcast, is what is due so far.
#[tactic(auto, using(crate::proofs::MarkLemmas::phases_by_strips))]
pub(crate) fn phases_right(past: &Past) -> bool
    requires { IsPast past.now }
    ensures { result ≡ phases_right (plan_of past.now) (record_of past.now) }
{
    let told = if waits_are_over(past) {
        let terminated = after_phase(ExecutionPhase::Terminated, Some(past.entries));
        after_phase(ExecutionPhase::ShutdownRuntimes, terminated)
    } else {
        Some(past.entries)
    };
    let waited = strip_wait_row(past, told);
    let left = if has(Query::Order(Order::Running), past.entries) {
        after_phase(ExecutionPhase::Running, waited)
    } else {
        waited
    };
    match left {
        Some(entries) => has_no_mark(entries),
        None => false,
    }
}
