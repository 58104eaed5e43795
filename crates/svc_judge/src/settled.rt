//! The rules of a settled prefix: what stands before an event, or the whole.

ghost use Rattle.std.specs.Prelude.{◌≡◌, ◌&&◌, ◌||◌, not, IfOk};
ghost use Rattle.svc_record.specs.Record.{has, before_runtimes, each_entry, each_earlier, each_settled, now, last_step};
ghost use Rattle.svc_record.specs.Boot.{boot_right};
ghost use Rattle.svc_record.specs.Connections.{conn_right};
ghost use Rattle.svc_record.specs.Ends.{tested_right};
ghost use Rattle.svc_record.specs.Right.{in_service, is_silent, is_quiet, is_test_step, serves_right, last_step_right, ended_right, is_served_by_words, is_stronger, is_served};
ghost use Rattle.svc_record.specs.Drain.{drain_right, ends_right, is_ending};
ghost use Rattle.svc_judge.specs.Passed.{passed_anew};
ghost use Rattle.svc_judge.specs.Pasts.{IsPast, plan_of, record_of};
ghost use Rattle.svc_judge.specs.Anew.{only_connections};
ghost use Rattle.svc_judge.specs.Settled.{offer_kept, starts_kept, settled_test, all_visited_start, all_visited_held, is_booting, is_ordered, is_tested_well, is_last_well, is_ended_well, is_known};

use crate::alone::connections_right;
use crate::anew::only_connections;
use crate::boot::{boot_entries_right, has_begun, may_begin};
use crate::closes::{closes_right, is_closed_once};
use crate::connections::rests_right;
use crate::ending::ends_right;
use crate::endpoints::{are_right_late, endpoints_right, endpoints_right_late};
use crate::ends::{ends_tested, has_ended_early};
use crate::failed::{is_started, start_right, starts_right};
use crate::looking::{has, now};
use crate::marks::phases_right;
use crate::offer::{offer_right, one_ask};
use crate::past::{Past, Split};
use crate::plans::has_kind;
use crate::query::{News, Order, Query};
use crate::rules::{EntryRule, each_entry};
use crate::waits::waits_are_over;
use std::alloc::Global;
use svc_base::NoMemory;
use svc_graph::Kind;
use svc_record::{Action, Entry, ExecutionPhase};

/// Each entry of the beginning stands where it is due, and the fork comes first.
pub(crate) fn boot_right(past: &Past) -> bool
    requires { IsPast past.now }
    ensures { result ≡ boot_right (plan_of past.now) (record_of past.now) }
{
    boot_entries_right(past)
        && (each_entry(EntryRule::StandsFirst, past)
            && each_entry(EntryRule::ForkFirst, past)
            && each_entry(EntryRule::StartAfterBoot, past))
}

/// While the offer goes on, one of its asks is open, or the last answer rests; and each ask of it was due.
pub(crate) fn offer_kept(past: &Past) -> bool
    requires { IsPast past.now }
    ensures { result ≡ offer_kept (plan_of past.now) (record_of past.now) }
{
    offer_right(past) && each_entry(EntryRule::OfferDue, past)
}

/// Each connection is right, and loops rest exactly after the failures that ask for it.
pub(crate) fn conn_right(alloc: Global, past: &Past) -> Result<bool, NoMemory>
    requires { IsPast past.now }
    ensures { IfOk result (λ right. right ≡ conn_right (plan_of past.now) (record_of past.now)) }
{
    let each = connections_right(alloc, past)?;
    Ok(each && rests_right(past.entries) && each_entry(EntryRule::RestDue, past))
}

/// Each service is started exactly where it is due, and was due as it was started.
pub(crate) fn starts_kept(past: &Past) -> bool
    requires { IsPast past.now }
    ensures { result ≡ starts_kept (plan_of past.now) (record_of past.now) }
{
    starts_right(past) && each_entry(EntryRule::StartDue, past)
}

/// From the start and before the signal.
pub(crate) fn in_service(entries: &[Entry]) -> bool
    ensures { result ≡ in_service entries.now }
{
    has(Query::Order(Order::Running), entries) && !has(Query::News(News::Signal), entries)
}

/// Before the signal exactly what is gone is closed; and from the start the services are started and their
/// endpoints held.
fn serves_right(past: &Past) -> bool
    requires { IsPast past.now }
    ensures { result ≡ serves_right (plan_of past.now) (record_of past.now) }
{
    (has(Query::News(News::Signal), past.entries) || closes_right(past))
        && (!in_service(past.entries) || (starts_kept(past) && endpoints_right(past)))
}

/// What stands before `ShutdownRuntimes` is right as a settled prefix is.
pub(crate) fn last_step_right(alloc: Global, past: &Past) -> Result<bool, NoMemory>
    requires { IsPast past.now }
    ensures { IfOk result (λ right. right ≡ last_step_right (plan_of past.now) (record_of past.now)) }
{
    let connects = conn_right(alloc, past)?;
    Ok(
        (starts_kept(past)
            && endpoints_right_late(past)
            && (closes_right(past) && boot_right(past)))
            && (offer_kept(past) && connects),
    )
}

/// Nothing was told since the last event.
fn is_silent(entries: &[Entry]) -> bool
    ensures { result ≡ is_silent (last_step entries.now) }
{
    match entries {
        [] => true,
        [Entry::Got(_), ..] => true,
        [Entry::Told(_), ..] => false,
    }
}

/// Since the last event only starts, asks, failures and closes were told.
fn is_quiet(entries: &[Entry]) -> bool
    ensures { result ≡ is_quiet (last_step entries.now) }
{
    let mut rest = entries;
    'entries: while let Some((entry, before)) = rest.split_first() {
        match entry {
            Entry::Got(_) => return true,
            Entry::Told(Action::Start(_)) => {}
            Entry::Told(Action::Fail(_)) => {}
            Entry::Told(Action::Bind(_, _)) => {}
            Entry::Told(Action::Adopt(_, _, _)) => {}
            Entry::Told(Action::Close(_)) => {}
            Entry::Told(_) => return false,
        }
        rest = before;
    }
    true
}

/// The last step told `Bootstrap` last, with its moment, and before it only starts, asks, failures and
/// closes.
fn is_test_step(entries: &[Entry]) -> bool
    ensures { result ≡ is_test_step (now entries.now) (last_step entries.now) }
{
    match entries {
        [
            Entry::Told(Action::Phase(ExecutionPhase::Bootstrap, ms)),
            before @ ..,
        ] => { *ms == now(entries) && is_quiet(before) }
        _ => false,
    }
}

/// A run that ended early told nothing in its last step; one that was tested told `Bootstrap` last.
pub(crate) fn ended_right(past: &Past) -> bool
    requires { IsPast past.now }
    ensures { result ≡ ended_right (plan_of past.now) (record_of past.now) }
{
    (!has_ended_early(past) || is_silent(past.entries))
        && (!ends_tested(past) || (is_test_step(past.entries) && closes_right(past)))
}

/// The service bootstraps, and is started.
fn is_booting(past: &Past, s: u64) -> bool
    ensures { result ≡ is_booting (plan_of past.now) (record_of past.now) s }
{
    has_kind(past.plan, Kind::Bootstrap, s) && is_started(past.entries, s)
}

/// The services that stand in startup order before the one by which bootstrapping began are started where
/// they are due.
fn all_visited_start(past: &Past) -> bool
    requires { IsPast past.now }
    ensures { result ≡ all_visited_start (plan_of past.now) (record_of past.now) }
{
    let mut rest = past.order;
    'services: while let Some((s, more)) = rest.split_first() {
        if is_booting(past, *s) {
            return true;
        }
        if !start_right(past, *s) {
            return false;
        }
        rest = more;
    }
    true
}

/// Their endpoints are held or wait.
fn all_visited_held(past: &Past) -> bool
    requires { IsPast past.now }
    ensures { result ≡ all_visited_held (plan_of past.now) (record_of past.now) }
{
    let mut rest = past.order;
    'services: while let Some((s, more)) = rest.split_first() {
        if is_booting(past, *s) {
            return true;
        }
        if !are_right_late(past, *s) {
            return false;
        }
        rest = more;
    }
    true
}

/// A run that was tested has begun to bootstrap; with `eager` nothing was started, and else the services
/// before it are started where they are due, and their endpoints held or wait.
pub(crate) fn tested_right(past: &Past) -> bool
    requires { IsPast past.now }
    ensures { result ≡ tested_right (plan_of past.now) (record_of past.now) }
{
    (may_begin(past) && has_begun(past) && each_entry(EntryRule::StartAfterBoot, past))
        && ((past.plan.eager || all_visited_start(past))
            && (past.plan.eager || all_visited_held(past)))
}

/// A rule of a settled prefix, which a record that served keeps in each.
#[derive(Clone, Copy)]
pub(crate) enum SettledRule {
    Serves,
    Phases,
    OneAsk,
    GoesOn,
}

impl SettledRule {
    /// The prefix keeps the rule.
    fn holds(self, past: &Past) -> bool
        requires { IsPast past.now }
        ensures { result ≡ settled_test self (plan_of past.now) (record_of past.now) }
    {
        match self {
            SettledRule::Serves => serves_right(past),
            SettledRule::Phases => phases_right(past),
            SettledRule::OneAsk => one_ask(past),
            SettledRule::GoesOn => !waits_are_over(past),
        }
    }
}

/// The prefix keeps the rule, or came from the one before it by entries of connections alone, of which the
/// rule asks nothing.
fn keeps(rule: SettledRule, past: &Past) -> bool
    requires { IsPast past.now }
    ensures { result ≡ (only_connections (record_of past.now) || settled_test rule (plan_of past.now) (record_of past.now)) }
{
    only_connections(past.entries) || rule.holds(past)
}

/// What stands before each event keeps the rule.
#[tactic(auto, using(crate::proofs::QuietLemmas::kept_step, crate::proofs::QuietLemmas::broken_step))]
pub(crate) fn each_earlier(rule: SettledRule, past: &Past) -> bool
    requires { IsPast past.now }
    ensures { result ≡ each_earlier (settled_test rule (plan_of past.now)) (record_of past.now) }
{
    let mut rest = *past;
    'entries: while let Some(
        Split {
            entry,
            news: _,
            before,
        },
    ) = rest.split()
    {
        if let Entry::Got(_) = entry
            && !keeps(rule, &before)
        {
            return false;
        }
        rest = before;
    }
    true
}

/// Each settled prefix keeps the rule.
pub(crate) fn each_settled(rule: SettledRule, past: &Past) -> bool
    requires { IsPast past.now }
    ensures { result ≡ each_settled (settled_test rule (plan_of past.now)) (record_of past.now) }
{
    rule.holds(past) && each_earlier(rule, past)
}

/// The record has passed and no shorter settled prefix has; each phase is told at its event, with its
/// moment; and from `ShutdownRuntimes` on stand the cuts, the closes, `Stop` and `Terminated`.
fn drain_right(alloc: Global, past: &Past) -> Result<bool, NoMemory>
    requires { IsPast past.now }
    ensures { IfOk result (λ right. right ≡ drain_right (plan_of past.now) (record_of past.now)) }
{
    let ends = ends_once(alloc, past)?;
    Ok(
        (waits_are_over(past)
            && each_earlier(SettledRule::GoesOn, past)
            && each_settled(SettledRule::Phases, past)
            && each_entry(EntryRule::EveryMoment, past))
            && ends,
    )
}

/// The words of a record of a run that served.
fn is_served_by_words(alloc: Global, past: &Past) -> Result<bool, NoMemory>
    requires { IsPast past.now }
    ensures { IfOk result (λ right. right ≡ is_served_by_words (plan_of past.now) (record_of past.now)) }
{
    let drains = drain_right(alloc, past)?;
    Ok(
        (each_entry(EntryRule::Fits, past) && drains && each_settled(SettledRule::Serves, past))
            && (is_closed_once(past) && each_entry(EntryRule::CloseDue, past)),
    )
}

/// The record ends with what is told from `ShutdownRuntimes` on, and none of it stands before.
fn ends_once(alloc: Global, past: &Past) -> Result<bool, NoMemory>
    requires { IsPast past.now }
    ensures { IfOk result (λ right. right ≡ (ends_right (plan_of past.now) (before_runtimes (record_of past.now)) (record_of past.now)
        && not (has is_ending (before_runtimes (record_of past.now))))) }
{
    let at = past.before_runtimes();
    let ends = ends_right(alloc, &at, past.entries)?;
    Ok(ends && !has(Query::Order(Order::Ending), at.entries))
}

/// What holds besides of a record that has passed, where it held of all before it.
pub(crate) fn passed_anew(alloc: Global, past: &Past) -> Result<bool, NoMemory>
    requires { IsPast past.now }
    ensures { IfOk result (λ right. right ≡ passed_anew (plan_of past.now) (record_of past.now)) }
{
    let ends = ends_once(alloc, past)?;
    let connects = conn_right(alloc, past)?;
    Ok(
        (((phases_right(past) && ends) && (serves_right(past) && is_closed_once(past)))
            && boot_right(past))
            && (offer_kept(past) && connects),
    )
}

/// What belongs to bootstrapping, tries and retries come when they are due.
fn is_ordered(past: &Past) -> bool
    requires { IsPast past.now }
    ensures { result ≡ is_ordered (plan_of past.now) (record_of past.now) }
{
    each_entry(EntryRule::BootDue, past)
        && each_entry(EntryRule::TryDue, past)
        && each_entry(EntryRule::RetryDue, past)
}

/// Only one ask of the offer is open at a time, and a run that was tested did what comes before.
fn is_tested_well(past: &Past) -> bool
    requires { IsPast past.now }
    ensures { result ≡ is_tested_well (plan_of past.now) (record_of past.now) }
{
    each_settled(SettledRule::OneAsk, past) && (!ends_tested(past) || tested_right(past))
}

/// A run whose waits have passed ends with a right last step.
pub(crate) fn is_last_well(alloc: Global, past: &Past) -> Result<bool, NoMemory>
    requires { IsPast past.now }
    ensures { IfOk result (λ well. well ≡ is_last_well (plan_of past.now) (record_of past.now)) }
{
    if waits_are_over(past) {
        last_step_right(alloc, &past.before_runtimes())
    } else {
        Ok(true)
    }
}

/// Closes, the last step and moments are as they should be.
fn is_ended_well(alloc: Global, past: &Past) -> Result<bool, NoMemory>
    requires { IsPast past.now }
    ensures { IfOk result (λ well. well ≡ is_ended_well (plan_of past.now) (record_of past.now)) }
{
    let last = is_last_well(alloc, past)?;
    Ok(each_entry(EntryRule::CloseOnce, past) && last && each_entry(EntryRule::EveryMoment, past))
}

/// What is told is of the plan, or has arrived.
fn is_known(past: &Past) -> bool
    requires { IsPast past.now }
    ensures { result ≡ is_known (plan_of past.now) (record_of past.now) }
{
    each_entry(EntryRule::StartKnown, past)
        && each_entry(EntryRule::AskKnown, past)
        && each_entry(EntryRule::ConnectionKnown, past)
}

/// What is asked of every record beyond the words.
fn is_stronger(alloc: Global, past: &Past) -> Result<bool, NoMemory>
    requires { IsPast past.now }
    ensures { IfOk result (λ stronger. stronger ≡ is_stronger (plan_of past.now) (record_of past.now)) }
{
    let ended = is_ended_well(alloc, past)?;
    Ok(((is_ordered(past) && is_tested_well(past)) && ended) && is_known(past))
}

/// It is the record of a run that served.
pub(crate) fn is_served(alloc: Global, past: &Past) -> Result<bool, NoMemory>
    requires { IsPast past.now }
    ensures { IfOk result (λ served. served ≡ is_served (plan_of past.now) (record_of past.now)) }
{
    let worded = is_served_by_words(alloc, past)?;
    let stronger = is_stronger(alloc, past)?;
    Ok(worded && stronger)
}
