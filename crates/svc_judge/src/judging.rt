//! The judgement: whether the run served, and the first place at which the record isn't right.

ghost use Rattle.std.specs.Prelude.{◌≡◌, ◌+◌, length, Option, Some, IfOk, OnOk};
ghost use Rattle.svc_record.specs.Right.{is_served};
ghost use Rattle.svc_record.specs.Fits.{event_fits};
ghost use Rattle.svc_record.specs.Ends.{step_end};
ghost use Rattle.svc_record.specs.Connections.{connection_known};
ghost use Rattle.svc_judge.specs.Pasts.{IsPast, plan_of, record_of};
ghost use Rattle.svc_judge.specs.Anew.{connection_breach, boot_kept, conn_kept};
ghost use Rattle.svc_judge.specs.Passed.{end_anew, step_anew_by, late_breach, late_place_breach};
ghost use Rattle.svc_judge.specs.Chains.{IsChains};
ghost use Rattle.svc_judge.specs.Memos.{IsMemo};
ghost use Rattle.svc_judge.specs.Verdicts.{at, entry_breach, open_breach_by, settled_breach_by, breach_below, breach_of, are_endpoints_kept, are_phases_kept};

use crate::alone::{connection_known, connections_kept};
use crate::anew::{boot_kept, conn_kept, each_new, only_connections};
use crate::binds::is_well_bound;
use crate::chains::Chains;
use crate::closes::closes_right;
use crate::descriptors::one_live;
use crate::endpoints::{endpoints_right, endpoints_right_late};
use crate::ends::ends_tested;
use crate::facts::{offer_of, opened_of, startup_order};
use crate::failed::fails_right;
use crate::looking::has;
use crate::marks::phases_right;
use crate::memo::Memo;
use crate::offer::one_ask;
use crate::past::{Past, Split};
use crate::query::{Order, Query};
use crate::rules::{EntryRule, each_entry};
use crate::settled::{
    ended_right, in_service, is_last_well, is_served, offer_kept, passed_anew, starts_kept,
    tested_right,
};
use crate::stirred::stirred_breach;
use crate::waits::{has_ended, step_end, waits_are_over};
use std::alloc::Global;
use std::mem::drop;
use svc_base::NoMemory;
use svc_record::{Entry, Plan, StepEnd};

/// A rule of a right record, in the order in which they are looked at: first those of an entry with what
/// stands before it, then those of a settled prefix.
#[derive(Clone, Copy, PartialEq, Eq, Debug)]
pub enum Rule {
    /// The event may come.
    Fits,
    /// A service starts once, and after its dependencies are ready.
    StartDue,
    /// An endpoint is bound, or offered a descriptor, in its turn.
    AskDue,
    /// What belongs to bootstrapping comes after it has begun.
    BootDue,
    /// A try to receive comes when there may be one.
    TryDue,
    /// A retry of the offer comes when its rest is over.
    RetryDue,
    /// A descriptor is closed once, and after it was opened.
    CloseOnce,
    /// A phase carries its moment.
    Moment,
    /// A start is of a service of the plan.
    StartKnown,
    /// What is given up, bound or offered a descriptor is of the plan.
    AskKnown,
    /// What is told of a connection is of one that has arrived.
    ConnectionKnown,
    /// A run that ended otherwise than served told what is due then.
    Ended,
    /// The fork, bootstrapping and `Running` are told where they are due.
    Bootstrapping,
    /// While the offer goes on, one of its asks is open, or the last answer rests.
    Offer,
    /// Each entry on a connection stands where it is due.
    Connections,
    /// Exactly what is gone is closed.
    Closes,
    /// No address has two live descriptors.
    OneLive,
    /// Each service is started exactly where it is due.
    Starts,
    /// Each endpoint of a service at work is held or waits.
    Endpoints,
    /// Each phase, and the broadcast, is told when it is due.
    Phases,
    /// What only the end tells isn't told before.
    Ending,
    /// Exactly what has failed is given up.
    Fails,
    /// While the offer goes on, only one of its asks is open.
    OneAsk,
    /// A run whose waits have passed is one that served.
    Served,
    /// A run that was tested did what comes before bootstrapping.
    Tested,
    /// What stands before `ShutdownRuntimes` is right.
    LastStep,
}

/// The first place at which a record isn't right.
#[derive(Clone, Copy, PartialEq, Eq, Debug)]
pub struct Breach {
    /// How many entries the record has up to there: the number of the entry that breaks the rule, the first
    /// one being 1, or of the last entry of the settled prefix that does; 0 where that has none.
    pub entry: u64,
    /// The rule that is broken there.
    pub rule: Rule,
}

/// What is judged of a record.
#[derive(Clone, Copy, PartialEq, Eq, Debug)]
pub struct Verdict {
    /// It is the record of a run that served.
    pub served: bool,
    /// How the run has ended, by the record: `On` where it goes on. A right record is that of a run that served
    /// exactly where this is `Served`.
    pub end: StepEnd,
    /// The first place at which it isn't right; none where it is a right record.
    pub breach: Option<Breach>,
}

/// The first rule that the entry breaks, if it breaks one, where it is known whether the event may come, and
/// whether its connection has arrived.
fn entry_breach(entry: &Entry, before: &Past, fits: bool, known: bool) -> Option<Rule>
    requires past { IsPast before.now }
    requires fits { fits ≡ event_fits (plan_of before.now) entry.now (record_of before.now) }
    requires known { known ≡ connection_known (plan_of before.now) entry.now (record_of before.now) }
    ensures { result ≡ entry_breach (plan_of before.now) entry.now (record_of before.now) }
{
    if !fits {
        return Some(Rule::Fits);
    }
    if !EntryRule::StartDue.holds(entry, before) {
        return Some(Rule::StartDue);
    }
    if !EntryRule::AskDue.holds(entry, before) {
        return Some(Rule::AskDue);
    }
    if !EntryRule::BootDue.holds(entry, before) {
        return Some(Rule::BootDue);
    }
    if !EntryRule::TryDue.holds(entry, before) {
        return Some(Rule::TryDue);
    }
    if !EntryRule::RetryDue.holds(entry, before) {
        return Some(Rule::RetryDue);
    }
    if !EntryRule::CloseOnce.holds(entry, before) {
        return Some(Rule::CloseOnce);
    }
    if !EntryRule::EveryMoment.holds(entry, before) {
        return Some(Rule::Moment);
    }
    if !EntryRule::StartKnown.holds(entry, before) {
        return Some(Rule::StartKnown);
    }
    if !EntryRule::AskKnown.holds(entry, before) {
        return Some(Rule::AskKnown);
    }
    if !known {
        return Some(Rule::ConnectionKnown);
    }
    None
}

/// The endpoints of the services at work are held or wait: as they have to be before the signal, and as
/// after it.
#[tactic(auto, using(crate::proofs::EndsLemmas::kept_in_service, crate::proofs::EndsLemmas::kept_otherwise))]
fn are_endpoints_kept(past: &Past) -> bool
    requires { IsPast past.now }
    ensures { result ≡ are_endpoints_kept (plan_of past.now) (record_of past.now) }
{
    if in_service(past.entries) {
        return endpoints_right(past);
    }
    !has(Query::Order(Order::Running), past.entries) || endpoints_right_late(past)
}

/// Each phase, and the broadcast, is told when it is due, with its moment.
fn are_phases_kept(past: &Past) -> bool
    requires { IsPast past.now }
    ensures { result ≡ are_phases_kept (plan_of past.now) (record_of past.now) }
{
    phases_right(past) && each_entry(EntryRule::Moment, past)
}

/// The first rule that a settled prefix breaks in which the run goes on, if it breaks one, where what is
/// asked of the beginning and of connections is known.
fn open_breach(past: &Past, boots: bool, connects: bool) -> Option<Rule>
    requires { IsPast past.now }
    ensures { result ≡ open_breach_by boots connects (plan_of past.now) (record_of past.now) }
{
    if !boots {
        return Some(Rule::Bootstrapping);
    }
    if !offer_kept(past) {
        return Some(Rule::Offer);
    }
    if !connects {
        return Some(Rule::Connections);
    }
    if !closes_right(past) {
        return Some(Rule::Closes);
    }
    if !one_live(past) {
        return Some(Rule::OneLive);
    }
    if has(Query::Order(Order::Running), past.entries) && !starts_kept(past) {
        return Some(Rule::Starts);
    }
    if !are_endpoints_kept(past) {
        return Some(Rule::Endpoints);
    }
    if !are_phases_kept(past) {
        return Some(Rule::Phases);
    }
    if has(Query::Order(Order::Ending), past.entries) {
        return Some(Rule::Ending);
    }
    None
}

/// The same, by whether the run has ended in it.
fn settled_breach(past: &Past, boots: bool, connects: bool) -> Option<Rule>
    requires { IsPast past.now }
    ensures { result ≡ settled_breach_by boots connects (plan_of past.now) (record_of past.now) }
{
    if has_ended(past) {
        if ended_right(past) {
            None
        } else {
            Some(Rule::Ended)
        }
    } else {
        open_breach(past, boots, connects)
    }
}

/// The first rule of a run's end that the settled prefix breaks, if it breaks one, where none is broken up to it.
fn end_anew(alloc: Global, past: &Past) -> Result<Option<Rule>, NoMemory>
    requires { IsPast past.now }
    ensures { IfOk result (λ rule. rule ≡ end_anew (plan_of past.now) (record_of past.now)) }
{
    if waits_are_over(past) && !passed_anew(alloc, past)? {
        return Ok(Some(Rule::Served));
    }
    if ends_tested(past) && !tested_right(past) {
        return Ok(Some(Rule::Tested));
    }
    if !is_last_well(alloc, past)? {
        return Ok(Some(Rule::LastStep));
    }
    Ok(None)
}

/// The first rule that a settled prefix breaks, if it breaks one, where none is broken up to it, and what is
/// asked of the beginning and of connections is known.
fn step_anew_by(
    alloc: Global,
    past: &Past,
    boots: bool,
    connects: bool,
) -> Result<Option<Rule>, NoMemory>
    requires { IsPast past.now }
    ensures { IfOk result (λ rule. rule ≡ step_anew_by boots connects (plan_of past.now) (record_of past.now)) }
{
    if let Some(rule) = settled_breach(past, boots, connects) {
        return Ok(Some(rule));
    }
    if !fails_right(past) {
        return Ok(Some(Rule::Fails));
    }
    if !one_ask(past) {
        return Ok(Some(Rule::OneAsk));
    }
    end_anew(alloc, past)
}

/// The first rule that a settled prefix breaks after entries of connections alone, if it breaks one.
fn connection_breach(past: &Past, chains: &Chains) -> Option<Rule>
    requires past { IsPast past.now }
    requires chains { IsChains chains.now (record_of past.now) }
    ensures { result ≡ connection_breach (plan_of past.now) (record_of past.now) }
{
    if !each_new(EntryRule::ForkFirst, past) {
        return Some(Rule::Bootstrapping);
    }
    if !connections_kept(past, chains) {
        return Some(Rule::Connections);
    }
    None
}

/// The same, where what is asked of the beginning and of connections is looked at only in a run that goes on.
#[tactic(auto, using(crate::proofs::PassedLemmas::ended_anyhow))]
fn step_anew(alloc: Global, past: &Past, chains: &Chains) -> Result<Option<Rule>, NoMemory>
    requires past { IsPast past.now }
    requires chains { IsChains chains.now (record_of past.now) }
    ensures { IfOk result (λ rule. rule ≡ step_anew_by (boot_kept (plan_of past.now) (record_of past.now))
        (conn_kept (plan_of past.now) (record_of past.now)) (plan_of past.now) (record_of past.now)) }
{
    if has_ended(past) {
        step_anew_by(alloc, past, true, true)
    } else {
        step_anew_by(alloc, past, boot_kept(past), conn_kept(past, chains))
    }
}

/// The first rule that a settled prefix breaks, if it breaks one, where none is broken up to the one before it.
fn late_breach(
    alloc: Global,
    past: &Past,
    chains: &Chains,
    memo: &mut Memo,
) -> Result<Option<Rule>, NoMemory>
    requires past { IsPast past.now }
    requires chains { IsChains chains.now (record_of past.now) }
    requires memo { IsMemo memo.old (plan_of past.now) (record_of past.now) }
    ensures is { IfOk result (λ rule. rule ≡ late_breach (plan_of past.now) (record_of past.now)) }
    ensures memo { IsMemo memo.new (plan_of past.now) (record_of past.now) }
{
    if only_connections(past.entries) {
        Ok(connection_breach(past, chains))
    } else if memo.is_idle(past) {
        Ok(None)
    } else if is_well_bound(past) {
        Ok(None)
    } else if memo.only_stirs(past) {
        Ok(stirred_breach(past))
    } else {
        step_anew(alloc, past, chains)
    }
}

/// The breach of an entry, if it breaks a rule.
fn entry_place(entry: &Entry, before: &Past, chains: &Chains, memo: &mut Memo) -> Option<Breach>
    requires past { IsPast before.now }
    requires chains { IsChains chains.now (record_of before.now) }
    requires memo { IsMemo memo.old (plan_of before.now) (record_of before.now) }
    ensures is { result ≡ at (length (record_of before.now) + 1) (entry_breach (plan_of before.now) entry.now (record_of before.now)) }
    ensures memo { IsMemo memo.new (plan_of before.now) (record_of before.now) }
{
    let fits = memo.event_fits(entry, before, chains);
    let known = connection_known(entry, before, chains);
    match entry_breach(entry, before, fits, known) {
        Some(rule) => Some(Breach {
            entry: before.entries.len() as u64 + 1,
            rule,
        }),
        None => None,
    }
}

/// The breach of a settled prefix, if it breaks a rule.
fn settled_place(
    alloc: Global,
    past: &Past,
    chains: &Chains,
    memo: &mut Memo,
) -> Result<Option<Breach>, NoMemory>
    requires past { IsPast past.now }
    requires chains { IsChains chains.now (record_of past.now) }
    requires memo { IsMemo memo.old (plan_of past.now) (record_of past.now) }
    ensures is { IfOk result (λ found. found ≡ at (length (record_of past.now)) (late_breach (plan_of past.now) (record_of past.now))) }
    ensures memo { IsMemo memo.new (plan_of past.now) (record_of past.now) }
{
    match late_breach(alloc, past, chains, memo)? {
        Some(rule) => Ok(Some(Breach {
            entry: past.entries.len() as u64,
            rule,
        })),
        None => Ok(None),
    }
}

/// The breach at an entry, if there is one, where there is none up to it: where the entry is an event, first
/// that of what stands before it.
fn late_place_breach(
    alloc: Global,
    entry: &Entry,
    before: &Past,
    chains: &Chains,
    memo: &mut Memo,
) -> Result<Option<Breach>, NoMemory>
    requires past { IsPast before.now }
    requires chains { IsChains chains.now (record_of before.now) }
    requires memo { IsMemo memo.old (plan_of before.now) (record_of before.now) }
    ensures is { IfOk result (λ found. found ≡ late_place_breach (plan_of before.now) entry.now (record_of before.now)) }
    ensures memo { OnOk result (IsMemo memo.new (plan_of before.now) (record_of before.now)) }
{
    if let Entry::Got(_) = entry
        && let Some(breach) = settled_place(alloc, before, chains, memo)?
    {
        return Ok(Some(breach));
    }
    Ok(entry_place(entry, before, chains, memo))
}

/// The first breach in the entries and in what stands before an event, if there is one, where the chains are
/// those of the entries.
#[tactic(auto, using(crate::proofs::PassedLemmas::late_place_step))]
fn breach_below(alloc: Global, past: &Past, chains: &mut Chains) -> Result<Option<Breach>, NoMemory>
    requires past { IsPast past.now }
    requires chains { IsChains chains.old (record_of past.now) }
    ensures { IfOk result (λ found. found ≡ breach_below (plan_of past.now) (record_of past.now)) }
{
    let mut rest = *past;
    let mut memo = Memo::new();
    let mut found = None;
    'entries: while let Some(
        Split {
            entry,
            news: _,
            before,
        },
    ) = rest.split()
    {
        chains.take(entry);
        memo = memo.before(entry, before.entries);
        if let Some(breach) = late_place_breach(alloc, entry, &before, chains, &mut memo)? {
            found = Some(breach);
        }
        rest = before;
    }
    Ok(found)
}

/// The first breach of the record, if there is one, where the chains are those of its entries.
#[tactic(auto, using(crate::proofs::PassedLemmas::late_is))]
fn breach_by(
    alloc: Global,
    past: &Past,
    last: Option<Breach>,
    chains: &mut Chains,
) -> Result<Option<Breach>, NoMemory>
    requires past { IsPast past.now }
    requires last { last ≡ at (length (record_of past.now)) (late_breach (plan_of past.now) (record_of past.now)) }
    requires chains { IsChains chains.old (record_of past.now) }
    ensures { IfOk result (λ found. found ≡ breach_of (plan_of past.now) (record_of past.now)) }
{
    if let Some(found) = breach_below(alloc, past, chains)? {
        return Ok(Some(found));
    }
    Ok(last)
}

/// The first breach of the record, if there is one.
fn breach_of(alloc: Global, past: &Past) -> Result<Option<Breach>, NoMemory>
    requires { IsPast past.now }
    ensures { IfOk result (λ found. found ≡ breach_of (plan_of past.now) (record_of past.now)) }
{
    let mut chains = Chains::new(alloc, past.entries)?;
    let mut memo = Memo::new();
    match settled_place(alloc, past, &chains, &mut memo) {
        Ok(last) => {
            let found = breach_by(alloc, past, last, &mut chains);
            drop(chains);
            found
        }
        Err(NoMemory) => {
            drop(chains);
            Err(NoMemory)
        }
    }
}

/// Judges a record, whose newest entry comes first: whether the run served, and where it isn't a right record
/// the first place at which a prefix of it isn't, with a rule that it breaks there. Nothing is asked of the
/// plan.
///
/// An entry on a connection costs what stands in the record on those connections whose numbers leave the same
/// remainder, divided by a quarter of the record's length, and a moment where no bind, no try and no offer rests what
/// stands since the one before it; what has to be known besides is looked for in the whole once for all such entries
/// that stand side by side. A word of a service, its start, its bind, and an address in use where the endpoint rests cost
/// the record's length up to there for each service that they let start and each endpoint that they are of. Any other
/// entry costs the record's length up to there, times what is opened, and the services' endpoints, so a record of such
/// entries alone the square of its length. `NoMemory` where there is no memory for what is looked up often.
#[tactic(auto, using(crate::proofs::ServedLemmas::served_by_waits))]
pub fn judge(alloc: Global, plan: &Plan, entries: &[Entry]) -> Result<Verdict, NoMemory>
    ensures served { IfOk result (λ v. v.served ≡ is_served plan.now entries.now) }
    ensures end { IfOk result (λ v. v.end ≡ step_end plan.now entries.now) }
    ensures breach { IfOk result (λ v. v.breach ≡ breach_of plan.now entries.now) }
{
    let (opened, reads) = opened_of(alloc, plan, entries)?;
    let offer = offer_of(alloc, plan, entries)?;
    let order = startup_order(alloc, plan)?;
    let past = Past {
        plan,
        entries,
        opened: &opened,
        reads: &reads,
        offer: &offer,
        order: &order,
    };
    let end = step_end(&past);
    match breach_of(alloc, &past)? {
        Some(found) => Ok(Verdict {
            served: is_served(alloc, &past)?,
            end,
            breach: Some(found),
        }),
        None => Ok(Verdict {
            served: waits_are_over(&past),
            end,
            breach: None,
        }),
    }
}
