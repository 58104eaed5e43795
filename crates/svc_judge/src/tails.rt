//! What stands behind the last finished step of a run that ended otherwise than by its shutdown: what was live is cut,
//! and what was open closed.

ghost use Rattle.std.specs.Prelude.{◌≡◌, ◌==◌, ◌&&◌, ◌||◌, ◌<◌, ◌≤◌, [], ◌∷◌, not, filter, drop, length, IfOk, Some};
ghost use Rattle.std.specs.List.{list_all, find, range_with_len};
ghost use Rattle.svc_record.specs.declared.entry.Entry.TheVariants.{Told};
ghost use Rattle.svc_record.specs.Record.{Record};
ghost use Rattle.svc_record.specs.Connections.{is_live_connection, live_connections};
ghost use Rattle.svc_record.specs.Descriptors.{numbers_of};
ghost use Rattle.svc_record.specs.Tail.{numbers_in};
ghost use Rattle.svc_judge.specs.Chains.{IsChains};
ghost use Rattle.svc_judge.specs.Endings.{is_uncut};
ghost use Rattle.svc_judge.specs.Numbers.{live_in};
ghost use Rattle.svc_judge.specs.Verdicts.{breach_of};
ghost use Rattle.svc_judge.specs.Tails.{lets_go, tail_len, has_cause, is_cut_once, is_closed_in, tail_rule, tail_breach, is_right_before, shorter_breach, closed_by, closed_breach, is_fits, stray_by, stray_breach};

use crate::alone::has_arrived;
use crate::chains::Chains;
use crate::ending::{arrival, is_uncut_in};
use crate::judging::{Breach, Rule, judge};
use crate::looking::{has_brought, times};
use crate::query::{Deed, Query};
use std::alloc::Global;
use std::mem::drop;
use svc_base::NoMemory;
use svc_record::{Action, Entry, Event, Plan};

/// The entry cuts a connection or closes a descriptor.
fn lets_go(entry: &Entry) -> bool
    ensures { result ≡ lets_go entry.now }
{
    matches!(entry, Entry::Told(Action::Cut(_) | Action::Close(_)))
}

/// How many of the newest entries do.
fn tail_len(entries: &[Entry]) -> usize
    ensures is { result ≡ tail_len entries.now }
    ensures within { result ≤ length entries.now }
{
    let mut rest = entries;
    let mut count = 0;
    'entries: while let Some((entry, before)) = rest.split_first() {
        if !lets_go(entry) {
            return count;
        }
        count += 1;
        rest = before;
    }
    count
}

/// Both hold.
fn both(one: bool, other: bool) -> bool
    ensures { result ≡ (one && other) }
{
    one && other
}

/// The connection is live, by the entries on it.
fn is_live_in(chains: &Chains, c: u64) -> bool
    requires { 0 < length chains.now.parts }
    ensures { (q : Record) → IsChains chains.now q → result ≡ is_live_connection q c }
{
    both(has_arrived(chains, c), is_uncut_in(chains, c))
}

/// The action cuts what is live in the finished record, or closes what an event before the tail brought.
fn has_action_cause(action: &Action, finished: &[Entry], chains: &Chains, before: &[Entry]) -> bool
    requires { IsChains chains.now finished.now }
    ensures { result ≡ has_cause finished.now before.now (Told action.now) }
{
    match action {
        Action::Cut(c) => is_live_in(chains, *c),
        Action::Close(fd) => has_brought(*fd, before),
        _ => false,
    }
}

/// The entry tells such an action.
fn has_cause(entry: &Entry, finished: &[Entry], chains: &Chains, before: &[Entry]) -> bool
    requires { IsChains chains.now finished.now }
    ensures { result ≡ has_cause finished.now before.now entry.now }
{
    match entry {
        Entry::Told(action) => has_action_cause(action, finished, chains, before),
        Entry::Got(_) => false,
    }
}

/// Each entry of the tail does.
fn have_causes(tail: &[Entry], finished: &[Entry], chains: &Chains, before: &[Entry]) -> bool
    requires { IsChains chains.now finished.now }
    ensures { result ≡ list_all (has_cause finished.now before.now) tail.now }
{
    let mut rest = tail;
    'entries: while let Some((entry, more)) = rest.split_first() {
        if !has_cause(entry, finished, chains, before) {
            return false;
        }
        rest = more;
    }
    true
}

/// What is asked of a connection that is live.
fn where_live(is_uncut: bool, asked: bool) -> bool
    ensures { result ≡ (not is_uncut || asked) }
{
    !is_uncut || asked
}

/// The tail cuts the connection once, where that is live.
fn is_number_cut_once(c: u64, finished: &[Entry], chains: &Chains, tail: &[Entry]) -> bool
    requires { IsChains chains.now finished.now }
    ensures { result ≡ list_all (is_cut_once tail.now) (filter (is_uncut finished.now) (c ∷ [])) }
{
    where_live(
        is_uncut_in(chains, c),
        times(Query::Deed(Deed::Cut(c)), tail) == 1,
    )
}

/// The tail cuts the connection that the entry brings once, where that is live.
fn is_cut_once(entry: &Entry, finished: &[Entry], chains: &Chains, tail: &[Entry]) -> bool
    requires { IsChains chains.now finished.now }
    ensures { result ≡ list_all (is_cut_once tail.now) (live_in finished.now (entry.now ∷ [])) }
{
    match arrival(entry) {
        Some(c) => is_number_cut_once(c, finished, chains, tail),
        None => true,
    }
}

/// The tail cuts each live connection once.
fn are_cut_once(finished: &[Entry], chains: &Chains, tail: &[Entry]) -> bool
    requires { IsChains chains.now finished.now }
    ensures { result ≡ list_all (is_cut_once tail.now) (live_connections finished.now) }
{
    let mut rest = finished;
    'entries: while let Some((entry, before)) = rest.split_first() {
        if !is_cut_once(entry, finished, chains, tail) {
            return false;
        }
        rest = before;
    }
    true
}

/// Each descriptor that the entry brings is closed once.
fn is_closed_in(entry: &Entry, whole: &[Entry]) -> bool
    ensures { result ≡ list_all (is_closed_in whole.now) (numbers_of entry.now) }
{
    match entry {
        Entry::Got(Event::Bound(_, _, fd)) => times(Query::Deed(Deed::Close(*fd)), whole) == 1,
        Entry::Got(Event::Received(_, fds)) => fds
            .as_slice()
            .iter()
            .all(|fd| times(Query::Deed(Deed::Close(*fd)), whole) == 1),
        _ => true,
    }
}

/// Each descriptor that came is closed once.
fn are_closed_in(before: &[Entry], whole: &[Entry]) -> bool
    ensures { result ≡ list_all (is_closed_in whole.now) (numbers_in before.now) }
{
    let mut rest = before;
    'entries: while let Some((entry, more)) = rest.split_first() {
        if !is_closed_in(entry, whole) {
            return false;
        }
        rest = more;
    }
    true
}

/// The rule that the tail of a whole record breaks behind a finished one, if it breaks one.
fn tail_rule(
    chains: &Chains,
    finished: &[Entry],
    before: &[Entry],
    tail: &[Entry],
    whole: &[Entry],
) -> Option<Rule>
    requires { IsChains chains.now finished.now }
    ensures { result ≡ tail_rule finished.now before.now tail.now whole.now }
{
    if !have_causes(tail, finished, chains, before) {
        return Some(Rule::CloseOnce);
    }
    if !(are_cut_once(finished, chains, tail) && are_closed_in(before, whole)) {
        return Some(Rule::Closes);
    }
    None
}

/// The entries without so many of the newest.
fn without(entries: &[Entry], count: usize) -> &[Entry]
    ensures { result.now ≡ drop count entries.now }
{
    if count <= entries.len() {
        let (_, rest) = entries.split_at(count);
        rest
    } else {
        &[]
    }
}

/// The breach of the tail of so many entries, if it breaks a rule, where so many events right before it weren't taken.
fn tail_breach(
    alloc: Global,
    entries: &[Entry],
    count: usize,
    strays: usize,
) -> Result<Option<Breach>, NoMemory>
    requires { count ≤ length entries.now }
    ensures { IfOk result (λ found. found ≡ tail_breach entries.now count strays) }
{
    let (tail, before) = entries.split_at(count);
    let finished = without(before, strays);
    let chains = Chains::new(alloc, finished)?;
    let broken = tail_rule(&chains, finished, before, tail, entries);
    drop(chains);
    match broken {
        Some(rule) => Ok(Some(Breach {
            entry: entries.len() as u64,
            rule,
        })),
        None => Ok(None),
    }
}

/// The first breach of what stands before so many entries, if there is one.
fn breach_before(
    alloc: Global,
    plan: &Plan,
    entries: &[Entry],
    count: usize,
) -> Result<Option<Breach>, NoMemory>
    ensures { IfOk result (λ found. found ≡ breach_of plan.now (drop count entries.now)) }
{
    let verdict = judge(alloc, plan, without(entries, count))?;
    Ok(verdict.breach)
}

/// What stands before so many entries is right.
fn is_right_before(
    alloc: Global,
    plan: &Plan,
    entries: &[Entry],
    count: usize,
) -> Result<bool, NoMemory>
    ensures { IfOk result (λ right. right ≡ is_right_before plan.now entries.now count) }
{
    match breach_before(alloc, plan, entries, count)? {
        Some(_) => Ok(false),
        None => Ok(true),
    }
}

/// The least count below `most` of newest entries before which the record is right.
fn shortest(
    alloc: Global,
    plan: &Plan,
    entries: &[Entry],
    most: usize,
) -> Result<Option<usize>, NoMemory>
    ensures { IfOk result (λ found. found ≡ find (is_right_before plan.now entries.now) (range_with_len 0 most)) }
{
    for count in 0..most {
        let right = is_right_before(alloc, plan, entries, count)?;
        if right {
            return Ok(Some(count));
        }
    }
    Ok(None)
}

/// The breach, where no tail below `most` entries stands behind a right record, or else that of the shortest that does.
fn shorter_breach(
    alloc: Global,
    plan: &Plan,
    entries: &[Entry],
    most: usize,
    breach: Breach,
) -> Result<Option<Breach>, NoMemory>
    requires { most ≤ length entries.now }
    ensures { IfOk result (λ found. found
        ≡ shorter_breach entries.now breach (find (is_right_before plan.now entries.now) (range_with_len 0 most))) }
{
    let shortest = shortest(alloc, plan, entries, most)?;
    match shortest {
        Some(count) => tail_breach(alloc, entries, count, 0),
        None => Ok(Some(breach)),
    }
}

/// The breach, where the last entry before the tail isn't its place, or else that of a shorter tail.
#[tactic(auto, using(crate::proofs::TailLemmas::earlier_is, crate::proofs::TailLemmas::later_is))]
fn later_breach(
    alloc: Global,
    plan: &Plan,
    entries: &[Entry],
    most: usize,
    breach: Breach,
) -> Result<Option<Breach>, NoMemory>
    requires { most ≤ length entries.now }
    ensures { IfOk result (λ found. found ≡ closed_by plan.now entries.now most (Some breach)) }
{
    let before = without(entries, most);
    if breach.entry < before.len() as u64 {
        return Ok(Some(breach));
    }
    shorter_breach(alloc, plan, entries, most, breach)
}

/// The breach of a closed record, by that of what stands before its tail.
fn closed_by(
    alloc: Global,
    plan: &Plan,
    entries: &[Entry],
    most: usize,
    found: Option<Breach>,
) -> Result<Option<Breach>, NoMemory>
    requires { most ≤ length entries.now }
    ensures { IfOk result (λ breach. breach ≡ closed_by plan.now entries.now most found) }
{
    match found {
        Some(breach) => later_breach(alloc, plan, entries, most, breach),
        None => tail_breach(alloc, entries, most, 0),
    }
}

/// Judges the record of a run that ended otherwise than by its shutdown, whose newest entry comes first: what stands
/// before its tail is right, and the tail only lets go of what is open. The tail is all that the newest entries cut
/// and close, unless the last step closed some of it. None where it is right; else the first place at which what
/// stands before the tail isn't, or the last entry with the rule that the tail breaks. `NoMemory` as `judge`.
pub fn judge_closed(
    alloc: Global,
    plan: &Plan,
    entries: &[Entry],
) -> Result<Option<Breach>, NoMemory>
    ensures { IfOk result (λ found. found ≡ closed_breach plan.now entries.now) }
{
    let most = tail_len(entries);
    let found = breach_before(alloc, plan, entries, most)?;
    closed_by(alloc, plan, entries, most, found)
}

/// The breach is that the last entry before the tail doesn't fit.
fn is_misfit(breach: Breach, before: &[Entry]) -> bool
    ensures { result ≡ (is_fits breach.rule && breach.entry == length before.now) }
{
    matches!(breach.rule, Rule::Fits) && breach.entry == before.len() as u64
}

/// The breach of a stray record, by that of what stands before its tail.
fn stray_by(
    alloc: Global,
    entries: &[Entry],
    most: usize,
    found: Option<Breach>,
) -> Result<Option<Breach>, NoMemory>
    requires { most ≤ length entries.now }
    ensures { IfOk result (λ breach. breach ≡ stray_by entries.now most found) }
{
    let before = without(entries, most);
    match found {
        Some(breach) => {
            if is_misfit(breach, before) {
                return tail_breach(alloc, entries, most, 1);
            }
            Ok(Some(breach))
        }
        None => Ok(Some(Breach {
            entry: before.len() as u64,
            rule: Rule::Fits,
        })),
    }
}

/// Judges the record of a run whose last event didn't fit: what stands before that event is right, the event doesn't
/// fit, and the tail lets go of all that is open and of what the event brought. None where it is right; else as
/// `judge_closed`, or `Fits` at the last entry before the tail where that fits. `NoMemory` as `judge`.
pub fn judge_stray(
    alloc: Global,
    plan: &Plan,
    entries: &[Entry],
) -> Result<Option<Breach>, NoMemory>
    ensures { IfOk result (λ found. found ≡ stray_breach plan.now entries.now) }
{
    let most = tail_len(entries);
    let found = breach_before(alloc, plan, entries, most)?;
    stray_by(alloc, entries, most, found)
}
