//! What is told from `ShutdownRuntimes` on.

ghost use Rattle.std.specs.Prelude.{◌≡◌, ◌<◌, ◌≤◌, nat_lt, [], ◌∷◌, length, map, filter, IfOk, OnOk};
ghost use Rattle.std.specs.Option.{option_copied, option_to_list};
ghost use Rattle.std.specs.List.{position_or_len};
ghost use Rattle.svc_base.specs.NumberSets.{put_number, ascending};
ghost use Rattle.svc_record.specs.declared.action.Action.TheVariants.{Cut, Close, Stop, Phase};
ghost use Rattle.svc_record.specs.Connections.{live_connections, arrived_numbers};
ghost use Rattle.svc_record.specs.Drain.{is_told, stop_seconds, ends_right};
ghost use Rattle.svc_judge.specs.Chains.{IsChains};
ghost use Rattle.svc_record.specs.Record.{Record};
ghost use Rattle.svc_judge.specs.Numbers.{put_onto, live_in, unclosed_in};
ghost use Rattle.svc_judge.specs.Pasts.{IsPast, plan_of, record_of};
ghost use Rattle.svc_judge.specs.Endings.{before_told, strip_back, before_ends, is_there, is_uncut};

use crate::chains::Chains;
use crate::connections::is_uncut;
use crate::descriptors::is_unclosed;
use crate::looking::{has_cut, now, signal_of};
use crate::marks::phase_number;
use crate::past::{Opened, Past};
use std::alloc::Global;
use std::mem::drop;
use svc_base::NoMemory;
use svc_record::{Action, Entry, Event, ExecutionPhase, ShutdownSignal};

/// The place of a number among numbers in ascending order, behind those that are equal.
fn place(numbers: &[u64], number: u64) -> usize
    ensures place { result ≡ position_or_len (λ m. nat_lt number m) numbers.now }
    ensures within { result ≤ length numbers.now }
{
    let mut rest = numbers;
    let mut at = 0;
    'numbers: while let Some((first, more)) = rest.split_first() {
        if number < *first {
            return at;
        }
        at += 1;
        rest = more;
    }
    at
}

/// Adds a number to numbers in ascending order, behind those that are equal.
fn put_number(numbers: &mut Vec<u64>, number: u64) -> Result<(), NoMemory>
    ensures { OnOk result (numbers.new.items ≡ put_number number numbers.old.items) }
{
    let at = place(numbers, number);
    numbers.insert(at, number)?;
    Ok(())
}

/// The connection that the entry brings.
pub(crate) fn arrival(entry: &Entry) -> Option<u64>
    ensures { option_to_list result ≡ arrived_numbers (entry.now ∷ []) }
{
    match entry {
        Entry::Got(Event::Arrived(_, _, c, _)) => Some(*c),
        _ => None,
    }
}

/// The connection goes on, and isn't cut, by the entries on it.
pub(crate) fn is_uncut_in(chains: &Chains, c: u64) -> bool
    requires { 0 < length chains.now.parts }
    ensures { (q : Record) → IsChains chains.now q → result ≡ is_uncut q c }
{
    is_uncut(chains.of(c), c)
}

/// Adds the connection, where it is live.
fn put_uncut(
    numbers: &mut Vec<u64>,
    whole: &[Entry],
    chains: &Chains,
    c: u64,
) -> Result<(), NoMemory>
    requires { IsChains chains.now whole.now }
    ensures { OnOk result (numbers.new.items ≡ put_onto (filter (is_uncut whole.now) (c ∷ [])) numbers.old.items) }
{
    if is_uncut_in(chains, c) {
        put_number(numbers, c)?;
        return Ok(());
    }
    Ok(())
}

/// Adds the connection that the entry brings, where it is live.
fn put_live(
    numbers: &mut Vec<u64>,
    whole: &[Entry],
    chains: &Chains,
    entry: &Entry,
) -> Result<(), NoMemory>
    requires { IsChains chains.now whole.now }
    ensures { OnOk result (numbers.new.items ≡ put_onto (live_in whole.now (entry.now ∷ [])) numbers.old.items) }
{
    match arrival(entry) {
        Some(c) => put_uncut(numbers, whole, chains, c),
        None => Ok(()),
    }
}

/// The live connections, ascending, where the chains are those of the entries.
#[tactic(auto, using(crate::proofs::NumberLemmas::onto_none, crate::proofs::NumberLemmas::live_last))]
fn live_by(alloc: Global, entries: &[Entry], chains: &Chains) -> Result<Vec<u64>, NoMemory>
    requires { IsChains chains.now entries.now }
    ensures { IfOk result (λ numbers. numbers.items ≡ ascending (live_connections entries.now)) }
{
    let mut numbers = Vec::new(alloc);
    let mut rest = entries;
    'entries: while let Some((entry, before)) = rest.split_last() {
        put_live(&mut numbers, entries, chains, entry)?;
        rest = before;
    }
    Ok(numbers)
}

/// The live connections, ascending.
fn live_connections(alloc: Global, entries: &[Entry]) -> Result<Vec<u64>, NoMemory>
    ensures { IfOk result (λ numbers. numbers.items ≡ ascending (live_connections entries.now)) }
{
    let chains = Chains::new(alloc, entries)?;
    let numbers = live_by(alloc, entries, &chains);
    drop(chains);
    numbers
}

/// Adds the descriptor's number, where it is live.
fn put_unclosed(numbers: &mut Vec<u64>, whole: &[Entry], opened: &Opened) -> Result<(), NoMemory>
    ensures { OnOk result (numbers.new.items ≡ put_onto (unclosed_in whole.now (opened.now ∷ [])) numbers.old.items) }
{
    if is_unclosed(whole, opened) {
        put_number(numbers, opened.number())?;
        return Ok(());
    }
    Ok(())
}

/// The numbers of the live ones among these descriptors, ascending.
#[tactic(auto, using(crate::proofs::NumberLemmas::onto_none, crate::proofs::NumberLemmas::unclosed_last))]
fn unclosed_in(alloc: Global, whole: &[Entry], opened: &[Opened]) -> Result<Vec<u64>, NoMemory>
    ensures { IfOk result (λ numbers. numbers.items ≡ ascending (unclosed_in whole.now opened.now)) }
{
    let mut numbers = Vec::new(alloc);
    let mut rest = opened;
    'opened: while let Some((last, others)) = rest.split_last() {
        put_unclosed(&mut numbers, whole, last)?;
        rest = others;
    }
    Ok(numbers)
}

/// The seconds that `Stop` carries: none after a fast first signal or a cut.
fn stop_seconds(past: &Past) -> u64
    ensures { result ≡ stop_seconds (plan_of past.now) (record_of past.now) }
{
    if matches!(signal_of(past.entries), Some(ShutdownSignal::FastShutdown))
        || has_cut(past.entries)
    {
        0
    } else {
        past.plan.stop
    }
}

/// The entry tells this phase, with this moment.
fn tells_phase(phase: ExecutionPhase, ms: u64, entry: &Entry) -> bool
    ensures { result ≡ is_told (Phase phase ms) entry.now }
{
    match entry {
        Entry::Told(Action::Phase(told, at)) => {
            phase_number(*told) == phase_number(phase) && *at == ms
        }
        _ => false,
    }
}

/// What stands before the newest entry, where that tells this phase; none where it doesn't.
fn before_phase<'a>(
    phase: ExecutionPhase,
    ms: u64,
    rest: Option<&'a [Entry]>,
) -> Option<&'a [Entry]>
    ensures { option_copied result ≡ before_told (Phase phase ms) (option_copied rest.entry) }
{
    match rest {
        Some([entry, before @ ..]) if tells_phase(phase, ms, entry) => Some(before),
        _ => None,
    }
}

/// The same, of `Stop`.
fn before_stop<'a>(seconds: u64, rest: Option<&'a [Entry]>) -> Option<&'a [Entry]>
    ensures { option_copied result ≡ before_told (Stop seconds) (option_copied rest.entry) }
{
    match rest {
        Some([Entry::Told(Action::Stop(told)), before @ ..]) if *told == seconds => Some(before),
        _ => None,
    }
}

/// The same, of a close.
fn before_close<'a>(fd: u64, rest: Option<&'a [Entry]>) -> Option<&'a [Entry]>
    ensures { option_copied result ≡ before_told (Close fd) (option_copied rest.entry) }
{
    match rest {
        Some([Entry::Told(Action::Close(told)), before @ ..]) if *told == fd => Some(before),
        _ => None,
    }
}

/// The same, of a cut.
fn before_cut<'a>(c: u64, rest: Option<&'a [Entry]>) -> Option<&'a [Entry]>
    ensures { option_copied result ≡ before_told (Cut c) (option_copied rest.entry) }
{
    match rest {
        Some([Entry::Told(Action::Cut(told)), before @ ..]) if *told == c => Some(before),
        _ => None,
    }
}

/// What stands before closes of these descriptors, in order.
#[tactic(auto, using(crate::proofs::EndingLemmas::strip_last))]
fn before_closes<'a>(fds: &[u64], told: Option<&'a [Entry]>) -> Option<&'a [Entry]>
    ensures { option_copied result ≡ strip_back (map Close fds.now) (option_copied told.entry) }
{
    let mut left = told;
    let mut rest = fds;
    'fds: while let Some((fd, others)) = rest.split_last() {
        left = before_close(*fd, left);
        rest = others;
    }
    left
}

/// What stands before cuts of these connections, in order.
#[tactic(auto, using(crate::proofs::EndingLemmas::strip_last))]
fn before_cuts<'a>(cs: &[u64], told: Option<&'a [Entry]>) -> Option<&'a [Entry]>
    ensures { option_copied result ≡ strip_back (map Cut cs.now) (option_copied told.entry) }
{
    let mut left = told;
    let mut rest = cs;
    'cs: while let Some((c, others)) = rest.split_last() {
        left = before_cut(*c, left);
        rest = others;
    }
    left
}

/// What stands before all that is told from `ShutdownRuntimes` on, of these connections and descriptors.
fn before_ends<'a>(at: &Past, cs: &[u64], fds: &[u64], entries: &'a [Entry]) -> Option<&'a [Entry]>
    ensures { option_copied result ≡ before_ends (plan_of at.now) (record_of at.now) cs.now fds.now entries.now }
{
    let moment = now(at.entries);
    let terminated = before_phase(ExecutionPhase::Terminated, moment, Some(entries));
    let stopped = before_stop(stop_seconds(at), terminated);
    let closed = before_closes(fds, stopped);
    let cut = before_cuts(cs, closed);
    before_phase(ExecutionPhase::ShutdownRuntimes, moment, cut)
}

/// The record ends with what is told from `ShutdownRuntimes` on, of these connections and descriptors.
fn ends_with(at: &Past, cs: &[u64], fds: &[u64], entries: &[Entry]) -> bool
    ensures { result ≡ is_there (before_ends (plan_of at.now) (record_of at.now) cs.now fds.now entries.now) }
{
    match before_ends(at, cs, fds, entries) {
        Some(_) => true,
        None => false,
    }
}

/// The record ends with what is told from `ShutdownRuntimes` on, where `at` stands before it.
pub(crate) fn ends_right(alloc: Global, at: &Past, entries: &[Entry]) -> Result<bool, NoMemory>
    requires { IsPast at.now }
    ensures { IfOk result (λ right. right ≡ ends_right (plan_of at.now) (record_of at.now) entries.now) }
{
    let connections = live_connections(alloc, at.entries)?;
    let descriptors = unclosed_in(alloc, at.entries, at.opened)?;
    Ok(ends_with(at, &connections, &descriptors, entries))
}
