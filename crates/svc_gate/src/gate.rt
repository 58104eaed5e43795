//! The gate.

ghost use Rattle.std.specs.Prelude.{◌≡◌, ℕ, ◌+◌, ◌-◌, ◌*◌, ◌^◌, ◌<◌, ◌≤◌, length, take, drop, IfOk, unwrap_or};
ghost use Rattle.std.specs.List.{All};
ghost use Rattle.svc_socket.specs.declared.reading.IpNumber.{IpNumber};
ghost use Rattle.svc_gate.specs.Rules.{first_allow, first_of, IpFits};
ghost use Rattle.svc_gate.specs.Rising.{Rises};
ghost use Rattle.svc_gate.specs.Merged.{merged};
ghost use Rattle.svc_gate.specs.Ranges.{answer_in, verdict_of, count_of, ranges_of, ip_of_peer, accepts};

use crate::counted::GateRange;
use crate::rules::GateRules;
use crate::segments::{Segment, advance, segments_of};
use std::alloc::Global;
use std::marker::{Brand, Model};
use std::sync::ledger::{Blank, Ledger};
use svc_base::NoMemory;
use svc_history::Steps;
use svc_socket::{IpNumber, PeerAddr, ip6_number};
use svc_streams::ConnectionFilter;

/// The ranges of one family: what is said of the lowest one, and the later ones. Contracts see them
/// as this pair.
#[derive(Debug, Drop)]
pub(crate) struct Family {
    lowest: bool,
    later: Vec<GateRange>,
}

impl Model for Family {
    ghost use Rattle.std.specs.Prelude.{List, Bool};
    ghost use Rattle.svc_gate.specs.declared.counted.GateRange.{GateRange};
    ghost use Rattle.svc_gate.specs.Rising.{Rises};

    ghost Value = { Bool × List GateRange };

    ghost view = { λ s. (s.lowest, s.later.items) };

    ghost invariant = { λ s. Rises 0 s.later.items };
}

/// A range from the beginning of each segment on where something else is said than before it.
fn merged(
    alloc: Global,
    segments: &[Segment],
    default_allow: bool,
    lowest: bool,
) -> Result<Vec<GateRange>, NoMemory>
    ensures { IfOk result (λ ranges. ranges.items ≡ merged default_allow lowest segments.now) }
{
    let mut ranges = Vec::new(alloc);
    let mut before = lowest;
    for segment in segments {
        let allow = segment.allow.unwrap_or(default_allow);
        if allow != before {
            ranges.push(GateRange::new(segment.from, allow))?;
            before = allow;
        }
    }
    Ok(ranges)
}

/// How many of the ranges have begun at the number.
fn begun_by<L: Ledger>(ranges: &[GateRange], number: u128, steps: &mut Steps<L>) -> usize
    requires { Rises 0 ranges.now }
    ensures within { result ≤ length ranges.now }
    ensures begun { All (λ range. range.from ≤ number) (take result ranges.now) }
    ensures later { All (λ range. number < range.from) (drop result ranges.now) }
    ensures counted { steps.old ≤ steps.new }
    ensures cost { 2 ^ (steps.new - steps.old) ≤ 2 * length ranges.now + 1 }
{
    let mut low = 0;
    let mut high = ranges.len();
    while low < high {
        let middle = low + (high - low) / 2;
        if ranges[middle].has_begun(number, steps) {
            low = middle + 1;
        } else {
            high = middle;
        }
    }
    low
}

impl Family {
    /// The ranges of the family by these rules.
    fn new(alloc: Global, rules: &GateRules, v6: bool) -> Result<Self, NoMemory>
        ensures answers { IfOk result (λ f. (x : ℕ) → x < 2 ^ 128 → answer_in f x ≡ unwrap_or (first_allow v6 x rules.now.rules) rules.now.default_allow) }
        ensures count { IfOk result (λ f. count_of f ≤ 2 * length rules.now.rules + 1) }
    {
        let segments = segments_of(alloc, rules.rules.as_slice(), v6)?;
        let (found, behind) = advance(None, segments.as_slice(), 0);
        let lowest = found.unwrap_or(rules.default_allow);
        let later = merged(alloc, behind, rules.default_allow, lowest)?;
        Ok(Family { lowest, later })
    }

    /// How many ranges it has.
    fn count(&self) -> u64
        ensures count { result ≡ count_of self.now }
        ensures small { result < 2 ^ 63 }
    {
        self.later.as_slice().len() as u64 + 1
    }

    /// What is said of the number.
    fn answer<L: Ledger>(&self, number: u128, steps: &mut Steps<L>) -> bool
        ensures answer { result ≡ answer_in self.now number }
        ensures counted { steps.old ≤ steps.new }
        ensures cost { 2 ^ (steps.new - steps.old) ≤ 2 * count_of self.now + 1 }
    {
        let begun = begun_by(self.later.as_slice(), number, steps);
        if begun == 0 {
            return self.lowest;
        }
        self.later[begun - 1].allow()
    }
}

/// Says of each address what the first rule says that holds it. It has disjoint ranges, in order, for
/// each family of addresses, and finds the range of an address by halving.
#[derive(Debug, Drop)]
pub struct Gate {
    v4: Family,
    v6: Family,
}

impl Gate {
    /// The gate of these rules.
    pub fn new(alloc: Global, rules: &GateRules) -> Result<Self, NoMemory>
        ensures verdicts { IfOk result (λ gate. (x : IpNumber) → IpFits x → verdict_of gate x ≡ first_of rules.now x) }
        ensures count { IfOk result (λ gate. ranges_of gate ≤ 4 * length rules.now.rules + 2) }
    {
        let v4 = Family::new(alloc, rules, false)?;
        let v6 = Family::new(alloc, rules, true)?;
        Ok(Gate { v4, v6 })
    }

    /// How many ranges it has, of both families.
    pub fn ranges(&self) -> u64
        ensures { result ≡ ranges_of self.now }
    {
        self.v4.count() + self.v6.count()
    }

    /// What it says of an address. Each comparison of two addresses is a step.
    pub fn verdict<L: Ledger>(&self, addr: IpNumber, steps: &mut Steps<L>) -> bool
        ensures verdict { result ≡ verdict_of self.now addr }
        ensures counted { steps.old ≤ steps.new }
        ensures cost { 2 ^ (steps.new - steps.old) ≤ 2 * ranges_of self.now + 1 }
    {
        match addr {
            IpNumber::V4(number) => self.v4.answer(number as u128, steps),
            IpNumber::V6(number) => self.v6.answer(number, steps),
        }
    }
}

impl Gate {
    /// What it says of an address, where no one counts.
    pub(crate) fn uncounted<L: Ledger>(&self, addr: IpNumber, blank: Blank) -> bool
        requires name { blank.name ≡ L.name }
        requires parts { blank.parts ≡ L.parts }
        requires some { 0 < blank.parts }
        ensures { result ≡ verdict_of self.now addr }
    {
        let mut steps = Steps::<L>::new(blank);
        self.verdict(addr, &mut steps)
    }
}

/// The number of the peer's address.
fn ip_of(peer: &PeerAddr) -> IpNumber
    ensures { result ≡ ip_of_peer peer.now }
{
    match *peer {
        PeerAddr::V4 { ip, .. } => IpNumber::V4(ip),
        PeerAddr::V6 { high, low, .. } => IpNumber::V6(ip6_number(high, low)),
    }
}

/// Takes the connections that the gate allows, and those of unknown peers.
impl ConnectionFilter for Gate {
    ghost verdict = { λ gate _ peer. accepts gate peer };

    fn should_accept(&mut self, peer: Option<&PeerAddr>) -> bool {
        match peer {
            None => true,
            Some(peer) => self.uncounted::<Brand>(ip_of(peer), Blank::new(1)),
        }
    }
}
