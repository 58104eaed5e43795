//! The first rule that holds each number of a family: from the rules of both halves of a list.

ghost use Rattle.std.specs.Prelude.{◌≡◌, ◌*◌, ◌+◌, ◌^◌, ◌≤◌, [], ◌∷◌, length, IfOk};
ghost use Rattle.svc_gate.specs.Segments.{FindsFirst, FindsEither, Ascends, next_begin, word_at, rest_at};

use crate::rules::{GateRule, is_of};
use std::alloc::Global;
use svc_base::NoMemory;

/// The numbers from one up to the beginning of the next segment: what the first rule says that holds
/// them, if one does.
#[derive(Clone, Copy)]
pub(crate) struct Segment {
    pub from: u128,
    pub allow: Option<bool>,
}

/// The segments of one rule, if it holds numbers of the family.
fn segments_by(alloc: Global, rule: &GateRule, v6: bool) -> Result<Vec<Segment>, NoMemory>
    ensures ascend { IfOk result (λ segments. Ascends 0 segments.items (2 ^ 128)) }
    ensures found { IfOk result (λ segments. FindsFirst v6 (rule.now ∷ []) segments.items) }
    ensures few { IfOk result (λ segments. length segments.items ≤ 2) }
{
    let mut segments = Vec::new(alloc);
    if !is_of(rule, v6) || rule.from > rule.to {
        return Ok(segments);
    }
    segments.push(Segment {
        from: rule.from,
        allow: Some(rule.allow),
    })?;
    if rule.to < u128::MAX {
        segments.push(Segment {
            from: rule.to + 1,
            allow: None,
        })?;
    }
    Ok(segments)
}

/// Where the next segment of either list begins.
fn next_begin(upper: &[Segment], lower: &[Segment]) -> Option<u128>
    ensures { result ≡ next_begin upper.now lower.now }
{
    match (upper, lower) {
        ([], []) => None,
        ([a, ..], []) => Some(a.from),
        ([], [b, ..]) => Some(b.from),
        ([a, ..], [b, ..]) if a.from <= b.from => Some(a.from),
        (_, [b, ..]) => Some(b.from),
    }
}

/// What is said at a number before which no later segment begins, and the later segments.
pub(crate) fn advance(
    allow: Option<bool>,
    segments: &[Segment],
    number: u128,
) -> (Option<bool>, &[Segment])
    ensures word { result.0 ≡ word_at allow segments.now number }
    ensures rest { result.1.now ≡ rest_at segments.now number }
{
    match segments {
        [first, rest @ ..] if first.from == number => (first.allow, rest),
        _ => (allow, segments),
    }
}

/// What the upper segments say, and where they say nothing, what the lower ones do.
fn overlay(alloc: Global, upper: &[Segment], lower: &[Segment]) -> Result<Vec<Segment>, NoMemory>
    requires upper { Ascends 0 upper.now (2 ^ 128) }
    requires lower { Ascends 0 lower.now (2 ^ 128) }
    ensures ascend { IfOk result (λ segments. Ascends 0 segments.items (2 ^ 128)) }
    ensures found { IfOk result (λ segments. FindsEither upper.now lower.now segments.items) }
    ensures few { IfOk result (λ segments. length segments.items ≤ length upper.now + length lower.now) }
{
    let mut segments = Vec::with_capacity(alloc, upper.len() + lower.len())?;
    let mut above = None;
    let mut below = None;
    let mut upper_rest = upper;
    let mut lower_rest = lower;
    while let Some(from) = next_begin(upper_rest, lower_rest) {
        (above, upper_rest) = advance(above, upper_rest, from);
        (below, lower_rest) = advance(below, lower_rest, from);
        segments.push(Segment {
            from,
            allow: above.or(below),
        })?;
    }
    Ok(segments)
}

/// The segments of all rules of the family.
pub(crate) fn segments_of(
    alloc: Global,
    rules: &[GateRule],
    v6: bool,
) -> Result<Vec<Segment>, NoMemory>
    ensures ascend { IfOk result (λ segments. Ascends 0 segments.items (2 ^ 128)) }
    ensures found { IfOk result (λ segments. FindsFirst v6 rules.now segments.items) }
    ensures few { IfOk result (λ segments. length segments.items ≤ 2 * length rules.now) }
{
    match rules {
        [] => Ok(Vec::new(alloc)),
        [rule] => segments_by(alloc, rule, v6),
        _ => {
            let (front, back) = rules.split_at(rules.len() / 2);
            let upper = segments_of(alloc, front, v6)?;
            let lower = segments_of(alloc, back, v6)?;
            overlay(alloc, upper.as_slice(), lower.as_slice())
        }
    }
}
