//! Sums of addresses, by which an address is told that one endpoint alone has, and that no other service claims.

ghost use Rattle.std.specs.Prelude.{◌≡◌, ◌+◌, ◌<◌, ◌≤◌, List, ℕ, IfOk, OnOk, true, false};
ghost use Rattle.svc_base.specs.Items.{list_of, spare};
ghost use Rattle.svc_base.specs.NumberSets.{is_in};
ghost use Rattle.svc_record.specs.Plans.{service_count, is_among};
ghost use Rattle.svc_endpoints.specs.Sums.{hash_from, sum_of, is_listed, claims, AreShared, AreNoted, Grows};

use crate::naming::{address_of, endpoint_count, endpoints_of, is_listed, service_count};
use std::alloc::Global;
use svc_base::{NoMemory, NumberSet, Text};
use svc_graph::EndpointPlan;
use svc_record::Plan;

/// A number that is made of the bytes.
fn hash(bytes: &[u8]) -> u64
    ensures { result ≡ hash_from 0 bytes.now }
{
    let mut hash = 0u64;
    for byte in bytes {
        hash = hash.wrapping_mul(131).wrapping_add(*byte as u64);
    }
    hash
}

/// A number that is made of the address.
pub(crate) fn sum_of(address: &str) -> u64
    ensures { result ≡ sum_of address.now }
{
    hash(address.as_bytes())
}

/// Takes the number, unless it is there.
fn take(numbers: &mut NumberSet, number: u64)
    requires { 0 < spare numbers.old }
    ensures put { is_in number (list_of numbers.new) ≡ true }
    ensures kept { Grows (list_of numbers.old) (list_of numbers.new) }
    ensures room { spare numbers.old ≤ spare numbers.new + 1 }
{
    if !numbers.has(number) {
        numbers.add(number);
    }
}

/// Puts the number in, unless it is there.
fn put_in(numbers: &mut NumberSet, number: u64) -> Result<(), NoMemory>
    ensures put { OnOk result (is_in number (list_of numbers.new) ≡ true) }
    ensures kept { OnOk result (Grows (list_of numbers.old) (list_of numbers.new)) }
{
    numbers.reserve(1)?;
    take(numbers, number);
    Ok(())
}

/// Notes an endpoint's sum. One that was seen before is shared.
fn note(seen: &mut NumberSet, shared: &mut NumberSet, sum: u64) -> Result<(), NoMemory>
    ensures here { OnOk result (is_in sum (list_of seen.new) ≡ true) }
    ensures twice { OnOk result (is_in sum (list_of seen.old) ≡ true → is_in sum (list_of shared.new) ≡ true) }
    ensures seen { OnOk result (Grows (list_of seen.old) (list_of seen.new)) }
    ensures shared { OnOk result (Grows (list_of shared.old) (list_of shared.new)) }
{
    if seen.has(sum) {
        return put_in(shared, sum);
    }
    put_in(seen, sum)
}

/// Puts the address's sum in, unless one of the endpoints has it; mostly it is the one at the place.
fn note_unlisted(
    list: &[EndpointPlan],
    at: usize,
    address: &str,
    shared: &mut NumberSet,
) -> Result<(), NoMemory>
    ensures here { OnOk result (is_listed list.now address.now ≡ false → is_in (sum_of address.now) (list_of shared.new) ≡ true) }
    ensures kept { OnOk result (Grows (list_of shared.old) (list_of shared.new)) }
{
    if is_listed(list, at, address) {
        return Ok(());
    }
    put_in(shared, sum_of(address))
}

/// Puts the sum of each of the addresses in that no endpoint has.
fn note_texts(list: &[EndpointPlan], texts: &[Text], shared: &mut NumberSet) -> Result<(), NoMemory>
    ensures claimed { OnOk result ((a : List ℕ) → is_among a texts.now ≡ true → is_listed list.now a ≡ false → is_in (sum_of a) (list_of shared.new) ≡ true) }
    ensures kept { OnOk result (Grows (list_of shared.old) (list_of shared.new)) }
{
    for k in 0..texts.len() {
        note_unlisted(list, k, texts[k].as_str(), shared)?;
    }
    Ok(())
}

/// Puts the sums of what the service claims in.
fn note_claims(plan: &Plan, s: usize, shared: &mut NumberSet) -> Result<(), NoMemory>
    requires { s < service_count plan.now }
    ensures claimed { OnOk result ((a : List ℕ) → claims plan.now s a ≡ true → is_in (sum_of a) (list_of shared.new) ≡ true) }
    ensures kept { OnOk result (Grows (list_of shared.old) (list_of shared.new)) }
{
    match &plan.services.as_slice()[s].declared {
        Some(texts) => note_texts(endpoints_of(plan, s), texts.as_slice(), shared),
        None => Ok(()),
    }
}

/// Notes the sums of a service's endpoints, and of what it claims.
fn note_row(
    plan: &Plan,
    s: usize,
    seen: &mut NumberSet,
    shared: &mut NumberSet,
) -> Result<(), NoMemory>
    requires service { s < service_count plan.now }
    requires noted { AreNoted plan.now s 0 (list_of seen.old) (list_of shared.old) }
    ensures { OnOk result (AreNoted plan.now (s + 1) 0 (list_of seen.new) (list_of shared.new)) }
{
    for i in 0..endpoint_count(plan, s) {
        note(seen, shared, sum_of(address_of(plan, s, i)))?;
    }
    note_claims(plan, s, shared)?;
    Ok(())
}

/// The sums of the addresses that more than one endpoint may have, or that a service claims.
pub(crate) fn shared_sums(alloc: Global, plan: &Plan) -> Result<NumberSet, NoMemory>
    ensures { IfOk result (λ shared. AreShared plan.now (list_of shared)) }
{
    let mut seen = NumberSet::new(alloc);
    let mut shared = NumberSet::new(alloc);
    for s in 0..service_count(plan) {
        note_row(plan, s, &mut seen, &mut shared)?;
    }
    Ok(shared)
}
