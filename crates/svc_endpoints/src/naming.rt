//! What a plan says of endpoints, and which services name an address.

ghost use Rattle.std.specs.Prelude.{◌≡◌, ◌<◌, ◌≤◌, not, ◌&&◌, ◌||◌, length, List, Some, bytes_eq, slice_index_or, true, false, ℕ};
ghost use Rattle.std.specs.List.{list_any, list_all};
ghost use Rattle.svc_graph.specs.declared.plan.EndpointPlan.{EndpointPlan};
ghost use Rattle.svc_record.specs.Plans.{service_count, services, endpoints, address, names, declares, declares_list, is_among, is_unclaimed};
ghost use Rattle.svc_record.specs.Failed.{in_use_limit};
ghost use Rattle.svc_endpoints.specs.Sums.{is_listed, claims};

use svc_base::Text;
use svc_graph::EndpointPlan;
use svc_record::Plan;

/// How often the address of a network endpoint may be in use before its service is given up.
const NETWORK_TRIES: u32 = 30;

/// The same for a path of the Unix domain.
const UNIX_TRIES: u32 = 1;

pub(crate) fn service_count(plan: &Plan) -> usize
    ensures { result ≡ service_count plan.now }
{
    plan.services.as_slice().len()
}

pub(crate) fn endpoints_of(plan: &Plan, s: usize) -> &[EndpointPlan]
    requires { s < service_count plan.now }
    ensures { result.now ≡ endpoints plan.now s }
{
    plan.services.as_slice()[s].endpoints.as_slice()
}

pub(crate) fn endpoint_count(plan: &Plan, s: usize) -> usize
    requires { s < service_count plan.now }
    ensures { result ≡ length (endpoints plan.now s) }
{
    endpoints_of(plan, s).len()
}

/// How often the endpoint's address may be in use before its service is given up.
pub(crate) fn limit(plan: &Plan, s: u32, i: u32) -> u32
    requires service { s < service_count plan.now }
    requires endpoint { i < length (endpoints plan.now s) }
    ensures value { result ≡ in_use_limit plan.now s i }
    ensures some { 1 ≤ result }
{
    if endpoints_of(plan, s as usize)[i as usize].unix {
        UNIX_TRIES
    } else {
        NETWORK_TRIES
    }
}

pub(crate) fn address_of(plan: &Plan, s: usize, i: usize) -> &str
    requires service { s < service_count plan.now }
    requires endpoint { i < length (endpoints plan.now s) }
    ensures { Some result.now ≡ address plan.now s i }
{
    endpoints_of(plan, s)[i].address.as_str()
}

fn is_among(address: &str, texts: &[Text]) -> bool
    ensures { result ≡ is_among address.now texts.now }
{
    for text in texts {
        if text.as_str() == address {
            return true;
        }
    }
    false
}

fn declares(plan: &Plan, s: usize, address: &str) -> bool
    requires { s < service_count plan.now }
    ensures { result ≡ declares plan.now s address.now }
{
    match &plan.services.as_slice()[s].declared {
        Some(texts) => is_among(address, texts.as_slice()),
        None => false,
    }
}

/// The service declares a list.
fn declares_list(plan: &Plan, s: usize) -> bool
    requires { s < service_count plan.now }
    ensures { result ≡ declares_list plan.now s }
{
    plan.services.as_slice()[s].declared.is_some()
}

/// One of the endpoints has the address.
pub(crate) fn has_endpoint(list: &[EndpointPlan], address: &str) -> bool
    ensures { result ≡ list_any (λ (x : EndpointPlan). bytes_eq x.address address.now) list.now }
{
    for endpoint in list {
        if endpoint.address.as_str() == address {
            return true;
        }
    }
    false
}

/// One of the endpoints has the address. Mostly it is the one at the place.
pub(crate) fn is_listed(list: &[EndpointPlan], at: usize, address: &str) -> bool
    ensures { result ≡ is_listed list.now address.now }
{
    if at < list.len() && list[at].address.as_str() == address {
        return true;
    }
    has_endpoint(list, address)
}

/// One of the endpoints has each of the addresses.
fn are_listed(list: &[EndpointPlan], texts: &[Text]) -> bool
    ensures { result ≡ true → (a : List ℕ) → is_among a texts.now ≡ true → is_listed list.now a ≡ true }
{
    for k in 0..texts.len() {
        if !is_listed(list, k, texts[k].as_str()) {
            return false;
        }
    }
    true
}

/// The service declares no address but those of its endpoints.
pub(crate) fn claims_none(plan: &Plan, s: usize) -> bool
    requires { s < service_count plan.now }
    ensures { result ≡ true → (a : List ℕ) → claims plan.now s a ≡ false }
{
    match &plan.services.as_slice()[s].declared {
        Some(texts) => are_listed(endpoints_of(plan, s), texts.as_slice()),
        None => true,
    }
}

/// The service declares the address, or has an endpoint with it.
fn names(plan: &Plan, s: usize, address: &str) -> bool
    requires { s < service_count plan.now }
    ensures { result ≡ names plan.now s address.now }
{
    declares(plan, s, address) || has_endpoint(endpoints_of(plan, s), address)
}

/// The service declares a list, and doesn't name the address.
fn is_foreign_to(plan: &Plan, s: usize, address: &str) -> bool
    requires { s < service_count plan.now }
    ensures { result ≡ (declares_list plan.now s && not (names plan.now s address.now)) }
{
    declares_list(plan, s) && !names(plan, s, address)
}

/// Every service declares a list, and none names the address.
pub(crate) fn is_unclaimed(plan: &Plan, address: &str) -> bool
    ensures { result ≡ is_unclaimed plan.now address.now }
{
    for s in 0..service_count(plan) {
        if !is_foreign_to(plan, s, address) {
            return false;
        }
    }
    true
}

/// The service has failed, and names the address.
fn has_failed_naming(plan: &Plan, failed: &[bool], s: usize, address: &str) -> bool
    requires flags { length failed.now ≡ service_count plan.now }
    requires service { s < service_count plan.now }
    ensures { result ≡ (slice_index_or failed.now s false && names plan.now s address.now) }
{
    failed[s] && names(plan, s, address)
}

/// Some failed service names the address.
fn is_named_by_failed(plan: &Plan, failed: &[bool], address: &str) -> bool
    requires flags { length failed.now ≡ service_count plan.now }
    ensures { result ≡ list_any (λ s. slice_index_or failed.now s false && names plan.now s address.now) (services plan.now) }
{
    for s in 0..service_count(plan) {
        if has_failed_naming(plan, failed, s, address) {
            return true;
        }
    }
    false
}

/// The service has failed, or doesn't name the address.
fn is_done_with(plan: &Plan, failed: &[bool], s: usize, address: &str) -> bool
    requires flags { length failed.now ≡ service_count plan.now }
    requires service { s < service_count plan.now }
    ensures { result ≡ (not (names plan.now s address.now) || slice_index_or failed.now s false) }
{
    failed[s] || !names(plan, s, address)
}

/// All services that name the address have failed.
fn all_failed(plan: &Plan, failed: &[bool], address: &str) -> bool
    requires flags { length failed.now ≡ service_count plan.now }
    ensures { result ≡ list_all (λ s. not (names plan.now s address.now) || slice_index_or failed.now s false) (services plan.now) }
{
    for s in 0..service_count(plan) {
        if !is_done_with(plan, failed, s, address) {
            return false;
        }
    }
    true
}

/// Some service names the address, and all that name it have failed. Only then a failed one does, so that
/// of most addresses the failed services alone are asked.
pub(crate) fn is_abandoned(plan: &Plan, failed: &[bool], address: &str) -> bool
    requires flags { length failed.now ≡ service_count plan.now }
    ensures { result ≡ (list_any (λ s. names plan.now s address.now) (services plan.now)
        && list_all (λ s. not (names plan.now s address.now) || slice_index_or failed.now s false) (services plan.now)) }
{
    is_named_by_failed(plan, failed, address) && all_failed(plan, failed, address)
}
