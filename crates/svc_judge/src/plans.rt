//! What a plan says of its services and endpoints.

ghost use Rattle.std.specs.Prelude.{◌≡◌, ◌==◌, ◌&&◌, length, bytes_eq, true};
ghost use Rattle.std.specs.List.{list_any};
ghost use Rattle.std.specs.Option.{option_copied};
ghost use Rattle.svc_graph.specs.declared.plan.EndpointPlan.{EndpointPlan};
ghost use Rattle.svc_record.specs.Plans.{service_count, service, depends, is_kind, has_kind, endpoints, is_endpoint, endpoint, address, is_unix, filter_of, options_of, same_address, is_among, declares_list, declares, names, is_unclaimed};
ghost use Rattle.svc_record.specs.Failed.{in_use_limit};

use svc_base::{Setting, Text};
use svc_graph::{EndpointPlan, Kind};
use svc_record::{Plan, ServicePlan};

/// How many services there are.
pub(crate) fn service_count(plan: &Plan) -> u64
    ensures { result ≡ service_count plan.now }
{
    plan.services.len()
}

/// The service with this number.
fn service(plan: &Plan, s: u64) -> Option<&ServicePlan>
    ensures { option_copied result ≡ service plan.now s }
{
    plan.services.as_slice().get(s as usize)
}

/// The services that it depends on.
pub(crate) fn depends(plan: &Plan, s: u64) -> &[u32]
    ensures { result.now ≡ depends plan.now s }
{
    match service(plan, s) {
        Some(service) => service.depends.as_slice(),
        None => &[],
    }
}

/// The two kinds are equal.
fn is_kind(kind: Kind, other: Kind) -> bool
    ensures { result ≡ is_kind kind other }
{
    match kind {
        Kind::Plain => matches!(other, Kind::Plain),
        Kind::Notifying => matches!(other, Kind::Notifying),
        Kind::Bootstrap => matches!(other, Kind::Bootstrap),
    }
}

/// It is a service of this kind.
pub(crate) fn has_kind(plan: &Plan, kind: Kind, s: u64) -> bool
    ensures { result ≡ has_kind plan.now kind s }
{
    match service(plan, s) {
        Some(service) => is_kind(kind, service.kind),
        None => false,
    }
}

/// Its endpoints.
pub(crate) fn endpoints(plan: &Plan, s: u64) -> &[EndpointPlan]
    ensures { result.now ≡ endpoints plan.now s }
{
    match service(plan, s) {
        Some(service) => service.endpoints.as_slice(),
        None => &[],
    }
}

/// How many endpoints it has.
pub(crate) fn endpoint_count(plan: &Plan, s: u64) -> u64
    ensures { result ≡ length (endpoints plan.now s) }
{
    endpoints(plan, s).len() as u64
}

/// It has an endpoint with this number.
pub(crate) fn is_endpoint(plan: &Plan, s: u64, i: u64) -> bool
    ensures { result ≡ is_endpoint plan.now s i }
{
    i < endpoint_count(plan, s)
}

/// The endpoint with this number.
fn endpoint(plan: &Plan, s: u64, i: u64) -> Option<&EndpointPlan>
    ensures { option_copied result ≡ endpoint plan.now s i }
{
    endpoints(plan, s).get(i as usize)
}

/// The endpoint's address.
pub(crate) fn address(plan: &Plan, s: u64, i: u64) -> Option<&str>
    ensures { option_copied result ≡ address plan.now s i }
{
    match endpoint(plan, s, i) {
        Some(endpoint) => Some(endpoint.address.as_str()),
        None => None,
    }
}

/// The endpoint is a Unix one.
pub(crate) fn is_unix(plan: &Plan, s: u64, i: u64) -> bool
    ensures { result ≡ is_unix plan.now s i }
{
    match endpoint(plan, s, i) {
        Some(endpoint) => endpoint.unix,
        None => false,
    }
}

/// How often its address may be in use before its service is given up.
pub(crate) fn in_use_limit(plan: &Plan, s: u64, i: u64) -> u64
    ensures { result ≡ in_use_limit plan.now s i }
{
    if is_unix(plan, s, i) { 1 } else { 30 }
}

/// The number of its filter, if it has one.
pub(crate) fn filter_of(plan: &Plan, s: u64, i: u64) -> Option<u32>
    ensures { result ≡ filter_of plan.now s i }
{
    match endpoint(plan, s, i) {
        Some(endpoint) => endpoint.filter,
        None => None,
    }
}

/// Its options.
pub(crate) fn options_of(plan: &Plan, s: u64, i: u64) -> &[Setting]
    ensures { result.now ≡ options_of plan.now s i }
{
    match endpoint(plan, s, i) {
        Some(endpoint) => endpoint.options.as_slice(),
        None => &[],
    }
}

/// The texts are as long, and end in the same byte.
fn ends_alike(one: &[u8], other: &[u8]) -> bool
    ensures { one.now ≡ other.now → result ≡ true }
{
    let count = one.len();
    if count != other.len() {
        return false;
    }
    count == 0 || one[count - 1] == other[count - 1]
}

/// The addresses are the same. Their ends are compared first, in which those of a plan mostly differ.
#[tactic(auto, using(crate::proofs::AddressLemmas::unlike))]
fn is_same(one: &str, other: &str) -> bool
    ensures { result ≡ bytes_eq one.now other.now }
{
    ends_alike(one.as_bytes(), other.as_bytes()) && one == other
}

/// Both are an address, and the same one.
pub(crate) fn same_address(one: Option<&str>, other: Option<&str>) -> bool
    ensures { result ≡ same_address (option_copied one.entry) (option_copied other.entry) }
{
    match (one, other) {
        (Some(a), Some(b)) => is_same(a, b),
        _ => false,
    }
}

/// The address is one of the texts.
fn is_among(address: &str, texts: &[Text]) -> bool
    ensures { result ≡ is_among address.now texts.now }
{
    texts.iter().any(|text| text.as_str() == address)
}

/// The service declares a list.
fn declares_list(plan: &Plan, s: u64) -> bool
    ensures { result ≡ declares_list plan.now s }
{
    match service(plan, s) {
        Some(service) => service.declared.is_some(),
        None => false,
    }
}

/// The service declares a list with the address in it.
fn declares(plan: &Plan, s: u64, address: &str) -> bool
    ensures { result ≡ declares plan.now s address.now }
{
    match service(plan, s) {
        Some(service) => match &service.declared {
            Some(texts) => is_among(address, texts.as_slice()),
            None => false,
        },
        None => false,
    }
}

/// One of the endpoints has the address.
fn has_endpoint(list: &[EndpointPlan], address: &str) -> bool
    ensures { result ≡ list_any (λ (e : EndpointPlan). bytes_eq e.address address.now) list.now }
{
    list.iter()
        .any(|endpoint| is_same(endpoint.address.as_str(), address))
}

/// The service declares the address, or has an endpoint with it.
pub(crate) fn names(plan: &Plan, s: u64, address: &str) -> bool
    ensures { result ≡ names plan.now s address.now }
{
    declares(plan, s, address) || has_endpoint(endpoints(plan, s), address)
}

/// Every service declares a list, and no service names the address.
pub(crate) fn is_unclaimed(plan: &Plan, address: &str) -> bool
    ensures { result ≡ is_unclaimed plan.now address.now }
{
    (0..service_count(plan)).all(|s| declares_list(plan, s) && !names(plan, s, address))
}
