//! Why a service can't be added to a server.

ghost use Rattle.std.specs.Prelude.{◌≡◌, IfOk, position};
ghost use Rattle.svc_server.specs.Servers.{answer_of};
ghost use Rattle.svc_server.specs.Additions.{is_bad_address, is_unknown_filter, endpoint_causes, first_cause, fault_of};

use crate::server::refusals::AddError;
use std::alloc::Global;
use svc_base::NoMemory;
use svc_graph::services::ServiceWithDependents;
use svc_graph::{ADDRESS_LIMIT, DependencyGraph, ENDPOINT_LIMIT, EndpointPlan, NODE_LIMIT};

/// The address is empty or too long.
fn is_bad_address(endpoint: &EndpointPlan) -> bool
    ensures { result ≡ is_bad_address endpoint.now }
{
    let length = endpoint.address.as_str().len();
    length == 0 || length > ADDRESS_LIMIT
}

/// The endpoint names a filter that isn't one of so many.
fn is_unknown_filter(endpoint: &EndpointPlan, filters: u64) -> bool
    ensures { result ≡ is_unknown_filter filters endpoint.now }
{
    match endpoint.filter {
        Some(number) => number as u64 >= filters,
        None => false,
    }
}

/// The index of the first endpoint with a bad address.
fn first_bad_address(endpoints: &[EndpointPlan]) -> Option<usize>
    ensures { result ≡ position is_bad_address endpoints.now }
{
    endpoints.iter().position(is_bad_address)
}

/// The index of the first endpoint with a filter that isn't one of so many.
fn first_unknown_filter(endpoints: &[EndpointPlan], filters: u64) -> Option<usize>
    ensures { result ≡ position (is_unknown_filter filters) endpoints.now }
{
    endpoints
        .iter()
        .position(|endpoint| is_unknown_filter(endpoint, filters))
}

/// The first cause that lies in the endpoints, where there are so many filters.
fn endpoints_fault(endpoints: &[EndpointPlan], filters: u64) -> Option<AddError>
    ensures { result ≡ first_cause (endpoint_causes filters endpoints.now) }
{
    if endpoints.len() > ENDPOINT_LIMIT {
        return Some(AddError::TooManyEndpoints);
    }
    if let Some(index) = first_bad_address(endpoints) {
        return Some(AddError::BadAddressText(index as u64));
    }
    match first_unknown_filter(endpoints, filters) {
        Some(index) => Some(AddError::UnknownFilter(index as u64)),
        None => None,
    }
}

/// Why the service can't be added to a server with this graph and so many filters, if it can't.
pub(super) fn fault_of<B: ServiceWithDependents>(
    alloc: Global,
    graph: &DependencyGraph,
    filters: u64,
    service: &B,
) -> Result<Option<AddError>, NoMemory>
    ensures { IfOk result (λ fault. fault
        ≡ fault_of graph.now filters
        (answer_of B.ServiceWithDependents service.now)) }
{
    if graph.len() >= NODE_LIMIT {
        return Ok(Some(AddError::TooMany));
    }
    let endpoints = service.listener_configs(alloc)?;
    Ok(endpoints_fault(&endpoints, filters))
}
