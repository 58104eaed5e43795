//! The tests of a plan, and the order in which its services start.

ghost use Rattle.std.specs.Prelude.{◌≡◌, ◌<◌, ◌≤◌, ◌↔◌, ℕ, true, false, length, All, IsTrue, IfOk, IfSome, IfNone};
ghost use Rattle.svc_graph.specs.Paths.{IsAcyclic};
ghost use Rattle.svc_graph.specs.Graphs.{node_count, is_edge, IsGraph};
ghost use Rattle.svc_record.specs.Plans.{service_count, depends};
ghost use Rattle.svc_record.specs.Validity.{IsValid, IsStartupOrder, IsInOrder, IsAddress};
ghost use Rattle.svc_record.specs.Building.{KeepsLimits, DependsWell, IsGraphUpTo, with_row};

use crate::plan::{Plan, ServicePlan};
use std::alloc::Global;
use std::mem::drop;
use svc_base::NoMemory;
use svc_graph::{
    ADDRESS_LIMIT, DependencyError, DependencyGraph, ENDPOINT_LIMIT, EndpointPlan, NODE_LIMIT,
};

/// The services that a service depends on.
fn depends(plan: &Plan, service: usize) -> &[u32]
    requires { service < service_count plan.now }
    ensures { result.now ≡ depends plan.now service }
{
    plan.services.as_slice()[service].depends.as_slice()
}

/// A graph with a node for each service, and no dependencies.
fn nodes(alloc: Global, plan: &Plan) -> Result<DependencyGraph, NoMemory>
    requires { service_count plan.now ≤ 1024 }
    ensures count { IfOk result (λ graph. node_count graph ≡ service_count plan.now) }
    ensures edges { IfOk result (λ graph. (a b : ℕ) → is_edge graph a b ≡ false) }
    ensures graph { IfOk result (λ graph. IsGraph graph) }
{
    let mut graph = DependencyGraph::new(alloc);
    for service in plan.services.as_slice() {
        let name = service.name.copy(alloc)?;
        if graph.add_node(alloc, name).is_err() {
            return Err(NoMemory);
        }
    }
    Ok(graph)
}

/// Adds a service's dependencies. Answers false where one isn't in the graph or leads back.
fn add_dependencies(
    alloc: Global,
    graph: &mut DependencyGraph,
    service: u32,
    dependencies: &[u32],
) -> Result<bool, NoMemory>
    requires service { service < node_count graph.old }
    requires graph { IsGraph graph.old }
    ensures graph { IsGraph graph.new }
    ensures names { node_count graph.new ≡ node_count graph.old }
    ensures added { IfOk result (λ added. added ≡ true → (a b : ℕ)
        → is_edge graph.new a b ≡ with_row (is_edge graph.old) service dependencies.now a b) }
    ensures refused { IfOk result (λ added. added ≡ false
        → All (λ d. d < node_count graph.old) dependencies.now
        → IsAcyclic (with_row (is_edge graph.old) service dependencies.now) → ⊥) }
{
    for dependency in dependencies {
        if let Err(error) = graph.add_dependency(alloc, service, *dependency) {
            return match error {
                DependencyError::UnknownService => Ok(false),
                DependencyError::Circular { .. } => Ok(false),
                DependencyError::NoMemory => Err(NoMemory),
            };
        }
    }
    Ok(true)
}

/// The graph of the services' dependencies, if each is a service and none leads back.
fn graph_of(alloc: Global, plan: &Plan) -> Result<Option<DependencyGraph>, NoMemory>
    requires { service_count plan.now ≤ 1024 }
    ensures some { IfOk result (λ found. IfSome found
        (λ graph. IsGraphUpTo plan.now (service_count plan.now) graph)) }
    ensures graph { IfOk result (λ found. IfSome found (λ graph. IsGraph graph)) }
    ensures none { IfOk result (λ found. IfNone found (DependsWell plan.now → ⊥)) }
{
    let mut graph = nodes(alloc, plan)?;
    for service in 0..plan.services.as_slice().len() {
        if !add_dependencies(alloc, &mut graph, service as u32, depends(plan, service))? {
            return Ok(None);
        }
    }
    Ok(Some(graph))
}

/// The graph of the services' dependencies, and the services in the order in which they start: always the
/// least one whose dependencies are listed.
pub fn startup_graph(alloc: Global, plan: &Plan) -> Result<(DependencyGraph, Vec<u32>), NoMemory>
    requires { IsValid plan.now }
    ensures graph { IfOk result (λ found. IsGraphUpTo plan.now (service_count plan.now) found.0) }
    ensures least { IfOk result (λ found. IsStartupOrder plan.now found.1.items) }
    ensures in_order { IfOk result (λ found. IsInOrder plan.now found.1.items) }
{
    match graph_of(alloc, plan)? {
        Some(graph) => match graph.topological_sort(alloc) {
            Ok(order) => Ok((graph, order)),
            Err(NoMemory) => {
                drop(graph);
                Err(NoMemory)
            }
        },
        None => unreachable!(),
    }
}

/// The address's text has 1 to 4,096 bytes.
fn is_address(endpoint: &EndpointPlan) -> bool
    ensures { IsTrue result ↔ IsAddress endpoint.now }
{
    let length = endpoint.address.as_str().len();
    (1..=ADDRESS_LIMIT).contains(&length)
}

/// There are at most 64 endpoints, each with an address.
fn are_endpoints(endpoints: &[EndpointPlan]) -> bool
    ensures { IsTrue result ↔ ((length endpoints.now ≤ 64) × All IsAddress endpoints.now) }
{
    endpoints.len() <= ENDPOINT_LIMIT && endpoints.iter().all(is_address)
}

/// Each service has at most 64 endpoints, each with an address.
fn have_endpoints(services: &[ServicePlan]) -> bool
    ensures { IsTrue result
        ↔ All (λ s. (length s.endpoints ≤ 64) × All IsAddress s.endpoints) services.now }
{
    services
        .iter()
        .all(|service| are_endpoints(service.endpoints.as_slice()))
}

/// The plan keeps the limits, whatever its services depend on.
fn keeps_limits(plan: &Plan) -> bool
    ensures { IsTrue result ↔ KeepsLimits plan.now }
{
    let services = plan.services.as_slice();
    services.len() as u64 <= NODE_LIMIT && plan.tasks > 0 && have_endpoints(services)
}

impl Plan {
    /// A server can be run by the plan: it keeps the limits, each dependency is a service of it, and
    /// no service depends on itself by any chain.
    pub fn valid(&self, alloc: Global) -> Result<bool, NoMemory>
        ensures { IfOk result (λ valid. IsTrue valid ↔ IsValid self.now) }
    {
        if !keeps_limits(self) {
            return Ok(false);
        }
        Ok(graph_of(alloc, self)?.is_some())
    }
}
