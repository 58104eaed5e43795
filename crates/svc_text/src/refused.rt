//! The dependencies that a script's services name, and the first service that may not have its own.

ghost use Rattle.std.specs.Prelude.{◌≡◌, ◌<◌, ◌≤◌, ℕ, List, length, IfOk, IfNone, MatchBool, MatchOption};
ghost use Rattle.svc_graph.specs.Paths.{IsAcyclic};
ghost use Rattle.svc_graph.specs.Graphs.{node_count, is_edge};
ghost use Rattle.svc_text.specs.declared.service.ServiceLine.{ServiceLine};
ghost use Rattle.svc_text.specs.Dependencies.{edges_up_to, IsUnsound, RefusesAt, RefusesNone};
ghost use Rattle.svc_text.specs.Edges.{with_row, HasEdges, HasTaken};

use crate::service::ServiceLine;
use std::alloc::Global;
use svc_base::NoMemory;
use svc_graph::{DependencyError, DependencyGraph};

/// Adds the dependencies of a service. It answers whether all could be added.
fn add_row(
    alloc: Global,
    graph: &mut DependencyGraph,
    dependent: u32,
    after: &[u32],
) -> Result<bool, NoMemory>
    requires node { dependent < node_count graph.old }
    requires acyclic { IsAcyclic (is_edge graph.old) }
    ensures taken { IfOk result (λ taken. MatchBool taken
        (HasTaken graph.old graph.new dependent after.now)
        (IsUnsound (node_count graph.old) (with_row (is_edge graph.old) dependent after.now) after.now)) }
    ensures names { graph.new.names ≡ graph.old.names }
{
    for dependency in after {
        match graph.add_dependency(alloc, dependent, *dependency) {
            Ok(()) => {}
            Err(DependencyError::NoMemory) => return Err(NoMemory),
            Err(DependencyError::UnknownService) => return Ok(false),
            Err(DependencyError::Circular { .. }) => return Ok(false),
        }
    }
    Ok(true)
}

/// Adds the dependencies that a script's services name, in the order of their lines, to a graph that
/// has a node for each service and no dependencies yet. It answers the number of the first service
/// that depends on one which isn't there, or that closes a cycle with those before it.
pub fn add_dependencies(
    alloc: Global,
    graph: &mut DependencyGraph,
    services: &[ServiceLine],
) -> Result<Option<usize>, NoMemory>
    requires few { length services.now ≤ 1024 }
    requires nodes { HasEdges graph.old (length services.now) (edges_up_to services.now 0) }
    ensures refused { IfOk result (λ refused. MatchOption refused (RefusesNone services.now) (RefusesAt services.now)) }
    ensures added { IfOk result (λ refused. IfNone refused
        (HasEdges graph.new (length services.now) (edges_up_to services.now (length services.now)))) }
    ensures names { graph.new.names ≡ graph.old.names }
{
    for number in 0..services.len() {
        let after = services[number].dependencies();
        if !add_row(alloc, graph, number as u32, after)? {
            return Ok(Some(number));
        }
    }
    Ok(None)
}

/// At most one service is the first that is refused, and if one is, then not none is.
pub fn one_refused_service()
    ensures first { (services : List ServiceLine) (j k : ℕ) → RefusesAt services j → RefusesAt services k → j ≡ k }
    ensures some { (services : List ServiceLine) (k : ℕ) → RefusesAt services k → RefusesNone services → ⊥ }
{}
