//! The first service of a script whose dependencies are refused, and why.

ghost use Rattle.std.specs.Prelude.{◌≤◌, length, OnOk, IfOk, IfSome, MatchOption, string_bytes};
ghost use Rattle.svc_messages.specs.Messages.{IsMessage};
ghost use Rattle.svc_text.specs.Dependencies.{RefusesAt, RefusesNone, edges_up_to};
ghost use Rattle.svc_text.specs.Edges.{HasEdges};

use crate::pieces::{Piece, put, told};
use crate::words::said;
use std::alloc::Global;
use svc_base::NoMemory;
use svc_graph::{DependencyError, DependencyGraph};
use svc_text::{ServiceLine, add_dependencies};

/// A graph that has a node for each service, and no dependencies yet.
fn nodes(alloc: Global, services: &[ServiceLine]) -> Result<DependencyGraph, NoMemory>
    requires few { length services.now ≤ 1024 }
    ensures nodes { IfOk result (λ graph. HasEdges graph (length services.now) (edges_up_to services.now 0)) }
{
    let mut graph = DependencyGraph::new(alloc);
    for service in services {
        // Among so few services it is memory that is wanted.
        if graph.add_node(alloc, service.name.copy(alloc)?).is_err() {
            return Err(NoMemory);
        }
    }
    Ok(graph)
}

/// The place in the list of the first service whose dependencies are refused, if they are.
pub fn refused_service(alloc: Global, services: &[ServiceLine]) -> Result<Option<usize>, NoMemory>
    requires few { length services.now ≤ 1024 }
    ensures refused { IfOk result (λ refused. MatchOption refused (RefusesNone services.now) (RefusesAt services.now)) }
{
    let mut graph = nodes(alloc, services)?;
    add_dependencies(alloc, &mut graph, services)
}

/// How many services of a cycle are shown at most.
const SHOWN: usize = 12;

/// Puts a service behind a message: its name, and its number in brackets.
fn put_service(
    alloc: Global,
    text: &mut String,
    services: &[ServiceLine],
    number: u32,
) -> Result<(), NoMemory>
    ensures { OnOk result (IsMessage (string_bytes text.old) → IsMessage (string_bytes text.new)) }
{
    let name: &[u8] = match services.get(number as usize) {
        Some(service) => service.name.as_str().as_bytes(),
        None => &[],
    };
    put(
        alloc,
        text,
        &[
            Piece::Text(" "),
            Piece::Word(name),
            Piece::Text(" ("),
            Piece::Number(number as u64),
            Piece::Text(")"),
        ],
    )
}

/// The first of these dependencies that waits for the service already, or is it. A dependency that
/// doesn't becomes one of the service in the graph.
fn first_waiting(
    alloc: Global,
    graph: &mut DependencyGraph,
    service: u32,
    dependencies: &[u32],
) -> Result<Option<u32>, NoMemory> {
    for dependency in dependencies {
        match graph.add_dependency(alloc, service, *dependency) {
            Err(DependencyError::Circular { .. }) => return Ok(Some(*dependency)),
            Err(DependencyError::NoMemory) => return Err(NoMemory),
            Err(DependencyError::UnknownService) | Ok(()) => {}
        }
    }
    Ok(None)
}

/// The service that this one, which waits for the last one, waits for on the way to it.
fn next_on_the_way(
    alloc: Global,
    graph: &mut DependencyGraph,
    services: &[ServiceLine],
    at: u32,
    last: u32,
) -> Result<Option<u32>, NoMemory> {
    match services.get(at as usize) {
        Some(service) if at != last => first_waiting(alloc, graph, last, service.dependencies()),
        _ => Ok(None),
    }
}

/// Why a dependency closes a cycle: each service on it waits for the one behind it.
fn cycle_text(
    alloc: Global,
    graph: &mut DependencyGraph,
    services: &[ServiceLine],
    number: u32,
    dependency: u32,
) -> Result<String, NoMemory>
    ensures { IfOk result (λ text. IsMessage (string_bytes text)) }
{
    let pieces = [
        Piece::Number(dependency as u64),
        Piece::Text(" closes a cycle:"),
    ];
    let mut text = told(alloc, "after ", &pieces)?;
    put_service(alloc, &mut text, services, number)?;
    let mut at = dependency;
    for _ in 0..SHOWN {
        put(alloc, &mut text, &[Piece::Text(" ->")])?;
        put_service(alloc, &mut text, services, at)?;
        match next_on_the_way(alloc, graph, services, at, number)? {
            Some(next) => at = next,
            None => return Ok(text),
        }
    }
    put(alloc, &mut text, &[Piece::Text(" -> .. ->")])?;
    put_service(alloc, &mut text, services, number)?;
    Ok(text)
}

/// Why this dependency of a service can't be added to the graph, if it can't.
fn dependency_fault(
    alloc: Global,
    graph: &mut DependencyGraph,
    services: &[ServiceLine],
    number: u32,
    dependency: u32,
) -> Result<Option<String>, NoMemory>
    ensures { IfOk result (λ told. IfSome told (λ text. IsMessage (string_bytes text))) }
{
    match graph.add_dependency(alloc, number, dependency) {
        Ok(()) => Ok(None),
        Err(DependencyError::NoMemory) => Err(NoMemory),
        Err(DependencyError::UnknownService) => {
            let last = services.len().saturating_sub(1);
            let pieces = [
                Piece::Number(dependency as u64),
                Piece::Text(", and the services have the numbers from 0 to "),
                Piece::Number(last as u64),
            ];
            Ok(Some(told(alloc, "after names service ", &pieces)?))
        }
        Err(DependencyError::Circular { .. }) => Ok(Some(cycle_text(
            alloc, graph, services, number, dependency,
        )?)),
    }
}

/// Why the dependencies of service k are refused, where those of the services before it aren't.
pub fn dependency_message(
    alloc: Global,
    services: &[ServiceLine],
    k: usize,
) -> Result<String, NoMemory>
    requires few { length services.now ≤ 1024 }
    ensures { IfOk result (λ text. IsMessage (string_bytes text)) }
{
    let mut graph = nodes(alloc, services)?;
    let _ = add_dependencies(alloc, &mut graph, services)?;
    if k < services.len() {
        for dependency in services[k].dependencies() {
            let fault = dependency_fault(alloc, &mut graph, services, k as u32, *dependency)?;
            if let Some(text) = fault {
                return Ok(text);
            }
        }
    }
    said(alloc, "the numbers behind after are refused")
}
