//! The graph of services, handles of it, and what waits in it.

ghost use Rattle.std.specs.Prelude.{◌≡◌, ◌<◌, true, false, [], ◌∷◌, length, slice_set};
ghost use Rattle.svc_graph.specs.Marks.{is_marked};
ghost use Rattle.svc_graph.specs.Waitings.{missing_of, dependents_of};
ghost use Rattle.svc_tests_base.specs.Waits.{two_for_one};

use crate::checking::{holds, prints, same};
use std::marker::Brand;
use std::process::Abort;
use std::sync::ledger::{Blank, Ledger};
use svc_base::Text;
use svc_graph::{AddNodeReason, DependencyError, DependencyGraph, ServiceHandle, Steps, Waiting};

/// A graph of as many services of one name.
fn graph<R: Abort + AllocGlobal>(rt: &R, nodes: u32) -> DependencyGraph {
    let mut graph = DependencyGraph::new(rt.alloc());
    for number in 0..nodes {
        let name = Text::new(rt.alloc(), "service").expect(rt, "a name");
        assert_eq!(rt; graph.add_node(rt.alloc(), name).ok(), Some(number));
    }
    graph
}

/// The handle of a service of such a graph.
fn handle<R: Abort + AllocGlobal>(rt: &R, id: u32, name: &str) -> ServiceHandle {
    ServiceHandle::new(id, Text::new(rt.alloc(), name).expect(rt, "a name"))
}

#[test]
fn the_least_service_that_is_due_comes_first(rt: HostRuntime) {
    let rt = &rt;
    let mut services = graph(rt, 5);
    for (dependent, dependency) in [(0, 3), (3, 4), (4, 1), (2, 0), (2, 0)] {
        let added = services.add_dependency(rt.alloc(), dependent, dependency);
        same(rt, added, Ok(()));
    }
    let order = services.topological_sort(rt.alloc()).expect(rt, "an order");
    same(rt, order.as_slice(), [1, 4, 3, 0, 2].as_slice());
    assert_eq!(rt; services.len(), 5);
    let dependencies = services
        .get_dependencies(rt.alloc(), 2)
        .expect(rt, "a list");
    same(rt, dependencies.as_slice(), [0].as_slice());
    for (dependent, dependency, refused) in [
        (4, 0, "Circular service dependency detected between 0 and 4"),
        (2, 2, "Circular service dependency detected between 2 and 2"),
        (5, 0, "Unknown service"),
        (0, 5, "Unknown service"),
    ] {
        let refusal = services
            .add_dependency(rt.alloc(), dependent, dependency)
            .err();
        prints(rt, refusal.expect(rt, "a refusal"), refused);
    }
}

#[test]
fn a_graph_has_at_most_1024_services(rt: HostRuntime) {
    let rt = &rt;
    let mut services = graph(rt, 1024);
    let name = Text::new(rt.alloc(), "last").expect(rt, "a name");
    let refused = services
        .add_node(rt.alloc(), name)
        .err()
        .expect(rt, "a refusal");
    same(rt, refused.name.as_str(), "last");
    assert_eq!(rt; services.len(), 1024);
    prints(rt, refused.reason, "too many services");
    prints(rt, AddNodeReason::NoMemory, "out of memory");
    prints(rt, DependencyError::NoMemory, "out of memory");
}

#[test]
fn handles_add_dependencies(rt: HostRuntime) {
    let rt = &rt;
    let mut services = graph(rt, 3);
    let first = handle(rt, 0, "service");
    let last = handle(rt, 2, "service");
    let copy = last.copy(rt.alloc()).expect(rt, "a handle");
    same(rt, copy.id(), 2);
    same(rt, copy.name(), "service");
    same(
        rt,
        copy.add_dependency(rt.alloc(), &mut services, &first),
        Ok(()),
    );
    let mut list = Vec::new(rt.alloc());
    for (id, name) in [(1, "service"), (0, "queue")] {
        holds(rt, list.push(handle(rt, id, name)).is_ok());
    }
    let added = last.add_dependencies(rt.alloc(), &mut services, &list);
    same(rt, added, Err((1, DependencyError::UnknownService)));
    assert_eq!(rt; services.len(), 3);
    let dependencies = services
        .get_dependencies(rt.alloc(), 2)
        .expect(rt, "a list");
    same(rt, dependencies.as_slice(), [0, 1].as_slice());
}

/// Where one service waits for two, its count falls by one with the mark of each. That takes a step for
/// each of the two, and none for the one.
fn counts_of_two_for_one()
    ensures at_first { missing_of (two_for_one (false ∷ false ∷ false ∷ [])) 2 ≡ 2 }
    ensures after_one { missing_of (two_for_one (true ∷ false ∷ false ∷ [])) 2 ≡ 1 }
    ensures after_both { missing_of (two_for_one (true ∷ true ∷ false ∷ [])) 2 ≡ 0 }
    ensures steps_of_0 { dependents_of (two_for_one (false ∷ false ∷ false ∷ [])) 0 ≡ 1 }
    ensures steps_of_1 { dependents_of (two_for_one (true ∷ false ∷ false ∷ [])) 1 ≡ 1 }
    ensures steps_of_2 { dependents_of (two_for_one (true ∷ true ∷ false ∷ [])) 2 ≡ 0 }
{}

/// Marks a service. Nobody counts the steps.
fn mark<L: Ledger>(waiting: &mut Waiting, s: u32, blank: Blank)
    requires name { blank.name ≡ L.name }
    requires parts { blank.parts ≡ L.parts }
    requires some { 0 < blank.parts }
    requires node { s < length waiting.old.marks }
    requires fresh { is_marked waiting.old.marks s ≡ false }
    ensures { waiting.new.marks ≡ slice_set waiting.old.marks s true }
{
    let mut steps = Steps::<L>::new(blank);
    waiting.mark(s, &mut steps);
}

#[test]
fn a_count_falls_with_each_dependency(rt: HostRuntime) {
    let rt = &rt;
    counts_of_two_for_one();
    let mut services = graph(rt, 3);
    for dependency in 0..2 {
        let added = services.add_dependency(rt.alloc(), 2, dependency);
        same(rt, added, Ok(()));
    }
    let mut waiting = Waiting::new(rt.alloc(), &services).expect(rt, "counts");
    assert_eq!(rt; services.len(), 3);
    same(rt, waiting.missing(2), 2);
    mark::<Brand>(&mut waiting, 0, Blank::new(1));
    holds(rt, waiting.marked(0));
    same(rt, waiting.missing(2), 1);
    mark::<Brand>(&mut waiting, 1, Blank::new(1));
    same(rt, waiting.missing(2), 0);
    holds(rt, !waiting.marked(2));
    mark::<Brand>(&mut waiting, 2, Blank::new(1));
    holds(rt, waiting.marked(2));
}
