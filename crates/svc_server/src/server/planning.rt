//! What a server's plan is made of.

ghost use Rattle.std.specs.Prelude.{◌≡◌, ◌<◌, length, IfOk, [], ◌∷◌};
ghost use Rattle.svc_graph.specs.Graphs.{node_count, IsGraph};
ghost use Rattle.svc_server.specs.Servers.{answer_of, answers_of, depends_of, with_depends, is_upgrade, is_test, status_of};

use crate::run::{Outcome, RunError};
use std::alloc::Global;
use std::mem::drop;
use svc_base::{ItemRefused, Items, NoMemory, Numbers, Reserved, Text, Texts};
use svc_conf::Opt;
use svc_graph::services::ServiceWithDependents;
use svc_graph::{DependencyGraph, EndpointList};
use svc_record::{ServiceList, ServicePlan};

/// The items as a list of a plan.
fn list_of<T: Drop>(items: Vec<T>) -> Items<T>
    ensures { result ≡ items.items }
{
    Reserved::of(items).into_items()
}

/// What the service declares, as a plan has it.
fn declared_of<B: ServiceWithDependents>(
    alloc: Global,
    service: &B,
) -> Result<Option<Texts>, NoMemory>
    ensures { IfOk result (λ declared. declared ≡ B.declares service.now) }
{
    match service.listen_addresses(alloc)? {
        Some(texts) => Ok(Some(list_of(texts))),
        None => Ok(None),
    }
}

/// What the graph says that the service with this number depends on, as a plan has it.
fn depends_of(alloc: Global, graph: &DependencyGraph, s: u32) -> Result<Numbers, NoMemory>
    requires { s < node_count graph.now }
    ensures { IfOk result (λ depends. depends ≡ depends_of graph.now s) }
{
    Ok(list_of(graph.get_dependencies(alloc, s)?))
}

/// The service's endpoints, as a plan has them.
fn endpoints_of<B: ServiceWithDependents>(
    alloc: Global,
    service: &B,
) -> Result<EndpointList, NoMemory>
    ensures { IfOk result (λ endpoints. endpoints ≡ B.configures service.now) }
{
    Ok(list_of(service.listener_configs(alloc)?))
}

/// What the service with this number answers, with what the graph says that it depends on.
fn service_plan<B: ServiceWithDependents>(
    alloc: Global,
    graph: &DependencyGraph,
    s: u32,
    service: &B,
) -> Result<ServicePlan, NoMemory>
    requires { s < node_count graph.now }
    ensures { IfOk result (λ plan. plan
        ≡ record (answer_of B.ServiceWithDependents service.now) {
          depends = depends_of graph.now s;
        }) }
{
    let name = Text::new(alloc, service.name())?;
    let depends = match depends_of(alloc, graph, s) {
        Ok(depends) => depends,
        Err(NoMemory) => {
            drop(name);
            return Err(NoMemory);
        }
    };
    let declared = match declared_of(alloc, service) {
        Ok(declared) => declared,
        Err(NoMemory) => {
            drop(name);
            drop(depends);
            return Err(NoMemory);
        }
    };
    match endpoints_of(alloc, service) {
        Ok(endpoints) => Ok(ServicePlan {
            name,
            kind: service.kind(),
            depends,
            declared,
            endpoints,
        }),
        Err(NoMemory) => {
            drop(name);
            drop(depends);
            drop(declared);
            Err(NoMemory)
        }
    }
}

/// What each of the services answers, with what the graph says that it depends on.
pub(super) fn service_plans<B: ServiceWithDependents>(
    alloc: Global,
    graph: &DependencyGraph,
    services: &[B],
) -> Result<ServiceList, NoMemory>
    requires { length services.now ≡ node_count graph.now }
    ensures graph { IsGraph graph.now }
    ensures plans { IfOk result (λ plans. plans
        ≡ with_depends graph.now 0
        (answers_of B.ServiceWithDependents services.now)) }
{
    let mut plans = ServiceList::new(alloc);
    for s in 0..graph.len() as u32 {
        let plan = match service_plan(alloc, graph, s, &services[s as usize]) {
            Ok(plan) => plan,
            Err(NoMemory) => {
                drop(plans);
                return Err(NoMemory);
            }
        };
        match plans.push(alloc, plan) {
            Ok(()) => {}
            Err(refused) => {
                let ItemRefused { reason, item } = refused;
                drop(item);
                drop(plans);
                return Err(reason);
            }
        }
    }
    Ok(plans)
}

/// The flags ask that the server takes over the sockets of an older one.
pub(super) fn is_upgrade(options: &Option<Opt>) -> bool
    ensures { result ≡ is_upgrade options.now }
{
    match options {
        Some(opt) => opt.upgrade,
        None => false,
    }
}

/// The flags ask that the server only tests that it can start.
pub(super) fn is_test(options: &Option<Opt>) -> bool
    ensures { result ≡ is_test options.now }
{
    match options {
        Some(opt) => opt.test,
        None => false,
    }
}

/// The status to end with after such an answer.
pub(super) fn status_of(answer: Result<Outcome, RunError>) -> Result<u8, RunError>
    ensures { result ≡ status_of answer }
{
    match answer {
        Ok(Outcome::Served) => Ok(0),
        Ok(Outcome::TestPassed) => Ok(0),
        Ok(Outcome::Parent(status)) => Ok(status),
        Err(error) => Err(error),
    }
}
