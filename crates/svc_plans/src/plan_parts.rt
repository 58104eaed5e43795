//! The parts of a plan, of a script's services.

ghost use Rattle.std.specs.Prelude.{◌≡◌, ◌<◌, ◌≤◌, ◌++◌, ◌∷◌, [], length, map, OnOk, OnErr, IfOk, MatchOption};
ghost use Rattle.svc_text.specs.declared.service.EndpointLine.{EndpointLine};
ghost use Rattle.svc_text.specs.Dependencies.{edges_up_to, RefusesAt, RefusesNone};
ghost use Rattle.svc_text.specs.Edges.{HasEdges};
ghost use Rattle.svc_text.specs.ScriptPlans.{endpoint_of, addresses_of, depends_of, declared_of, service_plan, plans_from, settled};

use std::alloc::Global;
use std::mem::drop;
use svc_base::{ItemRefused, Items, NoMemory, Numbers, Text, Texts, copy_items};
use svc_conf::{Opt, ServerConf};
use svc_graph::{DependencyGraph, EndpointList, EndpointPlan};
use svc_record::{Plan, ServiceList, ServicePlan};
use svc_text::{EndpointLine, ServiceLine, add_dependencies, filter_number};

/// Appends. An item for which no memory was found is dropped.
fn push_item<T: Drop>(alloc: Global, list: &mut Items<T>, item: T) -> Result<(), NoMemory>
    ensures ok { OnOk result (list.new ≡ list.old ++ item ∷ []) }
    ensures refused { OnErr result (list.new ≡ list.old) }
{
    match list.push(alloc, item) {
        Ok(()) => Ok(()),
        Err(refused) => {
            let ItemRefused { reason, item } = refused;
            drop(item);
            Err(reason)
        }
    }
}

/// The endpoint that a line names, with this filter.
fn endpoint_of(
    alloc: Global,
    filter: Option<u32>,
    line: &EndpointLine,
) -> Result<EndpointPlan, NoMemory>
    ensures { IfOk result (λ endpoint. endpoint ≡ endpoint_of filter line.now) }
{
    let address = line.address.copy(alloc)?;
    match copy_items(alloc, line.options.as_slice()) {
        Ok(options) => Ok(EndpointPlan {
            address,
            unix: line.unix,
            options,
            filter,
        }),
        Err(NoMemory) => {
            drop(address);
            Err(NoMemory)
        }
    }
}

/// Appends the endpoint that a line names, with this filter.
fn add_endpoint(
    alloc: Global,
    endpoints: &mut EndpointList,
    filter: Option<u32>,
    line: &EndpointLine,
) -> Result<(), NoMemory>
    ensures { OnOk result (endpoints.new ≡ endpoints.old ++ endpoint_of filter line.now ∷ []) }
{
    let endpoint = endpoint_of(alloc, filter, line)?;
    push_item(alloc, endpoints, endpoint)
}

/// The endpoints that the lines name, in order, with this filter.
fn endpoints_of(
    alloc: Global,
    filter: Option<u32>,
    lines: &[EndpointLine],
) -> Result<EndpointList, NoMemory>
    ensures { IfOk result (λ endpoints. endpoints ≡ map (endpoint_of filter) lines.now) }
{
    let mut endpoints = EndpointList::new(alloc);
    for line in lines {
        match add_endpoint(alloc, &mut endpoints, filter, line) {
            Ok(()) => {}
            Err(NoMemory) => {
                drop(endpoints);
                return Err(NoMemory);
            }
        }
    }
    Ok(endpoints)
}

/// Adds the addresses of endpoints, in order.
fn add_addresses(
    alloc: Global,
    addresses: &mut Texts,
    lines: &[EndpointLine],
) -> Result<(), NoMemory>
    ensures { OnOk result (addresses.new ≡ addresses.old ++ map (λ (e : EndpointLine). e.address) lines.now) }
{
    for line in lines {
        push_item(alloc, addresses, line.address.copy(alloc)?)?;
    }
    Ok(())
}

/// Adds the addresses that a line declares beside those of its endpoints.
fn add_claims(alloc: Global, addresses: &mut Texts, claims: &[Text]) -> Result<(), NoMemory>
    ensures { OnOk result (addresses.new ≡ addresses.old ++ claims.now) }
{
    for claim in claims {
        push_item(alloc, addresses, claim.copy(alloc)?)?;
    }
    Ok(())
}

/// Adds the addresses of a line's endpoints, and its claims.
fn add_declared(alloc: Global, addresses: &mut Texts, line: &ServiceLine) -> Result<(), NoMemory>
    ensures { OnOk result (addresses.new ≡ (addresses.old ++ addresses_of line.now) ++ line.now.claims) }
{
    add_addresses(alloc, addresses, line.endpoints.as_slice())?;
    add_claims(alloc, addresses, line.claims.as_slice())?;
    Ok(())
}

/// What a line declares: its endpoints' addresses and its claims, unless it doesn't declare any.
fn declared_of(alloc: Global, line: &ServiceLine) -> Result<Option<Texts>, NoMemory>
    ensures { IfOk result (λ declared. declared ≡ declared_of line.now) }
{
    if line.undeclared {
        return Ok(None);
    }
    let mut addresses = Texts::new(alloc);
    match add_declared(alloc, &mut addresses, line) {
        Ok(()) => Ok(Some(addresses)),
        Err(NoMemory) => {
            drop(addresses);
            Err(NoMemory)
        }
    }
}

/// The services that service s names as its dependencies, ascending.
fn depends_of(alloc: Global, services: &[ServiceLine], s: u32) -> Result<Numbers, NoMemory>
    requires few { length services.now ≤ 1024 }
    requires service { s < length services.now }
    ensures { IfOk result (λ depends. depends ≡ depends_of services.now s) }
{
    let after = services[s as usize].dependencies();
    let mut depends = Numbers::new(alloc);
    for b in 0..services.len() as u32 {
        if after.contains(&b) {
            push_item(alloc, &mut depends, b)?;
        }
    }
    Ok(depends)
}

/// Service s, of its line.
fn service_plan(
    alloc: Global,
    services: &[ServiceLine],
    s: u32,
    line: &ServiceLine,
) -> Result<ServicePlan, NoMemory>
    requires few { length services.now ≤ 1024 }
    requires service { s < length services.now }
    ensures { IfOk result (λ plan. plan ≡ service_plan services.now s line.now) }
{
    let filter = filter_number(&services[..s as usize], line);
    let name = line.name.copy(alloc)?;
    let depends = match depends_of(alloc, services, s) {
        Ok(depends) => depends,
        Err(NoMemory) => {
            drop(name);
            return Err(NoMemory);
        }
    };
    let declared = match declared_of(alloc, line) {
        Ok(declared) => declared,
        Err(NoMemory) => {
            drop(name);
            drop(depends);
            return Err(NoMemory);
        }
    };
    match endpoints_of(alloc, filter, line.endpoints.as_slice()) {
        Ok(endpoints) => Ok(ServicePlan {
            name,
            kind: line.kind,
            depends,
            declared,
            endpoints,
        }),
        Err(NoMemory) => {
            drop(name);
            drop(depends);
            drop(declared);
            Err(NoMemory)
        }
    }
}

/// The services, of their lines.
pub fn service_plans(alloc: Global, services: &[ServiceLine]) -> Result<ServiceList, NoMemory>
    requires { length services.now ≤ 1024 }
    ensures { IfOk result (λ plans. plans ≡ plans_from services.now 0 services.now) }
{
    let mut plans = ServiceList::new(alloc);
    for s in 0..services.len() as u32 {
        let plan = match service_plan(alloc, services, s, &services[s as usize]) {
            Ok(plan) => plan,
            Err(NoMemory) => {
                drop(plans);
                return Err(NoMemory);
            }
        };
        match push_item(alloc, &mut plans, plan) {
            Ok(()) => {}
            Err(NoMemory) => {
                drop(plans);
                return Err(NoMemory);
            }
        }
    }
    Ok(plans)
}

/// The plan of these services with a configuration and flags, with what stands for the settings that
/// are unset.
pub fn settled(conf: &ServerConf, opt: &Opt, eager: bool, services: ServiceList) -> Plan
    ensures { result ≡ settled conf.now opt.now eager services }
{
    Plan {
        services,
        grace: conf.grace_period_seconds.unwrap_or(300),
        stop: conf.graceful_shutdown_timeout_seconds.unwrap_or(5),
        tasks: conf.listener_tasks_per_fd,
        limit: conf.upgrade_sock_connect_accept_max_retries.unwrap_or(5),
        upgrade: opt.upgrade,
        test: opt.test,
        eager,
        daemon: conf.daemon,
        wait: conf.daemon_wait_for_ready,
        ready_timeout: conf.daemon_ready_timeout_seconds.unwrap_or(600),
    }
}

/// A graph with a node for each of the services, and no dependencies yet.
fn graph_of(alloc: Global, services: &[ServiceLine]) -> Result<DependencyGraph, NoMemory>
    ensures { IfOk result (λ graph. HasEdges graph (length services.now) (edges_up_to services.now 0)) }
{
    let mut graph = DependencyGraph::new(alloc);
    for line in services {
        let name = match line.name.copy(alloc) {
            Ok(name) => name,
            Err(NoMemory) => {
                drop(graph);
                return Err(NoMemory);
            }
        };
        match graph.add_node(alloc, name) {
            Ok(_) => {}
            // There are few services, so it is memory that is wanted.
            Err(refused) => {
                drop(refused);
                drop(graph);
                return Err(NoMemory);
            }
        }
    }
    Ok(graph)
}

/// The number of the first service whose dependencies are refused, if one is.
pub fn first_refused(alloc: Global, services: &[ServiceLine]) -> Result<Option<usize>, NoMemory>
    requires { length services.now ≤ 1024 }
    ensures { IfOk result (λ refused. MatchOption refused (RefusesNone services.now) (RefusesAt services.now)) }
{
    match graph_of(alloc, services) {
        Ok(mut graph) => {
            let refused = add_dependencies(alloc, &mut graph, services);
            drop(graph);
            refused
        }
        Err(NoMemory) => Err(NoMemory),
    }
}
