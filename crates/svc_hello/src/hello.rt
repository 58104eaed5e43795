//! The server: its configuration, its services, and its run.

ghost use Rattle.std.specs.Prelude.{◌≡◌, [], ◌∷◌, ◌++◌, reverse, length, false, Some, None, IfOk, OnOk};
ghost use Rattle.svc_base.specs.Items.{list_of};
ghost use Rattle.svc_conf.specs.Configuration.{defaults};
ghost use Rattle.svc_graph.specs.Graphs.{node_count, with_node};
ghost use Rattle.svc_record.specs.Right.{Served};
ghost use Rattle.svc_server.specs.Servers.{answers_of, plan_of, IsSound};
ghost use Rattle.svc_hello.specs.HelloPlan.{hello_plan};

use crate::host::HelloHost;
use crate::services::HelloService;
use std::alloc::Global;
use std::mem::drop;
use svc_base::NoMemory;
use svc_conf::{ReadError, ServerConf};
use svc_graph::services::ServiceWithDependents;
use svc_graph::{DependencyError, ServiceHandle};
use svc_server::{AddError, Outcome, RunArgs, RunError, Server};
use thiserror::Error;

/// Why the server didn't serve.
#[derive(Clone, Copy, PartialEq, Eq, Debug, Error)]
pub enum HelloError {
    /// The configuration is refused.
    #[error("{0}")]
    Configuration(#[from] ReadError),
    /// A service is refused.
    #[error("{0}")]
    Service(AddError),
    /// A dependency is refused.
    #[error("{0}")]
    Dependency(#[from] DependencyError),
    /// The run ended before its shutdown was through.
    #[error("{0}")]
    Run(#[from] RunError),
    /// The run served nobody: it only tested that it can start, or this process is the parent.
    #[error("nobody was served")]
    NotServed,
    /// There was no memory.
    #[error("{0}")]
    NoMemory(#[from] NoMemory),
}

/// The defaults, with one second of grace.
fn configuration(alloc: Global) -> Result<ServerConf, NoMemory>
    ensures { IfOk result (λ conf. conf ≡ record defaults { grace_period_seconds = Some 1 }) }
{
    let mut conf = ServerConf::default(alloc)?;
    conf.grace_period_seconds = Some(1);
    Ok(conf)
}

/// Adds a service. One that is refused is let go, and the reason is told.
fn add(
    server: &mut Server<HelloService>,
    alloc: Global,
    service: HelloService,
) -> Result<ServiceHandle, HelloError>
    ensures configuration { server.new.configuration ≡ server.old.configuration }
    ensures options { server.new.options ≡ server.old.options }
    ensures eager { server.new.eager ≡ server.old.eager }
    ensures filters { server.new.filters ≡ server.old.filters }
    ensures handle { IfOk result (λ handle. handle
        ≡ record { id = node_count server.old.dependencies; name = ⟦<HelloService as ServiceWithDependents>⟧.named service }) }
    ensures added { OnOk result (server.new.services.items ≡ server.old.services.items ++ service ∷ []) }
    ensures node { OnOk result (server.new.dependencies
        ≡ with_node server.old.dependencies (⟦<HelloService as ServiceWithDependents>⟧.named service)) }
    ensures sound { IsSound server.old.dependencies (length server.old.filters)
        (answers_of ⟦<HelloService as ServiceWithDependents>⟧ server.old.services.items)
        → IsSound server.new.dependencies (length server.new.filters)
        (answers_of ⟦<HelloService as ServiceWithDependents>⟧ server.new.services.items) }
{
    server
        .add_service(alloc, service)
        .map_err(|refused| HelloError::Service(refused.reason))
}

/// Adds the services to a server that has none. The web service starts once the cache is ready.
fn add_services(alloc: Global, server: &mut Server<HelloService>) -> Result<(), HelloError>
    requires configuration { server.old.configuration ≡ record defaults { grace_period_seconds = Some 1 } }
    requires options { server.old.options ≡ None }
    requires dependencies { server.old.dependencies ≡ record { names = []; depends = [] } }
    requires services { server.old.services.items ≡ [] }
    requires eager { server.old.eager ≡ false }
    requires sound { IsSound server.old.dependencies (length server.old.filters)
        (answers_of ⟦<HelloService as ServiceWithDependents>⟧ server.old.services.items) }
    ensures plan { OnOk result (plan_of server.new.configuration server.new.options server.new.eager server.new.dependencies
        (answers_of ⟦<HelloService as ServiceWithDependents>⟧ server.new.services.items) ≡ hello_plan) }
    ensures sound { OnOk result (IsSound server.new.dependencies (length server.new.filters)
        (answers_of ⟦<HelloService as ServiceWithDependents>⟧ server.new.services.items)) }
{
    let cache = add(server, alloc, HelloService::cache(alloc, 3)?)?;
    let web = add(server, alloc, HelloService::web(alloc, "127.0.0.1:8080")?)?;
    web.add_dependency(alloc, &mut server.dependencies, &cache)?;
    Ok(())
}

/// The server, with its services.
fn hello_server(alloc: Global) -> Result<Server<HelloService>, HelloError>
    ensures plan { IfOk result (λ server. plan_of server.configuration server.options server.eager server.dependencies
        (answers_of ⟦<HelloService as ServiceWithDependents>⟧ server.services.items) ≡ hello_plan) }
    ensures sound { IfOk result (λ server. IsSound server.dependencies (length server.filters)
        (answers_of ⟦<HelloService as ServiceWithDependents>⟧ server.services.items)) }
{
    let mut server = Server::new_with_opt_and_conf(alloc, None, configuration(alloc)?)?;
    match add_services(alloc, &mut server) {
        Ok(()) => Ok(server),
        Err(error) => {
            drop(server);
            Err(error)
        }
    }
}

/// Runs the server, to which so many visitors come before it is stopped, and gives the host, with the
/// record of the run: a served record of the server's plan.
pub fn run(alloc: Global, visitors: u64) -> Result<HelloHost, HelloError>
    ensures served { IfOk result (λ host. Served hello_plan (reverse (list_of host.entries))) }
{
    let server = hello_server(alloc)?;
    let mut host = HelloHost::new(alloc, visitors);
    match server.run(alloc, RunArgs::default(), &mut host) {
        Ok(Outcome::Served) => Ok(host),
        Ok(Outcome::TestPassed | Outcome::Parent(_)) => {
            drop(host);
            Err(HelloError::NotServed)
        }
        Err(error) => {
            drop(host);
            Err(HelloError::Run(error))
        }
    }
}
