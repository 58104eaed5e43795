//! A server: its configuration, its services with their dependencies, and its run.

mod adding;
mod addresses;
mod lists;
mod making;
mod planning;
mod refusals;

use crate::host::Host;
use crate::run::{Outcome, RunArgs, RunError};
use crate::server::adding::fault_of;
use crate::server::addresses::expected_addresses;
use crate::server::lists::reversed;
use crate::server::planning::{is_test, is_upgrade, service_plans, status_of};
use crate::turns::{Planned, run_plan};
pub use refusals::{AddAllRefused, AddError, AddRefused};
use std::alloc::Global;
use std::mem::drop;
use svc_base::{NoMemory, Text};
use svc_conf::{Opt, ReadError, ServerConf};
use svc_core::PhaseReader;
use svc_graph::services::ServiceWithDependents;
use svc_graph::{DependencyGraph, Kind, ServiceHandle};
use svc_record::Plan;
use svc_streams::{ConnectionFilter, Filters};

/// A server whose services have the type `B`, which is `Box<dyn ServiceWithDependents>` for most, and
/// whose filters have the type `F`.
#[derive(Drop)]
pub struct Server<B, F = Box<dyn ConnectionFilter>> {
    /// What the server is configured with.
    pub configuration: ServerConf,
    /// The flags that it was started with.
    pub options: Option<Opt>,
    /// Which service depends on which. Its nodes are the services, by number and name.
    pub dependencies: DependencyGraph,
    /// Which connections are taken: the filters that the services' endpoints name by their numbers.
    pub filters: Filters<F>,
    services: Vec<B>,
    /// Whether the server bootstraps before its services start.
    eager: bool,
}

impl<B: ServiceWithDependents, F: ConnectionFilter> Server<B, F> {
    ghost use Rattle.std.specs.Prelude.{◌≡◌, ◌<◌, Ok, Err, None, false, true, [], Result, IfOk, IfSome, ◌↔◌, IfErr, OnOk, OnErr, drop, length, vec_len, vec_capacity};
    ghost use Rattle.svc_conf.specs.Configuration.{judged};
    ghost use Rattle.svc_record.specs.Validity.{IsValid};
    ghost use Rattle.svc_record.specs.Right.{Served as ServedRecord};
    ghost use Rattle.svc_streams.specs.Verdicts.{verdict_at};
    ghost use Rattle.svc_server.specs.Hosts.{no_account};
    ghost use Rattle.svc_server.specs.declared.run.Outcome.{Outcome};
    ghost use Rattle.svc_server.specs.declared.run.RunError.{RunError};
    ghost use Rattle.svc_server.specs.Runs.{RunTells, RunCounts, RunTakes, RunLeaves, GoesWell, GoesThrough};
    ghost use Rattle.svc_graph.specs.Graphs.{node_count, with_node, IsGraph};
    ghost use Rattle.svc_server.specs.Additions.{fault_of, IsReason, AddsFirst, RefusesAt};
    ghost use Rattle.svc_server.specs.Adding.{AddsOne};
    ghost use Rattle.svc_server.specs.Servers.{answer_of, answers_of, plan_of, merged, status_of, IsSound};
    ghost use Rattle.svc_server.specs.Addresses.{expected_of};
    ghost use Rattle.std.specs.Option.{option_map};

    /// A server without services and filters. The flags are merged into the configuration, which is
    /// then validated; the path in the flags isn't looked at. `Invalid` with the offending key where
    /// the configuration is one that no server can run with.
    pub fn new_with_opt_and_conf(
        alloc: Global,
        opt: Option<Opt>,
        mut conf: ServerConf,
    ) -> Result<Server<B, F>, ReadError>
        ensures configuration { IfOk result (λ server. server.configuration ≡ merged opt conf) }
        ensures options { IfOk result (λ server. server.options ≡ opt) }
        ensures nodes { IfOk result
            (λ server. server.dependencies ≡ record { names = []; depends = [] }) }
        ensures filters { IfOk result (λ server. server.filters ≡ []) }
        ensures services { IfOk result (λ server. server.services.items ≡ []) }
        ensures eager { IfOk result (λ server. server.eager ≡ false) }
        ensures accepted { OnOk result (judged (merged opt conf) ≡ Ok tt) }
        ensures refused { IfErr result
            (λ error. (key : _) × (error ≡ ReadError.Invalid key) × (judged (merged opt conf) ≡ Err key)) }
        ensures sound { IfOk result (λ server. IsSound server.dependencies (length server.filters)
            (answers_of B.ServiceWithDependents server.services.items)) }
    {
        if let Some(opt) = &opt {
            conf.merge_with_opt(opt);
        }
        match conf.validate() {
            Ok(()) => Ok(Server {
                configuration: conf,
                options: opt,
                dependencies: DependencyGraph::new(alloc),
                filters: Filters::new(alloc),
                services: Vec::new(alloc),
                eager: false,
            }),
            Err(key) => {
                drop(conf);
                drop(opt);
                Err(ReadError::Invalid(key))
            }
        }
    }

    /// Makes a node for the service, and room for it. The services and the configuration stay.
    fn prepare(&mut self, alloc: Global, service: &B) -> Result<ServiceHandle, AddError>
        ensures configuration { self.new.configuration ≡ self.old.configuration }
        ensures options { self.new.options ≡ self.old.options }
        ensures eager { self.new.eager ≡ self.old.eager }
        ensures filters { self.new.filters ≡ self.old.filters }
        ensures services { self.new.services.items ≡ self.old.services.items }
        ensures room { OnOk result (vec_len self.new.services < vec_capacity self.new.services) }
        ensures handle { IfOk result (λ handle. handle
            ≡ record { id = node_count self.old.dependencies; name = B.named service.now }) }
        ensures node { OnOk result (self.new.dependencies
            ≡ with_node self.old.dependencies (B.named service.now)) }
        ensures unchanged { OnErr result (self.new.dependencies ≡ self.old.dependencies) }
        ensures good { OnOk result (fault_of self.old.dependencies
            (length self.old.filters) (answer_of B.ServiceWithDependents service.now) ≡ None) }
        ensures cause { IfErr result (IsReason (fault_of self.old.dependencies
            (length self.old.filters) (answer_of B.ServiceWithDependents service.now))) }
    {
        if let Some(fault) = fault_of(alloc, &self.dependencies, self.filters.len(), service)? {
            return Err(fault);
        }
        self.services.reserve(1).map_err(NoMemory::from)?;
        let name = Text::new(alloc, service.name())?;
        let node_name = match Text::new(alloc, service.name()) {
            Ok(text) => text,
            Err(NoMemory) => {
                drop(name);
                return Err(AddError::NoMemory);
            }
        };
        match self.dependencies.add_node(alloc, node_name) {
            Ok(id) => Ok(ServiceHandle::new(id, name)),
            // There is room for a node, so it is memory that is wanted.
            Err(_) => {
                drop(name);
                Err(AddError::NoMemory)
            }
        }
    }

    /// Adds a service, and answers its handle, which has the next number. A refusal gives the service
    /// back, with the first cause that stands, and leaves the server as it was.
    pub fn add_service(&mut self, alloc: Global, service: B) -> Result<ServiceHandle, AddRefused<B>>
        ensures { AddsOne B.ServiceWithDependents self.old self.new service result }
    {
        match self.prepare(alloc, &service) {
            Ok(handle) => {
                self.services.push_reserved(service);
                Ok(handle)
            }
            Err(reason) => Err(AddRefused { reason, service }),
        }
    }

    /// Adds a service as `add_service` does.
    pub fn add_boxed_service(
        &mut self,
        alloc: Global,
        service: B,
    ) -> Result<ServiceHandle, AddRefused<B>>
        ensures { AddsOne B.ServiceWithDependents self.old self.new service result }
    {
        self.add_service(alloc, service)
    }

    /// Adds the service in which the server bootstraps, as `add_service` does.
    pub fn bootstrap_as_a_service(
        &mut self,
        alloc: Global,
        service: B,
    ) -> Result<ServiceHandle, AddRefused<B>>
        requires kind { B.of_kind service ≡ Kind.Bootstrap }
        ensures { AddsOne B.ServiceWithDependents self.old self.new service result }
    {
        self.add_service(alloc, service)
    }

    /// Adds the services in order, and answers their handles. Where one is refused, it and those after
    /// it come back, with its index and the cause, and those before it stay, with their handles.
    pub fn add_services(
        &mut self,
        alloc: Global,
        mut services: Vec<B>,
    ) -> Result<Vec<ServiceHandle>, AddAllRefused<B>>
        ensures configuration { self.new.configuration ≡ self.old.configuration }
        ensures options { self.new.options ≡ self.old.options }
        ensures eager { self.new.eager ≡ self.old.eager }
        ensures filters { self.new.filters ≡ self.old.filters }
        ensures all { IfOk result (λ handles. AddsFirst B.ServiceWithDependents
            self.old.dependencies self.new.dependencies (length self.old.filters)
            self.old.services.items self.new.services.items services.items (vec_len services) handles.items) }

        // Where one is refused: those before it, it and those after it, and the cause.
        ensures some { IfErr result (λ refused. AddsFirst B.ServiceWithDependents
            self.old.dependencies self.new.dependencies (length self.old.filters)
            self.old.services.items self.new.services.items services.items refused.index refused.handles.items) }
        ensures back { IfErr result
            (λ refused. refused.services.items ≡ drop refused.index services.items) }
        ensures cause { IfErr result (λ refused. RefusesAt B.ServiceWithDependents
            self.new.dependencies (length self.new.filters) services.items refused.index refused.reason) }

        ensures sound { IsSound self.old.dependencies (length self.old.filters)
            (answers_of B.ServiceWithDependents self.old.services.items)
            → IsSound self.new.dependencies (length self.new.filters)
            (answers_of B.ServiceWithDependents self.new.services.items) }
    {
        let mut handles = Vec::new(alloc);
        if handles.reserve(services.len()).is_err() {
            return Err(AddAllRefused {
                reason: AddError::NoMemory,
                index: 0,
                handles,
                services,
            });
        }
        reversed(&mut services);
        while let Some(service) = services.pop() {
            match self.add_service(alloc, service) {
                Ok(handle) => handles.push_reserved(handle),
                Err(refused) => {
                    services.push_reserved(refused.service);
                    reversed(&mut services);
                    return Err(AddAllRefused {
                        reason: refused.reason,
                        index: handles.len() as u64,
                        handles,
                        services,
                    });
                }
            }
        }
        drop(services);
        Ok(handles)
    }

    /// Lets the server bootstrap before its services start. A second call changes nothing.
    pub fn bootstrap(&mut self)
        ensures { self.new ≡ record self.old { eager = true } }
    {
        self.eager = true;
    }

    /// All addresses that the services declare, each once, in the order in which they first come;
    /// None where one of the services declares None.
    pub fn expected_addresses(&self, alloc: Global) -> Result<Option<Vec<Text>>, NoMemory>
        ensures { IfOk result (λ found. option_map (λ texts. texts.items) found
            ≡ expected_of (answers_of B.ServiceWithDependents self.now.services.items)) }
    {
        expected_addresses(alloc, &self.services)
    }

    /// A reader of the phases that a run tells, at the first one.
    pub fn watch_execution_phase(&self) -> PhaseReader
        ensures { result ≡ 0 }
    {
        PhaseReader::new()
    }

    /// What the server is run by: its services as they answer, their dependencies, and the settings,
    /// with 300 seconds of grace, 5 seconds to stop, 5 retries and 600 seconds of waiting for a
    /// daemon where they are unset. It bootstraps before the services where `bootstrap` was called. It
    /// is valid where the configuration is.
    pub fn plan(&self, alloc: Global) -> Result<Plan, NoMemory>
        requires sound { IsSound self.now.dependencies (length self.now.filters)
            (answers_of B.ServiceWithDependents self.now.services.items) }
        ensures plan { IfOk result (λ plan. plan
            ≡ plan_of self.now.configuration self.now.options self.now.eager self.now.dependencies
            (answers_of B.ServiceWithDependents self.now.services.items)) }
        ensures valid { judged self.now.configuration ≡ Ok tt → IfOk result IsValid }
        ensures graph { IsGraph self.now.dependencies }
    {
        let conf = &self.configuration;
        let services = service_plans(alloc, &self.dependencies, &self.services)?;
        Ok(Plan {
            services,
            grace: conf.grace_period_seconds.unwrap_or(300),
            stop: conf.graceful_shutdown_timeout_seconds.unwrap_or(5),
            tasks: conf.listener_tasks_per_fd,
            limit: conf.upgrade_sock_connect_accept_max_retries.unwrap_or(5),
            upgrade: is_upgrade(&self.options),
            test: is_test(&self.options),
            eager: self.eager,
            daemon: conf.daemon,
            wait: conf.daemon_wait_for_ready,
            ready_timeout: conf.daemon_ready_timeout_seconds.unwrap_or(600),
        })
    }

    /// Runs the server over a host until its shutdown is through, or until it has tested that it can
    /// start, or this process is the parent, with at most so many events as there are turns. `Config`
    /// with the offending key where no server can be run with the configuration; the other errors are
    /// those of the run. Each service is handed to the host right before its start. For each connection
    /// whose peer is known the filter of its endpoint is asked, where it has one.
    pub fn run<H: Host<Service = B>>(
        self,
        alloc: Global,
        args: RunArgs,
        host: &mut H,
    ) -> Result<Outcome, RunError>
        requires sound { IsSound self.dependencies (length self.filters)
            (answers_of B.ServiceWithDependents self.services.items) }
        requires first { IfSome (H.account host.old) (λ a. a ≡ no_account) }

        // The headline: where the host tells its account, its record is a served one of the plan.
        ensures served { result ≡ Ok Outcome.Served → IfSome (H.account host.new) (λ a.
            ServedRecord (plan_of self.configuration self.options self.eager self.dependencies
            (answers_of B.ServiceWithDependents self.services.items)) a.entries) }

        // The record, what was handed over, and what the filters said, by each answer.
        ensures tells { IfSome (H.account host.new) (RunTells (verdict_at F.verdict self.filters) (plan_of self.configuration
            self.options self.eager self.dependencies
            (answers_of B.ServiceWithDependents self.services.items)) args.turns result) }
        ensures counts { RunCounts result (H.counts host.old) (H.counts host.new) }
        ensures takes { IfSome (H.account host.new) (λ a. IfSome (H.ahead host.old) (λ before.
            IfSome (H.ahead host.new) (RunTakes result a.entries before))) }
        ensures config { (key : _) → (result ≡ Err (RunError.Config key))
            ↔ (judged self.configuration ≡ Err key) }

        // Completeness: where every event fits and a shutdown's waits have passed, it served, or memory
        // was refused.
        ensures complete { IfSome (H.account host.new) (λ a. GoesWell (plan_of self.configuration self.options self.eager self.dependencies
            (answers_of B.ServiceWithDependents self.services.items)) a.entries → GoesThrough result) }

        // The host is the one that was handed in, where it tells what it was made of.
        ensures made { H.made_of host.new ≡ H.made_of host.old }
    {
        if let Err(key) = self.configuration.validate() {
            drop(self);
            return Err(RunError::Config(key));
        }
        match self.plan(alloc) {
            Ok(plan) => {
                let Server {
                    configuration,
                    options,
                    dependencies,
                    filters,
                    services,
                    eager: _,
                } = self;
                drop(configuration);
                drop(options);
                let planned = Planned {
                    plan,
                    graph: dependencies,
                };
                run_plan(alloc, planned, services, filters, args.turns, host)
            }
            Err(NoMemory) => {
                drop(self);
                Err(RunError::NoMemory)
            }
        }
    }

    /// Runs as `run` does with the turns of `RunArgs::default`, and answers the status to end with: the
    /// parent's where this process is the parent, and else 0.
    pub fn run_forever<H: Host<Service = B>>(
        self,
        alloc: Global,
        host: &mut H,
    ) -> Result<u8, RunError>
        requires sound { IsSound self.dependencies (length self.filters)
            (answers_of B.ServiceWithDependents self.services.items) }
        requires first { IfSome (H.account host.old) (λ a. a ≡ no_account) }

        // The run answered something with this status, and left what such a run leaves.
        ensures leaves { (answer : Result Outcome RunError) × ((result ≡ status_of answer)
            × RunLeaves (verdict_at F.verdict self.filters) (plan_of self.configuration self.options self.eager self.dependencies
            (answers_of B.ServiceWithDependents self.services.items)) 1000000 answer
            (H.account host.new) (H.counts host.old) (H.counts host.new) (H.ahead host.old) (H.ahead host.new)) }
        ensures config { (key : _) → (result ≡ Err (RunError.Config key))
            ↔ (judged self.configuration ≡ Err key) }
        ensures made { H.made_of host.new ≡ H.made_of host.old }
    {
        let answer = self.run(alloc, RunArgs::default(), host);
        status_of(answer)
    }
}
