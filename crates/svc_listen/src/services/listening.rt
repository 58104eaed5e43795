//! A service that listens on its endpoints and gives their connections to an application.

ghost use Rattle.std.specs.Prelude.{◌≡◌, ◌≤◌, Some, None, IfErr, OnOk, OnErr};
ghost use Rattle.std.specs.Option.{option_copied, option_map};
ghost use Rattle.svc_listen.specs.Polls.{overridden, answer_of, left_of, CleansUp};

use crate::listeners::l4::{Permissions, ServerAddress, TcpSocketOptions};
use crate::listeners::{EndpointRefused, ListenerConfig, Listeners};
use std::alloc::Global;
use std::marker::Model;
use svc_base::{NoMemory, Text};
use svc_conf::{RuntimeMetricsOpts, RuntimeOpts};
use svc_graph::EndpointPlan;
use svc_graph::services::{RunPoll, Service as ServiceTrait};
use svc_socket::protocols::tls::noop_tls::listeners::TlsSettings;
use svc_streams::{Handled, L4Stream, ServerApp, handle_event};

/// What replaces the options of a server's runtime, field by field, where it is given.
#[derive(Clone, Copy, PartialEq, Eq, Debug)]
pub struct RuntimeOptsOverride {
    pub metrics: Option<RuntimeMetricsOpts>,
    pub enable_alt_timer: Option<bool>,
}

/// A service with its endpoints and its application. The first start takes the application away; once
/// the server shuts down it is cleaned up, and rests until the service is dropped.
#[derive(Drop)]
pub struct Service<A> {
    name: Text,
    listeners: Listeners,
    app_logic: Option<A>,
    serving: Option<A>,
    cleaned: Option<A>,
    /// The preferred number of threads: None at first, which leaves it to the server.
    pub threads: Option<u64>,
    runtime_opts_override: Option<RuntimeOptsOverride>,
}

impl<A> Model for Service<A> {
    ghost use Rattle.svc_listen.specs.ServiceData.{ServiceData};

    ghost Value = { ServiceData A };

    ghost view = { λ s. record {
      name = s.name;
      listeners = s.listeners;
      app = s.app_logic;
      serving = s.serving;
      cleaned = s.cleaned;
      threads = s.threads;
      replaced = s.runtime_opts_override;
    } };
}

impl<A> Service<A> {
    ghost use Rattle.std.specs.Borrow.{Lends, LendsIf, sem};
    ghost use Rattle.svc_streams.specs.Events.{IsHandled};
    ghost use Rattle.svc_listen.specs.Endpoints.{no_listeners, tcp_config, uds_config, address_config, any_tls, with_filter};
    ghost use Rattle.svc_listen.specs.Refusals.{nothing_back};
    ghost use Rattle.svc_listen.specs.Serving.{with_endpoint};
    ghost use Rattle.svc_listen.specs.contracts.listeners.Listeners.{the_row as listeners_row};
    ghost use Rattle.svc_listen.specs.contracts.services.listening.Service.{the_row};

    /// A service of this name without endpoints.
    pub fn new(alloc: Global, name: Text, app: A) -> Self
        ensures { result ≡ record { name = name; listeners = no_listeners; app = Some app; serving = None; cleaned = None; threads = None; replaced = None } }
    {
        Service::with_listeners(name, Listeners::new(alloc), app)
    }

    /// A service of this name with these endpoints.
    pub fn with_listeners(name: Text, listeners: Listeners, app: A) -> Self
        ensures { result ≡ record { name = name; listeners = listeners; app = Some app; serving = None; cleaned = None; threads = None; replaced = None } }
    {
        Service {
            name,
            listeners,
            app_logic: Some(app),
            serving: None,
            cleaned: None,
            threads: None,
            runtime_opts_override: None,
        }
    }

    /// Sets what replaces the options of the server's runtime.
    pub fn set_runtime_opts_override(&mut self, with: RuntimeOptsOverride)
        ensures { self.new ≡ record self.old { replaced = Some with } }
    {
        self.runtime_opts_override = Some(with);
    }

    /// The endpoints, mostly to add more.
    pub fn endpoints(&mut self) -> &mut Listeners
        ensures value { result.now ≡ self.old.listeners }
        ensures* writes_back { sem 𝓛 (Lends (the_row A.row) listeners_row self.entry result (λ w. record self.old { listeners = w })) }
    {
        &mut self.listeners
    }

    /// The application, as long as the service isn't started.
    pub fn app_logic(&self) -> Option<&A>
        ensures { option_copied result ≡ self.now.app }
    {
        self.app_logic.as_ref()
    }

    /// The application, as long as the service isn't started.
    pub fn app_logic_mut(&mut self) -> Option<&mut A>
        ensures value { option_map (λ app. app.now) result ≡ self.old.app }
        ensures* writes_back { sem 𝓛 (LendsIf (the_row A.row) A.row self.entry result (λ w. record self.old { app = Some w }) self.old) }
    {
        self.app_logic.as_mut()
    }

    /// Each endpoint gets this filter, those that are there and those that come, until another is set.
    pub fn set_connection_filter(&mut self, filter: u32)
        ensures { self.new ≡ record self.old { listeners = with_filter filter self.old.listeners } }
    {
        self.listeners.set_connection_filter(filter);
    }

    /// Appends an endpoint of TCP.
    pub fn add_tcp(&mut self, alloc: Global, addr: &str) -> Result<(), EndpointRefused>
        ensures added { OnOk result (self.new ≡ with_endpoint self.old (tcp_config addr.now None None)) }
        ensures unchanged { OnErr result (self.new ≡ self.old) }
        ensures back { IfErr result (λ refused. refused ≡ nothing_back refused.reason) }
    {
        self.listeners.add_tcp(alloc, addr)
    }

    /// Appends an endpoint that is configured so.
    pub fn add_listener(
        &mut self,
        alloc: Global,
        endpoint: ListenerConfig,
    ) -> Result<(), EndpointRefused>
        ensures added { OnOk result (self.new ≡ with_endpoint self.old (endpoint)) }
        ensures unchanged { OnErr result (self.new ≡ self.old) }
        ensures back { IfErr result (λ refused. refused ≡ record (nothing_back refused.reason) { endpoint = Some endpoint }) }
    {
        self.listeners.add_listener(alloc, endpoint)
    }

    /// Appends an endpoint of TCP with these options.
    pub fn add_tcp_with_settings(
        &mut self,
        alloc: Global,
        addr: &str,
        sock_opt: TcpSocketOptions,
    ) -> Result<(), EndpointRefused>
        ensures added { OnOk result (self.new ≡ with_endpoint self.old (tcp_config addr.now (Some sock_opt) None)) }
        ensures unchanged { OnErr result (self.new ≡ self.old) }
        ensures back { IfErr result (λ refused. refused ≡ record (nothing_back refused.reason) { sock_opt = Some sock_opt }) }
    {
        self.listeners.add_tcp_with_settings(alloc, addr, sock_opt)
    }

    /// Appends an endpoint of the Unix domain, with the mode of its file.
    pub fn add_uds(
        &mut self,
        alloc: Global,
        addr: &str,
        perm: Option<Permissions>,
    ) -> Result<(), EndpointRefused>
        ensures added { OnOk result (self.new ≡ with_endpoint self.old (uds_config addr.now perm)) }
        ensures unchanged { OnErr result (self.new ≡ self.old) }
        ensures back { IfErr result (λ refused. refused ≡ record (nothing_back refused.reason) { perm = perm }) }
    {
        self.listeners.add_uds(alloc, addr, perm)
    }

    /// Appends an endpoint of TCP with TLS, of the paths of a certificate and its key.
    pub fn add_tls(
        &mut self,
        alloc: Global,
        addr: &str,
        cert: &str,
        key: &str,
    ) -> Result<(), EndpointRefused>
        ensures added { OnOk result (self.new ≡ with_endpoint self.old (tcp_config addr.now None (Some any_tls))) }
        ensures unchanged { OnErr result (self.new ≡ self.old) }
        ensures back { IfErr result (λ refused. refused ≡ nothing_back refused.reason) }
    {
        self.listeners.add_tls(alloc, addr, cert, key)
    }

    /// Appends an endpoint of TCP with TLS, and with options if they are given.
    pub fn add_tls_with_settings(
        &mut self,
        alloc: Global,
        addr: &str,
        sock_opt: Option<TcpSocketOptions>,
        settings: TlsSettings,
    ) -> Result<(), EndpointRefused>
        ensures added { OnOk result (self.new ≡ with_endpoint self.old (tcp_config addr.now sock_opt (Some settings))) }
        ensures unchanged { OnErr result (self.new ≡ self.old) }
        ensures back { IfErr result (λ refused. refused ≡ record (nothing_back refused.reason) { sock_opt = sock_opt; settings = Some settings }) }
    {
        self.listeners
            .add_tls_with_settings(alloc, addr, sock_opt, settings)
    }

    /// Appends an endpoint of this address.
    pub fn add_address(&mut self, alloc: Global, addr: ServerAddress) -> Result<(), EndpointRefused>
        ensures added { OnOk result (self.new ≡ with_endpoint self.old (address_config addr None)) }
        ensures unchanged { OnErr result (self.new ≡ self.old) }
        ensures back { IfErr result (λ refused. refused ≡ record (nothing_back refused.reason) { addr = Some addr }) }
    {
        self.listeners.add_address(alloc, addr)
    }

    /// Calls an application with what came on a stream, and then with what it gave back, until it gives
    /// nothing back or the turns are spent. At least one turn is wanted.
    pub fn handle_event<S>(app: &mut A, event: S, shutdown: bool, turns: u64) -> Handled<S>
    where
        A: ServerApp<S>,
        requires { 1 ≤ turns }
        ensures { IsHandled A.may_come app.old app.new event shutdown turns result }
    {
        handle_event(app, event, shutdown, turns)
    }
}

/// What replaces the options of a server's runtime, if anything does.
fn overridden(with: Option<RuntimeOptsOverride>, global: &RuntimeOpts) -> Option<RuntimeOpts>
    ensures { result ≡ overridden with global.now }
{
    let with = with?;
    if with.metrics.is_none() && with.enable_alt_timer.is_none() {
        return None;
    }
    Some(RuntimeOpts {
        metrics: with.metrics.unwrap_or(global.metrics),
        enable_alt_timer: with.enable_alt_timer.unwrap_or(global.enable_alt_timer),
    })
}

/// Polls an application that was taken away: at the shutdown it is cleaned up, and rests from then on.
fn polled<A: ServerApp<L4Stream> + Drop>(
    serving: &mut Option<A>,
    cleaned: &mut Option<A>,
    shutdown: bool,
) -> RunPoll
    ensures answer { result ≡ answer_of serving.old shutdown }
    ensures left { serving.new ≡ left_of serving.old shutdown }
    ensures cleaned { CleansUp A.may_come serving.old shutdown cleaned.old cleaned.new }
{
    if !shutdown && serving.is_some() {
        return RunPoll::Pending;
    }
    if let Some(mut app) = serving.take() {
        app.cleanup();
        *cleaned = Some(app);
    }
    RunPoll::Ended
}

impl<A: ServerApp<L4Stream> + Drop> ServiceTrait for Service<A> {
    ghost use Rattle.std.specs.Prelude.{◌≡◌, Some, None, map};
    ghost use Rattle.svc_listen.specs.Endpoints.{addresses, plan_of};
    ghost use Rattle.svc_listen.specs.Polls.{overridden, taken_away, taken_in_run, answer_of, left_of, run_answer, run_left, CleansUp};

    ghost named = { λ s. s.name };

    ghost declares = { λ s. Some (addresses s.listeners) };

    ghost configures = { λ s. map plan_of s.listeners.endpoints };

    fn poll_start(&mut self, shutdown: bool, _listeners_per_fd: u64) -> RunPoll
        ensures name { self.new.name ≡ self.old.name }
        ensures addresses { Some (addresses self.new.listeners) ≡ Some (addresses self.old.listeners) }
        ensures endpoints { map plan_of self.new.listeners.endpoints ≡ map plan_of self.old.listeners.endpoints }
        ensures answer { result ≡ answer_of (taken_away self.old.app self.old.serving) shutdown }
        ensures left { self.new ≡ record self.old {
          app = None;
          serving = left_of (taken_away self.old.app self.old.serving) shutdown;
          cleaned = self.new.cleaned;
        } }
        ensures cleaned { CleansUp A.may_come (taken_away self.old.app self.old.serving) shutdown self.old.cleaned self.new.cleaned }
    {
        if let Some(app) = self.app_logic.take() {
            self.serving = Some(app);
        }
        polled(&mut self.serving, &mut self.cleaned, shutdown)
    }

    fn poll_run(&mut self, shutdown: bool) -> RunPoll
        ensures name { self.new.name ≡ self.old.name }
        ensures addresses { Some (addresses self.new.listeners) ≡ Some (addresses self.old.listeners) }
        ensures endpoints { map plan_of self.new.listeners.endpoints ≡ map plan_of self.old.listeners.endpoints }
        ensures answer { result ≡ run_answer self.old.app self.old.serving shutdown }
        ensures left { self.new ≡ record self.old {
          serving = run_left self.old.app self.old.serving shutdown;
          cleaned = self.new.cleaned;
        } }
        ensures cleaned { CleansUp A.may_come (taken_in_run self.old.app self.old.serving) shutdown self.old.cleaned self.new.cleaned }
    {
        if self.app_logic.is_some() {
            return RunPoll::Pending;
        }
        polled(&mut self.serving, &mut self.cleaned, shutdown)
    }

    fn name(&self) -> &str {
        self.name.as_str()
    }

    fn threads(&self) -> Option<u64>
        ensures { result ≡ self.now.threads }
    {
        self.threads
    }

    fn runtime_opts_override(&self, global: &RuntimeOpts) -> Option<RuntimeOpts>
        ensures { result ≡ overridden self.now.replaced global.now }
    {
        overridden(self.runtime_opts_override, global)
    }

    fn listen_addresses(&self, alloc: Global) -> Result<Option<Vec<Text>>, NoMemory> {
        let texts = self.listeners.addresses(alloc)?;
        Ok(Some(texts))
    }

    fn listener_configs(&self, alloc: Global) -> Result<Vec<EndpointPlan>, NoMemory> {
        self.listeners.plans(alloc)
    }
}
