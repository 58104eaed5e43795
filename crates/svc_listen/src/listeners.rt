//! Endpoints on which a server listens, and how they are configured.

ghost use Rattle.std.specs.Prelude.{◌≡◌, [], Ok, Err, Some, None, IfOk, IfErr, OnOk, OnErr, map, if◌then◌else◌};
ghost use Rattle.svc_listen.specs.Addresses.{text_of};
ghost use Rattle.svc_listen.specs.Endpoints.{address_config, filtered, called_back, plan_of};

use l4::{Permissions, ServerAddress, TcpSocketOptions};
use std::alloc::Global;
use std::convert::AsStr;
use std::marker::Model;
use svc_base::{NoMemory, Text};
use svc_graph::EndpointPlan;
use svc_socket::protocols::tls::noop_tls::listeners::TlsSettings;
use svc_socket::settings_of;
use svc_streams::L4BufferSettings;
use thiserror::Error;

pub mod l4;
mod stack;

pub use stack::TransportStack;

/// Why an endpoint can't be configured so.
#[derive(Clone, Copy, PartialEq, Eq, Debug, Error)]
pub enum ConfigError {
    /// Options of TCP are for an endpoint of TCP.
    #[error("the endpoint isn't TCP")]
    NotTcp,
    /// A mode is for an endpoint of the Unix domain.
    #[error("the endpoint isn't a Unix socket")]
    NotUds,
}

/// A value that doesn't fit the endpoint: the configuration and the value come back.
#[derive(Drop)]
pub struct ConfigRefused {
    pub reason: ConfigError,
    pub config: ListenerConfig,
    pub options: Option<TcpSocketOptions>,
    pub p: Option<Permissions>,
}

/// How an endpoint is configured.
#[derive(Drop)]
pub struct ListenerConfig {
    l4: ServerAddress,
    tls: Option<TlsSettings>,
    l4_buffer: L4BufferSettings,
}

impl Model for ListenerConfig {
    ghost use Rattle.svc_listen.specs.EndpointData.{ConfigData};

    ghost Value = { ConfigData };

    ghost view = { λ c. record { address = c.l4; tls = c.tls; buffer = c.l4_buffer } };
}

impl ListenerConfig {
    ghost use Rattle.svc_listen.specs.Addresses.{is_unix, with_options, with_mode};
    ghost use Rattle.svc_listen.specs.Endpoints.{tcp_config, uds_config};

    /// An endpoint of TCP, without options and TLS.
    pub fn tcp(addr: Text) -> Self
        ensures { result ≡ tcp_config addr None None }
    {
        ListenerConfig {
            l4: ServerAddress::Tcp(addr, None),
            tls: None,
            l4_buffer: L4BufferSettings::default(),
        }
    }

    /// An endpoint of the Unix domain, without a mode and TLS.
    pub fn uds(addr: Text) -> Self
        ensures { result ≡ uds_config addr None }
    {
        ListenerConfig {
            l4: ServerAddress::Uds(addr, None),
            tls: None,
            l4_buffer: L4BufferSettings::default(),
        }
    }

    /// Sets the options of its sockets. `NotTcp` where it is of the Unix domain.
    pub fn tcp_socket_options(
        mut self,
        options: TcpSocketOptions,
    ) -> Result<ListenerConfig, ConfigRefused>
        ensures { result ≡ (if is_unix self.address
            then Err (record { reason = ConfigError.NotTcp; config = self; options = Some options; p = None })
            else Ok (record self { address = with_options options self.address })) }
    {
        match &mut self.l4 {
            ServerAddress::Tcp(_, given) => {
                *given = Some(options);
                Ok(self)
            }
            ServerAddress::Uds(_, _) => Err(ConfigRefused {
                reason: ConfigError::NotTcp,
                config: self,
                options: Some(options),
                p: None,
            }),
        }
    }

    /// Sets the mode of its file. `NotUds` where it is TCP.
    pub fn permissions(mut self, p: Permissions) -> Result<ListenerConfig, ConfigRefused>
        ensures { result ≡ (if is_unix self.address
            then Ok (record self { address = with_mode p self.address })
            else Err (record { reason = ConfigError.NotUds; config = self; options = None; p = Some p })) }
    {
        match &mut self.l4 {
            ServerAddress::Uds(_, given) => {
                *given = Some(p);
                Ok(self)
            }
            ServerAddress::Tcp(_, _) => Err(ConfigRefused {
                reason: ConfigError::NotUds,
                config: self,
                options: None,
                p: Some(p),
            }),
        }
    }

    /// Sets its TLS.
    pub fn tls(mut self, settings: TlsSettings) -> ListenerConfig
        ensures { result ≡ record self { tls = Some settings } }
    {
        self.tls = Some(settings);
        self
    }

    /// Sets the buffers of its connections.
    pub fn l4_buffer(mut self, settings: L4BufferSettings) -> ListenerConfig
        ensures { result ≡ record self { buffer = settings } }
    {
        self.l4_buffer = settings;
        self
    }
}

/// An endpoint of listeners.
#[derive(Drop)]
struct TransportStackBuilder {
    l4: ServerAddress,
    tls: Option<TlsSettings>,
    l4_buffer: L4BufferSettings,
    connection_filter: Option<u32>,
    pre_tls_callback: Option<u32>,
}

impl Model for TransportStackBuilder {
    ghost use Rattle.svc_listen.specs.EndpointData.{EndpointData};

    ghost Value = { EndpointData };

    ghost view = { λ s. record {
      address = s.l4;
      tls = s.tls;
      buffer = s.l4_buffer;
      filter = s.connection_filter;
      callback = s.pre_tls_callback;
    } };
}

/// No memory was found for an endpoint. The values that were moved into the call come back; the others
/// are None.
#[derive(Drop)]
pub struct EndpointRefused {
    pub reason: NoMemory,
    pub addr: Option<ServerAddress>,
    pub sock_opt: Option<TcpSocketOptions>,
    pub perm: Option<Permissions>,
    pub settings: Option<TlsSettings>,
    pub endpoint: Option<ListenerConfig>,
    pub l4: Option<ServerAddress>,
    pub tls: Option<TlsSettings>,
}

impl EndpointRefused {
    ghost use Rattle.svc_listen.specs.Refusals.{nothing_back};

    /// A refusal with which nothing comes back.
    fn new(reason: NoMemory) -> Self
        ensures { result ≡ nothing_back reason }
    {
        EndpointRefused {
            reason,
            addr: None,
            sock_opt: None,
            perm: None,
            settings: None,
            endpoint: None,
            l4: None,
            tls: None,
        }
    }
}

/// Endpoints on which a server listens, in order, and the numbers of the filter and of the callback that
/// each of them has.
#[derive(Drop)]
pub struct Listeners {
    stacks: Vec<TransportStackBuilder>,
    connection_filter: Option<u32>,
    pre_tls_callback: Option<u32>,
}

impl Model for Listeners {
    ghost use Rattle.svc_listen.specs.EndpointData.{ListenersData};
    ghost use Rattle.svc_listen.specs.Endpoints.{AreInForce};

    ghost Value = { ListenersData };

    ghost view = { λ s. record {
      endpoints = s.stacks.items;
      filter = s.connection_filter;
      callback = s.pre_tls_callback;
    } };

    ghost invariant = { λ s. AreInForce (record {
      endpoints = s.stacks.items;
      filter = s.connection_filter;
      callback = s.pre_tls_callback;
    }) };
}

/// An endpoint of an address, with buffers of the default sizes.
fn config_of(l4: ServerAddress, tls: Option<TlsSettings>) -> ListenerConfig
    ensures { result ≡ address_config l4 tls }
{
    ListenerConfig {
        l4,
        tls,
        l4_buffer: L4BufferSettings::default(),
    }
}

/// The texts of the addresses.
fn texts_of(alloc: Global, stacks: &[TransportStackBuilder]) -> Result<Vec<Text>, NoMemory>
    ensures { IfOk result (λ texts. texts.items ≡ map (λ e. text_of e.address) stacks.now) }
{
    let mut texts = Vec::with_capacity(alloc, stacks.len())?;
    for stack in stacks {
        let text = Text::new(alloc, stack.l4.as_str())?;
        texts.push(text)?;
    }
    Ok(texts)
}

/// What a server is told of an endpoint.
fn plan_of(alloc: Global, stack: &TransportStackBuilder) -> Result<EndpointPlan, NoMemory>
    ensures { IfOk result (λ plan. plan ≡ plan_of stack.now) }
{
    let address = Text::new(alloc, stack.l4.as_str())?;
    let options = settings_of(alloc, stack.l4.tcp_sock_opts().as_ref())?;
    Ok(EndpointPlan {
        address,
        unix: stack.l4.is_unix(),
        options,
        filter: stack.connection_filter,
    })
}

/// What a server is told of the endpoints, in order.
fn plans_of(alloc: Global, stacks: &[TransportStackBuilder]) -> Result<Vec<EndpointPlan>, NoMemory>
    ensures { IfOk result (λ plans. plans.items ≡ map plan_of stacks.now) }
{
    let mut plans = Vec::with_capacity(alloc, stacks.len())?;
    for stack in stacks {
        let plan = plan_of(alloc, stack)?;
        plans.push(plan)?;
    }
    Ok(plans)
}

/// Each endpoint gets the filter.
fn set_filters(stacks: &mut Vec<TransportStackBuilder>, filter: u32)
    ensures { stacks.new.items ≡ map (filtered filter) stacks.old.items }
{
    for stack in stacks.iter_mut() {
        stack.connection_filter = Some(filter);
    }
}

/// Each endpoint gets the callback.
fn set_callbacks(stacks: &mut Vec<TransportStackBuilder>, callback: u32)
    ensures { stacks.new.items ≡ map (called_back callback) stacks.old.items }
{
    for stack in stacks.iter_mut() {
        stack.pre_tls_callback = Some(callback);
    }
}

impl Listeners {
    ghost use Rattle.svc_listen.specs.Endpoints.{added, no_listeners, tcp_config, uds_config, any_tls, with_filter, with_callback, addresses, AreInForce};
    ghost use Rattle.svc_listen.specs.Refusals.{nothing_back};

    /// Listeners without endpoints, a filter and a callback.
    pub fn new(alloc: Global) -> Self
        ensures { result ≡ record { endpoints = []; filter = None; callback = None } }
    {
        Listeners {
            stacks: Vec::new(alloc),
            connection_filter: None,
            pre_tls_callback: None,
        }
    }

    /// Listeners with one endpoint of TCP.
    pub fn tcp(alloc: Global, addr: &str) -> Result<Listeners, NoMemory>
        ensures { IfOk result (λ listeners. listeners ≡ added no_listeners (tcp_config addr.now None None)) }
    {
        let mut listeners = Listeners::new(alloc);
        match listeners.add_tcp(alloc, addr) {
            Ok(()) => Ok(listeners),
            Err(refused) => Err(refused.reason),
        }
    }

    /// Listeners with one endpoint of the Unix domain.
    pub fn uds(alloc: Global, addr: &str, perm: Option<Permissions>) -> Result<Listeners, NoMemory>
        ensures { IfOk result (λ listeners. listeners ≡ added no_listeners (uds_config addr.now perm)) }
    {
        let mut listeners = Listeners::new(alloc);
        match listeners.add_uds(alloc, addr, perm) {
            Ok(()) => Ok(listeners),
            Err(refused) => Err(refused.reason),
        }
    }

    /// Listeners with one endpoint of TCP with TLS, of the paths of a certificate and its key.
    pub fn tls(alloc: Global, addr: &str, cert: &str, key: &str) -> Result<Listeners, NoMemory>
        ensures { IfOk result (λ listeners. listeners ≡ added no_listeners (tcp_config addr.now None (Some any_tls))) }
    {
        let mut listeners = Listeners::new(alloc);
        match listeners.add_tls(alloc, addr, cert, key) {
            Ok(()) => Ok(listeners),
            Err(refused) => Err(refused.reason),
        }
    }

    /// Appends an endpoint, or hands its configuration back.
    fn push(&mut self, config: ListenerConfig) -> Result<(), ListenerConfig>
        ensures added { OnOk result (self.new ≡ added self.old config) }
        ensures unchanged { OnErr result (self.new ≡ self.old) }
        ensures back { IfErr result (λ refused. refused ≡ config) }
        ensures in_force { AreInForce self.new }
    {
        if self.stacks.reserve(1).is_err() {
            return Err(config);
        }
        let ListenerConfig { l4, tls, l4_buffer } = config;
        self.stacks.push_reserved(TransportStackBuilder {
            l4,
            tls,
            l4_buffer,
            connection_filter: self.connection_filter,
            pre_tls_callback: self.pre_tls_callback,
        });
        Ok(())
    }

    /// Appends an endpoint of TCP.
    pub fn add_tcp(&mut self, alloc: Global, addr: &str) -> Result<(), EndpointRefused>
        ensures added { OnOk result (self.new ≡ added self.old (tcp_config addr.now None None)) }
        ensures unchanged { OnErr result (self.new ≡ self.old) }
        ensures back { IfErr result (λ refused. refused ≡ nothing_back refused.reason) }
        ensures in_force { OnOk result (AreInForce self.new) }
    {
        let text = match Text::new(alloc, addr) {
            Ok(text) => text,
            Err(reason) => return Err(EndpointRefused::new(reason)),
        };
        match self.push(ListenerConfig::tcp(text)) {
            Ok(()) => Ok(()),
            Err(_) => Err(EndpointRefused::new(NoMemory)),
        }
    }

    /// Appends an endpoint of TCP with these options.
    pub fn add_tcp_with_settings(
        &mut self,
        alloc: Global,
        addr: &str,
        sock_opt: TcpSocketOptions,
    ) -> Result<(), EndpointRefused>
        ensures added { OnOk result (self.new ≡ added self.old (tcp_config addr.now (Some sock_opt) None)) }
        ensures unchanged { OnErr result (self.new ≡ self.old) }
        ensures back { IfErr result (λ refused. refused ≡ record (nothing_back refused.reason) { sock_opt = Some sock_opt }) }
        ensures in_force { OnOk result (AreInForce self.new) }
    {
        let text = match Text::new(alloc, addr) {
            Ok(text) => text,
            Err(reason) => return Err(EndpointRefused {
                sock_opt: Some(sock_opt),
                ..EndpointRefused::new(reason)
            }),
        };
        let l4 = ServerAddress::Tcp(text, Some(sock_opt));
        match self.push(config_of(l4, None)) {
            Ok(()) => Ok(()),
            Err(_) => Err(EndpointRefused {
                sock_opt: Some(sock_opt),
                ..EndpointRefused::new(NoMemory)
            }),
        }
    }

    /// Appends an endpoint of the Unix domain, with the mode of its file.
    pub fn add_uds(
        &mut self,
        alloc: Global,
        addr: &str,
        perm: Option<Permissions>,
    ) -> Result<(), EndpointRefused>
        ensures added { OnOk result (self.new ≡ added self.old (uds_config addr.now perm)) }
        ensures unchanged { OnErr result (self.new ≡ self.old) }
        ensures back { IfErr result (λ refused. refused ≡ record (nothing_back refused.reason) { perm = perm }) }
        ensures in_force { OnOk result (AreInForce self.new) }
    {
        let text = match Text::new(alloc, addr) {
            Ok(text) => text,
            Err(reason) => return Err(EndpointRefused {
                perm,
                ..EndpointRefused::new(reason)
            }),
        };
        let l4 = ServerAddress::Uds(text, perm);
        match self.push(config_of(l4, None)) {
            Ok(()) => Ok(()),
            Err(_) => Err(EndpointRefused {
                perm,
                ..EndpointRefused::new(NoMemory)
            }),
        }
    }

    /// Appends an endpoint of TCP with TLS, of the paths of a certificate and its key.
    pub fn add_tls(
        &mut self,
        alloc: Global,
        addr: &str,
        cert: &str,
        key: &str,
    ) -> Result<(), EndpointRefused>
        ensures added { OnOk result (self.new ≡ added self.old (tcp_config addr.now None (Some any_tls))) }
        ensures unchanged { OnErr result (self.new ≡ self.old) }
        ensures back { IfErr result (λ refused. refused ≡ nothing_back refused.reason) }
        ensures in_force { OnOk result (AreInForce self.new) }
    {
        let settings = TlsSettings::intermediate(cert, key);
        match self.add_tls_with_settings(alloc, addr, None, settings) {
            Ok(()) => Ok(()),
            Err(refused) => Err(EndpointRefused::new(refused.reason)),
        }
    }

    /// Appends an endpoint of TCP with TLS, and with options if they are given.
    pub fn add_tls_with_settings(
        &mut self,
        alloc: Global,
        addr: &str,
        sock_opt: Option<TcpSocketOptions>,
        settings: TlsSettings,
    ) -> Result<(), EndpointRefused>
        ensures added { OnOk result (self.new ≡ added self.old (tcp_config addr.now sock_opt (Some settings))) }
        ensures unchanged { OnErr result (self.new ≡ self.old) }
        ensures back { IfErr result (λ refused. refused ≡ record (nothing_back refused.reason) { sock_opt = sock_opt; settings = Some settings }) }
        ensures in_force { OnOk result (AreInForce self.new) }
    {
        let text = match Text::new(alloc, addr) {
            Ok(text) => text,
            Err(reason) => return Err(EndpointRefused {
                sock_opt,
                settings: Some(settings),
                ..EndpointRefused::new(reason)
            }),
        };
        let l4 = ServerAddress::Tcp(text, sock_opt);
        match self.push(config_of(l4, Some(settings))) {
            Ok(()) => Ok(()),
            Err(
                ListenerConfig {
                    l4: _,
                    tls,
                    l4_buffer: _,
                },
            ) => Err(EndpointRefused {
                sock_opt,
                settings: tls,
                ..EndpointRefused::new(NoMemory)
            }),
        }
    }

    /// Appends an endpoint of this address.
    pub fn add_address(
        &mut self,
        _alloc: Global,
        addr: ServerAddress,
    ) -> Result<(), EndpointRefused>
        ensures added { OnOk result (self.new ≡ added self.old (address_config addr None)) }
        ensures unchanged { OnErr result (self.new ≡ self.old) }
        ensures back { IfErr result (λ refused. refused ≡ record (nothing_back refused.reason) { addr = Some addr }) }
        ensures in_force { OnOk result (AreInForce self.new) }
    {
        match self.push(config_of(addr, None)) {
            Ok(()) => Ok(()),
            Err(
                ListenerConfig {
                    l4,
                    tls: _,
                    l4_buffer: _,
                },
            ) => Err(EndpointRefused {
                addr: Some(l4),
                ..EndpointRefused::new(NoMemory)
            }),
        }
    }

    /// Appends an endpoint that is configured so.
    pub fn add_listener(
        &mut self,
        _alloc: Global,
        endpoint: ListenerConfig,
    ) -> Result<(), EndpointRefused>
        ensures added { OnOk result (self.new ≡ added self.old (endpoint)) }
        ensures unchanged { OnErr result (self.new ≡ self.old) }
        ensures back { IfErr result (λ refused. refused ≡ record (nothing_back refused.reason) { endpoint = Some endpoint }) }
        ensures in_force { OnOk result (AreInForce self.new) }
    {
        match self.push(endpoint) {
            Ok(()) => Ok(()),
            Err(config) => Err(EndpointRefused {
                endpoint: Some(config),
                ..EndpointRefused::new(NoMemory)
            }),
        }
    }

    /// Appends an endpoint of this address, with TLS if it is given.
    pub fn add_endpoint(
        &mut self,
        _alloc: Global,
        l4: ServerAddress,
        tls: Option<TlsSettings>,
    ) -> Result<(), EndpointRefused>
        ensures added { OnOk result (self.new ≡ added self.old (address_config l4 tls)) }
        ensures unchanged { OnErr result (self.new ≡ self.old) }
        ensures back { IfErr result (λ refused. refused ≡ record (nothing_back refused.reason) { l4 = Some l4; tls = tls }) }
        ensures in_force { OnOk result (AreInForce self.new) }
    {
        match self.push(config_of(l4, tls)) {
            Ok(()) => Ok(()),
            Err(
                ListenerConfig {
                    l4,
                    tls,
                    l4_buffer: _,
                },
            ) => Err(EndpointRefused {
                l4: Some(l4),
                tls,
                ..EndpointRefused::new(NoMemory)
            }),
        }
    }

    /// The addresses, in order: the texts by which a table has their descriptors.
    pub fn addresses(&self, alloc: Global) -> Result<Vec<Text>, NoMemory>
        ensures addresses { IfOk result (λ texts. texts.items ≡ addresses self.now) }
        ensures in_force { AreInForce self.now }
    {
        texts_of(alloc, &self.stacks)
    }

    /// What a server is told of the endpoints, in order.
    pub(crate) fn plans(&self, alloc: Global) -> Result<Vec<EndpointPlan>, NoMemory>
        ensures { IfOk result (λ plans. plans.items ≡ map plan_of self.now.endpoints) }
    {
        plans_of(alloc, &self.stacks)
    }

    /// Each endpoint gets this filter, those that are there and those that come, until another is set.
    pub fn set_connection_filter(&mut self, filter: u32)
        ensures set { self.new ≡ with_filter filter self.old }
        ensures in_force { AreInForce self.new }
    {
        self.connection_filter = Some(filter);
        set_filters(&mut self.stacks, filter);
    }

    /// Each endpoint gets this callback, those that are there and those that come, until another is set.
    pub fn set_pre_tls_callback(&mut self, callback: u32)
        ensures set { self.new ≡ with_callback callback self.old }
        ensures in_force { AreInForce self.new }
    {
        self.pre_tls_callback = Some(callback);
        set_callbacks(&mut self.stacks, callback);
    }
}
