//! Addresses, configurations and listeners, and a service that listens.

use crate::checking::{holds, same};
use std::alloc::Global;
use std::cell::Cell;
use std::convert::AsStr;
use std::process::Abort;
use std::rc::Rc;
use svc_base::{TcpKeepalive, Text};
use svc_conf::{RuntimeMetricsOpts, RuntimeOpts};
use svc_graph::services::{RunPoll, Service as ServiceTrait};
use svc_listen::{
    ConfigError, EndpointRefused, Handled, L4BufferSettings, Listener, ListenerConfig, Listeners,
    Permissions, RuntimeOptsOverride, ServerAddress, ServerApp, Service, TcpSocketOptions,
};
use svc_socket::protocols::tls::noop_tls::listeners::TlsSettings;

pub fn text<R: Abort + AllocGlobal>(rt: &R, text: &str) -> Text {
    Text::new(rt.alloc(), text).expect(rt, "a text")
}

pub fn tcp<R: Abort + AllocGlobal>(rt: &R, addr: &str) -> ServerAddress {
    ServerAddress::Tcp(text(rt, addr), None)
}

pub const OPTIONS: TcpSocketOptions = TcpSocketOptions {
    ipv6_only: Some(true),
    tcp_fastopen: None,
    tcp_keepalive: Some(KEEPALIVE),
    dscp: Some(10),
    so_reuseport: None,
    tcp_snd_buf: Some(4096),
    tcp_recv_buf: Some(8192),
};

pub const KEEPALIVE: TcpKeepalive = TcpKeepalive {
    idle: 60_000_000_000,
    interval: 5_000_000_000,
    count: 5,
    user_timeout: 85_000_000,
};

fn settings() -> TlsSettings {
    TlsSettings::intermediate("cert", "key")
}

#[test]
fn an_address_has_a_text_and_a_copy(rt: HostRuntime) {
    let rt = &rt;
    let address = ServerAddress::Tcp(text(rt, "1.1.1.1:80"), Some(OPTIONS));
    let copy = address.copy(rt.alloc()).expect(rt, "an address");
    same(rt, copy.as_str(), "1.1.1.1:80");
    same(rt, copy.tcp_sock_opts(), Some(OPTIONS));
    let address = ServerAddress::Uds(text(rt, "/tmp/u"), Some(Permissions(0o600)));
    holds(rt, address.is_unix());
    same(rt, Listener::Unix(7).number(), 7);
}

#[test]
fn a_configuration_takes_what_fits(rt: HostRuntime) {
    let rt = &rt;
    let config = ListenerConfig::tcp(text(rt, "1.1.1.1:80"));
    let config = config
        .tcp_socket_options(OPTIONS)
        .ok()
        .expect(rt, "options of TCP");
    let config = config
        .tls(settings())
        .l4_buffer(L4BufferSettings::unbuffered());
    let refused = config.permissions(Permissions(0o600)).err();
    let refused = refused.expect(rt, "a refusal");
    same(rt, refused.reason, ConfigError::NotUds);
    let config = ListenerConfig::uds(text(rt, "/tmp/u"));
    let config = config
        .permissions(Permissions(0o600))
        .ok()
        .expect(rt, "permissions");
    let refused = config.tcp_socket_options(OPTIONS).err();
    let refused = refused.expect(rt, "a refusal");
    same(rt, refused.reason, ConfigError::NotTcp);
}

/// The texts, joined by commas.
fn joined<R: Abort + AllocGlobal>(rt: &R, texts: &[Text]) -> String {
    let mut shown = String::new(rt.alloc());
    for text in texts {
        assert!(rt; shown.push_str(text.as_str()).is_ok());
        assert!(rt; shown.push(',').is_ok());
    }
    shown
}

fn are_at<R: Abort + AllocGlobal>(rt: &R, listeners: &Listeners, wanted: &str) {
    let texts = listeners.addresses(rt.alloc()).expect(rt, "addresses");
    assert_eq!(rt; joined(rt, &texts).as_str(), wanted);
}

#[test]
fn listeners_have_addresses(rt: HostRuntime) {
    let rt = &rt;
    let alloc = rt.alloc();
    let tcp = Listeners::tcp(alloc, "X").expect(rt, "a listener");
    are_at(rt, &tcp, "X,");
    let unix = Listeners::uds(alloc, "/tmp/u", Some(Permissions(0o600)));
    are_at(rt, &unix.expect(rt, "a listener"), "/tmp/u,");
    let tls = Listeners::tls(alloc, "X", "cert", "key").expect(rt, "a listener");
    are_at(rt, &tls, "X,");
}

fn added<R: Abort>(rt: &R, answer: Result<(), EndpointRefused>) {
    assert!(rt; answer.is_ok());
}

#[test]
fn listeners_take_each_kind_of_endpoint(rt: HostRuntime) {
    let rt = &rt;
    let alloc = rt.alloc();
    let mut listeners = Listeners::new(alloc);
    added(rt, listeners.add_tcp(alloc, "a"));
    added(rt, listeners.add_tcp_with_settings(alloc, "b", OPTIONS));
    added(rt, listeners.add_uds(alloc, "c", None));
    added(rt, listeners.add_tls(alloc, "d", "cert", "key"));
    added(
        rt,
        listeners.add_tls_with_settings(alloc, "e", Some(OPTIONS), settings()),
    );
    added(rt, listeners.add_address(alloc, tcp(rt, "f")));
    added(
        rt,
        listeners.add_listener(alloc, ListenerConfig::tcp(text(rt, "g"))),
    );
    added(rt, listeners.add_endpoint(alloc, tcp(rt, "h"), None));
    are_at(rt, &listeners, "a,b,c,d,e,f,g,h,");
}

#[test]
fn an_address_may_be_long(rt: HostRuntime) {
    let rt = &rt;
    let alloc = rt.alloc();
    let bytes = vec![in alloc; b'a'; 4096].expect(rt, "bytes");
    let long = str::from_utf8(&bytes).ok().expect(rt, "a text");
    let mut listeners = Listeners::new(alloc);
    added(rt, listeners.add_tcp(alloc, long));
    added(rt, listeners.add_tcp_with_settings(alloc, long, OPTIONS));
    added(rt, listeners.add_uds(alloc, long, None));
    added(rt, listeners.add_tls(alloc, long, "cert", "key"));
    let addresses = listeners.addresses(alloc).expect(rt, "addresses");
    same(rt, addresses.len(), 4);
    for address in &addresses {
        holds(rt, address.as_str() == long);
    }
}

/// An application that gives its stream back so often, and counts how often it was cleaned up.
#[derive(Drop)]
struct Counting {
    turns: u64,
    cleanups: Rc<Cell<u64>>,
}

impl<S: Drop> ServerApp<S> for Counting {
    ghost may_come = { λ _ _. Unit {0} };

    fn process_new(&mut self, event: S, _shutdown: bool) -> Option<S> {
        if self.turns == 0 {
            return None;
        }
        self.turns -= 1;
        Some(event)
    }

    fn cleanup(&mut self) {
        self.cleanups.set(self.cleanups.get().saturating_add(1));
    }
}

fn app<R: Abort + AllocGlobal>(rt: &R) -> (Counting, Rc<Cell<u64>>) {
    let cleanups = Rc::new(rt.alloc(), Cell::new(0)).ok().expect(rt, "a count");
    let count = cleanups.clone().ok().expect(rt, "a count");
    let turns = 2;
    (Counting { turns, cleanups }, count)
}

fn service<R: Abort + AllocGlobal>(rt: &R) -> Service<Counting> {
    let (app, _) = app(rt);
    Service::new(rt.alloc(), text(rt, "web"), app)
}

/// What a server is told of an endpoint: its filter, and how many settings it has.
fn told_at(alloc: Global, service: &Service<Counting>, at: usize) -> Option<(Option<u32>, u64)> {
    let plans = service.listener_configs(alloc).ok()?;
    plans.get(at).map(|plan| (plan.filter, plan.options.len()))
}

#[test]
fn a_filter_is_every_endpoints(rt: HostRuntime) {
    let rt = &rt;
    let alloc = rt.alloc();
    let mut listeners = Listeners::tcp(alloc, "X").expect(rt, "a listener");
    listeners.set_connection_filter(3);
    listeners.set_pre_tls_callback(4);
    added(rt, listeners.add_uds(alloc, "/tmp/u", None));
    let (app, _) = app(rt);
    let mut service = Service::with_listeners(text(rt, "web"), listeners, app);
    same(rt, told_at(alloc, &service, 1), Some((Some(3), 1)));
    service.set_connection_filter(5);
    added(rt, service.add_tcp_with_settings(alloc, "Y", OPTIONS));
    for (at, told) in [(0, Some((Some(5), 1))), (2, Some((Some(5), 5))), (3, None)] {
        same(rt, told_at(alloc, &service, at), told);
    }
}

#[test]
fn a_service_takes_each_kind_of_endpoint(rt: HostRuntime) {
    let rt = &rt;
    let alloc = rt.alloc();
    let mut service = service(rt);
    added(rt, service.add_tcp(alloc, "a"));
    added(rt, service.add_tcp_with_settings(alloc, "b", OPTIONS));
    added(rt, service.add_uds(alloc, "c", None));
    added(rt, service.add_tls(alloc, "d", "cert", "key"));
    added(
        rt,
        service.add_tls_with_settings(alloc, "e", Some(OPTIONS), settings()),
    );
    added(rt, service.add_address(alloc, tcp(rt, "f")));
    added(
        rt,
        service.add_listener(alloc, ListenerConfig::tcp(text(rt, "g"))),
    );
    added(
        rt,
        service.endpoints().add_endpoint(alloc, tcp(rt, "h"), None),
    );
    let listed = service.listen_addresses(alloc).expect(rt, "addresses");
    let texts = listed.expect(rt, "declared addresses");
    same(rt, joined(rt, &texts).as_str(), "a,b,c,d,e,f,g,h,");
}

#[test]
fn a_service_hands_its_application_out_once(rt: HostRuntime) {
    let rt = &rt;
    let mut service = service(rt);
    same(rt, service.name(), "web");
    service.threads = Some(2);
    same(rt, service.threads(), Some(2));
    if let Some(app) = service.app_logic_mut() {
        app.turns = 7;
    }
    let app = service.app_logic().expect(rt, "an application");
    same(rt, app.turns, 7);
    same(rt, service.poll_start(false, 1), RunPoll::Pending);
    holds(rt, service.app_logic().is_none());
    holds(rt, service.app_logic_mut().is_none());
}

#[test]
fn a_service_cleans_up_once(rt: HostRuntime) {
    let rt = &rt;
    let (app, cleanups) = app(rt);
    let mut service = Service::new(rt.alloc(), text(rt, "web"), app);
    same(rt, service.poll_start(false, 1), RunPoll::Pending);
    for (shutdown, poll, count) in [
        (false, RunPoll::Pending, 0),
        (true, RunPoll::Ended, 1),
        (true, RunPoll::Ended, 1),
    ] {
        same(rt, service.poll_run(shutdown), poll);
        same(rt, cleanups.get(), count);
    }
}

#[test]
fn a_service_replaces_runtime_options(rt: HostRuntime) {
    let rt = &rt;
    let mut service = service(rt);
    let global = RuntimeOpts::default();
    let metrics = None;
    let replaced = RuntimeOpts {
        metrics: RuntimeMetricsOpts::default(),
        enable_alt_timer: true,
    };
    for (enable_alt_timer, replaced) in [(None, None), (Some(true), Some(replaced))] {
        let options = RuntimeOptsOverride {
            metrics,
            enable_alt_timer,
        };
        service.set_runtime_opts_override(options);
        same(rt, service.runtime_opts_override(&global), replaced);
    }
}

#[test]
fn an_application_is_called_until_it_keeps_its_stream(rt: HostRuntime) {
    let rt = &rt;
    let (mut app, _) = app(rt);
    let handled = Service::handle_event(&mut app, 1u8, false, 3);
    holds(rt, matches!(handled, Handled::Done));
}
