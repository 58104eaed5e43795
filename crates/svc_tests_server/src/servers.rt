//! A server takes services, and tells of them.

ghost use Rattle.std.specs.Prelude.{[], length, map, Some, None, false, if◌then◌else◌};
ghost use Rattle.svc_server.specs.Servers.{answers_of, IsSound};

use crate::checking::{holds, same};
use std::alloc::Global;
use std::process::Abort;
use svc_base::{Files, MemoryFile, MemoryFiles, NoMemory, Settings, Text, Texts};
use svc_conf::{Key, Opt, ReadError, ServerConf};
use svc_graph::services::{RunPoll, ServiceReadyNotifier, ServiceWithDependents, StartPoll};
use svc_graph::{EndpointPlan, Kind, ServiceHandle};
use svc_server::{AddError, Server};

/// A service that listens on some addresses.
#[derive(Drop)]
pub struct Listener {
    name: Text,
    kind: Kind,
    /// It declares its addresses.
    says: bool,
    addresses: Texts,
}

impl ServiceWithDependents for Listener {
    ghost named = { λ listener. listener.name };

    ghost of_kind = { λ listener. listener.kind };

    ghost declares = { λ listener. if listener.says then Some listener.addresses else None };

    ghost configures = { λ listener. map (λ address. record {
      address = address;
      unix = false;
      options = [];
      filter = None;
    }) listener.addresses };

    fn poll_start(
        &mut self,
        _shutdown: bool,
        _listeners_per_fd: u64,
        notifier: ServiceReadyNotifier,
    ) -> StartPoll {
        StartPoll::Waiting(notifier)
    }

    fn poll_run(&mut self, _shutdown: bool) -> RunPoll {
        RunPoll::Pending
    }

    fn name(&self) -> &str {
        self.name.as_str()
    }

    fn listen_addresses(&self, alloc: Global) -> Result<Option<Vec<Text>>, NoMemory> {
        if !self.says {
            return Ok(None);
        }
        let mut texts = Vec::new(alloc);
        for address in self.addresses.as_slice() {
            texts.push(address.copy(alloc)?)?;
        }
        Ok(Some(texts))
    }

    fn kind(&self) -> Kind {
        self.kind
    }

    fn listener_configs(&self, alloc: Global) -> Result<Vec<EndpointPlan>, NoMemory> {
        let mut endpoints = Vec::new(alloc);
        for address in self.addresses.as_slice() {
            let endpoint = EndpointPlan {
                address: address.copy(alloc)?,
                unix: false,
                options: Settings::new(alloc),
                filter: None,
            };
            endpoints.push(endpoint)?;
        }
        Ok(endpoints)
    }
}

/// A service that listens on the address, and declares it.
pub fn listening<R: Abort + AllocGlobal>(rt: &R, name: &str, address: &str) -> Listener {
    let mut addresses = Texts::new(rt.alloc());
    let text = Text::new(rt.alloc(), address).expect(rt, "an address");
    assert!(rt; addresses.push(rt.alloc(), text).is_ok());
    Listener {
        name: Text::new(rt.alloc(), name).expect(rt, "a name"),
        kind: Kind::Plain,
        says: true,
        addresses,
    }
}

/// A service without addresses that says itself when it is ready.
pub fn notifying<R: Abort + AllocGlobal>(rt: &R, name: &str) -> Listener {
    Listener {
        name: Text::new(rt.alloc(), name).expect(rt, "a name"),
        kind: Kind::Notifying,
        says: true,
        addresses: Texts::new(rt.alloc()),
    }
}

/// A server without services, with the defaults.
pub fn server<R: Abort + AllocGlobal, B: ServiceWithDependents>(rt: &R) -> Server<B>
    ensures { IsSound result.dependencies (length result.filters)
        (answers_of B.ServiceWithDependents result.services.items) }
{
    let conf = ServerConf::default(rt.alloc()).expect(rt, "a configuration");
    match Server::new_with_opt_and_conf(rt.alloc(), None, conf) {
        Ok(server) => server,
        Err(_) => panic!(rt; "no server"),
    }
}

/// Adds a service that is taken.
pub fn added<R: Abort + AllocGlobal, B: ServiceWithDependents>(
    rt: &R,
    server: &mut Server<B>,
    service: B,
) -> ServiceHandle
    ensures { IsSound server.old.dependencies (length server.old.filters)
        (answers_of B.ServiceWithDependents server.old.services.items)
        → IsSound server.new.dependencies (length server.new.filters)
        (answers_of B.ServiceWithDependents server.new.services.items) }
{
    match server.add_boxed_service(rt.alloc(), service) {
        Ok(handle) => handle,
        Err(_) => panic!(rt; "refused"),
    }
}

/// How many addresses the services declare, unless one declares none.
fn expected<R: Abort + AllocGlobal>(rt: &R, server: &Server<Listener>) -> Option<usize> {
    let found = server
        .expected_addresses(rt.alloc())
        .expect(rt, "addresses");
    match found {
        Some(texts) => Some(texts.len()),
        None => None,
    }
}

#[test]
fn a_server_expects_what_all_declare(rt: HostRuntime) {
    let rt = &rt;
    let mut server = server(rt);
    let _ = added(rt, &mut server, listening(rt, "web", "a:1"));
    let mut boot = listening(rt, "boot", "b:1");
    boot.kind = Kind::Bootstrap;
    holds(rt, server.bootstrap_as_a_service(rt.alloc(), boot).is_ok());
    same(rt, expected(rt, &server), Some(2));
    let mut silent = listening(rt, "silent", "c:1");
    silent.says = false;
    let _ = added(rt, &mut server, silent);
    same(rt, expected(rt, &server), None);
}

/// Services that listen on these addresses.
fn services<R: Abort + AllocGlobal>(rt: &R, addresses: &[&str]) -> Vec<Listener> {
    let mut services = Vec::new(rt.alloc());
    for address in addresses {
        assert!(rt; services.push(listening(rt, "service", address)).is_ok());
    }
    services
}

#[test]
fn what_is_not_added_comes_back(rt: HostRuntime) {
    let rt = &rt;
    let mut server = server(rt);
    let handles = server.add_services(rt.alloc(), services(rt, &["a:1", "b:1"]));
    let handles = handles.ok().expect(rt, "handles");
    same(rt, handles.len(), 2);
    let refused = server.add_services(rt.alloc(), services(rt, &["c:1", "", "d:1"]));
    let refused = refused.err().expect(rt, "a refusal");
    same(rt, refused.reason, AddError::BadAddressText(0));
    same(rt, refused.index, 1);
    same(rt, refused.handles.len(), 1);
    same(rt, refused.services.len(), 2);
    same(rt, server.dependencies.len(), 3);
}

#[test]
fn a_plan_has_the_defaults(rt: HostRuntime) {
    let rt = &rt;
    let mut server: Server<Listener> = server(rt);
    holds(rt, server.watch_execution_phase().recv(&[]).is_none());
    server.bootstrap();
    let plan = server.plan(rt.alloc()).expect(rt, "a plan");
    same(rt, (plan.grace, plan.stop, plan.tasks), (300, 5, 1));
    same(rt, (plan.limit, plan.ready_timeout), (5, 600));
    holds(rt, plan.eager);
}

/// The flags that name this path.
fn flags<R: Abort + AllocGlobal>(rt: &R, path: &str) -> Opt {
    let mut opt = Opt::default();
    opt.conf = Text::new(rt.alloc(), path).ok();
    opt
}

/// A server of the configuration at this path, and its number of threads, or why there is none.
fn threads<R: Abort + AllocGlobal>(
    rt: &R,
    files: &mut MemoryFiles,
    path: Option<&str>,
) -> Result<u64, ReadError> {
    let opt = match path {
        Some(path) => Some(flags(rt, path)),
        None => None,
    };
    let server: Server<Listener> = Server::new(rt.alloc(), opt, files)?;
    Ok(server.configuration.threads)
}

#[test]
fn a_server_is_made_of_the_file_of_its_flags(rt: HostRuntime) {
    let rt = &rt;
    let mut all = Vec::new(rt.alloc());
    for (path, text) in [
        ("a.yaml", "threads: 3\n"),
        ("b.yaml", "listener_tasks_per_fd: 0\n"),
    ] {
        let path = Text::new(rt.alloc(), path).expect(rt, "a path");
        let text = Text::new(rt.alloc(), text).expect(rt, "a text");
        holds(rt, all.push(MemoryFile { path, text }).is_ok());
    }
    let mut files = MemoryFiles::new(rt.alloc(), all, Vec::new(rt.alloc()));
    for (path, made) in [
        (None, Ok(1)),
        (Some("a.yaml"), Ok(3)),
        (
            Some("b.yaml"),
            Err(ReadError::Invalid(Key::ListenerTasksPerFd)),
        ),
        (Some("c.yaml"), Err(ReadError::Fault)),
    ] {
        same(rt, threads(rt, &mut files, path), made);
    }
    same(rt, files.faults(), 1);
}
