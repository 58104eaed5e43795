//! The services: a cache that fills before it is ready, and a web service that listens.

ghost use Rattle.std.specs.Prelude.{◌≡◌, Some, None, is_some, map, codes, IfOk};
ghost use Rattle.std.specs.Option.{option_to_list};
ghost use Rattle.svc_hello.specs.Services.{kind_of, endpoint_at};
ghost use Rattle.svc_hello.specs.declared.services.Work.TheVariants as works;

use std::alloc::Global;
use svc_base::{NoMemory, Settings, Text};
use svc_graph::services::{RunPoll, ServiceReadyNotifier, ServiceWithDependents, StartPoll};
use svc_graph::{EndpointPlan, Kind};

/// What a service does, with its own state.
#[derive(Clone, Copy, PartialEq, Eq, Debug)]
pub enum Work {
    /// It loads one part at each poll, and is ready once as many are loaded as are wanted.
    Cache { loaded: u32, wanted: u32 },
    /// It serves visitors until the server shuts down, and is ready as soon as it is started.
    Web,
}

/// A service, as the server takes it.
///
/// All services have this one type, so that what a service answers is known to contracts; a server
/// takes `Box<dyn ServiceWithDependents>` as well.
#[derive(Drop)]
pub struct HelloService {
    name: Text,
    work: Work,
    /// Where it listens, if it does.
    address: Option<Text>,
}

impl HelloService {
    /// A cache that is ready once so many parts are loaded. It listens nowhere.
    pub fn cache(alloc: Global, wanted: u32) -> Result<Self, NoMemory>
        ensures { IfOk result (λ s. s ≡ record { name = codes "cache"; work = works.Cache 0 wanted; address = None }) }
    {
        Ok(HelloService {
            name: Text::new(alloc, "cache")?,
            work: Work::Cache { loaded: 0, wanted },
            address: None,
        })
    }

    /// A web service that listens on the TCP address.
    pub fn web(alloc: Global, address: &str) -> Result<Self, NoMemory>
        ensures { IfOk result (λ s. s ≡ record { name = codes "web"; work = works.Web; address = Some address.now }) }
    {
        Ok(HelloService {
            name: Text::new(alloc, "web")?,
            work: Work::Web,
            address: Some(Text::new(alloc, address)?),
        })
    }

    /// Whether it listens.
    pub fn listens(&self) -> bool
        ensures { result ≡ is_some self.now.address }
    {
        self.address.is_some()
    }
}

impl ServiceWithDependents for HelloService {
    ghost named = { λ s. s.name };

    ghost of_kind = { λ s. kind_of s.work };

    ghost declares = { λ s. Some (option_to_list s.address) };

    ghost configures = { λ s. map endpoint_at (option_to_list s.address) };

    fn poll_start(
        &mut self,
        _shutdown: bool,
        _listeners_per_fd: u64,
        notifier: ServiceReadyNotifier,
    ) -> StartPoll {
        if let Work::Cache { loaded, wanted } = self.work {
            if loaded < wanted {
                self.work = Work::Cache {
                    loaded: loaded + 1,
                    wanted,
                };
                return StartPoll::Waiting(notifier);
            }
        }
        notifier.notify_ready();
        StartPoll::Running
    }

    fn poll_run(&mut self, shutdown: bool) -> RunPoll {
        if shutdown {
            RunPoll::Ended
        } else {
            RunPoll::Pending
        }
    }

    fn name(&self) -> &str {
        self.name.as_str()
    }

    fn kind(&self) -> Kind {
        match self.work {
            Work::Cache { .. } => Kind::Notifying,
            Work::Web => Kind::Plain,
        }
    }

    fn listen_addresses(&self, alloc: Global) -> Result<Option<Vec<Text>>, NoMemory> {
        let mut addresses = Vec::new(alloc);
        if let Some(address) = &self.address {
            addresses.push(address.copy(alloc)?)?;
        }
        Ok(Some(addresses))
    }

    fn listener_configs(&self, alloc: Global) -> Result<Vec<EndpointPlan>, NoMemory> {
        let mut endpoints = Vec::new(alloc);
        if let Some(address) = &self.address {
            endpoints.push(EndpointPlan {
                address: address.copy(alloc)?,
                unix: false,
                options: Settings::new(alloc),
                filter: None,
            })?;
        }
        Ok(endpoints)
    }
}
