//! What a server asks of a plain service and of a background task.

ghost use Rattle.std.specs.Prelude.{codes};

use crate::checking::{holds, same};
use std::alloc::Global;
use std::cell::Cell;
use std::process::Abort;
use svc_base::{NoMemory, Text};
use svc_conf::RuntimeOpts;
use svc_graph::services::background::{
    BackgroundService, GenBackgroundService, background_service,
};
use svc_graph::services::{
    Plain, RunPoll, Service, ServiceReadyNotifier, ServiceReadyWatch, ServiceWithDependents,
    StartPoll,
};
use svc_graph::{EndpointPlan, Kind};

/// A service that keeps every default.
#[derive(Drop)]
struct Still;

impl Service for Still {
    ghost named = { λ _. codes "still" };

    fn poll_run(&mut self, _shutdown: bool) -> RunPoll {
        RunPoll::Pending
    }

    fn name(&self) -> &str {
        "still"
    }

    fn listen_addresses(&self, _alloc: Global) -> Result<Option<Vec<Text>>, NoMemory> {
        Ok(None)
    }

    fn listener_configs(&self, alloc: Global) -> Result<Vec<EndpointPlan>, NoMemory> {
        Ok(Vec::new(alloc))
    }
}

/// A service that keeps no default, and goes on until the server shuts down. It wants as many threads as it
/// has accept loops and was told milliseconds of waiting.
#[derive(Drop)]
struct Busy {
    listeners: u64,
    waited: Cell<u64>,
}

impl Service for Busy {
    ghost named = { λ _. codes "busy" };

    fn poll_start(&mut self, shutdown: bool, listeners_per_fd: u64) -> RunPoll {
        self.listeners = listeners_per_fd;
        self.poll_run(shutdown)
    }

    fn poll_run(&mut self, shutdown: bool) -> RunPoll {
        if shutdown {
            RunPoll::Ended
        } else {
            RunPoll::Pending
        }
    }

    fn name(&self) -> &str {
        "busy"
    }

    fn threads(&self) -> Option<u64> {
        self.listeners.checked_add(self.waited.get())
    }

    fn runtime_opts_override(&self, global: &RuntimeOpts) -> Option<RuntimeOpts> {
        Some(*global)
    }

    fn on_startup_delay(&self, waited_ms: u64) {
        self.waited.set(waited_ms);
    }

    fn listen_addresses(&self, _alloc: Global) -> Result<Option<Vec<Text>>, NoMemory> {
        Ok(None)
    }

    fn listener_configs(&self, alloc: Global) -> Result<Vec<EndpointPlan>, NoMemory> {
        Ok(Vec::new(alloc))
    }
}

/// A task that keeps every default.
#[derive(Drop)]
struct Idle;

impl BackgroundService for Idle {}

/// A task that isn't ready before its second start.
#[derive(Drop)]
struct Slow {
    starts: u64,
}

impl BackgroundService for Slow {
    fn poll_start_with_ready_notifier(
        &mut self,
        shutdown: bool,
        notifier: ServiceReadyNotifier,
    ) -> StartPoll {
        if self.starts == 0 {
            self.starts = 1;
            return StartPoll::Waiting(notifier);
        }
        StartPoll::from(self.poll(shutdown))
    }

    fn poll(&mut self, _shutdown: bool) -> RunPoll {
        RunPoll::Pending
    }
}

#[test]
fn a_plain_service_has_defaults(rt: HostRuntime) {
    let rt = &rt;
    let mut still = Plain::new(Still);
    let start = still.poll_start(false, 1, ServiceReadyNotifier::new(4));
    holds(rt, matches!(start, StartPoll::Ended));
    holds(rt, start.ready());
    same(rt, still.kind(), Kind::Plain);
    same(rt, still.threads(), None);
    same(
        rt,
        still.runtime_opts_override(&RuntimeOpts::default()),
        None,
    );
    still.on_startup_delay(20);
    let addresses = still.listen_addresses(rt.alloc()).expect(rt, "a list");
    holds(rt, addresses.is_none());
    let configs = still.listener_configs(rt.alloc()).expect(rt, "a list");
    holds(rt, configs.is_empty());
}

/// A service that keeps no default, before its start.
fn new_busy() -> Plain<Busy> {
    let waited = Cell::new(0);
    Plain::new(Busy {
        listeners: 0,
        waited,
    })
}

/// Each call reaches the service.
fn forwards<R: Abort, S: ServiceWithDependents>(rt: &R, mut busy: S) {
    let start = busy.poll_start(false, 7, ServiceReadyNotifier::new(4));
    assert!(rt; matches!(start, StartPoll::Running));
    assert_eq!(rt; busy.threads(), Some(7));
    busy.on_startup_delay(20);
    assert_eq!(rt; busy.threads(), Some(27));
    assert_eq!(rt; busy.poll_run(false), RunPoll::Pending);
    assert_eq!(rt; busy.poll_run(true), RunPoll::Ended);
    let global = RuntimeOpts::default();
    assert_eq!(rt; busy.runtime_opts_override(&global), Some(global));
    assert_eq!(rt; busy.name(), "busy");
    assert_eq!(rt; busy.kind(), Kind::Plain);
}

#[test]
fn a_plain_service_forwards_each_call(rt: HostRuntime) {
    forwards(&rt, new_busy());
}

#[test]
fn a_boxed_service_forwards_each_call(rt: HostRuntime) {
    let rt = &rt;
    let boxed = Box::new(rt.alloc(), new_busy()).ok();
    let boxed: Box<dyn ServiceWithDependents> = boxed.expect(rt, "a box");
    forwards(rt, boxed);
}

#[test]
fn a_background_service_has_defaults(rt: HostRuntime) {
    let rt = &rt;
    let name = Text::new(rt.alloc(), "idle").expect(rt, "a name");
    let mut idle = GenBackgroundService::new(name, Idle);
    let start = idle.poll_start(false, 1, ServiceReadyNotifier::new(4));
    holds(rt, matches!(start, StartPoll::Ended));
    same(rt, idle.poll_run(false), RunPoll::Ended);
    same(rt, idle.threads(), Some(1));
    same(
        rt,
        idle.runtime_opts_override(&RuntimeOpts::default()),
        None,
    );
    idle.on_startup_delay(20);
    let addresses = idle.listen_addresses(rt.alloc()).expect(rt, "a list");
    let addresses = addresses.expect(rt, "declared addresses");
    holds(rt, addresses.is_empty());
    let configs = idle.listener_configs(rt.alloc()).expect(rt, "a list");
    holds(rt, configs.is_empty());
}

#[test]
fn a_task_may_hand_the_notifier_back(rt: HostRuntime) {
    let rt = &rt;
    let made = background_service(rt.alloc(), "slow", Slow { starts: 0 });
    let mut slow = made.ok().expect(rt, "a service");
    same(rt, slow.name(), "BG slow");
    same(rt, slow.kind(), Kind::Notifying);
    let waiting = slow.poll_start(false, 1, ServiceReadyNotifier::new(4));
    holds(rt, !waiting.ready());
    if let StartPoll::Waiting(notifier) = waiting {
        same(rt, notifier.service(), 4);
        holds(rt, slow.poll_start(false, 1, notifier).ready());
    }
    same(rt, slow.task().starts, 1);
    same(rt, ServiceReadyWatch::new(4).service(), 4);
}
