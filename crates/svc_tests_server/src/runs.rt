//! Runs that the program doesn't make: with turns that are spent, of boxed services, and of services
//! that are told how long they waited.

ghost use Rattle.std.specs.Prelude.{All, codes, length};
ghost use Rattle.svc_record.specs.declared.item.Item.{Item};
ghost use Rattle.svc_server.specs.ScriptHosts.{GivesFew};
ghost use Rattle.svc_server.specs.Servers.{answers_of, IsSound};

use crate::checking::same;
use crate::servers::{Listener, added, listening, notifying, server};
use std::alloc::Global;
use std::cell::Cell;
use std::process::Abort;
use std::rc::Rc;
use std::string::ToString;
use svc_base::{NoMemory, Text};
use svc_graph::services::{RunPoll, ServiceReadyNotifier, ServiceWithDependents, StartPoll};
use svc_graph::{EndpointPlan, Kind};
use svc_record::{Event, ExecutionPhase, Item, ShutdownSignal, Side};
use svc_server::{Outcome, RunArgs, RunError, ScriptHost, Server};

/// The fast signal alone.
fn fast<R: Abort + AllocGlobal>(rt: &R) -> Vec<Item>
    ensures { All GivesFew result.items }
{
    let signal = Item::Event(Event::Signal(ShutdownSignal::FastShutdown));
    let mut items = Vec::new(rt.alloc());
    items.push(signal).ok().expect(rt, "a list");
    items
}

#[test]
fn boxed_services_run_forever(rt: HostRuntime) {
    let rt = &rt;
    let web = Box::new(rt.alloc(), listening(rt, "web", "a:1")).ok();
    let web: Box<dyn ServiceWithDependents> = web.expect(rt, "a box");
    let mut server = server(rt);
    let _ = added(rt, &mut server, web);
    let mut host = ScriptHost::new(rt.alloc(), fast(rt));
    same(rt, server.run_forever(rt.alloc(), &mut host), Ok(0));
    same(
        rt,
        host.phases().last().copied(),
        Some(ExecutionPhase::Terminated),
    );
}

#[test]
fn turns_are_counted(rt: HostRuntime) {
    let rt = &rt;
    for (turns, outcome) in [(0, Err(RunError::TurnsSpent)), (1, Ok(Outcome::Served))] {
        let mut host: ScriptHost<Late> = ScriptHost::new(rt.alloc(), fast(rt));
        let answer = server(rt).run(rt.alloc(), RunArgs { turns }, &mut host);
        same(rt, answer, outcome);
    }
}

/// A service that keeps how long it was told to have waited.
#[derive(Drop)]
struct Late {
    waited: Rc<Cell<u64>>,
}

impl ServiceWithDependents for Late {
    ghost named = { λ _. codes "late" };

    fn poll_start(
        &mut self,
        _shutdown: bool,
        _listeners_per_fd: u64,
        notifier: ServiceReadyNotifier,
    ) -> StartPoll {
        StartPoll::Waiting(notifier)
    }

    fn poll_run(&mut self, _shutdown: bool) -> RunPoll {
        RunPoll::Pending
    }

    fn name(&self) -> &str {
        "late"
    }

    fn on_startup_delay(&self, waited_ms: u64) {
        self.waited.set(waited_ms);
    }

    fn listen_addresses(&self, _alloc: Global) -> Result<Option<Vec<Text>>, NoMemory> {
        Ok(None)
    }

    fn kind(&self) -> Kind {
        Kind::Notifying
    }

    fn listener_configs(&self, alloc: Global) -> Result<Vec<EndpointPlan>, NoMemory> {
        Ok(Vec::new(alloc))
    }
}

/// A service that tells this cell how long it waited.
fn a_late_service<R: Abort>(rt: &R, waited: &Rc<Cell<u64>>) -> Late {
    let waited = waited.clone().expect(rt, "a count");
    Late { waited }
}

/// The server with two services more, the second of which waits for the first.
fn with_two<R: Abort + AllocGlobal, B: ServiceWithDependents>(
    rt: &R,
    mut server: Server<B>,
    first: B,
    second: B,
) -> Server<B>
    ensures { IsSound server.dependencies (length server.filters)
        (answers_of B.ServiceWithDependents server.services.items)
        → IsSound result.dependencies (length result.filters)
        (answers_of B.ServiceWithDependents result.services.items) }
{
    let first = added(rt, &mut server, first);
    let second = added(rt, &mut server, second);
    match second.add_dependency(rt.alloc(), &mut server.dependencies, &first) {
        Ok(()) => server,
        Err(_) => panic!(rt; "refused"),
    }
}

/// The items, and one more event.
fn with<R: Abort>(rt: &R, mut items: Vec<Item>, event: Event) -> Vec<Item>
    requires all { All GivesFew items.items }
    requires few { GivesFew (Item.Event event) }
    ensures { All GivesFew result.items }
{
    items.push(Item::Event(event)).ok().expect(rt, "a list");
    items
}

/// A fork at 300 ms, at which the server runs, and the first service's word at 1,000 ms.
fn fork_and_word<R: Abort + AllocGlobal>(rt: &R) -> Vec<Item>
    ensures { All GivesFew result.items }
{
    let items = with(rt, Vec::new(rt.alloc()), Event::Moment(300));
    let items = with(rt, items, Event::Side(Side::Child));
    let items = with(rt, items, Event::Moment(1000));
    with(rt, items, Event::Ready(0))
}

#[test]
fn a_service_is_told_how_long_it_waited_since_the_server_runs(rt: HostRuntime) {
    let rt = &rt;
    let waited = Rc::new(rt.alloc(), Cell::new(0)).ok().expect(rt, "a count");
    let mut server = with_two(
        rt,
        server(rt),
        a_late_service(rt, &waited),
        a_late_service(rt, &waited),
    );
    server.configuration.daemon = true;
    let mut host = ScriptHost::new(rt.alloc(), fork_and_word(rt));
    let answer = server.run(rt.alloc(), RunArgs { turns: 4 }, &mut host);
    same(rt, answer, Err(RunError::TurnsSpent));
    same(rt, waited.get(), 700);
}

#[test]
fn a_boxed_service_is_told_how_long_it_waited(rt: HostRuntime) {
    let rt = &rt;
    let waited = Rc::new(rt.alloc(), Cell::new(0)).ok().expect(rt, "a count");
    let first = Box::new(rt.alloc(), a_late_service(rt, &waited)).ok();
    let first: Box<dyn ServiceWithDependents> = first.expect(rt, "a box");
    let second = Box::new(rt.alloc(), a_late_service(rt, &waited)).ok();
    let second: Box<dyn ServiceWithDependents> = second.expect(rt, "a box");
    let mut server = with_two(rt, server(rt), first, second);
    server.configuration.daemon = true;
    let mut host = ScriptHost::new(rt.alloc(), fork_and_word(rt));
    let answer = server.run(rt.alloc(), RunArgs { turns: 4 }, &mut host);
    same(rt, answer, Err(RunError::TurnsSpent));
    same(rt, waited.get(), 700);
}

/// The last entry of the host's record.
fn last<R: Abort + AllocGlobal>(rt: &R, host: &ScriptHost<Listener>) -> String {
    let last = host.entries().as_slice().last().expect(rt, "an entry");
    last.to_string(rt.alloc()).expect(rt, "a text")
}

#[test]
fn what_is_open_closes_where_the_turns_are_spent(rt: HostRuntime) {
    let rt = &rt;
    let first = notifying(rt, "db");
    let second = listening(rt, "api", "127.0.0.1:80");
    let server = with_two(rt, server(rt), first, second);
    let items = with(rt, Vec::new(rt.alloc()), Event::Ready(0));
    let items = with(rt, items, Event::Bound(1, 0, 7));
    let items = with(rt, items, Event::Signal(ShutdownSignal::FastShutdown));
    let mut host = ScriptHost::new(rt.alloc(), items);
    let answer = server.run(rt.alloc(), RunArgs { turns: 2 }, &mut host);
    same(rt, answer, Err(RunError::TurnsSpent));
    same(rt, last(rt, &host).as_str(), "close 7");
}
