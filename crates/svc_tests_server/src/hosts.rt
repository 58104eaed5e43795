//! A host of a list, called by itself.

ghost use Rattle.std.specs.Prelude.{All, IfSome, ◌≡◌};
ghost use Rattle.svc_server.specs.Hosts.{no_account};
ghost use Rattle.svc_server.specs.ScriptHosts.{GivesFew};

use crate::checking::{holds, same};
use crate::servers::{Listener, listening};
use std::process::Abort;
use svc_record::{Action, Event, ExecutionPhase, Item};
use svc_server::{Host, Next, ScriptHost};

/// An event, and then a fault.
fn items<R: Abort + AllocGlobal>(rt: &R) -> Vec<Item>
    ensures { All GivesFew result.items }
{
    let mut items = Vec::new(rt.alloc());
    items
        .push(Item::Event(Event::Ready(0)))
        .ok()
        .expect(rt, "a list");
    items.push(Item::Fault).ok().expect(rt, "a list");
    items
}

/// Hands a service over, and tells its start and a phase.
fn start_one<R: Abort + AllocGlobal, H: Host>(rt: &R, host: &mut H, service: H::Service)
    requires { IfSome (H.account host.old) (λ a. a ≡ no_account) }
{
    host.reserve(rt.alloc(), 3).expect(rt, "room");
    host.hand(0, service);
    host.tell(Action::Start(0));
    host.tell(Action::Phase(ExecutionPhase::Running, 20));
}

/// The host's next answer.
fn next<R: Abort + AllocGlobal, H: Host>(rt: &R, host: &mut H) -> Next {
    host.reserve(rt.alloc(), 1).expect(rt, "room");
    host.next()
}

#[test]
fn a_host_gives_events_and_faults_in_turn(rt: HostRuntime) {
    let rt = &rt;
    let mut host: ScriptHost<Listener> = ScriptHost::new(rt.alloc(), items(rt));
    start_one(rt, &mut host, listening(rt, "web", "a:1"));
    for answer in [Next::Event, Next::Failed, Next::None, Next::None] {
        same(rt, next(rt, &mut host), answer);
    }
    same(
        rt,
        (host.faults(), host.idles(), host.failures()),
        (1, 2, 0),
    );
    same(rt, host.phases(), [ExecutionPhase::Running].as_slice());
    let mut text = String::new(rt.alloc());
    for entry in host.entries().as_slice() {
        let line = format!(in rt.alloc(); "{entry};").expect(rt, "a text");
        holds(rt, text.push_str(line.as_str()).is_ok());
    }
    same(rt, text.as_str(), "start 0;phase Running 20;got ready 0;");
}
