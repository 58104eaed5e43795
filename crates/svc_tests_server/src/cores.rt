//! A core that tells twice, what it says of readiness, and the reader of its phases.

use crate::checking::{holds, same};
use std::process::Abort;
use std::string::ToString;
use svc_base::{Numbers, Settings, Text};
use svc_core::{
    Actions, Core, Event, ExecutionPhase, PhaseReader, Plan, ServiceList, ServicePlan,
    ShutdownSignal,
};
use svc_graph::services::ServiceReadyWatch;
use svc_graph::{EndpointList, EndpointPlan, Kind};

/// The web service, which listens on one address.
fn web<R: Abort + AllocGlobal>(rt: &R) -> ServicePlan {
    let text = |text: &str| Text::new(rt.alloc(), text).expect(rt, "a text");
    let mut endpoints = EndpointList::new(rt.alloc());
    let endpoint = EndpointPlan {
        address: text("127.0.0.1:80"),
        unix: false,
        options: Settings::new(rt.alloc()),
        filter: None,
    };
    assert!(rt; endpoints.push(rt.alloc(), endpoint).is_ok());
    ServicePlan {
        name: text("web"),
        kind: Kind::Plain,
        depends: Numbers::new(rt.alloc()),
        declared: None,
        endpoints,
    }
}

/// A plan of the web service that takes over nothing.
fn plan<R: Abort + AllocGlobal>(rt: &R) -> Plan {
    let mut services = ServiceList::new(rt.alloc());
    assert!(rt; services.push(rt.alloc(), web(rt)).is_ok());
    Plan {
        services,
        grace: 0,
        stop: 5,
        tasks: 1,
        limit: 5,
        upgrade: false,
        test: false,
        eager: false,
        daemon: false,
        wait: false,
        ready_timeout: 600,
    }
}

/// The actions, each followed by a semicolon.
fn text<R: Abort + AllocGlobal>(rt: &R, actions: &Actions) -> String {
    let mut text = String::new(rt.alloc());
    for action in actions.as_slice() {
        let line = action.to_string(rt.alloc()).expect(rt, "a text");
        assert!(rt; text.push_str(line.as_str()).is_ok());
        assert!(rt; text.push(';').is_ok());
    }
    text
}

/// A core of the plan that has begun, with what it told.
fn begun<R: Abort + AllocGlobal>(rt: &R) -> (Core, Actions) {
    let plan = plan(rt);
    let is_valid = plan.valid(rt.alloc()).expect(rt, "an answer");
    assert!(rt; is_valid);
    let mut core = Core::new(rt.alloc(), plan).expect(rt, "a core");
    let mut actions = Actions::new(rt.alloc());
    assert!(rt; core.begin(rt.alloc(), &mut actions).is_ok());
    (core, actions)
}

/// Steps over an event that fits, and tells it in both lists.
fn step<R: Abort + AllocGlobal>(
    rt: &R,
    core: &mut Core,
    event: Event,
    first: &mut Actions,
    second: &mut Actions,
) {
    assert!(rt; core.fits(&event));
    let end = core.step_twice(rt.alloc(), &event, true, first, second);
    assert!(rt; end.is_ok());
}

#[test]
fn a_step_tells_two_lists(rt: HostRuntime) {
    let rt = &rt;
    let (mut core, mut first) = begun(rt);
    let mut second = Actions::new(rt.alloc());
    for event in [
        Event::Bound(0, 0, 7),
        Event::Signal(ShutdownSignal::GracefulUpgrade),
        Event::Connected,
    ] {
        step(rt, &mut core, event, &mut first, &mut second);
    }
    let begun = "start 0;bind 0 0;phase Running 0;";
    let later = "phase GracefulUpgradeTransferringFds 0;connect;send 3132372e302e302e313a3830 7;";
    same(rt, text(rt, &second).as_str(), later);
    let all = text(rt, &first);
    holds(
        rt,
        all.as_str().starts_with(begun) && all.as_str().ends_with(later),
    );
}

/// Whether the first service of the plan is ready.
fn is_ready<R: Abort>(rt: &R, core: &Core) -> bool {
    assert!(rt; core.plan().services.as_slice().len() == 1);
    core.ready(&ServiceReadyWatch::new(0))
}

fn to_any_thread<T: Send>(value: T) -> T {
    value
}

#[test]
fn a_core_that_went_to_another_thread_tells_who_is_ready(rt: HostRuntime) {
    let rt = &rt;
    let (core, _) = to_any_thread(begun(rt));
    holds(rt, is_ready(rt, &core));
}

#[test]
fn phases_are_read_once(rt: HostRuntime) {
    let rt = &rt;
    let mut reader = PhaseReader::new();
    let phases = [ExecutionPhase::Running, ExecutionPhase::ShutdownStarted];
    same(rt, reader.recv(&phases[..1]), Some(ExecutionPhase::Running));
    same(rt, reader.recv(&phases[..1]), None);
    same(
        rt,
        reader.recv(&phases),
        Some(ExecutionPhase::ShutdownStarted),
    );
}
