//! Plans of one service.

use std::alloc::Global;
use std::process::Abort;
use svc_base::{Numbers, Text};
use svc_desk::Gate;
use svc_graph::{EndpointList, EndpointPlan, Kind};
use svc_record::{Plan, ServiceList, ServicePlan};
use svc_socket::settings_of;

/// A plan with one service, which listens on these addresses.
pub(crate) fn plan_of(
    rt: &impl Abort,
    alloc: Global,
    name: &str,
    kind: Kind,
    addresses: &[&str],
) -> Plan {
    let mut endpoints = EndpointList::new(alloc);
    for address in addresses {
        let endpoint = EndpointPlan {
            address: Text::new(alloc, *address).expect(rt, "memory"),
            unix: false,
            options: settings_of(alloc, None).expect(rt, "memory"),
            filter: None,
        };
        endpoints.push(alloc, endpoint).expect(rt, "memory");
    }
    let service = ServicePlan {
        name: Text::new(alloc, name).expect(rt, "memory"),
        kind,
        depends: Numbers::new(alloc),
        declared: None,
        endpoints,
    };
    let mut services = ServiceList::new(alloc);
    services.push(alloc, service).expect(rt, "memory");
    Plan {
        services,
        grace: 300,
        stop: 5,
        tasks: 1,
        limit: 5,
        upgrade: false,
        test: false,
        eager: false,
        daemon: false,
        wait: false,
        ready_timeout: 600,
    }
}

/// Holds nobody.
#[derive(Drop)]
pub(crate) struct OpenGate;

impl Gate for OpenGate {
    fn after(&self, _worker: u32, _answered: u64) {}
}
