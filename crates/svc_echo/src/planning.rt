//! The plan of the echo server.

ghost use Rattle.std.specs.Prelude.{◌≡◌, [], ◌∷◌, ◌++◌, map, IfOk, OnOk};
ghost use Rattle.std.specs.Rc.{rc_str_bytes};
ghost use Rattle.svc_echo.specs.EchoPlans.{endpoint_at, echo_service, echo_plan, plan_of};

use std::alloc::Global;
use std::mem::drop;
use std::rc::RcStr;
use svc_base::{NoMemory, Numbers, Text, Texts};
use svc_graph::{EndpointList, EndpointPlan, Kind};
use svc_record::{Plan, ServiceList, ServicePlan};
use svc_socket::settings_of;

/// A TCP endpoint of this address.
fn endpoint(alloc: Global, address: &str) -> Result<EndpointPlan, NoMemory>
    ensures { IfOk result (λ e. e ≡ endpoint_at address.now) }
{
    let options = settings_of(alloc, None)?;
    match Text::new(alloc, address) {
        Ok(address) => Ok(EndpointPlan {
            address,
            unix: false,
            options,
            filter: None,
        }),
        Err(NoMemory) => {
            drop(options);
            Err(NoMemory)
        }
    }
}

/// Appends an endpoint.
fn push_endpoint(alloc: Global, endpoints: &mut EndpointList, address: &str) -> Result<(), NoMemory>
    ensures { OnOk result (endpoints.new ≡ endpoints.old ++ endpoint_at address.now ∷ []) }
{
    match endpoints.push(alloc, endpoint(alloc, address)?) {
        Ok(()) => Ok(()),
        Err(refused) => Err(refused.reason),
    }
}

/// Appends a text.
fn push_text(alloc: Global, texts: &mut Texts, text: &str) -> Result<(), NoMemory>
    ensures { OnOk result (texts.new ≡ texts.old ++ text.now ∷ []) }
{
    match texts.push(alloc, Text::new(alloc, text)?) {
        Ok(()) => Ok(()),
        Err(refused) => Err(refused.reason),
    }
}

/// One plain service with both endpoints.
fn echo_service(alloc: Global, address: &str, control: &str) -> Result<ServicePlan, NoMemory>
    ensures { IfOk result (λ s. s ≡ echo_service address.now control.now) }
{
    let mut declared = Texts::new(alloc);
    push_text(alloc, &mut declared, address)?;
    push_text(alloc, &mut declared, control)?;
    let mut endpoints = EndpointList::new(alloc);
    push_endpoint(alloc, &mut endpoints, address)?;
    push_endpoint(alloc, &mut endpoints, control)?;
    Ok(ServicePlan {
        name: Text::new(alloc, "echo")?,
        kind: Kind::Plain,
        depends: Numbers::new(alloc),
        declared: Some(declared),
        endpoints,
    })
}

/// The plan of an echo server at an address, with its control endpoint: one plain service, which declares
/// both addresses. It has no grace period, 5 seconds to stop, one accept loop an endpoint and 5 more tries of
/// a handover. `NoMemory` where there is none for it.
pub fn echo_plan(alloc: Global, address: &str, control: &str) -> Result<Plan, NoMemory>
    ensures { IfOk result (λ p. p ≡ echo_plan address.now control.now) }
{
    let service = echo_service(alloc, address, control)?;
    let mut services = ServiceList::new(alloc);
    if let Err(refused) = services.push(alloc, service) {
        return Err(refused.reason);
    }
    Ok(Plan {
        services,
        grace: 0,
        stop: 5,
        tasks: 1,
        limit: 5,
        upgrade: false,
        test: false,
        eager: false,
        daemon: false,
        wait: false,
        ready_timeout: 600,
    })
}

/// The plan of the words: their first two are the addresses.
pub(crate) fn plan_of(alloc: Global, words: &[RcStr]) -> Result<Plan, NoMemory>
    ensures { IfOk result (λ p. p ≡ plan_of (map rc_str_bytes words.now)) }
{
    match words {
        [address, control, ..] => echo_plan(alloc, address.as_str(), control.as_str()),
        _ => echo_plan(alloc, "", ""),
    }
}
