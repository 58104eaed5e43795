//! The addresses of a plan are texts, which a call sees by reading them.

ghost use Rattle.std.specs.Prelude.{All};
ghost use Rattle.std.specs.Str.{IsUtf8};
ghost use Rattle.svc_handover.specs.Law.{HasTexts, AreTextual};

use svc_base::Text;
use svc_core::{Plan, ServicePlan};
use svc_graph::EndpointPlan;

fn read_address(address: &Text)
    ensures { IsUtf8 address.now }
{
    let _text = address.as_str();
}

fn read_endpoints(endpoints: &[EndpointPlan])
    ensures { AreTextual endpoints.now }
{
    for endpoint in endpoints {
        read_address(&endpoint.address);
    }
}

fn read_services(services: &[ServicePlan])
    ensures { All (λ s. AreTextual s.endpoints) services.now }
{
    for service in services {
        read_endpoints(service.endpoints.as_slice());
    }
}

/// Reads each address of the plan once, so that it is known to be a text.
pub fn read_addresses(plan: &Plan)
    ensures { HasTexts plan.now }
{
    read_services(plan.services.as_slice());
}
