//! What the core reads of a plan.

ghost use Rattle.std.specs.Prelude.{◌≡◌, ◌<◌, ◌||◌, not, length, Some};
ghost use Rattle.svc_record.specs.Plans.{service_count, has_kind, endpoints, address, filter_of};
ghost use Rattle.svc_record.specs.Connections.{is_known, has_filter};
ghost use Rattle.svc_record.specs.Judging.{asked_filter};
ghost use Rattle.svc_record.specs.Fits.{may_end};
ghost use Rattle.svc_graph.specs.declared.plan.Kind.TheVariants.{Plain, Notifying, Bootstrap};

use svc_base::Text;
use svc_graph::Kind;
use svc_record::{Event, Plan};
use svc_socket::Peer;

pub(crate) fn service_count(plan: &Plan) -> usize
    ensures { result ≡ service_count plan.now }
{
    plan.services.as_slice().len()
}

pub(crate) fn is_plain(plan: &Plan, s: u32) -> bool
    requires { s < service_count plan.now }
    ensures { result ≡ has_kind plan.now Plain s }
{
    match plan.services.as_slice()[s as usize].kind {
        Kind::Plain => true,
        Kind::Notifying => false,
        Kind::Bootstrap => false,
    }
}

pub(crate) fn is_notifying(plan: &Plan, s: u32) -> bool
    requires { s < service_count plan.now }
    ensures { result ≡ has_kind plan.now Notifying s }
{
    match plan.services.as_slice()[s as usize].kind {
        Kind::Plain => false,
        Kind::Notifying => true,
        Kind::Bootstrap => false,
    }
}

pub(crate) fn is_bootstrap(plan: &Plan, s: u32) -> bool
    requires { s < service_count plan.now }
    ensures { result ≡ has_kind plan.now Bootstrap s }
{
    match plan.services.as_slice()[s as usize].kind {
        Kind::Plain => false,
        Kind::Notifying => false,
        Kind::Bootstrap => true,
    }
}

pub(crate) fn endpoint_count(plan: &Plan, s: u32) -> usize
    requires { s < service_count plan.now }
    ensures { result ≡ length (endpoints plan.now s) }
{
    plan.services.as_slice()[s as usize]
        .endpoints
        .as_slice()
        .len()
}

/// The address of the service's endpoint.
pub(crate) fn address_of(plan: &Plan, s: u32, i: u32) -> &Text
    requires service { s < service_count plan.now }
    requires endpoint { i < length (endpoints plan.now s) }
    ensures { Some result.now ≡ address plan.now s i }
{
    let endpoints = plan.services.as_slice()[s as usize].endpoints.as_slice();
    &endpoints[i as usize].address
}

/// The service takes no connections and doesn't bootstrap, so its work may end.
pub(crate) fn may_end(plan: &Plan, s: u32) -> bool
    requires { s < service_count plan.now }
    ensures { result ≡ may_end plan.now s }
{
    (is_plain(plan, s) || is_notifying(plan, s)) && endpoint_count(plan, s) == 0
}

/// The number of the filter of the service's endpoint, if it has one. An endpoint that isn't there
/// has none.
fn filter_of(plan: &Plan, s: u32, i: u32) -> Option<u32>
    ensures { result ≡ filter_of plan.now s i }
{
    if s as usize >= service_count(plan) || i as usize >= endpoint_count(plan, s) {
        return None;
    }
    let endpoints = plan.services.as_slice()[s as usize].endpoints.as_slice();
    endpoints[i as usize].filter
}

/// The service's endpoint has a filter.
fn has_filter(plan: &Plan, s: u32, i: u32) -> bool
    ensures { result ≡ has_filter plan.now s i }
{
    filter_of(plan, s, i).is_some()
}

/// What is judged of a peer at the service's endpoint: what was said, and yes where the endpoint has
/// no filter.
pub(crate) fn verdict_on(plan: &Plan, s: u32, i: u32, said: bool) -> bool
    ensures { result ≡ (said || not (has_filter plan.now s i)) }
{
    said || !has_filter(plan, s, i)
}

/// The peer is known.
fn is_known(peer: &Peer) -> bool
    ensures { result ≡ is_known peer.now }
{
    !matches!(peer, Peer::Unknown)
}

/// The filter that is asked at the event: the endpoint's, where a connection arrived whose peer is
/// known.
pub(crate) fn asked_filter(plan: &Plan, event: &Event) -> Option<u32>
    ensures { result ≡ asked_filter plan.now event.now }
{
    match event {
        Event::Arrived(s, i, _, peer) => {
            if is_known(peer) {
                filter_of(plan, *s, *i)
            } else {
                None
            }
        }
        _ => None,
    }
}
