//! The endpoints of a server, and what is to be told of each.

ghost use Rattle.std.specs.Prelude.{◌≡◌, ◌<◌, length, IfSome};
ghost use Rattle.svc_sockets.specs.OpenSockets.{number_behind};
ghost use Rattle.svc_sockets.specs.SocketsData.{SocketsData, Tells, TellsNext};
ghost use Rattle.svc_sockets.specs.Told.{descriptor_by, endpoint_event};

use crate::sockets::Seat;
use std::net::{Net, SocketAddr, ToSocketAddrs};
use svc_base::NoMemory;
use svc_record::{Event, Plan, ServicePlan};

/// What an endpoint answers that was asked.
#[derive(Clone, Copy, PartialEq, Eq)]
pub(crate) enum EndpointAnswer {
    Bound(u64),
    InUse,
    BindFailed,
    Adopted,
    AdoptFailed,
}

/// How far an endpoint is.
#[derive(Clone, Copy, PartialEq, Eq)]
pub(crate) enum EndpointState {
    /// It listens on nothing, and was asked nothing.
    Idle,
    /// This is to be told.
    Due(EndpointAnswer),
    /// This seat was told that it listens, and perhaps hasn't posted that yet.
    Telling(Seat),
    /// It listens, and that is posted.
    Held,
}

/// An endpoint of a service.
#[derive(Drop)]
pub(crate) struct Endpoint {
    pub service: u32,
    pub number: u32,
    /// The first address that its text resolves to.
    pub address: Option<SocketAddr>,
    pub state: EndpointState,
    /// The descriptor that it has.
    pub fd: Option<u64>,
    /// Before this moment, in milliseconds, nothing is accepted.
    pub rests_until: u64,
    /// So many of its accept loops were said to have ended.
    pub ended: u64,
}

/// Where the endpoint stands.
pub(crate) fn place_of(endpoints: &[Endpoint], service: u32, number: u32) -> Option<usize>
    ensures { IfSome result (λ at. at < length endpoints.now) }
{
    endpoints.iter().position(|endpoint| endpoint.service == service && endpoint.number == number)
}

/// Each endpoint of the service listens, and that is posted: so the service serves.
pub(crate) fn is_serving(endpoints: &[Endpoint], service: u32) -> bool {
    endpoints.iter().all(|endpoint| endpoint.service != service
        || endpoint.state == EndpointState::Held)
}

/// The first address that a text resolves to.
fn resolved<R: Net>(rt: &R, text: &str) -> Option<SocketAddr> {
    match text.to_socket_addrs(rt) {
        Ok(mut found) => found.next(),
        Err(_) => None,
    }
}

/// Adds the endpoints of a service. A Unix path resolves to no address.
fn add_endpoints<R: Net>(
    rt: &R,
    endpoints: &mut Vec<Endpoint>,
    service: u32,
    plan: &ServicePlan,
) -> Result<(), NoMemory> {
    let mut number = 0u32;
    for endpoint in plan.endpoints.as_slice() {
        let address = if endpoint.unix {
            None
        } else {
            resolved(rt, endpoint.address.as_str())
        };
        endpoints.push(Endpoint {
            service,
            number,
            address,
            state: EndpointState::Idle,
            fd: None,
            rests_until: 0,
            ended: 0,
        })?;
        number = number.saturating_add(1);
    }
    Ok(())
}

/// Adds the endpoints of a plan.
pub(crate) fn add_all<R: Net>(
    rt: &R,
    endpoints: &mut Vec<Endpoint>,
    plan: &Plan,
) -> Result<(), NoMemory> {
    let mut service = 0u32;
    for one in plan.services.as_slice() {
        add_endpoints(rt, endpoints, service, one)?;
        service = service.saturating_add(1);
    }
    Ok(())
}

impl Endpoint {
    /// This is to be told.
    pub fn answer(&mut self, answer: EndpointAnswer)
        ensures { self.new ≡ record self.old { state = EndpointState.Due answer; fd = descriptor_by answer self.old.fd } }
    {
        if let EndpointAnswer::Bound(fd) = answer {
            self.fd = Some(fd);
        }
        self.state = EndpointState::Due(answer);
    }

    /// The event of an accept loop that ends.
    pub fn end_loop(&mut self) -> Event
        ensures event { result ≡ Event.LoopEnded self.old.service self.old.number self.old.ended }
        ensures next { self.new ≡ record self.old { ended = number_behind self.old.ended } }
    {
        let number = self.ended;
        self.ended = number.saturating_add(1);
        Event::LoopEnded(self.service, self.number, number)
    }

    /// Tells the answer, as an event, to a seat.
    fn tell(&mut self, seat: Seat, answer: EndpointAnswer) -> Event
        ensures event { result ≡ endpoint_event self.old.service self.old.number answer }
        ensures told { (rest : SocketsData) → Tells result rest rest }
    {
        let (s, i) = (self.service, self.number);
        self.state = match answer {
            EndpointAnswer::Bound(_) | EndpointAnswer::Adopted => EndpointState::Telling(seat),
            _ => EndpointState::Idle,
        };
        match answer {
            EndpointAnswer::Bound(fd) => Event::Bound(s, i, fd),
            EndpointAnswer::InUse => Event::InUse(s, i),
            EndpointAnswer::BindFailed => Event::BindFailed(s, i),
            EndpointAnswer::Adopted => Event::Adopted(s, i),
            EndpointAnswer::AdoptFailed => Event::AdoptFailed(s, i),
        }
    }
}

/// The next answer of an endpoint.
pub(crate) fn next_answer(endpoints: &mut [Endpoint], seat: Seat) -> Option<Event>
    ensures { (rest : SocketsData) → TellsNext result rest rest }
{
    for endpoint in endpoints.iter_mut() {
        if let EndpointState::Due(answer) = endpoint.state {
            return Some(endpoint.tell(seat, answer));
        }
    }
    None
}

/// What the seat was told before is posted by now, since it asks again.
pub(crate) fn settle(endpoints: &mut [Endpoint], seat: Seat) {
    for endpoint in endpoints.iter_mut() {
        if endpoint.state == EndpointState::Telling(seat) {
            endpoint.state = EndpointState::Held;
        }
    }
}

/// The descriptor is closed.
pub(crate) fn forget(endpoints: &mut [Endpoint], fd: u64) {
    for endpoint in endpoints.iter_mut() {
        if endpoint.fd == Some(fd) {
            endpoint.fd = None;
        }
    }
}
