//! The sockets of one server, which its two desks share under a lock. Whatever the host has to answer is
//! a state of a row, and rows are made as the addresses are learned, as a connection comes and as a
//! letter is opened: so an action takes no memory.

ghost use Rattle.std.specs.Prelude.{◌≡◌, ◌<◌, [], ◌∷◌, ◌++◌, ◌⊎◌, ◌≢◌, false, length, slice_get, IsSome, IfSome, IfOk, IsOk, OnOk, OnErr, vec_len, vec_capacity};
ghost use Rattle.svc_sockets.specs.OpenSockets.{open_numbers, without};
ghost use Rattle.svc_sockets.specs.Peers.{peer_address};
ghost use Rattle.svc_sockets.specs.Seen.{endpoint_count, loop_count, seen};
ghost use Rattle.svc_sockets.specs.declared.connections.Connection.{Connection};
ghost use Rattle.svc_sockets.specs.Arrivals.{failed_at, arrived_at, IsNoteOf};
ghost use Rattle.svc_sockets.specs.SocketsData.{Tells, TellsNext, Performs, on_connections, refused, without_all};

use crate::connections::{Connection, ConnectionState};
use crate::descriptors::Descriptors;
use crate::endpoints::{Endpoint, EndpointAnswer};
use crate::offers::{MOST_HANDED, Offers};
use crate::slot::Slot;
use crate::streams::{Incoming, Outgoing};
use crate::{connections, endpoints};
use std::alloc::Global;
use std::io::ErrorKind;
use std::mem;
use std::mem::drop;
use std::net::{Net, SocketAddr, TcpListener, TcpStream};
use std::sync::{Mutex, Wait};
use std::time::{Clock, Instant};
use svc_base::NoMemory;
use svc_record::{Action, Event, ExecutionPhase, Plan};
use svc_socket::{Peer, PeerAddr};
use thiserror::Error;

/// So many milliseconds pass from one moment that is told to the next.
const MOMENT_EVERY: u64 = 100;

/// After so many milliseconds a moment is told again although the seat that has the last one didn't
/// ask again: it may have ended.
const MOMENT_LOST: u64 = 1000;

/// So many milliseconds an endpoint's accept loop rests.
const REST: u64 = 1000;

/// Which of a server's two workers asks.
#[derive(Clone, Copy, Debug, PartialEq, Eq)]
pub enum Seat {
    /// One of them.
    Left,
    /// The other.
    Right,
}

/// Why nothing could be told.
#[derive(Clone, Copy, Debug, PartialEq, Eq, Error)]
pub enum NextRefused {
    /// What was to be told is told at a later call.
    #[error("out of memory")]
    NoMemory,
    /// The clock failed.
    #[error("the clock failed")]
    Clock,
}

impl From<NoMemory> for NextRefused {
    ghost use Rattle.std.specs.Prelude.{◌≡◌};
    ghost use Rattle.svc_sockets.specs.declared.sockets.NextRefused.TheVariants.{NoMemory};

    ghost from_gives = { λ _ refused. refused ≡ NoMemory };

    fn from(_: NoMemory) -> Self {
        NextRefused::NoMemory
    }
}

/// The sockets of one server, and the numbers and states by which its record knows them.
#[derive(Drop)]
pub struct Sockets {
    alloc: Global,
    /// When the first call looked at the clock.
    start: Option<Instant>,
    /// The last moment that was told, in milliseconds since the start, and the seat that was told it and
    /// perhaps hasn't posted it yet.
    moment: u64,
    moment_with: Option<Seat>,
    /// How many accept loops an endpoint has.
    tasks: u64,
    endpoints: Vec<Endpoint>,
    descriptors: Descriptors,
    connections: Vec<Connection>,
    /// The number of the next connection.
    number: u64,
    /// Room for the next connection.
    spare: Option<Box<Outgoing>>,
    /// The endpoint that is looked at first for a connection.
    turn: usize,
    offers: Offers,
    is_draining: bool,
    has_ended: bool,
}

/// What one try to accept gave.
#[derive(Drop)]
pub enum Accepted {
    /// No connection is there.
    Nothing,
    /// A connection from this address.
    Came(TcpStream, SocketAddr),
    /// It failed with this error number.
    Failed(u32),
}

/// Tries once to accept a connection. The calls on its stream don't wait either.
pub fn accept(listener: &TcpListener) -> Accepted {
    match listener.accept() {
        Ok((stream, addr)) => {
            if stream.set_nonblocking(true).is_ok() {
                Accepted::Came(stream, addr)
            } else {
                Accepted::Nothing
            }
        }
        Err(error) => match error.kind() {
            ErrorKind::WouldBlock | ErrorKind::Interrupted | ErrorKind::ConnectionAborted => {
                Accepted::Nothing
            }
            _ => Accepted::Failed(
                error
                    .raw_os_error()
                    .map_or(0, |number| number.unsigned_abs()),
            ),
        },
    }
}

/// Who is at the other end, by the address.
pub fn peer_of(addr: SocketAddr) -> Peer
    ensures { result ≡ Peer.Inet (peer_address addr) }
{
    Peer::Inet(match addr {
        SocketAddr::V4(addr) => PeerAddr::V4 {
            ip: addr.ip().to_bits(),
            port: addr.port(),
        },
        SocketAddr::V6(addr) => PeerAddr::from_ip6(addr.ip().to_bits(), addr.port()),
    })
}

/// Binds the address and listens on it.
fn bind<R: Net<Listener = TcpListener, Stream = TcpStream>>(
    rt: &R,
    descriptors: &mut Descriptors,
    address: Option<SocketAddr>,
) -> EndpointAnswer
    ensures { (open_numbers descriptors.new ≡ open_numbers descriptors.old)
        ⊎ (open_numbers descriptors.new ≡ open_numbers descriptors.old ++ descriptors.old.next ∷ []) }
{
    let Some(address) = address else {
        return EndpointAnswer::BindFailed;
    };
    match TcpListener::bind(rt, address) {
        Ok(listener) => {
            let fd = descriptors.number();
            if listener.set_nonblocking(true).is_ok() && descriptors.add(fd, listener) {
                EndpointAnswer::Bound(fd)
            } else {
                EndpointAnswer::BindFailed
            }
        }
        Err(error) if error.kind() == ErrorKind::AddrInUse => EndpointAnswer::InUse,
        Err(_) => EndpointAnswer::BindFailed,
    }
}

/// The first endpoint whose service serves, of which some accept loop hasn't ended, and whose arrivals are
/// all posted.
fn loop_to_end(endpoints: &[Endpoint], connections: &[Connection], tasks: u64) -> Option<usize>
    ensures { IfSome result (λ at. at < length endpoints.now) }
{
    endpoints.iter().position(|endpoint| {
        endpoint.ended < tasks
            && endpoints::is_serving(endpoints, endpoint.service)
            && !connections::is_arriving(connections, endpoint.service, endpoint.number)
    })
}

impl Sockets {
    /// No sockets yet. It takes no memory.
    pub fn new(alloc: Global) -> Self
        ensures { seen result ≡ record {
          listeners = [];
          next_listener = 3;
          connections = [];
          next_connection = 1;
          moment = 0;
          is_draining = false;
          has_ended = false;
        } }
    {
        Sockets {
            alloc,
            start: None,
            moment: 0,
            moment_with: None,
            tasks: 0,
            endpoints: Vec::new(alloc),
            descriptors: Descriptors::new(alloc),
            connections: Vec::new(alloc),
            number: 1,
            spare: None,
            turn: 0,
            offers: Offers::new(alloc),
            is_draining: false,
            has_ended: false,
        }
    }

    /// Learns the addresses of a plan, looks each of them up, and makes room for their sockets and for as
    /// many as a letter hands over. A second call learns nothing new, and one without memory learns nothing.
    pub fn meet<R: Net>(&mut self, rt: &R, plan: &Plan) -> Result<(), NoMemory>
        ensures seen { seen self.new ≡ seen self.old }
        ensures again { 0 < endpoint_count self.old → IsOk result × self.new ≡ self.old }
        ensures loops { endpoint_count self.old ≡ 0 → loop_count self.new ≡ plan.now.tasks }
        ensures unmet { OnErr result (endpoint_count self.new ≡ 0) }
    {
        if !self.endpoints.is_empty() {
            return Ok(());
        }
        self.tasks = plan.tasks;
        self.offers.reserve()?;
        let mut endpoints = Vec::new(self.alloc);
        match self.learn(rt, plan, &mut endpoints) {
            Ok(()) => {
                drop(mem::replace(&mut self.endpoints, endpoints));
                Ok(())
            }
            Err(NoMemory) => {
                drop(endpoints);
                Err(NoMemory)
            }
        }
    }

    /// Lists the endpoints of a plan, and makes room for their sockets and for as many as a letter hands over.
    fn learn<R: Net>(
        &mut self,
        rt: &R,
        plan: &Plan,
        endpoints: &mut Vec<Endpoint>,
    ) -> Result<(), NoMemory>
        ensures seen { seen self.new ≡ seen self.old }
        ensures loops { loop_count self.new ≡ loop_count self.old }
        ensures endpoints { self.new.endpoints ≡ self.old.endpoints }
    {
        endpoints::add_all(rt, endpoints, plan)?;
        self.descriptors
            .reserve(endpoints.len().saturating_add(MOST_HANDED))
    }

    /// The server has ended, so nothing comes any more.
    pub fn has_ended(&self) -> bool
        ensures { result ≡ (seen self.now).has_ended }
    {
        self.has_ended
    }

    /// How many milliseconds have passed since the first call.
    fn now<R: Clock>(&mut self, rt: &R) -> Option<u64>
        ensures seen { seen self.new ≡ seen self.old }
    {
        let now = match Instant::now(rt) {
            Ok(now) => now,
            Err(_) => return None,
        };
        let start = match self.start {
            Some(start) => start,
            None => {
                self.start = Some(now);
                now
            }
        };
        let passed = now.duration_since(start).as_millis();
        Some(u64::try_from(passed).unwrap_or(u64::MAX).max(self.moment))
    }

    /// What the seat was told before is posted by now, since it asks again.
    fn settle(&mut self, seat: Seat)
        ensures { seen self.new ≡ seen self.old }
    {
        endpoints::settle(self.endpoints.as_mut_slice(), seat);
        connections::settle(self.connections.as_mut_slice(), seat);
        if self.moment_with == Some(seat) {
            self.moment_with = None;
        }
    }

    /// The time, where it is to be told again. One seat at a time is told it, so that two moments don't
    /// change places.
    fn next_moment(&mut self, seat: Seat, now: u64) -> Option<Event>
        ensures { TellsNext result (seen self.old) (seen self.new) }
    {
        let passed = now.saturating_sub(self.moment);
        let is_free = self.moment_with.is_none() || passed >= MOMENT_LOST;
        if passed < MOMENT_EVERY || !is_free {
            return None;
        }
        self.moment = now;
        self.moment_with = Some(seat);
        Some(Event::Moment(now))
    }

    /// Tries to accept at an endpoint that serves.
    fn accept_at(&self, at: usize, now: u64) -> Accepted {
        let Some(endpoint) = self.endpoints.get(at) else {
            return Accepted::Nothing;
        };
        let Some(fd) = endpoint.fd else {
            return Accepted::Nothing;
        };
        if now < endpoint.rests_until || !endpoints::is_serving(&self.endpoints, endpoint.service) {
            return Accepted::Nothing;
        }
        match self.descriptors.get(fd) {
            Some(listener) => accept(listener),
            None => Accepted::Nothing,
        }
    }

    /// Tries to accept at each endpoint that serves, from the one whose turn it is, up to the first at which
    /// something comes. Answers that endpoint's place.
    fn accept_in_turn(&self, now: u64) -> (usize, Accepted)
        ensures { result.1 ≢ Accepted.Nothing → result.0 < vec_len self.now.endpoints }
    {
        let count = self.endpoints.len();
        for k in 0..count {
            let at = self.turn.wrapping_add(k) % count;
            match self.accept_at(at, now) {
                Accepted::Nothing => {}
                accepted => return (at, accepted),
            }
        }
        (0, Accepted::Nothing)
    }

    /// The event of a failed accept. The endpoint waits a little before the next try.
    fn accept_failed(&mut self, at: usize, number: u32, now: u64) -> Event
        requires place { at < vec_len self.old.endpoints }
        requires accepts { self.old.is_draining ≡ false }
        ensures event { IfSome (slice_get self.old.endpoints.items at) (λ endpoint. result ≡ failed_at number endpoint) }
        ensures told { Tells result (seen self.old) (seen self.new) }
    {
        let endpoint = &mut self.endpoints[at];
        endpoint.rests_until = now.saturating_add(MOMENT_EVERY);
        Event::AcceptFailed(endpoint.service, endpoint.number, number)
    }

    /// The event of a connection that came. Room for it is made before.
    fn admit(&mut self, seat: Seat, at: usize, stream: TcpStream, addr: SocketAddr) -> Event
        requires place { at < vec_len self.old.endpoints }
        requires accepts { self.old.is_draining ≡ false }
        requires room { vec_len self.old.connections < vec_capacity self.old.connections }
        requires spare { IsSome self.old.spare }
        ensures event { IfSome (slice_get self.old.endpoints.items at) (λ endpoint. result ≡ arrived_at self.old.number (peer_address addr) endpoint) }
        ensures row { (c : Connection) × (self.new.connections.items ≡ self.old.connections.items ++ c ∷ [])
            × IsNoteOf c result }
        ensures told { Tells result (seen self.old) (seen self.new) }
    {
        let endpoint = &self.endpoints[at];
        let (service, number) = (endpoint.service, endpoint.number);
        let Some(outgoing) = self.spare.take() else {
            unreachable!()
        };
        let c = self.number;
        self.number = c.saturating_add(1);
        let incoming = Incoming {
            stream,
            count: 0,
            waits: false,
        };
        let connection = Connection {
            number: c,
            service,
            endpoint: number,
            state: ConnectionState::Arriving(seat),
            incoming,
            outgoing,
        };
        self.connections.push_reserved(connection);
        Event::Arrived(service, number, c, peer_of(addr))
    }

    /// Makes room for one connection.
    fn prepare(&mut self) -> Result<(), NoMemory>
        ensures seen { seen self.new ≡ seen self.old }
        ensures endpoints { self.new.endpoints ≡ self.old.endpoints }
        ensures room { OnOk result (vec_len self.new.connections < vec_capacity self.new.connections) }
        ensures spare { OnOk result (IsSome self.new.spare) }
    {
        self.connections.reserve(1)?;
        if self.spare.is_none() {
            self.spare = Some(Box::new(self.alloc, Outgoing::new())?);
        }
        Ok(())
    }

    /// A connection that came, or an accept that failed. From the broadcast on none is accepted: what waits
    /// is for a successor, if there is one.
    fn next_arrival(&mut self, seat: Seat, now: u64) -> Result<Option<Event>, NoMemory>
        ensures told { IfOk result (λ event. TellsNext event (seen self.old) (seen self.new)) }
        ensures stays { OnErr result (seen self.new ≡ seen self.old) }
    {
        if self.is_draining {
            return Ok(None);
        }
        self.prepare()?;
        match self.accept_in_turn(now) {
            (_, Accepted::Nothing) => Ok(None),
            (at, Accepted::Failed(number)) => Ok(Some(self.accept_failed(at, number, now))),
            (at, Accepted::Came(stream, addr)) => {
                self.turn = at.wrapping_add(1);
                Ok(Some(self.admit(seat, at, stream, addr)))
            }
        }
    }

    /// What an endpoint or a connection answers.
    fn next_answer(&mut self, seat: Seat) -> Option<Event>
        ensures { TellsNext result (seen self.old) (seen self.new) }
    {
        if let Some(event) = endpoints::next_answer(self.endpoints.as_mut_slice(), seat) {
            return Some(event);
        }
        connections::next_served(&mut self.connections)
    }

    /// The end of an accept loop, where one is to be told. They end from the broadcast on.
    fn next_end(&mut self) -> Option<Event>
        ensures { TellsNext result (seen self.old) (seen self.new) }
    {
        if !self.is_draining {
            return None;
        }
        match loop_to_end(&self.endpoints, &self.connections, self.tasks) {
            Some(at) => Some(self.endpoints[at].end_loop()),
            None => None,
        }
    }

    /// What is to be told of endpoints and connections.
    fn next_of_tables(&mut self, seat: Seat, now: u64) -> Result<Option<Event>, NoMemory>
        ensures told { IfOk result (λ event. TellsNext event (seen self.old) (seen self.new)) }
        ensures stays { OnErr result (seen self.new ≡ seen self.old) }
    {
        match self.next_answer(seat) {
            Some(event) => Ok(Some(event)),
            None => match self.next_arrival(seat, now)? {
                Some(event) => Ok(Some(event)),
                None => Ok(self.next_end()),
            },
        }
    }

    /// The answer to an offer or what was received, and else what is to be told of the tables.
    fn next_of_offers(&mut self, seat: Seat, now: u64) -> Result<Option<Event>, NoMemory>
        ensures told { IfOk result (λ event. TellsNext event (seen self.old) (seen self.new)) }
        ensures stays { OnErr result (seen self.new ≡ record (seen self.old) { next_listener = (seen self.new).next_listener }) }
    {
        match self.offers.next(&mut self.descriptors)? {
            Some(event) => Ok(Some(event)),
            None => self.next_of_tables(seat, now),
        }
    }

    /// What is to be told next at this moment.
    fn next_at(&mut self, seat: Seat, now: u64) -> Result<Option<Event>, NoMemory>
        ensures told { IfOk result (λ event. TellsNext event (seen self.old) (seen self.new)) }
        ensures stays { OnErr result (seen self.new ≡ record (seen self.old) { next_listener = (seen self.new).next_listener }) }
    {
        match self.next_moment(seat, now) {
            Some(event) => Ok(Some(event)),
            None => self.next_of_offers(seat, now),
        }
    }

    /// What is to be told next, if anything is. It doesn't wait.
    pub fn next<R: Clock>(&mut self, rt: &R, seat: Seat) -> Result<Option<Event>, NextRefused>
        ensures told { IfOk result (λ event. TellsNext event (seen self.old) (seen self.new)) }
        ensures stays { OnErr result (seen self.new ≡ record (seen self.old) { next_listener = (seen self.new).next_listener }) }
    {
        self.settle(seat);
        let Some(now) = self.now(rt) else {
            return Err(NextRefused::Clock);
        };
        Ok(self.next_at(seat, now)?)
    }

    fn bind_at<R: Net<Listener = TcpListener, Stream = TcpStream>>(
        &mut self,
        rt: &R,
        service: u32,
        number: u32,
    )
        ensures { Performs (Action.Bind service number) (seen self.old) (seen self.new) }
    {
        let Some(at) = endpoints::place_of(&self.endpoints, service, number) else {
            return;
        };
        let answer = bind(rt, &mut self.descriptors, self.endpoints[at].address);
        self.endpoints[at].answer(answer);
    }

    fn adopt_at(&mut self, service: u32, number: u32, fd: u64)
        ensures { seen self.new ≡ seen self.old }
    {
        let Some(at) = endpoints::place_of(&self.endpoints, service, number) else {
            return;
        };
        if self.descriptors.is_open(fd) {
            self.endpoints[at].fd = Some(fd);
            self.endpoints[at].answer(EndpointAnswer::Adopted);
        } else {
            self.endpoints[at].answer(EndpointAnswer::AdoptFailed);
        }
    }

    fn rest_at<R: Clock>(&mut self, rt: &R, service: u32, number: u32)
        ensures { seen self.new ≡ seen self.old }
    {
        let Some(now) = self.now(rt) else {
            return;
        };
        if let Some(at) = endpoints::place_of(&self.endpoints, service, number) {
            self.endpoints[at].rests_until = now.saturating_add(REST);
        }
    }

    fn close(&mut self, fd: u64)
        ensures { seen self.new ≡ record (seen self.old) { listeners = without fd (seen self.old).listeners } }
    {
        self.descriptors.close(fd);
        endpoints::forget(self.endpoints.as_mut_slice(), fd);
    }

    /// Performs an action of a connection.
    fn perform_on_connection(&mut self, action: &Action)
        ensures { seen self.new ≡ on_connections action.now (seen self.old) }
    {
        let connections = &mut self.connections;
        match action {
            Action::Settings(c, list) => {
                connections::set_options(connections.as_mut_slice(), *c, list.as_slice());
            }
            Action::Handshake(c) => {
                connections::set_state(connections.as_mut_slice(), *c, ConnectionState::Shaken);
            }
            Action::Serve(c) => {
                connections::set_state(connections.as_mut_slice(), *c, ConnectionState::Serving);
            }
            Action::Refuse(c) | Action::Drop(c) | Action::Cut(c) => {
                connections::drop_one(connections, *c);
            }
            _ => {}
        }
    }

    /// Performs an action of a handover.
    fn perform_at_slot(&mut self, slot: &mut Slot<TcpListener>, action: &Action)
        ensures { seen self.new ≡ seen self.old }
    {
        match action {
            Action::OpenReceiver => {
                let _ = slot.open();
            }
            Action::TryReceive => self.offers.receive(slot),
            Action::Connect => self.offers.connect(slot),
            Action::Send(bytes, fds) => {
                self.offers
                    .send(slot, &self.descriptors, bytes.as_slice(), fds.as_slice());
            }
            _ => {}
        }
    }

    /// Performs an action. It takes no memory. What concerns a process or a service's own work alone asks
    /// nothing of sockets.
    pub fn perform<R: Wait + Net<Listener = TcpListener, Stream = TcpStream> + Clock>(
        &mut self,
        rt: &R,
        slot: &Mutex<Slot<TcpListener>>,
        action: &Action,
    )
        ensures { Performs action.now (seen self.old) (seen self.new) }
    {
        match action {
            Action::Bind(s, i) => self.bind_at(rt, *s, *i),
            Action::Adopt(s, i, fd) => self.adopt_at(*s, *i, *fd),
            Action::Close(fd) => self.close(*fd),
            Action::Rest(s, i) => self.rest_at(rt, *s, *i),
            Action::Broadcast => self.is_draining = true,
            Action::Phase(ExecutionPhase::Terminated, _) => self.has_ended = true,
            Action::OpenReceiver | Action::TryReceive | Action::Connect | Action::Send(_, _) => {
                self.perform_at_slot(&mut slot.lock(rt), action);
            }
            _ => self.perform_on_connection(action),
        }
    }

    fn close_all(&mut self, fds: &[u64])
        ensures { seen self.new ≡ record (seen self.old) { listeners = without_all fds.now (seen self.old).listeners } }
    {
        for fd in fds {
            self.close(*fd);
        }
    }

    /// Takes back an event that wasn't posted: what it brought is dropped.
    pub fn refuse(&mut self, event: &Event)
        ensures { seen self.new ≡ refused event.now (seen self.old) }
    {
        match event {
            Event::Arrived(_, _, c, _) => connections::drop_one(&mut self.connections, *c),
            Event::Bound(_, _, fd) => self.close(*fd),
            Event::Received(_, fds) => self.close_all(fds.as_slice()),
            Event::Moment(_) => self.moment_with = None,
            _ => {}
        }
    }
}
