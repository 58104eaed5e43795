//! The operating system's side of one server: what is told is performed on its sockets, and what comes
//! of them is given as events.

ghost use Rattle.std.specs.Prelude.{◌≡◌, ◌≤◌, true, false, length, None, IsSome, IfSome};
ghost use Rattle.svc_record.specs.declared.entry.Entry.TheVariants.{Got};
ghost use Rattle.svc_record.specs.Descriptors.{numbers_of};
ghost use Rattle.svc_system.specs.Offers.{is_offered};
ghost use Rattle.svc_system.specs.Answering.{says_listening, Answers, AnswersAlone, AnswersAdopt, AnswersBind, AnswersOnConnection, AnswersOnEndpoint};
ghost use Rattle.svc_system.specs.Given.{GivesFew, GivesFewItem};

mod handing;
mod opening;

use crate::address::Address;
use crate::connections::{Connections, Turn};
use crate::endpoints::Endpoints;
use crate::handover::Taking;
use crate::inherited::Inherited;
use crate::listeners::{BindRefused, Bound, Came, Listeners, Socket};
use crate::offer::Offer;
use crate::operators::{Admitted, Operators};
use crate::readiness::Readiness;
use crate::report::{LogState, Report, SocketCounts};
use crate::times::{Times, sooner};
use crate::tokens::Ready;
pub use opening::OpenRefused;
use std::alloc::Global;
use std::fs::File;
use std::mem;
use std::mem::drop;
use std::net::{Net, TcpListener, TcpStream};
use std::rt::Files;
use std::time::Clock;
use svc_base::{NoMemory, Text};
use svc_record::{Action, Event, ExecutionPhase, Item, ShutdownSignal};
use svc_socket::Peer;

/// The error number of want of memory.
const NO_MEMORY: u32 = 12;

/// So many milliseconds an accept loop rests that is told to.
const REST: u64 = 1000;

/// So many milliseconds an accept loop rests after a failure.
const PAUSE: u64 = 100;

/// An event that was found and not given yet.
#[derive(Drop)]
struct Found {
    event: Event,
    ghost few: { length (numbers_of (Got event)) ≤ 32 },
}

/// What one look gave.
enum Look {
    Event(Event),
    Nothing,
    Failed,
}

/// The sockets, the connections, the operators and the time of one server.
#[derive(Drop)]
pub struct System<
    'a,
    R: Net<Listener = TcpListener, Stream = TcpStream> + Files<File = File> + Clock,
> {
    rt: &'a R,
    alloc: Global,
    readiness: Readiness,
    times: Times,
    endpoints: Endpoints,
    listeners: Listeners,
    connections: Connections,
    operators: Operators,
    phase: ExecutionPhase,
    /// What operators asked for and wasn't given yet.
    signal: Option<ShutdownSignal>,
    found: Option<Found>,
    /// So many connections could not go on to where their service forwards.
    failed_connects: u64,
    log: LogState,
    is_draining: bool,
    /// Every service was given up, and the server was asked to end.
    is_forsaken: bool,
    has_ended: bool,
    /// Memory was refused for what is ready, or the system can't be asked.
    has_failed: bool,
    /// The older server whose sockets are taken over, until they came.
    taking: Option<Taking>,
    /// How far an upgrade is.
    offer: Offer,
    /// An operator asked for an upgrade, and no moment was told since.
    is_asked: bool,
    /// The sockets that the program was started with, as far as no endpoint has them.
    inherited: Inherited,
}

/// The path that goes with an address.
fn path_of(alloc: Global, address: &Address) -> Result<Option<Text>, NoMemory> {
    match address {
        Address::Unix(path) => Ok(Some(path.copy(alloc)?)),
        _ => Ok(None),
    }
}

/// What listens at an address from now on: a socket that the program was started with, whose path is its maker's, or a new
/// one with the path that goes with it.
fn bound_at<R: Net<Listener = TcpListener, Stream = TcpStream> + Files>(
    rt: &R,
    alloc: Global,
    inherited: &mut Inherited,
    address: &Address,
) -> Result<Bound, BindRefused> {
    if let Some(socket) = inherited.take(address) {
        return Ok(Bound::new(alloc, socket, None)?);
    }
    let path = path_of(alloc, address)?;
    match Socket::bind(rt, address) {
        Ok(socket) => Ok(Bound::new(alloc, socket, path)?),
        Err(refused) => {
            drop(path);
            Err(refused)
        }
    }
}

/// Has something listen at an address, and adds it.
fn bind<R: Net<Listener = TcpListener, Stream = TcpStream> + Files>(
    rt: &R,
    alloc: Global,
    listeners: &mut Listeners,
    inherited: &mut Inherited,
    address: &Address,
) -> Result<u64, BindRefused> {
    match bound_at(rt, alloc, inherited, address) {
        Ok(bound) => Ok(listeners.add(bound)?),
        Err(refused) => Err(refused),
    }
}

impl<'a, R: Net<Listener = TcpListener, Stream = TcpStream> + Files<File = File> + Clock> System<
    'a,
    R,
> {
    /// Every service was given up, so the system itself asked the server to end.
    pub fn is_forsaken(&self) -> bool
        ensures { result ≡ self.now.is_forsaken }
    {
        self.is_forsaken
    }

    /// The server has ended: the control address is free again.
    pub fn close(&self) {
        self.operators.close(self.rt);
    }

    /// The program was started with these sockets: where one of them listens at an endpoint's address, the endpoint has it
    /// in place of a new one, the first time that it is bound. Those of no endpoint are closed; answers how many.
    pub fn inherit(&mut self, inherited: Inherited) -> usize
        ensures offer { self.new.offer ≡ self.old.offer }
        ensures listeners { self.new.listeners ≡ self.old.listeners }
    {
        let count = inherited.rows.len();
        self.inherited = inherited;
        let endpoints = &self.endpoints;
        self.inherited
            .rows
            .retain(|row| endpoints.have(row.address()));
        count.saturating_sub(self.inherited.rows.len())
    }

    /// It has its turn at once.
    fn wake(&mut self, ready: Ready)
        ensures offer { self.new.offer ≡ self.old.offer }
        ensures listeners { self.new.listeners ≡ self.old.listeners }
    {
        if self.readiness.again(ready).is_err() {
            self.has_failed = true;
        }
    }

    /// The socket of the endpoint in this place has its turn.
    fn wake_endpoint(&mut self, at: usize)
        ensures offer { self.new.offer ≡ self.old.offer }
        ensures listeners { self.new.listeners ≡ self.old.listeners }
    {
        let fd = match self.endpoints.rows.get(at) {
            Some(row) => row.fd,
            None => None,
        };
        if let Some(fd) = fd {
            self.wake(Ready::Listener(fd));
        }
    }

    /// The sockets of all endpoints have their turn.
    fn wake_all(&mut self)
        ensures offer { self.new.offer ≡ self.old.offer }
        ensures listeners { self.new.listeners ≡ self.old.listeners }
    {
        for at in 0..self.endpoints.rows.len() {
            self.wake_endpoint(at);
        }
    }

    /// What the bind of an endpoint gives.
    fn bind(&mut self, service: u32, number: u32) -> Event
        ensures few { length (numbers_of (Got result)) ≤ 32 }
        ensures answers { AnswersBind service number result }
    {
        let Some(at) = self.endpoints.place(service, number) else {
            return Event::BindFailed(service, number);
        };
        let Some(row) = self.endpoints.rows.get(at) else {
            return Event::BindFailed(service, number);
        };
        match bind(
            self.rt,
            self.alloc,
            &mut self.listeners,
            &mut self.inherited,
            &row.address,
        ) {
            Ok(fd) => self.opened(at, service, number, fd),
            Err(BindRefused::InUse) => Event::InUse(service, number),
            Err(BindRefused::Failed) => Event::BindFailed(service, number),
        }
    }

    /// A socket listens for the endpoint in this place.
    fn opened(&mut self, at: usize, service: u32, number: u32, fd: u64) -> Event
        ensures few { length (numbers_of (Got result)) ≤ 32 }
        ensures answers { AnswersBind service number result }
    {
        if !self.listeners.watch(&self.readiness, fd) {
            self.listeners.close(self.rt, &self.readiness, fd);
            return Event::BindFailed(service, number);
        }
        self.endpoints.give(at, fd);
        Event::Bound(service, number, fd)
    }

    /// What the endpoint says of a socket that it is offered.
    fn adopt(&mut self, service: u32, number: u32, fd: u64) -> Event
        ensures few { length (numbers_of (Got result)) ≤ 32 }
        ensures answers { AnswersAdopt service number result }
    {
        match self.endpoints.place(service, number) {
            Some(at) if self.listeners.watch(&self.readiness, fd) => {
                self.endpoints.give(at, fd);
                Event::Adopted(service, number)
            }
            _ => Event::AdoptFailed(service, number),
        }
    }

    /// Closes a listening socket.
    fn close_listener(&mut self, fd: u64) {
        self.listeners.close(self.rt, &self.readiness, fd);
        self.endpoints.forget(fd);
    }

    /// An accept loop rests for so many milliseconds.
    fn rest(&mut self, at: usize, ms: u64) {
        let until = self.times.now.saturating_add(ms);
        self.endpoints.rest(at, until);
        self.times.rests = sooner(self.times.rests, until);
    }

    fn rest_endpoint(&mut self, service: u32, number: u32) {
        if let Some(at) = self.endpoints.place(service, number) {
            self.rest(at, REST);
        }
    }

    /// The server is in this phase from now on.
    fn enter(&mut self, phase: ExecutionPhase) {
        self.phase = phase;
        if let ExecutionPhase::Terminated = phase {
            self.has_ended = true;
        }
    }

    /// The service is given up. Where none is left, nothing can be served any more, and the server is asked to
    /// end at once.
    fn fail(&mut self, service: u32) {
        self.endpoints.fail(service);
        if !self.is_forsaken && self.endpoints.have_failed() {
            self.is_forsaken = true;
            self.signal = Some(ShutdownSignal::FastShutdown);
        }
    }

    /// One more connection can't go on.
    fn count_failed_connect(&mut self) {
        self.failed_connects = self.failed_connects.saturating_add(1);
    }

    /// The application has the connection. One that can't be watched, or can't go on to where its service
    /// forwards, is done with at once.
    fn serve(&mut self, c: u64) -> Option<Event>
        ensures few { IfSome result (λ e. length (numbers_of (Got e)) ≤ 32) }
        ensures answers { IfSome result (λ e. e ≡ Event.Finished c) }
    {
        let target = self.endpoints.target(self.connections.service(c));
        let is_forwarded = target.is_some();
        let is_served = self.connections.serve(self.rt, c, target, &self.readiness);
        if is_served {
            return None;
        }
        if is_forwarded {
            self.count_failed_connect();
        }
        self.connections.remove(c);
        Some(Event::Finished(c))
    }

    /// Performs an action of a connection. Gives the answer, if the action asks for one.
    fn perform_on_connection(&mut self, action: &Action) -> Option<Event>
        ensures few { IfSome result (λ e. length (numbers_of (Got e)) ≤ 32) }
        ensures answers { AnswersOnConnection action.now result }
    {
        match action {
            Action::Settings(c, list) => {
                Some(Event::Set(*c, self.connections.set(*c, list.as_slice())))
            }
            Action::Handshake(c) => Some(Event::Shaken(*c, true)),
            Action::Serve(c) => self.serve(*c),
            Action::Refuse(c) | Action::Drop(c) | Action::Cut(c) => {
                self.connections.remove(*c);
                None
            }
            _ => None,
        }
    }

    /// The service is to be started: what it says at once.
    fn start(&mut self, service: u32) -> Option<Event>
        ensures few { IfSome result (λ e. length (numbers_of (Got e)) ≤ 32) }
        ensures answers { IfSome result (λ e. e ≡ Event.Ready service) }
    {
        let answer = self.endpoints.start(service, self.times.now);
        self.times.readies = self.endpoints.next_ready();
        answer
    }

    /// Performs an action on endpoints and services. Gives the answer, if the action asks for one.
    fn perform_on_endpoint(&mut self, action: &Action) -> Option<Event>
        ensures few { IfSome result (λ e. length (numbers_of (Got e)) ≤ 32) }
        ensures answers { AnswersOnEndpoint action.now result }
    {
        match action {
            Action::Start(s) => self.start(*s),
            Action::Fail(s) => {
                self.fail(*s);
                None
            }
            Action::Bind(s, i) => Some(self.bind(*s, *i)),
            Action::Adopt(s, i, fd) => Some(self.adopt(*s, *i, *fd)),
            Action::Close(fd) => {
                self.close_listener(*fd);
                None
            }
            Action::Rest(s, i) => {
                self.rest_endpoint(*s, *i);
                None
            }
            _ => self.perform_on_connection(action),
        }
    }

    /// Performs an action. Gives the answer, if the action asks for one.
    pub fn perform(&mut self, action: &Action) -> Option<Event>
        ensures few { IfSome result (λ e. length (numbers_of (Got e)) ≤ 32) }
        ensures answers { Answers action.now result }
        ensures alone { self.old.taking ≡ None → is_offered self.old.offer ≡ false → AnswersAlone action.now result }
    {
        match action {
            Action::OpenReceiver | Action::TryReceive | Action::Connect | Action::Send(_, _) => {
                self.perform_on_handover(action)
            }
            Action::Phase(phase, _) => {
                self.enter(*phase);
                None
            }
            Action::Broadcast => {
                self.is_draining = true;
                None
            }
            _ => self.perform_on_endpoint(action),
        }
    }

    /// An endpoint of the service was told to listen. Where the service serves from now on, its sockets have
    /// their turn, since connections may have come before.
    fn hold(&mut self, service: u32)
        ensures offer { self.new.offer ≡ self.old.offer }
        ensures listeners { self.new.listeners ≡ self.old.listeners }
    {
        if self.endpoints.hold(service) {
            self.wake_all();
        }
    }

    /// This answer is given to the server now.
    pub fn give(&mut self, answer: &Event)
        ensures others { says_listening answer.now ≡ false → self.new ≡ self.old }
        ensures offer { self.new.offer ≡ self.old.offer }
        ensures listeners { self.new.listeners ≡ self.old.listeners }
    {
        if let Event::Bound(s, _, _) | Event::Adopted(s, _) = answer {
            self.hold(*s);
        }
    }

    /// Before this moment, in milliseconds, none tells the server anything: so it isn't told one where nothing
    /// else happens. None where only other events do.
    pub fn wait_until(&mut self, due: Option<u64>)
        ensures { self.new ≡ record self.old { times = record self.old.times { due = due } } }
    {
        self.times.due = due;
    }

    /// How the server is.
    fn report(&self) -> Report {
        let sockets = SocketCounts {
            listeners: self.listeners.count(),
            connections: self.connections.count(),
            failed_connects: self.failed_connects,
        };
        Report::new(
            self.phase,
            self.endpoints.services.as_slice(),
            sockets,
            self.log,
        )
    }

    /// Is told what became of the record so far.
    pub fn tell_log(&mut self, log: LogState)
        ensures { self.new ≡ record self.old { log = log } }
    {
        self.log = log;
    }

    /// Takes the operators who came.
    fn admit_operators(&mut self) {
        match self.operators.admit(self.rt, &self.readiness) {
            Admitted::All => {}
            Admitted::Some => self.wake(Ready::Control),
            Admitted::Failed => {
                let until = self.times.now.saturating_add(PAUSE);
                self.times.rests = sooner(self.times.rests, until);
            }
        }
    }

    /// Takes what an operator says.
    fn hear(&mut self, place: usize) {
        let report = self.report();
        let heard = self.operators.hear(self.rt, self.alloc, place, &report);
        if let Some(signal) = heard.signal {
            self.signal = Some(signal);
        }
        if heard.more {
            self.wake(Ready::Operator(place));
        }
        if heard.is_gone {
            self.wake(Ready::Control);
        }
        if heard.asks {
            self.hear_upgrade(place);
        }
    }

    /// An accept at the endpoint in this place failed with this error number. It rests a little.
    fn accept_failed(&mut self, at: usize, number: u32) -> Look
        ensures { GivesFew result }
    {
        self.rest(at, PAUSE);
        match self.endpoints.rows.get(at) {
            Some(row) => Look::Event(Event::AcceptFailed(row.service, row.number, number)),
            None => Look::Nothing,
        }
    }

    /// A connection came at the endpoint in this place.
    fn admit(&mut self, at: usize, stream: TcpStream, peer: Peer) -> Look
        ensures { GivesFew result }
    {
        let Some(row) = self.endpoints.rows.get(at) else {
            drop(stream);
            return Look::Nothing;
        };
        match self.connections.add(row.service, stream, peer) {
            Ok(c) => Look::Event(Event::Arrived(row.service, row.number, c, peer)),
            Err(NoMemory) => self.accept_failed(at, NO_MEMORY),
        }
    }

    /// Accepts a connection at the endpoint in this place, which listens on this socket.
    fn accept_at(&mut self, at: usize, fd: u64) -> Look
        ensures { GivesFew result }
    {
        let came = match self.listeners.get(fd) {
            Some(bound) => bound.socket.accept(),
            None => Came::Nothing,
        };
        match came {
            Came::Nothing => Look::Nothing,
            Came::Gone => {
                self.wake(Ready::Listener(fd));
                Look::Nothing
            }
            Came::Failed(number) => self.accept_failed(at, number),
            Came::Connection(stream, peer) => {
                self.wake(Ready::Listener(fd));
                self.admit(at, stream, peer)
            }
        }
    }

    /// Accepts a connection on this socket. From the broadcast on none is accepted: what waits is for
    /// a successor, if there is one.
    fn accept(&mut self, fd: u64) -> Look
        ensures { GivesFew result }
    {
        if self.is_draining {
            return Look::Nothing;
        }
        match self.endpoints.accepting(fd, self.times.now) {
            Some(at) => self.accept_at(at, fd),
            None => Look::Nothing,
        }
    }

    /// A connection has its turn.
    fn turn_connection(&mut self, c: u64) -> Look
        ensures { GivesFew result }
    {
        match self.connections.turn(c) {
            Turn::Waits => Look::Nothing,
            Turn::More => {
                self.wake(Ready::Connection(c));
                Look::Nothing
            }
            Turn::Over => self.finish(c),
            Turn::Unconnected => {
                self.count_failed_connect();
                self.finish(c)
            }
        }
    }

    /// The application is done with a connection.
    fn finish(&mut self, c: u64) -> Look
        ensures { GivesFew result }
    {
        self.connections.remove(c);
        Look::Event(Event::Finished(c))
    }

    /// What is ready has its turn.
    fn turn(&mut self, ready: Ready) -> Look
        ensures { GivesFew result }
    {
        match ready {
            Ready::Control => {
                self.admit_operators();
                Look::Nothing
            }
            Ready::Operator(place) => {
                self.hear(place);
                Look::Nothing
            }
            Ready::Listener(fd) => self.accept(fd),
            Ready::Connection(c) => self.turn_connection(c),
        }
    }

    /// All sockets at which something comes have their turn where a rest is over.
    fn end_rests(&mut self) {
        if self.times.have_rested() {
            self.times.rests = self.endpoints.next_rest(self.times.now);
            self.wake_all();
            self.wake(Ready::Control);
        }
    }

    /// Tells the moment.
    fn tell_moment(&mut self) -> Look
        ensures { GivesFew result }
    {
        Look::Event(Event::Moment(self.times.tell()))
    }

    /// Waits for the system. Tells the moment, where it is to be told.
    fn wait(&mut self) -> Look
        ensures { GivesFew result }
    {
        if !self.readiness.wait(self.times.until_due()) || !self.times.read(self.rt) {
            return Look::Failed;
        }
        self.end_rests();
        self.look_for_newer();
        if self.times.is_due(!self.readiness.is_empty()) {
            return self.tell_moment();
        }
        Look::Nothing
    }

    /// What a service says that is ready by now.
    fn next_ready(&mut self) -> Option<Event>
        ensures { IfSome result (λ e. length (numbers_of (Got e)) ≤ 32) }
    {
        if !self.times.are_ready() {
            return None;
        }
        let event = self.endpoints.take_ready(self.times.now);
        self.times.readies = self.endpoints.next_ready();
        event
    }

    /// What an operator asked for, the moment where that was an upgrade, that a service is ready, or the end of an accept loop from the broadcast on.
    fn pending(&mut self) -> Option<Event>
        ensures { IfSome result (λ e. length (numbers_of (Got e)) ≤ 32) }
    {
        if let Some(signal) = self.signal.take() {
            return Some(Event::Signal(signal));
        }
        if mem::replace(&mut self.is_asked, false) {
            return Some(Event::Moment(self.times.tell()));
        }
        if let Some(event) = self.next_ready() {
            return Some(event);
        }
        if self.is_draining {
            self.endpoints.next_end()
        } else {
            None
        }
    }

    /// Looks once.
    fn look(&mut self) -> Look
        ensures { GivesFew result }
    {
        if self.has_failed {
            return Look::Failed;
        }
        if let Some(event) = self.pending() {
            return Look::Event(event);
        }
        match self.readiness.next() {
            Some(ready) => self.turn(ready),
            None => self.wait(),
        }
    }

    /// Nothing is ready, and nothing is to be told: what comes next has to be waited for.
    pub fn is_at_rest(&self) -> bool
        ensures signal { result ≡ true → self.now.signal ≡ None }
        ensures found { result ≡ true → self.now.found ≡ None }
    {
        self.readiness.is_empty() && self.signal.is_none() && self.found.is_none()
    }

    /// Looks once, and keeps what that gives.
    fn look_ahead(&mut self) {
        match self.look() {
            Look::Event(event) => self.found = Some(Found { event }),
            Look::Failed => self.has_failed = true,
            Look::Nothing => {}
        }
    }

    /// There is something to give, or nothing is ready.
    fn is_ahead(&self) -> bool
        ensures ended { self.now.has_ended ≡ true → result ≡ true }
        ensures found { IsSome self.now.found → result ≡ true }
    {
        self.has_ended || self.has_failed || self.found.is_some() || self.is_at_rest()
    }

    /// What is ready has its turn, until there is something to give or nothing is ready. It doesn't wait.
    pub fn advance(&mut self)
        ensures ended { self.old.has_ended ≡ true → self.new ≡ self.old }
        ensures found { IsSome self.old.found → self.new ≡ self.old }
    {
        for _ in 0..u64::MAX {
            if self.is_ahead() {
                return;
            }
            self.look_ahead();
        }
    }

    /// What comes next. It waits until something does. None where the server has ended, and a fault where
    /// the clock failed or memory was refused for what is ready.
    pub fn next(&mut self) -> Option<Item>
        ensures { IfSome result GivesFewItem }
    {
        if self.has_ended {
            return None;
        }
        if let Some(found) = self.found.take() {
            return Some(Item::Event(found.event));
        }
        for _ in 0..u64::MAX {
            match self.look() {
                Look::Event(event) => return Some(Item::Event(event)),
                Look::Failed => return Some(Item::Fault),
                Look::Nothing => {}
            }
        }
        None
    }
}
