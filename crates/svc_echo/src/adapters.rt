//! A binder, and what accepts connections, over TCP sockets of std.

ghost use Rattle.std.specs.Prelude.{◌≡◌, ◌<◌, [], ◌∷◌, length, Some, IfOk, IfSome};
ghost use Rattle.svc_base.specs.Calls.{told_of, room_of, Adds, Stays};
ghost use Rattle.svc_listen.specs.BinderData.{outcome_of};

use std::alloc::Global;
use std::convert::AsStr;
use std::io::ErrorKind;
use std::net::{Net, TcpListener, TcpStream};
use std::thread;
use std::time::{Clock, Duration};
use svc_base::{Calls, NoMemory, Setting};
use svc_fds::Fd;
use svc_listen::{
    Accepting, AcceptingCall, Arrival, BindAnswer, BindOutcome, Binder, BinderCall, ServerAddress,
};
use svc_sockets::{Accepted, Descriptors, accept, peer_of};

/// The error number of want of memory.
const NO_MEMORY: u32 = 12;

/// A binder over TCP sockets, which it keeps under numbers of its own. It ignores options and backlog, and
/// binds and adopts no path of the Unix domain.
#[derive(Drop)]
pub struct SocketBinder<'a, R: Net<Listener = TcpListener, Stream = TcpStream> + Clock> {
    pub rt: &'a R,
    pub alloc: Global,
    pub calls: Calls<BinderCall>,
    pub descriptors: Descriptors,
    pub fault_count: u64,
    pub wait_count: u64,
}

impl<'a, R: Net<Listener = TcpListener, Stream = TcpStream> + Clock> SocketBinder<'a, R> {
    /// A binder that tells so many calls. `NoMemory` where there is none for them.
    pub fn new(rt: &'a R, alloc: Global, room: u64) -> Result<Self, NoMemory>
        ensures calls { IfOk result (λ binder. told_of binder.calls ≡ Some []) }
        ensures room { IfOk result (λ binder. room_of binder.calls ≡ room) }
        ensures faults { IfOk result (λ binder. binder.fault_count ≡ 0) }
        ensures waits { IfOk result (λ binder. binder.wait_count ≡ 0) }
    {
        Ok(SocketBinder {
            rt,
            alloc,
            calls: Calls::new(alloc, room)?,
            descriptors: Descriptors::new(alloc),
            fault_count: 0,
            wait_count: 0,
        })
    }
}

/// Binds the address once, and listens without waiting.
fn tried<R: Net<Listener = TcpListener, Stream = TcpStream>>(
    rt: &R,
    descriptors: &mut Descriptors,
    addr: &ServerAddress,
) -> BindOutcome {
    if addr.is_unix() {
        return BindOutcome::Failed;
    }
    match TcpListener::bind(rt, addr.as_str()) {
        Ok(listener) => {
            let number = descriptors.number();
            if listener.set_nonblocking(true).is_ok() && descriptors.add(number, listener) {
                BindOutcome::Bound(number)
            } else {
                BindOutcome::Failed
            }
        }
        Err(error) if error.kind() == ErrorKind::AddrInUse => BindOutcome::InUse,
        Err(_) => BindOutcome::Failed,
    }
}

/// The answer of a try, with its descriptor.
fn answer_of(outcome: BindOutcome) -> BindAnswer
    ensures { outcome_of result ≡ outcome }
{
    match outcome {
        BindOutcome::Bound(number) => BindAnswer::Bound(Fd::new(number)),
        BindOutcome::InUse => BindAnswer::InUse,
        BindOutcome::Failed => BindAnswer::Failed,
    }
}

/// Notes a bind. Where there is no memory for it no call is told any more, and no room is left.
fn note_bind(
    alloc: Global,
    calls: &mut Calls<BinderCall>,
    addr: &ServerAddress,
    outcome: BindOutcome,
)
    ensures calls { Adds (told_of calls.old) (told_of calls.new) (BinderCall.Bind addr.now outcome ∷ []) }
    ensures stays { Stays (told_of calls.old) (told_of calls.new) (room_of calls.old) (room_of calls.new) }
{
    match addr.copy(alloc) {
        Ok(addr) => calls.note(BinderCall::Bind(addr, outcome)),
        Err(_) => calls.lose(),
    }
}

/// Notes an adoption. Where there is no memory for it no call is told any more, and no room is left.
fn note_adopt(
    alloc: Global,
    calls: &mut Calls<BinderCall>,
    addr: &ServerAddress,
    fd: u64,
    adopted: bool,
)
    ensures calls { Adds (told_of calls.old) (told_of calls.new) (BinderCall.Adopt addr.now fd adopted ∷ []) }
    ensures stays { Stays (told_of calls.old) (told_of calls.new) (room_of calls.old) (room_of calls.new) }
{
    match addr.copy(alloc) {
        Ok(addr) => calls.note(BinderCall::Adopt(addr, fd, adopted)),
        Err(_) => calls.lose(),
    }
}

impl<'a, R: Net<Listener = TcpListener, Stream = TcpStream> + Clock> Binder
    for SocketBinder<'a, R> {
    ghost seen = { λ b. record { called = told_of b.calls; room = room_of b.calls; faults = b.fault_count; waits = b.wait_count } };

    fn faults(&self) -> u64 {
        self.fault_count
    }

    fn waits(&self) -> u64 {
        self.wait_count
    }

    fn bind(&mut self, addr: &ServerAddress) -> BindAnswer {
        let outcome = tried(self.rt, &mut self.descriptors, addr);
        match outcome {
            BindOutcome::Bound(_) => {}
            BindOutcome::InUse => self.wait_count = self.wait_count.saturating_add(1),
            BindOutcome::Failed => self.fault_count = self.fault_count.saturating_add(1),
        }
        note_bind(self.alloc, &mut self.calls, addr, outcome);
        answer_of(outcome)
    }

    fn adopt(&mut self, addr: &ServerAddress, fd: u64) -> bool {
        let adopted = self.descriptors.is_open(fd);
        if !adopted {
            self.fault_count = self.fault_count.saturating_add(1);
        }
        note_adopt(self.alloc, &mut self.calls, addr, fd, adopted);
        adopted
    }

    fn rest(&mut self, ms: u64) {
        thread::sleep(self.rt, Duration::from_millis(ms));
        self.calls.note(BinderCall::Rest(ms));
    }
}

/// A connection that was accepted, with its number.
#[derive(Drop)]
pub struct AcceptedStream {
    pub number: u64,
    pub stream: TcpStream,
}

/// What accepts over a TCP listener that doesn't wait. It keeps the connections under numbers of its own.
#[derive(Drop)]
pub struct SocketAccepting {
    pub listener: TcpListener,
    pub calls: Calls<AcceptingCall>,
    pub streams: Vec<AcceptedStream>,
    /// The number of the next connection.
    pub number: u64,
    pub fault_count: u64,
    pub wait_count: u64,
}

impl SocketAccepting {
    /// What accepts so, and tells so many calls. `NoMemory` where there is none for them.
    pub fn new(alloc: Global, room: u64, listener: TcpListener) -> Result<Self, NoMemory>
        ensures calls { IfOk result (λ a. told_of a.calls ≡ Some []) }
        ensures room { IfOk result (λ a. room_of a.calls ≡ room) }
        ensures faults { IfOk result (λ a. a.fault_count ≡ 0) }
        ensures waits { IfOk result (λ a. a.wait_count ≡ 0) }
    {
        Ok(SocketAccepting {
            listener,
            calls: Calls::new(alloc, room)?,
            streams: Vec::new(alloc),
            number: 1,
            fault_count: 0,
            wait_count: 0,
        })
    }
}

/// Where the connection stands.
fn place_of(streams: &[AcceptedStream], number: u64) -> Option<usize>
    ensures { IfSome result (λ at. at < length streams.now) }
{
    streams.iter().position(|stream| stream.number == number)
}

/// Tries once to accept a connection, which gets this number.
fn arrival(listener: &TcpListener, streams: &mut Vec<AcceptedStream>, number: u64) -> Arrival {
    if streams.reserve(1).is_err() {
        return Arrival::Failed(NO_MEMORY);
    }
    match accept(listener) {
        Accepted::Nothing => Arrival::NotYet,
        Accepted::Failed(error) => Arrival::Failed(error),
        Accepted::Came(stream, addr) => {
            if streams.push(AcceptedStream { number, stream }).is_ok() {
                Arrival::Came(number, peer_of(addr))
            } else {
                Arrival::Failed(NO_MEMORY)
            }
        }
    }
}

/// Sets an option of a connection: std sets the one on small segments alone.
fn is_set(streams: &[AcceptedStream], number: u64, setting: Setting) -> bool {
    match (place_of(streams, number), setting) {
        (Some(at), Setting::NoDelay) => streams[at].stream.set_nodelay(true).is_ok(),
        _ => false,
    }
}

impl Accepting for SocketAccepting {
    ghost seen = { λ a. record { called = told_of a.calls; room = room_of a.calls; faults = a.fault_count; waits = a.wait_count } };

    fn faults(&self) -> u64 {
        self.fault_count
    }

    fn waits(&self) -> u64 {
        self.wait_count
    }

    fn accept(&mut self) -> Arrival {
        let number = self.number;
        self.number = number.saturating_add(1);
        let arrival = arrival(&self.listener, &mut self.streams, number);
        match arrival {
            Arrival::Came(_, _) => {}
            Arrival::NotYet => self.wait_count = self.wait_count.saturating_add(1),
            Arrival::Failed(_) => self.fault_count = self.fault_count.saturating_add(1),
        }
        self.calls.note(AcceptingCall::Accept(arrival));
        arrival
    }

    fn refuse(&mut self, c: u64) {
        if let Some(at) = place_of(self.streams.as_slice(), c) {
            let _ = self.streams.swap_remove(at);
        }
        self.calls.note(AcceptingCall::Refuse(c));
    }

    fn set(&mut self, c: u64, s: &Setting) -> bool {
        let set = is_set(self.streams.as_slice(), c, *s);
        if !set {
            self.fault_count = self.fault_count.saturating_add(1);
        }
        self.calls.note(AcceptingCall::Set(c, *s, set));
        set
    }
}
