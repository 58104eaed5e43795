//! The connections of a server, by their numbers.

ghost use Rattle.std.specs.Prelude.{◌≡◌, ◌<◌, length, vec_len, IfOk};
ghost use Rattle.svc_system.specs.Given.{number_behind};

use crate::address::Address;
use crate::forward::Forward;
use crate::readiness::Readiness;
use crate::streams::{Incoming, Outgoing};
use crate::tokens::Ready;
use std::alloc::Global;
use std::collections::BTreeMap;
use std::net::{Net, TcpStream};
use std::os::fd::AsRawFd;
use svc_base::{NoMemory, Setting};
use svc_socket::Peer;
use svc_work::{Conveyance, Conveyed};

/// The most bytes of a piece that is read at once.
const PIECE: usize = 16384;

/// So many pieces of a connection go on at a turn, in each direction.
pub(crate) const PIECES: u32 = 16;

/// What the application does with a connection.
#[derive(Drop)]
enum Course {
    /// The application hasn't got it yet.
    Waits,
    /// What comes goes back.
    Echoes(Conveyance),
    /// What comes goes on to another stream, and what comes from there goes back.
    Forwards(Forward),
}

/// A connection.
#[derive(Drop)]
struct Connection {
    stream: TcpStream,
    /// The number of its service.
    service: u32,
    /// It is of the Unix domain, where there are no segments.
    is_unix: bool,
    course: Course,
}

/// What a turn left of a connection.
#[derive(Clone, Copy)]
pub(crate) enum Turn {
    /// It waits for the system.
    Waits,
    /// It wants another turn.
    More,
    /// The application is done with it.
    Over,
    /// The same: it can't be connected to where it is to go on.
    Unconnected,
}

/// The live ones, and the number of the next one.
#[derive(Drop)]
pub(crate) struct Connections {
    alloc: Global,
    rows: BTreeMap<u64, Connection>,
    pub next: u64,
    /// Room for the piece that has its turn.
    room: Vec<u8>,
    ghost roomy: { 0 < vec_len room },
}

impl Connection {
    /// Applies settings in order, up to the first that can't be applied. Of a stream of std that is each but
    /// the one on small segments.
    fn set(&self, settings: &[Setting]) -> bool {
        for setting in settings {
            let is_set = match setting {
                Setting::NoDelay => self.is_unix || self.stream.set_nodelay(true).is_ok(),
                _ => false,
            };
            if !is_set {
                return false;
            }
        }
        true
    }

    /// The application has it from now on: it echoes, or goes on to this address. Answers whether it can be
    /// watched, and whether that address can be connected to.
    fn serve<R: Net>(
        &mut self,
        rt: &R,
        alloc: Global,
        target: Option<&Address>,
        readiness: &Readiness,
        ready: Ready,
    ) -> bool {
        let Some(target) = target else {
            self.course = Course::Echoes(Conveyance::new(alloc));
            return readiness.watch(self.stream.as_raw_fd(), ready);
        };
        let Some(forward) = Forward::begin(rt, alloc, target) else {
            return false;
        };
        let is_watched = readiness.watch(forward.raw(), ready)
            && readiness.watch(self.stream.as_raw_fd(), ready);
        self.course = Course::Forwards(forward);
        is_watched
    }

    /// It has its turn, where the application has it.
    fn turn(&mut self, alloc: Global, room: &mut [u8]) -> Turn
        requires { 0 < length room.old }
    {
        match &mut self.course {
            Course::Waits => Turn::Waits,
            Course::Echoes(back) => echo(alloc, &self.stream, back, room),
            Course::Forwards(forward) => forward.turn(alloc, &self.stream, room),
        }
    }
}

/// Writes back what is there, up to so many pieces.
fn echo(alloc: Global, stream: &TcpStream, back: &mut Conveyance, room: &mut [u8]) -> Turn
    requires { 0 < length room.old }
{
    let mut from = Incoming::of(stream);
    let mut to = Outgoing::of(stream);
    match back.convey(alloc, &mut from, &mut to, room, PIECES) {
        Conveyed::More => Turn::More,
        Conveyed::ReadFault if from.waits => Turn::Waits,
        Conveyed::WriteFault if to.waits => Turn::Waits,
        _ => Turn::Over,
    }
}

impl Connections {
    /// None lives, and the first has the number 1.
    pub(crate) fn new(alloc: Global) -> Result<Self, NoMemory>
        ensures { IfOk result (λ connections. connections.next ≡ 1) }
    {
        let room = Vec::from_elem(alloc, 0u8, PIECE)?;
        Ok(Connections {
            alloc,
            rows: BTreeMap::new(alloc),
            next: 1,
            room,
        })
    }

    /// How many live.
    pub(crate) fn count(&self) -> usize {
        self.rows.len()
    }

    /// Adds a connection, and answers its number. Without memory its stream is closed.
    pub(crate) fn add(
        &mut self,
        service: u32,
        stream: TcpStream,
        peer: Peer,
    ) -> Result<u64, NoMemory>
        ensures number { IfOk result (λ c. c ≡ self.old.next) }
        ensures next { self.new.next ≡ number_behind self.old.next }
    {
        let number = self.next;
        self.next = number.saturating_add(1);
        let connection = Connection {
            stream,
            service,
            is_unix: peer == Peer::Unix,
            course: Course::Waits,
        };
        match self.rows.insert(number, connection) {
            Ok(_) => Ok(number),
            Err(_) => Err(NoMemory),
        }
    }

    /// Applies settings to a connection.
    pub(crate) fn set(&self, number: u64, settings: &[Setting]) -> bool {
        match self.rows.get(&number) {
            Some(connection) => connection.set(settings),
            None => false,
        }
    }

    /// The service of a connection.
    pub(crate) fn service(&self, number: u64) -> Option<u32> {
        match self.rows.get(&number) {
            Some(connection) => Some(connection.service),
            None => None,
        }
    }

    /// The application has the connection from now on: it echoes, or goes on to this address. Answers whether
    /// that can be had.
    pub(crate) fn serve<R: Net>(
        &mut self,
        rt: &R,
        number: u64,
        target: Option<&Address>,
        readiness: &Readiness,
    ) -> bool
        ensures { self.new.next ≡ self.old.next }
    {
        match self.rows.get_mut(&number) {
            Some(connection) => {
                connection.serve(rt, self.alloc, target, readiness, Ready::Connection(number))
            }
            None => false,
        }
    }

    /// The connection has its turn, where the application has it.
    pub(crate) fn turn(&mut self, number: u64) -> Turn
        ensures { self.new.next ≡ self.old.next }
    {
        match self.rows.get_mut(&number) {
            Some(connection) => connection.turn(self.alloc, self.room.as_mut_slice()),
            None => Turn::Waits,
        }
    }

    /// Closes the connection.
    pub(crate) fn remove(&mut self, number: u64)
        ensures { self.new.next ≡ self.old.next }
    {
        let _ = self.rows.remove(&number);
    }
}
