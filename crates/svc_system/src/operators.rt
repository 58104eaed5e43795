//! The operators of a server, who say words at its control socket.

use crate::address::{Address, ControlAddress};
use crate::listeners::{BindRefused, Bound, Came, Socket};
use crate::offer::{AskRefused, Asked};
use crate::orders::{LineStep, Order, OrderLine};
use crate::readiness::Readiness;
use crate::report::Report;
use crate::tokens::{OPERATORS, Ready};
use std::alloc::Global;
use std::fs::File;
use std::io::{ErrorKind, Read, Write};
use std::mem::drop;
use std::net::{Net, TcpListener, TcpStream};
use std::os::fd::AsRawFd;
use std::rt::Files;
use std::{fs, str};
use svc_base::{NoMemory, Text};
use svc_record::ShutdownSignal;

/// So many bytes of what an operator says are taken at once.
const PIECE: usize = 1024;

/// So many pieces are taken at a turn.
const PIECES: u32 = 16;

/// The error numbers of a process that has no descriptor left, and of a system that has none.
const NO_DESCRIPTOR: u32 = 24;

const NO_DESCRIPTOR_OF_SYSTEM: u32 = 23;

/// An operator, and the line that is being said.
#[derive(Drop)]
struct Operator {
    /// No other one ever has it.
    number: u64,
    stream: TcpStream,
    line: OrderLine,
    /// What was read last, of which not all was taken where an answer is owed.
    piece: [u8; PIECE],
    /// So much of it was taken.
    at: usize,
    /// So much was read.
    end: usize,
    /// An answer is owed, and nothing more is taken before it.
    waits: bool,
}

/// What a turn left of an operator.
#[derive(Clone, Copy, PartialEq)]
enum Left {
    Waits,
    More,
    Gone,
    /// An upgrade is asked for.
    Asks,
}

/// What an order came to.
#[derive(Clone, Copy, PartialEq)]
enum Obeyed {
    Answered,
    /// The answer wasn't taken.
    Unanswered,
    /// It asks for an upgrade, and the answer is owed.
    Owed,
}

/// What an operator's turn gave.
#[derive(Clone, Copy)]
pub(crate) struct Heard {
    /// The signal that is asked for: the fastest.
    pub signal: Option<ShutdownSignal>,
    /// Another turn is wanted.
    pub more: bool,
    /// The operator is gone, and others may wait for the place.
    pub is_gone: bool,
    /// The operator asks for an upgrade.
    pub asks: bool,
}

/// What became of those who came.
#[derive(Clone, Copy)]
pub(crate) enum Admitted {
    All,
    /// Others may be there.
    Some,
    /// They can't be taken now.
    Failed,
}

/// The socket at which they come, and those who are there. A new one takes the place of the one who has
/// been there longest.
#[derive(Drop)]
pub(crate) struct Operators {
    /// None where it isn't there yet, or was handed over.
    pub bound: Option<Bound>,
    is_watched: bool,
    rows: Vec<Option<Operator>>,
    turn: usize,
    /// The number of the next one who comes.
    next: u64,
    /// A descriptor that is kept for an operator who comes where the system has no other left.
    spare: Option<File>,
}

/// A descriptor that can be given up at any time, if the system has one.
fn spare<R: Files<File = File>>(rt: &R) -> Option<File> {
    fs::open(rt, "/dev/null").ok()
}

/// The system, or the process, has no descriptor left.
fn lacks_descriptors(error: u32) -> bool {
    error == NO_DESCRIPTOR || error == NO_DESCRIPTOR_OF_SYSTEM
}

/// Of two signals that are asked for, the faster one.
fn faster(known: Option<ShutdownSignal>, other: ShutdownSignal) -> ShutdownSignal {
    match known {
        Some(ShutdownSignal::FastShutdown) => ShutdownSignal::FastShutdown,
        _ => other,
    }
}

/// A stream takes the whole answer at once. One that doesn't is that of an operator who doesn't read.
fn is_answered(stream: &TcpStream, answer: &[u8]) -> bool {
    let mut to = stream;
    match to.write(answer) {
        Ok(count) => count == answer.len(),
        Err(_) => false,
    }
}

/// What an answer came to.
fn answered(stream: &TcpStream, answer: &[u8]) -> Obeyed {
    if is_answered(stream, answer) {
        Obeyed::Answered
    } else {
        Obeyed::Unanswered
    }
}

impl Operator {
    /// One who said nothing yet.
    fn new(number: u64, stream: TcpStream) -> Self {
        Operator {
            number,
            stream,
            line: OrderLine::new(),
            piece: [0u8; PIECE],
            at: 0,
            end: 0,
            waits: false,
        }
    }

    /// Answers how the server is.
    fn tell_status(&self, alloc: Global, report: &Report) -> Obeyed {
        match report.line(alloc) {
            Ok(line) => answered(&self.stream, line.as_bytes()),
            Err(NoMemory) => answered(&self.stream, b"refused: out of memory\n"),
        }
    }

    /// Does what a line asks for, and answers it.
    fn obey(
        &self,
        alloc: Global,
        report: &Report,
        step: LineStep,
        signal: &mut Option<ShutdownSignal>,
    ) -> Obeyed {
        match step {
            LineStep::On => Obeyed::Answered,
            LineStep::Unknown => answered(
                &self.stream,
                b"refused: the words are status, fast, terminate and upgrade FILE\n",
            ),
            LineStep::Order(Order::Status) => self.tell_status(alloc, report),
            LineStep::Order(Order::Fast) => {
                *signal = Some(ShutdownSignal::FastShutdown);
                answered(&self.stream, b"ok fast\n")
            }
            LineStep::Order(Order::Terminate) => {
                *signal = Some(faster(*signal, ShutdownSignal::GracefulTerminate));
                answered(&self.stream, b"ok terminate\n")
            }
            LineStep::Order(Order::Upgrade) => Obeyed::Owed,
        }
    }

    /// The next byte of what was read.
    fn next_byte(&mut self) -> Option<u8> {
        if self.at >= self.end {
            return None;
        }
        let byte = *self.piece.get(self.at)?;
        self.at = self.at.saturating_add(1);
        Some(byte)
    }

    /// Takes what was read, up to a line whose answer is owed.
    fn take(
        &mut self,
        alloc: Global,
        report: &Report,
        signal: &mut Option<ShutdownSignal>,
    ) -> Left {
        for _ in 0..PIECE {
            let Some(byte) = self.next_byte() else {
                return Left::More;
            };
            let step = self.line.take(byte);
            match self.obey(alloc, report, step, signal) {
                Obeyed::Answered => {}
                Obeyed::Unanswered => return Left::Gone,
                Obeyed::Owed => {
                    self.waits = true;
                    return Left::Asks;
                }
            }
        }
        Left::More
    }

    /// Reads a piece, if one is there.
    fn read(&mut self) -> Left {
        let mut from = &self.stream;
        match from.read(&mut self.piece) {
            Ok(0) => Left::Gone,
            Ok(count) => {
                self.at = 0;
                self.end = count;
                Left::More
            }
            Err(error) => match error.kind() {
                ErrorKind::WouldBlock => Left::Waits,
                ErrorKind::Interrupted => Left::More,
                _ => Left::Gone,
            },
        }
    }

    /// Takes what is left of a piece, or one that is there.
    fn hear_piece(
        &mut self,
        alloc: Global,
        report: &Report,
        signal: &mut Option<ShutdownSignal>,
    ) -> Left {
        if self.at >= self.end {
            let left = self.read();
            if left != Left::More {
                return left;
            }
        }
        self.take(alloc, report, signal)
    }

    /// Takes what is there, up to so many pieces, and up to a line whose answer is owed.
    fn hear(
        &mut self,
        alloc: Global,
        report: &Report,
        signal: &mut Option<ShutdownSignal>,
    ) -> Left {
        if self.waits {
            return Left::Waits;
        }
        for _ in 0..PIECES {
            match self.hear_piece(alloc, report, signal) {
                Left::More => {}
                left => return left,
            }
        }
        Left::More
    }
}

/// The operator in a place is the one with this number.
fn is_numbered(row: &Option<Operator>, number: u64) -> bool {
    match row {
        Some(operator) => operator.number == number,
        None => false,
    }
}

/// The place for each operator, with nobody in it.
fn empty_rows(alloc: Global) -> Result<Vec<Option<Operator>>, NoMemory> {
    let mut rows = Vec::new(alloc);
    for _ in 0..OPERATORS {
        rows.push(None)?;
    }
    Ok(rows)
}

/// The address as one that is bound, and the path that goes with it.
fn bound_address(
    alloc: Global,
    control: ControlAddress,
) -> Result<(Address, Option<Text>), NoMemory> {
    match control {
        ControlAddress::Tcp(address) => Ok((Address::Tcp(address), None)),
        ControlAddress::Unix(path) => {
            let again = path.copy(alloc)?;
            Ok((Address::Unix(path), Some(again)))
        }
    }
}

/// Why nobody is listened to.
#[derive(Clone, Copy)]
pub(crate) enum ControlRefused {
    NoMemory,
    InUse,
    Failed,
}

impl From<BindRefused> for ControlRefused {
    fn from(refused: BindRefused) -> Self {
        match refused {
            BindRefused::InUse => ControlRefused::InUse,
            BindRefused::Failed => ControlRefused::Failed,
        }
    }
}

impl From<NoMemory> for ControlRefused {
    fn from(_: NoMemory) -> Self {
        ControlRefused::NoMemory
    }
}

impl Operators {
    /// Listens to operators at this address.
    pub(crate) fn open<R: Net<Listener = TcpListener, Stream = TcpStream> + Files<File = File>>(
        rt: &R,
        alloc: Global,
        control: ControlAddress,
    ) -> Result<Self, ControlRefused> {
        let rows = empty_rows(alloc)?;
        let (address, path) = bound_address(alloc, control)?;
        let socket = Socket::bind(rt, &address)?;
        let bound = Bound::new(alloc, socket, path)?;
        Ok(Operators {
            bound: Some(bound),
            is_watched: false,
            rows,
            turn: 0,
            next: 0,
            spare: spare(rt),
        })
    }

    /// Those of a server whose control socket isn't there yet.
    pub(crate) fn absent<R: Files<File = File>>(rt: &R, alloc: Global) -> Result<Self, NoMemory> {
        let rows = empty_rows(alloc)?;
        Ok(Operators {
            bound: None,
            is_watched: false,
            rows,
            turn: 0,
            next: 0,
            spare: spare(rt),
        })
    }

    /// Operators come at this socket from now on.
    pub(crate) fn come_at(&mut self, bound: Bound) {
        self.bound = Some(bound);
        self.is_watched = false;
    }

    /// Watches the socket at which they come, where there is one.
    pub(crate) fn watch(&mut self, readiness: &Readiness) -> bool {
        if let Some(bound) = &self.bound {
            if !self.is_watched {
                self.is_watched = readiness.watch(bound.raw(), Ready::Control);
            }
            return self.is_watched;
        }
        true
    }

    /// Takes one who came, in place of the one who has been there longest.
    fn take(&mut self, stream: TcpStream, readiness: &Readiness) {
        let place = self.turn;
        self.turn = (place.wrapping_add(1)) % OPERATORS;
        let is_watched = readiness.watch(stream.as_raw_fd(), Ready::Operator(place));
        let number = self.next;
        self.next = number.wrapping_add(1);
        if let Some(row) = self.rows.get_mut(place) {
            *row = if is_watched {
                Some(Operator::new(number, stream))
            } else {
                None
            };
        }
    }

    /// Gives the spare descriptor up. Answers whether there was one.
    fn make_way(&mut self) -> bool {
        match self.spare.take() {
            Some(spare) => {
                drop(spare);
                true
            }
            None => false,
        }
    }

    /// Accepts one who comes, also where no descriptor but the spare one is left.
    fn accept(&mut self) -> Came {
        match self.accept_once() {
            Came::Failed(error) => {
                if lacks_descriptors(error) && self.make_way() {
                    self.accept_once()
                } else {
                    Came::Failed(error)
                }
            }
            came => came,
        }
    }

    /// Tries once to accept one, where there is a socket at which they come.
    fn accept_once(&self) -> Came {
        match &self.bound {
            Some(bound) => bound.socket.accept(),
            None => Came::Nothing,
        }
    }

    /// Takes those who came, as many as there are places.
    fn admit_all(&mut self, readiness: &Readiness) -> Admitted {
        for _ in 0..OPERATORS {
            match self.accept() {
                Came::Connection(stream, _) => self.take(stream, readiness),
                Came::Gone => {}
                Came::Nothing => return Admitted::All,
                Came::Failed(_) => return Admitted::Failed,
            }
        }
        Admitted::Some
    }

    /// Keeps a descriptor again, where none is kept and one can be had.
    fn refill<R: Files<File = File>>(&mut self, rt: &R) {
        if self.spare.is_none() {
            self.spare = spare(rt);
        }
    }

    /// Takes those who came, as many as there are places; one of them also where no descriptor is left.
    pub(crate) fn admit<R: Files<File = File>>(
        &mut self,
        rt: &R,
        readiness: &Readiness,
    ) -> Admitted {
        let is_watched = self.watch(readiness);
        let admitted = self.admit_all(readiness);
        self.refill(rt);
        if is_watched {
            admitted
        } else {
            Admitted::Failed
        }
    }

    /// The file for whose upgrade the operator in this place asks.
    pub(crate) fn asked(&self, alloc: Global, place: usize) -> Result<Asked, AskRefused> {
        let Some(Some(operator)) = self.rows.get(place) else {
            return Err(AskRefused::NotRunning);
        };
        let Ok(path) = str::from_utf8(operator.line.path()) else {
            return Err(AskRefused::NotText);
        };
        match Text::new(alloc, path) {
            Ok(file) => Ok(Asked {
                file,
                operator: operator.number,
            }),
            Err(NoMemory) => Err(AskRefused::NoMemory),
        }
    }

    /// Where the operator with this number is, if still there.
    pub(crate) fn place_of(&self, number: u64) -> Option<usize> {
        self.rows.iter().position(|row| is_numbered(row, number))
    }

    /// Gives the operator in this place the answer that is owed. One who doesn't take it is gone.
    pub(crate) fn answer(&mut self, place: usize, line: &[u8]) {
        if let Some(row) = self.rows.get_mut(place) {
            let is_there = match row {
                Some(operator) => {
                    operator.waits = false;
                    is_answered(&operator.stream, line)
                }
                None => true,
            };
            if !is_there {
                *row = None;
            }
        }
    }

    /// Takes what the operator in this place says.
    pub(crate) fn hear<R: Files<File = File>>(
        &mut self,
        rt: &R,
        alloc: Global,
        place: usize,
        report: &Report,
    ) -> Heard {
        let mut signal = None;
        let left = match self.rows.get_mut(place) {
            Some(Some(operator)) => operator.hear(alloc, report, &mut signal),
            _ => Left::Waits,
        };
        if left == Left::Gone {
            if let Some(row) = self.rows.get_mut(place) {
                *row = None;
            }
            self.refill(rt);
        }
        Heard {
            signal,
            more: left == Left::More,
            is_gone: left == Left::Gone,
            asks: left == Left::Asks,
        }
    }

    /// Removes the path that goes with the socket, if it is still this server's.
    pub(crate) fn close<R: Files>(&self, rt: &R) {
        if let Some(bound) = &self.bound {
            bound.remove_path(rt);
        }
    }
}
