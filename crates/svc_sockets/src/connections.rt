//! The connections of a server, and what is to be told of each.

ghost use Rattle.std.specs.Prelude.{◌≡◌, ◌<◌, length, IfSome};
ghost use Rattle.svc_sockets.specs.OpenSockets.{without};
ghost use Rattle.svc_sockets.specs.Seen.{connection_numbers};
ghost use Rattle.svc_sockets.specs.SocketsData.{SocketsData, TellsNext};

use crate::sockets::Seat;
use crate::streams::{Incoming, Outgoing, Progress, echo_piece};
use std::net::TcpStream;
use svc_base::{Setting, Source, Taken};
use svc_record::{Event, ShutdownSignal};

/// The endpoint whose connections bring signals, by its number within its service.
pub(crate) const CONTROL: u32 = 1;

/// So many pieces of a connection are written back before the next one has its turn.
const PIECES: u32 = 8;

/// How far a connection is.
#[derive(Clone, Copy, PartialEq, Eq)]
pub(crate) enum ConnectionState {
    /// This seat was told that it came, and perhaps hasn't posted that yet.
    Arriving(Seat),
    /// It waits for the next action.
    Waiting,
    /// Whether its settings were applied is to be told.
    Set(bool),
    /// That its handshake is done is to be told.
    Shaken,
    /// The application has it.
    Serving,
    /// This signal is to be told, and then that the application is done with it.
    Signalling(ShutdownSignal),
    /// That the application is done with it is to be told.
    Finished,
}

/// A connection with its number, and the endpoint at which it came.
#[derive(Drop)]
pub(crate) struct Connection {
    pub number: u64,
    pub service: u32,
    pub endpoint: u32,
    pub state: ConnectionState,
    pub incoming: Incoming,
    pub outgoing: Box<Outgoing>,
}

/// What a byte on the control endpoint means.
fn signal_of(byte: u8) -> Option<ShutdownSignal> {
    match byte {
        b'f' => Some(ShutdownSignal::FastShutdown),
        b't' => Some(ShutdownSignal::GracefulTerminate),
        b'u' => Some(ShutdownSignal::GracefulUpgrade),
        _ => None,
    }
}

/// Applies the settings in order, up to the first that can't be applied. Of a stream of std that is each
/// but the one on small segments.
fn apply(stream: &TcpStream, settings: &[Setting]) -> bool {
    for setting in settings {
        let applied = match setting {
            Setting::NoDelay => stream.set_nodelay(true).is_ok(),
            _ => false,
        };
        if !applied {
            return false;
        }
    }
    true
}

/// Writes back what is there, up to so many pieces. Answers whether no further piece comes back.
fn is_over(incoming: &mut Incoming, outgoing: &mut Outgoing) -> bool {
    for _ in 0..PIECES {
        match echo_piece(incoming, outgoing) {
            Progress::More => {}
            Progress::Waits => return false,
            Progress::Over => return true,
        }
    }
    false
}

impl Connection {
    /// Writes back what is there, and notes where the connection is done.
    fn echo_round(&mut self)
        ensures { self.new.number ≡ self.old.number }
    {
        if is_over(&mut self.incoming, &mut self.outgoing) {
            self.state = ConnectionState::Finished;
        }
    }

    /// Reads the signal of a connection on the control endpoint, if it is there.
    fn read_signal(&mut self)
        ensures { self.new.number ≡ self.old.number }
    {
        let mut byte = [0u8; 1];
        self.state = match self.incoming.read(&mut byte) {
            Taken::Got(_) => match signal_of(byte[0]) {
                Some(signal) => ConnectionState::Signalling(signal),
                None => ConnectionState::Finished,
            },
            Taken::Failed if self.incoming.waits => ConnectionState::Serving,
            _ => ConnectionState::Finished,
        };
    }

    /// That it came is posted, where this seat was told.
    fn settle(&mut self, seat: Seat)
        ensures { self.new.number ≡ self.old.number }
    {
        if self.state == ConnectionState::Arriving(seat) {
            self.state = ConnectionState::Waiting;
        }
    }

    /// Gives it its turn, where the application has it.
    fn serve(&mut self)
        ensures { self.new.number ≡ self.old.number }
    {
        if self.state != ConnectionState::Serving {
            return;
        }
        if self.endpoint == CONTROL {
            self.read_signal();
        } else {
            self.echo_round();
        }
    }

    /// Whether something is to be told of it.
    fn has_answer(&self) -> bool {
        matches!(
            self.state,
            ConnectionState::Set(_)
                | ConnectionState::Shaken
                | ConnectionState::Signalling(_)
                | ConnectionState::Finished
        )
    }

    /// What is to be told of it, which then is told.
    fn next_answer(&mut self) -> Option<Event>
        ensures number { self.new.number ≡ self.old.number }
        ensures told { (rest : SocketsData) → TellsNext result rest rest }
    {
        let (event, state) = match self.state {
            ConnectionState::Set(done) => {
                (Event::Set(self.number, done), ConnectionState::Waiting)
            }
            ConnectionState::Shaken => (Event::Shaken(self.number, true), ConnectionState::Waiting),
            ConnectionState::Signalling(signal) => {
                (Event::Signal(signal), ConnectionState::Finished)
            }
            _ => return None,
        };
        self.state = state;
        Some(event)
    }
}

/// The first connection with something to tell.
fn place_of_next(connections: &[Connection]) -> Option<usize>
    ensures { IfSome result (λ at. at < length connections.now) }
{
    connections
        .iter()
        .position(|connection| connection.has_answer())
}

/// The next answer of the connection at this place, which goes on.
fn answer_at(connections: &mut [Connection], at: usize) -> Option<Event>
    requires { at < length connections.old }
    ensures numbers { connection_numbers connections.new ≡ connection_numbers connections.old }
    ensures told { (rest : SocketsData) → TellsNext result rest rest }
{
    connections[at].next_answer()
}

/// The next answer of a connection. One that the application is done with is dropped: its stream is closed.
fn next_answer(connections: &mut Vec<Connection>) -> Option<Event>
    ensures { (rest : SocketsData) → TellsNext result (record rest { connections = connection_numbers connections.old.items })
        (record rest { connections = connection_numbers connections.new.items }) }
{
    let at = place_of_next(connections.as_slice())?;
    if connections[at].state == ConnectionState::Finished {
        let number = connections[at].number;
        drop_one(connections, number);
        return Some(Event::Finished(number));
    }
    answer_at(connections.as_mut_slice(), at)
}

/// Each connection that the application has gets a turn.
fn serve_each(connections: &mut [Connection])
    ensures { connection_numbers connections.new ≡ connection_numbers connections.old }
{
    for connection in connections.iter_mut() {
        connection.serve();
    }
}

/// The same of a table.
fn serve_all(connections: &mut Vec<Connection>)
    ensures { connection_numbers connections.new.items ≡ connection_numbers connections.old.items }
{
    serve_each(connections.as_mut_slice());
}

/// The next answer of a connection. Each that the application has gets a turn, where no earlier answer is
/// to be told.
pub(crate) fn next_served(connections: &mut Vec<Connection>) -> Option<Event>
    ensures { (rest : SocketsData) → TellsNext result (record rest { connections = connection_numbers connections.old.items })
        (record rest { connections = connection_numbers connections.new.items }) }
{
    match next_answer(connections) {
        Some(event) => Some(event),
        None => {
            serve_all(connections);
            next_answer(connections)
        }
    }
}

/// What the seat was told before is posted by now, since it asks again.
pub(crate) fn settle(connections: &mut [Connection], seat: Seat)
    ensures { connection_numbers connections.new ≡ connection_numbers connections.old }
{
    for connection in connections.iter_mut() {
        connection.settle(seat);
    }
}

/// A seat was told of a connection at the endpoint, and perhaps hasn't posted that yet.
pub(crate) fn is_arriving(connections: &[Connection], service: u32, endpoint: u32) -> bool {
    connections.iter().any(|connection| {
        connection.service == service
            && connection.endpoint == endpoint
            && (connection.state == ConnectionState::Arriving(Seat::Left)
                || connection.state == ConnectionState::Arriving(Seat::Right))
    })
}

/// Where the connection stands.
fn place_of(connections: &[Connection], number: u64) -> Option<usize>
    ensures { IfSome result (λ at. at < length connections.now) }
{
    connections
        .iter()
        .position(|connection| connection.number == number)
}

/// The connection goes on so.
pub(crate) fn set_state(connections: &mut [Connection], number: u64, state: ConnectionState)
    ensures { connection_numbers connections.new ≡ connection_numbers connections.old }
{
    if let Some(at) = place_of(connections, number) {
        connections[at].state = state;
    }
}

/// Applies settings to the connection.
pub(crate) fn set_options(connections: &mut [Connection], number: u64, settings: &[Setting])
    ensures { connection_numbers connections.new ≡ connection_numbers connections.old }
{
    if let Some(at) = place_of(connections, number) {
        let done = apply(&connections[at].incoming.stream, settings);
        connections[at].state = ConnectionState::Set(done);
    }
}

/// Drops the connection: its stream is closed.
pub(crate) fn drop_one(connections: &mut Vec<Connection>, number: u64)
    ensures { connection_numbers connections.new.items ≡ without number (connection_numbers connections.old.items) }
{
    connections.retain(|connection| connection.number != number);
}
