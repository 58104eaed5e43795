//! What is outside of the server. A real host asks the operating system here; this one answers at once.

ghost use Rattle.std.specs.Prelude.{◌≡◌, false, IfSome};
ghost use Rattle.svc_server.specs.Hosts.{BringsFew};

use svc_record::{Action, Event, ExecutionPhase, ShutdownSignal, Side};
use svc_socket::{Peer, PeerAddr};

/// How long the world sleeps where no moment is due, in milliseconds.
const NAP: u64 = 400;

/// 127.0.0.1.
const LOCALHOST: u32 = 0x7f00_0001;

/// A world in which some visitors come, one after the other, and then an operator stops the server.
#[derive(Debug, Drop)]
pub struct World {
    /// How many visitors are still to come.
    visitors: u64,
    /// How many were greeted.
    pub greeted: u64,
    /// The endpoint at which they come in, once it is bound.
    door: Option<(u32, u32)>,
    /// The number of the next descriptor or connection.
    next_number: u64,
    /// The time, in milliseconds.
    now: u64,
    /// Until when no moment tells the server anything, if it waits for one.
    pub due: Option<u64>,
    running: bool,
    stopped: bool,
    /// The services were told that the server shuts down.
    pub shutdown: bool,
}

impl World {
    /// A world from which so many visitors come.
    pub fn new(visitors: u64) -> Self
        ensures visitors { result.visitors ≡ visitors }
        ensures open { result.shutdown ≡ false }
    {
        World {
            visitors,
            greeted: 0,
            door: None,
            next_number: 3,
            now: 0,
            due: None,
            running: false,
            stopped: false,
            shutdown: false,
        }
    }

    /// A number that wasn't given before.
    fn fresh(&mut self) -> u64 {
        let number = self.next_number;
        self.next_number = number.saturating_add(1);
        number
    }

    /// Does what the action asks for, and gives the answer that the server waits for, if it waits for one.
    pub fn perform(&mut self, action: &Action) -> Option<Event>
        ensures { IfSome result BringsFew }
    {
        match action {
            // The endpoints: a listening socket is made, or one that is open is used once more.
            Action::Bind(s, i) => {
                self.door = Some((*s, *i));
                Some(Event::Bound(*s, *i, self.fresh()))
            }
            Action::Adopt(s, i, _) => Some(Event::Adopted(*s, *i)),

            // A connection: its options are set, its handshake is done, and the application has it.
            Action::Settings(c, _) => Some(Event::Set(*c, true)),
            Action::Handshake(c) => Some(Event::Shaken(*c, true)),
            Action::Serve(c) => {
                self.greeted = self.greeted.saturating_add(1);
                Some(Event::Finished(*c))
            }

            // No older server is there, no successor comes, and a fork makes a child.
            Action::TryReceive => Some(Event::NoSenderYet),
            Action::Connect => Some(Event::NotThere),
            Action::Send(..) => Some(Event::Sent),
            Action::Daemonize => Some(Event::Side(Side::Child)),
            other => {
                self.note(other);
                None
            }
        }
    }

    /// Takes note of an action that waits for no answer. What this world has to close, to drop or to
    /// stop is gone by itself; a real host does it here.
    fn note(&mut self, action: &Action) {
        match action {
            Action::Phase(ExecutionPhase::Running, _) => self.running = true,
            Action::Broadcast => self.shutdown = true,
            _ => {}
        }
    }

    /// What happens where no answer is owed: a visitor comes, the operator stops the server, or time
    /// passes.
    pub fn happen(&mut self) -> Event
        ensures { BringsFew result }
    {
        match self.door {
            Some(door) if self.visitors > 0 && !self.shutdown => self.visit(door),
            _ => self.stop_or_wait(),
        }
    }

    /// A visitor comes in.
    fn visit(&mut self, door: (u32, u32)) -> Event
        ensures { BringsFew result }
    {
        self.visitors = self.visitors.saturating_sub(1);
        let connection = self.fresh();
        let port = 50_000 + (connection % 10_000) as u16;
        let peer = Peer::Inet(PeerAddr::V4 {
            ip: LOCALHOST,
            port,
        });
        Event::Arrived(door.0, door.1, connection, peer)
    }

    /// Once all visitors have come, the operator stops the server; else time passes.
    fn stop_or_wait(&mut self) -> Event
        ensures { BringsFew result }
    {
        if self.running && self.visitors == 0 && !self.stopped {
            self.stopped = true;
            return Event::Signal(ShutdownSignal::GracefulTerminate);
        }
        self.now = match self.due {
            Some(due) => due.max(self.now),
            None => self.now.saturating_add(NAP),
        };
        Event::Moment(self.now)
    }
}
