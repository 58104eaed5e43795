//! What accepts connections.

ghost use Rattle.std.specs.Prelude.{◌≡◌};
ghost use Rattle.svc_listen.specs.AcceptingData.{AcceptingData, IsAccepted, IsRefused, IsSet};

use svc_socket::Setting;
use svc_streams::Peer;

/// What one try to accept gave.
#[derive(Clone, Copy, PartialEq, Eq, Debug)]
pub enum Arrival {
    /// A connection of this number, and who is at its other end.
    Came(u64, Peer),
    /// None is there yet.
    NotYet,
    /// It failed with this error number.
    Failed(u32),
}

/// A call of what accepts, with its answer.
#[derive(Clone, Copy, PartialEq, Eq, Debug)]
pub enum AcceptingCall {
    /// A call that accepts, and what it brought.
    Accept(Arrival),
    /// The connection was refused.
    Refuse(u64),
    /// The setting of the connection, and whether it was set.
    Set(u64, Setting, bool),
}

/// A listening socket with the connections that came on it. What it told of its calls stays told as
/// long as there is room.
pub trait Accepting {
    // What contracts see of it.
    ghost seen: { Self → AcceptingData };

    /// How often it has failed. The count never falls; at its greatest value it stays.
    fn faults(&self) -> u64
        ensures { result ≡ (seen self.now).faults };

    /// How often no connection was there yet. The count never falls; at its greatest value it stays.
    fn waits(&self) -> u64
        ensures { result ≡ (seen self.now).waits };

    /// Tries once to accept a connection.
    fn accept(&mut self) -> Arrival
        ensures { IsAccepted (seen self.old) (seen self.new) result };

    /// Refuses a connection that came: it ends.
    fn refuse(&mut self, c: u64)
        ensures { IsRefused (seen self.old) (seen self.new) c };

    /// Sets an option of a connection that came, and answers whether it did.
    fn set(&mut self, c: u64, s: &Setting) -> bool
        ensures { IsSet (seen self.old) (seen self.new) c s.now result };
}
