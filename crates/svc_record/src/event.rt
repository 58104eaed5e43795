use crate::printed::{FdNumbers, HexBytes, OkWord};
use std::fmt;
use svc_base::Bytes;
use svc_fds::FdList;
use svc_socket::Peer;

/// A signal that ends a server.
#[derive(Clone, Copy, PartialEq, Eq, Debug)]
pub enum ShutdownSignal {
    /// The server offers its sockets to a successor, and then ends as after `GracefulTerminate`.
    GracefulUpgrade,
    /// The server ends after its grace period.
    GracefulTerminate,
    /// The server ends at once.
    FastShutdown,
}

/// Which of the two processes after a fork this one is.
#[derive(Clone, Copy, PartialEq, Eq, Debug)]
pub enum Side {
    /// The new process.
    Child,
    /// The one that forked.
    Parent,
}

/// What the host tells the core.
#[derive(PartialEq, Eq, Debug, Drop)]
pub enum Event {
    /// The time: so many milliseconds since the host was made.
    Moment(u64),
    /// The service says that it is ready.
    Ready(u32),
    /// The service's work is done.
    Ended(u32),
    /// The bind of the service's endpoint brought this descriptor.
    Bound(u32, u32, u64),
    /// The address of the service's endpoint is in use.
    InUse(u32, u32),
    /// The bind of the service's endpoint failed.
    BindFailed(u32, u32),
    /// The service's endpoint listens on the descriptor that it was offered.
    Adopted(u32, u32),
    /// The service's endpoint couldn't take the descriptor that it was offered.
    AdoptFailed(u32, u32),
    /// An older server's message came, with these descriptors.
    Received(Bytes, FdList),
    /// No older server offers anything yet.
    NoSenderYet,
    /// The try to receive failed.
    ReceiveFailed,
    /// The successor took the connection.
    Connected,
    /// No successor is there yet.
    NotThere,
    /// The connection isn't made yet.
    StillConnecting,
    /// The connection failed.
    ConnectFailed,
    /// The message was sent.
    Sent,
    /// The successor can't take the message yet.
    SendBusy,
    /// The message couldn't be sent.
    SendFailed,
    /// At the service's endpoint the connection with this number arrived, from this peer.
    Arrived(u32, u32, u64, Peer),
    /// At the service's endpoint accepting failed, with this error number.
    AcceptFailed(u32, u32, u32),
    /// Whether the settings of the connection were applied.
    Set(u64, bool),
    /// Whether the handshake of the connection is done.
    Shaken(u64, bool),
    /// The application is done with the connection.
    Finished(u64),
    /// At the service's endpoint the accept loop with this number ended.
    LoopEnded(u32, u32, u64),
    /// The process got this signal.
    Signal(ShutdownSignal),
    /// The fork is done, and this process is the one.
    Side(Side),
    /// The child said that it is ready.
    ChildReady,
    /// The child is gone.
    ChildGone,
    /// The parent couldn't drop its rights.
    DropFailed,
}

impl ShutdownSignal {
    ghost use Rattle.std.specs.Prelude.{◌≡◌};
    ghost use Rattle.svc_record.specs.Text.{signal_word};

    /// The signal's word in a line.
    pub fn word(self) -> &'static str
        ensures { result.now ≡ signal_word self }
    {
        match self {
            ShutdownSignal::FastShutdown => "fast",
            ShutdownSignal::GracefulTerminate => "terminate",
            ShutdownSignal::GracefulUpgrade => "upgrade",
        }
    }
}

impl fmt::Display for ShutdownSignal {
    ghost use Rattle.std.specs.Prelude.{Some};
    ghost use Rattle.svc_record.specs.Text.{signal_word};

    ghost output = { λ s. Some (signal_word s) };

    fn fmt<W: fmt::Write>(&self, f: &mut fmt::Formatter<W>) -> fmt::Result {
        let word = self.word();
        write!(f, "{word}")
    }
}

impl Side {
    ghost use Rattle.std.specs.Prelude.{◌≡◌};
    ghost use Rattle.svc_record.specs.Text.{side_word};

    /// The side's word in a line.
    pub fn word(self) -> &'static str
        ensures { result.now ≡ side_word self }
    {
        match self {
            Side::Child => "child",
            Side::Parent => "parent",
        }
    }
}

impl fmt::Display for Side {
    ghost use Rattle.std.specs.Prelude.{Some};
    ghost use Rattle.svc_record.specs.Text.{side_word};

    ghost output = { λ s. Some (side_word s) };

    fn fmt<W: fmt::Write>(&self, f: &mut fmt::Formatter<W>) -> fmt::Result {
        let word = self.word();
        write!(f, "{word}")
    }
}

impl Event {
    ghost use Rattle.std.specs.Prelude.{◌≡◌};
    ghost use Rattle.svc_record.specs.Keywords.{event_keyword};

    /// The first word of the event's line.
    pub fn keyword(&self) -> &'static str
        ensures { result.now ≡ event_keyword self.now }
    {
        match self {
            Event::Moment(_) => "moment",
            Event::Ready(_) => "ready",
            Event::Ended(_) => "ended",
            Event::Bound(_, _, _) => "bound",
            Event::InUse(_, _) => "inuse",
            Event::BindFailed(_, _) => "bindfailed",
            Event::Adopted(_, _) => "adopted",
            Event::AdoptFailed(_, _) => "adoptfailed",
            Event::Received(_, _) => "received",
            Event::NoSenderYet => "nosender",
            Event::ReceiveFailed => "receivefailed",
            Event::Connected => "connected",
            Event::NotThere => "notthere",
            Event::StillConnecting => "connecting",
            Event::ConnectFailed => "connectfailed",
            Event::Sent => "sent",
            Event::SendBusy => "sendbusy",
            Event::SendFailed => "sendfailed",
            Event::Arrived(_, _, _, _) => "arrived",
            Event::AcceptFailed(_, _, _) => "acceptfailed",
            Event::Set(_, _) => "set",
            Event::Shaken(_, _) => "shaken",
            Event::Finished(_) => "finished",
            Event::LoopEnded(_, _, _) => "loopended",
            Event::Signal(_) => "signal",
            Event::Side(_) => "side",
            Event::ChildReady => "childready",
            Event::ChildGone => "childgone",
            Event::DropFailed => "dropfailed",
        }
    }
}

impl fmt::Display for Event {
    ghost use Rattle.std.specs.Prelude.{Some};
    ghost use Rattle.svc_record.specs.Text.{spaced, event_words};

    ghost output = { λ e. Some (spaced (event_words e)) };

    fn fmt<W: fmt::Write>(&self, f: &mut fmt::Formatter<W>) -> fmt::Result {
        let word = self.keyword();
        match self {
            Event::Moment(n) | Event::Finished(n) => write!(f, "{word} {n}"),
            Event::Ready(s) | Event::Ended(s) => write!(f, "{word} {s}"),
            Event::InUse(s, i)
            | Event::BindFailed(s, i)
            | Event::Adopted(s, i)
            | Event::AdoptFailed(s, i) => write!(f, "{word} {s} {i}"),
            Event::Bound(s, i, n) | Event::LoopEnded(s, i, n) => write!(f, "{word} {s} {i} {n}"),
            Event::Received(bytes, fds) => write!(
                f,
                "{word} {} {}",
                HexBytes(bytes.as_slice()),
                FdNumbers(fds.as_slice())
            ),
            Event::Arrived(s, i, c, peer) => write!(f, "{word} {s} {i} {c} {peer}"),
            Event::AcceptFailed(s, i, n) => write!(f, "{word} {s} {i} {n}"),
            Event::Set(c, ok) | Event::Shaken(c, ok) => write!(f, "{word} {c} {}", OkWord(*ok)),
            Event::Signal(kind) => write!(f, "{word} {kind}"),
            Event::Side(side) => write!(f, "{word} {side}"),
            Event::NoSenderYet
            | Event::ReceiveFailed
            | Event::Connected
            | Event::NotThere
            | Event::StillConnecting
            | Event::ConnectFailed
            | Event::Sent
            | Event::SendBusy
            | Event::SendFailed
            | Event::ChildReady
            | Event::ChildGone
            | Event::DropFailed => write!(f, "{word}"),
        }
    }
}
