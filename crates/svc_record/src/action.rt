use crate::printed::{FdNumbers, HexBytes, SettingWords, YesWord};
use std::fmt;
use svc_base::{Bytes, Reserved, Settings};
use svc_fds::FdList;

/// What a server is about.
#[derive(Clone, Copy, PartialEq, Eq, Debug)]
pub enum ExecutionPhase {
    /// Before everything. It is never told.
    Setup,
    /// It takes over an older server's sockets, if it was started for that.
    Bootstrap,
    /// It has what its services start with.
    BootstrapComplete,
    /// Its services run, and it waits for a signal.
    Running,
    /// It hands its sockets to a successor.
    GracefulUpgradeTransferringFds,
    /// It has handed them over, and gives the successor time before it ends its own loops.
    GracefulUpgradeCloseTimeout,
    /// It was asked to end gracefully.
    GracefulTerminate,
    /// Its services were told to end.
    ShutdownStarted,
    /// Connections have the grace period to end.
    ShutdownGracePeriod,
    /// What still runs has a last time to end.
    ShutdownRuntimes,
    /// It has ended.
    Terminated,
}

/// What the core tells the host.
#[derive(PartialEq, Eq, Debug, Drop)]
pub enum Action {
    /// Start the service.
    Start(u32),
    /// Give the service up.
    Fail(u32),
    /// Bind the address of the service's endpoint.
    Bind(u32, u32),
    /// Listen for the service's endpoint on this descriptor, which is held already.
    Adopt(u32, u32, u64),
    /// Close the descriptor.
    Close(u64),
    /// Make the socket at which an older server's message is received.
    OpenReceiver,
    /// Try once to receive it.
    TryReceive,
    /// Tell the waiting parent that the server is ready.
    NotifyParent,
    /// Connect to the successor.
    Connect,
    /// Send the successor this message, with these descriptors.
    Send(Bytes, FdList),
    /// Publish the phase, with the last moment in milliseconds.
    Phase(ExecutionPhase, u64),
    /// Tell the services that the server shuts down.
    Broadcast,
    /// What the filter said of the connection.
    Judged(u64, bool),
    /// Drop the connection, which its filter refused.
    Refuse(u64),
    /// Apply these settings to the connection, in order.
    Settings(u64, Settings),
    /// Poll the connection's handshake.
    Handshake(u64),
    /// Hand the connection to the application.
    Serve(u64),
    /// Drop the connection after a failure.
    Drop(u64),
    /// Let the accept loop of the service's endpoint rest for one second.
    Rest(u32, u32),
    /// Drop the live connection.
    Cut(u64),
    /// Stop the services' workers, waiting so many seconds.
    Stop(u64),
    /// Fork.
    Daemonize,
}

/// What a server tells, in the order in which it tells it, in a list whose room is reserved before an event is taken.
pub type Actions = Reserved<Action>;

/// Why a server couldn't take over an older one's sockets.
#[derive(Clone, Copy, PartialEq, Eq, Debug)]
pub enum BootstrapError {
    /// Receiving failed.
    Transfer,
    /// No older server was there, however often it was tried.
    NoSender,
    /// What came is no message.
    BadMessage,
}

/// What a step leaves of the run.
#[derive(Clone, Copy, PartialEq, Eq, Debug)]
pub enum StepEnd {
    /// The run goes on.
    On,
    /// The run went through its shutdown.
    Served,
    /// The run tested that it can start.
    Tested,
    /// This process is the parent of the server's, and ends with this status.
    Parent(u8),
    /// The server couldn't take over.
    Ended(BootstrapError),
}

impl ExecutionPhase {
    ghost use Rattle.std.specs.Prelude.{◌≡◌};
    ghost use Rattle.svc_record.specs.Text.{phase_word};

    /// The phase's name.
    pub fn word(self) -> &'static str
        ensures { result.now ≡ phase_word self }
    {
        match self {
            ExecutionPhase::Setup => "Setup",
            ExecutionPhase::Bootstrap => "Bootstrap",
            ExecutionPhase::BootstrapComplete => "BootstrapComplete",
            ExecutionPhase::Running => "Running",
            ExecutionPhase::GracefulUpgradeTransferringFds => "GracefulUpgradeTransferringFds",
            ExecutionPhase::GracefulUpgradeCloseTimeout => "GracefulUpgradeCloseTimeout",
            ExecutionPhase::GracefulTerminate => "GracefulTerminate",
            ExecutionPhase::ShutdownStarted => "ShutdownStarted",
            ExecutionPhase::ShutdownGracePeriod => "ShutdownGracePeriod",
            ExecutionPhase::ShutdownRuntimes => "ShutdownRuntimes",
            ExecutionPhase::Terminated => "Terminated",
        }
    }
}

impl fmt::Display for ExecutionPhase {
    ghost use Rattle.std.specs.Prelude.{Some};
    ghost use Rattle.svc_record.specs.Text.{phase_word};

    ghost output = { λ p. Some (phase_word p) };

    fn fmt<W: fmt::Write>(&self, f: &mut fmt::Formatter<W>) -> fmt::Result {
        let word = self.word();
        write!(f, "{word}")
    }
}

impl Action {
    ghost use Rattle.std.specs.Prelude.{◌≡◌};
    ghost use Rattle.svc_record.specs.Keywords.{action_keyword};

    /// The first word of the action's line.
    pub fn keyword(&self) -> &'static str
        ensures { result.now ≡ action_keyword self.now }
    {
        match self {
            Action::Start(_) => "start",
            Action::Fail(_) => "fail",
            Action::Bind(_, _) => "bind",
            Action::Adopt(_, _, _) => "adopt",
            Action::Close(_) => "close",
            Action::OpenReceiver => "openreceiver",
            Action::TryReceive => "tryreceive",
            Action::NotifyParent => "notifyparent",
            Action::Connect => "connect",
            Action::Send(_, _) => "send",
            Action::Phase(_, _) => "phase",
            Action::Broadcast => "broadcast",
            Action::Judged(_, _) => "judged",
            Action::Refuse(_) => "refuse",
            Action::Settings(_, _) => "settings",
            Action::Handshake(_) => "handshake",
            Action::Serve(_) => "serve",
            Action::Drop(_) => "drop",
            Action::Rest(_, _) => "rest",
            Action::Cut(_) => "cut",
            Action::Stop(_) => "stop",
            Action::Daemonize => "daemonize",
        }
    }
}

impl fmt::Display for Action {
    ghost use Rattle.std.specs.Prelude.{Some};
    ghost use Rattle.svc_record.specs.Text.{spaced, action_words};

    ghost output = { λ a. Some (spaced (action_words a)) };

    #[tactic(auto, using(crate::proofs::SettingLemmas::spaced_settings))]
    fn fmt<W: fmt::Write>(&self, f: &mut fmt::Formatter<W>) -> fmt::Result {
        let word = self.keyword();
        match self {
            Action::Start(s) | Action::Fail(s) => write!(f, "{word} {s}"),
            Action::Bind(s, i) | Action::Rest(s, i) => write!(f, "{word} {s} {i}"),
            Action::Adopt(s, i, fd) => write!(f, "{word} {s} {i} {fd}"),
            Action::Close(n)
            | Action::Refuse(n)
            | Action::Handshake(n)
            | Action::Serve(n)
            | Action::Drop(n)
            | Action::Cut(n)
            | Action::Stop(n) => write!(f, "{word} {n}"),
            Action::Send(bytes, fds) => write!(
                f,
                "{word} {} {}",
                HexBytes(bytes.as_slice()),
                FdNumbers(fds.as_slice())
            ),
            Action::Phase(p, ms) => write!(f, "{word} {p} {ms}"),
            Action::Judged(c, said) => write!(f, "{word} {c} {}", YesWord(*said)),
            Action::Settings(c, list) => write!(f, "{word} {c}{}", SettingWords(list.as_slice())),
            Action::OpenReceiver
            | Action::TryReceive
            | Action::NotifyParent
            | Action::Connect
            | Action::Broadcast
            | Action::Daemonize => write!(f, "{word}"),
        }
    }
}
