//! What a run takes and answers.

use svc_conf::Key;
use svc_record::BootstrapError;
use thiserror::Error;

/// How a run went well.
#[derive(Clone, Copy, PartialEq, Eq, Debug)]
pub enum Outcome {
    /// It went through its shutdown.
    Served,
    /// It tested that it can start.
    TestPassed,
    /// This process is the parent of the server's, and ends with this status.
    Parent(u8),
}

/// Why a run ended before its shutdown was through. After each of these, want of memory among them,
/// every descriptor that an event brought was told to be closed; so it was where the run tested that
/// it can start, or this process is the parent.
#[derive(Clone, Copy, PartialEq, Eq, Debug, Error)]
pub enum RunError {
    /// The configuration is refused for this key; nothing was told.
    #[error("the configuration is refused for {}", .0.name())]
    Config(Key),
    /// The host failed.
    #[error("the host failed")]
    HostFault,
    /// The server couldn't take over an older one's sockets.
    #[error("the handover failed: {}", handover_fault(*.0))]
    Bootstrap(BootstrapError),
    /// The event with this number, from 1, didn't fit.
    #[error("event {0} doesn't fit")]
    Stray(u64),
    /// As many events as there are turns were taken.
    #[error("the turns are spent")]
    TurnsSpent,
    /// Nothing came any more.
    #[error("out of events")]
    OutOfEvents,
    /// There was no memory.
    #[error("out of memory")]
    NoMemory,
}

/// What the error says.
fn handover_fault(error: BootstrapError) -> &'static str {
    match error {
        BootstrapError::Transfer => "receiving failed",
        BootstrapError::NoSender => "no older server was there",
        BootstrapError::BadMessage => "what came is no message",
    }
}

impl From<svc_base::NoMemory> for RunError {
    ghost use Rattle.std.specs.Prelude.{◌≡◌};
    ghost use Rattle.svc_server.specs.declared.run.RunError.TheVariants as errors;

    ghost from_gives = { λ _ error. error ≡ errors.NoMemory };

    fn from(_: svc_base::NoMemory) -> Self {
        RunError::NoMemory
    }
}

/// What a run is given beside its host.
#[derive(Clone, Copy, PartialEq, Eq, Debug)]
pub struct RunArgs {
    /// How many events it takes at most.
    pub turns: u64,
}

impl Default for RunArgs {
    ghost use Rattle.std.specs.Prelude.{◌≡◌};

    ghost is_default = { λ args. args ≡ record { turns = 1000000 } };

    fn default() -> Self {
        RunArgs { turns: 1_000_000 }
    }
}
