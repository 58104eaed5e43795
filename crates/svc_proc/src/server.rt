//! Signals that end a server, and daemons.

use numbers::signal_of;
use std::marker::Model;

pub mod daemon;
mod numbers;

/// A signal that ends a server.
#[derive(Clone, Copy, PartialEq, Eq, Debug)]
pub enum ShutdownSignal {
    /// A successor takes over: the server hands it its listening descriptors, and ends once its work
    /// is done.
    GracefulUpgrade,
    /// The server ends once its work is done.
    GracefulTerminate,
    /// The server ends at once.
    FastShutdown,
}

/// Where the signals that end a server come from.
pub trait ShutdownSignalWatch {
    /// Takes the signal that came, if one did.
    fn poll_recv(&mut self) -> Option<ShutdownSignal>;
}

/// The signals of a Unix system. Contracts see it as the signal that the next `poll_recv` gives.
#[derive(Debug, Drop)]
pub struct UnixShutdownSignalWatch {
    kept: Option<ShutdownSignal>,
}

impl Model for UnixShutdownSignalWatch {
    ghost use Rattle.std.specs.Prelude.{Option};
    ghost use Rattle.svc_proc.specs.declared.server.ShutdownSignal.{ShutdownSignal};

    ghost Value = { Option ShutdownSignal };

    ghost view = { λ watch. watch.kept };
}

impl UnixShutdownSignalWatch {
    ghost use Rattle.std.specs.Prelude.{◌≡◌, None};
    ghost use Rattle.svc_proc.specs.Signals.{kept};

    /// No signal came yet.
    pub fn new() -> Self
        ensures { result ≡ None }
    {
        UnixShutdownSignalWatch { kept: None }
    }

    /// The system raised the signal of this number: 3 upgrades, 15 terminates and 2 ends at once;
    /// others do nothing. Of those that come before the next `poll_recv` the first is kept.
    pub fn raise(&mut self, number: i32)
        ensures { self.new ≡ kept self.old number }
    {
        if self.kept.is_none() {
            self.kept = signal_of(number);
        }
    }
}

impl ShutdownSignalWatch for UnixShutdownSignalWatch {
    ghost use Rattle.std.specs.Prelude.{◌≡◌, None};

    fn poll_recv(&mut self) -> Option<ShutdownSignal>
        ensures given { result ≡ self.old }
        ensures taken { self.new ≡ None }
    {
        self.kept.take()
    }
}
