//! The numbers that the system has for signals.

ghost use Rattle.std.specs.Prelude.{◌≡◌};
ghost use Rattle.svc_proc.specs.Signals.{signal_of};

use super::ShutdownSignal;

/// The signal that a number of the system means.
pub fn signal_of(number: i32) -> Option<ShutdownSignal>
    ensures { result ≡ signal_of number }
{
    match number {
        3 => Some(ShutdownSignal::GracefulUpgrade),
        15 => Some(ShutdownSignal::GracefulTerminate),
        2 => Some(ShutdownSignal::FastShutdown),
        _ => None,
    }
}
