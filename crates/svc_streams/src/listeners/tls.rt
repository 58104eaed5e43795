//! The TLS handshake.

ghost use Rattle.std.specs.Prelude.{List};
ghost use Rattle.svc_streams.specs.StreamPolls.{StreamPoll, IsPolled};

use crate::protocols::l4::stream::{L4Stream, StepPoll};
use svc_socket::protocols::tls::noop_tls::TlsRef;

/// A backend that makes the TLS handshake of one connection.
pub trait TlsHandshake {
    // Which polls may come, one after another, with what they answer and what they leave.
    ghost may_shake: { Self → List StreamPoll → Type 0 };

    /// Goes on with the handshake, and is polled again while the answer is `Pending`.
    fn poll_handshake(&mut self, stream: &mut L4Stream) -> StepPoll
        ensures { IsPolled may_shake self.old self.new
            (record { before = stream.old; answer = result; after = stream.new }) };
}

/// What is called during a TLS handshake.
pub trait TlsAccept: Drop {
    /// Is called where the certificate can still be chosen. As written here it does nothing.
    fn certificate_callback(&mut self, _ssl: &mut TlsRef) {}

    /// Is called after the handshake. A number that it answers stays with the session. As written
    /// here there is none.
    fn handshake_complete_callback(&mut self, _ssl: &TlsRef) -> Option<u64> {
        None
    }
}

/// The calls during a TLS handshake, in a box.
pub type TlsAcceptCallbacks = Box<dyn TlsAccept>;
