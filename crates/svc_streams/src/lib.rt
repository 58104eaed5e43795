//! What is done with one accepted connection: filters, the handshake, and the application.
#![tactic(auto)]

pub mod apps;
pub mod listeners;
pub mod protocols;

pub use apps::{Handled, ServerApp, handle_event};
pub use listeners::connection_filter::{AcceptAllFilter, ConnectionFilter, FilterRefused, Filters};
pub use listeners::handshake::{HANDSHAKE_TIMEOUT_MS, HandshakePoll, UninitializedStream};
pub use listeners::pre_tls::{CallbackRefused, PreTlsCallbacks, PreTlsProcess};
pub use listeners::tls::{TlsAccept, TlsAcceptCallbacks, TlsHandshake};
pub use protocols::l4::stream::{
    DEFAULT_L4_READ_BUFFER_SIZE, DEFAULT_L4_WRITE_BUFFER_SIZE, L4BufferSettings, L4Stream, Peer,
    StepPoll,
};
