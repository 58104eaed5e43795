//! Where a server listens: addresses, listeners and their endpoints, what binds an address and what
//! accepts on it.
#![tactic(auto)]

mod accepting;
mod binder;
pub mod laws;
pub mod listeners;
mod memory_accepting;
mod memory_binder;
pub mod protocols;
pub mod services;

pub use accepting::{Accepting, AcceptingCall, Arrival};
pub use binder::{BindAnswer, BindOutcome, Binder, BinderCall};
pub use listeners::l4::{
    AcceptAnswer, BindErrorKind, ListenError, ListenRefused, ListenerEndpoint,
    ListenerEndpointBuilder, Permissions, ServerAddress,
};
pub use listeners::{
    ConfigError, ConfigRefused, EndpointRefused, ListenerConfig, Listeners, TransportStack,
};
pub use memory_accepting::{MemoryAccepting, SteadyAccepting};
pub use memory_binder::{MemoryBinder, SteadyBinder};
pub use protocols::l4::listener::Listener;
pub use services::listening::{RuntimeOptsOverride, Service};
pub use svc_socket::{PeerAddr, TcpSocketOptions};
pub use svc_streams::{
    AcceptAllFilter, CallbackRefused, ConnectionFilter, DEFAULT_L4_READ_BUFFER_SIZE,
    DEFAULT_L4_WRITE_BUFFER_SIZE, FilterRefused, Filters, HANDSHAKE_TIMEOUT_MS, Handled,
    HandshakePoll, L4BufferSettings, L4Stream, Peer, PreTlsCallbacks, PreTlsProcess, ServerApp,
    StepPoll, TlsAccept, TlsAcceptCallbacks, TlsHandshake, UninitializedStream, handle_event,
};
