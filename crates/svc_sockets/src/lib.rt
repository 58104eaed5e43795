//! The sockets of an echo server: what echoes, the tables of a server's sockets, and the slot through
//! which a server hands its listeners to the next one.
#![tactic(auto)]

mod connections;
mod descriptors;
mod echoing;
mod endpoints;
mod offers;
mod slot;
mod sockets;
mod streams;

pub use descriptors::Descriptors;
pub use echoing::{EchoEnd, PIECE, echo};
pub use slot::{Letter, Slot};
pub use sockets::{Accepted, NextRefused, Seat, Sockets, accept, peer_of};
pub use streams::{Incoming, Outgoing};
