//! The part of a server's core on how a run begins: a daemon forks, and a starting server takes over
//! the sockets of an older one.
#![tactic(auto)]

mod boot;
mod fork;
pub mod laws;
mod receiving;

pub use boot::Boot;
pub use fork::Fork;
pub use receiving::Receiving;
