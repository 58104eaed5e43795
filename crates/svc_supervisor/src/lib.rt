//! A chain of server generations, each of which takes over the sockets of the one before it.
#![tactic(auto)]

mod chain;
mod generation;
mod marks;
mod places;
mod refused;

pub use chain::Chain;
pub use refused::ChainRefused;
