//! The part of a server's core on endpoints: which are asked for, held, busy or failed, and which
//! descriptors are live.
#![tactic(auto)]

mod answers;
mod came;
mod dues;
mod endpoints;
mod failing;
mod firsts;
mod loops;
mod message;
mod naming;
mod received;
mod rests;
mod states;
mod sums;
mod table;
mod tallies;
mod uses;
mod visit;

pub use endpoints::Endpoints;
pub use rests::Standing;
