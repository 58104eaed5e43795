//! The part of a server's core on the offer: a server that is told to upgrade offers its sockets to
//! its successor.
#![tactic(auto)]

mod copies;
mod offer;
mod offering;

pub use offer::Offer;
pub use offering::Offering;
