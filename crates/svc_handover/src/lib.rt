//! A handover between an old and a new core, over every schedule of their events.
#![tactic(auto)]

pub mod addresses;
pub mod channel;
mod law;
mod pair;
pub mod servers;

pub use law::handover_law;
pub use pair::{ChannelState, PairRefused, PairRun, PairStep};
