//! A core that runs, with the record of its run.
#![tactic(auto)]

mod session;

pub use session::Session;
