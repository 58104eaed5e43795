//! Why a chain doesn't do what it is asked.

use svc_core::{Event, Plan};
use thiserror::Error;

/// Why a chain doesn't begin, launch or step. What was handed in comes back, and the chain is as it was.
#[derive(Debug, Drop, Error)]
pub enum ChainRefused {
    /// The plan isn't valid, or it tests or becomes a daemon, or it takes over where it is the first, or it
    /// doesn't where it is a later one.
    #[error("no generation can be run by the plan")]
    BadPlan(Plan),
    /// The chain has 64 generations.
    #[error("the chain has 64 generations")]
    TooMany(Plan),
    /// The newest generation hasn't taken over from the one before it.
    #[error("the newest generation hasn't taken over yet")]
    NotReady(Plan),
    /// No generation has this number.
    #[error("no generation has this number")]
    UnknownGeneration(Event),
    /// The signal comes to a generation that hasn't taken over from the one before it.
    #[error("the generation hasn't taken over yet")]
    Early(Event),
    /// The event doesn't fit the generation's record, or a channel to a neighbour doesn't allow it.
    #[error("the event may not come")]
    Stray(Event),
    /// Memory was refused. An event comes back; a plan doesn't, since the server takes it.
    #[error("out of memory")]
    NoMemory(Option<Event>),
}
