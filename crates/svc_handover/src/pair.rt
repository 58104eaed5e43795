//! A schedule of a handover, and what it leaves.

use svc_core::{Entries, Event};
use thiserror::Error;

/// An event for one of the two servers.
#[derive(Debug, Drop)]
pub struct PairStep {
    /// The event is for the old server, else for the new one.
    pub old: bool,
    pub event: Event,
    /// What the filter says that the event asks. It is read only where an event asks one.
    pub said: bool,
}

/// How far a handover has come.
#[derive(Clone, Copy, PartialEq, Eq, Debug)]
pub enum ChannelState {
    /// The new server hasn't made the socket at which it receives.
    Missing,
    /// The new server listens, and the old one hasn't connected.
    Listening,
    /// The old server has connected, and has sent nothing.
    Connected,
    /// The message is on its way.
    InFlight,
    /// The new server has received the message.
    Taken,
}

/// What a schedule leaves: the record of each server, the first entry first, and the channel.
#[derive(Debug, Drop)]
pub struct PairRun {
    pub old: Entries,
    pub new: Entries,
    pub channel: ChannelState,
}

/// Why a schedule isn't run to its end.
#[derive(Clone, Copy, PartialEq, Eq, Debug, Error)]
pub enum PairRefused {
    /// The step with this number, from one, is the first that may not come: its event doesn't fit
    /// its server's record, or the channel doesn't allow it.
    #[error("step {0} may not come")]
    Stray(u64),
    /// Memory was refused.
    #[error("out of memory")]
    NoMemory,
}
