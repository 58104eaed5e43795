//! Why a call of a shared server was refused, with what comes back.

use crate::pass::{Pass, SharedServer};
use svc_base::NoMemory;
use svc_record::Event;
use thiserror::Error;

/// Why a post was refused.
#[derive(Clone, Copy, PartialEq, Eq, Debug, Error)]
pub enum PostReason {
    /// The turn's word was odd, or no longer the one that was loaded.
    #[error("the turn isn't free: its word is {0}")]
    Busy(u64),
    /// The journal has as many posts as it may have.
    #[error("the journal is full")]
    Full,
    /// The event doesn't fit after so many posts.
    #[error("the event doesn't fit after {0} posts")]
    Stray(u64),
    /// There was no memory.
    #[error("out of memory")]
    NoMemory,
}

/// A refused post. The pass and the event come back, and the journal is as it was.
#[derive(Drop)]
pub struct PostRefused {
    pub reason: PostReason,
    pub pass: Pass,
    pub event: Event,
}

/// Why a pass wasn't split.
#[derive(Clone, Copy, PartialEq, Eq, Debug, Error)]
pub enum SplitReason {
    /// The share has one number.
    #[error("the share has one number")]
    Thin,
    /// No number is left to be drawn.
    #[error("no seat number is left")]
    NoNumber,
    /// A split takes no memory, so this never comes.
    #[error("out of memory")]
    NoMemory,
}

/// A refused split. The pass comes back.
#[derive(Drop)]
pub struct SplitRefused {
    pub reason: SplitReason,
    pub pass: Pass,
}

/// A refused close. The server and the pass come back.
#[derive(Drop)]
pub struct CloseRefused {
    pub reason: NoMemory,
    pub server: SharedServer,
    pub pass: Pass,
}
