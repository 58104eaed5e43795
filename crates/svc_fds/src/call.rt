//! The calls of a channel, with their answers.

use crate::fd::Fd;
use crate::retry::SendAnswer;
use svc_base::{Bytes, Items};

/// What one try to receive gave.
#[derive(Debug)]
pub enum ReceiveAnswer {
    /// The bytes of a message, and its descriptors, at most 32.
    Got(Bytes, Vec<Fd>),
    /// Nobody sends yet.
    NotYet,
    /// The channel failed.
    ReceiveFailed,
    /// There was no memory for the message, which waits.
    NoMemory,
}

/// What one try to receive gave, as a channel tells it: with the numbers of the descriptors.
#[derive(Drop)]
pub enum Receipt {
    /// A message's bytes, and the numbers of its descriptors.
    Got(Bytes, Items<u64>),
    /// Nobody sends yet.
    NotYet,
    /// The channel failed.
    Failed,
    /// There was no memory for the message, which waits.
    NoMemory,
}

/// A call of a channel, with its answer.
#[derive(Drop)]
pub enum ChannelCall {
    /// Whether it listens from then on.
    Listen(bool),
    /// A try to receive, and what it gave.
    Receive(Receipt),
    /// A try to connect, and its answer.
    Connect(SendAnswer),
    /// The bytes and the numbers that were to be sent.
    Send(Bytes, Items<u64>, SendAnswer),
    /// So many milliseconds.
    Rest(u64),
    /// The number of the descriptor.
    Close(u64),
}
