//! The part of a server that this crate holds.

pub mod transfer_fd;
