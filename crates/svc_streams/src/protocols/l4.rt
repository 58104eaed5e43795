//! The transport layer.

pub mod stream;
