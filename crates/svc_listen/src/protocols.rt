//! Transport.

pub mod l4;
