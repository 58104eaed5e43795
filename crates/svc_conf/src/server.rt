//! What a server is set up with.

pub mod configuration;
