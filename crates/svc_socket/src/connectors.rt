//! Connections that go out.

pub mod dialer;
pub mod l4;
pub mod memory;
pub mod net;
