//! Services that listen.

pub mod listening;
