//! Sockets that listen.

pub mod listener;
