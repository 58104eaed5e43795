//! What stands between a listening descriptor and the application.

pub mod connection_filter;
pub mod handshake;
pub mod pre_tls;
pub mod tls;
