//! Transport and TLS.

pub mod l4;
pub mod tls;
