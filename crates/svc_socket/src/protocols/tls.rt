//! TLS.

pub mod digest;
pub mod noop_tls;
