//! Bootstrapping by itself, and the service as which a server bootstraps.
#![tactic(auto)]

pub mod server;

pub use server::bootstrap_services::{Bootstrap, BootstrapService};
