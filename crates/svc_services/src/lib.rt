//! The server that a script's services are in: one for a simulation and for what serves over the system.
#![tactic(auto)]

mod script_filter;
mod script_service;
mod services;

pub use script_filter::ScriptFilter;
pub use script_service::ScriptService;
pub use services::{configured, filtered_script, server_of_script, server_of_services};
