//! A server over any host: what it is made of, and its run.
#![tactic(auto)]

mod account;
mod account_host;
mod asking;
mod handing;
mod host;
mod inner_host;
mod pending_services;
mod run;
mod script_host;
mod script_items;
mod server;
mod turns;

pub use account::failures_with;
pub use account_host::AccountHost;
pub use host::{Host, Next};
pub use inner_host::InnerHost;
pub use run::{Outcome, RunArgs, RunError};
pub use script_host::ScriptHost;
pub use server::{AddAllRefused, AddError, AddRefused, Server};
pub use svc_record::Item;
