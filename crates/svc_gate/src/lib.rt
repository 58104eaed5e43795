//! A gate of address ranges: a filter of connections that is made from rules.
#![tactic(auto)]

mod counted;
mod gate;
mod ips;
mod lines;
mod program;
mod reading;
mod rules;
mod segments;
mod serving;
mod spans;
mod words;

pub use gate::Gate;
pub use program::serve_gate;
pub use reading::{GateError, read_rules};
pub use rules::{GateRule, GateRuleList, GateRules};
pub use svc_history::Steps;
