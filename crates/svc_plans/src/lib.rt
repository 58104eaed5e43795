//! The plan of a script's services, made without a server.
#![tactic(auto)]

mod plan_parts;
mod script_plan;

pub use plan_parts::{first_refused, service_plans, settled};
pub use script_plan::{PlanError, plan_of_script};
