//! The server core: a step for each event, and the actions that it tells.
#![tactic(auto)]

mod copies;
mod ends;
mod machine;
mod pass;
mod phase_reader;
mod plans;
mod starts;
mod waits;

pub use machine::Core;
pub use phase_reader::PhaseReader;
pub use svc_record::{
    Action, Actions, BootstrapError, Entries, Entry, Event, ExecutionPhase, Plan, ServiceList,
    ServicePlan, ShutdownSignal, Side, StepEnd,
};
