//! What a server is told and what it tells, its plan, and in `specs/` what a right record of both is.
#![tactic(auto)]

mod action;
mod copies;
mod entry;
mod event;
mod item;
mod plan;
mod printed;
mod validity;

pub use action::{Action, Actions, BootstrapError, ExecutionPhase, StepEnd};
pub use entry::{Entries, Entry};
pub use event::{Event, ShutdownSignal, Side};
pub use item::Item;
pub use plan::{Plan, ServiceList, ServicePlan};
pub use validity::startup_graph;
