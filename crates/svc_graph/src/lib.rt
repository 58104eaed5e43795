//! Services as a graph of dependencies, with the order in which they start, and what a service says
//! of its endpoints.
#![tactic(auto)]

mod above;
mod bits;
mod graph;
mod handles;
pub mod laws;
mod plan;
pub mod services;
mod sort;

pub use bits::Bits;
pub use graph::{
    AddNodeReason, AddNodeRefused, DependencyError, DependencyGraph, NODE_LIMIT, Waiting,
};
pub use handles::ServiceHandle;
pub use plan::{ADDRESS_LIMIT, ENDPOINT_LIMIT, EndpointList, EndpointPlan, Kind};
pub use svc_history::Steps;
