//! The program of a chain of server generations as one call: blocks and steps in, the records of the
//! generations and a status line out. The chain itself stands in `svc_supervisor`.
#![tactic(auto)]

mod answering;
mod block_text;
mod input;
mod outcome;
mod plans;
mod printing;
mod program;
mod serving;
mod steps;

pub use outcome::{ChainLine, StepRefusal};
pub use program::serve_chain;
pub use svc_supervisor::{Chain, ChainRefused};
