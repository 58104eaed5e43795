//! Whether a record is right: each definition of a right record as a function that looks back over it.
#![tactic(auto)]

mod alone;
mod anew;
mod binds;
mod boot;
mod chains;
mod closes;
mod connections;
mod descriptors;
mod ending;
mod endpoints;
mod ends;
mod facts;
mod failed;
mod fits;
mod judging;
pub mod laws;
mod looking;
mod marks;
mod memo;
mod offer;
mod past;
mod plans;
mod query;
mod rules;
mod settled;
mod still;
mod stirred;
mod tails;
mod waits;

pub use judging::{Breach, Rule, Verdict, judge};
pub use tails::{judge_closed, judge_stray};
