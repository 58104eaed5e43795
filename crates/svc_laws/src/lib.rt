//! Laws of the definitions: what holds of every right record, and that the two forms of a definition
//! agree.
#![tactic(auto)]

pub mod agreement;
pub mod records;
