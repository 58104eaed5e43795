//! What the services of a program that serves do: the lines that say it, and bytes that go from a source to
//! a sink.
#![tactic(auto)]

mod conveying;
mod parts;
mod works;

pub use conveying::{Conveyance, Conveyed};
pub use parts::{FileParts, WorksRefused, file_parts, works_of};
pub use works::{Work, WorkFile, WorkLine, file_path};
