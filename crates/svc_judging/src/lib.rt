//! The text of a record read back: the entries that its lines say, and how the run ended.
#![tactic(auto)]

mod action_lines;
mod entry_lines;
mod reading;
mod setting_words;
mod status_lines;

pub use entry_lines::read_entry;
pub use reading::{ReadRecord, RecordError, read_record};
pub use status_lines::RecordEnd;
