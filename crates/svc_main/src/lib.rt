//! The program as one call: a script in, the record of its run and a status line out.
#![tactic(auto)]

mod answering;
mod counting;
mod generator;
mod kept;
mod outcome;
mod planning;
mod program;
mod recorder;
mod recording_host;
mod runs;
mod text_lines;
mod words;

pub use kept::KeptTexts;
pub use outcome::{RunEnd, StatusLine};
pub use planning::{PlannedScript, plan_script};
pub use program::{one_answer, serve_kept, serve_script};
pub use text_lines::{is_daemon, is_header, is_skipped};
