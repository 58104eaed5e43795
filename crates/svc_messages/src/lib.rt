//! What a person is told on standard error: why words, a script, a configuration or a run was refused, and how far a
//! long input is.
#![tactic(auto)]

mod addresses;
mod command;
mod configuration;
mod dependencies;
mod ending_line;
mod ends;
mod events;
mod explaining;
mod near;
mod pieces;
mod places;
mod progress;
mod record_lines;
mod refused_lines;
mod script;
mod service_lines;
mod services;
mod spelling;
mod stray;
mod waits;
mod warning_lines;
mod words;

pub use command::{help, words_message};
pub use configuration::unknown_keys;
pub use ending_line::last_line;
pub use explaining::{Ending, explanation};
pub use progress::ProgressSource;
pub use refused_lines::more_refusals;
pub use script::script_message;
pub use spelling::{is_one_off, nearest};
pub use warning_lines::warnings;
