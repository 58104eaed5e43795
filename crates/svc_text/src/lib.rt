//! The script that a run is read from, and the text of its record.
#![tactic(auto)]

mod blocked;
mod conf_text;
mod endpoint_lines;
mod event_lines;
mod filters;
mod fitting;
mod front;
mod keys;
mod line_tails;
mod lists;
mod message_words;
mod packed_item;
mod parsing;
mod part;
mod plans;
mod printing;
mod reading;
mod record_lines;
mod refused;
mod script_items;
mod service;

pub use blocked::BlockedAddrs;
pub use endpoint_lines::EndpointLines;
pub use event_lines::{event_of_line, item_of_line};
pub use filters::{blocks, filter_number, is_blocked};
pub use parsing::{Script, ScriptError, parse};
pub use plans::accepted_plan;
pub use printing::{RecordText, one_record, record_text};
pub use refused::{add_dependencies, one_refused_service};
pub use script_items::ScriptItems;
pub use service::{EndpointLine, ServiceLine};
