//! A host of the operating system: a server's actions are performed on real sockets, its events come of
//! them, and its record is shown to a recorder as it grows.
#![tactic(auto)]

mod answers;
mod gated_filter;
mod log;
mod recorded_host;
mod recorder;
mod serving;
mod system_host;
mod told_account;
mod waiting;

pub use gated_filter::GatedFilter;
pub use log::Log;
pub use recorded_host::RecordedHost;
pub use recorder::Recorder;
pub use serving::{ServedRun, ServedServer, run_served};
pub use system_host::SystemHost;
pub use waiting::Waiting;
