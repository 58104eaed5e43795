//! What a server asks of the process that it runs in: the signals that end it, and a daemon with its
//! parent.
#![tactic(auto)]

mod memory;
mod process;
pub mod server;

pub use memory::{MemoryProcess, SteadyProcess};
pub use process::{ForkAnswer, Process, ProcessCall, SignalAnswer};
pub use server::daemon::{
    DaemonError, DaemonizeResult, Daemonized, Notified, NotifyNext, NotifyRetry, ParentEvent,
    ParentNext, ParentWait, SignalError, daemonize, notify_parent_ready_for_fds,
};
pub use server::{ShutdownSignal, ShutdownSignalWatch, UnixShutdownSignalWatch};
