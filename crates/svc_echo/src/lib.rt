//! An echo server with two workers over real sockets on loopback.
#![tactic(auto)]

mod adapters;
mod desks;
mod journal;
mod planning;
mod reports;
mod running;
mod words;

pub use adapters::{AcceptedStream, SocketAccepting, SocketBinder};
pub use desks::{RealDesk, real_desk};
pub use planning::echo_plan;
pub use running::{EchoRun, JOURNAL_LIMIT, run_echo};
pub use svc_sockets::{EchoEnd, Letter, Seat, Slot, Sockets, echo};
