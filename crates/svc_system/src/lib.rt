//! What the operating system is to one server: the sockets that it listens on, its connections, which
//! of them are ready, the time, and the operators at its control socket.
#![tactic(auto)]

mod address;
mod connections;
mod endpoints;
mod forward;
mod handover;
mod inherited;
mod listeners;
mod numbers;
mod offer;
mod operators;
mod orders;
mod readiness;
mod report;
mod standard;
mod streams;
mod system;
mod times;
mod tokens;

pub use address::{ControlAddress, is_loopback};
pub use handover::Handover;
pub use inherited::{Inherited, MOST_PASSED};
pub use offer::UpgradeAnswer;
pub use orders::{Order, OrderLine, order_of};
pub use report::LogState;
pub use standard::{StandardDescriptors, hold_standard_descriptors};
pub use system::{OpenRefused, System};
pub use times::earlier;
