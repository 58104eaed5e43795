//! The part of a server's core on connections: each that arrives is judged, set up and served, and
//! what is live at the end is cut.
#![tactic(auto)]

mod connections;
mod live;
mod settings;
mod stage;

pub use connections::{Connections, on_accept_failed};
pub use settings::settings_of;
pub use stage::{Connection, Stage};
