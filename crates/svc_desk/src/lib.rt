//! Desks, which are the outside of a worker, and workers that post their events on one shared server.
#![tactic(auto)]

mod desk;
mod memory_desk;
mod serving;
mod stray;
mod worker;

pub use desk::{Desk, DeskAnswer};
pub use memory_desk::{DeskItem, MemoryDesk};
pub use serving::{EchoReason, EchoRefused, Echoed, serve_desks};
pub use stray::{StrayList, Strayed};
pub use svc_shared::Gate;
pub use worker::{WorkEnd, Worked, work};
