//! Transport.

pub mod ext;
pub mod virt;
