//! What stands for TLS where there is none.

pub mod connectors;
pub mod listeners;
pub mod stream;
pub mod utils;

/// A TLS session.
#[derive(Drop)]
pub struct TlsRef;

/// A certificate with its key.
#[derive(Drop)]
pub struct CertWrapper;

/// Certificates that are trusted.
pub type CaType<'a> = &'a [CertWrapper];

impl CertWrapper {
    ghost use Rattle.std.specs.Prelude.{◌≡◌, []};

    /// Until when it is valid: empty.
    pub fn not_after(&self) -> &str
        ensures { result.now ≡ [] }
    {
        ""
    }
}
