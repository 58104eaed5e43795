//! The connecting side.

ghost use Rattle.std.specs.Prelude.{◌≡◌};

use super::stream::SslStream;

/// What connects.
#[derive(Clone, Copy, Drop)]
pub struct Connector {
    pub ctx: TlsConnector,
}

/// What a connector stands over.
#[derive(Clone, Copy, Drop)]
pub struct TlsConnector;

/// The settings of connects.
#[derive(Drop)]
pub struct TlsSettings;

impl Connector {
    /// A connector. There is nothing to set.
    pub fn new() -> Self
        ensures { result ≡ record { ctx = record {} } }
    {
        Connector { ctx: TlsConnector }
    }
}

/// Drops the stream, and answers the stream that moves nothing.
pub fn tls_connect<T: Drop>(_stream: T) -> SslStream<T>
    ensures { result ≡ record { of = record {} } }
{
    SslStream::default()
}
