//! The listening side.

ghost use Rattle.std.specs.Prelude.{◌≡◌};

use super::stream::SslStream;
use thiserror::Error;

/// There is no TLS. The stream comes back.
#[derive(Debug, Drop)]
pub struct HandshakeRefused<S> {
    pub reason: NoTls,
    pub stream: S,
}

/// There is no TLS.
#[derive(Clone, Copy, PartialEq, Eq, Debug, Error)]
#[error("there is no TLS")]
pub struct NoTls;

/// What accepts.
#[derive(Drop)]
pub struct Acceptor;

/// The settings of a listener.
#[derive(Drop)]
pub struct TlsSettings;

impl TlsSettings {
    /// What accepts with these settings.
    pub fn build(&self) -> Acceptor
        ensures { result ≡ record {} }
    {
        Acceptor
    }

    /// The settings of a certificate and its key. Neither is looked at.
    pub fn intermediate(_cert: &str, _key: &str) -> TlsSettings
        ensures { result ≡ record {} }
    {
        TlsSettings
    }

    /// Does nothing.
    pub fn enable_h2(&mut self)
        ensures { self.new ≡ self.old }
    {}

    /// Does nothing.
    pub fn set_offload_threadpool(&mut self, _pools: u64, _threads: u64)
        ensures { self.new ≡ self.old }
    {}

    /// Does nothing, whatever the configuration of the server is.
    pub fn set_offload_threadpool_from_server_conf<C>(&mut self, _conf: &C)
        ensures { self.new ≡ self.old }
    {}
}

impl Acceptor {
    ghost use Rattle.std.specs.Prelude.{IsErr, IfErr};

    /// Always refuses.
    pub fn tls_handshake<S>(&self, stream: S) -> Result<SslStream<S>, HandshakeRefused<S>>
        ensures refused { IsErr result }
        ensures back { IfErr result (λ refused. refused.stream ≡ stream) }
    {
        Err(HandshakeRefused {
            reason: NoTls,
            stream,
        })
    }
}
