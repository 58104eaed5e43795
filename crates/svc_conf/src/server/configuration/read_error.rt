//! Why a configuration isn't read.

use crate::server::configuration::Key;
use svc_base::NoMemory;
use thiserror::Error;

/// Why a configuration isn't read.
#[derive(Clone, Copy, PartialEq, Eq, Debug, Error)]
pub enum ReadError {
    /// The file wasn't read: it can't be, isn't UTF-8 or has over 16,777,216 bytes.
    #[error("the configuration file can't be read")]
    Fault,
    /// The line with this number, from 1, is the first that the text's profile doesn't allow.
    #[error("line {0} of the configuration is refused")]
    Line(u64),
    /// The line with this number, from 1, is the first that is refused, since it gives the key a value
    /// that isn't of its sort.
    #[error("line {line} of the configuration has no value for {}", .key.name())]
    Value { key: Key, line: u64 },
    /// The setting with this key is one that no server can run with.
    #[error("the configuration is refused for {}", .0.name())]
    Invalid(Key),
    /// No path was given.
    #[error("no path of a configuration file is given")]
    NoPath,
    /// There was no memory.
    #[error("out of memory")]
    NoMemory,
}

impl From<NoMemory> for ReadError {
    ghost use Rattle.std.specs.Prelude.{◌≡◌};
    ghost use Rattle.svc_conf.specs.declared.server.configuration.read_error.ReadError.TheVariants.{NoMemory};

    ghost from_gives = { λ _ e. e ≡ NoMemory };

    fn from(_: NoMemory) -> Self {
        ReadError::NoMemory
    }
}
