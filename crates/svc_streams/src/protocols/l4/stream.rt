//! An accepted connection.

ghost use Rattle.std.specs.Prelude.{◌≡◌, Some, None};
ghost use Rattle.svc_streams.specs.Buffers.{capacity_of};

use svc_base::Bytes;
pub use svc_socket::Peer;

/// How many bytes are read ahead where no number is given.
pub const DEFAULT_L4_READ_BUFFER_SIZE: u64 = 65536;

/// How many bytes are kept before they are written where no number is given.
pub const DEFAULT_L4_WRITE_BUFFER_SIZE: u64 = 1460;

/// The buffers of a stream, in bytes. None stands for the default size, 0 for no buffer.
#[derive(Clone, Copy, PartialEq, Eq, Debug)]
pub struct L4BufferSettings {
    pub read: Option<u64>,
    pub write: Option<u64>,
}

impl Default for L4BufferSettings {
    ghost is_default = { λ settings. settings ≡ record { read = None; write = None } };

    fn default() -> Self {
        L4BufferSettings {
            read: None,
            write: None,
        }
    }
}

impl L4BufferSettings {
    /// No buffers.
    pub fn unbuffered() -> Self
        ensures { result ≡ record { read = Some 0; write = Some 0 } }
    {
        L4BufferSettings {
            read: Some(0),
            write: Some(0),
        }
    }

    /// How many bytes are read ahead.
    pub fn read_capacity(&self) -> u64
        ensures { result ≡ capacity_of self.now.read 65536 }
    {
        self.read.unwrap_or(DEFAULT_L4_READ_BUFFER_SIZE)
    }

    /// How many bytes are kept before they are written.
    pub fn write_capacity(&self) -> u64
        ensures { result ≡ capacity_of self.now.write 1460 }
    {
        self.write.unwrap_or(DEFAULT_L4_WRITE_BUFFER_SIZE)
    }
}

/// An accepted connection.
#[derive(Debug, Drop)]
pub struct L4Stream {
    /// The number with which the connection came.
    pub c: u64,
    pub buffer: L4BufferSettings,
    pub peer: Peer,
    /// Bytes that were read already and that the application is to see first.
    pub head: Bytes,
}

/// What a step that is polled answers.
#[derive(Clone, Copy, PartialEq, Eq, Debug)]
pub enum StepPoll {
    /// It is to be polled again.
    Pending,
    /// The step is done.
    Done,
    /// The step failed.
    Failed,
}
