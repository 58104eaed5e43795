//! Both directions of a connection that isn't waited for: a source of what comes, and a sink of what goes.

ghost use Rattle.std.specs.Prelude.{◌≡◌};
ghost use Rattle.svc_base.specs.Streams.{Rose};

use std::io::{ErrorKind, Read, Write};
use std::net::TcpStream;
use svc_base::{Put, Sink, Source, Taken};

/// A call with this error may succeed later.
fn may_come(kind: ErrorKind) -> bool {
    kind == ErrorKind::WouldBlock || kind == ErrorKind::Interrupted
}

/// What comes on a stream. It has no answer for bytes that aren't there yet: then it answers `Failed`, counts
/// that, and says that it waits.
#[derive(Drop)]
pub(crate) struct Incoming<'a> {
    stream: &'a TcpStream,
    count: u64,
    /// The last `Failed` was for bytes that aren't there yet.
    pub waits: bool,
}

impl<'a> Incoming<'a> {
    /// What comes on this stream.
    pub(crate) fn of(stream: &'a TcpStream) -> Self {
        Incoming {
            stream,
            count: 0,
            waits: false,
        }
    }
}

impl<'a> Source for Incoming<'a> {
    ghost use Rattle.std.specs.Prelude.{None};

    ghost left = { λ _. None };

    ghost faulted = { λ s. s.count };

    fn faults(&self) -> u64 {
        self.count
    }

    fn read(&mut self, buffer: &mut [u8]) -> Taken {
        let mut stream = self.stream;
        match stream.read(buffer) {
            Ok(0) => Taken::End,
            Ok(count) => Taken::Got(count),
            Err(error) => {
                self.waits = may_come(error.kind());
                self.count = self.count.saturating_add(1);
                Taken::Failed
            }
        }
    }
}

/// What goes on a stream. Where the stream takes nothing yet it answers `Failed`, counts that, and says that
/// it waits.
#[derive(Drop)]
pub(crate) struct Outgoing<'a> {
    stream: &'a TcpStream,
    count: u64,
    /// The last `Failed` was of a stream that takes nothing yet.
    pub waits: bool,
}

impl<'a> Outgoing<'a> {
    /// What goes on this stream.
    pub(crate) fn of(stream: &'a TcpStream) -> Self {
        Outgoing {
            stream,
            count: 0,
            waits: false,
        }
    }

    /// Nothing was taken, for this cause.
    fn fail(&mut self, waits: bool) -> Put
        ensures count { Rose self.old.count self.new.count }
        ensures failed { result ≡ Put.Failed }
    {
        self.waits = waits;
        self.count = self.count.saturating_add(1);
        Put::Failed
    }
}

impl<'a> Sink for Outgoing<'a> {
    ghost use Rattle.std.specs.Prelude.{None};

    ghost written = { λ _. None };

    ghost faulted = { λ s. s.count };

    fn faults(&self) -> u64 {
        self.count
    }

    fn write(&mut self, piece: &[u8]) -> Put {
        let mut stream = self.stream;
        match stream.write(piece) {
            Ok(0) => self.fail(false),
            Ok(count) => Put::Wrote(count),
            Err(error) => self.fail(may_come(error.kind())),
        }
    }
}
