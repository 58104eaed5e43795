//! Both directions of a connection: a source over its nonblocking stream, and a sink of the bytes that
//! the stream hasn't taken yet.

ghost use Rattle.std.specs.Prelude.{◌≡◌, ℕ, ◌≤◌, ◌++◌, [], drop, take, length, slice_range};
ghost use Rattle.std.specs.Io.KnownBytes.{Appends};
ghost use Rattle.svc_sockets.specs.Pending.{IsLeft};

use crate::echoing::{EchoEnd, PIECE, echo};
use std::io::{ErrorKind, Read, Write};
use std::net::TcpStream;
use svc_base::{Put, Sink, Source, Taken};

/// What comes on a nonblocking stream. It has no answer for bytes that aren't there yet: then it answers
/// `Failed`, counts that, and says that it waits.
#[derive(Drop)]
pub struct Incoming {
    pub stream: TcpStream,
    /// How often it answered `Failed`. At its greatest value it stays.
    pub count: u64,
    /// Whether the last `Failed` was for bytes that aren't there yet.
    pub waits: bool,
}

/// A call on a nonblocking stream with this error may succeed later.
fn may_come(kind: ErrorKind) -> bool {
    kind == ErrorKind::WouldBlock || kind == ErrorKind::Interrupted
}

impl Source for Incoming {
    ghost use Rattle.std.specs.Prelude.{None};

    ghost left = { λ _. None };

    ghost faulted = { λ s. s.count };

    fn faults(&self) -> u64 {
        self.count
    }

    fn read(&mut self, buffer: &mut [u8]) -> Taken {
        let mut stream = &self.stream;
        match stream.read(buffer) {
            Ok(0) => Taken::End,
            Ok(count) => Taken::Got(count),
            Err(error) => {
                self.waits = may_come(error.kind());
                self.count = self.count.saturating_add(1);
                Taken::Failed
            }
        }
    }
}

/// Bytes that a stream is to take: at most one piece.
#[derive(Drop)]
pub struct Outgoing {
    bytes: [u8; PIECE],
    from: usize,
    to: usize,
    count: u64,
    ghost ordered: { from ≤ to },
    ghost in_range: { to ≤ 4096 },
}

/// What a stream left of what it was to take.
#[derive(Clone, Copy)]
pub(crate) enum Flushed {
    Nothing,
    Some,
    Failed,
}

impl Outgoing {
    /// Nothing is to be taken.
    pub fn new() -> Self
        ensures empty { slice_range result.bytes result.from result.to ≡ [] }
        ensures faults { result.count ≡ 0 }
    {
        Outgoing {
            bytes: [0u8; PIECE],
            from: 0,
            to: 0,
            count: 0,
        }
    }

    /// Nothing is to be taken any more.
    fn clear(&mut self)
        ensures empty { slice_range self.new.bytes self.new.from self.new.to ≡ [] }
        ensures faults { self.new.count ≡ self.old.count }
    {
        *self = Outgoing {
            bytes: self.bytes,
            from: 0,
            to: 0,
            count: self.count,
        };
    }

    /// The stream took so many bytes more.
    fn skip(&mut self, count: usize) -> Flushed
        ensures rest { slice_range self.new.bytes self.new.from self.new.to ≡ drop count (slice_range self.old.bytes self.old.from self.old.to) }
        ensures left { IsLeft result (slice_range self.new.bytes self.new.from self.new.to) }
        ensures faults { self.new.count ≡ self.old.count }
    {
        if count >= self.to - self.from {
            self.clear();
            return Flushed::Nothing;
        }
        self.from += count;
        Flushed::Some
    }

    /// Gives a writer the bytes in their order, as far as it takes them in one call. What it doesn't take is
    /// left.
    pub(crate) fn flush<W: Write>(&mut self, writer: &mut W) -> Flushed
        ensures given { (n : ℕ) × (slice_range self.new.bytes self.new.from self.new.to ≡ drop n (slice_range self.old.bytes self.old.from self.old.to))
            × Appends (W.contents writer.old) (W.contents writer.new) (take n (slice_range self.old.bytes self.old.from self.old.to)) }
        ensures left { IsLeft result (slice_range self.new.bytes self.new.from self.new.to) }
        ensures faults { self.new.count ≡ self.old.count }
    {
        if self.from == self.to {
            return Flushed::Nothing;
        }
        match writer.write(&self.bytes[self.from..self.to]) {
            Ok(count) => self.skip(count),
            Err(error) if may_come(error.kind()) => Flushed::Some,
            Err(_) => Flushed::Failed,
        }
    }

    /// Takes a front of the piece, as much as there is room for.
    fn put(&mut self, piece: &[u8]) -> usize
        ensures fits { result ≤ length piece.now }
        ensures pending { slice_range self.new.bytes self.new.from self.new.to
            ≡ slice_range self.old.bytes self.old.from self.old.to ++ take result piece.now }
        ensures faults { self.new.count ≡ self.old.count }
    {
        let count = piece.len().min(PIECE - self.to);
        let to = self.to + count;
        self.bytes[self.to..to].copy_from_slice(&piece[..count]);
        self.to = to;
        count
    }
}

impl Sink for Outgoing {
    ghost use Rattle.std.specs.Prelude.{None};

    ghost written = { λ _. None };

    ghost faulted = { λ s. s.count };

    fn faults(&self) -> u64 {
        self.count
    }

    fn write(&mut self, piece: &[u8]) -> Put {
        match self.put(piece) {
            0 => {
                self.count = self.count.saturating_add(1);
                Put::Failed
            }
            count => Put::Wrote(count),
        }
    }
}

/// What became of a piece.
#[derive(Clone, Copy)]
pub(crate) enum Progress {
    /// It came, and another one may be there.
    More,
    /// No piece is there yet, or the stream takes none yet.
    Waits,
    /// No further piece comes back: the stream ended or failed.
    Over,
}

/// Writes one piece back, after what is left of the one before. So a piece is read only where there is
/// room for it, and none is lost.
pub(crate) fn echo_piece(incoming: &mut Incoming, outgoing: &mut Outgoing) -> Progress {
    match outgoing.flush(&mut &incoming.stream) {
        Flushed::Nothing => {}
        Flushed::Some => return Progress::Waits,
        Flushed::Failed => return Progress::Over,
    }
    match echo(incoming, outgoing, 1) {
        EchoEnd::TurnsSpent => Progress::More,
        EchoEnd::ReadFault if incoming.waits => Progress::Waits,
        _ => Progress::Over,
    }
}
