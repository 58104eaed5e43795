ghost use Rattle.std.specs.Prelude.{◌≡◌, ℕ, ◌+◌, ◌<◌, ◌≤◌, List, [], length, take, Option, OnOk, OnErr};
ghost use Rattle.std.specs.Io.KnownBytes.{Appends};
ghost use Rattle.svc_base.specs.Streams.{Rose, WriteFits, put_bytes, WriteFaults};

use std::alloc::Global;
use std::io::Write;
use thiserror::Error;

/// What one call of a sink took.
#[derive(Clone, Copy, Debug, PartialEq, Eq)]
pub enum Put {
    /// So many bytes, at least one, from the front of the piece.
    Wrote(usize),
    /// The write failed, and nothing was taken.
    Failed,
}

/// Bytes to the outside.
pub trait Sink {
    /// The bytes that were written, where it tells them.
    ghost written: { Self → Option (List ℕ) };

    /// How often it has failed.
    ghost faulted: { Self → ℕ };

    /// How often it has failed. The count never falls; at its greatest value it stays.
    fn faults(&self) -> u64
        ensures { result ≡ faulted self.now };

    /// Takes a front of the piece.
    fn write(&mut self, piece: &[u8]) -> Put
        requires { 0 < length piece.now }
        ensures fits { WriteFits result (length piece.now) }
        ensures bytes { Appends (written self.old) (written self.new) (put_bytes result piece.now) }
        ensures cause { WriteFaults result (faulted self.old) (faulted self.new) };
}

/// A sink failed.
#[derive(Clone, Copy, Debug, PartialEq, Eq, Error)]
#[error("the sink failed")]
pub struct WriteFault;

/// Writes all of it, or a front of it where the sink failed.
pub fn write_all<K: Sink>(sink: &mut K, bytes: &[u8]) -> Result<(), WriteFault>
    ensures whole { OnOk result (Appends (K.written sink.old) (K.written sink.new) bytes.now) }
    ensures front { OnErr result ((n : ℕ) × (n ≤ length bytes.now) × Appends (K.written sink.old) (K.written sink.new) (take n bytes.now)) }
    ensures fault { OnErr result (Rose (K.faulted sink.old) (K.faulted sink.new)) }
{
    let mut at = 0;
    while at < bytes.len() {
        match sink.write(&bytes[at..]) {
            Put::Wrote(count) => at += count,
            Put::Failed => return Err(WriteFault),
        }
    }
    Ok(())
}

/// A sink in memory. The calls whose numbers, from 0, are listed fail. Want of memory counts as a
/// fault too.
#[derive(Drop)]
pub struct MemorySink {
    pub bytes: Vec<u8>,
    pub most: usize,
    pub failing: Vec<u64>,
    pub calls: u64,
    pub count: u64,
    ghost moves: { 0 < most },
}

impl MemorySink {
    /// A sink that takes at most so many bytes a call.
    pub fn new(alloc: Global, most: usize, failing: Vec<u64>) -> Self
        requires { 0 < most }
        ensures bytes { result.bytes.items ≡ [] }
        ensures count { result.count ≡ 0 }
    {
        MemorySink {
            bytes: Vec::new(alloc),
            most,
            failing,
            calls: 0,
            count: 0,
        }
    }
}

impl Sink for MemorySink {
    ghost use Rattle.std.specs.Prelude.{Some};

    ghost written = { λ s. Some s.bytes.items };

    ghost faulted = { λ s. s.count };

    fn faults(&self) -> u64 {
        self.count
    }

    fn write(&mut self, piece: &[u8]) -> Put {
        let call = self.calls;
        self.calls = self.calls.saturating_add(1);
        if self.failing.contains(&call) {
            self.count = self.count.saturating_add(1);
            return Put::Failed;
        }
        let count = piece.len().min(self.most);
        if self.bytes.extend_from_slice(&piece[..count]).is_err() {
            self.count = self.count.saturating_add(1);
            return Put::Failed;
        }
        Put::Wrote(count)
    }
}

/// A sink in memory that never fails. It keeps the bytes that it finds memory for and counts the
/// others, so it tells contracts nothing of them.
#[derive(Drop)]
pub struct SteadySink {
    pub bytes: Vec<u8>,
    /// How many bytes weren't kept. At its greatest value it stays.
    pub lost: u64,
}

impl SteadySink {
    /// A sink that has taken nothing yet.
    pub fn new(alloc: Global) -> Self
        ensures { result.bytes.items ≡ [] }
    {
        SteadySink {
            bytes: Vec::new(alloc),
            lost: 0,
        }
    }
}

impl Sink for SteadySink {
    ghost use Rattle.std.specs.Prelude.{None};

    ghost written = { λ _. None };

    ghost faulted = { λ _. 0 };

    fn faults(&self) -> u64 {
        0
    }

    fn write(&mut self, piece: &[u8]) -> Put {
        if self.bytes.extend_from_slice(piece).is_err() {
            self.lost = self.lost.saturating_add(piece.len() as u64);
        }
        Put::Wrote(piece.len())
    }
}

/// A sink over any writer, as standard output. Taking nothing counts as failing. It tells its bytes
/// where the writer does.
#[derive(Drop)]
pub struct Writing<W: Write> {
    pub inner: W,
    pub count: u64,
}

impl<W: Write> Writing<W> {
    /// A sink over this writer, which has failed no write yet.
    pub fn new(inner: W) -> Self
        ensures inner { result.inner ≡ inner }
        ensures count { result.count ≡ 0 }
    {
        Writing { inner, count: 0 }
    }
}

impl<W: Write> Sink for Writing<W> {
    ghost written = { λ s. W.contents s.inner };

    ghost faulted = { λ s. s.count };

    fn faults(&self) -> u64 {
        self.count
    }

    fn write(&mut self, piece: &[u8]) -> Put {
        match self.inner.write(piece) {
            Ok(count) if count > 0 => Put::Wrote(count),
            _ => {
                self.count = self.count.saturating_add(1);
                Put::Failed
            }
        }
    }
}
