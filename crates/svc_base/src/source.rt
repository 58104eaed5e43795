ghost use Rattle.std.specs.Prelude.{◌≡◌, ℕ, ◌+◌, ◌<◌, ◌≤◌, List, [], length, drop, vec_len, Option, IfOk, IfSome, OnOk, IsErrOf};
ghost use Rattle.std.specs.Io.KnownBytes.{Consumes, IsAtEnd};
ghost use Rattle.svc_base.specs.Streams.{Rose, ReadFits, taken_bytes, EndsRight, ReadFaults};

use std::alloc::{AllocError, Global};
use std::io::Read;
use thiserror::Error;

/// The most bytes that `read_to_end` and `read_all` take.
pub const READ_LIMIT: usize = 16_777_216;

/// What one call of a source gives.
#[derive(Clone, Copy, Debug, PartialEq, Eq)]
pub enum Taken {
    /// So many bytes, at least one, stand at the front of the buffer.
    Got(usize),
    /// There are no more bytes.
    End,
    /// The read failed, and gave nothing.
    Failed,
}

/// Bytes from outside.
pub trait Source {
    /// The bytes that are left, where it tells them.
    ghost left: { Self → Option (List ℕ) };

    /// How often it has failed.
    ghost faulted: { Self → ℕ };

    /// How often it has failed. The count never falls; at its greatest value it stays.
    fn faults(&self) -> u64
        ensures { result ≡ faulted self.now };

    /// Takes bytes into the front of the buffer.
    fn read(&mut self, buffer: &mut [u8]) -> Taken
        requires { 0 < length buffer.old }
        ensures fits { ReadFits result (length buffer.old) }
        ensures bytes { Consumes (left self.old) (left self.new) (taken_bytes result buffer.new) }
        ensures end { EndsRight result (left self.new) }
        ensures cause { ReadFaults result (faulted self.old) (faulted self.new) };
}

/// Why a source wasn't read to its end.
#[derive(Clone, Copy, Debug, PartialEq, Eq, Error)]
pub enum ReadAllError {
    /// The source failed.
    #[error("the source failed")]
    Fault,
    /// It has over `READ_LIMIT` bytes.
    #[error("over 16777216 bytes")]
    TooLong,
    /// There was no memory.
    #[error("out of memory")]
    NoMemory,
}

impl From<AllocError> for ReadAllError {
    ghost use Rattle.svc_base.specs.declared.source.ReadAllError.TheVariants.{NoMemory};

    ghost from_gives = { λ _ e. e ≡ NoMemory };

    fn from(_: AllocError) -> Self {
        ReadAllError::NoMemory
    }
}

/// Reads to the end. What was read stands in the list, unless memory ran out.
pub fn read_to_end<S: Source>(source: &mut S, bytes: &mut Vec<u8>) -> Result<(), ReadAllError>
    requires { bytes.old.items ≡ [] }
    ensures whole { OnOk result (IfSome (S.left source.old) (λ all. bytes.new.items ≡ all)) }
    ensures ended { OnOk result (IsAtEnd (S.left source.new)) }
    ensures short { OnOk result (length bytes.new.items ≤ 16777216) }
    ensures fault { IsErrOf result ReadAllError.Fault → Rose (S.faulted source.old) (S.faulted source.new) }
    ensures too_long { IsErrOf result ReadAllError.TooLong → IfSome (S.left source.old) (λ all. 16777216 < length all) }
    ensures kept { (IsErrOf result ReadAllError.NoMemory → ⊥) → Consumes (S.left source.old) (S.left source.new) bytes.new.items }
{
    let mut buffer = [0u8; 4096];
    while bytes.len() <= READ_LIMIT {
        match source.read(&mut buffer) {
            Taken::Got(count) => bytes.extend_from_slice(&buffer[..count])?,
            Taken::End => return Ok(()),
            Taken::Failed => return Err(ReadAllError::Fault),
        }
    }
    Err(ReadAllError::TooLong)
}

/// Reads to the end.
pub fn read_all<S: Source>(alloc: Global, source: &mut S) -> Result<Vec<u8>, ReadAllError>
    ensures whole { IfOk result (λ v. IfSome (S.left source.old) (λ bytes. v.items ≡ bytes)) }
    ensures ended { OnOk result (IsAtEnd (S.left source.new)) }
    ensures short { IfOk result (λ v. length v.items ≤ 16777216) }
    ensures fault { IsErrOf result ReadAllError.Fault → Rose (S.faulted source.old) (S.faulted source.new) }
    ensures too_long { IsErrOf result ReadAllError.TooLong → IfSome (S.left source.old) (λ bytes. 16777216 < length bytes) }
{
    let mut bytes = Vec::new(alloc);
    read_to_end(source, &mut bytes)?;
    Ok(bytes)
}

/// A source over bytes in memory. The calls whose numbers, from 0, are listed fail.
#[derive(Drop)]
pub struct MemorySource {
    pub bytes: Vec<u8>,
    pub at: usize,
    pub most: usize,
    pub failing: Vec<u64>,
    pub calls: u64,
    pub count: u64,
    ghost in_range: { at ≤ vec_len bytes },
    ghost moves: { 0 < most },
}

impl MemorySource {
    /// A source that gives at most so many bytes a call.
    pub fn new(bytes: Vec<u8>, most: usize, failing: Vec<u64>) -> Self
        requires { 0 < most }
        ensures { result.bytes.items ≡ bytes.items }
    {
        MemorySource {
            bytes,
            at: 0,
            most,
            failing,
            calls: 0,
            count: 0,
        }
    }
}

impl Source for MemorySource {
    ghost use Rattle.std.specs.Prelude.{Some};

    ghost left = { λ s. Some (drop s.at s.bytes.items) };

    ghost faulted = { λ s. s.count };

    fn faults(&self) -> u64 {
        self.count
    }

    fn read(&mut self, buffer: &mut [u8]) -> Taken {
        let call = self.calls;
        self.calls = self.calls.saturating_add(1);
        if self.failing.contains(&call) {
            self.count = self.count.saturating_add(1);
            return Taken::Failed;
        }
        let rest = &self.bytes[self.at..];
        if rest.is_empty() {
            return Taken::End;
        }
        let count = rest.len().min(buffer.len()).min(self.most);
        buffer[..count].copy_from_slice(&rest[..count]);
        self.at += count;
        Taken::Got(count)
    }
}

/// A source over bytes in memory that never fails.
#[derive(Drop)]
pub struct SteadySource {
    pub bytes: Vec<u8>,
    pub at: usize,
    ghost in_range: { at ≤ vec_len bytes },
}

impl SteadySource {
    /// A source of these bytes, none of which is read yet.
    pub fn new(bytes: Vec<u8>) -> Self
        ensures { result.bytes.items ≡ bytes.items }
    {
        SteadySource { bytes, at: 0 }
    }
}

impl Source for SteadySource {
    ghost use Rattle.std.specs.Prelude.{Some};

    ghost left = { λ s. Some (drop s.at s.bytes.items) };

    ghost faulted = { λ _. 0 };

    fn faults(&self) -> u64 {
        0
    }

    fn read(&mut self, buffer: &mut [u8]) -> Taken {
        let rest = &self.bytes[self.at..];
        if rest.is_empty() {
            return Taken::End;
        }
        let count = rest.len().min(buffer.len());
        buffer[..count].copy_from_slice(&rest[..count]);
        self.at += count;
        Taken::Got(count)
    }
}

/// A source over any reader, as standard input. It tells its bytes where the reader does.
#[derive(Drop)]
pub struct Reading<R: Read> {
    pub inner: R,
    pub count: u64,
}

impl<R: Read> Reading<R> {
    /// A source over this reader, which has failed no read yet.
    pub fn new(inner: R) -> Self
        ensures inner { result.inner ≡ inner }
        ensures count { result.count ≡ 0 }
    {
        Reading { inner, count: 0 }
    }
}

impl<R: Read> Source for Reading<R> {
    ghost left = { λ s. R.remaining s.inner };

    ghost faulted = { λ s. s.count };

    fn faults(&self) -> u64 {
        self.count
    }

    fn read(&mut self, buffer: &mut [u8]) -> Taken {
        match self.inner.read(buffer) {
            Ok(0) => Taken::End,
            Ok(count) => Taken::Got(count),
            Err(_) => {
                self.count = self.count.saturating_add(1);
                Taken::Failed
            }
        }
    }
}
