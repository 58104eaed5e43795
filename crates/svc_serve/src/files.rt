//! The files that a file's lines name: the rules of gates, and jobs. Each is read once, before its generation begins.

ghost use Rattle.std.specs.Prelude.{◌≤◌, length, IfOk};

use crate::ending::Ending;
use crate::refusal::Refusal;
use std::alloc::Global;
use std::fs;
use std::fs::File;
use std::rt::Files;
use svc_base::{NoMemory, ReadAllError, Reading, read_all};
use thiserror::Error;

/// Why a file isn't read.
#[derive(Clone, Copy, Debug, Error)]
pub(crate) enum Unread {
    /// It isn't there, or can't be read.
    #[error("can't be read")]
    Fault,
    /// It has more than 16,777,216 bytes.
    #[error("is too long")]
    TooLong,
    /// There was no memory.
    #[error("out of memory")]
    NoMemory,
}

impl From<ReadAllError> for Unread {
    fn from(error: ReadAllError) -> Self {
        match error {
            ReadAllError::Fault => Unread::Fault,
            ReadAllError::TooLong => Unread::TooLong,
            ReadAllError::NoMemory => Unread::NoMemory,
        }
    }
}

/// The bytes of the file at this path.
pub(crate) fn bytes_at<R: Files<File = File>>(
    rt: &R,
    alloc: Global,
    path: &str,
) -> Result<Vec<u8>, Unread>
    ensures { IfOk result (λ bytes. length bytes.items ≤ 16777216) }
{
    let Ok(file) = fs::open(rt, path) else {
        return Err(Unread::Fault);
    };
    let mut source = Reading::new(file);
    match read_all(alloc, &mut source) {
        Ok(bytes) => Ok(bytes),
        Err(error) => Err(Unread::from(error)),
    }
}

/// What is wrong with a file that is named.
fn unread_cause(alloc: Global, path: &str, unread: Unread) -> Result<String, NoMemory> {
    Ok(format!(in alloc; "{path} {unread}")?)
}

/// A file that is named isn't read.
pub(crate) fn refuse_unread(alloc: Global, path: &str, unread: Unread) -> Refusal {
    match unread {
        Unread::NoMemory => Refusal::memory(),
        Unread::Fault | Unread::TooLong => Refusal::new(
            alloc,
            Ending::ReadFault,
            unread_cause(alloc, path, unread),
        ),
    }
}
