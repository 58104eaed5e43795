//! The file that says the number of the process.

use std::alloc::Global;
use std::fs::{File, TryLockError};
use std::io::Write;
use std::mem::drop;
use std::{fs, io, process};
use svc_base::{NoMemory, Text};

/// Why the number of the process isn't written.
#[derive(Clone, Copy, PartialEq, Eq)]
pub(crate) enum PidRefused {
    NoMemory,
    /// Another process holds the file.
    Held,
    /// It can't be written there.
    Failed,
}

/// A file with the number of this process, which holds it locked.
#[derive(Drop)]
pub(crate) struct PidFile {
    file: File,
    path: Text,
}

impl From<NoMemory> for PidRefused {
    fn from(_: NoMemory) -> Self {
        PidRefused::NoMemory
    }
}

/// Locks a file, which no other process may hold.
fn lock(file: &File) -> Result<(), PidRefused> {
    match file.try_lock() {
        Ok(()) => Ok(()),
        Err(TryLockError::WouldBlock) => Err(PidRefused::Held),
        Err(TryLockError::Error(_)) => Err(PidRefused::Failed),
    }
}

/// Another process holds what is at the path.
fn is_held(rt: &HostRuntime, path: &str) -> bool {
    match fs::open(rt, path) {
        Ok(file) => matches!(lock(&file), Err(PidRefused::Held)),
        Err(_) => false,
    }
}

/// Opens a file for writing, and leaves what it has: another process may hold it.
fn opened(rt: &HostRuntime, path: &str) -> Result<File, PidRefused> {
    let mut options = File::options();
    options.write(true).create(true);
    match options.open(rt, path) {
        Ok(file) => Ok(file),
        Err(_) => Err(PidRefused::Failed),
    }
}

/// Writes the number of the process, and nothing else.
fn write_number(rt: &HostRuntime, file: &mut File) -> io::Result<()> {
    file.set_len(0)?;
    let number = process::id(rt.process());
    writeln!(file, "{number}")
}

/// Writes the number beside the path, and puts it there.
fn put(rt: &HostRuntime, file: &mut File, beside: &str, path: &str) -> Result<(), PidRefused> {
    lock(file)?;
    if is_held(rt, path) {
        let _ = fs::remove_file(rt, beside);
        return Err(PidRefused::Held);
    }
    if write_number(rt, file).is_err() || fs::rename(rt, beside, path).is_err() {
        let _ = fs::remove_file(rt, beside);
        return Err(PidRefused::Failed);
    }
    Ok(())
}

/// The path beside which a file is made before it is put there.
fn path_beside(alloc: Global, path: &Text) -> Result<String, NoMemory> {
    let name = path.as_str();
    Ok(format!(in alloc; "{name}.new")?)
}

impl PidFile {
    /// Writes the number of this process to the path, unless another process holds that.
    pub(crate) fn write(rt: &HostRuntime, alloc: Global, path: &Text) -> Result<Self, PidRefused> {
        let kept = path.copy(alloc)?;
        let beside = path_beside(alloc, path)?;
        let mut file = opened(rt, beside.as_str())?;
        match put(rt, &mut file, beside.as_str(), path.as_str()) {
            Ok(()) => Ok(PidFile { file, path: kept }),
            Err(refused) => {
                drop(file);
                drop(kept);
                Err(refused)
            }
        }
    }

    /// The process ends: the path is free again.
    pub(crate) fn remove(self, rt: &HostRuntime) {
        let _ = fs::remove_file(rt, self.path.as_str());
        drop(self);
    }
}
