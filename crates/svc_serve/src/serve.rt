//! The program, from the words on: the first generation, the pid file, and all generations to their end.

use crate::ending::Ending;
use crate::generation::Generation;
use crate::generations::serve_generations;
use crate::inherited::inherited;
use crate::pid_file::{PidFile, PidRefused};
use crate::planning::{Outside, planned_first};
use crate::refusal::Refusal;
use std::alloc::Global;
use std::mem::drop;
use std::sync::Wait;
use std::thread::Threads;
use svc_base::{NoMemory, Text};
use svc_system::Inherited;

/// Why the number of the process isn't written.
fn pid_cause(alloc: Global, path: &str, why: &str) -> Result<String, NoMemory> {
    Ok(format!(in alloc; "{path}: {why}")?)
}

/// The number of the process isn't written.
fn refuse_pid(alloc: Global, path: &str, refused: PidRefused) -> Refusal {
    let why = match refused {
        PidRefused::NoMemory => return Refusal::memory(),
        PidRefused::Held => "another process holds the pid file",
        PidRefused::Failed => "the pid file can't be written",
    };
    Refusal::new(alloc, Ending::HostFault, pid_cause(alloc, path, why))
}

/// Writes the pid file, if the configuration names one.
fn pid_file_of(rt: &HostRuntime, path: Option<Text>) -> Result<Option<PidFile>, Refusal> {
    let Some(path) = path else {
        return Ok(None);
    };
    match PidFile::write(rt, rt.alloc(), &path) {
        Ok(file) => {
            drop(path);
            Ok(Some(file))
        }
        Err(refused) => {
            let refusal = refuse_pid(rt.alloc(), path.as_str(), refused);
            drop(path);
            Err(refusal)
        }
    }
}

/// The first generation of a file, whose endpoints have these sockets, where they are theirs, with where the pid file is to be.
fn first_generation<'a>(
    rt: &'a HostRuntime,
    file: &str,
    log: &Option<Text>,
    inherited: Inherited,
) -> Result<(Generation<'a>, Option<Text>), Refusal> {
    let (planned, outside) = match planned_first(rt, file) {
        Ok(read) => read,
        Err(refusal) => {
            drop(inherited);
            return Err(refusal);
        }
    };
    let Outside { control, pid_path } = outside;
    match Generation::first(rt, planned, control, inherited, log) {
        Ok(first) => Ok((first, pid_path)),
        Err(refusal) => {
            drop(pid_path);
            Err(refusal)
        }
    }
}

/// Serves the generations, with the pid file there.
fn serve_with_pid<'a, R: Threads + Wait + Sync>(
    rt: &'a HostRuntime,
    threads: &'a R,
    log: Option<Text>,
    first: Generation<'a>,
    pid_path: Option<Text>,
) -> Ending {
    match pid_file_of(rt, pid_path) {
        Ok(pid_file) => {
            let ending = serve_generations(rt, threads, log, first);
            if let Some(pid_file) = pid_file {
                pid_file.remove(rt);
            }
            ending
        }
        Err(refusal) => {
            first.abandon();
            drop(log);
            refusal.end(rt)
        }
    }
}

/// Serves what a file says, where the program was started with these sockets.
fn serve_with<'a, R: Threads + Wait + Sync>(
    rt: &'a HostRuntime,
    threads: &'a R,
    file: &str,
    log: Option<Text>,
    inherited: Inherited,
) -> Ending {
    match first_generation(rt, file, &log, inherited) {
        Ok(begun) => {
            let (first, pid_path) = begun;
            serve_with_pid(rt, threads, log, first, pid_path)
        }
        Err(refusal) => {
            drop(log);
            refusal.end(rt)
        }
    }
}

/// The path of the log, if one is asked for.
fn path_of(alloc: Global, log: Option<&str>) -> Result<Option<Text>, NoMemory> {
    match log {
        Some(path) => Ok(Some(Text::new(alloc, path)?)),
        None => Ok(None),
    }
}

/// Serves what a file says, and at each upgrade what another one says, until an operator ends it or nothing is left that
/// could be served. An endpoint has the socket that the program was started with for its address, if there is one. With a
/// path for it, the record goes to a log there, and that of each further generation beside it.
pub(crate) fn serve_file<'a, R: Threads + Wait + Sync>(
    rt: &'a HostRuntime,
    threads: &'a R,
    file: &str,
    log: Option<&str>,
) -> Ending {
    let Ok(log) = path_of(rt.alloc(), log) else {
        return Ending::NoMemory;
    };
    match inherited(rt) {
        Ok(inherited) => serve_with(rt, threads, file, log, inherited),
        Err(ending) => {
            drop(log);
            ending
        }
    }
}
