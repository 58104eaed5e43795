//! The listening sockets that the program was started with: standard input, and those that a service manager passes.

use crate::ending::Ending;
use std::os::fd::{AsFd, OwnedFd};
use std::{env, process};
use svc_base::NoMemory;
use svc_system::{Inherited, MOST_PASSED, System};

/// The number that a variable of the environment says, if it says one.
fn number_in(rt: &HostRuntime, name: &str) -> Option<u32> {
    let Ok(text) = env::var(rt, name) else {
        return None;
    };
    text.as_str().parse::<u32>().ok()
}

/// How many sockets a service manager passes to this process.
fn count_passed(rt: &HostRuntime) -> u32 {
    match number_in(rt, "LISTEN_PID") {
        Some(number) if number == process::id(rt.process()) => number_in(
            rt,
            "LISTEN_FDS",
        ).unwrap_or(0),
        _ => 0,
    }
}

/// Standard input once more.
fn standard_input(rt: &HostRuntime) -> Option<OwnedFd> {
    rt.stdin().as_fd().try_clone_to_owned().ok()
}

/// Takes so many passed sockets, and standard input, where that listens.
fn taken(rt: &HostRuntime, count: u32) -> Result<Inherited, NoMemory> {
    let alloc = rt.alloc();
    let mut inherited = Inherited::new(alloc);
    inherited.add_numbered(alloc, count)?;
    if let Some(input) = standard_input(rt) {
        inherited.add(alloc, input)?;
    }
    Ok(inherited)
}

/// The sockets that the program was started with. To be asked before anything else is opened.
pub(crate) fn inherited(rt: &HostRuntime) -> Result<Inherited, Ending> {
    let count = count_passed(rt);
    if count > MOST_PASSED {
        let _ = eprintln!(rt;
            "svc serve: LISTEN_FDS: {count} sockets, and at most {MOST_PASSED} are taken"
        );
        return Err(Ending::HostFault);
    }
    match taken(rt, count) {
        Ok(inherited) => Ok(inherited),
        Err(NoMemory) => Err(Ending::NoMemory),
    }
}

/// The endpoints of a server have these sockets, where they are theirs.
pub(crate) fn inherit(
    rt: &HostRuntime,
    system: &mut System<'_, HostRuntime>,
    inherited: Inherited,
) {
    let closed = system.inherit(inherited);
    if closed > 0 {
        let _ = eprintln!(rt;
            "svc serve: {closed} of the sockets that were passed are no endpoint's, and are closed"
        );
    }
}
