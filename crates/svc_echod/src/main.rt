//! The echo server's program: its words, two desks over its sockets, and standard output, handed to
//! `run_echo`.
#![tactic(auto)]

use std::env;
use std::mem::drop;
use std::process::ExitCode;
use std::sync::Mutex;
use svc_base::Writing;
use svc_echo::{Seat, Slot, Sockets, real_desk, run_echo};
use svc_system::hold_standard_descriptors;
use svc_words::words;

/// So many entries of each of its lists a desk tells.
const ROOM: u64 = 65_536;

/// The status where memory runs out before the run.
const NO_MEMORY: u8 = 7;

fn main(rt: HostRuntime) -> ExitCode {
    let _held = hold_standard_descriptors(&rt);
    let alloc = rt.alloc();
    let Ok(words) = words(alloc, env::args(&rt)) else {
        return ExitCode::from(NO_MEMORY);
    };
    let sockets = Mutex::new(Sockets::new(alloc));
    let slot = Mutex::new(Slot::Missing);
    let Ok(left) = real_desk(&rt, alloc, Seat::Left, &sockets, &slot, ROOM) else {
        return ExitCode::from(NO_MEMORY);
    };
    let Ok(right) = real_desk(&rt, alloc, Seat::Right, &sockets, &slot, ROOM) else {
        drop(left);
        return ExitCode::from(NO_MEMORY);
    };
    let mut sink = Writing::new(rt.stdout());
    let run = run_echo(&rt, alloc, &words, left, right, &mut sink);
    let status = run.status;
    drop(run);
    ExitCode::from(status.0)
}
