//! Two echo servers in one process, one after the other: at the byte `u` the older one hands its listeners
//! over to a newer one, which is begun then.
#![tactic(auto)]

use std::alloc::Global;
use std::mem::drop;
use std::net::{Net, TcpListener, TcpStream};
use std::process::ExitCode;
use std::sync::atomic::{AtomicBool, Ordering};
use std::sync::{Mutex, Wait};
use std::thread::{Threads, join};
use std::time::{Clock, Duration};
use std::{env, thread};
use svc_base::NoMemory;
use svc_desk::{Gate, WorkEnd, serve_desks};
use svc_echo::{JOURNAL_LIMIT, Seat, Slot, Sockets, echo_plan, real_desk};
use svc_record::Plan;
use svc_system::hold_standard_descriptors;
use svc_words::words;

/// How often a desk is asked at most.
const TURNS: u64 = 1_000_000_000;

/// So many entries of each of its lists a desk tells.
const ROOM: u64 = 65_536;

/// So many seconds the older server serves what it has, after it accepts nothing more.
const GRACE: u64 = 1;

/// The status of words that are refused.
const BAD_WORDS: u8 = 2;

/// The status where a server ended otherwise than it should.
const UNSERVED: u8 = 4;

/// The status where memory runs out before the run.
const NO_MEMORY: u8 = 7;

/// A gate that does nothing.
struct OpenGate;

impl Gate for OpenGate {
    fn after(&self, _worker: u32, _answered: u64) {}
}

/// The plans of the older and of the newer server at these addresses.
fn plans(alloc: Global, address: &str, control: &str) -> Result<(Plan, Plan), NoMemory> {
    let mut older = echo_plan(alloc, address, control)?;
    older.grace = GRACE;
    let mut newer = match echo_plan(alloc, address, control) {
        Ok(newer) => newer,
        Err(NoMemory) => {
            drop(older);
            return Err(NoMemory);
        }
    };
    newer.upgrade = true;
    newer.eager = true;
    Ok((older, newer))
}

/// Serves a plan by two workers over sockets, and answers whether one of them ended the run.
fn serves<R: Threads + Wait + Sync + Net<Listener = TcpListener, Stream = TcpStream> + Clock>(
    rt: &R,
    alloc: Global,
    plan: Plan,
    sockets: &Mutex<Sockets>,
    slot: &Mutex<Slot<TcpListener>>,
) -> bool {
    let Ok(left) = real_desk(rt, alloc, Seat::Left, sockets, slot, ROOM) else {
        drop(plan);
        return false;
    };
    let Ok(right) = real_desk(rt, alloc, Seat::Right, sockets, slot, ROOM) else {
        drop(left);
        drop(plan);
        return false;
    };
    match serve_desks(
        rt,
        alloc,
        plan,
        JOURNAL_LIMIT,
        TURNS,
        left,
        right,
        &OpenGate,
    ) {
        Ok(echoed) => {
            let (left, right) = (echoed.left_end, echoed.right_end);
            drop(echoed);
            left == WorkEnd::Over || right == WorkEnd::Over
        }
        Err(refused) => {
            drop(refused);
            false
        }
    }
}

/// Waits until the older server connected to its successor, or is done, and answers whether it connected.
fn is_asked<R: Wait + Clock>(
    rt: &R,
    slot: &Mutex<Slot<TcpListener>>,
    is_done: &AtomicBool,
) -> bool {
    for _ in rt.forever() {
        match &*slot.lock(rt) {
            Slot::Missing | Slot::Listening => {}
            _ => return true,
        }
        if is_done.load(Ordering::SeqCst) {
            return false;
        }
        thread::sleep(rt, Duration::from_millis(10));
    }
    unreachable!()
}

/// Says how a server ended, and answers whether it was served and that could be said.
fn report<R: Print>(rt: &R, name: &str, is_served: bool) -> bool {
    let end = if is_served { "served" } else { "unserved" };
    println!(rt; "{name} {end}").is_ok() && is_served
}

/// Serves the older plan, and the newer one once the older server connected to its successor, for which the
/// slot listens from the start. Answers whether each server that began was served.
fn serve_both<
    R: Threads + Wait + Sync + Net<Listener = TcpListener, Stream = TcpStream> + Clock + Print,
>(rt: &R, alloc: Global, older: Plan, newer: Plan) -> bool {
    let first = Mutex::new(Sockets::new(alloc));
    let second = Mutex::new(Sockets::new(alloc));
    let slot = Mutex::new(Slot::Listening);
    let is_done = AtomicBool::new(false);
    let (older, newer) = join(
        rt,
        || {
            let is_served = serves(rt, alloc, older, &first, &slot);
            is_done.store(true, Ordering::SeqCst);
            report(rt, "older", is_served)
        },
        || {
            if !is_asked(rt, &slot, &is_done) {
                return true;
            }
            let is_served = serves(rt, alloc, newer, &second, &slot);
            report(rt, "newer", is_served)
        },
    );
    older && newer
}

fn main(rt: HostRuntime) -> ExitCode {
    let _held = hold_standard_descriptors(&rt);
    let alloc = rt.alloc();
    let Ok(words) = words(alloc, env::args(&rt)) else {
        return ExitCode::from(NO_MEMORY);
    };
    let [address, control] = words.as_slice() else {
        let _ = println!(&rt; "status words");
        return ExitCode::from(BAD_WORDS);
    };
    let Ok((older, newer)) = plans(alloc, address.as_str(), control.as_str()) else {
        return ExitCode::from(NO_MEMORY);
    };
    if serve_both(&rt, alloc, older, newer) {
        ExitCode::SUCCESS
    } else {
        ExitCode::from(UNSERVED)
    }
}
