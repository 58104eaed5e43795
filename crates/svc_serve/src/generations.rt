//! The generations of a program: each runs on a thread of its own, and the first thread starts those that older ones plan.

ghost use Rattle.std.specs.Prelude.{◌≡◌};

use crate::ending::Ending;
use crate::ends::{Ended, Ends};
use crate::generation::Generation;
use crossbeam_channel::{Receiver, Sender, bounded};
use std::mem::drop;
use std::sync::Wait;
use std::thread;
use std::thread::Threads;
use svc_base::Text;
use svc_record::BootstrapError;
use svc_server::RunError;

/// So much that generations tell waits for the thread that starts them.
const NEWS: usize = 16;

/// What generations tell the thread that starts them.
#[derive(Drop)]
pub(crate) enum News<'a> {
    /// This one is to be started.
    Begin(Generation<'a>),
    /// One has ended.
    Ended(Ended),
}

/// What all generations stand on.
#[derive(Drop)]
pub(crate) struct Ground<'a, R: Wait> {
    pub rt: &'a HostRuntime,
    pub threads: &'a R,
    /// To the thread that starts them.
    pub to: Sender<News<'a>>,
    /// The path of the first one's log, if there is one.
    pub log: Option<Text>,
}

/// Says of a generation how it ended, where that is no run's common end.
fn say_end(rt: &HostRuntime, ended: Ended) {
    let number = ended.number;
    match ended.ending {
        Ending::NoSuccessor => {
            let _ = eprintln!(rt;
                "svc serve: generation {number} ended, and no newer one took its sockets"
            );
        }
        Ending::Run(Err(RunError::Bootstrap(BootstrapError::NoSender))) => {
            let _ = eprintln!(rt;
                "svc serve: generation {number} got no sockets of an older one, and ended"
            );
        }
        _ => {}
    }
}

/// Says that no thread can be started for a generation, which is how it ended.
fn unstarted(rt: &HostRuntime, number: u64) -> Ended
    ensures { result ≡ record { number = number; ending = Ending.HostFault } }
{
    let _ = eprintln!(rt; "svc serve: generation {number}: no thread can be started for it");
    Ended {
        number,
        ending: Ending::HostFault,
    }
}

/// Runs a generation, to its end, and tells that.
fn serve_generation<'a, R: Wait>(ground: &Ground<'a, R>, generation: Generation<'a>) {
    let ended = generation.run(ground);
    say_end(ground.rt, ended);
    drop(ground.to.send(ground.threads, News::Ended(ended)));
}

/// Starts each generation that is told of, on a thread of its own, until all have ended. The program ends as the newest one
/// that has served.
fn start_each<'a, R: Threads + Wait + Sync>(
    ground: &Ground<'a, R>,
    from: &Receiver<News<'a>>,
) -> Ending {
    thread::scope(thread::scope_env(), ground.threads, |scope| {
        let mut ends = Ends::new();
        for news in from.iter(ground.threads) {
            match news {
                News::Begin(generation) => {
                    let number = generation.number;
                    ends.begin();
                    match scope.spawn(move || serve_generation(ground, generation)) {
                        Ok(handle) => drop(handle),
                        Err(refused) => {
                            drop(refused);
                            ends.end(unstarted(ground.rt, number));
                        }
                    }
                }
                News::Ended(ended) => ends.end(ended),
            }
            if ends.are_all() {
                break;
            }
        }
        ends.ending()
    })
}

/// Runs the first generation and each one that is begun, each on a thread of its own, until all have ended.
pub(crate) fn serve_generations<'a, R: Threads + Wait + Sync>(
    rt: &'a HostRuntime,
    threads: &'a R,
    log: Option<Text>,
    first: Generation<'a>,
) -> Ending {
    let (to, from) = match bounded(rt.alloc(), NEWS) {
        Ok(ends) => ends,
        Err(_) => {
            first.abandon();
            drop(log);
            return Ending::NoMemory;
        }
    };
    let ground = Ground {
        rt,
        threads,
        to,
        log,
    };
    let ending = match ground.to.send(threads, News::Begin(first)) {
        Ok(()) => start_each(&ground, &from),
        Err(error) => {
            drop(error);
            Ending::NoMemory
        }
    };
    drop(ground);
    drop(from);
    ending
}
