//! The program: its words, standard input and standard output, handed to `serve_chain`.
#![tactic(auto)]

use std::env;
use std::process::ExitCode;
use svc_base::{Reading, Status, Writing};
use svc_generations::serve_chain;
use svc_words::words;

fn main(rt: HostRuntime) -> ExitCode {
    let Ok(words) = words(rt.alloc(), env::args(&rt)) else {
        return ExitCode::from(7);
    };
    let mut source = Reading::new(rt.stdin());
    let mut sink = Writing::new(rt.stdout());
    let Status(status) = serve_chain(rt.alloc(), &words, &mut source, &mut sink);
    ExitCode::from(status)
}
