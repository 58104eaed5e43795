//! The program: its words, standard input and standard output, handed to `serve_gate`.
#![tactic(auto)]

use std::env;
use std::process::ExitCode;
use svc_base::{Reading, Status, Writing};
use svc_gate::serve_gate;
use svc_words::words;

fn main(rt: HostRuntime) -> ExitCode {
    let Ok(words) = words(rt.alloc(), env::args(&rt)) else {
        return ExitCode::from(7);
    };
    let mut source = Reading::new(rt.stdin());
    let mut sink = Writing::new(rt.stdout());
    let Status(status) = serve_gate(rt.alloc(), &words, &mut source, &mut sink);
    ExitCode::from(status)
}
