//! The program that serves: a configuration and services from a file, real sockets, operators at a control
//! socket, and the record of the run in a log file.
#![tactic(auto)]

mod ending;
mod ends;
mod files;
mod gates;
mod generation;
mod generations;
mod inherited;
mod jobs;
mod notices;
mod pid_file;
mod planning;
mod reading;
mod refusal;
mod serve;
mod successors;

use crate::ending::Ending;
use crate::serve::serve_file;
use std::env;
use std::process::ExitCode;
use svc_system::hold_standard_descriptors;
use svc_words::{are_text, words};

fn main(rt: HostRuntime) -> ExitCode {
    let _held = hold_standard_descriptors(&rt);
    let args = env::args(&rt);
    let is_text = are_text(&args);
    let Ok(words) = words(rt.alloc(), args) else {
        return ExitCode::from(7);
    };
    let ending = match words.as_slice() {
        _ if !is_text => Ending::Words,
        [file] => serve_file(&rt, &rt, file.as_str(), None),
        [file, log] => serve_file(&rt, &rt, file.as_str(), Some(log.as_str())),
        _ => Ending::Words,
    };
    if let Some(line) = ending.line() {
        if println!(&rt; "{line}").is_err() {
            return ExitCode::from(6);
        }
    }
    ExitCode::from(ending.status())
}
