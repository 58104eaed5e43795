//! The program that judges a record: words, a script, standard input and standard output (bin/svc judge).
#![tactic(auto)]

mod asking;
mod ending;
mod judgement;
mod script;
mod subject;
mod telling;

use crate::asking::judge_words;
use std::env;
use std::process::ExitCode;
use svc_base::Reading;
use svc_words::words;

fn main(rt: HostRuntime) -> ExitCode {
    let Ok(words) = words(rt.alloc(), env::args(&rt)) else {
        return ExitCode::from(7);
    };
    let mut source = Reading::new(rt.stdin());
    let ending = judge_words(&rt, words.as_slice(), &mut source);
    if let Some(line) = ending.line() {
        if println!(&rt; "{line}").is_err() {
            return ExitCode::from(6);
        }
    }
    ExitCode::from(ending.status())
}
