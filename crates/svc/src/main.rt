//! The program: its words, standard input and standard output, handed to `serve_kept`; what was
//! refused is explained on standard error.
#![tactic(auto)]

use std::env;
use std::io::IsTerminal;
use std::process::ExitCode;
use svc_base::{NoMemory, Reading, Status, Writing};
use svc_main::{KeptTexts, serve_kept};
use svc_messages::{Ending, ProgressSource, explanation, last_line, more_refusals, warnings};
use svc_words::{are_text, words};

/// Tells these notes on standard error.
fn tell(rt: &HostRuntime, notes: Vec<String>) {
    for note in &notes {
        let _ = eprintln!(rt; "{note}");
    }
}

/// Tells what is to be known before the end is explained, then why the program ended so, and which further
/// lines are refused, as far as memory and standard error allow.
fn explain(rt: &HostRuntime, ending: Ending<'_>) -> Result<(), NoMemory> {
    if let Ok(notes) = warnings(rt.alloc(), ending) {
        tell(rt, notes);
    }
    if let Some(message) = explanation(rt.alloc(), ending)? {
        let _ = eprintln!(rt; "{message}");
    }
    tell(rt, more_refusals(rt.alloc(), ending)?);
    Ok(())
}

fn main(rt: HostRuntime) -> ExitCode {
    let args = env::args(&rt);
    if !are_text(&args) {
        let _ = eprintln!(&rt; "a command word isn't UTF-8");
    }
    let Ok(words) = words(rt.alloc(), args) else {
        return ExitCode::from(7);
    };
    let tells = rt.stderr().is_terminal();
    let mut source = ProgressSource::new(&rt, Reading::new(rt.stdin()), tells);
    let mut sink = Writing::new(rt.stdout());
    let mut kept = KeptTexts::new(rt.alloc());
    let Status(status) = serve_kept(rt.alloc(), &words, &mut source, &mut sink, &mut kept);
    let record = kept.text.as_bytes();
    let ending = Ending {
        words: &words,
        script: Some(kept.script.as_slice()),
        record,
        line: last_line(record),
        status,
    };
    let _ = explain(&rt, ending);
    ExitCode::from(status)
}
