//! The script: what gives a record its plan.

use crate::ending::Ending;
use std::alloc::Global;
use std::fs;
use std::fs::File;
use std::rt::Files;
use svc_base::{ReadAllError, Reading, read_all, split_line};
use svc_conf::Opt;
use svc_plans::{PlanError, plan_of_script};
use svc_record::Plan;
use svc_text::{ScriptError, parse};

/// What stands behind a script that has no events.
const NO_EVENTS: &[u8] = b"\n%events\n";

/// The script has a part for events.
fn has_events(text: &[u8]) -> bool {
    let mut rest = text;
    while let Some((line, after)) = split_line(rest) {
        if line == b"%events".as_slice() {
            return true;
        }
        rest = after;
    }
    false
}

/// The bytes of a script, with a part for events.
fn script_bytes<R: Files<File = File>>(
    rt: &R,
    alloc: Global,
    path: &str,
) -> Result<Vec<u8>, Ending> {
    let Ok(file) = fs::open(rt, path) else {
        return Err(Ending::ReadFault);
    };
    let mut bytes = match read_all(alloc, &mut Reading::new(file)) {
        Ok(bytes) => bytes,
        Err(ReadAllError::Fault) => return Err(Ending::ReadFault),
        Err(ReadAllError::TooLong) => return Err(Ending::ScriptLine(0)),
        Err(ReadAllError::NoMemory) => return Err(Ending::NoMemory),
    };
    if !has_events(bytes.as_slice()) && bytes.extend_from_slice(NO_EVENTS).is_err() {
        return Err(Ending::NoMemory);
    }
    Ok(bytes)
}

/// What the server of a script's services is run by with these flags.
fn plan_of_bytes(alloc: Global, opt: &Opt, bytes: &[u8]) -> Result<Plan, Ending> {
    let script = match parse(alloc, bytes) {
        Ok(script) => script,
        Err(ScriptError::Line(n)) => return Err(Ending::ScriptLine(n as u64)),
        Err(ScriptError::NoMemory) => return Err(Ending::NoMemory),
    };
    match plan_of_script(alloc, opt, script) {
        Ok(plan) => Ok(plan),
        Err(PlanError::Line(n)) => Err(Ending::ScriptLine(n)),
        Err(PlanError::Config(key)) => Err(Ending::Config(key)),
        Err(PlanError::NoMemory) => Err(Ending::NoMemory),
    }
}

/// The same, of a script that stands in a file.
pub(crate) fn plan_of<R: Files<File = File>>(
    rt: &R,
    alloc: Global,
    opt: &Opt,
    path: &str,
) -> Result<Plan, Ending> {
    let bytes = script_bytes(rt, alloc, path)?;
    plan_of_bytes(alloc, opt, bytes.as_slice())
}
