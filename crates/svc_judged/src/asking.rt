//! What the words ask for.

ghost use Rattle.std.specs.Prelude.{◌≡◌, reverse, IfOk, IfErr, IfSome};
ghost use Rattle.std.specs.Str.Lines.{lines};
ghost use Rattle.svc_base.specs.Streams.{Rose};
ghost use Rattle.svc_judging.specs.Readings.{AreRecord};
ghost use Rattle.svc_judged.specs.declared.ending.Ending.TheVariants.{ReadFault};
ghost use Rattle.svc_judged.specs.Judgements.{HasCause, IsRefusal};

use crate::ending::Ending;
use crate::judgement::judge_record;
use crate::script::plan_of;
use crate::telling::tell;
use std::alloc::Global;
use std::mem::drop;
use std::rc::RcStr;
use svc_base::{NoMemory, ReadAllError, Source, read_all};
use svc_conf::{Opt, OptError};
use svc_judging::{ReadRecord, RecordError, read_record};
use svc_record::Plan;

/// The record that a source has.
fn record_of<S: Source>(alloc: Global, source: &mut S) -> Result<ReadRecord, Ending>
    ensures read { IfOk result (λ read. IfSome (S.left source.old) (λ bytes. AreRecord (lines bytes) (reverse read.entries.items) read.end)) }
    ensures refused { IfErr result (λ ending. IfSome (S.left source.old) (λ bytes. IsRefusal bytes ending)) }
    ensures fault { IfErr result (λ ending. ending ≡ ReadFault → Rose (S.faulted source.old) (S.faulted source.new)) }
{
    let bytes = match read_all(alloc, source) {
        Ok(bytes) => bytes,
        Err(ReadAllError::Fault) => return Err(Ending::ReadFault),
        Err(ReadAllError::TooLong) => return Err(Ending::Line(0)),
        Err(ReadAllError::NoMemory) => return Err(Ending::NoMemory),
    };
    match read_record(alloc, bytes.as_slice()) {
        Ok(read) => Ok(read),
        Err(RecordError::Line(n)) => Err(Ending::Line(n)),
        Err(RecordError::NoMemory) => Err(Ending::NoMemory),
    }
}

/// Judges the record of a source by a plan, and prints the verdict.
fn judge_source<S: Source>(rt: &HostRuntime, plan: &Plan, source: &mut S) -> Ending
    ensures cause { IfSome (S.left source.old) (λ bytes. HasCause plan.now bytes result) }
    ensures fault { result ≡ ReadFault → Rose (S.faulted source.old) (S.faulted source.new) }
{
    let alloc = rt.alloc();
    let read = match record_of(alloc, source) {
        Ok(read) => read,
        Err(ending) => return ending,
    };
    let entries = read.entries.as_slice();
    match judge_record(alloc, plan, entries, read.end) {
        Ok(judged) => tell(rt, plan, entries, judged),
        Err(NoMemory) => Ending::NoMemory,
    }
}

/// The flags among the words, of which the first is the command.
fn flags_of(alloc: Global, words: &[RcStr]) -> Result<Opt, Ending> {
    match Opt::parse_args(alloc, words) {
        Ok(opt) => Ok(opt),
        Err(OptError::Words(_)) => Err(Ending::Words),
        Err(OptError::NoMemory) => Err(Ending::NoMemory),
    }
}

/// Judges by a script with the flags that the words before it say.
fn judge_script<S: Source>(
    rt: &HostRuntime,
    words: &[RcStr],
    path: &str,
    source: &mut S,
) -> Ending {
    let alloc = rt.alloc();
    let opt = match flags_of(alloc, words) {
        Ok(opt) => opt,
        Err(ending) => return ending,
    };
    let planned = plan_of(rt, alloc, &opt, path);
    drop(opt);
    match planned {
        Ok(plan) => {
            let ending = judge_source(rt, &plan, source);
            drop(plan);
            ending
        }
        Err(ending) => ending,
    }
}

/// Does what the words ask for: `judge`, flags, and the path of a script.
pub(crate) fn judge_words<S: Source>(rt: &HostRuntime, words: &[RcStr], source: &mut S) -> Ending {
    match words {
        [flags @ .., path] => match flags {
            [command, ..] if command.as_str() == "judge" => {
                judge_script(rt, flags, path.as_str(), source)
            }
            _ => Ending::Words,
        },
        [] => Ending::Words,
    }
}
