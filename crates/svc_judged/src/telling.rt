//! The verdict's line.

ghost use Rattle.std.specs.Prelude.{◌≡◌, ◌⊎◌};
ghost use Rattle.svc_judged.specs.declared.ending.Ending.TheVariants.{WriteFault};
ghost use Rattle.svc_judged.specs.Judgements.{ending_of};

use crate::ending::Ending;
use crate::judgement::Judgement;
use crate::subject::subject;
use std::io;
use svc_judge::Breach;
use svc_record::{Entry, Plan};

/// The entries up to a place, of which the newest comes first.
fn up_to(entries: &[Entry], place: u64) -> &[Entry] {
    let newer = entries.len().saturating_sub(place as usize);
    &entries[newer..]
}

/// Prints where the record isn't right: the line, the rule, and what that line is about.
fn print_breach(rt: &impl Print, plan: &Plan, entries: &[Entry], breach: Breach) -> io::Result<()> {
    let Breach { entry, rule } = breach;
    let about = subject(plan, up_to(entries, entry)).unwrap_or("-");
    println!(rt; "line {entry} {rule:?} {about}")
}

/// Prints what is said of a record.
pub(crate) fn tell(rt: &impl Print, plan: &Plan, entries: &[Entry], judgement: Judgement) -> Ending
    ensures { (result ≡ WriteFault) ⊎ (result ≡ ending_of judgement) }
{
    let (printed, ending) = match judgement {
        Judgement::Served => (println!(rt; "served"), Ending::Judged),
        Judgement::Right => (println!(rt; "right"), Ending::Judged),
        Judgement::Wrong(breach) => (print_breach(rt, plan, entries, breach), Ending::NotRight),
    };
    match printed {
        Ok(()) => ending,
        Err(_) => Ending::WriteFault,
    }
}
