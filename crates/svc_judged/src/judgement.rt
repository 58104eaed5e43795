//! What is said of a record, by how it says that its run ended.

ghost use Rattle.std.specs.Prelude.{◌≡◌, true, false, IfOk};
ghost use Rattle.svc_judged.specs.Judgements.{said_of, judgement_of, judgement_by, is_whole};

use std::alloc::Global;
use svc_base::NoMemory;
use svc_judge::{Breach, Verdict, judge, judge_closed, judge_stray};
use svc_judging::RecordEnd;
use svc_record::{Entry, Plan};

/// What is said of a record.
#[derive(Clone, Copy, PartialEq, Eq, Debug)]
pub(crate) enum Judgement {
    /// It is the record of a run that served.
    Served,
    /// It is right.
    Right,
    /// This is the first place at which it isn't.
    Wrong(Breach),
}

/// What a verdict says.
fn of_verdict(verdict: Verdict) -> Judgement
    ensures { result ≡ said_of verdict.breach verdict.served }
{
    match verdict.breach {
        Some(breach) => Judgement::Wrong(breach),
        None if verdict.served => Judgement::Served,
        None => Judgement::Right,
    }
}

/// What is said of a record behind whose last step nothing stands.
fn of_whole(alloc: Global, plan: &Plan, entries: &[Entry]) -> Result<Judgement, NoMemory>
    ensures { IfOk result (λ judgement. judgement ≡ judgement_of plan.now entries.now) }
{
    Ok(of_verdict(judge(alloc, plan, entries)?))
}

/// What the first breach of a record says of a run that ended otherwise than by its shutdown.
fn of_breach(breach: Option<Breach>) -> Judgement
    ensures { result ≡ said_of breach false }
{
    match breach {
        Some(breach) => Judgement::Wrong(breach),
        None => Judgement::Right,
    }
}

/// What is said of a record, the newest entry first.
pub(crate) fn judge_record(
    alloc: Global,
    plan: &Plan,
    entries: &[Entry],
    end: RecordEnd,
) -> Result<Judgement, NoMemory>
    ensures whole { is_whole end ≡ true → IfOk result (λ judgement. judgement ≡ judgement_of plan.now entries.now) }
    ensures said { IfOk result (λ judgement. judgement ≡ judgement_by end plan.now entries.now) }
{
    match end {
        RecordEnd::Open | RecordEnd::Served => of_whole(alloc, plan, entries),
        RecordEnd::Closed => Ok(of_breach(judge_closed(alloc, plan, entries)?)),
        RecordEnd::Stray => Ok(of_breach(judge_stray(alloc, plan, entries)?)),
    }
}
