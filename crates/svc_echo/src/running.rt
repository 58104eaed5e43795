//! The echo server as one call.

ghost use Rattle.std.specs.Prelude.{◌≡◌, ◌≢◌, ◌⊎◌, ◌≤◌, ℕ, [], map, length, take, true, false, Some, if◌then◌else◌};
ghost use Rattle.std.specs.Rc.{rc_str_bytes};
ghost use Rattle.std.specs.Io.KnownBytes.{Appends};
ghost use Rattle.svc_base.specs.Streams.{Rose};
ghost use Rattle.svc_record.specs.declared.action.StepEnd.TheVariants.{Served};
ghost use Rattle.svc_record.specs.Validity.{IsValid};
ghost use Rattle.svc_shared.specs.BookData.{BookData};
ghost use Rattle.svc_shared.specs.Journals.{IsLegal, end_after};
ghost use Rattle.svc_echo.specs.Words.{turns_of};
ghost use Rattle.svc_echo.specs.Reports.{Says, SaysFront, words_line};
ghost use Rattle.svc_echo.specs.Runs.{OfWords, Wrote, WroteFront, RefusedWords, IsRunStatus};

use crate::journal::ends_with_stop;
use crate::planning::plan_of;
use crate::reports::report_text;
use crate::words::turns_of;
use std::alloc::Global;
use std::rc::RcStr;
use std::sync::Wait;
use std::thread::Threads;
use svc_base::{NoMemory, Sink, Status, write_all};
use svc_desk::{Desk, EchoReason, Echoed, Gate, serve_desks};
use svc_record::Plan;
use svc_shared::Post;

/// The most posts of the echo server's journal.
pub const JOURNAL_LIMIT: u64 = 1_000_000;

/// A gate that does nothing.
struct OpenGate;

impl Gate for OpenGate {
    fn after(&self, _worker: u32, _answered: u64) {}
}

/// The desks after a run, its journal, and the status with which the program ends.
#[derive(Drop)]
pub struct EchoRun<D: Drop> {
    pub status: Status,
    pub left: D,
    pub right: D,
    pub journal: Vec<Post>,
}

/// Writes a text. The status is this one, or 6 where the sink failed.
fn written<K: Sink>(sink: &mut K, text: &[u8], status: Status) -> Status
    requires { status.0 ≢ 6 }
    ensures whole { result.0 ≢ 6 → (result ≡ status) × Appends (K.written sink.old) (K.written sink.new) text.now }
    ensures front { result.0 ≡ 6 → Rose (K.faulted sink.old) (K.faulted sink.new)
        × ((n : ℕ) × (n ≤ length text.now) × Appends (K.written sink.old) (K.written sink.new) (take n text.now)) }
{
    match write_all(sink, text) {
        Ok(()) => status,
        Err(_) => Status(6),
    }
}

/// The desks as they are, and no journal.
fn unserved<D: Drop>(alloc: Global, status: Status, left: D, right: D) -> EchoRun<D>
    ensures status { result.status ≡ status }
    ensures left { result.left ≡ left }
    ensures right { result.right ≡ right }
    ensures journal { result.journal.items ≡ [] }
{
    EchoRun {
        status,
        left,
        right,
        journal: Vec::new(alloc),
    }
}

/// The status of a run that was reported.
fn status_of(is_served: bool) -> Status
    ensures { result.0 ≡ (if is_served then 0 else 4) }
{
    if is_served { Status(0) } else { Status(4) }
}

/// Writes how many posts there were and how the run ended.
fn report<D: Desk + Drop, K: Sink>(alloc: Global, echoed: Echoed<D>, sink: &mut K) -> EchoRun<D>
    ensures left { result.left ≡ echoed.left }
    ensures right { result.right ≡ echoed.right }
    ensures journal { result.journal.items ≡ echoed.journal.items }
    ensures served { result.status.0 ≡ 0 → Says echoed.journal.items echoed.left_end echoed.right_end true (K.written sink.old) (K.written sink.new) }
    ensures unserved { result.status.0 ≡ 4 → Says echoed.journal.items echoed.left_end echoed.right_end false (K.written sink.old) (K.written sink.new) }
    ensures write_fault { result.status.0 ≡ 6 → Rose (K.faulted sink.old) (K.faulted sink.new) }
    ensures front { result.status.0 ≡ 6 → SaysFront echoed.journal.items echoed.left_end echoed.right_end (K.written sink.old) (K.written sink.new) }
    ensures no_memory { result.status.0 ≡ 7 → K.written sink.new ≡ K.written sink.old }
    ensures others { IsRunStatus result.status.0 }
{
    let is_served = ends_with_stop(&echoed.journal);
    let count = echoed.journal.len();
    let status = match report_text(alloc, count, is_served, echoed.left_end, echoed.right_end) {
        Ok(text) => written(sink, text.as_bytes(), status_of(is_served)),
        Err(NoMemory) => Status(7),
    };
    EchoRun {
        status,
        left: echoed.left,
        right: echoed.right,
        journal: echoed.journal,
    }
}

/// Serves the plan, and reports.
fn serve<D: Desk + Drop + Send, K: Sink, R: Threads + Wait + Sync>(
    rt: &R,
    alloc: Global,
    plan: Plan,
    turns: u64,
    left: D,
    right: D,
    sink: &mut K,
) -> EchoRun<D>
    requires { IsValid plan }
    ensures served { result.status.0 ≡ 0 → Wrote plan turns (D.seen left) (D.seen right) (D.seen result.left) (D.seen result.right)
        result.journal.items true (K.written sink.old) (K.written sink.new) }
    ensures unserved { result.status.0 ≡ 4 → Wrote plan turns (D.seen left) (D.seen right) (D.seen result.left) (D.seen result.right)
        result.journal.items false (K.written sink.old) (K.written sink.new) }
    ensures write_fault { result.status.0 ≡ 6 → Rose (K.faulted sink.old) (K.faulted sink.new) }
    ensures front { result.status.0 ≡ 6 → WroteFront plan turns (D.seen left) (D.seen right) (D.seen result.left) (D.seen result.right)
        result.journal.items (K.written sink.old) (K.written sink.new) }
    ensures no_memory { result.status.0 ≡ 7 → K.written sink.new ≡ K.written sink.old }
    ensures others { IsRunStatus result.status.0 }
{
    match serve_desks(
        rt,
        alloc,
        plan,
        JOURNAL_LIMIT,
        turns,
        left,
        right,
        &OpenGate,
    ) {
        Ok(echoed) => report(alloc, echoed, sink),
        Err(refused) => match refused.reason {
            EchoReason::NoMemory => unserved(alloc, Status(7), refused.left, refused.right),
            EchoReason::BadPlan => unreachable!(),
        },
    }
}

/// Says that the words are refused.
fn refuse<D: Drop, K: Sink>(alloc: Global, left: D, right: D, sink: &mut K) -> EchoRun<D>
    ensures status { result.status.0 ≡ 2 }
    ensures left { result.left ≡ left }
    ensures right { result.right ≡ right }
    ensures journal { result.journal.items ≡ [] }
    ensures wrote { (n : ℕ) × (n ≤ length words_line) × Appends (K.written sink.old) (K.written sink.new) (take n words_line)
        × ((n ≡ length words_line) ⊎ Rose (K.faulted sink.old) (K.faulted sink.new)) }
{
    match write_all(sink, b"status words\n") {
        Ok(()) => {}
        Err(_) => {}
    }
    unserved(alloc, Status(2), left, right)
}

/// Runs an echo server with two workers over two desks. The words are its address, the address of its
/// control endpoint, and how many takes each worker has. It writes how many posts the journal has, and how
/// the run ended. The desks come back.
pub fn run_echo<D: Desk + Drop + Send, K: Sink, R: Threads + Wait + Sync>(
    rt: &R,
    alloc: Global,
    words: &[RcStr],
    left: D,
    right: D,
    sink: &mut K,
) -> EchoRun<D>
    // The last post left the run as served.
    ensures served { result.status.0 ≡ 0 → OfWords (map rc_str_bytes words.now) (λ plan turns. Wrote plan turns (D.seen left) (D.seen right)
        (D.seen result.left) (D.seen result.right) result.journal.items true (K.written sink.old) (K.written sink.new)) }

    ensures words { result.status.0 ≡ 2 → RefusedWords (map rc_str_bytes words.now) (D.seen left) (D.seen right) (D.seen result.left) (D.seen result.right)
        result.journal.items (K.faulted sink.old) (K.faulted sink.new) (K.written sink.old) (K.written sink.new) }

    // The workers ended otherwise.
    ensures unserved { result.status.0 ≡ 4 → OfWords (map rc_str_bytes words.now) (λ plan turns. Wrote plan turns (D.seen left) (D.seen right)
        (D.seen result.left) (D.seen result.right) result.journal.items false (K.written sink.old) (K.written sink.new)) }

    ensures write_fault { result.status.0 ≡ 6 → Rose (K.faulted sink.old) (K.faulted sink.new) }
    ensures front { result.status.0 ≡ 6 → OfWords (map rc_str_bytes words.now) (λ plan turns. WroteFront plan turns (D.seen left) (D.seen right)
        (D.seen result.left) (D.seen result.right) result.journal.items (K.written sink.old) (K.written sink.new)) }

    // Where memory ran out, nothing was written.
    ensures no_memory { result.status.0 ≡ 7 → K.written sink.new ≡ K.written sink.old }
    ensures others { (result.status.0 ≡ 2) ⊎ IsRunStatus result.status.0 }

    // A run whose last post left it as served gives the status 0, unless memory runs out or the sink fails.
    ensures complete { (turns : ℕ) (origin : BookData) → turns_of (map rc_str_bytes words.now) ≡ Some turns
        → (Rose (K.faulted sink.old) (K.faulted sink.new) → ⊥) → IsLegal origin result.journal.items
        → end_after origin result.journal.items ≡ Served → (result.status.0 ≡ 0) ⊎ (result.status.0 ≡ 7) }
{
    let Some(turns) = turns_of(words) else {
        return refuse(alloc, left, right, sink);
    };
    match plan_of(alloc, words) {
        Ok(plan) => serve(rt, alloc, plan, turns, left, right, sink),
        Err(NoMemory) => unserved(alloc, Status(7), left, right),
    }
}
