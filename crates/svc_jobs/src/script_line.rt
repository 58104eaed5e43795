//! The line of a script that a line of jobs is read as.

ghost use Rattle.std.specs.Prelude.{◌≡◌, IfOk};
ghost use Rattle.svc_text.specs.EventLines.{item_of};
ghost use Rattle.svc_base.specs.Words.{words};
ghost use Rattle.svc_jobs.specs.JobTexts.{kept, is_job_event, inner_line, script_line};
ghost use Rattle.svc_job_host.specs.JobHosts.{is_job_item};

use crate::job_line::service_line;
use std::alloc::Global;
use svc_base::NoMemory;
use svc_main::{is_daemon, is_header, is_skipped};
use svc_record::{Event, Item};
use svc_text::item_of_line;

/// A line that no script has: its byte is no text.
const NO_LINE: &[u8] = b"\xff";

fn is_job_item(item: &Item) -> bool
    ensures { result ≡ is_job_item item.now }
{
    matches!(
        item,
        Item::Event(Event::Moment(_) | Event::Signal(_)) | Item::Fault
    )
}

/// The line says a moment, a signal or a fault.
fn is_job_event(alloc: Global, line: &[u8]) -> Result<bool, NoMemory>
    ensures { IfOk result (λ says. says ≡ is_job_event (item_of (words line.now))) }
{
    match item_of_line(alloc, line)? {
        Some(item) => Ok(is_job_item(&item)),
        None => Ok(false),
    }
}

/// The line, where it may stand; else one that no script has.
fn kept(alloc: Global, line: &[u8], may_stand: bool) -> Result<Vec<u8>, NoMemory>
    ensures { IfOk result (λ k. k.items ≡ kept may_stand line.now) }
{
    let line = if may_stand { line } else { NO_LINE };
    Ok(Vec::from_slice(alloc, line)?)
}

/// The script's line of one that begins no part, behind so many beginnings of parts.
#[tactic(auto, unfolding(crate::specs::JobTexts::inner_line))]
fn inner_line(alloc: Global, part: usize, line: &[u8]) -> Result<Vec<u8>, NoMemory>
    ensures { IfOk result (λ inner. inner.items ≡ inner_line part line.now) }
{
    if part == 1 {
        return kept(alloc, line, !is_daemon(alloc, line)?);
    }
    if is_skipped(line) {
        return kept(alloc, line, true);
    }
    if part == 2 {
        return service_line(alloc, line);
    }
    if part == 3 {
        return kept(alloc, line, is_job_event(alloc, line)?);
    }
    kept(alloc, line, true)
}

/// The script's line of a line of jobs, behind so many beginnings of parts.
#[tactic(auto, unfolding(crate::specs::JobTexts::script_line))]
pub(crate) fn script_line(alloc: Global, part: usize, line: &[u8]) -> Result<Vec<u8>, NoMemory>
    ensures { IfOk result (λ script. script.items ≡ script_line part line.now) }
{
    if line == b"%jobs".as_slice() {
        return kept(alloc, b"%services", true);
    }
    if line == b"%services".as_slice() {
        return kept(alloc, line, false);
    }
    if is_header(line) {
        return kept(alloc, line, true);
    }
    inner_line(alloc, part, line)
}
