//! What a job's line says, and the line of the service that stands for the job.

ghost use Rattle.std.specs.Prelude.{◌≡◌, ◌++◌, OnOk, IfOk};
ghost use Rattle.std.specs.Option.{option_map};
ghost use Rattle.svc_base.specs.Words.{words};
ghost use Rattle.svc_jobs.specs.JobTexts.{period_of, after_of, job_of, after_text, service_line, job_said};

use std::alloc::Global;
use svc_base::{NoMemory, number, split_word};

/// What a job's line says.
#[derive(Clone, Copy)]
pub(crate) struct JobWords<'a> {
    pub name: &'a [u8],
    /// Its period, in milliseconds: above 0.
    pub every: u64,
    /// The numbers of the jobs that it comes after, as they are written.
    pub after: Option<&'a [u8]>,
}

/// The period that a word says.
#[tactic(auto, unfolding(crate::specs::JobTexts::period_of))]
fn period_of(word: &[u8]) -> Option<u64>
    ensures { result ≡ period_of word.now }
{
    let every = number(word)?;
    if every == 0 { None } else { Some(every) }
}

/// What stands behind a job's period: nothing, or which jobs it comes after.
#[tactic(auto, unfolding(crate::specs::JobTexts::after_of))]
fn after_of(line: &[u8]) -> Option<Option<&[u8]>>
    ensures { option_map (λ o. option_map (λ value. value.now) o) result ≡ after_of (words line.now) }
{
    let Some((key, rest)) = split_word(line) else {
        return Some(None);
    };
    let Some((value, more)) = split_word(rest) else {
        return None;
    };
    if key == b"after".as_slice() && split_word(more).is_none() {
        Some(Some(value))
    } else {
        None
    }
}

/// What a line says of a job.
#[tactic(auto, unfolding(crate::specs::JobTexts::job_of))]
pub(crate) fn job_of_line(line: &[u8]) -> Option<JobWords<'_>>
    ensures { option_map job_said result ≡ job_of (words line.now) }
{
    let Some((name, rest)) = split_word(line) else {
        return None;
    };
    let Some((key, rest)) = split_word(rest) else {
        return None;
    };
    let Some((ms, rest)) = split_word(rest) else {
        return None;
    };
    if key != b"every".as_slice() {
        return None;
    }
    let Some(every) = period_of(ms) else {
        return None;
    };
    let Some(after) = after_of(rest) else {
        return None;
    };
    Some(JobWords { name, every, after })
}

/// Appends what stands behind the kind of the service.
fn add_after(line: &mut Vec<u8>, after: Option<&[u8]>) -> Result<(), NoMemory>
    ensures { OnOk result (line.new.items ≡ line.old.items ++ after_text (option_map (λ value. value.now) after.entry)) }
{
    if let Some(value) = after {
        line.extend_from_slice(b" after ")?;
        line.extend_from_slice(value)?;
    }
    Ok(())
}

/// The line of the service that stands for the job of a line; where the line says none, a line that no
/// script has.
pub(crate) fn service_line(alloc: Global, line: &[u8]) -> Result<Vec<u8>, NoMemory>
    ensures { IfOk result (λ service. service.items ≡ service_line (job_of (words line.now))) }
{
    let Some(job) = job_of_line(line) else {
        return Ok(Vec::from_slice(alloc, b"\xff")?);
    };
    let mut service = Vec::from_slice(alloc, job.name)?;
    service.extend_from_slice(b" notify")?;
    add_after(&mut service, job.after)?;
    Ok(service)
}
