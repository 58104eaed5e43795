//! What a line says that a service does.

ghost use Rattle.std.specs.Prelude.{◌≡◌, IfOk};
ghost use Rattle.std.specs.Option.{option_map};
ghost use Rattle.svc_base.specs.Words.{words};
ghost use Rattle.svc_work.specs.Works.{address_of, bare_work, ready_of, forward_of, long_work, gate_of, jobs_of, short_work, work_of, service_named, line_of, path_in, file_path};

use std::alloc::Global;
use std::str;
use svc_base::{NoMemory, Text, number, split_word};

/// What a service does with its connections, which of them it takes, or when it is ready.
#[derive(Drop)]
pub enum Work {
    /// What comes on a connection comes back.
    Echo,
    /// What comes on a connection goes on to this address of TCP, and what comes from there goes back.
    ForwardTcp(Text),
    /// The same with this path of the Unix domain.
    ForwardUnix(Text),
    /// The service is ready so many milliseconds after its start.
    Ready(u64),
    /// Connections are taken whose peers the rules in the file at this path allow.
    Gate(Text),
    /// The jobs in the file at this path run while the service does.
    Jobs(Text),
}

/// What is in a file that a line names.
#[derive(Clone, Copy)]
pub enum WorkFile {
    /// The rules of a gate.
    Gate,
    /// Jobs.
    Jobs,
}

/// What a line says: what the service with this number does.
#[derive(Drop)]
pub struct WorkLine {
    pub service: usize,
    pub work: Work,
}

/// The address or path that a word is.
#[tactic(auto, unfolding(crate::specs::Works::address_of))]
fn address_of(alloc: Global, word: &[u8]) -> Result<Option<Text>, NoMemory>
    ensures { IfOk result (λ o. o ≡ address_of word.now) }
{
    let Ok(text) = str::from_utf8(word) else {
        return Ok(None);
    };
    if word.is_empty() || word.len() > 4096 {
        return Ok(None);
    }
    Ok(Some(Text::new(alloc, text)?))
}

/// What one word says.
#[tactic(auto, unfolding(crate::specs::Works::bare_work))]
fn bare_work(word: &[u8]) -> Option<Work>
    ensures { result ≡ bare_work word.now }
{
    if word == b"echo".as_slice() {
        Some(Work::Echo)
    } else {
        None
    }
}

/// When a service is ready.
#[tactic(auto, unfolding(crate::specs::Works::ready_of))]
fn ready_of(value: &[u8]) -> Option<Work>
    ensures { result ≡ ready_of value.now }
{
    match number(value) {
        Some(ms) => Some(Work::Ready(ms)),
        None => None,
    }
}

/// The file with the rules of a gate.
#[tactic(auto, unfolding(crate::specs::Works::gate_of))]
fn gate_of(alloc: Global, value: &[u8]) -> Result<Option<Work>, NoMemory>
    ensures { IfOk result (λ o. o ≡ gate_of value.now) }
{
    match address_of(alloc, value)? {
        Some(path) => Ok(Some(Work::Gate(path))),
        None => Ok(None),
    }
}

/// The file with jobs.
#[tactic(auto, unfolding(crate::specs::Works::jobs_of))]
fn jobs_of(alloc: Global, value: &[u8]) -> Result<Option<Work>, NoMemory>
    ensures { IfOk result (λ o. o ≡ jobs_of value.now) }
{
    match address_of(alloc, value)? {
        Some(path) => Ok(Some(Work::Jobs(path))),
        None => Ok(None),
    }
}

/// What two words say.
#[tactic(auto, unfolding(crate::specs::Works::short_work))]
fn short_work(alloc: Global, word: &[u8], value: &[u8]) -> Result<Option<Work>, NoMemory>
    ensures { IfOk result (λ o. o ≡ short_work word.now value.now) }
{
    if word == b"ready".as_slice() {
        return Ok(ready_of(value));
    }
    if word == b"gate".as_slice() {
        return gate_of(alloc, value);
    }
    if word == b"jobs".as_slice() {
        return jobs_of(alloc, value);
    }
    Ok(None)
}

/// Where a service forwards to.
#[tactic(auto, unfolding(crate::specs::Works::forward_of))]
fn forward_of(alloc: Global, kind: &[u8], value: &[u8]) -> Result<Option<Work>, NoMemory>
    ensures { IfOk result (λ o. o ≡ forward_of kind.now value.now) }
{
    let Some(text) = address_of(alloc, value)? else {
        return Ok(None);
    };
    if kind == b"tcp".as_slice() {
        return Ok(Some(Work::ForwardTcp(text)));
    }
    if kind == b"unix".as_slice() {
        return Ok(Some(Work::ForwardUnix(text)));
    }
    Ok(None)
}

/// What three words say.
#[tactic(auto, unfolding(crate::specs::Works::long_work))]
fn long_work(
    alloc: Global,
    word: &[u8],
    kind: &[u8],
    value: &[u8],
) -> Result<Option<Work>, NoMemory>
    ensures { IfOk result (λ o. o ≡ long_work word.now kind.now value.now) }
{
    if word == b"forward".as_slice() {
        return forward_of(alloc, kind, value);
    }
    Ok(None)
}

/// What the words of a line say of a service.
#[tactic(auto, unfolding(crate::specs::Works::work_of))]
fn work_of(alloc: Global, line: &[u8]) -> Result<Option<Work>, NoMemory>
    ensures { IfOk result (λ o. o ≡ work_of (words line.now)) }
{
    let Some((word, rest)) = split_word(line) else {
        return Ok(None);
    };
    let Some((first, rest)) = split_word(rest) else {
        return Ok(bare_work(word));
    };
    let Some((second, rest)) = split_word(rest) else {
        return short_work(alloc, word, first);
    };
    if split_word(rest).is_some() {
        return Ok(None);
    }
    long_work(alloc, word, first, second)
}

/// The number of the first service with this name.
fn service_named(names: &[Text], word: &[u8]) -> Option<usize>
    ensures { result ≡ service_named names.now word.now }
{
    names
        .iter()
        .position(|name| name.as_str().as_bytes() == word)
}

/// What a line says, where the services have these names.
#[tactic(auto, unfolding(crate::specs::Works::line_of))]
pub(crate) fn line_of(
    alloc: Global,
    names: &[Text],
    line: &[u8],
) -> Result<Option<WorkLine>, NoMemory>
    ensures { IfOk result (λ o. o ≡ line_of names.now (words line.now)) }
{
    let Some((word, rest)) = split_word(line) else {
        return Ok(None);
    };
    let Some(service) = service_named(names, word) else {
        return Ok(None);
    };
    match work_of(alloc, rest)? {
        Some(work) => Ok(Some(WorkLine { service, work })),
        None => Ok(None),
    }
}

/// The path that a line says for such a file of this service.
fn path_in(line: &WorkLine, service: usize, file: WorkFile) -> Option<&Text>
    ensures { option_map (λ path. path.now) result ≡ path_in file service line.now }
{
    if line.service != service {
        return None;
    }
    match (&line.work, file) {
        (Work::Gate(path), WorkFile::Gate) => Some(path),
        (Work::Jobs(path), WorkFile::Jobs) => Some(path),
        _ => None,
    }
}

/// The path of such a file of a service, if it has one: that of the last line that says one.
pub fn file_path(works: &[WorkLine], service: usize, file: WorkFile) -> Option<&Text>
    ensures { option_map (λ path. path.now) result ≡ file_path file service works.now }
{
    let mut found = None;
    for line in works {
        if let Some(path) = path_in(line, service, file) {
            found = Some(path);
        }
    }
    found
}
