//! Why a line of a configuration is refused, and which of its keys are misspelled.

ghost use Rattle.std.specs.Prelude.{All, OnOk, IfOk, IfSome, string_bytes};
ghost use Rattle.std.specs.Str.Lines.{lines};
ghost use Rattle.svc_messages.specs.Messages.{IsPlain, ArePlain, IsMessage};
ghost use Rattle.svc_messages.specs.Refusals.{TellsOf, TellsOfLine};

use crate::near::{add_near, put_near};
use crate::pieces::{Piece, about, numbered, told};
use crate::places::{Section, behind_header, header};
use crate::spelling::nearest;
use crate::words::{is_known, said};
use std::alloc::Global;
use std::str;
use svc_base::{NoMemory, split_line, split_word};
use svc_conf::{ReadError, ServerConf};

/// The keys whose value is a number.
const NUMBERS: [&str; 19] = [
    "version",
    "threads",
    "listener_tasks_per_fd",
    "grace_period_seconds",
    "graceful_shutdown_timeout_seconds",
    "upstream_keepalive_pool_size",
    "upstream_connect_offload_threadpools",
    "upstream_connect_offload_thread_per_pool",
    "downstream_tls_offload_threadpools",
    "downstream_tls_offload_thread_per_pool",
    "max_retries",
    "upgrade_sock_connect_accept_max_retries",
    "max_blocking_threads",
    "blocking_threads_ttl_seconds",
    "fast_timeout_to_tokio_threshold_seconds",
    "runtime_metrics_poll_time_histogram_resolution_micros",
    "runtime_metrics_poll_time_histogram_buckets",
    "daemon_ready_timeout_seconds",
    "daemon_notify_timeout_seconds",
];

/// The keys whose value is true or false.
const FLAGS: [&str; 6] = [
    "daemon",
    "work_stealing",
    "runtime_enable_alt_timer",
    "upstream_debug_ssl_keylog",
    "runtime_metrics_poll_time_histogram",
    "daemon_wait_for_ready",
];

/// The keys whose value is a text.
const TEXTS: [&str; 7] = [
    "error_log",
    "pid_file",
    "upgrade_sock",
    "user",
    "group",
    "working_directory",
    "ca_file",
];

/// The keys whose value is a list of texts.
const LISTS: [&str; 2] = ["client_bind_to_ipv4", "client_bind_to_ipv6"];

/// The key whose value is one of two words.
const SCALES: [&str; 1] = ["runtime_metrics_poll_time_histogram_scale"];

/// What the key takes, if it is known.
fn wanted(key: &[u8]) -> Option<&'static str>
    ensures { IfSome result (λ text. IsPlain text.now) }
{
    if is_known(key, &NUMBERS) {
        Some("a number in decimal digits, without sign or leading zero")
    } else if is_known(key, &FLAGS) {
        Some("true or false")
    } else if is_known(key, &TEXTS) {
        Some("a text")
    } else if is_known(key, &LISTS) {
        Some("[], or below it an item, - TEXT, a line")
    } else if is_known(key, &SCALES) {
        Some("linear or log")
    } else {
        None
    }
}

/// The one of these keys that the word is one letter off.
fn near_key(key: &[u8], known: &[&'static str]) -> Option<&'static str>
    requires { ArePlain known.now }
    ensures { IfSome result (λ text. IsPlain text.now) }
{
    nearest(key, known)
}

/// The key that the word was meant to be, if it is one letter off.
fn meant(key: &[u8]) -> Option<&'static str>
    ensures { IfSome result (λ text. IsPlain text.now) }
{
    near_key(key, &NUMBERS)
        .or(near_key(key, &FLAGS))
        .or(near_key(key, &TEXTS))
        .or(near_key(key, &LISTS))
        .or(near_key(key, &SCALES))
}

/// The key at the front of a line, and what follows its colon.
fn split_key(line: &[u8]) -> Option<(&[u8], &[u8])> {
    if matches!(line.first(), None | Some(b' ' | b'\t' | b'-' | b'#' | b':')) {
        return None;
    }
    let end = line.iter().position(|b| *b == b':')?;
    Some((&line[..end], &line[end + 1..]))
}

/// The number of the first line, from 1, in the configuration of a script that has this key, and what
/// follows its colon.
fn key_at<'a>(bytes: &'a [u8], key: &[u8]) -> Option<(usize, &'a [u8])> {
    let mut section = Section::Nothing;
    let mut rest = bytes;
    let mut number = 1usize;
    while let Some((line, after)) = split_line(rest) {
        section = header(line).unwrap_or(section);
        if section == Section::Configuration
            && let Some((found, value)) = split_key(line)
            && found == key
        {
            return Some((number, value));
        }
        rest = after;
        number = number.saturating_add(1);
    }
    None
}

/// The number of the first line, from 1, in the configuration of a script that has this key.
fn key_line(bytes: &[u8], key: &[u8]) -> Option<usize> {
    let (number, _) = key_at(bytes, key)?;
    Some(number)
}

/// The number that the configuration of a script gives this key, if it sets one.
pub(crate) fn key_number(bytes: &[u8], key: &[u8]) -> Option<u64> {
    let (_, value) = key_at(bytes, key)?;
    let (word, _) = split_word(value)?;
    svc_base::number(word)
}

/// The first refused line of the configuration has a value that isn't of its key's sort.
fn has_wrong_value(alloc: Global, bytes: &[u8]) -> Result<bool, NoMemory> {
    let Ok(text) = str::from_utf8(behind_header(bytes, Section::Configuration)) else {
        return Ok(false);
    };
    match ServerConf::parse(alloc, text) {
        Err(ReadError::NoMemory) => Err(NoMemory),
        Err(ReadError::Value { .. }) => Ok(true),
        _ => Ok(false),
    }
}

/// Why a line without a key is refused.
fn keyless_text(line: &[u8]) -> &'static str
    ensures { IsMessage result.now }
{
    match split_word(line) {
        Some((word, _)) if word.first() == Some(&b'-') => {
            "an item, - TEXT, stands below client_bind_to_ipv4: or client_bind_to_ipv6: alone, and --- once, before any key"
        }
        Some((word, _)) if word.last() == Some(&b':') => {
            "the line doesn't begin with its key; KEY: VALUE begins at the first byte of a line"
        }
        _ =>
            "the line is no setting; a line of the configuration is KEY: VALUE or a comment behind #",
    }
}

/// Why the value of a key, which takes what is said, isn't taken.
fn value_text<'a>(
    alloc: Global,
    key: &'a [u8],
    value: &'a [u8],
    wanted: &'a str,
) -> Result<String, NoMemory>
    requires { IsPlain wanted.now }
    ensures { IfOk result (λ text. IsMessage (string_bytes text)) }
{
    let pieces = [
        Piece::Word(value),
        Piece::Text(" isn't taken; "),
        Piece::Word(key),
        Piece::Text(" takes "),
        Piece::Text(wanted),
    ];
    about(alloc, key, ": ", &pieces)
}

/// Why what follows the colon of a key is no value.
fn form_text(alloc: Global, key: &[u8], value: &[u8]) -> Result<String, NoMemory>
    ensures { IfOk result (λ text. IsMessage (string_bytes text)) }
{
    match value.first() {
        None | Some(b' ' | b'\t') => told(
            alloc,
            "the line of ",
            &[
                Piece::Word(key),
                Piece::Text(
                    " isn't in the form KEY: VALUE; a value that isn't plain stands in quotes",
                ),
            ],
        ),
        Some(_) => told(
            alloc,
            "a blank lacks behind ",
            &[
                Piece::Word(key),
                Piece::Text(":, as in "),
                Piece::Word(key),
                Piece::Text(": VALUE"),
            ],
        ),
    }
}

/// Why the line with this number is none of a configuration.
pub fn configuration_message(
    alloc: Global,
    bytes: &[u8],
    number: usize,
    line: &[u8],
) -> Result<String, NoMemory>
    ensures { IfOk result (λ text. IsMessage (string_bytes text)) }
{
    let Some((key, value)) = split_key(line) else {
        return said(alloc, keyless_text(line));
    };
    if let Some(first) = key_line(bytes, key)
        && first < number
    {
        let pieces = [
            Piece::Number(first as u64),
            Piece::Text("; a key stands once"),
        ];
        return about(alloc, key, " stands twice, first in line ", &pieces);
    }
    if let Some(wanted) = wanted(key)
        && has_wrong_value(alloc, bytes)?
    {
        return value_text(alloc, key, value.trim_ascii(), wanted);
    }
    form_text(alloc, key, value)
}

/// What the key with this name takes, where not every number is taken.
fn taken_by(name: &str) -> &'static str
    ensures { IsPlain result.now }
{
    match name {
        "runtime_metrics_poll_time_histogram_buckets" => "a number from 1 to 1024",
        _ => "a number from 1 on",
    }
}

/// Why no server can run with the value of the key with this name, with the key's line.
pub fn key_message(alloc: Global, bytes: &[u8], name: &str) -> Result<String, NoMemory>
    ensures { IsPlain name.now → IfOk result (λ text. IsMessage (string_bytes text)) }
{
    let taken = taken_by(name);
    let pieces = [
        Piece::Word(name.as_bytes()),
        Piece::Text("; it takes "),
        Piece::Text(taken),
    ];
    let cause = told(alloc, "no server can run with this value of ", &pieces)?;
    match key_line(bytes, name.as_bytes()) {
        Some(number) => numbered(alloc, number, cause.as_str()),
        None => Ok(cause),
    }
}

/// How many unknown keys are told at most.
const TOLD: usize = 10;

/// The sorts of keys.
const SORTS: usize = 5;

/// The keys of a sort.
fn keys_of(sort: usize) -> &'static [&'static str]
    ensures { ArePlain result.now }
{
    match sort {
        0 => &NUMBERS,
        1 => &FLAGS,
        2 => &TEXTS,
        3 => &LISTS,
        _ => &SCALES,
    }
}

/// Puts the known keys behind a message that are nearest to the key.
fn put_nearest(alloc: Global, text: &mut String, key: &[u8]) -> Result<(), NoMemory>
    ensures { OnOk result (IsMessage (string_bytes text.old) → IsMessage (string_bytes text.new)) }
{
    let mut near = Vec::new(alloc);
    for sort in 0..SORTS {
        add_near(&mut near, key, keys_of(sort))?;
    }
    put_near(alloc, text, near.as_mut_slice())
}

/// What is said of a key that isn't known: the known one that it is one letter off, or else those that
/// are nearest to it.
fn key_cause(alloc: Global, key: &[u8]) -> Result<String, NoMemory>
    ensures { IfOk result (λ text. IsMessage (string_bytes text)) }
{
    if let Some(meant) = meant(key) {
        return about(
            alloc,
            key,
            " is no key and is skipped; did you mean ",
            &[Piece::Text(meant), Piece::Text("?")],
        );
    }
    let mut text = about(
        alloc,
        key,
        " is no key and is skipped; known keys near it:",
        &[],
    )?;
    put_nearest(alloc, &mut text, key)?;
    Ok(text)
}

/// What is said of a line whose key isn't known.
fn unknown_key(alloc: Global, number: usize, line: &[u8]) -> Result<Option<String>, NoMemory>
    ensures message { IfOk result (λ told. IfSome told (λ text. IsMessage (string_bytes text))) }
    ensures line { IfOk result (λ told. IfSome told (λ text. TellsOf number (string_bytes text))) }
{
    let Some((key, _)) = split_key(line) else {
        return Ok(None);
    };
    if wanted(key).is_some() {
        return Ok(None);
    }
    let cause = key_cause(alloc, key)?;
    Ok(Some(numbered(alloc, number, cause.as_str())?))
}

/// What is said of keys that aren't known, and how far a script was looked through for them.
#[derive(Drop)]
pub(crate) struct KeyNotes<'a> {
    /// A line for each key.
    pub notes: Vec<String>,
    /// The script from the line on that begins its services, or from an earlier one.
    pub rest: &'a [u8],
    /// The number of that line, from 1.
    pub number: usize,
}

/// What is said of the first ten keys of a script's configuration that aren't known: a line each.
pub(crate) fn key_notes(alloc: Global, bytes: &[u8]) -> Result<KeyNotes<'_>, NoMemory>
    ensures messages { IfOk result (λ told. All (λ note. IsMessage (string_bytes note)) told.notes.items) }
    ensures lines { IfOk result (λ told. All (λ note. TellsOfLine (lines bytes.now) (string_bytes note)) told.notes.items) }
{
    let mut notes = Vec::new(alloc);
    let mut section = Section::Nothing;
    let mut rest = bytes;
    let mut number = 1usize;
    while let Some((line, after)) = split_line(rest) {
        section = header(line).unwrap_or(section);
        if section == Section::Services || notes.len() >= TOLD {
            break;
        }
        if section == Section::Configuration
            && let Some(note) = unknown_key(alloc, number, line)?
        {
            notes.push(note)?;
        }
        rest = after;
        number = number.saturating_add(1);
    }
    Ok(KeyNotes {
        notes,
        rest,
        number,
    })
}

/// What is said of the first ten keys of a script's configuration that aren't known: a line each.
pub fn unknown_keys(alloc: Global, bytes: &[u8]) -> Result<Vec<String>, NoMemory>
    ensures messages { IfOk result (λ notes. All (λ note. IsMessage (string_bytes note)) notes.items) }
    ensures lines { IfOk result (λ notes. All (λ note. TellsOfLine (lines bytes.now) (string_bytes note)) notes.items) }
{
    match key_notes(alloc, bytes) {
        Ok(KeyNotes { notes, .. }) => Ok(notes),
        Err(NoMemory) => Err(NoMemory),
    }
}
