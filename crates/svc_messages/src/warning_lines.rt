//! What is told of a run before its end is explained: unknown keys, flags that do nothing, and addresses that none is.

ghost use Rattle.std.specs.Prelude.{All, OnOk, IfOk, IfSome, string_bytes};
ghost use Rattle.svc_messages.specs.Messages.{IsMessage};

use crate::addresses::is_address;
use crate::configuration::{KeyNotes, key_notes};
use crate::explaining::Ending;
use crate::pieces::{about, numbered};
use crate::places::{Section, header};
use crate::service_lines::{LineItem, can_bootstrap, first_item, items_of};
use crate::words::said;
use std::alloc::Global;
use std::mem::drop;
use std::rc::RcStr;
use svc_base::{NoMemory, split_line};
use svc_conf::{Opt, OptError};

/// How many addresses are told at most.
const TOLD: usize = 10;

/// What is said of `-u` where nothing bootstraps.
const IDLE_UPGRADE: &str =
    "-u, --upgrade, does nothing here: the script has neither the line eager nor a bootstrap service";

/// What is said of `-t` there.
const IDLE_TEST: &str =
    "-t, --test, does nothing here: the script has neither the line eager nor a bootstrap service";

/// What is said of `-c`.
const IDLE_CONF: &str =
    "-c, --conf, does nothing here: its file isn't read, and the script has its own configuration";

/// Which flags stand among the words of a run.
#[derive(Clone, Copy)]
struct SaidFlags {
    upgrade: bool,
    test: bool,
    conf: bool,
}

/// The flags among these words; none where they aren't words of a run.
fn said_flags(alloc: Global, words: &[RcStr]) -> Result<SaidFlags, NoMemory> {
    match Opt::parse_args(alloc, words) {
        Ok(opt) => {
            let said = SaidFlags {
                upgrade: opt.upgrade,
                test: opt.test,
                conf: opt.conf.is_some(),
            };
            drop(opt);
            Ok(said)
        }
        Err(OptError::Words(_)) => Ok(SaidFlags {
            upgrade: false,
            test: false,
            conf: false,
        }),
        Err(OptError::NoMemory) => Err(NoMemory),
    }
}

/// Adds what is said, if something is.
fn add_note(notes: &mut Vec<String>, note: Option<String>) -> Result<(), NoMemory>
    requires { IfSome note (λ text. IsMessage (string_bytes text)) }
    ensures { OnOk result (All (λ note. IsMessage (string_bytes note)) notes.old.items → All (λ note. IsMessage (string_bytes note)) notes.new.items) }
{
    match note {
        Some(text) => {
            notes.push(text)?;
            Ok(())
        }
        None => Ok(()),
    }
}

/// Adds what is said of a flag, where it does nothing.
fn add_flag(
    alloc: Global,
    notes: &mut Vec<String>,
    is_idle: bool,
    text: &str,
) -> Result<(), NoMemory>
    requires { IsMessage text.now }
    ensures { OnOk result (All (λ note. IsMessage (string_bytes note)) notes.old.items → All (λ note. IsMessage (string_bytes note)) notes.new.items) }
{
    if !is_idle {
        return Ok(());
    }
    notes.push(said(alloc, text)?)?;
    Ok(())
}

/// Adds what is said of flags that do nothing in a script, which has something that bootstraps or hasn't.
fn add_flags(
    alloc: Global,
    notes: &mut Vec<String>,
    flags: SaidFlags,
    bootstraps: bool,
) -> Result<(), NoMemory>
    ensures { OnOk result (All (λ note. IsMessage (string_bytes note)) notes.old.items → All (λ note. IsMessage (string_bytes note)) notes.new.items) }
{
    add_flag(alloc, notes, flags.upgrade & !bootstraps, IDLE_UPGRADE)?;
    add_flag(alloc, notes, flags.test & !bootstraps, IDLE_TEST)?;
    add_flag(alloc, notes, flags.conf, IDLE_CONF)?;
    Ok(())
}

/// What is said of the first address of these items that is none.
fn address_note(alloc: Global, number: usize, items: &[u8]) -> Result<Option<String>, NoMemory>
    ensures { IfOk result (λ told. IfSome told (λ text. IsMessage (string_bytes text))) }
{
    let mut rest = items;
    for _ in 0..items.len() {
        let Some(
            LineItem {
                key,
                value,
                rest: more,
            },
        ) = first_item(rest)
        else {
            return Ok(None);
        };
        if key == b"tcp".as_slice() && !is_address(value) {
            let cause = about(
                alloc,
                value,
                " behind tcp isn't IP:PORT or [IP]:PORT with a port up to 65535; the run takes it, and a host may not",
                &[],
            )?;
            return Ok(Some(numbered(alloc, number, cause.as_str())?));
        }
        rest = more;
    }
    Ok(None)
}

/// What is said of an address of a line in this part that is none.
fn line_note(
    alloc: Global,
    section: Section,
    number: usize,
    line: &[u8],
) -> Result<Option<String>, NoMemory>
    ensures { IfOk result (λ told. IfSome told (λ text. IsMessage (string_bytes text))) }
{
    match section {
        Section::Services => address_note(alloc, number, items_of(line)),
        Section::Nothing | Section::Configuration | Section::Events => Ok(None),
    }
}

/// Adds what is said of addresses that are none, of the first ten lines that have one. The script is looked
/// through from a line on that stands before its services and has this number.
fn add_addresses(
    alloc: Global,
    notes: &mut Vec<String>,
    script: &[u8],
    first: usize,
) -> Result<(), NoMemory>
    ensures { OnOk result (All (λ note. IsMessage (string_bytes note)) notes.old.items → All (λ note. IsMessage (string_bytes note)) notes.new.items) }
{
    let most = notes.len().saturating_add(TOLD);
    let mut section = Section::Nothing;
    let mut rest = script;
    let mut number = first;
    while let Some((line, after)) = split_line(rest) {
        section = header(line).unwrap_or(section);
        if section == Section::Events || notes.len() >= most {
            return Ok(());
        }
        let note = line_note(alloc, section, number, line)?;
        add_note(notes, note)?;
        rest = after;
        number = number.saturating_add(1);
    }
    Ok(())
}

/// Adds what is said of flags and addresses of a run, from a line on that stands before the script's
/// services and has this number.
fn add_warnings(
    alloc: Global,
    notes: &mut Vec<String>,
    words: &[RcStr],
    script: &[u8],
    number: usize,
) -> Result<(), NoMemory>
    ensures { OnOk result (All (λ note. IsMessage (string_bytes note)) notes.old.items → All (λ note. IsMessage (string_bytes note)) notes.new.items) }
{
    let flags = said_flags(alloc, words)?;
    let bootstraps = (flags.upgrade || flags.test) && can_bootstrap(script);
    add_flags(alloc, notes, flags, bootstraps)?;
    add_addresses(alloc, notes, script, number)?;
    Ok(())
}

/// What is told of a run before its end is explained, a line each: at most ten keys of the configuration
/// that aren't known; of a script that isn't refused also flags that do nothing in it, and at most ten
/// addresses that no socket is bound to. `NoMemory` where there is none for them.
pub fn warnings(alloc: Global, ending: Ending<'_>) -> Result<Vec<String>, NoMemory>
    ensures messages { IfOk result (λ notes. All (λ note. IsMessage (string_bytes note)) notes.items) }
{
    let bytes = ending.script.unwrap_or(&[]);
    let KeyNotes {
        mut notes,
        rest,
        number,
    } = key_notes(alloc, bytes)?;
    if ending.status == 3 {
        return Ok(notes);
    }
    match add_warnings(alloc, &mut notes, ending.words, rest, number) {
        Ok(()) => Ok(notes),
        Err(NoMemory) => {
            drop(notes);
            Err(NoMemory)
        }
    }
}
