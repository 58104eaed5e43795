//! What is counted in a record, as it grows.

ghost use Rattle.std.specs.Prelude.{◌≡◌, ◌≤◌, ◌+◌, ◌^◌, [], if◌then◌else◌, IfOk, None, IfSome, string_bytes};
ghost use Rattle.svc_main.specs.Counts.{is_any_start, is_any_bind, is_any_close, summary, FitCounts};

use crate::recorder::Recorder;
use std::alloc::Global;
use std::fmt::Write;
use std::marker::Model;
use svc_base::NoMemory;
use svc_history::History;
use svc_record::{Action, Entry};

fn is_start(entry: &Entry) -> bool
    ensures { result ≡ is_any_start entry.now }
{
    matches!(entry, Entry::Told(Action::Start(_)))
}

fn is_bind(entry: &Entry) -> bool
    ensures { result ≡ is_any_bind entry.now }
{
    matches!(entry, Entry::Told(Action::Bind(_, _)))
}

fn is_close(entry: &Entry) -> bool
    ensures { result ≡ is_any_close entry.now }
{
    matches!(entry, Entry::Told(Action::Close(_)))
}

/// How many services were started, how often an endpoint was bound, and how many descriptors were
/// closed. Contracts see the record, the newest entry first.
#[derive(Drop)]
pub(crate) struct RecordCounts {
    starts: u64,
    binds: u64,
    closes: u64,
    /// A count went past its greatest value, so they tell nothing.
    is_past: bool,
    entries: History<Entry>,
}

impl Model for RecordCounts {
    ghost use Rattle.std.specs.Prelude.{◌≡◌, true, false};
    ghost use Rattle.svc_record.specs.Record.{Record};
    ghost use Rattle.svc_main.specs.Counts.{HasCounts, FitCounts};

    ghost Value = { Record };

    ghost view = { λ c. c.entries };

    ghost invariant = { λ c. (c.is_past ≡ false → HasCounts c.starts c.binds c.closes c.entries) × (c.is_past ≡ true → FitCounts c.entries → ⊥) };
}

/// The count with this entry, where it can be told.
fn counted(count: u64, counts: bool) -> Option<u64>
    ensures count { IfSome result (λ n. n ≡ (if counts then count + 1 else count)) }
    ensures past { result ≡ None → 2 ^ 64 ≤ (if counts then count + 1 else count) }
{
    if counts {
        count.checked_add(1)
    } else {
        Some(count)
    }
}

impl RecordCounts {
    /// The counts of a record with no entry.
    pub(crate) fn new() -> Self
        ensures { result ≡ [] }
    {
        RecordCounts {
            starts: 0,
            binds: 0,
            closes: 0,
            is_past: false,
            entries: History::new(),
        }
    }

    /// The three counts, a line each. Each is below 2^64.
    pub(crate) fn summary(&self, alloc: Global) -> Result<String, NoMemory>
        requires { FitCounts self.now }
        ensures { IfOk result (λ text. string_bytes text ≡ summary self.now) }
    {
        if self.is_past {
            unreachable!();
        }
        let mut text = String::new(alloc);
        writeln!(text, "starts {}", self.starts)?;
        writeln!(text, "binds {}", self.binds)?;
        writeln!(text, "closes {}", self.closes)?;
        Ok(text)
    }
}

/// It keeps the counts.
impl Recorder for RecordCounts {
    ghost shown = { λ c. c };

    fn note(&mut self, entry: &Entry) {
        self.entries.push(entry);
        let starts = counted(self.starts, is_start(entry));
        let binds = counted(self.binds, is_bind(entry));
        let closes = counted(self.closes, is_close(entry));
        if let (Some(starts), Some(binds), Some(closes)) = (starts, binds, closes) {
            self.starts = starts;
            self.binds = binds;
            self.closes = closes;
        } else {
            self.is_past = true;
        }
    }
}
