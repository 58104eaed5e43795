//! The text of a record.

ghost use Rattle.std.specs.Prelude.{◌≡◌, List, [], ◌∷◌, reverse, All, IfOk, OnOk, string_bytes};
ghost use Rattle.svc_record.specs.declared.entry.Entry.{Entry};
ghost use Rattle.svc_record.specs.Text.{text_of, EntryFits};

use crate::fitting::read_entry;
use crate::record_lines::push_line;
use std::alloc::Global;
use std::marker::Model;
use svc_base::NoMemory;
use svc_history::History;
use svc_record::Entry;

/// The text of a record: a line for each entry, the oldest first. Each ends with a line feed.
pub fn record_text(alloc: Global, entries: &[Entry]) -> Result<String, NoMemory>
    ensures text { IfOk result (λ text. string_bytes text ≡ text_of entries.now) }
    ensures numbers { OnOk result (All EntryFits entries.now) }
{
    let mut text = String::new(alloc);
    for entry in entries {
        push_line(&mut text, entry)?;
        read_entry(entry);
    }
    Ok(text)
}

/// The text of a record that grows: a line for each entry, as it comes. Contracts see the record, the
/// newest entry first.
#[derive(Drop)]
pub struct RecordText {
    text: String,
    /// There was no memory for a line, so the text tells nothing.
    is_short: bool,
    entries: History<Entry>,
}

impl Model for RecordText {
    ghost use Rattle.std.specs.Prelude.{◌≡◌, false, reverse, All, string_bytes};
    ghost use Rattle.svc_record.specs.Record.{Record};
    ghost use Rattle.svc_record.specs.Text.{text_of, EntryFits};

    ghost Value = { Record };

    ghost view = { λ r. r.entries };

    ghost invariant = { λ r. All EntryFits (reverse r.entries) × (r.is_short ≡ false → string_bytes r.text ≡ text_of (reverse r.entries)) };
}

/// A text without bytes, and with memory for so many, if there is so much.
fn empty_text(alloc: Global, capacity: usize) -> String
    ensures { string_bytes result ≡ [] }
{
    match String::with_capacity(alloc, capacity) {
        Ok(text) => text,
        Err(_) => String::new(alloc),
    }
}

impl RecordText {
    /// The text of a record with no entry. It has memory for so many bytes, if there is so much: where they
    /// are enough, it isn't moved as it grows.
    pub fn new(alloc: Global, capacity: usize) -> Self
        ensures { result ≡ [] }
    {
        RecordText {
            text: empty_text(alloc, capacity),
            is_short: false,
            entries: History::new(),
        }
    }

    /// Adds the line of the next entry.
    pub fn put(&mut self, entry: &Entry)
        ensures { self.new ≡ entry.now ∷ self.old }
    {
        read_entry(entry);
        self.entries.push(entry);
        if !self.is_short {
            self.is_short = push_line(&mut self.text, entry).is_err();
        }
    }

    /// The text, if there was memory for each line: one for each entry, the oldest first. Each ends with a line feed.
    pub fn into_text(self) -> Result<String, NoMemory>
        ensures text { IfOk result (λ text. string_bytes text ≡ text_of (reverse self)) }
        ensures numbers { OnOk result (All EntryFits (reverse self)) }
    {
        let RecordText { text, is_short, .. } = self;
        if is_short {
            return Err(NoMemory);
        }
        Ok(text)
    }
}

/// Two records with one text are equal.
pub fn one_record()
    ensures { (r q : List Entry) → All EntryFits r → All EntryFits q → text_of r ≡ text_of q → r ≡ q }
{}
