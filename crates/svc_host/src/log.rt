//! The record of a run in a file, as it grows.

ghost use Rattle.std.specs.Prelude.{◌≡◌, true};

use crate::recorder::Recorder;
use std::alloc::Global;
use std::fmt::Write;
use svc_base::{NoMemory, Sink, write_all};
use svc_record::Entry;
use svc_system::{LogState, UpgradeAnswer};

/// So many bytes of text are held back at most, before the line that makes them more.
const HELD: usize = 65536;

/// The record of a run, in its text, in a sink. It is held back while more comes, and written where nothing
/// is ready. Where the sink fails, or there is no memory for a line, nothing more is written.
#[derive(Drop)]
pub struct Log<K: Sink> {
    sink: K,
    text: String,
    /// Everything that was shown was written or is held back.
    is_whole: bool,
}

/// The entry's line behind the text.
fn put_line(text: &mut String, entry: &Entry) -> Result<(), NoMemory> {
    writeln!(text, "{entry}")?;
    Ok(())
}

impl<K: Sink> Log<K> {
    /// A log of nothing.
    pub fn new(alloc: Global, sink: K) -> Self
        ensures { result.is_whole ≡ true }
    {
        Log {
            sink,
            text: String::new(alloc),
            is_whole: true,
        }
    }

    /// Writes what is held back.
    fn write_held(&mut self) {
        if self.is_whole && !self.text.is_empty() {
            self.is_whole = write_all(&mut self.sink, self.text.as_bytes()).is_ok();
        }
        self.text.clear();
    }
}

impl<K: Sink + Drop> Recorder for Log<K> {
    fn note(&mut self, entry: &Entry) {
        if self.text.len() >= HELD {
            self.write_held();
        }
        if self.is_whole && put_line(&mut self.text, entry).is_err() {
            self.is_whole = false;
        }
    }

    fn due(&self) -> Option<u64> {
        None
    }

    fn settle(&mut self) -> LogState {
        self.write_held();
        if self.is_whole {
            LogState::Whole
        } else {
            LogState::Cut
        }
    }

    /// A log begins no server.
    fn upgrade(&mut self, _file: &str) -> UpgradeAnswer {
        UpgradeAnswer::Unsupported
    }
}
