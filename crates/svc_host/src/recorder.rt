//! What is shown a record that grows.

use svc_record::Entry;
use svc_system::{LogState, UpgradeAnswer};

/// What is shown a record that grows, each entry once, as it comes.
pub trait Recorder: Drop {
    /// Is shown the next entry.
    fn note(&mut self, entry: &Entry);

    /// Is to be shown a moment from this one on, in milliseconds, if there is one.
    fn due(&self) -> Option<u64>;

    /// Nothing comes until something happens: what it holds back, it lets go. Answers what became of all
    /// that it was shown.
    fn settle(&mut self) -> LogState;

    /// An operator asks to be upgraded to this file. Answers what was begun.
    fn upgrade(&mut self, file: &str) -> UpgradeAnswer;
}
