//! What is kept of a record that grows.

ghost use Rattle.std.specs.Prelude.{◌≡◌, ◌∷◌};
ghost use Rattle.svc_record.specs.Record.{Record};

use svc_record::Entry;
use svc_text::RecordText;

/// What is kept of a record that grows: it is shown each entry once, as it comes.
pub(crate) trait Recorder {
    // What it was shown, the newest first.
    ghost shown: { Self → Record };

    /// Is shown the next entry.
    fn note(&mut self, entry: &Entry)
        ensures { shown self.new ≡ entry.now ∷ shown self.old };
}

/// It keeps the text.
impl Recorder for RecordText {
    ghost shown = { λ r. r };

    fn note(&mut self, entry: &Entry) {
        self.put(entry);
    }
}
