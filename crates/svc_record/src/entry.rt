use crate::action::Action;
use crate::event::Event;
use std::fmt;
use svc_base::Reserved;

/// An entry of a record: what was got from the host, or told to it.
#[derive(PartialEq, Eq, Debug, Drop)]
pub enum Entry {
    /// The host told this event.
    Got(Event),
    /// The core told this action.
    Told(Action),
}

/// The entries of a record, in the order in which they happened.
pub type Entries = Reserved<Entry>;

impl fmt::Display for Entry {
    ghost use Rattle.std.specs.Prelude.{Some};
    ghost use Rattle.svc_record.specs.Text.{spaced, entry_words};

    ghost output = { λ e. Some (spaced (entry_words e)) };

    fn fmt<W: fmt::Write>(&self, f: &mut fmt::Formatter<W>) -> fmt::Result {
        match self {
            Entry::Got(e) => write!(f, "got {e}"),
            Entry::Told(a) => write!(f, "{a}"),
        }
    }
}
