//! What a server has done of its two handovers.

ghost use Rattle.std.specs.Prelude.{◌≡◌, ◌∷◌, ◌++◌, [], reverse};
ghost use Rattle.svc_record.specs.Record.{Record};
ghost use Rattle.svc_supervisor.specs.Marks.{marks_of, channel_between};

use svc_core::{Action, Entry, Event};
use svc_handover::ChannelState;

/// How far a server has come in taking over from the one before it, and in handing over to the next.
#[derive(Clone, Copy, PartialEq, Eq, Debug)]
pub(crate) struct Marks {
    /// It has made the socket at which it receives.
    pub(crate) listens: bool,
    /// It has received the message.
    pub(crate) taken: bool,
    /// Its successor took its connection.
    pub(crate) joined: bool,
    /// It has sent its message.
    pub(crate) sent: bool,
}

impl Marks {
    /// Of a server that has done nothing yet.
    pub(crate) fn new() -> Marks
        ensures { result ≡ marks_of [] }
    {
        Marks {
            listens: false,
            taken: false,
            joined: false,
            sent: false,
        }
    }

    /// After these entries.
    pub(crate) fn after(self, entries: &[Entry]) -> Marks
        ensures { (q : Record) → self ≡ marks_of q → result ≡ marks_of (reverse entries.now ++ q) }
    {
        let mut marks = self;
        for entry in entries {
            marks = marks.with(entry);
        }
        marks
    }

    /// After one more entry.
    fn with(self, entry: &Entry) -> Marks
        ensures { (q : Record) → self ≡ marks_of q → result ≡ marks_of (entry.now ∷ q) }
    {
        match entry {
            Entry::Got(Event::Received(_, _)) => Marks {
                taken: true,
                ..self
            },
            Entry::Got(Event::Connected) => Marks {
                joined: true,
                ..self
            },
            Entry::Got(Event::Sent) => Marks { sent: true, ..self },
            Entry::Told(Action::OpenReceiver) => Marks {
                listens: true,
                ..self
            },
            _ => self,
        }
    }
}

/// How far the handover from an old server to a new one has come.
pub(crate) fn channel_between(old: Marks, new: Marks) -> ChannelState
    ensures { result ≡ channel_between old new }
{
    if new.taken {
        ChannelState::Taken
    } else if old.sent {
        ChannelState::InFlight
    } else if old.joined {
        ChannelState::Connected
    } else if new.listens {
        ChannelState::Listening
    } else {
        ChannelState::Missing
    }
}
