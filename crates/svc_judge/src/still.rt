//! Whether time alone changes nothing that is asked of a record while the run goes on.

ghost use Rattle.std.specs.Prelude.{◌≡◌};
ghost use Rattle.svc_record.specs.declared.entry.Entry.TheVariants.{Got};
ghost use Rattle.svc_judge.specs.Still.{is_moment, is_at_moment, awaits_sender, is_last_in_use, has_in_use, is_still};

use crate::looking::in_use_within;
use crate::offer::is_upgrade;
use svc_record::{Entry, Event};

/// The event is a moment.
fn is_moment(entry: &Entry) -> bool
    ensures { result ≡ is_moment entry.now }
{
    matches!(entry, Entry::Got(Event::Moment(_)))
}

/// The newest entry is a moment.
pub(crate) fn is_at_moment(entries: &[Entry]) -> bool
    ensures { result ≡ is_at_moment entries.now }
{
    match entries {
        [] => false,
        [entry, ..] => is_moment(entry),
    }
}

/// Of the answers to tries the newest is that no sender is there yet.
fn awaits_sender(entries: &[Entry]) -> bool
    ensures { result ≡ awaits_sender entries.now }
{
    let mut rest = entries;
    'entries: while let Some((entry, before)) = rest.split_first() {
        match entry {
            Entry::Got(Event::Received(_, _) | Event::ReceiveFailed) => return false,
            Entry::Got(Event::NoSenderYet) => return true,
            _ => {}
        }
        rest = before;
    }
    false
}

/// The event is `InUse` of an endpoint of whose binds and their answers the newest is `InUse`.
fn is_event_last_in_use(event: &Event, entries: &[Entry]) -> bool
    ensures { result ≡ is_last_in_use entries.now (Got event.now) }
{
    match event {
        Event::InUse(s, i) => in_use_within(0, entries, u64::from(*s), u64::from(*i)),
        _ => false,
    }
}

/// The entry is such an event.
fn is_last_in_use(entry: &Entry, entries: &[Entry]) -> bool
    ensures { result ≡ is_last_in_use entries.now entry.now }
{
    match entry {
        Entry::Got(event) => is_event_last_in_use(event, entries),
        Entry::Told(_) => false,
    }
}

/// Of some endpoint's binds and their answers the newest is `InUse`.
fn has_in_use(entries: &[Entry]) -> bool
    ensures { result ≡ has_in_use entries.now }
{
    let mut rest = entries;
    'entries: while let Some((entry, before)) = rest.split_first() {
        if is_last_in_use(entry, entries) {
            return true;
        }
        rest = before;
    }
    false
}

/// Neither a bind nor a try nor an offer rests.
pub(crate) fn is_still(entries: &[Entry]) -> bool
    ensures { result ≡ is_still entries.now }
{
    !is_upgrade(entries) && !awaits_sender(entries) && !has_in_use(entries)
}
