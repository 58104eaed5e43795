//! The channel between an old and a new server: what moves it on, and which events it allows.

ghost use Rattle.std.specs.Prelude.{◌≡◌, reverse, if◌then◌else◌};
ghost use Rattle.std.specs.List.{list_any};
ghost use Rattle.svc_record.specs.Boot.{is_open_receiver};
ghost use Rattle.svc_handover.specs.Channel.{after_old, after_new, listening_from, old_may, new_may, is_as_sent, newest_after, is_sent, sent_message};

use crate::pair::ChannelState;
use svc_core::{Action, Entry, Event};

/// The channel after an event of the old server.
pub(crate) fn after_old(event: &Event, channel: ChannelState) -> ChannelState
    ensures { result ≡ after_old event.now channel }
{
    match event {
        Event::Connected => ChannelState::Connected,
        Event::Sent => ChannelState::InFlight,
        _ => channel,
    }
}

/// The channel after an event of the new server.
pub(crate) fn after_new(event: &Event, channel: ChannelState) -> ChannelState
    ensures { result ≡ after_new event.now channel }
{
    match event {
        Event::Received(_, _) => ChannelState::Taken,
        _ => channel,
    }
}

/// The channel after these entries of the new server, of which only what it told counts here.
pub(crate) fn after_told(entries: &[Entry], channel: ChannelState) -> ChannelState
    ensures { result ≡ (if list_any is_open_receiver entries.now then listening_from channel else channel) }
{
    if opens_receiver(entries) {
        listening_from(channel)
    } else {
        channel
    }
}

/// Whether one of the entries opens the receiver.
fn opens_receiver(entries: &[Entry]) -> bool
    ensures { result ≡ list_any is_open_receiver entries.now }
{
    entries.iter().any(|entry| is_open_receiver(entry))
}

fn is_open_receiver(entry: &Entry) -> bool
    ensures { result ≡ is_open_receiver entry.now }
{
    matches!(entry, Entry::Told(Action::OpenReceiver))
}

/// Where nothing was there, the new server listens.
fn listening_from(channel: ChannelState) -> ChannelState
    ensures { result ≡ listening_from channel }
{
    match channel {
        ChannelState::Missing => ChannelState::Listening,
        _ => channel,
    }
}

/// Whether the channel allows the event of the old server.
pub fn old_may(channel: ChannelState, event: &Event) -> bool
    ensures { result ≡ old_may channel event.now }
{
    match event {
        Event::Connected => matches!(channel, ChannelState::Listening),
        Event::Sent => matches!(channel, ChannelState::Connected),
        _ => true,
    }
}

/// Whether the channel allows the event of the new server, where the old one has these entries:
/// what is received is what was sent, with as many numbers of its own.
pub fn new_may(channel: ChannelState, entries: &[Entry], event: &Event) -> bool
    ensures { result ≡ new_may channel (reverse entries.now) event.now }
{
    match event {
        Event::Received(bytes, fds) => {
            matches!(channel, ChannelState::InFlight)
                && is_as_sent(entries, bytes.as_slice(), fds.as_slice())
        }
        _ => true,
    }
}

/// Whether what was sent has these bytes, and as many descriptors as these.
fn is_as_sent(entries: &[Entry], bytes: &[u8], fds: &[u64]) -> bool
    ensures { result ≡ is_as_sent bytes.now fds.now (sent_message (reverse entries.now)) }
{
    let mut newest = false;
    let mut sent = false;
    for entry in entries {
        sent = sent_after(entry, newest, sent);
        newest = newest_after(entry, newest, bytes, fds);
    }
    sent
}

/// Whether the newest send, with this entry, carries these bytes and as many descriptors; before the
/// entry it was `newest`.
fn newest_after(entry: &Entry, newest: bool, bytes: &[u8], fds: &[u64]) -> bool
    ensures { result ≡ newest_after bytes.now fds.now entry.now newest }
{
    match entry {
        Entry::Told(Action::Send(message, numbers)) => {
            bytes == message.as_slice() && fds.len() as u64 == numbers.len()
        }
        _ => newest,
    }
}

/// The same of what was sent: where the entry says that the newest send was.
fn sent_after(entry: &Entry, newest: bool, sent: bool) -> bool
    ensures { result ≡ (if is_sent entry.now then newest else sent) }
{
    match entry {
        Entry::Got(Event::Sent) => newest,
        _ => sent,
    }
}
