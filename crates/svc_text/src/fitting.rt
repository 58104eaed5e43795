//! The numbers of an entry are those of its types.

ghost use Rattle.std.specs.Prelude.{◌<◌, ◌^◌, All};
ghost use Rattle.svc_socket.specs.Peers.{PeerFits};
ghost use Rattle.svc_record.specs.Text.{SettingFits, EventFits, ActionFits, EntryFits};

use svc_base::Setting;
use svc_record::{Action, Entry, Event};
use svc_socket::Peer;

fn read_bytes(bytes: &[u8])
    ensures { All (λ b. b < 2 ^ 8) bytes.now }
{}

fn read_numbers(numbers: &[u64])
    ensures { All (λ n. n < 2 ^ 64) numbers.now }
{}

fn read_peer(value: Peer)
    ensures { PeerFits value }
{}

fn read_setting(value: Setting)
    ensures { SettingFits value }
{}

fn read_settings(settings: &[Setting])
    ensures { All SettingFits settings.now }
{
    for setting in settings {
        read_setting(*setting);
    }
}

fn read_small(n: u32)
    ensures { n < 2 ^ 32 }
{}

fn read_large(n: u64)
    ensures { n < 2 ^ 64 }
{}

/// Two numbers of a service and of its endpoint.
fn read_place(s: u32, i: u32)
    ensures { (s < 2 ^ 32) × (i < 2 ^ 32) }
{}

/// A place, and a number of 64 bits.
fn read_at(s: u32, i: u32, n: u64)
    ensures { (s < 2 ^ 32) × (i < 2 ^ 32) × (n < 2 ^ 64) }
{}

/// The numbers of an event are those of its types.
fn read_event(event: &Event)
    ensures { EventFits event.now }
{
    match event {
        Event::Ready(s) | Event::Ended(s) => read_small(*s),
        Event::Moment(n) | Event::Finished(n) => read_large(*n),
        Event::Set(n, _) | Event::Shaken(n, _) => read_large(*n),
        Event::InUse(s, i) | Event::BindFailed(s, i) => read_place(*s, *i),
        Event::Adopted(s, i) | Event::AdoptFailed(s, i) => read_place(*s, *i),
        Event::Bound(s, i, n) | Event::LoopEnded(s, i, n) => read_at(*s, *i, *n),
        Event::AcceptFailed(s, i, n) => {
            read_place(*s, *i);
            read_small(*n);
        }
        Event::Arrived(s, i, c, peer) => {
            read_at(*s, *i, *c);
            read_peer(*peer);
        }
        Event::Received(bytes, fds) => {
            read_bytes(bytes.as_slice());
            read_numbers(fds.as_slice());
        }
        Event::NoSenderYet | Event::ReceiveFailed | Event::Connected => {}
        Event::NotThere | Event::StillConnecting | Event::ConnectFailed => {}
        Event::Sent | Event::SendBusy | Event::SendFailed => {}
        Event::Signal(_) | Event::Side(_) => {}
        Event::ChildReady | Event::ChildGone | Event::DropFailed => {}
    }
}

/// The numbers of an action are those of its types.
fn read_action(action: &Action)
    ensures { ActionFits action.now }
{
    match action {
        Action::Start(s) | Action::Fail(s) => read_small(*s),
        Action::Bind(s, i) | Action::Rest(s, i) => read_place(*s, *i),
        Action::Adopt(s, i, fd) => read_at(*s, *i, *fd),
        Action::Close(n) | Action::Phase(_, n) | Action::Stop(n) => read_large(*n),
        Action::Judged(c, _) | Action::Refuse(c) | Action::Handshake(c) => read_large(*c),
        Action::Serve(c) | Action::Drop(c) | Action::Cut(c) => read_large(*c),
        Action::Send(bytes, fds) => {
            read_bytes(bytes.as_slice());
            read_numbers(fds.as_slice());
        }
        Action::Settings(c, list) => {
            read_large(*c);
            read_settings(list.as_slice());
        }
        Action::OpenReceiver | Action::TryReceive | Action::NotifyParent => {}
        Action::Connect | Action::Broadcast | Action::Daemonize => {}
    }
}

/// The numbers of an entry are those of its types.
pub fn read_entry(entry: &Entry)
    ensures { EntryFits entry.now }
{
    match entry {
        Entry::Got(event) => read_event(event),
        Entry::Told(action) => read_action(action),
    }
}
