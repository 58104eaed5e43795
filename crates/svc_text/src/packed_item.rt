//! An item of a script in little memory.

ghost use Rattle.std.specs.Prelude.{◌≡◌, IfOk, IfSome};
ghost use Rattle.svc_record.specs.declared.item.Item.TheVariants as items;
ghost use Rattle.svc_text.specs.PackedItems.{unpacked};

use std::alloc::Global;
use std::mem::drop;
use svc_base::NoMemory;
use svc_record::{Event, Item, ShutdownSignal, Side};
use svc_socket::{Peer, PeerAddr};

/// An item in at most 32 bytes. An event that is larger stands for itself elsewhere.
#[derive(Drop)]
pub(crate) enum PackedItem {
    /// The host fails.
    Fault,
    Moment(u64),
    Ready(u32),
    Ended(u32),
    Bound(u32, u32, u64),
    InUse(u32, u32),
    BindFailed(u32, u32),
    Adopted(u32, u32),
    AdoptFailed(u32, u32),
    NoSenderYet,
    ReceiveFailed,
    Connected,
    NotThere,
    StillConnecting,
    ConnectFailed,
    Sent,
    SendBusy,
    SendFailed,
    /// From a peer that isn't known.
    Arrived(u32, u32, u64),
    /// From a peer at a Unix socket.
    ArrivedUnix(u32, u32, u64),
    /// From a peer with these 32 bits of an address and this port.
    ArrivedV4(u32, u32, u64, u32, u16),
    AcceptFailed(u32, u32, u32),
    Set(u64, bool),
    Shaken(u64, bool),
    Finished(u64),
    LoopEnded(u32, u32, u64),
    Signal(ShutdownSignal),
    Side(Side),
    ChildReady,
    ChildGone,
    DropFailed,
    /// Any event.
    Large(Box<Event>),
}

/// The arrival of a connection, where it needs no more than 32 bytes.
fn packed_arrival(s: u32, i: u32, c: u64, peer: Peer) -> Option<PackedItem>
    ensures { IfSome result (λ p. unpacked p ≡ items.Event (Event.Arrived s i c peer)) }
{
    match peer {
        Peer::Unknown => Some(PackedItem::Arrived(s, i, c)),
        Peer::Unix => Some(PackedItem::ArrivedUnix(s, i, c)),
        Peer::Inet(PeerAddr::V4 { ip, port }) => Some(PackedItem::ArrivedV4(s, i, c, ip, port)),
        Peer::Inet(PeerAddr::V6 { .. }) => None,
    }
}

/// An event without numbers, or of a number of its own sort, where it is one.
fn packed_word(event: &Event) -> Option<PackedItem>
    ensures { IfSome result (λ p. unpacked p ≡ items.Event event.now) }
{
    match event {
        Event::NoSenderYet => Some(PackedItem::NoSenderYet),
        Event::ReceiveFailed => Some(PackedItem::ReceiveFailed),
        Event::Connected => Some(PackedItem::Connected),
        Event::NotThere => Some(PackedItem::NotThere),
        Event::StillConnecting => Some(PackedItem::StillConnecting),
        Event::ConnectFailed => Some(PackedItem::ConnectFailed),
        Event::Sent => Some(PackedItem::Sent),
        Event::SendBusy => Some(PackedItem::SendBusy),
        Event::SendFailed => Some(PackedItem::SendFailed),
        Event::Signal(kind) => Some(PackedItem::Signal(*kind)),
        Event::Side(side) => Some(PackedItem::Side(*side)),
        Event::ChildReady => Some(PackedItem::ChildReady),
        Event::ChildGone => Some(PackedItem::ChildGone),
        Event::DropFailed => Some(PackedItem::DropFailed),
        _ => None,
    }
}

/// The event, where it needs no more than 32 bytes.
fn packed(event: &Event) -> Option<PackedItem>
    ensures { IfSome result (λ p. unpacked p ≡ items.Event event.now) }
{
    match event {
        Event::Moment(n) => Some(PackedItem::Moment(*n)),
        Event::Ready(s) => Some(PackedItem::Ready(*s)),
        Event::Ended(s) => Some(PackedItem::Ended(*s)),
        Event::Bound(s, i, n) => Some(PackedItem::Bound(*s, *i, *n)),
        Event::InUse(s, i) => Some(PackedItem::InUse(*s, *i)),
        Event::BindFailed(s, i) => Some(PackedItem::BindFailed(*s, *i)),
        Event::Adopted(s, i) => Some(PackedItem::Adopted(*s, *i)),
        Event::AdoptFailed(s, i) => Some(PackedItem::AdoptFailed(*s, *i)),
        Event::Arrived(s, i, c, peer) => packed_arrival(*s, *i, *c, *peer),
        Event::AcceptFailed(s, i, n) => Some(PackedItem::AcceptFailed(*s, *i, *n)),
        Event::Set(c, ok) => Some(PackedItem::Set(*c, *ok)),
        Event::Shaken(c, ok) => Some(PackedItem::Shaken(*c, *ok)),
        Event::Finished(c) => Some(PackedItem::Finished(*c)),
        Event::LoopEnded(s, i, n) => Some(PackedItem::LoopEnded(*s, *i, *n)),
        _ => packed_word(event),
    }
}

/// Any event.
fn boxed(alloc: Global, event: Event) -> Result<PackedItem, NoMemory>
    ensures { IfOk result (λ p. unpacked p ≡ items.Event event) }
{
    match Box::new(alloc, event) {
        Ok(event) => Ok(PackedItem::Large(event)),
        Err(refused) => {
            drop(refused);
            Err(NoMemory)
        }
    }
}

impl PackedItem {
    /// The item, packed.
    pub fn of(alloc: Global, item: Item) -> Result<Self, NoMemory>
        ensures { IfOk result (λ p. unpacked p ≡ item) }
    {
        let Item::Event(event) = item else {
            return Ok(PackedItem::Fault);
        };
        match packed(&event) {
            Some(packed) => {
                drop(event);
                Ok(packed)
            }
            None => boxed(alloc, event),
        }
    }

    /// The item.
    pub fn into_item(self) -> Item
        ensures { result ≡ unpacked self }
    {
        let event = match self {
            PackedItem::Fault => return Item::Fault,
            PackedItem::Moment(n) => Event::Moment(n),
            PackedItem::Ready(s) => Event::Ready(s),
            PackedItem::Ended(s) => Event::Ended(s),
            PackedItem::Bound(s, i, n) => Event::Bound(s, i, n),
            PackedItem::InUse(s, i) => Event::InUse(s, i),
            PackedItem::BindFailed(s, i) => Event::BindFailed(s, i),
            PackedItem::Adopted(s, i) => Event::Adopted(s, i),
            PackedItem::AdoptFailed(s, i) => Event::AdoptFailed(s, i),
            PackedItem::NoSenderYet => Event::NoSenderYet,
            PackedItem::ReceiveFailed => Event::ReceiveFailed,
            PackedItem::Connected => Event::Connected,
            PackedItem::NotThere => Event::NotThere,
            PackedItem::StillConnecting => Event::StillConnecting,
            PackedItem::ConnectFailed => Event::ConnectFailed,
            PackedItem::Sent => Event::Sent,
            PackedItem::SendBusy => Event::SendBusy,
            PackedItem::SendFailed => Event::SendFailed,
            PackedItem::Arrived(s, i, c) => Event::Arrived(s, i, c, Peer::Unknown),
            PackedItem::ArrivedUnix(s, i, c) => Event::Arrived(s, i, c, Peer::Unix),
            PackedItem::ArrivedV4(s, i, c, ip, port) => {
                Event::Arrived(s, i, c, Peer::Inet(PeerAddr::V4 { ip, port }))
            }
            PackedItem::AcceptFailed(s, i, n) => Event::AcceptFailed(s, i, n),
            PackedItem::Set(c, ok) => Event::Set(c, ok),
            PackedItem::Shaken(c, ok) => Event::Shaken(c, ok),
            PackedItem::Finished(c) => Event::Finished(c),
            PackedItem::LoopEnded(s, i, n) => Event::LoopEnded(s, i, n),
            PackedItem::Signal(kind) => Event::Signal(kind),
            PackedItem::Side(side) => Event::Side(side),
            PackedItem::ChildReady => Event::ChildReady,
            PackedItem::ChildGone => Event::ChildGone,
            PackedItem::DropFailed => Event::DropFailed,
            PackedItem::Large(event) => Box::into_inner(event),
        };
        Item::Event(event)
    }
}
