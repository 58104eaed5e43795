//! The handover's part of a server's sockets: what it offers, and what it receives.

ghost use Rattle.std.specs.Prelude.{◌≡◌, ◌+◌, ◌<◌, ◌≤◌, [], ◌∷◌, ◌++◌, length, Some, None, IsTrue, IfOk, OnOk, OnErr, vec_len};
ghost use Rattle.std.specs.Option.{option_map};
ghost use Rattle.std.specs.Vec.Iter.{into_iter_len};
ghost use Rattle.svc_sockets.specs.Offered.{IsConnected, IsFilled, IsSent, IsReceived};
ghost use Rattle.svc_sockets.specs.OpenSockets.{open_numbers};

use crate::descriptors::Descriptors;
use crate::slot::{Letter, Slot};
use std::alloc::Global;
use std::net::TcpListener;
use std::vec::IntoIter;
use svc_base::{Bytes, NoMemory, copy_items};
use svc_fds::{FdList, MESSAGE_LIMIT};
use svc_record::Event;

/// The most listeners that a letter hands over.
pub(crate) const MOST_HANDED: usize = 32;

/// What an old server is to be told of its offer.
#[derive(Clone, Copy)]
pub(crate) enum OfferAnswer {
    Connected,
    NotThere,
    Sent,
    SendFailed,
}

/// What a new server is to be told of its try to receive.
#[derive(Drop)]
pub(crate) enum Receipt {
    Nothing,
    NoSenderYet,
    Came(Letter<TcpListener>),
}

/// What is to be told of both, and an empty letter with room.
#[derive(Drop)]
pub(crate) struct Offers {
    alloc: Global,
    offered: Option<OfferAnswer>,
    receipt: Receipt,
    empty: Letter<TcpListener>,
}

/// Puts a handle of each listener into the letter. It takes no memory where the letter has room.
fn hand_over(letter: &mut Letter<TcpListener>, descriptors: &Descriptors, fds: &[u64]) -> bool
    ensures bytes { letter.new.bytes ≡ letter.old.bytes }
    ensures handed { IsTrue result → length letter.new.handed.items ≡ length letter.old.handed.items + length fds.now }
{
    for fd in fds {
        let Some(listener) = descriptors.get(*fd) else {
            return false;
        };
        let Ok(other) = listener.try_clone() else {
            return false;
        };
        if letter.handed.push(other).is_err() {
            return false;
        }
    }
    true
}

/// Puts the message and a handle of each listener into the letter.
fn fill(
    letter: &mut Letter<TcpListener>,
    descriptors: &Descriptors,
    bytes: &[u8],
    fds: &[u64],
) -> bool
    ensures { IsTrue result → IsFilled letter.old letter.new bytes.now fds.now }
{
    if letter.bytes.extend_from_slice(bytes).is_err() {
        return false;
    }
    hand_over(letter, descriptors, fds)
}

/// Sends the letter with this message and a handle of each listener. What it comes to.
fn sent(
    slot: &mut Slot<TcpListener>,
    mut letter: Letter<TcpListener>,
    descriptors: &Descriptors,
    bytes: &[u8],
    fds: &[u64],
) -> OfferAnswer
    ensures { IsSent letter bytes.now fds.now slot.old slot.new (Some result) }
{
    if !fill(&mut letter, descriptors, bytes, fds) {
        return OfferAnswer::SendFailed;
    }
    match slot.send(letter) {
        Ok(()) => OfferAnswer::Sent,
        Err(_) => OfferAnswer::SendFailed,
    }
}

/// The numbers that the handed listeners get.
fn new_numbers(
    alloc: Global,
    descriptors: &mut Descriptors,
    handed: &[TcpListener],
) -> Result<FdList, NoMemory>
    ensures count { IfOk result (λ fds. length fds ≡ length handed.now) }
    ensures rows { descriptors.new.rows ≡ descriptors.old.rows }
    ensures room { descriptors.new.room ≡ descriptors.old.room }
{
    let mut fds = FdList::new(alloc);
    fds.reserve(alloc, handed.len() as u64)?;
    for _ in handed {
        let number = descriptors.number();
        if let Err(refused) = fds.push(alloc, number) {
            return Err(refused.reason);
        }
    }
    Ok(fds)
}

/// Opens the next listener under this number.
fn open_next(descriptors: &mut Descriptors, fd: u64, listeners: &mut IntoIter<TcpListener>)
    requires some { 0 < into_iter_len listeners.old }
    requires room { 0 < descriptors.old.room }
    ensures numbers { open_numbers descriptors.new ≡ open_numbers descriptors.old ++ fd ∷ [] }
    ensures next { descriptors.new.next ≡ descriptors.old.next }
    ensures left { into_iter_len listeners.new + 1 ≡ into_iter_len listeners.old }
    ensures room { descriptors.old.room ≤ descriptors.new.room + 1 }
{
    if let Some(listener) = listeners.next() {
        let _ = descriptors.add(fd, listener);
    }
}

/// Opens the handed listeners under their numbers.
fn open_all(descriptors: &mut Descriptors, fds: &[u64], handed: Vec<TcpListener>)
    requires count { length fds.now ≡ vec_len handed }
    requires room { length fds.now ≤ descriptors.old.room }
    ensures numbers { open_numbers descriptors.new ≡ open_numbers descriptors.old ++ fds.now }
    ensures next { descriptors.new.next ≡ descriptors.old.next }
{
    let mut listeners = handed.into_iter();
    for fd in fds {
        open_next(descriptors, *fd, &mut listeners);
    }
}

/// What a try to receive comes to.
fn received(slot: &mut Slot<TcpListener>) -> Receipt
    ensures { IsReceived slot.old slot.new result }
{
    match slot.receive() {
        Some(letter) => Receipt::Came(letter),
        None => Receipt::NoSenderYet,
    }
}

impl Offers {
    ghost use Rattle.svc_sockets.specs.SocketsData.{SocketsData, Tells, TellsNext};
    ghost use Rattle.svc_sockets.specs.Slots.{connected};
    ghost use Rattle.svc_sockets.specs.Told.{offer_event};

    /// Nothing is to be told, and the empty letter has no room yet.
    pub fn new(alloc: Global) -> Self
        ensures offered { result.offered ≡ None }
        ensures receipt { result.receipt ≡ Receipt.Nothing }
        ensures bytes { result.empty.bytes.items ≡ [] }
        ensures handed { result.empty.handed.items ≡ [] }
    {
        Offers {
            alloc,
            offered: None,
            receipt: Receipt::Nothing,
            empty: Letter {
                bytes: Vec::new(alloc),
                handed: Vec::new(alloc),
            },
        }
    }

    /// Makes room for a letter.
    pub fn reserve(&mut self) -> Result<(), NoMemory>
        ensures offered { self.new.offered ≡ self.old.offered }
        ensures receipt { self.new.receipt ≡ self.old.receipt }
        ensures bytes { self.new.empty.bytes.items ≡ self.old.empty.bytes.items }
        ensures handed { self.new.empty.handed.items ≡ self.old.empty.handed.items }
    {
        self.empty.bytes.reserve(MESSAGE_LIMIT)?;
        self.empty.handed.reserve(MOST_HANDED)?;
        Ok(())
    }

    /// Connects to the successor.
    pub fn connect(&mut self, slot: &mut Slot<TcpListener>)
        ensures slot { slot.new ≡ connected slot.old }
        ensures offered { IsConnected slot.old self.new.offered }
        ensures receipt { self.new.receipt ≡ self.old.receipt }
    {
        self.offered = Some(if slot.connect() {
            OfferAnswer::Connected
        } else {
            OfferAnswer::NotThere
        });
    }

    /// Sends the successor the message with a handle of each listener. The room of the letter goes with
    /// it, since at most one is sent.
    pub fn send(
        &mut self,
        slot: &mut Slot<TcpListener>,
        descriptors: &Descriptors,
        bytes: &[u8],
        fds: &[u64],
    )
        ensures sent { IsSent self.old.empty bytes.now fds.now slot.old slot.new self.new.offered }
        ensures receipt { self.new.receipt ≡ self.old.receipt }
    {
        let empty = Letter {
            bytes: Vec::new(self.alloc),
            handed: Vec::new(self.alloc),
        };
        let letter = std::mem::replace(&mut self.empty, empty);
        self.offered = Some(sent(slot, letter, descriptors, bytes, fds));
    }

    /// Tries once to receive.
    pub fn receive(&mut self, slot: &mut Slot<TcpListener>)
        ensures receipt { IsReceived slot.old slot.new self.new.receipt }
        ensures offered { self.new.offered ≡ self.old.offered }
    {
        self.receipt = received(slot);
    }

    /// The next answer to an offer.
    fn next_offered(&mut self) -> Option<Event>
        ensures event { result ≡ option_map offer_event self.old.offered }
        ensures offered { self.new.offered ≡ None }
        ensures told { (rest : SocketsData) → TellsNext result rest rest }
        ensures receipt { self.new.receipt ≡ self.old.receipt }
    {
        match self.offered.take()? {
            OfferAnswer::Connected => Some(Event::Connected),
            OfferAnswer::NotThere => Some(Event::NotThere),
            OfferAnswer::Sent => Some(Event::Sent),
            OfferAnswer::SendFailed => Some(Event::SendFailed),
        }
    }

    /// The event of a letter. Where there is no memory the letter stays.
    fn unfold(
        &mut self,
        descriptors: &mut Descriptors,
        letter: Letter<TcpListener>,
    ) -> Result<Event, NoMemory>
        ensures told { IfOk result (λ event. (rest : SocketsData) → Tells event
            (record rest { listeners = open_numbers descriptors.old; next_listener = descriptors.old.next })
            (record rest { listeners = open_numbers descriptors.new; next_listener = descriptors.new.next })) }
        ensures numbers { OnErr result (open_numbers descriptors.new ≡ open_numbers descriptors.old) }
        ensures receipt { OnErr result (self.new.receipt ≡ Receipt.Came letter) }
    {
        match self.read(descriptors, &letter) {
            Ok((bytes, fds)) => {
                open_all(descriptors, fds.as_slice(), letter.handed);
                Ok(Event::Received(bytes, fds))
            }
            Err(NoMemory) => {
                self.receipt = Receipt::Came(letter);
                Err(NoMemory)
            }
        }
    }

    /// The bytes of a letter, and numbers for what it hands over.
    fn read(
        &self,
        descriptors: &mut Descriptors,
        letter: &Letter<TcpListener>,
    ) -> Result<(Bytes, FdList), NoMemory>
        ensures bytes { IfOk result (λ read. read.0 ≡ letter.now.bytes.items) }
        ensures count { IfOk result (λ read. length read.1 ≡ length letter.now.handed.items) }
        ensures rows { descriptors.new.rows ≡ descriptors.old.rows }
        ensures room { OnOk result (length letter.now.handed.items ≤ descriptors.new.room) }
    {
        descriptors.reserve(letter.handed.len())?;
        let bytes = copy_items(self.alloc, letter.bytes.as_slice())?;
        let fds = new_numbers(self.alloc, descriptors, letter.handed.as_slice())?;
        Ok((bytes, fds))
    }

    /// The next answer to an offer, or what was received.
    pub fn next(&mut self, descriptors: &mut Descriptors) -> Result<Option<Event>, NoMemory>
        ensures told { IfOk result (λ event. (rest : SocketsData) → TellsNext event
            (record rest { listeners = open_numbers descriptors.old; next_listener = descriptors.old.next })
            (record rest { listeners = open_numbers descriptors.new; next_listener = descriptors.new.next })) }
        ensures numbers { OnErr result (open_numbers descriptors.new ≡ open_numbers descriptors.old) }
        ensures receipt { OnErr result (self.new.receipt ≡ self.old.receipt) }
    {
        if let Some(event) = self.next_offered() {
            return Ok(Some(event));
        }
        match std::mem::replace(&mut self.receipt, Receipt::Nothing) {
            Receipt::Nothing => Ok(None),
            Receipt::NoSenderYet => Ok(Some(Event::NoSenderYet)),
            Receipt::Came(letter) => Ok(Some(self.unfold(descriptors, letter)?)),
        }
    }
}
