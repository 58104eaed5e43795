//! Listening sockets by address.

ghost use Rattle.std.specs.Prelude.{◌≡◌, ◌+◌, ◌-◌, ◌*◌, ◌^◌, ◌<◌, ◌≤◌, ◌==◌, [], ◌∷◌, ◌++◌, ℕ, List, Some, None, OnOk, OnErr, IfOk, IfErr, IfSome, length, insert, unwrap_or, is_some, not, IsErrOf, vec_len, vec_capacity, if◌then◌else◌};
ghost use Rattle.std.specs.Option.{option_copied, option_to_list};
ghost use Rattle.std.specs.Str.{bytes_eq};
ghost use Rattle.std.specs.List.{filter_map, zip};
ghost use Rattle.svc_fds.specs.Tables.{addresses, numbers, lookup, put, put_all, replaced_by, without, is_kept, kept, unclaimed, IsAscending, PrecedesAll};

use crate::call::ChannelCall;
use crate::channel::Channel;
use crate::encoding::{Message, encoded, numbers_of, texts_of};
use crate::errors::{DecodeError, EncodeError, ListsError, ReceiveError, SendError};
use crate::fd::Fd;
use crate::place::{Place, counted_place, place_of, replace_at};
use crate::transfer::{MAX_RETRY, close_all};
pub use crate::transfer::{get_fds_from, send_fds_to};
use crate::words::{decode, has_repeat};
use std::alloc::Global;
use std::collections::BTreeSet;
use std::marker::Model;
use std::sync::ledger::Ledger;
use svc_base::{Items, NoMemory, Text};
use svc_history::Steps;

/// Numbers of descriptors.
pub type FdList = Items<u64>;

/// A descriptor for which no memory was found: both values come back.
#[derive(Debug)]
pub struct AddFdRefused {
    pub reason: NoMemory,
    pub bind: Text,
    pub fd: Fd,
}

/// Texts and descriptors that aren't taken as pairs: both lists come back.
#[derive(Debug)]
pub struct ListsRefused {
    pub reason: ListsError,
    pub binds: Vec<Text>,
    pub fds: Vec<Fd>,
}

/// A message that isn't a table: the descriptors come back.
#[derive(Debug)]
pub struct DecodeRefused {
    pub reason: DecodeError,
    pub fds: Vec<Fd>,
}

/// Descriptors of listening sockets, by the address that each is bound to. Contracts see the pairs of
/// address and number in ascending order of the addresses, by bytes, and for how many more there is
/// memory. A table that holds descriptors can't be dropped: `finish` spends an empty one.
#[derive(Debug)]
pub struct Fds {
    entries: Vec<(Text, Fd)>,
}

impl Model for Fds {
    ghost use Rattle.std.specs.Prelude.{◌-◌, vec_len, vec_capacity};
    ghost use Rattle.svc_fds.specs.FdTable.{FdTable};
    ghost use Rattle.svc_fds.specs.Tables.{IsAscending};

    ghost Value = { FdTable };

    ghost view = { λ t. record {
      entries = t.entries.items;
      spare = vec_capacity t.entries - vec_len t.entries;
    } };

    ghost invariant = { λ t. IsAscending t.entries.items };
}

/// Puts an entry in between, after which the later ones move up. It is refused only where no room is
/// left.
fn insert_at(
    entries: &mut Vec<(Text, Fd)>,
    at: usize,
    bind: Text,
    fd: Fd,
) -> Result<(), AddFdRefused>
    requires { at ≤ vec_len entries.old }
    ensures inserted { OnOk result (entries.new.items ≡ insert entries.old.items at (bind, fd)) }
    ensures room { vec_capacity entries.old - vec_len entries.old
        ≤ vec_capacity entries.new - vec_len entries.new + 1 }
    ensures unchanged { OnErr result (entries.new.items ≡ entries.old.items) }
    ensures room_unchanged { OnErr result (vec_capacity entries.new - vec_len entries.new
        ≡ vec_capacity entries.old - vec_len entries.old) }
    ensures back { IfErr result (λ refused. (refused.bind ≡ bind) × (refused.fd ≡ fd)) }
    ensures full { OnErr result (vec_capacity entries.old - vec_len entries.old ≡ 0) }
{
    if entries.reserve(1).is_err() {
        return Err(AddFdRefused {
            reason: NoMemory,
            bind,
            fd,
        });
    }
    match entries.insert(at, (bind, fd)) {
        Ok(()) => Ok(()),
        Err(failed) => {
            let (bind, fd) = failed.value;
            Err(AddFdRefused {
                reason: NoMemory,
                bind,
                fd,
            })
        }
    }
}

/// Whether an address is among those to keep.
fn is_kept(keep: &BTreeSet<Text>, bind: &Text) -> bool
    ensures { result ≡ is_kept keep.now.keys bind.now }
{
    keep.contains(bind)
}

/// Takes the entries out whose addresses aren't kept. There is room for them.
fn take_unclaimed(entries: &mut Vec<(Text, Fd)>, keep: &BTreeSet<Text>, out: &mut Vec<(Text, Fd)>)
    requires empty { out.old.items ≡ [] }
    requires room { vec_len entries.old ≤ vec_capacity out.old }
    ensures left { entries.new.items ≡ kept keep.now.keys entries.old.items }
    ensures out { out.new.items ≡ unclaimed keep.now.keys entries.old.items }
    ensures spare { vec_capacity entries.old - vec_len entries.old
        ≤ vec_capacity entries.new - vec_len entries.new }
{
    let mut at = 0;
    while at < entries.len() {
        if is_kept(keep, &entries[at].0) {
            at += 1;
        } else {
            out.push_reserved(entries.remove(at));
        }
    }
}

impl Fds {
    ghost use Rattle.svc_fds.specs.Lists.{ArePairs, ListsRefusalFits};
    ghost use Rattle.svc_base.specs.Streams.{Rose};
    ghost use Rattle.svc_base.specs.Calls.{Adds, Stays};
    ghost use Rattle.svc_fds.specs.Transfers.{SendsTable, Loads, LoadsNot, copies, fresh, closes};
    ghost use Rattle.svc_fds.specs.Messages.{is_joinable, is_framed, message_bytes, IsEncodable, written, EncodeRefusalFits, IsMessage, table_of, DecodeRefusalFits};

    /// A table without entries.
    pub fn new(alloc: Global) -> Self
        ensures empty { result.entries ≡ [] }
        ensures ascending { IsAscending result.entries }
    {
        Fds {
            entries: Vec::new(alloc),
        }
    }

    /// Whether no descriptor is kept.
    pub fn is_empty(&self) -> bool
        ensures { result ≡ (length self.now.entries == 0) }
    {
        self.entries.is_empty()
    }

    /// The descriptor of an address.
    pub fn get(&self, bind: &str) -> Option<&Fd>
        ensures found { option_copied result ≡ lookup bind.now self.now.entries }
        ensures ascending { IsAscending self.now.entries }
    {
        match place_of(&self.entries, bind) {
            Place::Held(at) => Some(&self.entries[at].1),
            Place::Free(_) => None,
        }
    }

    /// The same, and how many steps that takes: one for each comparison of two addresses. Over 31
    /// entries there are at most 5, over none there are none.
    pub fn get_counted<L: Ledger>(&self, bind: &str, steps: &mut Steps<L>) -> Option<&Fd>
        ensures found { option_copied result ≡ lookup bind.now self.now.entries }
        ensures ascending { IsAscending self.now.entries }
        ensures counted { steps.old ≤ steps.new }
        ensures cost { 2 ^ (steps.new - steps.old) ≤ 2 * length self.now.entries + 1 }
    {
        match counted_place(&self.entries, bind.as_bytes(), steps) {
            Place::Held(at) => Some(&self.entries[at].1),
            Place::Free(_) => None,
        }
    }

    /// Makes room for `n` more: after it `n` calls of `add` find memory.
    pub fn reserve(&mut self, _alloc: Global, n: u64) -> Result<(), NoMemory>
        ensures entries { self.new.entries ≡ self.old.entries }
        ensures room { OnOk result (n ≤ self.new.spare) }
        ensures kept { self.old.spare ≤ self.new.spare }
        ensures unchanged { OnErr result (self.new ≡ self.old) }
    {
        self.entries.reserve(n as usize)?;
        Ok(())
    }

    /// Sets the descriptor of an address. The one that it replaces comes back. It is refused only where
    /// no room is left.
    pub fn add(&mut self, _alloc: Global, bind: Text, fd: Fd) -> Result<Option<Fd>, AddFdRefused>
        ensures added { OnOk result (self.new.entries ≡ put bind fd self.old.entries) }
        ensures replaced { IfOk result (λ replaced. replaced ≡ lookup bind self.old.entries) }
        ensures only { OnOk result ((other : List ℕ) → lookup other self.new.entries
            ≡ (if bytes_eq bind other then Some fd else lookup other self.old.entries)) }
        ensures room { self.old.spare ≤ self.new.spare + 1 }
        ensures unchanged { OnErr result (self.new ≡ self.old) }
        ensures back { IfErr result (λ refused. (refused.bind ≡ bind) × (refused.fd ≡ fd)) }
        ensures full { OnErr result (self.old.spare ≡ 0) }
        ensures ascending { IsAscending self.new.entries }
    {
        match place_of(&self.entries, bind.as_str()) {
            Place::Held(at) => Ok(Some(replace_at(&mut self.entries, at, fd))),
            Place::Free(at) => {
                insert_at(&mut self.entries, at, bind, fd)?;
                Ok(None)
            }
        }
    }

    /// Takes the descriptor of an address out of the table.
    pub fn remove(&mut self, bind: &str) -> Option<Fd>
        ensures removed { result ≡ lookup bind.now self.old.entries }
        ensures left { self.new.entries ≡ without bind.now self.old.entries }
        ensures only { (other : List ℕ) → lookup other self.new.entries
            ≡ (if bytes_eq bind.now other then None else lookup other self.old.entries) }
        ensures room { self.old.spare ≤ self.new.spare }
        ensures ascending { IsAscending self.new.entries }
    {
        match place_of(&self.entries, bind) {
            Place::Held(at) => {
                let (_, fd) = self.entries.remove(at);
                Some(fd)
            }
            Place::Free(_) => None,
        }
    }

    /// Takes the entry of the least address out of the table.
    pub fn pop_first(&mut self) -> Option<(Text, Fd)>
        ensures entries { self.old.entries ≡ option_to_list result ++ self.new.entries }
        ensures none { result ≡ None → self.old.entries ≡ [] }
        ensures least { IfSome result (λ first. PrecedesAll first.0 self.new.entries) }
        ensures room { self.old.spare ≤ self.new.spare }
        ensures ascending { IsAscending self.new.entries }
    {
        if self.entries.is_empty() {
            return None;
        }
        Some(self.entries.remove(0))
    }

    /// The addresses and the numbers, in ascending order of the addresses.
    pub fn serialize(&self, alloc: Global) -> Result<(Vec<Text>, FdList), NoMemory>
        ensures addresses { IfOk result (λ lists. lists.0.items ≡ addresses self.now.entries) }
        ensures numbers { IfOk result (λ lists. lists.1 ≡ numbers self.now.entries) }
    {
        let texts = texts_of(alloc, &self.entries)?;
        let fds = numbers_of(alloc, &self.entries)?;
        Ok((texts, fds))
    }

    /// Adds the k-th text with the k-th descriptor, for each k. The descriptors that they replace come
    /// back, in the order of the texts.
    pub fn deserialize(
        &mut self,
        alloc: Global,
        binds: Vec<Text>,
        fds: Vec<Fd>,
    ) -> Result<Vec<Fd>, ListsRefused>
        ensures paired { OnOk result (ArePairs binds.items (vec_len fds)) }
        ensures added { OnOk result (self.new.entries
            ≡ put_all (zip binds.items fds.items) self.old.entries) }
        ensures replaced { IfOk result
            (λ replaced. replaced.items
            ≡ filter_map (λ bind. lookup bind self.old.entries) binds.items) }
        ensures refusal { IfErr result
            (λ refused. ListsRefusalFits binds.items (vec_len fds) refused.reason) }
        ensures back { IfErr result
            (λ refused. (refused.binds.items ≡ binds.items) × (refused.fds.items ≡ fds.items)) }
        ensures unchanged { OnErr result (self.new ≡ self.old) }
        ensures ascending { OnOk result (IsAscending self.new.entries) }
    {
        if binds.len() != fds.len() {
            return Err(ListsRefused {
                reason: ListsError::Unequal,
                binds,
                fds,
            });
        }
        if has_repeat(&binds) {
            return Err(ListsRefused {
                reason: ListsError::Repeated,
                binds,
                fds,
            });
        }
        let mut replaced = Vec::new(alloc);
        if replaced.reserve(fds.len()).is_err() || self.entries.reserve(fds.len()).is_err() {
            replaced.destroy_empty();
            return Err(ListsRefused {
                reason: ListsError::NoMemory,
                binds,
                fds,
            });
        }
        Ok(self.put_pairs(alloc, binds, fds, replaced))
    }

    /// Adds pairs for which there is room. What they replace is put after what was replaced before.
    fn put_pairs(
        &mut self,
        alloc: Global,
        mut binds: Vec<Text>,
        mut fds: Vec<Fd>,
        mut replaced: Vec<Fd>,
    ) -> Vec<Fd>
        requires same { vec_len binds ≡ vec_len fds }
        requires room { vec_len fds ≤ self.old.spare }
        requires replaced_room { vec_len fds + vec_len replaced ≤ vec_capacity replaced }
        ensures added { self.new.entries ≡ put_all (zip binds.items fds.items) self.old.entries }
        ensures replaced { result.items
            ≡ replaced.items ++ replaced_by (zip binds.items fds.items) self.old.entries }
    {
        while !fds.is_empty() {
            let bind = binds.remove(0);
            let fd = fds.remove(0);
            match self.add(alloc, bind, fd) {
                Ok(None) => {}
                Ok(Some(held)) => replaced.push_reserved(held),
                Err(_) => unreachable!(),
            }
        }
        fds.destroy_empty();
        replaced
    }

    /// Takes the entries out whose addresses aren't in `keep`. They come back in ascending order of the
    /// addresses, to be closed.
    pub fn close_unclaimed(
        &mut self,
        alloc: Global,
        keep: &BTreeSet<Text>,
    ) -> Result<Vec<(Text, Fd)>, NoMemory>
        ensures left { OnOk result (self.new.entries ≡ kept keep.now.keys self.old.entries) }
        ensures out { IfOk result (λ out. out.items ≡ unclaimed keep.now.keys self.old.entries) }
        ensures room { self.old.spare ≤ self.new.spare }
        ensures unchanged { OnErr result (self.new ≡ self.old) }
        ensures ascending { IsAscending self.new.entries }
    {
        let mut out = Vec::new(alloc);
        if out.reserve(self.entries.len()).is_err() {
            out.destroy_empty();
            return Err(NoMemory);
        }
        take_unclaimed(&mut self.entries, keep, &mut out);
        Ok(out)
    }

    /// The message that carries the table to a successor: the addresses, and the numbers in the same
    /// order. The addresses are joined by single spaces where none has blanks and they have at most
    /// 2,048 bytes (version 1); else each stands after its length (version 2).
    pub fn encode(&self, alloc: Global) -> Result<Message, EncodeError>
        ensures ok { IfOk result (λ message. IsEncodable self.now.entries
            × (message ≡ written self.now.entries)) }
        ensures version { IfOk result (λ message. is_framed message.bytes
            ≡ not (is_joinable self.now.entries)) }
        ensures again { IfOk result (λ message. IsMessage message.bytes (length message.fds)
            × (table_of message.bytes message.fds ≡ self.now.entries)) }
        ensures refusal { IfErr result (λ error. EncodeRefusalFits self.now.entries error) }
    {
        encoded(alloc, &self.entries)
    }

    /// The table that a message brings: its k-th word with the k-th descriptor.
    pub fn decode(alloc: Global, bytes: &[u8], fds: Vec<Fd>) -> Result<Fds, DecodeRefused>
        ensures ok { OnOk result (IsMessage bytes.now (vec_len fds)) }
        ensures table { IfOk result (λ table. table.entries ≡ table_of bytes.now fds.items) }
        ensures refusal { IfErr result
            (λ refused. DecodeRefusalFits bytes.now (vec_len fds) refused.reason) }
        ensures back { IfErr result (λ refused. refused.fds.items ≡ fds.items) }
        ensures ascending { IfOk result (λ table. IsAscending table.entries) }
    {
        let binds = match decode(alloc, bytes, fds.len()) {
            Ok(binds) => binds,
            Err(reason) => return Err(DecodeRefused { reason, fds }),
        };
        let mut table = Fds::new(alloc);
        match table.deserialize(alloc, binds, fds) {
            Ok(replaced) => {
                replaced.destroy_empty();
                Ok(table)
            }
            Err(refused) => {
                let ListsRefused {
                    reason,
                    binds: _,
                    fds,
                } = refused;
                table.finish();
                Err(DecodeRefused {
                    reason: DecodeError::from(reason),
                    fds,
                })
            }
        }
    }

    /// Sends the table's message through a channel, and answers how many bytes were sent. Without
    /// `max_retry` five missing receivers are borne. A table that has no message is refused before any
    /// call of the channel.
    pub fn send_to_sock<C: Channel>(
        &self,
        alloc: Global,
        channel: &mut C,
        max_retry: Option<u64>,
    ) -> Result<u64, SendError>
        ensures asked { SendsTable C.calls (unwrap_or max_retry MAX_RETRY) self.now.entries
            channel.old channel.new result }
        ensures stays { Stays (C.calls channel.old) (C.calls channel.new) (C.room channel.old) (C.room channel.new) }
        ensures sent { IfOk result (λ n. n ≡ length (message_bytes self.now.entries)) }
        ensures fault { IsErrOf result SendError.Transfer
            → Rose (C.faulted channel.old) (C.faulted channel.new) }
    {
        match self.encode(alloc) {
            Ok(message) => send_fds_to(
                message.fds.as_slice(),
                message.bytes.as_slice(),
                channel,
                max_retry,
            ),
            Err(error) => Err(SendError::from(error)),
        }
    }

    /// Receives a message through a channel and adds what it brings. What came for an address that the
    /// table holds is closed, and so is all that came where the message is refused; the table's entries
    /// are then as before. Without `max_retry` five missing senders are borne.
    pub fn get_from_sock<C: Channel>(
        &mut self,
        alloc: Global,
        channel: &mut C,
        max_retry: Option<u64>,
    ) -> Result<(), ReceiveError>
        ensures loaded { OnOk result (Loads (unwrap_or max_retry MAX_RETRY)
            (C.calls channel.old) (C.calls channel.new) self.old.entries self.new.entries) }
        ensures refused { IfErr result (λ error. LoadsNot (unwrap_or max_retry MAX_RETRY)
            (C.calls channel.old) (C.calls channel.new) error) }
        ensures stays { Stays (C.calls channel.old) (C.calls channel.new) (C.room channel.old) (C.room channel.new) }
        ensures unchanged { OnErr result (self.new.entries ≡ self.old.entries) }
        ensures room { OnErr result (self.old.spare ≤ self.new.spare) }
        ensures fault { IsErrOf result ReceiveError.Transfer
            → Rose (C.faulted channel.old) (C.faulted channel.new) }
    {
        let (fds, bytes) = match get_fds_from(alloc, channel, max_retry) {
            Ok(message) => message,
            Err(error) => return Err(error),
        };
        if self.reserve(alloc, fds.len() as u64).is_err() {
            close_all(channel, fds);
            return Err(ReceiveError::NoMemory);
        }
        match Fds::decode(alloc, bytes.as_slice(), fds) {
            Ok(table) => {
                self.take_in(alloc, channel, table);
                Ok(())
            }
            Err(refused) => {
                let DecodeRefused { reason, fds } = refused;
                close_all(channel, fds);
                Err(ReceiveError::from(reason))
            }
        }
    }

    /// Adds the entries of a table, for which there is room, and closes what came for an address that
    /// is held.
    fn take_in<C: Channel>(&mut self, alloc: Global, channel: &mut C, mut table: Fds)
        requires room { length table.entries ≤ self.old.spare }
        requires ascending { IsAscending table.entries }
        ensures added { self.new.entries
            ≡ put_all (fresh table.entries self.old.entries) self.old.entries }
        ensures closed { Adds (C.calls channel.old) (C.calls channel.new)
            (closes (numbers (copies table.entries self.old.entries))) }
        ensures stays { Stays (C.calls channel.old) (C.calls channel.new) (C.room channel.old) (C.room channel.new) }
        ensures cause { C.faulted channel.new ≡ C.faulted channel.old }
    {
        while let Some((bind, fd)) = table.pop_first() {
            self.take_one(alloc, channel, bind, fd);
        }
        table.finish();
    }

    /// Adds an entry for which there is room, or closes it where its address is held.
    fn take_one<C: Channel>(&mut self, alloc: Global, channel: &mut C, bind: Text, fd: Fd)
        requires { 0 < self.old.spare }
        ensures entries { self.new.entries ≡ (if is_some (lookup bind self.old.entries)
            then self.old.entries else put bind fd self.old.entries) }
        ensures room { self.old.spare ≤ self.new.spare + 1 }
        ensures told { Adds (C.calls channel.old) (C.calls channel.new)
            (if is_some (lookup bind self.old.entries) then ChannelCall.Close fd ∷ [] else []) }
        ensures stays { Stays (C.calls channel.old) (C.calls channel.new) (C.room channel.old) (C.room channel.new) }
        ensures cause { C.faulted channel.new ≡ C.faulted channel.old }
    {
        if self.get(bind.as_str()).is_some() {
            channel.close(fd);
            return;
        }
        match self.add(alloc, bind, fd) {
            Ok(None) => {}
            Ok(Some(_held)) => unreachable!(),
            Err(_refused) => unreachable!(),
        }
    }

    /// Spends an empty table.
    pub fn finish(self)
        requires { self.entries ≡ [] }
    {
        let Fds { entries } = self;
        entries.destroy_empty();
    }
}
