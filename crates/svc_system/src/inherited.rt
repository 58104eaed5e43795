//! Listening sockets that the program was started with, by the addresses at which they listen.

ghost use Rattle.std.specs.Prelude.{◌≡◌, ◌++◌, ℕ, ◌<◌, [], List, length, remove, slice_index_or, IfSome, IfNone, OnErr};

use crate::address::Address;
use crate::listeners::Socket;
use libc::net::listen;
use os::FromRawFd;
use std::alloc::Global;
use std::mem::drop;
use std::net::TcpListener;
use std::os::fd::{AsRawFd, OwnedFd};
use std::os::unix::net::UnixListener;
use svc_base::{NoMemory, Text};

/// The number of the first one that a service manager passes.
const FIRST: i32 = 3;

/// The most that are passed by numbers.
pub const MOST_PASSED: u32 = 256;

/// So many connections may wait at one that was passed, where the system allows as many.
const BACKLOG: i32 = 4096;

/// A listening socket that the program was started with.
#[derive(Drop)]
pub(crate) struct Passed {
    address: Address,
    socket: Socket,
}

/// Those that no endpoint has taken.
#[derive(Drop)]
pub struct Inherited {
    pub(crate) rows: Vec<Passed>,
}

impl Passed {
    /// Where it listens.
    pub(crate) fn address(&self) -> &Address
        ensures { result.now ≡ self.now.address }
    {
        &self.address
    }
}

/// It listens, or does from now on: it is no connection, and no file.
fn listens(descriptor: &OwnedFd) -> bool {
    listen(descriptor.as_raw_fd(), BACKLOG) >= 0
}

/// The path at which a socket of the Unix domain listens, if it has one.
fn path_of(alloc: Global, listener: &UnixListener) -> Result<Option<Text>, NoMemory> {
    let Ok(address) = listener.local_addr() else {
        return Ok(None);
    };
    match address.as_pathname() {
        Some(path) => Ok(Some(Text::new(alloc, path.as_str())?)),
        None => Ok(None),
    }
}

/// A socket that listens, with its address. None of an address that no endpoint can have.
fn row_of(alloc: Global, descriptor: OwnedFd) -> Result<Option<Passed>, NoMemory> {
    let listener = TcpListener::from(descriptor);
    if let Ok(address) = listener.local_addr() {
        return Ok(Some(Passed {
            address: Address::Tcp(address),
            socket: Socket::Tcp(listener),
        }));
    }
    let listener = UnixListener::from(OwnedFd::from(listener));
    match path_of(alloc, &listener)? {
        Some(path) => Ok(Some(Passed {
            address: Address::Unix(path),
            socket: Socket::Unix(listener),
        })),
        None => Ok(None),
    }
}

/// The descriptor with this number, which the program was started with.
fn descriptor(number: i32) -> Option<OwnedFd> {
    if number < FIRST {
        return None;
    }
    Some(unsafe { OwnedFd::from_raw_fd(number) })
}

impl Inherited {
    /// None.
    pub fn new(alloc: Global) -> Self
        ensures { result.rows.items ≡ [] }
    {
        Inherited {
            rows: Vec::new(alloc),
        }
    }

    /// Takes a descriptor that the program was started with. What doesn't listen, or where no endpoint can, is closed.
    pub fn add(&mut self, alloc: Global, descriptor: OwnedFd) -> Result<(), NoMemory>
        ensures kept { (more : List Passed) × (self.new.rows.items ≡ self.old.rows.items ++ more) }
        ensures full { OnErr result (self.new.rows.items ≡ self.old.rows.items) }
    {
        if !listens(&descriptor) {
            drop(descriptor);
            return Ok(());
        }
        match row_of(alloc, descriptor)? {
            Some(row) if row.socket.is_unwaiting() => {
                self.rows.push(row)?;
                Ok(())
            }
            _ => Ok(()),
        }
    }

    /// Takes so many descriptors, those from 3 on, which a service manager passed. To be called before anything else is
    /// opened. Beyond `MOST_PASSED` none is taken. `NoMemory` leaves those that were taken before.
    pub fn add_numbered(&mut self, alloc: Global, count: u32) -> Result<(), NoMemory>
        ensures { (more : List Passed) × (self.new.rows.items ≡ self.old.rows.items ++ more) }
    {
        for place in 0..count.min(MOST_PASSED) {
            if let Some(descriptor) = descriptor(FIRST + place as i32) {
                self.add(alloc, descriptor)?;
            }
        }
        Ok(())
    }

    /// The one that listens at this address, which the caller has from now on.
    pub(crate) fn take(&mut self, address: &Address) -> Option<Socket>
        ensures taken { IfSome result (λ socket. (k : ℕ) × ((k < length self.old.rows.items) × ((self.new.rows.items ≡ remove self.old.rows.items k)
            × ((d : Passed) → (slice_index_or self.old.rows.items k d).socket ≡ socket)))) }
        ensures none { IfNone result (self.new ≡ self.old) }
    {
        let at = self.rows.iter().position(|row| row.address.is(address))?;
        Some(self.rows.remove(at).socket)
    }
}
