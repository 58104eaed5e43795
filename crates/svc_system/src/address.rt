//! Addresses at which something listens: of TCP, and paths of the Unix domain.

use std::alloc::Global;
use std::fs;
use std::io::ErrorKind;
use std::net::{Net, SocketAddr, ToSocketAddrs};
use std::os::unix::net::UnixStream;
use std::rt::Files;
use svc_base::{NoMemory, Text};

/// An address at which an endpoint listens.
#[derive(Drop)]
pub(crate) enum Address {
    Tcp(SocketAddr),
    /// A path of the Unix domain.
    Unix(Text),
    /// A text that resolves to no address.
    Unknown,
}

/// Where operators are listened to.
#[derive(Drop)]
pub enum ControlAddress {
    /// An address of this machine alone.
    Tcp(SocketAddr),
    /// A path of the Unix domain.
    Unix(Text),
}

/// Only this machine reaches the address.
pub fn is_loopback(address: &SocketAddr) -> bool {
    address.ip().is_loopback()
}

impl Address {
    /// It is the same address.
    pub(crate) fn is(&self, other: &Address) -> bool {
        match (self, other) {
            (Address::Tcp(address), Address::Tcp(other)) => address == other,
            (Address::Unix(path), Address::Unix(other)) => path == other,
            _ => false,
        }
    }

    /// The first address that a text of TCP resolves to, or the path.
    pub(crate) fn of<R: Net>(
        rt: &R,
        alloc: Global,
        text: &Text,
        unix: bool,
    ) -> Result<Self, NoMemory> {
        if unix {
            return Ok(Address::Unix(text.copy(alloc)?));
        }
        match text.as_str().to_socket_addrs(rt) {
            Ok(mut found) => match found.next() {
                Some(address) => Ok(Address::Tcp(address)),
                None => Ok(Address::Unknown),
            },
            Err(_) => Ok(Address::Unknown),
        }
    }
}

/// Whether the path is that of a socket, as far as can be told: it is there, and no file, folder or link.
fn is_socket<R: Files>(rt: &R, path: &str) -> bool {
    match fs::symlink_metadata(rt, path) {
        Ok(found) => !found.is_file() && !found.is_dir() && !found.is_symlink(),
        Err(_) => false,
    }
}

/// Removes the path of a Unix socket at which nobody listens any more. Answers whether it is free now.
pub(crate) fn is_freed<R: Net + Files>(rt: &R, path: &str) -> bool {
    if !is_socket(rt, path) {
        return false;
    }
    match UnixStream::connect(rt, path) {
        Err(error) if error.kind() == ErrorKind::ConnectionRefused => {
            fs::remove_file(rt, path).is_ok()
        }
        _ => false,
    }
}
