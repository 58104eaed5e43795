//! Listening sockets, by the numbers that a server's record knows them by.

ghost use Rattle.std.specs.Prelude.{◌≡◌, ◌==◌, ◌++◌, ◌∷◌, [], IfOk, OnErr};
ghost use Rattle.std.specs.List.{list_any};
ghost use Rattle.std.specs.Option.{option_copied};

use crate::address::{Address, is_freed};
use crate::readiness::Readiness;
use crate::tokens::Ready;
use std::alloc::Global;
use std::io::ErrorKind;
use std::mem::drop;
use std::net::{Net, SocketAddr, TcpListener, TcpStream};
use std::os::fd::{AsRawFd, OwnedFd, RawFd};
use std::os::unix::net::{UnixListener, UnixStream};
use std::rt::Files;
use std::sync::Arc;
use std::{fs, io};
use svc_base::{Items, NoMemory, Text};
use svc_socket::{Peer, PeerAddr};

/// The first number: those of standard input, output and error are never given.
const FIRST: u64 = 3;

/// A socket that listens without waiting.
#[derive(Drop)]
pub(crate) enum Socket {
    Tcp(TcpListener),
    Unix(UnixListener),
}

/// Why nothing listens.
#[derive(Clone, Copy, PartialEq)]
pub(crate) enum BindRefused {
    /// Something listens at the address.
    InUse,
    Failed,
}

impl From<NoMemory> for BindRefused {
    fn from(_: NoMemory) -> Self {
        BindRefused::Failed
    }
}

/// What one try to accept gave.
#[derive(Drop)]
pub(crate) enum Came {
    /// No connection is there.
    Nothing,
    /// The one that was there is gone; another may be there.
    Gone,
    Connection(TcpStream, Peer),
    /// It failed with this error number.
    Failed(u32),
}

/// Why an address isn't bound.
fn refused(kind: ErrorKind) -> BindRefused {
    if kind == ErrorKind::AddrInUse {
        BindRefused::InUse
    } else {
        BindRefused::Failed
    }
}

/// What a failed try to accept means.
fn came_by(error: io::Error) -> Came {
    match error.kind() {
        ErrorKind::WouldBlock => Came::Nothing,
        ErrorKind::Interrupted | ErrorKind::ConnectionAborted => Came::Gone,
        _ => Came::Failed(
            error
                .raw_os_error()
                .map_or(0, |number| number.unsigned_abs()),
        ),
    }
}

/// Who is at the other end, by the address.
fn peer_at(address: SocketAddr) -> Peer {
    match address {
        SocketAddr::V4(address) => Peer::Inet(PeerAddr::V4 {
            ip: address.ip().to_bits(),
            port: address.port(),
        }),
        SocketAddr::V6(address) => {
            Peer::Inet(PeerAddr::from_ip6(address.ip().to_bits(), address.port()))
        }
    }
}

/// A connection whose calls don't wait.
fn unwaiting(stream: TcpStream, peer: Peer) -> Came {
    if stream.set_nonblocking(true).is_ok() {
        Came::Connection(stream, peer)
    } else {
        drop(stream);
        Came::Gone
    }
}

/// The stream of the Unix domain as one of which only the descriptor matters.
fn stream_of(stream: UnixStream) -> TcpStream {
    TcpStream::from(OwnedFd::from(stream))
}

/// Binds a path. One at which nobody listens any more is removed before.
fn bind_unix<R: Net + Files>(rt: &R, path: &str) -> Result<UnixListener, BindRefused> {
    match UnixListener::bind(rt, path) {
        Ok(listener) => Ok(listener),
        Err(error) => {
            let why = refused(error.kind());
            if why != BindRefused::InUse || !is_freed(rt, path) {
                return Err(why);
            }
            match UnixListener::bind(rt, path) {
                Ok(listener) => Ok(listener),
                Err(error) => Err(refused(error.kind())),
            }
        }
    }
}

impl Socket {
    /// Binds the address, and listens there without waiting.
    pub(crate) fn bind<R: Net<Listener = TcpListener, Stream = TcpStream> + Files>(
        rt: &R,
        address: &Address,
    ) -> Result<Self, BindRefused> {
        let socket = match address {
            Address::Tcp(address) => match TcpListener::bind(rt, *address) {
                Ok(listener) => Socket::Tcp(listener),
                Err(error) => return Err(refused(error.kind())),
            },
            Address::Unix(path) => Socket::Unix(bind_unix(rt, path.as_str())?),
            Address::Unknown => return Err(BindRefused::Failed),
        };
        if socket.is_unwaiting() {
            Ok(socket)
        } else {
            drop(socket);
            Err(BindRefused::Failed)
        }
    }

    /// From now on its calls don't wait, where that can be had.
    pub(crate) fn is_unwaiting(&self) -> bool {
        match self {
            Socket::Tcp(listener) => listener.set_nonblocking(true).is_ok(),
            Socket::Unix(listener) => listener.set_nonblocking(true).is_ok(),
        }
    }

    /// The system's number.
    pub(crate) fn raw(&self) -> RawFd {
        match self {
            Socket::Tcp(listener) => listener.as_raw_fd(),
            Socket::Unix(listener) => listener.as_raw_fd(),
        }
    }

    /// Tries once to accept a connection.
    pub(crate) fn accept(&self) -> Came {
        match self {
            Socket::Tcp(listener) => match listener.accept() {
                Ok((stream, address)) => unwaiting(stream, peer_at(address)),
                Err(error) => came_by(error),
            },
            Socket::Unix(listener) => match listener.accept() {
                Ok((stream, _)) => unwaiting(stream_of(stream), Peer::Unix),
                Err(error) => came_by(error),
            },
        }
    }
}

/// A socket that listens, with the path that goes with it.
#[derive(Drop)]
pub(crate) struct Bound {
    pub socket: Arc<Socket>,
    pub path: Option<Text>,
}

impl Bound {
    ghost use Rattle.svc_system.specs.Letters.{IsHandle};

    /// Keeps a socket with its path. Without memory the socket is closed.
    pub(crate) fn new(alloc: Global, socket: Socket, path: Option<Text>) -> Result<Self, NoMemory> {
        match Arc::new(alloc, socket) {
            Ok(socket) => Ok(Bound { socket, path }),
            Err(_) => {
                drop(path);
                Err(NoMemory)
            }
        }
    }

    /// A handle of it: the same socket, with the same path. It takes no descriptor.
    pub(crate) fn share(&self, alloc: Global) -> Result<Self, NoMemory>
        ensures { IfOk result (IsHandle self.now) }
    {
        let path = match &self.path {
            Some(path) => Some(path.copy(alloc)?),
            None => None,
        };
        match Arc::try_clone(&self.socket) {
            Ok(socket) => Ok(Bound { socket, path }),
            Err(_) => {
                drop(path);
                Err(NoMemory)
            }
        }
    }

    /// The system's number.
    pub(crate) fn raw(&self) -> RawFd {
        self.socket.raw()
    }

    /// Removes the path that goes with it.
    pub(crate) fn remove_path<R: Files>(&self, rt: &R) {
        if let Some(path) = &self.path {
            let _ = fs::remove_file(rt, path.as_str());
        }
    }
}

/// A listening socket with its number.
#[derive(Drop)]
pub(crate) struct Listener {
    number: u64,
    bound: Bound,
    is_watched: bool,
}

/// The open ones. A number is given once.
#[derive(Drop)]
pub(crate) struct Listeners {
    rows: Vec<Listener>,
    next: u64,
    /// The numbers of those that were handed over, whose paths are a newer server's.
    handed: Items<u64>,
}

impl Listener {
    /// Watches it, once. Answers whether that could be had.
    fn watch(&mut self, readiness: &Readiness) -> bool {
        if !self.is_watched {
            self.is_watched = readiness.watch(self.bound.raw(), Ready::Listener(self.number));
        }
        self.is_watched
    }
}

impl Listeners {
    ghost use Rattle.svc_system.specs.Letters.{bound_in, numbers_in};

    /// None is open.
    pub(crate) fn new(alloc: Global) -> Self {
        Listeners {
            rows: Vec::new(alloc),
            next: FIRST,
            handed: Items::new(alloc),
        }
    }

    /// How many are open.
    pub(crate) fn count(&self) -> usize {
        self.rows.len()
    }

    /// Adds one, and answers its number.
    pub(crate) fn add(&mut self, bound: Bound) -> Result<u64, NoMemory>
        ensures added { IfOk result (λ number. numbers_in self.new ≡ numbers_in self.old ++ number ∷ []) }
        ensures full { OnErr result (numbers_in self.new ≡ numbers_in self.old) }
    {
        let number = self.next;
        self.rows.push(Listener {
            number,
            bound,
            is_watched: false,
        })?;
        self.next = number.saturating_add(1);
        Ok(number)
    }

    /// Makes room for so many more.
    pub(crate) fn reserve(&mut self, n: usize) -> Result<(), NoMemory>
        ensures { numbers_in self.new ≡ numbers_in self.old }
    {
        self.rows.reserve(n)?;
        Ok(())
    }

    /// The socket with this number, if it is open.
    pub(crate) fn get(&self, number: u64) -> Option<&Bound>
        ensures { option_copied result ≡ bound_in self.now number }
    {
        match self.rows.iter().find(|listener| listener.number == number) {
            Some(listener) => Some(&listener.bound),
            None => None,
        }
    }

    /// Watches the socket with this number, once. Answers whether that could be had.
    pub(crate) fn watch(&mut self, readiness: &Readiness, number: u64) -> bool {
        let Some(at) = self
            .rows
            .iter()
            .position(|listener| listener.number == number)
        else {
            return false;
        };
        match self.rows.get_mut(at) {
            Some(row) => row.watch(readiness),
            None => false,
        }
    }

    /// These were handed over: their paths are a newer server's from now on.
    pub(crate) fn hand_over(&mut self, handed: Items<u64>)
        ensures { self.new ≡ record self.old { handed = handed } }
    {
        self.handed = handed;
    }

    /// It was handed over.
    fn is_handed(&self, number: u64) -> bool
        ensures { result ≡ list_any (λ other. other == number) self.now.handed }
    {
        self.handed.as_slice().contains(&number)
    }

    /// Closes it, and removes the path that goes with it, unless that is a newer server's.
    pub(crate) fn close<R: Files>(&mut self, rt: &R, readiness: &Readiness, number: u64) {
        if let Some(at) = self
            .rows
            .iter()
            .position(|listener| listener.number == number)
        {
            let listener = self.rows.remove(at);
            if listener.is_watched {
                readiness.forget(listener.bound.raw());
            }
            if !self.is_handed(number) {
                listener.bound.remove_path(rt);
            }
        }
    }
}
