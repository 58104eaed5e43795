//! Addresses on which a server listens.

ghost use Rattle.std.specs.Prelude.{◌≡◌, IfOk};
ghost use Rattle.svc_listen.specs.Addresses.{text_of, is_unix, options_of};

use std::alloc::Global;
use std::convert::AsStr;
use svc_base::{NoMemory, Text};
pub use svc_socket::TcpSocketOptions;

mod arrivals;
mod binding;
mod endpoint;

pub use arrivals::AcceptAnswer;
pub(crate) use arrivals::Given;
pub use binding::{BindErrorKind, ListenError};
pub use endpoint::{ListenRefused, ListenerEndpoint, ListenerEndpointBuilder};

/// The mode of a file. A Unix socket whose mode isn't given has 0o666.
#[derive(Clone, Copy, PartialEq, Eq, Debug)]
pub struct Permissions(pub u32);

/// An address on which a server listens.
#[derive(Debug, Drop)]
pub enum ServerAddress {
    /// A TCP address as text, and what is set on its socket and on the connections that it accepts.
    Tcp(Text, Option<TcpSocketOptions>),
    /// A path of the Unix domain, and the mode of its file.
    Uds(Text, Option<Permissions>),
}

impl AsStr for ServerAddress {
    ghost text = { text_of };

    fn as_str(&self) -> &str {
        match self {
            ServerAddress::Tcp(text, _) | ServerAddress::Uds(text, _) => text.as_str(),
        }
    }
}

impl ServerAddress {
    /// The same address once more.
    pub fn copy(&self, alloc: Global) -> Result<ServerAddress, NoMemory>
        ensures { IfOk result (λ address. address ≡ self.now) }
    {
        match self {
            ServerAddress::Tcp(text, options) => {
                Ok(ServerAddress::Tcp(text.copy(alloc)?, *options))
            }
            ServerAddress::Uds(text, mode) => Ok(ServerAddress::Uds(text.copy(alloc)?, *mode)),
        }
    }

    /// Whether it is a path of the Unix domain.
    pub fn is_unix(&self) -> bool
        ensures { result ≡ is_unix self.now }
    {
        matches!(self, ServerAddress::Uds(_, _))
    }

    /// What is set on its sockets, where it is TCP and that is given.
    pub fn tcp_sock_opts(&self) -> Option<TcpSocketOptions>
        ensures { result ≡ options_of self.now }
    {
        match self {
            ServerAddress::Tcp(_, options) => *options,
            ServerAddress::Uds(_, _) => None,
        }
    }
}
