//! A socket that listens.

ghost use Rattle.std.specs.Prelude.{◌≡◌};
ghost use Rattle.svc_listen.specs.Sockets.{number_of};

/// The number of a listening descriptor, which a table or an endpoint owns.
#[derive(Clone, Copy, PartialEq, Eq, Debug)]
pub enum Listener {
    /// It listens on a TCP address.
    Tcp(u64),
    /// It listens on the path of a Unix socket.
    Unix(u64),
}

impl Listener {
    /// The descriptor's number.
    pub fn number(self) -> u64
        ensures { result ≡ number_of self }
    {
        match self {
            Listener::Tcp(number) | Listener::Unix(number) => number,
        }
    }
}
