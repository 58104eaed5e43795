//! The options of a stream over the network.

ghost use Rattle.std.specs.Prelude.{◌≡◌, None};

use crate::options::{Family, Options, SockOption};
use std::net::{OpenStream, SocketAddr};

/// A stream over the network, as a socket whose options can be set. The standard library can set the one on
/// small segments (`NoDelay`); each other option fails. It tells no calls.
#[derive(Drop)]
pub struct NetOptions<'a, S> {
    stream: &'a S,
    family: Family,
    pub count: u64,
}

/// The family of the stream's own address, where that is known.
fn family_of<S: OpenStream>(stream: &S) -> Family {
    match stream.local_addr() {
        Ok(SocketAddr::V4(_)) => Family::V4,
        Ok(SocketAddr::V6(_)) => Family::V6,
        Err(_) => Family::Other,
    }
}

impl<'a, S: OpenStream> NetOptions<'a, S> {
    /// The options of this stream, of which none was set yet.
    pub fn new(stream: &'a S) -> Self
        ensures { result.count ≡ 0 }
    {
        NetOptions {
            stream,
            family: family_of(stream),
            count: 0,
        }
    }
}

impl<S: OpenStream> Options for NetOptions<'_, S> {
    ghost seen = { λ o. record { called = None; room = 0; family = o.family; faults = o.count } };

    fn faults(&self) -> u64 {
        self.count
    }

    fn set(&mut self, option: SockOption) -> bool {
        let is_set = match option {
            SockOption::NoDelay => self.stream.set_nodelay(true).is_ok(),
            _ => false,
        };
        if !is_set {
            self.count = self.count.saturating_add(1);
        }
        is_set
    }

    fn family(&self) -> Family {
        self.family
    }
}
