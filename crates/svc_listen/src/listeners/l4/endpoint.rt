//! An endpoint that listens, and what it is made by.

ghost use Rattle.std.specs.Prelude.{◌≡◌, Some, None, true, false, IfOk, IfErr, if◌then◌else◌};
ghost use Rattle.svc_listen.specs.Lent.{table_before, table_after};
ghost use Rattle.svc_listen.specs.Sockets.{listener_of};

use super::ServerAddress;
use super::arrivals::{AcceptAnswer, Given, take_arrival};
use super::binding::{ListenError, bind_all, listen_in};
use crate::accepting::Accepting;
use crate::binder::Binder;
use crate::protocols::l4::listener::Listener;
use std::alloc::Global;
use std::convert::AsStr;
use std::marker::Model;
use svc_fds::{Fd, Fds};
use svc_streams::{ConnectionFilter, Filters, L4BufferSettings};

/// Why there is no listening endpoint. The builder comes back.
#[derive(Drop)]
pub struct ListenRefused {
    pub reason: ListenError,
    pub builder: ListenerEndpointBuilder,
}

/// What a listening endpoint is made by: its address and the number of its filter, as far as they are
/// given.
#[derive(Drop)]
pub struct ListenerEndpointBuilder {
    listen_addr: Option<ServerAddress>,
    connection_filter: Option<u32>,
}

impl Model for ListenerEndpointBuilder {
    ghost use Rattle.svc_listen.specs.ListeningData.{BuilderData};

    ghost Value = { BuilderData };

    ghost view = { λ b. record { address = b.listen_addr; filter = b.connection_filter } };
}

/// An endpoint that listens. It has to be closed: it can't be dropped, since it may own its descriptor.
pub struct ListenerEndpoint {
    listen_addr: ServerAddress,
    listener: Listener,
    owned: Option<Fd>,
    connection_filter: Option<u32>,
}

impl Model for ListenerEndpoint {
    ghost use Rattle.std.specs.Prelude.{is_some};
    ghost use Rattle.svc_listen.specs.Sockets.{number_of};
    ghost use Rattle.svc_listen.specs.ListeningData.{ListeningData};
    ghost use Rattle.svc_listen.specs.Listening.{IsKept};

    ghost Value = { ListeningData };

    ghost view = { λ e. record {
      address = e.listen_addr;
      fd = number_of e.listener;
      owned = is_some e.owned;
      filter = e.connection_filter;
    } };

    ghost invariant = { λ e. IsKept e.listen_addr e.listener e.owned };
}

/// The socket of an address, of this descriptor.
fn listener_of(addr: &ServerAddress, number: u64) -> Listener
    ensures { result ≡ listener_of addr.now number }
{
    match addr {
        ServerAddress::Tcp(_, _) => Listener::Tcp(number),
        ServerAddress::Uds(_, _) => Listener::Unix(number),
    }
}

impl ListenerEndpointBuilder {
    ghost use Rattle.svc_listen.specs.Listening.{Listens, end_of, IsMadeOf, ListenCause};

    /// Nothing is given yet.
    pub fn new() -> Self
        ensures { result ≡ record { address = None; filter = None } }
    {
        ListenerEndpointBuilder {
            listen_addr: None,
            connection_filter: None,
        }
    }

    /// Gives the address.
    pub fn listen_addr(&mut self, addr: ServerAddress)
        ensures { self.new ≡ record self.old { address = Some addr } }
    {
        self.listen_addr = Some(addr);
    }

    /// Gives the number of the filter.
    pub fn connection_filter(&mut self, filter: u32)
        ensures { self.new ≡ record self.old { filter = Some filter } }
    {
        self.connection_filter = Some(filter);
    }

    /// Listens. Where a table is lent that has a descriptor of the address, that one is adopted. Else the
    /// address is bound: a TCP address that is in use is tried thirty times, with 1,000 milliseconds of
    /// rest between two tries, a Unix address once. The new descriptor enters the table, and where none
    /// is lent the endpoint owns it.
    ///
    /// `NoAddress` where no address was given. `BindError(AdoptFailed)` where the held descriptor can't
    /// listen, `BindError(Failed)` where the address couldn't be bound, `BindError(StillInUse)` where each
    /// try found it in use. `NoMemory` where there is none for the table's entry; nothing was asked then.
    pub fn listen<B: Binder>(
        self,
        alloc: Global,
        table: Option<&mut Fds>,
        binder: &mut B,
    ) -> Result<ListenerEndpoint, ListenRefused>
        ensures listens { Listens B.seen self (table_before table.entry) binder.old binder.new (table_after table.exit) (end_of result) }
        ensures made { IfOk result (λ endpoint. IsMadeOf self endpoint) }
        ensures cause { ListenCause (end_of result) (B.seen binder.old) (B.seen binder.new) }
        ensures back { IfErr result (λ refused. refused.builder ≡ self) }
    {
        match table {
            Some(table) => self.listen_with(alloc, table, binder),
            None => self.listen_alone(binder),
        }
    }

    /// Listens with a table.
    fn listen_with<B: Binder>(
        self,
        alloc: Global,
        table: &mut Fds,
        binder: &mut B,
    ) -> Result<ListenerEndpoint, ListenRefused>
        ensures listens { Listens B.seen self (Some table.old.entries) binder.old binder.new (Some table.new.entries) (end_of result) }
        ensures made { IfOk result (λ endpoint. IsMadeOf self endpoint) }
        ensures back { IfErr result (λ refused. refused.builder ≡ self) }
    {
        let ListenerEndpointBuilder {
            listen_addr,
            connection_filter,
        } = self;
        match listen_addr {
            None => Err(refused(ListenError::NoAddress, None, connection_filter)),
            Some(addr) => match listen_in(alloc, table, binder, &addr) {
                Ok(number) => Ok(endpoint(addr, number, connection_filter)),
                Err(reason) => Err(refused(reason, Some(addr), connection_filter)),
            },
        }
    }

    /// Listens without a table.
    fn listen_alone<B: Binder>(self, binder: &mut B) -> Result<ListenerEndpoint, ListenRefused>
        ensures listens { Listens B.seen self None binder.old binder.new None (end_of result) }
        ensures made { IfOk result (λ endpoint. IsMadeOf self endpoint) }
        ensures back { IfErr result (λ refused. refused.builder ≡ self) }
    {
        let ListenerEndpointBuilder {
            listen_addr,
            connection_filter,
        } = self;
        match listen_addr {
            None => Err(refused(ListenError::NoAddress, None, connection_filter)),
            Some(addr) => match bind_all(binder, &addr) {
                Ok(fd) => Ok(owner(addr, fd, connection_filter)),
                Err(kind) => {
                    let reason = ListenError::BindError(kind);
                    Err(refused(reason, Some(addr), connection_filter))
                }
            },
        }
    }
}

fn refused(
    reason: ListenError,
    listen_addr: Option<ServerAddress>,
    connection_filter: Option<u32>,
) -> ListenRefused
    ensures { result ≡ record { reason = reason; builder = record { address = listen_addr; filter = connection_filter } } }
{
    ListenRefused {
        reason,
        builder: ListenerEndpointBuilder {
            listen_addr,
            connection_filter,
        },
    }
}

/// An endpoint whose descriptor a table owns.
fn endpoint(addr: ServerAddress, number: u64, filter: Option<u32>) -> ListenerEndpoint
    ensures { result ≡ record { address = addr; fd = number; owned = false; filter = filter } }
{
    let listener = listener_of(&addr, number);
    ListenerEndpoint {
        listen_addr: addr,
        listener,
        owned: None,
        connection_filter: filter,
    }
}

/// An endpoint that owns its descriptor.
fn owner(addr: ServerAddress, fd: Fd, filter: Option<u32>) -> ListenerEndpoint
    ensures { result ≡ record { address = addr; fd = fd; owned = true; filter = filter } }
{
    let listener = listener_of(&addr, fd.number());
    ListenerEndpoint {
        listen_addr: addr,
        listener,
        owned: Some(fd),
        connection_filter: filter,
    }
}

impl ListenerEndpoint {
    ghost use Rattle.std.specs.Prelude.{◌<◌, IfSome, length};
    ghost use Rattle.svc_listen.specs.Addresses.{text_of};
    ghost use Rattle.svc_listen.specs.Accepts.{Accepts, AcceptCause, HasGiven, plain};

    /// What an endpoint is made by.
    pub fn builder() -> ListenerEndpointBuilder
        ensures { result ≡ record { address = None; filter = None } }
    {
        ListenerEndpointBuilder::new()
    }

    /// The text of its address.
    pub fn as_str(&self) -> &str
        ensures { result.now ≡ text_of self.now.address }
    {
        self.listen_addr.as_str()
    }

    /// The number of its descriptor.
    pub fn fd(&self) -> u64
        ensures { result ≡ self.now.fd }
    {
        self.listener.number()
    }

    /// The socket that it listens with.
    pub fn listener(&self) -> Listener
        ensures { result ≡ listener_of self.now.address self.now.fd }
    {
        self.listener
    }

    /// Takes one arrival: asks the filter about its peer, where that is known, and sets the settings of
    /// the address's options, in order up to the first failure. Where the filter said no and where a
    /// setting failed the connection is refused.
    pub fn accept<F: ConnectionFilter, A: Accepting>(
        &self,
        alloc: Global,
        filters: &mut Filters<F>,
        from: &mut A,
    ) -> AcceptAnswer
        requires { IfSome self.now.filter (λ number. number < length filters.old) }
        ensures taken { Accepts A.seen F.verdict self.now.address self.now.filter plain from.old from.new filters.old filters.new result }
        ensures cause { AcceptCause result (A.seen from.old) (A.seen from.new) }
        ensures given { HasGiven plain result }
        ensures filters { length filters.new ≡ length filters.old }
    {
        let with = Given {
            tls: false,
            buffer: L4BufferSettings::default(),
            callback: None,
        };
        self.accept_with(alloc, filters, from, with)
    }

    /// Takes one arrival, and gives it this.
    pub(crate) fn accept_with<F: ConnectionFilter, A: Accepting>(
        &self,
        alloc: Global,
        filters: &mut Filters<F>,
        from: &mut A,
        with: Given,
    ) -> AcceptAnswer
        requires { IfSome self.now.filter (λ number. number < length filters.old) }
        ensures taken { Accepts A.seen F.verdict self.now.address self.now.filter with from.old from.new filters.old filters.new result }
        ensures given { HasGiven with result }
    {
        take_arrival(
            alloc,
            &self.listen_addr,
            self.connection_filter,
            filters,
            from,
            with,
        )
    }

    /// Spends it. Its descriptor comes back where no table owns it.
    pub fn close(self) -> Option<Fd>
        ensures { result ≡ (if self.owned then Some self.fd else None) }
    {
        let ListenerEndpoint {
            listen_addr: _,
            listener: _,
            owned,
            connection_filter: _,
        } = self;
        owned
    }
}
