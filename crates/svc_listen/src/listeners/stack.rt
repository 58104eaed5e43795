//! An endpoint with what its connections get.

ghost use Rattle.std.specs.Prelude.{◌≡◌, ◌<◌, Some, None, IfSome, length, if◌then◌else◌};
ghost use Rattle.svc_listen.specs.Addresses.{text_of};

use super::l4::{AcceptAnswer, Given, ListenerEndpoint};
use crate::accepting::Accepting;
use std::alloc::Global;
use std::marker::Model;
use svc_fds::Fd;
use svc_socket::protocols::tls::noop_tls::listeners::TlsSettings;
use svc_streams::{ConnectionFilter, Filters, L4BufferSettings};

/// An endpoint that listens, with the TLS, the buffers and the callback that its connections get. It has
/// to be closed.
pub struct TransportStack {
    l4: ListenerEndpoint,
    tls: Option<TlsSettings>,
    l4_buffer: L4BufferSettings,
    pre_tls_callback: Option<u32>,
}

impl Model for TransportStack {
    ghost use Rattle.svc_listen.specs.StackData.{StackData};

    ghost Value = { StackData };

    ghost view = { λ s. record {
      endpoint = s.l4;
      tls = s.tls;
      buffer = s.l4_buffer;
      callback = s.pre_tls_callback;
    } };
}

impl TransportStack {
    ghost use Rattle.svc_listen.specs.Accepts.{Accepts, AcceptCause, HasGiven};
    ghost use Rattle.svc_listen.specs.Stacks.{given_by};

    /// The endpoint with these. The callback is a number.
    pub fn new(
        endpoint: ListenerEndpoint,
        tls: Option<TlsSettings>,
        buffer: L4BufferSettings,
        callback: Option<u32>,
    ) -> Self
        ensures { result ≡ record { endpoint = endpoint; tls = tls; buffer = buffer; callback = callback } }
    {
        TransportStack {
            l4: endpoint,
            tls,
            l4_buffer: buffer,
            pre_tls_callback: callback,
        }
    }

    /// The text of the endpoint's address.
    pub fn as_str(&self) -> &str
        ensures { result.now ≡ text_of self.now.endpoint.address }
    {
        self.l4.as_str()
    }

    /// Takes one arrival, as the endpoint does. Its connection gets the TLS, the buffers and the callback.
    pub fn accept<F: ConnectionFilter, A: Accepting>(
        &self,
        alloc: Global,
        filters: &mut Filters<F>,
        from: &mut A,
    ) -> AcceptAnswer
        requires { IfSome self.now.endpoint.filter (λ number. number < length filters.old) }
        ensures taken { Accepts A.seen F.verdict self.now.endpoint.address self.now.endpoint.filter
            (given_by self.now) from.old from.new filters.old filters.new result }
        ensures cause { AcceptCause result (A.seen from.old) (A.seen from.new) }
        ensures given { HasGiven (given_by self.now) result }
        ensures filters { length filters.new ≡ length filters.old }
    {
        let with = Given {
            tls: self.tls.is_some(),
            buffer: self.l4_buffer,
            callback: self.pre_tls_callback,
        };
        self.l4.accept_with(alloc, filters, from, with)
    }

    /// Does nothing.
    pub fn cleanup(&mut self)
        ensures { self.new ≡ self.old }
    {}

    /// Spends it. The endpoint's descriptor comes back where no table owns it.
    pub fn close(self) -> Option<Fd>
        ensures { result ≡ (if self.endpoint.owned then Some self.endpoint.fd else None) }
    {
        let TransportStack {
            l4,
            tls: _,
            l4_buffer: _,
            pre_tls_callback: _,
        } = self;
        l4.close()
    }
}
