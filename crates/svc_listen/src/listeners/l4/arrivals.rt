//! What becomes of a connection that came.

ghost use Rattle.std.specs.Prelude.{◌≡◌, ◌<◌, length, IfSome, Some};
ghost use Rattle.std.specs.Option.{option_to_list, option_map};
ghost use Rattle.svc_socket.specs.OptionLists.{settings_of};
ghost use Rattle.svc_listen.specs.Addresses.{options_of};
ghost use Rattle.svc_listen.specs.Accepts.{given, Sets, Judges, Accepts, fresh};

use super::ServerAddress;
use crate::accepting::{Accepting, Arrival};
use std::alloc::Global;
use svc_base::Bytes;
use svc_socket::{Setting, TcpSocketOptions};
use svc_streams::{
    ConnectionFilter, Filters, L4BufferSettings, L4Stream, Peer, UninitializedStream,
};

/// What one try to accept a connection gave.
#[derive(Drop)]
pub enum AcceptAnswer {
    /// A connection whose settings are set.
    Stream(UninitializedStream),
    /// The filter said no to the peer of this connection, which is refused.
    Refused(u64),
    /// No connection is there yet.
    NotYet,
    /// It failed with this error number.
    AcceptFailed(u32),
    /// A setting of this connection couldn't be set; it is refused.
    SettingsFailed(u64),
}

/// What an endpoint gives its connections.
#[derive(Clone, Copy)]
pub(crate) struct Given {
    /// Whether TLS is set.
    pub tls: bool,
    pub buffer: L4BufferSettings,
    /// The number of the callback before the TLS handshake, if there is one.
    pub callback: Option<u32>,
}

/// Whether the connection of a peer is taken. A peer that isn't known is, and so is each peer where
/// there is no filter.
fn judged<F: ConnectionFilter>(filters: &mut Filters<F>, filter: Option<u32>, peer: &Peer) -> bool
    requires { IfSome filter (λ number. number < length filters.old) }
    ensures { Judges F.verdict filter peer.now filters.old filters.new result }
{
    let Some(number) = filter else {
        return true;
    };
    match peer {
        Peer::Unknown => true,
        Peer::Unix => filters.ask(number, None),
        Peer::Inet(addr) => filters.ask(number, Some(addr)),
    }
}

fn keepalive_step(opt: &TcpSocketOptions) -> Option<Setting>
    ensures { result ≡ option_map Setting.KeepAlive opt.now.tcp_keepalive }
{
    opt.tcp_keepalive.map(Setting::KeepAlive)
}

fn dscp_step(opt: &TcpSocketOptions) -> Option<Setting>
    ensures { result ≡ option_map Setting.Dscp opt.now.dscp }
{
    opt.dscp.map(Setting::Dscp)
}

fn send_step(opt: &TcpSocketOptions) -> Option<Setting>
    ensures { result ≡ option_map Setting.SndBuf opt.now.tcp_snd_buf }
{
    opt.tcp_snd_buf.map(Setting::SndBuf)
}

fn receive_step(opt: &TcpSocketOptions) -> Option<Setting>
    ensures { result ≡ option_map Setting.RcvBuf opt.now.tcp_recv_buf }
{
    opt.tcp_recv_buf.map(Setting::RcvBuf)
}

/// The settings of connections with these options, each if it is given, in order.
fn with_options(opt: &TcpSocketOptions) -> [Option<Setting>; 5]
    ensures { given result ≡ settings_of (Some opt.now) }
{
    [
        Some(Setting::NoDelay),
        keepalive_step(opt),
        dscp_step(opt),
        send_step(opt),
        receive_step(opt),
    ]
}

/// The settings of an address's connections, each if it is given, in order.
fn settings_for(addr: &ServerAddress) -> [Option<Setting>; 5]
    ensures { given result ≡ settings_of (options_of addr.now) }
{
    match addr.tcp_sock_opts() {
        Some(opt) => with_options(&opt),
        None => [Some(Setting::NoDelay), None, None, None, None],
    }
}

/// Sets one option of a connection, if it is given.
fn set_step<A: Accepting>(from: &mut A, c: u64, step: Option<Setting>) -> bool
    ensures { Sets c (option_to_list step) (A.seen from.old) (A.seen from.new) result }
{
    match step {
        Some(setting) => from.set(c, &setting),
        None => true,
    }
}

/// Sets those that are given, in order up to the first failure.
fn set_given<A: Accepting>(from: &mut A, c: u64, steps: &[Option<Setting>]) -> bool
    ensures { Sets c (given steps.now) (A.seen from.old) (A.seen from.new) result }
{
    for step in steps {
        if !set_step(from, c, *step) {
            return false;
        }
    }
    true
}

/// Takes one arrival of an address.
pub(super) fn take_arrival<F: ConnectionFilter, A: Accepting>(
    alloc: Global,
    addr: &ServerAddress,
    filter: Option<u32>,
    filters: &mut Filters<F>,
    from: &mut A,
    with: Given,
) -> AcceptAnswer
    requires { IfSome filter (λ number. number < length filters.old) }
    ensures { Accepts A.seen F.verdict addr.now filter with from.old from.new filters.old filters.new result }
{
    match from.accept() {
        Arrival::NotYet => AcceptAnswer::NotYet,
        Arrival::Failed(number) => AcceptAnswer::AcceptFailed(number),
        Arrival::Came(c, peer) => {
            if !judged(filters, filter, &peer) {
                from.refuse(c);
                return AcceptAnswer::Refused(c);
            }
            if !set_given(from, c, &settings_for(addr)) {
                from.refuse(c);
                return AcceptAnswer::SettingsFailed(c);
            }
            AcceptAnswer::Stream(fresh(alloc, c, peer, with))
        }
    }
}

/// The connection before its handshake.
fn fresh(alloc: Global, c: u64, peer: Peer, with: Given) -> UninitializedStream
    ensures { result ≡ fresh c peer with }
{
    let stream = L4Stream {
        c,
        buffer: L4BufferSettings::default(),
        peer,
        head: Bytes::new(alloc),
    };
    UninitializedStream::new(stream, with.tls, with.buffer, with.callback)
}
