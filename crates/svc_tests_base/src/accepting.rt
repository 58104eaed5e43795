//! Endpoints accept.

ghost use Rattle.std.specs.Prelude.{◌≡◌, ◌<◌, Bool, [], ◌∷◌, not, length, IfSome, None};
ghost use Rattle.svc_tests_base.specs.Polling.{MayBePolled};

use crate::checking::{holds, same};
use crate::endpoints::{KEEPALIVE, OPTIONS, tcp, text};
use std::alloc::Global;
use std::process::Abort;
use svc_base::Setting;
use svc_listen::{
    AcceptAllFilter, AcceptAnswer, Accepting, AcceptingCall, Arrival, ConnectionFilter, Filters,
    HandshakePoll, L4BufferSettings, L4Stream, ListenerEndpoint, MemoryAccepting, Peer, PeerAddr,
    PreTlsCallbacks, PreTlsProcess, ServerAddress, SteadyAccepting, SteadyBinder, StepPoll,
    TlsHandshake, TransportStack,
};
use svc_socket::protocols::tls::noop_tls::listeners::TlsSettings;

/// A filter that says yes at each odd ask.
#[derive(Drop)]
struct EveryOther {
    yes: bool,
}

impl ConnectionFilter for EveryOther {
    ghost verdict = { λ f asked _. (elim asked as (λ _. Bool → Bool) [
      | [] ↦ λ yes. yes
      | _ ∷ (rest → later) ↦ λ yes. later (not yes)
    ]) f.yes };

    fn should_accept(&mut self, _peer: Option<&PeerAddr>) -> bool {
        let yes = self.yes;
        self.yes = !yes;
        yes
    }
}

const LOCAL: Peer = Peer::Inet(PeerAddr::V4 {
    ip: 0x7f00_0001,
    port: 8080,
});

/// The settings of connections with the options.
const SETTINGS: [Setting; 5] = [
    Setting::NoDelay,
    Setting::KeepAlive(KEEPALIVE),
    Setting::Dscp(10),
    Setting::SndBuf(4096),
    Setting::RcvBuf(8192),
];

/// An endpoint that listens, with this filter.
fn endpoint<R: Abort + AllocGlobal>(
    rt: &R,
    addr: ServerAddress,
    filter: Option<u32>,
) -> ListenerEndpoint
    ensures { result.filter ≡ filter }
{
    let mut builder = ListenerEndpoint::builder();
    builder.listen_addr(addr);
    if let Some(number) = filter {
        builder.connection_filter(number);
    }
    let mut binder = SteadyBinder::new(rt.alloc(), 0, 7).expect(rt, "a binder");
    match builder.listen(rt.alloc(), None, &mut binder) {
        Ok(endpoint) => endpoint,
        Err(_) => panic!(rt; "no endpoint"),
    }
}

fn closed(endpoint: ListenerEndpoint) -> Option<u64> {
    endpoint.close().map(|fd| fd.close())
}

fn accepting<R: Abort + AllocGlobal>(
    rt: &R,
    arrivals: &[Arrival],
    failing: &[u64],
) -> MemoryAccepting {
    let arrivals = arrivals.to_vec(rt.alloc()).expect(rt, "arrivals");
    let failing = failing.to_vec(rt.alloc()).expect(rt, "numbers");
    MemoryAccepting::new(rt.alloc(), 100, arrivals, failing).expect(rt, "an object")
}

/// What an answer says.
#[derive(Clone, Copy, PartialEq, Eq, Debug)]
enum Said {
    Stream,
    Refused(u64),
    NotYet,
    AcceptFailed(u32),
    SettingsFailed(u64),
}

fn said_by(answer: &AcceptAnswer) -> Said {
    match answer {
        AcceptAnswer::Stream(_) => Said::Stream,
        AcceptAnswer::Refused(c) => Said::Refused(*c),
        AcceptAnswer::NotYet => Said::NotYet,
        AcceptAnswer::AcceptFailed(n) => Said::AcceptFailed(*n),
        AcceptAnswer::SettingsFailed(c) => Said::SettingsFailed(*c),
    }
}

/// What an endpoint with the only filter says to the next arrival.
fn judged(
    alloc: Global,
    endpoint: &ListenerEndpoint,
    filters: &mut Filters<EveryOther>,
    from: &mut MemoryAccepting,
) -> Said
    requires { IfSome endpoint.now.filter (λ number. number < length filters.old) }
    ensures { length filters.new ≡ length filters.old }
{
    said_by(&endpoint.accept(alloc, filters, from))
}

#[test]
fn a_filter_judges_each_known_peer(rt: HostRuntime) {
    let rt = &rt;
    let mut filters: Filters<EveryOther> = Filters::new(rt.alloc());
    holds(
        rt,
        filters.add(rt.alloc(), EveryOther { yes: true }).is_ok(),
    );
    let endpoint = endpoint(rt, tcp(rt, "X"), Some(0));
    let arrivals = [
        Arrival::Came(1, LOCAL),
        Arrival::Came(2, Peer::Unix),
        Arrival::Came(3, Peer::Unknown),
        Arrival::Came(4, LOCAL),
        Arrival::Failed(11),
    ];
    let mut from = accepting(rt, &arrivals, &[]);
    for expected in [
        Said::Stream,
        Said::Refused(2),
        Said::Stream,
        Said::Stream,
        Said::AcceptFailed(11),
        Said::NotYet,
    ] {
        if filters.len() == 1 {
            let said = judged(rt.alloc(), &endpoint, &mut filters, &mut from);
            same(rt, said, expected);
        }
    }
    same(rt, closed(endpoint), Some(7));
    same(rt, (from.faults(), from.waits()), (1, 1));
}

/// What an endpoint without a filter says to the next arrival.
fn unjudged(alloc: Global, endpoint: &ListenerEndpoint, from: &mut MemoryAccepting) -> Said
    requires { endpoint.now.filter ≡ None }
{
    let mut filters: Filters<AcceptAllFilter> = Filters::new(alloc);
    said_by(&endpoint.accept(alloc, &mut filters, from))
}

/// The call with this number.
fn call_at(from: &MemoryAccepting, at: usize) -> Option<AcceptingCall> {
    from.calls.told()?.get(at).copied()
}

#[test]
fn settings_are_set_up_to_the_first_failure(rt: HostRuntime) {
    let rt = &rt;
    let address = ServerAddress::Tcp(text(rt, "X"), Some(OPTIONS));
    let endpoint = endpoint(rt, address, None);
    let arrivals = [Arrival::Came(1, LOCAL), Arrival::Came(2, LOCAL)];
    let mut from = accepting(rt, &arrivals, &[9]);
    let first = unjudged(rt.alloc(), &endpoint, &mut from);
    same(rt, first, Said::Stream);
    let second = unjudged(rt.alloc(), &endpoint, &mut from);
    same(rt, second, Said::SettingsFailed(2));
    same(rt, closed(endpoint), Some(7));
    for (setting, at) in SETTINGS.iter().zip(1usize..6) {
        let set = AcceptingCall::Set(1, *setting, true);
        same(rt, call_at(&from, at), Some(set));
    }
    let failed = AcceptingCall::Set(2, Setting::Dscp(10), false);
    for (at, call) in [
        (9, Some(failed)),
        (10, Some(AcceptingCall::Refuse(2))),
        (11, None),
    ] {
        same(rt, call_at(&from, at), call);
    }
}

/// A backend that no stream has.
struct NoBackend;

impl TlsHandshake for NoBackend {
    ghost may_shake = { λ _ _. Unit {0} };

    fn poll_handshake(&mut self, _stream: &mut L4Stream) -> StepPoll {
        StepPoll::Done
    }
}

/// A callback that is done at once.
#[derive(Drop)]
struct AtOnce;

impl PreTlsProcess for AtOnce {
    ghost may_poll = { λ _ _. Unit {0} };

    fn poll_process(&mut self, _stream: &mut L4Stream) -> StepPoll {
        StepPoll::Done
    }
}

/// The first poll of the handshake of what was accepted, without a backend.
fn first_poll(
    answer: AcceptAnswer,
    callbacks: &mut PreTlsCallbacks<AtOnce>,
) -> Option<HandshakePoll>
    requires { MayBePolled answer (length callbacks.old) }
{
    let AcceptAnswer::Stream(mut stream) = answer else {
        return None;
    };
    let none: Option<&mut NoBackend> = None;
    Some(stream.poll_handshake(0, callbacks, none))
}

/// The first poll of the handshake of an endpoint's next connection.
fn accepted(
    alloc: Global,
    endpoint: &ListenerEndpoint,
    from: &mut SteadyAccepting,
) -> Option<HandshakePoll>
    requires { endpoint.now.filter ≡ None }
{
    let mut filters: Filters<AcceptAllFilter> = Filters::new(alloc);
    let mut callbacks: PreTlsCallbacks<AtOnce> = PreTlsCallbacks::new(alloc);
    first_poll(endpoint.accept(alloc, &mut filters, from), &mut callbacks)
}

#[test]
fn an_endpoint_accepts_plain_streams(rt: HostRuntime) {
    let rt = &rt;
    let coming = [(1, Peer::Unix)].to_vec(rt.alloc()).expect(rt, "arrivals");
    let mut from = SteadyAccepting::new(rt.alloc(), 9, coming).expect(rt, "an object");
    let unix = endpoint(rt, ServerAddress::Uds(text(rt, "/tmp/u"), None), None);
    same(rt, unix.as_str(), "/tmp/u");
    let poll = accepted(rt.alloc(), &unix, &mut from);
    same(rt, poll, Some(HandshakePoll::Done));
    same(rt, accepted(rt.alloc(), &unix, &mut from), None);
    from.refuse(9);
    same(rt, (from.faults(), from.waits()), (0, 1));
    let calls = from.calls.told().expect(rt, "calls");
    same(rt, calls.len(), 4);
    same(rt, closed(unix), Some(7));
}

/// The first poll of the handshake of a stack's next connection.
fn stacked(
    alloc: Global,
    stack: &TransportStack,
    from: &mut MemoryAccepting,
) -> Option<HandshakePoll>
    requires filter { stack.now.endpoint.filter ≡ None }
    requires callback { stack.now.callback ≡ None }
{
    let mut filters: Filters<AcceptAllFilter> = Filters::new(alloc);
    let mut callbacks: PreTlsCallbacks<AtOnce> = PreTlsCallbacks::new(alloc);
    first_poll(stack.accept(alloc, &mut filters, from), &mut callbacks)
}

#[test]
fn a_stack_gives_its_streams_tls(rt: HostRuntime) {
    let rt = &rt;
    let mut from = accepting(rt, &[Arrival::Came(1, LOCAL)], &[]);
    let endpoint = endpoint(rt, tcp(rt, "X"), None);
    let settings = TlsSettings::intermediate("cert", "key");
    let buffer = L4BufferSettings::unbuffered();
    let mut stack = TransportStack::new(endpoint, Some(settings), buffer, None);
    same(rt, stack.as_str(), "X");
    stack.cleanup();
    let poll = stacked(rt.alloc(), &stack, &mut from);
    same(rt, poll, Some(HandshakePoll::NoTls));
    same(rt, stack.close().map(|fd| fd.close()), Some(7));
}
