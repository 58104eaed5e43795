//! Filters, the handshake and the application of one connection.

ghost use Rattle.std.specs.Prelude.{◌≡◌, Bool, [], ◌∷◌, not, length, Some};

use crate::checking::{holds, same};
use std::process::Abort;
use svc_base::Bytes;
use svc_socket::PeerAddr;
use svc_streams::{
    AcceptAllFilter, ConnectionFilter, Filters, Handled, HandshakePoll, L4BufferSettings, L4Stream,
    Peer, PreTlsCallbacks, PreTlsProcess, ServerApp, StepPoll, TlsHandshake, UninitializedStream,
    handle_event,
};

/// A filter that answers yes and no in turn.
#[derive(Drop)]
struct EveryOther {
    yes: bool,
}

impl ConnectionFilter for EveryOther {
    ghost verdict = { λ f asked _. (elim asked as (λ _. Bool → Bool) [
      | [] ↦ λ yes. yes
      | _ ∷ (rest → later) ↦ λ yes. later (not yes)
    ]) f.yes };

    fn should_accept(&mut self, _peer: Option<&PeerAddr>) -> bool {
        let yes = self.yes;
        self.yes = !yes;
        yes
    }
}

const LOCAL: PeerAddr = PeerAddr::V4 {
    ip: 0x7f00_0001,
    port: 8080,
};

#[test]
fn filters_have_numbers(rt: HostRuntime) {
    let rt = &rt;
    let alloc = rt.alloc();
    let mut filters: Filters = Filters::new(alloc);
    let every_other = Box::new(alloc, EveryOther { yes: true })
        .ok()
        .expect(rt, "a box");
    same(rt, filters.add(alloc, every_other).ok(), Some(0));
    let all = Box::new(alloc, AcceptAllFilter).ok().expect(rt, "a box");
    same(rt, filters.add(alloc, all).ok(), Some(1));
    for (filter, verdict) in [(0, true), (0, false), (1, true), (0, true), (1, true)] {
        holds(rt, (filter as u64) < filters.len());
        same(rt, filters.ask(filter, Some(&LOCAL)), verdict);
    }
}

#[test]
fn buffers_have_capacities(rt: HostRuntime) {
    let rt = &rt;
    let (read, write) = (Some(0), None);
    for (settings, read, write) in [
        (L4BufferSettings::default(), 65536, 1460),
        (L4BufferSettings { read, write }, 0, 1460),
        (L4BufferSettings::unbuffered(), 0, 0),
    ] {
        same(rt, settings.read_capacity(), read);
        same(rt, settings.write_capacity(), write);
    }
}

/// A step that is pending so often, and then answers the last. Each poll adds to the stream's number.
#[derive(Drop)]
struct Steps {
    pending: u64,
    last: StepPoll,
    adds: u64,
}

impl Steps {
    fn poll(&mut self, stream: &mut L4Stream) -> StepPoll {
        stream.c = stream.c.saturating_add(self.adds);
        if self.pending == 0 {
            return self.last;
        }
        self.pending -= 1;
        StepPoll::Pending
    }
}

impl PreTlsProcess for Steps {
    ghost may_poll = { λ _ _. Unit {0} };

    fn poll_process(&mut self, stream: &mut L4Stream) -> StepPoll {
        self.poll(stream)
    }
}

impl TlsHandshake for Steps {
    ghost may_shake = { λ _ _. Unit {0} };

    fn poll_handshake(&mut self, stream: &mut L4Stream) -> StepPoll {
        self.poll(stream)
    }
}

/// A new connection, with the callback 0.
fn arrived<R: Abort + AllocGlobal>(rt: &R, tls: bool) -> UninitializedStream
    ensures { result.callback ≡ Some 0 }
{
    let stream = L4Stream {
        c: 0,
        buffer: L4BufferSettings::default(),
        peer: Peer::Inet(LOCAL),
        head: Bytes::new(rt.alloc()),
    };
    UninitializedStream::new(stream, tls, L4BufferSettings::unbuffered(), Some(0))
}

/// The callback 0 alone.
fn only<R: Abort + AllocGlobal>(rt: &R, callback: Steps) -> PreTlsCallbacks<Steps>
    ensures { length result ≡ 1 }
{
    let mut callbacks = PreTlsCallbacks::new(rt.alloc());
    match callbacks.add(rt.alloc(), callback) {
        Ok(_) => callbacks,
        Err(_) => panic!(rt; "no memory"),
    }
}

/// Polls a handshake at the moment 0 and at another, and answers the last poll and the stream's number.
fn polled<R: Abort + AllocGlobal>(
    rt: &R,
    tls: bool,
    callback: Steps,
    mut backend: Option<Steps>,
    moment: u64,
) -> (HandshakePoll, u64) {
    let mut callbacks = only(rt, callback);
    let mut stream = arrived(rt, tls);
    assert_eq!(rt; *stream.peer_addr(), Peer::Inet(LOCAL));
    let _ = stream.poll_handshake(0, &mut callbacks, backend.as_mut());
    let last = stream.poll_handshake(moment, &mut callbacks, backend.as_mut());
    (last, stream.into_stream().c)
}

/// A callback that adds 1 at each poll.
fn callback(pending: u64, last: StepPoll) -> Steps {
    let adds = 1;
    Steps {
        pending,
        last,
        adds,
    }
}

/// A backend that adds 100 at each poll.
fn backend(pending: u64, last: StepPoll) -> Option<Steps> {
    let adds = 100;
    Some(Steps {
        pending,
        last,
        adds,
    })
}

#[test]
fn a_handshake_ends_after_a_minute(rt: HostRuntime) {
    let rt = &rt;
    let done = StepPoll::Done;
    for (callbacks, backends, moment, answer, number) in [
        (9, 0, 59_999, HandshakePoll::Pending, 2),
        (9, 0, 60_000, HandshakePoll::TimedOut, 2),
        (0, 9, 60_000, HandshakePoll::TimedOut, 201),
        (1, 0, 60_000, HandshakePoll::Done, 102),
    ] {
        let got = polled(
            rt,
            true,
            callback(callbacks, done),
            backend(backends, done),
            moment,
        );
        same(rt, got, (answer, number));
    }
}

#[test]
fn a_handshake_is_done_or_refused(rt: HostRuntime) {
    let rt = &rt;
    let (done, failed) = (StepPoll::Done, StepPoll::Failed);
    for (last, backend, answer) in [
        (done, backend(0, failed), HandshakePoll::Tls),
        (failed, backend(0, done), HandshakePoll::PreTls),
        (done, None, HandshakePoll::NoTls),
    ] {
        let (got, _) = polled(rt, true, callback(1, last), backend, 60_000);
        same(rt, got, answer);
    }
    let got = polled(rt, false, callback(1, done), backend(0, done), 7);
    same(rt, got, (HandshakePoll::Done, 0));
}

#[test]
fn callbacks_may_be_boxes(rt: HostRuntime) {
    let rt = &rt;
    let alloc = rt.alloc();
    let mut callbacks: PreTlsCallbacks = PreTlsCallbacks::new(alloc);
    for number in [0, 1] {
        let boxed = Box::new(alloc, callback(0, StepPoll::Done))
            .ok()
            .expect(rt, "a box");
        same(rt, callbacks.add(alloc, boxed).ok(), Some(number));
    }
    if callbacks.len() == 2 {
        let mut stream = arrived(rt, true);
        let mut tls = callback(0, StepPoll::Done);
        let answer = stream.poll_handshake(0, &mut callbacks, Some(&mut tls));
        same(rt, answer, HandshakePoll::Done);
        same(rt, stream.into_stream().c, 2);
    }
}

/// An application that gives its stream back so often.
#[derive(Drop)]
struct Rounds {
    left: u64,
    ended: bool,
}

impl ServerApp<u64> for Rounds {
    ghost may_come = { λ _ _. Unit {0} };

    fn process_new(&mut self, event: u64, _shutdown: bool) -> Option<u64> {
        if self.left == 0 {
            return None;
        }
        self.left -= 1;
        Some(event)
    }

    fn cleanup(&mut self) {
        self.ended = true;
    }
}

#[test]
fn an_application_is_called_while_it_gives_back(rt: HostRuntime) {
    let rt = &rt;
    for (turns, left) in [(3, None), (2, Some(7)), (1, Some(7))] {
        let mut app = Rounds {
            left: 2,
            ended: false,
        };
        match handle_event(&mut app, 7, false, turns) {
            Handled::Done => same(rt, left, None),
            Handled::TurnsSpent(stream) => same(rt, left, Some(stream)),
        }
        app.cleanup();
        holds(rt, app.ended);
    }
}
