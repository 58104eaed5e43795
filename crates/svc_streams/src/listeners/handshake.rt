//! The handshake of an accepted connection.

ghost use Rattle.std.specs.Prelude.{◌≡◌, ◌<◌, length, IfSome, None, if◌then◌else◌};
ghost use Rattle.std.specs.Option.{option_map};
ghost use Rattle.svc_streams.specs.Handshakes.{waiting, stopped, shaken, is_done, answered, CallbackPolled};

use crate::listeners::pre_tls::{PreTlsCallbacks, PreTlsProcess};
use crate::listeners::tls::TlsHandshake;
use crate::protocols::l4::stream::{L4BufferSettings, L4Stream, Peer, StepPoll};
use std::marker::Model;

/// How many milliseconds a TLS handshake may take from its first poll on.
pub const HANDSHAKE_TIMEOUT_MS: u64 = 60000;

/// What a poll of a handshake answers.
#[derive(Clone, Copy, PartialEq, Eq, Debug)]
pub enum HandshakePoll {
    /// It is to be polled again.
    Pending,
    /// The connection can be used.
    Done,
    /// The stream has TLS, and there is no backend for it.
    NoTls,
    /// The callback failed.
    PreTls,
    /// The backend failed.
    Tls,
    /// 60,000 ms have passed since the first poll, and a part still answers `Pending`.
    TimedOut,
}

/// An accepted connection before its handshake is done.
#[derive(Drop)]
pub struct UninitializedStream {
    stream: L4Stream,
    tls: bool,
    buffer: L4BufferSettings,
    callback: Option<u32>,
    /// The moment of the first poll.
    first: Option<u64>,
    /// Whether the callback is done.
    past: bool,
    /// The last answer, `Pending` at first.
    answer: HandshakePoll,
}

impl Model for UninitializedStream {
    ghost use Rattle.svc_streams.specs.HandshakeData.{HandshakeData};

    ghost Value = { HandshakeData };

    ghost view = { λ s. record {
      stream = s.stream;
      tls = s.tls;
      buffer = s.buffer;
      callback = s.callback;
      first = s.first;
      past = s.past;
      answer = s.answer;
    } };
}

impl UninitializedStream {
    ghost use Rattle.std.specs.Prelude.{◌≡◌, ◌<◌, length, IfSome, Some, None, true, false};
    ghost use Rattle.svc_streams.specs.declared.listeners.handshake.HandshakePoll.TheVariants.{Pending};
    ghost use Rattle.svc_streams.specs.HandshakeCauses.{IsCaused};
    ghost use Rattle.svc_streams.specs.Handshakes.{IsShaken, Keeps, CallbackPart, Begins, BackendPart, Finishes, begun, passed_of, left_of};
    ghost use Rattle.std.specs.Option.{option_map};

    /// A connection that wasn't polled yet: whether TLS is set for it, the buffer that it gets, and
    /// the number of its callback, if it has one.
    pub fn new(stream: L4Stream, tls: bool, buffer: L4BufferSettings, callback: Option<u32>) -> Self
        ensures { result ≡ record {
          stream = stream;
          tls = tls;
          buffer = buffer;
          callback = callback;
          first = None;
          past = false;
          answer = Pending;
        } }
    {
        UninitializedStream {
            stream,
            tls,
            buffer,
            callback,
            first: None,
            past: false,
            answer: HandshakePoll::Pending,
        }
    }

    /// Who is at the other end.
    pub fn peer_addr(&self) -> &Peer
        ensures { result.now ≡ self.now.stream.peer }
    {
        &self.stream.peer
    }

    /// Goes on with the handshake at this moment, in milliseconds, which is at least that of the
    /// earlier polls. After an answer other than `Pending` each later poll gives the same one.
    pub fn poll_handshake<T: TlsHandshake, P: PreTlsProcess>(
        &mut self,
        moment: u64,
        callbacks: &mut PreTlsCallbacks<P>,
        tls: Option<&mut T>,
    ) -> HandshakePoll
        requires { IfSome self.old.callback (λ number. number < length callbacks.old) }
        ensures shaken { IsShaken P.may_poll T.may_shake self.old self.new moment
            callbacks.old callbacks.new (option_map (λ t. t.now) tls.entry) (left_of tls.exit) result }
        ensures cause { IsCaused self.old moment (option_map (λ t. t.now) tls.entry) result }
        ensures kept { Keeps self.old self.new }
        ensures count { length callbacks.new ≡ length callbacks.old }
    {
        let early = self.begin(moment, callbacks);
        match tls {
            Some(backend) => self.finish(early, moment, backend),
            None => match early {
                Some(answer) => answer,
                None => self.keep(HandshakePoll::NoTls),
            },
        }
    }

    /// The callback's part of a poll. Answers None where the backend is to be polled.
    fn begin<P: PreTlsProcess>(
        &mut self,
        moment: u64,
        callbacks: &mut PreTlsCallbacks<P>,
    ) -> Option<HandshakePoll>
        requires { IfSome self.old.callback (λ number. number < length callbacks.old) }
        ensures part { CallbackPart P.may_poll self.old self.new moment
            callbacks.old callbacks.new result }
        ensures kept { Keeps self.old self.new }
        ensures count { length callbacks.new ≡ length callbacks.old }
    {
        if let Some(answer) = answered(self.answer) {
            return Some(answer);
        }
        self.note(moment);
        if self.tls {
            self.poll_due(self.passed(moment), callbacks)
        } else {
            Some(self.keep(HandshakePoll::Done))
        }
    }

    /// Sets the buffer and notes the moment at the first poll.
    fn note(&mut self, moment: u64)
        ensures { self.new ≡ begun self.old moment }
    {
        if self.first.is_none() {
            self.stream.buffer = self.buffer;
            self.first = Some(moment);
        }
    }

    /// How many milliseconds have passed since the first poll.
    fn passed(&self, moment: u64) -> u64
        ensures { result ≡ passed_of self.now moment }
    {
        moment.saturating_sub(self.first.unwrap_or(moment))
    }

    /// Polls the callback that is due.
    fn poll_due<P: PreTlsProcess>(
        &mut self,
        passed: u64,
        callbacks: &mut PreTlsCallbacks<P>,
    ) -> Option<HandshakePoll>
        requires { IfSome self.old.callback (λ number. number < length callbacks.old) }
        ensures part { Begins P.may_poll true self.old self.new passed
            callbacks.old callbacks.new result }
        ensures kept { Keeps self.old self.new }
        ensures count { length callbacks.new ≡ length callbacks.old }
    {
        let callback = due(self.past, self.callback);
        let said = poll_callback(callback, callbacks, &mut self.stream);
        self.past = is_done(said);
        let early = stopped(passed, said);
        self.answer = early.unwrap_or(HandshakePoll::Pending);
        early
    }

    /// The rest of a poll: the backend is polled, unless an answer has come.
    fn finish<T: TlsHandshake>(
        &mut self,
        early: Option<HandshakePoll>,
        moment: u64,
        backend: &mut T,
    ) -> HandshakePoll
        ensures part { Finishes T.may_shake self.old self.new (passed_of self.old moment)
            (Some backend.old) (Some backend.new) early result }
        ensures kept { Keeps self.old self.new }
    {
        match early {
            Some(answer) => answer,
            None => self.poll_backend(moment, backend),
        }
    }

    /// Polls the backend.
    fn poll_backend<T: TlsHandshake>(&mut self, moment: u64, backend: &mut T) -> HandshakePoll
        ensures part { BackendPart T.may_shake self.old self.new (passed_of self.old moment)
            (Some backend.old) (Some backend.new) result }
        ensures kept { Keeps self.old self.new }
    {
        let passed = self.passed(moment);
        let said = backend.poll_handshake(&mut self.stream);
        self.keep(shaken(passed, said))
    }

    /// Keeps the answer, and gives it back.
    fn keep(&mut self, answer: HandshakePoll) -> HandshakePoll
        ensures kept { self.new ≡ record self.old { answer = answer } }
        ensures same { result ≡ answer }
    {
        self.answer = answer;
        answer
    }

    /// The connection.
    pub fn into_stream(self) -> L4Stream
        ensures { result ≡ self.stream }
    {
        self.stream
    }
}

/// What is answered where a part isn't done yet, so many milliseconds after the first poll.
fn waiting(passed: u64) -> HandshakePoll
    ensures { result ≡ waiting passed }
{
    if passed >= HANDSHAKE_TIMEOUT_MS {
        HandshakePoll::TimedOut
    } else {
        HandshakePoll::Pending
    }
}

/// The answer that the callback's decides, if it does.
fn stopped(passed: u64, said: StepPoll) -> Option<HandshakePoll>
    ensures { result ≡ stopped passed said }
{
    match said {
        StepPoll::Pending => Some(waiting(passed)),
        StepPoll::Done => None,
        StepPoll::Failed => Some(HandshakePoll::PreTls),
    }
}

/// The answer that the backend's decides.
fn shaken(passed: u64, said: StepPoll) -> HandshakePoll
    ensures { result ≡ shaken passed said }
{
    match said {
        StepPoll::Pending => waiting(passed),
        StepPoll::Done => HandshakePoll::Done,
        StepPoll::Failed => HandshakePoll::Tls,
    }
}

fn is_done(said: StepPoll) -> bool
    ensures { result ≡ is_done said }
{
    match said {
        StepPoll::Done => true,
        StepPoll::Pending | StepPoll::Failed => false,
    }
}

/// The answer of the earlier polls, where it isn't `Pending`.
fn answered(answer: HandshakePoll) -> Option<HandshakePoll>
    ensures { result ≡ answered answer }
{
    match answer {
        HandshakePoll::Pending => None,
        _ => Some(answer),
    }
}

/// The callback that is still to be polled.
fn due(past: bool, callback: Option<u32>) -> Option<u32>
    ensures { result ≡ (if past then None else callback) }
{
    if past { None } else { callback }
}

/// Polls the callback that is due; where none is, it counts as done.
fn poll_callback<P: PreTlsProcess>(
    callback: Option<u32>,
    callbacks: &mut PreTlsCallbacks<P>,
    stream: &mut L4Stream,
) -> StepPoll
    requires { IfSome callback (λ number. number < length callbacks.old) }
    ensures polled { CallbackPolled P.may_poll callback callbacks.old callbacks.new
        (record { before = stream.old; answer = result; after = stream.new }) }
    ensures count { length callbacks.new ≡ length callbacks.old }
{
    match callback {
        Some(number) => callbacks.poll(number, stream),
        None => StepPoll::Done,
    }
}
