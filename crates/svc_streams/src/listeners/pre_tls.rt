//! Callbacks, which see a connection before its TLS handshake.

ghost use Rattle.std.specs.Prelude.{◌≡◌, List, [], ◌∷◌, ◌++◌, length, IfOk, IfErr, OnOk, OnErr};
ghost use Rattle.svc_streams.specs.StreamPolls.{StreamPoll, IsPolled};

use crate::protocols::l4::stream::{L4Stream, StepPoll};
use std::alloc::Global;
use std::marker::Model;
use svc_base::NoMemory;

/// What is done with a connection before its TLS handshake.
pub trait PreTlsProcess: Drop {
    // Which polls may come, one after another, with what they answer and what they leave.
    ghost may_poll: { Self → List StreamPoll → Type 0 };

    /// Goes on with the connection, and is polled again while the answer is `Pending`.
    fn poll_process(&mut self, stream: &mut L4Stream) -> StepPoll
        ensures { IsPolled may_poll self.old self.new
            (record { before = stream.old; answer = result; after = stream.new }) };
}

/// Each call goes to the callback in the box.
impl PreTlsProcess for Box<dyn PreTlsProcess> {
    ghost may_poll = { λ b. (PreTlsProcess-box b).may_poll b.value };

    fn poll_process(&mut self, stream: &mut L4Stream) -> StepPoll {
        (**self).poll_process(stream)
    }
}

/// The callbacks of a server. A callback is named by its number, from 0. Contracts see them as the
/// list of the callbacks.
#[derive(Drop)]
pub struct PreTlsCallbacks<P = Box<dyn PreTlsProcess>> {
    callbacks: Vec<P>,
}

impl<P> Model for PreTlsCallbacks<P> {
    ghost use Rattle.std.specs.Prelude.{List};

    ghost Value = { List P };

    ghost view = { λ s. s.callbacks.items };
}

/// A callback that isn't added comes back. There was no memory for it, or all numbers are given.
#[derive(Drop)]
pub struct CallbackRefused<P = Box<dyn PreTlsProcess>> {
    pub reason: NoMemory,
    pub callback: P,
}

impl<P: PreTlsProcess> PreTlsCallbacks<P> {
    ghost use Rattle.std.specs.Prelude.{◌<◌};
    ghost use Rattle.svc_streams.specs.StreamPolls.{IsPolledAt};

    /// No callbacks.
    pub fn new(alloc: Global) -> Self
        ensures { result ≡ [] }
    {
        PreTlsCallbacks {
            callbacks: Vec::new(alloc),
        }
    }

    /// How many callbacks there are.
    pub fn len(&self) -> u64
        ensures { result ≡ length self.now }
    {
        self.callbacks.len() as u64
    }

    /// Adds a callback, and answers its number.
    pub fn add(&mut self, _alloc: Global, callback: P) -> Result<u32, CallbackRefused<P>>
        ensures number { IfOk result (λ number. number ≡ length self.old) }
        ensures added { OnOk result (self.new ≡ self.old ++ callback ∷ []) }
        ensures refused { OnErr result (self.new ≡ self.old) }
        ensures back { IfErr result (λ r. r.callback ≡ callback) }
    {
        let count = self.callbacks.len();
        if count > u32::MAX as usize || self.callbacks.reserve(1).is_err() {
            return Err(CallbackRefused {
                reason: NoMemory,
                callback,
            });
        }
        self.callbacks.push_reserved(callback);
        Ok(count as u32)
    }

    /// Polls the callback with this number. The others aren't polled.
    pub(crate) fn poll(&mut self, number: u32, stream: &mut L4Stream) -> StepPoll
        requires { number < length self.old }
        ensures polled { IsPolledAt P.may_poll number self.old self.new
            (record { before = stream.old; answer = result; after = stream.new }) }
        ensures count { length self.new ≡ length self.old }
    {
        self.callbacks[number as usize].poll_process(stream)
    }
}
