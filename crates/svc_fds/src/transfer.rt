//! A message goes through a channel.

ghost use Rattle.std.specs.Prelude.{◌≡◌, ◌<◌, ◌≤◌, ◌∷◌, ℕ, List, IfOk, IfErr, IfSome, IfNone, IsErrOf, OnOk, Ok, Err, length, unwrap_or, vec_len};
ghost use Rattle.svc_fds.specs.Retries.{IsAfterReceives, receive_next};
ghost use Rattle.svc_base.specs.Streams.{Rose};
ghost use Rattle.svc_base.specs.Calls.{Adds, Stays};
ghost use Rattle.svc_fds.specs.Channels.{SendFaults};
ghost use Rattle.svc_fds.specs.Transfers.{rested, send_calls, Answers, IsEnd, SendsBy, SendEnds, Receives, ReceivesNot, closes};

use crate::call::ReceiveAnswer;
use crate::channel::Channel;
use crate::encoding::{FD_LIMIT, MESSAGE_LIMIT};
use crate::errors::{ReceiveError, SendError};
use crate::fd::Fd;
use crate::retry::{ReceiveKind, ReceiveNext, ReceiveRetry, SendAnswer, SendNext, SendRetry};
use std::alloc::Global;
use svc_base::Bytes;

/// How many missing peers are borne where nothing is said of it.
pub const MAX_RETRY: u64 = 5;

/// Rests, where there is something to rest.
fn rest<C: Channel>(channel: &mut C, ms: u64)
    ensures told { Adds (C.calls channel.old) (C.calls channel.new) (rested ms) }
    ensures stays { Stays (C.calls channel.old) (C.calls channel.new) (C.room channel.old) (C.room channel.new) }
    ensures cause { C.faulted channel.new ≡ C.faulted channel.old }
{
    if ms > 0 {
        channel.rest(ms);
    }
}

/// Makes the next try, if there is one.
fn ask<C: Channel>(channel: &mut C, next: SendNext, bytes: &[u8], fds: &[u64]) -> Option<SendAnswer>
    requires { length fds.now ≤ 32 }
    ensures told { IfSome result (λ answer.
        Adds (C.calls channel.old) (C.calls channel.new)
        (send_calls bytes.now fds.now next answer)) }
    ensures stays { Stays (C.calls channel.old) (C.calls channel.new) (C.room channel.old) (C.room channel.new) }
    ensures fits { IfSome result (λ answer. Answers next answer) }
    ensures cause { IfSome result
        (λ answer. SendFaults answer (C.faulted channel.old) (C.faulted channel.new)) }
    ensures ended { IfNone result (IsEnd next) }
    ensures unasked { IfNone result (channel.new ≡ channel.old) }
{
    match next {
        SendNext::Connect(ms) => {
            rest(channel, ms);
            Some(channel.connect())
        }
        SendNext::Send(ms) => {
            rest(channel, ms);
            Some(channel.send(bytes, fds))
        }
        SendNext::Done | SendNext::Refused(_) => None,
    }
}

/// What a sender answers at its end.
fn ended(next: SendNext, sent: u64) -> Result<u64, SendError>
    requires { IsEnd next }
    ensures ended { SendEnds next result }
    ensures sent { IfOk result (λ n. n ≡ sent) }
{
    match next {
        SendNext::Refused(error) => Err(error),
        SendNext::Connect(_) | SendNext::Send(_) => unreachable!(),
        SendNext::Done => Ok(sent),
    }
}

/// Sends a message that isn't too long and has few descriptors.
fn send_all<C: Channel>(
    channel: &mut C,
    limit: u64,
    bytes: &[u8],
    fds: &[u64],
) -> Result<u64, SendError>
    requires { length fds.now ≤ 32 }
    ensures asked { SendsBy limit bytes.now fds.now
        (C.calls channel.old) (C.calls channel.new) result }
    ensures stays { Stays (C.calls channel.old) (C.calls channel.new) (C.room channel.old) (C.room channel.new) }
    ensures sent { IfOk result (λ n. n ≡ length bytes.now) }
    ensures fault { IsErrOf result SendError.Transfer
        → Rose (C.faulted channel.old) (C.faulted channel.new) }
{
    let mut retry = SendRetry::new(limit);
    let mut next = SendNext::Connect(0);
    while let Some(answer) = ask(channel, next, bytes, fds) {
        next = retry.step(answer);
    }
    ended(next, bytes.len() as u64)
}

/// Sends a message through a channel, and answers how many bytes were sent. Without `max_retry` five
/// missing receivers are borne. It is refused as `TooLong` or `TooMany` before any call of the channel.
pub fn send_fds_to<C: Channel>(
    fds: &[u64],
    payload: &[u8],
    channel: &mut C,
    max_retry: Option<u64>,
) -> Result<u64, SendError>
    ensures too_long { MESSAGE_LIMIT < length payload.now
        → (result ≡ Err SendError.TooLong) × (channel.new ≡ channel.old) }
    ensures too_many { length payload.now ≤ MESSAGE_LIMIT → FD_LIMIT < length fds.now
        → (result ≡ Err SendError.TooMany) × (channel.new ≡ channel.old) }
    ensures asked { length payload.now ≤ MESSAGE_LIMIT → length fds.now ≤ FD_LIMIT
        → SendsBy (unwrap_or max_retry MAX_RETRY) payload.now fds.now
        (C.calls channel.old) (C.calls channel.new) result }
    ensures stays { Stays (C.calls channel.old) (C.calls channel.new) (C.room channel.old) (C.room channel.new) }
    ensures sent { IfOk result (λ n. n ≡ length payload.now) }
    ensures fault { IsErrOf result SendError.Transfer
        → Rose (C.faulted channel.old) (C.faulted channel.new) }
{
    if payload.len() > MESSAGE_LIMIT {
        return Err(SendError::TooLong);
    }
    if fds.len() > FD_LIMIT {
        return Err(SendError::TooMany);
    }
    send_all(channel, max_retry.unwrap_or(MAX_RETRY), payload, fds)
}

/// Takes it that nobody sent yet, and answers the rest before the next try.
fn wait(retry: &mut ReceiveRetry) -> Result<u64, ReceiveError>
    ensures again { (limit : ℕ) (earlier : List _) → IsAfterReceives limit earlier retry.old
        → IfOk result (λ ms. receive_next limit earlier ReceiveKind.NotYet
        ≡ ReceiveNext.Receive ms) }
    ensures refused { (limit : ℕ) (earlier : List _) → IsAfterReceives limit earlier retry.old
        → IfErr result (λ error. receive_next limit earlier ReceiveKind.NotYet
        ≡ ReceiveNext.Refused error) }
    ensures after { (limit : ℕ) (earlier : List _) → IsAfterReceives limit earlier retry.old
        → IsAfterReceives limit (ReceiveKind.NotYet ∷ earlier) retry.new }
    ensures falls { OnOk result (retry.new < retry.old) }
{
    match retry.step(ReceiveKind::NotYet) {
        ReceiveNext::Receive(ms) => Ok(ms),
        ReceiveNext::Refused(error) => Err(error),
        ReceiveNext::Done => unreachable!(),
    }
}

/// Receives a message through a channel: its descriptors and its bytes. Without `max_retry` five
/// missing senders are borne.
pub fn get_fds_from<C: Channel>(
    alloc: Global,
    channel: &mut C,
    max_retry: Option<u64>,
) -> Result<(Vec<Fd>, Bytes), ReceiveError>
    ensures came { IfOk result (λ message. Receives (unwrap_or max_retry MAX_RETRY)
        (C.calls channel.old) (C.calls channel.new) message.1 message.0.items) }
    ensures few { IfOk result (λ message. vec_len message.0 ≤ FD_LIMIT) }
    ensures refused { IfErr result (λ error. ReceivesNot (unwrap_or max_retry MAX_RETRY)
        (C.calls channel.old) (C.calls channel.new) error) }
    ensures stays { Stays (C.calls channel.old) (C.calls channel.new) (C.room channel.old) (C.room channel.new) }
    ensures fault { IsErrOf result ReceiveError.Transfer
        → Rose (C.faulted channel.old) (C.faulted channel.new) }
{
    if !channel.listen() {
        return Err(ReceiveError::Transfer);
    }
    let mut retry = ReceiveRetry::new(max_retry.unwrap_or(MAX_RETRY));
    let mut ms = 0;
    loop {
        rest(channel, ms);
        match channel.receive(alloc) {
            ReceiveAnswer::Got(bytes, fds) => return Ok((fds, bytes)),
            ReceiveAnswer::NotYet => match wait(&mut retry) {
                Ok(pause) => ms = pause,
                Err(error) => return Err(error),
            },
            ReceiveAnswer::ReceiveFailed => return Err(ReceiveError::Transfer),
            ReceiveAnswer::NoMemory => return Err(ReceiveError::NoMemory),
        }
    }
}

/// Closes each of the descriptors.
pub(crate) fn close_all<C: Channel>(channel: &mut C, mut fds: Vec<Fd>)
    ensures told { Adds (C.calls channel.old) (C.calls channel.new) (closes fds.items) }
    ensures stays { Stays (C.calls channel.old) (C.calls channel.new) (C.room channel.old) (C.room channel.new) }
    ensures cause { C.faulted channel.new ≡ C.faulted channel.old }
{
    while !fds.is_empty() {
        channel.close(fds.remove(0));
    }
    fds.destroy_empty();
}
