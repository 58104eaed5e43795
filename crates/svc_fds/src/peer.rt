//! What the channels in memory are made of: how they take their calls down, and a peer.

ghost use Rattle.std.specs.Prelude.{◌≡◌, ◌≤◌, ◌∷◌, [], ℕ, IfOk, IfSome, length};
ghost use Rattle.svc_base.specs.Calls.{told_of, room_of, Adds, Stays};
ghost use Rattle.svc_fds.specs.Channels.{receipt_of, ReceiveFaults, SendFaults, IsConnectAnswer, IsSendAnswer, IsFew};

use crate::call::{ChannelCall, Receipt, ReceiveAnswer};
use crate::fd::Fd;
use crate::retry::SendAnswer;
use std::alloc::Global;
use svc_base::{Bytes, Calls, Items, NoMemory, copy_items};

/// Takes a send down. Where there is no memory for what was to be sent, no call is told any more.
pub(crate) fn note_send(
    alloc: Global,
    calls: &mut Calls<ChannelCall>,
    bytes: &[u8],
    fds: &[u64],
    answer: SendAnswer,
)
    ensures call { Adds (told_of calls.old) (told_of calls.new) (ChannelCall.Send bytes.now fds.now answer ∷ []) }
    ensures stays { Stays (told_of calls.old) (told_of calls.new) (room_of calls.old) (room_of calls.new) }
{
    match copies_of(alloc, bytes, fds) {
        Ok((bytes, fds)) => calls.note(ChannelCall::Send(bytes, fds, answer)),
        Err(_) => calls.lose(),
    }
}

/// Takes a receive down. Where there is no memory for what came, no call is told any more.
pub(crate) fn note_receive(alloc: Global, calls: &mut Calls<ChannelCall>, answer: &ReceiveAnswer)
    ensures call { Adds (told_of calls.old) (told_of calls.new) (ChannelCall.Receive (receipt_of answer.now) ∷ []) }
    ensures stays { Stays (told_of calls.old) (told_of calls.new) (room_of calls.old) (room_of calls.new) }
{
    match receipt(alloc, answer) {
        Ok(receipt) => calls.note(ChannelCall::Receive(receipt)),
        Err(_) => calls.lose(),
    }
}

/// The calls that are told, or none.
pub(crate) fn told_calls(calls: &Calls<ChannelCall>) -> &[ChannelCall]
    ensures { IfSome (told_of calls.now) (λ told. result.now ≡ told) }
{
    match calls.told() {
        Some(told) => told,
        None => &[],
    }
}

/// Bytes and numbers once more.
fn copies_of(alloc: Global, bytes: &[u8], fds: &[u64]) -> Result<(Bytes, Items<u64>), NoMemory>
    ensures bytes { IfOk result (λ copied. copied.0 ≡ bytes.now) }
    ensures fds { IfOk result (λ copied. copied.1 ≡ fds.now) }
{
    let bytes = copy_items(alloc, bytes)?;
    let fds = copy_items(alloc, fds)?;
    Ok((bytes, fds))
}

/// The numbers of descriptors.
fn numbers(alloc: Global, fds: &[Fd]) -> Result<Items<u64>, NoMemory>
    ensures { IfOk result (λ numbers. numbers ≡ fds.now) }
{
    let mut numbers = Items::new(alloc);
    for fd in fds {
        if let Err(refused) = numbers.push(alloc, fd.number()) {
            return Err(refused.reason);
        }
    }
    Ok(numbers)
}

/// Descriptors of these numbers.
fn opened(alloc: Global, numbers: &[u64]) -> Result<Vec<Fd>, NoMemory>
    ensures { IfOk result (λ fds. fds.items ≡ numbers.now) }
{
    let mut fds = Vec::new(alloc);
    if fds.reserve(numbers.len()).is_err() {
        fds.destroy_empty();
        return Err(NoMemory);
    }
    for number in numbers {
        fds.push_reserved(Fd::new(*number));
    }
    Ok(fds)
}

/// An answer with the numbers of its descriptors.
fn receipt(alloc: Global, answer: &ReceiveAnswer) -> Result<Receipt, NoMemory>
    ensures { IfOk result (λ receipt. receipt ≡ receipt_of answer.now) }
{
    match answer {
        ReceiveAnswer::Got(bytes, fds) => {
            let bytes = copy_items(alloc, bytes.as_slice())?;
            let fds = numbers(alloc, fds)?;
            Ok(Receipt::Got(bytes, fds))
        }
        ReceiveAnswer::NotYet => Ok(Receipt::NotYet),
        ReceiveAnswer::ReceiveFailed => Ok(Receipt::Failed),
        ReceiveAnswer::NoMemory => Ok(Receipt::NoMemory),
    }
}

/// The peer of a channel in memory: whether it listens, and what it was sent.
#[derive(Drop)]
pub(crate) struct Peer {
    /// A connect is answered from now on.
    pub(crate) listening: bool,
    /// How many more sends find it busy.
    pub(crate) busy: u64,
    /// A message waits.
    pub(crate) full: bool,
    pub(crate) bytes: Bytes,
    pub(crate) fds: Items<u64>,
    ghost few: { length fds ≤ 32 },
}

impl Peer {
    pub(crate) fn new(alloc: Global) -> Self {
        Peer {
            listening: false,
            busy: 0,
            full: false,
            bytes: Bytes::new(alloc),
            fds: Items::new(alloc),
        }
    }

    /// A connect is answered where the peer listens.
    pub(crate) fn connect(&mut self) -> SendAnswer
        ensures fits { IsConnectAnswer result }
        ensures calm { (n : ℕ) → SendFaults result n n }
    {
        if self.listening {
            SendAnswer::Connected
        } else {
            SendAnswer::NotThere
        }
    }

    /// Takes a message. Where there is no memory for it, it is busy.
    pub(crate) fn send(&mut self, alloc: Global, bytes: &[u8], fds: &[u64]) -> SendAnswer
        requires { length fds.now ≤ 32 }
        ensures fits { IsSendAnswer result }
        ensures calm { (n : ℕ) → SendFaults result n n }
    {
        if self.busy > 0 {
            self.busy -= 1;
            return SendAnswer::SendBusy;
        }
        match copies_of(alloc, bytes, fds) {
            Ok((bytes, fds)) => {
                self.bytes = bytes;
                self.fds = fds;
                self.full = true;
                SendAnswer::Sent
            }
            Err(_) => SendAnswer::SendBusy,
        }
    }

    /// Gives the message that waits.
    pub(crate) fn receive(&mut self, alloc: Global) -> ReceiveAnswer
        ensures few { IsFew result }
        ensures calm { (n : ℕ) → ReceiveFaults result n n }
    {
        if !self.full {
            return ReceiveAnswer::NotYet;
        }
        let bytes = match copy_items(alloc, self.bytes.as_slice()) {
            Ok(bytes) => bytes,
            Err(_) => return ReceiveAnswer::NoMemory,
        };
        match opened(alloc, self.fds.as_slice()) {
            Ok(fds) => {
                self.full = false;
                ReceiveAnswer::Got(bytes, fds)
            }
            Err(_) => ReceiveAnswer::NoMemory,
        }
    }
}
