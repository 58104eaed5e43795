//! Channels in memory. What is sent through one can be received from it.

ghost use Rattle.std.specs.Prelude.{◌≡◌, [], IfOk, IfSome, Some, not};
ghost use Rattle.svc_base.specs.Calls.{told_of, room_of};
ghost use Rattle.svc_fds.specs.Channels.{FaultsUnless};

use crate::call::{ChannelCall, ReceiveAnswer};
use crate::channel::Channel;
use crate::fd::Fd;
use crate::peer::{Peer, note_receive, note_send, told_calls};
use crate::retry::SendAnswer;
use std::alloc::Global;
use svc_base::{Calls, NoMemory};

/// A channel in memory. The calls that can fail and whose numbers, from 0, are listed fail. It tells
/// its calls for as many as it was made with room for.
#[derive(Drop)]
pub struct MemoryChannel {
    alloc: Global,
    calls: Calls<ChannelCall>,
    peer: Peer,
    failing: Vec<u64>,
    made: u64,
    count: u64,
}

impl MemoryChannel {
    /// A channel without a receiver, with room to tell so many calls.
    pub fn new(alloc: Global, room: u64, failing: Vec<u64>) -> Result<MemoryChannel, NoMemory>
        ensures calls { IfOk result (λ channel. ⟦<MemoryChannel as Channel>⟧.calls channel ≡ Some []) }
        ensures room { IfOk result (λ channel. ⟦<MemoryChannel as Channel>⟧.room channel ≡ room) }
        ensures faults { IfOk result (λ channel. ⟦<MemoryChannel as Channel>⟧.faulted channel ≡ 0) }
    {
        Ok(MemoryChannel {
            alloc,
            calls: Calls::new(alloc, room)?,
            peer: Peer::new(alloc),
            failing,
            made: 0,
            count: 0,
        })
    }

    /// The next sends, so many, find the receiver busy.
    pub fn set_busy(&mut self, sends: u64)
        ensures calls { ⟦<MemoryChannel as Channel>⟧.calls self.new
            ≡ ⟦<MemoryChannel as Channel>⟧.calls self.old }
        ensures room { ⟦<MemoryChannel as Channel>⟧.room self.new
            ≡ ⟦<MemoryChannel as Channel>⟧.room self.old }
        ensures faults { ⟦<MemoryChannel as Channel>⟧.faulted self.new
            ≡ ⟦<MemoryChannel as Channel>⟧.faulted self.old }
    {
        self.peer.busy = sends;
    }

    /// The calls that are told.
    pub fn log(&self) -> &[ChannelCall]
        ensures { IfSome (⟦<MemoryChannel as Channel>⟧.calls self.now)
            (λ calls. result.now ≡ calls) }
    {
        told_calls(&self.calls)
    }

    /// Counts a call that can fail, and says whether it does.
    fn fails(&mut self) -> bool
        ensures calls { self.new.calls ≡ self.old.calls }
        ensures cause { FaultsUnless (not result) self.old.count self.new.count }
    {
        let call = self.made;
        self.made = self.made.saturating_add(1);
        if self.failing.contains(&call) {
            self.count = self.count.saturating_add(1);
            return true;
        }
        false
    }
}

impl Channel for MemoryChannel {
    ghost calls = { λ c. told_of c.calls };

    ghost room = { λ c. room_of c.calls };

    ghost faulted = { λ c. c.count };

    fn faults(&self) -> u64 {
        self.count
    }

    fn listen(&mut self) -> bool {
        let opens = !self.fails();
        self.peer.listening = opens;
        self.calls.note(ChannelCall::Listen(opens));
        opens
    }

    fn receive(&mut self, alloc: Global) -> ReceiveAnswer {
        if self.fails() {
            note_receive(alloc, &mut self.calls, &ReceiveAnswer::ReceiveFailed);
            return ReceiveAnswer::ReceiveFailed;
        }
        let answer = self.peer.receive(alloc);
        note_receive(alloc, &mut self.calls, &answer);
        answer
    }

    fn connect(&mut self) -> SendAnswer {
        if self.fails() {
            self.calls
                .note(ChannelCall::Connect(SendAnswer::ConnectFailed));
            return SendAnswer::ConnectFailed;
        }
        let answer = self.peer.connect();
        self.calls.note(ChannelCall::Connect(answer));
        answer
    }

    fn send(&mut self, bytes: &[u8], fds: &[u64]) -> SendAnswer {
        if self.fails() {
            note_send(
                self.alloc,
                &mut self.calls,
                bytes,
                fds,
                SendAnswer::SendFailed,
            );
            return SendAnswer::SendFailed;
        }
        let answer = self.peer.send(self.alloc, bytes, fds);
        note_send(self.alloc, &mut self.calls, bytes, fds, answer);
        answer
    }

    fn rest(&mut self, ms: u64) {
        self.calls.note(ChannelCall::Rest(ms));
    }

    fn close(&mut self, fd: Fd) {
        self.calls.note(ChannelCall::Close(fd.close()));
    }
}

/// A channel in memory that never fails. It tells its calls for as many as it was made with room for.
#[derive(Drop)]
pub struct SteadyChannel {
    alloc: Global,
    calls: Calls<ChannelCall>,
    peer: Peer,
}

impl SteadyChannel {
    /// A channel without a receiver, with room to tell so many calls.
    pub fn new(alloc: Global, room: u64) -> Result<SteadyChannel, NoMemory>
        ensures calls { IfOk result (λ channel. ⟦<SteadyChannel as Channel>⟧.calls channel ≡ Some []) }
        ensures room { IfOk result (λ channel. ⟦<SteadyChannel as Channel>⟧.room channel ≡ room) }
    {
        Ok(SteadyChannel {
            alloc,
            calls: Calls::new(alloc, room)?,
            peer: Peer::new(alloc),
        })
    }

    /// The calls that are told.
    pub fn log(&self) -> &[ChannelCall]
        ensures { IfSome (⟦<SteadyChannel as Channel>⟧.calls self.now)
            (λ calls. result.now ≡ calls) }
    {
        told_calls(&self.calls)
    }
}

impl Channel for SteadyChannel {
    ghost calls = { λ c. told_of c.calls };

    ghost room = { λ c. room_of c.calls };

    ghost faulted = { λ _. 0 };

    fn faults(&self) -> u64 {
        0
    }

    fn listen(&mut self) -> bool {
        self.peer.listening = true;
        self.calls.note(ChannelCall::Listen(true));
        true
    }

    fn receive(&mut self, alloc: Global) -> ReceiveAnswer {
        let answer = self.peer.receive(alloc);
        note_receive(alloc, &mut self.calls, &answer);
        answer
    }

    fn connect(&mut self) -> SendAnswer {
        let answer = self.peer.connect();
        self.calls.note(ChannelCall::Connect(answer));
        answer
    }

    fn send(&mut self, bytes: &[u8], fds: &[u64]) -> SendAnswer {
        let answer = self.peer.send(self.alloc, bytes, fds);
        note_send(self.alloc, &mut self.calls, bytes, fds, answer);
        answer
    }

    fn rest(&mut self, ms: u64) {
        self.calls.note(ChannelCall::Rest(ms));
    }

    fn close(&mut self, fd: Fd) {
        self.calls.note(ChannelCall::Close(fd.close()));
    }
}
