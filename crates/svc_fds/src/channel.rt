//! What carries a message from one process to the next.

ghost use Rattle.std.specs.Prelude.{◌≡◌, ◌+◌, ◌≤◌, ◌∷◌, [], ℕ, List, Option, length};
ghost use Rattle.svc_base.specs.Calls.{Adds, Stays};
ghost use Rattle.svc_fds.specs.Channels.{receipt_of, FaultsUnless, ReceiveFaults, SendFaults, IsConnectAnswer, IsSendAnswer, IsFew};
ghost use Rattle.svc_fds.specs.declared.call.ChannelCall.{ChannelCall};

use crate::call::{ChannelCall, ReceiveAnswer};
use crate::fd::Fd;
use crate::retry::SendAnswer;
use std::alloc::Global;

/// The socket between a process and its successor.
pub trait Channel {
    /// Its calls with their answers, the oldest first, where it tells them.
    ghost calls: { Self → Option (List ChannelCall) };

    /// For how many more calls it is sure to tell them.
    ghost room: { Self → ℕ };

    /// How often it has failed.
    ghost faulted: { Self → ℕ };

    /// How often it has failed. The count never falls; at its greatest value it stays.
    fn faults(&self) -> u64
        ensures { result ≡ faulted self.now };

    /// Opens the receiving socket.
    fn listen(&mut self) -> bool
        ensures told { Adds (calls self.old) (calls self.new) (ChannelCall.Listen result ∷ []) }
        ensures stays { Stays (calls self.old) (calls self.new) (room self.old) (room self.new) }
        ensures place { room self.old ≤ room self.new + 1 }
        ensures cause { FaultsUnless result (faulted self.old) (faulted self.new) };

    /// Tries to receive once.
    fn receive(&mut self, alloc: Global) -> ReceiveAnswer
        ensures told { Adds (calls self.old) (calls self.new)
            (ChannelCall.Receive (receipt_of result) ∷ []) }
        ensures stays { Stays (calls self.old) (calls self.new) (room self.old) (room self.new) }
        ensures few { IsFew result }
        ensures cause { ReceiveFaults result (faulted self.old) (faulted self.new) };

    /// Tries to connect once.
    fn connect(&mut self) -> SendAnswer
        ensures told { Adds (calls self.old) (calls self.new) (ChannelCall.Connect result ∷ []) }
        ensures stays { Stays (calls self.old) (calls self.new) (room self.old) (room self.new) }
        ensures place { room self.old ≤ room self.new + 1 }
        ensures fits { IsConnectAnswer result }
        ensures cause { SendFaults result (faulted self.old) (faulted self.new) };

    /// Tries to send once. A message has at most 32 descriptors.
    fn send(&mut self, bytes: &[u8], fds: &[u64]) -> SendAnswer
        requires { length fds.now ≤ 32 }
        ensures told { Adds (calls self.old) (calls self.new)
            (ChannelCall.Send bytes.now fds.now result ∷ []) }
        ensures stays { Stays (calls self.old) (calls self.new) (room self.old) (room self.new) }
        ensures fits { IsSendAnswer result }
        ensures cause { SendFaults result (faulted self.old) (faulted self.new) };

    /// Waits so many milliseconds.
    fn rest(&mut self, ms: u64)
        ensures told { Adds (calls self.old) (calls self.new) (ChannelCall.Rest ms ∷ []) }
        ensures stays { Stays (calls self.old) (calls self.new) (room self.old) (room self.new) }
        ensures place { room self.old ≤ room self.new + 1 }
        ensures cause { faulted self.new ≡ faulted self.old };

    /// Closes a descriptor.
    fn close(&mut self, fd: Fd)
        ensures told { Adds (calls self.old) (calls self.new) (ChannelCall.Close fd ∷ []) }
        ensures stays { Stays (calls self.old) (calls self.new) (room self.old) (room self.new) }
        ensures place { room self.old ≤ room self.new + 1 }
        ensures cause { faulted self.new ≡ faulted self.old };
}
