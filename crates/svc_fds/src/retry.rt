//! When a transfer is tried again, and when it is given up.

ghost use Rattle.std.specs.Prelude.{◌≡◌, ℕ, [], ◌∷◌, List};
ghost use Rattle.svc_fds.specs.Retries.{send_next, receive_next, IsAfterSends, IsAfterReceives};

use crate::errors::{ReceiveError, SendError};
use std::marker::Model;

/// How many busy answers end a transfer.
pub const BUSY_LIMIT: u64 = 20;

/// How many milliseconds a try without a peer is followed by.
pub const PEER_REST: u64 = 1000;

/// How many milliseconds a busy answer is followed by.
pub const BUSY_REST: u64 = 500;

/// What one try to connect or to send gave.
#[derive(Clone, Copy, PartialEq, Eq, Debug)]
pub enum SendAnswer {
    /// A connect reached the receiver.
    Connected,
    /// The receiver is missing, refuses or forbids.
    NotThere,
    /// A connect isn't done yet.
    StillConnecting,
    /// A connect failed otherwise.
    ConnectFailed,
    /// The message is sent.
    Sent,
    /// The message can't be taken yet.
    SendBusy,
    /// A send failed otherwise.
    SendFailed,
}

/// What comes next in a transfer to a successor. The numbers are milliseconds of rest before the call.
#[derive(Clone, Copy, PartialEq, Eq, Debug)]
pub enum SendNext {
    /// A connect, after so many milliseconds.
    Connect(u64),
    /// A send, after so many milliseconds.
    Send(u64),
    /// The message was sent.
    Done,
    /// The transfer is given up.
    Refused(SendError),
}

/// What one try to receive gave.
#[derive(Clone, Copy, PartialEq, Eq, Debug)]
pub enum ReceiveKind {
    /// A message.
    Came,
    /// Nobody sends yet.
    NotYet,
    /// The channel failed.
    Failed,
}

/// What comes next in a transfer from a predecessor. The number is milliseconds of rest before the
/// call.
#[derive(Clone, Copy, PartialEq, Eq, Debug)]
pub enum ReceiveNext {
    /// A try to receive, after so many milliseconds.
    Receive(u64),
    /// The message came.
    Done,
    /// The transfer is given up.
    Refused(ReceiveError),
}

/// The tries of a sender: a first connect, and what follows each answer. It gives up at the first
/// missing receiver beyond the limit, and at the twentieth busy answer.
#[derive(Debug, Drop)]
pub struct SendRetry {
    /// How many more missing receivers are borne.
    absences: u64,
    /// How many more busy answers are borne.
    delays: u64,
}

impl Model for SendRetry {
    ghost use Rattle.svc_fds.specs.RetriesLeft.{RetriesLeft};

    ghost Value = { RetriesLeft };

    ghost view = { λ retry. record { absences = retry.absences; delays = retry.delays } };
}

impl SendRetry {
    /// The state before any answer.
    pub fn new(limit: u64) -> Self
        ensures { IsAfterSends limit [] result }
    {
        SendRetry {
            absences: limit,
            delays: BUSY_LIMIT - 1,
        }
    }

    /// Takes an answer, and gives what comes next. After the last step the answers go on to be counted.
    pub fn step(&mut self, answer: SendAnswer) -> SendNext
        ensures next { (limit : ℕ) (earlier : List _) → IsAfterSends limit earlier self.old
            → result ≡ send_next limit earlier answer }
        ensures after { (limit : ℕ) (earlier : List _) → IsAfterSends limit earlier self.old
            → IsAfterSends limit (answer ∷ earlier) self.new }
    {
        match answer {
            SendAnswer::Connected => SendNext::Send(0),
            SendAnswer::NotThere => {
                if self.absences == 0 {
                    return SendNext::Refused(SendError::NoReceiver);
                }
                self.absences -= 1;
                SendNext::Connect(PEER_REST)
            }
            SendAnswer::StillConnecting => {
                if self.delays == 0 {
                    return SendNext::Refused(SendError::StillBusy);
                }
                self.delays -= 1;
                SendNext::Connect(BUSY_REST)
            }
            SendAnswer::SendBusy => {
                if self.delays == 0 {
                    return SendNext::Refused(SendError::StillBusy);
                }
                self.delays -= 1;
                SendNext::Send(BUSY_REST)
            }
            SendAnswer::Sent => SendNext::Done,
            SendAnswer::ConnectFailed | SendAnswer::SendFailed => {
                SendNext::Refused(SendError::Transfer)
            }
        }
    }
}

/// The tries of a receiver. It gives up at the first missing sender beyond the limit.
#[derive(Debug, Drop)]
pub struct ReceiveRetry {
    /// How many more missing senders are borne.
    absences: u64,
}

impl Model for ReceiveRetry {
    ghost use Rattle.std.specs.Prelude.{ℕ};

    ghost Value = { ℕ };

    ghost view = { λ retry. retry.absences };
}

impl ReceiveRetry {
    /// The state before any answer.
    pub fn new(limit: u64) -> Self
        ensures { IsAfterReceives limit [] result }
    {
        ReceiveRetry { absences: limit }
    }

    /// Takes an answer, and gives what comes next. After the last step the answers go on to be counted.
    pub fn step(&mut self, answer: ReceiveKind) -> ReceiveNext
        ensures next { (limit : ℕ) (earlier : List _) → IsAfterReceives limit earlier self.old
            → result ≡ receive_next limit earlier answer }
        ensures after { (limit : ℕ) (earlier : List _) → IsAfterReceives limit earlier self.old
            → IsAfterReceives limit (answer ∷ earlier) self.new }
    {
        match answer {
            ReceiveKind::Came => ReceiveNext::Done,
            ReceiveKind::NotYet => {
                if self.absences == 0 {
                    return ReceiveNext::Refused(ReceiveError::NoSender);
                }
                self.absences -= 1;
                ReceiveNext::Receive(PEER_REST)
            }
            ReceiveKind::Failed => ReceiveNext::Refused(ReceiveError::Transfer),
        }
    }
}
