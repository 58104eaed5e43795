//! How a daemon notifies the parent that waits for it.

ghost use Rattle.svc_proc.specs.Notifying.{Notifies};

use crate::process::{Process, SignalAnswer};
use std::marker::Model;
use svc_moments::has_passed;

/// How long a daemon rests, in milliseconds, before it tries again to notify its parent.
const NOTIFY_RETRY_INTERVAL: u64 = 100;

/// What follows a try to notify the parent.
#[derive(Clone, Copy, PartialEq, Eq, Debug)]
pub enum NotifyNext {
    /// The parent was notified.
    Done,
    /// The daemon rests for 100 milliseconds and tries again.
    Again,
    /// It is given up, for this error number.
    GaveUp(i32),
}

/// How the notifying of a parent ended.
#[derive(Clone, Copy, PartialEq, Eq, Debug)]
pub enum Notified {
    /// The parent was notified.
    Sent,
    /// It was denied until the limit had passed, or ten times for each second of it.
    Denied,
    /// The system answered with this error number.
    Other(i32),
}

/// How long a daemon tries to notify its parent. Contracts see it as its limit.
#[derive(Debug, Drop)]
pub struct NotifyRetry {
    limit_seconds: u64,
    start: u64,
}

impl Model for NotifyRetry {
    ghost use Rattle.svc_moments.specs.Limits.{Limit};

    ghost Value = { Limit };

    ghost view = { λ retry. record { seconds = retry.limit_seconds; start = retry.start } };
}

impl NotifyRetry {
    ghost use Rattle.std.specs.Prelude.{◌≡◌, not};
    ghost use Rattle.svc_moments.specs.Limits.{has_passed};
    ghost use Rattle.svc_proc.specs.Notifying.{notify_next};

    /// Tries of so many seconds from the moment `start` on, which is in milliseconds.
    pub fn new(limit_seconds: u64, start: u64) -> Self
        ensures { result ≡ record { seconds = limit_seconds; start = start } }
    {
        NotifyRetry {
            limit_seconds,
            start,
        }
    }

    /// Whether it may try at this moment: the limit hasn't passed.
    pub fn next(&self, now: u64) -> bool
        ensures { result ≡ not (has_passed self.now now) }
    {
        !has_passed(self.limit_seconds, self.start, now)
    }

    /// What follows a try with this answer.
    pub fn step(&mut self, answer: SignalAnswer) -> NotifyNext
        ensures next { result ≡ notify_next answer }
        ensures kept { self.new ≡ self.old }
    {
        match answer {
            SignalAnswer::Sent => NotifyNext::Done,
            SignalAnswer::Denied => NotifyNext::Again,
            SignalAnswer::Other(n) => NotifyNext::GaveUp(n),
        }
    }
}

/// Tells the parent with the number `pid` that its daemon is ready. Where that is denied it is tried
/// again every 100 milliseconds for `limit_seconds` seconds, at most ten times for each.
pub fn notify_parent_ready_for_fds<P: Process>(
    process: &mut P,
    pid: u32,
    limit_seconds: u64,
) -> Notified
    ensures { Notifies P.seen pid limit_seconds process.old process.new result }
{
    let mut retry = NotifyRetry::new(limit_seconds, process.now());
    let most = u128::from(limit_seconds) * 10;
    let mut tries: u128 = 0;
    while tries < most {
        if !retry.next(process.now()) {
            return Notified::Denied;
        }
        match retry.step(process.notify(pid)) {
            NotifyNext::Done => return Notified::Sent,
            NotifyNext::Again => process.rest(NOTIFY_RETRY_INTERVAL),
            NotifyNext::GaveUp(n) => return Notified::Other(n),
        }
        tries += 1;
    }
    Notified::Denied
}
