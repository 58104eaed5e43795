//! The parent of a daemon, which waits until the daemon is ready.

use crate::limit::has_passed;
use std::marker::Model;

/// What comes to a parent that waits for its daemon.
#[derive(Clone, Copy, PartialEq, Eq, Debug)]
pub enum ParentEvent {
    /// The child said that it is ready.
    Ready,
    /// The child is gone.
    Gone,
    /// The parent couldn't become the child's user.
    DropFailed,
    /// The time, in milliseconds.
    Moment(u64),
}

/// What a parent does next.
#[derive(Clone, Copy, PartialEq, Eq, Debug)]
pub enum ParentNext {
    /// It waits for what comes next.
    Wait,
    /// It ends with this status.
    Exit(u8),
}

/// How long a parent waits for its daemon. Contracts see it as its limit.
#[derive(Debug, Drop)]
pub struct ParentWait {
    limit_seconds: u64,
    start: u64,
}

impl Model for ParentWait {
    ghost use Rattle.svc_moments.specs.Limits.{Limit};

    ghost Value = { Limit };

    ghost view = { λ wait. record { seconds = wait.limit_seconds; start = wait.start } };
}

impl ParentWait {
    ghost use Rattle.std.specs.Prelude.{◌≡◌};
    ghost use Rattle.svc_moments.specs.Parents.{parent_next};

    /// A wait of so many seconds from the moment `start` on, which is in milliseconds.
    pub fn new(limit_seconds: u64, start: u64) -> Self
        ensures { result ≡ record { seconds = limit_seconds; start = start } }
    {
        ParentWait {
            limit_seconds,
            start,
        }
    }

    /// What the parent does as this comes: it ends with 0 where the child is ready, with 1 where the
    /// child is gone, its user can't be had or the limit has passed, and else it waits.
    pub fn step(&mut self, event: ParentEvent) -> ParentNext
        ensures next { result ≡ parent_next self.old event }
        ensures kept { self.new ≡ self.old }
    {
        match event {
            ParentEvent::Ready => ParentNext::Exit(0),
            ParentEvent::Gone | ParentEvent::DropFailed => ParentNext::Exit(1),
            ParentEvent::Moment(ms) => {
                if has_passed(self.limit_seconds, self.start, ms) {
                    ParentNext::Exit(1)
                } else {
                    ParentNext::Wait
                }
            }
        }
    }
}
