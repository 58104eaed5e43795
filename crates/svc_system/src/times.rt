//! The time of a server, in milliseconds since it was opened, and when it next matters.

ghost use Rattle.std.specs.Prelude.{◌≡◌, ◌≤◌, IfSome};

use std::io;
use std::time::{Clock, Instant};

/// So old is the last moment that was told at most, in milliseconds, where something happens.
const FRESH: u64 = 100;

/// The time, the last moment that was told, and when it next matters.
#[derive(Drop)]
pub(crate) struct Times {
    start: Instant,
    /// What the clock showed when it was last read.
    pub now: u64,
    /// The last moment that was told.
    pub told: u64,
    /// The least moment that tells the server something, as it said last.
    pub due: Option<u64>,
    /// When an accept loop has rested.
    pub rests: Option<u64>,
    /// When a service says that it is ready.
    pub readies: Option<u64>,
    /// When a newer server is looked for.
    pub looks: Option<u64>,
}

/// The earlier of two moments, where the first is known.
pub(crate) fn sooner(known: Option<u64>, other: u64) -> Option<u64>
    ensures known { IfSome known (λ m. IfSome result (λ n. n ≤ m)) }
    ensures other { IfSome result (λ n. n ≤ other) }
{
    match known {
        Some(moment) => Some(moment.min(other)),
        None => Some(other),
    }
}

/// The moment is known and there.
fn is_there(moment: Option<u64>, now: u64) -> bool {
    match moment {
        Some(moment) => moment <= now,
        None => false,
    }
}

/// The earlier of two moments that are perhaps known.
pub fn earlier(a: Option<u64>, b: Option<u64>) -> Option<u64>
    ensures first { IfSome a (λ m. IfSome result (λ n. n ≤ m)) }
    ensures second { IfSome b (λ m. IfSome result (λ n. n ≤ m)) }
{
    match b {
        Some(moment) => sooner(a, moment),
        None => a,
    }
}

impl Times {
    /// The clock starts.
    pub(crate) fn start<R: Clock>(rt: &R) -> io::Result<Self> {
        let start = Instant::now(rt)?;
        Ok(Times {
            start,
            now: 0,
            told: 0,
            due: None,
            rests: None,
            readies: None,
            looks: None,
        })
    }

    /// Reads the clock. Answers whether it could be read.
    pub(crate) fn read<R: Clock>(&mut self, rt: &R) -> bool
        ensures told { self.new.told ≡ self.old.told }
        ensures rises { self.old.told ≤ self.new.told }
    {
        match Instant::now(rt) {
            Ok(now) => {
                let passed = now.duration_since(self.start).as_millis();
                let passed = u64::try_from(passed).unwrap_or(u64::MAX);
                self.now = passed.max(self.now);
                true
            }
            Err(_) => false,
        }
    }

    /// In how many milliseconds the time next matters; none where it never does.
    pub(crate) fn until_due(&self) -> Option<u64> {
        let told = earlier(self.due, self.rests);
        let said = earlier(self.readies, self.looks);
        let due = earlier(told, said)?;
        Some(due.saturating_sub(self.now))
    }

    /// The moment is to be told: it tells the server something, or something happens and the last one is old.
    pub(crate) fn is_due(&self, happens: bool) -> bool {
        is_there(self.due, self.now)
            || ((happens || self.are_ready()) && self.now.saturating_sub(self.told) >= FRESH)
    }

    /// Accept loops have rested.
    pub(crate) fn have_rested(&self) -> bool {
        is_there(self.rests, self.now)
    }

    /// A service says that it is ready.
    pub(crate) fn are_ready(&self) -> bool {
        is_there(self.readies, self.now)
    }

    /// A newer server is to be looked for.
    pub(crate) fn are_to_look(&self) -> bool {
        is_there(self.looks, self.now)
    }

    /// Tells the moment.
    pub(crate) fn tell(&mut self) -> u64
        ensures told { self.new.told ≡ result }
        ensures rises { self.old.told ≤ result }
    {
        self.told = self.now.max(self.told);
        self.told
    }
}
