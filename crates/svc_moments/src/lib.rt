//! Moments in milliseconds: the least at which something is due, a limit of time, and how long the parent of a daemon waits.
#![tactic(auto)]

ghost use Rattle.std.specs.Prelude.{ℕ, true, ◌≡◌, ◌||◌, ◌-◌, ◌/◌, nat_le, nat_lt};
ghost use Rattle.svc_moments.specs.Least.{IsLeast, EndsAt, is_before, earlier_of};

mod limit;
mod parent;

pub use limit::has_passed;
pub use parent::{ParentEvent, ParentNext, ParentWait};

/// The least moment that is so long after the other one, in milliseconds; none where that is beyond 64
/// bits. Where nothing is waited for, it is 0.
pub fn after(at: u64, wait: u64) -> Option<u64>
    ensures { IsLeast (λ t. nat_le wait (t - at) ≡ true) result }
{
    if wait == 0 {
        return Some(0);
    }
    at.checked_add(wait)
}

/// The same for a wait in whole seconds.
pub fn after_seconds(at: u64, seconds: u64) -> Option<u64>
    ensures { IsLeast (λ t. nat_le seconds ((t - at) / 1000) ≡ true) result }
{
    match seconds.checked_mul(1000) {
        Some(wait) => after(at, wait),
        None => None,
    }
}

/// The earlier of two moments, if there is one.
pub fn earlier(a: Option<u64>, b: Option<u64>) -> Option<u64>
    ensures { result ≡ earlier_of a b }
{
    match (a, b) {
        (Some(m), Some(n)) => Some(m.min(n)),
        (None, _) => b,
        (_, None) => a,
    }
}

/// The end of a rest that began at the moment, in milliseconds, and lasts so long; none where that is
/// beyond 64 bits.
pub fn rest_end(at: u64, rest: u64) -> Option<u64>
    ensures { EndsAt (λ t. nat_lt (t - at) rest) result }
{
    if rest == 0 {
        return Some(0);
    }
    at.checked_add(rest)
}

/// The later of two moments, of which one may never come.
pub fn later(a: Option<u64>, b: Option<u64>) -> Option<u64>
    ensures { (t : ℕ) → is_before t result ≡ (is_before t a || is_before t b) }
{
    match (a, b) {
        (Some(m), Some(n)) => Some(m.max(n)),
        _ => None,
    }
}
