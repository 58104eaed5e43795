//! A limit of time.

ghost use Rattle.std.specs.Prelude.{◌≡◌};
ghost use Rattle.svc_moments.specs.Limits.{has_passed};

/// Whether so many whole seconds have passed from one moment to another. Moments are in milliseconds.
pub fn has_passed(limit_seconds: u64, start: u64, moment: u64) -> bool
    ensures { result ≡ has_passed (record { seconds = limit_seconds; start = start }) moment }
{
    moment.saturating_sub(start) / 1000 >= limit_seconds
}
