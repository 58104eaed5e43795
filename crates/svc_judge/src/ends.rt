//! How a run has ended.

ghost use Rattle.std.specs.Prelude.{◌≡◌};
ghost use Rattle.svc_record.specs.Ends.{parent_moment, parent_waited, ends_tested, ends_parent_well, ends_parent_badly, ends_transfer, ends_no_sender, has_ended_early};
ghost use Rattle.svc_judge.specs.Pasts.{IsPast, plan_of, record_of};

use crate::boot::has_bad_message;
use crate::looking::{has, now, times};
use crate::past::Past;
use crate::query::{News, Order, Query};
use svc_record::{Entry, Event};

/// The moment at which the process became the parent, in milliseconds.
fn parent_moment(entries: &[Entry]) -> u64
    ensures { result ≡ parent_moment entries.now }
{
    let mut rest = entries;
    'entries: while let Some((entry, before)) = rest.split_first() {
        if News::SideParent.matches(entry) && !has(Query::News(News::SideParent), before) {
            return now(before);
        }
        rest = before;
    }
    0
}

/// After that came a moment at which the parent had waited long enough.
fn parent_waited(past: &Past) -> bool
    ensures { result ≡ parent_waited (plan_of past.now) (record_of past.now) }
{
    let mut rest = past.entries;
    'entries: while let Some((entry, before)) = rest.split_first() {
        if let Entry::Got(Event::Moment(ms)) = entry
            && has(Query::News(News::SideParent), before)
            && past.plan.ready_timeout <= ms.saturating_sub(parent_moment(before)) / 1000
        {
            return true;
        }
        rest = before;
    }
    false
}

/// The run tested that it can start.
pub(crate) fn ends_tested(past: &Past) -> bool
    ensures { result ≡ ends_tested (plan_of past.now) (record_of past.now) }
{
    past.plan.test && has(Query::Order(Order::Bootstrap), past.entries)
}

/// The parent needn't wait, or its child is ready.
pub(crate) fn ends_parent_well(past: &Past) -> bool
    ensures { result ≡ ends_parent_well (plan_of past.now) (record_of past.now) }
{
    has(Query::News(News::SideParent), past.entries)
        && (!past.plan.wait || has(Query::News(News::ChildReady), past.entries))
}

/// The parent waited for a child that isn't ready.
pub(crate) fn ends_parent_badly(past: &Past) -> bool
    ensures { result ≡ ends_parent_badly (plan_of past.now) (record_of past.now) }
{
    (past.plan.wait && has(Query::News(News::SideParent), past.entries))
        && (has(Query::News(News::ParentFailure), past.entries) || parent_waited(past))
}

/// Receiving failed.
pub(crate) fn ends_transfer(entries: &[Entry]) -> bool
    ensures { result ≡ ends_transfer entries.now }
{
    has(Query::News(News::ReceiveFailure), entries)
}

/// No sender was there too often.
pub(crate) fn ends_no_sender(past: &Past) -> bool
    ensures { result ≡ ends_no_sender (plan_of past.now) (record_of past.now) }
{
    past.plan.limit < times(Query::News(News::NoSender), past.entries)
}

/// The run ended otherwise than served or tested.
pub(crate) fn has_ended_early(past: &Past) -> bool
    requires { IsPast past.now }
    ensures { result ≡ has_ended_early (plan_of past.now) (record_of past.now) }
{
    ends_parent_well(past)
        || ends_parent_badly(past)
        || ends_transfer(past.entries)
        || (ends_no_sender(past) || has_bad_message(past))
}
