//! What a host of jobs gives next from its items.

ghost use Rattle.std.specs.Prelude.{◌≡◌, Some, true, slice_get};
ghost use Rattle.svc_job_host.specs.JobHosts.{AreJobItems, is_job_item};
ghost use Rattle.svc_job_host.specs.Upcoming.{item_of};

use svc_record::{Event, Item, ShutdownSignal};

/// The next item of a host of jobs.
#[derive(Clone, Copy)]
pub(crate) enum NextItem {
    Moment(u64),
    Signal(ShutdownSignal),
    Fault,
    /// No item is left.
    Nothing,
}

/// The item, of those that a host of jobs may give.
fn read_item(item: &Item) -> NextItem
    requires { is_job_item item.now ≡ true }
    ensures { Some item.now ≡ item_of result }
{
    match item {
        Item::Event(Event::Moment(ms)) => NextItem::Moment(*ms),
        Item::Event(Event::Signal(kind)) => NextItem::Signal(*kind),
        Item::Event(_) => unreachable!(),
        Item::Fault => NextItem::Fault,
    }
}

/// The item with this index, from 0.
pub(crate) fn upcoming(items: &[Item], index: usize) -> NextItem
    requires { AreJobItems items.now }
    ensures { slice_get items.now index ≡ item_of result }
{
    if index >= items.len() {
        return NextItem::Nothing;
    }
    read_item(&items[index])
}
