//! What is closed as a run is given up.

ghost use Rattle.std.specs.Prelude.{◌≡◌, ◌+◌, ◌≤◌, ◌++◌, length, map, Option};
ghost use Rattle.std.specs.Option.{option_copied};
ghost use Rattle.svc_base.specs.Items.{list_of, spare};
ghost use Rattle.svc_record.specs.declared.action.Action.TheVariants.{Close};
ghost use Rattle.svc_record.specs.declared.entry.Entry.TheVariants.{Got};
ghost use Rattle.svc_record.specs.Record.{Record};
ghost use Rattle.svc_record.specs.Descriptors.{numbers_of};
ghost use Rattle.svc_core.specs.Stands.{Represents, ClosesAll};
ghost use Rattle.svc_core.specs.Rooms.{close_need, open_closes, open_count, left_numbers};

use super::Core;
use crate::ends::is_served;
use svc_record::{Actions, Event};

impl Core {
    /// Cuts each live connection and closes each live descriptor, in ascending number, and then closes
    /// what the event brought that was left unfinished. A caller who had `step_room` before a step has the room after it.
    pub fn close_all(&self, also: Option<&Event>, actions: &mut Actions)
        requires room { close_need self.now (option_copied also) ≤ spare actions.old }
        ensures closes { (q : Record) → Represents self.now q
            → ClosesAll self.now.plan q (option_copied also.entry) (list_of actions.old) (list_of actions.new) }
        ensures few { length (list_of actions.new) ≤ length (list_of actions.old) + close_need self.now (option_copied also.entry) }
    {
        self.close_open(actions);
        if let Some(event) = also {
            self.close_brought(event, actions);
        }
    }

    fn close_open(&self, actions: &mut Actions)
        requires { open_count self.now ≤ spare actions.old }
        ensures told { list_of actions.new ≡ list_of actions.old ++ open_closes self.now }
        ensures room { spare actions.old ≤ spare actions.new + open_count self.now }
    {
        if !is_served(self.end) {
            self.connections.cut_all(actions);
            self.endpoints.close_open(actions);
        }
    }

    /// Closes what the event brought that came with no earlier one.
    fn close_brought(&self, event: &Event, actions: &mut Actions)
        requires { length (numbers_of (Got event.now)) ≤ spare actions.old }
        ensures told { list_of actions.new ≡ list_of actions.old ++ map Close (left_numbers self.now event.now) }
        ensures few { length (left_numbers self.now event.now) ≤ length (numbers_of (Got event.now)) }
    {
        match event {
            Event::Bound(_, _, fd) => self.endpoints.close_new(&[*fd], actions),
            Event::Received(_, fds) => self.endpoints.close_new(fds.as_slice(), actions),
            _ => {}
        }
    }
}
