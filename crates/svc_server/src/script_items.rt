//! The items that a script host gives, and what it is shown.

ghost use Rattle.std.specs.Prelude.{◌≡◌, ◌+◌, ◌<◌, ◌≤◌, ◌^◌, ◌++◌, [], length, All, Some};
ghost use Rattle.svc_base.specs.Items.{list_of, spare};
ghost use Rattle.svc_server.specs.ScriptHosts.{GivesFew, KeepsScript, action_phase, answer_to};

use crate::host::Next;
use crate::inner_host::InnerHost;
use std::alloc::Global;
use std::marker::Model;
use std::vec;
use svc_base::{NoMemory, Reserved};
use svc_record::{Action, ExecutionPhase, Item};

/// The items of a list, which are given one after the other, of which none brings more than 32
/// descriptors. It keeps what it answered and the phases that it was told.
///
/// Contracts see the answers, the items that are left, the phases and the room.
#[derive(Drop)]
pub(crate) struct ScriptItems {
    /// The items that are left.
    left: vec::IntoIter<Item>,
    /// What was answered so far.
    answers: Reserved<Next>,
    phases: Reserved<ExecutionPhase>,
}

impl Model for ScriptItems {
    ghost use Rattle.std.specs.Prelude.{◌≡◌, length, min, All};
    ghost use Rattle.std.specs.Vec.Iter.{into_iter_items, into_iter_len};
    ghost use Rattle.svc_base.specs.Items.{list_of, spare};
    ghost use Rattle.svc_server.specs.ScriptItemsData.{ScriptItemsData};
    ghost use Rattle.svc_server.specs.ScriptHosts.{GivesFew};

    ghost Value = { ScriptItemsData };

    ghost view = { λ s. record {
      answers = list_of s.answers;
      left = into_iter_items s.left;
      phases = list_of s.phases;
      spare = min (spare s.answers) (spare s.phases);
    } };

    ghost invariant = { λ s. All GivesFew (into_iter_items s.left) × (into_iter_len s.left ≡ length (into_iter_items s.left)) };
}

/// A list has fewer items than a count can tell.
fn read_size(answers: &[Next])
    ensures { length answers.now + 1 < 2 ^ 64 }
{}

/// What is answered where this item is given.
fn answer_to(item: &Item) -> Next
    ensures { result ≡ answer_to item.now }
{
    match item {
        Item::Event(_) => Next::Event,
        Item::Fault => Next::Failed,
    }
}

/// Appends the phase that the action publishes, if it publishes one.
fn put_phase(phases: &mut Reserved<ExecutionPhase>, action: &Action)
    requires { 0 < spare phases.old }
    ensures phases { list_of phases.new ≡ list_of phases.old ++ action_phase action.now }
    ensures room { spare phases.old ≤ spare phases.new + 1 }
{
    if let Action::Phase(phase, _) = action {
        phases.put(*phase);
    }
}

impl ScriptItems {
    /// These items. It makes no memory of its own.
    pub(crate) fn new(alloc: Global, items: Vec<Item>) -> Self
        requires { All GivesFew items.items }
        ensures answers { result.answers ≡ [] }
        ensures left { result.left ≡ items.items }
        ensures phases { result.phases ≡ [] }
    {
        ScriptItems {
            left: items.into_iter(),
            answers: Reserved::new(alloc),
            phases: Reserved::new(alloc),
        }
    }

    /// The phases that it was told, the oldest first.
    pub(crate) fn phases(&self) -> &[ExecutionPhase]
        ensures { result.now ≡ self.now.phases }
    {
        self.phases.as_slice()
    }
}

impl InnerHost for ScriptItems {
    ghost keeps = { λ s q faults idles. KeepsScript s.answers s.left q s.phases faults idles };

    ghost spare = { λ s. s.spare };

    ghost ahead = { λ s. Some s.left };

    fn reserve(&mut self, alloc: Global, n: u64) -> Result<(), NoMemory> {
        self.answers.reserve(alloc, n)?;
        self.phases.reserve(alloc, n)
    }

    fn give(&mut self) -> Option<Item> {
        read_size(self.answers.as_slice());
        let item = self.left.next()?;
        self.answers.put(answer_to(&item));
        Some(item)
    }

    fn note(&mut self, action: &Action) {
        put_phase(&mut self.phases, action);
    }
}
