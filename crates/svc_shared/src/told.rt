//! What a step told, in memory of just its size.
ghost use Rattle.std.specs.Prelude.{◌≡◌, ◌+◌, ◌≤◌, ◌++◌, [], length, IfOk, OnOk, vec_len, vec_capacity};
ghost use Rattle.svc_base.specs.Items.{list_of, spare};

use std::alloc::Global;
use std::mem;
use std::mem::drop;
use svc_base::NoMemory;
use svc_record::{Action, Actions};

/// So many actions are taken out of a list one by one. A list of more is given back whole.
const FEW: u64 = 32;

/// Appends the same actions again, for which there is room.
fn push_copies(alloc: Global, actions: &[Action], again: &mut Vec<Action>) -> Result<(), NoMemory>
    requires room { vec_len again.old + length actions.now ≤ vec_capacity again.old }
    ensures items { OnOk result (again.new.items ≡ again.old.items ++ actions.now) }
    ensures size { vec_capacity again.new ≡ vec_capacity again.old }
    ensures len { OnOk result (vec_len again.new ≡ vec_len again.old + length actions.now) }
{
    for action in actions {
        again.push_reserved(action.copy(alloc)?);
    }
    Ok(())
}

/// The same actions again, in memory of their size.
pub(crate) fn copies(alloc: Global, actions: &[Action]) -> Result<Actions, NoMemory>
    ensures items { IfOk result (λ again. list_of again ≡ actions.now) }
    ensures size { IfOk result (λ again. spare again ≡ 0) }
{
    let mut again = Vec::with_capacity(alloc, actions.len())?;
    match push_copies(alloc, actions, &mut again) {
        Ok(()) => Ok(Actions::of(again)),
        Err(NoMemory) => {
            drop(again);
            Err(NoMemory)
        }
    }
}

/// Takes all actions out. The list keeps its room where they are few.
fn empty(alloc: Global, stage: &mut Actions)
    ensures { list_of stage.new ≡ [] }
{
    if stage.len() > FEW {
        *stage = Actions::new(alloc);
        return;
    }
    while let Some(action) = stage.pop_first() {
        let _ = action;
    }
}

/// Takes what was told. It takes no more memory than that, but where there was none of that size: then the
/// list is given back whole.
pub(crate) fn take_actions(alloc: Global, stage: &mut Actions) -> Actions
    ensures told { list_of result ≡ list_of stage.old }
    ensures emptied { list_of stage.new ≡ [] }
{
    match copies(alloc, stage.as_slice()) {
        Ok(actions) => {
            empty(alloc, stage);
            actions
        }
        Err(NoMemory) => mem::replace(stage, Actions::new(alloc)),
    }
}
