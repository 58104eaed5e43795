//! Lists that take items which may be dropped.

ghost use Rattle.std.specs.Prelude.{◌≡◌, ◌++◌, ◌∷◌, [], OnOk, OnErr};

use std::alloc::Global;
use svc_base::{Items, NoMemory};

/// Appends. An item for which no memory was found is dropped.
pub fn push_item<T: Drop>(alloc: Global, list: &mut Items<T>, item: T) -> Result<(), NoMemory>
    ensures ok { OnOk result (list.new ≡ list.old ++ item ∷ []) }
    ensures refused { OnErr result (list.new ≡ list.old) }
{
    match list.push(alloc, item) {
        Ok(()) => Ok(()),
        Err(refused) => Err(refused.reason),
    }
}
