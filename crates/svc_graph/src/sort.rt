//! The startup order of the nodes.

ghost use Rattle.std.specs.Prelude.{◌≡◌, ◌<◌, ◌≤◌, ◌+◌, ◌==◌, ◌&&◌, ◌||◌, ℕ, true, length, map, cond, nat_lt, slice_index_or, IfOk, vec_len};
ghost use Rattle.svc_graph.specs.Graphs.{IsStartupOrder, is_in_row};
ghost use Rattle.svc_graph.specs.Marks.{RowsBelow};
ghost use Rattle.svc_graph.specs.Bits.{is_set, HasRows};
ghost use Rattle.svc_graph.specs.Counts.{AreSized};
ghost use Rattle.svc_graph.specs.Ranks.{IsRanked, IsNeeded};

use crate::bits::Bits;
use std::alloc::Global;
use svc_base::{NoMemory, Numbers};

/// How many nodes each node depends on.
pub(crate) fn sizes(alloc: Global, rows: &[Numbers]) -> Result<Vec<u32>, NoMemory>
    requires few { length rows.now ≤ 1024 }
    requires sized { AreSized rows.now }
    ensures { IfOk result (λ counts. counts.items ≡ map (λ row. length row) rows.now) }
{
    let mut counts = Vec::new(alloc);
    for row in rows {
        counts.push(row.len() as u32)?;
    }
    Ok(counts)
}

/// The nodes of which nothing is missing, as a row of bits.
fn due(alloc: Global, counts: &[u32]) -> Result<Bits, NoMemory>
    requires { length counts.now ≤ 1024 }
    ensures row { IfOk result (λ ready. HasRows ready 1) }
    ensures bits { IfOk result (λ ready. (a : ℕ) → is_set ready 0 a
        ≡ (nat_lt a (length counts.now) && (slice_index_or counts.now a 0 == 0))) }
{
    let mut ready = Bits::new(alloc);
    ready.grow(1)?;
    for (node, missing) in counts.iter().enumerate() {
        if *missing == 0 {
            ready.set(0, node as u32);
        }
    }
    Ok(ready)
}

/// One less is missing of each node that depends on this one. Those of which nothing is missing any
/// more are ready.
fn lower(needed: &Bits, counts: &mut [u32], ready: &mut Bits, node: u32)
    requires few { length counts.old ≤ 1024 }
    requires row { HasRows needed.now (node + 1) }
    requires ready { HasRows ready.old 1 }
    requires some { (a : ℕ) → is_set needed.now node a ≡ true
        → (a < length counts.old) × (0 < slice_index_or counts.old a 0) }
    ensures len { length ready.new ≡ length ready.old }
    ensures counts { (a : ℕ) → slice_index_or counts.new a 0 + cond (is_set needed.now node a) 1 0
        ≡ slice_index_or counts.old a 0 }
    ensures ready { (a : ℕ) → is_set ready.new 0 a ≡ (is_set ready.old 0 a
        || (is_set needed.now node a && (slice_index_or counts.new a 0 == 0))) }
{
    let mut from = 0;
    while let Some(dependent) = needed.next(node, from) {
        counts[dependent as usize] -= 1;
        if counts[dependent as usize] == 0 {
            ready.set(0, dependent);
        }
        from = dependent + 1;
    }
}

/// Each node once, always the least one whose dependencies are all listed.
pub(crate) fn sorted(alloc: Global, rows: &[Numbers], needed: &Bits) -> Result<Vec<u32>, NoMemory>
    requires few { length rows.now ≤ 1024 }
    requires inside { RowsBelow (length rows.now) rows.now }
    requires ranked { IsRanked rows.now }
    requires sized { AreSized rows.now }
    requires needed { IsNeeded (length rows.now) (is_in_row rows.now) needed.now }
    ensures order { IfOk result (λ order. IsStartupOrder rows.now order.items) }
    ensures size { IfOk result (λ order. vec_len order ≡ length rows.now) }
{
    let mut counts = sizes(alloc, rows)?;
    let mut ready = due(alloc, &counts)?;
    let mut order = Vec::new(alloc);
    while let Some(node) = ready.next(0, 0) {
        order.push(node)?;
        ready.clear(0, node);
        lower(needed, &mut counts, &mut ready, node);
    }
    Ok(order)
}
