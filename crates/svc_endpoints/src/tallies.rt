//! How many loops of each endpoint ended, and which of them was the last.

ghost use Rattle.std.specs.Prelude.{◌≡◌, ◌+◌, ◌<◌, ◌≤◌, length, ℕ, slice_index_or, MatchOption, IfOk};
ghost use Rattle.svc_record.specs.Plans.{service_count};
ghost use Rattle.svc_endpoints.specs.Loops.{untold, tally_at, HasTally, counted, counted_in};

use crate::naming::{endpoint_count, service_count};
use std::alloc::Global;
use std::marker::Model;
use svc_base::NoMemory;
use svc_record::Plan;

/// What is known of one endpoint's loops.
#[derive(Clone, Copy, Drop)]
pub(crate) struct Tally {
    /// How many of them ended.
    pub count: usize,
    /// How many loops of all endpoints had ended with the last of them, 0 where none did.
    pub last: usize,
}

/// The tallies of one service's endpoints.
#[derive(Drop)]
pub(crate) struct TallyRow {
    tallies: Vec<Tally>,
}

impl Model for TallyRow {
    ghost use Rattle.std.specs.Prelude.{List};
    ghost use Rattle.svc_endpoints.specs.declared.tallies.Tally.{Tally};

    ghost Value = { List Tally };

    ghost view = { λ r. r.tallies.items };
}

impl TallyRow {
    /// No loop of so many endpoints ended.
    fn new(alloc: Global, count: usize) -> Result<TallyRow, NoMemory>
        ensures { IfOk result (λ row. (i : ℕ) → slice_index_or row i untold ≡ untold) }
    {
        let tally = Tally { count: 0, last: 0 };
        let tallies = vec![in alloc; tally; count]?;
        Ok(TallyRow { tallies })
    }

    /// What is known of the endpoint, if it is one of the service's.
    fn get(&self, i: usize) -> Option<Tally>
        ensures { MatchOption result (length self.now ≤ i) (λ t. (i < length self.now) × (t ≡ slice_index_or self.now i untold)) }
    {
        if i < self.tallies.len() {
            return Some(self.tallies[i]);
        }
        None
    }

    /// One more loop of the endpoint ended, so many in all with it. How many had ended with the endpoint's
    /// last one before.
    fn count(&mut self, i: usize, ended: usize) -> usize
        requires { (slice_index_or self.old i untold).count < ended }
        ensures row { self.new ≡ counted self.old i ended }
        ensures before { result ≡ (slice_index_or self.old i untold).last }
    {
        if i >= self.tallies.len() {
            return 0;
        }
        let tally = self.tallies[i];
        self.tallies[i] = Tally {
            count: tally.count + 1,
            last: ended,
        };
        tally.last
    }
}

/// No loop of the plan's endpoints ended.
pub(crate) fn new_tallies(alloc: Global, plan: &Plan) -> Result<Vec<TallyRow>, NoMemory>
    ensures { IfOk result (λ rows. (s i : ℕ) → tally_at rows.items s i ≡ untold) }
{
    let mut rows = Vec::new(alloc);
    for s in 0..service_count(plan) {
        let row = TallyRow::new(alloc, endpoint_count(plan, s))?;
        match rows.push(row) {
            Ok(()) => {}
            Err(_) => return Err(NoMemory),
        }
    }
    Ok(rows)
}

/// What is known of the endpoint, if it is one of the plan's.
pub(crate) fn tally_of(rows: &[TallyRow], s: usize, i: usize) -> Option<Tally>
    ensures { MatchOption result (HasTally rows.now s i → ⊥) (λ t. HasTally rows.now s i × t ≡ tally_at rows.now s i) }
{
    if s >= rows.len() {
        return None;
    }
    rows[s].get(i)
}

/// One more loop of the endpoint ended, so many in all with it. How many had ended with the endpoint's last
/// one before.
pub(crate) fn count_end(rows: &mut Vec<TallyRow>, s: usize, i: usize, ended: usize) -> usize
    requires { (tally_at rows.old.items s i).count < ended }
    ensures rows { rows.new.items ≡ counted_in rows.old.items s i ended }
    ensures before { result ≡ (tally_at rows.old.items s i).last }
{
    if s >= rows.len() {
        return 0;
    }
    let row = &mut rows[s];
    row.count(i, ended)
}
