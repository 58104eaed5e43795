//! The accept loops that ended.

ghost use Rattle.std.specs.Prelude.{◌≡◌, ◌+◌, ◌-◌, ◌<◌, ◌++◌, ◌∷◌, ◌==◌, ◌&&◌, [], ℕ, OnOk, IfOk, length, vec_len, vec_capacity};
ghost use Rattle.svc_base.specs.Items.{list_of, spare};
ghost use Rattle.svc_endpoints.specs.Loops.{is_loop, has_loop, loop_count, last_end, AreLinked};

use crate::tallies::{TallyRow, count_end, new_tallies, tally_of};
use std::alloc::Global;
use std::marker::Model;
use svc_base::NoMemory;
use svc_record::Plan;

/// A loop of an endpoint that ended.
#[derive(Clone, Copy, Drop)]
pub(crate) struct LoopEnd {
    pub service: usize,
    pub endpoint: usize,
    pub number: u64,
}

/// Loops that ended, in order. Contracts see them and for how many more there is memory. Beside each stands
/// how many had ended with the one before it of the same endpoint, and there is a tally of each endpoint of
/// the plan, so that none but an endpoint's own loops are walked.
#[derive(Drop)]
pub(crate) struct Loops {
    ends: Vec<LoopEnd>,
    before: Vec<usize>,
    rows: Vec<TallyRow>,
}

impl Model for Loops {
    ghost use Rattle.std.specs.Prelude.{List, ℕ, ◌-◌, min, vec_capacity, vec_len};
    ghost use Rattle.svc_endpoints.specs.declared.loops.LoopEnd.{LoopEnd};
    ghost use Rattle.svc_endpoints.specs.Loops.{AreTallied};

    ghost Value = { List LoopEnd × ℕ };

    ghost view = { λ l. (l.ends.items, min (vec_capacity l.ends - vec_len l.ends) (vec_capacity l.before - vec_len l.before)) };

    ghost invariant = { λ l. AreTallied l.ends.items l.before.items l.rows.items };
}

fn is_loop(end: &LoopEnd, s: usize, i: usize, j: u64) -> bool
    ensures { result ≡ is_loop s i j end.now }
{
    end.service == s && end.endpoint == i && end.number == j
}

/// The loop ended.
fn has_loop(loops: &[LoopEnd], s: usize, i: usize, j: u64) -> bool
    ensures { result ≡ has_loop loops.now s i j }
{
    loops.iter().any(|x| is_loop(x, s, i, j))
}

/// The loop ended, by the links among the endpoint's loops.
fn has_linked(loops: &[LoopEnd], before: &[usize], last: usize, s: usize, i: usize, j: u64) -> bool
    requires long { length before.now ≡ length loops.now }
    requires last { last ≡ last_end loops.now s i (length loops.now) }
    requires links { AreLinked loops.now before.now s i }
    ensures { result ≡ has_loop loops.now s i j }
{
    let mut at = last;
    while at > 0 {
        if is_loop(&loops[at - 1], s, i, j) {
            return true;
        }
        at = before[at - 1];
    }
    false
}

/// How many loops of the endpoint ended.
fn loop_count(loops: &[LoopEnd], s: usize, i: usize) -> usize
    ensures { result ≡ loop_count loops.now s i }
{
    loops
        .iter()
        .filter(|x| x.service == s && x.endpoint == i)
        .count()
}

/// Each of the endpoint's loops ended.
pub(crate) fn is_done(loops: &Loops, tasks: u64, s: usize, i: usize) -> bool
    ensures { result ≡ (loop_count (list_of loops.now) s i == tasks) }
{
    loops.count(s, i) as u64 == tasks
}

/// Puts into reserved room.
fn push_reserved<T: Copy + Drop>(list: &mut Vec<T>, item: T)
    requires { vec_len list.old < vec_capacity list.old }
    ensures { list.new.items ≡ list.old.items ++ (item ∷ []) }
{
    let _ = list.push(item);
}

impl Loops {
    /// No loop of the plan's endpoints ended.
    pub(crate) fn new(alloc: Global, plan: &Plan) -> Result<Loops, NoMemory>
        ensures { IfOk result (λ l. list_of l ≡ []) }
    {
        let rows = new_tallies(alloc, plan)?;
        Ok(Loops {
            ends: Vec::new(alloc),
            before: Vec::new(alloc),
            rows,
        })
    }

    /// After it there is room for one more.
    pub(crate) fn reserve(&mut self) -> Result<(), NoMemory>
        ensures ends { list_of self.new ≡ list_of self.old }
        ensures room { OnOk result (0 < spare self.new) }
    {
        self.ends.reserve(1)?;
        self.before.reserve(1)?;
        Ok(())
    }

    /// How many loops of the endpoint ended.
    pub(crate) fn count(&self, s: usize, i: usize) -> usize
        ensures { result ≡ loop_count (list_of self.now) s i }
    {
        match tally_of(&self.rows, s, i) {
            Some(tally) => tally.count,
            None => loop_count(&self.ends, s, i),
        }
    }

    /// The loop ended.
    pub(crate) fn has(&self, s: usize, i: usize, j: u64) -> bool
        ensures { result ≡ has_loop (list_of self.now) s i j }
    {
        match tally_of(&self.rows, s, i) {
            Some(tally) => has_linked(&self.ends, &self.before, tally.last, s, i, j),
            None => has_loop(&self.ends, s, i, j),
        }
    }

    /// Takes the end of a loop.
    pub(crate) fn add(&mut self, end: LoopEnd)
        requires { 0 < spare self.old }
        ensures { list_of self.new ≡ list_of self.old ++ (end ∷ []) }
    {
        let ended = self.ends.len() + 1;
        let last = count_end(&mut self.rows, end.service, end.endpoint, ended);
        push_reserved(&mut self.before, last);
        push_reserved(&mut self.ends, end);
    }
}
