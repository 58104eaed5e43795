//! The nodes of a graph that are marked one after another, with counts of what each still waits for.

ghost use Rattle.std.specs.Prelude.{◌≡◌, ◌<◌, ◌≤◌, ◌+◌, ◌++◌, ◌∷◌, ℕ, [], true, false, length, cond, slice_index_or, slice_set, All, IfOk, OnOk};
ghost use Rattle.std.specs.List.Sorted.{IsStrictlyIncreasing};
ghost use Rattle.svc_graph.specs.Bits.{is_set, HasRows};
ghost use Rattle.svc_graph.specs.Counts.{those_of};
ghost use Rattle.svc_graph.specs.Graphs.{node_count, is_edge, is_listed};
ghost use Rattle.svc_graph.specs.Waitings.{AreRows, dependents_at};

use super::DependencyGraph;
use crate::bits::Bits;
use crate::sort::sizes;
use std::alloc::Global;
use std::marker::Model;
use std::sync::ledger::Ledger;
use svc_base::NoMemory;
use svc_history::Steps;

/// A graph's edges and a set of its nodes, those that are marked. It counts for each node how many of
/// its dependencies aren't marked.
#[derive(Debug, Drop)]
pub struct Waiting {
    /// How many dependencies of each node aren't marked.
    counts: Vec<u32>,
    /// The nodes that depend on the first node in ascending order, then those that depend on the next one.
    dependents: Vec<u32>,
    /// Where those of each node begin, and at last where all end.
    starts: Vec<u32>,
    marks: Vec<bool>,
}

impl Model for Waiting {
    ghost use Rattle.std.specs.Prelude.{length};
    ghost use Rattle.svc_graph.specs.WaitingData.{WaitingData};
    ghost use Rattle.svc_graph.specs.Waitings.{IsCounted, is_dependent, rows_of_test};

    ghost Value = { WaitingData };

    ghost view = { λ w. record {
      depends = rows_of_test (is_dependent w.dependents.items w.starts.items) (length w.marks.items) (length w.marks.items);
      marks = w.marks.items;
    } };

    ghost invariant = { λ w. IsCounted w.counts.items w.dependents.items w.starts.items w.marks.items };
}

/// One less is missing of each node of an ascending list, in one step each.
fn lower<L: Ledger>(row: &[u32], counts: &mut [u32], steps: &mut Steps<L>)
    requires rises { IsStrictlyIncreasing row.now }
    requires some { (a : ℕ) → is_listed row.now a ≡ true
        → (a < length counts.old) × (0 < slice_index_or counts.old a 0) }
    ensures counts { (a : ℕ) → slice_index_or counts.new a 0 + cond (is_listed row.now a) 1 0
        ≡ slice_index_or counts.old a 0 }
    ensures steps { steps.new ≡ steps.old + length row.now }
{
    for dependent in row {
        counts[*dependent as usize] -= 1;
        steps.tick();
    }
}

/// Appends the nodes that depend on this one, in ascending order.
fn push_row(rows: &mut Vec<u32>, needed: &Bits, node: u32) -> Result<(), NoMemory>
    requires { HasRows needed.now (node + 1) }
    ensures { OnOk result (rows.new.items
        ≡ rows.old.items ++ those_of (is_set needed.now node)) }
{
    let mut from = 0;
    while let Some(dependent) = needed.next(node, from) {
        rows.push(dependent)?;
        from = dependent + 1;
    }
    Ok(())
}

/// Appends the dependents of each of so many nodes, and after each where those of the next one begin.
fn push_rows(
    rows: &mut Vec<u32>,
    starts: &mut Vec<u32>,
    needed: &Bits,
    nodes: u32,
) -> Result<(), NoMemory>
    requires few { nodes ≤ 1024 }
    requires needed { HasRows needed.now nodes }
    requires none { rows.old.items ≡ [] }
    requires first { starts.old.items ≡ 0 ∷ [] }
    ensures { OnOk result (AreRows needed.now nodes rows.new.items starts.new.items) }
{
    for node in 0..nodes {
        push_row(rows, needed, node)?;
        starts.push(rows.len() as u32)?;
    }
    Ok(())
}

/// How many there are of all.
fn total(counts: &[u32]) -> usize {
    let mut total = 0usize;
    for count in counts {
        total = total.saturating_add(*count as usize);
    }
    total
}

/// The nodes that depend on this one.
fn dependents_at<'a>(dependents: &'a [u32], starts: &[u32], node: u32) -> &'a [u32]
    requires node { node + 1 < length starts.now }
    requires rises { slice_index_or starts.now node 0 ≤ slice_index_or starts.now (node + 1) 0 }
    requires within { slice_index_or starts.now (node + 1) 0 ≤ length dependents.now }
    ensures { result.now ≡ dependents_at dependents.now starts.now node }
{
    &dependents[starts[node as usize] as usize..starts[node as usize + 1] as usize]
}

impl Waiting {
    ghost use Rattle.svc_graph.specs.Marks.{is_marked};
    ghost use Rattle.svc_graph.specs.Waitings.{waits_for, missing_of, dependents_of};

    /// A graph's edges, with no node marked.
    pub fn new(alloc: Global, graph: &DependencyGraph) -> Result<Waiting, NoMemory>
        ensures nodes { IfOk result (λ w. length w.marks ≡ node_count graph.now) }
        ensures edges { IfOk result (λ w. (a b : ℕ) → waits_for w a b ≡ is_edge graph.now a b) }
        ensures marks { IfOk result (λ w. (a : ℕ) → is_marked w.marks a ≡ false) }
    {
        let counts = sizes(alloc, &graph.rows)?;
        let mut dependents = Vec::new(alloc);
        dependents.reserve(total(&counts))?;
        let mut starts = vec![in alloc; 0u32]?;
        push_rows(
            &mut dependents,
            &mut starts,
            &graph.needed,
            graph.rows.len() as u32,
        )?;
        let marks = vec![in alloc; false; graph.rows.len()]?;
        Ok(Waiting {
            counts,
            dependents,
            starts,
            marks,
        })
    }

    /// How many dependencies of the node aren't marked.
    pub fn missing(&self, s: u32) -> u64
        requires { s < length self.now.marks }
        ensures { result ≡ missing_of self.now s }
    {
        self.counts[s as usize] as u64
    }

    /// Whether the node is marked.
    pub fn marked(&self, s: u32) -> bool
        requires { s < length self.now.marks }
        ensures { result ≡ is_marked self.now.marks s }
    {
        self.marks[s as usize]
    }

    /// The nodes that depend on this one, in ascending order.
    pub fn dependents(&self, s: u32) -> &[u32]
        requires { s < length self.now.marks }
        ensures listed { (a : ℕ) → is_listed result.now a ≡ waits_for self.now a s }
        ensures inside { All (λ a. a < length self.now.marks) result.now }
    {
        dependents_at(&self.dependents, &self.starts, s)
    }

    /// Marks the node, in as many steps as nodes depend on it.
    pub fn mark<L: Ledger>(&mut self, s: u32, steps: &mut Steps<L>)
        requires node { s < length self.old.marks }
        requires fresh { is_marked self.old.marks s ≡ false }
        ensures depends { self.new.depends ≡ self.old.depends }
        ensures marks { self.new.marks ≡ slice_set self.old.marks s true }
        ensures steps { steps.new ≡ steps.old + dependents_of self.old s }
    {
        lower(
            dependents_at(&self.dependents, &self.starts, s),
            &mut self.counts,
            steps,
        );
        self.marks[s as usize] = true;
    }
}
