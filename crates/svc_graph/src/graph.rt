//! The graph of dependencies.

ghost use Rattle.std.specs.Prelude.{◌≡◌, ◌↔◌, IsTrue, ◌<◌, ◌≤◌, ◌+◌, ◌==◌, ◌&&◌, ◌||◌, ℕ, [], ◌∷◌, ◌++◌, length, slice_get, slice_set, Some, IsErrAnd, IfOk, IfErr, OnOk, OnErr, vec_len, vec_capacity, nat_lt, true};
ghost use Rattle.std.specs.List.Sorted.{IsStrictlyIncreasing};
ghost use Rattle.svc_graph.specs.Graphs.{row_of, is_listed};
ghost use Rattle.svc_graph.specs.Bits.{is_set, HasRows};

mod waiting;

use crate::above::Above;
use crate::bits::Bits;
use crate::sort::sorted;
use std::alloc::Global;
use std::marker::Model;
use svc_base::{NoMemory, Numbers, Text, Texts};
use thiserror::Error;
pub use waiting::Waiting;

/// How many nodes a graph has at most.
pub const NODE_LIMIT: u64 = 1024;

/// Why a node isn't taken into the graph.
#[derive(Clone, Copy, PartialEq, Eq, Debug, Error)]
pub enum AddNodeReason {
    /// The graph has as many nodes as it may have.
    #[error("too many services")]
    TooMany,
    /// There was no memory.
    #[error("out of memory")]
    NoMemory,
}

/// A node that isn't taken into the graph: its name comes back.
#[derive(Debug, Drop)]
pub struct AddNodeRefused {
    pub reason: AddNodeReason,
    pub name: Text,
}

/// Why a dependency isn't taken into the graph.
#[derive(Clone, Copy, PartialEq, Eq, Debug, Error)]
pub enum DependencyError {
    /// The dependency is the dependent itself, or depends on it already.
    #[error("Circular service dependency detected between {dependency} and {dependent}")]
    Circular { dependency: u32, dependent: u32 },
    /// One of the numbers isn't in the graph.
    #[error("Unknown service")]
    UnknownService,
    /// There was no memory.
    #[error("out of memory")]
    NoMemory,
}

impl From<NoMemory> for DependencyError {
    ghost use Rattle.std.specs.Prelude.{◌≡◌};
    ghost use Rattle.svc_graph.specs.declared.graph.DependencyError.TheVariants as errors;

    ghost from_gives = { λ _ error. error ≡ errors.NoMemory };

    fn from(_: NoMemory) -> Self {
        DependencyError::NoMemory
    }
}

/// Services, numbered from 0 as they come, and for each the services that it depends on. No service
/// depends on itself by any chain.
#[derive(Debug, Drop)]
pub struct DependencyGraph {
    names: Texts,
    /// The dependencies of each service, as they came.
    rows: Vec<Numbers>,
    /// Row b has the bit of each service that depends on b.
    needed: Bits,
    /// The services that lead to the one whose dependencies were added last.
    above: Above,
}

impl Model for DependencyGraph {
    ghost use Rattle.std.specs.Prelude.{length};
    ghost use Rattle.svc_graph.specs.GraphData.{GraphData};
    ghost use Rattle.svc_graph.specs.Ranks.{IsKept};

    ghost Value = { GraphData };

    ghost view = { λ g. record { names = g.names; depends = g.rows.items } };

    ghost invariant = { λ g. IsKept (length g.names) g.rows.items g.needed g.above.nodes g.above.node };
}

/// Appends to a row.
fn push_edge(
    alloc: Global,
    rows: &mut [Numbers],
    dependent: u32,
    dependency: u32,
) -> Result<(), NoMemory>
    requires { dependent < length rows.old }
    ensures pushed { OnOk result (rows.new
        ≡ slice_set rows.old dependent (row_of rows.old dependent ++ dependency ∷ [])) }
    ensures refused { OnErr result (rows.new ≡ rows.old) }
{
    match rows[dependent as usize].push(alloc, dependency) {
        Ok(()) => Ok(()),
        Err(refused) => Err(refused.reason),
    }
}

/// Makes room for one more row, and for the bits of this many nodes.
fn make_room(rows: &mut Vec<Numbers>, needed: &mut Bits, count: u32) -> Result<(), NoMemory>
    ensures items { rows.new.items ≡ rows.old.items }
    ensures room { OnOk result (vec_len rows.new < vec_capacity rows.new) }
    ensures needed { (a b : ℕ) → is_set needed.new a b ≡ is_set needed.old a b }
    ensures needed_rows { OnOk result (HasRows needed.new count) }
    ensures needed_kept { length needed.old ≤ length needed.new }
{
    needed.grow(count)?;
    rows.reserve(1)?;
    Ok(())
}

/// The nodes whose row has the bit, in ascending order.
fn rows_with(alloc: Global, bits: &Bits, count: u32, node: u32) -> Result<Vec<u32>, NoMemory>
    requires few { count ≤ 1024 }
    requires rows { HasRows bits.now count }
    requires node { node < 1024 }
    ensures order { IfOk result (λ nodes. IsStrictlyIncreasing nodes.items) }
    ensures same { IfOk result (λ nodes. (a : ℕ)
        → is_listed nodes.items a ≡ (nat_lt a count && is_set bits.now a node)) }
{
    let mut nodes = Vec::new(alloc);
    for row in 0..count {
        if bits.has(row, node) {
            nodes.push(row)?;
        }
    }
    Ok(nodes)
}

/// Each number is greater than the one before it.
fn is_ascending(numbers: &[u32]) -> bool
    ensures { result ≡ true → IsStrictlyIncreasing numbers.now }
{
    for k in 1..numbers.len() {
        if numbers[k] <= numbers[k - 1] {
            return false;
        }
    }
    true
}

/// Whether the name stands at the number.
fn is_named(names: &[Text], s: u32, name: &str) -> bool
    ensures { IsTrue result ↔ (slice_get names.now s ≡ Some name.now) }
{
    match names.get(s as usize) {
        Some(known) => known.as_str() == name,
        None => false,
    }
}

impl DependencyGraph {
    ghost use Rattle.svc_graph.specs.Graphs.{IsGraph, IsUnknown, LeadsBack, node_count, is_edge, with_node, with_edge, IsNamed, IsStartupOrder};
    ghost use Rattle.svc_graph.specs.Refusals.{RefusalFits};

    /// A graph without nodes.
    pub fn new(alloc: Global) -> Self
        ensures empty { result ≡ record { names = []; depends = [] } }
        ensures graph { IsGraph result }
    {
        DependencyGraph {
            names: Texts::new(alloc),
            rows: Vec::new(alloc),
            needed: Bits::new(alloc),
            above: Above::new(alloc),
        }
    }

    /// How many nodes there are. They have the numbers below.
    pub fn len(&self) -> u64
        ensures count { result ≡ node_count self.now }
        ensures graph { IsGraph self.now }
    {
        self.names.len()
    }

    /// Whether there is no node.
    pub fn is_empty(&self) -> bool
        ensures { result ≡ (node_count self.now == 0) }
    {
        self.names.is_empty()
    }

    /// Takes a node that depends on none, and answers its number, the next one.
    pub fn add_node(&mut self, alloc: Global, name: Text) -> Result<u32, AddNodeRefused>
        ensures number { IfOk result (λ number. number ≡ node_count self.old) }
        ensures added { OnOk result (self.new ≡ with_node self.old name) }
        ensures too_many { node_count self.old ≡ NODE_LIMIT
            → IsErrAnd result (λ refused. refused.reason ≡ AddNodeReason.TooMany) }
        ensures only_then { IfErr result
            (λ refused. refused.reason ≡ AddNodeReason.TooMany → node_count self.old ≡ NODE_LIMIT) }
        ensures back { IfErr result (λ refused. refused.name ≡ name) }
        ensures unchanged { OnErr result (self.new ≡ self.old) }
        ensures graph { IsGraph self.new }
    {
        let number = self.names.len();
        if number >= NODE_LIMIT {
            return Err(AddNodeRefused {
                reason: AddNodeReason::TooMany,
                name,
            });
        }
        let number = number as u32;
        if make_room(&mut self.rows, &mut self.needed, number + 1).is_err() {
            return Err(AddNodeRefused {
                reason: AddNodeReason::NoMemory,
                name,
            });
        }
        match self.names.push(alloc, name) {
            Ok(()) => {
                self.rows.push_reserved(Numbers::new(alloc));
                Ok(number)
            }
            Err(refused) => Err(AddNodeRefused {
                reason: AddNodeReason::NoMemory,
                name: refused.item,
            }),
        }
    }

    /// Whether the number is in the graph and has this name.
    pub fn is_named(&self, s: u32, name: &str) -> bool
        ensures named { IsTrue result ↔ IsNamed self.now s name.now }
        ensures graph { IsGraph self.now }
    {
        is_named(self.names.as_slice(), s, name)
    }

    /// The dependent waits for the dependency from now on. Where it does already, nothing changes.
    pub fn add_dependency(
        &mut self,
        alloc: Global,
        dependent: u32,
        dependency: u32,
    ) -> Result<(), DependencyError>
        ensures added { OnOk result (self.new ≡ with_edge self.old dependent dependency) }
        ensures names { self.new.names ≡ self.old.names }
        ensures edges { OnOk result ((a b : ℕ)
            → is_edge self.new a b ≡ (is_edge self.old a b || (a == dependent && b == dependency))) }
        ensures no_cycle { OnOk result (LeadsBack self.old dependent dependency → ⊥) }
        ensures unknown { IsUnknown self.old dependent dependency
            → result ≡ Err DependencyError.UnknownService }
        ensures refusal { IfErr result (λ error. RefusalFits self.old dependent dependency error) }
        ensures unchanged { OnErr result (self.new ≡ self.old) }
        ensures graph { IsGraph self.new }
    {
        let count = self.names.len();
        if dependent as u64 >= count || dependency as u64 >= count {
            return Err(DependencyError::UnknownService);
        }
        if self.needed.has(dependency, dependent) {
            return Ok(());
        }
        let is_leaf = self.rows[dependency as usize].is_empty();
        let edge = (dependent, dependency);
        if self
            .above
            .leads_back(alloc, &self.needed, count as u32, edge, is_leaf)?
        {
            return Err(DependencyError::Circular {
                dependency,
                dependent,
            });
        }
        push_edge(alloc, &mut self.rows, dependent, dependency)?;
        self.needed.set(dependency, dependent);
        Ok(())
    }

    /// The startup order: each node once, always the least one whose dependencies are all listed.
    pub fn topological_sort(&self, alloc: Global) -> Result<Vec<u32>, NoMemory>
        ensures order { IfOk result (λ order. IsStartupOrder self.now.depends order.items) }
        ensures size { IfOk result (λ order. vec_len order ≡ node_count self.now) }
        ensures graph { IsGraph self.now }
    {
        sorted(alloc, &self.rows, &self.needed)
    }

    /// The numbers that a number of the graph depends on, in ascending order.
    pub fn get_dependencies(&self, alloc: Global, s: u32) -> Result<Vec<u32>, NoMemory>
        requires { s < node_count self.now }
        ensures order { IfOk result (λ numbers. IsStrictlyIncreasing numbers.items) }
        ensures edges { IfOk result (λ numbers. (a : ℕ)
            → is_listed numbers.items a ≡ is_edge self.now s a) }
        ensures graph { IsGraph self.now }
    {
        let row = self.rows[s as usize].as_slice();
        if is_ascending(row) {
            return Ok(row.to_vec(alloc)?);
        }
        rows_with(alloc, &self.needed, self.names.len() as u32, s)
    }
}
