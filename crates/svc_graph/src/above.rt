//! Which nodes lead to a node.

ghost use Rattle.std.specs.Prelude.{◌≡◌, ◌<◌, ◌≤◌, ℕ, true, false, ◌⊎◌, IfOk, OnOk, OnErr};
ghost use Rattle.svc_graph.specs.Bits.{is_set, HasRows};
ghost use Rattle.svc_graph.specs.Ranks.{IsAbove, KeepsAbove, KeepsWith, needs};
ghost use Rattle.svc_graph.specs.Paths.{Path};
ghost use Rattle.svc_graph.specs.Marks.{Divides};

use crate::bits::Bits;
use std::alloc::Global;
use svc_base::NoMemory;

/// The nodes that lead to a node by a chain, and the node itself.
#[derive(Debug, Drop)]
pub(crate) struct Above {
    /// The node, where one was looked for.
    pub node: Option<u32>,
    /// Their bits, in one row.
    pub nodes: Bits,
}

/// The nodes that lead to this one, and the node itself, as a row of bits.
fn leading(alloc: Global, needed: &Bits, count: u32, node: u32) -> Result<Bits, NoMemory>
    requires few { count ≤ 1024 }
    requires rows { HasRows needed.now count }
    requires inside { (a b : ℕ) → is_set needed.now b a ≡ true → a < count }
    requires node { node < count }
    ensures { IfOk result (λ found. IsAbove needed.now found node) }
{
    let mut found = Bits::new(alloc);
    found.grow(1)?;
    found.set(0, node);
    let mut stack = Vec::new(alloc);
    stack.push(node)?;
    while let Some(top) = stack.pop() {
        if let Some(next) = found.other(0, needed, top) {
            found.set(0, next);
            stack.push(top)?;
            stack.push(next)?;
        }
    }
    Ok(found)
}

impl Above {
    /// No node was looked for yet.
    pub fn new(alloc: Global) -> Self
        ensures { result.node ≡ None }
    {
        Above {
            node: None,
            nodes: Bits::new(alloc),
        }
    }

    /// Looks for the nodes that lead to this one, unless they are known.
    fn look_up(
        &mut self,
        alloc: Global,
        needed: &Bits,
        count: u32,
        node: u32,
    ) -> Result<(), NoMemory>
        requires few { count ≤ 1024 }
        requires rows { HasRows needed.now count }
        requires inside { (a b : ℕ) → is_set needed.now b a ≡ true → a < count }
        requires node { node < count }
        requires kept { KeepsAbove needed.now self.old.nodes self.old.node }
        ensures node { OnOk result (self.new.node ≡ Some node) }
        ensures found { OnOk result (IsAbove needed.now self.new.nodes node) }
        ensures unchanged { OnErr result (self.new ≡ self.old) }
    {
        if self.node != Some(node) {
            self.nodes = leading(alloc, needed, count, node)?;
            self.node = Some(node);
        }
        Ok(())
    }

    /// Whether the dependency is the dependent or leads to it. Where it depends on none, nothing has to be looked for.
    pub fn leads_back(
        &mut self,
        alloc: Global,
        needed: &Bits,
        count: u32,
        edge: (u32, u32),
        is_leaf: bool,
    ) -> Result<bool, NoMemory>
        requires few { count ≤ 1024 }
        requires rows { HasRows needed.now count }
        requires inside { (a b : ℕ) → is_set needed.now b a ≡ true → a < count }
        requires dependent { edge.0 < count }
        requires dependency { edge.1 < count }
        requires kept { KeepsAbove needed.now self.old.nodes self.old.node }
        requires leaf { is_leaf ≡ true → (b : ℕ) → needs needed.now edge.1 b ≡ false }
        ensures led { IfOk result (λ led. led ≡ true → (edge.1 ≡ edge.0) ⊎ Path (needs needed.now) edge.1 edge.0) }
        ensures apart { IfOk result (λ led. led ≡ false → Divides (needs needed.now) edge.1 edge.0) }
        ensures kept { KeepsAbove needed.now self.new.nodes self.new.node }
        ensures later { IfOk result (λ led. led ≡ false → KeepsWith needed.now edge.0 edge.1 self.new.nodes self.new.node) }
    {
        let (dependent, dependency) = edge;
        if is_leaf && self.node != Some(dependent) && dependency != dependent {
            self.node = None;
            return Ok(false);
        }
        self.look_up(alloc, needed, count, dependent)?;
        Ok(self.nodes.has(0, dependency))
    }
}
