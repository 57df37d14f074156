//! Sets of nodes of a rule's constant terms.

ghost use Rattle.std.specs.Prelude.{◌≡◌, ◌<◌, ◌↔◌, ◌⊎◌, IsTrue};
ghost use Rattle.bindings.specs.Nodes.{Has, HasExactly};

/// How many nodes the terms of a rule have at most.
const MOST_NODES: usize = 256;

/// A set of nodes, which are given by their index among the terms. It takes no memory.
#[derive(Clone, Copy)]
pub(crate) struct Nodes {
    /// For each index whether its node is in the set.
    has: [bool; MOST_NODES],
}

impl Nodes {
    /// The empty set.
    pub(crate) fn none() -> Nodes
        ensures { HasExactly result (λ n. ⊥) }
    {
        Nodes {
            has: [false; MOST_NODES],
        }
    }

    /// Adds a node.
    pub(crate) fn insert(&mut self, node: usize)
        requires { node < 256 }
        ensures { HasExactly self.new (λ n. Has self.old n ⊎ (n ≡ node)) }
    {
        self.has[node] = true;
    }

    /// Whether a node is in the set.
    pub(crate) fn contains(&self, node: u32) -> bool
        ensures { IsTrue result ↔ Has self.now node }
    {
        match self.has.get(node as usize) {
            Some(has) => *has,
            None => false,
        }
    }
}
