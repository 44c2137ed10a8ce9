//! The tree of a whole text.

ghost use Rattle.std.specs.Prelude.{◌≡◌, ◌<◌, ◌^◌, ℕ, length, Some};
ghost use Rattle.lua_ast.specs.Tree.{line_of};
ghost use Rattle.lua_ast.specs.Decode.{Ordered, PartsBelow, ChunkNodes, node_at, line_at, node_tree, tree};

use crate::node::{LinedNode, Node, NodeId, lined_node};
use std::marker::Model;

/// The nodes of a text, each with its line. Parts stand before wholes, and one node is the root.
#[derive(Debug, Drop)]
pub struct Chunk {
    nodes: Vec<LinedNode>,
    root: NodeId,
}

impl Model for Chunk {
    ghost Value = { ChunkNodes };

    ghost view = { λ chunk. record { nodes = chunk.nodes.items; root = chunk.root } };

    ghost invariant = { λ chunk. Ordered chunk.nodes.items × (length chunk.nodes.items < 2 ^ 32)
        × (chunk.root < length chunk.nodes.items) };
}

impl Chunk {
    pub(crate) fn new(nodes: Vec<LinedNode>, root: NodeId) -> Chunk
        requires ordered { Ordered nodes.items }
        requires few { length nodes.items < 2 ^ 32 }
        requires within { root < length nodes.items }
        ensures nodes { result.nodes ≡ nodes.items }
        ensures root { result.root ≡ root }
    {
        Chunk { nodes, root }
    }

    /// How many nodes there are.
    pub fn len(&self) -> usize
        ensures count { result ≡ length self.now.nodes }
        ensures few { result < 2 ^ 32 }
    {
        self.nodes.len()
    }

    /// The node of the whole text.
    pub fn root(&self) -> NodeId
        ensures root { result ≡ self.now.root }
        ensures within { result < length self.now.nodes }
        ensures ordered { Ordered self.now.nodes }
    {
        self.root
    }

    /// The node of this number.
    #[tactic(auto, using(crate::proofs::Decoding::tree_of_node))]
    pub fn node(&self, id: NodeId) -> &Node
        requires { id < length self.now.nodes }
        ensures node { node_at self.now.nodes id ≡ Some result.now }
        ensures parts { PartsBelow id result.now }
        ensures tree { (number : ℕ → ℕ) (line : ℕ) → line_at self.now.nodes id ≡ Some line →
            tree number self.now.nodes id
            ≡ node_tree (tree number self.now.nodes) (number id) line result.now }
    {
        &lined_node(self.nodes.as_slice(), id).node
    }

    /// The line of this node's first token.
    #[tactic(auto, using(crate::proofs::Decoding::line_of_tree))]
    pub fn line(&self, id: NodeId) -> u32
        requires { id < length self.now.nodes }
        ensures line { line_at self.now.nodes id ≡ Some result }
        ensures tree { (number : ℕ → ℕ) → line_of (tree number self.now.nodes id) ≡ result }
    {
        lined_node(self.nodes.as_slice(), id).line
    }
}
