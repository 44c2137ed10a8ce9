//! A chunk that is being built.

ghost use Rattle.std.specs.Prelude.{◌≡◌, ◌<◌, ◌+◌, ◌^◌, ◌∷◌, ◌++◌, [], ℕ, List, length, Some, IfOk, OnErr};
ghost use Rattle.lua_ast.specs.Tree.{line_of};
ghost use Rattle.lua_ast.specs.Weights.{nodes_weight, total};
ghost use Rattle.lua_ast.specs.Once.{IsEachOnce};
ghost use Rattle.lua_ast.specs.Postfix.{Leaves, parts_on};
ghost use Rattle.lua_ast.specs.Numbered.{IsNumbered};
ghost use Rattle.lua_ast.specs.Decode.{PartsBelow, node_at, line_at, node_tree, tree};

use crate::chunk::Chunk;
use crate::node::{LinedNode, Node, NodeId, lined_node};
use std::alloc::{AllocError, Global};
use std::marker::Model;

/// The nodes of a chunk so far. Each node comes after its parts.
#[derive(Debug, Drop)]
pub struct ChunkBuilder {
    nodes: Vec<LinedNode>,
}

impl Model for ChunkBuilder {
    ghost use Rattle.std.specs.Prelude.{List, length, ◌<◌, ◌^◌};
    ghost use Rattle.lua_ast.specs.declared.node.LinedNode.{LinedNode as lined};
    ghost use Rattle.lua_ast.specs.Decode.{Ordered};

    ghost Value = { List lined };

    ghost view = { λ builder. builder.nodes.items };

    ghost invariant = { λ builder. Ordered builder.nodes.items
        × (length builder.nodes.items < 2 ^ 32) };
}

impl ChunkBuilder {
    /// No node yet, which takes no memory.
    pub fn new(alloc: Global) -> ChunkBuilder
        ensures { result ≡ [] }
    {
        ChunkBuilder {
            nodes: Vec::new(alloc),
        }
    }

    /// How many nodes there are.
    pub fn len(&self) -> usize
        ensures count { result ≡ length self.now }
        ensures few { result < 2 ^ 32 }
    {
        self.nodes.len()
    }

    /// Adds a node at the end and gives its number. Its parts are among the nodes already, and no
    /// tree of these changes. The only refusal is want of memory, and it comes too where 32 bits
    /// can't number one more; then the node is dropped and the others stay.
    #[tactic(auto, using(crate::proofs::Decoding::tree_push, crate::proofs::Decoding::tree_more))]
    pub fn push(&mut self, node: Node, line: u32) -> Result<NodeId, AllocError>
        requires { PartsBelow (length self.old) node }
        ensures nodes { IfOk result (λ _.
            self.new ≡ self.old ++ record { node = node; line = line } ∷ []) }
        ensures id { IfOk result (λ id. id ≡ length self.old) }
        ensures within { IfOk result (λ id. id < length self.new) }
        ensures tree { IfOk result (λ id. (number : ℕ → ℕ) →
            tree number self.new id ≡ node_tree (tree number self.old) (number id) line node) }
        ensures older { (number : ℕ → ℕ) (i : ℕ) → i < length self.old →
            tree number self.new i ≡ tree number self.old i }
        ensures order { IfOk result (λ id. (below : List ℕ) →
            Leaves self.old (parts_on node below) → Leaves self.new (id ∷ below)) }
        ensures err { OnErr result (self.new ≡ self.old) }
    {
        let number = self.nodes.len();
        if number >= u32::MAX as usize {
            return Err(AllocError);
        }
        self.nodes.push(LinedNode { node, line })?;
        Ok(NodeId::new(number as u32))
    }

    /// The node of this number.
    #[tactic(auto, using(crate::proofs::Decoding::tree_of_node))]
    pub fn node(&self, id: NodeId) -> &Node
        requires { id < length self.now }
        ensures node { node_at self.now id ≡ Some result.now }
        ensures parts { PartsBelow id result.now }
        ensures tree { (number : ℕ → ℕ) (line : ℕ) → line_at self.now id ≡ Some line →
            tree number self.now id ≡ node_tree (tree number self.now) (number id) line result.now }
    {
        &lined_node(self.nodes.as_slice(), id).node
    }

    /// The line of this node's first token.
    #[tactic(auto, using(crate::proofs::Decoding::line_of_tree))]
    pub fn line(&self, id: NodeId) -> u32
        requires { id < length self.now }
        ensures line { line_at self.now id ≡ Some result }
        ensures tree { (number : ℕ → ℕ) → line_of (tree number self.now id) ≡ result }
    {
        lined_node(self.nodes.as_slice(), id).line
    }

    /// The chunk of these nodes, with this one as the node of the whole text. Where this node and
    /// the parts of all nodes are together each node once, whatever the nodes weigh, each stands
    /// once in the tree. Where the nodes in postfix order leave this one alone, the numbers of its
    /// tree are in the order of the text.
    #[tactic(auto, using(crate::proofs::EachOnce::each_once))]
    pub fn finish(self, root: NodeId) -> Chunk
        requires { root < length self }
        ensures nodes { result.nodes ≡ self }
        ensures root { result.root ≡ root }
        ensures once { ((w : ℕ → ℕ) → w root + nodes_weight w self ≡ total w (length self)) →
            IsEachOnce result }
        ensures numbered { Leaves self (root ∷ []) → IsNumbered result }
    {
        let ChunkBuilder { nodes } = self;
        Chunk::new(nodes, root)
    }
}
