//! The nodes and frames of a text that is being read.

ghost use Rattle.std.specs.Prelude.{◌≡◌, ◌<◌, ◌≤◌, ◌∷◌, [], ℕ, List, length, IfOk, OnOk, IfSome, IfNone, OnSome, MatchOption};
ghost use Rattle.lua_ast.specs.Tree.{line_of};
ghost use Rattle.lua_ast.specs.Decode.{PartsBelow, node_tree};
ghost use Rattle.lua_grammar.specs.Grammar.{is_var, is_call, is_prefix};
ghost use Rattle.lua_grammar.specs.Pushdown.{level_of, depth};
ghost use Rattle.lua_parser_state.specs.declared.frame.Begun.{Begun as begun};
ghost use Rattle.lua_parser_state.specs.declared.frame.Callee.{Callee as callee};
ghost use Rattle.lua_ast.specs.Once.{IsEachOnce};
ghost use Rattle.lua_ast.specs.Numbered.{IsNumbered};
ghost use Rattle.lua_ast.specs.Postfix.{Leaves, parts_on};
ghost use Rattle.lua_parser_state.specs.Order.{Stands};
ghost use Rattle.lua_parser_state.specs.Shown.{tree_in, stack_in, begun_in, callee_in, frame_in, BegunBelow, CalleeBelow, FrameBelow};

use crate::frame::Frame;
use crate::shape;
use crate::stack::Stack;
use lua_ast::{Chunk, ChunkBuilder, Node, NodeId};
use std::alloc::{AllocError, Global};
use std::marker::Model;

/// The nodes of a text so far, and what was begun.
#[derive(Drop)]
pub struct Parser {
    alloc: Global,
    nodes: ChunkBuilder,
    stack: Stack,
}

impl Model for Parser {
    ghost use Rattle.std.specs.Prelude.{length};
    ghost use Rattle.lua_parser_state.specs.Shown.{Held, FramesBelow};

    ghost Value = { Held };

    ghost view = { λ p. record { nodes = p.nodes; frames = p.stack } };

    ghost invariant = { λ p. FramesBelow (length p.nodes) p.stack };
}

impl Parser {
    /// Nothing was read yet.
    #[tactic(auto, unfolding(crate::specs::Shown::stack_in), using(crate::proofs::Ordering::nothing_stands))]
    pub fn new(alloc: Global) -> Parser
        ensures nodes { result.nodes ≡ [] }
        ensures stack { stack_in result ≡ [] }
        ensures order { Stands (λ below. below) result }
    {
        Parser {
            alloc,
            nodes: ChunkBuilder::new(alloc),
            stack: Stack::new(alloc),
        }
    }

    /// The chunk of these nodes, with this one as the node of the whole text.
    #[tactic(auto, using(crate::proofs::Ordering::balance_of))]
    pub fn chunk(self, root: NodeId) -> Chunk
        requires within { root < length self.nodes }
        requires order { Leaves self.nodes (root ∷ []) }
        ensures nodes { result.nodes ≡ self.nodes }
        ensures root { result.root ≡ root }
        ensures once { IsEachOnce result }
        ensures numbered { IsNumbered result }
    {
        let Parser {
            alloc: _,
            nodes,
            stack: _,
        } = self;
        nodes.finish(root)
    }

    /// The allocator.
    pub fn alloc(&self) -> Global {
        self.alloc
    }

    /// How many levels are open.
    #[tactic(auto, using(crate::proofs::Nodes::depth_stack))]
    pub fn depth(&self) -> usize
        ensures { result ≡ depth (stack_in self.now) }
    {
        self.stack.depth()
    }

    /// Adds a node, whose parts are there already.
    pub fn add(&mut self, node: Node, line: u32) -> Result<NodeId, AllocError>
        requires { PartsBelow (length self.old.nodes) node }
        ensures tree { IfOk result (λ id.
            tree_in self.new.nodes id ≡ node_tree (tree_in self.old.nodes) 0 line node) }
        ensures within { IfOk result (λ id. id < length self.new.nodes) }
        ensures more { OnOk result (length self.old.nodes ≤ length self.new.nodes) }
        ensures stack { OnOk result (stack_in self.new ≡ stack_in self.old) }
        ensures frames { OnOk result (self.new.frames ≡ self.old.frames) }
        ensures older { OnOk result ((i : ℕ) → i < length self.old.nodes →
            tree_in self.new.nodes i ≡ tree_in self.old.nodes i) }
        ensures begun { OnOk result ((b : begun) → BegunBelow (length self.old.nodes) b →
            begun_in self.new.nodes b ≡ begun_in self.old.nodes b) }
        ensures callee { OnOk result ((c : callee) → CalleeBelow (length self.old.nodes) c →
            callee_in self.new.nodes c ≡ callee_in self.old.nodes c) }
        ensures order { IfOk result (λ id. (below : List ℕ) →
            Leaves self.old.nodes (parts_on node below) → Leaves self.new.nodes (id ∷ below)) }
    {
        Ok(self.nodes.push(node, line)?)
    }

    /// Puts a frame on top.
    #[tactic(auto, unfolding(crate::specs::Shown::stack_in))]
    pub fn push(&mut self, frame: Frame) -> Result<(), AllocError>
        requires { FrameBelow (length self.old.nodes) frame }
        ensures nodes { OnOk result (self.new.nodes ≡ self.old.nodes) }
        ensures stack { OnOk result (stack_in self.new ≡ frame_in self.old.nodes frame ∷ stack_in self.old) }
        ensures frames { OnOk result (self.new.frames ≡ frame ∷ self.old.frames) }
    {
        self.stack.push(frame)
    }

    /// Takes the frame on top off.
    #[tactic(auto, unfolding(crate::specs::Shown::stack_in))]
    pub fn pop(&mut self) -> Option<Frame>
        ensures nodes { self.new.nodes ≡ self.old.nodes }
        ensures empty { IfNone result (self.new.frames ≡ []) }
        ensures stack { MatchOption result (stack_in self.old ≡ [])
            (λ frame. stack_in self.old ≡ frame_in self.old.nodes frame ∷ stack_in self.new) }
        ensures below { IfSome result (λ frame. FrameBelow (length self.old.nodes) frame) }
        ensures fewer { OnSome result (length self.new.frames < length self.old.frames) }
        ensures frames { IfSome result (λ frame. self.old.frames ≡ frame ∷ self.new.frames) }
    {
        self.stack.pop()
    }

    /// The line of a node.
    pub fn line(&self, id: NodeId) -> u32
        requires { id < length self.now.nodes }
        ensures { result ≡ line_of (tree_in self.now.nodes id) }
    {
        self.nodes.line(id)
    }

    /// The node of this number.
    pub fn node(&self, id: NodeId) -> &Node
        requires { id < length self.now.nodes }
        ensures { tree_in self.now.nodes id ≡ node_tree (tree_in self.now.nodes) 0
            (line_of (tree_in self.now.nodes id)) result.now }
    {
        self.nodes.node(id)
    }

    /// Whether a node can be assigned to.
    pub fn is_var(&self, id: NodeId) -> bool
        requires { id < length self.now.nodes }
        ensures { result ≡ is_var (tree_in self.now.nodes id) }
    {
        shape::is_var(self.node(id))
    }

    /// Whether it is a call.
    pub fn is_call(&self, id: NodeId) -> bool
        requires { id < length self.now.nodes }
        ensures { result ≡ is_call (tree_in self.now.nodes id) }
    {
        shape::is_call(self.node(id))
    }

    /// Whether it can be indexed and called.
    pub fn is_prefix(&self, id: NodeId) -> bool
        requires { id < length self.now.nodes }
        ensures { result ≡ is_prefix (tree_in self.now.nodes id) }
    {
        shape::is_prefix(self.node(id))
    }

    /// The level of an expression.
    pub fn level_of(&self, id: NodeId) -> u8
        requires { id < length self.now.nodes }
        ensures { result ≡ level_of (tree_in self.now.nodes id) }
    {
        shape::level_of(self.node(id))
    }
}
