//! Steps that many rules share: nodes and frames that are added.

ghost use Rattle.std.specs.Prelude.{◌≡◌, ◌<◌, ◌∷◌, ℕ, List, suc, length, Some, IfOk, OnOk, ◌≤◌, true};
ghost use Rattle.lua_ast.specs.Decode.{PartsBelow, node_tree};
ghost use Rattle.lua_grammar.specs.Pushdown.{Need, BlockNext, Have, add, depth, lift, block_of};
ghost use Rattle.lua_ast.specs.Postfix.{Leaves, parts_on};
ghost use Rattle.lua_parser_state.specs.Order.{begun_on, block_on, frame_on, state_on, Stands, Answers};
ghost use Rattle.lua_parser_state.specs.Shown.{tree_in, stack_in, state_in, begun_in, block_in, frame_in, BegunBelow, BlockBelow, FrameBelow, StateBelow, attributes};
ghost use Rattle.lua_parser_state.specs.Gave.{Gave, within};
ghost use Rattle.lua_grammar.specs.Grammar.{field_of};
ghost use Rattle.lua_parser_state.specs.declared.frame.Begun.{Begun as begun};

use crate::frame::{Begun, Frame, OpenBlock};
use crate::parser::Parser;
use crate::refusal::Refusal;
use crate::stack::levels_in;
use crate::state::State;
use lua_ast::{AstText, Literal, Node, NodeId};
use std::alloc::AllocError;

impl Parser {
    /// Adds the node of an expression, and answers the state behind it.
    pub fn give(&mut self, limit: u8, node: Node, line: u32) -> Result<State, AllocError>
        requires { PartsBelow (length self.old.nodes) node }
        ensures state { IfOk result (λ s. state_in self.new.nodes (stack_in self.new) s
            ≡ Have limit (node_tree (tree_in self.old.nodes) 0 line node) (stack_in self.old)) }
        ensures below { IfOk result (λ s. StateBelow (length self.new.nodes) s) }
        ensures order { Stands (λ below. parts_on node below) self.old → Answers result self.new }
    {
        let node = self.add(node, line)?;
        Ok(State::Have { limit, node })
    }

    /// Adds the node of a statement, and appends it to the statements of its block.
    #[tactic(auto, using(lua_ast::proofs::Growing::list_of_push, lua_ast::proofs::PlacesBelow::below_push, lua_ast::proofs::PlacesBelow::below_more, crate::proofs::Ordering::list_on_push))]
    pub fn statement(
        &mut self,
        mut block: Begun,
        node: Node,
        line: u32,
    ) -> Result<Begun, AllocError>
        requires parts { PartsBelow (length self.old.nodes) node }
        requires block { BegunBelow (length self.old.nodes) block }
        ensures block { IfOk result (λ b. begun_in self.new.nodes b
            ≡ add (begun_in self.old.nodes block) (node_tree (tree_in self.old.nodes) 0 line node)) }
        ensures stack { OnOk result (stack_in self.new ≡ stack_in self.old) }
        ensures below { IfOk result (λ b. BegunBelow (length self.new.nodes) b) }
        ensures frames { OnOk result (self.new.frames ≡ self.old.frames) }
        ensures order { IfOk result (λ b. (below : List ℕ) →
            Leaves self.old.nodes (parts_on node (begun_on block below)) → Leaves self.new.nodes (begun_on b below)) }
    {
        let id = self.add(node, line)?;
        block.stats.push(id)?;
        Ok(block)
    }

    /// Adds the node of a block with these statements.
    pub fn block(&mut self, block: Begun) -> Result<NodeId, AllocError>
        requires { BegunBelow (length self.old.nodes) block }
        ensures tree { IfOk result (λ id. tree_in self.new.nodes id ≡ block_of (begun_in self.old.nodes block)) }
        ensures within { IfOk result (λ id. id < length self.new.nodes) }
        ensures stack { OnOk result (stack_in self.new ≡ stack_in self.old) }
        ensures frames { OnOk result (self.new.frames ≡ self.old.frames) }
        ensures order { IfOk result (λ id. (below : List ℕ) →
            Leaves self.old.nodes (begun_on block below) → Leaves self.new.nodes (id ∷ below)) }
    {
        let Begun { line, stats } = block;
        Ok(self.add(Node::Block { stats }, line)?)
    }

    /// This state, if there is room for one level more.
    #[tactic(auto, using(crate::proofs::Rooms::within_room, crate::proofs::Rooms::within_deep))]
    pub fn deepen(&self, state: State) -> Result<State, Refusal>
        requires { StateBelow (length self.now.nodes) state }
        ensures gave { Gave (within (suc (depth (stack_in self.now))) (state_in self.now.nodes (stack_in self.now) state))
            (Some (state_in self.now.nodes (stack_in self.now) state)) result self.now }
        ensures order { Stands (λ below. state_on state below) self.now → Answers result self.now }
    {
        if self.depth() >= 200 {
            return Err(Refusal::TooDeep);
        }
        Ok(state)
    }

    /// Puts a frame that opens a level on top, if there is room for it, and asks for an expression of at least this level.
    #[tactic(auto, using(crate::proofs::Rooms::within_room, crate::proofs::Rooms::within_deep, crate::proofs::Rooms::lift_levels))]
    pub fn enter(&mut self, frame: Frame, limit: u8) -> Result<State, Refusal>
        requires { FrameBelow (length self.old.nodes) frame }
        ensures gave { Gave
            (within (lift (frame_in self.old.nodes frame) (depth (stack_in self.old)))
            (Need limit (frame_in self.old.nodes frame ∷ stack_in self.old)))
            (Some (Need limit (frame_in self.old.nodes frame ∷ stack_in self.old))) result self.new }
        ensures order { Stands (λ below. frame_on frame below) self.old → Answers result self.new }
    {
        if self.depth() > 200 - levels_in(&frame) {
            return Err(Refusal::TooDeep);
        }
        self.push(frame)?;
        Ok(State::Need { limit })
    }

    /// Puts the frame of a block on top, if there is room for its level, and asks for the block.
    #[tactic(auto, using(crate::proofs::Rooms::within_room, crate::proofs::Rooms::within_deep, crate::proofs::Nodes::lift_block))]
    pub fn enter_block(&mut self, outer: OpenBlock) -> Result<State, Refusal>
        requires { BlockBelow (length self.old.nodes) outer }
        ensures gave { Gave
            (within (lift (block_in self.old.nodes outer) (depth (stack_in self.old)))
            (BlockNext (block_in self.old.nodes outer ∷ stack_in self.old)))
            (Some (BlockNext (block_in self.old.nodes outer ∷ stack_in self.old))) result self.new }
        ensures order { Stands (λ below. block_on outer below) self.old → Answers result self.new }
    {
        if self.depth() > 199 {
            return Err(Refusal::TooDeep);
        }
        self.push(Frame::InBlock(outer))?;
        Ok(State::BlockNext)
    }

    /// Adds the nodes of `object.name`, where the name stands on this line.
    #[tactic(auto, using(lua_ast::proofs::PlacesBelow::below_more))]
    pub fn field(&mut self, object: NodeId, line: u32, name: AstText) -> Result<NodeId, AllocError>
        requires { object < length self.old.nodes }
        ensures tree { IfOk result (λ id. tree_in self.new.nodes id
            ≡ field_of (tree_in self.old.nodes object) (attributes true line name)) }
        ensures within { IfOk result (λ id. id < length self.new.nodes) }
        ensures stack { OnOk result (stack_in self.new ≡ stack_in self.old) }
        ensures more { OnOk result (length self.old.nodes ≤ length self.new.nodes) }
        ensures begun { OnOk result ((b : begun) → BegunBelow (length self.old.nodes) b →
            begun_in self.new.nodes b ≡ begun_in self.old.nodes b) }
        ensures frames { OnOk result (self.new.frames ≡ self.old.frames) }
        ensures order { IfOk result (λ id. (below : List ℕ) →
            Leaves self.old.nodes (object ∷ below) → Leaves self.new.nodes (id ∷ below)) }
    {
        let first_line = self.line(object);
        let value = Literal::Text(name);
        let key = self.add(Node::Const { value }, line)?;
        Ok(self.add(Node::Index { object, key }, first_line)?)
    }
}
