//! The parts of a node by its number. What a node hasn't is 0, none or nothing.

ghost use Rattle.std.specs.Prelude.{◌≡◌, ◌<◌, ◌+◌, ◌^◌, None, IfSome, IfNone, slice_get, drop};
ghost use Rattle.std.specs.Option.{option_copied};
ghost use Rattle.lua_steps.specs.Parts.{line_number, list_at, name_count_at, targets_at, test_at, block_at, tests_at, blocks_at, otherwise_at, limit_at, step_at, key_at, name_there, right_at, binary_at, logic_at, unary_at, fields_at, no_field_left};
ghost use Rattle.lua_steps.specs.Starts.{IsNode};

use lua_ast::{BinOp, Chunk, Field, Ids, LogicOp, Node, NodeId, UnOp};

/// The node of this number.
pub fn node_at(chunk: &Chunk, id: NodeId) -> Option<&Node>
    ensures there { IfSome result (λ node. IsNode chunk.now.nodes id node.now) }
    ensures past { IfNone result (slice_get chunk.now.nodes id ≡ None) }
{
    if id.index() < chunk.len() {
        Some(chunk.node(id))
    } else {
        None
    }
}

/// The line of a node.
pub fn line_number(chunk: &Chunk, id: NodeId) -> u32
    ensures { result ≡ line_number chunk.now.nodes id }
{
    if id.index() < chunk.len() {
        chunk.line(id)
    } else {
        0
    }
}

/// The statement, expression or argument at a place.
pub fn part_at(chunk: &Chunk, id: NodeId, place: usize) -> Option<NodeId>
    ensures part { result ≡ slice_get (list_at chunk.now.nodes id) place }
    ensures small { IfSome result (λ _. place + 1 < 2 ^ 64) }
{
    match node_at(chunk, id) {
        Some(Node::Block { stats }) => stats.as_slice().get(place).copied(),
        Some(Node::Local { exps, .. }) => exps.as_slice().get(place).copied(),
        Some(Node::Assign { exps, .. }) => exps.as_slice().get(place).copied(),
        Some(Node::GenFor { exps, .. }) => exps.as_slice().get(place).copied(),
        Some(Node::Return { exps }) => exps.as_slice().get(place).copied(),
        Some(Node::Call { args, .. }) => args.as_slice().get(place).copied(),
        Some(Node::Method { args, .. }) => args.as_slice().get(place).copied(),
        _ => None,
    }
}

/// How many names a node declares.
pub fn name_count(chunk: &Chunk, id: NodeId) -> usize
    ensures { result ≡ name_count_at chunk.now.nodes id }
{
    match node_at(chunk, id) {
        Some(Node::Local { names, .. }) => names.len(),
        Some(Node::GenFor { names, .. }) => names.len(),
        _ => 0,
    }
}

/// The target of an assignment at a place.
pub fn target_at(chunk: &Chunk, id: NodeId, place: usize) -> Option<NodeId>
    ensures part { result ≡ slice_get (targets_at chunk.now.nodes id) place }
    ensures small { IfSome result (λ _. place + 1 < 2 ^ 64) }
{
    match node_at(chunk, id) {
        Some(Node::Assign { targets, .. }) => targets.as_slice().get(place).copied(),
        _ => None,
    }
}

/// The test of a loop.
pub fn test(chunk: &Chunk, id: NodeId) -> NodeId
    ensures { result ≡ test_at chunk.now.nodes id }
{
    match node_at(chunk, id) {
        Some(Node::While { test, .. }) => *test,
        Some(Node::Repeat { test, .. }) => *test,
        _ => NodeId::new(0),
    }
}

/// The block of a loop.
pub fn block(chunk: &Chunk, id: NodeId) -> NodeId
    ensures { result ≡ block_at chunk.now.nodes id }
{
    match node_at(chunk, id) {
        Some(Node::While { block, .. }) => *block,
        Some(Node::Repeat { block, .. }) => *block,
        Some(Node::NumFor { block, .. }) => *block,
        Some(Node::GenFor { block, .. }) => *block,
        _ => NodeId::new(0),
    }
}

/// The test of an `if` at a place.
pub fn test_of_case(chunk: &Chunk, id: NodeId, place: usize) -> Option<NodeId>
    ensures { result ≡ slice_get (tests_at chunk.now.nodes id) place }
{
    match node_at(chunk, id) {
        Some(Node::If { tests, .. }) => tests.get(place),
        _ => None,
    }
}

/// The block of an `if` at a place.
pub fn block_of_case(chunk: &Chunk, id: NodeId, place: usize) -> Option<NodeId>
    ensures part { result ≡ slice_get (blocks_at chunk.now.nodes id) place }
    ensures small { IfSome result (λ _. place + 1 < 2 ^ 64) }
{
    match node_at(chunk, id) {
        Some(Node::If { blocks, .. }) => blocks.as_slice().get(place).copied(),
        _ => None,
    }
}

/// The `else` of an `if`.
pub fn otherwise(chunk: &Chunk, id: NodeId) -> Option<NodeId>
    ensures { result ≡ otherwise_at chunk.now.nodes id }
{
    match node_at(chunk, id) {
        Some(Node::If { otherwise, .. }) => *otherwise,
        _ => None,
    }
}

/// The limit of a numeric `for`.
pub fn limit(chunk: &Chunk, id: NodeId) -> NodeId
    ensures { result ≡ limit_at chunk.now.nodes id }
{
    match node_at(chunk, id) {
        Some(Node::NumFor { limit, .. }) => *limit,
        _ => NodeId::new(0),
    }
}

/// The step of a numeric `for`.
pub fn step(chunk: &Chunk, id: NodeId) -> Option<NodeId>
    ensures { result ≡ step_at chunk.now.nodes id }
{
    match node_at(chunk, id) {
        Some(Node::NumFor { step, .. }) => *step,
        _ => None,
    }
}

/// The key of an index.
pub fn key(chunk: &Chunk, id: NodeId) -> NodeId
    ensures { result ≡ key_at chunk.now.nodes id }
{
    match node_at(chunk, id) {
        Some(Node::Index { key, .. }) => *key,
        _ => NodeId::new(0),
    }
}

/// The name of a method, or the label of a `goto`.
pub fn name(chunk: &Chunk, id: NodeId) -> &[u8]
    ensures { result.now ≡ name_there chunk.now.nodes id }
{
    match node_at(chunk, id) {
        Some(Node::Method { name, .. }) => name.as_slice(),
        Some(Node::Goto { label }) => label.as_slice(),
        _ => &[],
    }
}

/// The right operand of a binary operator.
pub fn right(chunk: &Chunk, id: NodeId) -> NodeId
    ensures { result ≡ right_at chunk.now.nodes id }
{
    match node_at(chunk, id) {
        Some(Node::Binary { right, .. }) => *right,
        Some(Node::Logic { right, .. }) => *right,
        _ => NodeId::new(0),
    }
}

/// The binary operator of a node.
pub fn binary_op(chunk: &Chunk, id: NodeId) -> BinOp
    ensures { result ≡ binary_at chunk.now.nodes id }
{
    match node_at(chunk, id) {
        Some(Node::Binary { op, .. }) => *op,
        _ => BinOp::Add,
    }
}

/// `and` or `or`.
pub fn logic_op(chunk: &Chunk, id: NodeId) -> LogicOp
    ensures { result ≡ logic_at chunk.now.nodes id }
{
    match node_at(chunk, id) {
        Some(Node::Logic { op, .. }) => *op,
        _ => LogicOp::And,
    }
}

/// The unary operator of a node.
pub fn unary_op(chunk: &Chunk, id: NodeId) -> UnOp
    ensures { result ≡ unary_at chunk.now.nodes id }
{
    match node_at(chunk, id) {
        Some(Node::Unary { op, .. }) => *op,
        _ => UnOp::Not,
    }
}

/// The field of a table constructor at a place.
pub fn field_at(chunk: &Chunk, id: NodeId, place: usize) -> Option<&Field>
    ensures part { option_copied result ≡ slice_get (fields_at chunk.now.nodes id) place }
    ensures small { IfSome result (λ _. place + 1 < 2 ^ 64) }
{
    match node_at(chunk, id) {
        Some(Node::Table { fields }) => fields.as_slice().get(place),
        _ => None,
    }
}

/// Whether a table constructor has no field from a place on.
#[tactic(auto, using(crate::proofs::Places::fields_past, crate::proofs::Places::fields_within))]
pub fn is_past_fields(chunk: &Chunk, id: NodeId, place: usize) -> bool
    ensures { result ≡ no_field_left (drop place (fields_at chunk.now.nodes id)) }
{
    match field_at(chunk, id, place) {
        None => true,
        Some(_) => false,
    }
}
