//! The syntax tree of a Lua 5.2 text: nodes in a vector, named by number, parts before wholes.
#![tactic(auto)]

mod builder;
mod chunk;
pub mod laws;
mod node;
mod sequence;
#[cfg(test)]
mod tests;

pub use builder::ChunkBuilder;
pub use chunk::Chunk;
pub use node::{BinOp, Field, LinedNode, Literal, LogicOp, Node, NodeId, UnOp};
pub use sequence::{AstText, AstTexts, Fields, Ids, Sequence};
