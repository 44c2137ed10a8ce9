//! What the parser of channel programs has in hand: the nodes of a text so far, the frames of what was begun, and the
//! states that say what may come next.
#![tactic(auto)]

mod building;
mod frame;
mod operators;
mod parser;
mod refusal;
mod shape;
mod stack;
mod state;

pub use frame::{
    Begun, BegunTable, Callee, Frame, GenericFor, Head, NumericFor, OpenBlock, OpenHeader,
    OpenStatement, Operation, Purpose,
};
pub use operators::{left_level, level, operation, right_level};
pub use parser::Parser;
pub use refusal::Refusal;
pub use state::{Naming, State};
