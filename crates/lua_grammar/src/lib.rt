//! The grammar of Lua 5.2 (manual, section 9) as relations between lists of tokens and trees, with the levels of a text
//! counted. Its definitions are in `specs`; there is no code but functions without a body, whose contracts are its laws.
#![tactic(auto)]

mod laws;

pub use laws::{
    beginnings, first_refusal, levels_only_refuse, lines_of_nodes, one_reading, one_tree,
};
