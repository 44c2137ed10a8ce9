//! Which texts load, what their names mean, and the refusals of a Lua 5.2 text that has the grammar
//! but breaks the rules on labels, `break` and `...` (manual, 3.3.4, 3.4.10 and 3.5).
#![tactic(auto)]

mod block;
mod capture;
mod frame;
mod labels;
pub mod laws;
mod load_error;
mod node_tasks;
mod numbers;
mod occurrence;
mod parsed;
mod place;
mod resolver;
mod run;
mod scope;
mod tables;
mod task;
mod visible;
mod walk;

pub use load_error::LoadError;
pub use parsed::{MOST_TEXT, Parsed, load};
pub use place::Place;
