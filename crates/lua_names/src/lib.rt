//! The steps of the parser of channel programs at names and parameters (Lua 5.2 manual, 3.4.10 and section 9).
#![tactic(auto)]

mod name;
mod parameters;

pub use name::name_next;
pub use parameters::{body_next, param_first, param_names, param_next, params_end, path_next};
