//! The steps of the parser of channel programs within statements (Lua 5.2 manual, 3.3 and section 9).
#![tactic(auto)]

mod close;
mod declaration;
mod statement;

pub use close::close_in_statement;
pub use declaration::{for_name, for_names, local_names, local_next};
pub use statement::{label_end, next, return_next, target_next};
