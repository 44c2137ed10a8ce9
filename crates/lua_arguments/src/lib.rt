//! How built-ins take their arguments, and what they answer (Lua 5.2 manual, 4.8 and 6.1).
#![tactic(auto)]

mod answering;
mod arguments;
mod bad_arguments;
mod spending;

pub use answering::{give_text, give_value, raise_at, raise_text};
pub use arguments::{
    argument, function_argument, is_given, number_argument, number_or, number_within,
    table_argument, text_argument, text_or, thread_argument,
};
pub use bad_arguments::bad_argument;
pub use spending::tick_all;
