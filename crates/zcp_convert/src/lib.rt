//! What a program returns, as JSON: zfs-program(8), "Lua API".
#![tactic(auto)]

mod error;
mod json;

pub use error::{ConvertError, ReturnedType};
pub use json::{MOST_TEXT, to_json};

#[cfg(test)]
mod tests;
