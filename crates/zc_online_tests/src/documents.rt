//! A document of two sessions, and the journal in an output.

use std::alloc::{AllocError, Global};

/// A document with two sessions that create a dataset each, with this schedule.
pub fn two_creates(alloc: Global, schedule: &str) -> Result<String, AllocError> {
    let mut text = String::from_str(
        alloc,
        r#"{"pool":"rpool","now":0,"setup":[],"programs":{},"sessions":[[{"name":"rpool/a","op":"create"}],[{"name":"rpool/b","op":"create"}]],"schedule":"#,
    )?;
    text.push_str(schedule)?;
    text.push('}')?;
    Ok(text)
}

/// The journal in an output.
pub fn journal_in(output: &str) -> &str {
    let Some((_, journal)) = output.split_once(r#"{"journal":"#) else {
        return "";
    };
    match journal.split_once(r#","replies":"#) {
        Some((journal, _)) => journal,
        None => "",
    }
}
