//! A pool as the object of a core: what doing a call on it gives, and how it is done
//! (dsl_synctask.c of OpenZFS: a change is checked in open context, and again while it syncs).
#![tactic(auto)]

mod laws;
mod object;

pub use laws::{calls_keep_trees_well_formed, histories_keep_trees_well_formed};
pub use object::Pool;
