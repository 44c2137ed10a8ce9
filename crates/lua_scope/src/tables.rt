//! What is known of a whole text's variables.

ghost use Rattle.std.specs.Prelude.{◌≡◌, ℕ, List, IfOk};
ghost use Rattle.lua_scope.specs.declared.occurrence.Occurrence.{Occurrence as OccurrenceOf};
ghost use Rattle.lua_scope.specs.Resolved.{Resolved, TablesAre};

use crate::numbers::Numbers;
use crate::resolver::Resolver;
use lua_ast::Sequence;
use std::alloc::{AllocError, Global};

/// What is known of a text's variables at its end.
#[derive(Debug, Drop)]
pub(crate) struct Tables {
    /// How many variables the text names.
    pub(crate) declared: u32,
    /// For each node the number of the first variable that it names. A function without
    /// parameters has the number at which its own variables begin, a node that declares nothing 0.
    pub(crate) first: Vec<u32>,
    /// For each node the variable that it means, if it is a Name and means one.
    pub(crate) meanings: Vec<Option<u32>>,
    /// For each node the variables that it captures, rising, if it is a Function.
    pub(crate) captured: Vec<Sequence<u32>>,
    /// For each variable whether some function captures it. Those past the end are not captured.
    pub(crate) is_captured: Vec<bool>,
}

/// The numbers of each node as a vector.
fn sequences_of(alloc: Global, numbers: Vec<Numbers>) -> Result<Vec<Sequence<u32>>, AllocError>
    ensures { IfOk result (λ sequences. sequences.items ≡ numbers.items) }
{
    let mut sequences = Vec::new(alloc);
    for one in numbers {
        sequences.push(one.into_sequence(alloc)?)?;
    }
    Ok(sequences)
}

/// What is known at the end of a text.
pub(crate) fn tables_of(alloc: Global, resolver: Resolver) -> Result<Tables, AllocError>
    ensures { IfOk result (λ tables. (n : ℕ) (seen : List OccurrenceOf) →
        Resolved n resolver seen → TablesAre n tables seen) }
{
    let Resolver {
        declared,
        first,
        meanings,
        captured,
        is_captured,
        scope: _scope,
    } = resolver;
    let captured = sequences_of(alloc, captured)?;
    Ok(Tables {
        declared,
        first,
        meanings,
        captured,
        is_captured,
    })
}
