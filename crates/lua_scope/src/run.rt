//! The scope rules over a whole text.

ghost use Rattle.std.specs.Prelude.{◌≡◌, [], None, length, replicate, IfOk, IfErr};
ghost use Rattle.lua_scope.specs.OfChunk.{occurrences_of};
ghost use Rattle.lua_scope.specs.Refusals.{first_refusal};
ghost use Rattle.lua_scope.specs.Resolved.{Resolved, TablesAre, IsFirstRefusal};

use crate::load_error::LoadError;
use crate::numbers::Numbers;
use crate::resolver::Resolver;
use crate::scope::Scope;
use crate::tables::{Tables, tables_of};
use crate::walk::occurrences_of;
use lua_ast::Chunk;
use std::alloc::{AllocError, Global};

/// No captured variable for any node.
fn none_captured(alloc: Global, nodes: usize) -> Result<Vec<Numbers>, AllocError>
    ensures { IfOk result (λ captured. captured.items ≡ replicate nodes []) }
{
    let mut captured = Vec::new(alloc);
    for _ in 0..nodes {
        captured.push(Numbers::new(alloc))?;
    }
    Ok(captured)
}

/// No meaning for any node.
fn none_meant(alloc: Global, nodes: usize) -> Result<Vec<Option<u32>>, AllocError>
    ensures { IfOk result (λ meanings. meanings.items ≡ replicate nodes None) }
{
    let mut meanings = Vec::new(alloc);
    for _ in 0..nodes {
        meanings.push(None)?;
    }
    Ok(meanings)
}

/// The tables at the beginning of a text of this many nodes.
fn new_resolver(alloc: Global, nodes: usize) -> Result<Resolver, AllocError>
    ensures { IfOk result (λ resolver. Resolved nodes resolver []) }
{
    let first = vec![in alloc; 0; nodes]?;
    let meanings = none_meant(alloc, nodes)?;
    let captured = none_captured(alloc, nodes)?;
    Ok(Resolver {
        scope: Scope::new(alloc),
        declared: 0,
        first,
        meanings,
        captured,
        is_captured: Vec::new(alloc),
    })
}

/// Runs through the text.
fn run(alloc: Global, chunk: &Chunk) -> Result<Resolver, LoadError>
    ensures tables { IfOk result (λ resolver.
        Resolved (length chunk.now.nodes) resolver (occurrences_of chunk.now)) }
    ensures loads { IfOk result (λ _. first_refusal (occurrences_of chunk.now) ≡ None) }
    ensures refused { IfErr result (λ error.
        IsFirstRefusal (first_refusal (occurrences_of chunk.now)) error) }
{
    let mut occurrences = occurrences_of(alloc, chunk)?;
    occurrences.reverse();
    let mut resolver = new_resolver(alloc, chunk.len())?;
    while let Some(occurrence) = occurrences.pop() {
        if let Some(refusal) = resolver.scope.refusal(&occurrence) {
            return Err(refusal);
        }
        resolver.take(alloc, occurrence)?;
    }
    Ok(resolver)
}

/// Works out what the names and labels of a chunk mean. The chunk is refused exactly where it
/// breaks a scope rule, and then the refusal is the first in text order; else there is no other
/// refusal than want of memory.
pub(crate) fn resolve(alloc: Global, chunk: &Chunk) -> Result<Tables, LoadError>
    ensures tables { IfOk result (λ tables.
        TablesAre (length chunk.now.nodes) tables (occurrences_of chunk.now)) }
    ensures loads { IfOk result (λ _. first_refusal (occurrences_of chunk.now) ≡ None) }
    ensures refused { IfErr result (λ error.
        IsFirstRefusal (first_refusal (occurrences_of chunk.now)) error) }
{
    let resolver = run(alloc, chunk)?;
    let tables = tables_of(alloc, resolver)?;
    Ok(tables)
}
