//! Walks of tables.

ghost use Rattle.std.specs.Prelude.{◌≡◌, ◌+◌, ◌<◌, ◌≤◌, length, drop, option_map, IfOk, IfErr, slice_get};
ghost use Rattle.std.specs.Map.Iter.{deref_pair};
ghost use Rattle.zc_budget.specs.declared.budget.Stop.TheVariants as stop;
ghost use Rattle.lua_meaning.specs.Tables.{skipped};
ghost use Rattle.lua_values.specs.Walks.{WalksTo, WalkFails, is_gap_at, ticked_by, spent};

use crate::fault::HeapFault;
use crate::table::{Table, is_nil};
use lua_meaning::Value;
use std::alloc::AllocError;
use zc_budget::{Budget, Stop};

/// Whether nil stands at a place of the walk order.
fn is_gap_at(table: &Table, place: usize) -> bool
    ensures { result ≡ is_gap_at (slice_get table.now.pairs place) }
{
    match table.pair(place) {
        None => false,
        Some((_, value)) => is_nil(value),
    }
}

/// The first place from here on whose value isn't nil, or the end. Each place that is skipped is one
/// instruction.
fn skip(table: &Table, budget: &mut Budget, from: usize) -> Result<usize, Stop>
    requires { from ≤ length table.now.pairs }
    ensures place { IfOk result (λ place. place ≡ from + skipped (drop from table.now.pairs)) }
    ensures enough { IfOk result (λ place. budget.old.instructions + skipped (drop from table.now.pairs) ≤ budget.old.most_instructions) }
    ensures used { IfOk result (λ place. budget.new ≡ ticked_by (skipped (drop from table.now.pairs)) budget.old) }
    ensures stops { IfErr result (λ s. (s ≡ stop.Instructions) × (budget.new ≡ spent budget.old)
        × (budget.old.most_instructions < budget.old.instructions + skipped (drop from table.now.pairs))) }
{
    let _used = budget.used();
    let most = table.len();
    for place in from..most {
        if !is_gap_at(table, place) {
            return Ok(place);
        }
        budget.tick()?;
    }
    Ok(most)
}

/// A copy of a pair.
fn copy_of(pair: Option<(&Value, &Value)>) -> Result<Option<(Value, Value)>, AllocError>
    ensures { IfOk result (λ copy. copy ≡ option_map deref_pair pair.entry) }
{
    match pair {
        None => Ok(None),
        Some((key, value)) => Ok(Some((key.clone()?, value.clone()?))),
    }
}

/// The next pair behind a key, with a value that isn't nil.
pub fn next_pair(
    table: &Table,
    budget: &mut Budget,
    key: &Value,
) -> Result<Option<(Value, Value)>, HeapFault>
    ensures ok { IfOk result (λ found. WalksTo table.now.pairs key.now budget.old found budget.new) }
    ensures fails { IfErr result (λ fault. WalkFails table.now.pairs key.now budget.old fault budget.new) }
{
    let Some(from) = table.place_behind(key) else {
        return Err(HeapFault::UnknownKey);
    };
    let place = skip(table, budget, from)?;
    match copy_of(table.pair(place)) {
        Ok(found) => Ok(found),
        Err(_) => Err(HeapFault::NoMemory),
    }
}
