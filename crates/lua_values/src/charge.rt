//! What making something needs besides memory.

ghost use Rattle.std.specs.Prelude.{◌≡◌, ◌+◌, ◌<◌, ◌^◌, true, false, IfOk, IfErr, OnOk, OnErr};
ghost use Rattle.zc_budget.specs.Used.{is_over, charged};
ghost use Rattle.zc_budget.specs.declared.budget.Stop.TheVariants as stop;
ghost use Rattle.lua_meaning.specs.Heap.{closure_bytes};

use std::alloc::AllocError;
use zc_budget::{Budget, GREATEST_BYTES, Stop};

/// The number of the next of a kind, of which there are so many. There is no memory for 2^32 of a kind.
pub fn next_number(len: usize) -> Result<u32, AllocError>
    ensures value { IfOk result (λ number. number ≡ len) }
    ensures small { IfOk result (λ number. number + 1 < 2 ^ 32) }
{
    if len >= u32::MAX as usize {
        return Err(AllocError);
    }
    Ok(len as u32)
}

/// Charges a closure with so many captured variables.
pub fn charge_closure(budget: &mut Budget, captured: usize) -> Result<(), Stop>
    ensures counts { OnOk result ((is_over (closure_bytes captured) budget.old ≡ false) × (budget.new ≡ charged (closure_bytes captured) budget.old)) }
    ensures stops { OnErr result ((is_over (closure_bytes captured) budget.old ≡ true) × (budget.new ≡ budget.old)) }
    ensures which { IfErr result (λ s. s ≡ stop.Memory) }
{
    let _used = budget.used();
    if captured as u64 > GREATEST_BYTES {
        return Err(Stop::Memory);
    }
    budget.charge(48 + 16 * captured as u64)
}
