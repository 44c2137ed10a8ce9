//! What a built-in pays before it goes on.

ghost use Rattle.std.specs.Prelude.{◌≡◌, OnOk, IfErr};
ghost use Rattle.lua_meaning.specs.Jobs.{Stopped};
ghost use Rattle.lua_values.specs.Lending.{with_budget};
ghost use Rattle.lua_arguments.specs.Answering.{Calling};
ghost use Rattle.lua_arguments.specs.Spending.{ticks};

use lua_values::Heap;
use zc_budget::Stop;

/// So many instructions. Where fewer are left, all of them are used and the program stops.
#[tactic(auto, using(crate::proofs::Ticking::ticks_stop, crate::proofs::Ticking::ticks_go))]
pub fn tick_all(heap: &mut Heap, count: usize) -> Result<(), Stop>
    ensures ok { OnOk result ((next : Calling) → ticks count next heap.old ≡ next heap.new) }
    ensures stops { IfErr result (λ stop. (next : Calling) → ticks count next heap.old ≡ (Stopped stop, heap.new)) }
    ensures others { heap.new ≡ with_budget heap.old heap.new.used }
{
    let mut left = count;
    while left > 0 {
        heap.budget().tick()?;
        left -= 1;
    }
    Ok(())
}
