//! Levels of calls.

ghost use Rattle.std.specs.Prelude.{◌≡◌};
ghost use Rattle.lua_base.specs.OfValues.{lines_from};

use lua_values::Lines;

/// The lines from the call on that a level calls up: 1 is the innermost call.
#[tactic(auto, using(std::proofs::lemmas::List::drop_all))]
pub(crate) fn lines_from(level: i64, lines: Lines) -> Lines
    ensures { result.now ≡ lines_from level lines.now }
{
    if level < 1 {
        return &[];
    }
    let above = level as u64 - 1;
    if above >= lines.len() as u64 {
        return &[];
    }
    &lines[above as usize..]
}
