//! Errors that a machine raises itself.

ghost use Rattle.std.specs.Prelude.{◌≡◌, nat_lt, IfOk};
ghost use Rattle.lua_meaning.specs.Runs.{attempt_text};
ghost use Rattle.lua_meaning.specs.Heap.{HeapOf};
ghost use Rattle.lua_meaning.specs.Operators.{OpAnswer};
ghost use Rattle.lua_configuration.specs.Answers.{IsAnswer};
ghost use Rattle.lua_steps.specs.Effects.{failing, few_by, ended_as};

use crate::configuration::Configuration;
use lua_ops::{OpResult, fails, fails_on};
use lua_steps::Mode;
use lua_values::{Lines, Value, ValueList};
use std::alloc::Global;
use std::sync::ledger::Ledger;
use zc_budget::Steps;
use zc_io::NoMemory;

/// What an answer that calls nothing comes to.
fn ended(alloc: Global, answer: OpResult) -> Result<Mode, NoMemory>
    ensures { (a : OpAnswer × HeapOf) (after : HeapOf) → IsAnswer a answer after → IfOk result (λ m. (m ≡ ended_as a.0) × (after ≡ a.1)) }
{
    match answer {
        OpResult::Done(value) => Ok(Mode::Give(ValueList::of_one(alloc, value))),
        OpResult::Meta { .. } => Ok(Mode::Give(ValueList::new(alloc))),
        OpResult::Raise(value) => Ok(Mode::Raise(value)),
        OpResult::Stop(stop) => Ok(Mode::Stopped(stop)),
        OpResult::NoMemory => Err(NoMemory),
    }
}

impl Configuration {
    /// Raises a text, with the line at work before it.
    pub fn fail<L: Ledger>(
        &mut self,
        lines: Lines,
        text: &[u8],
        steps: &mut Steps<L>,
    ) -> Result<Mode, NoMemory>
        ensures { IfOk result (λ m. (m, self.new) ≡ failing lines.now text.now self.old) }
    {
        let answer = fails(&mut self.heap, text, lines, steps);
        ended(self.heap.alloc(), answer)
    }

    /// Raises that a value isn't of the type that is wanted.
    pub fn fail_on<L: Ledger>(
        &mut self,
        lines: Lines,
        what: &str,
        value: &Value,
        steps: &mut Steps<L>,
    ) -> Result<Mode, NoMemory>
        ensures { IfOk result (λ m. (m, self.new) ≡ failing lines.now (attempt_text what.now value.now) self.old) }
    {
        let answer = fails_on(&mut self.heap, what, value, lines, steps);
        ended(self.heap.alloc(), answer)
    }

    /// Goes on where a list of arguments or results has no more than 250 values.
    pub fn if_few<L: Ledger>(
        &mut self,
        lines: Lines,
        count: usize,
        mode: Mode,
        steps: &mut Steps<L>,
    ) -> Result<Mode, NoMemory>
        ensures { IfOk result (λ m. (m, self.new) ≡ few_by (nat_lt 250 count) lines.now mode self.old) }
    {
        if count > 250 {
            return self.fail(lines, b"too many values", steps);
        }
        Ok(mode)
    }
}
