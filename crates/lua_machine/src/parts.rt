//! What a machine works with, and how it goes on to the end of its program.

ghost use Rattle.std.specs.Prelude.{◌≡◌, ◌+◌, ◌<◌, List, true, false, length, All, IfOk, IfSome};
ghost use Rattle.lua_ast.specs.declared.node.LinedNode.{LinedNode as LinedNodeOf};
ghost use Rattle.lua_ast.specs.Decode.{ChunkNodes};
ghost use Rattle.lua_meaning.specs.Store.{Result as ResultOf};
ghost use Rattle.lua_values.specs.Answers.{builtin_answer};
ghost use Rattle.lua_values.specs.Ids.{ids_of, IsOf, AreLater};
ghost use Rattle.lua_coroutines.specs.Hosts.{IsOfHeap};
ghost use Rattle.lua_code.specs.CodeOf.{code_of};
ghost use Rattle.lua_frames.specs.NodeConstants.{constants_of};
ghost use Rattle.lua_steps.specs.declared.mode.Mode.TheVariants as mode;
ghost use Rattle.lua_steps.specs.Configuration.{with_heap};
ghost use Rattle.lua_steps.specs.Keeping.{AreTrees, AreFunctions, is_hosted};
ghost use Rattle.lua_runs.specs.Endings.{has_ended, IsOutcome};
ghost use Rattle.lua_runs.specs.Serving.{MakesNoCoroutine, host_call};
ghost use Rattle.lua_runs.specs.Standing.{machine_store};
ghost use Rattle.lua_runs.specs.Weights.{work_left};
ghost use Rattle.lua_machine.specs.Machines.{IsFresh, meant};
ghost use Rattle.lua_machine.specs.Running.{state_at_work, Runs};

use crate::beginning::{begin, is_within};
use crate::modes::{HostedCall, has_ended, has_no_room, hosted_call};
use crate::serving::serve;
use crate::trees::are_trees;
use lua_configuration::Configuration;
use lua_coroutines::{CoTable, Host, Lines as CallLines};
use lua_frames::{Constants, step};
use lua_scope::Parsed;
use lua_steps::Mode;
use lua_values::{BuiltinResult, Lines, Value, ValueList};
use std::sync::ledger::Ledger;
use zc_budget::Steps;
use zc_io::NoMemory;

/// What a machine has, its coroutines, and the host that serves its calls.
#[derive(Drop)]
pub(crate) struct Parts<H: Host> {
    pub(crate) configuration: Configuration,
    pub(crate) coroutines: CoTable,
    pub(crate) host: H,
}

impl<H: Host> Parts<H> {
    /// The host's answer to the call of a built-in or an iterator function; no values for another.
    fn answer<L: Ledger>(
        &mut self,
        function: &Value,
        args: &[Value],
        lines: Lines,
        steps: &mut Steps<L>,
    ) -> BuiltinResult
        requires function { IsOf (ids_of self.old.configuration.heap) function.now }
        requires args { All (IsOf (ids_of self.old.configuration.heap)) args.now }
        requires coroutines { length self.old.coroutines.threads ≡ self.old.configuration.heap.threads + 1 }
        ensures answer { IfSome (builtin_answer result) (λ a. host_call H.meaning function.now args.now lines.now (state_at_work H.world self.old) ≡ (a, state_at_work H.world self.new)) }
        ensures own { IfSome (builtin_answer result) (IsOfHeap (ids_of self.new.configuration.heap)) }
        ensures keeps { AreLater (ids_of self.old.configuration.heap) (ids_of self.new.configuration.heap) }
        ensures coroutines { IfSome (builtin_answer result) (λ _. length self.new.coroutines.threads ≡ self.new.configuration.heap.threads + 1) }
        ensures others { self.new.configuration ≡ with_heap self.new.configuration.heap self.old.configuration }
    {
        let heap = self.configuration.heap_mut();
        match function {
            Value::Builtin(id) => self
                .host
                .call(heap, &mut self.coroutines, *id, args, lines, steps),
            Value::Iter(iter) => {
                self.host
                    .step(heap, &mut self.coroutines, *iter, args, lines, steps)
            }
            _ => BuiltinResult::Values(ValueList::new(heap.alloc())),
        }
    }

    /// A call that the host serves. It is one instruction, and at most 200 calls are in progress.
    fn ask<L: Ledger>(
        &mut self,
        function: &Value,
        args: &[Value],
        lines: CallLines,
        is_own: bool,
        steps: &mut Steps<L>,
    ) -> Result<Mode, NoMemory>
        requires hosted { is_hosted (mode.Call function.now args.now lines is_own) ≡ true }
        requires function { IsOf (ids_of self.old.configuration.heap) function.now }
        requires args { All (IsOf (ids_of self.old.configuration.heap)) args.now }
        requires coroutines { length self.old.coroutines.threads ≡ self.old.configuration.heap.threads + 1 }
        requires plain { MakesNoCoroutine H.meaning }
        ensures runs { (c : ChunkNodes) (o : ResultOf H.World) → Runs H.meaning H.world c o (mode.Call function.now args.now lines is_own) self.old →
            IfOk result (λ m. Runs H.meaning H.world c o m self.new) }
        ensures lowers { (nodes : List LinedNodeOf) → IfOk result (λ m. work_left nodes (m, self.new.configuration) < work_left nodes (mode.Call function.now args.now lines is_own, self.old.configuration)) }
    {
        is_within(&mut self.configuration);
        if let Err(stop) = self.configuration.tick() {
            return Ok(Mode::Stopped(stop));
        }
        if has_no_room(&self.configuration, lines.as_slice(), is_own) {
            return self
                .configuration
                .fail(lines.as_slice(), b"stack overflow", steps);
        }
        let answer = self.answer(function, args, lines.as_slice(), steps);
        is_within(&mut self.configuration);
        serve(&mut self.configuration, answer, lines, is_own, steps)
    }

    /// What the machine does next, where it has not ended: the host serves a call, or a step is taken.
    fn advance<L: Ledger>(
        &mut self,
        parsed: &Parsed,
        constants: &Constants,
        mode: Mode,
        steps: &mut Steps<L>,
    ) -> Result<Mode, NoMemory>
        requires constants { constants.now ≡ constants_of parsed.now.chunk.nodes }
        requires trees { AreTrees parsed.now.chunk.nodes }
        requires functions { AreFunctions (code_of parsed.now.chunk) parsed.now.chunk.nodes }
        requires plain { MakesNoCoroutine H.meaning }
        requires running { (o : ResultOf H.World) × Runs H.meaning H.world parsed.now.chunk o mode self.old }
        requires goes { has_ended (mode, self.old.configuration) ≡ false }
        ensures runs { (o : ResultOf H.World) → Runs H.meaning H.world parsed.now.chunk o mode self.old →
            IfOk result (λ m. Runs H.meaning H.world parsed.now.chunk o m self.new) }
        ensures lowers { IfOk result (λ m. work_left parsed.now.chunk.nodes (m, self.new.configuration) < work_left parsed.now.chunk.nodes (mode, self.old.configuration)) }
    {
        let call = match hosted_call(mode) {
            Ok(call) => call,
            Err(own) => {
                self.configuration.heap().numbers_are_own();
                return step(&mut self.configuration, parsed, constants, own, steps);
            }
        };
        let HostedCall {
            function,
            args,
            lines,
            is_own,
        } = call;
        self.ask(&function, args.as_slice(), lines, is_own, steps)
    }

    /// Goes on until the machine has ended. The only refusal is want of memory.
    pub(crate) fn drive<L: Ledger>(
        &mut self,
        parsed: &Parsed,
        constants: &Constants,
        first: Mode,
        steps: &mut Steps<L>,
    ) -> Result<Mode, NoMemory>
        requires constants { constants.now ≡ constants_of parsed.now.chunk.nodes }
        requires trees { AreTrees parsed.now.chunk.nodes }
        requires functions { AreFunctions (code_of parsed.now.chunk) parsed.now.chunk.nodes }
        requires plain { MakesNoCoroutine H.meaning }
        requires running { (o : ResultOf H.World) × Runs H.meaning H.world parsed.now.chunk o first self.old }
        ensures { (o : ResultOf H.World) → Runs H.meaning H.world parsed.now.chunk o first self.old →
            IfOk result (λ m. IsOutcome m (machine_store self.new.configuration self.new.coroutines (H.world self.new.host)) o) }
    {
        let mut mode = first;
        while !has_ended(&mode, &self.configuration) {
            mode = self.advance(parsed, constants, mode, steps)?;
        }
        Ok(mode)
    }

    /// Runs a program with these arguments, to the mode in which it ended. The only refusal is want
    /// of memory.
    pub(crate) fn run<L: Ledger>(
        &mut self,
        parsed: &Parsed,
        args: ValueList,
        steps: &mut Steps<L>,
    ) -> Result<Mode, NoMemory>
        requires fresh { IsFresh self.old.configuration self.old.coroutines }
        requires args { All (IsOf (ids_of self.old.configuration.heap)) args }
        requires plain { MakesNoCoroutine H.meaning }
        ensures { IfOk result (λ m. IsOutcome m (machine_store self.new.configuration self.new.coroutines (H.world self.new.host)) (meant H.meaning parsed.now.chunk args (state_at_work H.world self.old))) }
    {
        are_trees(parsed);
        is_within(&mut self.configuration);
        let constants = Constants::new(self.configuration.alloc(), parsed.chunk())?;
        let first = begin(&mut self.configuration, parsed.chunk().root(), args)?;
        self.drive(parsed, &constants, first, steps)
    }
}
