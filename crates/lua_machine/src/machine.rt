//! The machine.

ghost use Rattle.std.specs.Prelude.{◌≡◌, true, false, All, IfOk};
ghost use Rattle.zc_budget.specs.Used.{IsWithin};
ghost use Rattle.lua_values.specs.Ids.{ids_of, IsOf};
ghost use Rattle.lua_coroutines.specs.Threads.{main_alone};
ghost use Rattle.lua_runs.specs.Serving.{MakesNoCoroutine};
ghost use Rattle.lua_machine.specs.Machines.{seen_state, meant};
ghost use Rattle.lua_machine.specs.Outcomes.{IsEnding};

use crate::beginning::{is_within, main_call};
use crate::outcome::{Outcome, of_mode};
use crate::parts::Parts;
use lua_configuration::Configuration;
use lua_coroutines::{CoTable, Host};
use lua_scope::Parsed;
use lua_values::{Heap, ValueList};
use std::marker::Model;
use std::sync::ledger::Ledger;
use zc_budget::Steps;
use zc_io::NoMemory;

/// What runs a Lua program (Lua 5.2 manual, sections 2 and 3), with a host that serves the calls of
/// built-ins and iterator functions, within the limits of a channel program (zfs-program(8)).
#[derive(Drop)]
pub struct Machine<H: Host> {
    parts: Parts<H>,
    has_run: bool,
}

impl<H: Host> Model for Machine<H> {
    ghost use Rattle.std.specs.Prelude.{◌≡◌, false};
    ghost use Rattle.lua_machine.specs.Machines.{MachineOf, IsFresh};

    ghost Value = { MachineOf H };

    ghost view = { λ m. record {
      heap = m.parts.configuration.heap;
      coroutines = m.parts.coroutines;
      host = m.parts.host;
      has_run = m.has_run;
    } };

    ghost invariant = { λ m. m.has_run ≡ false → IsFresh m.parts.configuration m.parts.coroutines };
}

impl<H: Host> Machine<H> {
    /// A machine with this heap, in which no coroutine was made, and this host. The only refusal is
    /// want of memory.
    pub fn new(heap: Heap, host: H) -> Result<Machine<H>, NoMemory>
        requires { heap.threads ≡ 0 }
        ensures { IfOk result (λ m. m ≡ record { heap = heap; coroutines = main_alone; host = host; has_run = false }) }
    {
        let alloc = heap.alloc();
        let call = main_call(alloc, ValueList::new(alloc));
        Ok(Machine {
            parts: Parts {
                configuration: Configuration::new(heap, call),
                coroutines: CoTable::new(),
                host,
            },
            has_run: false,
        })
    }

    /// Runs a program with these arguments: its outcome, and what it leaves in heap, coroutines and
    /// host, are those of its meaning, for each host that lets no coroutine run. It ends within the
    /// limits of its heap. A machine runs one program.
    pub fn run<L: Ledger>(
        &mut self,
        parsed: &Parsed,
        args: ValueList,
        steps: &mut Steps<L>,
    ) -> Outcome
        requires first { self.old.has_run ≡ false }
        requires args { All (IsOf (ids_of self.old.heap)) args }
        requires plain { MakesNoCoroutine H.meaning }
        ensures outcome { IsEnding result (seen_state H.world self.new) (meant H.meaning parsed.now.chunk args (seen_state H.world self.old)) }
        ensures limits { IsWithin self.new.heap.used }
        ensures spent { self.new.has_run ≡ true }
    {
        self.has_run = true;
        let ended = self.parts.run(parsed, args, steps);
        is_within(&mut self.parts.configuration);
        match ended {
            Ok(mode) => of_mode(mode),
            Err(NoMemory) => Outcome::NoMemory,
        }
    }

    /// The heap, with what the program left, and the host.
    pub fn into_parts(self) -> (Heap, H)
        ensures heap { result.0 ≡ self.heap }
        ensures host { result.1 ≡ self.host }
    {
        let Machine { parts, .. } = self;
        let Parts {
            configuration,
            host,
            ..
        } = parts;
        (configuration.into_heap(), host)
    }
}
