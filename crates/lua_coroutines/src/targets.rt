//! What an assignment stores to (Lua 5.2 manual, 3.3.3).

ghost use Rattle.std.specs.Prelude.{◌≡◌, [], ◌∷◌, ◌++◌, OnOk, OnErr, MatchOption, IfNone};

use lua_meaning::Target;
use std::alloc::Global;
use std::collections::VecDeque;
use std::marker::Model;
use zc_io::NoMemory;

/// What an assignment stores to, from left to right.
#[derive(Drop)]
pub struct Targets {
    items: VecDeque<Target>,
}

impl Model for Targets {
    ghost use Rattle.std.specs.Prelude.{List};
    ghost use Rattle.lua_meaning.specs.declared.variable.Target.{Target as target};

    ghost Value = { List target };

    ghost view = { λ t. t.items.items };
}

impl Targets {
    /// No target, which takes no memory.
    pub fn new(alloc: Global) -> Targets
        ensures { result ≡ [] }
    {
        Targets {
            items: VecDeque::new(alloc),
        }
    }

    /// One target more, on the right. The only refusal is want of memory.
    pub fn push(&mut self, target: Target) -> Result<(), NoMemory>
        ensures ok { OnOk result (self.new ≡ self.old ++ target ∷ []) }
        ensures err { OnErr result (self.new ≡ self.old) }
    {
        self.items.push_back(target)?;
        Ok(())
    }

    /// Takes the leftmost target.
    pub fn take_first(&mut self) -> Option<Target>
        ensures first { MatchOption result (self.old ≡ []) (λ target. self.old ≡ target ∷ self.new) }
        ensures none { IfNone result (self.new ≡ self.old) }
    {
        self.items.pop_front()
    }
}
