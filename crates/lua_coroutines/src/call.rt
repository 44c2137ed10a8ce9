//! Calls in progress (Lua 5.2 manual, 3.4.9 and 3.5).

ghost use Rattle.std.specs.Prelude.{◌≡◌, ◌==◌, [], ◌∷◌, ◌++◌, true, length, take, OnOk, OnErr, IfOk};
ghost use Rattle.std.specs.Option.{option_copied};
ghost use Rattle.std.specs.List.{position};
ghost use Rattle.lua_meaning.specs.Locals.{slot_of, with_held};

use lua_ast::Sequence;
use lua_meaning::Slot;
use lua_values::{Value, ValueList};
use std::alloc::Global;
use std::marker::Model;
use zc_io::NoMemory;

/// The lines of the calls in progress: that of the node at work, then those at which the other
/// calls of its coroutine were made, innermost first.
pub type Lines = Sequence<u32>;

/// A call of a function of the program: its locals in scope by number, the oldest first, what
/// `...` stands for, the lines at which the calls of its coroutine were made, and whether a
/// built-in that no yield may cross waits for one of these calls.
#[derive(Drop)]
pub struct CallInProgress {
    locals: Vec<(u32, Slot)>,
    varargs: ValueList,
    lines: Lines,
    across: bool,
}

impl Model for CallInProgress {
    ghost use Rattle.lua_meaning.specs.Store.{CallOf};

    ghost Value = { CallOf };

    ghost view = { λ call. record { locals = call.locals.items; varargs = call.varargs; lines = call.lines; across = call.across } };
}

/// A copy of where a local lives.
fn copied(slot: &Slot) -> Result<Slot, NoMemory>
    ensures { IfOk result (λ copy. copy ≡ slot.now) }
{
    match slot {
        Slot::Held(value) => Ok(Slot::Held(value.clone()?)),
        Slot::Cell(cell) => Ok(Slot::Cell(*cell)),
    }
}

/// A copy of a local.
fn local_copied(local: &(u32, Slot)) -> Result<(u32, Slot), NoMemory>
    ensures { IfOk result (λ copy. copy ≡ local.now) }
{
    Ok((local.0, copied(&local.1)?))
}

/// Copies of these locals.
fn all_copied(alloc: Global, locals: &[(u32, Slot)]) -> Result<Vec<(u32, Slot)>, NoMemory>
    ensures { IfOk result (λ copies. copies.items ≡ locals.now) }
{
    let mut copies = Vec::new(alloc);
    for local in locals {
        copies.push(local_copied(local)?)?;
    }
    Ok(copies)
}

impl CallInProgress {
    /// A call with these locals.
    pub fn new(
        locals: Vec<(u32, Slot)>,
        varargs: ValueList,
        lines: Lines,
        across: bool,
    ) -> CallInProgress
        ensures { result ≡ record { locals = locals.items; varargs = varargs; lines = lines; across = across } }
    {
        CallInProgress {
            locals,
            varargs,
            lines,
            across,
        }
    }

    /// How many locals are in scope.
    pub fn local_count(&self) -> usize
        ensures { result ≡ length self.now.locals }
    {
        self.locals.len()
    }

    /// Where a local lives; none where it isn't in scope.
    pub fn slot(&self, variable: u32) -> Option<&Slot>
        ensures { option_copied result ≡ slot_of self.now.locals variable }
    {
        self.locals
            .iter()
            .find(|local| local.0 == variable)
            .map(|local| &local.1)
    }

    /// One local more.
    pub fn declare(&mut self, variable: u32, slot: Slot) -> Result<(), NoMemory>
        ensures ok { OnOk result (self.new ≡ record self.old { locals = self.old.locals ++ (variable, slot) ∷ [] }) }
        ensures err { OnErr result (self.new ≡ self.old) }
    {
        self.locals.push((variable, slot))?;
        Ok(())
    }

    /// The first locals stay, so many at most.
    pub fn cut(&mut self, count: usize)
        ensures { self.new ≡ record self.old { locals = take count self.old.locals } }
    {
        self.locals.truncate(count);
    }

    /// Another value in a local that lives in the call.
    pub fn hold(&mut self, variable: u32, value: Value)
        ensures { self.new ≡ record self.old { locals = with_held self.old.locals variable value } }
    {
        if let Some(place) = self.place_of(variable) {
            self.locals[place] = (variable, Slot::Held(value));
        }
    }

    /// The place of a local among those in scope.
    fn place_of(&self, variable: u32) -> Option<usize>
        ensures { result ≡ position (λ local. local.0 == variable) self.now.locals }
    {
        self.locals.iter().position(|local| local.0 == variable)
    }

    /// What `...` stands for.
    pub fn varargs(&self) -> &[Value]
        ensures { result.now ≡ self.now.varargs }
    {
        self.varargs.as_slice()
    }

    /// The lines at which the calls of its coroutine were made, the last first.
    pub fn lines(&self) -> &[u32]
        ensures { result.now ≡ self.now.lines }
    {
        self.lines.as_slice()
    }

    /// Whether a built-in that no yield may cross waits for one of these calls.
    pub fn is_across(&self) -> bool
        ensures { result ≡ self.now.across }
    {
        self.across
    }

    /// From now on a built-in that no yield may cross waits for it.
    pub fn cross(&mut self)
        ensures { self.new ≡ record self.old { across = true } }
    {
        self.across = true;
    }

    /// A copy of the call, for which a built-in that no yield may cross waits. The only refusal is
    /// want of memory.
    pub fn crossed(&self, alloc: Global) -> Result<CallInProgress, NoMemory>
        ensures { IfOk result (λ call. call ≡ record self.now { across = true }) }
    {
        let locals = all_copied(alloc, self.locals.as_slice())?;
        let varargs = ValueList::from_slice(alloc, self.varargs.as_slice())?;
        let mut lines = Vec::new(alloc);
        lines.extend_from_slice(self.lines.as_slice())?;
        Ok(CallInProgress {
            locals,
            varargs,
            lines: Lines::from_vec(lines),
            across: true,
        })
    }
}
