//! The heap, the call in progress and the frames of a machine.

ghost use Rattle.std.specs.Prelude.{◌≡◌, ◌↔◌, ◌∷◌, [], length, IsTrue, true, false, OnOk, OnErr, IfErr, IfNone, MatchOption, IfOk};
ghost use Rattle.std.specs.Borrow.{sem};
ghost use Rattle.zc_budget.specs.Used.{is_spent};
ghost use Rattle.zc_budget.specs.declared.budget.Stop.TheVariants as stop;
ghost use Rattle.lua_meaning.specs.Locals.{with_held};
ghost use Rattle.lua_steps.specs.Configuration.{with_heap, with_call, with_frames, with_frame, with_locals, with_tick, cut};
ghost use Rattle.lua_steps.specs.Machine.{lines_at};
ghost use Rattle.lua_configuration.specs.Lending.{LendsHeap};

use lua_ast::{Chunk, NodeId};
use lua_coroutines::{CallInProgress, Frame, Lines, Stack};
use lua_transitions::parts;
use lua_values::{Heap, Value};
use std::alloc::Global;
use std::marker::Model;
use std::mem;
use zc_budget::Stop;
use zc_io::NoMemory;

/// What a machine has: what its program made, how many calls are in progress of the coroutines
/// that wait for the running one, its call in progress, and what is to be gone on with.
#[derive(Drop)]
pub struct Configuration {
    pub(crate) heap: Heap,
    below: u32,
    pub(crate) call: CallInProgress,
    frames: Stack,
}

impl Model for Configuration {
    ghost use Rattle.lua_steps.specs.Configuration.{Configuration as ConfigurationOf};

    ghost Value = { ConfigurationOf };

    ghost view = { λ x. record { heap = x.heap; below = x.below; call = x.call; frames = x.frames } };
}

impl Configuration {
    /// This heap, this call alone, and nothing to be gone on with.
    pub fn new(heap: Heap, call: CallInProgress) -> Configuration
        ensures { result ≡ record { heap = heap; below = 0; call = call; frames = [] } }
    {
        let frames = Stack::new(heap.alloc());
        Configuration {
            heap,
            below: 0,
            call,
            frames,
        }
    }

    /// The allocator of its heap.
    pub fn alloc(&self) -> Global {
        self.heap.alloc()
    }

    /// The heap.
    pub fn heap(&self) -> &Heap
        ensures { result.now ≡ self.now.heap }
    {
        &self.heap
    }

    /// The heap, lent.
    pub fn heap_mut(&mut self) -> &mut Heap
        ensures* writes_back { sem 𝓛 (LendsHeap self.entry result) }
        ensures value { result.now ≡ self.old.heap }
    {
        &mut self.heap
    }

    /// The heap, without the rest.
    pub fn into_heap(self) -> Heap
        ensures { result ≡ self.heap }
    {
        let Configuration { heap, .. } = self;
        heap
    }

    /// The call in progress.
    pub fn call(&self) -> &CallInProgress
        ensures { result.now ≡ self.now.call }
    {
        &self.call
    }

    /// How many locals are in scope.
    pub fn local_count(&self) -> usize
        ensures { result ≡ length self.now.call.locals }
    {
        self.call.local_count()
    }

    /// How many calls are in progress of the coroutines that wait for the running one.
    pub fn below(&self) -> u32
        ensures { result ≡ self.now.below }
    {
        self.below
    }

    /// Puts a frame on top. The only refusal is want of memory.
    pub fn enter(&mut self, frame: Frame) -> Result<(), NoMemory>
        ensures ok { OnOk result (self.new ≡ with_frame frame self.old) }
        ensures err { OnErr result (self.new ≡ self.old) }
    {
        self.frames.push(frame)
    }

    /// Takes the frame on top off.
    pub fn take_top(&mut self) -> Option<Frame>
        ensures top { MatchOption result (self.old.frames ≡ []) (λ frame. self.old.frames ≡ frame ∷ self.new.frames) }
        ensures others { self.new ≡ with_frames self.new.frames self.old }
        ensures none { IfNone result (self.new ≡ self.old) }
    {
        self.frames.pop()
    }

    /// Whether nothing is to be gone on with.
    pub fn is_done(&self) -> bool
        ensures { IsTrue result ↔ (self.now.frames ≡ []) }
    {
        self.frames.is_empty()
    }

    /// Counts one instruction more, or stops where none is left.
    pub fn tick(&mut self) -> Result<(), Stop>
        ensures counts { OnOk result ((is_spent self.old.heap.used ≡ false) × (self.new ≡ with_tick self.old)) }
        ensures stops { OnErr result ((is_spent self.old.heap.used ≡ true) × (self.new ≡ self.old)) }
        ensures which { IfErr result (λ s. s ≡ stop.Instructions) }
    {
        self.heap.budget().tick()
    }

    /// The first locals stay, so many at most.
    pub fn cut(&mut self, count: usize)
        ensures { self.new ≡ cut count self.old }
    {
        self.call.cut(count);
    }

    /// Another call is in progress, and the one that was is given back.
    pub fn replace_call(&mut self, call: CallInProgress) -> CallInProgress
        ensures before { result ≡ self.old.call }
        ensures after { self.new ≡ with_call call self.old }
    {
        mem::replace(&mut self.call, call)
    }

    /// Another value in a local that lives in the call.
    pub fn hold(&mut self, variable: u32, value: Value)
        ensures { self.new ≡ with_locals (with_held self.old.call.locals variable value) self.old }
    {
        self.call.hold(variable, value);
    }

    /// The lines of the calls in progress at a node: its own, then those at which the calls of its
    /// coroutine were made.
    pub fn lines_at(&self, chunk: &Chunk, node: NodeId) -> Result<Lines, NoMemory>
        ensures { IfOk result (λ lines. lines ≡ lines_at chunk.now.nodes node self.now.call) }
    {
        let mut lines = Vec::new(self.heap.alloc());
        lines.push(parts::line_number(chunk, node))?;
        lines.extend_from_slice(self.call.lines())?;
        Ok(Lines::from_vec(lines))
    }
}
