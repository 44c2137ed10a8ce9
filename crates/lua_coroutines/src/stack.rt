//! A stack of frames.

ghost use Rattle.std.specs.Prelude.{◌≡◌, ◌↔◌, ◌∷◌, [], IsTrue, OnOk, OnErr, IfNone, MatchOption};

use crate::frame::Frame;
use std::alloc::Global;
use std::marker::Model;
use zc_io::NoMemory;

/// The frames of a coroutine, seen with the top one first.
#[derive(Drop)]
pub struct Stack {
    frames: Vec<Frame>,
}

impl Model for Stack {
    ghost use Rattle.std.specs.Prelude.{List, reverse};
    ghost use Rattle.lua_coroutines.specs.declared.frame.Frame.{Frame as frame};

    ghost Value = { List frame };

    ghost view = { λ s. reverse s.frames.items };
}

impl Stack {
    /// No frame yet, which takes no memory.
    pub fn new(alloc: Global) -> Stack
        ensures { result ≡ [] }
    {
        Stack {
            frames: Vec::new(alloc),
        }
    }

    /// Puts a frame on top. The only refusal is want of memory.
    pub fn push(&mut self, frame: Frame) -> Result<(), NoMemory>
        ensures ok { OnOk result (self.new ≡ frame ∷ self.old) }
        ensures err { OnErr result (self.new ≡ self.old) }
    {
        self.frames.push(frame)?;
        Ok(())
    }

    /// Whether there is no frame.
    pub fn is_empty(&self) -> bool
        ensures { IsTrue result ↔ (self.now ≡ []) }
    {
        self.frames.is_empty()
    }

    /// Takes the frame on top off.
    pub fn pop(&mut self) -> Option<Frame>
        ensures top { MatchOption result (self.old ≡ []) (λ frame. self.old ≡ frame ∷ self.new) }
        ensures empty { IfNone result (self.new ≡ self.old) }
    {
        self.frames.pop()
    }
}
