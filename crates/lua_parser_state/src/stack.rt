//! A stack of frames.

ghost use Rattle.std.specs.Prelude.{◌≡◌, ◌≤◌, ◌∷◌, [], reverse, OnOk, OnErr, IfNone, MatchOption};
ghost use Rattle.lua_parser_state.specs.Depth.{lift_of, depth_of};

use crate::frame::Frame;
use std::alloc::{AllocError, Global};
use std::marker::Model;

/// The frames, seen with the last one first, and how many levels are open in them.
#[derive(Drop)]
pub struct Stack {
    frames: Vec<Frame>,
    depth: usize,
}

impl Model for Stack {
    ghost use Rattle.std.specs.Prelude.{◌≡◌, List, reverse};
    ghost use Rattle.lua_parser_state.specs.declared.frame.Frame.{Frame as frame};
    ghost use Rattle.lua_parser_state.specs.Depth.{depth_of};

    ghost Value = { List frame };

    ghost view = { λ s. reverse s.frames.items };

    ghost invariant = { λ s. s.depth ≡ depth_of (reverse s.frames.items) };
}

/// How many levels are open in a frame.
pub fn levels_in(frame: &Frame) -> usize
    ensures exact { result ≡ lift_of frame.now 0 }
    ensures few { result ≤ 2 }
{
    match frame {
        Frame::InKey { .. } => 2,
        Frame::InStatement(_) | Frame::InHeader(_) => 0,
        _ => 1,
    }
}

impl Stack {
    /// No frame yet, which takes no memory.
    pub fn new(alloc: Global) -> Stack
        ensures { result ≡ [] }
    {
        Stack {
            frames: Vec::new(alloc),
            depth: 0,
        }
    }

    /// How many levels are open.
    pub fn depth(&self) -> usize
        ensures { result ≡ depth_of self.now }
    {
        self.depth
    }

    /// Puts a frame on top. The only refusal is want of memory.
    pub fn push(&mut self, frame: Frame) -> Result<(), AllocError>
        ensures ok { OnOk result (self.new ≡ frame ∷ self.old) }
        ensures err { OnErr result (self.new ≡ self.old) }
    {
        let levels = levels_in(&frame);
        if self.depth > usize::MAX - levels {
            return Err(AllocError);
        }
        self.frames.push(frame)?;
        self.depth += levels;
        Ok(())
    }

    /// Takes the frame on top off.
    pub fn pop(&mut self) -> Option<Frame>
        ensures top { MatchOption result (self.old ≡ []) (λ frame. self.old ≡ frame ∷ self.new) }
        ensures empty { IfNone result (self.new ≡ self.old) }
    {
        let frame = self.frames.pop()?;
        self.depth -= levels_in(&frame);
        Some(frame)
    }
}
