//! What a frame makes of what it is given.

use crate::mode::Mode;
use lua_coroutines::{CallInProgress, Frame};

/// What becomes of a frame, and what a machine does next.
#[derive(Drop)]
pub enum Given {
    /// The frame is done.
    Goes(Mode),
    /// Another frame takes its place.
    Enters(Frame, Mode),
    /// The frame is done, and the first locals stay, so many.
    Cuts(usize, Mode),
    /// The frame is done, and the call that waited goes on.
    Returns(CallInProgress, Mode),
    /// A jump lands in this block: the first locals stay, so many, and the block goes on.
    Lands(usize, Frame),
}
