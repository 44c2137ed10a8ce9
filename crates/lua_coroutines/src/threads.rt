//! The coroutines of a program (Lua 5.2 manual, 2.6).

ghost use Rattle.std.specs.Prelude.{◌≡◌, ◌<◌, length, slice_get};
ghost use Rattle.lua_meaning.specs.Threads.{status_in};
ghost use Rattle.lua_coroutines.specs.Threads.{main_alone};

use lua_meaning::{CoStatus, ThreadId};
use std::marker::Model;

/// The coroutines of a program, with the main thread as number 0, and which of them runs. There is
/// no other yet.
#[derive(Drop)]
pub struct CoTable {
    running: ThreadId,
}

impl Model for CoTable {
    ghost use Rattle.std.specs.Prelude.{◌≡◌};
    ghost use Rattle.lua_coroutines.specs.Threads.{ThreadsOf, main_alone};

    ghost Value = { ThreadsOf };

    ghost view = { λ t. record { threads = main_alone.threads; running = t.running } };

    ghost invariant = { λ t. t.running ≡ 0 };
}

impl CoTable {
    /// The main thread alone, which runs.
    pub fn new() -> CoTable
        ensures { result ≡ main_alone }
    {
        CoTable {
            running: ThreadId::new(0),
        }
    }

    /// The coroutine that runs.
    pub fn running(&self) -> ThreadId
        ensures which { result ≡ self.now.running }
        ensures there { result < length self.now.threads }
    {
        self.running
    }

    /// The status of a coroutine of this table (Lua 5.2 manual, 6.2). The main thread, which is all
    /// that there is yet, runs.
    pub fn status(&self, id: ThreadId) -> CoStatus
        requires { id < length self.now.threads }
        ensures { result ≡ status_in (slice_get self.now.threads id) }
    {
        if id == self.running {
            CoStatus::Running
        } else {
            CoStatus::Dead
        }
    }
}
