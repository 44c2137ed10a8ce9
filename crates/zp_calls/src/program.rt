//! Channel programs that sessions call for, and what is told of them: zfs-program(8).

ghost use Rattle.std.specs.Prelude.{◌≡◌, IfOk};
ghost use Rattle.zc_budget.specs.Used.{IsLimit, greatest_instructions, greatest_bytes};
ghost use Rattle.zp_calls.specs.Programs.{AreLimits, loaded_of, lent_of};

use crate::JsonText;
use lua_scope::{LoadError, Parsed};
use std::marker::Model;
use std::sync::Arc;
use zc_io::NoMemory;
use zp_names::{Bytes, Texts};

/// A call of a channel program. Calls of one script share its text.
#[derive(Debug, Drop)]
pub struct ProgramCall {
    loaded: Result<Arc<Parsed>, LoadError>,
    instructions: u64,
    memory: u64,
    sync: bool,
}

impl Model for ProgramCall {
    ghost use Rattle.zp_calls.specs.Programs.{Called, loaded_of, AreLimits};

    ghost Value = { Called };

    ghost view = { λ a. record { loaded = loaded_of a.loaded; instructions = a.instructions; memory = a.memory; sync = a.sync } };

    ghost invariant = { λ a. AreLimits a.instructions a.memory };
}

impl ProgramCall {
    /// A call of the program that was loaded so, within a limit of instructions, from 1 to 100,000,000, and one of bytes of
    /// memory, from 1 to 104,857,600 (zfs-program(8), "-t" and "-m"). Without `sync` it changes nothing: it is a question.
    pub fn new(
        loaded: Result<Arc<Parsed>, LoadError>,
        instructions: u64,
        memory: u64,
        sync: bool,
    ) -> ProgramCall
        requires { AreLimits instructions memory }
        ensures { result ≡ record { loaded = loaded_of loaded; instructions = instructions; memory = memory; sync = sync } }
    {
        ProgramCall {
            loaded,
            instructions,
            memory,
            sync,
        }
    }

    /// The program, or why its text does not load.
    pub fn loaded(&self) -> Result<&Parsed, LoadError>
        ensures { lent_of result ≡ self.now.loaded }
    {
        match &self.loaded {
            Ok(parsed) => Ok(parsed),
            Err(error) => Err(*error),
        }
    }

    /// How many instructions it may do.
    pub fn instructions(&self) -> u64
        ensures limit { result ≡ self.now.instructions }
        ensures range { IsLimit greatest_instructions self.now.instructions }
    {
        self.instructions
    }

    /// How many bytes of memory it may take.
    pub fn memory(&self) -> u64
        ensures limit { result ≡ self.now.memory }
        ensures range { IsLimit greatest_bytes self.now.memory }
    {
        self.memory
    }

    /// Whether it may change the pool.
    pub fn sync(&self) -> bool
        ensures { result ≡ self.now.sync }
    {
        self.sync
    }

    /// The same call once more.
    pub fn copy(&self) -> Result<ProgramCall, NoMemory>
        ensures { IfOk result (λ copy. copy ≡ self.now) }
    {
        let loaded = match &self.loaded {
            Ok(parsed) => Ok(Arc::try_clone(parsed)?),
            Err(error) => Err(*error),
        };
        Ok(ProgramCall {
            loaded,
            instructions: self.instructions,
            memory: self.memory,
            sync: self.sync,
        })
    }
}

/// What a program has come to.
#[derive(Debug, Drop)]
pub enum Answer {
    /// It came to its end, with this value, or with none.
    Return(Option<JsonText>),
    /// It raised an error, was stopped by a limit, or did not load: the text of that.
    Error(Bytes),
}

/// What a session is told of a program.
#[derive(Debug, Drop)]
pub struct ProgramReply {
    /// What it has come to.
    pub answer: Answer,
    /// How many instructions it did.
    pub instructions: u64,
    /// How many bytes of memory it took.
    pub memory: u64,
    /// The messages that it wrote for debugging, in their order.
    pub debug: Texts,
}
