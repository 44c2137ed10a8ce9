//! Calls.

ghost use Rattle.std.specs.Prelude.{◌≡◌, IfOk};

use std::alloc::Global;
use zc_io::NoMemory;
use zp_names::{Command, Query};

/// What a session calls for.
#[derive(Debug, Drop)]
pub enum Call {
    /// A change, which goes through a transaction group.
    Command(Command),
    /// A question, which is answered at once.
    Query(Query),
}

impl Call {
    /// The same call once more.
    pub fn copy(&self, alloc: Global) -> Result<Call, NoMemory>
        ensures { IfOk result (λ copy. copy ≡ self.now) }
    {
        match self {
            Call::Command(command) => Ok(Call::Command(command.copy(alloc)?)),
            Call::Query(query) => Ok(Call::Query(query.copy(alloc)?)),
        }
    }
}
