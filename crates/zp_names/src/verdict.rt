//! What a check says.

ghost use Rattle.std.specs.Prelude.{◌≡◌, IfOk, []};

use crate::Texts;
use std::alloc::Global;
use zc_io::NoMemory;

/// What a check says of a command: it may be done where the error number is 0.
#[derive(Debug, Drop)]
pub struct Verdict {
    /// A number of `errno`, or 0.
    pub errno: u32,
    /// The names that stand in the way.
    pub details: Texts,
}

impl Verdict {
    /// The verdict with this error number and no details, which takes no memory.
    pub fn plain(alloc: Global, errno: u32) -> Verdict
        ensures errno { result.errno ≡ errno }
        ensures details { result.details ≡ [] }
    {
        Verdict {
            errno,
            details: Texts::new(alloc),
        }
    }

    /// A copy of this verdict.
    pub fn copy(&self, alloc: Global) -> Result<Verdict, NoMemory>
        ensures { IfOk result (λ copy. copy ≡ self.now) }
    {
        Ok(Verdict {
            errno: self.errno,
            details: self.details.copy_texts(alloc)?,
        })
    }
}
