//! How a run of the program ends.

ghost use Rattle.std.specs.Prelude.{◌≡◌};
ghost use Rattle.zc_offline.specs.Status.{refusal_status};

use std::fmt;
use zc_doc::DocError;

/// How a run of the program ended.
#[derive(Debug, Drop)]
pub enum Status {
    /// All was written.
    Ok,
    /// The words ask for nothing that the program does; nothing was read.
    Usage,
    /// The document is refused, for its first refusal.
    BadDocument(DocError),
    /// This event of the schedule, from 0, is the first that is not enabled after those before it.
    NotEnabled(u64),
    /// The source failed.
    ReadFault,
    /// The sink failed; a prefix of the output was written.
    WriteFault,
    /// There was no memory left; nothing was written.
    NoMemory,
}

impl Status {
    ghost use Rattle.std.specs.Prelude.{◌≡◌};
    ghost use Rattle.zc_offline.specs.Status.{code_of};

    /// The number with which the process ends.
    pub fn code(&self) -> u8
        ensures { result ≡ code_of self.now }
    {
        match self {
            Status::Ok => 0,
            Status::Usage => 2,
            Status::BadDocument(_) => 3,
            Status::NotEnabled(_) => 4,
            Status::ReadFault => 5,
            Status::WriteFault => 6,
            Status::NoMemory => 7,
        }
    }
}

/// How a run ends that has no document.
pub(crate) fn refusal_status(error: DocError) -> Status
    ensures { result ≡ refusal_status error }
{
    match error {
        DocError::NoMemory => Status::NoMemory,
        refusal => Status::BadDocument(refusal),
    }
}

/// The fault line.
impl fmt::Display for Status {
    ghost use Rattle.zc_offline.specs.FaultLines.{fault_line};

    ghost output = { fault_line };

    fn fmt<W: fmt::Write>(&self, f: &mut fmt::Formatter<W>) -> fmt::Result {
        match self {
            Status::Ok => Ok(()),
            Status::Usage => write!(
                f,
                "usage: zcpd run, replay, check, gen SEED N, or program [-jn] [-t N] [-m N] POOL SCRIPT [ARG...]"
            ),
            Status::BadDocument(error) => write!(f, "bad document: {error}"),
            Status::NotEnabled(event) => write!(f, "event {event} is not enabled"),
            Status::ReadFault => write!(f, "cannot read the input"),
            Status::WriteFault => write!(f, "cannot write the output"),
            Status::NoMemory => write!(f, "out of memory"),
        }
    }
}
