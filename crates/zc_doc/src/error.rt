//! The refusal of a document, and its place.

ghost use Rattle.std.specs.Prelude.{◌≡◌, [], IfOk};
ghost use Rattle.zc_doc.specs.Refusals.{path_behind, behind};

use std::alloc::Global;
use std::fmt;
use std::marker::Model;
use thiserror::Error;
use zc_io::NoMemory;

/// A place in a document, written like `/sessions/0/2/name`. The whole document is the empty path.
/// Names of members stand in it as they are. Contracts see its bytes.
#[derive(Debug, Drop)]
pub struct Path {
    text: String,
}

impl Model for Path {
    ghost use Rattle.std.specs.Prelude.{List, ℕ, string_bytes};

    ghost Value = { List ℕ };

    ghost view = { λ path. string_bytes path.text };
}

impl Path {
    /// The whole document.
    pub(crate) fn whole(alloc: Global) -> Path
        ensures { result ≡ [] }
    {
        Path {
            text: String::new(alloc),
        }
    }

    /// This path behind one step more.
    pub(crate) fn behind(&self, alloc: Global, step: &str) -> Result<Path, NoMemory>
        ensures { IfOk result (λ path. path ≡ path_behind step.now self.now) }
    {
        let text = format!(in alloc; "/{step}{}", self.text)?;
        Ok(Path { text })
    }

    /// The path as a text.
    pub fn as_str(&self) -> &str
        ensures { result.now ≡ self.now }
    {
        self.text.as_str()
    }
}

impl fmt::Display for Path {
    ghost use Rattle.std.specs.Prelude.{Some};

    ghost output = { λ path. Some path };

    fn fmt<W: fmt::Write>(&self, f: &mut fmt::Formatter<W>) -> fmt::Result {
        write!(f, "{}", self.text)
    }
}

/// Why a document is refused. Its printed form is the kind and, where there is one, the path.
#[derive(Debug, Drop, Error)]
pub enum DocError {
    /// The bytes are so many, which is more than a document may have.
    #[error("TooLong")]
    TooLong(u64),
    /// The bytes are no JSON text.
    #[error("NotJson")]
    NotJson,
    /// A member that its object doesn't have.
    #[error("Unknown at {0}")]
    Unknown(Path),
    /// A member that has to be there.
    #[error("Missing at {0}")]
    Missing(Path),
    /// A value of the wrong shape: an unknown op or event and a number that isn't whole are such.
    #[error("BadType at {0}")]
    BadType(Path),
    /// An array with more items than it may have, and their number.
    #[error("TooMany at {0}")]
    TooMany(Path, u64),
    /// A whole number outside its range.
    #[error("BadLimit at {0}")]
    BadLimit(Path),
    /// A text that is no name of a dataset, or not one of the pool.
    #[error("BadName at {0}")]
    BadName(Path),
    /// The command of this place in the setup, from 0, is the first whose check has an error
    /// number, and this one.
    #[error("SetupRefused")]
    SetupRefused(u64, u32),
    /// There was no memory left.
    #[error("NoMemory")]
    NoMemory,
}

impl From<NoMemory> for DocError {
    ghost use Rattle.std.specs.Prelude.{◌≡◌};
    ghost use Rattle.zc_doc.specs.declared.error.DocError.TheVariants as refusal;

    ghost from_gives = { λ _ e. e ≡ refusal.NoMemory };

    fn from(_error: NoMemory) -> DocError {
        DocError::NoMemory
    }
}

impl DocError {
    /// A refusal of a part, as one of the whole in which this step leads to the part.
    pub(crate) fn behind(self, alloc: Global, step: &str) -> Result<DocError, NoMemory>
        ensures { IfOk result (λ e. e ≡ behind step.now self) }
    {
        match self {
            DocError::Unknown(path) => Ok(DocError::Unknown(path.behind(alloc, step)?)),
            DocError::Missing(path) => Ok(DocError::Missing(path.behind(alloc, step)?)),
            DocError::BadType(path) => Ok(DocError::BadType(path.behind(alloc, step)?)),
            DocError::TooMany(path, count) => {
                Ok(DocError::TooMany(path.behind(alloc, step)?, count))
            }
            DocError::BadLimit(path) => Ok(DocError::BadLimit(path.behind(alloc, step)?)),
            DocError::BadName(path) => Ok(DocError::BadName(path.behind(alloc, step)?)),
            other => Ok(other),
        }
    }

    /// A value of the wrong shape.
    pub(crate) fn bad_type(alloc: Global) -> DocError
        ensures { result ≡ DocError.BadType [] }
    {
        DocError::BadType(Path::whole(alloc))
    }

    /// A whole number outside its range.
    pub(crate) fn bad_limit(alloc: Global) -> DocError
        ensures { result ≡ DocError.BadLimit [] }
    {
        DocError::BadLimit(Path::whole(alloc))
    }

    /// A text that is no name, or not one of the pool.
    pub(crate) fn bad_name(alloc: Global) -> DocError
        ensures { result ≡ DocError.BadName [] }
    {
        DocError::BadName(Path::whole(alloc))
    }
}
