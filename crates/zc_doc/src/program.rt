//! The channel programs of a document.

ghost use Rattle.std.specs.Prelude.{IfOk};
ghost use Rattle.std.specs.Str.{IsUtf8};
ghost use Rattle.serde_json.specs.View.{view, members_view};
ghost use Rattle.zc_doc.specs.Reading.{Gives};
ghost use Rattle.zc_doc.specs.Programs.{program_at, programs_in, AreNamed};

use crate::DocError;
use crate::reading::{Reader, Text};
use serde_json::{Map, Value};
use std::alloc::Global;
use zp_names::{Bytes, Sequence};

/// A channel program: zfs-program(8).
#[derive(Drop)]
pub struct Program {
    /// The name of the script. It is UTF-8.
    pub name: Bytes,
    /// The text in Lua, which need not load.
    pub text: Bytes,
}

/// Programs by name, in byte order of the names.
#[derive(Drop)]
pub(crate) struct Programs;

impl Reader for Programs {
    type Out = Sequence<Program>;

    ghost use Rattle.zc_doc.specs.Programs.{programs_at, AreNamed};

    ghost reads = { λ _. programs_at };

    ghost Holds = { λ _ programs. AreNamed programs };

    fn read(&self, alloc: Global, value: &Value) -> Result<Sequence<Program>, DocError> {
        match value.as_object() {
            Some(members) => read_each(alloc, members),
            None => Err(DocError::bad_type(alloc)),
        }
    }
}

fn read_program(alloc: Global, name: &str, value: &Value) -> Result<Program, DocError>
    ensures gives { Gives result (program_at name.now (view value.now)) }
    ensures name { IfOk result (λ program. IsUtf8 program.name) }
{
    let text = match Text.read(alloc, value) {
        Ok(text) => text,
        Err(error) => return Err(error.behind(alloc, name)?),
    };
    let name = Sequence::from_bytes(alloc, name.as_bytes())?;
    Ok(Program { name, text })
}

fn read_each(alloc: Global, members: &Map<String, Value>) -> Result<Sequence<Program>, DocError>
    ensures gives { Gives result (programs_in (members_view members.now.entries)) }
    ensures names { IfOk result (λ programs. AreNamed programs) }
{
    let mut found = Sequence::new(alloc);
    for (name, value) in members.iter() {
        found.push(read_program(alloc, name.as_str(), value)?)?;
    }
    Ok(found)
}
