//! Loading the channel programs of a document, for a check of it.

ghost use Rattle.std.specs.Prelude.{◌≡◌, ◌++◌, ◌∷◌, [], false, IfOk};
ghost use Rattle.std.specs.Str.{IsUtf8};
ghost use Rattle.serde_json.specs.View.{view};
ghost use Rattle.serde_json.specs.Written.{has_float, compact_text};
ghost use Rattle.zc_doc.specs.Document.{contents_of};
ghost use Rattle.zc_doc.specs.Programs.{AreNamed};
ghost use Rattle.zc_offline.specs.LoadResults.{IsLoadResult, load_result_data, AreLoadResults, check_data, IsCheckOf};

use crate::load_error::load_error_text;
use lua_scope::{LoadError, load};
use serde_json::{Map, Value, json, put};
use std::alloc::{AllocError, Global};
use std::str;
use zc_doc::{Document, Program};
use zc_io::NoMemory;
use zp_tree::Datasets;

/// Loads a program's text: none where it loads, else why it does not.
fn refusal_of(alloc: Global, program: &Program) -> Result<Option<LoadError>, NoMemory>
    ensures { IfOk result (λ refusal. IsLoadResult program.now.text refusal) }
{
    let text = program.text.copy(alloc)?.into_vec();
    match load(alloc, text) {
        Ok(_) => Ok(None),
        Err(LoadError::NoMemory) => Err(NoMemory),
        Err(error) => Ok(Some(error)),
    }
}

fn load_result_value(alloc: Global, refusal: Option<LoadError>) -> Result<Value, AllocError>
    ensures { IfOk result (λ v. view v ≡ load_result_data refusal) }
{
    match refusal {
        None => Ok(Value::Null),
        Some(error) => {
            let text = load_error_text(alloc, error)?;
            Ok(Value::from(text))
        }
    }
}

fn text_of(bytes: &[u8]) -> &str
    requires { IsUtf8 bytes.now }
    ensures { result.now ≡ bytes.now }
{
    str::from_utf8(bytes).unwrap()
}

/// The load result of each program, by name.
fn load_results_value(alloc: Global, programs: &[Program]) -> Result<Value, NoMemory>
    requires { AreNamed programs.now }
    ensures { IfOk result (λ v. AreLoadResults programs.now (view v)) }
{
    let mut members = Map::new(alloc);
    for program in programs {
        let refusal = refusal_of(alloc, program)?;
        let value = load_result_value(alloc, refusal)?;
        put(&mut members, alloc, text_of(program.name.as_slice()), value)?;
    }
    Ok(Value::Object(members))
}

fn check_value(alloc: Global, programs: Value, records: u64) -> Result<Value, AllocError>
    ensures { IfOk result (λ v. view v ≡ check_data (view programs) records) }
{
    json!(in alloc; {
        "programs": programs,
        "records": records,
    })
}

/// One line of compact JSON and a newline.
fn line_of(alloc: Global, value: &Value) -> Result<Vec<u8>, NoMemory>
    requires { has_float (view value.now) ≡ false }
    ensures { IfOk result (λ line. line.items ≡ compact_text (view value.now) ++ 10 ∷ []) }
{
    let mut text = value.to_string(alloc)?;
    text.push_str("\n")?;
    Ok(text.into_bytes())
}

/// The output of a check: the load result of each program of the document, and how many records
/// its tree has.
pub(crate) fn check_output(alloc: Global, document: &Document) -> Result<Vec<u8>, NoMemory>
    requires { AreNamed document.now.programs }
    ensures { IfOk result (λ text. IsCheckOf (contents_of document.entry.now) text.items) }
{
    let results = load_results_value(alloc, document.programs.as_slice())?;
    let value = check_value(alloc, results, document.tree.len())?;
    line_of(alloc, &value)
}
