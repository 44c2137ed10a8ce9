//! Reading the parts of a document.

ghost use Rattle.std.specs.Prelude.{◌≡◌, ◌≤◌, ⊤, not, find, bytes_eq, string_bytes, Option, Result, option_map, length, IfOk, All};
ghost use Rattle.std.specs.Fmt.{decimal};
ghost use Rattle.std.specs.List.{list_any};
ghost use Rattle.std.specs.BTreeMap.{keys};
ghost use Rattle.serde_json.specs.Data.{Data};
ghost use Rattle.serde_json.specs.View.{view, items_view, members_view};
ghost use Rattle.zc_doc.specs.Refusals.{below_step};
ghost use Rattle.zc_doc.specs.Reading.{Gives, text_at, flag_at, number_at, member, member_or, first_unknown, none_unknown, only_members, items_from, array_at};

use crate::DocError;
use crate::error::Path;
use serde_json::{Map, Value};
use std::alloc::Global;
use zc_io::NoMemory;
use zp_names::{Bytes, Sequence};

/// Reads what stands at one place of a document.
pub(crate) trait Reader {
    ghost use Rattle.zc_doc.specs.declared.error.DocError.{DocError};

    type Out: Drop;

    /// What stands there, or the first refusal, with its path from there on.
    ghost reads: { Self → Data → Result Self.Out DocError };

    /// What is known of what was read.
    ghost Holds: { Self → Self.Out → Type 0 };

    fn read(&self, alloc: Global, value: &Value) -> Result<Self::Out, DocError>
        ensures gives { Gives result (reads self.now (view value.now)) }
        ensures holds { IfOk result (Holds self.now) };
}

/// A whole number in a range.
#[derive(Drop)]
pub(crate) struct NumberIn {
    pub(crate) low: u64,
    pub(crate) high: u64,
}

impl Reader for NumberIn {
    type Out = u64;

    ghost reads = { λ r. number_at r.low r.high };

    ghost Holds = { λ r n. n ≤ r.high };

    fn read(&self, alloc: Global, value: &Value) -> Result<u64, DocError> {
        let Some(number) = value.as_number() else {
            return Err(DocError::bad_type(alloc));
        };
        match number.as_u64() {
            Some(n) if self.low <= n && n <= self.high => Ok(n),
            Some(_) => Err(DocError::bad_limit(alloc)),
            None if number.is_i64() => Err(DocError::bad_limit(alloc)),
            None => Err(DocError::bad_type(alloc)),
        }
    }
}

/// True or false.
#[derive(Drop)]
pub(crate) struct Flag;

impl Reader for Flag {
    type Out = bool;

    ghost reads = { λ _. flag_at };

    ghost Holds = { λ _ _. ⊤ };

    fn read(&self, alloc: Global, value: &Value) -> Result<bool, DocError> {
        match value.as_bool() {
            Some(flag) => Ok(flag),
            None => Err(DocError::bad_type(alloc)),
        }
    }
}

/// A text of any length.
#[derive(Drop)]
pub(crate) struct Text;

impl Reader for Text {
    type Out = Bytes;

    ghost reads = { λ _. text_at };

    ghost Holds = { λ _ _. ⊤ };

    fn read(&self, alloc: Global, value: &Value) -> Result<Bytes, DocError> {
        match value.as_str() {
            Some(text) => Ok(Sequence::from_bytes(alloc, text.as_bytes())?),
            None => Err(DocError::bad_type(alloc)),
        }
    }
}

/// An array of at most so many items.
#[derive(Drop)]
pub(crate) struct ArrayOf<R> {
    pub(crate) limit: u64,
    pub(crate) item: R,
}

impl<R: Reader> Reader for ArrayOf<R> {
    type Out = Sequence<R::Out>;

    ghost reads = { λ r. array_at r.limit (R.reads r.item) };

    ghost Holds = { λ r xs. (length xs ≤ r.limit) × All (R.Holds r.item) xs };

    fn read(&self, alloc: Global, value: &Value) -> Result<Sequence<R::Out>, DocError> {
        let Some(list) = value.as_array() else {
            return Err(DocError::bad_type(alloc));
        };
        let list = list.as_slice();
        let count = list.len() as u64;
        if self.limit < count {
            return Err(DocError::TooMany(Path::whole(alloc), count));
        }
        read_items(alloc, &self.item, list)
    }
}

/// Reads the item at a place of an array.
fn read_item<R: Reader>(
    alloc: Global,
    item: &R,
    place: usize,
    value: &Value,
) -> Result<R::Out, DocError>
    ensures gives { Gives result (below_step (decimal place) (R.reads item.now (view value.now))) }
    ensures holds { IfOk result (R.Holds item.now) }
{
    match item.read(alloc, value) {
        Ok(out) => Ok(out),
        Err(error) => {
            let step = format!(in alloc; "{place}").map_err(NoMemory::from)?;
            Err(error.behind(alloc, step.as_str())?)
        }
    }
}

fn read_items<R: Reader>(
    alloc: Global,
    item: &R,
    values: &[Value],
) -> Result<Sequence<R::Out>, DocError>
    ensures gives { Gives result (items_from (R.reads item.now) 0 (items_view values.now)) }
    ensures count { IfOk result (λ xs. length xs ≡ length values.now) }
    ensures holds { IfOk result (λ xs. All (R.Holds item.now) xs) }
{
    let mut found = Vec::new(alloc);
    for (place, value) in values.iter().enumerate() {
        let out = read_item(alloc, item, place, value)?;
        found.push(out).map_err(NoMemory::from)?;
    }
    Ok(Sequence::from_vec(found))
}

/// Reads the member of this name.
pub(crate) fn member<R: Reader>(
    alloc: Global,
    reader: &R,
    key: &str,
    value: &Value,
) -> Result<R::Out, DocError>
    ensures gives { Gives result (member (R.reads reader.now) key.now (view value.now)) }
    ensures holds { IfOk result (R.Holds reader.now) }
{
    let Some(value) = value.get(key) else {
        return Err(DocError::Missing(Path::whole(alloc).behind(alloc, key)?));
    };
    match reader.read(alloc, value) {
        Ok(out) => Ok(out),
        Err(error) => Err(error.behind(alloc, key)?),
    }
}

/// Reads the member of this name, or gives the default where it is missing.
pub(crate) fn member_or<R: Reader>(
    alloc: Global,
    reader: &R,
    default: R::Out,
    key: &str,
    value: &Value,
) -> Result<R::Out, DocError>
    ensures { Gives result (member_or default (R.reads reader.now) key.now (view value.now)) }
{
    match value.get(key) {
        Some(_) => member(alloc, reader, key, value),
        None => Ok(default),
    }
}

fn is_among(key: &str, known: &[&str]) -> bool
    ensures { result ≡ list_any (λ name. bytes_eq key.now name.now) known.now }
{
    known.iter().any(|name| key == *name)
}

fn unknown_name<'a>(members: &'a Map<String, Value>, known: &[&str]) -> Option<&'a String>
    ensures { option_map (λ k. k.now) result ≡ find (λ k. not (list_any (λ name. bytes_eq (string_bytes k) name.now) known.now)) (keys members.now) }
{
    members.keys().find(|key| !is_among(key.as_str(), known))
}

/// The name of the first member, in byte order, that is not known.
#[tactic(auto, using(crate::proofs::Unknown::unknown_is))]
fn first_unknown<'a>(members: &'a Map<String, Value>, known: &[&str]) -> Option<&'a str>
    ensures { option_map (λ k. k.now) result ≡ first_unknown (λ k. list_any (λ name. bytes_eq k name.now) known.now) (members_view members.now.entries) }
{
    match unknown_name(members, known) {
        Some(key) => Some(key.as_str()),
        None => None,
    }
}

fn none_unknown(alloc: Global, known: &[&str], members: &Map<String, Value>) -> Result<(), DocError>
    ensures { Gives result (none_unknown (first_unknown (λ k. list_any (λ name. bytes_eq k name.now) known.now) (members_view members.now.entries))) }
{
    match first_unknown(members, known) {
        Some(key) => Err(DocError::Unknown(Path::whole(alloc).behind(alloc, key)?)),
        None => Ok(()),
    }
}

/// Refuses what is no object, and an object with a member that is not known.
pub(crate) fn only_members(alloc: Global, known: &[&str], value: &Value) -> Result<(), DocError>
    ensures { Gives result (only_members (λ k. list_any (λ name. bytes_eq k name.now) known.now) (view value.now)) }
{
    match value.as_object() {
        Some(members) => none_unknown(alloc, known, members),
        None => Err(DocError::bad_type(alloc)),
    }
}
