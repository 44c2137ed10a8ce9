//! Queries in a document.

ghost use Rattle.std.specs.Prelude.{⊤, codes, IfOk};
ghost use Rattle.serde_json.specs.View.{view};
ghost use Rattle.zp_calls.specs.Names.{HasValidNames};
ghost use Rattle.zp_calls.specs.declared.call.Call.TheVariants as call;
ghost use Rattle.zc_doc.specs.Reading.{Gives};
ghost use Rattle.zc_doc.specs.Calls.{kind_of_word, list_kind_at, query_of};

use crate::DocError;
use crate::call::{NameIn, only_name};
use crate::error::Path;
use crate::reading::{NumberIn, Reader, Text, member, member_or, only_members};
use serde_json::Value;
use std::alloc::Global;
use zp_names::{Bytes, ListKind, Name, Query};

/// What a list goes over.
#[derive(Drop)]
struct KindOfList;

#[tactic(auto, unfolding(crate::specs::Calls::kind_of_word))]
fn kind_of_word(alloc: Global, word: &str) -> Result<ListKind, DocError>
    ensures { Gives result (kind_of_word word.now) }
{
    match word {
        "children" => Ok(ListKind::Children),
        "snapshots" => Ok(ListKind::Snapshots),
        "clones" => Ok(ListKind::Clones),
        "bookmarks" => Ok(ListKind::Bookmarks),
        "holds" => Ok(ListKind::Holds),
        "user_properties" => Ok(ListKind::UserProperties),
        _ => Err(DocError::bad_type(alloc)),
    }
}

impl Reader for KindOfList {
    type Out = ListKind;

    ghost reads = { λ _. list_kind_at };

    ghost Holds = { λ _ _. ⊤ };

    fn read(&self, alloc: Global, value: &Value) -> Result<ListKind, DocError> {
        match value.as_str() {
            Some(word) => kind_of_word(alloc, word),
            None => Err(DocError::bad_type(alloc)),
        }
    }
}

/// Reads the query of an op.
#[tactic(auto, unfolding(crate::specs::Calls::query_of))]
pub(crate) fn read_query(
    alloc: Global,
    pool: &Name,
    op: &str,
    value: &Value,
) -> Result<Query, DocError>
    ensures gives { Gives result (query_of pool.now op.now (view value.now)) }
    ensures names { IfOk result (λ q. HasValidNames (call.Query q)) }
{
    match op {
        "exists" => Ok(Query::Exists {
            name: only_name(alloc, pool, value)?,
        }),
        "list" => read_list(alloc, pool, value),
        "get" => read_get(alloc, pool, value),
        _ => Err(DocError::BadType(Path::whole(alloc).behind(alloc, "op")?)),
    }
}

#[tactic(auto, unfolding(crate::specs::Calls::query_of))]
fn read_list(alloc: Global, pool: &Name, value: &Value) -> Result<Query, DocError>
    ensures gives { Gives result (query_of pool.now (codes "list") (view value.now)) }
    ensures names { IfOk result (λ q. HasValidNames (call.Query q)) }
{
    only_members(alloc, &["op", "kind", "name", "after", "limit"], value)?;
    let number = NumberIn { low: 1, high: 256 };
    let kind = member(alloc, &KindOfList, "kind", value)?;
    let name = member(alloc, &NameIn { pool }, "name", value)?;
    let after = member_or(alloc, &Text, Bytes::new(alloc), "after", value)?;
    let limit = member_or(alloc, &number, 256, "limit", value)?;
    Ok(Query::List {
        kind,
        name,
        after,
        limit,
    })
}

#[tactic(auto, unfolding(crate::specs::Calls::query_of))]
fn read_get(alloc: Global, pool: &Name, value: &Value) -> Result<Query, DocError>
    ensures gives { Gives result (query_of pool.now (codes "get") (view value.now)) }
    ensures names { IfOk result (λ q. HasValidNames (call.Query q)) }
{
    only_members(alloc, &["op", "name", "prop"], value)?;
    let name = member(alloc, &NameIn { pool }, "name", value)?;
    let prop = member(alloc, &Text, "prop", value)?;
    Ok(Query::Get { name, prop })
}
