//! What the arguments of a function name.

ghost use Rattle.std.specs.Prelude.{◌≡◌, IfOk, Some};
ghost use Rattle.lua_meaning.specs.Numbers.{as_text};
ghost use Rattle.zcp_calls.specs.Naming.{pool_name, name_of_head, one_text, named_by, one_name};

use itoa::Buffer;
use lua_values::Value;
use std::alloc::Global;
use zc_io::NoMemory;
use zp_names::{BadName, Bytes, Name};
use zp_tree::{Datasets, Item};

/// What the argument of a function names, for the programs of a pool.
#[derive(Drop)]
pub(crate) enum Named {
    /// A dataset, a snapshot or a bookmark that the pool may have.
    Here(Name),
    /// One that another pool may have.
    Elsewhere(Name),
    /// A text that is no name.
    NoName(Bytes),
    /// The arguments are of another number or of other types.
    Wrong,
}

/// The name of the pool.
pub(crate) fn pool_name<T: Datasets>(tree: &T) -> &[u8]
    ensures { result.now ≡ pool_name (T.tree tree.now) }
{
    match tree.nth(0) {
        None => b"",
        Some(item) => head_name(item),
    }
}

/// The name of a head.
fn head_name(item: &Item) -> &[u8]
    ensures { result.now ≡ name_of_head (Some item.now) }
{
    match item {
        Item::Head(head) => head.name.text().as_bytes(),
        Item::Snap(_) => b"",
        Item::Mark(_) => b"",
    }
}

/// The text that a value counts as, where a text is wanted.
fn text_of(alloc: Global, value: &Value) -> Result<Option<Bytes>, NoMemory>
    ensures { IfOk result (λ text. text ≡ as_text value.now) }
{
    match value {
        Value::Text(text) => Ok(Some(Bytes::from_bytes(alloc, text.as_slice())?)),
        Value::Int(number) => {
            let mut buffer = Buffer::new();
            let text = buffer.format(*number).as_bytes();
            Ok(Some(Bytes::from_bytes(alloc, text)?))
        }
        _ => Ok(None),
    }
}

/// The text that the one argument counts as.
fn one_text(alloc: Global, args: &[Value]) -> Result<Option<Bytes>, NoMemory>
    ensures { IfOk result (λ text. text ≡ one_text args.now) }
{
    match args {
        [] => Ok(None),
        [value] => text_of(alloc, value),
        [_, _, ..] => Ok(None),
    }
}

/// What a text names.
fn named_by(alloc: Global, pool: &[u8], text: Option<Bytes>) -> Result<Named, NoMemory>
    ensures { IfOk result (λ named. named ≡ named_by pool.now text) }
{
    let text = match text {
        None => return Ok(Named::Wrong),
        Some(text) => text,
    };
    match Name::read(alloc, text.as_slice()) {
        Ok(name) => {
            if name.pool().as_bytes() == pool {
                Ok(Named::Here(name))
            } else {
                Ok(Named::Elsewhere(name))
            }
        }
        Err(BadName::NoMemory) => Err(NoMemory),
        Err(_) => Ok(Named::NoName(text)),
    }
}

/// What the one argument names.
pub(crate) fn one_name(alloc: Global, pool: &[u8], args: &[Value]) -> Result<Named, NoMemory>
    ensures { IfOk result (λ named. named ≡ one_name pool.now args.now) }
{
    let text = one_text(alloc, args)?;
    named_by(alloc, pool, text)
}
