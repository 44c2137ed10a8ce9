//! Lists of names, of nodes and of fields.

ghost use Rattle.std.specs.Prelude.{◌≡◌, [], ◌∷◌, ◌++◌, length, slice_get, IfOk, OnOk, OnErr};

use crate::node::{Field, NodeId};
use std::alloc::{AllocError, Global};
use std::marker::Model;

/// A vector that contracts see as the list of its elements.
#[derive(Debug, Drop)]
pub struct Sequence<T> {
    items: Vec<T>,
}

/// A list of nodes.
pub type Ids = Sequence<NodeId>;

/// A name or the value of a literal text, of any bytes.
pub type AstText = Sequence<u8>;

/// A list of names.
pub type AstTexts = Sequence<AstText>;

/// The fields of a table constructor.
pub type Fields = Sequence<Field>;

impl<T> Model for Sequence<T> {
    ghost use Rattle.std.specs.Prelude.{List};
    ghost use Rattle.std.specs.Coded.{coded_list};

    ghost Value = { List T };

    ghost coded = { coded_list T.code };

    ghost view = { λ sequence. sequence.items.items };
}

impl<T> Sequence<T> {
    /// An empty list, which takes no memory.
    pub fn new(alloc: Global) -> Sequence<T>
        ensures { result ≡ [] }
    {
        Sequence {
            items: Vec::new(alloc),
        }
    }

    /// The elements of a vector.
    pub fn from_vec(items: Vec<T>) -> Sequence<T>
        ensures { result ≡ items.items }
    {
        Sequence { items }
    }

    /// The elements, lent.
    pub fn as_slice(&self) -> &[T]
        ensures { result.now ≡ self.now }
    {
        self.items.as_slice()
    }

    /// How many elements there are.
    pub fn len(&self) -> usize
        ensures { result ≡ length self.now }
    {
        self.items.len()
    }
}

impl<T: Drop> Sequence<T> {
    /// Adds an element at the end. Where there is no memory for it, it is dropped and the list
    /// stays as it was.
    pub fn push(&mut self, item: T) -> Result<(), AllocError>
        ensures ok { OnOk result (self.new ≡ self.old ++ item ∷ []) }
        ensures err { OnErr result (self.new ≡ self.old) }
    {
        self.items.push(item)?;
        Ok(())
    }
}

impl Sequence<NodeId> {
    /// The node at this place of the list, from 0.
    pub fn get(&self, place: usize) -> Option<NodeId>
        ensures { result ≡ slice_get self.now place }
    {
        self.items.get(place).copied()
    }
}

impl Sequence<u8> {
    /// A copy of these bytes.
    pub fn from_bytes(alloc: Global, bytes: &[u8]) -> Result<AstText, AllocError>
        ensures { IfOk result (λ copy. copy ≡ bytes.now) }
    {
        let items = Vec::from_slice(alloc, bytes)?;
        Ok(Sequence { items })
    }
}
