//! Short names of snapshots, in byte order.

ghost use Rattle.std.specs.Prelude.{◌≡◌, [], bytes_eq, option_and_then, option_map, Some, IfOk};
ghost use Rattle.std.specs.List.{list_any};
ghost use Rattle.std.specs.Ordering.{nat_cmp};
ghost use Rattle.std.specs.Cmp.Lexicographic.{slice_cmp};
ghost use Rattle.std.specs.BTreeSet.{insert_key};
ghost use Rattle.zp_tree.specs.ShortNames.{short_name_if, short_names};
ghost use Rattle.zp_checks.specs.Noting.{with_name};

use std::alloc::Global;
use std::collections::BTreeSet;
use std::marker::Model;
use zc_io::NoMemory;
use zp_names::{Bytes, Sequence, Texts};
use zp_tree::{Datasets, Item, Snapshot};

/// Short names in byte order, each once. One is found in a time that grows with the logarithm of their number.
#[derive(Debug, Drop)]
pub(crate) struct ShortNames {
    names: BTreeSet<Vec<u8>>,
}

impl Model for ShortNames {
    ghost use Rattle.std.specs.Prelude.{List, ℕ, map};

    ghost Value = { List (List ℕ) };

    ghost view = { λ names. map (λ name. name.items) names.names.keys };
}

impl ShortNames {
    /// No name, which takes no memory.
    pub(crate) fn new(alloc: Global) -> ShortNames
        ensures { result ≡ [] }
    {
        ShortNames {
            names: BTreeSet::new(alloc),
        }
    }

    /// Whether this is one of the names.
    pub(crate) fn contains(&self, name: &[u8]) -> bool
        ensures { result ≡ list_any (bytes_eq name.now) self.now }
    {
        self.names.contains(name)
    }

    /// Puts a name at its place, unless it is there.
    fn put(&mut self, alloc: Global, name: &[u8]) -> Result<(), NoMemory>
        ensures { IfOk result (λ _. self.new ≡ insert_key (slice_cmp nat_cmp) self.old name.now) }
    {
        let name = Vec::from_slice(alloc, name)?;
        self.names.insert(name)?;
        Ok(())
    }

    /// The names as a list.
    pub(crate) fn into_texts(self, alloc: Global) -> Result<Texts, NoMemory>
        ensures { IfOk result (λ texts. texts ≡ self) }
    {
        let names = self.names.into_iter();
        let texts: Vec<Bytes> = names.map(|name| Sequence::from_vec(name)).collect(alloc)?;
        Ok(Sequence::from_vec(texts))
    }
}

/// Which snapshots are gone through.
pub(crate) trait Passing {
    ghost use Rattle.std.specs.Prelude.{Bool};
    ghost use Rattle.zp_tree.specs.declared.item.Snapshot.{Snapshot};

    ghost passes: { Self → Snapshot → Bool };

    fn passes(&self, snapshot: &Snapshot) -> bool
        ensures { result ≡ passes self.now snapshot.now };
}

/// Puts the short name of the record, where it is a snapshot that passes.
fn note<P: Passing>(
    alloc: Global,
    names: &mut ShortNames,
    passing: &P,
    item: Option<&Item>,
) -> Result<(), NoMemory>
    ensures { IfOk result (λ _. names.new ≡ with_name names.old (option_and_then (short_name_if (P.passes passing.now)) (option_map (λ r. r.now) item.entry))) }
{
    match item {
        Some(Item::Snap(snapshot)) if passing.passes(snapshot) => {
            names.put(alloc, snapshot.short.as_slice())
        }
        _ => Ok(()),
    }
}

/// The short names of the snapshots that pass.
pub(crate) fn names_of<T: Datasets, P: Passing>(
    alloc: Global,
    tree: &T,
    passing: &P,
) -> Result<ShortNames, NoMemory>
    ensures { IfOk result (λ names. names ≡ short_names (P.passes passing.now) (T.tree tree.now).records) }
{
    let mut names = ShortNames::new(alloc);
    let mut place = tree.len();
    while place > 0 {
        place -= 1;
        note(alloc, &mut names, passing, tree.nth(place))?;
    }
    Ok(names)
}
