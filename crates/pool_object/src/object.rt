//! The pool as the object of the core.

ghost use Rattle.std.specs.Prelude.{◌≡◌};
ghost use Rattle.zp_tree.specs.WellFormed.{IsWellFormed};

use std::alloc::Global;
use std::marker::Model;
use txg_core::{Kind, SerialObject, Stated};
use zc_io::NoMemory;
use zcp_read::query;
use zp_calls::{Call, Reply};
use zp_changes::apply;
use zp_checks::check;
use zp_tree::Datasets;

/// A pool, over any kind of tree, and the moment at which its calls are done. The tree is well
/// formed, also after a call that answered `NoMemory`.
#[derive(Drop)]
pub struct Pool<T: Datasets> {
    tree: T,
    moment: u64,
}

impl<T: Datasets> Model for Pool<T> {
    ghost use Rattle.zp_tree.specs.WellFormed.{IsWellFormed};
    ghost use Rattle.pool_object.specs.Pool.{PoolState};

    ghost Value = { PoolState T };

    ghost view = { λ a. record { tree = a.tree; moment = a.moment } };

    ghost invariant = { λ a. IsWellFormed (T.tree a.tree) };
}

impl<T: Datasets> Pool<T> {
    ghost use Rattle.pool_object.specs.Pool.{PoolState};

    /// The pool of this tree, in which it is so many seconds past the epoch.
    pub fn new(tree: T, now: u64) -> Pool<T>
        requires { IsWellFormed (T.tree tree) }
        ensures { result ≡ record { tree = tree; moment = now } }
    {
        Pool { tree, moment: now }
    }

    /// The tree as it now stands.
    pub fn tree(&self) -> &T
        ensures tree { result.now ≡ self.now.tree }
        ensures well { IsWellFormed (T.tree self.now.tree) }
    {
        &self.tree
    }
}

impl<T: Datasets> Stated for Pool<T> {
    type Call = Call;

    type Reply = Reply;

    ghost use Rattle.zp_tree.specs.Tree.{Tree};
    ghost use Rattle.std.specs.Prelude.{refl};
    ghost use Rattle.pool_object.specs.Pool.{kind_of, pool_means};
    ghost use Rattle.pool_object.specs.PoolLaws.{pool_lawful};

    ghost World = { Tree };

    ghost means = { pool_means T.tree };

    ghost kind_of = { kind_of };

    ghost lawful = { λ pool. pool_lawful pool.moment };

    ghost kind_is = { λ _ c. refl };

    fn kind(&self, call: &Call) -> Kind {
        match call {
            Call::Command(_) => Kind::Change,
            Call::Query(_) => Kind::Query,
        }
    }

    fn copy(&self, alloc: Global) -> Result<Self, NoMemory> {
        Ok(Pool {
            tree: self.tree.copy(alloc)?,
            moment: self.moment,
        })
    }
}

impl<T: Datasets> SerialObject for Pool<T> {
    fn check(&self, alloc: Global, call: &Call) -> Result<Option<Reply>, NoMemory> {
        let Call::Command(command) = call else {
            return Ok(None);
        };
        let verdict = check(alloc, &self.tree, command)?;
        if verdict.errno == 0 {
            Ok(None)
        } else {
            Ok(Some(Reply::Errno(verdict)))
        }
    }

    fn apply(&mut self, alloc: Global, call: &Call, txg: u64) -> Result<Reply, NoMemory> {
        match call {
            Call::Command(command) => {
                let verdict = check(alloc, &self.tree, command)?;
                if verdict.errno == 0 {
                    apply(alloc, &mut self.tree, command, txg, self.moment)?;
                }
                Ok(Reply::Errno(verdict))
            }
            Call::Query(asked) => query(alloc, &self.tree, asked),
        }
    }

    fn read(&self, alloc: Global, call: &Call) -> Result<Reply, NoMemory> {
        match call {
            Call::Query(asked) => query(alloc, &self.tree, asked),
            Call::Command(_) => unreachable!(),
        }
    }
}
