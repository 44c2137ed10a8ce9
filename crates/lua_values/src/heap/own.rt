//! The tables that a program starts with, and that what a heap holds is its own.

ghost use Rattle.std.specs.Prelude.{◌≡◌, ◌<◌, length};
ghost use Rattle.lua_meaning.specs.Indexing.{string_table};
ghost use Rattle.lua_values.specs.Ids.{AreOwn};

use crate::heap::Heap;
use lua_meaning::TableId;

impl Heap {
    /// Every number that it holds is its own, and the tables that a program starts with are there.
    pub fn numbers_are_own(&self)
        ensures { AreOwn self.now }
    {
        let _tables = &self.tables;
    }

    /// The table of globals.
    pub fn globals(&self) -> TableId
        ensures value { result ≡ 0 }
        ensures own { result < length self.now.tables }
    {
        let _tables = &self.tables;
        TableId::new(0)
    }

    /// The table `string`, in which texts look their keys up.
    pub fn strings(&self) -> TableId
        ensures value { result ≡ string_table }
        ensures own { result < length self.now.tables }
    {
        let _tables = &self.tables;
        TableId::new(2)
    }
}
