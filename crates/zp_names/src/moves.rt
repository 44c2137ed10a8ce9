//! What a rename of a dataset makes of names: zfs-rename(8).

ghost use Rattle.std.specs.Prelude.{◌≡◌, ◌+◌, ◌-◌, ◌≤◌, ◌++◌, ◌||◌, nat_lt, true, false, length, drop, IfOk, IsTrue, string_bytes};
ghost use Rattle.zp_names.specs.Names.{is_head, parts_of, is_valid_head};
ghost use Rattle.zp_names.specs.NameMoves.{is_at_or_below, moved, name_after, outgrows};

use crate::Name;
use crate::name::{back, name_of_text};
use crate::scan::{LONGEST_NAME, MOST_PARTS, count_of_parts};
use std::alloc::Global;
use zc_io::NoMemory;

/// Whether a text of so many bytes and parts, with so many bytes behind it, is more than a name can be.
fn is_too_much(bytes: usize, parts: usize, more: usize) -> bool
    ensures { result ≡ (nat_lt 255 (bytes + more) || nat_lt 50 parts) }
{
    bytes > LONGEST_NAME || more > LONGEST_NAME - bytes || parts > MOST_PARTS
}

impl Name {
    /// How many parts the dataset's name has.
    #[tactic(auto, using(crate::proofs::Heads::valid_size, crate::proofs::Heads::valid_depth))]
    pub fn depth(&self) -> usize
        ensures parts { result ≡ length (parts_of self.now) }
        ensures most { result ≤ 50 }
    {
        count_of_parts(self.text().as_bytes())
    }

    /// Whether it is the name of that dataset, or of one below it.
    pub fn is_at_or_below(&self, dataset: &Name) -> bool
        ensures { result ≡ is_at_or_below self.now dataset.now }
    {
        self.text().as_bytes() == dataset.text().as_bytes() || self.is_below(dataset)
    }

    /// Whether a rename of the dataset `old` to `new` would make this name, with so many bytes behind it (a mark and a
    /// short name, or none), longer than 255 bytes or deeper than 50 parts.
    pub fn outgrows(&self, old: &Name, new: &Name, more: usize) -> bool
        requires old { is_head old.now ≡ true }
        requires new { is_head new.now ≡ true }
        ensures { result ≡ outgrows old.now new.now self.now more }
    {
        if !self.is_at_or_below(old) {
            return false;
        }
        let bytes = new.text().len() + self.text().len() - old.text().len();
        let parts = new.depth() + self.depth() - old.depth();
        is_too_much(bytes, parts, more)
    }

    /// The name after a rename of the dataset `old` to `new`.
    #[tactic(auto, using(crate::proofs::MovedNames::moved_valid, crate::proofs::MovedNames::moved_size))]
    pub fn after_rename(&self, alloc: Global, old: &Name, new: &Name) -> Result<Name, NoMemory>
        requires old { is_head old.now ≡ true }
        requires new { is_head new.now ≡ true }
        requires fits { outgrows old.now new.now self.now 0 ≡ false }
        ensures { IfOk result (λ name. name ≡ name_after old.now new.now self.now) }
    {
        if !self.is_at_or_below(old) {
            return self.copy(alloc);
        }
        let mut text = String::from_str(alloc, new.text())?;
        text.push_str(back(self.text(), old.text().len()))?;
        Ok(name_of_text(text))
    }
}
