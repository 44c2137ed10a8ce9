//! Names: texts that follow the naming rules of ZFS.

ghost use Rattle.std.specs.Prelude.{◌≡◌, ◌<◌, ◌≤◌, ◌∷◌, ◌++◌, [], nat_eq, length, take, drop, false, IsTrue, IfOk, IfErr, OnOk, IfSome, ◌||◌, MatchOption, option_map, is_none, find, slice_get, slice_index, string_bytes};
ghost use Rattle.std.specs.List.{before_last, list_any, starts_with};
ghost use Rattle.std.specs.Str.{IsAscii};
ghost use Rattle.zp_names.specs.Names.{is_slash, is_mark, is_separator, is_head, is_valid_name, is_valid_head, is_valid_short, as_name, head_of, short_of};
ghost use Rattle.zp_names.specs.NameFaults.{name_fault, IsRefusal};
ghost use Rattle.zp_names.specs.NameParts.{form_of, written, pool_of, is_pool, parent_of, is_below, snapshot_name, bookmark_name};

use crate::scan::{is_separator, name_fault, place_of_mark, place_of_separator};
use crate::{BadName, Form};
use std::alloc::Global;
use std::marker::Model;
use zc_io::NoMemory;

/// A valid name of a dataset, a snapshot or a bookmark. Contracts see it as its bytes.
#[derive(Debug, Drop)]
pub struct Name {
    text: String,
    mark: usize,
}

impl Model for Name {
    ghost use Rattle.std.specs.Prelude.{◌≡◌, List, ℕ, IsTrue, string_bytes};
    ghost use Rattle.std.specs.List.{position_or_len};
    ghost use Rattle.zp_names.specs.Names.{is_mark, is_valid_name};

    ghost Value = { List ℕ };

    ghost view = { λ name. string_bytes name.text };

    ghost invariant = { λ name. (name.mark ≡ position_or_len is_mark (string_bytes name.text))
        × IsTrue (is_valid_name (string_bytes name.text)) };
}

impl Name {
    /// Reads a name. The refusals come in the order length, first bad place from the left, depth.
    #[tactic(auto, using(crate::proofs::Law::valid_where_no_fault, crate::proofs::Law::valid_ascii))]
    pub fn read(alloc: Global, text: &[u8]) -> Result<Name, BadName>
        ensures text { IfOk result (λ name. name ≡ text.now) }
        ensures valid { OnOk result (IsTrue (is_valid_name text.now)) }
        ensures refused { IfErr result (λ error. IsRefusal error text.now) }

        // A text is valid exactly where it has no fault.
        ensures exact { is_valid_name text.now ≡ is_none (name_fault text.now) }
    {
        if let Some(fault) = name_fault(text) {
            return Err(fault);
        }
        Ok(Name {
            text: copy_of_text(alloc, text)?,
            mark: place_of_mark(text),
        })
    }

    /// Whether it names a filesystem or a volume, and no snapshot or bookmark.
    pub fn is_head(&self) -> bool
        ensures { result ≡ is_head self.now }
    {
        self.mark == self.text().len()
    }

    fn mark_byte(&self) -> Option<u8>
        ensures { result ≡ find is_mark self.now }
    {
        byte_at(self.text.as_bytes(), self.mark)
    }

    /// What the name names.
    #[tactic(auto, using(crate::proofs::Marks::text_written))]
    pub fn form(&self) -> Form
        ensures form { result ≡ form_of self.now }
        // The parts give the name back.
        ensures whole { self.now ≡ written (form_of self.now) (head_of self.now) (short_of self.now) }
    {
        match self.mark_byte() {
            None => Form::Head,
            Some(b'@') => Form::Snap,
            Some(_) => Form::Bookmark,
        }
    }

    /// The whole name.
    pub fn text(&self) -> &str
        ensures text { result.now ≡ self.now }
        ensures valid { IsTrue (is_valid_name self.now) }
        ensures ascii { IsAscii result.now }
    {
        self.text.as_str()
    }

    /// The part before the mark: the dataset's name.
    #[tactic(auto, using(crate::proofs::Heads::head_valid, crate::proofs::Places::place_within))]
    pub fn head(&self) -> &str
        ensures head { result.now ≡ head_of self.now }
        ensures valid { IsTrue (is_valid_head (head_of self.now)) }
    {
        front(self.text(), self.mark)
    }

    /// The short name after the mark, or an empty text.
    #[tactic(auto, using(crate::proofs::Heads::short_valid))]
    pub fn short(&self) -> &str
        ensures short { result.now ≡ short_of self.now }
        ensures valid { IsTrue (is_head self.now || is_valid_short (short_of self.now)) }
    {
        let text = self.text();
        if self.mark < text.len() {
            back(text, self.mark + 1)
        } else {
            ""
        }
    }

    /// The first part.
    pub fn pool(&self) -> &str
        ensures { result.now ≡ pool_of self.now }
    {
        let text = self.text();
        front(text, place_of_separator(text.as_bytes()))
    }

    /// Whether it is the name of a pool: one part, and no mark.
    pub fn is_pool(&self) -> bool
        ensures { result ≡ is_pool self.now }
    {
        !has_separator(self.text.as_bytes())
    }

    /// The name without its last part. `None` where the name is not a dataset's, or has one part.
    #[tactic(auto, using(crate::proofs::Heads::parent_valid))]
    pub fn parent(&self) -> Option<&str>
        ensures parent { option_map (λ parent. parent.now) result ≡ parent_of self.now }
        ensures valid { IfSome result (λ parent. IsTrue (is_valid_head parent.now)) }
    {
        let text = self.text();
        if !self.is_head() {
            return None;
        }
        let end = last_slash(text.as_bytes())?;
        Some(front(text, end))
    }

    /// The dataset's name, as a name.
    pub fn head_name(&self, alloc: Global) -> Result<Name, NoMemory>
        ensures { IfOk result (λ head. head ≡ head_of self.now) }
    {
        name_of_head(alloc, self.head())
    }

    /// The parent, as a name.
    pub fn parent_name(&self, alloc: Global) -> Result<Option<Name>, NoMemory>
        ensures { IfOk result (λ parent. parent ≡ parent_of self.now) }
    {
        match self.parent() {
            None => Ok(None),
            Some(parent) => Ok(Some(name_of_head(alloc, parent)?)),
        }
    }

    /// The name of the snapshot of this dataset that has this short name. `None` where that text is no valid name.
    pub fn snapshot_name(&self, alloc: Global, short: &[u8]) -> Result<Option<Name>, NoMemory>
        ensures { IfOk result (λ name. name ≡ as_name (snapshot_name self.now short.now)) }
    {
        self.joined(alloc, b'@', short)
    }

    /// The name of the bookmark of this dataset that has this short name. `None` where that text is no valid name.
    pub fn bookmark_name(&self, alloc: Global, short: &[u8]) -> Result<Option<Name>, NoMemory>
        ensures { IfOk result (λ name. name ≡ as_name (bookmark_name self.now short.now)) }
    {
        self.joined(alloc, b'#', short)
    }

    /// This name, a mark and a short name together. `None` where that text is no valid name.
    fn joined(&self, alloc: Global, mark: u8, short: &[u8]) -> Result<Option<Name>, NoMemory>
        ensures { IfOk result (λ name. name ≡ as_name (self.now ++ mark ∷ short.now)) }
    {
        let mut text = Vec::from_slice(alloc, self.text.as_bytes())?;
        text.push(mark)?;
        text.extend_from_slice(short)?;
        match Name::read(alloc, text.as_slice()) {
            Ok(name) => Ok(Some(name)),
            Err(BadName::NoMemory) => Err(NoMemory),
            Err(_) => Ok(None),
        }
    }

    /// Whether both name datasets and this one stands below the other.
    pub fn is_below(&self, other: &Name) -> bool
        ensures { result ≡ is_below self.now other.now }
    {
        if !self.is_head() || !other.is_head() {
            return false;
        }
        goes_on(self.text.as_bytes(), other.text.as_bytes())
    }

    /// A copy of the name.
    pub fn copy(&self, alloc: Global) -> Result<Name, NoMemory>
        ensures copy { IfOk result (λ copy. copy ≡ self.now) }
        ensures valid { IsTrue (is_valid_name self.now) }
    {
        Ok(Name {
            text: String::from_str(alloc, self.text.as_str())?,
            mark: self.mark,
        })
    }
}

/// The name of a dataset that this valid text is.
pub(crate) fn name_of_text(text: String) -> Name
    requires { IsTrue (is_valid_head (string_bytes text)) }
    ensures { result ≡ string_bytes text }
{
    Name {
        mark: text.as_str().len(),
        text,
    }
}

/// The name that a dataset's valid name is.
fn name_of_head(alloc: Global, text: &str) -> Result<Name, NoMemory>
    requires { IsTrue (is_valid_head text.now) }
    ensures { IfOk result (λ name. name ≡ text.now) }
{
    Ok(name_of_text(String::from_str(alloc, text)?))
}

fn has_separator(text: &[u8]) -> bool
    ensures { result ≡ list_any is_separator text.now }
{
    text.iter().any(|byte| is_separator(*byte))
}

fn byte_at(text: &[u8], at: usize) -> Option<u8>
    ensures { result ≡ slice_get text.now at }
{
    text.get(at).copied()
}

/// The first bytes of a text that is ASCII, as names are.
fn front(text: &str, end: usize) -> &str
    requires ascii { IsAscii text.now }
    requires within { end ≤ length text.now }
    ensures { result.now ≡ take end text.now }
{
    &text[..end]
}

/// The bytes of such a text from a place on.
pub(crate) fn back(text: &str, start: usize) -> &str
    requires ascii { IsAscii text.now }
    requires within { start ≤ length text.now }
    ensures { result.now ≡ drop start text.now }
{
    &text[start..]
}

/// The place of the last slash.
fn last_slash(text: &[u8]) -> Option<usize>
    ensures { MatchOption result (list_any is_slash text.now ≡ false)
        (λ at. (at < length text.now) × (slice_index text.now at ≡ 47) × IsTrue (list_any is_slash text.now) × (take at text.now ≡ before_last is_slash text.now)) }
{
    let mut at = text.len();
    while at > 0 {
        at -= 1;
        if text[at] == b'/' {
            return Some(at);
        }
    }
    None
}

/// Whether a text begins with another and a slash.
fn goes_on(text: &[u8], start: &[u8]) -> bool
    ensures { result ≡ starts_with nat_eq text.now (start.now ++ 47 ∷ []) }
{
    match text.strip_prefix(start) {
        Some(rest) => rest.starts_with(b"/"),
        None => false,
    }
}

/// A copy of an ASCII text.
fn copy_of_text(alloc: Global, text: &[u8]) -> Result<String, NoMemory>
    requires { IsAscii text.now }
    ensures { IfOk result (λ copy. string_bytes copy ≡ text.now) }
{
    Ok(String::from_utf8(Vec::from_slice(alloc, text)?).unwrap())
}
