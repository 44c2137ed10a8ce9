//! Where a text stands in another.

ghost use Rattle.std.specs.Prelude.{pos, ◌+◌, ◌≡◌, int_lt};
ghost use Rattle.lua_text.specs.Finding.{first_place};

use crate::positions::{bytes_before, from_front};
use memchr::memmem;

/// Whether a position lies past the one behind the last of so many bytes.
fn is_past(bytes: usize, position: i128) -> bool
    ensures { result ≡ int_lt (pos (bytes + 1)) position }
{
    position > bytes as i128 + 1
}

/// The first position, from this one on, at which the wanted text stands.
pub fn first_place(text: &[u8], wanted: &[u8], from: i64) -> Option<usize>
    ensures { result ≡ first_place text.now wanted.now from }
{
    let first = from_front(text.len(), from);
    if is_past(text.len(), first) {
        return None;
    }
    let before = bytes_before(text.len(), first);
    match memmem::find(&text[before..], wanted) {
        Some(place) => Some(before + place + 1),
        None => None,
    }
}
