//! Positions in a text.

ghost use Rattle.std.specs.Prelude.{ℕ, pos, ◌≡◌, ◌≤◌, nat_le, nat_lt, int_lt};
ghost use Rattle.lua_text.specs.Positions.{from_front, bytes_between};

/// The position from the front, from 1, that a position means in a text of so many bytes: a negative
/// one counts from the end.
pub(crate) fn from_front(bytes: usize, position: i64) -> i128
    ensures { result ≡ from_front bytes position }
{
    if position < 0 {
        bytes as i128 + position as i128 + 1
    } else {
        position as i128
    }
}

/// How many bytes of a text stand before a position.
pub(crate) fn bytes_before(bytes: usize, position: i128) -> usize
    ensures at_most { result ≤ bytes }
    ensures places { (at : ℕ) → 1 ≤ at → at ≤ bytes → int_lt (pos at) position ≡ nat_le at result }
{
    if position <= 1 {
        0
    } else if position > bytes as i128 {
        bytes
    } else {
        (position - 1) as usize
    }
}

/// How many bytes of a text stand up to a position, that at the position included.
fn bytes_up_to(bytes: usize, position: i128) -> usize
    ensures at_most { result ≤ bytes }
    ensures places { (at : ℕ) → 1 ≤ at → at ≤ bytes → int_lt position (pos at) ≡ nat_lt result at }
{
    if position < 0 {
        0
    } else if position > bytes as i128 {
        bytes
    } else {
        position as usize
    }
}

/// The bytes of a text from one position to another, both included.
pub fn part(text: &[u8], first: i64, last: i64) -> &[u8]
    ensures { result.now ≡ bytes_between text.now first last }
{
    let from = from_front(text.len(), first);
    let to = from_front(text.len(), last);
    let start = bytes_before(text.len(), from);
    let end = bytes_up_to(text.len(), to);
    if start < end { &text[start..end] } else { &[] }
}
