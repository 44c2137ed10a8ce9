//! Scans of a text: its first fault, its first mark, its parts.

ghost use Rattle.std.specs.Prelude.{◌≡◌, ◌≤◌, ◌+◌, length, position, ◌||◌};
ghost use Rattle.std.specs.List.{position_or_len, list_all};
ghost use Rattle.zp_names.specs.Names.{is_mark, is_separator, is_name_byte, is_valid_short, parts_of};
ghost use Rattle.zp_names.specs.NameFaults.{is_bad_byte, fault_of, first_fault, name_fault};

use crate::BadName;

/// The most bytes of a name.
pub(crate) const LONGEST_NAME: usize = 255;

/// The most parts of a name.
pub(crate) const MOST_PARTS: usize = 50;

/// Whether a byte is one of the two marks.
fn is_mark(byte: u8) -> bool
    ensures { result ≡ is_mark byte }
{
    byte == b'@' || byte == b'#'
}

/// Whether a byte ends a part.
pub(crate) fn is_separator(byte: u8) -> bool
    ensures { result ≡ is_separator byte }
{
    byte == b'/' || is_mark(byte)
}

fn find_mark(text: &[u8]) -> Option<usize>
    ensures { result ≡ position is_mark text.now }
{
    text.iter().position(|byte| is_mark(*byte))
}

fn find_separator(text: &[u8]) -> Option<usize>
    ensures { result ≡ position is_separator text.now }
{
    text.iter().position(|byte| is_separator(*byte))
}

/// The place of the first mark, or the length.
pub(crate) fn place_of_mark(text: &[u8]) -> usize
    ensures place { result ≡ position_or_len is_mark text.now }
    ensures within { result ≤ length text.now }
{
    find_mark(text).unwrap_or(text.len())
}

/// The place of the first slash or mark, or the length.
pub(crate) fn place_of_separator(text: &[u8]) -> usize
    ensures place { result ≡ position_or_len is_separator text.now }
    ensures within { result ≤ length text.now }
{
    find_separator(text).unwrap_or(text.len())
}

fn is_name_byte(byte: u8) -> bool
    ensures { result ≡ is_name_byte byte }
{
    byte.is_ascii_alphanumeric()
        || byte == b'_'
        || byte == b'-'
        || byte == b':'
        || byte == b'.'
        || byte == b' '
}

fn has_only_name_bytes(text: &[u8]) -> bool
    ensures { result ≡ list_all is_name_byte text.now }
{
    text.iter().all(|byte| is_name_byte(*byte))
}

/// Whether a text may stand behind the mark of a snapshot's or a bookmark's name.
#[tactic(auto, unfolding(crate::specs::Names::is_valid_short))]
pub fn is_valid_short(text: &[u8]) -> bool
    ensures { result ≡ is_valid_short text.now }
{
    !text.is_empty() && has_only_name_bytes(text)
}

fn is_bad_byte(at: usize, byte: u8, marked: bool) -> bool
    ensures { result ≡ is_bad_byte at byte marked }
{
    let known = is_name_byte(byte) || is_separator(byte);
    let first_is_no_letter = at == 0 && is_name_byte(byte) && !byte.is_ascii_alphabetic();
    !known || (byte == b'/' && marked) || first_is_no_letter
}

/// What is wrong at a place, with the byte there or, without one, at the end.
fn fault_of(at: usize, byte: Option<u8>, marked: bool, starts: bool) -> Option<BadName>
    ensures { result ≡ fault_of at byte marked starts }
{
    let place = at as u64;
    let Some(byte) = byte else {
        return if starts {
            Some(BadName::EmptyPart(place))
        } else {
            None
        };
    };
    if is_bad_byte(at, byte, marked) {
        Some(BadName::BadByte(place))
    } else if is_mark(byte) && marked {
        Some(BadName::TwoMarks(place))
    } else if is_separator(byte) && starts {
        Some(BadName::EmptyPart(place))
    } else {
        None
    }
}

fn first_fault(text: &[u8]) -> Option<BadName>
    ensures { result ≡ first_fault text.now 0 (length text.now + 1) }
{
    let mut marked = false;
    let mut starts = true;
    for (at, byte) in text.iter().enumerate() {
        if let Some(fault) = fault_of(at, Some(*byte), marked, starts) {
            return Some(fault);
        }
        marked |= is_mark(*byte);
        starts = is_separator(*byte);
    }
    fault_of(text.len(), None, marked, starts)
}

/// How many parts a text has before its first mark.
pub(crate) fn count_of_parts(text: &[u8]) -> usize
    requires { length text.now ≤ 255 }
    ensures { result ≡ length (parts_of text.now) }
{
    text[..place_of_mark(text)]
        .iter()
        .filter(|byte| **byte == b'/')
        .count()
        + 1
}

/// The first fault of a text, or `None` for a name.
#[tactic(auto, unfolding(crate::specs::NameFaults::name_fault))]
pub(crate) fn name_fault(text: &[u8]) -> Option<BadName>
    ensures { result ≡ name_fault text.now }
{
    if text.is_empty() {
        return Some(BadName::Empty);
    }
    if text.len() > LONGEST_NAME {
        return Some(BadName::TooLong(text.len() as u64));
    }
    if let Some(fault) = first_fault(text) {
        return Some(fault);
    }
    let parts = count_of_parts(text);
    if parts > MOST_PARTS {
        return Some(BadName::TooDeep(parts as u64));
    }
    None
}
