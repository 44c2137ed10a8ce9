//! Classes of bytes, and how many of a class a text begins with.

ghost use Rattle.std.specs.Prelude.{◌≡◌, ◌+◌, ◌≤◌, length, take, drop, count_by, slice_index};
ghost use Rattle.std.specs.List.{prefix_len};
ghost use Rattle.lua_lexer.specs.Bytes.{is_blank, is_name_start, is_name_byte, is_in_line, is_equals_sign, is_newline, is_quote, is_digit, is_exponent};

/// Space, tab, newline, carriage return, vertical tab or form feed.
pub fn is_blank(b: u8) -> bool
    ensures { result ≡ is_blank b }
{
    (9 <= b && b <= 13) || b == b' '
}

/// A letter or `_`.
pub fn is_name_start(b: u8) -> bool
    ensures { result ≡ is_name_start b }
{
    b.is_ascii_alphabetic() || b == b'_'
}

/// A letter, a digit or `_`.
pub fn is_name_byte(b: u8) -> bool
    ensures { result ≡ is_name_byte b }
{
    b.is_ascii_alphabetic() || b.is_ascii_digit() || b == b'_'
}

/// Either quote.
pub fn is_quote(b: u8) -> bool
    ensures { result ≡ is_quote b }
{
    b == b'"' || b == b'\''
}

/// A digit of a hexadecimal or a decimal numeral.
pub fn is_digit(hex: bool, b: u8) -> bool
    ensures { result ≡ is_digit hex b }
{
    if hex {
        b.is_ascii_hexdigit()
    } else {
        b.is_ascii_digit()
    }
}

/// The letter that begins an exponent in such a numeral.
pub fn is_exponent(hex: bool, b: u8) -> bool
    ensures { result ≡ is_exponent hex b }
{
    if hex {
        b == b'P' || b == b'p'
    } else {
        b == b'E' || b == b'e'
    }
}

/// The bytes from this place on.
pub fn behind(text: &[u8], at: usize) -> &[u8]
    requires { at ≤ length text.now }
    ensures exact { result.now ≡ drop at text.now }
    ensures len { length result.now + at ≡ length text.now }
{
    &text[at..]
}

/// The bytes before this place.
pub fn before(text: &[u8], at: usize) -> &[u8]
    requires { at ≤ length text.now }
    ensures exact { result.now ≡ take at text.now }
    ensures len { length result.now ≡ at }
{
    &text[..at]
}

/// The byte at this place, or 0 behind the end.
pub fn byte_at(text: &[u8], i: usize) -> u8
    ensures { result ≡ slice_index text.now i }
{
    if i < text.len() { text[i] } else { 0 }
}

fn newlines(text: &[u8]) -> usize
    ensures exact { result ≡ count_by is_newline text.now }
    ensures within { result ≤ length text.now }
{
    text.iter().filter(|b| **b == b'\n').count()
}

/// How many newlines the first bytes have.
pub fn newlines_in(text: &[u8], len: usize) -> usize
    requires { len ≤ length text.now }
    ensures exact { result ≡ count_by is_newline (take len text.now) }
    ensures within { result ≤ len }
{
    newlines(before(text, len))
}

/// How many bytes of a name stand at the front.
pub fn name_len(text: &[u8]) -> usize
    ensures exact { result ≡ prefix_len is_name_byte text.now }
    ensures within { result ≤ length text.now }
{
    text.iter().take_while(|b| is_name_byte(**b)).count()
}

/// How many equals signs stand at the front.
pub fn equals_len(text: &[u8]) -> usize
    ensures exact { result ≡ prefix_len is_equals_sign text.now }
    ensures within { result ≤ length text.now }
{
    text.iter().take_while(|b| **b == b'=').count()
}

/// How many blanks stand at the front.
pub fn blank_len(text: &[u8]) -> usize
    ensures exact { result ≡ prefix_len is_blank text.now }
    ensures within { result ≤ length text.now }
{
    text.iter().take_while(|b| is_blank(**b)).count()
}

/// How many such digits stand at the front.
pub fn digits_len(hex: bool, text: &[u8]) -> usize
    ensures exact { result ≡ prefix_len (is_digit hex) text.now }
    ensures within { result ≤ length text.now }
{
    text.iter().take_while(|b| is_digit(hex, **b)).count()
}

/// How many bytes there are before the end of the line.
pub fn in_line_len(text: &[u8]) -> usize
    ensures exact { result ≡ prefix_len is_in_line text.now }
    ensures within { result ≤ length text.now }
{
    text.iter().take_while(|b| **b != b'\n').count()
}
