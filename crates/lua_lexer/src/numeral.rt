//! Numerals, and the numbers that they are.

ghost use Rattle.std.specs.Prelude.{◌⊎◌, ◌≡◌, ◌<◌, ◌≤◌, ◌+◌, IsTrue, length};
ghost use Rattle.std.specs.Char.{is_ascii_hexdigit};
ghost use Rattle.lua_lexer.specs.Numerals.{digit_of, value, up_to, value_as, numeral_value, lead_of, is_hexadecimal};
ghost use Rattle.lua_lexer.specs.Scan.{numeral, numeral_end, IsWithin};

use crate::TokenKind;
use crate::bytes::{before, behind, byte_at, digits_len, is_exponent, is_name_start};
use crate::piece::{Fault, Piece};

const MOST: u64 = 9223372036854775807;

/// What a digit stands for.
pub fn digit_of(b: u8) -> u8
    ensures value { result ≡ digit_of b }
    ensures small { IsTrue (is_ascii_hexdigit b) → result < 16 }
{
    if b <= b'9' {
        b.saturating_sub(48)
    } else if b <= b'F' {
        b - 55
    } else {
        b.saturating_sub(87)
    }
}

/// The number that digits are to a base, where it is at most 9223372036854775807.
pub fn value_of(base: u8, digits: &[u8]) -> Option<u64>
    requires { (base ≡ 10) ⊎ (base ≡ 16) }
    ensures { result ≡ up_to 9223372036854775807 (value base digits.now) }
{
    let mut value: u64 = 0;
    for b in digits {
        if value > (MOST - digit_of(*b) as u64) / base as u64 {
            return None;
        }
        value = value * base as u64 + digit_of(*b) as u64;
    }
    Some(value)
}

/// Whether a text begins with `0x`.
pub fn is_hexadecimal(text: &[u8]) -> bool
    ensures { result ≡ is_hexadecimal text.now }
{
    byte_at(text, 0) == b'0' && byte_at(text, 1) == b'x'
}

/// The number that a numeral is, where it is at most 9223372036854775807. The numeral is decimal, or hexadecimal behind `0x`.
pub fn numeral_value(numeral: &[u8]) -> Option<u64>
    ensures { result ≡ up_to 9223372036854775807 (numeral_value numeral.now) }
{
    if is_hexadecimal(numeral) {
        value_as(true, numeral)
    } else {
        value_as(false, numeral)
    }
}

fn value_as(hex: bool, numeral: &[u8]) -> Option<u64>
    requires { lead_of hex ≤ length numeral.now }
    ensures { result ≡ up_to 9223372036854775807 (value_as hex numeral.now) }
{
    if hex {
        value_of(16, behind(numeral, 2))
    } else {
        value_of(10, numeral)
    }
}

/// What a numeral of n bytes is, with the byte behind it.
#[tactic(auto, unfolding(crate::specs::Scan::numeral_end))]
fn numeral_end(hex: bool, n: usize, value: Option<u64>, next: u8) -> Piece
    requires { 0 < n }
    ensures exact { result ≡ numeral_end hex n value next }
    ensures within { IsWithin n result }
{
    if next == b'.' || is_exponent(hex, next) {
        Piece::Refused(Fault::NotWhole, 0)
    } else if value.is_none() {
        Piece::Refused(Fault::TooBig, 0)
    } else if is_name_start(next) {
        Piece::Refused(Fault::BadByte, n)
    } else {
        Piece::Token(TokenKind::Numeral, n)
    }
}

fn lead_of(hex: bool) -> usize
    ensures { result ≡ lead_of hex }
{
    if hex { 2 } else { 0 }
}

/// The numeral at the front, hexadecimal where it begins with `0x`.
#[tactic(auto, unfolding(crate::specs::Scan::numeral))]
pub fn numeral(hex: bool, text: &[u8]) -> Piece
    requires { lead_of hex ≤ length text.now }
    ensures exact { result ≡ numeral hex text.now }
    ensures within { IsWithin (length text.now) result }
{
    let lead = lead_of(hex);
    let n = lead + digits_len(hex, behind(text, lead));
    if n == lead {
        return Piece::Refused(Fault::BadByte, n);
    }
    numeral_end(hex, n, value_as(hex, before(text, n)), byte_at(text, n))
}
