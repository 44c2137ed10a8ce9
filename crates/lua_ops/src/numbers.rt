//! Texts that count as numbers (Lua 5.2 manual, 3.4.2).

ghost use Rattle.std.specs.Prelude.{◌≡◌, ◌≤◌, ◌+◌, ℤ, pos, ◌≤ℤ◌, IfSome};
ghost use Rattle.lua_meaning.specs.Numbers.{is_blank, behind_blanks, without_blanks, digit, in_range, number_of, numeral, signed, to_int};
ghost use Rattle.lua_ops.specs.Texts.{before_blanks};

use lua_values::Value;

/// The number that a value counts as in arithmetic: its own, or that of a text which is a numeral in
/// range, with a sign or none and blanks at its ends.
pub fn to_int(value: &Value) -> Option<i64>
    ensures { result ≡ to_int value.now }
{
    match value {
        Value::Int(number) => Some(*number),
        Value::Text(text) => signed(without_blanks(text.as_slice())),
        _ => None,
    }
}

/// A space, or a byte from tab to carriage return.
fn is_blank(byte: u8) -> bool
    ensures { result ≡ is_blank byte }
{
    byte == b' ' || (9 <= byte && byte <= 13)
}

/// A text behind its first blanks.
fn behind_blanks(text: &[u8]) -> &[u8]
    ensures { result.now ≡ behind_blanks text.now }
{
    let mut rest = text;
    while let Some((first, others)) = rest.split_first() {
        if !is_blank(*first) {
            return rest;
        }
        rest = others;
    }
    rest
}

/// A text before its last blanks.
fn before_blanks(text: &[u8]) -> &[u8]
    ensures { result.now ≡ before_blanks text.now }
{
    let mut rest = text;
    while let Some((last, others)) = rest.split_last() {
        if !is_blank(*last) {
            return rest;
        }
        rest = others;
    }
    rest
}

/// A text without the blanks at its ends: spaces, and bytes from tab to carriage return.
pub fn without_blanks(text: &[u8]) -> &[u8]
    ensures { result.now ≡ without_blanks text.now }
{
    before_blanks(behind_blanks(text))
}

/// What a digit or letter stands for; 36 for other bytes.
fn digit(byte: u8) -> u64
    ensures value { result ≡ digit byte }
    ensures small { result ≤ 36 }
{
    match byte {
        b'0'..=b'9' => byte as u64 - 48,
        b'a'..=b'z' => byte as u64 - 87,
        b'A'..=b'Z' => byte as u64 - 55,
        _ => 36,
    }
}

/// The number of digits and letters to a base, where each is below the base, there is one at least,
/// and the number is at most 9223372036854775807.
pub fn number_of(base: u64, digits: &[u8]) -> Option<i64>
    requires { (1 ≤ base) × (base ≤ 36) }
    ensures value { result ≡ in_range (number_of base digits.now) }
    ensures positive { IfSome result (λ n. pos 0 ≤ℤ n) }
{
    if digits.is_empty() {
        return None;
    }
    let mut number: u64 = 0;
    for byte in digits {
        let digit = digit(*byte);
        if digit >= base {
            return None;
        }
        let next = number as u128 * base as u128 + digit as u128;
        if next > i64::MAX as u128 {
            return None;
        }
        number = next as u64;
    }
    Some(number as i64)
}

/// The number of a numeral in range.
fn numeral(text: &[u8]) -> Option<i64>
    ensures value { result ≡ numeral text.now }
    ensures positive { IfSome result (λ n. pos 0 ≤ℤ n) }
{
    if text.starts_with(b"0x") {
        number_of(16, &text[2..])
    } else {
        number_of(10, text)
    }
}

/// A sign or none, and a numeral in range without it.
fn signed(text: &[u8]) -> Option<i64>
    ensures { result ≡ signed text.now }
{
    if text.starts_with(b"-") {
        return match numeral(&text[1..]) {
            Some(number) => Some(-number),
            None => None,
        };
    }
    if text.starts_with(b"+") {
        return numeral(&text[1..]);
    }
    numeral(text)
}
