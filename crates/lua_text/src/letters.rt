//! Letters in the other case, and bytes in reverse.

ghost use Rattle.std.specs.Prelude.{◌≡◌, IfOk, map, reverse};
ghost use Rattle.lua_text.specs.Letters.{lower_of, upper_of};

use std::alloc::{AllocError, Global};

/// A byte, a letter of ASCII in lower case.
fn lower_of(byte: u8) -> u8
    ensures { result ≡ lower_of byte }
{
    match byte {
        b'A'..=b'Z' => byte + 32,
        _ => byte,
    }
}

/// A byte, a letter of ASCII in upper case.
fn upper_of(byte: u8) -> u8
    ensures { result ≡ upper_of byte }
{
    match byte {
        b'a'..=b'z' => byte - 32,
        _ => byte,
    }
}

/// A text with its letters in lower case.
pub fn lower(alloc: Global, text: &[u8]) -> Result<Vec<u8>, AllocError>
    ensures { IfOk result (λ made. made.items ≡ map lower_of text.now) }
{
    let mut made = Vec::new(alloc);
    for byte in text {
        made.push(lower_of(*byte))?;
    }
    Ok(made)
}

/// A text with its letters in upper case.
pub fn upper(alloc: Global, text: &[u8]) -> Result<Vec<u8>, AllocError>
    ensures { IfOk result (λ made. made.items ≡ map upper_of text.now) }
{
    let mut made = Vec::new(alloc);
    for byte in text {
        made.push(upper_of(*byte))?;
    }
    Ok(made)
}

/// A text with its bytes in reverse.
pub fn reversed(alloc: Global, text: &[u8]) -> Result<Vec<u8>, AllocError>
    ensures { IfOk result (λ made. made.items ≡ reverse text.now) }
{
    let mut made = Vec::from_slice(alloc, text)?;
    made.reverse();
    Ok(made)
}
