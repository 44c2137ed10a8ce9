//! A text so many times.

ghost use Rattle.std.specs.Prelude.{◌≡◌, IfOk, length};
ghost use Rattle.lua_text.specs.Repeating.{repeated};

use std::alloc::{AllocError, Global};

/// How many bytes the text has that `repeated` makes.
pub fn repeated_bytes(count: u32, text: &[u8], separator: &[u8]) -> u128
    ensures { result ≡ length (repeated count text.now separator.now) }
{
    if count == 0 {
        return 0;
    }
    let texts = count as u128 * text.len() as u128;
    let between = (count as u128 - 1) * separator.len() as u128;
    texts + between
}

/// A text so many times, with another between each two.
pub fn repeated(
    alloc: Global,
    count: u32,
    text: &[u8],
    separator: &[u8],
) -> Result<Vec<u8>, AllocError>
    ensures { IfOk result (λ made. made.items ≡ repeated count text.now separator.now) }
{
    let mut made = Vec::new(alloc);
    for turn in 0..count {
        if turn > 0 {
            made.extend_from_slice(separator)?;
        }
        made.extend_from_slice(text)?;
    }
    Ok(made)
}
