//! Each call that takes memory, where there is memory.

use crate::{lower, repeated, reversed, upper};
use std::test::Fail;

#[test]
fn texts_are_made(rt: HostRuntime) -> Result<(), Fail> {
    let alloc = rt.alloc();
    assert_eq!(rt; lower(alloc, b"Pool-1")?.as_slice(), b"pool-1".as_slice());
    assert_eq!(rt; upper(alloc, b"Pool-1")?.as_slice(), b"POOL-1".as_slice());
    assert_eq!(rt; reversed(alloc, b"abc")?.as_slice(), b"cba".as_slice());
    assert_eq!(rt;
        repeated(alloc, 3, b"ab", b"-")?.as_slice(),
        b"ab-ab-ab".as_slice()
    );
    Ok(())
}
