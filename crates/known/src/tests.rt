//! The calls at concrete types.
ghost use Rattle.std.specs.Prelude.{◌≡◌, ◌+◌};

use crate::Known;
use std::mem::size_of;
use std::test::Fail;

fn sum_of(one: &u32, other: &u32) -> Known<u64>
    ensures { result.value ≡ one.now + other.now }
{
    Known::from_pair(one, other)
}

fn last_of(first: &u8, second: &u8, third: &u8, fourth: &u8) -> Known<u8>
    ensures { result.value ≡ fourth.now }
{
    Known::from_four(first, second, third, fourth)
}

#[test]
fn it_takes_no_bytes(rt: HostRuntime) -> Result<(), Fail> {
    let seven: Known<u32> = Known::of();
    let _again = seven.again();
    let _sum = sum_of(&1, &2);
    let _last = last_of(&1, &2, &3, &4);
    assert!(rt; size_of::<Known<u64>>() == 0);
    Ok(())
}
