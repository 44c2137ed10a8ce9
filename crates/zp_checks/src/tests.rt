//! What an administrator is told: error numbers as errno(3) has them.

use super::*;
use std::test::Fail;
use zp_names::Name;
use zp_tree::PlainTree;

#[test]
fn creating_beside_a_root_alone(rt: HostRuntime) -> Result<(), Fail> {
    let alloc = rt.alloc();
    let pool = Name::read(alloc, b"rpool")?;
    assert!(rt; pool.is_pool());
    let tree = PlainTree::new(alloc, &pool)?;
    for (name, errno) in [
        (b"rpool/a".as_slice(), 0),
        (b"rpool@a", 22),
        (b"rpool", 17),
        (b"rpool/a/b", 2),
    ] {
        let name = Name::read(alloc, name)?;
        let verdict = check(alloc, &tree, &Command::Create { name })?;
        assert_eq!(rt; verdict.errno, errno);
        assert!(rt; verdict.details.as_slice().is_empty());
    }
    Ok(())
}
