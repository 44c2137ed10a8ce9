//! Volumes, which have a size and nothing below them.

ghost use Rattle.zp_tree.specs.WellFormed.{IsWellFormed};

use crate::tests::{name, run};
use std::alloc::Global;
use std::test::Fail;
use zp_names::Command;
use zp_props::{PropValue, volsize};
use zp_tree::{Datasets, Item, PlainTree};

fn create_volume<T: Datasets>(
    alloc: Global,
    tree: &mut T,
    text: &str,
    volsize: u64,
) -> Result<u32, Fail>
    requires { IsWellFormed (T.tree tree.old) }
    ensures { IsWellFormed (T.tree tree.new) }
{
    let name = name(alloc, text)?;
    run(alloc, tree, &Command::CreateVolume { name, volsize })
}

/// The size that a head has by itself.
fn size<T: Datasets>(tree: &T, id: u64) -> Option<u64> {
    let Some(Item::Head(head)) = tree.item(id) else {
        return None;
    };
    match volsize(head.settings.as_slice()) {
        Some(setting) => match setting.value {
            PropValue::Number(number) => Some(number),
            PropValue::Text(_) => None,
        },
        None => None,
    }
}

#[test]
fn volumes_have_a_size(rt: HostRuntime) -> Result<(), Fail> {
    let alloc = rt.alloc();
    let pool = name(alloc, "rpool")?;
    assert!(rt; pool.is_pool());
    let mut tree = PlainTree::new(alloc, &pool)?;
    assert_eq!(rt; create_volume(alloc, &mut tree, "rpool/v", 1000)?, 22);
    assert_eq!(rt; create_volume(alloc, &mut tree, "rpool", 1024)?, 17);
    assert_eq!(rt; create_volume(alloc, &mut tree, "rpool/v", 1024)?, 0);
    assert_eq!(rt; create_volume(alloc, &mut tree, "rpool/v/a", 1024)?, 22);
    let mounted = Command::Mount {
        name: name(alloc, "rpool/v")?,
    };
    assert_eq!(rt; run(alloc, &mut tree, &mounted)?, 22);
    assert_eq!(rt; size(&tree, 2), Some(1024));
    assert_eq!(rt; size(&tree, 1), None);
    Ok(())
}
