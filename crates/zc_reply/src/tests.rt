//! Outputs that were worked out by hand.

ghost use Rattle.std.specs.Prelude.{◌≡◌, All, IfOk};
ghost use Rattle.zp_calls.specs.Replies.{IsPrintable};
ghost use Rattle.zp_props.specs.Settings.{AreSettings};
ghost use Rattle.zp_tree.specs.WellFormed.{IsSnapshot, IsWellFormed};

use crate::record::{bookmark_value, full_name, head_value, snapshot_value};
use crate::render;
use std::alloc::Global;
use std::test::Fail;
use txg_core::Event;
use zp_calls::Reply;
use zp_names::{Bytes, Name, Sequence, Texts, Verdict};
use zp_props::{PropValue, Setting, Settings};
use zp_tree::{Bookmark, Head, HeadKind, Hold, Holds, PlainTree, Snapshot};

const ROOT: &str =
    "{\"createtxg\":0,\"id\":1,\"kind\":\"filesystem\",\"mounted\":false,\"name\":\"rpool\",\"origin\":null,\"settings\":{},\"stamp\":0}";

fn new_pool(alloc: Global) -> Result<PlainTree, Fail>
    ensures { IfOk result (λ t. IsWellFormed t.tree) }
{
    let name = Name::read(alloc, b"rpool")?;
    Ok(PlainTree::new(alloc, &name)?)
}

fn bytes(alloc: Global, text: &[u8]) -> Result<Bytes, Fail>
    ensures { IfOk result (λ bytes. bytes ≡ text.now) }
{
    Ok(Bytes::from_bytes(alloc, text)?)
}

fn refused(alloc: Global, errno: u32, detail: &str) -> Result<Reply, Fail>
    ensures { IfOk result IsPrintable }
{
    let mut details = Vec::new(alloc);
    details.push(bytes(alloc, detail.as_bytes())?)?;
    Ok(Reply::Errno(Verdict {
        errno,
        details: Texts::from_vec(details),
    }))
}

fn replies(alloc: Global) -> Result<Vec<Sequence<Reply>>, Fail>
    ensures { IfOk result (λ replies. All (All IsPrintable) replies.items) }
{
    let mut first = Vec::new(alloc);
    first.push(Reply::Errno(Verdict::plain(alloc, 0)))?;
    first.push(Reply::Exists(true))?;
    let mut second = Vec::new(alloc);
    second.push(refused(alloc, 16, "rpool/a@s")?)?;
    let mut all = Vec::new(alloc);
    all.push(Sequence::from_vec(first))?;
    all.push(Sequence::from_vec(second))?;
    Ok(all)
}

#[test]
fn prints_the_root_alone(rt: HostRuntime) -> Result<(), Fail> {
    let alloc = rt.alloc();
    let tree = new_pool(alloc)?;
    let output = render(alloc, &[], &[], &tree, 0)?;
    let want = format!(in alloc;
        "{{\"journal\":[],\"replies\":[],\"synced\":0,\"tree\":[{ROOT}]}}\n"
    )?;
    assert!(rt; output.as_slice() == want.as_bytes());
    Ok(())
}

#[test]
fn prints_events_and_replies(rt: HostRuntime) -> Result<(), Fail> {
    let alloc = rt.alloc();
    let journal = [
        Event::Hold(0),
        Event::Check(1),
        Event::Enqueue(2),
        Event::Read(3),
        Event::Quiesce,
        Event::Begin,
        Event::Sync(10),
        Event::End,
        Event::Take(11),
    ];
    let tree = new_pool(alloc)?;
    let output = render(alloc, &journal, replies(alloc)?.as_slice(), &tree, 7)?;
    let events =
        "[\"hold\",0],[\"check\",1],[\"enqueue\",2],[\"read\",3],[\"quiesce\"],[\"begin\"],[\"sync\",10],[\"end\"],[\"take\",11]";
    let replies =
        "[{\"errno\":0},{\"errno\":0,\"exists\":true}],[{\"details\":[\"rpool/a@s\"],\"errno\":16}]";
    let want = format!(in alloc;
        "{{\"journal\":[{events}],\"replies\":[{replies}],\"synced\":7,\"tree\":[{ROOT}]}}\n"
    )?;
    assert!(rt; output.as_slice() == want.as_bytes());
    Ok(())
}

fn settings(alloc: Global) -> Result<Settings, Fail>
    ensures { IfOk result AreSettings }
{
    let mut settings = Vec::new(alloc);
    settings.push(Setting {
        name: bytes(alloc, b"volsize")?,
        value: PropValue::Number(1024),
    })?;
    settings.push(Setting {
        name: bytes(alloc, b"org:note")?,
        value: PropValue::Text(bytes(alloc, b"a b")?),
    })?;
    Ok(Settings::from_vec(settings))
}

#[test]
fn prints_a_clone_with_settings(rt: HostRuntime) -> Result<(), Fail> {
    let alloc = rt.alloc();
    let head = Head {
        id: 5,
        name: Name::read(alloc, b"rpool/v")?,
        kind: HeadKind::Volume,
        origin: Some(3),
        settings: settings(alloc)?,
        stamp: 8,
        mounted: true,
        createtxg: 4,
    };
    let origin = full_name(alloc, "rpool/a", "@", b"s 1")?;
    let text = head_value(alloc, &head, origin)?.to_string(alloc)?;
    assert!(rt;
        text.as_str()
            == "{\"createtxg\":4,\"id\":5,\"kind\":\"volume\",\"mounted\":true,\"name\":\"rpool/v\",\"origin\":\"rpool/a@s 1\",\"settings\":{\"org:note\":\"a b\",\"volsize\":1024},\"stamp\":8}"
    );
    Ok(())
}

fn held_snapshot(alloc: Global) -> Result<Snapshot, Fail>
    ensures { IfOk result IsSnapshot }
{
    let mut holds = Vec::new(alloc);
    holds.push(Hold {
        tag: bytes(alloc, b"keep")?,
        at: 99,
    })?;
    Ok(Snapshot {
        id: 3,
        owner: 2,
        short: bytes(alloc, b"s")?,
        settings: Settings::new(alloc),
        stamp: 6,
        createtxg: 2,
        deferred: true,
        holds: Holds::from_vec(holds),
    })
}

#[test]
fn prints_a_snapshot_and_a_bookmark(rt: HostRuntime) -> Result<(), Fail> {
    let alloc = rt.alloc();
    let snapshot = held_snapshot(alloc)?;
    let name = full_name(alloc, "rpool/a", "@", b"s")?;
    let text = snapshot_value(alloc, &snapshot, name)?.to_string(alloc)?;
    assert!(rt;
        text.as_str()
            == "{\"createtxg\":2,\"deferred\":true,\"holds\":[[\"keep\",99]],\"id\":3,\"kind\":\"snapshot\",\"name\":\"rpool/a@s\",\"settings\":{},\"stamp\":6}"
    );
    let bookmark = Bookmark {
        id: 4,
        owner: 2,
        short: bytes(alloc, b"b")?,
        source: 3,
        createtxg: 2,
    };
    let name = full_name(alloc, "rpool/a", "#", b"b")?;
    let text = bookmark_value(alloc, &bookmark, name)?.to_string(alloc)?;
    assert!(rt;
        text.as_str()
            == "{\"createtxg\":2,\"id\":4,\"kind\":\"bookmark\",\"name\":\"rpool/a#b\",\"source\":3}"
    );
    Ok(())
}
