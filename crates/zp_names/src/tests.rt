//! Names that were read by hand, and copies where there is memory.

use crate::{BadName, Bytes, Command, Form, Name, Query, Texts, Verdict, errno, is_valid_short};
use std::alloc::{AllocError, Global};
use std::process::Abort;
use std::test::Fail;

fn refused(rt: &impl Abort, alloc: Global, text: &[u8], why: BadName) {
    match Name::read(alloc, text) {
        Ok(name) => assert!(rt; false, "{name:?} was read"),
        Err(error) => assert_eq!(rt; error, why, "at {text:?}"),
    }
}

#[test]
fn texts_that_are_no_names(rt: HostRuntime) {
    let alloc = rt.alloc();
    let cases: [(&[u8], BadName); 19] = [
        (b"", BadName::Empty),
        (b"/a", BadName::EmptyPart(0)),
        (b"@x", BadName::EmptyPart(0)),
        (b"a//b", BadName::EmptyPart(2)),
        (b"a/", BadName::EmptyPart(2)),
        (b"a@", BadName::EmptyPart(2)),
        (b"a/@x", BadName::EmptyPart(2)),
        (b"a@b@c", BadName::TwoMarks(3)),
        (b"a#b@", BadName::TwoMarks(3)),
        (b"a@@", BadName::TwoMarks(2)),
        (b"a#b/c", BadName::BadByte(3)),
        (b"a@/", BadName::BadByte(2)),
        (b"1a", BadName::BadByte(0)),
        (b".a", BadName::BadByte(0)),
        (b" a", BadName::BadByte(0)),
        (b"a%b", BadName::BadByte(1)),
        (b"a/b\n", BadName::BadByte(3)),
        (b"a\xc3\xa4", BadName::BadByte(1)),
        (b"a//%", BadName::EmptyPart(2)),
    ];
    for (text, why) in cases {
        refused(&rt, alloc, text, why);
    }
}

/// A name of some parts of one byte each, and then so many bytes more in the last.
fn long_text(alloc: Global, parts: usize, more: usize) -> Result<Vec<u8>, AllocError> {
    let mut text = Vec::new(alloc);
    text.push(b'a')?;
    for _ in 1..parts {
        text.extend_from_slice(b"/a")?;
    }
    for _ in 0..more {
        text.push(b'a')?;
    }
    Ok(text)
}

fn length_read(
    alloc: Global,
    parts: usize,
    more: usize,
) -> Result<Result<usize, BadName>, AllocError> {
    let text = long_text(alloc, parts, more)?;
    Ok(Name::read(alloc, text.as_slice()).map(|name| name.text().len()))
}

#[test]
fn texts_of_most_bytes_and_parts(rt: HostRuntime) -> Result<(), Fail> {
    let alloc = rt.alloc();
    assert_eq!(rt; length_read(alloc, 1, 254)?, Ok(255));
    assert_eq!(rt; length_read(alloc, 1, 255)?, Err(BadName::TooLong(256)));
    assert_eq!(rt; length_read(alloc, 50, 0)?, Ok(99));
    assert_eq!(rt; length_read(alloc, 51, 0)?, Err(BadName::TooDeep(51)));
    Ok(())
}

#[test]
fn parts_of_names(rt: HostRuntime) -> Result<(), Fail> {
    let alloc = rt.alloc();
    let volume = Name::read(alloc, b"tank/a b/..")?;
    assert_eq!(rt; volume.form(), Form::Head);
    assert_eq!(rt; volume.pool(), "tank");
    assert_eq!(rt; volume.head(), "tank/a b/..");
    assert_eq!(rt; volume.short(), "");
    assert_eq!(rt; volume.parent(), Some("tank/a b"));
    let snapshot = Name::read(alloc, b"tank/a b@1.-_:")?;
    assert_eq!(rt; snapshot.form(), Form::Snap);
    assert_eq!(rt; snapshot.head(), "tank/a b");
    assert_eq!(rt; snapshot.short(), "1.-_:");
    assert!(rt; snapshot.parent().is_none());
    let head = snapshot.head_name(alloc)?;
    assert!(rt; volume.is_below(&head));
    assert!(rt; !head.is_below(&head));
    assert!(rt; !snapshot.is_below(&Name::read(alloc, b"tank")?));
    assert!(rt; !Name::read(alloc, b"tanks/a")?.is_below(&Name::read(alloc, b"tank")?));
    let bookmark = Name::read(alloc, b"tank#b")?;
    assert_eq!(rt; bookmark.form(), Form::Bookmark);
    assert_eq!(rt; bookmark.pool(), "tank");
    assert!(rt; !bookmark.is_pool());
    let pool = head.parent_name(alloc)?.ok_or("no parent")?;
    assert!(rt; pool.is_pool());
    assert!(rt; pool.parent_name(alloc)?.is_none());
    assert!(rt; is_valid_short(b".."));
    assert!(rt; !is_valid_short(b""));
    Ok(())
}

/// A rename of a snapshot.
fn renaming(alloc: Global) -> Result<Command, Fail> {
    let name = Name::read(alloc, b"tank/a")?;
    let old = Bytes::from_bytes(alloc, b"x")?;
    let new = Bytes::from_bytes(alloc, b"y")?;
    Ok(Command::RenameSnapshot { name, old, new })
}

/// Whether it is that rename.
fn is_renaming(command: &Command) -> bool {
    match command {
        Command::RenameSnapshot { name, old, new } => {
            name.text() == "tank/a"
                && old.as_slice() == b"x".as_slice()
                && new.as_slice() == b"y".as_slice()
        }
        _ => false,
    }
}

#[test]
fn copies_a_command(rt: HostRuntime) -> Result<(), Fail> {
    let alloc = rt.alloc();
    let copy = renaming(alloc)?.copy(alloc)?;
    let is_same = is_renaming(&copy);
    drop(copy);
    assert!(rt; is_same);
    Ok(())
}

#[test]
fn names_a_snapshot(rt: HostRuntime) -> Result<(), Fail> {
    let alloc = rt.alloc();
    let name = Name::read(alloc, b"tank/a")?;
    let snapshot = name.snapshot_name(alloc, b"y")?.ok_or("no name")?;
    assert_eq!(rt; snapshot.text(), "tank/a@y");
    assert!(rt; name.snapshot_name(alloc, b"")?.is_none());
    let bookmark = name.bookmark_name(alloc, b"y")?.ok_or("no name")?;
    assert_eq!(rt; bookmark.text(), "tank/a#y");
    Ok(())
}

/// The name that a copy of a query asks of.
fn name_of_a_copy(alloc: Global, name: Name) -> Result<Bytes, Fail> {
    let query = Query::Exists { name };
    match query.copy(alloc)? {
        Query::Exists { name } => Ok(Bytes::from_bytes(alloc, name.text().as_bytes())?),
        _ => Ok(Bytes::from_bytes(alloc, b"")?),
    }
}

#[test]
fn copies_a_query_and_a_verdict(rt: HostRuntime) -> Result<(), Fail> {
    let alloc = rt.alloc();
    let name = Name::read(alloc, b"tank/a")?;
    let mut details = Vec::new(alloc);
    details.push(name_of_a_copy(alloc, name)?)?;
    let mut verdict = Verdict::plain(alloc, errno::EEXIST);
    verdict.details = Texts::from_vec(details);
    let copy = verdict.copy(alloc)?;
    assert_eq!(rt; copy.errno, 17);
    let texts = copy.details.into_vec();
    assert_eq!(rt; texts.len(), 1);
    assert!(rt; texts[0].as_slice() == b"tank/a".as_slice());
    Ok(())
}

#[test]
fn renames_names(rt: HostRuntime) -> Result<(), Fail> {
    let alloc = rt.alloc();
    let old = Name::read(alloc, b"tank/a")?;
    let new = Name::read(alloc, b"tank/b/c")?;
    let below = Name::read(alloc, b"tank/a/x y")?;
    let beside = Name::read(alloc, b"tank/ab")?;
    assert!(rt; below.is_at_or_below(&old) && old.is_at_or_below(&old));
    assert!(rt; !beside.is_at_or_below(&old));
    assert!(rt; !below.outgrows(&old, &new, 0));
    assert_eq!(rt;
        below.after_rename(alloc, &old, &new)?.text(),
        "tank/b/c/x y"
    );
    assert!(rt; !old.outgrows(&old, &new, 0));
    assert_eq!(rt; old.after_rename(alloc, &old, &new)?.text(), "tank/b/c");
    assert!(rt; !beside.outgrows(&old, &new, 0));
    assert_eq!(rt; beside.after_rename(alloc, &old, &new)?.text(), "tank/ab");
    assert_eq!(rt; below.depth(), 3);
    assert!(rt; !below.outgrows(&old, &new, 243));
    assert!(rt; below.outgrows(&old, &new, 244));
    Ok(())
}
