//! Each call that takes memory succeeds where there is memory.

use super::*;
use std::alloc::Global;
use std::test::Fail;
use zp_names::Bytes;

fn numbered(alloc: Global, name: &[u8], number: u64) -> Result<Setting, Fail> {
    Ok(Setting {
        name: Bytes::from_bytes(alloc, name)?,
        value: PropValue::Number(number),
    })
}

fn two_settings(alloc: Global) -> Result<Settings, Fail> {
    let mut settings = Settings::new(alloc);
    settings.push(read_setting(alloc, Kind3::Volume, b"org.example:owner", b"ops")?)?;
    settings.push(numbered(alloc, b"volsize", 1024)?)?;
    Ok(settings)
}

fn is_number(setting: &Setting, name: &[u8], number: u64) -> bool {
    setting.name.as_slice() == name
        && matches!(&setting.value, PropValue::Number(n) if *n == number)
}

fn is_word(setting: &Setting, name: &[u8], word: &[u8]) -> bool {
    setting.name.as_slice() == name
        && matches!(&setting.value, PropValue::Text(text) if text.as_slice() == word)
}

fn long_text(alloc: Global, len: usize) -> Result<Bytes, Fail> {
    let mut text = Bytes::new(alloc);
    for _ in 0..len {
        text.push(b'a')?;
    }
    Ok(text)
}

fn refusal_of(alloc: Global, kind: Kind3, name: &[u8], text: &[u8]) -> Option<BadSetting> {
    read_setting(alloc, kind, name, text).err()
}

#[test]
fn settings_are_copied_and_changed(rt: HostRuntime) -> Result<(), Fail> {
    let alloc = rt.alloc();
    let settings = two_settings(alloc)?;
    let copies = copy_settings(alloc, settings.as_slice())?.into_vec();
    assert_eq!(rt; copies.len(), 2);
    assert!(rt; is_word(&copies[0], b"org.example:owner", b"ops"));
    assert!(rt; is_number(&copies[1], b"volsize", 1024));
    let larger = numbered(alloc, b"volsize", 2048)?;
    let changed = settings_with(alloc, settings.as_slice(), larger)?.into_vec();
    assert_eq!(rt; changed.len(), 2);
    assert!(rt; is_number(&changed[1], b"volsize", 2048));
    let left = settings_without(alloc, settings.as_slice(), b"org.example:owner")?.into_vec();
    assert_eq!(rt; left.len(), 1);
    assert!(rt; is_number(&left[0], b"volsize", 1024));
    Ok(())
}

#[test]
fn settings_are_read(rt: HostRuntime) -> Result<(), Fail> {
    let alloc = rt.alloc();
    let word = read_setting(alloc, Kind3::Filesystem, b"sync", b"always")?;
    assert!(rt; is_word(&word, b"sync", b"always"));
    let number = read_setting(alloc, Kind3::Volume, b"volsize", b"001024")?;
    assert!(rt; is_number(&number, b"volsize", 1024));
    assert!(rt; matches!(default_of(alloc, Prop::Canmount)?, Some(PropValue::Text(_))));
    assert!(rt; default_of(alloc, Prop::Volsize)?.is_none());
    Ok(())
}

#[test]
fn refusals_come_in_their_order(rt: HostRuntime) -> Result<(), Fail> {
    let alloc = rt.alloc();
    for (name, text, refusal) in [
        ("a:B", "v", BadSetting::BadUserName),
        ("quota", "1", BadSetting::Unknown),
        ("guid", "1", BadSetting::ReadOnly),
        ("atime", "on", BadSetting::NotForKind),
        ("volsize", "1000", BadSetting::BadValue),
    ] {
        let found = refusal_of(alloc, Kind3::Volume, name.as_bytes(), text.as_bytes());
        assert!(rt; found == Some(refusal));
    }
    let user = b"org.example:note";
    let found = refusal_of(alloc, Kind3::Snapshot, user, &[255]);
    assert!(rt; found == Some(BadSetting::BadValue));
    let text = long_text(alloc, 1025)?;
    let found = refusal_of(alloc, Kind3::Snapshot, user, text.as_slice());
    assert!(rt; found == Some(BadSetting::TooLong(1025)));
    let text = long_text(alloc, 1024)?;
    assert!(rt; refusal_of(alloc, Kind3::Snapshot, user, text.as_slice()).is_none());
    Ok(())
}
