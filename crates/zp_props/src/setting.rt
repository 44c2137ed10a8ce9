//! Settings: the properties that a dataset holds itself.

ghost use Rattle.std.specs.Prelude.{◌≡◌, IfOk, option_map};
ghost use Rattle.zp_props.specs.Settings.{setting_named, set_in_place, settings_with, settings_without, user_count, volsize};

use crate::is_user_name;
use std::alloc::Global;
use zc_io::NoMemory;
use zp_names::{Bytes, Sequence};

/// The value of a property: zfsprops(7).
#[derive(Debug, Drop)]
pub enum PropValue {
    /// A whole number: of a native property that is one, as a size or a limit.
    Number(u64),
    /// A text: of a user property, or of a native property that has named values.
    Text(Bytes),
}

/// A property that is set on a dataset itself: zfs-set(8).
#[derive(Debug, Drop)]
pub struct Setting {
    /// The name of the property, UTF-8.
    pub name: Bytes,
    /// The value that was set.
    pub value: PropValue,
}

/// The settings of one dataset, in the order in which they were first set. Contracts see a list.
pub type Settings = Sequence<Setting>;

impl PropValue {
    /// The same value once more.
    pub fn copy(&self, alloc: Global) -> Result<PropValue, NoMemory>
        ensures { IfOk result (λ copy. copy ≡ self.now) }
    {
        match self {
            PropValue::Number(number) => Ok(PropValue::Number(*number)),
            PropValue::Text(text) => Ok(PropValue::Text(text.copy(alloc)?)),
        }
    }
}

impl Setting {
    /// The same setting once more.
    pub fn copy(&self, alloc: Global) -> Result<Setting, NoMemory>
        ensures { IfOk result (λ copy. copy ≡ self.now) }
    {
        Ok(Setting {
            name: self.name.copy(alloc)?,
            value: self.value.copy(alloc)?,
        })
    }
}

/// The setting of this name; none where the name is not set.
pub fn setting_named<'a>(settings: &'a [Setting], name: &[u8]) -> Option<&'a Setting>
    ensures { option_map (λ s. s.now) result ≡ setting_named name.now settings.now }
{
    settings
        .iter()
        .find(|setting| setting.name.as_slice() == name)
}

/// The size of a volume, where it is set: zfsprops(7), volsize.
pub fn volsize(settings: &[Setting]) -> Option<&Setting>
    ensures { option_map (λ s. s.now) result ≡ setting_named volsize settings.now }
{
    setting_named(settings, b"volsize")
}

/// How many of the settings are of user properties.
pub fn user_count(settings: &[Setting]) -> usize
    ensures { result ≡ user_count settings.now }
{
    settings
        .iter()
        .filter(|setting| is_user_name(setting.name.as_slice()))
        .count()
}

/// The same settings once more.
pub fn copy_settings(alloc: Global, settings: &[Setting]) -> Result<Settings, NoMemory>
    ensures { IfOk result (λ copy. copy ≡ settings.now) }
{
    let mut copies = Vec::new(alloc);
    for setting in settings {
        copies.push(setting.copy(alloc)?)?;
    }
    Ok(Sequence::from_vec(copies))
}

/// The settings with this one: in the place of the one of its name, else last.
pub fn settings_with(
    alloc: Global,
    settings: &[Setting],
    new: Setting,
) -> Result<Settings, NoMemory>
    ensures { IfOk result (λ r. r ≡ settings_with new settings.now) }
{
    let mut changed = Vec::new(alloc);
    for setting in settings {
        changed.push(with_new(alloc, &new, setting)?)?;
    }
    if setting_named(settings, new.name.as_slice()).is_none() {
        changed.push(new)?;
    }
    Ok(Sequence::from_vec(changed))
}

/// The new setting, where it has the name of the old one, else the old one.
fn with_new(alloc: Global, new: &Setting, old: &Setting) -> Result<Setting, NoMemory>
    ensures { IfOk result (λ s. s ≡ set_in_place new.now old.now) }
{
    if old.name.as_slice() == new.name.as_slice() {
        new.copy(alloc)
    } else {
        old.copy(alloc)
    }
}

/// The settings without the one of this name.
pub fn settings_without(
    alloc: Global,
    settings: &[Setting],
    name: &[u8],
) -> Result<Settings, NoMemory>
    ensures { IfOk result (λ r. r ≡ settings_without name.now settings.now) }
{
    let mut left = Vec::new(alloc);
    for setting in settings {
        if setting.name.as_slice() != name {
            left.push(setting.copy(alloc)?)?;
        }
    }
    Ok(Sequence::from_vec(left))
}
