//! The native properties.

ghost use Rattle.std.specs.Prelude.{◌≡◌, IfOk, find, bytes_eq, is_some, Some};
ghost use Rattle.zp_props.specs.Lines.{said_by, includes};
ghost use Rattle.zp_props.specs.Properties.{native, prop_named, can_have_named, is_inherited, default_named};

use crate::kind::Kinds::{Every, Filesystems, Heads, Snapshots, Volumes};
use crate::line::Preset::{Nothing, Whole, Word};
use crate::line::{Line, Rule, Values, set_line, told_line};
use crate::{Kind3, PropValue, is_user_name};
use std::alloc::Global;
use zc_io::NoMemory;

/// A native property: zfsprops(7), "Native Properties".
#[derive(Clone, Copy, Debug, PartialEq, Eq, Drop)]
pub enum Prop {
    /// `type`: what the dataset is.
    DatasetType,
    /// `guid`: the id of the record.
    Guid,
    /// `createtxg`: the transaction group in which the record was born.
    Createtxg,
    /// `stamp`: the content.
    Stamp,
    /// `origin`: the snapshot that a clone was made from.
    Origin,
    /// `userrefs`: how many holds a snapshot has.
    Userrefs,
    /// `defer_destroy`: whether a snapshot goes with its last hold or clone.
    DeferDestroy,
    /// `clones`: the names of a snapshot's clones.
    Clones,
    /// `readonly`: whether the dataset can't be written.
    Readonly,
    /// `atime`
    Atime,
    /// `exec`
    Exec,
    /// `setuid`
    Setuid,
    /// `devices`
    Devices,
    /// `snapdir`
    Snapdir,
    /// `sync`
    Sync,
    /// `primarycache`
    Primarycache,
    /// `copies`
    Copies,
    /// `recordsize`, in bytes.
    Recordsize,
    /// `canmount`, which is not inherited.
    Canmount,
    /// `volsize`, in bytes, which is not inherited.
    Volsize,
}

/// The native properties in the order of the table.
const NATIVES: [Prop; 20] = [
    Prop::DatasetType,
    Prop::Guid,
    Prop::Createtxg,
    Prop::Stamp,
    Prop::Origin,
    Prop::Userrefs,
    Prop::DeferDestroy,
    Prop::Clones,
    Prop::Readonly,
    Prop::Atime,
    Prop::Exec,
    Prop::Setuid,
    Prop::Devices,
    Prop::Snapdir,
    Prop::Sync,
    Prop::Primarycache,
    Prop::Copies,
    Prop::Recordsize,
    Prop::Canmount,
    Prop::Volsize,
];

const ON_OFF: Values = Values::Words(&["on", "off"]);

const SNAPDIR: Values = Values::Words(&["hidden", "visible"]);

const SYNC: Values = Values::Words(&["standard", "always", "disabled"]);

const CACHE: Values = Values::Words(&["all", "none", "metadata"]);

const CANMOUNT: Values = Values::Words(&["on", "off", "noauto"]);

const COPIES: Values = Values::Numbers(1, 3, Rule::Any);

const SIZES: Values = Values::Numbers(512, 1_048_576, Rule::PowerOfTwo);

const VOLSIZE: Values = Values::Numbers(512, 9_223_372_036_854_775_296, Rule::MultipleOf(512));

impl Prop {
    /// The name of the property, by which it is found.
    #[tactic(auto, using(crate::proofs::NativeNames::found_by_name))]
    pub fn name(self) -> &'static str
        ensures name { result.now ≡ (native self).name }
        ensures found { prop_named result.now ≡ Some self }
    {
        self.line().name
    }

    /// Whether it is a property of datasets of this kind.
    pub fn is_for(self, kind: Kind3) -> bool
        ensures { result ≡ includes (native self).kinds kind }
    {
        self.line().kinds.includes(kind)
    }

    /// The table: a line a property.
    pub(crate) fn line(self) -> Line
        ensures { said_by result ≡ native self }
    {
        match self {
            Prop::DatasetType => told_line("type", Every),
            Prop::Guid => told_line("guid", Every),
            Prop::Createtxg => told_line("createtxg", Every),
            Prop::Stamp => told_line("stamp", Every),
            Prop::Origin => told_line("origin", Heads),
            Prop::Userrefs => told_line("userrefs", Snapshots),
            Prop::DeferDestroy => told_line("defer_destroy", Snapshots),
            Prop::Clones => told_line("clones", Snapshots),
            Prop::Readonly => set_line("readonly", Heads, ON_OFF, Word("off"), true),
            Prop::Atime => set_line("atime", Filesystems, ON_OFF, Word("on"), true),
            Prop::Exec => set_line("exec", Filesystems, ON_OFF, Word("on"), true),
            Prop::Setuid => set_line("setuid", Filesystems, ON_OFF, Word("on"), true),
            Prop::Devices => set_line("devices", Filesystems, ON_OFF, Word("on"), true),
            Prop::Snapdir => set_line("snapdir", Filesystems, SNAPDIR, Word("hidden"), true),
            Prop::Sync => set_line("sync", Heads, SYNC, Word("standard"), true),
            Prop::Primarycache => set_line("primarycache", Heads, CACHE, Word("all"), true),
            Prop::Copies => set_line("copies", Heads, COPIES, Whole(1), true),
            Prop::Recordsize => set_line("recordsize", Filesystems, SIZES, Whole(131_072), true),
            Prop::Canmount => set_line("canmount", Filesystems, CANMOUNT, Word("on"), false),
            Prop::Volsize => set_line("volsize", Volumes, VOLSIZE, Nothing, false),
        }
    }
}

fn first_named(props: &[Prop], name: &[u8]) -> Option<Prop>
    ensures { result ≡ find (λ p. bytes_eq (native p).name name.now) props.now }
{
    props
        .iter()
        .copied()
        .find(|prop| prop.line().name.as_bytes() == name)
}

/// The native property of this name.
pub fn prop_named(name: &[u8]) -> Option<Prop>
    ensures { result ≡ prop_named name.now }
{
    first_named(&NATIVES, name)
}

/// The value of a property where nothing is set; none where the table gives none.
pub fn default_of(alloc: Global, prop: Prop) -> Result<Option<PropValue>, NoMemory>
    ensures { IfOk result (λ value. value ≡ (native prop).default) }
{
    prop.line().preset.value(alloc)
}

/// Whether datasets of this kind can have the property set: every user property, and each native one that is for the
/// kind and isn't only told.
pub fn can_have(kind: Kind3, name: &[u8]) -> bool
    ensures { result ≡ can_have_named kind name.now }
{
    if is_user_name(name) {
        return true;
    }
    match prop_named(name) {
        Some(prop) => prop.line().can_be_set(kind),
        None => false,
    }
}

/// Whether heads take the property over from above: each user property, and the native ones that the table says.
pub fn is_inherited(name: &[u8]) -> bool
    ensures { result ≡ is_inherited name.now }
{
    if is_user_name(name) {
        return true;
    }
    match prop_named(name) {
        Some(prop) => prop.line().inherited,
        None => false,
    }
}

/// Whether the property has a value where nothing is set.
pub fn has_default(name: &[u8]) -> bool
    ensures { result ≡ is_some (default_named name.now) }
{
    if is_user_name(name) {
        return false;
    }
    match prop_named(name) {
        Some(prop) => prop.line().preset.is_there(),
        None => false,
    }
}
