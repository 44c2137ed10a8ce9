//! What the table of native properties says of one.

ghost use Rattle.std.specs.Prelude.{◌≡◌, IfOk, is_some};
ghost use Rattle.zp_props.specs.Lines.{keeps_rule, said_by, allowed_by, preset_value};
ghost use Rattle.zp_props.specs.Properties.{told_line, set_line, is_settable, can_have};

use crate::kind::Kinds;
use crate::{Kind3, PropValue};
use std::alloc::Global;
use zc_io::NoMemory;
use zp_names::Bytes;

/// Which whole numbers within bounds can be set.
#[derive(Clone, Copy, Debug, Drop)]
pub(crate) enum Rule {
    /// Each of them.
    Any,
    /// The powers of two.
    PowerOfTwo,
    /// The multiples of a number that is not 0.
    MultipleOf(u64),
}

/// What a native property can be set to.
#[derive(Clone, Copy, Debug, Drop)]
pub(crate) enum Values {
    /// Nothing: it is only told.
    ReadOnly,
    /// One of these words.
    Words(&'static [&'static str]),
    /// A whole number from the first to the second that keeps the rule.
    Numbers(u64, u64, Rule),
}

/// The value where nothing is set.
#[derive(Clone, Copy, Debug, Drop)]
pub(crate) enum Preset {
    /// There is none.
    Nothing,
    /// This word.
    Word(&'static str),
    /// This number.
    Whole(u64),
}

/// What the table says of a native property.
#[derive(Clone, Copy, Debug, Drop)]
pub(crate) struct Line {
    pub(crate) name: &'static str,
    pub(crate) kinds: Kinds,
    pub(crate) values: Values,
    pub(crate) preset: Preset,
    pub(crate) inherited: bool,
}

impl Values {
    /// Whether the property can be set at all.
    pub(crate) fn is_settable(self) -> bool
        ensures { result ≡ is_settable (allowed_by self) }
    {
        match self {
            Values::ReadOnly => false,
            Values::Words(_) => true,
            Values::Numbers(..) => true,
        }
    }
}

impl Preset {
    /// The value, where there is one.
    pub(crate) fn value(self, alloc: Global) -> Result<Option<PropValue>, NoMemory>
        ensures { IfOk result (λ value. value ≡ preset_value self) }
    {
        match self {
            Preset::Nothing => Ok(None),
            Preset::Word(word) => Ok(Some(PropValue::Text(Bytes::from_bytes(
                alloc,
                word.as_bytes(),
            )?))),
            Preset::Whole(number) => Ok(Some(PropValue::Number(number))),
        }
    }

    /// Whether there is a value.
    pub(crate) fn is_there(self) -> bool
        ensures { result ≡ is_some (preset_value self) }
    {
        match self {
            Preset::Nothing => false,
            Preset::Word(_) => true,
            Preset::Whole(_) => true,
        }
    }
}

impl Line {
    /// Whether datasets of this kind can have the property set.
    pub(crate) fn can_be_set(self, kind: Kind3) -> bool
        ensures { result ≡ can_have kind (said_by self) }
    {
        self.values.is_settable() && self.kinds.includes(kind)
    }
}

impl Rule {
    /// Whether the number keeps the rule.
    pub(crate) fn keeps(self, number: u64) -> bool
        ensures { result ≡ keeps_rule self number }
    {
        match self {
            Rule::Any => true,
            Rule::PowerOfTwo => number.is_power_of_two(),
            Rule::MultipleOf(step) => number.is_multiple_of(step),
        }
    }
}

/// The line of a property that is only told.
pub(crate) fn told_line(name: &'static str, kinds: Kinds) -> Line
    ensures { said_by result ≡ told_line name.now kinds }
{
    Line {
        name,
        kinds,
        values: Values::ReadOnly,
        preset: Preset::Nothing,
        inherited: false,
    }
}

/// The line of a property that can be set.
pub(crate) fn set_line(
    name: &'static str,
    kinds: Kinds,
    values: Values,
    preset: Preset,
    inherited: bool,
) -> Line
    ensures { said_by result ≡ set_line name.now kinds (allowed_by values) (preset_value preset) inherited }
{
    Line {
        name,
        kinds,
        values,
        preset,
        inherited,
    }
}
