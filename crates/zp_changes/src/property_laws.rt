//! Laws of setting a property and of taking a setting away.

ghost use Rattle.zp_changes.specs.PropertyLaws.{SetTakesEffect, SetKeepsOthers, InheritKeepsOthers, InheritLeavesWhatIsAbove};

/// A law: after a property is set, the dataset has the value that was set, with itself as the source: zfs-set(8).
pub fn set_takes_effect()
    ensures { SetTakesEffect }
{}

/// A law: setting a property changes no other dataset, no other setting, and no order of settings.
pub fn set_keeps_other_settings()
    ensures { SetKeepsOthers }
{}

/// A law: taking a setting away changes no other dataset, no other setting, and no order of settings.
pub fn inherit_keeps_other_settings()
    ensures { InheritKeepsOthers }
{}

/// A law: after a setting is taken away, the dataset has the value from above, or the default: zfs-inherit(8).
pub fn inherit_leaves_what_is_above()
    ensures { InheritLeavesWhatIsAbove }
{}
