//! The value of a property that a dataset has, with where it is set.

use zp_props::PropValue;

/// The value of a property that a dataset has: zfsprops(7).
#[derive(Clone, Copy, Debug, Drop)]
pub enum Effective<'a> {
    /// It is set on the dataset with this id: on the dataset itself, or on one that it comes from.
    Set {
        /// The value.
        value: &'a PropValue,
        /// The id of the dataset that has it set.
        id: u64,
    },
    /// It is set nowhere, and has the default of the property.
    ByDefault,
}
