//! Replies.

use zp_names::{Bytes, Texts, Verdict};
use zp_props::PropValue;

/// What a session is told of its call.
#[derive(Debug, Drop)]
pub enum Reply {
    /// To a command, and to a query that is refused: the error number, 0 where it was done, and the names that stand in the
    /// way.
    Errno(Verdict),
    /// To `list`: the names, in byte order.
    Names(Texts),
    /// To `get`: the value, none only for the `origin` of a dataset that is no clone, and where it comes from: the name of
    /// the dataset that has it set, `default`, or none of a property that is only told.
    Prop {
        value: Option<PropValue>,
        source: Option<Bytes>,
    },
    /// To `exists`: whether there is a dataset of that name.
    Exists(bool),
}
