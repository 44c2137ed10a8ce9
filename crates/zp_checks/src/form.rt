//! Forms of names.

ghost use Rattle.std.specs.Prelude.{◌≡◌};
ghost use Rattle.zp_tree.specs.Settable.{is_settable_name};

use zp_names::{Form, Name};

/// Whether the name is one of a dataset whose properties can be set: a head or a snapshot.
pub(crate) fn is_settable_name(name: &Name) -> bool
    ensures { result ≡ is_settable_name name.now }
{
    name.is_head() || name.form() == Form::Snap
}
