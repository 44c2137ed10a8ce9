//! Properties of datasets: the settings that a dataset holds.
#![tactic(auto)]

mod bad_setting;
mod kind;
mod line;
mod prop;
mod read;
mod setting;

pub use bad_setting::BadSetting;
pub use kind::Kind3;
pub use prop::{Prop, can_have, default_of, has_default, is_inherited, prop_named};
pub use read::{
    is_too_long, is_user_name, is_utf8, is_valid_user_name, read_setting, setting_or_refusal,
};
pub use setting::{
    PropValue, Setting, Settings, copy_settings, setting_named, settings_with, settings_without,
    user_count, volsize,
};

#[cfg(test)]
mod tests;
