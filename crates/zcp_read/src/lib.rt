//! Queries: whether a dataset is there, lists of names, and the values of properties (zfs-program(8): `zfs.exists`,
//! `zfs.list`, `zfs.get_prop`).
#![tactic(auto)]

mod answer;
mod full_name;
mod list;
mod told;
mod user_names;

pub use answer::query;

#[cfg(test)]
mod tests;
