//! Arguments that `select` gives.

ghost use Rattle.std.specs.Prelude.{◌≡◌, drop, option_map};
ghost use Rattle.std.specs.Option.{option_copied};
ghost use Rattle.lua_base.specs.OfValues.{is_count_mark, selected, selected_by};

use lua_values::Value;

/// Whether it is the text `#`.
pub(crate) fn is_count_mark(value: Option<&Value>) -> bool
    ensures { result ≡ is_count_mark (option_copied value.entry) }
{
    match value {
        Some(Value::Text(text)) => text.as_slice() == b"#".as_slice(),
        _ => false,
    }
}

/// The values from one on, counted from 1.
#[tactic(auto, using(std::proofs::lemmas::List::drop_all))]
fn from_front(place: u64, values: &[Value]) -> &[Value]
    ensures { result.now ≡ drop place values.now }
{
    if place >= values.len() as u64 {
        return &[];
    }
    &values[place as usize..]
}

/// The values from one on, counted from 1, or from the end where the number is negative.
fn selected(number: i64, values: &[Value]) -> Option<&[Value]>
    ensures { option_map (λ vs. vs.now) result ≡ selected number values.now }
{
    if number == 0 {
        return None;
    }
    if number > 0 {
        return Some(from_front(number as u64 - 1, values));
    }
    let behind = number.unsigned_abs();
    if behind > values.len() as u64 {
        return None;
    }
    Some(&values[values.len() - behind as usize..])
}

/// The values from one on, where there is a number.
pub(crate) fn selected_by(number: Option<i64>, values: &[Value]) -> Option<&[Value]>
    ensures { option_map (λ vs. vs.now) result ≡ selected_by number values.now }
{
    match number {
        None => None,
        Some(number) => selected(number, values),
    }
}
