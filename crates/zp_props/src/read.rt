//! What a text sets a property to: zfs-set(8).

ghost use Rattle.std.specs.Prelude.{◌≡◌, ◌≤◌, ◌^◌, ℕ, IfOk, IfErr, MatchOption, Some, None, Ok, Err, bytes_eq, option_and_then};
ghost use Rattle.std.specs.List.{list_any, list_all};
ghost use Rattle.std.specs.Char.{is_ascii_digit};
ghost use Rattle.std.specs.Str.{is_utf8};
ghost use Rattle.zp_props.specs.Settings.{is_user_name};
ghost use Rattle.zp_props.specs.UserProperties.{is_valid_user_name, begins_with_dash, is_user_name_byte};
ghost use Rattle.zp_props.specs.Lines.{words_of, allowed_by};
ghost use Rattle.zp_props.specs.Properties.{native};
ghost use Rattle.zp_props.specs.ReadSetting.{decimal_in, if_within, value_in, native_setting, user_setting, setting_or_refusal, is_too_long, IsDue};

use crate::line::{Rule, Values};
use crate::{BadSetting, Kind3, Prop, PropValue, Setting, prop_named};
use std::alloc::Global;
use std::str;
use zc_io::NoMemory;
use zp_names::Bytes;

/// The most bytes of the name of a user property: zfsprops(7).
const LONGEST_USER_NAME: usize = 256;

/// The most bytes of the value of a user property.
const LONGEST_USER_VALUE: usize = 1024;

fn has_only_digits(text: &[u8]) -> bool
    ensures { result ≡ list_all is_ascii_digit text.now }
{
    text.iter().all(|byte| byte.is_ascii_digit())
}

/// The number that a text of decimal digits writes, where it is below 2^64.
fn decimal_in(text: &[u8]) -> Option<u64>
    ensures { MatchOption result ((n : ℕ) → decimal_in text.now ≡ Some n → 2 ^ 64 ≤ n) (λ n. decimal_in text.now ≡ Some n) }
{
    if !has_only_digits(text) {
        return None;
    }
    let Ok(digits) = str::from_utf8(text) else {
        return None;
    };
    match digits.parse::<u64>() {
        Ok(number) => Some(number),
        Err(_) => None,
    }
}

/// The number as a value, where it may be set.
fn if_within(low: u64, high: u64, rule: Rule, number: u64) -> Option<PropValue>
    ensures { result ≡ if_within low high rule number }
{
    if low <= number && number <= high && rule.keeps(number) {
        return Some(PropValue::Number(number));
    }
    None
}

fn whole_in(low: u64, high: u64, rule: Rule, text: &[u8]) -> Option<PropValue>
    ensures { result ≡ option_and_then (if_within low high rule) (decimal_in text.now) }
{
    match decimal_in(text) {
        Some(number) => if_within(low, high, rule, number),
        None => None,
    }
}

fn is_among(words: &[&str], text: &[u8]) -> bool
    ensures { result ≡ list_any (λ w. bytes_eq w.now text.now) words.now }
{
    words.iter().any(|word| word.as_bytes() == text)
}

fn word_in(alloc: Global, words: &[&str], text: &[u8]) -> Result<Option<PropValue>, NoMemory>
    ensures { IfOk result (λ value. value ≡ value_in (words_of words.now) text.now) }
{
    if !is_among(words, text) {
        return Ok(None);
    }
    Ok(Some(PropValue::Text(Bytes::from_bytes(alloc, text)?)))
}

/// The value that a text is; none where it is no value.
fn value_in(alloc: Global, values: Values, text: &[u8]) -> Result<Option<PropValue>, NoMemory>
    ensures { IfOk result (λ value. value ≡ value_in (allowed_by values) text.now) }
{
    match values {
        Values::ReadOnly => Ok(None),
        Values::Words(words) => word_in(alloc, words, text),
        Values::Numbers(low, high, rule) => Ok(whole_in(low, high, rule, text)),
    }
}

fn native_setting(
    alloc: Global,
    kind: Kind3,
    prop: Prop,
    text: &[u8],
) -> Result<Setting, BadSetting>
    ensures setting { IfOk result (λ s. native_setting kind (native prop) text.now ≡ Ok s) }
    ensures refused { IfErr result (λ e. IsDue e (native_setting kind (native prop) text.now)) }
{
    let line = prop.line();
    if !line.values.is_settable() {
        return Err(BadSetting::ReadOnly);
    }
    if !line.kinds.includes(kind) {
        return Err(BadSetting::NotForKind);
    }
    let Some(value) = value_in(alloc, line.values, text)? else {
        return Err(BadSetting::BadValue);
    };
    let name = Bytes::from_bytes(alloc, line.name.as_bytes())?;
    Ok(Setting { name, value })
}

fn is_user_name_byte(byte: u8) -> bool
    ensures { result ≡ is_user_name_byte byte }
{
    byte.is_ascii_lowercase()
        || byte.is_ascii_digit()
        || byte == b':'
        || byte == b'-'
        || byte == b'.'
        || byte == b'_'
}

fn has_only_user_name_bytes(name: &[u8]) -> bool
    ensures { result ≡ list_all is_user_name_byte name.now }
{
    name.iter().all(|byte| is_user_name_byte(*byte))
}

fn begins_with_dash(name: &[u8]) -> bool
    ensures { result ≡ begins_with_dash name.now }
{
    match name {
        [] => false,
        [first, ..] => *first == b'-',
    }
}

/// Whether the name has a colon: it is one of a user property then.
pub fn is_user_name(name: &[u8]) -> bool
    ensures { result ≡ is_user_name name.now }
{
    name.iter().any(|byte| *byte == b':')
}

/// Whether the name is one that a user property can have.
pub fn is_valid_user_name(name: &[u8]) -> bool
    ensures { result ≡ is_valid_user_name name.now }
{
    is_user_name(name)
        && has_only_user_name_bytes(name)
        && !begins_with_dash(name)
        && name.len() <= LONGEST_USER_NAME
}

/// Whether the bytes are a text in UTF-8: RFC 3629.
#[tactic(auto, using(crate::proofs::Texts::utf8_holds, crate::proofs::Texts::utf8_fails))]
pub fn is_utf8(text: &[u8]) -> bool
    ensures { result ≡ is_utf8 text.now }
{
    match str::from_utf8(text) {
        Ok(_) => true,
        Err(_) => false,
    }
}

fn user_setting(alloc: Global, name: &[u8], text: &[u8]) -> Result<Setting, BadSetting>
    ensures setting { IfOk result (λ s. user_setting name.now text.now ≡ Ok s) }
    ensures refused { IfErr result (λ e. IsDue e (user_setting name.now text.now)) }
{
    if !is_valid_user_name(name) {
        return Err(BadSetting::BadUserName);
    }
    if !is_utf8(text) {
        return Err(BadSetting::BadValue);
    }
    if text.len() > LONGEST_USER_VALUE {
        return Err(BadSetting::TooLong(text.len() as u64));
    }
    let name = Bytes::from_bytes(alloc, name)?;
    let value = PropValue::Text(Bytes::from_bytes(alloc, text)?);
    Ok(Setting { name, value })
}

/// The setting that a name and a text make on a dataset of this kind. The refusals come in the order of `BadSetting`.
pub fn read_setting(
    alloc: Global,
    kind: Kind3,
    name: &[u8],
    text: &[u8],
) -> Result<Setting, BadSetting>
    ensures setting { IfOk result (λ s. setting_or_refusal kind name.now text.now ≡ Ok s) }
    ensures refused { IfErr result (λ e. IsDue e (setting_or_refusal kind name.now text.now)) }
{
    if is_user_name(name) {
        return user_setting(alloc, name, text);
    }
    match prop_named(name) {
        Some(prop) => native_setting(alloc, kind, prop, text),
        None => Err(BadSetting::Unknown),
    }
}

/// The same with the want of memory apart, for a caller who looks at the refusal.
pub fn setting_or_refusal(
    alloc: Global,
    kind: Kind3,
    name: &[u8],
    text: &[u8],
) -> Result<Result<Setting, BadSetting>, NoMemory>
    ensures { IfOk result (λ r. r ≡ setting_or_refusal kind name.now text.now) }
{
    match read_setting(alloc, kind, name, text) {
        Ok(setting) => Ok(Ok(setting)),
        Err(BadSetting::BadUserName) => Ok(Err(BadSetting::BadUserName)),
        Err(BadSetting::Unknown) => Ok(Err(BadSetting::Unknown)),
        Err(BadSetting::ReadOnly) => Ok(Err(BadSetting::ReadOnly)),
        Err(BadSetting::NotForKind) => Ok(Err(BadSetting::NotForKind)),
        Err(BadSetting::BadValue) => Ok(Err(BadSetting::BadValue)),
        Err(BadSetting::TooLong(len)) => Ok(Err(BadSetting::TooLong(len))),
        Err(BadSetting::NoMemory) => Err(NoMemory),
    }
}

/// Whether the value was refused for its length.
pub fn is_too_long(read: &Result<Setting, BadSetting>) -> bool
    ensures { result ≡ is_too_long read.now }
{
    match read {
        Err(BadSetting::TooLong(_)) => true,
        _ => false,
    }
}
