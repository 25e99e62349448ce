//! What a value of JSON is read as.
ghost use Rattle.std.specs.Prelude.{◌≡◌, ◌≤◌, IfSome, is_some, map, option_map};
ghost use Rattle.serde_json.specs.Find.{as_bool, as_str, get};
ghost use Rattle.serde_json.specs.View.{view};
ghost use Rattle.tp_snapshot.specs.Values.{field_of, has_members, list_of, name_in, whole_of};

use serde_json::Value;
use tp_base::Name;

/// The value at a key.
pub(crate) fn value_at<'a>(value: &'a Value, key: &str) -> Option<&'a Value>
    ensures { option_map (λ v. view v.now) result ≡ get key.now (view value.now) }
{
    value.get(key)
}

/// Whether there is a value at a key.
pub(crate) fn has_key(value: &Value, key: &str) -> bool
    ensures { result ≡ is_some (get key.now (view value.now)) }
{
    value_at(value, key).is_some()
}

/// Whether it is an object of so many members.
pub(crate) fn has_members(value: &Value, count: usize) -> bool
    ensures { result ≡ has_members count (view value.now) }
{
    match value {
        Value::Object(members) => members.len() == count,
        _ => false,
    }
}

/// The truth value at a key.
pub(crate) fn truth_at(value: &Value, key: &str) -> Option<bool>
    ensures { result ≡ field_of key.now as_bool (view value.now) }
{
    value_at(value, key)?.as_bool()
}

/// The text at a key.
pub(crate) fn text_at<'a>(value: &'a Value, key: &str) -> Option<&'a str>
    ensures { option_map (λ text. text.now) result ≡ field_of key.now as_str (view value.now) }
{
    value_at(value, key)?.as_str()
}

/// The values of the array at a key.
pub(crate) fn values_at<'a>(value: &'a Value, key: &str) -> Option<&'a [Value]>
    ensures { option_map (λ values. map view values.now) result
        ≡ field_of key.now list_of (view value.now) }
{
    match value_at(value, key)?.as_array() {
        Some(values) => Some(values.as_slice()),
        None => None,
    }
}

/// The name that a value is.
pub(crate) fn read_name(value: &Value) -> Option<Name>
    ensures { result ≡ name_in (view value.now) }
{
    tp_words::read_name(value.as_str()?.as_bytes())
}

/// The name at a key.
pub(crate) fn name_at(value: &Value, key: &str) -> Option<Name>
    ensures { result ≡ field_of key.now name_in (view value.now) }
{
    read_name(value_at(value, key)?)
}

/// The whole number that a value is, where it is at most so much.
pub(crate) fn read_whole(value: &Value, most: u32) -> Option<u32>
    ensures whole { result ≡ whole_of most (view value.now) }
    ensures within { IfSome result (λ n. n ≤ most) }
{
    let number = value.as_u64()?;
    if number <= u64::from(most) {
        Some(number as u32)
    } else {
        None
    }
}
