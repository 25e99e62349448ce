//! Looking into a table of TOML: its values, and whether they are of a kind.
ghost use Rattle.std.specs.Prelude.{◌≡◌, length, map, option_map, string_bytes};
ghost use Rattle.std.specs.List.{list_any};
ghost use Rattle.std.specs.Str.{bytes_eq};
ghost use Rattle.toml.specs.Data.{get_member, get};
ghost use Rattle.toml.specs.View.{table_view, view};
ghost use Rattle.tp_base.specs.NameText.{is_name_text};
ghost use Rattle.std.specs.BTreeMap.{keys};
ghost use Rattle.tp_machine_text.specs.Words.{elements_in, table_in, is_fit, text_at, whole_of, whole_at, keys_of, members_of, elements, elements_at, text_of, is_array, is_whole, is_among, is_one_of, are_different};

use toml::{Table, Value};
use tp_base::Name;

/// The value at a key of a table.
pub fn value_at<'a>(table: &'a Table, key: &str) -> Option<&'a Value>
    ensures { option_map (λ value. view value.now) result
        ≡ get_member key.now (table_view table.now) }
{
    table.get(key)
}

/// The value at a key of a value that is a table.
pub fn field<'a>(value: &'a Value, key: &str) -> Option<&'a Value>
    ensures { option_map (λ v. view v.now) result ≡ get key.now (view value.now) }
{
    match value.as_table() {
        Some(table) => value_at(table, key),
        None => None,
    }
}

#[tactic(auto, using(crate::proofs::Seen::seen))]
fn values_of(value: &Value) -> &[Value]
    ensures { map view result.now ≡ elements (view value.now) }
{
    match value.as_array() {
        Some(values) => values.as_slice(),
        None => &[],
    }
}

/// The values of an array. What is absent or no array has none.
pub fn values_in(value: Option<&Value>) -> &[Value]
    ensures { map view result.now ≡ elements_in (option_map (λ v. view v.now) value.entry) }
{
    match value {
        Some(value) => values_of(value),
        None => &[],
    }
}

/// The values of the array at a key.
pub fn values_at<'a>(table: &'a Table, key: &str) -> &'a [Value]
    ensures { map view result.now ≡ elements_at key.now (table_view table.now) }
{
    values_in(value_at(table, key))
}

/// The table that a value is.
pub fn table_in(value: Option<&Value>) -> Option<&Table>
    ensures { option_map (λ m. table_view m.now) result
        ≡ table_in (option_map (λ v. view v.now) value.entry) }
{
    match value {
        Some(value) => value.as_table(),
        None => None,
    }
}

/// Whether the value, where there is one, is an array.
pub fn is_array_or_absent(value: Option<&Value>) -> bool
    ensures { result ≡ is_fit is_array (option_map (λ v. view v.now) value.entry) }
{
    match value {
        Some(value) => value.is_array(),
        None => true,
    }
}

/// The text that a value is. Another value counts as the empty text.
pub fn text_of(value: &Value) -> &str
    ensures { result.now ≡ text_of (view value.now) }
{
    value.as_str().unwrap_or("")
}

/// The text at a key.
pub fn text_at<'a>(value: &'a Value, key: &str) -> &'a str
    ensures { result.now ≡ text_at key.now (view value.now) }
{
    match field(value, key) {
        Some(value) => text_of(value),
        None => "",
    }
}

pub(crate) fn whole_of(value: &Value) -> i64
    ensures { result ≡ whole_of (view value.now) }
{
    value.as_integer().unwrap_or(0)
}

/// The whole number at a key. Another value counts as 0.
pub(crate) fn whole_at(value: &Value, key: &str) -> i64
    ensures { result ≡ whole_at key.now (view value.now) }
{
    match field(value, key) {
        Some(value) => whole_of(value),
        None => 0,
    }
}

/// Whether the value is a whole number from `low` to `high`.
pub fn is_whole(value: &Value, low: i64, high: i64) -> bool
    ensures { result ≡ is_whole low high (view value.now) }
{
    match value.as_integer() {
        Some(number) => low <= number && number <= high,
        None => false,
    }
}

pub(crate) fn is_name_text(text: &str) -> bool
    ensures { result ≡ is_name_text text.now }
{
    Name::read(text.as_bytes()).is_some()
}

/// Whether the text is one of these values.
#[tactic(auto, using(crate::proofs::Seen::seen))]
pub(crate) fn is_among(values: &[Value], text: &str) -> bool
    ensures { result ≡ is_among (map text_of (map view values.now)) text.now }
{
    has_text(values, text)
}

fn has_text(values: &[Value], text: &str) -> bool
    ensures { result ≡ list_any (λ v. bytes_eq text.now (text_of (view v))) values.now }
{
    values.iter().any(|value| text == text_of(value))
}

/// Whether the value is a text and one of these.
pub fn is_one_of(values: &[Value], value: &Value) -> bool
    ensures { result ≡ is_one_of (map text_of (map view values.now)) (view value.now) }
{
    match value.as_str() {
        Some(text) => is_among(values, text),
        None => false,
    }
}

/// Whether the text is a key of the table.
#[tactic(auto, using(crate::proofs::Seen::seen))]
pub fn is_key(table: Option<&Table>, text: &str) -> bool
    ensures { result ≡ is_among (keys_of
        (members_of (option_map (λ m. table_view m.now) table.entry))) text.now }
{
    match table {
        Some(table) => has_key(table, text),
        None => false,
    }
}

fn has_key(table: &Table, text: &str) -> bool
    ensures { result ≡ list_any (λ key. bytes_eq text.now (string_bytes key)) (keys table.now) }
{
    table.keys().any(|key| text == key.as_str())
}

/// Whether the values have different texts at the key.
pub fn differ_at(values: &[Value], key: &str) -> bool
    ensures { result ≡ are_different (map (text_at key.now) (map view values.now)) }
{
    let mut rest = values;
    'values: while let [value, others @ ..] = rest {
        if has_same_at(others, key, text_at(value, key)) {
            return false;
        }
        rest = others;
    }
    true
}

#[tactic(auto, using(crate::proofs::Seen::seen))]
pub(crate) fn has_same_at(values: &[Value], key: &str, text: &str) -> bool
    ensures { result ≡ is_among (map (text_at key.now) (map view values.now)) text.now }
{
    is_any_at(values, key, text)
}

fn is_any_at(values: &[Value], key: &str, text: &str) -> bool
    ensures { result ≡ list_any (λ v. bytes_eq text.now (text_at key.now (view v))) values.now }
{
    values.iter().any(|value| text == text_at(value, key))
}

/// Whether no text stands twice among the values.
pub fn are_different(values: &[Value]) -> bool
    ensures { result ≡ are_different (map text_of (map view values.now)) }
{
    let mut rest = values;
    'values: while let [value, others @ ..] = rest {
        if is_among(others, text_of(value)) {
            return false;
        }
        rest = others;
    }
    true
}

/// How many keys the table has that the value is.
#[tactic(auto, using(crate::proofs::Seen::seen))]
pub fn count_keys(value: Option<&Value>) -> usize
    ensures { result ≡ length (keys_of (members_of
        (table_in (option_map (λ v. view v.now) value.entry)))) }
{
    match table_in(value) {
        Some(table) => table.len(),
        None => 0,
    }
}

/// How many values the array has that the value is.
#[tactic(auto, using(crate::proofs::Seen::seen))]
pub fn count_items(value: Option<&Value>) -> usize
    ensures { result ≡ length (elements_in (option_map (λ v. view v.now) value.entry)) }
{
    values_in(value).len()
}
