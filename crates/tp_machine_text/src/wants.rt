//! Whether a value is what a rule wants.
ghost use Rattle.std.specs.Prelude.{◌≡◌, map, length, not, is_some, option_map};
ghost use Rattle.toml.specs.View.{table_view, view};
ghost use Rattle.tp_machine_text.specs.Keys.{action_keys, anchors, hold_keys, kinds, top_keys};
ghost use Rattle.tp_machine_text.specs.HoldRules.{is_point as is_point_data};
ghost use Rattle.tp_machine_text.specs.TopRules.{is_second as has_second};
ghost use Rattle.tp_machine_text.specs.Words.{is_among as is_text_among, is_one_of as is_text_of, elements_in, elements_at, text_of as text_of_data, text_in as text_in_data, text_at as text_at_key, keys_of, members_of, table_in as table_of, members_at, is_there, is_whole as is_whole_from, is_array as is_array_data, is_table as is_table_data, is_truth_value as is_truth_value_data, is_count as is_count_of};
ghost use Rattle.tp_machine_text.specs.Wants.{is_noun, is_text, meets};

use crate::lookup::{
    count_items, count_keys, has_same_at, is_among, is_key, is_name_text, is_whole, table_in,
    text_at, text_of, value_at, values_at, values_in,
};
use crate::slip::{Noun, Want};
use toml::{Table, Value};

fn is_top_key(text: &str) -> bool
    ensures { result ≡ is_text_among top_keys text.now }
{
    matches!(
        text,
        "format"
            | "lead"
            | "window"
            | "budget"
            | "locations"
            | "modules"
            | "trays"
            | "purge"
            | "feeders"
            | "resources"
            | "actions"
            | "gaps"
            | "stock"
    )
}

fn is_action_key(text: &str) -> bool
    ensures { result ≡ is_text_among action_keys text.now }
{
    matches!(
        text,
        "name" | "module" | "from" | "to" | "least" | "most" | "prints" | "flip" | "holds"
    )
}

fn is_hold_key(text: &str) -> bool
    ensures { result ≡ is_text_among hold_keys text.now }
{
    matches!(text, "resource" | "begin" | "end" | "mode")
}

fn is_kind(text: &str) -> bool
    ensures { result ≡ is_text_among kinds text.now }
{
    matches!(text, "mono" | "colour")
}

/// Whether the text is one of the texts of the array at the key.
#[tactic(auto, using(crate::proofs::Seen::seen))]
fn stands_in(table: &Table, key: &str, text: &str) -> bool
    ensures { result
        ≡ is_text_among (map text_of_data (elements_at key.now (table_view table.now)))
        text.now }
{
    is_among(values_at(table, key), text)
}

/// Whether the text is a key of the table at the key.
fn is_key_at(table: &Table, key: &str, text: &str) -> bool
    ensures { result ≡ is_text_among (keys_of (members_at key.now (table_view table.now)))
        text.now }
{
    is_key(table_in(value_at(table, key)), text)
}

/// Whether the text is that in the machine text.
pub(crate) fn is_noun(table: &Table, noun: Noun, text: &str) -> bool
    ensures { result ≡ is_noun (table_view table.now) noun text.now }
{
    match noun {
        Noun::TopKey => is_top_key(text),
        Noun::ActionKey => is_action_key(text),
        Noun::HoldKey => is_hold_key(text),
        Noun::Name => is_name_text(text),
        Noun::Location => stands_in(table, "locations", text),
        Noun::Module => stands_in(table, "modules", text),
        Noun::Resource => is_key_at(table, "resources", text),
        Noun::Tray => stands_in(table, "trays", text),
        Noun::PurgeTray => stands_in(table, "purge", text),
        Noun::Feeder => is_key_at(table, "feeders", text),
        Noun::PurgePlace => is_purge_place(table, text),
        Noun::FeederPlace => is_purge_place(table, text) && !stands_in(table, "purge", text),
        Noun::Kind => is_kind(text),
    }
}

/// Whether the text is a location that is no tray.
fn is_purge_place(table: &Table, text: &str) -> bool
    ensures { result ≡ is_noun (table_view table.now) Noun.PurgePlace text.now }
{
    stands_in(table, "locations", text) && !stands_in(table, "trays", text)
}

fn is_text(table: &Table, noun: Noun, value: Option<&Value>) -> bool
    ensures { result ≡ is_text (is_noun (table_view table.now) noun)
        (option_map (λ v. view v.now) value.entry) }
{
    match value {
        Some(value) => match value.as_str() {
            Some(text) => is_noun(table, noun, text),
            None => false,
        },
        None => false,
    }
}

fn text_in(value: Option<&Value>) -> &str
    ensures { result.now ≡ text_in_data (option_map (λ v. view v.now) value.entry) }
{
    match value {
        Some(value) => text_of(value),
        None => "",
    }
}

fn is_point(values: &[Value]) -> bool
    ensures { result ≡ is_point_data (map view values.now) }
{
    match values {
        [anchor, offset] => is_anchor(anchor) && is_whole(offset, -8192, 8192),
        _ => false,
    }
}

fn is_anchor(value: &Value) -> bool
    ensures { result ≡ is_text_of anchors (view value.now) }
{
    match value.as_str() {
        Some(text) => matches!(text, "start" | "end"),
        None => false,
    }
}

fn is_second(table: &Table) -> bool
    ensures { result ≡ has_second (table_view table.now) }
{
    match value_at(table, "format") {
        Some(value) => is_whole(value, 2, 2),
        None => false,
    }
}

fn is_absent(value: Option<&Value>) -> bool
    ensures { result ≡ not (is_some (option_map (λ v. view v.now) value.entry)) }
{
    match value {
        Some(_) => false,
        None => true,
    }
}

fn is_array(value: Option<&Value>) -> bool
    ensures { result ≡ is_there is_array_data (option_map (λ v. view v.now) value.entry) }
{
    match value {
        Some(value) => value.is_array(),
        None => false,
    }
}

fn is_table(value: Option<&Value>) -> bool
    ensures { result ≡ is_there is_table_data (option_map (λ v. view v.now) value.entry) }
{
    match value {
        Some(value) => value.is_table(),
        None => false,
    }
}

fn is_truth_value(value: Option<&Value>) -> bool
    ensures { result ≡ is_there is_truth_value_data (option_map (λ v. view v.now) value.entry) }
{
    match value {
        Some(value) => value.is_bool(),
        None => false,
    }
}

fn is_whole_in(value: Option<&Value>, low: i64, high: i64) -> bool
    ensures { result ≡ is_there (is_whole_from low high)
        (option_map (λ v. view v.now) value.entry) }
{
    match value {
        Some(value) => is_whole(value, low, high),
        None => false,
    }
}

/// Whether the value, or its absence, is what is wanted.
pub(crate) fn meets(table: &Table, want: Want, value: Option<&Value>) -> bool
    ensures { result ≡ meets (table_view table.now) want
        (option_map (λ v. view v.now) value.entry) }
{
    match want {
        Want::Is(noun) => is_text(table, noun, value),
        Want::IsNot(noun) => !is_noun(table, noun, text_in(value)),
        Want::Whole(low, high) => is_whole_in(value, low, high),
        Want::Items(least, most) => is_count(count_items(value), least, most),
        Want::SomeItems => 1 <= count_items(value),
        Want::Keys(most) => count_keys(value) <= most,
        Want::SomeKeys => 1 <= count_keys(value),
        Want::Array => is_array(value),
        Want::Table => is_table(value),
        Want::TruthValue => is_truth_value(value),
        Want::Point => is_point(values_in(value)),
        Want::Second => is_second(table) || is_absent(value),
    }
}

fn is_count(count: usize, least: usize, most: usize) -> bool
    ensures { result ≡ is_count_of least most count }
{
    least <= count && count <= most
}

/// Whether no value has the text of this one.
#[tactic(auto, using(crate::proofs::Seen::seen))]
pub(crate) fn is_single(value: &Value, others: &[Value]) -> bool
    ensures { result ≡ not (is_text_among (map text_of_data (map view others.now))
        (text_of_data (view value.now))) }
{
    !is_among(others, text_of(value))
}

/// Whether no value has the same text at the key.
#[tactic(auto, using(crate::proofs::Seen::seen))]
pub(crate) fn is_single_at(value: &Value, others: &[Value], key: &str) -> bool
    ensures { result ≡ not (is_text_among (map (text_at_key key.now) (map view others.now))
        (text_at_key key.now (view value.now))) }
{
    !has_same_at(others, key, text_at(value, key))
}
