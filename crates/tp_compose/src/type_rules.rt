//! The rules 1 to 7: keys, format, types and parts.
ghost use Rattle.std.specs.Prelude.{◌≡◌, map, option_map, string_bytes, codes};
ghost use Rattle.std.specs.List.{list_all};
ghost use Rattle.std.specs.BTreeMap.{keys, values};
ghost use Rattle.toml.specs.Data.{get};
ghost use Rattle.toml.specs.View.{table_view, view};
ghost use Rattle.tp_machine_text.specs.ActionRules.{are_keys_among};
ghost use Rattle.tp_machine_text.specs.Words.{text_of, is_among as is_text_among, is_one_of as is_text_of, is_there, is_array as is_array_data, keys_of, data_of, members_of};
ghost use Rattle.tp_machine_text.specs.Order.{first_from};
ghost use Rattle.tp_compose.specs.Racks.{rack_keys, type_keys, types, ports};
ghost use Rattle.tp_compose.specs.TypeRules.{is_short_byte, is_short_text, is_short as is_short_data, has_known_keys, has_format, is_type, has_types, are_shorts, has_ports, have_ports, is_deed, has_deeds, have_deeds, is_grip, has_grips, has_all_grips, have_grips, has_parts, type_rules};

use toml::{Table, Value};
use tp_machine_text::lookup::{
    are_different, differ_at, field, is_array_or_absent, is_key, is_one_of, is_whole, table_in,
    value_at, values_in,
};

/// The most ports, resources and actions of a type, and the most parts of a rack: each is a module.
const MOST_PORTS: usize = 256;

const MOST_RESOURCES: usize = 256;

const MOST_ACTIONS: usize = 512;

const MOST_PARTS: usize = 64;

/// The first of the rules 1 to 7 that is broken.
pub(crate) fn first_broken_type(table: &Table) -> Option<u8>
    ensures { result ≡ first_from 1 (type_rules (table_view table.now)) }
{
    if !are_keys_known(table) {
        return Some(1);
    }
    if !is_format_known(table) {
        return Some(2);
    }
    if !has_types(table) {
        return Some(3);
    }
    if !have_ports(table) {
        return Some(4);
    }
    if !have_deeds(table) {
        return Some(5);
    }
    if !have_grips(table) {
        return Some(6);
    }
    if !has_parts(table) {
        return Some(7);
    }
    None
}

#[tactic(auto, using(tp_machine_text::proofs::Seen::keys_pass))]
fn are_keys_known(table: &Table) -> bool
    ensures { result ≡ has_known_keys (table_view table.now) }
{
    are_all_known(table)
}

fn are_all_known(table: &Table) -> bool
    ensures { result ≡ list_all (λ key. is_text_among rack_keys (string_bytes key))
        (keys table.now) }
{
    table.keys().all(|key| is_known(key.as_str()))
}

fn is_known(key: &str) -> bool
    ensures { result ≡ is_text_among rack_keys key.now }
{
    matches!(
        key,
        "format"
            | "lead"
            | "window"
            | "budget"
            | "types"
            | "parts"
            | "joins"
            | "trays"
            | "purge"
            | "feeders"
    )
}

fn is_format_known(table: &Table) -> bool
    ensures { result ≡ has_format (table_view table.now) }
{
    match value_at(table, "format") {
        Some(value) => is_whole(value, 1, 1),
        None => false,
    }
}

#[tactic(auto, using(tp_machine_text::proofs::Seen::seen))]
fn has_types(table: &Table) -> bool
    ensures { result ≡ has_types (table_view table.now) }
{
    match table_in(value_at(table, "types")) {
        Some(types) => 1 <= types.len() && are_keys_short(types) && are_types(types),
        None => false,
    }
}

#[tactic(auto, using(tp_machine_text::proofs::Seen::keys_pass))]
fn are_keys_short(table: &Table) -> bool
    ensures { result ≡ list_all is_short_text (keys_of (table_view table.now)) }
{
    are_shorts_at(table)
}

fn are_shorts_at(table: &Table) -> bool
    ensures { result ≡ list_all (λ key. is_short_text (string_bytes key)) (keys table.now) }
{
    table.keys().all(|key| is_short_text(key.as_str()))
}

#[tactic(auto, using(tp_machine_text::proofs::Seen::seen))]
fn are_types(types: &Table) -> bool
    ensures { result ≡ list_all is_type (data_of (table_view types.now)) }
{
    are_all_types(types)
}

fn are_all_types(types: &Table) -> bool
    ensures { result ≡ list_all (λ v. is_type (view v)) (values types.now) }
{
    types.values().all(is_type)
}

#[tactic(auto, unfolding(crate::specs::TypeRules::is_type))]
fn is_type(value: &Value) -> bool
    ensures { result ≡ is_type (view value.now) }
{
    value.is_table()
        && has_type_keys(value)
        && field(value, "ports").is_some()
        && field(value, "actions").is_some()
}

#[tactic(auto, using(tp_machine_text::proofs::Seen::keys_pass))]
fn has_type_keys(value: &Value) -> bool
    ensures { result ≡ are_keys_among type_keys (view value.now) }
{
    match value.as_table() {
        Some(table) => are_type_keys(table),
        None => true,
    }
}

fn are_type_keys(table: &Table) -> bool
    ensures { result ≡ list_all (λ key. is_text_among type_keys (string_bytes key))
        (keys table.now) }
{
    table.keys().all(|key| matches!(key.as_str(), "ports" | "actions" | "resources"))
}

/// 1 to 15 letters, digits or `_`.
fn is_short_text(text: &str) -> bool
    ensures { result ≡ is_short_text text.now }
{
    let bytes = text.as_bytes();
    1 <= bytes.len() && bytes.len() <= 15 && are_short_bytes(bytes)
}

fn are_short_bytes(bytes: &[u8]) -> bool
    ensures { result ≡ list_all is_short_byte bytes.now }
{
    bytes.iter().all(|byte| is_short_byte(*byte))
}

fn is_short_byte(byte: u8) -> bool
    ensures { result ≡ is_short_byte byte }
{
    (65 <= byte && byte <= 90)
        || (97 <= byte && byte <= 122)
        || (48 <= byte && byte <= 57)
        || byte == 95
}

fn is_short(value: &Value) -> bool
    ensures { result ≡ is_short_data (view value.now) }
{
    match value.as_str() {
        Some(text) => is_short_text(text),
        None => false,
    }
}

/// So many different short texts.
#[tactic(auto, using(tp_machine_text::proofs::Seen::seen))]
fn are_shorts(values: &[Value], least: usize, most: usize) -> bool
    ensures { result ≡ are_shorts least most (map view values.now) }
{
    let counted = least <= values.len() && values.len() <= most;
    counted && are_all_short(values) && are_different(values)
}

fn are_all_short(values: &[Value]) -> bool
    ensures { result ≡ list_all (λ v. is_short_data (view v)) values.now }
{
    values.iter().all(is_short)
}

#[tactic(auto, using(tp_machine_text::proofs::Seen::seen))]
fn have_ports(table: &Table) -> bool
    ensures { result ≡ have_ports (table_view table.now) }
{
    match table_in(value_at(table, "types")) {
        Some(types) => have_all_ports(types),
        None => true,
    }
}

fn have_all_ports(types: &Table) -> bool
    ensures { result ≡ list_all (λ v. has_ports (view v)) (values types.now) }
{
    types.values().all(has_ports)
}

#[tactic(auto, unfolding(crate::specs::TypeRules::has_ports))]
fn has_ports(value: &Value) -> bool
    ensures { result ≡ has_ports (view value.now) }
{
    let resources = field(value, "resources");
    are_shorts(values_in(field(value, "ports")), 1, MOST_PORTS)
        && is_array_or_absent(resources)
        && are_shorts(values_in(resources), 0, MOST_RESOURCES)
}

#[tactic(auto, using(tp_machine_text::proofs::Seen::seen))]
fn have_deeds(table: &Table) -> bool
    ensures { result ≡ have_deeds (table_view table.now) }
{
    match table_in(value_at(table, "types")) {
        Some(types) => have_all_deeds(types),
        None => true,
    }
}

fn have_all_deeds(types: &Table) -> bool
    ensures { result ≡ list_all (λ v. has_deeds (view v)) (values types.now) }
{
    types.values().all(has_deeds)
}

#[tactic(auto, using(tp_machine_text::proofs::Seen::seen), unfolding(crate::specs::TypeRules::has_deeds))]
fn has_deeds(value: &Value) -> bool
    ensures { result ≡ has_deeds (view value.now) }
{
    let actions = field(value, "actions");
    let deeds = values_in(actions);
    is_array(actions)
        && deeds.len() <= MOST_ACTIONS
        && are_deeds(values_in(field(value, "ports")), deeds)
        && differ_at(deeds, "name")
}

fn is_array(value: Option<&Value>) -> bool
    ensures { result ≡ is_there is_array_data (option_map (λ v. view v.now) value.entry) }
{
    match value {
        Some(value) => value.is_array(),
        None => false,
    }
}

fn are_deeds(ports: &[Value], deeds: &[Value]) -> bool
    ensures { result ≡ list_all (λ v. is_deed (map text_of (map view ports.now)) (view v))
        deeds.now }
{
    deeds.iter().all(|deed| is_deed(ports, deed))
}

#[tactic(auto, unfolding(crate::specs::TypeRules::is_deed))]
fn is_deed(ports: &[Value], deed: &Value) -> bool
    ensures { result ≡ is_deed (map text_of (map view ports.now)) (view deed.now) }
{
    deed.is_table()
        && field(deed, "module").is_none()
        && has_short_name(deed)
        && has_text_of(ports, deed, "from")
        && has_text_of(ports, deed, "to")
}

fn has_short_name(deed: &Value) -> bool
    ensures { result ≡ is_there is_short_data (get (codes "name") (view deed.now)) }
{
    match field(deed, "name") {
        Some(name) => is_short(name),
        None => false,
    }
}

/// Whether the value at the key is one of the texts.
fn has_text_of(texts: &[Value], value: &Value, key: &str) -> bool
    ensures { result ≡ is_there (is_text_of (map text_of (map view texts.now)))
        (get key.now (view value.now)) }
{
    match field(value, key) {
        Some(text) => is_one_of(texts, text),
        None => false,
    }
}

#[tactic(auto, using(tp_machine_text::proofs::Seen::seen))]
fn have_grips(table: &Table) -> bool
    ensures { result ≡ have_grips (table_view table.now) }
{
    match table_in(value_at(table, "types")) {
        Some(types) => have_all_grips(types),
        None => true,
    }
}

fn have_all_grips(types: &Table) -> bool
    ensures { result ≡ list_all (λ v. has_all_grips (view v)) (values types.now) }
{
    types.values().all(has_all_grips)
}

#[tactic(auto, using(tp_machine_text::proofs::Seen::seen), unfolding(crate::specs::TypeRules::has_all_grips))]
fn has_all_grips(value: &Value) -> bool
    ensures { result ≡ has_all_grips (view value.now) }
{
    let resources = values_in(field(value, "resources"));
    are_gripping(resources, values_in(field(value, "actions")))
}

fn are_gripping(resources: &[Value], deeds: &[Value]) -> bool
    ensures { result ≡ list_all (λ v. has_grips (map text_of (map view resources.now)) (view v))
        deeds.now }
{
    deeds.iter().all(|deed| has_grips(resources, deed))
}

#[tactic(auto, using(tp_machine_text::proofs::Seen::seen), unfolding(crate::specs::TypeRules::has_grips))]
fn has_grips(resources: &[Value], deed: &Value) -> bool
    ensures { result ≡ has_grips (map text_of (map view resources.now)) (view deed.now) }
{
    let holds = field(deed, "holds");
    let grips = values_in(holds);
    is_array_or_absent(holds) && grips.len() <= 4 && are_grips(resources, grips)
}

fn are_grips(resources: &[Value], grips: &[Value]) -> bool
    ensures { result ≡ list_all (λ v. is_grip (map text_of (map view resources.now)) (view v))
        grips.now }
{
    grips.iter().all(|grip| is_grip(resources, grip))
}

#[tactic(auto, unfolding(crate::specs::TypeRules::is_grip))]
fn is_grip(resources: &[Value], grip: &Value) -> bool
    ensures { result ≡ is_grip (map text_of (map view resources.now)) (view grip.now) }
{
    grip.is_table() && has_text_of(resources, grip, "resource")
}

#[tactic(auto, using(tp_machine_text::proofs::Seen::seen))]
fn has_parts(table: &Table) -> bool
    ensures { result ≡ has_parts (table_view table.now) }
{
    match table_in(value_at(table, "parts")) {
        Some(parts) => {
            let counted = 1 <= parts.len() && parts.len() <= MOST_PARTS;
            counted
                && are_keys_short(parts)
                && are_of_types(table_in(value_at(table, "types")), parts)
        }
        None => false,
    }
}

#[tactic(auto, using(tp_machine_text::proofs::Seen::seen))]
fn are_of_types(types: Option<&Table>, parts: &Table) -> bool
    ensures { result ≡ list_all (is_text_of (keys_of
        (members_of (option_map (λ m. table_view m.now) types.entry))))
        (data_of (table_view parts.now)) }
{
    are_all_of_types(types, parts)
}

fn are_all_of_types(types: Option<&Table>, parts: &Table) -> bool
    ensures { result ≡ list_all (λ v. is_text_of (keys_of
        (members_of (option_map (λ m. table_view m.now) types.entry))) (view v))
        (values parts.now) }
{
    parts.values().all(|part| is_of_type(types, part))
}

fn is_of_type(types: Option<&Table>, part: &Value) -> bool
    ensures { result ≡ is_text_of (keys_of
        (members_of (option_map (λ m. table_view m.now) types.entry))) (view part.now) }
{
    match part.as_str() {
        Some(name) => is_key(types, name),
        None => false,
    }
}
