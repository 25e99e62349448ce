//! The ENDs of a rack and their locations, and the rules 8 to 10, which name ENDs.
ghost use Rattle.std.specs.Prelude.{◌≡◌, ◌++◌, ◌∷◌, [], IfOk, OnOk, map, option_map, string_bytes};
ghost use Rattle.std.specs.List.{list_all, flat_map};
ghost use Rattle.std.specs.BTreeMap.{keys};
ghost use Rattle.toml.specs.Data.{string, get_member, get};
ghost use Rattle.toml.specs.View.{table_view, view};
ghost use Rattle.tp_machine_text.specs.Words.{text_of, elements_in, keys_of, members_of};
ghost use Rattle.tp_machine_text.specs.Order.{first_from};
ghost use Rattle.tp_compose.specs.Racks.{joins, entries, type_in, typed, dotted, hyphened, part_ends, put_all, own_names, join_entry, join_entries, first_ends, first_in, location_by};
ghost use Rattle.tp_compose.specs.EndRules.{is_end_text, is_end as is_end_data, are_two_ends, is_join as is_join_data, joined, has_joins, has_trays, has_purges, has_feeders, has_ends, has_feeders_apart, end_rules};

use std::alloc::Global;
use toml::value::Array;
use toml::{Table, Value};
use tp_base::Memory;
use tp_machine_text::lookup::{
    are_different, field, is_array_or_absent, table_in, text_of, value_at, values_at, values_in,
};
use tp_machine_text::put;

/// The END of a part's port.
pub(crate) fn dotted(alloc: Global, part: &str, port: &str) -> Result<String, Memory>
    ensures { IfOk result (λ text. string_bytes text ≡ dotted part.now port.now) }
{
    let mut text = String::from_str(alloc, part)?;
    text.push_str(".")?;
    text.push_str(port)?;
    Ok(text)
}

/// The name of something of a part.
pub(crate) fn hyphened(alloc: Global, part: &str, name: &str) -> Result<String, Memory>
    ensures { IfOk result (λ text. string_bytes text ≡ hyphened part.now name.now) }
{
    let mut text = String::from_str(alloc, part)?;
    text.push_str("-")?;
    text.push_str(name)?;
    Ok(text)
}

/// The values of the array at a key of a part's type.
pub(crate) fn kind_values<'a>(types: Option<&'a Table>, kind: &Value, key: &str) -> &'a [Value]
    ensures { map view result.now ≡ elements_in (get key.now (type_in (get_member
        (text_of (view kind.now)) (members_of
        (option_map (λ m. table_view m.now) types.entry))))) }
{
    match type_of(types, kind) {
        Some(kind) => values_in(field(kind, key)),
        None => &[],
    }
}

fn type_of<'a>(types: Option<&'a Table>, kind: &Value) -> Option<&'a Value>
    ensures { option_map (λ v. view v.now) result ≡ get_member (text_of (view kind.now))
        (members_of (option_map (λ m. table_view m.now) types.entry)) }
{
    match types {
        Some(types) => value_at(types, text_of(kind)),
        None => None,
    }
}

/// The name of its own at each END of the rack.
pub(crate) fn own_names(alloc: Global, table: &Table) -> Result<Table, Memory>
    ensures { IfOk result (λ own. table_view own ≡ own_names (table_view table.now)) }
{
    let mut own = Table::new(alloc);
    if let Some(parts) = table_in(value_at(table, "parts")) {
        put_parts(alloc, &mut own, table_in(value_at(table, "types")), parts)?;
    }
    Ok(own)
}

#[tactic(auto, using(crate::proofs::Puts::put_more))]
fn put_parts(
    alloc: Global,
    own: &mut Table,
    types: Option<&Table>,
    parts: &Table,
) -> Result<(), Memory>
    ensures { OnOk result (table_view own.new ≡ put_all (flat_map part_ends
        (typed (members_of (option_map (λ m. table_view m.now) types.entry))
        (table_view parts.now))) (table_view own.old)) }
{
    let entries = parts.iter();
    'entries: for (part, kind) in entries {
        put_ports(alloc, own, part.as_str(), kind_values(types, kind, "ports"))?;
    }
    Ok(())
}

fn put_ports(alloc: Global, own: &mut Table, part: &str, ports: &[Value]) -> Result<(), Memory>
    ensures { OnOk result (table_view own.new ≡ put_all
        (map (λ q. (dotted part.now q, string (hyphened part.now q)))
        (map text_of (map view ports.now))) (table_view own.old)) }
{
    let mut rest = ports;
    'ports: while let [port, others @ ..] = rest {
        put_port(alloc, own, part, text_of(port))?;
        rest = others;
    }
    Ok(())
}

fn put_port(alloc: Global, own: &mut Table, part: &str, port: &str) -> Result<(), Memory>
    ensures { OnOk result (table_view own.new ≡ put_all ((
      dotted part.now port.now,
      string (hyphened part.now port.now),
    ) ∷ []) (table_view own.old)) }
{
    let end = dotted(alloc, part, port)?;
    let name = hyphened(alloc, part, port)?;
    put(alloc, own, end.as_str(), Value::from(name))
}

/// The first END of each join, at its second one.
pub(crate) fn first_ends(alloc: Global, table: &Table) -> Result<Table, Memory>
    ensures { IfOk result (λ firsts. table_view firsts ≡ first_ends (table_view table.now)) }
{
    let mut firsts = Table::new(alloc);
    put_joins(alloc, &mut firsts, values_at(table, "joins"))?;
    Ok(firsts)
}

#[tactic(auto, using(crate::proofs::Puts::put_more))]
fn put_joins(alloc: Global, firsts: &mut Table, joins: &[Value]) -> Result<(), Memory>
    ensures { OnOk result (table_view firsts.new ≡ put_all
        (flat_map join_entries (map view joins.now)) (table_view firsts.old)) }
{
    let mut rest = joins;
    'joins: while let [join, others @ ..] = rest {
        put_join(alloc, firsts, values_in(Some(join)))?;
        rest = others;
    }
    Ok(())
}

fn put_join(alloc: Global, firsts: &mut Table, ends: &[Value]) -> Result<(), Memory>
    ensures { OnOk result (table_view firsts.new ≡ put_all
        (join_entry (map view ends.now)) (table_view firsts.old)) }
{
    match ends {
        [first, second] => {
            let first = Value::string(alloc, text_of(first))?;
            put(alloc, firsts, text_of(second), first)
        }
        _ => Ok(()),
    }
}

/// The name of the location of an END. Another text has the empty name.
pub(crate) fn location_by<'a>(own: &'a Table, firsts: &Table, end: &str) -> &'a str
    ensures { result.now ≡ location_by (table_view own.now) (table_view firsts.now) end.now }
{
    match value_at(own, first_of(firsts, end)) {
        Some(name) => text_of(name),
        None => "",
    }
}

fn first_of<'a>(firsts: &'a Table, end: &'a str) -> &'a str
    ensures { result.now ≡ first_in end.now (get_member end.now (table_view firsts.now)) }
{
    match value_at(firsts, end) {
        Some(first) => text_of(first),
        None => end,
    }
}

/// The first of the rules 8 to 10 that is broken.
pub(crate) fn first_broken_end(
    alloc: Global,
    table: &Table,
    own: &Table,
    firsts: &Table,
) -> Result<Option<u8>, Memory>
    ensures { IfOk result (λ rule. rule ≡ first_from 8
        (end_rules (table_view own.now) (table_view firsts.now) (table_view table.now))) }
{
    if !has_joins(alloc, table, own)? {
        return Ok(Some(8));
    }
    if !has_ends(table, own) {
        return Ok(Some(9));
    }
    if !has_feeders_apart(alloc, table, own, firsts)? {
        return Ok(Some(10));
    }
    Ok(None)
}

#[tactic(auto, using(tp_machine_text::proofs::Seen::seen))]
fn has_joins(alloc: Global, table: &Table, own: &Table) -> Result<bool, Memory>
    ensures { IfOk result (λ test. test ≡ has_joins (table_view own.now)
        (table_view table.now)) }
{
    let joins = values_at(table, "joins");
    let texts = joined(alloc, joins)?;
    let different = are_different(texts.as_slice());
    Ok(is_array_or_absent(value_at(table, "joins")) && are_joins(own, joins) && different)
}

fn are_joins(own: &Table, joins: &[Value]) -> bool
    ensures { result ≡ list_all (λ v. is_join_data (table_view own.now) (view v)) joins.now }
{
    joins.iter().all(|join| is_join(own, join))
}

#[tactic(auto, unfolding(crate::specs::EndRules::is_join))]
fn is_join(own: &Table, join: &Value) -> bool
    ensures { result ≡ is_join_data (table_view own.now) (view join.now) }
{
    are_two_ends(own, values_in(Some(join)))
}

fn are_two_ends(own: &Table, ends: &[Value]) -> bool
    ensures { result ≡ are_two_ends (table_view own.now) (map view ends.now) }
{
    match ends {
        [first, second] => is_end(own, first) && is_end(own, second),
        _ => false,
    }
}

fn is_end(own: &Table, end: &Value) -> bool
    ensures { result ≡ is_end_data (table_view own.now) (view end.now) }
{
    match end.as_str() {
        Some(text) => value_at(own, text).is_some(),
        None => false,
    }
}

/// All ENDs of the joins.
fn joined(alloc: Global, joins: &[Value]) -> Result<Array, Memory>
    ensures { IfOk result (λ texts. map text_of (map view texts.items)
        ≡ joined (map view joins.now)) }
{
    let mut texts = Array::new(alloc);
    let mut rest = joins;
    'joins: while let [join, others @ ..] = rest {
        push_texts(alloc, &mut texts, values_in(Some(join)))?;
        rest = others;
    }
    Ok(texts)
}

fn push_texts(alloc: Global, texts: &mut Array, values: &[Value]) -> Result<(), Memory>
    ensures { OnOk result (map text_of (map view texts.new.items)
        ≡ map text_of (map view texts.old.items) ++ map text_of (map view values.now)) }
{
    let mut rest = values;
    'values: while let [value, others @ ..] = rest {
        texts.push(Value::string(alloc, text_of(value))?)?;
        rest = others;
    }
    Ok(())
}

#[tactic(auto, using(tp_machine_text::proofs::Seen::seen))]
fn has_ends(table: &Table, own: &Table) -> bool
    ensures { result ≡ has_ends (table_view own.now) (table_view table.now) }
{
    has_trays(table, own) && has_purges(table, own) && has_feeders(table, own)
}

#[tactic(auto, using(tp_machine_text::proofs::Seen::seen))]
fn has_trays(table: &Table, own: &Table) -> bool
    ensures { result ≡ has_trays (table_view own.now) (table_view table.now) }
{
    match value_at(table, "trays") {
        Some(trays) => trays.is_array() && are_ends(own, values_in(Some(trays))),
        None => false,
    }
}

#[tactic(auto, using(tp_machine_text::proofs::Seen::seen))]
fn has_purges(table: &Table, own: &Table) -> bool
    ensures { result ≡ has_purges (table_view own.now) (table_view table.now) }
{
    let purges = value_at(table, "purge");
    is_array_or_absent(purges) && are_ends(own, values_in(purges))
}

fn are_ends(own: &Table, values: &[Value]) -> bool
    ensures { result ≡ list_all (λ v. is_end_data (table_view own.now) (view v)) values.now }
{
    values.iter().all(|value| is_end(own, value))
}

#[tactic(auto, using(tp_machine_text::proofs::Seen::keys_pass))]
fn has_feeders(table: &Table, own: &Table) -> bool
    ensures { result ≡ has_feeders (table_view own.now) (table_view table.now) }
{
    match table_in(value_at(table, "feeders")) {
        Some(feeders) => are_keys_ends(own, feeders),
        None => false,
    }
}

fn are_keys_ends(own: &Table, feeders: &Table) -> bool
    ensures { result ≡ list_all (λ key. is_end_text (table_view own.now) (string_bytes key))
        (keys feeders.now) }
{
    feeders
        .keys()
        .all(|key| value_at(own, key.as_str()).is_some())
}

#[tactic(auto, using(tp_machine_text::proofs::Seen::seen))]
fn has_feeders_apart(
    alloc: Global,
    table: &Table,
    own: &Table,
    firsts: &Table,
) -> Result<bool, Memory>
    ensures { IfOk result (λ test. test ≡ has_feeders_apart (table_view own.now)
        (table_view firsts.now) (table_view table.now)) }
{
    match table_in(value_at(table, "feeders")) {
        Some(feeders) => {
            let locations = locations_of_keys(alloc, own, firsts, feeders)?;
            Ok(are_different(locations.as_slice()))
        }
        None => Ok(true),
    }
}

/// The names of the locations of a table's keys.
fn locations_of_keys(
    alloc: Global,
    own: &Table,
    firsts: &Table,
    table: &Table,
) -> Result<Array, Memory>
    ensures { IfOk result (λ locations. map text_of (map view locations.items)
        ≡ map (location_by (table_view own.now) (table_view firsts.now))
        (keys_of (table_view table.now))) }
{
    let mut locations = Array::new(alloc);
    let entries = table.iter();
    'entries: for (key, _value) in entries {
        locations.push(Value::string(alloc, location_by(own, firsts, key.as_str()))?)?;
    }
    Ok(locations)
}
