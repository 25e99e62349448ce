//! The table of a machine text that a rack comes to.
ghost use Rattle.std.specs.Prelude.{◌≡◌, ◌++◌, ◌∷◌, [], IfOk, OnOk, map, option_map, codes};
ghost use Rattle.std.specs.List.{flat_map};
ghost use Rattle.toml.specs.Data.{string, array, table as table_data, as_table, get_member};
ghost use Rattle.toml.specs.View.{table_view, view, items_of};
ghost use Rattle.tp_machine_text.specs.Printed.{put_member, texts_data};
ghost use Rattle.tp_machine_text.specs.Words.{text_of, text_at, keys_of, members_of};
ghost use Rattle.tp_compose.specs.Racks.{parts, entries, typed, dotted, hyphened, put_all, location_by};
ghost use Rattle.tp_compose.specs.Flat.{put_found, locations, port_location, part_locations, end_locations, placed_feeders, feeder_table, part_resources, resource_table, flat_hold, put_holds, flat_action, part_actions, actions, flat_by};

use crate::end_rules::{dotted, hyphened, kind_values, location_by};
use std::alloc::Global;
use toml::value::Array;
use toml::{Table, Value};
use tp_base::Memory;
use tp_machine_text::lookup::{field, table_in, text_at, text_of, value_at, values_at, values_in};
use tp_machine_text::put;

/// The numbers of the rack, and all that each flat table has.
pub(crate) fn flat_of(
    alloc: Global,
    table: &Table,
    own: &Table,
    firsts: &Table,
) -> Result<Table, Memory>
    ensures { IfOk result (λ flat. table_view flat ≡ flat_by (table_view own.now)
        (table_view firsts.now) (table_view table.now)) }
{
    let mut flat = Table::new(alloc);
    put(alloc, &mut flat, "format", Value::from(2u32))?;
    put_locations(alloc, &mut flat, table, own, firsts)?;
    put_supplies(alloc, &mut flat, table, own, firsts)?;
    put_actions(alloc, &mut flat, table, own, firsts)?;
    put_numbers(alloc, &mut flat, table)?;
    Ok(flat)
}

fn put_numbers(alloc: Global, flat: &mut Table, table: &Table) -> Result<(), Memory>
    ensures { OnOk result (table_view flat.new ≡
        put_found (codes "budget") (get_member (codes "budget") (table_view table.now))
        (put_found (codes "window") (get_member (codes "window") (table_view table.now))
        (put_found (codes "lead") (get_member (codes "lead") (table_view table.now))
        (table_view flat.old)))) }
{
    put_found(alloc, flat, "lead", value_at(table, "lead"))?;
    put_found(alloc, flat, "window", value_at(table, "window"))?;
    put_found(alloc, flat, "budget", value_at(table, "budget"))
}

/// Puts a copy of the value at the key, where there is one.
fn put_found(
    alloc: Global,
    flat: &mut Table,
    key: &str,
    value: Option<&Value>,
) -> Result<(), Memory>
    ensures { OnOk result (table_view flat.new ≡
        put_found key.now (option_map (λ v. view v.now) value.entry) (table_view flat.old)) }
{
    match value {
        Some(value) => put(alloc, flat, key, value.clone()?),
        None => Ok(()),
    }
}

/// Puts the locations, the modules and the trays.
fn put_locations(
    alloc: Global,
    flat: &mut Table,
    table: &Table,
    own: &Table,
    firsts: &Table,
) -> Result<(), Memory>
    ensures { OnOk result (table_view flat.new ≡
        put_member (codes "purge") (texts_data (end_locations (table_view own.now)
        (table_view firsts.now) (codes "purge") (table_view table.now)))
        (put_member (codes "trays") (texts_data (end_locations (table_view own.now)
        (table_view firsts.now) (codes "trays") (table_view table.now)))
        (put_member (codes "modules") (texts_data (keys_of (parts (table_view table.now))))
        (put_member (codes "locations") (array (items_of (locations (table_view firsts.now)
        (table_view table.now))))
        (table_view flat.old))))) }
{
    let locations = locations(alloc, table, firsts)?;
    put(alloc, flat, "locations", locations)?;
    let modules = keys_value(alloc, table_in(value_at(table, "parts")))?;
    put(alloc, flat, "modules", modules)?;
    let trays = locations_value(alloc, own, firsts, values_at(table, "trays"))?;
    put(alloc, flat, "trays", trays)?;
    let purges = locations_value(alloc, own, firsts, values_at(table, "purge"))?;
    put(alloc, flat, "purge", purges)
}

/// The names of the ENDs that are no second END of a join.
fn locations(alloc: Global, table: &Table, firsts: &Table) -> Result<Value, Memory>
    ensures { IfOk result (λ value. view value
        ≡ array (items_of (locations (table_view firsts.now)
        (table_view table.now)))) }
{
    let mut array = Array::new(alloc);
    if let Some(parts) = table_in(value_at(table, "parts")) {
        push_parts(
            alloc,
            &mut array,
            firsts,
            table_in(value_at(table, "types")),
            parts,
        )?;
    }
    Ok(Value::from(array))
}

#[tactic(auto, using(crate::proofs::Puts::pieces))]
fn push_parts(
    alloc: Global,
    array: &mut Array,
    firsts: &Table,
    types: Option<&Table>,
    parts: &Table,
) -> Result<(), Memory>
    ensures { OnOk result (map view array.new.items ≡ map view array.old.items
        ++ flat_map (part_locations (table_view firsts.now))
        (typed (members_of (option_map (λ m. table_view m.now) types.entry))
        (table_view parts.now))) }
{
    let entries = parts.iter();
    'entries: for (part, kind) in entries {
        push_ports(
            alloc,
            array,
            firsts,
            part.as_str(),
            kind_values(types, kind, "ports"),
        )?;
    }
    Ok(())
}

#[tactic(auto, using(crate::proofs::Puts::pieces))]
fn push_ports(
    alloc: Global,
    array: &mut Array,
    firsts: &Table,
    part: &str,
    ports: &[Value],
) -> Result<(), Memory>
    ensures { OnOk result (map view array.new.items ≡ map view array.old.items
        ++ flat_map (port_location (table_view firsts.now) part.now)
        (map text_of (map view ports.now))) }
{
    let mut rest = ports;
    'ports: while let [port, others @ ..] = rest {
        push_port(alloc, array, firsts, part, text_of(port))?;
        rest = others;
    }
    Ok(())
}

#[tactic(auto, unfolding(crate::specs::Flat::port_location))]
fn push_port(
    alloc: Global,
    array: &mut Array,
    firsts: &Table,
    part: &str,
    port: &str,
) -> Result<(), Memory>
    ensures { OnOk result (map view array.new.items ≡ map view array.old.items
        ++ port_location (table_view firsts.now) part.now port.now) }
{
    let end = dotted(alloc, part, port)?;
    if value_at(firsts, end.as_str()).is_none() {
        array.push(Value::from(hyphened(alloc, part, port)?))?;
    }
    Ok(())
}

/// The keys of a table as texts.
fn keys_value(alloc: Global, table: Option<&Table>) -> Result<Value, Memory>
    ensures { IfOk result (λ value. view value ≡ texts_data
        (keys_of (members_of (option_map (λ m. table_view m.now) table.entry)))) }
{
    match table {
        Some(table) => table_keys_value(alloc, table),
        None => Ok(Value::from(Array::new(alloc))),
    }
}

fn table_keys_value(alloc: Global, table: &Table) -> Result<Value, Memory>
    ensures { IfOk result (λ value. view value ≡ texts_data (keys_of (table_view table.now))) }
{
    let mut array = Array::new(alloc);
    let entries = table.iter();
    'entries: for (key, _value) in entries {
        array.push(Value::string(alloc, key.as_str())?)?;
    }
    Ok(Value::from(array))
}

/// The names of the locations of some ENDs.
fn locations_value(
    alloc: Global,
    own: &Table,
    firsts: &Table,
    ends: &[Value],
) -> Result<Value, Memory>
    ensures { IfOk result (λ value. view value ≡ texts_data
        (map (location_by (table_view own.now) (table_view firsts.now))
        (map text_of (map view ends.now)))) }
{
    let mut array = Array::new(alloc);
    let mut rest = ends;
    'ends: while let [end, others @ ..] = rest {
        array.push(Value::string(alloc, location_by(own, firsts, text_of(end)))?)?;
        rest = others;
    }
    Ok(Value::from(array))
}

/// Puts the feeders and the resources.
fn put_supplies(
    alloc: Global,
    flat: &mut Table,
    table: &Table,
    own: &Table,
    firsts: &Table,
) -> Result<(), Memory>
    ensures { OnOk result (table_view flat.new ≡
        put_member (codes "resources") (table_data (resource_table (table_view table.now)))
        (put_member (codes "feeders") (table_data (feeder_table (table_view own.now)
        (table_view firsts.now) (table_view table.now)))
        (table_view flat.old))) }
{
    let feeders = feeders(alloc, table, own, firsts)?;
    put(alloc, flat, "feeders", Value::from(feeders))?;
    let resources = resources(alloc, table)?;
    put(alloc, flat, "resources", Value::from(resources))
}

fn feeders(alloc: Global, table: &Table, own: &Table, firsts: &Table) -> Result<Table, Memory>
    ensures { IfOk result (λ feeders. table_view feeders ≡ feeder_table (table_view own.now)
        (table_view firsts.now) (table_view table.now)) }
{
    let mut placed = Table::new(alloc);
    if let Some(feeders) = table_in(value_at(table, "feeders")) {
        put_feeders(alloc, &mut placed, own, firsts, feeders)?;
    }
    Ok(placed)
}

#[tactic(auto, using(crate::proofs::Puts::put_more))]
fn put_feeders(
    alloc: Global,
    placed: &mut Table,
    own: &Table,
    firsts: &Table,
    feeders: &Table,
) -> Result<(), Memory>
    ensures { OnOk result (table_view placed.new ≡ put_all
        (placed_feeders (table_view own.now) (table_view firsts.now) (table_view feeders.now))
        (table_view placed.old)) }
{
    let entries = feeders.iter();
    'entries: for (end, media) in entries {
        put(
            alloc,
            placed,
            location_by(own, firsts, end.as_str()),
            media.clone()?,
        )?;
    }
    Ok(())
}

/// The resources of each part, with the part as their module.
fn resources(alloc: Global, table: &Table) -> Result<Table, Memory>
    ensures { IfOk result (λ resources. table_view resources
        ≡ resource_table (table_view table.now)) }
{
    let mut resources = Table::new(alloc);
    if let Some(parts) = table_in(value_at(table, "parts")) {
        put_part_resources(
            alloc,
            &mut resources,
            table_in(value_at(table, "types")),
            parts,
        )?;
    }
    Ok(resources)
}

#[tactic(auto, using(crate::proofs::Puts::put_more))]
fn put_part_resources(
    alloc: Global,
    resources: &mut Table,
    types: Option<&Table>,
    parts: &Table,
) -> Result<(), Memory>
    ensures { OnOk result (table_view resources.new ≡ put_all (flat_map part_resources
        (typed (members_of (option_map (λ m. table_view m.now) types.entry))
        (table_view parts.now))) (table_view resources.old)) }
{
    let entries = parts.iter();
    'entries: for (part, kind) in entries {
        put_resources(
            alloc,
            resources,
            part.as_str(),
            kind_values(types, kind, "resources"),
        )?;
    }
    Ok(())
}

#[tactic(auto, using(crate::proofs::Puts::put_more))]
fn put_resources(
    alloc: Global,
    resources: &mut Table,
    part: &str,
    names: &[Value],
) -> Result<(), Memory>
    ensures { OnOk result (table_view resources.new ≡ put_all
        (map (λ s. (hyphened part.now s, string part.now))
        (map text_of (map view names.now))) (table_view resources.old)) }
{
    let mut rest = names;
    'names: while let [name, others @ ..] = rest {
        put_resource(alloc, resources, part, text_of(name))?;
        rest = others;
    }
    Ok(())
}

fn put_resource(alloc: Global, resources: &mut Table, part: &str, name: &str) -> Result<(), Memory>
    ensures { OnOk result (table_view resources.new ≡ put_all
        ((hyphened part.now name.now, string part.now) ∷ []) (table_view resources.old)) }
{
    let name = hyphened(alloc, part, name)?;
    put(alloc, resources, name.as_str(), Value::string(alloc, part)?)
}

/// Puts the actions of all parts.
fn put_actions(
    alloc: Global,
    flat: &mut Table,
    table: &Table,
    own: &Table,
    firsts: &Table,
) -> Result<(), Memory>
    ensures { OnOk result (table_view flat.new ≡ put_member (codes "actions")
        (array (items_of (actions (table_view own.now)
        (table_view firsts.now) (table_view table.now)))) (table_view flat.old)) }
{
    let mut array = Array::new(alloc);
    if let Some(parts) = table_in(value_at(table, "parts")) {
        let types = table_in(value_at(table, "types"));
        push_actions(alloc, &mut array, own, firsts, types, parts)?;
    }
    put(alloc, flat, "actions", Value::from(array))
}

fn push_actions(
    alloc: Global,
    array: &mut Array,
    own: &Table,
    firsts: &Table,
    types: Option<&Table>,
    parts: &Table,
) -> Result<(), Memory>
    ensures { OnOk result (map view array.new.items ≡ map view array.old.items
        ++ flat_map (part_actions (table_view own.now) (table_view firsts.now))
        (typed (members_of (option_map (λ m. table_view m.now) types.entry))
        (table_view parts.now))) }
{
    let entries = parts.iter();
    'entries: for (part, kind) in entries {
        let actions = kind_values(types, kind, "actions");
        push_part_actions(alloc, array, own, firsts, part.as_str(), actions)?;
    }
    Ok(())
}

fn push_part_actions(
    alloc: Global,
    array: &mut Array,
    own: &Table,
    firsts: &Table,
    part: &str,
    actions: &[Value],
) -> Result<(), Memory>
    ensures { OnOk result (map view array.new.items ≡ map view array.old.items
        ++ map (flat_action (table_view own.now) (table_view firsts.now) part.now)
        (map view actions.now)) }
{
    let mut rest = actions;
    'actions: while let [action, others @ ..] = rest {
        array.push(flat_action(alloc, own, firsts, part, action)?)?;
        rest = others;
    }
    Ok(())
}

/// Puts the name, the module and the two locations of a part's action.
fn put_names(
    alloc: Global,
    table: &mut Table,
    own: &Table,
    firsts: &Table,
    part: &str,
    action: &Value,
) -> Result<(), Memory>
    ensures { OnOk result (table_view table.new ≡
        put_member (codes "to") (string (location_by (table_view own.now) (table_view firsts.now)
        (dotted part.now (text_at (codes "to") (view action.now)))))
        (put_member (codes "from") (string (location_by (table_view own.now) (table_view firsts.now)
        (dotted part.now (text_at (codes "from") (view action.now)))))
        (put_member (codes "module") (string part.now)
        (put_member (codes "name") (string (hyphened part.now
        (text_at (codes "name") (view action.now)))) (table_view table.old))))) }
{
    let name = hyphened(alloc, part, text_at(action, "name"))?;
    put(alloc, table, "name", Value::from(name))?;
    let owner = Value::string(alloc, part)?;
    put(alloc, table, "module", owner)?;
    let from = end_value(alloc, own, firsts, part, text_at(action, "from"))?;
    put(alloc, table, "from", from)?;
    let to = end_value(alloc, own, firsts, part, text_at(action, "to"))?;
    put(alloc, table, "to", to)
}

/// An action of a part: with its names after the part's, and all else as it is.
#[tactic(auto, unfolding(crate::specs::Flat::flat_action))]
fn flat_action(
    alloc: Global,
    own: &Table,
    firsts: &Table,
    part: &str,
    action: &Value,
) -> Result<Value, Memory>
    ensures { IfOk result (λ value. view value ≡ flat_action (table_view own.now)
        (table_view firsts.now) part.now (view action.now)) }
{
    let mut table = copied(alloc, action)?;
    put_names(alloc, &mut table, own, firsts, part, action)?;
    put_holds(alloc, &mut table, part, field(action, "holds"))?;
    Ok(Value::from(table))
}

/// A table with the members of a value that is one.
fn copied(alloc: Global, value: &Value) -> Result<Table, Memory>
    ensures { IfOk result (λ copy. table_view copy ≡ members_of (as_table (view value.now))) }
{
    match value.clone()? {
        Value::Table(table) => Ok(table),
        _ => Ok(Table::new(alloc)),
    }
}

/// The name of the location of a part's port.
fn end_value(
    alloc: Global,
    own: &Table,
    firsts: &Table,
    part: &str,
    port: &str,
) -> Result<Value, Memory>
    ensures { IfOk result (λ value. view value ≡ string (location_by (table_view own.now)
        (table_view firsts.now) (dotted part.now port.now))) }
{
    let end = dotted(alloc, part, port)?;
    Ok(Value::string(alloc, location_by(own, firsts, end.as_str()))?)
}

/// Puts the holds of the part's resources, where the action has any.
fn put_holds(
    alloc: Global,
    table: &mut Table,
    part: &str,
    holds: Option<&Value>,
) -> Result<(), Memory>
    ensures { OnOk result (table_view table.new ≡ put_holds part.now
        (option_map (λ v. view v.now) holds.entry) (table_view table.old)) }
{
    match holds {
        Some(holds) => {
            let holds = holds_value(alloc, part, values_in(Some(holds)))?;
            put(alloc, table, "holds", holds)
        }
        None => Ok(()),
    }
}

fn holds_value(alloc: Global, part: &str, holds: &[Value]) -> Result<Value, Memory>
    ensures { IfOk result (λ value. view value
        ≡ array (items_of (map (flat_hold part.now) (map view holds.now)))) }
{
    let mut array = Array::new(alloc);
    let mut rest = holds;
    'holds: while let [hold, others @ ..] = rest {
        array.push(flat_hold(alloc, part, hold)?)?;
        rest = others;
    }
    Ok(Value::from(array))
}

#[tactic(auto, unfolding(crate::specs::Flat::flat_hold))]
fn flat_hold(alloc: Global, part: &str, hold: &Value) -> Result<Value, Memory>
    ensures { IfOk result (λ value. view value ≡ flat_hold part.now (view hold.now)) }
{
    let mut table = copied(alloc, hold)?;
    let resource = hyphened(alloc, part, text_at(hold, "resource"))?;
    put(alloc, &mut table, "resource", Value::from(resource))?;
    Ok(Value::from(table))
}
