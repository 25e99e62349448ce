//! Tables of TOML, put together key by key.
ghost use Rattle.std.specs.Prelude.{◌≡◌, ◌<◌, ◌≤◌, pos, true, IfOk, OnOk, length, nat_lt};
ghost use Rattle.std.specs.List.{list_all};
ghost use Rattle.toml.specs.Data.{string, integer};
ghost use Rattle.toml.specs.View.{table_view, view};
ghost use Rattle.tp_machine.specs.Limits.{most_locations};
ghost use Rattle.tp_machine.specs.Rules.{do_names_rise, feeder_names};
ghost use Rattle.tp_machine_text.specs.Printed.{put_member, is_location, texts_data, loc_names, feeder_members, resource_members, put_amount, gap_members, stock_members, resource_names, anchor_text, point_data, hold_data, kind_words};

use std::alloc::Global;
use toml::value::Array;
use toml::{Table, Value};
use tp_base::{Memory, Name};
use tp_machine::{Anchor, Feeder, HoldRule, LocId, Names, Resource};

/// Puts a value at a key of a table.
#[tactic(auto, using(crate::proofs::PutSeen::puts))]
pub fn put(alloc: Global, table: &mut Table, key: &str, value: Value) -> Result<(), Memory>
    ensures { OnOk result (table_view table.new
        ≡ put_member key.now (view value) (table_view table.old)) }
{
    table.insert(String::from_str(alloc, key)?, value)?;
    Ok(())
}

/// The name as a text.
pub(crate) fn text_of_name(name: &Name) -> &str
    ensures { result.now ≡ name.now }
{
    match std::str::from_utf8(name.as_bytes()) {
        Ok(text) => text,
        Err(_) => unreachable!(),
    }
}

pub(crate) fn name_value(alloc: Global, name: &Name) -> Result<Value, Memory>
    ensures { IfOk result (λ value. view value ≡ string name.now) }
{
    Ok(Value::string(alloc, text_of_name(name))?)
}

/// An array of all the names.
pub(crate) fn names_value(alloc: Global, names: &Names) -> Result<Value, Memory>
    requires { length names.now ≤ most_locations }
    ensures { IfOk result (λ value. view value ≡ texts_data names.now) }
{
    let mut array = Array::new(alloc);
    'names: for at in 0..names.len() {
        array.push(name_value(alloc, &names.get(at as u16))?)?;
    }
    Ok(Value::from(array))
}

/// An array of the names of some locations.
#[tactic(auto, unfolding(crate::specs::Printed::is_location))]
pub(crate) fn locs_value(alloc: Global, names: &Names, locs: &[LocId]) -> Result<Value, Memory>
    requires { list_all (is_location (length names.now)) locs.now ≡ true }
    ensures { IfOk result (λ value. view value ≡ texts_data (loc_names names.now locs.now)) }
{
    let mut array = Array::new(alloc);
    let mut rest = locs;
    'locs: while let [loc, others @ ..] = rest {
        array.push(name_value(alloc, &names.get(loc.0))?)?;
        rest = others;
    }
    Ok(Value::from(array))
}

/// The table of feeders. It is filled from its end, so that each new key stands first.
pub(crate) fn feeders_table(
    alloc: Global,
    names: &Names,
    feeders: &[Feeder],
) -> Result<Table, Memory>
    requires known { list_all (λ f. nat_lt f.loc.0 (length names.now)) feeders.now ≡ true }
    requires rise { do_names_rise (feeder_names names.now feeders.now) ≡ true }
    ensures { IfOk result (λ table. table_view table ≡ feeder_members names.now feeders.now) }
{
    match feeders {
        [feeder, rest @ ..] => {
            let mut table = feeders_table(alloc, names, rest)?;
            let location = names.get(feeder.loc.0);
            let media = name_value(alloc, &feeder.media)?;
            put(alloc, &mut table, text_of_name(&location), media)?;
            Ok(table)
        }
        [] => Ok(Table::new(alloc)),
    }
}

/// The table of resources, filled in the same way.
pub(crate) fn resources_table(
    alloc: Global,
    modules: &Names,
    resources: &[Resource],
) -> Result<Table, Memory>
    requires known { list_all (λ r. nat_lt r.module.0 (length modules.now))
        resources.now ≡ true }
    requires rise { do_names_rise (resource_names resources.now) ≡ true }
    ensures { IfOk result (λ table. table_view table
        ≡ resource_members modules.now resources.now) }
{
    match resources {
        [resource, rest @ ..] => {
            let mut table = resources_table(alloc, modules, rest)?;
            let module = modules.get(u16::from(resource.module.0));
            let value = name_value(alloc, &module)?;
            put(alloc, &mut table, text_of_name(&resource.name), value)?;
            Ok(table)
        }
        [] => Ok(Table::new(alloc)),
    }
}

/// Puts a whole number at a key of a table, where there is one.
fn put_amount(
    alloc: Global,
    table: &mut Table,
    key: &str,
    amount: Option<u32>,
) -> Result<(), Memory>
    ensures { OnOk result (table_view table.new
        ≡ put_amount key.now amount (table_view table.old)) }
{
    match amount {
        Some(amount) => put(alloc, table, key, Value::from(amount)),
        None => Ok(()),
    }
}

/// The table of gaps, filled in the same way.
pub(crate) fn gaps_table(alloc: Global, resources: &[Resource]) -> Result<Table, Memory>
    requires rise { do_names_rise (resource_names resources.now) ≡ true }
    ensures { IfOk result (λ table. table_view table ≡ gap_members resources.now) }
{
    match resources {
        [resource, rest @ ..] => {
            let mut table = gaps_table(alloc, rest)?;
            put(
                alloc,
                &mut table,
                text_of_name(&resource.name),
                Value::from(resource.gap),
            )?;
            Ok(table)
        }
        [] => Ok(Table::new(alloc)),
    }
}

/// The table of stocks, of the feeders that have one, filled in the same way.
pub(crate) fn stocks_table(
    alloc: Global,
    names: &Names,
    feeders: &[Feeder],
) -> Result<Table, Memory>
    requires known { list_all (λ f. nat_lt f.loc.0 (length names.now)) feeders.now ≡ true }
    requires rise { do_names_rise (feeder_names names.now feeders.now) ≡ true }
    ensures { IfOk result (λ table. table_view table ≡ stock_members names.now feeders.now) }
{
    match feeders {
        [feeder, rest @ ..] => {
            let mut table = stocks_table(alloc, names, rest)?;
            let location = names.get(feeder.loc.0);
            put_amount(alloc, &mut table, text_of_name(&location), feeder.stock)?;
            Ok(table)
        }
        [] => Ok(Table::new(alloc)),
    }
}

fn anchor_text(anchor: Anchor) -> &'static str
    ensures { result.now ≡ anchor_text anchor }
{
    match anchor {
        Anchor::Start => "start",
        Anchor::End => "end",
    }
}

fn point_value(alloc: Global, anchor: Anchor, offset: i32) -> Result<Value, Memory>
    ensures { IfOk result (λ value. view value ≡ point_data anchor offset) }
{
    let mut array = Array::new(alloc);
    array.push(Value::string(alloc, anchor_text(anchor))?)?;
    array.push(Value::from(offset))?;
    Ok(Value::from(array))
}

fn begin_value(alloc: Global, hold: &HoldRule) -> Result<Value, Memory>
    ensures { IfOk result (λ value. view value ≡ point_data hold.now.begin hold.now.begin_off) }
{
    point_value(alloc, hold.begin, hold.begin_off)
}

fn end_value(alloc: Global, hold: &HoldRule) -> Result<Value, Memory>
    ensures { IfOk result (λ value. view value ≡ point_data hold.now.end hold.now.end_off) }
{
    point_value(alloc, hold.end, hold.end_off)
}

fn mode_value(hold: &HoldRule) -> Value
    ensures { view result ≡ integer (pos hold.now.mode) }
{
    Value::from(u32::from(hold.mode))
}

pub(crate) fn hold_value(
    alloc: Global,
    resources: &[Resource],
    hold: &HoldRule,
) -> Result<Value, Memory>
    requires { hold.now.resource.0 < length resources.now }
    ensures { IfOk result (λ value. view value
        ≡ hold_data (resource_names resources.now) hold.now) }
{
    let mut table = Table::new(alloc);
    let begin = begin_value(alloc, hold)?;
    put(alloc, &mut table, "begin", begin)?;
    let end = end_value(alloc, hold)?;
    put(alloc, &mut table, "end", end)?;
    put(alloc, &mut table, "mode", mode_value(hold))?;
    let held = &resources[usize::from(hold.resource.0)];
    let resource = name_value(alloc, &held.name)?;
    put(alloc, &mut table, "resource", resource)?;
    Ok(Value::from(table))
}

pub(crate) fn kinds_value(alloc: Global, mono: bool, colour: bool) -> Result<Value, Memory>
    ensures { IfOk result (λ value. view value ≡ texts_data (kind_words mono colour)) }
{
    let mut array = Array::new(alloc);
    if mono {
        array.push(Value::string(alloc, "mono")?)?;
    }
    if colour {
        array.push(Value::string(alloc, "colour")?)?;
    }
    Ok(Value::from(array))
}
