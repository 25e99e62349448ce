//! The table of a machine.
ghost use Rattle.std.specs.Prelude.{◌≡◌, ◌<◌, ◌≤◌, true, IfOk, OnOk, length, map, codes, pos};
ghost use Rattle.std.specs.List.{list_all};
ghost use Rattle.toml.specs.Data.{string, integer, boolean, array, table as table_data};
ghost use Rattle.toml.specs.View.{table_view, view, items_of};
ghost use Rattle.tp_machine_text.specs.Printed.{put_member, name_at, texts_data, loc_names, feeder_members, resource_members, gap_members, stock_members, resource_names, is_of_resource, is_known, hold_data, kind_words, action_data, table_of};

use crate::table_parts::{
    feeders_table, gaps_table, hold_value, kinds_value, locs_value, name_value, names_value, put,
    resources_table, stocks_table,
};
use std::alloc::Global;
use toml::value::Array;
use toml::{Table, Value};
use tp_base::Memory;
use tp_machine::{Action, HoldRule, Machine, Names, Resource};

#[tactic(auto, unfolding(crate::specs::Printed::is_of_resource))]
fn holds_value(alloc: Global, resources: &[Resource], holds: &[HoldRule]) -> Result<Value, Memory>
    requires { list_all (is_of_resource (length resources.now)) holds.now ≡ true }
    ensures { IfOk result (λ value. view value
        ≡ array (items_of (map (hold_data (resource_names resources.now)) holds.now))) }
{
    let mut array = Array::new(alloc);
    let mut rest = holds;
    'holds: while let [hold, others @ ..] = rest {
        array.push(hold_value(alloc, resources, hold)?)?;
        rest = others;
    }
    Ok(Value::from(array))
}

/// Puts what an action does.
#[tactic(auto, using(crate::proofs::Built::built))]
fn put_way(
    alloc: Global,
    table: &mut Table,
    locations: &Names,
    modules: &Names,
    action: &Action,
) -> Result<(), Memory>
    requires from { action.now.from.0 < length locations.now }
    requires to { action.now.to.0 < length locations.now }
    requires of_module { action.now.module.0 < length modules.now }
    ensures { OnOk result (table_view table.new ≡
        put_member (codes "to") (string (name_at locations.now action.now.to.0))
        (put_member (codes "from") (string (name_at locations.now action.now.from.0))
        (put_member (codes "module") (string (name_at modules.now action.now.module.0))
        (put_member (codes "name") (string action.now.name) (table_view table.old))))) }
{
    let name = name_value(alloc, &action.name)?;
    put(alloc, table, "name", name)?;
    let module = name_value(alloc, &modules.get(u16::from(action.module.0)))?;
    put(alloc, table, "module", module)?;
    let from = name_value(alloc, &locations.get(action.from.0))?;
    put(alloc, table, "from", from)?;
    let to = name_value(alloc, &locations.get(action.to.0))?;
    put(alloc, table, "to", to)
}

/// Puts how long an action lasts, and what it does to the sheet.
fn put_work(alloc: Global, table: &mut Table, action: &Action) -> Result<(), Memory>
    ensures { OnOk result (table_view table.new ≡
        put_member (codes "flip") (boolean action.now.flip)
        (put_member (codes "prints") (texts_data (kind_words action.now.mono action.now.colour))
        (put_member (codes "most") (integer (pos action.now.most))
        (put_member (codes "least") (integer (pos action.now.least)) (table_view table.old))))) }
{
    put(alloc, table, "least", Value::from(action.least))?;
    put(alloc, table, "most", Value::from(action.most))?;
    let prints = kinds_value(alloc, action.mono, action.colour)?;
    put(alloc, table, "prints", prints)?;
    put(alloc, table, "flip", Value::from(action.flip))
}

fn action_value(
    alloc: Global,
    locations: &Names,
    modules: &Names,
    resources: &[Resource],
    action: &Action,
) -> Result<Value, Memory>
    requires { is_known (length locations.now) (length modules.now) (length resources.now)
        action.now ≡ true }
    ensures { IfOk result (λ value. view value
        ≡ action_data locations.now modules.now (resource_names resources.now) action.now) }
{
    let mut table = Table::new(alloc);
    put_way(alloc, &mut table, locations, modules, action)?;
    put_work(alloc, &mut table, action)?;
    let holds = holds_value(alloc, resources, action.holds.as_slice())?;
    put(alloc, &mut table, "holds", holds)?;
    Ok(Value::from(table))
}

fn actions_value(
    alloc: Global,
    locations: &Names,
    modules: &Names,
    resources: &[Resource],
    actions: &[Action],
) -> Result<Value, Memory>
    requires { list_all (is_known (length locations.now) (length modules.now)
        (length resources.now)) actions.now ≡ true }
    ensures { IfOk result (λ value. view value
        ≡ array (items_of (map (action_data locations.now modules.now
        (resource_names resources.now)) actions.now))) }
{
    let mut array = Array::new(alloc);
    let mut rest = actions;
    'actions: while let [action, others @ ..] = rest {
        array.push(action_value(alloc, locations, modules, resources, action)?)?;
        rest = others;
    }
    Ok(Value::from(array))
}

/// Puts the format and the three numbers.
fn put_numbers(alloc: Global, table: &mut Table, machine: &Machine) -> Result<(), Memory>
    ensures { OnOk result (table_view table.new ≡
        put_member (codes "budget") (integer (pos machine.now.budget))
        (put_member (codes "window") (integer (pos machine.now.window))
        (put_member (codes "lead") (integer (pos machine.now.lead))
        (put_member (codes "format") (integer (pos 2)) (table_view table.old))))) }
{
    put(alloc, table, "format", Value::from(2u32))?;
    put(alloc, table, "lead", Value::from(machine.lead))?;
    put(alloc, table, "window", Value::from(machine.window))?;
    put(alloc, table, "budget", Value::from(machine.budget))
}

/// Puts the locations, the modules and the trays.
fn put_locations(alloc: Global, table: &mut Table, machine: &Machine) -> Result<(), Memory>
    ensures { OnOk result (table_view table.new ≡
        put_member (codes "purge") (texts_data (loc_names machine.now.locations machine.now.purges))
        (put_member (codes "trays") (texts_data (loc_names machine.now.locations machine.now.trays))
        (put_member (codes "modules") (texts_data machine.now.modules)
        (put_member (codes "locations") (texts_data machine.now.locations)
        (table_view table.old))))) }
{
    let locations = names_value(alloc, &machine.locations)?;
    put(alloc, table, "locations", locations)?;
    let modules = names_value(alloc, &machine.modules)?;
    put(alloc, table, "modules", modules)?;
    let trays = locs_value(alloc, &machine.locations, machine.trays.as_slice())?;
    put(alloc, table, "trays", trays)?;
    let purges = locs_value(alloc, &machine.locations, machine.purges.as_slice())?;
    put(alloc, table, "purge", purges)
}

/// Puts the feeders, the resources and the actions.
fn put_parts(alloc: Global, table: &mut Table, machine: &Machine) -> Result<(), Memory>
    ensures { OnOk result (table_view table.new ≡
        put_member (codes "actions") (array
        (items_of (map (action_data machine.now.locations machine.now.modules
        (resource_names machine.now.resources)) machine.now.actions)))
        (put_member (codes "resources")
        (table_data (resource_members machine.now.modules machine.now.resources))
        (put_member (codes "feeders") (table_data
        (feeder_members machine.now.locations machine.now.feeders)) (table_view table.old)))) }
{
    let feeders = feeders_table(alloc, &machine.locations, machine.feeders.as_slice())?;
    put(alloc, table, "feeders", Value::from(feeders))?;
    let resources = resources_table(alloc, &machine.modules, machine.resources.as_slice())?;
    put(alloc, table, "resources", Value::from(resources))?;
    let actions = actions_value(
        alloc,
        &machine.locations,
        &machine.modules,
        machine.resources.as_slice(),
        machine.actions.as_slice(),
    )?;
    put(alloc, table, "actions", actions)
}

/// Puts the gaps and the stocks.
fn put_amounts(alloc: Global, table: &mut Table, machine: &Machine) -> Result<(), Memory>
    ensures { OnOk result (table_view table.new ≡
        put_member (codes "stock") (table_data
        (stock_members machine.now.locations machine.now.feeders))
        (put_member (codes "gaps") (table_data (gap_members machine.now.resources))
        (table_view table.old))) }
{
    let gaps = gaps_table(alloc, machine.resources.as_slice())?;
    put(alloc, table, "gaps", Value::from(gaps))?;
    let stocks = stocks_table(alloc, &machine.locations, machine.feeders.as_slice())?;
    put(alloc, table, "stock", Value::from(stocks))
}

/// The table of a machine.
pub(crate) fn table_of(alloc: Global, machine: &Machine) -> Result<Table, Memory>
    ensures { IfOk result (λ table. table_view table ≡ table_of machine.now) }
{
    let mut table = Table::new(alloc);
    put_numbers(alloc, &mut table, machine)?;
    put_locations(alloc, &mut table, machine)?;
    put_parts(alloc, &mut table, machine)?;
    put_amounts(alloc, &mut table, machine)?;
    Ok(table)
}
