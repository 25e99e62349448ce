//! The machine of a table that keeps the rules.
ghost use Rattle.std.specs.Prelude.{IsTrue, IfOk, ◌≡◌, map, codes};
ghost use Rattle.toml.specs.View.{table_view};
ghost use Rattle.tp_machine.specs.Rules.{do_names_rise};
ghost use Rattle.tp_machine_text.specs.Words.{members_at};
ghost use Rattle.tp_machine_text.specs.Keys as text;
ghost use Rattle.tp_machine_text.specs.Kept.{KeepsRules};
ghost use Rattle.tp_machine_text.specs.TheMachine.{IsMachineOf, loc_of, feeders_of, resources_of, action_of};

use crate::action_values::actions_of;
use crate::lookup::{table_in, value_at, values_at};
use crate::supply_values::{feeders_of, resources_of};
use crate::table_values::{locs_of, names_of, number_at};
use std::alloc::Global;
use toml::Table;
use tp_base::{Items, Memory};
use tp_machine::{Action, Feeder, LocId, Machine, Names, Resource};

/// The machine of a table that keeps the rules.
pub(crate) fn machine_of(alloc: Global, table: &Table) -> Result<Machine, Memory>
    requires { KeepsRules (table_view table.now) }
    ensures { IfOk result (IsMachineOf (table_view table.now)) }
{
    let works = work_lists_of(alloc, table)?;
    let names = name_lists_of(alloc, table)?;
    let WorkLists {
        feeders,
        resources,
        actions,
    } = works;
    let NameLists {
        trays,
        purges,
        locations,
        modules,
    } = names;
    Ok(Machine {
        lead: number_at(table, "lead", 0),
        window: number_at(table, "window", 2000),
        budget: number_at(table, "budget", 20_000),
        locations,
        modules,
        trays,
        purges,
        feeders,
        resources,
        actions,
    })
}

/// The locations and modules of a machine, and the trays among its locations.
#[derive(Drop)]
struct NameLists {
    trays: Items<LocId>,
    purges: Items<LocId>,
    locations: Names,
    modules: Names,
}

fn name_lists_of(alloc: Global, table: &Table) -> Result<NameLists, Memory>
    requires { KeepsRules (table_view table.now) }
    ensures trays { IfOk result (λ g. g.trays
        ≡ map (loc_of (text.locations (table_view table.now)))
        (text.trays (table_view table.now))) }
    ensures purges { IfOk result (λ g. g.purges
        ≡ map (loc_of (text.locations (table_view table.now)))
        (text.purges (table_view table.now))) }
    ensures locations { IfOk result (λ g. g.locations ≡ text.locations (table_view table.now)) }
    ensures modules { IfOk result (λ g. g.modules ≡ text.modules (table_view table.now)) }
{
    let trays = trays(alloc, table)?;
    let purges = purges(alloc, table)?;
    // For the prover: names come last, since each exit after them proves their drop again.
    let locations = locations(alloc, table)?;
    let modules = modules(alloc, table)?;
    Ok(NameLists {
        trays,
        purges,
        locations,
        modules,
    })
}

/// The feeders, the resources and the actions of a machine.
#[derive(Drop)]
struct WorkLists {
    feeders: Items<Feeder>,
    resources: Items<Resource>,
    actions: Items<Action>,
}

fn work_lists_of(alloc: Global, table: &Table) -> Result<WorkLists, Memory>
    requires { KeepsRules (table_view table.now) }
    ensures feeders { IfOk result (λ m. m.feeders
        ≡ feeders_of (text.locations (table_view table.now))
        (text.stocks (table_view table.now))
        (members_at (codes "feeders") (table_view table.now))) }
    ensures feeders_rise { IfOk result (λ _. IsTrue
        (do_names_rise (text.feeders (table_view table.now)))) }
    ensures resources { IfOk result
        (λ m. m.resources ≡ resources_of (text.modules (table_view table.now))
        (text.gaps (table_view table.now))
        (members_at (codes "resources") (table_view table.now))) }
    ensures resources_rise { IfOk result (λ _.
        IsTrue (do_names_rise (text.resources (table_view table.now)))) }
    ensures actions { IfOk result (λ m. m.actions
        ≡ map (action_of (text.locations (table_view table.now))
        (text.modules (table_view table.now)) (text.resources (table_view table.now)))
        (text.actions (table_view table.now))) }
{
    let feeders = feeders(alloc, table)?;
    let resources = resources(alloc, table)?;
    let actions = actions(alloc, table)?;
    Ok(WorkLists {
        feeders,
        resources,
        actions,
    })
}

fn locations(alloc: Global, table: &Table) -> Result<Names, Memory>
    requires { KeepsRules (table_view table.now) }
    ensures { IfOk result (λ names. names ≡ text.locations (table_view table.now)) }
{
    names_of(alloc, values_at(table, "locations"))
}

fn modules(alloc: Global, table: &Table) -> Result<Names, Memory>
    requires { KeepsRules (table_view table.now) }
    ensures { IfOk result (λ names. names ≡ text.modules (table_view table.now)) }
{
    names_of(alloc, values_at(table, "modules"))
}

fn trays(alloc: Global, table: &Table) -> Result<Items<LocId>, Memory>
    requires { KeepsRules (table_view table.now) }
    ensures { IfOk result (λ locs. locs
        ≡ map (loc_of (text.locations (table_view table.now)))
        (text.trays (table_view table.now))) }
{
    locs_of(
        alloc,
        values_at(table, "locations"),
        values_at(table, "trays"),
    )
}

fn purges(alloc: Global, table: &Table) -> Result<Items<LocId>, Memory>
    requires { KeepsRules (table_view table.now) }
    ensures { IfOk result (λ locs. locs
        ≡ map (loc_of (text.locations (table_view table.now)))
        (text.purges (table_view table.now))) }
{
    locs_of(
        alloc,
        values_at(table, "locations"),
        values_at(table, "purge"),
    )
}

fn feeders(alloc: Global, table: &Table) -> Result<Items<Feeder>, Memory>
    requires { KeepsRules (table_view table.now) }
    ensures feeders { IfOk result (λ feeders. feeders
        ≡ feeders_of (text.locations (table_view table.now))
        (text.stocks (table_view table.now))
        (members_at (codes "feeders") (table_view table.now))) }
    ensures rise { IfOk result (λ _. IsTrue
        (do_names_rise (text.feeders (table_view table.now)))) }
{
    match table_in(value_at(table, "feeders")) {
        Some(feeders) => {
            let stocks = table_in(value_at(table, "stock"));
            feeders_of(alloc, values_at(table, "locations"), stocks, feeders)
        }
        None => Ok(Items::new(alloc)),
    }
}

fn resources(alloc: Global, table: &Table) -> Result<Items<Resource>, Memory>
    requires { KeepsRules (table_view table.now) }
    ensures resources { IfOk result
        (λ resources. resources ≡ resources_of (text.modules (table_view table.now))
        (text.gaps (table_view table.now))
        (members_at (codes "resources") (table_view table.now))) }
    ensures rise { IfOk result (λ _.
        IsTrue (do_names_rise (text.resources (table_view table.now)))) }
{
    match table_in(value_at(table, "resources")) {
        Some(resources) => {
            let gaps = table_in(value_at(table, "gaps"));
            resources_of(alloc, values_at(table, "modules"), gaps, resources)
        }
        None => Ok(Items::new(alloc)),
    }
}

fn actions(alloc: Global, table: &Table) -> Result<Items<Action>, Memory>
    requires { KeepsRules (table_view table.now) }
    ensures { IfOk result (λ actions. actions
        ≡ map (action_of (text.locations (table_view table.now))
        (text.modules (table_view table.now)) (text.resources (table_view table.now)))
        (text.actions (table_view table.now))) }
{
    actions_of(
        alloc,
        values_at(table, "locations"),
        values_at(table, "modules"),
        table_in(value_at(table, "resources")),
        values_at(table, "actions"),
    )
}
