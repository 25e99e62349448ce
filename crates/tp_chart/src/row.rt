//! The rows of a picture by resources.
ghost use Rattle.std.specs.Prelude.{◌≡◌, ◌++◌, length, position, OnOk, IfOk};
ghost use Rattle.std.specs.List.{list_any};
ghost use Rattle.tp_chart.specs.Rows.{has_resource, is_seen, module_rows, module_rows_below, is_of_resource, resources_from, row_of, rows_of, tray_rows, was_out};

use crate::out_span::OutSpan;
use std::alloc::Global;
use tp_base::{Memory, Tick};
use tp_machine::{LocId, Machine, Resource};

/// What a row shows: a resource, or a module without one, by its place in the machine's list; or a tray or purge tray.
#[derive(Clone, Copy, Debug, PartialEq, Eq)]
pub enum Row {
    Resource(usize),
    Module(usize),
    Tray(LocId),
    Purge(LocId),
}

/// Whether the outage lasts behind the first tick.
fn is_seen(first: Option<Tick>, outage: &OutSpan) -> bool
    ensures { result ≡ is_seen first outage.now }
{
    match (first, outage.end) {
        (Some(first), Some(end)) => first < end,
        _ => true,
    }
}

fn was_out(first: Option<Tick>, outages: &[OutSpan], number: usize) -> bool
    ensures { result ≡ was_out first outages.now number }
{
    outages.iter().any(|outage| usize::from(outage.number) == number && is_seen(first, outage))
}

fn has_resource(resources: &[Resource], number: usize) -> bool
    ensures { result ≡ has_resource resources.now number }
{
    resources
        .iter()
        .any(|resource| usize::from(resource.module.0) == number)
}

fn add_resources(rows: &mut Vec<Row>, number: usize, resources: &[Resource]) -> Result<(), Memory>
    ensures { OnOk result (rows.new.items
        ≡ rows.old.items ++ resources_from 0 number resources.now) }
{
    let mut at: usize = 0;
    let mut rest = resources;
    'resources: while let [resource, later @ ..] = rest {
        if usize::from(resource.module.0) == number {
            rows.push(Row::Resource(at))?;
        }
        at += 1;
        rest = later;
    }
    Ok(())
}

fn add_module(
    rows: &mut Vec<Row>,
    first: Option<Tick>,
    machine: &Machine,
    outages: &[OutSpan],
    number: usize,
) -> Result<(), Memory>
    ensures { OnOk result (rows.new.items
        ≡ rows.old.items ++ module_rows first machine.now outages.now number) }
{
    let resources = machine.resources.as_slice();
    if has_resource(resources, number) {
        return add_resources(rows, number, resources);
    }
    if was_out(first, outages, number) {
        rows.push(Row::Module(number))?;
    }
    Ok(())
}

fn add_modules(
    rows: &mut Vec<Row>,
    first: Option<Tick>,
    machine: &Machine,
    outages: &[OutSpan],
) -> Result<(), Memory>
    ensures { OnOk result (rows.new.items ≡ rows.old.items
        ++ module_rows_below first machine.now outages.now (length machine.now.modules)) }
{
    'modules: for number in 0..machine.modules.len() as usize {
        add_module(rows, first, machine, outages, number)?;
    }
    Ok(())
}

fn add_trays(rows: &mut Vec<Row>, machine: &Machine) -> Result<(), Memory>
    ensures { OnOk result (rows.new.items ≡ rows.old.items ++ tray_rows machine.now) }
{
    'trays: for tray in machine.trays.as_slice() {
        rows.push(Row::Tray(*tray))?;
    }
    'purges: for tray in machine.purges.as_slice() {
        rows.push(Row::Purge(*tray))?;
    }
    Ok(())
}

/// The rows of resources, module by module, those of modules without one that were out behind the first tick, and those of
/// trays and purge trays.
pub fn rows_of(
    alloc: Global,
    first: Option<Tick>,
    machine: &Machine,
    outages: &[OutSpan],
) -> Result<Vec<Row>, Memory>
    ensures { IfOk result (λ rows. rows.items ≡ rows_of first machine.now outages.now) }
{
    let mut rows = Vec::new(alloc);
    add_modules(&mut rows, first, machine, outages)?;
    add_trays(&mut rows, machine)?;
    Ok(rows)
}

fn is_of_resource(resource: usize, row: &Row) -> bool
    ensures { result ≡ is_of_resource resource row.now }
{
    match row {
        Row::Resource(at) => *at == resource,
        _ => false,
    }
}

fn place_of(rows: &[Row], resource: usize) -> Option<usize>
    ensures { result ≡ position (is_of_resource resource) rows.now }
{
    rows.iter().position(|row| is_of_resource(resource, row))
}

/// The place of a resource's row.
pub(crate) fn row_of(rows: &[Row], resource: usize) -> usize
    ensures { result ≡ row_of rows.now resource }
{
    match place_of(rows, resource) {
        Some(at) => at,
        None => 0,
    }
}
