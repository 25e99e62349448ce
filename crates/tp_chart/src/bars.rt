//! The bars of a picture.
ghost use Rattle.std.specs.Prelude.{◌≡◌, ◌<◌, ◌+◌, ◌^◌, [], ◌∷◌, ◌++◌, filter, map, flat_map, OnOk, IfOk, option_map};
ghost use Rattle.tp_chart.specs.Bars.{action_bar, action_named, bars_from, hold_bar, hold_bars_in, holds_named, is_in, row_behind, way_bars};

use crate::action_runs::{Run, runs_of};
use crate::course::Course;
use crate::row::{Row, row_of};
use crate::view::{Scope, has_row};
use std::alloc::Global;
use tp_base::{Memory, Name, Tick};
use tp_machine::{Action, HoldRule, Machine, span};
use tp_schedule::SheetName;

/// A hold, or an action, of a copy: from the tick `begin` up to, and without, `end`. The row is that of the resource, or of
/// the copy among those that have one. A hold has its resource, by its place in the machine's list, and its mode. The action
/// runs from `start` to `stop`.
#[derive(Clone, Copy, Debug, PartialEq, Eq)]
pub struct Bar {
    pub row: usize,
    pub begin: i64,
    pub end: i64,
    pub resource: Option<u16>,
    pub mode: u8,
    pub sheet: SheetName,
    pub act: Name,
    pub start: Tick,
    pub stop: Tick,
    pub released: bool,
    pub is_lost: bool,
}

fn action_bar(row: usize, course: &Course, run: &Run) -> Bar
    ensures { result ≡ action_bar row course.now run.now }
{
    Bar {
        row,
        begin: i64::from(run.start),
        end: i64::from(run.end),
        resource: None,
        mode: 0,
        sheet: *course.sheet(),
        act: run.act,
        start: run.start,
        stop: run.end,
        released: run.number <= course.released(),
        is_lost: course.is_lost(),
    }
}

/// The bar of an action, between the ticks of one of its holds.
fn held(bar: Bar, hold: &HoldRule, ticks: (i64, i64)) -> Bar
    ensures { result ≡ record bar {
      begin = ticks.0;
      end = ticks.1;
      resource = Some hold.now.resource.0;
      mode = hold.now.mode;
    } }
{
    Bar {
        begin: ticks.0,
        end: ticks.1,
        resource: Some(hold.resource.0),
        mode: hold.mode,
        ..bar
    }
}

fn hold_bar(rows: &[Row], course: &Course, run: &Run, hold: &HoldRule) -> Bar
    ensures { result ≡ hold_bar rows.now course.now run.now hold.now }
{
    let row = row_of(rows, usize::from(hold.resource.0));
    let ticks = span(hold, run.start, run.end);
    held(action_bar(row, course, run), hold, ticks)
}

fn action_named<'m>(machine: &'m Machine, name: &Name) -> Option<&'m Action>
    ensures { option_map (λ a. a.now) result ≡ action_named machine.now name.now }
{
    machine
        .actions
        .as_slice()
        .iter()
        .find(|action| action.name == *name)
}

/// The holds of the machine's action of this name; none where it has no such action.
fn holds_named<'m>(machine: &'m Machine, name: &Name) -> &'m [HoldRule]
    ensures { result.now ≡ holds_named machine.now name.now }
{
    match action_named(machine, name) {
        Some(action) => action.holds.as_slice(),
        None => &[],
    }
}

fn is_in(first: Option<Tick>, bar: &Bar) -> bool
    ensures { result ≡ is_in first bar.now }
{
    match first {
        Some(first) => i64::from(first) < bar.end,
        None => true,
    }
}

/// Adds a bar, if a part of it is behind the first tick.
fn add_bar(bars: &mut Vec<Bar>, first: Option<Tick>, bar: Bar) -> Result<(), Memory>
    ensures { OnOk result (bars.new.items ≡ bars.old.items ++ filter (is_in first) (bar ∷ [])) }
{
    if is_in(first, &bar) {
        bars.push(bar)?;
    }
    Ok(())
}

fn add_holds(
    bars: &mut Vec<Bar>,
    first: Option<Tick>,
    machine: &Machine,
    rows: &[Row],
    course: &Course,
    run: &Run,
) -> Result<(), Memory>
    ensures { OnOk result (bars.new.items
        ≡ bars.old.items ++ hold_bars_in first machine.now rows.now course.now run.now) }
{
    for hold in holds_named(machine, &run.act) {
        add_bar(bars, first, hold_bar(rows, course, run, hold))?;
    }
    Ok(())
}

fn add_hold_bars(
    bars: &mut Vec<Bar>,
    first: Option<Tick>,
    machine: &Machine,
    rows: &[Row],
    course: &Course,
    runs: &[Run],
) -> Result<(), Memory>
    ensures { OnOk result (bars.new.items ≡ bars.old.items
        ++ flat_map (hold_bars_in first machine.now rows.now course.now) runs.now) }
{
    for run in runs {
        add_holds(bars, first, machine, rows, course, run)?;
    }
    Ok(())
}

fn add_action_bars(
    bars: &mut Vec<Bar>,
    first: Option<Tick>,
    row: usize,
    course: &Course,
    runs: &[Run],
) -> Result<(), Memory>
    ensures { OnOk result (bars.new.items
        ≡ bars.old.items ++ filter (is_in first) (map (action_bar row course.now) runs.now)) }
{
    for run in runs {
        add_bar(bars, first, action_bar(row, course, run))?;
    }
    Ok(())
}

fn add_bars(
    bars: &mut Vec<Bar>,
    scope: &Scope,
    machine: &Machine,
    rows: &[Row],
    row: usize,
    course: &Course,
) -> Result<(), Memory>
    ensures { OnOk result (bars.new.items
        ≡ bars.old.items ++ way_bars scope.now machine.now rows.now row course.now) }
{
    let runs = runs_of(*bars.allocator(), course)?;
    if scope.by_copies {
        add_action_bars(bars, scope.first, row, course, &runs)
    } else {
        add_hold_bars(bars, scope.first, machine, rows, course, &runs)
    }
}

fn row_behind(first: Option<Tick>, row: usize, course: &Course) -> usize
    requires { row + 1 < 2 ^ 64 }
    ensures { result ≡ row_behind first row course.now }
{
    if has_row(first, course) { row + 1 } else { row }
}

/// The bars of the courses in turn, as far as they are in the scope: of their actions, a row for each copy, or else of their
/// holds, on these rows. The holds of an action are those that the machine gives the action of its name.
pub fn bars_of(
    alloc: Global,
    scope: &Scope,
    machine: &Machine,
    rows: &[Row],
    courses: &[Course],
) -> Result<Vec<Bar>, Memory>
    ensures { IfOk result (λ bars. bars.items
        ≡ bars_from scope.now machine.now rows.now 0 courses.now) }
{
    let mut bars = Vec::new(alloc);
    let mut row: usize = 0;
    let mut rest = courses;
    'courses: while let [course, later @ ..] = rest {
        add_bars(&mut bars, scope, machine, rows, row, course)?;
        row = row_behind(scope.first, row, course);
        rest = later;
    }
    Ok(bars)
}
