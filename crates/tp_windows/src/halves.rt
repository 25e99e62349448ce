//! A look at a half of windows that waits: whether it is closed, and where to split it if it isn't.
ghost use Rattle.std.specs.Prelude.{◌≡◌, ℕ, ◌-◌, ◌<◌, ◌≤◌, List, false, All, IfSome, IsTrue, length, map, option_map, slice_index};
ghost use Rattle.tp_base.specs.Net.{Keeps, Net};
ghost use Rattle.tp_schedule.specs.PlannerAnswers.{IsKnownGoal};
ghost use Rattle.tp_schedule.specs.declared.parts.Plan.{Plan};
ghost use Rattle.tp_constraints.specs.Numbers.{table_of};
ghost use Rattle.tp_windows.specs.Arrays.{IsBetween, windows_by};
ghost use Rattle.tp_windows.specs.KeptRows.{HaveOrders};
ghost use Rattle.tp_windows.specs.Links.{edges_of};
ghost use Rattle.tp_windows.specs.Sides.{AreWide, IsFit, IsOnSide};
ghost use Rattle.tp_windows.specs.Roots.{IsRoot, IsRootBy};
ghost use Rattle.tp_windows.specs.Walks.{IsSeen, IsSeenIn, IsSooner, IsVerdict, IsWayIn, halves_of};

use crate::conflicts::{Half, Judged, Trial, judge};
use crate::kept_rows::{KeptRows, time_at};
use crate::ranges::{Ranges, Side, copy_ranges, copy_times, keep_side, keep_sides, line_side};
use crate::root::Root;
use crate::sought::Sought;
use crate::times::Spread;
use crate::way::{Labels, Way};
use tp_base::{PointId, Tick};
use tp_machine::Machine;
use tp_schedule::Ask;

/// Where a walk is: the sides of splits that lead to the half that is looked at, with the ranges and rows there, and how many ticks
/// before the best way known the first way may end.
#[derive(Drop)]
pub(crate) struct Node {
    pub(crate) path: Vec<Side>,
    pub(crate) ranges: Ranges,
    pub(crate) rows: KeptRows,
    pub(crate) labels: Labels,
    pub(crate) trial: Trial,
    pub(crate) far: Tick,
}

/// What a look at a half found: nothing ends there before the limit, or a way that fits ends at a tick, or it is to be split.
#[derive(Clone, Copy)]
pub(crate) enum Looked {
    Closed,
    Found(Tick),
    Split(Side),
    GaveUp,
}

/// The time of a line's end.
fn line_time(times: &[Tick], end: Option<PointId>) -> Option<Tick>
    ensures { result ≡ option_map (λ p. slice_index times.now p.0) end }
{
    match end {
        Some(point) => Some(time_at(times, point)),
        None => None,
    }
}

/// Keeps the times on these sides of splits and of the line's end. Answers false where there are none.
fn narrow(
    ranges: &mut Ranges,
    root: &Root,
    spread: &mut Spread,
    path: &[Side],
    line: Option<Side>,
) -> bool
    requires fit { IsFit ranges.old root.now.edges }
    ensures wide { AreWide (length ranges.old.lows.items) ranges.new }
    ensures kept { (y : ℕ → ℕ) → All (Keeps y) (edges_of root.now.edges.from.links.items)
        → IsBetween y ranges.old.lows.items ranges.old.highs.items → IfSome line (IsOnSide y)
        → All (IsOnSide y) path.now
        → IsTrue result × IsBetween y ranges.new.lows.items ranges.new.highs.items }
{
    if let Some(side) = line {
        if !keep_side(ranges, &root.edges, spread, side) {
            return false;
        }
    }
    keep_sides(ranges, &root.edges, spread, path)
}

/// Takes a step for each four points that were looked at. Their numbers are what was left before and after.
pub(crate) fn charge(steps: &mut u32, before: u32, after: u32)
    ensures { steps.new ≤ steps.old }
{
    *steps = steps.saturating_sub(before.saturating_sub(after) / 4);
}

/// What is known of a half with a way that ends at the tick.
fn verdict(judged: Judged, from: Tick, end: Tick) -> Looked
    ensures sooner { IsSooner end result }
    ensures from { IsVerdict from result }
{
    match judged {
        Judged::Fits => {
            if from > 0 && from < end {
                Looked::Found(from)
            } else {
                Looked::GaveUp
            }
        }
        Judged::Split(side) => Looked::Split(side),
        Judged::Unknown => Looked::GaveUp,
    }
}

/// Tries the way to a label.
fn try_way(root: &Root, node: &mut Node, machine: &Machine, label: u32) -> Judged
    requires fit { IsFit node.old.ranges root.now.edges }
    ensures path { node.new.path ≡ node.old.path }
    ensures rows { node.new.rows ≡ node.old.rows }
{
    if !node.labels.trace(label, &mut node.trial.way) {
        return Judged::Unknown;
    }
    let half = Half {
        machine,
        root,
        ranges: &node.ranges,
        rows: &node.rows,
    };
    judge(half, &mut node.trial)
}

/// Seeks a way in the ranges of a half that ends by the limit.
fn find_way(
    root: &Root,
    node: &mut Node,
    machine: &Machine,
    ask: &Ask,
    limit: Tick,
    steps: &mut u32,
) -> Way
    ensures path { node.new.path ≡ node.old.path }
    ensures ranges { node.new.ranges ≡ node.old.ranges }
    ensures orders { (plans : List Plan) → HaveOrders machine.now plans node.old.rows.rows
        → HaveOrders machine.now plans node.new.rows.rows }
    ensures steps { steps.new ≤ steps.old }
    ensures way { (plans : List Plan) (net : Net) → IsKnownGoal machine.now ask.entry.now.goal
        → IsRoot machine.now plans ask.entry.now net root.now
        → HaveOrders machine.now plans node.old.rows.rows
        → IsWayIn machine.now plans ask.entry.now (windows_by (table_of plans)
        node.old.ranges.lows.items node.old.ranges.highs.items) limit result }
{
    node.rows.write(&node.ranges);
    let after = line_time(&node.ranges.lows, root.ahead);
    let before = line_time(&node.ranges.highs, root.behind);
    let sought = Sought {
        machine,
        ask,
        rests: &root.rests,
        starts: &root.starts,
        rows: &node.rows,
        after,
        before,
        limit,
    };
    node.labels.way(sought, steps)
}

/// So many steps are left where the first way of all ends far before the best one known.
const FAR_STEPS: u32 = 10_000;

/// Whether the first way of all ends so long before `end` that many halves are likely to wait.
fn is_far(node: &Node, from: Tick, end: Tick) -> bool {
    node.path.is_empty() && end.saturating_sub(from) > node.far
}

/// Leaves few steps where many halves are likely to wait.
fn leave_few(steps: &mut u32, is_far: bool)
    ensures { steps.new ≤ steps.old }
{
    if is_far {
        *steps = (*steps).min(FAR_STEPS);
    }
}

/// Seeks a way in the ranges of a half that ends before `end`.
fn seek(
    root: &Root,
    node: &mut Node,
    machine: &Machine,
    ask: &Ask,
    end: Tick,
    steps: &mut u32,
) -> Looked
    requires fit { IsFit node.old.ranges root.now.edges }
    requires some { 0 < end }
    ensures path { node.new.path ≡ node.old.path }
    ensures orders { (plans : List Plan) → HaveOrders machine.now plans node.old.rows.rows
        → HaveOrders machine.now plans node.new.rows.rows }
    ensures steps { steps.new ≤ steps.old }
    ensures sooner { IsSooner end result }
    ensures seen { (plans : List Plan) (net : Net) → IsKnownGoal machine.now ask.entry.now.goal
        → IsRoot machine.now plans ask.entry.now net root.now
        → HaveOrders machine.now plans node.old.rows.rows
        → IsSeenIn machine.now plans ask.entry.now (windows_by (table_of plans)
        node.old.ranges.lows.items node.old.ranges.highs.items) end result }
{
    match find_way(root, node, machine, ask, end - 1, steps) {
        Way::Never => Looked::Closed,
        Way::GaveUp => Looked::GaveUp,
        Way::Found { label, end: from } => {
            leave_few(steps, is_far(node, from, end));
            let left = node.trial.spread.left;
            let judged = try_way(root, node, machine, label);
            charge(steps, left, node.trial.spread.left);
            verdict(judged, from, end)
        }
    }
}

/// The end of a way that fits, where it comes sooner than another.
fn sooner_end(judged: Judged, from: Tick, end: Tick) -> Tick
    requires { 0 < end }
    ensures { 0 < result }
{
    match judged {
        Judged::Fits => { if from > 0 && from < end { from } else { end } }
        _ => end,
    }
}

/// Seeks a way that moves no kept plan, to begin with as the best one. Answers its end, or the one given where none ends before that.
pub(crate) fn seek_still(
    root: &Root,
    node: &mut Node,
    machine: &Machine,
    ask: &Ask,
    end: Tick,
    steps: &mut u32,
) -> Tick
    requires fit { IsFit root.now.ranges root.now.edges }
    requires some { 0 < end }
    ensures some { 0 < result }
    ensures orders { (plans : List Plan) → HaveOrders machine.now plans node.old.rows.rows
        → HaveOrders machine.now plans node.new.rows.rows }
    ensures steps { steps.new ≤ steps.old }
{
    if !copy_times(&root.ranges.lows, &mut node.ranges.lows) {
        return end;
    }
    if !copy_times(&root.ranges.lows, &mut node.ranges.highs) {
        return end;
    }
    match find_way(root, node, machine, ask, end - 1, steps) {
        Way::Found { label, end: from } => {
            let judged = try_way(root, node, machine, label);
            sooner_end(judged, from, end)
        }
        _ => end,
    }
}

/// Looks at the half to which the path leads: whether a way there ends before `end`.
pub(crate) fn look(
    root: &Root,
    node: &mut Node,
    machine: &Machine,
    ask: &Ask,
    end: Tick,
    steps: &mut u32,
) -> Looked
    requires fit { IsFit root.now.ranges root.now.edges }
    requires some { 0 < end }
    ensures path { node.new.path ≡ node.old.path }
    ensures orders { (plans : List Plan) → HaveOrders machine.now plans node.old.rows.rows
        → HaveOrders machine.now plans node.new.rows.rows }
    ensures steps { steps.new ≤ steps.old }
    ensures sooner { IsSooner end result }
    ensures seen { (plans : List Plan) (net : Net) (limit : ℕ) → end - 1 ≤ limit
        → IsKnownGoal machine.now ask.entry.now.goal
        → IsRootBy machine.now plans ask.entry.now net limit root.now
        → HaveOrders machine.now plans node.old.rows.rows
        → IsSeen machine.now plans ask.entry.now
        (halves_of (table_of plans) node.old.path.items) end result }
{
    if !copy_ranges(&root.ranges, &mut node.ranges) {
        return Looked::GaveUp;
    }
    let left = node.trial.spread.left;
    let line = line_side(root.ahead, end - 1);
    if !narrow(
        &mut node.ranges,
        root,
        &mut node.trial.spread,
        &node.path,
        line,
    ) {
        return Looked::Closed;
    }
    charge(steps, left, node.trial.spread.left);
    seek(root, node, machine, ask, end, steps)
}
