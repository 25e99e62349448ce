//! What a walk over halves begins with.
ghost use Rattle.std.specs.Prelude.{◌≡◌, ℕ, ◌-◌, ◌<◌, All, IfSome, IsTrue, List, None, Some, length};
ghost use Rattle.tp_base.specs.Net.{IsSolution, Keeps, Net};
ghost use Rattle.tp_machine.specs.declared.machine.Machine.{Machine as MachineValue};
ghost use Rattle.tp_schedule.specs.declared.parts.Ask.{Ask as AskValue};
ghost use Rattle.tp_schedule.specs.declared.parts.Plan.{Plan};
ghost use Rattle.tp_schedule.specs.PlannerAnswers.{IsKnownGoal};
ghost use Rattle.tp_placing.specs.Boards.{suffix_of};
ghost use Rattle.tp_placing.specs.LoadedBoard.{Stands};
ghost use Rattle.tp_routes.specs.Index.{IsIndexOf};
ghost use Rattle.tp_routes.specs.declared.index.ActEnd.TheVariants.{From};
ghost use Rattle.tp_windows.specs.Arrays.{IsBetween};
ghost use Rattle.tp_windows.specs.Links.{edges_of};
ghost use Rattle.tp_windows.specs.RestTables.{rest_of};
ghost use Rattle.tp_windows.specs.Sides.{AreWide, HaveBoth, IsFit, IsOnSide};
ghost use Rattle.tp_windows.specs.Roots.{IsRootBy};
ghost use Rattle.tp_windows.specs.Ways.{IsRest};

use crate::edge_links::LinkedEdges;
use crate::ranges::{Edges, Ranges, Side, line_side, load_edges, load_ranges};
use crate::rests::Rests;
use crate::times::{Spread, lower_one, note, spread_down};
use std::alloc::{AllocError, Global};
use tp_base::{Network, PointId, Tick};
use tp_machine::Machine;
use tp_placing::Board;
use tp_routes::{ActEnd, ActionIndex, MOST_ACTIONS};
use tp_schedule::Ask;

/// What a walk begins with: the edges of a board's network, the ranges of its points, the rests of states, the actions by where they
/// start, and the ends beside the asked copy in its line.
#[derive(Drop)]
pub(crate) struct Root {
    pub(crate) edges: Edges,
    pub(crate) ranges: Ranges,
    pub(crate) rests: Rests,
    pub(crate) starts: ActionIndex,
    pub(crate) ahead: Option<PointId>,
    pub(crate) behind: Option<PointId>,
}

/// Lowers greatest times by all edges, as far as points may be looked at.
fn close(ranges: &mut Ranges, edges: &Edges, spread: &mut Spread, points: u32)
    requires wide { length ranges.old.highs.items ≡ length ranges.old.lows.items }
    requires edges { HaveBoth (length ranges.old.lows.items)
        (edges_of edges.now.from.links.items) edges.now }
    ensures wide { AreWide (length ranges.old.lows.items) ranges.new }
    ensures kept { (y : ℕ → ℕ) → All (Keeps y) (edges_of edges.now.from.links.items)
        → IsBetween y ranges.old.lows.items ranges.old.highs.items
        → IsBetween y ranges.new.lows.items ranges.new.highs.items }
{
    spread.queue.clear();
    let mut left = points;
    'points: while left > 0 {
        left -= 1;
        note(&mut spread.queue, PointId(left));
    }
    let _ = spread_down(edges.to.links(), &ranges.lows, &mut ranges.highs, spread);
}

/// Lowers the greatest time of a side's point alone to before its tick, where the point may come there.
fn come_before(ranges: &mut Ranges, side: Option<Side>)
    requires wide { length ranges.old.highs.items ≡ length ranges.old.lows.items }
    ensures wide { AreWide (length ranges.old.lows.items) ranges.new }
    ensures kept { (y : ℕ → ℕ) → IsBetween y ranges.old.lows.items ranges.old.highs.items
        → IfSome side (IsOnSide y)
        → IsBetween y ranges.new.lows.items ranges.new.highs.items }
{
    let Some(side) = side else {
        return;
    };
    let at = side.point.0 as usize;
    if side.later || side.tick == 0 || at >= ranges.lows.len() {
        return;
    }
    let last = side.tick - 1;
    if ranges.lows[at] <= last && last < ranges.highs[at] {
        lower_one(&ranges.lows, &mut ranges.highs, side.point, last);
    }
}

/// Reads the ranges of points and the edges between them from a network. Answers false where there is no room.
fn read_net<N: Network>(root: &mut Root, net: &N, points: u32) -> bool
    requires points { points ≡ length (N.reading.net net.now).lows }
    ensures wide { IsTrue result → AreWide points root.new.ranges }
    ensures edges { IsTrue result
        → HaveBoth points (N.reading.net net.now).edges root.new.edges }
    ensures between { IsTrue result → (y : ℕ → ℕ) → IsSolution (N.reading.net net.now) y
        → IsBetween y root.new.ranges.lows.items root.new.ranges.highs.items }
    ensures rests { root.new.rests ≡ root.old.rests }
    ensures starts { root.new.starts ≡ root.old.starts }
    ensures ahead { root.new.ahead ≡ root.old.ahead }
    ensures behind { root.new.behind ≡ root.old.behind }
{
    if !load_edges(&mut root.edges, net, points) {
        return false;
    }
    if !load_ranges(&mut root.ranges, net, points) {
        return false;
    }
    true
}

/// Lowers greatest times to those at which the line may stand where the asked copy ends before the tick, as far as points may be
/// looked at.
pub(crate) fn close_before(root: &mut Root, spread: &mut Spread, points: u32, end: Tick)
    requires fit { IsFit root.old.ranges root.old.edges }
    requires some { 0 < end }
    ensures fit { IsFit root.new.ranges root.new.edges }
    ensures root { (machine : MachineValue) (plans : List Plan) (ask : AskValue) (net : Net)
        → IsRootBy machine plans ask net (end - 1) root.old
        → IsRootBy machine plans ask net (end - 1) root.new }
{
    come_before(&mut root.ranges, line_side(root.ahead, end - 1));
    close(&mut root.ranges, &root.edges, spread, points);
}

/// Finds the rests of states, where the table is for a machine with as many locations. Answers false where it can't.
fn renew_rests(rests: &mut Rests, machine: &Machine, ask: &Ask) -> bool
    requires goal { IsKnownGoal machine.now ask.now.goal }
    ensures { IsTrue result → IsRest machine.now ask.entry.now (rest_of rests.new.rests.items) }
{
    let states = machine.locations.len() as usize * 8;
    if rests.rests.len() != states {
        return false;
    }
    rests.renew(machine, ask)
}

/// Finds the actions by where they start, where the index is for a machine with as many locations. Answers false where it isn't.
fn renew_starts(starts: &mut ActionIndex, machine: &Machine) -> bool
    ensures { IsTrue result → IsIndexOf From machine.now starts.new.firsts.items
        starts.new.nexts.items }
{
    if starts.firsts.len() != machine.locations.len() as usize
        || starts.nexts.len() != MOST_ACTIONS
    {
        return false;
    }
    starts.fill(machine, ActEnd::From);
    true
}

/// Reads a board with no goal open, loaded for the ask. Answers false where there is no room.
pub(crate) fn read_root<N: Network>(
    root: &mut Root,
    board: &Board<N>,
    machine: &Machine,
    ask: &Ask,
) -> bool
    requires stands { Stands N.reading board.now machine.now }
    requires asked { board.now.ask ≡ Some ask.now }
    requires closed { suffix_of board.now ≡ None }
    requires goal { IsKnownGoal machine.now ask.now.goal }
    ensures { IsTrue result → (limit : ℕ)
        → IsRootBy machine.entry.now board.entry.now.plans ask.entry.now
        (N.reading.net board.entry.now.net) limit root.new }
{
    let (ahead, behind) = board.line_ends(ask);
    root.ahead = ahead;
    root.behind = behind;
    if !read_net(root, board.net(), board.points()) {
        return false;
    }
    if !renew_starts(&mut root.starts, machine) {
        return false;
    }
    renew_rests(&mut root.rests, machine, ask)
}
