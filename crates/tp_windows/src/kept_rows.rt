//! The kept holds of each resource in their order, with their times in windows.
ghost use Rattle.std.specs.Prelude.{◌≡◌, ℕ, ◌<◌, ◌≤◌, ◌+ℤ◌, ◌≤ℤ◌, pos, negsuc, All, IsTrue, List, None, Some, length, map, slice_get, slice_index, slice_range};
ghost use Rattle.tp_machine.specs.ModuleUse.{begin_of, end_of, tick_of};
ghost use Rattle.tp_machine.specs.declared.machine.Machine.{Machine};
ghost use Rattle.tp_schedule.specs.Spots.{slot_order};
ghost use Rattle.tp_schedule.specs.declared.parts.Plan.{Plan};
ghost use Rattle.tp_constraints.specs.Numbers.{IsTable, table_of};
ghost use Rattle.tp_constraints.specs.Gaps.{IsPoint};
ghost use Rattle.tp_placing.specs.Boards.{suffix_of};
ghost use Rattle.tp_placing.specs.LoadedBoard.{Stands};
ghost use Rattle.tp_windows.specs.Arrays.{windows_by};
ghost use Rattle.tp_windows.specs.KeptRows.{AddsRow, AreRowsOf, HaveOrders};
ghost use Rattle.tp_windows.specs.RowLists.{AreCut, AreRising, rows_from, start_of, timed};
ghost use Rattle.tp_windows.specs.Rows.{IsNear};

use crate::gaps::KeptHold;
use crate::ranges::Ranges;
use std::alloc::{AllocError, Global};
use std::marker::Model;
use tp_base::{Network, PointId, Tick};
use tp_machine::{Anchor, Machine, ResId, anchored};
use tp_placing::Board;

/// The kept holds of each resource in their order, with their times in the windows of now.
pub struct KeptRows {
    holds: Vec<KeptHold>,
    /// Where the row of each resource ends, and that of the next one begins.
    ends: Vec<usize>,
}

// What becomes of its parts is proved here, once for all who let go of one.
impl Drop for KeptRows {
    fn drop(self) {
        let KeptRows { holds: _, ends: _ } = self;
    }
}

// Clauses see the rows.
impl Model for KeptRows {
    ghost use Rattle.tp_windows.specs.RowLists.{AreCut, KeptRowsValue, rows_from};

    ghost Value = { KeptRowsValue };

    ghost view = { λ k. record { rows = rows_from k.holds.items 0 k.ends.items } };

    ghost invariant = { λ k. AreCut k.holds.items k.ends.items };
}

/// The time of a point, or 0 where the list has no such point.
pub(crate) fn time_at(times: &[Tick], point: PointId) -> Tick
    ensures { result ≡ slice_index times.now point.0 }
{
    if (point.0 as usize) < times.len() {
        times[point.0 as usize]
    } else {
        0
    }
}

/// The tick at so many ticks from an anchor of an action that runs from one tick to another.
fn tick_from(anchor: Anchor, offset: i32, start: Tick, end: Tick) -> i64
    ensures is { result ≡ (pos (tick_of anchor start end) +ℤ offset) }
    ensures low { negsuc 17179869183 ≤ℤ result }
    ensures high { result ≤ℤ pos 17179869184 }
{
    i64::from(anchored(anchor, start, end)) + i64::from(offset)
}

/// The hold with its times by the least and the greatest times of points.
fn timed(hold: KeptHold, ranges: &Ranges) -> KeptHold
    ensures is { result ≡ timed ranges.now.lows.items ranges.now.highs.items hold }
    ensures near { IsNear result }
{
    let rule = hold.rule;
    let start = time_at(&ranges.lows, hold.from);
    let stop = time_at(&ranges.lows, hold.to);
    let last_start = time_at(&ranges.highs, hold.from);
    let last_stop = time_at(&ranges.highs, hold.to);
    KeptHold {
        end: tick_from(rule.end, rule.end_off, start, stop),
        begin: tick_from(rule.begin, rule.begin_off, last_start, last_stop),
        soonest: tick_from(rule.begin, rule.begin_off, start, stop),
        ..hold
    }
}

/// Writes the times of the holds by those of points.
fn write_times(holds: &mut [KeptHold], ranges: &Ranges)
    ensures written { holds.new
        ≡ map (timed ranges.now.lows.items ranges.now.highs.items) holds.old }
    ensures near { All IsNear holds.new }
{
    'holds: for number in 0..holds.len() {
        holds[number] = timed(holds[number], ranges);
    }
}

/// Where a row begins.
fn start_of(ends: &[usize], at: usize) -> usize
    requires { at < length ends.now }
    ensures { result ≡ start_of 0 ends.now at }
{
    if at == 0 { 0 } else { ends[at - 1] }
}

/// The holds from one place up to another.
fn part(holds: &[KeptHold], from: usize, till: usize) -> &[KeptHold]
    requires from { from ≤ till }
    requires till { till ≤ length holds.now }
    ensures { result.now ≡ slice_range holds.now from till }
{
    &holds[from..till]
}

/// The row of this number.
fn cut<'a>(holds: &'a [KeptHold], ends: &[usize], at: usize) -> &'a [KeptHold]
    requires there { at < length ends.now }
    requires rising { AreRising 0 ends.now (length holds.now) }
    ensures row { slice_get (rows_from holds.now 0 ends.now) at ≡ Some result.now }
    ensures near { All IsNear holds.now → All IsNear result.now }
{
    let from = start_of(ends, at);
    let till = ends[at];
    part(holds, from, till)
}

/// Puts the holds of a resource's order behind others. Answers false where there is no room.
fn add_row<N: Network>(
    holds: &mut Vec<KeptHold>,
    board: &Board<N>,
    machine: &Machine,
    resource: ResId,
) -> bool
    requires stands { Stands N.reading board.now machine.now }
    requires closed { suffix_of board.now ≡ None }
    requires known { resource.0 < length machine.now.resources }
    requires near { All IsNear holds.old.items }
    ensures row { IsTrue result → AddsRow (table_of board.entry.now.plans) holds.old.items
        holds.new.items
        (slot_order machine.entry.now board.entry.now.plans resource.0) }
    ensures near { All IsNear holds.new.items }
    ensures more { length holds.old.items ≤ length holds.new.items }
{
    'places: for place in 0..board.places(resource) {
        if holds.len() == holds.capacity() {
            return false;
        }
        let held = board.hold_at(resource, place);
        holds.push_reserved(KeptHold {
            rule: held.rule,
            end: 0,
            begin: 0,
            soonest: 0,
            from: held.start,
            to: held.end,
        });
    }
    true
}

/// Reads the orders of a board with no goal open, in place of what was there. Answers false where there is no room.
fn read_rows<N: Network>(
    holds: &mut Vec<KeptHold>,
    ends: &mut Vec<usize>,
    board: &Board<N>,
    machine: &Machine,
) -> bool
    requires stands { Stands N.reading board.now machine.now }
    requires closed { suffix_of board.now ≡ None }
    ensures rows { IsTrue result → HaveOrders machine.entry.now board.entry.now.plans
        (rows_from holds.new.items 0 ends.new.items) }
    ensures cut { AreCut holds.new.items ends.new.items }
{
    holds.clear();
    ends.clear();
    'resources: for number in 0..machine.resources.len() {
        if ends.len() == ends.capacity() {
            return false;
        }
        if !add_row(holds, board, machine, ResId(number as u16)) {
            return false;
        }
        ends.push_reserved(holds.len());
    }
    true
}

impl KeptRows {
    /// Takes memory for the resources of a machine and so many holds.
    pub(crate) fn new(
        alloc: Global,
        machine: &Machine,
        holds: u32,
    ) -> Result<KeptRows, AllocError> {
        let resources = machine.resources.len();
        Ok(KeptRows {
            holds: Vec::with_capacity(alloc, holds as usize)?,
            ends: Vec::with_capacity(alloc, resources as usize)?,
        })
    }

    /// Reads the orders of a board with no goal open. The holds have no times then. Answers false where there is no room.
    pub(crate) fn read<N: Network>(&mut self, board: &Board<N>, machine: &Machine) -> bool
        requires stands { Stands N.reading board.now machine.now }
        requires closed { suffix_of board.now ≡ None }
        ensures { IsTrue result → HaveOrders machine.entry.now board.entry.now.plans
            self.new.rows }
    {
        read_rows(&mut self.holds, &mut self.ends, board, machine)
    }

    /// Writes the times of the holds by those of points.
    pub(crate) fn write(&mut self, ranges: &Ranges)
        ensures orders { (machine : Machine) (plans : List Plan)
            → HaveOrders machine plans self.old.rows → HaveOrders machine plans self.new.rows }
        ensures rows { (machine : Machine) (plans : List Plan)
            → IsTable (IsPoint plans 0) (table_of plans) → HaveOrders machine plans self.old.rows
            → AreRowsOf machine plans
            (windows_by (table_of plans) ranges.now.lows.items ranges.now.highs.items)
            self.new.rows }
    {
        write_times(&mut self.holds, ranges);
    }

    /// How many resources have a row.
    pub(crate) fn len(&self) -> usize
        ensures { result ≡ length self.now.rows }
    {
        self.ends.len()
    }

    /// The kept holds of a resource.
    pub(crate) fn row(&self, resource: ResId) -> &[KeptHold]
        requires { resource.0 < length self.now.rows }
        ensures row { slice_get self.now.rows resource.0 ≡ Some result.now }
        ensures near { All IsNear result.now }
    {
        cut(&self.holds, &self.ends, resource.0 as usize)
    }
}
