//! Between which ticks points can be.
ghost use Rattle.std.specs.Prelude.{◌≡◌, ℕ, ◌+◌, ◌-◌, ◌<◌, ◌≤◌, false, true, All, IsTrue, length, option_map, slice_index};
ghost use Rattle.tp_base.specs.Net.{IsSolution, Keeps};
ghost use Rattle.tp_windows.specs.Arrays.{IsBetween};
ghost use Rattle.tp_windows.specs.Links.{AreLinked, edges_of};
ghost use Rattle.tp_windows.specs.Sides.{AreWide, HaveBoth, IsOnSide};

use crate::edge_links::{LinkedBy, LinkedEdges, link_edges};
use crate::times::{Moment, Spread, lower, raise};
use std::alloc::{AllocError, Global};
use tp_base::{Network, PointId, Tick};

/// The least and the greatest time of each point, in ticks.
#[derive(Drop)]
pub(crate) struct Ranges {
    pub(crate) lows: Vec<Tick>,
    pub(crate) highs: Vec<Tick>,
}

impl Ranges {
    /// Takes memory for so many points.
    pub(crate) fn new(alloc: Global, points: u32) -> Result<Ranges, AllocError> {
        Ok(Ranges {
            lows: Vec::with_capacity(alloc, points as usize)?,
            highs: Vec::with_capacity(alloc, points as usize)?,
        })
    }
}

/// Edges between points, by both ends.
#[derive(Drop)]
pub(crate) struct Edges {
    pub(crate) from: LinkedEdges,
    pub(crate) to: LinkedEdges,
}

/// One side of a split: the point comes at the tick or later, or before it.
#[derive(Clone, Copy)]
pub(crate) struct Side {
    pub(crate) point: PointId,
    pub(crate) tick: Tick,
    pub(crate) later: bool,
}

/// The side of a line's end that comes before the tick.
pub(crate) fn line_side(end: Option<PointId>, tick: Tick) -> Option<Side>
    ensures { result
        ≡ option_map (λ p. record { point = p; tick = tick; later = false }) end }
{
    match end {
        Some(point) => Some(Side {
            point,
            tick,
            later: false,
        }),
        None => None,
    }
}

/// Reads the least and the greatest times of so many points from their network. Answers false where there is no room.
pub(crate) fn load_ranges<N: Network>(ranges: &mut Ranges, net: &N, points: u32) -> bool
    requires points { points ≡ length (N.reading.net net.now).lows }
    ensures wide { IsTrue result → AreWide points ranges.new }
    ensures between { IsTrue result → (y : ℕ → ℕ) → IsSolution (N.reading.net net.now) y
        → IsBetween y ranges.new.lows.items ranges.new.highs.items }
{
    ranges.lows.clear();
    ranges.highs.clear();
    'points: for point in 0..points {
        if ranges.lows.len() == ranges.lows.capacity()
            || ranges.highs.len() == ranges.highs.capacity()
        {
            return false;
        }
        ranges.lows.push_reserved(net.earliest(PointId(point)));
        ranges.highs.push_reserved(net.cap(PointId(point)));
    }
    true
}

/// Links the edges of a network with so many points by both ends. Answers false where there is no room.
pub(crate) fn load_edges<N: Network>(edges: &mut Edges, net: &N, points: u32) -> bool
    requires points { points ≡ length (N.reading.net net.now).lows }
    ensures { IsTrue result → HaveBoth points (N.reading.net net.now).edges edges.new }
{
    link_edges(&mut edges.from, net, points, LinkedBy::From)
        && link_edges(&mut edges.to, net, points, LinkedBy::To)
}

/// Copies ranges to others. Answers false where there is no room.
pub(crate) fn copy_ranges(from: &Ranges, to: &mut Ranges) -> bool
    ensures lows { IsTrue result → to.new.lows.items ≡ from.now.lows.items }
    ensures highs { IsTrue result → to.new.highs.items ≡ from.now.highs.items }
{
    copy_times(&from.lows, &mut to.lows) && copy_times(&from.highs, &mut to.highs)
}

/// Copies times to others. Answers false where there is no room.
pub(crate) fn copy_times(from: &[Tick], to: &mut Vec<Tick>) -> bool
    ensures { IsTrue result → to.new.items ≡ from.now }
{
    to.clear();
    if from.len() > to.capacity() {
        return false;
    }
    to.extend_from_slice(from).is_ok()
}

/// Keeps the times with the point at the tick or later. Answers false where there are none.
fn keep_later(ranges: &mut Ranges, edges: &Edges, spread: &mut Spread, moment: Moment) -> bool
    requires point { moment.point.0 < length ranges.old.lows.items }
    requires wide { length ranges.old.highs.items ≡ length ranges.old.lows.items }
    requires edges { HaveBoth (length ranges.old.lows.items)
        (edges_of edges.now.from.links.items) edges.now }
    ensures wide { AreWide (length ranges.old.lows.items) ranges.new }
    ensures kept { (y : ℕ → ℕ) → All (Keeps y) (edges_of edges.now.from.links.items)
        → IsBetween y ranges.old.lows.items ranges.old.highs.items
        → moment.tick ≤ y moment.point.0
        → IsTrue result × IsBetween y ranges.new.lows.items ranges.new.highs.items }
{
    raise(
        edges.from.links(),
        &mut ranges.lows,
        &ranges.highs,
        spread,
        moment,
    )
}

/// Keeps the times with the point at the tick or sooner. Answers false where there are none.
fn keep_sooner(ranges: &mut Ranges, edges: &Edges, spread: &mut Spread, moment: Moment) -> bool
    requires point { moment.point.0 < length ranges.old.lows.items }
    requires wide { length ranges.old.highs.items ≡ length ranges.old.lows.items }
    requires edges { HaveBoth (length ranges.old.lows.items)
        (edges_of edges.now.from.links.items) edges.now }
    ensures wide { AreWide (length ranges.old.lows.items) ranges.new }
    ensures kept { (y : ℕ → ℕ) → All (Keeps y) (edges_of edges.now.from.links.items)
        → IsBetween y ranges.old.lows.items ranges.old.highs.items
        → y moment.point.0 ≤ moment.tick
        → IsTrue result × IsBetween y ranges.new.lows.items ranges.new.highs.items }
{
    lower(
        edges.to.links(),
        &ranges.lows,
        &mut ranges.highs,
        spread,
        moment,
    )
}

/// Keeps the times on this side of a split. Answers false where there are none.
pub(crate) fn keep_side(ranges: &mut Ranges, edges: &Edges, spread: &mut Spread, side: Side) -> bool
    requires wide { length ranges.old.highs.items ≡ length ranges.old.lows.items }
    requires edges { HaveBoth (length ranges.old.lows.items)
        (edges_of edges.now.from.links.items) edges.now }
    ensures wide { AreWide (length ranges.old.lows.items) ranges.new }
    ensures kept { (y : ℕ → ℕ) → All (Keeps y) (edges_of edges.now.from.links.items)
        → IsBetween y ranges.old.lows.items ranges.old.highs.items → IsOnSide y side
        → IsTrue result × IsBetween y ranges.new.lows.items ranges.new.highs.items }
{
    let point = side.point;
    let tick = side.tick;
    if point.0 as usize >= ranges.lows.len() {
        return true;
    }
    if side.later {
        return keep_later(ranges, edges, spread, Moment { point, tick });
    }
    if tick == 0 {
        return false;
    }
    let last = Moment {
        point,
        tick: tick - 1,
    };
    keep_sooner(ranges, edges, spread, last)
}

/// Keeps the times on these sides of splits. Answers false where there are none.
pub(crate) fn keep_sides(
    ranges: &mut Ranges,
    edges: &Edges,
    spread: &mut Spread,
    sides: &[Side],
) -> bool
    requires wide { length ranges.old.highs.items ≡ length ranges.old.lows.items }
    requires edges { HaveBoth (length ranges.old.lows.items)
        (edges_of edges.now.from.links.items) edges.now }
    ensures wide { AreWide (length ranges.old.lows.items) ranges.new }
    ensures kept { (y : ℕ → ℕ) → All (Keeps y) (edges_of edges.now.from.links.items)
        → IsBetween y ranges.old.lows.items ranges.old.highs.items
        → All (IsOnSide y) sides.now
        → IsTrue result × IsBetween y ranges.new.lows.items ranges.new.highs.items }
{
    'sides: for number in 0..sides.len() {
        if !keep_side(ranges, edges, spread, sides[number]) {
            return false;
        }
    }
    true
}
