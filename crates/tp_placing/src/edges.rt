//! The edges between two holds, and between ends in a line.
ghost use Rattle.std.specs.Prelude.{◌≡◌, ◌+◌, ◌<◌, ◌+ℤ◌, ◌-ℤ◌, pos, min};
ghost use Rattle.tp_machine.specs.Modes.{gap_between};
ghost use Rattle.tp_placing.specs.Edges.{anchor_point, duration_edges, edge_of, hold_edge};

use crate::causes::{BACK, FORWARD};
use crate::parts::Held;
use tp_base::{Edge, PointId, Tick};
use tp_machine::{Action, Anchor, HoldRule, gap_between};

/// The time of `to` is at least that of `from` plus the weight, for the cause of this tag.
pub(crate) fn edge_between(from: PointId, to: PointId, weight: i64, tag: u32) -> Edge
    ensures { result ≡ edge_of from to weight tag }
{
    Edge {
        from,
        to,
        weight,
        tag,
    }
}

/// An action lasts at least its least, and at most its most.
pub(crate) fn lasting(action: &Action, start: PointId, end: PointId) -> [Edge; 2]
    ensures { result ≡ duration_edges action.now start end }
{
    [
        edge_between(start, end, action.least as i64, FORWARD),
        edge_between(end, start, -(action.most as i64), BACK),
    ]
}

pub(crate) fn anchored(anchor: Anchor, start: PointId, end: PointId) -> PointId
    ensures { result ≡ anchor_point anchor start end }
{
    match anchor {
        Anchor::Start => start,
        Anchor::End => end,
    }
}

/// How far the second hold's anchor is behind the first one's, on a resource with this gap.
fn weight(gap: u32, before: &HoldRule, after: &HoldRule) -> i64
    ensures { result ≡ (before.now.end_off -ℤ after.now.begin_off) +ℤ pos
        (gap_between gap before.now after.now) }
{
    let offsets = before.end_off as i64 - after.begin_off as i64;
    offsets + gap_between(gap, before, after) as i64
}

/// The first hold is apart from the second on a resource with this gap, for the cause of this tag.
pub(crate) fn following(gap: u32, before: &Held, after: &Held, tag: u32) -> Edge
    ensures { result ≡ hold_edge gap before.now after.now tag }
{
    let from = anchored(before.rule.end, before.start, before.end);
    let to = anchored(after.rule.begin, after.start, after.end);
    edge_between(from, to, weight(gap, &before.rule, &after.rule), tag)
}

/// The least tick of a point that has so much room after the floor: their sum, or the first tick after the horizon where it
/// is later.
pub(crate) fn lowest(floor: Tick, room: u32, horizon: Tick) -> Tick
    requires { horizon < 2147483648 }
    ensures { result ≡ min (floor + room) (horizon + 1) }
{
    (floor as u64 + room as u64).min(horizon as u64 + 1) as u32
}
