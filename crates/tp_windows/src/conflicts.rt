//! Whether a way fits the kept plans, or which kept point it pushes too far.
ghost use Rattle.std.specs.Prelude.{◌≡◌, ◌<◌, length};
ghost use Rattle.tp_windows.specs.Sides.{IsFit};

use crate::gaps::KeptHold;
use crate::kept_rows::{KeptRows, time_at};
use crate::pick::Pick;
use crate::ranges::{Ranges, Side, copy_times};
use crate::root::Root;
use crate::times::{Moment, Spread, raise};
use tp_base::{PointId, Tick};
use tp_machine::{ActId, Anchor, HoldRule, Machine, ResId, gap_at, gap_between, span};

/// The windows of a half that waits, with its rows.
#[derive(Clone, Copy)]
pub(crate) struct Half<'a> {
    pub(crate) machine: &'a Machine,
    pub(crate) root: &'a Root,
    pub(crate) ranges: &'a Ranges,
    pub(crate) rows: &'a KeptRows,
}

/// A way that is tried, the last step first, and the best one so far, with what they are tried in.
#[derive(Drop)]
pub(crate) struct Trial {
    pub(crate) spread: Spread,
    pub(crate) lows: Vec<Tick>,
    pub(crate) way: Vec<Pick>,
    pub(crate) best: Vec<Pick>,
}

/// What becomes of a way: it fits, a kept point is to be split, or nothing is known.
#[derive(Clone, Copy)]
pub(crate) enum Judged {
    Fits,
    Split(Side),
    Unknown,
}

/// The most steps of a way that is tried.
const MOST_STEPS: usize = 64;

/// The holds of an action.
fn holds_of(machine: &Machine, act: ActId) -> &[HoldRule] {
    match machine.actions.as_slice().get(usize::from(act.0)) {
        Some(action) => action.holds.as_slice(),
        None => &[],
    }
}

/// The kept hold of this number in a resource's order, if there is one.
fn kept_at(half: Half<'_>, resource: ResId, number: usize) -> Option<KeptHold> {
    if resource.0 as usize >= half.rows.len() {
        return None;
    }
    let row = half.rows.row(resource);
    if number < row.len() {
        Some(row[number])
    } else {
        None
    }
}

/// The number of the gap in which a hold of a step stands.
fn gap_of(pick: Pick, hold: usize) -> usize {
    if hold < 4 {
        pick.gaps[hold] as usize
    } else {
        0
    }
}

/// The point of an anchor.
fn anchor_point(kept: KeptHold, anchor: Anchor) -> PointId {
    match anchor {
        Anchor::Start => kept.from,
        Anchor::End => kept.to,
    }
}

/// The moment, where it lies behind the point's least time.
fn if_later(half: Half<'_>, point: PointId, tick: i64) -> Option<Moment> {
    let low = i64::from(time_at(&half.ranges.lows, point));
    if tick <= low || tick > i64::from(u32::MAX) {
        return None;
    }
    Some(Moment {
        point,
        tick: tick as u32,
    })
}

/// To which moment a hold of a step pushes the kept hold behind its gap, if it does.
fn pushed(half: Half<'_>, pick: Pick, rule: &HoldRule, hold: usize) -> Option<Moment> {
    let Some(kept) = kept_at(half, rule.resource, gap_of(pick, hold)) else {
        return None;
    };
    let gap = gap_between(gap_at(half.machine, rule.resource), rule, &kept.rule);
    let (_, end) = span(rule, pick.start, pick.end);
    let tick = end
        .saturating_add(i64::from(gap))
        .saturating_sub(i64::from(kept.rule.begin_off));
    if_later(half, anchor_point(kept, kept.rule.begin), tick)
}

/// Whether the kept hold before a hold's gap ends too late for it, by these least times.
fn is_late(half: Half<'_>, lows: &[Tick], pick: Pick, rule: &HoldRule, hold: usize) -> bool {
    let gap_number = gap_of(pick, hold);
    if gap_number == 0 {
        return false;
    }
    let Some(kept) = kept_at(half, rule.resource, gap_number - 1) else {
        return false;
    };
    let gap = gap_between(gap_at(half.machine, rule.resource), &kept.rule, rule);
    let (_, end) = span(&kept.rule, time_at(lows, kept.from), time_at(lows, kept.to));
    let (begin, _) = span(rule, pick.start, pick.end);
    end.saturating_add(i64::from(gap)) > begin
}

/// Whether a kept hold before a gap of the step ends too late.
fn is_step_late(half: Half<'_>, lows: &[Tick], pick: Pick) -> bool {
    let holds = holds_of(half.machine, pick.act);
    'holds: for hold in 0..holds.len() {
        if is_late(half, lows, pick, &holds[hold], hold) {
            return true;
        }
    }
    false
}

/// Whether the end ahead in the line comes too late for the way.
fn is_line_late(half: Half<'_>, lows: &[Tick], way: &[Pick]) -> bool {
    match (half.root.ahead, way) {
        (Some(ahead), [last, ..]) => time_at(lows, ahead) >= last.end,
        _ => false,
    }
}

/// Whether something that the way stands behind comes too late by these least times.
fn is_way_late(half: Half<'_>, lows: &[Tick], way: &[Pick]) -> bool {
    'steps: for number in 0..way.len() {
        if is_step_late(half, lows, way[number]) {
            return true;
        }
    }
    is_line_late(half, lows, way)
}

/// Whether the way no longer fits where a point comes at a moment or later.
fn does_break(half: Half<'_>, trial: &mut Trial, moment: Moment) -> bool
    requires fit { IsFit half.ranges.now half.root.now.edges }
{
    if moment.point.0 as usize >= half.ranges.lows.len() {
        return false;
    }
    if !copy_times(&half.ranges.lows, &mut trial.lows) {
        return false;
    }
    let links = half.root.edges.from.links();
    if !raise(
        links,
        &mut trial.lows,
        &half.ranges.highs,
        &mut trial.spread,
        moment,
    ) {
        return true;
    }
    is_way_late(half, &trial.lows, &trial.way)
}

/// The high side of a split at a moment.
fn later_side(moment: Moment) -> Side {
    Side {
        point: moment.point,
        tick: moment.tick,
        later: true,
    }
}

/// Where to split since a hold of a step pushes a kept one too far, if one does.
fn step_conflict(half: Half<'_>, trial: &mut Trial, pick: Pick) -> Option<Side>
    requires fit { IsFit half.ranges.now half.root.now.edges }
{
    let holds = holds_of(half.machine, pick.act);
    'holds: for hold in 0..holds.len() {
        if let Some(moment) = pushed(half, pick, &holds[hold], hold) {
            if does_break(half, trial, moment) {
                return Some(later_side(moment));
            }
        }
    }
    None
}

/// Where to split since the way pushes the end behind in the line too far, if it does.
fn line_conflict(half: Half<'_>, trial: &mut Trial) -> Option<Side>
    requires fit { IsFit half.ranges.now half.root.now.edges }
{
    let Some(behind) = half.root.behind else {
        return None;
    };
    if trial.way.len() == 0 {
        return None;
    }
    let end = i64::from(trial.way[0].end);
    let Some(moment) = if_later(half, behind, end + 1) else {
        return None;
    };
    if does_break(half, trial, moment) {
        Some(later_side(moment))
    } else {
        None
    }
}

/// Where to split since the way pushes a kept point too far, if it does. Looks at the steps from the first one on.
fn conflict(half: Half<'_>, trial: &mut Trial) -> Option<Side>
    requires fit { IsFit half.ranges.now half.root.now.edges }
{
    let mut left = trial.way.len();
    'steps: while left > 0 {
        left -= 1;
        if left < trial.way.len() {
            let pick = trial.way[left];
            if let Some(side) = step_conflict(half, trial, pick) {
                return Some(side);
            }
        }
    }
    line_conflict(half, trial)
}

/// Whether a hold of one step overlaps one of another.
fn do_holds_meet(machine: &Machine, one: Pick, rule: &HoldRule, other: Pick) -> bool {
    let (begin, end) = span(rule, one.start, one.end);
    let holds = holds_of(machine, other.act);
    'holds: for number in 0..holds.len() {
        let hold = &holds[number];
        let gap = gap_at(machine, rule.resource);
        let (from, till) = span(hold, other.start, other.end);
        let until = till.saturating_add(i64::from(gap_between(gap, hold, rule)));
        let last = end.saturating_add(i64::from(gap_between(gap, rule, hold)));
        if hold.resource == rule.resource && begin < until && from < last {
            return true;
        }
    }
    false
}

/// Whether two steps meet on a resource.
fn do_steps_meet(machine: &Machine, one: Pick, other: Pick) -> bool {
    let holds = holds_of(machine, one.act);
    'holds: for number in 0..holds.len() {
        if do_holds_meet(machine, one, &holds[number], other) {
            return true;
        }
    }
    false
}

/// Whether the first of these steps meets a later one on a resource.
fn does_first_meet(machine: &Machine, way: &[Pick], first: usize) -> bool
    requires { first < length way.now }
{
    'steps: for number in first + 1..way.len() {
        if do_steps_meet(machine, way[first], way[number]) {
            return true;
        }
    }
    false
}

/// Whether the way has few steps, none of which meets another on a resource.
fn is_sound(machine: &Machine, way: &[Pick]) -> bool {
    if way.len() > MOST_STEPS {
        return false;
    }
    'steps: for first in 0..way.len() {
        if does_first_meet(machine, way, first) {
            return false;
        }
    }
    true
}

/// Keeps the way as the best one. Answers false where there is no room.
fn keep(trial: &mut Trial) -> bool {
    trial.best.clear();
    if trial.way.len() > trial.best.capacity() {
        return false;
    }
    trial.best.extend_from_slice(&trial.way).is_ok()
}

/// What becomes of the way that is tried. It is kept as the best one where it fits.
pub(crate) fn judge(half: Half<'_>, trial: &mut Trial) -> Judged
    requires fit { IsFit half.ranges.now half.root.now.edges }
{
    if let Some(side) = conflict(half, trial) {
        return Judged::Split(side);
    }
    if is_sound(half.machine, &trial.way) && keep(trial) {
        Judged::Fits
    } else {
        Judged::Unknown
    }
}
