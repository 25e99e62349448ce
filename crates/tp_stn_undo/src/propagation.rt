//! Following edges until all are kept.
ghost use Rattle.std.specs.Prelude.{◌≡◌, ◌-◌, ◌<◌, ◌≤◌, length, take, slice_index, OnOk, IfErr};
ghost use Rattle.tp_base.specs.Grows.{PassesCap, AreWithin};
ghost use Rattle.tp_base.specs.Kept.{net_of, KeptRefutes};
ghost use Rattle.tp_stn_undo.specs.States.{lows_of, times_of, edges_of, causes_of};
ghost use Rattle.tp_stn_undo.specs.Marks.{AreLinks};
ghost use Rattle.tp_stn_undo.specs.Flags.{AreBelow, IsSameSave};
ghost use Rattle.tp_stn_undo.specs.Propagation.{LeadsBack, KeptFrom, AreKept, Reached};
ghost use Rattle.tp_stn_undo.specs.CauseTraces.{AreZeros};
ghost use Rattle.tp_stn_undo.specs.WorkingRoom.{KeepsSizes};
ghost use Rattle.tp_stn_undo.specs.Spread.{AreBounded, AreSettled, CanSpread, Follows, IsPull, NoneWaits};

use crate::cause_trace::trace_causes;
use crate::changes::Changes;
use crate::link::Link;
use crate::point_state::PointState;
use crate::waiting::Waiting;
use crate::working::Working;
use tp_base::{Kept, PointId};

/// An edge that asks for more: its number, counted from 1, and what it asks for.
#[derive(Clone, Copy)]
pub(crate) struct Pull {
    number: u32,
    reach: i64,
}

/// Where following begins: with the edges of a point from one on, given by its number counted from 1; with none of them where
/// that is 0. If the point rises, the causes are followed back; where it is none of the points, nothing is watched.
#[derive(Clone, Copy)]
pub(crate) struct Start {
    pub(crate) watched: PointId,
    pub(crate) first: u32,
}

/// Raises the end of an edge to what the edge asks for, which is more; or, where that passes the upper bound, says which point
/// that is.
#[inline(always)]
fn raise_along(
    caps: &[u32],
    links: &[Link],
    pull: Pull,
    states: &mut [PointState],
    waiting: &mut Waiting,
    changes: &mut Changes,
) -> Result<(), PointId>
    requires asks { IsPull links.now states.old pull.number pull.reach }
    requires bounded { AreBounded caps.now links.now states.old }
    requires waits { length states.old ≤ length waiting.old.flags }
    requires capacity { length states.old ≤ changes.old.capacity }
    ensures back { LeadsBack links.now states.old states.new
        changes.old.entries changes.new.entries }
    ensures below { AreWithin caps.now (times_of states.new) }
    ensures waits { length waiting.new.flags ≡ length waiting.old.flags }
    ensures known { AreBelow (length states.old) waiting.old.points
        → AreBelow (length states.old) waiting.new.points }
    ensures same { IsSameSave changes.old changes.new }
    ensures follows { OnOk result (Follows caps.now links.now pull.number
        states.old states.new waiting.old waiting.new) }
    ensures late { IfErr result (λ p. PassesCap caps.now (edges_of links.now) (times_of states.old)
        (causes_of (edges_of links.now) states.old)
        (causes_of (edges_of links.now) states.new) p.0) }
{
    let end = links[pull.number as usize - 1].edge.to;
    let to = end.0 as usize;
    changes.note(end, &states[to]);
    if pull.reach > i64::from(caps[to]) {
        states[to] = PointState {
            low: states[to].low,
            time: states[to].time,
            cause: pull.number,
        };
        return Err(end);
    }
    states[to] = PointState {
        low: states[to].low,
        time: pull.reach as u32,
        cause: pull.number,
    };
    waiting.push(end.0);
    Ok(())
}

/// Follows an edge that asks for more. Where a point has to pass its upper bound, or the watched point rises and the causes lead
/// round, writes what shows that there is no solution.
#[inline(always)]
pub(crate) fn follow(
    caps: &[u32],
    links: &[Link],
    pull: Pull,
    watched: PointId,
    states: &mut [PointState],
    working: &mut Working,
) -> Result<(), Kept>
    requires asks { IsPull links.now states.old pull.number pull.reach }
    requires ready { CanSpread caps.now links.now states.old working.old }
    ensures back { LeadsBack links.now states.old states.new
        working.old.changes.entries working.new.changes.entries }
    ensures below { AreWithin caps.now (times_of states.new) }
    ensures known { AreBelow (length states.old) working.old.waiting.points
        → AreBelow (length states.old) working.new.waiting.points }
    ensures follows { OnOk result (Follows caps.now links.now pull.number
        states.old states.new working.old.waiting working.new.waiting) }
    ensures refuted { IfErr result (λ kept. KeptRefutes
        (net_of (lows_of states.old) caps.now (edges_of links.now)) kept working.new.path.items) }
    ensures sizes { KeepsSizes working.old working.new }
    ensures zeros { AreZeros working.new.places.items }
{
    match raise_along(
        caps,
        links,
        pull,
        states,
        &mut working.waiting,
        &mut working.changes,
    ) {
        Ok(()) => {
            let end = links[pull.number as usize - 1].edge.to;
            if end.0 == watched.0 {
                if trace_causes(
                    states,
                    links,
                    end,
                    &mut working.path,
                    &mut working.places,
                ).is_none()
                {
                    return Err(Kept::Circle);
                }
            }
            Ok(())
        }
        Err(point) => match trace_causes(
            states,
            links,
            point,
            &mut working.path,
            &mut working.places,
        ) {
            Some(first) => Err(Kept::Chain(first)),
            None => Err(Kept::Circle),
        },
    }
}

/// Follows the edges with which it starts, and those of the points that wait, until none waits.
pub(crate) fn spread(
    caps: &[u32],
    links: &[Link],
    heads: &[u32],
    start: Start,
    states: &mut [PointState],
    working: &mut Working,
) -> Result<(), Kept>
    requires heads { AreLinks links.now heads.now (length states.old) }
    requires ready { CanSpread caps.now links.now states.old working.old }
    requires waiting { AreBelow (length states.old) working.old.waiting.points }
    requires reached { Reached links.now start.watched.0 start.first }
    requires kept { KeptFrom (edges_of links.now) (slice_index (times_of states.old))
        working.old.waiting.flags start.watched.0 start.first }
    ensures back { LeadsBack links.now states.old states.new
        working.old.changes.entries working.new.changes.entries }
    ensures below { AreWithin caps.now (times_of states.new) }
    ensures settled { OnOk result
        (AreSettled links.now states.old states.new working.new.waiting) }
    ensures refuted { IfErr result (λ kept. KeptRefutes
        (net_of (lows_of states.old) caps.now (edges_of links.now)) kept working.new.path.items) }
    ensures sizes { KeepsSizes working.old working.new }
    ensures zeros { AreZeros working.new.places.items }
{
    let mut point = start.watched.0;
    let mut left = start.first;
    'points: loop {
        'edges: while left > 0 {
            let link = &links[left as usize - 1];
            let reach = i64::from(states[point as usize].time) + link.edge.weight;
            if reach > i64::from(states[link.edge.to.0 as usize].time) {
                let pull = Pull {
                    number: left,
                    reach,
                };
                match follow(caps, links, pull, start.watched, states, working) {
                    Ok(()) => {}
                    Err(kept) => return Err(kept),
                }
            }
            left = link.older;
        }
        match working.waiting.pop() {
            Some(next) => {
                point = next;
                left = heads[next as usize];
            }
            None => return Ok(()),
        }
    }
}

/// Follows the newest edge, if it asks for more, and the edges of the points that rise: the newest is followed first.
pub(crate) fn settle(
    caps: &[u32],
    links: &[Link],
    heads: &[u32],
    number: u32,
    states: &mut [PointState],
    working: &mut Working,
) -> Result<(), Kept>
    requires heads { AreLinks links.now heads.now (length states.old) }
    requires some { 0 < number }
    requires newest { number ≡ length links.now }
    requires ready { CanSpread caps.now links.now states.old working.old }
    requires quiet { NoneWaits working.old.waiting }
    requires kept { AreKept (take (number - 1) (edges_of links.now))
        (slice_index (times_of states.old)) working.old.waiting.flags }
    ensures back { LeadsBack links.now states.old states.new
        working.old.changes.entries working.new.changes.entries }
    ensures below { AreWithin caps.now (times_of states.new) }
    ensures settled { OnOk result
        (AreSettled links.now states.old states.new working.new.waiting) }
    ensures refuted { IfErr result (λ kept. KeptRefutes
        (net_of (lows_of states.old) caps.now (edges_of links.now)) kept working.new.path.items) }
    ensures sizes { KeepsSizes working.old working.new }
    ensures zeros { AreZeros working.new.places.items }
{
    let edge = links[number as usize - 1].edge;
    let reach = i64::from(states[edge.from.0 as usize].time) + edge.weight;
    if reach <= i64::from(states[edge.to.0 as usize].time) {
        return Ok(());
    }
    let start = Start {
        watched: edge.from,
        first: number,
    };
    spread(caps, links, heads, start, states, working)
}
