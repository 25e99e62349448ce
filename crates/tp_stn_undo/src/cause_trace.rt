//! Walking back along causes.
ghost use Rattle.std.specs.Prelude.{◌≡◌, ℕ, ◌-◌, ◌<◌, ◌≤◌, ◌^◌, [], length, reverse, IfSome, IfNone, IfOk, OnErr, IsErr, ◌↔◌, vec_capacity};
ghost use Rattle.tp_base.specs.Refute.{AreCauses, IsCauseChain, IsCauseCircle};
ghost use Rattle.tp_stn_undo.specs.States.{edges_of, causes_of};
ghost use Rattle.tp_stn_undo.specs.Propagation.{AreNumbered};
ghost use Rattle.tp_stn_undo.specs.CauseTraces.{AreZeros, MarkedWays, IsTraced};
ghost use Rattle.tp_stn_undo.specs.Chains.{HasMoreCauses, NeverRound};

use crate::link::Link;
use crate::point_state::PointState;
use tp_base::{Edge, Full, PointId, Trail};

/// Writes the causes that lead to a point, the first first. Gives the point that they begin at, which has none; or
/// `None` where they lead round, and then the path is the way round. `places` is working space of zeros, with capacity for
/// one for each point. Takes time for the path, and for the points that have no place yet.
#[inline(never)]
pub(crate) fn trace_causes(
    states: &[PointState],
    links: &[Link],
    from: PointId,
    path: &mut Vec<Edge>,
    places: &mut Vec<u32>,
) -> Option<PointId>
    requires known { from.0 < length states.now }
    requires causes { AreCauses (causes_of (edges_of links.now) states.now) }
    requires small { length states.now < 2 ^ 32 }
    requires numbered { AreNumbered links.now states.now }
    requires path_capacity { length states.now ≤ vec_capacity path.old }
    requires places_capacity { length states.now ≤ vec_capacity places.old }
    requires zeros { AreZeros places.old.items }
    ensures chain { IfSome result (λ first.
        IsCauseChain (causes_of (edges_of links.now) states.now) first.0 path.new.items from.0) }
    ensures circle { IfNone result
        (IsCauseCircle (causes_of (edges_of links.now) states.now) path.new.items) }
    ensures path_kept { vec_capacity path.old ≤ vec_capacity path.new }
    ensures places_kept { vec_capacity places.old ≤ vec_capacity places.new }
    ensures zeros { AreZeros places.new.items }
{
    path.clear();
    make_places(places, states.len());
    let (end, cut) = walk_back(states, links, from, path, places);
    forget_places(path, places);
    path.reverse();
    path.truncate(path.len() - cut as usize);
    end
}

/// Adds zeros until there are so many places.
fn make_places(places: &mut Vec<u32>, count: usize)
    requires capacity { count ≤ vec_capacity places.old }
    requires zeros { AreZeros places.old.items }
    ensures enough { count ≤ length places.new.items }
    ensures zeros { AreZeros places.new.items }
    ensures kept { vec_capacity places.old ≤ vec_capacity places.new }
{
    if places.len() < count {
        let Ok(()) = places.resize(count, 0) else {
            unreachable!()
        };
    }
}

/// Walks from a point back along the causes, and writes them. Gives the point that they begin at; or `None` where they
/// lead round, and then how many were passed before that.
fn walk_back(
    states: &[PointState],
    links: &[Link],
    from: PointId,
    path: &mut Vec<Edge>,
    places: &mut [u32],
) -> (Option<PointId>, u32)
    requires known { from.0 < length states.now }
    requires causes { AreCauses (causes_of (edges_of links.now) states.now) }
    requires small { length states.now < 2 ^ 32 }
    requires numbered { AreNumbered links.now states.now }
    requires path_capacity { length states.now ≤ vec_capacity path.old }
    requires places_capacity { length states.now ≤ length places.old }
    requires zeros { AreZeros places.old }
    requires empty { path.old.items ≡ [] }
    ensures marked { MarkedWays places.new path.new.items }
    ensures traced { IsTraced (causes_of (edges_of links.now) states.now) from.0
        path.new.items result.0 result.1 }
    ensures path_kept { vec_capacity path.old ≤ vec_capacity path.new }
{
    let mut at = from;
    'back: loop {
        let place = places[at.0 as usize];
        if place > 0 {
            return (None, place - 1);
        }
        let cause = states[at.0 as usize].cause;
        if cause == 0 {
            return (Some(at), 0);
        }
        let edge = links[cause as usize - 1].edge;
        path.push_reserved(edge);
        places[at.0 as usize] = path.len() as u32;
        at = edge.from;
    }
}

/// Makes the places of the ends zero.
fn forget_places(path: &[Edge], places: &mut [u32])
    requires { MarkedWays places.old path.now }
    ensures { AreZeros places.new }
{
    'each: for edge in path {
        places[edge.to.0 as usize] = 0;
    }
}

/// Writes the causes that lead to a point, the first first, where they never lead round. Gives the point that they begin
/// at, which has none.
pub(crate) fn write_causes(
    states: &[PointState],
    links: &[Link],
    from: PointId,
    into: &mut Trail<Edge>,
) -> Result<PointId, Full>
    requires known { from.0 < length states.now }
    requires numbered { AreNumbered links.now states.now }
    requires causes { AreCauses (causes_of (edges_of links.now) states.now) }
    requires ends { NeverRound (causes_of (edges_of links.now) states.now) }
    requires empty { into.old.items ≡ [] }
    ensures chain { IfOk result (λ first.
        IsCauseChain (causes_of (edges_of links.now) states.now) first.0 into.new.items from.0) }
    ensures full { IsErr result
        ↔ HasMoreCauses (causes_of (edges_of links.now) states.now) from.0 into.old.capacity }
    ensures none { OnErr result (into.new.items ≡ []) }
    ensures capacity { into.new.capacity ≡ into.old.capacity }
{
    let mut at = from;
    'back: loop {
        let cause = states[at.0 as usize].cause;
        if cause == 0 {
            into.reverse();
            return Ok(at);
        }
        let edge = links[cause as usize - 1].edge;
        match into.push(edge) {
            Ok(()) => at = edge.from,
            Err(full) => {
                into.cut_to(0);
                return Err(full);
            }
        }
    }
}
