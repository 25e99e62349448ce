//! The way back along causes, from a point to where its time comes from.
ghost use Rattle.std.specs.Prelude.{◌≡◌, ℕ, ◌<◌, ◌≤◌, length, IfSome, IfNone, vec_capacity};
ghost use Rattle.tp_base.specs.Refute.{AreCauses, IsCauseChain, IsCauseCircle};

use crate::edges::{Edge, PointId};

/// Writes the causes that lead to a point, the first first. Gives the point that they begin at, which has none; or
/// `None` where they lead round, and then the path is the way round. `places` is working space. Takes time for the
/// points, not for the edges.
pub fn trace_causes(
    causes: &[Option<Edge>],
    from: PointId,
    path: &mut Vec<Edge>,
    places: &mut Vec<usize>,
) -> Option<PointId>
    requires known { from.0 < length causes.now }
    requires causes { AreCauses causes.now }
    requires path_capacity { length causes.now ≤ vec_capacity path.old }
    requires places_capacity { length causes.now ≤ vec_capacity places.old }
    ensures chain { IfSome result
        (λ first. IsCauseChain causes.now first.0 path.new.items from.0) }
    ensures circle { IfNone result (IsCauseCircle causes.now path.new.items) }
    ensures path_kept { vec_capacity path.old ≤ vec_capacity path.new }
    ensures places_kept { vec_capacity places.old ≤ vec_capacity places.new }
{
    path.clear();
    // For each point the place in the path of the edge that ends there, counted from 1, or 0.
    places.clear();
    let Ok(()) = places.resize(causes.len(), 0) else {
        unreachable!()
    };
    let mut at = from;
    'back: loop {
        let place = places[at.0 as usize];
        if place > 0 {
            path.reverse();
            path.truncate(path.len() + 1 - place);
            return None;
        }
        let Some(edge) = causes[at.0 as usize] else {
            path.reverse();
            return Some(at);
        };
        path.push_reserved(edge);
        places[at.0 as usize] = path.len();
        at = edge.from;
    }
}
