//! The holds next to a place of an order.
ghost use Rattle.std.specs.Prelude.{◌≡◌, ◌+◌, ◌^◌, ◌<◌, ◌≤◌, All, length, slice_get, vec_capacity};
ghost use Rattle.tp_timelines.specs.Orders.{order_on};
ghost use Rattle.tp_placing.specs.Causes.{causes_around, step_causes};
ghost use Rattle.tp_placing.specs.Edges.{edges_around, held_before, held_behind, held_of};

use crate::causes::{Causes, between};
use crate::edges::following;
use crate::parts::Held;
use tp_base::Edge;
use tp_machine::ResId;
use tp_timelines::Timelines;

/// The hold at a place of a resource's order.
fn held_at(timelines: &Timelines, held: &[Held], resource: ResId, place: u32) -> Option<Held>
    requires known { resource.0 < length timelines.now.orders }
    requires numbers { All (λ id. id < length held.now)
        (order_on timelines.now.orders resource.0) }
    ensures { result
        ≡ held_of held.now (slice_get (order_on timelines.now.orders resource.0) place) }
{
    if place < timelines.len(resource) {
        Some(held[timelines.at(resource, place) as usize])
    } else {
        None
    }
}

/// The holds before and behind a place of an order.
#[derive(Clone, Copy)]
pub(crate) struct Neighbours {
    pub(crate) before: Option<Held>,
    pub(crate) behind: Option<Held>,
}

/// The holds before and behind a place of a resource's order.
pub(crate) fn neighbours_of(
    timelines: &Timelines,
    held: &[Held],
    resource: ResId,
    place: u32,
) -> Neighbours
    requires known { resource.0 < length timelines.now.orders }
    requires numbers { All (λ id. id < length held.now)
        (order_on timelines.now.orders resource.0) }
    ensures before { result.before
        ≡ held_before held.now (order_on timelines.now.orders resource.0) place }
    ensures behind { result.behind
        ≡ held_behind held.now (order_on timelines.now.orders resource.0) place }
{
    let before = if place > 0 {
        held_at(timelines, held, resource, place - 1)
    } else {
        None
    };
    Neighbours {
        before,
        behind: held_at(timelines, held, resource, place),
    }
}

/// Writes the edges from the hold before to a new hold, and from it to the one behind, on a resource with this gap, in place
/// of what was there.
pub(crate) fn neighbour_edges(
    edges: &mut Vec<Edge>,
    neighbours: &Neighbours,
    new: &Held,
    gap: u32,
    tag: u32,
)
    requires capacity { 2 ≤ vec_capacity edges.old }
    requires fits { tag + 1 < 2 ^ 32 }
    ensures edges { edges.new.items
        ≡ edges_around gap neighbours.now.before new.now neighbours.now.behind tag }
    ensures capacity { vec_capacity edges.old ≤ vec_capacity edges.new }
{
    edges.clear();
    if let Some(before) = &neighbours.before {
        edges.push_reserved(following(gap, before, new, tag));
    }
    if let Some(behind) = &neighbours.behind {
        edges.push_reserved(following(gap, new, behind, tag + 1));
    }
}

/// Writes why these edges stand.
pub(crate) fn note_neighbours(causes: &mut Causes, neighbours: &Neighbours, new: &Held, tag: u32)
    requires behind { 5 ≤ tag }
    requires within { tag + 1 < step_causes }
    ensures { causes.new
        ≡ causes_around neighbours.now.before new.now neighbours.now.behind tag causes.old }
{
    if let Some(before) = &neighbours.before {
        causes.set(tag, between(before, new));
    }
    if let Some(behind) = &neighbours.behind {
        causes.set(tag + 1, between(new, behind));
    }
}
