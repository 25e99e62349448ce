//! The holds of a plan that is added behind the others, as they are put into the orders of their resources.
ghost use Rattle.std.specs.Prelude.{◌≡◌, ℕ, ◌+◌, ◌*◌, ◌-◌, ◌<◌, ◌≤◌, ◌^◌, ◌++◌, List, [], drop, insert, length, map, slice_set, All, Some, vec_len, vec_capacity};
ghost use Rattle.tp_base.specs.declared.edges.Edge.{Edge};
ghost use Rattle.tp_schedule.specs.Spots.{Slot};
ghost use Rattle.tp_constraints.specs.Numbers.{table_of};
ghost use Rattle.tp_timelines.specs.Orders.{order_on, total};
ghost use Rattle.tp_placing.specs.Causes.{most_causes, step_causes};
ghost use Rattle.tp_placing.specs.Edges.{edges_around, held_before, held_behind};
ghost use Rattle.tp_placing.specs.AddedEdges.{HasPut, causes_for, slot_by};
ghost use Rattle.tp_placing.specs.LoadedNet.{AreIds, HasPoints, firsts_from};
ghost use Rattle.tp_placing.specs.LoadedHolds.{IsHeldWithin, IsRuleOf, ticks_in};
ghost use Rattle.tp_placing.specs.LoadedBoard.{AreSlots, HasSmallOffsets};
ghost use Rattle.tp_placing.specs.declared.causes.EdgeCause.{EdgeCause as CauseValue};

use crate::causes::{Causes, EdgeCause, between};
use crate::edges::following;
use crate::kept_ticks::begin_at;
use crate::neighbours::{Neighbours, neighbours_of};
use crate::parts::Held;
use tp_base::{Edge, PointId};
use tp_machine::{Machine, ResId, gap_at};
use tp_schedule::Plan;
use tp_timelines::Timelines;

/// What tells where a hold goes: the holds, and the plans with their first points.
#[derive(Clone, Copy)]
pub(crate) struct Look<'a> {
    pub(crate) held: &'a [Held],
    pub(crate) plans: &'a [Plan],
    pub(crate) firsts: &'a [PointId],
}

/// A hold's number, and its place in the order of a resource with this gap.
#[derive(Clone, Copy)]
struct Place {
    number: u32,
    gap: u32,
    at: u32,
}

/// Adds why a hold stands between its neighbours, and answers the tag of the first of the two causes.
fn push_causes(causes: &mut Causes, near: &Neighbours, new: &Held) -> u32
    requires capacity { length causes.old + 2 ≤ most_causes }
    ensures tag { result ≡ length causes.old }
    ensures added { causes.new
        ≡ causes.old ++ causes_for near.now.before new.now near.now.behind }
{
    let first = match &near.before {
        Some(before) => between(before, new),
        None => EdgeCause::Limit,
    };
    let second = match &near.behind {
        Some(behind) => between(new, behind),
        None => EdgeCause::Limit,
    };
    let tag = causes.push(first);
    causes.push(second);
    tag
}

/// Adds the edges from the hold before to a new hold, and from it to the one behind, on a resource with this gap.
fn push_edges(edges: &mut Vec<Edge>, near: &Neighbours, new: &Held, gap: u32, tag: u32)
    requires capacity { vec_len edges.old + 2 ≤ vec_capacity edges.old }
    requires fits { tag + 1 < 2 ^ 32 }
    ensures added { edges.new.items ≡ edges.old.items
        ++ edges_around gap near.now.before new.now near.now.behind tag }
    ensures capacity { vec_capacity edges.old ≤ vec_capacity edges.new }
{
    if let Some(before) = &near.before {
        edges.push_reserved(following(gap, before, new, tag));
    }
    if let Some(behind) = &near.behind {
        edges.push_reserved(following(gap, new, behind, tag + 1));
    }
}

/// Puts a hold into the order of its resource, with the edges to its neighbours.
fn put_hold(
    timelines: &mut Timelines,
    edges: &mut Vec<Edge>,
    causes: &mut Causes,
    held: &[Held],
    hold: &Held,
    place: Place,
)
    requires known { hold.now.rule.resource.0 < length timelines.old.orders }
    requires within { place.at ≤ length (order_on timelines.old.orders hold.now.rule.resource.0) }
    requires ids { AreIds held.now (order_on timelines.old.orders hold.now.rule.resource.0) }
    requires holds { total timelines.old.orders < timelines.old.hold_capacity }
    requires causes { length causes.old + 2 ≤ most_causes }
    requires edges { vec_len edges.old + 2 ≤ vec_capacity edges.old }
    ensures timelines { timelines.new.orders
        ≡ slice_set timelines.old.orders hold.now.rule.resource.0
        (insert (order_on timelines.old.orders hold.now.rule.resource.0) place.at place.number) }
    ensures edges { edges.new.items ≡ edges.old.items ++ edges_around place.gap
        (held_before held.now (order_on timelines.old.orders hold.now.rule.resource.0) place.at)
        hold.now
        (held_behind held.now (order_on timelines.old.orders hold.now.rule.resource.0) place.at)
        (length causes.old) }
    ensures causes { causes.new ≡ causes.old ++ causes_for
        (held_before held.now (order_on timelines.old.orders hold.now.rule.resource.0) place.at)
        hold.now
        (held_behind held.now (order_on timelines.old.orders hold.now.rule.resource.0) place.at) }
    ensures past { timelines.new.past ≡ timelines.old.past }
    ensures hold_capacity { timelines.new.hold_capacity ≡ timelines.old.hold_capacity }
    ensures marks { timelines.new.max_marks ≡ timelines.old.max_marks }
    ensures capacity { vec_capacity edges.old ≤ vec_capacity edges.new }
{
    let resource = hold.rule.resource;
    let near = neighbours_of(timelines, held, resource, place.at);
    let tag = push_causes(causes, &near, hold);
    push_edges(edges, &near, hold, place.gap, tag);
    let Ok(()) = timelines.insert(resource, place.at, place.number) else {
        unreachable!()
    };
}

/// A place for a hold in the order of its resource: behind the holds that begin before it, as far as the order tells.
fn place_of(timelines: &Timelines, look: Look<'_>, hold: &Held) -> u32
    requires known { hold.now.rule.resource.0 < length timelines.now.orders }
    requires ids { AreIds look.held.now (order_on timelines.now.orders hold.now.rule.resource.0) }
    requires formed { All HasPoints look.plans.now }
    requires firsts { look.firsts.now ≡ firsts_from 0 look.plans.now }
    requires ticks { length (ticks_in look.plans.now) ≡ length (table_of look.plans.now) }
    requires slots { (slots : List Slot) × AreSlots (table_of look.plans.now) look.held.now
        (order_on timelines.now.orders hold.now.rule.resource.0) slots }
    requires hold { IsHeldWithin (length (ticks_in look.plans.now)) hold.now }
    ensures { result ≤ length (order_on timelines.now.orders hold.now.rule.resource.0) }
{
    let resource = hold.rule.resource;
    let count = look.plans.len();
    let tick = begin_at(look.plans, look.firsts, count, hold);
    let mut place = timelines.len(resource);
    'back: while place > 0 {
        let other = &look.held[timelines.at(resource, place - 1) as usize];
        if begin_at(look.plans, look.firsts, count, other) < tick {
            return place;
        }
        place -= 1;
    }
    place
}

/// Puts the holds from a number on into the orders of their resources, one after another.
pub(crate) fn put_holds(
    timelines: &mut Timelines,
    edges: &mut Vec<Edge>,
    causes: &mut Causes,
    look: Look<'_>,
    machine: &Machine,
    from: u32,
)
    requires resources { length timelines.old.orders ≡ length machine.now.resources }
    requires rules { All (λ h. IsRuleOf (length machine.now.resources) h.rule)
        (drop from look.held.now) }
    requires small { All (λ h. HasSmallOffsets h.rule) look.held.now }
    requires orders { (before : ℕ → List Slot)
        × ((r : ℕ) → All (λ s. s.rule.resource.0 ≡ r) (before r))
        × ((r : ℕ) → r < length machine.now.resources
        → AreSlots (table_of look.plans.now) look.held.now (order_on timelines.old.orders r)
        (before r)) }
    requires ids { (r : ℕ) → r < length timelines.old.orders
        → AreIds look.held.now (order_on timelines.old.orders r) }
    requires formed { All HasPoints look.plans.now }
    requires firsts { look.firsts.now ≡ firsts_from 0 look.plans.now }
    requires within { All (IsHeldWithin (length (ticks_in look.plans.now)))
        (drop from look.held.now) }
    requires ticks { length (ticks_in look.plans.now) ≡ length (table_of look.plans.now) }
    requires from { from ≤ length look.held.now }
    requires few { length look.held.now < 2 ^ 32 }
    requires holds { total timelines.old.orders + (length look.held.now - from)
        ≤ timelines.old.hold_capacity }
    requires base { step_causes ≤ length causes.old }
    requires causes { length causes.old + 2 * (length look.held.now - from) ≤ most_causes }
    requires edges { vec_len edges.old + 2 * (length look.held.now - from)
        ≤ vec_capacity edges.old }
    ensures put { (before : ℕ → List Slot)
        → ((r : ℕ) → All (λ s. s.rule.resource.0 ≡ r) (before r))
        → ((r : ℕ) → r < length machine.now.resources
        → AreSlots (table_of look.entry.plans.now) look.entry.held.now
        (order_on timelines.old.orders r) (before r))
        → (es : List Edge) × (edges.new.items ≡ edges.old.items ++ es)
        × HasPut machine.now look.entry.plans.now before look.entry.held.now timelines.new.orders es
        causes.new (map (slot_by (table_of look.entry.plans.now)) (drop from look.entry.held.now)) }
    ensures causes { (more : List CauseValue) × (causes.new ≡ causes.old ++ more) }
    ensures total { total timelines.new.orders
        ≡ total timelines.old.orders + (length look.entry.held.now - from) }
    ensures resources { length timelines.new.orders ≡ length timelines.old.orders }
    ensures past { timelines.new.past ≡ timelines.old.past }
    ensures hold_capacity { timelines.new.hold_capacity ≡ timelines.old.hold_capacity }
    ensures marks { timelines.new.max_marks ≡ timelines.old.max_marks }
    ensures few { vec_len edges.new
        ≤ vec_len edges.old + 2 * (length look.entry.held.now - from) }
    ensures capacity { vec_capacity edges.old ≤ vec_capacity edges.new }
{
    for number in from..look.held.len() as u32 {
        let hold = &look.held[number as usize];
        let place = Place {
            number,
            gap: gap_at(machine, hold.rule.resource),
            at: place_of(timelines, look, hold),
        };
        put_hold(timelines, edges, causes, look.held, hold, place);
    }
}
