//! Whether a board's live plans are those of a schedule, with more behind them or none; and what a plan more is held against.
ghost use Rattle.std.specs.Prelude.{◌≡◌, ℕ, ◌+◌, ◌-◌, ◌<◌, ◌≤◌, ◌^◌, ◌++◌, ◌∷◌, [], drop, filter, length, slice_get, slice_index, take, false, true, All, AllPairs, Contains, IfSome, Some, vec_capacity};
ghost use Rattle.tp_base.specs.Grows.{IsKnown};
ghost use Rattle.tp_base.specs.Net.{Keeps};
ghost use Rattle.tp_base.specs.declared.edges.PointId.{PointId as PointValue};
ghost use Rattle.tp_schedule.specs.LivePlans.{is_live};
ghost use Rattle.tp_schedule.specs.Plans.{IsEarlier, is_before, without};
ghost use Rattle.tp_schedule.specs.declared.parts.Plan.{Plan as PlanValue};
ghost use Rattle.tp_placing.specs.AddedEdges.{IsLineEnd, KeepEdges};
ghost use Rattle.tp_placing.specs.Inside.{most_plans};
ghost use Rattle.tp_placing.specs.LoadedNet.{HasPoints, firsts_from};
ghost use Rattle.tp_placing.specs.LoadedHolds.{ticks_in};

use crate::kept_edges::are_in_line;
use crate::kept_plans::is_live;
use crate::kept_ticks::tick_at;
use tp_base::{Edge, PointId, Tick};
use tp_machine::Machine;
use tp_schedule::{Plan, Schedule, SheetId, is_earlier};

/// How many plans there can be.
pub(crate) const MOST_LIVE: usize = 256;

/// Whether both plans have the same actions at the same points.
fn is_same_way(one: &Plan, other: &Plan) -> bool
    ensures { result ≡ true → (one.now.acts ≡ other.now.acts)
        × (one.now.points ≡ other.now.points) }
{
    if one.acts.as_slice() != other.acts.as_slice() {
        return false;
    }
    one.points.as_slice() == other.points.as_slice()
}

/// Whether both plans want the same.
fn is_same_want(one: &Plan, other: &Plan) -> bool
    ensures { result ≡ true
        → (one.now.name ≡ other.now.name) × (one.now.want ≡ other.now.want)
        × (one.now.goal ≡ other.now.goal) }
{
    if one.name != other.name {
        return false;
    }
    if one.want != other.want {
        return false;
    }
    one.goal == other.goal
}

/// Whether both are the same plan.
fn is_same_plan(one: &Plan, other: &Plan) -> bool
    ensures { result ≡ true → one.now ≡ other.now }
{
    if one.sheet != other.sheet {
        return false;
    }
    if one.kind != other.kind {
        return false;
    }
    if !is_same_want(one, other) {
        return false;
    }
    if !is_same_way(one, other) {
        return false;
    }
    one.released == other.released
}

/// Whether a plan stands at a place.
fn is_met(plans: &[Plan], at: usize, plan: &Plan) -> bool
    ensures met { result ≡ true
        → take (at + 1) plans.now ≡ take at plans.now ++ plan.now ∷ [] }
    ensures there { result ≡ true → at < length plans.now }
{
    at < plans.len() && is_same_plan(&plans[at], plan)
}

/// Where a live plan stands among those from a place on, in front of which none is live; or else adds it behind them. Where
/// another live plan stands before it, or there is no room for it, there is no such place.
fn meet(
    plans: &mut Vec<Plan>,
    machine: &Machine,
    now: Tick,
    from: usize,
    plan: &Plan,
) -> Option<usize>
    requires within { from ≤ length plans.old.items }
    requires live { is_live machine.now now plan.now ≡ true }
    requires space { most_plans ≤ vec_capacity plans.old }
    ensures met { IfSome result (λ at. filter (is_live machine.now now)
        (take (at + 1) plans.new.items)
        ≡ filter (is_live machine.now now) (take from plans.old.items) ++ plan.now ∷ []) }
    ensures there { IfSome result (λ at. at < length plans.new.items) }
    ensures kept { take (length plans.old.items) plans.new.items ≡ plans.old.items }
    ensures more { length plans.old.items ≤ length plans.new.items }
    ensures space { vec_capacity plans.old ≤ vec_capacity plans.new }
{
    for at in from..plans.len() {
        if is_same_plan(&plans[at], plan) {
            return Some(at);
        }
        if is_live(machine, now, &plans[at]) {
            return None;
        }
    }
    if plans.len() >= MOST_LIVE {
        return None;
    }
    plans.push_reserved(plan.copy());
    Some(plans.len() - 1)
}

/// Whether none of the plans from a place on is live.
fn are_over(plans: &[Plan], machine: &Machine, now: Tick, from: usize) -> bool
    ensures { result ≡ true → filter (is_live machine.now now) (drop from plans.now) ≡ [] }
{
    for at in from..plans.len() {
        if is_live(machine, now, &plans[at]) {
            return false;
        }
    }
    true
}

/// Adds the live plans of the schedule that stand behind these, where the live ones of these are the first ones. Answers whether
/// the live ones are the same then.
pub(crate) fn follow_live(
    plans: &mut Vec<Plan>,
    machine: &Machine,
    schedule: &Schedule,
    now: Tick,
) -> bool
    requires space { most_plans ≤ vec_capacity plans.old }
    ensures live { result ≡ true → filter (is_live machine.now now) plans.new.items
        ≡ filter (is_live machine.now now) schedule.now.plans }
    ensures kept { take (length plans.old.items) plans.new.items ≡ plans.old.items }
    ensures more { length plans.old.items ≤ length plans.new.items }
    ensures space { vec_capacity plans.old ≤ vec_capacity plans.new }
{
    let mut seen = 0;
    for at in 0..schedule.len() {
        let plan = schedule.plan_at(at);
        if is_live(machine, now, plan) {
            if is_met(plans, seen, plan) {
                seen += 1;
            } else {
                match meet(plans, machine, now, seen, plan) {
                    Some(place) => seen = place + 1,
                    None => return false,
                }
            }
        }
    }
    are_over(plans, machine, now, seen)
}

/// Whether all plans, which stand in the order of copies, are of copies before this one.
fn are_before(plans: &[Plan], copy: SheetId) -> bool
    requires in_order { AllPairs IsEarlier plans.now }
    ensures { result ≡ true → All (λ p. is_before p.sheet copy ≡ true) plans.now }
{
    if plans.is_empty() {
        return true;
    }
    is_earlier(plans[plans.len() - 1].sheet, copy)
}

/// Adds the plan of a copy, where the live ones of the plans are the other live ones of the schedule. Yes says that they are all
/// of them then. It says no where the plan would not stand behind them, and, since it looks no further, where the plan is not live.
pub(crate) fn follow_copy(
    plans: &mut Vec<Plan>,
    machine: &Machine,
    schedule: &Schedule,
    copy: SheetId,
    now: Tick,
) -> bool
    requires others { filter (is_live machine.now now) (without copy schedule.now.plans)
        ≡ filter (is_live machine.now now) plans.old.items }
    requires in_order { AllPairs IsEarlier plans.old.items }
    requires space { most_plans ≤ vec_capacity plans.old }
    ensures live { result ≡ true → filter (is_live machine.now now) plans.new.items
        ≡ filter (is_live machine.now now) schedule.now.plans }
    ensures kept { take (length plans.old.items) plans.new.items ≡ plans.old.items }
    ensures more { length plans.old.items ≤ length plans.new.items }
    ensures space { vec_capacity plans.old ≤ vec_capacity plans.new }
{
    schedule.ordered();
    let Some(at) = schedule.find(copy) else {
        return true;
    };
    let plan = schedule.plan_at(at);
    if !is_live(machine, now, plan) || !are_before(plans, copy) || plans.len() >= MOST_LIVE {
        return false;
    }
    plans.push_reserved(plan.copy());
    true
}

/// Adds the live plans of the schedule that stand behind these, where the live ones of these are the first ones. It looks at each
/// of them, unless a copy is given: then these are known to be the others than its plan. Answers whether they are the live ones
/// then.
pub(crate) fn follow_plans(
    plans: &mut Vec<Plan>,
    machine: &Machine,
    schedule: &Schedule,
    now: Tick,
    known: Option<SheetId>,
) -> bool
    requires known { IfSome known (λ copy.
        filter (is_live machine.now now) (without copy schedule.now.plans)
        ≡ filter (is_live machine.now now) plans.old.items) }
    requires in_order { AllPairs IsEarlier plans.old.items }
    requires space { most_plans ≤ vec_capacity plans.old }
    ensures live { result ≡ true → filter (is_live machine.now now) plans.new.items
        ≡ filter (is_live machine.now now) schedule.now.plans }
    ensures kept { take (length plans.old.items) plans.new.items ≡ plans.old.items }
    ensures more { length plans.old.items ≤ length plans.new.items }
    ensures space { vec_capacity plans.old ≤ vec_capacity plans.new }
{
    match known {
        Some(copy) => follow_copy(plans, machine, schedule, copy, now),
        None => follow_live(plans, machine, schedule, now),
    }
}

/// Whether each plan that isn't of a copy before this one is live. Looks at no others than those, which stand last.
pub(crate) fn are_later_live(plans: &[Plan], machine: &Machine, now: Tick, copy: SheetId) -> bool
    requires in_order { AllPairs IsEarlier plans.now }
    ensures { result ≡ true → (p : PlanValue) → Contains plans.now p
        → is_live machine.now now p ≡ false → is_before p.sheet copy ≡ true }
{
    let mut left = plans.len();
    'back: while left > 0 {
        left -= 1;
        if is_earlier(plans[left].sheet, copy) {
            return true;
        }
        if !is_live(machine, now, &plans[left]) {
            return false;
        }
    }
    true
}

/// Whether the last of the plans is of a later copy than the one before it.
pub(crate) fn is_last_behind(plans: &[Plan]) -> bool
    requires some { 0 < length plans.now }
    requires in_order { AllPairs IsEarlier (take (length plans.now - 1) plans.now) }
    ensures { result ≡ true → AllPairs IsEarlier plans.now }
{
    let last = plans.len() - 1;
    last == 0 || is_earlier(plans[last - 1].sheet, plans[last].sheet)
}

/// Whether a plan is live, and nothing of it is released.
pub(crate) fn is_fresh(plan: &Plan, machine: &Machine, now: Tick) -> bool
    ensures { result ≡ true → (is_live machine.now now plan.now ≡ true)
        × (plan.now.released ≡ 0) }
{
    plan.released == 0 && is_live(machine, now, plan)
}

/// Whether all plans are live.
pub(crate) fn are_live(plans: &[Plan], machine: &Machine, now: Tick) -> bool
    ensures { result ≡ true → filter (is_live machine.now now) plans.now ≡ plans.now }
{
    for plan in plans {
        if !is_live(machine, now, plan) {
            return false;
        }
    }
    true
}

/// Whether the plans' own ticks keep the edge.
fn is_kept(plans: &[Plan], firsts: &[PointId], edge: &Edge) -> bool
    requires formed { All HasPoints plans.now }
    requires firsts { firsts.now ≡ firsts_from 0 plans.now }
    requires known { IsKnown (length (ticks_in plans.now)) edge.now }
    ensures { result ≡ true → Keeps (slice_index (ticks_in plans.now)) edge.now }
{
    let from = tick_at(plans, firsts, plans.len(), edge.from);
    let to = tick_at(plans, firsts, plans.len(), edge.to);
    i64::from(from) + edge.weight <= i64::from(to)
}

/// Whether the plans' own ticks keep the edges.
pub(crate) fn are_kept(plans: &[Plan], firsts: &[PointId], edges: &[Edge]) -> bool
    requires formed { All HasPoints plans.now }
    requires firsts { firsts.now ≡ firsts_from 0 plans.now }
    requires known { All (IsKnown (length (ticks_in plans.now))) edges.now }
    ensures { result ≡ true → KeepEdges plans.now edges.now }
{
    for at in 0..edges.len() {
        if !is_kept(plans, firsts, &edges[at]) {
            return false;
        }
    }
    true
}

/// The end of the last plan before a place that is of the line of the plan there, if there is one.
pub(crate) fn line_end(plans: &[Plan], firsts: &[PointId], at: usize) -> Option<PointId>
    requires there { at < length plans.now }
    requires firsts { at ≤ length firsts.now }
    requires fits { (k : ℕ) (f : PointValue) (q : PlanValue) → slice_get firsts.now k ≡ Some f
        → slice_get plans.now k ≡ Some q → f.0 + length q.acts < 2 ^ 32 }
    ensures { (p : PlanValue) → slice_get plans.now at ≡ Some p
        → IsLineEnd plans.now firsts.now at p result }
{
    let mut left = at;
    'back: while left > 0 {
        left -= 1;
        if are_in_line(&plans[left], &plans[at]) {
            return Some(PointId(firsts[left].0 + plans[left].acts.len()));
        }
    }
    None
}
