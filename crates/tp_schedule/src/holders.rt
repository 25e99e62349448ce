//! Which plans hold a resource at a tick or later.
ghost use Rattle.std.specs.Prelude.{◌≡◌, ℕ, ◌||◌, ◌≤◌, ◌↔◌, length, filter, nat_lt, count_by, pos, ◌+ℤ◌, int_lt};
ghost use Rattle.std.specs.List.{list_any};
ghost use Rattle.tp_machine.specs.ModuleUse.{action_at};
ghost use Rattle.tp_schedule.specs.declared.parts.SheetId.{SheetId};
ghost use Rattle.tp_schedule.specs.Holders.{holds_at, holds_of_act, is_held_by, runs_from};
ghost use Rattle.tp_schedule.specs.LivePlans.{ends_after, is_held_after, is_live};

use crate::parts::Plan;
use tp_base::Tick;
use tp_machine::{ActId, HoldRule, Machine, ResId, gap_at, span};

/// Whether the hold covers the tick on the resource, where its action runs from `start` to `end`.
fn is_held(hold: &HoldRule, resource: ResId, start: Tick, end: Tick, at: Tick) -> bool
    ensures { result ≡ is_held_by hold.now resource.0 start end at }
{
    let (begins, ends) = span(hold, start, end);
    let covered = begins <= i64::from(at) && i64::from(at) < ends;
    hold.resource == resource && covered
}

fn is_any_held(holds: &[HoldRule], resource: ResId, start: Tick, end: Tick, at: Tick) -> bool
    ensures { result ≡ list_any (λ h. is_held_by h resource.0 start end at) holds.now }
{
    holds
        .iter()
        .any(|hold| is_held(hold, resource, start, end, at))
}

/// The holds of the action.
pub(crate) fn holds_of(machine: &Machine, act: ActId) -> &[HoldRule]
    ensures { result.now ≡ holds_of_act (action_at machine.now act.0) }
{
    match machine.actions.as_slice().get(usize::from(act.0)) {
        Some(action) => action.holds.as_slice(),
        None => &[],
    }
}

/// How many of the actions hold the resource at the tick.
pub(crate) fn count_holders(
    machine: &Machine,
    resource: ResId,
    at: Tick,
    acts: &[ActId],
    points: &[Tick],
) -> u64
    ensures count { (sheet : SheetId) (number : ℕ)
        → length (filter (holds_at machine.now resource.0 at)
        (runs_from sheet number acts.now points.now)) ≡ result }
    ensures within { result ≤ length acts.now }
{
    if let [act, later @ ..] = acts
        && let [start, end, ..] = points
    {
        let after = count_holders(machine, resource, at, later, &points[1..]);
        if is_any_held(holds_of(machine, *act), resource, *start, *end, at) {
            after + 1
        } else {
            after
        }
    } else {
        0
    }
}

fn does_end_after(machine: &Machine, hold: &HoldRule, start: Tick, end: Tick, now: Tick) -> bool
    ensures { result ≡ ends_after machine.now now start end hold.now }
{
    let gap = gap_at(machine, hold.resource);
    is_before(now, span(hold, start, end).1, gap)
}

/// Whether the tick is before the one that stands a gap behind the end.
fn is_before(now: Tick, end: i64, gap: u32) -> bool
    ensures { result ≡ int_lt (pos now) (end +ℤ pos gap) }
{
    i64::from(now) - i64::from(gap) < end
}

fn does_any_end_after(
    machine: &Machine,
    holds: &[HoldRule],
    start: Tick,
    end: Tick,
    now: Tick,
) -> bool
    ensures { result ≡ list_any (ends_after machine.now now start end) holds.now }
{
    holds
        .iter()
        .any(|hold| does_end_after(machine, hold, start, end, now))
}

/// Whether a hold of the actions, with the gap behind it, ends after the moment.
fn is_any_held_after(machine: &Machine, now: Tick, acts: &[ActId], points: &[Tick]) -> bool
    ensures { (sheet : SheetId) (number : ℕ)
        → list_any (is_held_after machine.now now) (runs_from sheet number acts.now points.now)
        ≡ result }
{
    if let [act, later @ ..] = acts
        && let [start, end, ..] = points
    {
        let here = does_any_end_after(machine, holds_of(machine, *act), *start, *end, now);
        let after = is_any_held_after(machine, now, later, &points[1..]);
        here || after
    } else {
        false
    }
}

fn is_any_after(points: &[Tick], now: Tick) -> bool
    ensures { result ≡ list_any (nat_lt now) points.now }
{
    points.iter().any(|point| now < *point)
}

/// Whether a point of the plan, or the end of one of its holds with the gap behind it, is above the moment.
pub fn is_plan_live(machine: &Machine, now: Tick, plan: &Plan) -> bool
    ensures { result ≡ is_live machine.now now plan.now }
{
    let points = plan.points.as_slice();
    let moves = is_any_after(points, now);
    let holds = is_any_held_after(machine, now, plan.acts.as_slice(), points);
    moves || holds
}

pub(crate) fn count_live(machine: &Machine, now: Tick, plans: &[Plan]) -> usize
    ensures count { result ≡ count_by (is_live machine.now now) plans.now }
    ensures within { result ≤ length plans.now }
{
    plans
        .iter()
        .filter(|plan| is_plan_live(machine, now, plan))
        .count()
}
