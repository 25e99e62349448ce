//! The times of a network's least solution, written into a schedule.
ghost use Rattle.std.specs.Prelude.{◌≡◌, ◌≢◌, ◌⊎◌, ℕ, suc, ◌+◌, ◌^◌, ◌<◌, ◌≤◌, All, AllPairs, Bool, filter, length, map, slice_get, false, true, IsSome, Some, None};
ghost use Rattle.tp_base.specs.Net.{HasLeast, IsLeast};
ghost use Rattle.tp_schedule.specs.Limits.{most_plan_points};
ghost use Rattle.tp_schedule.specs.Plans.{IsEarlier, IsFormed, change_plan, plan_of, put_plan, with_points, without};
ghost use Rattle.tp_schedule.specs.Spots.{Ticks};
ghost use Rattle.tp_schedule.specs.Times.{ticks_from};
ghost use Rattle.tp_schedule.specs.declared.parts.Plan.{Plan as PlanValue};
ghost use Rattle.tp_constraints.specs.Numbers.{table_of};
ghost use Rattle.tp_placing.specs.Settled.{AreLeastFrom, AreOfSchedule, HasLeastPoints};
ghost use Rattle.tp_placing.specs.LoadedBoard.{AreFirsts};
ghost use Rattle.tp_placing.specs.Commits.{AreLeastTicks, retimed_in};

use tp_base::{Network, PointId, Tick};
use tp_schedule::{Plan, Points, Schedule};

/// The least times of so many points from one on.
pub(crate) fn times_from<N: Network>(net: &N, first: PointId, count: u32) -> Points
    requires few { count ≤ most_plan_points }
    requires known { first.0 + count ≤ length (N.reading.net net.now).lows }
    requires fits { first.0 + count < 2 ^ 32 }
    ensures times { (sol : ℕ → ℕ) → IsLeast (N.reading.net net.now) sol → result
        ≡ ticks_from sol first.0 count }
    ensures count { length result ≡ count }
{
    let mut points = Points::new();
    for at in 0..count {
        points.push(net.earliest(PointId(first.0 + at)));
    }
    points
}

/// Whether the points from one on have these least times.
fn have_times<N: Network>(net: &N, first: PointId, times: &[Tick]) -> bool
    requires known { first.0 + length times.now ≤ length (N.reading.net net.now).lows }
    requires fits { first.0 + length times.now < 2 ^ 32 }
    ensures same { result ≡ true → AreLeastFrom (N.reading.net net.now) first.0 times.now }
    ensures other { result ≡ false → (sol : ℕ → ℕ) → IsLeast (N.reading.net net.now) sol
        → times.now ≢ ticks_from sol first.0 (length times.now) }
{
    for (at, time) in times.iter().enumerate() {
        if net.earliest(PointId(first.0 + at as u32)) != *time {
            return false;
        }
    }
    true
}

/// Whether the plan at a place has its least times.
pub(crate) fn is_settled<N: Network>(net: &N, plans: &[Plan], firsts: &[PointId], at: usize) -> bool
    requires firsts { AreFirsts 0 plans.now firsts.now }
    requires known { length (table_of plans.now) ≤ length (N.reading.net net.now).lows }
    requires fits { length (table_of plans.now) < 2 ^ 32 }
    requires formed { All IsFormed plans.now }
    requires there { at < length plans.now }
    ensures { result ≡ true → (p : PlanValue) → slice_get plans.now at ≡ Some p
        → HasLeastPoints (N.reading.net net.now) plans.now p }
{
    have_times(net, firsts[at], plans[at].points.as_slice())
}

/// Whether the plans have their least times.
pub(crate) fn are_settled<N: Network>(net: &N, plans: &[Plan], firsts: &[PointId]) -> bool
    requires firsts { AreFirsts 0 plans.now firsts.now }
    requires known { length (table_of plans.now) ≤ length (N.reading.net net.now).lows }
    requires fits { length (table_of plans.now) < 2 ^ 32 }
    requires formed { All IsFormed plans.now }
    ensures { result ≡ true
        → All (HasLeastPoints (N.reading.net net.now) plans.now) plans.now }
{
    for at in 0..plans.len() {
        if !is_settled(net, plans, firsts, at) {
            return false;
        }
    }
    true
}

/// Gives a plan of the schedule its least times, and returns whether any of its points moved. A plan that has its least times
/// already need not be one of the schedule.
fn write_points<N: Network>(net: &N, plan: &Plan, first: PointId, schedule: &mut Schedule) -> bool
    requires formed { IsFormed plan.now }
    requires planned { (plan_of plan.now.sheet schedule.old.plans ≡ Some plan.now)
        ⊎ AreLeastFrom (N.reading.net net.now) first.0 plan.now.points }
    requires known { first.0 + length plan.now.acts < length (N.reading.net net.now).lows }
    requires fits { first.0 + length plan.now.acts + 1 < 2 ^ 32 }
    requires solved { HasLeast (N.reading.net net.now) }
    ensures plans { plan_of plan.now.sheet schedule.old.plans ≡ Some plan.now
        → (sol : ℕ → ℕ) → IsLeast (N.reading.net net.now) sol → schedule.new.plans
        ≡ change_plan plan.now.sheet
        (with_points (ticks_from sol first.0 (suc (length plan.now.acts)))) schedule.old.plans }
    ensures settled { AreLeastFrom (N.reading.net net.now) first.0 plan.now.points
        → schedule.new.plans ≡ schedule.old.plans }
    ensures unmoved { result ≡ false → schedule.new.plans ≡ schedule.old.plans }
    ensures spare { schedule.new.spare ≡ schedule.old.spare }
{
    if have_times(net, first, plan.points.as_slice()) {
        return false;
    }
    let points = times_from(net, first, plan.acts.len() + 1);
    schedule.set_points(plan.sheet, &points);
    true
}

/// Gives each of the loaded plans its least times in the schedule. Answers whether one had others. It looks at none of them
/// where they are known to have these times. Those that are no plans of the schedule have them, and are not written.
pub(crate) fn write_times<N: Network>(
    net: &N,
    plans: &[Plan],
    firsts: &[PointId],
    schedule: &mut Schedule,
    known: bool,
) -> bool
    requires settled { known ≡ true
        → All (HasLeastPoints (N.reading.net net.now) plans.now) plans.now }
    requires firsts { AreFirsts 0 plans.now firsts.now }
    requires known { length (table_of plans.now) ≤ length (N.reading.net net.now).lows }
    requires fits { length (table_of plans.now) < 2 ^ 32 }
    requires formed { All IsFormed plans.now }
    requires in_order { AllPairs IsEarlier plans.now }
    requires schedule { AllPairs IsEarlier schedule.old.plans }
    requires planned { (mine : PlanValue → Bool)
        × AreOfSchedule (N.reading.net net.now) plans.now schedule.old.plans mine }
    requires solved { HasLeast (N.reading.net net.now) }
    ensures times { (mine : PlanValue → Bool)
        → AreOfSchedule (N.reading.net net.now) plans.now schedule.old.plans mine
        → (t : Ticks) → AreLeastTicks (N.reading.net net.now) (table_of plans.now) t
        → schedule.new.plans ≡ map (retimed_in (filter mine plans.now) t) schedule.old.plans }
    ensures unmoved { result ≡ false → schedule.new.plans ≡ schedule.old.plans }
    ensures spare { schedule.new.spare ≡ schedule.old.spare }
{
    if known {
        return false;
    }
    let mut moved = false;
    for (at, plan) in plans.iter().enumerate() {
        if write_points(net, plan, firsts[at], schedule) {
            moved = true;
        }
    }
    moved
}

/// Puts the plan into the schedule, in place of its copy's plan where there is one.
pub(crate) fn write_plan(schedule: &mut Schedule, plan: Plan)
    requires formed { IsFormed plan }
    requires capacity { plan_of plan.sheet schedule.old.plans ≡ None → 0 < schedule.old.spare }
    ensures plans { schedule.new.plans ≡ put_plan plan (without plan.sheet schedule.old.plans) }
    ensures in_order { AllPairs IsEarlier schedule.new.plans }
    ensures new_copy { plan_of plan.sheet schedule.old.plans ≡ None → schedule.new.spare + 1
        ≡ schedule.old.spare }
    ensures in_flight { IsSome (plan_of plan.sheet schedule.old.plans) → schedule.new.spare
        ≡ schedule.old.spare }
{
    schedule.ordered();
    match schedule.find(plan.sheet) {
        Some(_) => schedule.replace(plan),
        None => schedule.put(plan),
    }
}
