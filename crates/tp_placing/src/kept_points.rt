//! The points of a schedule that is loaded, with their bounds.
ghost use Rattle.std.specs.Prelude.{◌≡◌, ◌+◌, ◌<◌, ◌≤◌, ◌^◌, ◌++◌, false, length, All, vec_len, vec_capacity};
ghost use Rattle.tp_base.specs.Readings.{IsSameSize};
ghost use Rattle.tp_base.specs.Net.{HasLeast};
ghost use Rattle.tp_schedule.specs.Plans.{IsFormed, is_fixed};
ghost use Rattle.tp_constraints.specs.Gaps.{cap_of, low_of};
ghost use Rattle.tp_placing.specs.LoadedNet.{HasBounds, caps_of, firsts_from, lows_of, point_count, with_bounds, with_plans};

use tp_base::{Network, PointId, Tick};
use tp_schedule::{Kind, Plan};

/// Whether the point is the start or the end of a released action, or any point of a front.
fn is_fixed(plan: &Plan, at: u32) -> bool
    ensures { result ≡ is_fixed plan.now at }
{
    let begun = 0 < plan.released && at <= plan.released;
    plan.kind == Kind::Front || begun
}

/// The least tick of a point: its own where it is fixed, and above the floor for an unreleased start.
pub(crate) fn lowest(plan: &Plan, at: u32, floor: Tick) -> Tick
    requires formed { IsFormed plan.now }
    requires within { at ≤ length plan.now.acts }
    requires fits { floor + 1 < 2 ^ 32 }
    ensures { result ≡ low_of floor (λ _. false) plan.now at }
{
    let unreleased = plan.released <= at && at < plan.acts.len();
    if is_fixed(plan, at) {
        plan.points.get(at)
    } else if unreleased {
        floor + 1
    } else {
        0
    }
}

/// The greatest tick of a point: its own where it is fixed, or the horizon.
pub(crate) fn highest(plan: &Plan, at: u32, horizon: Tick) -> Tick
    requires formed { IsFormed plan.now }
    requires within { at ≤ length plan.now.acts }
    ensures { result ≡ cap_of horizon plan.now at }
{
    if is_fixed(plan, at) {
        plan.points.get(at)
    } else {
        horizon
    }
}

/// Adds the points of a plan.
pub(crate) fn add_plan<N: Network>(net: &mut N, plan: &Plan, floor: Tick, horizon: Tick)
    requires bounds { HasBounds floor horizon plan.now }
    requires capacity { length (N.reading.net net.old).lows + (length plan.now.acts + 1)
        ≤ N.reading.max_points net.old }
    requires fits { floor + 1 < 2 ^ 32 }
    requires least { HasLeast (N.reading.net net.old) }
    ensures added { N.reading.net net.new ≡ with_bounds (lows_of floor plan.now)
        (caps_of horizon plan.now)
        (N.reading.net net.old) }
    ensures solved { HasLeast (N.reading.net net.new) }
    ensures past { N.reading.past net.new ≡ N.reading.past net.old }
    ensures same_size { IsSameSize N.reading net.old net.new }
{
    for at in 0..plan.acts.len() + 1 {
        let low = lowest(plan, at, floor);
        let high = highest(plan, at, horizon);
        match net.point(low, high) {
            Ok(_) => {}
            Err(_) => unreachable!(),
        }
    }
}

/// Adds the points of plans, one plan after another, and the first points to the list. Answers how many points there are.
pub(crate) fn add_points<N: Network>(
    net: &mut N,
    firsts: &mut Vec<PointId>,
    plans: &[Plan],
    floor: Tick,
    horizon: Tick,
) -> u32
    requires bounds { All (HasBounds floor horizon) plans.now }
    requires capacity { length (N.reading.net net.old).lows + point_count plans.now
        ≤ N.reading.max_points net.old }
    requires space { vec_len firsts.old + length plans.now ≤ vec_capacity firsts.old }
    requires few { point_count plans.now < 2 ^ 32 }
    requires fits { floor + 1 < 2 ^ 32 }
    requires least { HasLeast (N.reading.net net.old) }
    ensures count { result ≡ point_count plans.now }
    ensures added { N.reading.net net.new
        ≡ with_plans floor horizon plans.now (N.reading.net net.old) }
    ensures firsts { firsts.new.items ≡ firsts.old.items ++ firsts_from 0 plans.now }
    ensures space { vec_capacity firsts.old ≤ vec_capacity firsts.new }
    ensures solved { HasLeast (N.reading.net net.new) }
    ensures past { N.reading.past net.new ≡ N.reading.past net.old }
    ensures same_size { IsSameSize N.reading net.old net.new }
{
    let mut first = 0;
    for plan in plans {
        add_plan(net, plan, floor, horizon);
        match firsts.push(PointId(first)) {
            Ok(()) => {}
            Err(_) => unreachable!(),
        }
        first = first + plan.acts.len() + 1;
    }
    first
}
