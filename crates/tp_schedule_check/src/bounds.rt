//! Whether a schedule keeps floors and horizon, and where not, a point that breaks them.
ghost use Rattle.std.specs.Prelude.{◌≡◌, ℕ, ◌+◌, ◌<◌, ◌≤◌, ◌↔◌, IsFalse, IsTrue, MatchOption, length};
ghost use Rattle.tp_schedule.specs.Answers.{KeepsFloors, KeepsHorizon};
ghost use Rattle.tp_schedule.specs.Plans.{IsFormed, is_fixed, point};
ghost use Rattle.tp_schedule_check.specs.Bounds.{EndsWithin, IsBelowFloor, IsLowStart, IsPast, IsPastHorizon, StartsAbove};
ghost use Rattle.tp_schedule_check.specs.Early.{is_exempt};

use crate::early::{is_exempt, is_fixed};
use tp_base::Tick;
use tp_machine::Machine;
use tp_schedule::{Plan, Schedule, SheetId};

/// Point `at` of the copy's plan, and the tick at which it stands.
#[derive(Clone, Copy, PartialEq, Eq, Debug)]
pub struct PlanPoint {
    pub sheet: SheetId,
    pub at: u32,
    pub tick: Tick,
}

fn is_low_start(plan: &Plan, at: u32, floor: u64) -> bool
    requires { at < length plan.now.points }
    ensures { IsTrue result ↔ (point plan.now at ≤ floor) }
{
    u64::from(plan.points.get(at)) <= floor
}

/// The first unreleased start at or below the floor.
fn low_start(plan: &Plan, floor: u64) -> Option<u32>
    requires { IsFormed plan.now }
    ensures { MatchOption result (StartsAbove floor plan.now) (IsLowStart floor plan.now) }
{
    'starts: for at in plan.released..plan.acts.len() {
        if is_low_start(plan, at, floor) {
            return Some(at);
        }
    }
    None
}

fn low_start_of(plan: &Plan, floor: u64, exempt: Option<SheetId>) -> Option<u32>
    requires { IsFormed plan.now }
    ensures { MatchOption result (IsFalse (is_exempt exempt plan.now)
        → StartsAbove floor plan.now)
        (λ at. IsFalse (is_exempt exempt plan.now) × IsLowStart floor plan.now at) }
{
    if is_exempt(exempt, plan) {
        None
    } else {
        low_start(plan, floor)
    }
}

/// The first start of an unreleased action that is not above now + lead, or None exactly where each is. The plan of the exempt
/// copy has no floors.
pub fn find_below_floor(
    machine: &Machine,
    now: Tick,
    exempt: Option<SheetId>,
    schedule: &Schedule,
) -> Option<PlanPoint>
    ensures { MatchOption result
        (KeepsFloors machine.now now (is_exempt exempt) schedule.now.plans)
        (IsBelowFloor machine.now now (is_exempt exempt) schedule.now.plans) }
{
    let floor = u64::from(now) + u64::from(machine.lead);
    'plans: for place in 0..schedule.len() {
        let plan = schedule.plan_at(place);
        match low_start_of(plan, floor, exempt) {
            Some(at) => {
                return Some(PlanPoint {
                    sheet: plan.sheet,
                    at,
                    tick: plan.points.get(at),
                });
            }
            None => {}
        }
    }
    None
}

fn is_past(plan: &Plan, at: u32, horizon: u64) -> bool
    requires { at < length plan.now.points }
    ensures { IsTrue result ↔ (IsFalse (is_fixed plan.now at) × (horizon < point plan.now at)) }
{
    let fixed = is_fixed(plan, at);
    !fixed && horizon < u64::from(plan.points.get(at))
}

/// The first point that is not fixed and past the horizon.
fn past_point(plan: &Plan, horizon: u64) -> Option<u32>
    requires { IsFormed plan.now }
    ensures { MatchOption result (EndsWithin horizon plan.now) (IsPast horizon plan.now) }
{
    'points: for at in 0..plan.acts.len() + 1 {
        if is_past(plan, at, horizon) {
            return Some(at);
        }
    }
    None
}

/// The first point that is not fixed and is past the horizon, now + window, or None exactly where there is none.
pub fn find_past_horizon(machine: &Machine, now: Tick, schedule: &Schedule) -> Option<PlanPoint>
    ensures { MatchOption result (KeepsHorizon machine.now now schedule.now.plans)
        (IsPastHorizon machine.now now schedule.now.plans) }
{
    let horizon = u64::from(now) + u64::from(machine.window);
    'plans: for place in 0..schedule.len() {
        let plan = schedule.plan_at(place);
        match past_point(plan, horizon) {
            Some(at) => {
                return Some(PlanPoint {
                    sheet: plan.sheet,
                    at,
                    tick: plan.points.get(at),
                });
            }
            None => {}
        }
    }
    None
}
