//! What is wrong with a plan by itself.
ghost use Rattle.std.specs.Prelude.{◌≡◌, [], ◌∷◌, IfOk, IfSome, Some};
ghost use Rattle.tp_schedule_check.specs.Alike.{KeepsPoints};
ghost use Rattle.tp_schedule_check.specs.Early.{is_exempt};
ghost use Rattle.tp_schedule.specs.Answers.{KeepsFloors, KeepsHorizon, unmoved};
ghost use Rattle.tp_schedule.specs.Plans.{IsFormed};
ghost use Rattle.tp_log_planner.specs.Breaches.{IsOffByItself, IsOutOfBounds, IsUnkept};
ghost use Rattle.tp_log_planner.specs.ToldMoves.{IsKeptPlan};
ghost use Rattle.tp_log_planner.specs.Reasons.{IsOff};

use crate::failure::Wrong;
use std::alloc::Global;
use tp_base::{Memory, Tick};
use tp_machine::Machine;
use tp_schedule::{Plan, Schedule, SheetId};
use tp_schedule_check::{Unlike, find_below_floor, find_misfit, find_past_horizon, find_unlike};

/// A schedule of this plan alone.
fn alone(alloc: Global, plan: &Plan) -> Result<Schedule, Memory>
    requires { IsFormed plan.now }
    ensures { IfOk result (λ schedule. schedule.plans ≡ plan.now ∷ []) }
{
    let mut schedule = Schedule::new(alloc);
    schedule.reserve()?;
    schedule.put(plan.copy());
    Ok(schedule)
}

fn illegal(first: i64, second: i64) -> Option<Wrong>
    ensures { result ≡ Some (Wrong.Illegal first second) }
{
    Some(Wrong::Illegal { first, second })
}

/// A start that is not above now + lead, or a point that is past the horizon.
fn find_out_of_bounds(
    machine: &Machine,
    now: Tick,
    exempt: Option<SheetId>,
    schedule: &Schedule,
) -> Option<Wrong>
    ensures breaks { IfSome result (λ reason.
        KeepsFloors machine.now now (is_exempt exempt) schedule.now.plans
        → KeepsHorizon machine.now now schedule.now.plans → ⊥) }
    ensures why { IfSome result
        (IsOff ⊥ (IsOutOfBounds machine.now now exempt schedule.now.plans)) }
{
    match find_below_floor(machine, now, exempt, schedule) {
        Some(low) => {
            return illegal(
                i64::from(low.tick),
                i64::from(now) + i64::from(machine.lead),
            );
        }
        None => {}
    }
    match find_past_horizon(machine, now, schedule) {
        Some(late) => illegal(
            i64::from(late.tick),
            i64::from(now) + i64::from(machine.window),
        ),
        None => None,
    }
}

/// What the plan breaks by itself at the moment: durations, floors or the horizon. The exempt copy has no floors.
pub(crate) fn find_in_plan(
    alloc: Global,
    machine: &Machine,
    now: Tick,
    exempt: Option<SheetId>,
    plan: &Plan,
) -> Result<Option<Wrong>, Memory>
    requires { IsFormed plan.now }
    ensures breaks { IfOk result (λ found. IfSome found
        (λ reason. IsKeptPlan machine.now now exempt plan.now → ⊥)) }
    ensures why { IfOk result (λ found. IfSome found
        (IsOff ⊥ (IsOffByItself machine.now now exempt plan.now))) }
{
    match find_misfit(machine, plan) {
        Some(misfit) => return Ok(illegal(misfit.lasts, i64::from(misfit.limit))),
        None => {}
    }
    let alone = alone(alloc, plan)?;
    Ok(find_out_of_bounds(machine, now, exempt, &alone))
}

/// A fixed point of the plan that stands elsewhere in the other one.
pub(crate) fn find_unkept(alloc: Global, plan: &Plan, other: &Plan) -> Result<Option<Wrong>, Memory>
    requires formed { IsFormed plan.now }
    requires other_formed { IsFormed other.now }
    requires same { unmoved other.now ≡ unmoved plan.now }
    ensures breaks { IfOk result (λ found. IfSome found
        (λ reason. KeepsPoints plan.now other.now → ⊥)) }
    ensures why { IfOk result (λ found. IfSome found (IsOff ⊥ (IsUnkept plan.now other.now))) }
{
    let before = alone(alloc, plan)?;
    let after = alone(alloc, other)?;
    match find_unlike(&before, &after, None) {
        Some(Unlike::Moved { stood, stands, .. }) => {
            Ok(illegal(i64::from(stands), i64::from(stood)))
        }
        _ => Ok(None),
    }
}
