//! The schedule of a standing.
ghost use Rattle.std.specs.Prelude.{◌≡◌, ◌↔◌, ◌≤◌, ◌<◌, ℕ, ◌||◌, All, IfOk, IsTrue, length, nat_le};
ghost use Rattle.std.specs.List.{list_all};
ghost use Rattle.tp_schedule.specs.Answers.{IsLeast, KeepsFloors, KeepsHorizon};
ghost use Rattle.tp_schedule.specs.Holders.{runs_from};
ghost use Rattle.tp_schedule.specs.Legality.{IsLegal};
ghost use Rattle.tp_schedule.specs.Limits.{most_live};
ghost use Rattle.tp_schedule.specs.PlannerAnswers.{last_tick, none_exempt};
ghost use Rattle.tp_schedule.specs.Plans.{IsFormed, point};
ghost use Rattle.tp_schedule.specs.Routes.{is_act_allowed};
ghost use Rattle.tp_schedule.specs.declared.parts.SheetId.{SheetId};
ghost use Rattle.tp_event_rules.specs.StateInvariants.{is_clear};
ghost use Rattle.tp_event_rules.specs.Moments.{is_started};
ghost use Rattle.tp_event_rules.specs.Ready.{HasStartedWhole};
ghost use Rattle.tp_event_rules.specs.Seen.{HasStarted};
ghost use Rattle.tp_session_standing.specs.StandingStates.{standing_state};
ghost use Rattle.tp_snapshot_rules.specs.Rules.{AreInOrder, AreOnTheirWay, HasCome, KeepsSchedule, KeepsTimes};

use crate::plans::{is_front, is_to_tray};
use std::alloc::Global;
use tp_base::{Memory, Tick};
use tp_jobs::Standing;
use tp_machine::{ActId, Machine, Outs, allowed};
use tp_schedule::{Plan, Schedule};
use tp_schedule_check::{find_clash, find_early, find_past_horizon};
use tp_session_standing::schedule_of;

/// Whether all actions of the plan have started.
fn have_started(now: Tick, plan: &Plan) -> bool
    requires { IsFormed plan.now }
    ensures { IsTrue result
        ↔ ((i : ℕ) → i < length plan.now.acts → point plan.now i ≤ now) }
{
    'acts: for at in 0..plan.acts.len() {
        if now < plan.points.get(at) {
            return false;
        }
    }
    true
}

/// Whether all actions of the plan have started, where it isn't whole.
fn has_started_whole(now: Tick, plan: &Plan) -> bool
    requires { IsFormed plan.now }
    ensures { IsTrue result ↔ HasStartedWhole now plan.now }
{
    !is_front(plan) || have_started(now, plan)
}

/// Whether the plan has started, where it is a purge.
fn has_started(now: Tick, plan: &Plan) -> bool
    requires { IsFormed plan.now }
    ensures { IsTrue result ↔ HasStarted now plan.now }
{
    is_to_tray(plan.goal) || plan.points.get(0) <= now
}

fn is_act_allowed(machine: &Machine, outs: Outs, act: ActId) -> bool
    ensures { result ≡ is_act_allowed machine.now outs act }
{
    usize::from(act.0) < machine.actions.as_slice().len() && allowed(machine, outs, act)
}

/// Whether the action has started, or uses no module that is out.
fn is_run_clear(machine: &Machine, outs: Outs, now: Tick, act: ActId, start: Tick) -> bool
    ensures { result ≡ (nat_le start now || is_act_allowed machine.now outs act) }
{
    start <= now || is_act_allowed(machine, outs, act)
}

/// Whether none of the actions that have not started uses a module that is out.
fn are_clear(machine: &Machine, outs: Outs, now: Tick, acts: &[ActId], points: &[Tick]) -> bool
    ensures { (sheet : SheetId) (number : ℕ)
        → list_all (λ run. is_started now run || is_act_allowed machine.now outs run.act)
        (runs_from sheet number acts.now points.now) ≡ result }
{
    if let [act, later @ ..] = acts
        && let [start, _, ..] = points
    {
        let after = are_clear(machine, outs, now, later, &points[1..]);
        is_run_clear(machine, outs, now, *act, *start) && after
    } else {
        true
    }
}

fn is_clear(machine: &Machine, standing: &Standing, plan: &Plan) -> bool
    ensures { result
        ≡ is_clear machine.now (standing_state machine.now standing.entry.now) plan.now }
{
    let acts = plan.acts.as_slice();
    let points = plan.points.as_slice();
    are_clear(machine, standing.outs, standing.now, acts, points)
}

/// Whether the plan has come as far as it must.
fn has_come(machine: &Machine, standing: &Standing, plan: &Plan) -> bool
    requires { IsFormed plan.now }
    ensures { IsTrue result ↔ HasCome machine.now standing.entry.now plan.now }
{
    let front = has_started_whole(standing.now, plan);
    let purge = has_started(standing.now, plan);
    let clear = is_clear(machine, standing, plan);
    front && purge && clear
}

fn have_all_come(machine: &Machine, standing: &Standing, plans: &[Plan]) -> bool
    requires { All IsFormed plans.now }
    ensures { IsTrue result ↔ All (HasCome machine.now standing.entry.now) plans.now }
{
    for plan in plans {
        if !has_come(machine, standing, plan) {
            return false;
        }
    }
    true
}

fn is_legal(alloc: Global, machine: &Machine, schedule: &Schedule) -> Result<bool, Memory>
    ensures { IfOk result (λ legal. IsTrue legal ↔ IsLegal machine.now schedule.now.plans) }
{
    Ok(find_clash(alloc, machine, schedule)?.is_none())
}

fn is_within(machine: &Machine, now: Tick, schedule: &Schedule) -> bool
    ensures { IsTrue result ↔ KeepsHorizon machine.now now schedule.now.plans }
{
    find_past_horizon(machine, now, schedule).is_none()
}

fn is_least(
    alloc: Global,
    machine: &Machine,
    now: Tick,
    schedule: &Schedule,
) -> Result<bool, Memory>
    requires moment { now ≤ last_tick }
    requires legal { IsLegal machine.now schedule.now.plans }
    requires floors { KeepsFloors machine.now now none_exempt schedule.now.plans }
    requires horizon { KeepsHorizon machine.now now schedule.now.plans }
    ensures { IfOk result (λ least. IsTrue least
        ↔ IsLeast machine.now now none_exempt schedule.now.plans) }
{
    let early = find_early(alloc, machine, now, None, schedule)?;
    Ok(early.is_none())
}

/// Whether the schedule is legal and within the horizon, and its plans have come as far as they must. Takes time in proportion to
/// the plans, points and holds and their sort.
pub(crate) fn keeps_schedule(
    alloc: Global,
    machine: &Machine,
    standing: &Standing,
) -> Result<bool, Memory>
    requires few { length standing.now.plans ≤ most_live }
    requires in_order { AreInOrder standing.now.plans }
    requires courses { AreOnTheirWay machine.now standing.now }
    ensures { IfOk result (λ kept. IsTrue kept
        ↔ KeepsSchedule machine.now standing.entry.now) }
{
    let plans = standing.plans.as_slice();
    let schedule = schedule_of(alloc, plans)?;
    let legal = is_legal(alloc, machine, &schedule)?;
    if !legal {
        return Ok(false);
    }
    if !is_within(machine, standing.now, &schedule) {
        return Ok(false);
    }
    Ok(have_all_come(machine, standing, plans))
}

/// Whether no point of the schedule could be earlier. Takes time in proportion to the plans, points and holds and their sort.
pub(crate) fn keeps_times(
    alloc: Global,
    machine: &Machine,
    standing: &Standing,
) -> Result<bool, Memory>
    requires few { length standing.now.plans ≤ most_live }
    requires moment { standing.now.now ≤ last_tick }
    requires legal { IsLegal machine.now standing.now.plans }
    requires floors { KeepsFloors machine.now standing.now.now none_exempt standing.now.plans }
    requires horizon { KeepsHorizon machine.now standing.now.now standing.now.plans }
    ensures { IfOk result (λ kept. IsTrue kept ↔ KeepsTimes machine.now standing.entry.now) }
{
    let schedule = schedule_of(alloc, standing.plans.as_slice())?;
    is_least(alloc, machine, standing.now, &schedule)
}
