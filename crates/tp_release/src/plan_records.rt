//! What a move of the clock tells of plans.

ghost use Rattle.std.specs.Prelude.{◌≡◌, ℕ, ◌++◌, ◌<◌, ◌≤◌, length, map, flat_map, OnOk, IfOk};
ghost use Rattle.tp_schedule.specs.Answers.{KeepsFloors};
ghost use Rattle.tp_schedule.specs.Legality.{IsLegal};
ghost use Rattle.tp_schedule.specs.PlannerAnswers.{none_exempt, last_tick};
ghost use Rattle.tp_schedule.specs.Plans.{IsTimedPlan, point};
ghost use Rattle.tp_event_rules.specs.Clock.{clock_tells, deliveries, is_done_between, release_of, releases};
ghost use Rattle.tp_event_rules.specs.Labels.{end_location};
ghost use Rattle.tp_event_rules.specs.Moments.{due_until};

use crate::dated::{Dated, sort_by_moment, undated};
use std::alloc::Global;
use tp_base::{Memory, Tick};
use tp_event_rules::Tell;
use tp_machine::{LocId, Machine};
use tp_schedule::{Kind, Plan, Schedule};

/// Where the plan's last action leads.
fn end_of_way(machine: &Machine, plan: &Plan) -> LocId
    requires timed { IsTimedPlan machine.now plan.now }
    ensures { result ≡ end_location machine.now plan.now }
{
    let last = plan.acts.get(plan.acts.len() - 1);
    machine.actions.get(u32::from(last.0)).to
}

/// Whether the plan is whole and ends after the one moment, and by the other.
fn is_done(plan: &Plan, now: Tick, to: Tick) -> bool
    requires points { length plan.now.acts < length plan.now.points }
    ensures { result ≡ is_done_between now to plan.now }
{
    let end = plan.points.get(plan.acts.len());
    match plan.kind {
        Kind::Front => false,
        Kind::Whole => now < end && end <= to,
    }
}

/// Tells that the plan is done, if it is.
fn tell_done(
    told: &mut Vec<Dated>,
    machine: &Machine,
    plan: &Plan,
    now: Tick,
    to: Tick,
) -> Result<(), Memory>
    requires timed { IsTimedPlan machine.now plan.now }
    ensures { OnOk result (told.new.items
        ≡ told.old.items ++ deliveries machine.now now to plan.now) }
{
    if is_done(plan, now, to) {
        let at = plan.points.get(plan.acts.len());
        let tell = Tell::Done {
            sheet: plan.sheet,
            place: end_of_way(machine, plan),
            at,
        };
        told.push(Dated { at, tell })?;
    }
    Ok(())
}

/// Tells the release of each action that starts at the tick or before, and is not released.
fn tell_releases(
    told: &mut Vec<Dated>,
    machine: &Machine,
    plan: &Plan,
    last: Tick,
) -> Result<(), Memory>
    requires timed { IsTimedPlan machine.now plan.now }
    requires floors { (i : ℕ) → plan.now.released ≤ i → i < length plan.now.acts
        → machine.now.lead ≤ point plan.now i }
    ensures { OnOk result (told.new.items
        ≡ told.old.items ++ map (release_of machine.now) (due_until last plan.now)) }
{
    for at in plan.released..plan.acts.len() {
        let start = plan.points.get(at);
        if start <= last {
            let tell = Tell::Release {
                sheet: plan.sheet,
                act: at + 1,
                action: plan.acts.get(at),
                start,
                end: plan.points.get(at + 1),
            };
            told.push(Dated {
                at: start - machine.lead,
                tell,
            })?;
        }
    }
    Ok(())
}

/// Tells each plan that is done, in the order of copies.
fn tell_all_done(
    told: &mut Vec<Dated>,
    machine: &Machine,
    schedule: &Schedule,
    now: Tick,
    to: Tick,
) -> Result<(), Memory>
    requires legal { IsLegal machine.now schedule.now.plans }
    ensures { OnOk result (told.new.items
        ≡ told.old.items ++ flat_map (deliveries machine.now now to) schedule.now.plans) }
{
    for at in 0..schedule.len() {
        tell_done(told, machine, schedule.plan_at(at), now, to)?;
    }
    Ok(())
}

/// Tells the releases of all plans, in the order of copies. Each of their starts is behind the lead, so that its release has
/// a moment.
fn tell_all_releases(
    told: &mut Vec<Dated>,
    machine: &Machine,
    schedule: &Schedule,
    to: Tick,
) -> Result<(), Memory>
    requires legal { IsLegal machine.now schedule.now.plans }
    requires floors { KeepsFloors machine.now 0 none_exempt schedule.now.plans }
    requires within { to ≤ last_tick }
    ensures { OnOk result (told.new.items
        ≡ told.old.items ++ flat_map (releases machine.now to) schedule.now.plans) }
{
    let last = to + machine.lead;
    for at in 0..schedule.len() {
        tell_releases(told, machine, schedule.plan_at(at), last)?;
    }
    Ok(())
}

/// The records as the clock moves from the one moment to the other, by moment.
pub(crate) fn tells_until(
    alloc: Global,
    machine: &Machine,
    schedule: &Schedule,
    now: Tick,
    to: Tick,
) -> Result<Vec<Tell>, Memory>
    requires legal { IsLegal machine.now schedule.now.plans }
    requires floors { KeepsFloors machine.now now none_exempt schedule.now.plans }
    requires within { to ≤ last_tick }
    ensures { IfOk result (λ tells.
        tells.items ≡ clock_tells machine.now now to schedule.now.plans) }
{
    let mut told = Vec::new(alloc);
    tell_all_done(&mut told, machine, schedule, now, to)?;
    tell_all_releases(&mut told, machine, schedule, to)?;
    sort_by_moment(&mut told)?;
    undated(alloc, told.as_slice())
}
