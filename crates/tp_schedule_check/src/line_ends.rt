//! The ends of the whole plans to each tray, each with the next one of its line.
ghost use Rattle.std.specs.Prelude.{◌≡◌, ℕ, ◌+◌, ◌*◌, ◌<◌, ◌≤◌, ◌^◌, ◌++◌, IfOk, OnOk, Some, if◌then◌else◌, length, nat_eq, option_and_then};
ghost use Rattle.std.specs.HashMap.{get};
ghost use Rattle.tp_schedule.specs.Limits.{most_acts, most_plan_points};
ghost use Rattle.tp_schedule.specs.Plans.{IsFormed, is_delivered_to};
ghost use Rattle.tp_schedule_check.specs.Lines.{end_of, line_of, line_pairs, pair_with, point_count};

use std::alloc::Global;
use std::collections::HashMap;
use tp_base::{Memory, Tick};
use tp_machine::LocId;
use tp_schedule::{Goal, Kind, Plan, Schedule, SheetId};

/// The last point of a plan, with its number where the points of all plans are numbered, one plan after another.
#[derive(Clone, Copy)]
pub(crate) struct PlanEnd {
    pub(crate) sheet: SheetId,
    pub(crate) number: usize,
    pub(crate) tick: Tick,
}

/// The tray to which the plan is delivered, if it is whole and goes to one.
fn line_of(plan: &Plan) -> Option<LocId>
    ensures { result ≡ line_of plan.now.kind plan.now.goal }
{
    match (plan.kind, plan.goal) {
        (Kind::Whole, Goal::Tray(tray)) => Some(tray),
        _ => None,
    }
}

fn end_of(plan: &Plan, number: usize) -> PlanEnd
    requires formed { IsFormed plan.now }
    requires fits { number + most_acts < 2 ^ 64 }
    ensures { result ≡ end_of number plan.now }
{
    let acts = plan.acts.len();
    PlanEnd {
        sheet: plan.sheet,
        number: number + acts as usize,
        tick: plan.points.get(acts),
    }
}

/// Puts the plan's end before those of later plans, and pairs it with the next one of its line.
fn put_end(
    next: &mut HashMap<u16, PlanEnd>,
    pairs: &mut Vec<(PlanEnd, PlanEnd)>,
    plan: &Plan,
    number: usize,
) -> Result<(), Memory>
    requires formed { IsFormed plan.now }
    requires fits { number + most_acts < 2 ^ 64 }
    ensures next { OnOk result ((tray : ℕ) → get nat_eq next.new tray
        ≡ (if is_delivered_to plan.entry.now tray then Some (end_of number plan.entry.now)
        else get nat_eq next.old tray)) }
    ensures pairs { OnOk result (pairs.new.items ≡ pairs.old.items
        ++ pair_with (end_of number plan.entry.now)
        (option_and_then (λ t. get nat_eq next.old t.0)
        (line_of plan.entry.now.kind plan.entry.now.goal))) }
{
    if let Some(tray) = line_of(plan) {
        let end = end_of(plan, number);
        if let Some(later) = next.insert(tray.0, end)? {
            pairs.push((end, later))?;
        }
    }
    Ok(())
}

/// How many points the plans have.
fn count_points(schedule: &Schedule) -> usize
    ensures count { result ≡ point_count schedule.now.plans }
    ensures within { result ≤ most_plan_points * length schedule.now.plans }
{
    let mut count = 0;
    'plans: for at in 0..schedule.len() {
        count += schedule.plan_at(at).acts.len() as usize + 1;
    }
    count
}

/// The ends of whole plans to trays, each with the next one of its line.
pub(crate) fn line_pairs(
    alloc: Global,
    schedule: &Schedule,
) -> Result<Vec<(PlanEnd, PlanEnd)>, Memory>
    ensures { IfOk result (λ pairs. pairs.items ≡ line_pairs 0 schedule.now.plans) }
{
    let mut next = HashMap::new(alloc);
    let mut pairs = Vec::new(alloc);
    let mut number = count_points(schedule);
    let mut at = schedule.len();
    'plans: while at > 0 {
        at -= 1;
        let plan = schedule.plan_at(at);
        number -= plan.acts.len() as usize + 1;
        put_end(&mut next, &mut pairs, plan, number)?;
    }
    Ok(pairs)
}
