//! The moves of other plans.
ghost use Rattle.std.specs.Prelude.{◌≡◌, ◌≤◌, IfErr, IfOk, IfSome, IsFalse, drop, length};
ghost use Rattle.tp_schedule.specs.Plans.{IsFormed, with_points};
ghost use Rattle.tp_schedule_check.specs.Alike.{KeepsPoints};
ghost use Rattle.tp_log_planner.specs.Failures.{Denies};
ghost use Rattle.tp_log_planner.specs.ToldMoves.{DoTellMoves, IsKeptPlan, IsMoveOver, TakesMoves, moved_points, other_points, points_for};
ghost use Rattle.tp_log_planner.specs.Breaches.{HasOffMove, IsOffMove};
ghost use Rattle.tp_log_planner.specs.Reasons.{IfStop, IsBreach, IsOff};
ghost use Rattle.tp_log_planner.specs.ToldAnswers.{begins_with_move};

use crate::alone::{find_in_plan, find_unkept};
use crate::asides::begins_with_move;
use crate::failure::{Failure, FoundReason, Reason, Wrong, reason_of};
use crate::points::points_of;
use std::alloc::Global;
use tp_base::{Memory, Tick};
use tp_event_records::label;
use tp_log::Item;
use tp_machine::Machine;
use tp_schedule::{Plan, Points, Record, Schedule, SheetId};
use tp_schedule_check::is_exempt;

/// For which moment plans move, and the asked copy, whose plan does not.
#[derive(Clone, Copy)]
pub(crate) struct Moving {
    pub(crate) moment: Tick,
    pub(crate) asked: Option<SheetId>,
}

/// The points, if they are as many as those of the plan, and others.
fn other_points(plan: &Plan, ticks: &[Tick]) -> Option<Points>
    ensures { result ≡ other_points plan.now ticks.now }
{
    let count = plan.points.len() as usize;
    if ticks.len() == count && plan.points.as_slice() != ticks {
        Some(points_of(ticks))
    } else {
        None
    }
}

/// The points to which the first item moves the plan, if it does.
fn moved_points(items: &[Item], plan: &Plan) -> Option<Points>
    ensures { result ≡ moved_points plan.now items.now }
{
    match items {
        [Item::Note(Record::Move { sheet, points }), ..] => {
            if *sheet == label(plan.name, plan.sheet) {
                other_points(plan, points.as_slice())
            } else {
                None
            }
        }
        _ => None,
    }
}

/// Those of a plan that is not the asked copy's.
fn points_for(asked: Option<SheetId>, items: &[Item], plan: &Plan) -> Option<Points>
    ensures { result ≡ points_for asked plan.now items.now }
{
    if is_exempt(asked, plan) {
        None
    } else {
        moved_points(items, plan)
    }
}

fn with_points(plan: &Plan, points: &Points) -> Plan
    ensures { result ≡ with_points points.now plan.now }
{
    let mut moved = plan.copy();
    moved.points = points.copy();
    moved
}

/// What the plan with other points breaks by itself.
fn find_in_move(
    alloc: Global,
    machine: &Machine,
    now: Tick,
    plan: &Plan,
    points: &Points,
) -> Result<Option<Wrong>, Memory>
    requires formed { IsFormed plan.now }
    requires long { length points.now ≡ length plan.now.points }
    ensures breaks { IfOk result (λ found. IfSome found
        (λ reason. IsKeptPlan machine.now now None (with_points points.now plan.now)
        → KeepsPoints plan.now (with_points points.now plan.now) → ⊥)) }
    ensures why { IfOk result (λ found. IfSome found
        (IsOff ⊥ (IsOffMove machine.now now plan.now (with_points points.now plan.now)))) }
{
    let moved = with_points(plan, points);
    match find_unkept(alloc, plan, &moved)? {
        Some(reason) => Ok(Some(reason)),
        None => find_in_plan(alloc, machine, now, None, &moved),
    }
}

/// Moves the plans as the first items tell. The second schedule has the plans of the first. How many items that were.
fn take_moves(
    alloc: Global,
    machine: &Machine,
    moving: &Moving,
    items: &[Item],
    before: &Schedule,
    after: &mut Schedule,
) -> Result<usize, Failure>
    requires { after.old.plans ≡ before.now.plans }
    ensures moved { IfOk result (TakesMoves machine.now moving.now.moment moving.now.asked
        before.now.plans after.new.plans items.now) }
    ensures refused { IfErr result (Denies (DoTellMoves machine.now moving.now.moment
        moving.now.asked before.now.plans items.now)) }
    ensures why { IfErr result (IfStop (λ left. IsBreach ⊥ (HasOffMove machine.now
        moving.now.moment moving.now.asked before.now.plans items.now left))) }
{
    before.ordered();
    let mut taken = 0;
    'plans: for at in 0..before.len() {
        let plan = before.plan_at(at);
        match points_for(moving.asked, &items[taken..], plan) {
            Some(points) => {
                match find_in_move(alloc, machine, moving.moment, plan, &points) {
                    Err(_) => return Err(Failure::Memory),
                    Ok(Some(wrong)) => {
                        return Err(Failure::Stop(FoundReason {
                            left: items.len() - taken,
                            reason: reason_of(wrong),
                        }));
                    }
                    Ok(None) => {}
                }
                after.ordered();
                after.set_points(plan.sheet, &points);
                taken += 1;
            }
            None => {}
        }
    }
    Ok(taken)
}

/// Takes the moves of other plans from the items, and fails if another move is left behind them.
pub(crate) fn take_all_moves(
    alloc: Global,
    machine: &Machine,
    moving: &Moving,
    items: &[Item],
    before: &Schedule,
    after: &mut Schedule,
) -> Result<usize, Failure>
    requires { after.old.plans ≡ before.now.plans }
    ensures moved { IfOk result (TakesMoves machine.now moving.now.moment moving.now.asked
        before.now.plans after.new.plans items.now) }
    ensures over { IfOk result (λ taken. IsFalse (begins_with_move (drop taken items.now))) }
    ensures refused { IfErr result (Denies (DoTellMoves machine.now moving.now.moment
        moving.now.asked before.now.plans items.now)) }
    ensures why { IfErr result (IfStop (λ left. IsBreach
        (IsMoveOver moving.now.asked before.now.plans items.now left)
        (HasOffMove machine.now moving.now.moment moving.now.asked before.now.plans
        items.now left))) }
{
    match take_moves(alloc, machine, moving, items, before, after) {
        Err(failure) => Err(failure),
        Ok(taken) => {
            if begins_with_move(&items[taken..]) {
                Err(Failure::Stop(FoundReason {
                    left: items.len() - taken,
                    reason: Reason::Due,
                }))
            } else {
                Ok(taken)
            }
        }
    }
}
