//! Settled times, from the moves that tell them.
ghost use Rattle.std.specs.Prelude.{◌≡◌, ◌≤◌, None, IfErr, IfOk, OnErr, OnOk};
ghost use Rattle.tp_schedule.specs.Legality.{IsLegal};
ghost use Rattle.tp_schedule.specs.PlannerAnswers.{CanSettle, IsSettled, last_tick};
ghost use Rattle.tp_log_planner.specs.TakenAnswers.{DoTellSettled, TakesSettled};
ghost use Rattle.tp_schedule_check.specs.Faults.{IsSettlingFault};
ghost use Rattle.tp_log_planner.specs.Failures.{Denies};
ghost use Rattle.tp_log_planner.specs.Reasons.{IfStop, IsSettlingReason, IsTimesReason};
ghost use Rattle.tp_log_planner.specs.ToldAnswers.{behind_asides};

use crate::failure::Failure;
use crate::faults::Read;
use crate::told_answer::ahead_of;
use crate::told_moves::{Moving, take_all_moves};
use std::alloc::Global;
use tp_base::Tick;
use tp_log::Item;
use tp_machine::Machine;
use tp_schedule::Schedule;
use tp_schedule_check::find_unsettled;

/// Looks at the schedule that the moves tell: its times are settled.
fn check_settled(
    alloc: Global,
    machine: &Machine,
    now: Tick,
    before: &Schedule,
    after: &Schedule,
    moves: &[Item],
) -> Result<(), Failure>
    requires moment { now ≤ last_tick }
    requires legal { IsLegal machine.now before.now.plans }
    ensures settled { OnOk result (IsSettled machine.now now before.now.plans after.now.plans) }
    ensures refused { IfErr result
        (Denies (IsSettled machine.now now before.now.plans after.now.plans)) }
    ensures why { IfErr result (IfStop (λ left. IsTimesReason (IsSettlingFault machine.now now
        before.now.plans after.now.plans) machine.now now None after.now.plans)) }
{
    match find_unsettled(alloc, machine, now, before, after) {
        Err(_) => Err(Failure::Memory),
        Ok(Some(fault)) => {
            let read = Read {
                moves,
                unmoved: 0,
                after,
                now,
            };
            Err(Failure::Stop(read.stop_of(machine, &fault)))
        }
        Ok(None) => Ok(()),
    }
}

/// Takes the moves of settled times from items, of which the first is no aside: the schedule then has these times. How many items
/// those are.
pub(crate) fn take_settled(
    alloc: Global,
    machine: &Machine,
    now: Tick,
    items: &[Item],
    schedule: &mut Schedule,
) -> Result<usize, Failure>
    requires can { CanSettle machine.now now schedule.old.plans }
    requires first { behind_asides items.now ≡ items.now }
    ensures told { IfOk result
        (TakesSettled machine.now schedule.old.plans now items.now schedule.new.plans) }
    ensures refused { IfErr result
        (Denies (DoTellSettled machine.now schedule.old.plans now items.now)) }
    ensures why { IfErr result
        (IfStop (IsSettlingReason machine.now schedule.old.plans now items.now)) }
    ensures stays { OnErr result (schedule.new.plans ≡ schedule.old.plans) }
{
    let moving = Moving {
        moment: now,
        asked: None,
    };
    let Ok(mut after) = schedule.copy(alloc) else {
        return Err(Failure::Memory);
    };
    let taken = match take_all_moves(alloc, machine, &moving, items, schedule, &mut after) {
        Ok(taken) => taken,
        Err(failure) => return Err(failure),
    };
    match check_settled(alloc, machine, now, schedule, &after, &items[..taken]) {
        Ok(()) => {}
        Err(failure) => return Err(ahead_of(failure, items.len() - taken)),
    }
    *schedule = after;
    Ok(taken)
}
