//! The move of the clock.

ghost use Rattle.std.specs.Prelude.{◌≡◌, ◌+◌, length, filter, IfOk, OnOk, OnErr};
ghost use Rattle.tp_schedule.specs.Answers.{KeepsFloors, KeepsHorizon};
ghost use Rattle.tp_schedule.specs.Legality.{IsLegal};
ghost use Rattle.tp_schedule.specs.LivePlans.{is_live};
ghost use Rattle.tp_schedule.specs.PlannerAnswers.{none_exempt};
ghost use Rattle.tp_event_rules.specs.Clock.{clock_tells, released_until};
ghost use Rattle.tp_event_rules.specs.Refusals.{clock_refusal};
ghost use Rattle.tp_release.specs.Refused.{cause_in};

use crate::fault::AdvanceFault;
use crate::plan_records::tells_until;
use crate::released_acts::release_all;
use std::alloc::Global;
use tp_base::Tick;
use tp_event_rules::Tell;
use tp_machine::Machine;
use tp_schedule::Schedule;

const LAST_TICK: Tick = 1_000_000_000;

/// Moves the clock from one moment to another: releases each action that starts within the machine's lead of the new one,
/// forgets the plans that are not live then, and returns the records, by moment. What it asks of the schedule holds
/// again at the new moment. Takes the time of all points, and of a sort of the records.
pub fn advance(
    alloc: Global,
    machine: &Machine,
    schedule: &mut Schedule,
    now: Tick,
    to: Tick,
) -> Result<Vec<Tell>, AdvanceFault>
    requires legal { IsLegal machine.now schedule.old.plans }
    requires floors { KeepsFloors machine.now now none_exempt schedule.old.plans }
    ensures refused { cause_in result ≡ clock_refusal now to }
    ensures told { IfOk result (λ tells.
        tells.items ≡ clock_tells machine.now now to schedule.old.plans) }
    ensures plans { OnOk result (schedule.new.plans
        ≡ filter (is_live machine.now to) (released_until machine.now to schedule.old.plans)) }
    ensures legal { OnOk result (IsLegal machine.now schedule.new.plans) }
    ensures floors { OnOk result (KeepsFloors machine.now to none_exempt schedule.new.plans) }
    ensures horizon { OnOk result (KeepsHorizon machine.now now schedule.old.plans
        → KeepsHorizon machine.now to schedule.new.plans) }
    ensures spare { OnOk result (schedule.new.spare + length schedule.new.plans
        ≡ schedule.old.spare + length schedule.old.plans) }
    ensures kept { OnErr result (schedule.new ≡ schedule.old) }
{
    if to < now {
        return Err(AdvanceFault::ClockBack { now });
    }
    if to > LAST_TICK {
        return Err(AdvanceFault::ClockEnd);
    }
    let tells = tells_until(alloc, machine, schedule, now, to)?;
    release_all(schedule, to + machine.lead);
    schedule.forget(machine, to);
    Ok(tells)
}
