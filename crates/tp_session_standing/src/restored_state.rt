//! The live state that a standing tells.

ghost use Rattle.std.specs.Prelude.{◌≡◌, ◌+◌, ◌<◌, ◌^◌, IfOk, length};
ghost use Rattle.tp_schedule.specs.Timetables.{IsOrdered};
ghost use Rattle.tp_session_standing.specs.Sound.{IsSound};
ghost use Rattle.tp_session_standing.specs.StandingStates.{standing_state};
ghost use Rattle.tp_event_rules.specs.LiveStates.{seen};
ghost use Rattle.tp_event_rules.specs.Seen.{fronts_of};

use crate::stock_rows::refills_of;
use std::alloc::Global;
use tp_base::Memory;
use tp_event_rules::LiveState;
use tp_jobs::{Lines, Standing};
use tp_machine::Machine;
use tp_schedule::{Kind, Plan, Schedule, SheetId};

/// A schedule of exactly these plans.
pub fn schedule_of(alloc: Global, plans: &[Plan]) -> Result<Schedule, Memory>
    requires ordered { IsOrdered plans.now }
    requires few { length plans.now + 1 < 2 ^ 32 }
    ensures { IfOk result (λ schedule. schedule.plans ≡ plans.now) }
{
    let mut schedule = Schedule::new(alloc);
    for plan in plans {
        schedule.reserve()?;
        schedule.put(plan.copy());
    }
    Ok(schedule)
}

/// The copies whose plans aren't whole.
fn fronts_of(alloc: Global, plans: &[Plan]) -> Result<Vec<SheetId>, Memory>
    ensures { IfOk result (λ fronts. fronts.items ≡ fronts_of plans.now) }
{
    let mut fronts = Vec::new(alloc);
    for plan in plans {
        match plan.kind {
            Kind::Front => fronts.push(plan.sheet)?,
            Kind::Whole => {}
        }
    }
    Ok(fronts)
}

/// The live state that a sound standing tells. Takes the time of all jobs and of the plans.
pub fn state_of(alloc: Global, machine: &Machine, standing: &Standing) -> Result<LiveState, Memory>
    requires sound { IsSound machine.now standing.now }
    ensures { IfOk result (λ state. seen state ≡ standing_state machine.now standing.entry.now) }
{
    let schedule = schedule_of(alloc, standing.plans.as_slice())?;
    let refills = refills_of(machine, &schedule, standing.stock.as_slice());
    Ok(LiveState {
        moment: standing.now,
        lost: fronts_of(alloc, standing.plans.as_slice())?,
        lines: Lines::rebuild(alloc, &standing.jobs, &standing.waiting)?,
        outs: standing.outs,
        refills,
        schedule,
    })
}
