//! Where a live state stands.

ghost use Rattle.std.specs.Prelude.{◌≡◌, IfOk};
ghost use Rattle.tp_session_standing.specs.StandingStates.{standing_of};
ghost use Rattle.tp_event_rules.specs.LiveStates.{seen};
ghost use Rattle.tp_event_rules.specs.Ready.{KeepsStock, last_copy};

use crate::stock_rows::stock_rows;
use std::alloc::Global;
use tp_base::{Items, Memory};
use tp_event_rules::LiveState;
use tp_jobs::{PlanRows, Standing};
use tp_machine::Machine;
use tp_schedule::Schedule;

/// The plans as a list of their own.
fn plan_rows(alloc: Global, schedule: &Schedule) -> Result<PlanRows, Memory>
    ensures { IfOk result (λ rows. rows ≡ schedule.now.plans) }
{
    schedule.ordered();
    let mut rows = Items::new(alloc);
    'plans: for at in 0..schedule.len() {
        rows.push(schedule.plan_at(at).copy())?;
    }
    Ok(rows)
}

/// Where the live state stands. Takes the time of all jobs and of the live plans.
pub fn standing_of(alloc: Global, machine: &Machine, state: &LiveState) -> Result<Standing, Memory>
    requires stocked { KeepsStock machine.now last_copy (seen state.now) }
    ensures { IfOk result (λ told. told ≡ standing_of machine.now (seen state.now)) }
{
    Ok(Standing {
        now: state.moment,
        outs: state.outs,
        stock: stock_rows(alloc, machine, state)?,
        jobs: state.lines.job_rows(alloc)?,
        waiting: state.lines.wait_rows(alloc)?,
        plans: plan_rows(alloc, &state.schedule)?,
    })
}
