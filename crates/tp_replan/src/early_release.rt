//! Actions of a planned copy that are released at once.

ghost use Rattle.std.specs.Prelude.{◌≡◌, ◌<◌, ◌++◌, length, slice_get, IfOk, IsSome};
ghost use Rattle.std.specs.Prelude.{IsSomeAnd, OnOk};
ghost use Rattle.tp_schedule.specs.Plans.{IsTimedPlan, change_plan, plan_of};
ghost use Rattle.tp_event_rules.specs.LiveStates.{seen};
ghost use Rattle.tp_event_rules.specs.Loops.{told_releases};
ghost use Rattle.tp_event_rules.specs.Moments.{release_until};
ghost use Rattle.tp_replan.specs.Meanings.{IsKnown, told_due};

use crate::copy_labels::label;
use tp_base::{Memory, Tick};
use tp_event_records::action_name;
use tp_event_rules::LiveState;
use tp_jobs::Lines;
use tp_machine::Machine;
use tp_schedule::{Plan, Record, Schedule, SheetId};

/// Notes the release of each unreleased action of the plan that starts at the tick or before. Answers how many actions are
/// released then.
fn tell_releases(
    machine: &Machine,
    lines: &Lines,
    plan: &Plan,
    last: Tick,
    notes: &mut Vec<Record>,
) -> Result<u32, Memory>
    requires timed { IsTimedPlan machine.now plan.now }
    requires known { IsKnown lines.now.jobs plan.now }
    ensures count { IfOk result (λ count. count ≡ (release_until last plan.now).released) }
    ensures told { OnOk result (notes.new.items
        ≡ notes.old.items ++ told_due machine.now lines.now.jobs last plan.now) }
{
    let mut released = plan.released;
    for at in plan.released..plan.acts.len() {
        let start = plan.points.get(at);
        if start <= last {
            notes.push(Record::Release {
                sheet: label(lines, plan.sheet),
                act: at + 1,
                name: action_name(machine, plan.acts.get(at)),
                start,
                end: plan.points.get(at + 1),
            })?;
            released += 1;
        }
    }
    Ok(released)
}

/// The place of the copy's plan.
pub(crate) fn place_of(schedule: &Schedule, sheet: SheetId) -> u32
    requires { IsSome (plan_of sheet schedule.now.plans) }
    ensures there { result < length schedule.now.plans }
    ensures plan { slice_get schedule.now.plans result ≡ plan_of sheet schedule.now.plans }
{
    match schedule.find(sheet) {
        Some(at) => at,
        None => unreachable!(),
    }
}

/// Notes and makes the releases of the copy's actions that start at the tick or before.
pub(crate) fn release(
    machine: &Machine,
    state: &mut LiveState,
    sheet: SheetId,
    last: Tick,
    notes: &mut Vec<Record>,
) -> Result<(), Memory>
    requires planned { IsSomeAnd (plan_of sheet state.old.schedule.plans)
        (IsTimedPlan machine.now) }
    requires job { sheet.job < length state.old.lines.jobs }
    ensures told { OnOk result (notes.new.items ≡ notes.old.items
        ++ told_releases machine.now state.old.lines.jobs last
        (plan_of sheet state.old.schedule.plans)) }
    ensures state { OnOk result (seen state.new ≡ record (seen state.old) {
      plans = change_plan sheet (release_until last) state.old.schedule.plans;
    }) }
    ensures marked { state.new.lines.kept ≡ state.old.lines.kept }
{
    state.schedule.ordered();
    let at = place_of(&state.schedule, sheet);
    let plan = state.schedule.plan_at(at);
    let count = tell_releases(machine, &state.lines, plan, last, notes)?;
    state.schedule.freeze_at(at, count);
    Ok(())
}
