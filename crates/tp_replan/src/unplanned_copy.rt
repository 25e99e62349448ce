//! A loose copy that is not planned: it gives its tray up, or it is stuck.

ghost use Rattle.std.specs.Prelude.{◌≡◌, ◌<◌, [], ◌∷◌, length, IsSome, IsSomeAnd, IsTrue, OnOk};
ghost use Rattle.tp_machine.specs.ModuleUse.{action_at};
ghost use Rattle.tp_schedule.specs.Answers.{kept_acts};
ghost use Rattle.tp_schedule.specs.Plans.{IsTimedPlan, change_plan, plan_of};
ghost use Rattle.tp_event_rules.specs.Fates.{to_purge};
ghost use Rattle.tp_event_rules.specs.Labels.{last_of};
ghost use Rattle.tp_event_rules.specs.LiveStates.{seen};
ghost use Rattle.tp_event_rules.specs.Loops.{gets_stuck, gives_tray_up, module_in, not_planned};
ghost use Rattle.tp_event_rules.specs.Moments.{is_to_tray};
ghost use Rattle.tp_replan.specs.Meanings.{Leads};
ghost use Rattle.tp_replan.specs.Open.{CanFall};
ghost use Rattle.tp_replan.specs.Displacement.{CanGiveUp};

use crate::copy_labels::label;
use crate::displaced::Displaced;
use crate::early_release::place_of;
use crate::fall_backs::fall_back;
use crate::module_out::take_out;
use crate::outage::Outage;
use crate::remaining_plans::purge_at;
use std::alloc::Global;
use tp_base::Memory;
use tp_event_rules::LiveState;
use tp_machine::{Machine, ModId, machine_law};
use tp_schedule::{Ask, Goal, Record, Schedule, SheetId};

/// The goal of the copy's plan is a purge from now on.
fn aim_at_purge(schedule: &mut Schedule, sheet: SheetId)
    requires { IsSome (plan_of sheet schedule.old.plans) }
    ensures { schedule.new.plans ≡ change_plan sheet to_purge schedule.old.plans }
{
    schedule.ordered();
    let at = place_of(schedule, sheet);
    // For the prover: brings the plan at the place.
    let _plan = schedule.plan_at(at);
    purge_at(schedule, at);
}

/// The copy gives its tray up: its goal is a purge from now on, and it falls back.
///
/// After an error nothing is known of the state, so that the caller drops it, and notes may have come.
fn give_tray_up(
    alloc: Global,
    state: &mut LiveState,
    ask: &Ask,
    notes: &mut Vec<Record>,
) -> Result<(), Memory>
    requires planned { IsSome (plan_of ask.now.sheet state.old.schedule.plans) }
    requires can { CanGiveUp ask.now (seen state.old) }
    ensures leads { OnOk result (Leads (gives_tray_up ask.entry.now (seen state.old))
        notes.old.items notes.new.items (seen state.new)) }
    ensures marked { state.new.lines.kept ≡ state.old.lines.kept }
{
    let sheet = label(&state.lines, ask.sheet);
    notes.push(Record::Purge { sheet })?;
    aim_at_purge(&mut state.schedule, ask.sheet);
    let displaced = Displaced {
        sheet: ask.sheet,
        want: ask.want,
        again: true,
    };
    fall_back(alloc, state, &displaced, notes)
}

/// The module of the last action of the copy's plan.
fn last_module(machine: &Machine, schedule: &Schedule, sheet: SheetId) -> ModId
    requires { IsSomeAnd (plan_of sheet schedule.now.plans) (IsTimedPlan machine.now) }
    ensures is { result
        ≡ module_in (action_at machine.now (last_of (kept_acts sheet schedule.now.plans)).0) }
    ensures there { result.0 < length machine.now.modules }
{
    machine_law(machine);
    let plan = schedule.plan_at(place_of(schedule, sheet));
    let last = plan.acts.get(plan.acts.len() - 1);
    machine.actions.get(u32::from(last.0)).module
}

/// The copy is stuck: the module of its running action jams.
///
/// After an error nothing is known of the state, so that the caller drops it, and notes may have come.
fn get_stuck(
    alloc: Global,
    machine: &Machine,
    state: &mut LiveState,
    ask: &Ask,
    notes: &mut Vec<Record>,
) -> Result<(), Memory>
    requires planned { IsSomeAnd (plan_of ask.now.sheet state.old.schedule.plans)
        (IsTimedPlan machine.now) }
    requires known { ask.now.sheet.job < length state.old.lines.jobs }
    requires can { CanFall (seen state.old) [] }
    ensures leads { OnOk result (Leads (gets_stuck machine.now ask.entry.now (seen state.old))
        notes.old.items notes.new.items (seen state.new)) }
    ensures marked { state.new.lines.kept ≡ state.old.lines.kept }
{
    machine_law(machine);
    let sheet = label(&state.lines, ask.sheet);
    let id = last_module(machine, &state.schedule, ask.sheet);
    let module = machine.modules.get(u16::from(id.0));
    notes.push(Record::Stuck { sheet, module })?;
    let event = Outage {
        module: id,
        jammed: true,
    };
    take_out(alloc, machine, state, event, notes)?;
    Ok(())
}

/// What follows where a loose copy is not planned.
///
/// After an error nothing is known of the state, so that the caller drops it, and notes may have come.
pub(crate) fn not_planned(
    alloc: Global,
    machine: &Machine,
    state: &mut LiveState,
    ask: &Ask,
    notes: &mut Vec<Record>,
) -> Result<(), Memory>
    requires planned { IsSomeAnd (plan_of ask.now.sheet state.old.schedule.plans)
        (IsTimedPlan machine.now) }
    requires known { ask.now.sheet.job < length state.old.lines.jobs }
    requires can { CanFall (seen state.old) [] }
    requires can_give { IsTrue (is_to_tray ask.now.goal) → CanGiveUp ask.now (seen state.old) }
    ensures leads { OnOk result
        (Leads (not_planned machine.now ask.entry.now ask.entry.now.goal (seen state.old))
        notes.old.items notes.new.items (seen state.new)) }
    ensures marked { state.new.lines.kept ≡ state.old.lines.kept }
{
    match ask.goal {
        Goal::Tray(_) => give_tray_up(alloc, state, ask, notes)?,
        Goal::Purge => get_stuck(alloc, machine, state, ask, notes)?,
    }
    Ok(())
}
