//! The clock moves, and what that tells by names.

ghost use Rattle.std.specs.Prelude.{◌≡◌, ℕ, Err, ◌+◌, ◌≤◌, ◌++◌, map, filter, All, OnOk};
ghost use Rattle.tp_schedule.specs.declared.parts.Halt.TheVariants.{Stopped};
ghost use Rattle.tp_script.specs.declared.event.Event.TheVariants.{Clock};
ghost use Rattle.tp_event_rules.specs.Clock.{record_of};
ghost use Rattle.tp_event_rules.specs.StateInvariants.{is_planned_among};
ghost use Rattle.tp_event_rules.specs.LiveStates.{seen};
ghost use Rattle.tp_event_rules.specs.Planners.{right_steps};
ghost use Rattle.tp_event_rules.specs.Ready.{CanTakeEvents};
ghost use Rattle.tp_replan.specs.KeptPlanner.{KeepsPlanner};
ghost use Rattle.tp_event_turn.specs.EventReadiness.{IsReadyForEvent};
ghost use Rattle.tp_event_turn.specs.Events.{NotesEvent};
ghost use Rattle.tp_event_turn.specs.Stops.{NotesEventStop};
ghost use Rattle.tp_event_turn.specs.ClockNames.{IsKnownTell};

use crate::ask_phase::ask_waiting;
use crate::refusal_records::tell_clock_refused;
use std::alloc::Global;
use tp_base::{Memory, Tick};
use tp_event_records::{action_name, label, location_name};
use tp_event_rules::LiveState;
use tp_jobs::Lines;
use tp_machine::{Machine, machine_law};
use tp_release::{Tell, advance};
use tp_schedule::{Halt, Planner, Record, Schedule, SheetId};
use tp_stock::count_taken;

/// Moves the clock: notes each release and each delivery until then, forgets the plans that are not live any more, whose
/// sheets are taken off the refills, and asks the copies that wait. A move back or beyond the last moment is noted as refused, and nothing else changes.
///
/// After a `Halt` nothing is known of the state, so that the caller drops it, and notes may have come.
pub(crate) fn move_clock<P: Planner>(
    alloc: Global,
    machine: &Machine,
    state: &mut LiveState,
    planner: &mut P,
    to: Tick,
    notes: &mut Vec<Record>,
) -> Result<(), Halt>
    requires ready { IsReadyForEvent P.serves machine.now (seen state.old) planner.old }
    ensures turn { OnOk result (
        NotesEvent (right_steps P.rules machine.now) machine.now (Clock to)
        (seen state.old) planner.old notes.old.items (seen state.new) planner.new notes.new.items) }
    ensures stopped { result ≡ Err Stopped →
        NotesEventStop (right_steps P.rules machine.now) machine.now (Clock to)
        (seen state.old) planner.old notes.old.items planner.new notes.new.items }
    ensures kept { OnOk result ((copies : ℕ) → CanTakeEvents machine.now copies (seen state.old)
        → CanTakeEvents machine.now (copies + 1) (seen state.new)) }
    ensures keeps { KeepsPlanner P.serves P.stops P.lasting machine.now planner.old planner.new
        result }
    ensures marked { state.new.lines.kept ≡ state.old.lines.kept }
{
    machine_law(machine);
    let taken = count_taken(machine, &state.schedule);
    let tells = match advance(alloc, machine, &mut state.schedule, state.moment, to) {
        Ok(tells) => tells,
        Err(fault) => return tell_clock_refused(fault, notes),
    };
    let Ok(()) = tell_moved_clock(machine, &state.lines, tells.as_slice(), notes) else {
        return Err(Halt::Memory);
    };
    state.moment = to;
    forget_lost(&mut state.lost, &state.schedule);
    state.refills = state.refills.forget(machine, &taken, &state.schedule);
    ask_waiting(alloc, machine, state, planner, notes)
}

/// Forgets the lost copies that have no plan any more.
fn forget_lost(lost: &mut Vec<SheetId>, schedule: &Schedule)
    ensures { lost.new.items ≡ filter (is_planned_among schedule.now.plans) lost.old.items }
{
    lost.retain(|copy| has_plan(schedule, *copy));
}

fn has_plan(schedule: &Schedule, copy: SheetId) -> bool
    ensures { result ≡ is_planned_among schedule.now.plans copy }
{
    schedule.find(copy).is_some()
}

/// Notes what a move of the clock tells.
fn tell_moved_clock(
    machine: &Machine,
    lines: &Lines,
    tells: &[Tell],
    notes: &mut Vec<Record>,
) -> Result<(), Memory>
    requires known { All (IsKnownTell machine.now lines.now.jobs) tells.now }
    ensures { OnOk result (notes.new.items
        ≡ notes.old.items ++ map (record_of machine.now lines.now.jobs) tells.now) }
{
    for tell in tells {
        notes.push(record_of(machine, lines, *tell))?;
    }
    Ok(())
}

/// The record that these numbers mean.
fn record_of(machine: &Machine, lines: &Lines, tell: Tell) -> Record
    requires known { IsKnownTell machine.now lines.now.jobs tell }
    ensures { result ≡ record_of machine.now lines.now.jobs tell }
{
    match tell {
        Tell::Done { sheet, place, at } => Record::Done {
            sheet: label(lines.name_of(sheet.job), sheet),
            place: location_name(machine, place),
            at,
        },
        Tell::Release {
            sheet,
            act,
            action,
            start,
            end,
        } => Record::Release {
            sheet: label(lines.name_of(sheet.job), sheet),
            act,
            name: action_name(machine, action),
            start,
            end,
        },
    }
}
