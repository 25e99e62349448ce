//! A job arrives.

ghost use Rattle.std.specs.Prelude.{◌≡◌, ℕ, Err, ◌+◌, ◌^◌, ◌<◌, ◌≤◌, length, OnOk};
ghost use Rattle.tp_schedule.specs.declared.parts.Halt.TheVariants.{Stopped};
ghost use Rattle.tp_script.specs.declared.event.Event.TheVariants.{Job as NewJob};
ghost use Rattle.tp_event_rules.specs.LiveStates.{seen};
ghost use Rattle.tp_event_rules.specs.Planners.{right_steps};
ghost use Rattle.tp_event_rules.specs.Ready.{CanTakeEvents};
ghost use Rattle.tp_replan.specs.KeptPlanner.{KeepsPlanner};
ghost use Rattle.tp_event_turn.specs.EventReadiness.{IsReadyForEvent};
ghost use Rattle.tp_event_turn.specs.Events.{NotesEvent};
ghost use Rattle.tp_event_turn.specs.Stops.{NotesEventStop};

use crate::ask_phase::ask_waiting;
use crate::job_order::JobOrder;
use crate::refusal_records::tell_job_refused;
use std::alloc::Global;
use tp_event_rules::LiveState;
use tp_machine::Machine;
use tp_schedule::{Halt, Planner, Record};

/// Takes a job: its copies wait behind all others, and the copies that wait are asked. A job that is refused is noted so,
/// and nothing else changes.
///
/// After a `Halt` nothing is known of the state, so that the caller drops it, and notes may have come.
pub(crate) fn take_job<P: Planner>(
    alloc: Global,
    machine: &Machine,
    state: &mut LiveState,
    planner: &mut P,
    order: &JobOrder,
    notes: &mut Vec<Record>,
) -> Result<(), Halt>
    requires ready { IsReadyForEvent P.serves machine.now (seen state.old) planner.old }
    requires groups { length order.now.groups.now < 2 ^ 32 }
    ensures turn { OnOk result (
        NotesEvent (right_steps P.rules machine.now) machine.now
        (NewJob order.now.name order.now.tray order.now.media order.now.groups.now)
        (seen state.old) planner.old notes.old.items (seen state.new) planner.new notes.new.items) }
    ensures stopped { result ≡ Err Stopped →
        NotesEventStop (right_steps P.rules machine.now) machine.now
        (NewJob order.now.name order.now.tray order.now.media order.now.groups.now)
        (seen state.old) planner.old notes.old.items planner.new notes.new.items }
    ensures kept { OnOk result ((copies : ℕ) → CanTakeEvents machine.now copies (seen state.old)
        → CanTakeEvents machine.now (copies + 1) (seen state.new)) }
    ensures keeps { KeepsPlanner P.serves P.stops P.lasting machine.now planner.old planner.new
        result }
    ensures marked { state.new.lines.kept ≡ state.old.lines.kept }
{
    let JobOrder {
        name,
        tray,
        media,
        groups,
    } = *order;
    match state.lines.add(machine, name, tray, media, groups) {
        Err(fault) => tell_job_refused(fault, notes),
        Ok(_) => ask_waiting(alloc, machine, state, planner, notes),
    }
}
