//! Modules that go out and come back.

ghost use Rattle.std.specs.Prelude.{◌≡◌, ℕ, Err, ◌+◌, ◌≤◌, IsTrue, OnOk};
ghost use Rattle.tp_schedule.specs.declared.parts.Halt.TheVariants.{Stopped};
ghost use Rattle.tp_event_rules.specs.Laws.{is_outage};
ghost use Rattle.tp_event_rules.specs.LiveStates.{seen};
ghost use Rattle.tp_event_rules.specs.Planners.{right_steps};
ghost use Rattle.tp_event_rules.specs.Ready.{CanTakeEvents};
ghost use Rattle.tp_event_turn.specs.ModuleChecks.{comes_back, is_jam};
ghost use Rattle.tp_replan.specs.KeptPlanner.{KeepsPlanner};
ghost use Rattle.tp_event_turn.specs.EventReadiness.{IsReadyForEvent};
ghost use Rattle.tp_event_turn.specs.Events.{NotesEvent};
ghost use Rattle.tp_event_turn.specs.Stops.{NotesEventStop};

use crate::ask_phase::ask_waiting;
use crate::module_check::{cause_of, check_module};
use crate::refusal_records::tell_refused;
use std::alloc::Global;
use tp_event_rules::LiveState;
use tp_machine::Machine;
use tp_replan::{Outage, go_out};
use tp_schedule::{Halt, Planner, Record};
use tp_script::Event;

/// Takes a `jam` or an `off`: the module goes out, what is displaced falls back, and the copies that wait are asked. One that
/// is refused is noted so, and nothing else changes.
///
/// After a `Halt` nothing is known of the state, so that the caller drops it, and notes may have come.
pub(crate) fn take_out<P: Planner>(
    alloc: Global,
    machine: &Machine,
    state: &mut LiveState,
    planner: &mut P,
    event: &Event,
    notes: &mut Vec<Record>,
) -> Result<(), Halt>
    requires ready { IsReadyForEvent P.serves machine.now (seen state.old) planner.old }
    requires goes_out { IsTrue (is_outage event.now) }
    ensures turn { OnOk result (
        NotesEvent (right_steps P.rules machine.now) machine.now event.now
        (seen state.old) planner.old notes.old.items (seen state.new) planner.new notes.new.items) }
    ensures stopped { result ≡ Err Stopped →
        NotesEventStop (right_steps P.rules machine.now) machine.now event.now
        (seen state.old) planner.old notes.old.items planner.new notes.new.items }
    ensures kept { OnOk result ((copies : ℕ) → CanTakeEvents machine.now copies (seen state.old)
        → CanTakeEvents machine.now (copies + 1) (seen state.new)) }
    ensures keeps { KeepsPlanner P.serves P.stops P.lasting machine.now planner.old planner.new
        result }
    ensures marked { state.new.lines.kept ≡ state.old.lines.kept }
{
    let id = match check_module(machine, state.outs, event) {
        Err(fault) => return tell_refused(cause_of(fault), notes),
        Ok(id) => id,
    };
    let outage = Outage {
        module: id,
        jammed: is_jam(event),
    };
    go_out(alloc, machine, state, planner, outage, notes)?;
    ask_waiting(alloc, machine, state, planner, notes)
}

/// Takes an `on`: the module is put on, and the copies that wait are asked. One that is refused is noted so, and nothing else
/// changes.
///
/// After a `Halt` nothing is known of the state, so that the caller drops it, and notes may have come.
pub(crate) fn take_back<P: Planner>(
    alloc: Global,
    machine: &Machine,
    state: &mut LiveState,
    planner: &mut P,
    event: &Event,
    notes: &mut Vec<Record>,
) -> Result<(), Halt>
    requires ready { IsReadyForEvent P.serves machine.now (seen state.old) planner.old }
    requires comes_back { IsTrue (comes_back event.now) }
    ensures turn { OnOk result (
        NotesEvent (right_steps P.rules machine.now) machine.now event.now
        (seen state.old) planner.old notes.old.items (seen state.new) planner.new notes.new.items) }
    ensures stopped { result ≡ Err Stopped →
        NotesEventStop (right_steps P.rules machine.now) machine.now event.now
        (seen state.old) planner.old notes.old.items planner.new notes.new.items }
    ensures kept { OnOk result ((copies : ℕ) → CanTakeEvents machine.now copies (seen state.old)
        → CanTakeEvents machine.now (copies + 1) (seen state.new)) }
    ensures keeps { KeepsPlanner P.serves P.stops P.lasting machine.now planner.old planner.new
        result }
    ensures marked { state.new.lines.kept ≡ state.old.lines.kept }
{
    let id = match check_module(machine, state.outs, event) {
        Err(fault) => return tell_refused(cause_of(fault), notes),
        Ok(id) => id,
    };
    state.outs = state.outs.put_on(id);
    ask_waiting(alloc, machine, state, planner, notes)
}

fn is_jam(event: &Event) -> bool
    ensures { result ≡ is_jam event.now }
{
    matches!(event, Event::Jam { .. })
}
