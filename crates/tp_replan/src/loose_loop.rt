//! The loop over loose copies, and the settling.

ghost use Rattle.std.specs.Prelude.{◌≡◌, ◌≤◌, ◌++◌, Some, None, OnOk, Err};
ghost use Rattle.tp_schedule.specs.PlannerAnswers.{CanSettle};
ghost use Rattle.tp_schedule.specs.PlannerAnswers.Deed.{settled};
ghost use Rattle.tp_schedule.specs.PlannerAnswers.Due.{asking, settling};
ghost use Rattle.tp_event_rules.specs.AnswerRecords.{moves};
ghost use Rattle.tp_event_rules.specs.LiveStates.{seen};
ghost use Rattle.tp_event_rules.specs.Loops.{next_ask};
ghost use Rattle.tp_event_rules.specs.Planners.{right_steps};
ghost use Rattle.tp_replan.specs.Answered.{IsAnswered, IsInLoop, NotesStop};
ghost use Rattle.tp_replan.specs.KeptPlanner.{KeepsPlanner};
ghost use Rattle.tp_replan.specs.LooseLoop.{CanLoop, Stays};

use crate::early_release::release;
use crate::loose_ask::{ask_planner, next_ask};
use crate::unplanned_copy::not_planned;
use std::alloc::Global;
use tp_event_records::{Times, tell_all_moves};
use tp_event_rules::LiveState;
use tp_machine::{Machine, machine_law};
use tp_schedule::{Ask, Halt, Planner, Record, Reply};

/// Asks a loose copy, and does what the answer leads to.
///
/// After a `Halt` nothing is known of the state, so that the caller drops it, and notes may have come.
fn answer_loose<P: Planner>(
    alloc: Global,
    machine: &Machine,
    state: &mut LiveState,
    planner: &mut P,
    ask: &Ask,
    notes: &mut Vec<Record>,
) -> Result<(), Halt>
    requires served { P.serves planner.old machine.now }
    requires can { CanLoop machine.now (seen state.old) }
    requires is_due { next_ask machine.now (seen state.old) ≡ Some ask.now }
    ensures answered { OnOk result
        (IsAnswered (right_steps P.rules machine.now) machine.now
        (seen state.old) planner.old notes.old.items
        (seen state.new) planner.new notes.new.items) }
    ensures stopped { result ≡ Err Halt.Stopped → Stays notes.old.items notes.new.items
        (P.rules.stop_steps planner.old machine.now state.old.schedule.plans (asking ask.entry.now)
        planner.new) }
    ensures keeps { KeepsPlanner P.serves P.stops P.lasting machine.now planner.old planner.new
        result }
    ensures marked { state.new.lines.kept ≡ state.old.lines.kept }
{
    machine_law(machine);
    match ask_planner(alloc, machine, &mut state.schedule, planner, ask, notes)? {
        Reply::Planned => {
            let last = state.moment + machine.lead;
            let Ok(()) = release(machine, state, ask.sheet, last, notes) else {
                return Err(Halt::Memory);
            };
        }
        Reply::Never | Reply::Spent { .. } => {
            let Ok(()) = not_planned(alloc, machine, state, ask, notes) else {
                return Err(Halt::Memory);
            };
        }
    }
    Ok(())
}

/// The loop: while a copy is loose, the first one is asked.
///
/// After a `Halt` nothing is known of the state, so that the caller drops it, and notes may have come.
pub(crate) fn run_loop<P: Planner>(
    alloc: Global,
    machine: &Machine,
    state: &mut LiveState,
    planner: &mut P,
    notes: &mut Vec<Record>,
) -> Result<(), Halt>
    requires served { P.serves planner.old machine.now }
    requires can { CanLoop machine.now (seen state.old) }
    ensures in_loop { OnOk result
        (IsInLoop (right_steps P.rules machine.now) machine.now
        (seen state.old) planner.old notes.old.items
        (seen state.new) planner.new notes.new.items) }
    ensures none { OnOk result (next_ask machine.now (seen state.new) ≡ None) }
    ensures stopped { result ≡ Err Halt.Stopped
        → NotesStop (right_steps P.rules machine.now) machine.now
        (seen state.old) planner.old notes.old.items planner.new notes.new.items }
    ensures keeps { KeepsPlanner P.serves P.stops P.lasting machine.now planner.old planner.new
        result }
    ensures marked { state.new.lines.kept ≡ state.old.lines.kept }
{
    'loose: while let Some(ask) = next_ask(machine, state) {
        answer_loose(alloc, machine, state, planner, &ask, notes)?;
    }
    Ok(())
}

/// Settles the times, and notes the plans that move.
pub(crate) fn settle<P: Planner>(
    alloc: Global,
    machine: &Machine,
    state: &mut LiveState,
    planner: &mut P,
    notes: &mut Vec<Record>,
) -> Result<(), Halt>
    requires served { P.serves planner.old machine.now }
    requires can { CanSettle machine.now state.old.moment state.old.schedule.plans }
    ensures settled { OnOk result
        ((right_steps P.rules machine.now).does planner.old
        state.old.schedule.plans (settled state.old.moment)
        state.new.schedule.plans planner.new) }
    ensures state { OnOk result (seen state.new
        ≡ record (seen state.old) { plans = state.new.schedule.plans }) }
    ensures told { OnOk result (notes.new.items
        ≡ notes.old.items ++ moves state.old.schedule.plans state.new.schedule.plans) }
    ensures stopped { result ≡ Err Halt.Stopped → Stays notes.old.items notes.new.items
        (P.rules.stop_steps planner.old machine.now state.old.schedule.plans
        (settling state.old.moment) planner.new) }
    ensures keeps { KeepsPlanner P.serves P.stops P.lasting machine.now planner.old planner.new
        result }
    ensures marked { state.new.lines.kept ≡ state.old.lines.kept }
{
    let Ok(before) = Times::of(alloc, &state.schedule, None) else {
        return Err(Halt::Memory);
    };
    planner.settle(machine, &mut state.schedule, state.moment)?;
    let Ok(()) = tell_all_moves(alloc, &before, &state.schedule, notes) else {
        return Err(Halt::Memory);
    };
    Ok(())
}
