//! A feeder is refilled.

ghost use Rattle.std.specs.Prelude.{◌≡◌, ℕ, Err, ◌+◌, ◌<◌, ◌≤◌, OnOk, IfOk, IsSomeAnd};
ghost use Rattle.tp_machine.specs.Limits.{most_locations};
ghost use Rattle.tp_schedule.specs.declared.parts.Halt.TheVariants.{Stopped};
ghost use Rattle.tp_script.specs.declared.event.Event.TheVariants.{Refill};
ghost use Rattle.tp_stock.specs.Stock.{IsBounded, feeder_named};
ghost use Rattle.tp_event_rules.specs.LiveStates.{seen};
ghost use Rattle.tp_event_rules.specs.Planners.{right_steps};
ghost use Rattle.tp_event_rules.specs.Ready.{CanTakeEvents};
ghost use Rattle.tp_event_rules.specs.Refusals.{refill_refusal};
ghost use Rattle.tp_event_turn.specs.ModuleChecks.{cause_in};
ghost use Rattle.tp_replan.specs.KeptPlanner.{KeepsPlanner};
ghost use Rattle.tp_event_turn.specs.EventReadiness.{IsReadyForEvent};
ghost use Rattle.tp_event_turn.specs.Events.{NotesEvent};
ghost use Rattle.tp_event_turn.specs.Stops.{NotesEventStop};

use crate::ask_phase::ask_waiting;
use crate::refill_order::RefillOrder;
use crate::refusal_records::tell_refused;
use std::alloc::Global;
use tp_event_rules::LiveState;
use tp_machine::{LocId, Machine, machine_law};
use tp_schedule::{Cause, Halt, Planner, Record};
use tp_stock::{count_taken, feeder_named, free_stock};

/// The most sheets that a feeder may have free as it is refilled.
const MOST_FREE: i64 = 1_000_000;

/// The location of the feeder that is refilled, or why it is not: no feeder has the name, its stock is endless, or it would
/// have too many sheets. Takes no memory.
fn check_refill(machine: &Machine, state: &LiveState, order: &RefillOrder) -> Result<LocId, Cause>
    requires bounded { IsBounded state.now.refills.0 }
    ensures refused { cause_in result ≡ refill_refusal machine.now state.now.refills.0
        state.now.schedule.plans order.now.feeder order.now.count }
    ensures found { IfOk result (λ loc.
        IsSomeAnd (feeder_named machine.now order.now.feeder) (λ f. f.loc ≡ loc)) }
    ensures known { IfOk result (λ loc. loc.0 < most_locations) }
{
    machine_law(machine);
    let Some(feeder) = feeder_named(machine, &order.feeder) else {
        return Err(Cause::Feeder(order.feeder));
    };
    let taken = count_taken(machine, &state.schedule);
    match free_stock(&state.refills, &taken, &feeder) {
        None => Err(Cause::Endless(order.feeder)),
        Some(free) if free + i64::from(order.count) > MOST_FREE => {
            Err(Cause::Stock(order.feeder))
        }
        Some(_) => Ok(feeder.loc),
    }
}

/// Takes a `refill`: the feeder has so many sheets more, and the copies that wait are asked. One that is refused is noted so,
/// and nothing else changes.
///
/// After a `Halt` nothing is known of the state, so that the caller drops it, and notes may have come.
pub(crate) fn take_refill<P: Planner>(
    alloc: Global,
    machine: &Machine,
    state: &mut LiveState,
    planner: &mut P,
    order: &RefillOrder,
    notes: &mut Vec<Record>,
) -> Result<(), Halt>
    requires ready { IsReadyForEvent P.serves machine.now (seen state.old) planner.old }
    ensures turn { OnOk result (
        NotesEvent (right_steps P.rules machine.now) machine.now
        (Refill order.now.feeder order.now.count)
        (seen state.old) planner.old notes.old.items (seen state.new) planner.new notes.new.items) }
    ensures stopped { result ≡ Err Stopped →
        NotesEventStop (right_steps P.rules machine.now) machine.now
        (Refill order.now.feeder order.now.count)
        (seen state.old) planner.old notes.old.items planner.new notes.new.items }
    ensures kept { OnOk result ((copies : ℕ) → CanTakeEvents machine.now copies (seen state.old)
        → CanTakeEvents machine.now (copies + 1) (seen state.new)) }
    ensures keeps { KeepsPlanner P.serves P.stops P.lasting machine.now planner.old planner.new
        result }
    ensures marked { state.new.lines.kept ≡ state.old.lines.kept }
{
    let loc = match check_refill(machine, state, order) {
        Err(cause) => return tell_refused(cause, notes),
        Ok(loc) => loc,
    };
    state.refills = state.refills.add(loc, order.count);
    ask_waiting(alloc, machine, state, planner, notes)
}
