//! The turn of any event, over any planner.

ghost use Rattle.std.specs.Prelude.{◌≡◌, ℕ, Err, ◌+◌, ◌≤◌, OnOk, IfErr};
ghost use Rattle.tp_schedule.specs.PlannerAnswers.{StopsOnlyWhere};
ghost use Rattle.tp_schedule.specs.declared.parts.Halt.TheVariants.{Stopped};
ghost use Rattle.tp_event_rules.specs.LiveStates.{seen};
ghost use Rattle.tp_event_rules.specs.Planners.{right_steps};
ghost use Rattle.tp_event_rules.specs.Ready.{CanTakeEvents, KeepsStock, last_copy};
ghost use Rattle.tp_event_turn.specs.Events.{NotesEvent};
ghost use Rattle.tp_event_turn.specs.Stops.{NotesEventStop};

use crate::clock_turn::move_clock;
use crate::job_order::JobOrder;
use crate::job_turn::take_job;
use crate::module_turn::{take_back, take_out};
use crate::refill_order::RefillOrder;
use crate::refill_turn::take_refill;
use crate::refusal_records::tell_refused;
use std::alloc::Global;
use tp_event_rules::LiveState;
use tp_machine::Machine;
use tp_schedule::{Cause, Halt, Planner, Record};
use tp_script::Event;

/// Takes an event: a job, a move of the clock, a module that goes out or comes back, a refill. One that is refused is noted so, and
/// nothing else changes; after any other the copies that wait are asked.
///
/// After a `Halt` nothing is known of the state, so that the caller drops it, and notes may have come.
pub fn take_event<P: Planner>(
    alloc: Global,
    machine: &Machine,
    state: &mut LiveState,
    planner: &mut P,
    event: &Event,
    notes: &mut Vec<Record>,
) -> Result<(), Halt>
    requires served { P.serves planner.old machine.now }
    requires can { CanTakeEvents machine.now last_copy (seen state.old) }
    requires stocked { KeepsStock machine.now last_copy (seen state.old) }
    ensures turn { OnOk result (
        NotesEvent (right_steps P.rules machine.now) machine.now event.now
        (seen state.old) planner.old notes.old.items (seen state.new) planner.new notes.new.items) }
    ensures stopped { result ≡ Err Stopped →
        NotesEventStop (right_steps P.rules machine.now) machine.now event.now
        (seen state.old) planner.old notes.old.items planner.new notes.new.items }
    ensures kept { OnOk result ((copies : ℕ) → CanTakeEvents machine.now copies (seen state.old)
        → CanTakeEvents machine.now (copies + 1) (seen state.new)) }
    ensures stops_only { IfErr result (StopsOnlyWhere (P.stops planner.old) (P.stops planner.new)) }
    ensures counted { P.stops planner.old ≤ P.stops planner.new }
    ensures still_serves { P.serves planner.new machine.now }
    ensures marked { state.new.lines.kept ≡ state.old.lines.kept }
    ensures lasts { P.lasting planner.new ≡ P.lasting planner.old }
{
    match event {
        Event::Bad => tell_refused(Cause::Syntax, notes),
        Event::Job {
            name,
            tray,
            media,
            groups,
        } => {
            // For the prover: brings length groups < 2^32.
            let _count = groups.len();
            let order = JobOrder {
                name: *name,
                tray: *tray,
                media: *media,
                groups: groups.as_slice(),
            };
            take_job(alloc, machine, state, planner, &order, notes)
        }
        Event::Clock { to } => move_clock(alloc, machine, state, planner, *to, notes),
        Event::Jam { .. } | Event::Off { .. } => {
            take_out(alloc, machine, state, planner, event, notes)
        }
        Event::On { .. } => take_back(alloc, machine, state, planner, event, notes),
        Event::Refill { feeder, count } => {
            let order = RefillOrder {
                feeder: *feeder,
                count: *count,
            };
            take_refill(alloc, machine, state, planner, &order, notes)
        }
    }
}
