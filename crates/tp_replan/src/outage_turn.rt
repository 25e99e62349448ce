//! A module goes out: the outage, the loop over loose copies, and the settling, over any planner.

ghost use Rattle.std.specs.Prelude.{◌≡◌, ℕ, ◌+◌, ◌≤◌, ◌<◌, length, OnOk, IfOk, IfErr, Err};
ghost use Rattle.tp_schedule.specs.PlannerAnswers.{StopsOnlyWhere};
ghost use Rattle.tp_schedule.specs.Plans.{is_front};
ghost use Rattle.tp_event_rules.specs.LiveStates.{seen};
ghost use Rattle.tp_event_rules.specs.Planners.{right_steps};
ghost use Rattle.tp_event_rules.specs.Ready.{CanTakeEvents, KeepsLive};
ghost use Rattle.tp_event_rules.specs.Seen.{fronts_of, state_seen};
ghost use Rattle.tp_replan.specs.Answered.{NotesOut, NotesStoppedOut};
ghost use Rattle.tp_replan.specs.LooseLoop.{CanBeginLoop};

use crate::loose_loop::{run_loop, settle};
use crate::module_out::take_out;
use crate::outage::Outage;
use std::alloc::Global;
use std::mem;
use tp_base::{Memory, Tick};
use tp_event_rules::LiveState;
use tp_jobs::Lines;
use tp_machine::{Machine, ModId, Outs, machine_law};
use tp_schedule::{Halt, Kind, Plan, Planner, Record, Schedule, SheetId};
use tp_stock::Refills;

/// A module goes out, or jams: the outage, the loop over loose copies, and the settling.
///
/// After a `Halt` nothing is known of the state, so that the caller drops it. After `Stopped` the notes have grown by what
/// comes before the ask or the settling that is due.
pub fn go_out<P: Planner>(
    alloc: Global,
    machine: &Machine,
    state: &mut LiveState,
    planner: &mut P,
    event: Outage,
    notes: &mut Vec<Record>,
) -> Result<(), Halt>
    requires served { P.serves planner.old machine.now }
    requires there { event.module.0 < length machine.now.modules }
    requires can { CanBeginLoop machine.now (seen state.old) }
    ensures out { OnOk result
        (NotesOut (right_steps P.rules machine.now) machine.now event
        (seen state.old) planner.old notes.old.items
        (seen state.new) planner.new notes.new.items) }
    ensures stopped { result ≡ Err Halt.Stopped
        → NotesStoppedOut (right_steps P.rules machine.now) machine.now event
        (seen state.old) planner.old notes.old.items planner.new notes.new.items }
    ensures kept { OnOk result ((copies : ℕ) → KeepsLive machine.now copies (seen state.old)
        → CanTakeEvents machine.now (copies + 1) (seen state.new)) }
    ensures stops_only { IfErr result (StopsOnlyWhere (P.stops planner.old) (P.stops planner.new)) }
    ensures counted { P.stops planner.old ≤ P.stops planner.new }
    ensures still_serves { P.serves planner.new machine.now }
    ensures lasts { P.lasting planner.new ≡ P.lasting planner.old }
    ensures marked { state.new.lines.kept ≡ state.old.lines.kept }
{
    machine_law(machine);
    let Ok(()) = take_out(alloc, machine, state, event, notes) else {
        return Err(Halt::Memory);
    };
    run_loop(alloc, machine, state, planner, notes)?;
    settle(alloc, machine, state, planner, notes)?;
    Ok(())
}

fn is_front(plan: &Plan) -> bool
    ensures { result ≡ is_front plan.now.kind }
{
    plan.kind == Kind::Front
}

/// The copies whose plan is a front. Before a module goes out these are the lost ones.
fn fronts(alloc: Global, schedule: &Schedule) -> Result<Vec<SheetId>, Memory>
    ensures { IfOk result (λ copies. copies.items ≡ fronts_of schedule.now.plans) }
{
    let mut copies = Vec::new(alloc);
    for at in 0..schedule.len() {
        let plan = schedule.plan_at(at);
        let sheet = plan.sheet;
        if is_front(plan) {
            copies.push(sheet)?;
        }
    }
    Ok(copies)
}

/// The state that schedule, lines and modules show at a moment where no copy is loose. Both are empty after it.
fn take_state(
    alloc: Global,
    schedule: &mut Schedule,
    lines: &mut Lines,
    outs: Outs,
    now: Tick,
) -> Result<LiveState, Memory>
    ensures { IfOk result (λ state.
        seen state ≡ state_seen now schedule.old.plans lines.old outs) }
{
    let lost = fronts(alloc, schedule)?;
    Ok(LiveState {
        moment: now,
        schedule: mem::replace(schedule, Schedule::new(alloc)),
        lost,
        lines: mem::replace(lines, Lines::new(alloc)),
        outs,
        refills: Refills::none(),
    })
}

/// A module goes out, or jams: `go_out` on the state that schedule, lines and modules show at the moment `now`.
///
/// After a `Halt` nothing is known of schedule and lines, so that the caller drops them. After `Stopped` the notes have grown
/// by what comes before the ask or the settling that is due.
pub fn handle_out<P: Planner>(
    alloc: Global,
    machine: &Machine,
    schedule: &mut Schedule,
    lines: &mut Lines,
    outs: &mut Outs,
    planner: &mut P,
    now: Tick,
    id: ModId,
    jammed: bool,
    notes: &mut Vec<Record>,
) -> Result<(), Halt>
    requires served { P.serves planner.old machine.now }
    requires there { id.0 < length machine.now.modules }
    requires can { CanBeginLoop machine.now
        (state_seen now schedule.old.plans lines.old outs.old) }
    ensures out { OnOk result
        (NotesOut (right_steps P.rules machine.now) machine.now
        (record { «module» = id; jammed = jammed })
        (state_seen now schedule.old.plans lines.old outs.old) planner.old notes.old.items
        (state_seen now schedule.new.plans lines.new outs.new) planner.new notes.new.items) }
    ensures stopped { result ≡ Err Halt.Stopped
        → NotesStoppedOut (right_steps P.rules machine.now) machine.now
        (record { «module» = id; jammed = jammed })
        (state_seen now schedule.old.plans lines.old outs.old) planner.old notes.old.items
        planner.new notes.new.items }
    ensures kept { OnOk result ((copies : ℕ)
        → KeepsLive machine.now copies (state_seen now schedule.old.plans lines.old outs.old)
        → CanTakeEvents machine.now (copies + 1)
        (state_seen now schedule.new.plans lines.new outs.new)) }
    ensures stops_only { IfErr result (StopsOnlyWhere (P.stops planner.old) (P.stops planner.new)) }
    ensures counted { P.stops planner.old ≤ P.stops planner.new }
    ensures still_serves { P.serves planner.new machine.now }
    ensures lasts { P.lasting planner.new ≡ P.lasting planner.old }
{
    let Ok(mut state) = take_state(alloc, schedule, lines, *outs, now) else {
        return Err(Halt::Memory);
    };
    let event = Outage { module: id, jammed };
    let result = go_out(alloc, machine, &mut state, planner, event, notes);
    *schedule = state.schedule;
    *lines = state.lines;
    *outs = state.outs;
    result
}
