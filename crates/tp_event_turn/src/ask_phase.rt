//! The phase of asks: the copies that wait are asked in their order, over any planner.

ghost use Rattle.std.specs.Prelude.{◌≡◌, ℕ, false, Err, None, ◌+◌, ◌<◌, ◌≤◌, ◌++◌, length, IsSome, IsSomeAnd, IfOk, OnOk};
ghost use Rattle.tp_schedule.specs.PlannerAnswers.{CanAsk};
ghost use Rattle.tp_schedule.specs.PlannerAnswers.Deed.{replied};
ghost use Rattle.tp_schedule.specs.PlannerAnswers.Due.{asking};
ghost use Rattle.tp_schedule.specs.Plans.{without};
ghost use Rattle.tp_schedule.specs.declared.parts.Halt.TheVariants.{Stopped};
ghost use Rattle.tp_schedule.specs.declared.parts.Origin.TheVariants.{Feeder};
ghost use Rattle.tp_jobs.specs.WaitingCopies.{find_waiting};
ghost use Rattle.tp_stock.specs.Stock.{IsBounded};
ghost use Rattle.tp_event_rules.specs.AnswerRecords.{told_of_reply};
ghost use Rattle.tp_event_rules.specs.AskPhase.{ask_waiting, is_full};
ghost use Rattle.tp_event_rules.specs.LiveStates.{seen};
ghost use Rattle.tp_event_rules.specs.Planners.{right_steps};
ghost use Rattle.tp_event_rules.specs.Ready.{CanTakeEvents, KeepsLive, last_copy};
ghost use Rattle.tp_event_records.specs.RecordNames.{points_of};
ghost use Rattle.tp_replan.specs.KeptPlanner.{KeepsPlanner};
ghost use Rattle.tp_event_turn.specs.KeptPoints.{IsLeft};
ghost use Rattle.tp_event_turn.specs.Phases.{NotesAsks, NotesTurn};
ghost use Rattle.tp_event_turn.specs.Stops.{NotesStop, StopsAtCopy};

use std::alloc::Global;
use tp_event_records::{Times, label, tell_alone, tell_full, tell_reply};
use tp_event_rules::LiveState;
use tp_jobs::Blocked;
use tp_machine::{Machine, machine_law};
use tp_schedule::{Ask, Goal, Halt, Origin, Planner, Record, Reply, Schedule, SheetId};
use tp_stock::empty_feeders;

/// The most copies that are live at once.
pub const MOST_LIVE: u32 = 256;

/// The ask for a copy that waits, with its tray as goal. Feeders that are empty now are no starts of it.
fn make_ask(machine: &Machine, state: &LiveState, copy: SheetId) -> Ask
    requires waits { IsSome (find_waiting copy state.now.lines.waiting) }
    requires job { copy.job < length state.now.lines.jobs }
    requires bounded { IsBounded state.now.refills.0 }
    ensures { IsSomeAnd (find_waiting copy state.now.lines.waiting)
        (λ w. result ≡ ask_waiting machine.now (seen state.now) w) }
{
    Ask {
        sheet: copy,
        name: state.lines.name_of(copy.job),
        want: state.lines.want_of(copy),
        goal: Goal::Tray(state.lines.tray_of(copy.job)),
        origin: Origin::Feeder,
        outs: state.outs,
        empty: empty_feeders(machine, &state.refills, &state.schedule),
        now: state.moment,
    }
}

/// What one ask carries to the next: where memory comes from, and the points of all plans, where the planner left them so.
#[derive(Drop)]
struct Carry {
    alloc: Global,
    left: Option<Times>,
}

/// Asks the planner. Gives the points of the plans before its answer beside it.
fn ask_planner<P: Planner>(
    carry: &mut Carry,
    machine: &Machine,
    schedule: &mut Schedule,
    planner: &mut P,
    ask: &Ask,
) -> Result<(Times, Reply), Halt>
    requires served { P.serves planner.old machine.now }
    requires can_ask { CanAsk machine.now schedule.old.plans ask.now }
    requires left { IsLeft (P.follows planner.old machine.now) schedule.old.plans carry.old.left }
    ensures answers { IfOk result (λ answer.
        (right_steps P.rules machine.now).does planner.old schedule.old.plans
        (replied ask.entry.now answer.1) schedule.new.plans planner.new) }
    ensures before { IfOk result (λ answer. answer.0 ≡ points_of schedule.old.plans) }
    ensures unmoved { IfOk result (λ answer. P.moved planner.new ≡ false
        → without ask.entry.now.sheet schedule.new.plans
        ≡ without ask.entry.now.sheet schedule.old.plans) }
    ensures follows { IfOk result (λ answer.
        P.follows planner.new machine.now schedule.new.plans) }
    ensures stopped { result ≡ Err Stopped → P.rules.stop_steps planner.old machine.now
        schedule.old.plans (asking ask.entry.now) planner.new }
    ensures keeps { KeepsPlanner P.serves P.stops P.lasting machine.now planner.old planner.new
        result }
    ensures none { carry.new.left ≡ None }
{
    match carry.left.take() {
        Some(before) => {
            let reply = planner.ask_on(machine, schedule, ask)?;
            Ok((before, reply))
        }
        None => {
            let Ok(before) = Times::of(carry.alloc, schedule, None) else {
                return Err(Halt::Memory);
            };
            let reply = planner.ask(machine, schedule, ask)?;
            Ok((before, reply))
        }
    }
}

/// Asks the planner for a new copy, and notes what it answers.
fn ask_copy<P: Planner>(
    carry: &mut Carry,
    machine: &Machine,
    schedule: &mut Schedule,
    planner: &mut P,
    ask: &Ask,
    notes: &mut Vec<Record>,
) -> Result<Reply, Halt>
    requires served { P.serves planner.old machine.now }
    requires can_ask { CanAsk machine.now schedule.old.plans ask.now }
    requires new_copy { ask.now.origin ≡ Feeder }
    requires left { IsLeft (P.follows planner.old machine.now) schedule.old.plans carry.old.left }
    ensures answers { IfOk result (λ reply.
        (right_steps P.rules machine.now).does planner.old schedule.old.plans
        (replied ask.entry.now reply) schedule.new.plans planner.new) }
    ensures told { IfOk result (λ reply. notes.new.items ≡ notes.old.items
        ++ told_of_reply machine.now schedule.old.plans ask.entry.now reply schedule.new.plans) }
    ensures left { IfOk result (λ reply.
        IsLeft (P.follows planner.new machine.now) schedule.new.plans carry.new.left) }
    ensures stopped { result ≡ Err Stopped → (notes.new.items ≡ notes.old.items)
        × P.rules.stop_steps planner.old machine.now schedule.old.plans
        (asking ask.entry.now) planner.new }
    ensures keeps { KeepsPlanner P.serves P.stops P.lasting machine.now planner.old planner.new
        result }
{
    let (before, reply) = ask_planner(carry, machine, schedule, planner, ask)?;
    if planner.has_moved() {
        let Ok(()) = tell_reply(machine, &before, ask, reply, schedule, notes) else {
            return Err(Halt::Memory);
        };
        return Ok(reply);
    }
    let Ok(()) = tell_alone(machine, ask, reply, schedule, notes) else {
        return Err(Halt::Memory);
    };
    let Ok(left) = before.with_plan_of(schedule, ask.sheet) else {
        return Err(Halt::Memory);
    };
    carry.left = left;
    Ok(reply)
}

/// Whether as many copies are live as may be at once. They are counted only where there are as many plans.
fn is_full(machine: &Machine, state: &LiveState) -> bool
    ensures { result ≡ is_full machine.now (seen state.now) }
{
    if state.schedule.len() < MOST_LIVE {
        return false;
    }
    state.schedule.live(machine, state.moment) >= MOST_LIVE
}

/// Gives a copy its turn: notes that too many copies are live, or asks it. Answers whether it was planned. It then waits
/// no more.
fn try_copy<P: Planner>(
    carry: &mut Carry,
    machine: &Machine,
    state: &mut LiveState,
    planner: &mut P,
    copy: SheetId,
    notes: &mut Vec<Record>,
) -> Result<bool, Halt>
    requires served { P.serves planner.old machine.now }
    requires can { KeepsLive machine.now (last_copy + 1) (seen state.old) }
    requires left { IsLeft (P.follows planner.old machine.now) state.old.schedule.plans
        carry.old.left }
    requires waits { IsSome (find_waiting copy state.old.lines.waiting) }
    requires job { copy.job < length state.old.lines.jobs }
    requires bounded { IsBounded state.old.refills.0 }
    ensures tried { IfOk result (λ planned.
        NotesTurn (right_steps P.rules machine.now) machine.now copy
        (seen state.old) planner.old notes.old.items planned
        (seen state.new) planner.new notes.new.items) }
    ensures left { IfOk result (λ planned. IsLeft (P.follows planner.new machine.now)
        state.new.schedule.plans carry.new.left) }
    ensures stopped { result ≡ Err Stopped →
        StopsAtCopy (right_steps P.rules machine.now) machine.now copy
        (seen state.old) planner.old notes.old.items planner.new notes.new.items }
    ensures keeps { KeepsPlanner P.serves P.stops P.lasting machine.now planner.old planner.new
        result }
    ensures marked { state.new.lines.kept ≡ state.old.lines.kept }
    ensures refills { state.new.refills ≡ state.old.refills }
{
    if is_full(machine, state) {
        let sheet = label(state.lines.name_of(copy.job), copy);
        let Ok(()) = tell_full(sheet, notes) else {
            return Err(Halt::Memory);
        };
        return Ok(false);
    }
    let ask = make_ask(machine, state, copy);
    match ask_copy(carry, machine, &mut state.schedule, planner, &ask, notes)? {
        Reply::Planned => {
            state.lines.taken(copy);
            Ok(true)
        }
        Reply::Never | Reply::Spent { .. } => Ok(false),
    }
}

/// Asks the copies that wait, in their order. A copy that finds 256 copies live is noted full, and a copy that is planned
/// waits no more. Once a copy is full or not planned, the later ones of its line are passed over.
///
/// After a `Halt` nothing is known of the state, so that the caller drops it, and notes may have come.
pub(crate) fn ask_waiting<P: Planner>(
    alloc: Global,
    machine: &Machine,
    state: &mut LiveState,
    planner: &mut P,
    notes: &mut Vec<Record>,
) -> Result<(), Halt>
    requires served { P.serves planner.old machine.now }
    requires can { KeepsLive machine.now (last_copy + 1) (seen state.old) }
    requires bounded { IsBounded state.old.refills.0 }
    ensures asks { OnOk result (
        NotesAsks (right_steps P.rules machine.now) machine.now
        (seen state.old) planner.old notes.old.items (seen state.new) planner.new notes.new.items) }
    ensures stopped { result ≡ Err Stopped →
        NotesStop (right_steps P.rules machine.now) machine.now
        (seen state.old) planner.old notes.old.items planner.new notes.new.items }
    ensures kept { OnOk result ((copies : ℕ) → CanTakeEvents machine.now copies (seen state.old)
        → CanTakeEvents machine.now copies (seen state.new)) }
    ensures keeps { KeepsPlanner P.serves P.stops P.lasting machine.now planner.old planner.new
        result }
    ensures marked { state.new.lines.kept ≡ state.old.lines.kept }
{
    machine_law(machine);
    let mut blocked = Blocked::none();
    let mut last = None;
    let mut carry = Carry { alloc, left: None };
    'asks: while let Some(copy) = state.lines.next_to_try(last, &blocked) {
        let tray = state.lines.tray_of(copy.job);
        let planned = try_copy(&mut carry, machine, state, planner, copy, notes)?;
        if !planned {
            blocked.add(tray);
        }
        last = Some(copy);
    }
    Ok(())
}
