//! The ask for the first loose copy.

ghost use Rattle.std.specs.Prelude.{◌≡◌, ◌<◌, ◌≤◌, ◌++◌, length, slice_get, find, All, None};
ghost use Rattle.std.specs.Prelude.{IfOk, Err};
ghost use Rattle.std.specs.Option.{MatchOption};
ghost use Rattle.tp_schedule.specs.PlannerAnswers.{CanAsk};
ghost use Rattle.tp_schedule.specs.PlannerAnswers.Deed.{replied};
ghost use Rattle.tp_schedule.specs.PlannerAnswers.Due.{asking};
ghost use Rattle.tp_schedule.specs.Plans.{IsTimedPlan};
ghost use Rattle.tp_schedule.specs.Routes.{walk};
ghost use Rattle.tp_event_records.specs.RecordNames.{IsKnown as IsAction};
ghost use Rattle.tp_event_rules.specs.AnswerRecords.{told_of_reply};
ghost use Rattle.tp_event_rules.specs.LiveStates.{seen};
ghost use Rattle.tp_event_rules.specs.Loops.{ask_in_flight, is_loose, next_ask, state_after};
ghost use Rattle.tp_event_rules.specs.Planners.{right_steps};
ghost use Rattle.tp_replan.specs.KeptPlanner.{KeepsPlanner};
ghost use Rattle.tp_replan.specs.LooseLoop.{Stays};

use crate::lost_copies::is_lost;
use std::alloc::Global;
use tp_event_records::{Times, tell_reply};
use tp_event_rules::LiveState;
use tp_machine::{ActId, Machine, Sheet, State, step};
use tp_schedule::{
    Ask, Empties, Halt, Kind, Origin, Plan, Planner, Record, Reply, Schedule, new_sheet,
};

/// Where the actions lead the sheet.
fn walk(machine: &Machine, want: &Sheet, acts: &[ActId], from: State) -> Option<State>
    requires { All (IsAction machine.now) acts.now }
    ensures { result ≡ walk machine.now want.now acts.now from }
{
    if let [act, later @ ..] = acts {
        let action = machine.actions.get(u32::from(act.0));
        let next = step(action, want, from)?;
        return walk(machine, want, later, next);
    }
    Some(from)
}

/// The state of the sheet after the actions of its plan.
fn state_after(machine: &Machine, plan: &Plan) -> State
    requires { IsTimedPlan machine.now plan.now }
    ensures { result ≡ state_after machine.now plan.now }
{
    let first = plan.acts.get(0);
    let start = new_sheet(machine.actions.get(u32::from(first.0)).from);
    match walk(machine, &plan.want, plan.acts.as_slice(), start) {
        Some(state) => state,
        None => start,
    }
}

/// The ask for a copy in flight.
fn ask_in_flight(machine: &Machine, state: &LiveState, plan: &Plan) -> Ask
    requires { IsTimedPlan machine.now plan.now }
    ensures { result ≡ ask_in_flight machine.now (seen state.now) plan.now }
{
    let kept = plan.acts.len();
    Ask {
        sheet: plan.sheet,
        name: plan.name,
        want: plan.want,
        goal: plan.goal,
        origin: Origin::Front {
            state: state_after(machine, plan),
            end: plan.points.get(kept),
            kept,
        },
        outs: state.outs,
        empty: Empties::none(),
        now: state.moment,
    }
}

fn is_loose(state: &LiveState, plan: &Plan) -> bool
    ensures { result ≡ is_loose (seen state.now) plan.now }
{
    let gone = is_lost(state, plan);
    plan.kind == Kind::Front && !gone
}

/// The place of the first loose copy's plan.
fn first_loose(state: &LiveState) -> Option<u32>
    ensures { MatchOption result
        (find (is_loose (seen state.now)) state.now.schedule.plans ≡ None)
        (λ at. (at < length state.now.schedule.plans)
        × (find (is_loose (seen state.now)) state.now.schedule.plans
        ≡ slice_get state.now.schedule.plans at)) }
{
    for at in 0..state.schedule.len() {
        if is_loose(state, state.schedule.plan_at(at)) {
            return Some(at);
        }
    }
    None
}

/// The ask that is due: for the first loose copy, if there is one.
pub(crate) fn next_ask(machine: &Machine, state: &LiveState) -> Option<Ask>
    requires { All (IsTimedPlan machine.now) state.now.schedule.plans }
    ensures { result ≡ next_ask machine.now (seen state.now) }
{
    let at = first_loose(state)?;
    Some(ask_in_flight(machine, state, state.schedule.plan_at(at)))
}

/// Asks the planner, and notes what it answers.
pub(crate) fn ask_planner<P: Planner>(
    alloc: Global,
    machine: &Machine,
    schedule: &mut Schedule,
    planner: &mut P,
    ask: &Ask,
    notes: &mut Vec<Record>,
) -> Result<Reply, Halt>
    requires served { P.serves planner.old machine.now }
    requires can_ask { CanAsk machine.now schedule.old.plans ask.now }
    ensures answers { IfOk result (λ reply.
        (right_steps P.rules machine.now).does planner.old
        schedule.old.plans (replied ask.entry.now reply) schedule.new.plans planner.new) }
    ensures told { IfOk result (λ reply. notes.new.items ≡ notes.old.items
        ++ told_of_reply machine.now schedule.old.plans ask.entry.now reply schedule.new.plans) }
    ensures stopped { result ≡ Err Halt.Stopped → Stays notes.old.items notes.new.items
        (P.rules.stop_steps planner.old machine.now schedule.old.plans (asking ask.entry.now)
        planner.new) }
    ensures keeps { KeepsPlanner P.serves P.stops P.lasting machine.now planner.old planner.new
        result }
{
    let Ok(before) = Times::of(alloc, schedule, Some(ask.sheet)) else {
        return Err(Halt::Memory);
    };
    let reply = planner.ask(machine, schedule, ask)?;
    let Ok(()) = tell_reply(machine, &before, ask, reply, schedule, notes) else {
        return Err(Halt::Memory);
    };
    Ok(reply)
}
