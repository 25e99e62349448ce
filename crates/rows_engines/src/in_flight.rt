//! Copies in flight: what is left of a plan, and the ask for what comes behind it.
ghost use Rattle.std.specs.Prelude.{◌≡◌, ◌<◌, ◌≤◌, [], length, IfOk};
ghost use Rattle.tp_machine.specs.declared.machine.Machine.{Machine};
ghost use Rattle.tp_routes.specs.Tables.{IsKnownOrigin};
ghost use Rattle.tp_schedule.specs.Answers.{kept_of};
ghost use Rattle.tp_schedule.specs.PlannerAnswers.{CanAsk, CanPlanOn, IsOpenGoal};
ghost use Rattle.tp_schedule.specs.Routes.{walk};
ghost use Rattle.tp_schedule.specs.declared.parts.Ask.{Ask};
ghost use Rattle.tp_constraints.specs.Suffixes.{IsInFlight};
ghost use Rattle.rows_engines.specs.Flights.{IsFrontOfFew, ask_after, front_plan};

use std::alloc::Global;
use std::test::Fail;
use tp_machine::{ActId, Machine, Outs, Sheet, State, step};
use tp_schedule::{Ask, Empties, Goal, Kind, Origin, Plan, Schedule, is_plan_live, is_start};

/// Where the actions lead from a state.
fn walk_on(machine: &Machine, want: &Sheet, acts: &[ActId], state: State) -> Option<State>
    ensures { result ≡ walk machine.now want.now acts.now state }
{
    match acts {
        [] => Some(state),
        [act, rest @ ..] => {
            if u32::from(act.0) >= machine.actions.len() {
                return None;
            }
            match step(machine.actions.get(act.0 as u32), want, state) {
                Some(next) => walk_on(machine, want, rest, next),
                None => None,
            }
        }
    }
}

/// The plan, cut after so many actions, all of them released.
fn front_plan(plan: &Plan, count: u32) -> Plan
    requires acts { count ≤ length plan.now.acts }
    requires points { count < length plan.now.points }
    ensures { result ≡ front_plan count plan.now }
{
    let mut front = plan.copy();
    front.kind = Kind::Front;
    front.acts.cut_to(count);
    front.points.cut_to(count + 1);
    front.released = count;
    front
}

/// A schedule with the front of the one plan, cut after so many actions.
pub(crate) fn one_flying(
    alloc: Global,
    machine: &Machine,
    schedule: &Schedule,
    count: u32,
) -> Result<Schedule, Fail>
    requires plan_on { CanPlanOn machine.now 0 schedule.now.plans }
    ensures plan_on { IfOk result (λ flying. CanPlanOn machine.now 0 flying.plans) }
{
    if schedule.len() != 1 {
        return Err(Fail::from("there are more plans or none"));
    }
    let plan = schedule.plan_at(0);
    if count == 0 || count > plan.acts.len() {
        return Err(Fail::from("the front has no action or too many"));
    }
    let mut flying = Schedule::new(alloc);
    match flying.reserve() {
        Ok(()) => {}
        Err(_) => return Err(Fail::from("memory")),
    }
    flying.put(front_plan(plan, count));
    Ok(flying)
}

/// The ask at the moment 0 for the copy of a plan, where no module is out.
fn ask_after(plan: &Plan, goal: Goal, origin: Origin) -> Ask
    ensures { result ≡ ask_after plan.now goal origin }
{
    Ask {
        sheet: plan.sheet,
        name: plan.name,
        want: plan.want,
        goal,
        origin,
        outs: Outs(0),
        empty: Empties::none(),
        now: 0,
    }
}

/// The number of a front's actions, all of them released, of which there are few.
fn few_kept(front: &Plan) -> Result<u32, Fail>
    ensures { IfOk result (λ kept. IsFrontOfFew kept front.now) }
{
    let kept = front.acts.len();
    match front.kind {
        Kind::Front => {}
        Kind::Whole => return Err(Fail::from("the plan is whole")),
    }
    if front.released != kept || kept == 0 || kept > 10 {
        return Err(Fail::from("the front has not few actions"));
    }
    Ok(kept)
}

/// The ask at the moment 0 for what comes behind the one front, which begins at a state.
pub(crate) fn rest_of(
    machine: &Machine,
    schedule: &Schedule,
    goal: Goal,
    first: State,
) -> Result<Ask, Fail>
    requires plan_on { CanPlanOn machine.now 0 schedule.now.plans }
    requires goal { (ask : Ask) → IsOpenGoal machine.now [] ask goal }
    ensures can_ask { IfOk result (λ ask. CanAsk machine.now schedule.now.plans ask) }
    ensures origin { IfOk result (λ ask. IsKnownOrigin machine.now ask.origin) }
    ensures flying { IfOk result (λ ask. IsInFlight ask.origin) }
    ensures kept { IfOk result (λ ask. kept_of ask ≤ 10) }
{
    if schedule.len() != 1 {
        return Err(Fail::from("there are more plans or none"));
    }
    let front = schedule.plan_at(0);
    let kept = few_kept(front)?;
    let end = front.points.get(kept);
    if end == 0 || !is_plan_live(machine, 0, front) {
        return Err(Fail::from("the front is over"));
    }
    if !is_start(machine, &ask_after(front, goal, Origin::Feeder), first) {
        return Err(Fail::from("the front begins elsewhere"));
    }
    let Some(state) = walk_on(machine, &front.want, front.acts.as_slice(), first) else {
        return Err(Fail::from("the front leads nowhere"));
    };
    if u32::from(state.loc.0) >= machine.locations.len() {
        return Err(Fail::from("the location is lost"));
    }
    Ok(ask_after(front, goal, Origin::Front { state, end, kept }))
}
