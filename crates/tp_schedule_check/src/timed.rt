//! Whether a plan is a timed plan.
ghost use Rattle.std.specs.Prelude.{◌≡◌, ◌↔◌, ◌+◌, ◌≤◌, Any, Contains, IsSomeAnd, IsTrue, length};
ghost use Rattle.tp_schedule_check.specs.Timed.{DoLast, LeadsFrom};
ghost use Rattle.tp_schedule.specs.Plans.{EndsIn, IsFormed, IsTimedPlan, LastsWithin};
ghost use Rattle.tp_schedule.specs.Routes.{fresh, step_by, walk};

use crate::early::action_of;
use tp_base::Tick;
use tp_machine::{ActId, Action, Feeder, LocId, Machine, Sheet, State, step};
use tp_schedule::{Goal, Kind, Plan, finished, new_sheet};

/// Whether there is at least one action, one point more than actions, and at most as many released ones.
fn has_form(plan: &Plan) -> bool
    ensures { IsTrue result ↔ IsFormed plan.now }
{
    let acts = plan.acts.len();
    let points = plan.points.len();
    0 < acts && points == acts + 1 && plan.released <= acts
}

fn step_by(machine: &Machine, want: &Sheet, act: ActId, state: State) -> Option<State>
    ensures { result ≡ step_by machine.now want.now act state }
{
    match action_of(machine, act) {
        Some(action) => step(action, want, state),
        None => None,
    }
}

/// Where the actions lead from the state, if they can be taken one after another.
pub(crate) fn walk(machine: &Machine, want: &Sheet, acts: &[ActId], state: State) -> Option<State>
    ensures { result ≡ walk machine.now want.now acts.now state }
{
    if let [act, later @ ..] = acts {
        match step_by(machine, want, *act, state) {
            Some(next) => walk(machine, want, later, next),
            None => None,
        }
    } else {
        Some(state)
    }
}

fn is_among(locs: &[LocId], loc: LocId) -> bool
    ensures { IsTrue result ↔ Contains locs.now loc }
{
    locs.contains(&loc)
}

/// Whether the plan may end in the state.
fn may_end_in(machine: &Machine, plan: &Plan, state: State) -> bool
    ensures { IsTrue result ↔ EndsIn machine.now plan.now plan.now.kind state }
{
    match (plan.kind, plan.goal) {
        (Kind::Front, _) => true,
        (Kind::Whole, Goal::Tray(tray)) => state == finished(&plan.want, tray),
        (Kind::Whole, Goal::Purge) => is_among(machine.purges.as_slice(), state.loc),
    }
}

fn does_arrive(machine: &Machine, plan: &Plan, end: Option<State>) -> bool
    ensures { IsTrue result ↔ IsSomeAnd end (EndsIn machine.now plan.now plan.now.kind) }
{
    match end {
        Some(state) => may_end_in(machine, plan, state),
        None => false,
    }
}

fn does_lead(machine: &Machine, plan: &Plan, feeder: &Feeder) -> bool
    ensures { IsTrue result ↔ ((feeder.now.media ≡ plan.now.want.media)
        × IsSomeAnd (walk machine.now plan.now.want plan.now.acts (fresh feeder.now.loc))
        (EndsIn machine.now plan.now plan.now.kind)) }
{
    let start = new_sheet(feeder.loc);
    let end = walk(machine, &plan.want, plan.acts.as_slice(), start);
    let arrives = does_arrive(machine, plan, end);
    feeder.media == plan.want.media && arrives
}

fn is_led_from(machine: &Machine, plan: &Plan, feeder: &Feeder) -> bool
    ensures { IsTrue result ↔ LeadsFrom machine.now plan.now feeder.now }
{
    does_lead(machine, plan, feeder)
}

/// Whether the actions lead from a feeder of the plan's media to where the plan is to end.
fn is_led(machine: &Machine, plan: &Plan) -> bool
    ensures { IsTrue result ↔ Any (LeadsFrom machine.now plan.now) machine.now.feeders }
{
    'feeders: for at in 0..machine.feeders.len() {
        let feeder = machine.feeders.get(at);
        if is_led_from(machine, plan, feeder) {
            return true;
        }
    }
    false
}

/// Whether the action, from the one tick to the other, lasts within its durations.
fn is_within(action: &Action, start: Tick, end: Tick) -> bool
    ensures { IsTrue result
        ↔ ((start + action.now.least ≤ end) × (end ≤ start + action.now.most)) }
{
    let least = u64::from(start) + action.least as u64;
    let most = u64::from(start) + action.most as u64;
    least <= u64::from(end) && u64::from(end) <= most
}

fn does_last(machine: &Machine, act: ActId, start: Tick, end: Tick) -> bool
    ensures { IsTrue result ↔ LastsWithin machine.now act start end }
{
    match action_of(machine, act) {
        Some(action) => is_within(action, start, end),
        None => false,
    }
}

/// Whether each action lasts within its durations.
fn do_last(machine: &Machine, acts: &[ActId], points: &[Tick]) -> bool
    requires { length points.now ≡ length acts.now + 1 }
    ensures { IsTrue result ↔ DoLast machine.now acts.now points.now }
{
    'acts: for at in 0..acts.len() {
        if !does_last(machine, acts[at], points[at], points[at + 1]) {
            return false;
        }
    }
    true
}

/// Whether the plan is a timed plan: at most 64 actions that lead from a feeder of its media from state to state, of which the
/// first few are released, and points that leave each action its durations. A whole plan ends in its goal.
pub fn is_timed_plan(machine: &Machine, plan: &Plan) -> bool
    ensures { IsTrue result ↔ IsTimedPlan machine.now plan.now }
{
    if !has_form(plan) {
        return false;
    }
    let led = is_led(machine, plan);
    let lasts = do_last(machine, plan.acts.as_slice(), plan.points.as_slice());
    led && lasts
}
