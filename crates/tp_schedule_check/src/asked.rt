//! Whether a plan answers an ask.
ghost use Rattle.std.specs.Prelude.{◌≡◌, ◌≢◌, ◌↔◌, ◌++◌, Any, IsTrue, List, MatchOption};
ghost use Rattle.tp_machine.specs.declared.parts.ActId.{ActId};
ghost use Rattle.tp_schedule.specs.Answers.{AnswersAsk, kept_acts};
ghost use Rattle.tp_schedule.specs.Routes.{AreAllowed, IsRoute, fresh, is_act_allowed};
ghost use Rattle.tp_schedule_check.specs.Asked.{AnswersBy, Arrives, DoesLead, IsOf, LeadsFrom};

use crate::plans::{are_same_acts, plan_of};
use crate::timed::walk;
use tp_machine::{ActId, Machine, Outs, State, allowed};
use tp_schedule::{Ask, Kind, Origin, Plan, Schedule, SheetId, is_goal, is_start, new_sheet};

/// The actions of the copy's plan, or none.
fn kept_acts(before: &Schedule, copy: SheetId) -> &[ActId]
    ensures { result.now ≡ kept_acts copy before.now.plans }
{
    match plan_of(before, copy) {
        Some(plan) => plan.acts.as_slice(),
        None => &[],
    }
}

/// What follows the first actions, if those are the first.
fn behind<'a>(acts: &'a [ActId], first: &[ActId]) -> Option<&'a [ActId]>
    ensures { MatchOption result ((route : List ActId) → acts.now ≢ first.now ++ route)
        (λ route. acts.now ≡ first.now ++ route.now) }
{
    if acts.len() < first.len() {
        return None;
    }
    if !are_same_acts(first, &acts[..first.len()]) {
        return None;
    }
    Some(&acts[first.len()..])
}

fn is_act_allowed(machine: &Machine, outs: Outs, act: ActId) -> bool
    ensures { result ≡ is_act_allowed machine.now outs act }
{
    usize::from(act.0) < machine.actions.as_slice().len() && allowed(machine, outs, act)
}

fn are_allowed(machine: &Machine, outs: Outs, acts: &[ActId]) -> bool
    ensures { IsTrue result ↔ AreAllowed machine.now outs acts.now }
{
    'acts: for at in 0..acts.len() {
        if !is_act_allowed(machine, outs, acts[at]) {
            return false;
        }
    }
    true
}

/// Whether the actions lead from the state to a goal state.
fn does_arrive(machine: &Machine, ask: &Ask, acts: &[ActId], start: State) -> bool
    ensures { IsTrue result ↔ Arrives machine.now ask.entry.now acts.now start }
{
    match walk(machine, &ask.want, acts, start) {
        Some(end) => is_goal(machine, ask, end),
        None => false,
    }
}

/// Whether the state is a start state of the ask from which the actions lead to a goal state.
fn does_lead_from(machine: &Machine, ask: &Ask, acts: &[ActId], start: State) -> bool
    ensures { IsTrue result ↔ LeadsFrom machine.now ask.entry.now acts.now start }
{
    let starts = is_start(machine, ask, start);
    let arrives = does_arrive(machine, ask, acts, start);
    starts && arrives
}

fn does_lead_from_feeder(machine: &Machine, ask: &Ask, acts: &[ActId]) -> bool
    ensures { IsTrue result
        ↔ Any (λ f. LeadsFrom machine.now ask.entry.now acts.now (fresh f.loc))
        machine.now.feeders }
{
    'feeders: for at in 0..machine.feeders.len() {
        let start = new_sheet(machine.feeders.get(at).loc);
        if does_lead_from(machine, ask, acts, start) {
            return true;
        }
    }
    false
}

/// Whether the actions lead from a start state of the ask to a goal state.
fn does_lead(machine: &Machine, ask: &Ask, acts: &[ActId]) -> bool
    ensures { IsTrue result ↔ DoesLead machine.now ask.entry.now acts.now }
{
    match ask.origin {
        Origin::Feeder => does_lead_from_feeder(machine, ask, acts),
        Origin::Front { state, .. } => does_lead_from(machine, ask, acts, state),
    }
}

fn is_route(machine: &Machine, ask: &Ask, acts: &[ActId]) -> bool
    ensures { IsTrue result ↔ IsRoute machine.now ask.entry.now acts.now }
{
    let leads = does_lead(machine, ask, acts);
    !acts.is_empty() && leads
}

/// Whether the plan is the asked copy's but for its way: whole, with the ask's name, want and goal, and with its kept actions
/// released.
fn is_of(ask: &Ask, plan: &Plan) -> bool
    ensures { IsTrue result ↔ IsOf ask.entry.now plan.now }
{
    let same_copy = plan.sheet == ask.sheet && plan.name == ask.name && plan.want == ask.want;
    let same_goal = plan.goal == ask.goal && plan.kind == Kind::Whole;
    same_copy && same_goal && plan.released == ask.origin.kept()
}

/// Whether the plan is the asked copy's, and goes on by this route of allowed actions.
fn does_answer(machine: &Machine, ask: &Ask, plan: &Plan, route: &[ActId]) -> bool
    ensures { IsTrue result ↔ AnswersBy machine.now ask.entry.now plan.now route.now }
{
    let of = is_of(ask, plan);
    let leads = is_route(machine, ask, route);
    let allowed = are_allowed(machine, ask.outs, route);
    of && leads && allowed
}

/// Whether the plan answers the ask on the schedule: it is the asked copy's, and after the actions that the copy has there
/// it goes on by a route of allowed actions.
pub fn answers_ask(machine: &Machine, before: &Schedule, ask: &Ask, plan: &Plan) -> bool
    ensures { IsTrue result ↔ AnswersAsk machine.now before.now.plans ask.entry.now plan.now }
{
    match behind(plan.acts.as_slice(), kept_acts(before, ask.sheet)) {
        Some(route) => does_answer(machine, ask, plan, route),
        None => false,
    }
}
