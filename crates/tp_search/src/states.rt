//! The states that a search comes to, from the goal states back.
ghost use Rattle.std.specs.Prelude.{◌≡◌, ◌<◌, IfNone, IfSome, Some, length};
ghost use Rattle.tp_schedule.specs.Routes.{HasNoRoom, IsRoom, step_by};
ghost use Rattle.tp_machine.specs.declared.parts.State.{State};
ghost use Rattle.tp_search.specs.Problems.{IsPosed};
ghost use Rattle.tp_search.specs.States.{HasNoGoalAt, HasNoneBefore, IsBefore, IsGoalAt};

use crate::problem::Problem;
use tp_machine::{ActId, LocId, State, allowed, regress};
use tp_schedule::is_goal;

/// A state with its room, in ticks.
#[derive(Clone, Copy)]
pub(crate) struct Before {
    pub(crate) state: State,
    pub(crate) room: u32,
}

/// The room of a state for the ask that the table was filled for, or None where the state has none.
pub(crate) fn room_of(problem: Problem, state: State) -> Option<u32>
    requires posed { IsPosed problem }
    requires known { state.loc.0 < length problem.machine.now.locations }
    ensures some { IfSome result (IsRoom problem.entry.machine.now problem.entry.ask.now state) }
    ensures none { IfNone result (HasNoRoom problem.entry.machine.now problem.entry.ask.now state) }
{
    problem.rooms.room(state)
}

/// The one state from which the action leads to this one, with its room. None where the action is not allowed, leads here
/// from no state, or leads here from a state that has no room.
#[inline(always)]
pub(crate) fn state_before(problem: Problem, state: State, act: ActId) -> Option<Before>
    requires posed { IsPosed problem }
    requires known { act.0 < length problem.machine.now.actions }
    ensures some { IfSome result
        (IsBefore problem.entry.machine.now problem.entry.ask.now act state) }
    ensures only { IfSome result
        (λ r. (other : State)
        → step_by problem.entry.machine.now problem.entry.ask.now.want act other ≡ Some state
        → other ≡ r.state) }
    ensures none { IfNone result
        (HasNoneBefore problem.entry.machine.now problem.entry.ask.now act state) }
    ensures within { IfSome result
        (λ r. r.state.loc.0 < length problem.entry.machine.now.locations) }
{
    let before = regress(
        problem.machine.actions.get(act.0 as u32),
        &problem.ask.want,
        state,
    )?;
    if !allowed(problem.machine, problem.ask.outs, act) {
        return None;
    }
    let room = room_of(problem, before)?;
    Some(Before {
        state: before,
        room,
    })
}

/// Whether more than one action leads to the location.
fn is_joined(problem: Problem, loc: LocId) -> bool
    requires posed { IsPosed problem }
    requires known { loc.0 < length problem.machine.now.locations }
{
    match problem.rooms.first_to(loc) {
        Some(first) => problem.rooms.next_to(first).is_some(),
        None => false,
    }
}

/// The action that leads to the state from nearest to a start: from the state of least room of all. None where the first action
/// that leads there does so.
pub(crate) fn nearest_to(problem: Problem, state: State) -> Option<ActId>
    requires posed { IsPosed problem }
    requires known { state.loc.0 < length problem.machine.now.locations }
    ensures { IfSome result (λ act. act.0 < length problem.entry.machine.now.actions) }
{
    if !is_joined(problem, state.loc) {
        return None;
    }
    let mut least = None;
    let mut nearest = None;
    let mut next = problem.rooms.first_to(state.loc);
    'acts: while let Some(act) = next {
        if let Some(before) = state_before(problem, state, act) {
            match least {
                Some(room) => {
                    if before.room < room {
                        least = Some(before.room);
                        nearest = Some(act);
                    }
                }
                None => least = Some(before.room),
            }
        }
        next = problem.rooms.next_to(act);
    }
    nearest
}

/// The state with its room, where it is a goal state of the ask. None where it is no goal state or has no room.
pub(crate) fn goal_at(problem: Problem, state: State) -> Option<Before>
    requires posed { IsPosed problem }
    requires known { state.loc.0 < length problem.machine.now.locations }
    ensures some { IfSome result (IsGoalAt problem.entry.machine.now problem.entry.ask.now state) }
    ensures none { IfNone result
        (HasNoGoalAt problem.entry.machine.now problem.entry.ask.now state) }
{
    if !is_goal(problem.machine, problem.ask, state) {
        return None;
    }
    let room = room_of(problem, state)?;
    Some(Before { state, room })
}
