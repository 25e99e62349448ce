//! Goals and actions that are opened on a board.
ghost use Rattle.std.specs.Prelude.{◌≡◌, ◌+◌, ◌<◌, ◌≤◌, [], ◌∷◌, ◌++◌, None, Option, IfErr, IfOk, IfSome, Some, length, if◌then◌else◌};
ghost use Rattle.tp_constraints.specs.Suffixes.{Suffix};
ghost use Rattle.tp_machine.specs.ModuleUse.{action_at};
ghost use Rattle.tp_placing.specs.Boards.{suffix_of};
ghost use Rattle.tp_schedule.specs.Answers.{kept_of};
ghost use Rattle.tp_schedule.specs.Limits.{most_acts};
ghost use Rattle.tp_schedule.specs.Plans.{AreNamed};
ghost use Rattle.tp_schedule.specs.Routes.{IsGoalState, is_act_allowed};
ghost use Rattle.tp_bound_make.specs.TreeLimits.{FitsAsk};
ghost use Rattle.tp_bound_make.specs.TreeProgress.{Carries, IsEarlyEnd, IsEntered, IsGoalEntered, IsSet, IsSince, branch_by, hold_of};
ghost use Rattle.tp_bound_laws.specs.Places.{action_due, state_before};

use crate::rows::named;
use crate::scene::{NotShown, ShowBranch, ShowScene};
use crate::tree_nodes::{put_carried, put_dead, put_late};
use tp_base::{Late, Memory, Network};
use tp_bounds::{Head, Nodes};
use tp_machine::{ActId, State, allowed, machine_law, regress};
use tp_placing::Board;
use tp_schedule::action_law;

/// The state from which an allowed action leads to this one.
fn step_back(scene: ShowScene, state: State, act: ActId) -> Option<State>
    requires { act.0 < length scene.machine.now.actions }
    ensures before { result ≡ (if is_act_allowed scene.entry.machine.now scene.entry.ask.now.outs
        act then state_before scene.entry.ask.now.want state
        (action_at scene.entry.machine.now act.0) else None) }
    ensures known { IfSome result (λ s. s.loc.0 < length scene.entry.machine.now.locations) }
{
    action_law();
    machine_law(scene.machine);
    if !allowed(scene.machine, scene.ask.outs, act) {
        return None;
    }
    let action = scene.machine.actions.get(u32::from(act.0));
    regress(action, &scene.ask.want, state)
}

/// Opens an action before the branch that the board carries, if it is allowed and leads there.
pub(crate) fn enter_act<N: Network>(
    nodes: &mut Nodes,
    board: &mut Board<N>,
    scene: ShowScene,
    branch: ShowBranch,
    act: ActId,
) -> Result<Option<ShowBranch>, NotShown>
    requires set { IsSet N.reading scene.machine.now scene.ask.now
        board.old }
    requires named { AreNamed board.old.plans }
    requires fits { FitsAsk scene.machine.now scene.ask.now scene.rooms.now scene.limit }
    requires carries { (x : Suffix) × Carries N.reading scene.machine.now
        scene.ask.now board.old branch x }
    requires placed { hold_of scene.machine.now branch ≡ None }
    requires known { act.0 < length scene.machine.now.actions }
    requires fewer { (x : Suffix) → suffix_of board.old ≡ Some x
        → kept_of scene.ask.now + length x.choices < most_acts }
    ensures entered { IfOk result (λ o. (x : Suffix) → suffix_of board.old ≡ Some x
        → IsEntered N.reading scene.entry.machine.now board.old.plans
        scene.entry.ask.now scene.entry.rooms.now.sums scene.entry.limit nodes.old nodes.new
        board.new branch
        (λ rows. action_due scene.entry.machine.now board.old.plans scene.entry.ask.now rows
        (branch_by branch x) act) (λ _. []) o) }
    ensures early { IfErr result (IsEarlyEnd scene.entry.machine.now board.old.plans
        scene.entry.ask.now scene.entry.limit) }
    ensures since { IsSince N.reading board.old board.new
        scene.entry.machine.now }
{
    let Some(state) = step_back(scene, branch.first, act) else {
        return Ok(None);
    };
    let head = Head::Act {
        name: scene.machine.actions.get(u32::from(act.0)).name,
    };
    let child = ShowBranch {
        depth: branch.depth + 1,
        first: state,
        count: branch.count + 1,
        newest: Some(act),
        places: 0,
    };
    let Some(room) = scene.rooms.room(state) else {
        return put_dead(nodes, child.depth, head);
    };
    match board.open_action(scene.machine, act, room) {
        Ok(()) => put_carried(nodes, board, scene, child, head),
        Err(Late) => match put_late(nodes, board, scene, child.depth, head) {
            Ok(()) => Ok(None),
            Err(Memory) => Err(NotShown::Memory),
        },
    }
}

/// Opens a goal on a board that has none open. Answers the branch if it is split.
pub(crate) fn enter_goal<N: Network>(
    nodes: &mut Nodes,
    board: &mut Board<N>,
    scene: ShowScene,
    goal: State,
) -> Result<Option<ShowBranch>, NotShown>
    requires set { IsSet N.reading scene.machine.now scene.ask.now
        board.old }
    requires named { AreNamed board.old.plans }
    requires fits { FitsAsk scene.machine.now scene.ask.now scene.rooms.now scene.limit }
    requires closed { suffix_of board.old ≡ None }
    requires known { goal.loc.0 < length scene.machine.now.locations }
    requires is_goal { IsGoalState scene.machine.now scene.ask.now.want scene.ask.now.goal goal }
    requires kept { kept_of scene.ask.now ≤ most_acts }
    ensures entered { IfOk result (IsGoalEntered N.reading
        scene.entry.machine.now board.old.plans scene.entry.ask.now scene.entry.rooms.now.sums
        scene.entry.limit nodes.old nodes.new board.new goal) }
    ensures early { IfErr result (IsEarlyEnd scene.entry.machine.now board.old.plans
        scene.entry.ask.now scene.entry.limit) }
    ensures since { IsSince N.reading board.old board.new
        scene.entry.machine.now }
{
    let head = Head::Goal {
        state: named(scene.machine, goal),
    };
    let branch = ShowBranch {
        depth: 0,
        first: goal,
        count: 0,
        newest: None,
        places: 0,
    };
    let Some(room) = scene.rooms.room(goal) else {
        return put_dead(nodes, 0, head);
    };
    match board.open_goal(room) {
        Ok(()) => put_carried(nodes, board, scene, branch, head),
        Err(Late) => match put_late(nodes, board, scene, 0, head) {
            Ok(()) => Ok(None),
            Err(Memory) => Err(NotShown::Memory),
        },
    }
}
