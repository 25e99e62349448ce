//! The ways that go on from a branch, each gone by its number.
ghost use Rattle.std.specs.Prelude.{◌≡◌, ◌<◌, ◌≤◌, suc, None, IfErr, IfOk, Some};
ghost use Rattle.tp_constraints.specs.Suffixes.{Suffix};
ghost use Rattle.tp_placing.specs.Boards.{suffix_of};
ghost use Rattle.tp_schedule.specs.Plans.{AreNamed};
ghost use Rattle.tp_bound_make.specs.TreeLimits.{FitsAsk};
ghost use Rattle.tp_bound_make.specs.TreeProgress.{Carries, IsEarly, IsEarlyEnd, IsEntered, IsSet, IsSince, branch_by, hold_of, left_of, ways_of};

use crate::branch_steps::{enter_place, enter_stop};
use crate::goal_steps::enter_act;
use crate::scene::{NotShown, ShowBranch, ShowScene};
use tp_base::Network;
use tp_bounds::Nodes;
use tp_machine::{ActId, machine_law};
use tp_placing::Board;

/// How many ways go on from a branch: the places of its next hold, or the stop and all actions.
pub(crate) fn ways<N: Network>(board: &Board<N>, scene: ShowScene, branch: ShowBranch) -> u64
    requires set { IsSet N.reading scene.machine.now scene.ask.now
        board.now }
    requires carries { (x : Suffix) × Carries N.reading scene.machine.now
        scene.ask.now board.now branch x }
    ensures count { (x : Suffix) → suffix_of board.now ≡ Some x → result
        ≡ ways_of scene.entry.machine.now board.now.plans scene.entry.ask.now x
        (hold_of scene.entry.machine.now branch) }
    ensures most { result ≤ 4294967296 }
{
    machine_law(scene.machine);
    match branch.next_hold(scene.machine) {
        Some(rule) => u64::from(board.places(rule.resource)) + 1,
        None => {
            if scene.ask.origin.kept() + branch.count < 64 {
                u64::from(scene.machine.actions.len()) + 1
            } else {
                1
            }
        }
    }
}

/// Goes a way of a branch all of whose holds have places: the stop for 0, or else the action of
/// the number below.
fn enter_child<N: Network>(
    nodes: &mut Nodes,
    board: &mut Board<N>,
    scene: ShowScene,
    branch: ShowBranch,
    way: u32,
) -> Result<Option<ShowBranch>, NotShown>
    requires set { IsSet N.reading scene.machine.now scene.ask.now
        board.old }
    requires named { AreNamed board.old.plans }
    requires fits { FitsAsk scene.machine.now scene.ask.now scene.rooms.now scene.limit }
    requires carries { (x : Suffix) × Carries N.reading scene.machine.now
        scene.ask.now board.old branch x }
    requires placed { hold_of scene.machine.now branch ≡ None }
    requires ends { IsEarly scene.machine.now scene.ask.now scene.limit board.old }
    requires within { (x : Suffix) → suffix_of board.old ≡ Some x
        → way < ways_of scene.machine.now board.old.plans scene.ask.now x None }
    ensures entered { IfOk result (λ o. (x : Suffix) → suffix_of board.old ≡ Some x
        → IsEntered N.reading scene.entry.machine.now board.old.plans
        scene.entry.ask.now scene.entry.rooms.now.sums scene.entry.limit nodes.old nodes.new
        board.new branch
        (λ rows. left_of scene.entry.machine.now board.old.plans scene.entry.ask.now rows
        (branch_by branch x) None way)
        (λ rows. left_of scene.entry.machine.now board.old.plans scene.entry.ask.now rows
        (branch_by branch x) None (suc way)) o) }
    ensures early { IfErr result (IsEarlyEnd scene.entry.machine.now board.old.plans
        scene.entry.ask.now scene.entry.limit) }
    ensures since { IsSince N.reading board.old board.new
        scene.entry.machine.now }
{
    machine_law(scene.machine);
    if way > 0 {
        return enter_act(nodes, board, scene, branch, ActId((way - 1) as u16));
    }
    match enter_stop(nodes, board, scene, branch) {
        Ok(()) => Ok(None),
        Err(fault) => Err(fault),
    }
}

/// Goes the way of this number from a branch. Answers what the board carries then, if it is split.
pub(crate) fn enter<N: Network>(
    nodes: &mut Nodes,
    board: &mut Board<N>,
    scene: ShowScene,
    branch: ShowBranch,
    way: u32,
) -> Result<Option<ShowBranch>, NotShown>
    requires set { IsSet N.reading scene.machine.now scene.ask.now
        board.old }
    requires named { AreNamed board.old.plans }
    requires fits { FitsAsk scene.machine.now scene.ask.now scene.rooms.now scene.limit }
    requires carries { (x : Suffix) × Carries N.reading scene.machine.now
        scene.ask.now board.old branch x }
    requires ends { IsEarly scene.machine.now scene.ask.now scene.limit board.old }
    requires within { (x : Suffix) → suffix_of board.old ≡ Some x
        → way < ways_of scene.machine.now board.old.plans scene.ask.now x
        (hold_of scene.machine.now branch) }
    ensures entered { IfOk result (λ o. (x : Suffix) → suffix_of board.old ≡ Some x
        → IsEntered N.reading scene.entry.machine.now board.old.plans
        scene.entry.ask.now scene.entry.rooms.now.sums scene.entry.limit nodes.old nodes.new
        board.new branch
        (λ rows. left_of scene.entry.machine.now board.old.plans scene.entry.ask.now rows
        (branch_by branch x) (hold_of scene.entry.machine.now branch) way)
        (λ rows. left_of scene.entry.machine.now board.old.plans scene.entry.ask.now rows
        (branch_by branch x) (hold_of scene.entry.machine.now branch) (suc way)) o) }
    ensures early { IfErr result (IsEarlyEnd scene.entry.machine.now board.old.plans
        scene.entry.ask.now scene.entry.limit) }
    ensures since { IsSince N.reading board.old board.new
        scene.entry.machine.now }
{
    match branch.next_hold(scene.machine) {
        Some(rule) => enter_place(nodes, board, scene, branch, rule, way),
        None => enter_child(nodes, board, scene, branch, way),
    }
}
