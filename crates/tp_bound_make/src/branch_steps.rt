//! One step further on a board: a node is added, and if it is split the board carries its branch.
ghost use Rattle.std.specs.Prelude.{◌≡◌, ◌+◌, ◌<◌, ◌≤◌, ◌&&◌, nat_lt, [], None, IfErr, IfOk, OnOk, Some, length, pos};
ghost use Rattle.tp_constraints.specs.Suffixes.{Suffix, order_in};
ghost use Rattle.tp_placing.specs.Boards.{suffix_of};
ghost use Rattle.tp_schedule.specs.Plans.{AreNamed};
ghost use Rattle.tp_bound_make.specs.Closes.{IsLimit};
ghost use Rattle.tp_bound_make.specs.TreeProgress.{Carries, IsEarly, IsEarlyEnd, IsEntered, IsSet, IsSince, Shows, branch_by, hold_of};
ghost use Rattle.tp_bound_laws.specs.Places.{is_front_state, places_from, stop_due};

use crate::scene::{NotShown, ShowBranch, ShowScene};
use crate::tree_nodes::{is_same_state, put_carried, put_late, put_stop};
use tp_base::{Late, Memory, Network};
use tp_bounds::{Head, Nodes};
use tp_machine::{HoldRule, State, machine_law};
use tp_placing::Board;
use tp_schedule::{Ask, Origin};

/// Places the next hold of the branch that the board carries.
pub(crate) fn enter_place<N: Network>(
    nodes: &mut Nodes,
    board: &mut Board<N>,
    scene: ShowScene,
    branch: ShowBranch,
    rule: HoldRule,
    place: u32,
) -> Result<Option<ShowBranch>, NotShown>
    requires set { IsSet N.reading scene.machine.now scene.ask.now
        board.old }
    requires named { AreNamed board.old.plans }
    requires limit { IsLimit scene.machine.now scene.ask.now (pos scene.limit) }
    requires carries { (x : Suffix) × Carries N.reading scene.machine.now
        scene.ask.now board.old branch x }
    requires next { hold_of scene.machine.now branch ≡ Some rule }
    requires within { (x : Suffix) → suffix_of board.old ≡ Some x
        → place ≤ length (order_in scene.machine.now board.old.plans x rule.resource.0) }
    ensures entered { IfOk result (λ o. (x : Suffix) → suffix_of board.old ≡ Some x
        → IsEntered N.reading scene.entry.machine.now board.old.plans
        scene.entry.ask.now scene.entry.rooms.now.sums scene.entry.limit nodes.old nodes.new
        board.new branch
        (λ rows. places_from scene.entry.machine.now board.old.plans scene.entry.ask.now rows
        (branch_by branch x) rule place)
        (λ rows. places_from scene.entry.machine.now board.old.plans scene.entry.ask.now rows
        (branch_by branch x) rule (place + 1)) o) }
    ensures early { IfErr result (IsEarlyEnd scene.entry.machine.now board.old.plans
        scene.entry.ask.now scene.entry.limit) }
    ensures since { IsSince N.reading board.old board.new
        scene.entry.machine.now }
{
    machine_law(scene.machine);
    let child = ShowBranch {
        depth: branch.depth + 1,
        first: branch.first,
        count: branch.count,
        newest: branch.newest,
        places: branch.places + 1,
    };
    let head = Head::At {
        resource: scene.machine.resources.get(u32::from(rule.resource.0)).name,
        lo: place,
        hi: place,
    };
    match board.place(scene.machine, branch.places, place) {
        Ok(()) => put_carried(nodes, board, scene, child, head),
        Err(Late) => match put_late(nodes, board, scene, child.depth, head) {
            Ok(()) => Ok(None),
            Err(Memory) => Err(NotShown::Memory),
        },
    }
}

/// Whether the front of a copy in flight has come to this state.
fn is_at_front(ask: &Ask, state: State) -> bool
    ensures { result ≡ is_front_state ask.entry.now.origin state }
{
    match ask.origin {
        Origin::Feeder => false,
        Origin::Front { state: front, .. } => is_same_state(state, front),
    }
}

/// Whether the branch is to be stopped: it has a choice, and its copy in flight has come to its
/// front's state.
fn is_stop_due(ask: &Ask, branch: ShowBranch) -> bool
    ensures { result ≡ (is_front_state ask.entry.now.origin branch.first
        && nat_lt 0 branch.count) }
{
    is_at_front(ask, branch.first) && 0 < branch.count
}

/// Stops the branch that the board carries, where a copy in flight has come to its front's state.
/// It is refused.
pub(crate) fn enter_stop<N: Network>(
    nodes: &mut Nodes,
    board: &mut Board<N>,
    scene: ShowScene,
    branch: ShowBranch,
) -> Result<(), NotShown>
    requires set { IsSet N.reading scene.machine.now scene.ask.now
        board.old }
    requires named { AreNamed board.old.plans }
    requires limit { IsLimit scene.machine.now scene.ask.now (pos scene.limit) }
    requires carries { (x : Suffix) × Carries N.reading scene.machine.now
        scene.ask.now board.old branch x }
    requires placed { hold_of scene.machine.now branch ≡ None }
    requires ends { IsEarly scene.machine.now scene.ask.now scene.limit board.old }
    ensures shown { OnOk result ((x : Suffix) → suffix_of board.old ≡ Some x
        → Shows scene.entry.machine.now board.old.plans scene.entry.ask.now
        scene.entry.rooms.now.sums scene.entry.limit nodes.old nodes.new
        (λ rows. stop_due scene.entry.machine.now board.old.plans scene.entry.ask.now rows
        (branch_by branch x)) (λ _. [])) }
    ensures early { IfErr result (IsEarlyEnd scene.entry.machine.now board.old.plans
        scene.entry.ask.now scene.entry.limit) }
    ensures since { IsSince N.reading board.old board.new
        scene.entry.machine.now }
{
    if !is_stop_due(scene.ask, branch) {
        return Ok(());
    }
    match board.stop() {
        Ok(()) => Err(NotShown::Early),
        Err(Late) => match put_stop(nodes, board, scene, branch.depth + 1, Head::Stop) {
            Ok(()) => Ok(()),
            Err(Memory) => Err(NotShown::Memory),
        },
    }
}
