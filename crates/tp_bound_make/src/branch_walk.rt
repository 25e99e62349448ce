//! A walk through the branches below one, each of which is tried on a board and taken back.
ghost use Rattle.std.specs.Prelude.{◌≡◌, ◌+◌, ◌<◌, ◌≤◌, [], ◌∷◌, Some, None, IfErr, OnOk};
ghost use Rattle.tp_constraints.specs.Suffixes.{Suffix};
ghost use Rattle.tp_placing.specs.Boards.{suffix_of};
ghost use Rattle.tp_schedule.specs.Plans.{AreNamed};
ghost use Rattle.tp_bound_make.specs.TreeLimits.{FitsAsk};
ghost use Rattle.tp_bound_make.specs.TreeProgress.{Carries, HasMarks, IsBack, IsEarly, IsEarlyEnd, IsOpen, IsSet, Shows, below, branch_by, kids_of};

use crate::branch_ways::{enter, ways};
use crate::scene::{NotShown, ShowBranch, ShowScene};
use crate::widest_places::close_from;
use tp_base::{Network, Undo};
use tp_bounds::Nodes;
use tp_placing::{Board, marks_keep_boards};

/// Adds the nodes below the branch that the board carries, which is split. Places of a hold that
/// one reason closes have one node. Leaves the board as it was.
pub(crate) fn show_below<N: Network>(
    nodes: &mut Nodes,
    board: &mut Board<N>,
    scene: ShowScene,
    branch: ShowBranch,
) -> Result<(), NotShown>
    requires set { IsSet N.reading scene.machine.now scene.ask.now
        board.old }
    requires named { AreNamed board.old.plans }
    requires fits { FitsAsk scene.machine.now scene.ask.now scene.rooms.now scene.limit }
    requires carries { (x : Suffix) × Carries N.reading scene.machine.now
        scene.ask.now board.old branch x }
    requires open { IsOpen scene.machine.now scene.ask.now branch }
    requires ends { IsEarly scene.machine.now scene.ask.now scene.limit board.old }
    requires marks { HasMarks N.reading (below branch + 1) board.old }
    ensures shown { OnOk result ((x : Suffix) → suffix_of board.old ≡ Some x
        → Shows scene.entry.machine.now board.old.plans scene.entry.ask.now
        scene.entry.rooms.now.sums scene.entry.limit nodes.old nodes.new
        (λ rows. kids_of scene.entry.machine.now board.old.plans scene.entry.ask.now rows
        (branch_by branch x)) (λ _. [])) }
    ensures early { IfErr result (IsEarlyEnd scene.entry.machine.now board.old.plans
        scene.entry.ask.now scene.entry.limit) }
    ensures back { IsBack N.reading board.old board.new
        scene.entry.machine.now }
{
    marks_keep_boards::<N>();
    let count = ways(board, scene, branch);
    let mut way = 0;
    'ways: while way < count {
        let next = match close_from(nodes, board, scene, branch, way, count) {
            Ok(next) => next,
            Err(fault) => return Err(fault),
        };
        if next > way {
            way = next;
            continue 'ways;
        }
        let mark = board.mark();
        let shown = match enter(nodes, board, scene, branch, way as u32) {
            Ok(Some(child)) => show_below(nodes, board, scene, child),
            Ok(None) => Ok(()),
            Err(fault) => Err(fault),
        };
        board.undo_to(mark);
        match shown {
            Ok(()) => {}
            Err(fault) => return Err(fault),
        }
        way += 1;
    }
    Ok(())
}
