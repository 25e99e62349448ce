//! The tree of an ask: a walk below each goal state.
ghost use Rattle.std.specs.Prelude.{◌≡◌, ◌<◌, ◌≤◌, [], ◌∷◌, All, None, IfErr, IfOk, OnOk, length, map, pos};
ghost use Rattle.tp_machine.specs.declared.parts.State.{State};
ghost use Rattle.tp_placing.specs.Boards.{past_of, suffix_of};
ghost use Rattle.tp_routes.specs.Tables.{IsKnownOrigin};
ghost use Rattle.tp_schedule.specs.Answers.{kept_of};
ghost use Rattle.tp_schedule.specs.Limits.{most_acts};
ghost use Rattle.tp_schedule.specs.Plans.{AreNamed};
ghost use Rattle.tp_schedule.specs.Routes.{IsGoalState};
ghost use Rattle.tp_bound_make.specs.RoomRows.{AreOrderedRows};
ghost use Rattle.tp_bound_make.specs.TreeLimits.{FitsAsk};
ghost use Rattle.tp_bound_make.specs.TreeProgress.{HasMarks, IsBack, IsEarlyEnd, IsSet, Shows};
ghost use Rattle.tp_bound_laws.specs.Places.Due.{goal};
ghost use Rattle.tp_bound_laws.specs.Once.{IsSimple};
ghost use Rattle.tp_bound_laws.specs.Short.{HasFewHops};
ghost use Rattle.tp_bound_laws.specs.Trees.{IsBoundTree};

use crate::branch_walk::show_below;
use crate::goal_steps::enter_goal;
use crate::rows::rows_of;
use crate::scene::{NotShown, ShowScene};
use std::alloc::Global;
use tp_base::{Memory, Network, Tick, Undo};
use tp_bound_laws::goal_states;
use tp_bounds::{BoundTree, Nodes};
use tp_machine::{Machine, State};
use tp_placing::{Board, boards_have_marks, marks_keep_boards};
use tp_routes::Rooms;
use tp_schedule::Ask;

/// Adds the nodes of a goal state and all below it. Leaves the board as it was.
fn show_goal<N: Network>(
    nodes: &mut Nodes,
    board: &mut Board<N>,
    scene: ShowScene,
    state: State,
) -> Result<(), NotShown>
    requires set { IsSet N.reading scene.machine.now scene.ask.now
        board.old }
    requires named { AreNamed board.old.plans }
    requires fits { FitsAsk scene.machine.now scene.ask.now scene.rooms.now scene.limit }
    requires closed { suffix_of board.old ≡ None }
    requires known { state.loc.0 < length scene.machine.now.locations }
    requires is_goal { IsGoalState scene.machine.now scene.ask.now.want scene.ask.now.goal state }
    requires kept { kept_of scene.ask.now ≤ most_acts }
    requires marks { HasMarks N.reading 326 board.old }
    ensures shown { OnOk result (Shows scene.entry.machine.now board.old.plans scene.entry.ask.now
        scene.entry.rooms.now.sums scene.entry.limit nodes.old nodes.new (λ _. goal state ∷ [])
        (λ _. [])) }
    ensures early { IfErr result (IsEarlyEnd scene.entry.machine.now board.old.plans
        scene.entry.ask.now scene.entry.limit) }
    ensures back { IsBack N.reading board.old board.new
        scene.entry.machine.now }
{
    marks_keep_boards::<N>();
    let mark = board.mark();
    let shown = match enter_goal(nodes, board, scene, state) {
        Ok(Some(branch)) => show_below(nodes, board, scene, branch),
        Ok(None) => Ok(()),
        Err(fault) => Err(fault),
    };
    board.undo_to(mark);
    shown
}

/// Adds the nodes of all these goal states, one after another. Leaves the board as it was.
fn show_goals<N: Network>(
    nodes: &mut Nodes,
    board: &mut Board<N>,
    scene: ShowScene,
    states: &[State],
) -> Result<(), NotShown>
    requires set { IsSet N.reading scene.machine.now scene.ask.now
        board.old }
    requires named { AreNamed board.old.plans }
    requires fits { FitsAsk scene.machine.now scene.ask.now scene.rooms.now scene.limit }
    requires closed { suffix_of board.old ≡ None }
    requires known { All (λ (s : State). s.loc.0 < length scene.machine.now.locations)
        states.now }
    requires are_goals { All (IsGoalState scene.machine.now scene.ask.now.want
        scene.ask.now.goal) states.now }
    requires kept { kept_of scene.ask.now ≤ most_acts }
    requires marks { HasMarks N.reading 326 board.old }
    ensures shown { OnOk result (Shows scene.entry.machine.now board.old.plans scene.entry.ask.now
        scene.entry.rooms.now.sums scene.entry.limit nodes.old nodes.new
        (λ _. map (λ s. goal s) states.entry.now) (λ _. [])) }
    ensures early { IfErr result (IsEarlyEnd scene.entry.machine.now board.old.plans
        scene.entry.ask.now scene.entry.limit) }
    ensures back { IsBack N.reading board.old board.new
        scene.entry.machine.now }
{
    'states: for at in 0..states.len() {
        match show_goal(nodes, board, scene, states[at]) {
            Ok(()) => {}
            Err(fault) => return Err(fault),
        }
    }
    Ok(())
}

/// A tree that shows that no alternative ends by the limit, a tick: room rows in their order, and a
/// node for each way that comes by it, with the reason why it goes no further. No chain and no loop
/// passes a point twice, but for a loop's return, so hops are few. `Early` comes only where some
/// alternative ends by the limit. No mark of the board is in force. Leaves the board as it was.
/// Where memory runs out, the call may be made again.
pub fn show_limit<N: Network>(
    alloc: Global,
    rooms: &Rooms,
    board: &mut Board<N>,
    machine: &Machine,
    ask: &Ask,
    limit: Tick,
) -> Result<BoundTree, NotShown>
    requires set { IsSet N.reading machine.now ask.now board.old }
    requires named { AreNamed board.old.plans }
    requires fits { FitsAsk machine.now ask.now rooms.now limit }
    requires origin { IsKnownOrigin machine.now ask.now.origin }
    requires closed { suffix_of board.old ≡ None }
    requires kept { kept_of ask.now ≤ most_acts }
    requires unmarked { past_of N.reading board.old ≡ [] }
    ensures tree { IfOk result (IsBoundTree machine.entry.now board.old.plans ask.entry.now
        (pos limit)) }
    ensures rows { IfOk result (λ tree. AreOrderedRows machine.entry.now ask.entry.now
        tree.rows) }
    ensures short { IfOk result HasFewHops }
    ensures simple { IfOk result (IsSimple machine.entry.now board.old.plans ask.entry.now
        (pos limit)) }
    ensures early { IfErr result (IsEarlyEnd machine.entry.now board.old.plans ask.entry.now
        limit) }
    ensures back { IsBack N.reading board.old board.new
        machine.entry.now }
{
    boards_have_marks(board);
    let scene = ShowScene {
        alloc,
        rooms,
        machine,
        ask,
        limit,
    };
    let Ok(rows) = rows_of(alloc, rooms, machine) else {
        return Err(NotShown::Memory);
    };
    let Ok(states) = goal_states(alloc, machine, ask) else {
        return Err(NotShown::Memory);
    };
    let mut nodes = Nodes::new(alloc);
    match show_goals(&mut nodes, board, scene, states.as_slice()) {
        Ok(()) => Ok(BoundTree { rows, nodes }),
        Err(fault) => Err(fault),
    }
}
