//! A stored list on a board: its choices one after another, from the goal on. The list is open, so that no step is late.
ghost use Rattle.std.specs.Prelude.{◌≡◌, ◌<◌, [], length, take, Some, IsSomeAnd};
ghost use Rattle.tp_machine.specs.ModuleUse.{action_at};
ghost use Rattle.tp_pool.specs.Entries.{choices_of as stored_at};
ghost use Rattle.tp_schedule.specs.Choices.{IsOpen, going};
ghost use Rattle.tp_schedule.specs.Holders.{holds_of_act};
ghost use Rattle.tp_placing.specs.Boards.{suffix_of};
ghost use Rattle.tp_placing.specs.LoadedBoard.{Stands, choices_of};
ghost use Rattle.tp_search.specs.Boards.{IsReady};
ghost use Rattle.tp_search.specs.StoredLists.{AwaitsPlaces, HasList, IsSameButSteps, IsStoredList, with_places};
ghost use Rattle.tp_search.specs.Problems.{IsPosed};
ghost use Rattle.tp_search.specs.Stored.{child_by, list_by};

use crate::problem::Problem;
use crate::states::{room_of, state_before};
use crate::store::Store;
use tp_base::{Late, Network};
use tp_machine::{ActId, Machine, State};
use tp_placing::Board;
use tp_pool::Choice;

/// A list on a board: the state that it begins in, and how many choices it has.
#[derive(Clone, Copy)]
pub(crate) struct Laid {
    pub(crate) first: State,
    pub(crate) count: u32,
}

/// Places each hold of the newest choice, which has no place yet.
fn place_all<N: Network>(board: &mut Board<N>, machine: &Machine, act: ActId, places: &[u32; 4])
    requires stands { Stands N.reading board.old machine.now }
    requires known { act.0 < length machine.now.actions }
    requires waits { IsSomeAnd board.old.ask
        (λ ask. IsSomeAnd (suffix_of board.old)
        (AwaitsPlaces machine.now board.old.plans ask act places.now)) }
    ensures stands { Stands N.reading board.new machine.now }
    ensures suffix { IsSomeAnd (suffix_of board.old)
        (λ x. suffix_of board.new
        ≡ Some (with_places
        (take (length (holds_of_act (action_at machine.now act.0))) places.now)
        x)) }
    ensures same { IsSameButSteps N.reading board.old board.new }
{
    let holds = &machine.actions.get(act.0 as u32).holds;
    'holds: for hold in 0..holds.len() {
        match board.place(machine, hold, places[hold as usize]) {
            Ok(()) => {}
            Err(Late) => unreachable!(),
        }
    }
}

/// One stored choice more, before those of the board. Answers the first state then.
pub(crate) fn lay<N: Network>(
    board: &mut Board<N>,
    problem: Problem,
    first: State,
    choice: &Choice,
) -> State
    requires posed { IsPosed problem }
    requires laid { HasList N.reading board.old problem.machine.now problem.ask.now
        first (going choice.now.goal (choices_of (suffix_of board.old)).choices) }
    requires opens { IsOpen problem.machine.now board.old.plans problem.ask.now
        (child_by problem.machine.now choice.now.goal
        (choices_of (suffix_of board.old)).choices choice.now) }
    ensures laid { HasList N.reading board.new problem.entry.machine.now
        problem.entry.ask.now result
        (child_by problem.entry.machine.now choice.now.goal
        (choices_of (suffix_of board.old)).choices choice.now) }
    ensures same { IsSameButSteps N.reading board.old board.new }
{
    let Some(act) = choice.act else {
        match board.stop() {
            Ok(()) => return first,
            Err(Late) => unreachable!(),
        }
    };
    let Some(before) = state_before(problem, first, act) else {
        unreachable!()
    };
    match board.open_action(problem.machine, act, before.room) {
        Ok(()) => {}
        Err(Late) => unreachable!(),
    }
    place_all(board, problem.machine, act, &choice.places);
    before.state
}

/// Lays the list of a goal without choices, which is open, on a board that has no choices.
pub(crate) fn follow_goal<N: Network>(board: &mut Board<N>, problem: Problem, goal: State)
    requires posed { IsPosed problem }
    requires ready { IsReady N.reading board.old problem.machine.now
        problem.ask.now }
    requires opens { IsOpen problem.machine.now board.old.plans problem.ask.now (going goal []) }
    ensures laid { HasList N.reading board.new problem.entry.machine.now
        problem.entry.ask.now goal (going goal []) }
    ensures same { IsSameButSteps N.reading board.old board.new }
{
    let Some(room) = room_of(problem, goal) else {
        unreachable!()
    };
    match board.open_goal(room) {
        Ok(()) => {}
        Err(Late) => unreachable!(),
    }
}

/// The goal of a node's list.
pub(crate) fn goal_of(store: &Store, node: u32) -> State
    requires there { node < length store.now.entries }
    requires some { 0 < length (stored_at store.now.entries node) }
    ensures { (machine : Machine) → result
        ≡ (list_by machine (stored_at store.now.entries node)).goal }
{
    store.choice_at(node, store.depth(node)).goal
}

/// Lays the choices of a node's list, which is open, on a board that carries its goal without choices. Answers its first state.
pub(crate) fn lay_choices<N: Network>(
    store: &Store,
    board: &mut Board<N>,
    problem: Problem,
    node: u32,
    goal: State,
) -> State
    requires posed { IsPosed problem }
    requires there { node < length store.now.entries }
    requires stored { let choices = stored_at store.now.entries node in IsStoredList
        (list_by problem.machine.now choices).goal choices }
    requires opens { IsOpen problem.machine.now board.old.plans problem.ask.now
        (list_by problem.machine.now (stored_at store.now.entries node)) }
    requires goal { goal ≡ (list_by problem.machine.now (stored_at store.now.entries node)).goal }
    requires laid { HasList N.reading board.old problem.machine.now problem.ask.now
        goal (going goal []) }
    ensures laid { HasList N.reading board.new problem.entry.machine.now
        problem.entry.ask.now result
        (list_by problem.entry.machine.now (stored_at store.now.entries node)) }
    ensures same { IsSameButSteps N.reading board.old board.new }
{
    let mut first = goal;
    'depths: for at in 0..store.depth(node) {
        let choice = store.choice_at(node, at + 1);
        first = lay(board, problem, first, &choice);
    }
    first
}

/// Lays the list of a node, which is open, on a board that has no choices. Answers its first state.
pub(crate) fn follow<N: Network>(
    store: &Store,
    board: &mut Board<N>,
    problem: Problem,
    node: u32,
) -> State
    requires posed { IsPosed problem }
    requires ready { IsReady N.reading board.old problem.machine.now
        problem.ask.now }
    requires there { node < length store.now.entries }
    requires stored { let choices = stored_at store.now.entries node in IsStoredList
        (list_by problem.machine.now choices).goal choices }
    requires opens { IsOpen problem.machine.now board.old.plans problem.ask.now
        (list_by problem.machine.now (stored_at store.now.entries node)) }
    ensures laid { HasList N.reading board.new problem.entry.machine.now
        problem.entry.ask.now result
        (list_by problem.entry.machine.now (stored_at store.now.entries node)) }
    ensures same { IsSameButSteps N.reading board.old board.new }
{
    let goal = goal_of(store, node);
    follow_goal(board, problem, goal);
    lay_choices(store, board, problem, node, goal)
}
