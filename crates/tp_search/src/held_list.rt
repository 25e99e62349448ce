//! The list that a search opened last, which stays on the board: one of its children is laid by its newest choice alone.
ghost use Rattle.std.specs.Prelude.{◌≡◌, ℕ, ◌<◌, ◌≤◌, [], length, IfSome, None, Some};
ghost use Rattle.tp_machine.specs.declared.machine.Machine.{Machine};
ghost use Rattle.tp_placing.specs.Boards.{BoardValue};
ghost use Rattle.tp_pool.specs.Entries.{choices_before, choices_of};
ghost use Rattle.tp_schedule.specs.Choices.{IsOpen, going};
ghost use Rattle.tp_schedule.specs.declared.parts.Ask.{Ask};
ghost use Rattle.tp_search.specs.Boards.{HasMarks, IsBack, IsReady};
ghost use Rattle.tp_search.specs.StoredLists.{HasList, IsSameButSteps, IsStoredList};
ghost use Rattle.tp_search.specs.HeldLists.{HoldsList, IsLaidSince, IsOver};
ghost use Rattle.tp_search.specs.Outcomes.{CanLay};
ghost use Rattle.tp_search.specs.Problems.{IsPosed};
ghost use Rattle.tp_search.specs.SearchProgress.{list_at, next_list, next_node};
ghost use Rattle.tp_search.specs.Stored.{list_by};

use crate::next_list::Next;
use crate::problem::Problem;
use crate::store::Store;
use crate::stored_list::{Laid, follow, follow_goal, goal_of, lay, lay_choices};
use tp_base::{Mark, Network, Undo};
use tp_machine::State;
use tp_placing::{Board, marks_keep_boards};

/// A mark at which a board carries the list of a goal without choices.
#[derive(Clone, Copy)]
pub(crate) struct Root {
    pub(crate) mark: Mark,
    pub(crate) goal: State,
}

/// A list that a board carries since a mark, with the mark at its goal, if there is one, and how many lists were stored before
/// its children.
#[derive(Clone, Copy)]
pub(crate) struct HeldList {
    pub(crate) base: Mark,
    pub(crate) root: Option<Root>,
    pub(crate) laid: Laid,
    pub(crate) stored: u32,
}

/// Takes the held list off the board, if there is one.
pub(crate) fn take_off<N: Network>(board: &mut Board<N>, held: Option<HeldList>)
    requires over { (b : BoardValue N) × (machine : Machine) × (ask : Ask)
        × IsOver N.reading b board.old machine ask held }
    ensures back { (b : BoardValue N) (machine : Machine) (ask : Ask)
        → IsOver N.reading b board.old machine ask held
        → IsBack N.reading b board.new machine }
{
    marks_keep_boards::<N>();
    let Some(list) = held else {
        return;
    };
    board.undo_to(list.base);
}

/// Takes the held list off the board, if there is one, and sets a mark.
pub(crate) fn mark_anew<N: Network>(board: &mut Board<N>, held: Option<HeldList>) -> Mark
    requires over { (b : BoardValue N) × (machine : Machine) × (ask : Ask)
        × HasMarks N.reading 1 b
        × IsOver N.reading b board.old machine ask held }
    ensures ready { (b : BoardValue N) (machine : Machine) (ask : Ask)
        → IsReady N.reading b machine ask
        → IsOver N.reading b board.old machine ask held
        → IsReady N.reading board.new machine ask }
    ensures since { (b : BoardValue N) (machine : Machine) (ask : Ask)
        → IsReady N.reading b machine ask
        → IsOver N.reading b board.old machine ask held
        → IsLaidSince N.reading b board.new machine ask
        result.0 None }
{
    marks_keep_boards::<N>();
    take_off(board, held);
    board.mark()
}

/// Lays the list that was taken on a board without choices.
fn lay_list<N: Network>(store: &Store, board: &mut Board<N>, problem: Problem, next: &Next) -> Laid
    requires posed { IsPosed problem }
    requires ready { IsReady N.reading board.old problem.machine.now
        problem.ask.now }
    requires can { CanLay problem.machine.now board.old.plans problem.ask.now store.now next.now }
    ensures laid { HasList N.reading board.new problem.entry.machine.now
        problem.entry.ask.now result.first
        (next_list problem.entry.machine.now store.now next.entry.now) }
    ensures count { result.count
        ≡ length (choices_before store.now.entries (next_node next.entry.now)) }
    ensures same { IsSameButSteps N.reading board.old board.new }
{
    match *next {
        Next::Goal(goal) => {
            follow_goal(board, problem, goal.state);
            Laid {
                first: goal.state,
                count: 0,
            }
        }
        Next::Node(node) => {
            let first = follow(store, board, problem, node);
            Laid {
                first,
                count: store.depth(node),
            }
        }
    }
}

/// Takes the held list off the board, if there is one, and lays the list that was taken from its goal on.
fn lay_anew<N: Network>(
    store: &Store,
    board: &mut Board<N>,
    problem: Problem,
    next: &Next,
    held: Option<HeldList>,
) -> HeldList
    requires posed { IsPosed problem }
    requires over { (b : BoardValue N)
        × IsReady N.reading b problem.machine.now problem.ask.now
        × HasMarks N.reading 1 b
        × IsOver N.reading b board.old problem.machine.now
        problem.ask.now held }
    requires can { CanLay problem.machine.now board.old.plans problem.ask.now store.now next.now }
    ensures laid { HasList N.reading board.new problem.entry.machine.now
        problem.entry.ask.now result.laid.first
        (next_list problem.entry.machine.now store.now next.entry.now) }
    ensures count { result.laid.count
        ≡ length (choices_before store.now.entries (next_node next.entry.now)) }
    ensures root { result.root ≡ None }
    ensures stored { result.stored ≡ length store.now.entries }
    ensures since { (b : BoardValue N)
        → IsReady N.reading b problem.entry.machine.now
        problem.entry.ask.now
        → IsOver N.reading b board.old problem.entry.machine.now
        problem.entry.ask.now held
        → IsLaidSince N.reading b board.new problem.entry.machine.now
        problem.entry.ask.now result.base.0 result.root }
{
    let base = mark_anew(board, held);
    let laid = lay_list(store, board, problem, next);
    HeldList {
        base,
        root: None,
        laid,
        stored: store.len(),
    }
}

/// Lays a child of the held list: its newest choice.
fn lay_child<N: Network>(
    store: &Store,
    board: &mut Board<N>,
    problem: Problem,
    node: u32,
    held: HeldList,
) -> HeldList
    requires posed { IsPosed problem }
    requires holds { HoldsList N.reading board.old problem.machine.now problem.ask.now
        store.now held }
    requires child { held.stored ≤ node }
    requires there { node < length store.now.entries }
    requires opens { IsOpen problem.machine.now board.old.plans problem.ask.now
        (list_at problem.machine.now store.now.entries node) }
    ensures laid { HasList N.reading board.new problem.entry.machine.now
        problem.entry.ask.now result.laid.first
        (list_at problem.entry.machine.now store.now.entries node) }
    ensures count { result.laid.count ≡ length (choices_of store.now.entries node) }
    ensures stored { result.stored ≡ length store.now.entries }
    ensures base { result.base ≡ held.base }
    ensures root { result.root ≡ held.root }
    ensures same { IsSameButSteps N.reading board.old board.new }
{
    let depth = store.depth(node);
    let choice = store.choice_at(node, depth);
    let first = lay(board, problem, held.laid.first, &choice);
    HeldList {
        base: held.base,
        root: held.root,
        laid: Laid {
            first,
            count: depth,
        },
        stored: store.len(),
    }
}

/// The mark at which the board carries the list of this goal without choices, if it has one.
fn goal_mark(root: Option<Root>, goal: State) -> Option<Mark>
    ensures { IfSome result (λ mark. root ≡ Some (record { mark = mark; goal = goal })) }
{
    let root = root?;
    if root.goal == goal {
        Some(root.mark)
    } else {
        None
    }
}

/// Leaves the list of this goal without choices on the board, since a mark: the one that it has, or one that is opened anew.
fn back_to_goal<N: Network>(
    board: &mut Board<N>,
    problem: Problem,
    goal: State,
    held: HeldList,
) -> Mark
    requires posed { IsPosed problem }
    requires over { (b : BoardValue N)
        × IsReady N.reading b problem.machine.now problem.ask.now
        × HasMarks N.reading 1 b
        × IsOver N.reading b board.old problem.machine.now
        problem.ask.now (Some held) }
    requires opens { IsOpen problem.machine.now board.old.plans problem.ask.now (going goal []) }
    ensures laid { HasList N.reading board.new problem.entry.machine.now
        problem.entry.ask.now goal (going goal []) }
    ensures since { (b : BoardValue N)
        → IsReady N.reading b problem.entry.machine.now
        problem.entry.ask.now
        → IsOver N.reading b board.old problem.entry.machine.now
        problem.entry.ask.now (Some held)
        → IsLaidSince N.reading b board.new problem.entry.machine.now
        problem.entry.ask.now result.0 None }
{
    marks_keep_boards::<N>();
    if let Some(mark) = goal_mark(held.root, goal) {
        board.undo_to(mark);
        return held.base;
    }
    let base = mark_anew(board, Some(held));
    follow_goal(board, problem, goal);
    base
}

/// Marks the board at the goal whose list it carries, where it has a mark for that beside those that an opening sets.
pub(crate) fn mark_goal<N: Network>(board: &mut Board<N>, goal: State) -> Option<Root>
    ensures laid { (machine : Machine) (ask : Ask)
        → HasList N.reading board.old machine ask goal (going goal [])
        → HasList N.reading board.new machine ask goal (going goal []) }
    ensures since { (b : BoardValue N) (machine : Machine) (ask : Ask) (base : ℕ)
        → HasList N.reading board.old machine ask goal (going goal [])
        → IsLaidSince N.reading b board.old machine ask base None
        → IsLaidSince N.reading b board.new machine ask base result }
{
    marks_keep_boards::<N>();
    if board.spare_marks() < 7 {
        return None;
    }
    let mark = board.mark();
    Some(Root { mark, goal })
}

/// Lays the list of a goal without choices, at which the board has a mark then, where it has one spare.
fn lay_goal<N: Network>(
    store: &Store,
    board: &mut Board<N>,
    problem: Problem,
    goal: State,
    held: HeldList,
) -> HeldList
    requires posed { IsPosed problem }
    requires over { (b : BoardValue N)
        × IsReady N.reading b problem.machine.now problem.ask.now
        × HasMarks N.reading 1 b
        × IsOver N.reading b board.old problem.machine.now
        problem.ask.now (Some held) }
    requires opens { IsOpen problem.machine.now board.old.plans problem.ask.now (going goal []) }
    ensures laid { HasList N.reading board.new problem.entry.machine.now
        problem.entry.ask.now goal (going goal []) }
    ensures at { result.laid ≡ record { first = goal; count = 0 } }
    ensures stored { result.stored ≡ length store.now.entries }
    ensures since { (b : BoardValue N)
        → IsReady N.reading b problem.entry.machine.now
        problem.entry.ask.now
        → IsOver N.reading b board.old problem.entry.machine.now
        problem.entry.ask.now (Some held)
        → IsLaidSince N.reading b board.new problem.entry.machine.now
        problem.entry.ask.now result.base.0 result.root }
{
    let base = back_to_goal(board, problem, goal, held);
    let root = mark_goal(board, goal);
    HeldList {
        base,
        root,
        laid: Laid {
            first: goal,
            count: 0,
        },
        stored: store.len(),
    }
}

/// Lays a node's list over its goal.
fn lay_over_goal<N: Network>(
    store: &Store,
    board: &mut Board<N>,
    problem: Problem,
    node: u32,
    held: HeldList,
) -> HeldList
    requires posed { IsPosed problem }
    requires over { (b : BoardValue N)
        × IsReady N.reading b problem.machine.now problem.ask.now
        × HasMarks N.reading 1 b
        × IsOver N.reading b board.old problem.machine.now
        problem.ask.now (Some held) }
    requires there { node < length store.now.entries }
    requires stored { let choices = choices_of store.now.entries node in IsStoredList
        (list_by problem.machine.now choices).goal choices }
    requires opens { IsOpen problem.machine.now board.old.plans problem.ask.now
        (list_at problem.machine.now store.now.entries node) }
    ensures laid { HasList N.reading board.new problem.entry.machine.now
        problem.entry.ask.now result.laid.first
        (list_at problem.entry.machine.now store.now.entries node) }
    ensures count { result.laid.count ≡ length (choices_of store.now.entries node) }
    ensures stored { result.stored ≡ length store.now.entries }
    ensures since { (b : BoardValue N)
        → IsReady N.reading b problem.entry.machine.now
        problem.entry.ask.now
        → IsOver N.reading b board.old problem.entry.machine.now
        problem.entry.ask.now (Some held)
        → IsLaidSince N.reading b board.new problem.entry.machine.now
        problem.entry.ask.now result.base.0 result.root }
{
    let goal = goal_of(store, node);
    let over = lay_goal(store, board, problem, goal, held);
    let first = lay_choices(store, board, problem, node, goal);
    HeldList {
        base: over.base,
        root: over.root,
        laid: Laid {
            first,
            count: store.depth(node),
        },
        stored: over.stored,
    }
}

/// Lays the list that was taken: by its newest choice alone where it is a child of the held list, or else over its goal.
pub(crate) fn lay_next<N: Network>(
    store: &Store,
    board: &mut Board<N>,
    problem: Problem,
    next: &Next,
    held: Option<HeldList>,
) -> HeldList
    requires posed { IsPosed problem }
    requires over { (b : BoardValue N)
        × IsReady N.reading b problem.machine.now problem.ask.now
        × HasMarks N.reading 1 b
        × IsOver N.reading b board.old problem.machine.now
        problem.ask.now held }
    requires holds { IfSome held (HoldsList N.reading board.old problem.machine.now
        problem.ask.now store.now) }
    requires can { CanLay problem.machine.now board.old.plans problem.ask.now store.now next.now }
    ensures laid { HasList N.reading board.new problem.entry.machine.now
        problem.entry.ask.now result.laid.first
        (next_list problem.entry.machine.now store.now next.entry.now) }
    ensures count { result.laid.count
        ≡ length (choices_before store.now.entries (next_node next.entry.now)) }
    ensures stored { result.stored ≡ length store.now.entries }
    ensures since { (b : BoardValue N)
        → IsReady N.reading b problem.entry.machine.now
        problem.entry.ask.now
        → IsOver N.reading b board.old problem.entry.machine.now
        problem.entry.ask.now held
        → IsLaidSince N.reading b board.new problem.entry.machine.now
        problem.entry.ask.now result.base.0 result.root }
{
    let Some(parent) = held else {
        return lay_anew(store, board, problem, next, held);
    };
    match *next {
        Next::Goal(goal) => lay_goal(store, board, problem, goal.state, parent),
        Next::Node(node) if parent.stored <= node => {
            lay_child(store, board, problem, node, parent)
        }
        Next::Node(node) => lay_over_goal(store, board, problem, node, parent),
    }
}
