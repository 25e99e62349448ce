//! The goal states of an ask whose lists without choices are open.
ghost use Rattle.std.specs.Prelude.{◌≡◌, ◌*◌, ◌<◌, ◌≤◌, [], length, vec_capacity, IfNone, IfSome, None};
ghost use Rattle.tp_machine.specs.declared.parts.State.{State as StateValue};
ghost use Rattle.tp_routes.specs.Numbers.{state_at};
ghost use Rattle.tp_schedule.specs.Answers.{kept_of};
ghost use Rattle.tp_schedule.specs.Choices.{IsBound, IsOpen, going};
ghost use Rattle.tp_schedule.specs.Limits.{most_acts};
ghost use Rattle.tp_schedule.specs.PlannerAnswers.{IsKnownGoal};
ghost use Rattle.tp_schedule.specs.Routes.{IsGoalState};
ghost use Rattle.tp_search.specs.Boards.{HasMarks, IsBack, IsReady};
ghost use Rattle.tp_search.specs.StoredLists.{HasList};
ghost use Rattle.tp_search.specs.HeldLists.{HoldsList, IsLaidSince, IsOver};
ghost use Rattle.tp_search.specs.Problems.{IsPosed};
ghost use Rattle.tp_search.specs.SearchProgress.{AreOpenGoals, list_of_goal};
ghost use Rattle.tp_search.specs.Stores.{StoreValue};

use crate::held_list::{HeldList, mark_goal};
use crate::problem::Problem;
use crate::states::goal_at;
use crate::stored_list::Laid;
use tp_base::{Late, Mark, Network, Tick, Undo};
use tp_machine::State;
use tp_placing::{Board, marks_keep_boards};
use tp_routes::state_at;
use tp_schedule::{Goal, finished};

/// A goal state whose list without choices is open, with the list's bound, in ticks.
#[derive(Clone, Copy)]
pub(crate) struct OpenGoal {
    pub(crate) state: State,
    pub(crate) bound: Tick,
}

/// An open goal whose list a board carries since a mark.
#[derive(Clone, Copy)]
pub(crate) struct CarriedGoal {
    pub(crate) goal: OpenGoal,
    pub(crate) base: Mark,
}

/// Opens the goal, where it is a goal state of the ask and its list is open: the board carries the list then. Else the board is
/// as it was.
pub(crate) fn open_at<N: Network>(
    board: &mut Board<N>,
    problem: Problem,
    state: State,
) -> Option<CarriedGoal>
    requires posed { IsPosed problem }
    requires known { state.loc.0 < length problem.machine.now.locations }
    requires kept { kept_of problem.ask.now ≤ most_acts }
    requires ready { IsReady N.reading board.old problem.machine.now
        problem.ask.now }
    requires marks { HasMarks N.reading 1 board.old }
    ensures state { IfSome result (λ o. o.goal.state ≡ state) }
    ensures bound { IfSome result
        (λ o. IsBound problem.entry.machine.now board.old.plans problem.entry.ask.now
        (list_of_goal o.goal) o.goal.bound) }
    ensures laid { IfSome result (λ o. HasList N.reading board.new problem.entry.machine.now
        problem.entry.ask.now state (going state [])) }
    ensures since { IfSome result (λ o. IsLaidSince N.reading board.old board.new
        problem.entry.machine.now problem.entry.ask.now o.base.0 None) }
    ensures none { IfNone result
        (¬ IsOpen problem.entry.machine.now board.old.plans problem.entry.ask.now
        (going state [])) }
    ensures back { result ≡ None → IsBack N.reading board.old board.new
        problem.entry.machine.now }
{
    marks_keep_boards::<N>();
    let Some(goal) = goal_at(problem, state) else {
        return None;
    };
    let base = board.mark();
    match board.open_goal(goal.room) {
        Ok(()) => {
            let bound = board.end_bound();
            Some(CarriedGoal {
                goal: OpenGoal { state, bound },
                base,
            })
        }
        Err(Late) => {
            board.undo_to(base);
            None
        }
    }
}

/// The goal with its bound, if it is open. Leaves the board as it was.
fn try_goal<N: Network>(board: &mut Board<N>, problem: Problem, state: State) -> Option<OpenGoal>
    requires posed { IsPosed problem }
    requires known { state.loc.0 < length problem.machine.now.locations }
    requires kept { kept_of problem.ask.now ≤ most_acts }
    requires ready { IsReady N.reading board.old problem.machine.now
        problem.ask.now }
    requires marks { HasMarks N.reading 1 board.old }
    ensures state { IfSome result (λ g. g.state ≡ state) }
    ensures bound { IfSome result
        (λ g. IsBound problem.entry.machine.now board.old.plans problem.entry.ask.now
        (list_of_goal g) g.bound) }
    ensures none { IfNone result
        (¬ IsOpen problem.entry.machine.now board.old.plans problem.entry.ask.now
        (going state [])) }
    ensures back { IsBack N.reading board.old board.new
        problem.entry.machine.now }
{
    marks_keep_boards::<N>();
    let Some(opened) = open_at(board, problem, state) else {
        return None;
    };
    board.undo_to(opened.base);
    Some(opened.goal)
}

/// Finds the open goals of an ask for a purge tray, number by number. Leaves the board as it was.
fn find_purges<N: Network>(goals: &mut Vec<OpenGoal>, board: &mut Board<N>, problem: Problem)
    requires posed { IsPosed problem }
    requires kept { kept_of problem.ask.now ≤ most_acts }
    requires ready { IsReady N.reading board.old problem.machine.now
        problem.ask.now }
    requires marks { HasMarks N.reading 1 board.old }
    requires empty { goals.old.items ≡ [] }
    requires space { 8 * length problem.machine.now.locations ≤ vec_capacity goals.old }
    ensures goals { AreOpenGoals problem.entry.machine.now board.old.plans problem.entry.ask.now
        goals.new.items }
    ensures back { IsBack N.reading board.old board.new
        problem.entry.machine.now }
    ensures space { vec_capacity goals.old ≤ vec_capacity goals.new }
{
    'numbers: for number in 0..problem.machine.locations.len() * 8 {
        if let Some(goal) = try_goal(board, problem, state_at(number)) {
            goals.push_reserved(goal);
        }
    }
}

/// Finds whether the only goal of an ask for a tray is open. Its list stays on the board then, since a mark.
fn find_finished<N: Network>(
    goals: &mut Vec<OpenGoal>,
    board: &mut Board<N>,
    problem: Problem,
    state: State,
) -> Option<HeldList>
    requires posed { IsPosed problem }
    requires known { state.loc.0 < length problem.machine.now.locations }
    requires kept { kept_of problem.ask.now ≤ most_acts }
    requires ready { IsReady N.reading board.old problem.machine.now
        problem.ask.now }
    requires marks { HasMarks N.reading 1 board.old }
    requires only { (goal : StateValue) → IsGoalState problem.machine.now problem.ask.now.want
        problem.ask.now.goal goal → goal ≡ state }
    requires empty { goals.old.items ≡ [] }
    requires space { 1 ≤ vec_capacity goals.old }
    ensures goals { AreOpenGoals problem.entry.machine.now board.old.plans problem.entry.ask.now
        goals.new.items }
    ensures over { IsOver N.reading board.old board.new problem.entry.machine.now
        problem.entry.ask.now result }
    ensures holds { (s : StoreValue) → s.entries ≡ [] → IfSome result
        (HoldsList N.reading board.new problem.entry.machine.now problem.entry.ask.now s) }
    ensures space { vec_capacity goals.old ≤ vec_capacity goals.new }
{
    let Some(opened) = open_at(board, problem, state) else {
        return None;
    };
    goals.push_reserved(opened.goal);
    let root = mark_goal(board, state);
    Some(HeldList {
        base: opened.base,
        root,
        laid: Laid {
            first: state,
            count: 0,
        },
        stored: 0,
    })
}

/// Finds all goals that are open. The list of a goal at a tray stays on the board then.
pub(crate) fn find_goals<N: Network>(
    goals: &mut Vec<OpenGoal>,
    board: &mut Board<N>,
    problem: Problem,
) -> Option<HeldList>
    requires posed { IsPosed problem }
    requires goal { IsKnownGoal problem.machine.now problem.ask.now.goal }
    requires kept { kept_of problem.ask.now ≤ most_acts }
    requires ready { IsReady N.reading board.old problem.machine.now
        problem.ask.now }
    requires marks { HasMarks N.reading 1 board.old }
    requires space { 8 * length problem.machine.now.locations ≤ vec_capacity goals.old }
    ensures goals { AreOpenGoals problem.entry.machine.now board.old.plans problem.entry.ask.now
        goals.new.items }
    ensures over { IsOver N.reading board.old board.new problem.entry.machine.now
        problem.entry.ask.now result }
    ensures holds { (s : StoreValue) → s.entries ≡ [] → IfSome result
        (HoldsList N.reading board.new problem.entry.machine.now problem.entry.ask.now s) }
    ensures space { vec_capacity goals.old ≤ vec_capacity goals.new }
{
    goals.clear();
    match problem.ask.goal {
        Goal::Tray(tray) => {
            let state = finished(&problem.ask.want, tray);
            find_finished(goals, board, problem, state)
        }
        Goal::Purge => {
            find_purges(goals, board, problem);
            None
        }
    }
}
