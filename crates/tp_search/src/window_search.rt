//! An earliest plan by windows: the end that no alternative comes before, and a list that ends by it.
ghost use Rattle.std.specs.Prelude.{◌≡◌, ◌≤◌, None, IfSome};
ghost use Rattle.tp_schedule.specs.Answers.{kept_of};
ghost use Rattle.tp_schedule.specs.Limits.{most_acts};
ghost use Rattle.tp_placing.specs.Commits.{CanPut};
ghost use Rattle.tp_search.specs.Boards.{HasMarks, IsBack, IsReady};
ghost use Rattle.tp_search.specs.Outcomes.{HasAnswer};
ghost use Rattle.tp_search.specs.Problems.{IsPosed};

use crate::held_list::mark_anew;
use crate::laid_way::lay_way;
use crate::problem::Problem;
use tp_base::{Mark, Network, Undo};
use tp_placing::{Board, marks_keep_boards};
use tp_schedule::{Goal, Origin, finished};
use tp_windows::{Effort, Walked, Windows};

/// Seeks an earliest plan of a new copy by windows, on a board without choices. The board carries the plan's list then, since the
/// mark that is answered. Where it finds none, the board is as before, and there may be one all the same.
pub(crate) fn seek<N: Network>(
    windows: &mut Windows,
    board: &mut Board<N>,
    problem: Problem,
    effort: Effort,
) -> Option<Mark>
    requires posed { IsPosed problem }
    requires kept { kept_of problem.ask.now ≤ most_acts }
    requires can_put { CanPut problem.machine.now board.old.plans problem.ask.now }
    requires ready { IsReady N.reading board.old problem.machine.now
        problem.ask.now }
    requires marks { HasMarks N.reading 2 board.old }
    ensures found { IfSome result
        (λ base. HasAnswer N.reading board.old board.new problem.entry.machine.now
        problem.entry.ask.now base.0) }
    ensures back { result ≡ None → IsBack N.reading board.old board.new
        problem.entry.machine.now }
{
    let Goal::Tray(tray) = problem.ask.goal else {
        return None;
    };
    let Origin::Feeder = problem.ask.origin else {
        return None;
    };
    let beyond = (problem.ask.now + problem.machine.window).saturating_add(1);
    let walked = windows.walk(board, problem.machine, problem.ask, beyond, effort);
    let Walked::Ended { end } = walked else {
        return None;
    };
    marks_keep_boards::<N>();
    let base = mark_anew(board, None);
    let goal = finished(&problem.ask.want, tray);
    if lay_way(board, problem, goal, windows.best(), end) {
        return Some(base);
    }
    board.undo_to(base);
    None
}
