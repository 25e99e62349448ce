//! A way laid on a board: its actions from the goal back, one after another.
ghost use Rattle.std.specs.Prelude.{◌≡◌, ◌+◌, ◌<◌, ◌≤◌, length, IfSome, IsFalse, IsTrue, None};
ghost use Rattle.tp_schedule.specs.Answers.{kept_of};
ghost use Rattle.tp_schedule.specs.Limits.{most_acts};
ghost use Rattle.tp_schedule.specs.declared.parts.Origin.TheVariants.{Feeder};
ghost use Rattle.tp_placing.specs.LoadedBoard.{Stands};
ghost use Rattle.tp_search.specs.Boards.{HasMarks, IsBack, IsFurther, IsReady};
ghost use Rattle.tp_search.specs.Children.{HasFound};
ghost use Rattle.tp_search.specs.Dives.{CanDive, IsDeeper};
ghost use Rattle.tp_search.specs.Problems.{IsPosed};

use crate::dives::{can_go_on, step_by};
use crate::goals::open_at;
use crate::problem::Problem;
use crate::stored_list::Laid;
use tp_base::{Network, Tick, Undo};
use tp_machine::{HoldRule, Machine, ResId, State, span};
use tp_placing::{Board, marks_keep_boards};
use tp_schedule::{Origin, is_start};
use tp_windows::Pick;

/// Whether a hold stands before another one of the same resource: in an earlier gap, or in the same gap and sooner.
fn is_sooner(one: (u16, i64), other: (u16, i64)) -> bool {
    one.0 < other.0 || (one.0 == other.0 && one.1 < other.1)
}

/// The gap of a hold of a step, and the tick at which it begins.
fn gap_and_begin(pick: Pick, rule: &HoldRule, hold: usize) -> (u16, i64) {
    let (begin, _) = span(rule, pick.start, pick.end);
    let gap = if hold < 4 { pick.gaps[hold] } else { 0 };
    (gap, begin)
}

/// How many holds of a step on a resource stand before another hold there.
fn count_sooner(machine: &Machine, pick: Pick, resource: ResId, other: (u16, i64)) -> u32 {
    let mut count: u32 = 0;
    if let Some(action) = machine.actions.as_slice().get(usize::from(pick.act.0)) {
        let rules = action.holds.as_slice();
        'holds: for hold in 0..rules.len() {
            let rule = &rules[hold];
            if rule.resource == resource && is_sooner(gap_and_begin(pick, rule, hold), other) {
                count = count.saturating_add(1);
            }
        }
    }
    count
}

/// The place of a hold of a step in the order of its resource, where these steps are laid, the step itself among them: its gap,
/// and behind the own holds that stand before it.
fn place_of(machine: &Machine, laid: &[Pick], pick: Pick, rule: &HoldRule, hold: usize) -> u32 {
    let own = gap_and_begin(pick, rule, hold);
    let mut place = u32::from(own.0);
    'laid: for at in 0..laid.len() {
        place = place.saturating_add(count_sooner(machine, laid[at], rule.resource, own));
    }
    place
}

/// The places of a step's holds, where these steps are laid, the step itself among them.
fn places_of(machine: &Machine, laid: &[Pick], pick: Pick) -> [u32; 4] {
    let mut places = [0; 4];
    if let Some(action) = machine.actions.as_slice().get(usize::from(pick.act.0)) {
        let rules = action.holds.as_slice();
        'holds: for hold in 0..rules.len() {
            if hold < 4 {
                places[hold] = place_of(machine, laid, pick, &rules[hold], hold);
            }
        }
    }
    places
}

/// The board's list with the last of these steps more, the others being laid, its holds placed in their gaps. Where they stand
/// there too late, the board is as before.
fn step_along<N: Network>(
    board: &mut Board<N>,
    problem: Problem,
    bound: Tick,
    list: Laid,
    laid: &[Pick],
) -> Option<Laid>
    requires posed { IsPosed problem }
    requires carries { CanDive N.reading board.old problem.machine.now
        problem.ask.now list }
    ensures deeper { IfSome result
        (IsDeeper N.reading board.old board.new
        problem.entry.machine.now problem.entry.ask.now bound) }
    ensures count { IfSome result (λ next. next.count ≡ list.count + 1) }
    ensures back { result ≡ None → IsBack N.reading board.old board.new
        problem.entry.machine.now }
{
    let Some(pick) = laid.last() else {
        return None;
    };
    if !can_go_on(board, problem, list) || pick.act.0 as u32 >= problem.machine.actions.len() {
        return None;
    }
    let places = places_of(problem.machine, laid, *pick);
    step_by(board, problem, bound, list, pick.act, Some(places))
}

/// Goes on from the board's list of a new copy by these actions, the last one of the way first, until the list is complete.
/// Answers whether it came to a complete list: the board carries it then, and else what it came to.
fn go_along<N: Network>(
    board: &mut Board<N>,
    problem: Problem,
    bound: Tick,
    list: Laid,
    picks: &[Pick],
) -> bool
    requires posed { IsPosed problem }
    requires new_copy { problem.ask.now.origin ≡ Feeder }
    requires carries { CanDive N.reading board.old problem.machine.now
        problem.ask.now list }
    ensures found { IsTrue result
        → HasFound N.reading board.old board.new
        problem.entry.machine.now problem.entry.ask.now bound }
    ensures further { IsFurther N.reading board.old board.new }
    ensures stands { Stands N.reading board.new problem.entry.machine.now }
{
    let mut reached = list;
    'along: for at in 0..picks.len() {
        let Some(next) = step_along(board, problem, bound, reached, &picks[..at + 1]) else {
            return false;
        };
        if is_start(problem.machine, problem.ask, next.first) {
            return true;
        }
        reached = next;
    }
    false
}

/// Lays the way of a new copy, the last action first, from its goal on, on a board without choices: each hold is placed in its
/// gap. Answers whether the board carries a complete list that ends by the bound. Where it does not,
/// the board is as before, and there may be such a list all the same.
pub(crate) fn lay_way<N: Network>(
    board: &mut Board<N>,
    problem: Problem,
    goal: State,
    picks: &[Pick],
    bound: Tick,
) -> bool
    requires posed { IsPosed problem }
    requires kept { kept_of problem.ask.now ≤ most_acts }
    requires ready { IsReady N.reading board.old problem.machine.now
        problem.ask.now }
    requires marks { HasMarks N.reading 1 board.old }
    ensures found { IsTrue result
        → HasFound N.reading board.old board.new
        problem.entry.machine.now problem.entry.ask.now bound }
    ensures back { IsFalse result → IsBack N.reading board.old board.new
        problem.entry.machine.now }
{
    let Origin::Feeder = problem.ask.origin else {
        return false;
    };
    if goal.loc.0 as u32 >= problem.machine.locations.len() {
        return false;
    }
    marks_keep_boards::<N>();
    let Some(opened) = open_at(board, problem, goal) else {
        return false;
    };
    let root = Laid {
        first: goal,
        count: 0,
    };
    if go_along(board, problem, bound, root, picks) {
        return true;
    }
    board.undo_to(opened.base);
    false
}
