//! A dive: from a list on a board to a complete one by one choice more at a time, the first that keeps a bound.
ghost use Rattle.std.specs.Prelude.{◌≡◌, ◌+◌, ◌-◌, ◌<◌, ◌≤◌, length, IfSome, IsFalse, IsTrue, None};
ghost use Rattle.tp_schedule.specs.Answers.{kept_of};
ghost use Rattle.tp_schedule.specs.Limits.{most_acts};
ghost use Rattle.tp_schedule.specs.declared.parts.Origin.TheVariants.{Feeder};
ghost use Rattle.tp_placing.specs.LoadedBoard.{Stands};
ghost use Rattle.tp_search.specs.Boards.{HasMarks, IsBack, IsFurther};
ghost use Rattle.tp_search.specs.Children.{HasFound};
ghost use Rattle.tp_search.specs.Dives.{CanDive, IsDeeper, IsPlacing};
ghost use Rattle.tp_search.specs.Limits.{IsMetLimit};
ghost use Rattle.tp_search.specs.Problems.{IsPosed};
ghost use Rattle.tp_search.specs.declared.store.Limit.TheVariants.{By};
ghost use Rattle.tp_search.specs.declared.stored_list.Laid.{Laid};

use crate::problem::Problem;
use crate::states::{nearest_to, state_before};
use crate::stored_list::Laid;
use tp_base::{Late, Network, Tick, Undo};
use tp_machine::ActId;
use tp_placing::{Board, Refused, marks_keep_boards};
use tp_schedule::{Origin, is_start};

/// The first and the last place at which a hold is tried, in an order with so many: the one that is given for it, or all.
fn tried(at: Option<[u32; 4]>, hold: u32, last: u32) -> (u32, u32)
    ensures { result.1 ≤ last }
{
    match at {
        Some(places) => {
            let place = if hold < 4 { places[hold as usize] } else { 0 };
            (place, place.min(last))
        }
        None => (0, last),
    }
}

/// Places the holds of the newest action, from this one on, in the first way that keeps the bound: each hold is tried from the
/// end of its order to the front, or at the place that is given for it. Where no way does, the board is as before.
fn place_within<N: Network>(
    board: &mut Board<N>,
    problem: Problem,
    act: ActId,
    bound: Tick,
    hold: u32,
    at: Option<[u32; 4]>,
) -> bool
    requires placing { (list : Laid)
        × IsPlacing N.reading board.old problem.machine.now
        problem.ask.now act hold list }
    requires known { act.0 < length problem.machine.now.actions }
    requires marks { HasMarks N.reading (5 - hold) board.old }
    ensures deeper { IsTrue result → (list : Laid)
        → IsPlacing N.reading board.old problem.entry.machine.now
        problem.entry.ask.now act hold list
        → IsDeeper N.reading board.old board.new
        problem.entry.machine.now problem.entry.ask.now bound list }
    ensures back { IsFalse result → IsBack N.reading board.old board.new
        problem.entry.machine.now }
{
    if board.end_bound() > bound {
        return false;
    }
    let holds = &problem.machine.actions.get(act.0 as u32).holds;
    if hold == holds.len() {
        return true;
    }
    marks_keep_boards::<N>();
    let resource = holds.get(hold).resource;
    let (first, last) = tried(at, hold, board.places(resource));
    for place in (first..=last).rev() {
        let mark = board.mark();
        match board.try_place(problem.machine, hold, place) {
            Ok(()) => {
                if place_within(board, problem, act, bound, hold + 1, at) {
                    return true;
                }
            }
            Err(Refused::Here) => {}
            Err(Refused::UpToHere) => {
                board.undo_to(mark);
                return false;
            }
        }
        board.undo_to(mark);
    }
    false
}

/// Whether the list may have one choice more, and the board has the marks to try it.
pub(crate) fn can_go_on<N: Network>(board: &Board<N>, problem: Problem, list: Laid) -> bool
    requires most { kept_of problem.ask.now + list.count ≤ most_acts }
    ensures fewer { IsTrue result → kept_of problem.entry.ask.now + list.count < most_acts }
    ensures marks { IsTrue result → HasMarks N.reading 6 board.now }
{
    problem.ask.origin.kept() + list.count < 64 && board.spare_marks() >= 6
}

/// The board's list with this action more, its holds placed in the first way that keeps the bound, at the places that are given
/// for them if there are some. Where there is none, the board is as before.
pub(crate) fn step_by<N: Network>(
    board: &mut Board<N>,
    problem: Problem,
    bound: Tick,
    list: Laid,
    act: ActId,
    at: Option<[u32; 4]>,
) -> Option<Laid>
    requires posed { IsPosed problem }
    requires known { act.0 < length problem.machine.now.actions }
    requires carries { CanDive N.reading board.old problem.machine.now
        problem.ask.now list }
    requires fewer { kept_of problem.ask.now + list.count < most_acts }
    requires marks { HasMarks N.reading 6 board.old }
    ensures deeper { IfSome result
        (IsDeeper N.reading board.old board.new
        problem.entry.machine.now problem.entry.ask.now bound) }
    ensures count { IfSome result (λ next. next.count ≡ list.count + 1) }
    ensures back { result ≡ None → IsBack N.reading board.old board.new
        problem.entry.machine.now }
{
    marks_keep_boards::<N>();
    let Some(before) = state_before(problem, list.first, act) else {
        return None;
    };
    let mark = board.mark();
    match board.open_action(problem.machine, act, before.room) {
        Ok(()) => {
            if place_within(board, problem, act, bound, 0, at) {
                return Some(Laid {
                    first: before.state,
                    count: list.count + 1,
                });
            }
        }
        Err(Late) => {}
    }
    board.undo_to(mark);
    None
}

/// The board's list with the action more that leads from nearest to a start, where that isn't the first one, and its holds placed
/// in the first way that keeps the bound. Where there is none, the board is as before.
fn step_nearest<N: Network>(
    board: &mut Board<N>,
    problem: Problem,
    bound: Tick,
    list: Laid,
) -> Option<Laid>
    requires posed { IsPosed problem }
    requires carries { CanDive N.reading board.old problem.machine.now
        problem.ask.now list }
    requires fewer { kept_of problem.ask.now + list.count < most_acts }
    requires marks { HasMarks N.reading 6 board.old }
    ensures deeper { IfSome result
        (IsDeeper N.reading board.old board.new
        problem.entry.machine.now problem.entry.ask.now bound) }
    ensures count { IfSome result (λ next. next.count ≡ list.count + 1) }
    ensures back { result ≡ None → IsBack N.reading board.old board.new
        problem.entry.machine.now }
{
    match nearest_to(problem, list.first) {
        Some(act) => step_by(board, problem, bound, list, act, None),
        None => None,
    }
}

/// The board's list with one choice more, the first that keeps the bound: the action that leads from nearest to a start first, and
/// unless it is to be that one, the others in their order. Where there is none, the board is as before.
fn step_down<N: Network>(
    board: &mut Board<N>,
    problem: Problem,
    bound: Tick,
    list: Laid,
    by_nearest: bool,
) -> Option<Laid>
    requires posed { IsPosed problem }
    requires carries { CanDive N.reading board.old problem.machine.now
        problem.ask.now list }
    ensures deeper { IfSome result
        (IsDeeper N.reading board.old board.new
        problem.entry.machine.now problem.entry.ask.now bound) }
    ensures count { IfSome result (λ next. next.count ≡ list.count + 1) }
    ensures back { result ≡ None → IsBack N.reading board.old board.new
        problem.entry.machine.now }
{
    if !can_go_on(board, problem, list) {
        return None;
    }
    let nearest = step_nearest(board, problem, bound, list);
    if by_nearest || nearest.is_some() {
        return nearest;
    }
    let mut next = problem.rooms.first_to(list.first.loc);
    'acts: while let Some(act) = next {
        if let Some(deeper) = step_by(board, problem, bound, list, act, None) {
            return Some(deeper);
        }
        next = problem.rooms.next_to(act);
    }
    None
}

/// Goes on from the board's list of a new copy, by the first choice that keeps the bound at each step, until the list is
/// complete. The first step may have to be by the action that leads from nearest to a start. Answers whether it came to a complete
/// list: the board carries it then, and else what it came to.
fn go_down<N: Network>(
    board: &mut Board<N>,
    problem: Problem,
    bound: Tick,
    list: Laid,
    by_nearest: bool,
) -> bool
    requires posed { IsPosed problem }
    requires new_copy { problem.ask.now.origin ≡ Feeder }
    requires carries { CanDive N.reading board.old problem.machine.now
        problem.ask.now list }
    ensures found { IsTrue result
        → HasFound N.reading board.old board.new
        problem.entry.machine.now problem.entry.ask.now bound }
    ensures further { IsFurther N.reading board.old board.new }
    ensures stands { Stands N.reading board.new problem.entry.machine.now }
{
    let mut reached = list;
    'down: while let Some(next) = step_down(
        board,
        problem,
        bound,
        reached,
        by_nearest && reached.count == list.count,
    ) {
        if is_start(problem.machine, problem.ask, next.first) {
            return true;
        }
        reached = next;
    }
    false
}

/// Goes on from the board's list of a new copy, by the first choice that keeps the bound at each step, until the list is
/// complete: the board carries it then. The first step may have to be by the action that leads from nearest to a start. Where it
/// comes to no such list, the board is as before. There may be one all the same.
pub(crate) fn dive<N: Network>(
    board: &mut Board<N>,
    problem: Problem,
    bound: Tick,
    list: Laid,
    by_nearest: bool,
) -> bool
    requires posed { IsPosed problem }
    requires carries { CanDive N.reading board.old problem.machine.now
        problem.ask.now list }
    requires marks { HasMarks N.reading 1 board.old }
    ensures found { IsTrue result
        → HasFound N.reading board.old board.new
        problem.entry.machine.now problem.entry.ask.now bound }
    ensures back { IsFalse result → IsBack N.reading board.old board.new
        problem.entry.machine.now }
{
    let Origin::Feeder = problem.ask.origin else {
        return false;
    };
    marks_keep_boards::<N>();
    let mark = board.mark();
    if go_down(board, problem, bound, list, by_nearest) {
        return true;
    }
    board.undo_to(mark);
    false
}

/// Whether a dive from the board's list comes to a complete one by the bound. Leaves the board as it was. There may be one all the
/// same.
pub(crate) fn ends_by<N: Network>(
    board: &mut Board<N>,
    problem: Problem,
    bound: Tick,
    list: Laid,
) -> bool
    requires posed { IsPosed problem }
    requires carries { CanDive N.reading board.old problem.machine.now
        problem.ask.now list }
    requires marks { HasMarks N.reading 1 board.old }
    ensures met { IsTrue result → IsMetLimit problem.entry.machine.now board.old.plans
        problem.entry.ask.now (By bound) }
    ensures back { IsBack N.reading board.old board.new
        problem.entry.machine.now }
{
    let Origin::Feeder = problem.ask.origin else {
        return false;
    };
    marks_keep_boards::<N>();
    let mark = board.mark();
    let found = go_down(board, problem, bound, list, false);
    board.undo_to(mark);
    found
}
