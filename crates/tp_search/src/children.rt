//! The children of a list on a board, each of which is tried, and kept where it is open.
ghost use Rattle.std.specs.Prelude.{◌≡◌, ℕ, suc, ◌+◌, ◌-◌, ◌<◌, ◌↔◌, [], ◌∷◌, length, take, IsFalse, IsSomeAnd, IsTrue};
ghost use Rattle.tp_machine.specs.ModuleUse.{action_at};
ghost use Rattle.tp_pool.specs.Entries.{choices_before};
ghost use Rattle.tp_schedule.specs.Answers.{kept_of};
ghost use Rattle.tp_schedule.specs.Holders.{holds_of_act};
ghost use Rattle.tp_schedule.specs.Limits.{most_acts};
ghost use Rattle.tp_placing.specs.Boards.{suffix_of};
ghost use Rattle.tp_placing.specs.Calls.{CanPlace};
ghost use Rattle.tp_placing.specs.LoadedBoard.{Stands};
ghost use Rattle.tp_placing.specs.RefusedPlace.{EndsAfterUpTo};
ghost use Rattle.tp_search.specs.Boards.{HasMarks, IsBack, IsLaid};
ghost use Rattle.tp_search.specs.Children.{CarriesOpened, HasFound, IsNewChild};
ghost use Rattle.tp_search.specs.Dives.{CanDive};
ghost use Rattle.tp_search.specs.Limits.{IsLimitKept, IsMetLimit, IsWithin};
ghost use Rattle.tp_search.specs.OpenedLists.{IsAtProgress, IsFresh, IsSameOpening};
ghost use Rattle.tp_search.specs.OpenedLists.Progress.{nothing, through, up_to};
ghost use Rattle.tp_search.specs.Problems.{IsPosed};
ghost use Rattle.tp_search.specs.Stored.{choice_with, choices_by};
ghost use Rattle.tp_search.specs.Stores.{HasBounds};
ghost use Rattle.tp_search.specs.declared.store.Limit.TheVariants.{By};

use crate::dives::{dive, ends_by};
use crate::opening::Opening;
use crate::problem::Problem;
use crate::states::{Before, state_before};
use crate::store::{Limit, Store};
use crate::stored_list::Laid;
use tp_base::{Late, Network, Tick, Undo};
use tp_machine::{ActId, State};
use tp_placing::{Board, Refused, marks_keep_boards};
use tp_pool::Choice;
use tp_schedule::{Origin, is_start};

/// A child that is tried: its newest action, the stored choice with the places so far, the state that it begins in, how many
/// choices it has, and whether it is complete there.
#[derive(Clone, Copy)]
struct Child {
    act: ActId,
    choice: Choice,
    first: State,
    count: u32,
    complete: bool,
}

/// Whether a dive may come to something: the list is stored, and none failed at its bound.
fn may_dive(opening: &Opening) -> bool {
    opening.parent.is_some() && opening.barred != Some(opening.bound)
}

/// Dives from the list that is opened by the action that leads from nearest to a start, where that isn't the first one: so no sheet
/// goes round without need. Answers whether the board carries an answer then.
fn dive_nearest<N: Network>(
    opening: &Opening,
    board: &mut Board<N>,
    problem: Problem,
    laid: Laid,
) -> bool
    requires posed { IsPosed problem }
    requires carries { CanDive N.reading board.old problem.machine.now
        problem.ask.now laid }
    requires marks { HasMarks N.reading 1 board.old }
    ensures found { IsTrue result
        → HasFound N.reading board.old board.new
        problem.entry.machine.now problem.entry.ask.now opening.now.bound }
    ensures back { IsFalse result → IsBack N.reading board.old board.new
        problem.entry.machine.now }
{
    if !may_dive(opening) {
        return false;
    }
    dive(board, problem, opening.bound, laid, true)
}

/// Dives from a child with the parent's bound, where the parent is stored and no dive failed at this bound. Answers whether
/// the board carries an answer then.
fn dive_from<N: Network>(
    opening: &mut Opening,
    board: &mut Board<N>,
    problem: Problem,
    bound: Tick,
    child: Laid,
) -> bool
    requires posed { IsPosed problem }
    requires carries { CanDive N.reading board.old problem.machine.now
        problem.ask.now child }
    requires marks { HasMarks N.reading 1 board.old }
    ensures found { IsTrue result
        → HasFound N.reading board.old board.new
        problem.entry.machine.now problem.entry.ask.now opening.old.bound }
    ensures back { IsFalse result → IsBack N.reading board.old board.new
        problem.entry.machine.now }
    ensures same { opening.new ≡ record opening.old { barred = opening.new.barred } }
{
    if bound != opening.bound || !may_dive(opening) {
        return false;
    }
    if dive(board, problem, bound, child, false) {
        return true;
    }
    opening.barred = Some(bound);
    false
}

/// Seeks the limit by a dive from a child that is later than the list that is opened, where that list is stored and no dive failed
/// at its bound. One dive is all: where it fails no limit is sought any more. Leaves the board as it was.
fn seek_limit<N: Network>(
    store: &mut Store,
    opening: &Opening,
    board: &mut Board<N>,
    problem: Problem,
    bound: Tick,
    child: Laid,
)
    requires posed { IsPosed problem }
    requires carries { CanDive N.reading board.old problem.machine.now
        problem.ask.now child }
    requires marks { HasMarks N.reading 1 board.old }
    ensures store { store.new ≡ record store.old { limit = store.new.limit } }
    ensures kept { IsLimitKept store.old.limit store.new.limit }
    ensures met { IsMetLimit problem.entry.machine.now board.old.plans problem.entry.ask.now
        store.old.limit → IsMetLimit problem.entry.machine.now board.old.plans
        problem.entry.ask.now store.new.limit }
    ensures within { IsWithin store.old.limit opening.now.bound
        → IsWithin store.new.limit opening.now.bound }
    ensures back { IsBack N.reading board.old board.new
        problem.entry.machine.now }
{
    let Limit::Sought = store.limit() else {
        return;
    };
    if bound <= opening.bound || !may_dive(opening) {
        return;
    }
    let limit = if ends_by(board, problem, bound, child) {
        Limit::By(bound)
    } else {
        Limit::Unsought
    };
    store.set_limit(limit);
}

/// Looks at a child that has all its places: it is an answer where it is complete with the parent's bound, or a dive from it
/// comes to an answer, or else it is stored. Answers whether the board carries an answer then.
fn end_child<N: Network>(
    store: &mut Store,
    opening: &mut Opening,
    board: &mut Board<N>,
    problem: Problem,
    child: &Child,
) -> bool
    requires posed { IsPosed problem }
    requires child { IsNewChild problem.machine.now problem.ask.now opening.old.goal child.now
        (length (holds_of_act (action_at problem.machine.now child.now.act.0))) }
    requires laid { IsLaid N.reading board.old problem.machine.now
        problem.ask.now opening.old.goal child.now.first
        (choice_with problem.machine.now child.now.act child.now.choice.places ∷ choices_by
        problem.machine.now (choices_before store.old.entries opening.old.parent)) }
    requires count { child.now.count ≡ suc (length (choices_by problem.machine.now
        (choices_before store.old.entries opening.old.parent))) }
    requires marks { HasMarks N.reading 1 board.old }
    requires fresh { IsFresh problem.machine.now problem.ask.now opening.old store.old }
    requires bounds { HasBounds problem.machine.now problem.ask.now store.old }
    requires progress { IsAtProgress problem.machine.now board.old.plans problem.ask.now opening.old
        store.old (up_to child.now.act.0
        (choice_with problem.machine.now child.now.act child.now.choice.places).places) }
    ensures found { IsTrue result
        → HasFound N.reading board.old board.new
        problem.entry.machine.now problem.entry.ask.now opening.old.bound }
    ensures progress { IsFalse result → IsAtProgress problem.entry.machine.now board.old.plans
        problem.entry.ask.now opening.new store.new (through child.now.act.0
        (choice_with problem.entry.machine.now child.now.act child.now.choice.places).places) }
    ensures back { IsFalse result → IsBack N.reading board.old board.new
        problem.entry.machine.now }
    ensures same { IsSameOpening opening.old opening.new store.old store.new }
{
    let bound = board.end_bound();
    if child.complete && bound == opening.bound {
        return true;
    }
    let laid = Laid {
        first: child.first,
        count: child.count,
    };
    if dive_from(opening, board, problem, bound, laid) {
        return true;
    }
    seek_limit(store, opening, board, problem, bound, laid);
    store.keep(
        opening.parent,
        child.choice,
        bound,
        child.complete,
        opening.stored,
    );
    false
}

/// Whether the board's list ends beyond the limit with its next hold at this place of its order, and so at each place before.
/// Leaves the board as it was. A no may be wrong.
fn is_all_beyond<N: Network>(
    store: &Store,
    board: &mut Board<N>,
    problem: Problem,
    hold: u32,
    place: u32,
) -> bool
    requires stands { Stands N.reading board.old problem.machine.now }
    requires next { IsSomeAnd (suffix_of board.old)
        (λ x. CanPlace problem.machine.now board.old.plans x hold place) }
    requires marks { HasMarks N.reading 1 board.old }
    ensures beyond { IsTrue result → (limit : ℕ) × (store.now.limit ≡ By limit)
        × IsSomeAnd (suffix_of board.old)
        (EndsAfterUpTo problem.entry.machine.now board.old place limit) }
    ensures back { IsBack N.reading board.old board.new
        problem.entry.machine.now }
{
    let Limit::By(limit) = store.limit() else {
        return false;
    };
    marks_keep_boards::<N>();
    let mark = board.mark();
    let crowded = board.is_crowded(problem.machine, hold, place, limit);
    board.undo_to(mark);
    crowded
}

/// Places the holds of the child's newest action, from this one on, in all ways, and keeps each child that is left, until one is
/// an answer or leads to one, which the board carries then. Each hold is tried from the end of its order to the front, until no
/// place before is left. Leaves out what ends beyond the limit. Answers whether the board carries an answer.
fn place_rest<N: Network>(
    store: &mut Store,
    opening: &mut Opening,
    board: &mut Board<N>,
    problem: Problem,
    child: &Child,
    hold: u32,
) -> bool
    requires posed { IsPosed problem }
    requires child { IsNewChild problem.machine.now problem.ask.now opening.old.goal child.now
        hold }
    requires laid { IsLaid N.reading board.old problem.machine.now
        problem.ask.now opening.old.goal child.now.first
        (record { act = child.now.act; places = take hold child.now.choice.places } ∷ choices_by
        problem.machine.now (choices_before store.old.entries opening.old.parent)) }
    requires count { child.now.count ≡ suc (length (choices_by problem.machine.now
        (choices_before store.old.entries opening.old.parent))) }
    requires marks { HasMarks N.reading (5 - hold) board.old }
    requires fresh { IsFresh problem.machine.now problem.ask.now opening.old store.old }
    requires bounds { HasBounds problem.machine.now problem.ask.now store.old }
    requires progress { IsAtProgress problem.machine.now board.old.plans problem.ask.now opening.old
        store.old (up_to child.now.act.0 (take hold child.now.choice.places)) }
    ensures found { IsTrue result
        → HasFound N.reading board.old board.new
        problem.entry.machine.now problem.entry.ask.now opening.old.bound }
    ensures progress { IsFalse result → IsAtProgress problem.entry.machine.now board.old.plans
        problem.entry.ask.now opening.new store.new
        (through child.now.act.0 (take hold child.now.choice.places)) }
    ensures same { IsSameOpening opening.old opening.new store.old store.new }
    ensures back { IsFalse result → IsBack N.reading board.old board.new
        problem.entry.machine.now }
{
    if store.is_beyond(board.end_bound()) {
        return false;
    }
    let holds = &problem.machine.actions.get(child.act.0 as u32).holds;
    if hold == holds.len() {
        return end_child(store, opening, board, problem, child);
    }
    marks_keep_boards::<N>();
    let resource = holds.get(hold).resource;
    let last = board.places(resource);
    let mut tested = false;
    for place in (0..=last).rev() {
        let mark = board.mark();
        let mut placed = *child;
        placed.choice.places[hold as usize] = place;
        let beyond = match board.try_place(problem.machine, hold, place) {
            Ok(()) => {
                if place_rest(store, opening, board, problem, &placed, hold + 1) {
                    return true;
                }
                store.is_beyond(board.end_bound())
            }
            Err(Refused::Here) => false,
            Err(Refused::UpToHere) => {
                board.undo_to(mark);
                return false;
            }
        };
        board.undo_to(mark);
        if beyond && !tested {
            tested = true;
            if is_all_beyond(store, board, problem, hold, place) {
                return false;
            }
        }
    }
    false
}

/// Keeps the children that have this action more, before the state in which the list begins, until one leads to an answer.
fn open_act<N: Network>(
    store: &mut Store,
    opening: &mut Opening,
    board: &mut Board<N>,
    problem: Problem,
    laid: Laid,
    act: ActId,
) -> bool
    requires known { act.0 < length problem.machine.now.actions }
    requires posed { IsPosed problem }
    requires opened { CarriesOpened N.reading board.old problem.machine.now
        problem.ask.now opening.old store.old laid.first }
    requires count { laid.count
        ≡ length (choices_by problem.machine.now
        (choices_before store.old.entries opening.old.parent)) }
    requires marks { HasMarks N.reading 6 board.old }
    requires fewer { kept_of problem.ask.now
        + length (choices_by problem.machine.now
        (choices_before store.old.entries opening.old.parent)) < most_acts }
    requires progress { IsAtProgress problem.machine.now board.old.plans problem.ask.now opening.old
        store.old (up_to act.0 []) }
    ensures found { IsTrue result
        → HasFound N.reading board.old board.new
        problem.entry.machine.now problem.entry.ask.now opening.old.bound }
    ensures progress { IsFalse result → IsAtProgress problem.entry.machine.now board.old.plans
        problem.entry.ask.now opening.new store.new (up_to (act.0 + 1) []) }
    ensures same { IsSameOpening opening.old opening.new store.old store.new }
    ensures back { IsFalse result → IsBack N.reading board.old board.new
        problem.entry.machine.now }
{
    marks_keep_boards::<N>();
    let Some(before) = state_before(problem, laid.first, act) else {
        return false;
    };
    let mark = board.mark();
    match board.open_action(problem.machine, act, before.room) {
        Ok(()) => {
            let choice = Choice {
                act: Some(act),
                goal: opening.goal,
                places: [0; 4],
            };
            let complete = problem.ask.origin == Origin::Feeder
                && is_start(problem.machine, problem.ask, before.state);
            let child = Child {
                act,
                choice,
                first: before.state,
                count: laid.count + 1,
                complete,
            };
            if place_rest(store, opening, board, problem, &child, 0) {
                return true;
            }
        }
        Err(Late) => {}
    }
    board.undo_to(mark);
    false
}

/// Whether the front of a copy in flight has come to this state.
fn is_at(front: State, first: State) -> bool
    ensures { IsTrue result ↔ (front ≡ first) }
{
    front == first
}

/// Keeps the stopped list, where a copy in flight has come to its front's state, unless it is the answer.
fn open_stop<N: Network>(
    store: &mut Store,
    opening: &mut Opening,
    board: &mut Board<N>,
    problem: Problem,
    laid: Laid,
) -> bool
    requires count { laid.count
        ≡ length (choices_by problem.machine.now
        (choices_before store.old.entries opening.old.parent)) }
    requires opened { CarriesOpened N.reading board.old problem.machine.now
        problem.ask.now opening.old store.old laid.first }
    requires marks { HasMarks N.reading 1 board.old }
    requires progress { IsAtProgress problem.machine.now board.old.plans problem.ask.now opening.old
        store.old nothing }
    ensures found { IsTrue result
        → HasFound N.reading board.old board.new
        problem.entry.machine.now problem.entry.ask.now opening.old.bound }
    ensures progress { IsFalse result → IsAtProgress problem.entry.machine.now board.old.plans
        problem.entry.ask.now opening.new store.new (up_to 0 []) }
    ensures same { IsSameOpening opening.old opening.new store.old store.new }
    ensures back { IsFalse result → IsBack N.reading board.old board.new
        problem.entry.machine.now }
{
    marks_keep_boards::<N>();
    let Laid { first, count } = laid;
    let Origin::Front { state, .. } = problem.ask.origin else {
        return false;
    };
    if count == 0 || !is_at(state, first) {
        return false;
    }
    let mark = board.mark();
    match board.stop() {
        Ok(()) => {
            let choice = Choice {
                act: None,
                goal: opening.goal,
                places: [0; 4],
            };
            let bound = board.end_bound();
            if bound == opening.bound {
                return true;
            }
            store.keep(opening.parent, choice, bound, true, opening.stored);
        }
        Err(Late) => {}
    }
    board.undo_to(mark);
    false
}

/// Keeps all open children of the list that the board carries, until one of them is an answer or leads to one, which the board
/// carries then. Answers whether it does.
fn open_all<N: Network>(
    store: &mut Store,
    opening: &mut Opening,
    board: &mut Board<N>,
    problem: Problem,
    laid: Laid,
) -> bool
    requires count { laid.count
        ≡ length (choices_by problem.machine.now
        (choices_before store.old.entries opening.old.parent)) }
    requires posed { IsPosed problem }
    requires opened { CarriesOpened N.reading board.old problem.machine.now
        problem.ask.now opening.old store.old laid.first }
    requires marks { HasMarks N.reading 6 board.old }
    requires progress { IsAtProgress problem.machine.now board.old.plans problem.ask.now opening.old
        store.old nothing }
    ensures found { IsTrue result
        → HasFound N.reading board.old board.new
        problem.entry.machine.now problem.entry.ask.now opening.old.bound }
    ensures progress { IsFalse result → IsAtProgress problem.entry.machine.now board.old.plans
        problem.entry.ask.now opening.new store.new
        (up_to (length problem.entry.machine.now.actions) []) }
    ensures same { IsSameOpening opening.old opening.new store.old store.new }
    ensures back { IsFalse result → IsBack N.reading board.old board.new
        problem.entry.machine.now }
{
    if open_stop(store, opening, board, problem, laid) {
        return true;
    }
    if problem.ask.origin.kept() + laid.count == 64 {
        return false;
    }
    let mut next = problem.rooms.first_to(laid.first.loc);
    'acts: while let Some(act) = next {
        if open_act(store, opening, board, problem, laid, act) {
            return true;
        }
        next = problem.rooms.next_to(act);
    }
    false
}

/// Dives from the list that the board carries, or else keeps all its open children, until one of them is an answer or leads to one.
/// Returns whether the board carries an answer then.
pub(crate) fn open_list<N: Network>(
    store: &mut Store,
    opening: &mut Opening,
    board: &mut Board<N>,
    problem: Problem,
    laid: Laid,
) -> bool
    requires count { laid.count
        ≡ length (choices_by problem.machine.now
        (choices_before store.old.entries opening.old.parent)) }
    requires posed { IsPosed problem }
    requires opened { CarriesOpened N.reading board.old problem.machine.now
        problem.ask.now opening.old store.old laid.first }
    requires marks { HasMarks N.reading 6 board.old }
    requires progress { IsAtProgress problem.machine.now board.old.plans problem.ask.now opening.old
        store.old nothing }
    ensures found { IsTrue result
        → HasFound N.reading board.old board.new
        problem.entry.machine.now problem.entry.ask.now opening.old.bound }
    ensures progress { IsFalse result → IsAtProgress problem.entry.machine.now board.old.plans
        problem.entry.ask.now opening.new store.new
        (up_to (length problem.entry.machine.now.actions) []) }
    ensures same { IsSameOpening opening.old opening.new store.old store.new }
    ensures back { IsFalse result → IsBack N.reading board.old board.new
        problem.entry.machine.now }
{
    if dive_nearest(opening, board, problem, laid) {
        return true;
    }
    open_all(store, opening, board, problem, laid)
}
