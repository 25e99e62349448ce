//! A best-first search: lists are opened by rising bound, until a complete one has the least bound of all that wait.
ghost use Rattle.std.specs.Prelude.{ℕ, ◌≡◌, ◌≢◌, ◌<◌, ◌≤◌, length, None, Some, IfSome, IsFalse, IsTrue};
ghost use Rattle.tp_machine.specs.declared.machine.Machine.{Machine};
ghost use Rattle.tp_pool.specs.Entries.{bound_of, choices_before};
ghost use Rattle.tp_placing.specs.Boards.{BoardValue};
ghost use Rattle.tp_schedule.specs.PlannerAnswers.{IsKnownGoal};
ghost use Rattle.tp_search.specs.Boards.{HasMarks, IsBack, IsReady};
ghost use Rattle.tp_search.specs.Children.{HasFound};
ghost use Rattle.tp_search.specs.StoredLists.{HasList};
ghost use Rattle.tp_search.specs.HeldLists.{HoldsList, IsOver};
ghost use Rattle.tp_search.specs.Limits.{HasNoLimit, IsLimitKept};
ghost use Rattle.tp_search.specs.Outcomes.{CanOpen, IsAllOpened, IsOutcome};
ghost use Rattle.tp_search.specs.Problems.{IsPosed};
ghost use Rattle.tp_search.specs.SearchProgress.{IsBestLater, IsSameSpace, IsSearching, next_bound, next_list, next_node, opening_of, still_to_take};
ghost use Rattle.tp_search.specs.Stores.{StoreGrows};
ghost use Rattle.tp_search.specs.declared.best_first.Outcome.TheVariants.{Again, Spent};
ghost use Rattle.tp_search.specs.declared.store.Limit.TheVariants.{Unsought};

use crate::children::open_list;
use crate::goals::OpenGoal;
use crate::held_list::{HeldList, lay_next, mark_anew, take_off};
use crate::next_list::{Next, take_next};
use crate::opening::Opening;
use crate::problem::Problem;
use crate::store::{Limit, Store};
use crate::stored_list::{Laid, follow};
use tp_base::{Mark, Network, Tick, Undo};
use tp_machine::machine_law;
use tp_placing::{Board, marks_keep_boards};

/// A search dives only where so many lists more can be stored: a small budget is spent as by one that opens each list whole.
const DIVE_SPARE: u32 = 1_000;

/// How a search ended. With `Found` the board carries an earliest plan since the mark `base`: it is to be committed, or undone
/// to that mark. With `Spent` no plan ends before the bound, in ticks. With `Again` the store is full, and lists beyond a limit
/// were left out: the search is to be made again without a limit.
pub(crate) enum Outcome {
    Found { base: Mark },
    Never,
    Spent { bound: Tick },
    Again,
}

/// The bound of the list that was taken.
fn bound_of(store: &Store, next: &Next) -> Tick
    requires { IfSome (next_node next.now) (λ node. node < length store.now.entries) }
    ensures { result ≡ next_bound store.now next.now }
{
    match *next {
        Next::Goal(goal) => goal.bound,
        Next::Node(node) => store.bound(node),
    }
}

/// A complete list that is stored with no greater bound.
fn best_by(store: &Store, bound: Tick) -> Option<u32>
    ensures later { result ≡ None → IsBestLater store.now bound }
    ensures best { IfSome result (λ best. store.now.best ≡ Some best) }
    ensures bound { IfSome result (λ best. bound_of store.now.entries best ≤ bound) }
    ensures known { IfSome result (λ best. best < length store.now.entries) }
{
    let best = store.best()?;
    if store.bound(best) <= bound {
        Some(best)
    } else {
        None
    }
}

/// How the opening of the list that was taken begins, after the last dive failed at this bound, if one did.
fn opening_of(store: &Store, next: &Next, barred: Option<Tick>) -> Opening
    requires { IfSome (next_node next.now)
        (λ node. (node < length store.now.entries)
        × (1 ≤ length (choices_before store.now.entries (Some node)))) }
    ensures { (machine : Machine)
        → result ≡ record (opening_of machine store.now next.now) { barred = barred } }
{
    match *next {
        Next::Goal(goal) => Opening {
            parent: None,
            goal: goal.state,
            bound: goal.bound,
            stored: store.len(),
            barred,
        },
        Next::Node(node) => Opening {
            parent: Some(node),
            goal: store.choice_at(node, store.depth(node)).goal,
            bound: store.bound(node),
            stored: store.len(),
            barred,
        },
    }
}

/// The bound at which no dive is tried: the last one at which a dive failed, or that of the list that was taken, where few lists
/// more can be stored.
fn bar_for(store: &Store, next: &Next, barred: Option<Tick>) -> Option<Tick>
    requires { IfSome (next_node next.now) (λ node. node < length store.now.entries) }
{
    if store.spare() < DIVE_SPARE {
        Some(bound_of(store, next))
    } else {
        barred
    }
}

/// Opens the list that was taken, which the board carries: stores its open children, and the board is as before, unless an
/// answer is found on the way, which the board carries then. Answers whether it does. The last bound at which a dive failed is
/// noted.
fn open_next<N: Network>(
    store: &mut Store,
    board: &mut Board<N>,
    problem: Problem,
    next: &Next,
    laid: Laid,
    barred: &mut Option<Tick>,
) -> bool
    requires posed { IsPosed problem }
    requires laid { HasList N.reading board.old problem.machine.now problem.ask.now
        laid.first (next_list problem.machine.now store.old next.now) }
    requires count { laid.count ≡ length (choices_before store.old.entries (next_node next.now)) }
    requires marks { HasMarks N.reading 6 board.old }
    requires can { CanOpen problem.machine.now board.old.plans problem.ask.now store.old next.now }
    ensures found { IsTrue result
        → HasFound N.reading board.old board.new
        problem.entry.machine.now problem.entry.ask.now (next_bound store.old next.entry.now) }
    ensures opened { IsFalse result → IsAllOpened problem.entry.machine.now board.old.plans
        problem.entry.ask.now store.old next.entry.now store.new }
    ensures back { IsFalse result → IsBack N.reading board.old board.new
        problem.entry.machine.now }
    ensures grows { StoreGrows store.old store.new }
{
    let mut opening = opening_of(store, next, bar_for(store, next, *barred));
    let found = open_list(store, &mut opening, board, problem, laid);
    *barred = opening.barred;
    found
}

/// How a search ends at this bound, where the store is full.
fn full_outcome(store: &Store, bound: Tick) -> Outcome
    ensures spent { HasNoLimit store.now.limit → result ≡ Spent bound }
    ensures again { ¬ HasNoLimit store.now.limit → result ≡ Again }
{
    match store.limit() {
        Limit::By(_) => Outcome::Again,
        Limit::Unsought | Limit::Sought => Outcome::Spent { bound },
    }
}

/// Takes a list and opens it. Answers how the search ends, if it does so; if it goes on, the board holds the list. The last
/// bound at which a dive failed is noted.
fn step<N: Network>(
    goals: &mut Vec<OpenGoal>,
    store: &mut Store,
    board: &mut Board<N>,
    problem: Problem,
    held: &mut Option<HeldList>,
    barred: &mut Option<Tick>,
) -> Option<Outcome>
    requires posed { IsPosed problem }
    requires goal { IsKnownGoal problem.machine.now problem.ask.now.goal }
    requires over { (b : BoardValue N)
        × IsReady N.reading b problem.machine.now problem.ask.now
        × HasMarks N.reading 7 b
        × IsOver N.reading b board.old problem.machine.now
        problem.ask.now held.old }
    requires holds { IfSome held.old (HoldsList N.reading board.old
        problem.machine.now problem.ask.now store.old) }
    requires searching { (bound : ℕ)
        × IsSearching problem.machine.now board.old.plans problem.ask.now goals.old.items store.old
        bound }
    ensures ends { (b : BoardValue N)
        → IsReady N.reading b problem.entry.machine.now
        problem.entry.ask.now
        → IsOver N.reading b board.old problem.entry.machine.now
        problem.entry.ask.now held.old
        → IfSome result
        (IsOutcome N.reading b board.new problem.entry.machine.now
        problem.entry.ask.now store.old.capacity) }
    ensures goes_on { result ≡ None → (bound : ℕ)
        × IsSearching problem.entry.machine.now board.old.plans problem.entry.ask.now
        goals.new.items store.new bound }
    ensures over { (b : BoardValue N)
        → IsReady N.reading b problem.entry.machine.now
        problem.entry.ask.now
        → IsOver N.reading b board.old problem.entry.machine.now
        problem.entry.ask.now held.old
        → result ≡ None
        → IsOver N.reading b board.new problem.entry.machine.now
        problem.entry.ask.now held.new }
    ensures holds { result ≡ None → IfSome held.new (HoldsList N.reading board.new
        problem.entry.machine.now problem.entry.ask.now store.new) }
    ensures less { result ≡ None → still_to_take goals.new.items store.new
        < still_to_take goals.old.items store.old }
    ensures limit { IsLimitKept store.old.limit store.new.limit }
    ensures again { result ≡ Some Again → ¬ HasNoLimit store.new.limit }
    ensures same { IsSameSpace goals.old goals.new store.old store.new }
{
    machine_law(problem.machine);
    marks_keep_boards::<N>();
    let Some(next) = take_next(goals, store) else {
        take_off(board, *held);
        return Some(Outcome::Never);
    };
    let bound = bound_of(store, &next);
    if let Some(best) = best_by(store, bound) {
        let base = mark_anew(board, *held);
        follow(store, board, problem, best);
        return Some(Outcome::Found { base });
    }
    let reached = lay_next(store, board, problem, &next, *held);
    if open_next(store, board, problem, &next, reached.laid, barred) {
        return Some(Outcome::Found { base: reached.base });
    }
    if store.is_full() {
        board.undo_to(reached.base);
        return Some(full_outcome(store, bound));
    }
    *held = Some(reached);
    None
}

/// Whether as many lists are stored as may be, where there is a limit.
fn has_stored(store: &Store, most: Option<u32>) -> bool
    ensures { IsTrue result → most ≢ None }
{
    match most {
        Some(most) => store.len() >= most,
        None => false,
    }
}

/// Searches from these goals on, with the list that the board carries to begin with, if there is one. Where only so many lists
/// may be stored and they do not suffice, the answer is `Again`.
pub(crate) fn search<N: Network>(
    goals: &mut Vec<OpenGoal>,
    store: &mut Store,
    board: &mut Board<N>,
    problem: Problem,
    begun: Option<HeldList>,
    most: Option<u32>,
) -> Outcome
    requires posed { IsPosed problem }
    requires goal { IsKnownGoal problem.machine.now problem.ask.now.goal }
    requires over { (b : BoardValue N)
        × IsReady N.reading b problem.machine.now problem.ask.now
        × HasMarks N.reading 7 b
        × IsOver N.reading b board.old problem.machine.now
        problem.ask.now begun }
    requires holds { IfSome begun (HoldsList N.reading board.old
        problem.machine.now problem.ask.now store.old) }
    requires searching { (bound : ℕ)
        × IsSearching problem.machine.now board.old.plans problem.ask.now goals.old.items store.old
        bound }
    ensures outcome { (b : BoardValue N)
        → IsReady N.reading b problem.entry.machine.now
        problem.entry.ask.now
        → IsOver N.reading b board.old problem.entry.machine.now
        problem.entry.ask.now begun
        → IsOutcome N.reading b board.new
        problem.entry.machine.now problem.entry.ask.now store.old.capacity result }
    ensures whole { store.old.limit ≡ Unsought → most ≡ None → result ≢ Again }
    ensures same { IsSameSpace goals.old goals.new store.old store.new }
{
    let mut held = begun;
    let mut barred = None;
    'steps: loop {
        if has_stored(store, most) {
            take_off(board, held);
            return Outcome::Again;
        }
        if let Some(outcome) = step(goals, store, board, problem, &mut held, &mut barred) {
            return outcome;
        }
    }
}
