//! The search for the way of a copy that ends first within the windows of kept points.
ghost use Rattle.std.specs.Prelude.{◌≡◌, ℕ, ◌+◌, ◌*◌, ◌<◌, ◌≤◌, ◌∷◌, All, List, length, Contains, IfOk, IfSome, IsTrue, None, Option, Some, slice_get};
ghost use Rattle.tp_machine.specs.declared.parts.Feeder.{Feeder as FeederValue};
ghost use Rattle.tp_machine.specs.declared.parts.State.{State as StateValue};
ghost use Rattle.tp_schedule.specs.Routes.{IsGoalState, fresh};
ghost use Rattle.tp_windows.specs.RestTables.{rest_of};
ghost use Rattle.tp_windows.specs.Rows.{IsEnd};
ghost use Rattle.tp_windows.specs.SoughtWays.{AreStartsReached, AreStepsReached, IsFrontFor, IsWay};
ghost use Rattle.tp_windows.specs.WaitingLabels.{AreKeyed, Grows, IsReached, KeepsKeys, Waits};

use crate::front::{Arrival, Front, Stay};
use crate::gaps::{Ends, Gaps, Ground, place_holds};
use crate::sought::{Sought, first_stay, step_span};
use crate::waiting_heap::{Waiting, take};
use crate::way::Way;
use tp_base::Tick;
use tp_machine::{ActId, State, allowed, step};
use tp_schedule::{Origin, is_goal, is_start, new_sheet};

/// What going on from an arrival came to: it is done, or of a goal state, or there was no room.
#[derive(Clone, Copy)]
enum Opened {
    Done,
    Goal,
    Full,
}

/// No hold in a gap yet, behind steps that push so many kept holds.
fn no_gaps(pushes: u32) -> Gaps {
    Gaps {
        numbers: [0; 4],
        placed: 0,
        pushes,
    }
}

/// An arrival at a start state.
fn start_at(state: State, stay: Stay) -> Arrival
    ensures state { result.state ≡ state }
    ensures from { result.from ≡ stay.from }
    ensures till { result.till ≡ stay.till }
{
    Arrival {
        state,
        from: stay.from,
        till: stay.till,
        before: None,
        act: ActId(0),
        start: stay.from,
        most: 0,
        gaps: no_gaps(0),
    }
}

/// Notes when a copy may begin in a state. Answers false where there is no room.
fn begin_in(front: &mut Front, sought: Sought<'_>, state: State) -> bool
    ensures starts { IsTrue result → AreStartsReached sought.entry state front.new }
    ensures grows { Grows front.old front.new }
    ensures keyed { KeepsKeys sought.entry.rests.now.rests.items front.old front.new }
{
    let Some(rest) = sought.rests.rest(state) else {
        return true;
    };
    if !is_start(sought.machine, sought.ask, state) {
        return true;
    }
    match first_stay(sought, rest) {
        Some(stay) => front.note(start_at(state, stay), rest),
        None => true,
    }
}

/// Notes when a copy may begin at a feeder. Answers false where there is no room.
fn begin_at_feeders(front: &mut Front, sought: Sought<'_>) -> bool
    ensures starts { IsTrue result → (k : ℕ) (f : FeederValue)
        → slice_get sought.entry.machine.now.feeders k ≡ Some f
        → AreStartsReached sought.entry (fresh f.loc) front.new }
    ensures grows { Grows front.old front.new }
    ensures keyed { KeepsKeys sought.entry.rests.now.rests.items front.old front.new }
{
    'feeders: for number in 0..sought.machine.feeders.len() {
        let loc = sought.machine.feeders.get(number).loc;
        if !begin_in(front, sought, new_sheet(loc)) {
            return false;
        }
    }
    true
}

/// Notes when a copy may begin. Answers false where there is no room.
fn begin(front: &mut Front, sought: Sought<'_>) -> bool
    ensures starts { IsTrue result → (s : StateValue)
        → AreStartsReached sought.entry s front.new }
    ensures grows { Grows front.old front.new }
    ensures keyed { KeepsKeys sought.entry.rests.now.rests.items front.old front.new }
{
    match sought.ask.origin {
        Origin::Front { state, .. } => begin_in(front, sought, state),
        Origin::Feeder => begin_at_feeders(front, sought),
    }
}

/// The arrival by a step that ends in an interval.
fn arrival_by(to: Arrival, ends: Ends) -> Arrival
    ensures state { result.state ≡ to.state }
    ensures from { result.from ≡ ends.from }
    ensures till { result.till ≡ ends.till }
{
    Arrival {
        from: ends.from,
        till: ends.till,
        start: ends.start,
        gaps: ends.gaps,
        ..to
    }
}

/// Notes an arrival for each interval in which a step ends, at a state with this rest. Answers false where there is no room.
fn offer_ends(front: &mut Front, ends: &[Ends], to: Arrival, rest: Tick) -> bool
    ensures reached { IsTrue result → (end : ℕ) → IsEnd ends.now end
        → IsReached front.new to.state end }
    ensures grows { Grows front.old front.new }
    ensures keyed { (rests : List (Option ℕ)) → rest_of rests to.state ≡ Some rest
        → KeepsKeys rests front.old front.new }
{
    'ends: for number in 0..ends.len() {
        if !front.offer(arrival_by(to, ends[number]), rest) {
            return false;
        }
    }
    true
}

/// Notes where the steps of an action from an arrival of this number lead. Answers false where there is no room.
fn step_on(
    front: &mut Front,
    ends: &mut Vec<Ends>,
    sought: Sought<'_>,
    number: u32,
    from: Arrival,
    act: ActId,
) -> bool
    requires act { act.0 < length sought.machine.now.actions }
    requires rows { length sought.rows.now.rows ≡ length sought.machine.now.resources }
    ensures reached { IsTrue result → AreStepsReached sought.entry from act.0 front.new }
    ensures grows { Grows front.old front.new }
    ensures keyed { KeepsKeys sought.entry.rests.now.rests.items front.old front.new }
{
    let action = sought.machine.actions.get(act.0 as u32);
    let Some(next) = step(action, &sought.ask.want, from.state) else {
        return true;
    };
    let Some(rest) = sought.rests.rest(next) else {
        return true;
    };
    let Some(span) = step_span(sought, from, next, rest) else {
        return true;
    };
    if !allowed(sought.machine, sought.ask.outs, act) {
        return true;
    }
    let ground = Ground {
        machine: sought.machine,
        rows: sought.rows,
        least: action.least,
        most: action.most,
    };
    let gaps = no_gaps(from.gaps.pushes);
    ends.clear();
    if !place_holds(ground, action.holds.as_slice(), span, gaps, ends) {
        return false;
    }
    let to = Arrival {
        state: next,
        before: Some(number),
        act,
        most: action.most,
        ..from
    };
    offer_ends(front, ends, to, rest)
}

/// Notes where all steps from an arrival of this number lead. Answers false where there is no room.
fn spread(
    front: &mut Front,
    ends: &mut Vec<Ends>,
    sought: Sought<'_>,
    number: u32,
    from: Arrival,
) -> bool
    requires rows { length sought.rows.now.rows ≡ length sought.machine.now.resources }
    ensures reached { IsTrue result → (act : ℕ)
        → act < length sought.entry.machine.now.actions
        → AreStepsReached sought.entry from act front.new }
    ensures grows { Grows front.old front.new }
    ensures keyed { KeepsKeys sought.entry.rests.now.rests.items front.old front.new }
{
    if usize::from(from.state.loc.0) >= sought.starts.firsts.len() {
        return false;
    }
    let mut next = sought.starts.first(from.state.loc);
    let mut least = 0;
    'acts: while let Some(act) = next {
        let at = u32::from(act.0);
        if at < least || at >= sought.machine.actions.len() {
            return false;
        }
        if !step_on(front, ends, sought, number, from, act) {
            return false;
        }
        least = at + 1;
        next = sought.starts.next(act);
    }
    true
}

/// Goes on from an arrival that begins in the ticks taken last in its state: what is left of it waits again, if anything is.
fn cut(front: &mut Front, first: Waiting, from: Arrival, stay: Stay) -> Opened
    ensures grows { Grows front.old front.new }
    ensures keyed { (rests : List (Option ℕ)) → rest_of rests from.state ≡ Some first.rest
        → KeepsKeys rests front.old front.new }
    ensures rest { result ≡ Opened.Done → (tick : ℕ) → stay.till < tick
        → tick ≤ from.till
        → Waits front.new.arrivals.items front.new.waiting.items from.state tick }
    ensures done { result ≡ Opened.Goal → ⊥ }
{
    if from.till <= stay.till {
        return Opened::Done;
    }
    let left = Arrival {
        from: stay.till + 1,
        ..from
    };
    if front.note(left, first.rest) {
        Opened::Done
    } else {
        Opened::Full
    }
}

/// Whether the ticks begin in the stay.
fn does_begin_in(stay: Stay, from: Tick) -> bool
    ensures from { IsTrue result → stay.from ≤ from }
    ensures till { IsTrue result → from ≤ stay.till }
{
    stay.from <= from && from <= stay.till
}

/// Takes an arrival of this number, and notes where all steps from it lead.
fn go_on(
    front: &mut Front,
    ends: &mut Vec<Ends>,
    sought: Sought<'_>,
    first: Waiting,
    from: Arrival,
) -> Opened
    requires rows { length sought.rows.now.rows ≡ length sought.machine.now.resources }
    requires there { slice_get front.old.arrivals.items first.number ≡ Some from }
    requires goal { IsGoalState sought.machine.now sought.ask.now.want sought.ask.now.goal
        from.state → ⊥ }
    ensures keyed { KeepsKeys sought.entry.rests.now.rests.items front.old front.new }
    ensures done { result ≡ Opened.Done
        → IsFrontFor sought.entry (first ∷ front.old.waiting.items) front.old
        → IsFrontFor sought.entry front.new.waiting.items front.new }
    ensures goal { result ≡ Opened.Goal → ⊥ }
{
    front.take(from);
    if spread(front, ends, sought, first.number, from) {
        Opened::Done
    } else {
        Opened::Full
    }
}

/// Goes on from one that waited: drops what is taken already, or takes it, unless it is of a goal state.
fn open(
    front: &mut Front,
    ends: &mut Vec<Ends>,
    sought: Sought<'_>,
    first: Waiting,
    from: Arrival,
) -> Opened
    requires rows { length sought.rows.now.rows ≡ length sought.machine.now.resources }
    requires there { slice_get front.old.arrivals.items first.number ≡ Some from }
    requires rest { rest_of sought.rests.now.rests.items from.state ≡ Some first.rest }
    ensures keyed { KeepsKeys sought.entry.rests.now.rests.items front.old front.new }
    ensures done { result ≡ Opened.Done
        → IsFrontFor sought.entry (first ∷ front.old.waiting.items) front.old
        → IsFrontFor sought.entry front.new.waiting.items front.new }
    ensures goal { result ≡ Opened.Goal → front.new ≡ front.old }
{
    if let Some(stay) = front.stay_in(from.state) {
        if does_begin_in(stay, from.from) {
            return cut(front, first, from, stay);
        }
    }
    if is_goal(sought.machine, sought.ask, from.state) {
        return Opened::Goal;
    }
    go_on(front, ends, sought, first, from)
}

/// Whether each one that waits ends at the tick or later.
fn are_later(waiting: &[Waiting], end: Tick) -> bool
    ensures { IsTrue result → All (λ one. end ≤ one.key) waiting.now }
{
    waiting.iter().all(|one| one.key >= end)
}

/// Whether this one and each of the others ends at the tick or later.
fn are_all_later(first: Waiting, waiting: &[Waiting], end: Tick) -> bool
    ensures { IsTrue result → All (λ one. end ≤ one.key) (first ∷ waiting.now) }
{
    first.key >= end && are_later(waiting, end)
}

/// Goes on from the one that is to be gone on from first. Answers what was found, or none where others are to be gone on from.
fn search_on(front: &mut Front, ends: &mut Vec<Ends>, sought: Sought<'_>) -> Option<Way>
    requires rows { length sought.rows.now.rows ≡ length sought.machine.now.resources }
    requires keyed { AreKeyed sought.rests.now.rests.items front.old }
    ensures keyed { AreKeyed sought.entry.rests.now.rests.items front.new }
    ensures front { result ≡ None → IsFrontFor sought.entry front.old.waiting.items front.old
        → IsFrontFor sought.entry front.new.waiting.items front.new }
    ensures way { IsFrontFor sought.entry front.old.waiting.items front.old
        → IfSome result (IsWay sought.entry) }
{
    let Some(first) = take(&mut front.waiting) else {
        return Some(Way::Never);
    };
    let from = front.arrivals[first.number as usize];
    match open(front, ends, sought, first, from) {
        Opened::Done => None,
        Opened::Full => Some(Way::GaveUp),
        Opened::Goal => {
            if are_all_later(first, &front.waiting, from.from) {
                Some(Way::Found {
                    label: first.number,
                    end: from.from,
                })
            } else {
                Some(Way::GaveUp)
            }
        }
    }
}

/// Begins at the start states, and goes on until a way is found, no arrival waits, or there is no room or no step left. Steps count
/// arrivals taken and noted.
pub(crate) fn find_way(
    front: &mut Front,
    ends: &mut Vec<Ends>,
    sought: Sought<'_>,
    steps: &mut u32,
) -> Way
    ensures steps { steps.new ≤ steps.old }
    ensures way { IsWay sought.entry result }
{
    front.clear();
    if sought.rows.len() != sought.machine.resources.len() as usize {
        return Way::GaveUp;
    }
    if !begin(front, sought) {
        return Way::GaveUp;
    }
    'steps: while *steps > 0 {
        let before = front.arrivals.len();
        if let Some(way) = search_on(front, ends, sought) {
            return way;
        }
        let noted = front.arrivals.len().saturating_sub(before);
        *steps = less(*steps, noted);
    }
    Way::GaveUp
}

/// The steps that are left after one more and so many arrivals.
fn less(steps: u32, noted: usize) -> u32
    requires { 0 < steps }
    ensures { result < steps }
{
    if noted >= steps as usize {
        return 0;
    }
    steps - 1 - noted as u32
}
