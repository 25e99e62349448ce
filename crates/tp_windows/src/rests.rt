//! How much time each state of a copy still needs at least, up to a goal of the ask.
ghost use Rattle.std.specs.Prelude.{◌≡◌, ℕ, ◌+◌, ◌*◌, ◌<◌, ◌≤◌, length, false, Some, None, IfOk, IsTrue};
ghost use Rattle.tp_routes.specs.Numbers.{number_of, state_at};
ghost use Rattle.tp_routes.specs.Tables.{sum_at};
ghost use Rattle.tp_schedule.specs.PlannerAnswers.{IsKnownGoal};
ghost use Rattle.tp_schedule.specs.Routes.{IsGoalState};
ghost use Rattle.tp_windows.specs.RestTables.{AreGoalsIn, AreStepsIn, IsStepIn, KeepsGoals, rest_of};
ghost use Rattle.tp_windows.specs.Ways.{IsRest};

use std::alloc::{AllocError, Global};
use tp_base::Tick;
use tp_machine::{ActId, Machine, State, allowed, step};
use tp_routes::{number_of, state_at};
use tp_schedule::{Ask, is_goal};

/// For each state of a copy the rest that it needs at least: the sum of least durations of allowed actions that lead to a goal of the
/// ask, in ticks, or none where no such actions do.
#[derive(Drop)]
pub(crate) struct Rests {
    pub(crate) rests: Vec<Option<Tick>>,
}

impl Rests {
    /// A table for machines with as many locations as this one. It takes all the memory that the table will ever need.
    pub(crate) fn new(alloc: Global, machine: &Machine) -> Result<Rests, AllocError>
        ensures { IfOk result (λ r. length r.rests.items ≡ 8 * length machine.now.locations) }
    {
        let states = machine.locations.len() as usize * 8;
        Ok(Rests {
            rests: vec![in alloc; None; states]?,
        })
    }

    /// Finds the rests for a machine and an ask. Answers false where so many passes over the actions aren't enough: the table is of no
    /// use then.
    pub(crate) fn renew(&mut self, machine: &Machine, ask: &Ask) -> bool
        requires goal { IsKnownGoal machine.now ask.now.goal }
        requires states { length self.old.rests.items ≡ 8 * length machine.now.locations }
        ensures rest { IsTrue result → IsRest machine.now ask.entry.now
            (rest_of self.new.rests.items) }
        ensures states { length self.new.rests.items ≡ 8 * length machine.now.locations }
    {
        fill(machine, ask, &mut self.rests)
    }

    /// The rest of a state, or none.
    pub(crate) fn rest(&self, state: State) -> Option<Tick>
        ensures { result ≡ rest_of self.now.rests.items state }
    {
        match self.rests.get(number_of(state) as usize) {
            Some(rest) => *rest,
            None => None,
        }
    }
}

/// Finds the rests by passes over the actions, until one of them lowers none.
fn fill(machine: &Machine, ask: &Ask, rests: &mut [Option<Tick>]) -> bool
    requires goal { IsKnownGoal machine.now ask.now.goal }
    requires states { length rests.old ≡ 8 * length machine.now.locations }
    ensures { IsTrue result → IsRest machine.now ask.entry.now (rest_of rests.new) }
{
    mark_goals(machine, ask, rests);
    let passes = rests.len();
    'passes: for _ in 0..passes {
        if !lower_once(machine, ask, rests) {
            return true;
        }
    }
    false
}

/// Gives each goal state the rest 0, and no rest to the others.
fn mark_goals(machine: &Machine, ask: &Ask, rests: &mut [Option<Tick>])
    requires states { length rests.old ≡ 8 * length machine.now.locations }
    ensures { AreGoalsIn machine.now ask.entry.now rests.new }
{
    'states: for number in 0..rests.len() {
        rests[number] = first_rest(machine, ask, number as u32);
    }
}

/// The rest of a state before any action is looked at.
fn first_rest(machine: &Machine, ask: &Ask, number: u32) -> Option<Tick>
    requires { number < 8 * length machine.now.locations }
    ensures { IsGoalState machine.now ask.entry.now.want ask.entry.now.goal (state_at number)
        → result ≡ Some 0 }
{
    if is_goal(machine, ask, state_at(number)) {
        Some(0)
    } else {
        None
    }
}

/// Lowers rests by each action once. Answers whether one was lowered.
fn lower_once(machine: &Machine, ask: &Ask, rests: &mut [Option<Tick>]) -> bool
    requires states { length rests.old ≡ 8 * length machine.now.locations }
    ensures goals { KeepsGoals rests.old rests.new }
    ensures closed { result ≡ false → (act : ℕ) → act < length machine.now.actions
        → AreStepsIn machine.now ask.entry.now rests.new act }
{
    let mut lowered = false;
    let mut left = machine.actions.len();
    'acts: while left > 0 {
        left -= 1;
        if lower_by(machine, ask, rests, ActId(left as u16)) {
            lowered = true;
        }
    }
    lowered
}

/// Lowers the rests of the eight states from which the action may lead on. Answers whether one was lowered.
fn lower_by(machine: &Machine, ask: &Ask, rests: &mut [Option<Tick>], act: ActId) -> bool
    requires act { act.0 < length machine.now.actions }
    requires states { length rests.old ≡ 8 * length machine.now.locations }
    ensures goals { KeepsGoals rests.old rests.new }
    ensures same { result ≡ false → rests.new ≡ rests.old }
    ensures closed { result ≡ false → AreStepsIn machine.now ask.entry.now rests.old act.0 }
{
    if !allowed(machine, ask.outs, act) {
        return false;
    }
    let first = u32::from(machine.actions.get(act.0 as u32).from.0) * 8;
    let mut lowered = false;
    'states: for k in 0..8 {
        if lower_one(machine, ask, rests, act, first + k) {
            lowered = true;
        }
    }
    lowered
}

/// Lowers the rest of a state by what the state behind the action needs. Answers whether it was lowered.
fn lower_one(
    machine: &Machine,
    ask: &Ask,
    rests: &mut [Option<Tick>],
    act: ActId,
    number: u32,
) -> bool
    requires act { act.0 < length machine.now.actions }
    requires states { length rests.old ≡ 8 * length machine.now.locations }
    requires known { number < length rests.old }
    ensures goals { KeepsGoals rests.old rests.new }
    ensures same { result ≡ false → rests.new ≡ rests.old }
    ensures closed { result ≡ false
        → IsStepIn machine.now ask.entry.now rests.old act.0 number }
{
    let action = machine.actions.get(act.0 as u32);
    let Some(next) = step(action, &ask.want, state_at(number)) else {
        return false;
    };
    let Some(rest) = rests[number_of(next) as usize] else {
        return false;
    };
    lower(rests, number, longer(rest, action.least))
}

/// The sum of a rest and a duration, or the greatest number where there is no such sum.
fn longer(rest: Tick, least: Tick) -> Tick
    ensures { result ≤ least + rest }
{
    if rest > u32::MAX - least {
        return u32::MAX;
    }
    rest + least
}

/// Gives a state this rest, where it is less than the one that stands. Answers whether it is.
fn lower(rests: &mut [Option<Tick>], number: u32, rest: Tick) -> bool
    requires known { number < length rests.old }
    ensures goals { KeepsGoals rests.old rests.new }
    ensures same { result ≡ false → rests.new ≡ rests.old }
    ensures closed { result ≡ false → (m : ℕ) × (sum_at rests.old number ≡ Some m)
        × (m ≤ rest) }
{
    if !is_less(rest, rests[number as usize]) {
        return false;
    }
    rests[number as usize] = Some(rest);
    true
}

/// Whether a rest is less than the one that stands, if there is one.
fn is_less(rest: Tick, old: Option<Tick>) -> bool
    ensures less { IsTrue result → old ≡ Some 0 → ⊥ }
    ensures more { result ≡ false → (m : ℕ) × (old ≡ Some m) × (m ≤ rest) }
{
    match old {
        Some(old) => rest < old,
        None => true,
    }
}
