//! The rooms, found state by state from the start states on.
ghost use Rattle.std.specs.Prelude.{◌≡◌, ℕ, ◌+◌, ◌*◌, ◌<◌, ◌≤◌, [], Some, length, vec_capacity};
ghost use Rattle.tp_machine.specs.Limits.{longest};
ghost use Rattle.tp_routes.specs.Index.{IsIndexOf};
ghost use Rattle.tp_routes.specs.declared.index.ActEnd.TheVariants.{From};
ghost use Rattle.tp_routes.specs.Numbers.{number_of, state_at};
ghost use Rattle.tp_routes.specs.Tables.{sum_at};
ghost use Rattle.tp_routes.specs.FilledRooms.{IsFilling, IsSpreadTo, IsSum, HasAtMost, Lowers, filled, left_to_fill};

use crate::index::ActionIndex;
use crate::state_number::{number_of, state_at};
use crate::state_queue::lower;
use tp_machine::{ActId, Machine, State, allowed, step};
use tp_schedule::Ask;

/// Gives a state this sum, where it is lower than the one that stands.
pub(crate) fn offer(
    machine: &Machine,
    ask: &Ask,
    sums: &mut [Option<u32>],
    waiting: &mut Vec<u32>,
    state: State,
    sum: u32,
)
    requires filling { IsFilling machine.now ask.now sums.old waiting.old.items }
    requires known { state.loc.0 < length machine.now.locations }
    requires is_sum { IsSum machine.now ask.now state sum }
    requires small { sum ≤ longest * (filled sums.old + 1) }
    requires room { length sums.old ≤ vec_capacity waiting.old }
    ensures filling { IsFilling machine.now ask.entry.now sums.new waiting.new.items }
    ensures lowers { Lowers sums.old sums.new }
    ensures there { HasAtMost sums.new state sum }
    ensures spread { (busy count : ℕ)
        → IsSpreadTo machine.now ask.entry.now sums.old waiting.old.items busy count
        → IsSpreadTo machine.now ask.entry.now sums.new waiting.new.items busy count }
    ensures busy { (n v : ℕ) → v ≤ sum → sum_at sums.old n ≡ Some v
        → sum_at sums.new n ≡ Some v }
    ensures room { length sums.new ≤ vec_capacity waiting.new }
    ensures nearer { left_to_fill sums.new waiting.new.items
        ≤ left_to_fill sums.old waiting.old.items }
{
    lower(sums, waiting, number_of(state), sum);
}

/// A state by its number, and its sum in the table.
#[derive(Clone, Copy)]
struct StateSum {
    number: u32,
    sum: u32,
}

/// Puts the step of an action from a state with this sum into the table, where it is allowed.
fn step_on(
    machine: &Machine,
    ask: &Ask,
    sums: &mut [Option<u32>],
    waiting: &mut Vec<u32>,
    act: ActId,
    from: StateSum,
)
    requires act { act.0 < length machine.now.actions }
    requires filling { IsFilling machine.now ask.now sums.old waiting.old.items }
    requires spread { IsSpreadTo machine.now ask.now sums.old waiting.old.items from.number act.0 }
    requires known { from.number < length sums.old }
    requires busy { sum_at sums.old from.number ≡ Some from.sum }
    requires room { length sums.old ≤ vec_capacity waiting.old }
    ensures filling { IsFilling machine.now ask.entry.now sums.new waiting.new.items }
    ensures spread { IsSpreadTo machine.now ask.entry.now sums.new waiting.new.items from.number
        (act.0 + 1) }
    ensures busy { sum_at sums.new from.number ≡ Some from.sum }
    ensures lowers { Lowers sums.old sums.new }
    ensures room { length sums.new ≤ vec_capacity waiting.new }
    ensures nearer { left_to_fill sums.new waiting.new.items
        ≤ left_to_fill sums.old waiting.old.items }
{
    if !allowed(machine, ask.outs, act) {
        return;
    }
    let action = machine.actions.get(act.0 as u32);
    if let Some(next) = step(action, &ask.want, state_at(from.number)) {
        offer(machine, ask, sums, waiting, next, from.sum + action.least);
    }
}

/// Puts all steps from a state with this sum into the table, along the actions from its location.
fn spread(
    machine: &Machine,
    ask: &Ask,
    index: &ActionIndex,
    sums: &mut [Option<u32>],
    waiting: &mut Vec<u32>,
    from: StateSum,
)
    requires index { IsIndexOf From machine.now index.now.firsts.items index.now.nexts.items }
    requires filling { IsFilling machine.now ask.now sums.old waiting.old.items }
    requires spread { IsSpreadTo machine.now ask.now sums.old waiting.old.items from.number 0 }
    requires known { from.number < length sums.old }
    requires busy { sum_at sums.old from.number ≡ Some from.sum }
    requires room { length sums.old ≤ vec_capacity waiting.old }
    ensures filling { IsFilling machine.now ask.entry.now sums.new waiting.new.items }
    ensures spread { IsSpreadTo machine.now ask.entry.now sums.new waiting.new.items from.number
        (length machine.now.actions) }
    ensures lowers { Lowers sums.old sums.new }
    ensures room { length sums.new ≤ vec_capacity waiting.new }
    ensures nearer { left_to_fill sums.new waiting.new.items
        ≤ left_to_fill sums.old waiting.old.items }
{
    let firsts = index.firsts.as_slice();
    let nexts = index.nexts.as_slice();
    let mut cursor = firsts[from.number as usize / 8];
    'actions: while let Some(at) = cursor {
        step_on(machine, ask, sums, waiting, ActId(at), from);
        cursor = nexts[at as usize];
    }
}

/// Takes the states that wait, the least sums first, and puts their steps into the table.
pub(crate) fn settle(
    machine: &Machine,
    ask: &Ask,
    index: &ActionIndex,
    sums: &mut [Option<u32>],
    waiting: &mut Vec<u32>,
)
    requires index { IsIndexOf From machine.now index.now.firsts.items index.now.nexts.items }
    requires filling { IsFilling machine.now ask.now sums.old waiting.old.items }
    requires spread { (busy : ℕ) → IsSpreadTo machine.now ask.now sums.old
        waiting.old.items busy
        (length machine.now.actions) }
    requires room { length sums.old ≤ vec_capacity waiting.old }
    ensures filling { IsFilling machine.now ask.entry.now sums.new waiting.new.items }
    ensures spread { (busy : ℕ) → IsSpreadTo machine.now ask.entry.now sums.new
        waiting.new.items
        busy (length machine.now.actions) }
    ensures lowers { Lowers sums.old sums.new }
    ensures rest { waiting.new.items ≡ [] }
    ensures room { length sums.new ≤ vec_capacity waiting.new }
{
    'states: while let Some(number) = waiting.pop() {
        if let Some(sum) = sums[number as usize] {
            spread(machine, ask, index, sums, waiting, StateSum { number, sum });
        }
    }
}
