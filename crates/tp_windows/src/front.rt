//! The states that a copy can be in, with their ticks: those that wait to be gone on from, and the last that were taken.
ghost use Rattle.std.specs.Prelude.{◌≡◌, ℕ, ◌+◌, ◌*◌, ◌<◌, ◌≤◌, List, [], length, IfOk, IfSome, IsTrue, None, Option, Some, replicate, slice_index_or};
ghost use Rattle.tp_machine.specs.declared.parts.State.{State as StateValue};
ghost use Rattle.tp_routes.specs.Numbers.{number_of};
ghost use Rattle.tp_windows.specs.RestTables.{rest_of};
ghost use Rattle.tp_windows.specs.WaitingLabels.{Grows, HoldsAll, IsReached, IsTaken, KeepsKeys, Takes, Waits};

use crate::gaps::Gaps;
use crate::waiting_heap::{Waiting, put};
use std::alloc::{AllocError, Global};
use tp_base::Tick;
use tp_machine::{ActId, Machine, State};
use tp_routes::number_of;

/// The ticks at which a copy can be in a state.
#[derive(Clone, Copy)]
pub(crate) struct Stay {
    pub(crate) from: Tick,
    pub(crate) till: Tick,
}

/// A state with the ticks at which a copy can be there, and how it came there: the number of the arrival before, the action, its first
/// start and greatest duration, and the gaps of its holds.
#[derive(Clone, Copy)]
pub(crate) struct Arrival {
    pub(crate) state: State,
    pub(crate) from: Tick,
    pub(crate) till: Tick,
    pub(crate) before: Option<u32>,
    pub(crate) act: ActId,
    pub(crate) start: Tick,
    pub(crate) most: Tick,
    pub(crate) gaps: Gaps,
}

/// All arrivals, those of them that wait, and for each state the ticks of the last one that was taken.
#[derive(Drop)]
pub(crate) struct Front {
    pub(crate) arrivals: Vec<Arrival>,
    pub(crate) waiting: Vec<Waiting>,
    pub(crate) taken: Vec<Option<Stay>>,
}

/// The end that an arrival leads to at least, or the greatest tick.
fn key_of(from: Tick, rest: Tick) -> Tick
    ensures { result ≤ from + rest }
{
    if rest > u32::MAX - from {
        return u32::MAX;
    }
    from + rest
}

/// Whether the copy stays in the state that long, from one tick to another.
fn does_hold(stay: Option<Stay>, from: Tick, till: Tick) -> bool
    ensures { IsTrue result → HoldsAll stay from till }
{
    match stay {
        Some(stay) => stay.from <= from && till <= stay.till,
        None => false,
    }
}

fn clear_taken(taken: &mut [Option<Stay>])
    ensures { taken.new ≡ replicate (length taken.old) None }
{
    taken.fill(None);
}

impl Front {
    /// Takes memory for the states of a machine and so many arrivals.
    pub(crate) fn new(
        alloc: Global,
        machine: &Machine,
        arrivals: u32,
    ) -> Result<Front, AllocError> {
        let states = machine.locations.len() as usize * 8;
        Ok(Front {
            arrivals: Vec::with_capacity(alloc, arrivals as usize)?,
            waiting: Vec::with_capacity(alloc, arrivals as usize)?,
            taken: vec![in alloc; None; states]?,
        })
    }

    /// Leaves no arrival.
    pub(crate) fn clear(&mut self)
        ensures waiting { self.new.waiting.items ≡ [] }
        ensures taken { (s : StateValue) (tick : ℕ) → IsTaken self.new.taken.items s tick
            → ⊥ }
    {
        self.arrivals.clear();
        self.waiting.clear();
        clear_taken(&mut self.taken);
    }

    /// The ticks of the last arrival that was taken in a state.
    pub(crate) fn stay_in(&self, state: State) -> Option<Stay>
        ensures { result ≡ slice_index_or self.now.taken.items (number_of state) None }
    {
        match self.taken.get(number_of(state) as usize) {
            Some(stay) => *stay,
            None => None,
        }
    }

    /// Notes an arrival at a state with this rest, unless all its ticks are taken there. Answers false where there is no room.
    pub(crate) fn offer(&mut self, arrival: Arrival, rest: Tick) -> bool
        ensures reached { IsTrue result → (tick : ℕ) → arrival.from ≤ tick
            → tick ≤ arrival.till
            → IsReached self.new arrival.state tick }
        ensures grows { Grows self.old self.new }
        ensures keyed { (rests : List (Option ℕ)) → rest_of rests arrival.state ≡ Some rest
            → KeepsKeys rests self.old self.new }
    {
        if does_hold(self.stay_in(arrival.state), arrival.from, arrival.till) {
            return true;
        }
        self.note(arrival, rest)
    }

    /// Notes an arrival at a state with this rest. Answers false where there is no room.
    pub(crate) fn note(&mut self, arrival: Arrival, rest: Tick) -> bool
        ensures waits { IsTrue result → (tick : ℕ) → arrival.from ≤ tick
            → tick ≤ arrival.till
            → Waits self.new.arrivals.items self.new.waiting.items arrival.state tick }
        ensures grows { Grows self.old self.new }
        ensures keyed { (rests : List (Option ℕ)) → rest_of rests arrival.state ≡ Some rest
            → KeepsKeys rests self.old self.new }
    {
        let number = self.arrivals.len();
        if number >= self.arrivals.capacity() || number > u32::MAX as usize {
            return false;
        }
        let one = Waiting {
            key: key_of(arrival.from, rest),
            pushes: arrival.gaps.pushes,
            rest,
            number: number as u32,
        };
        if !put(&mut self.waiting, one) {
            return false;
        }
        self.arrivals.push_reserved(arrival);
        true
    }

    /// Takes an arrival: its ticks are taken in its state from now on.
    pub(crate) fn take(&mut self, arrival: Arrival)
        ensures { Takes arrival self.old self.new }
    {
        let at = number_of(arrival.state) as usize;
        if at < self.taken.len() {
            self.taken[at] = Some(Stay {
                from: arrival.from,
                till: arrival.till,
            });
        }
    }
}
