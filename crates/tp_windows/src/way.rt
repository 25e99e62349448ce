//! Ways of a copy within the windows of kept points, and the memory of searches for them.
ghost use Rattle.std.specs.Prelude.{◌≤◌};
ghost use Rattle.tp_windows.specs.SoughtWays.{IsWay};

use crate::front::{Arrival, Front};
use crate::gaps::Ends;
use crate::pick::Pick;
use crate::sought::Sought;
use crate::way_search::find_way;
use std::alloc::{AllocError, Global};
use tp_base::Tick;
use tp_machine::Machine;

/// What a search for a way came to: the number of its last label and its end, in ticks; that there is none by the limit; or nothing, since
/// there was no room or no step left.
#[derive(Clone, Copy)]
pub(crate) enum Way {
    Found { label: u32, end: Tick },
    Never,
    GaveUp,
}

/// Where a copy can be at which ticks, while a way is sought: all memory that the search takes.
#[derive(Drop)]
pub(crate) struct Labels {
    front: Front,
    ends: Vec<Ends>,
}

/// The first tick at which the last action of an arrival may start where it ends at a tick and the copy is there from another on.
fn first_start(from: Tick, to: Arrival, end: Tick) -> Tick {
    from.max(to.start).max(end.saturating_sub(to.most))
}

/// Notes a step, unless there is no room.
fn note_pick(picks: &mut Vec<Pick>, to: Arrival, start: Tick, end: Tick) {
    let gaps = to.gaps.numbers;
    if picks.len() < picks.capacity() {
        picks.push_reserved(Pick {
            act: to.act,
            gaps,
            start,
            end,
        });
    }
}

impl Labels {
    /// Takes memory for the states of a machine and so many arrivals.
    pub(crate) fn new(
        alloc: Global,
        machine: &Machine,
        arrivals: u32,
    ) -> Result<Labels, AllocError> {
        Ok(Labels {
            front: Front::new(alloc, machine, arrivals)?,
            ends: Vec::with_capacity(alloc, arrivals as usize)?,
        })
    }

    /// Finds the way that ends first within the windows of kept points, by the limit. Steps count arrivals taken and noted.
    pub(crate) fn way(&mut self, sought: Sought<'_>, steps: &mut u32) -> Way
        ensures steps { steps.new ≤ steps.old }
        ensures way { IsWay sought.entry result }
    {
        find_way(&mut self.front, &mut self.ends, sought, steps)
    }

    /// Writes the steps of the way to a label, the last one first, each at its least ticks. Answers false where there is no room.
    pub(crate) fn trace(&self, label: u32, picks: &mut Vec<Pick>) -> bool {
        picks.clear();
        let Some(last) = self.front.arrivals.get(label as usize) else {
            return false;
        };
        let mut to = *last;
        let mut end = last.from;
        'steps: for _ in 0..picks.capacity() {
            let Some(number) = to.before else {
                return true;
            };
            let Ok(at) = usize::try_from(number) else {
                return false;
            };
            let Some(from) = self.front.arrivals.get(at) else {
                return false;
            };
            let start = first_start(from.from, to, end);
            note_pick(picks, to, start, end);
            to = *from;
            end = start;
        }
        to.before.is_none()
    }
}
