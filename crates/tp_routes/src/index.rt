//! The actions by the location that they start from, or by the one that they lead to.
ghost use Rattle.std.specs.Prelude.{◌≡◌, ◌<◌, ◌≤◌, None, length, option_map, replicate, slice_get, IfOk, IfSome};
ghost use Rattle.tp_machine.specs.Limits.{most_actions};
ghost use Rattle.tp_routes.specs.Index.{AreIndexed, IsIndexOf, location_at, number_at};

use std::alloc::{AllocError, Global};
use tp_machine::{ActId, LocId, Machine};

/// A machine has at most so many actions: an index has room for so many.
pub const MOST_ACTIONS: usize = 512;

/// An end of an action: where it starts, or where it leads.
#[derive(Clone, Copy)]
pub enum ActEnd {
    From,
    To,
}

/// The actions of a machine by the location at one of their ends.
#[derive(Drop)]
pub struct ActionIndex {
    /// The first action at each location.
    pub firsts: Vec<Option<u16>>,
    /// Behind each action the next one at the same location.
    pub nexts: Vec<Option<u16>>,
}

impl ActionIndex {
    /// An index for machines with so many locations. It takes all the memory that it will ever need, and has no action before `fill`.
    pub fn new(alloc: Global, locations: u32) -> Result<ActionIndex, AllocError>
        ensures no_first { IfOk result (λ i. i.firsts.items ≡ replicate locations None) }
        ensures no_next { IfOk result (λ i. i.nexts.items ≡ replicate most_actions None) }
    {
        Ok(ActionIndex {
            firsts: no_numbers(alloc, locations as usize)?,
            nexts: no_numbers(alloc, MOST_ACTIONS)?,
        })
    }

    /// Indexes the actions of the machine by this end, in place of what was there.
    pub fn fill(&mut self, machine: &Machine, end: ActEnd)
        requires locations { length self.old.firsts.items ≡ length machine.now.locations }
        requires room { length self.old.nexts.items ≡ most_actions }
        ensures index { IsIndexOf end machine.now self.new.firsts.items self.new.nexts.items }
        ensures room { length self.new.nexts.items ≡ most_actions }
    {
        index_actions(machine, end, &mut self.firsts, &mut self.nexts);
    }

    /// The first action at the location, if there is one.
    pub fn first(&self, loc: LocId) -> Option<ActId>
        ensures { option_map (λ act. act.0) result ≡ number_at self.now.firsts.items loc.0 }
    {
        match self.firsts.get(usize::from(loc.0)) {
            Some(first) => first.map(ActId),
            None => None,
        }
    }

    /// Behind an action the next one at the same location, if there is one.
    pub fn next(&self, act: ActId) -> Option<ActId>
        ensures { option_map (λ act. act.0) result ≡ number_at self.now.nexts.items act.0 }
    {
        match self.nexts.get(usize::from(act.0)) {
            Some(next) => next.map(ActId),
            None => None,
        }
    }
}

/// A list of so many numbers that are not known yet.
fn no_numbers(alloc: Global, count: usize) -> Result<Vec<Option<u16>>, AllocError>
    ensures { IfOk result (λ v. v.items ≡ replicate count None) }
{
    vec![in alloc; None; count]
}

/// Finds the first action at each location, and behind each action the next one at the same
/// location: one pass over the actions, the last one first.
fn index_actions(
    machine: &Machine,
    end: ActEnd,
    firsts: &mut [Option<u16>],
    nexts: &mut [Option<u16>],
)
    requires locations { length firsts.old ≡ length machine.now.locations }
    requires room { length machine.now.actions ≤ length nexts.old }
    ensures { AreIndexed end machine.now.actions firsts.new nexts.new 0 }
{
    clear(firsts);
    let mut at = machine.actions.len();
    'actions: while at > 0 {
        at -= 1;
        let location = location_of(machine, end, at);
        nexts[at as usize] = firsts[location];
        firsts[location] = Some(at as u16);
    }
}

fn clear(numbers: &mut [Option<u16>])
    ensures { numbers.new ≡ replicate (length numbers.old) None }
{
    numbers.fill(None);
}

/// The location at this end of an action.
fn location_of(machine: &Machine, end: ActEnd, at: u32) -> usize
    requires { at < length machine.now.actions }
    ensures location { IfSome (slice_get machine.now.actions at)
        (λ action. result ≡ location_at end action) }
    ensures within { result < length machine.now.locations }
{
    let action = machine.actions.get(at);
    match end {
        ActEnd::From => usize::from(action.from.0),
        ActEnd::To => usize::from(action.to.0),
    }
}
