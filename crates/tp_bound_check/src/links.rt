//! The actions of a machine by where they start, and by where they lead to.
ghost use Rattle.std.specs.Prelude.{◌≡◌, ℕ, ◌+◌, ◌<◌, ◌≤◌, ◌^◌, length, map, replicate, slice_get, slice_index_or, IfOk, None, Some};
ghost use Rattle.tp_bound_check.specs.Links.{AreBelow, AreLinked, IsNextAt, ends_of, starts_of};

use std::alloc::{AllocError, Global};
use tp_base::Memory;
use tp_machine::{Action, Machine, machine_law};

/// Numbers with a location each: the first number of each location, and behind each number the next
/// one of its location.
#[derive(Drop)]
pub(crate) struct Links {
    locations: Vec<u16>,
    firsts: Vec<Option<u16>>,
    nexts: Vec<Option<u16>>,
    ghost linked: { AreLinked locations.items firsts.items nexts.items 0 },
}

fn nothings(alloc: Global, count: usize) -> Result<Vec<Option<u16>>, AllocError>
    ensures { IfOk result (λ v. v.items ≡ replicate count None) }
{
    vec![in alloc; None; count]
}

/// The location of a number.
fn location_of(locations: &[u16], at: usize) -> usize
    requires { at < length locations.now }
    ensures { slice_get locations.now at ≡ Some result }
{
    usize::from(locations[at])
}

/// Finds the first number of each location, and behind each number the next one of its location: one
/// pass over the numbers, the last one first.
fn link(locations: &[u16], firsts: &mut [Option<u16>], nexts: &mut [Option<u16>])
    requires few { length locations.now < 2 ^ 16 }
    requires known { AreBelow (length firsts.old) locations.now }
    requires room { length nexts.old ≡ length locations.now }
    requires empty { firsts.old ≡ replicate (length firsts.old) None }
    ensures { AreLinked locations.now firsts.new nexts.new 0 }
{
    let mut at = locations.len();
    'numbers: while at > 0 {
        at -= 1;
        let location = location_of(locations, at);
        nexts[at] = firsts[location];
        firsts[location] = Some(at as u16);
    }
}

fn number_at(numbers: &[Option<u16>], at: usize) -> Option<u16>
    ensures { result ≡ slice_index_or numbers.now at None }
{
    match numbers.get(at) {
        Some(number) => *number,
        None => None,
    }
}

impl Links {
    /// Numbers from 0 on, with their locations, each of which is below the count.
    fn new(alloc: Global, locations: Vec<u16>, count: usize) -> Result<Links, AllocError>
        requires few { length locations.items < 2 ^ 16 }
        requires known { AreBelow count locations.items }
        ensures { IfOk result (λ links. links.locations.items ≡ locations.items) }
    {
        let mut firsts = nothings(alloc, count)?;
        let mut nexts = nothings(alloc, locations.len())?;
        link(locations.as_slice(), &mut firsts, &mut nexts);
        Ok(Links {
            locations,
            firsts,
            nexts,
        })
    }

    /// The first number of a location.
    pub(crate) fn first(&self, location: u16) -> Option<u16>
        ensures { IsNextAt location 0 self.now.locations.items result }
    {
        number_at(self.firsts.as_slice(), usize::from(location))
    }

    /// The next number of the same location.
    pub(crate) fn after(&self, at: u16) -> Option<u16>
        ensures { (location : ℕ) → slice_get self.now.locations.items at ≡ Some location
            → IsNextAt location (at + 1) self.now.locations.items result }
    {
        number_at(self.nexts.as_slice(), usize::from(at))
    }
}

fn starts(alloc: Global, actions: &[Action]) -> Result<Vec<u16>, AllocError>
    ensures { IfOk result (λ locations. locations.items ≡ map (λ a. a.from.0) actions.now) }
{
    actions.iter().map(|action| action.from.0).collect(alloc)
}

fn ends(alloc: Global, actions: &[Action]) -> Result<Vec<u16>, AllocError>
    ensures { IfOk result (λ locations. locations.items ≡ map (λ a. a.to.0) actions.now) }
{
    actions.iter().map(|action| action.to.0).collect(alloc)
}

/// The actions by where they start.
pub(crate) fn by_start(alloc: Global, machine: &Machine) -> Result<Links, Memory>
    ensures { IfOk result (λ links. links.locations.items ≡ starts_of machine.now) }
{
    machine_law(machine);
    let locations = starts(alloc, machine.actions.as_slice())?;
    Ok(Links::new(alloc, locations, machine.locations.len() as usize)?)
}

/// The actions by where they lead to.
pub(crate) fn by_end(alloc: Global, machine: &Machine) -> Result<Links, Memory>
    ensures { IfOk result (λ links. links.locations.items ≡ ends_of machine.now) }
{
    machine_law(machine);
    let locations = ends(alloc, machine.actions.as_slice())?;
    Ok(Links::new(alloc, locations, machine.locations.len() as usize)?)
}
