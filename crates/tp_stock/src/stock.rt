//! What is left at a feeder, and which feeders are empty.
ghost use Rattle.std.specs.Prelude.{◌≡◌, ◌<◌, ◌==◌, IfSome, find, get_or, is_some};
ghost use Rattle.std.specs.List.{list_any};
ghost use Rattle.tp_machine.specs.Limits.{most_locations};
ghost use Rattle.tp_stock.specs.Stock.{IsBounded, empties, feeder_at, feeder_named, free_of, refilled};

use crate::refills::Refills;
use crate::taken::{Taken, count_taken};
use tp_base::Name;
use tp_machine::{Feeder, LocId, Machine, machine_law};
use tp_schedule::{Empties, Schedule};

/// The free stock of a feeder, in sheets: its stock and its refills, less what was taken there. None where it is endless.
pub fn free_stock(refills: &Refills, taken: &Taken, feeder: &Feeder) -> Option<i64>
    requires bounded { IsBounded refills.now.0 }
    requires known { feeder.now.loc.0 < most_locations }
    ensures { result ≡ free_of feeder.now.stock (refilled refills.now.0 feeder.now.loc.0)
        (get_or taken.now.0 feeder.now.loc.0 0) }
{
    let at = usize::from(feeder.loc.0);
    match feeder.stock {
        Some(stock) => Some(i64::from(stock) + refills.0[at] - i64::from(taken.0[at])),
        None => None,
    }
}

fn first_at(feeders: &[Feeder], loc: u16) -> Option<Feeder>
    ensures { result ≡ find (λ f. f.loc.0 == loc) feeders.now }
{
    feeders.iter().copied().find(|feeder| feeder.loc.0 == loc)
}

/// The feeder at a location. None where none is there.
pub fn feeder_at(machine: &Machine, loc: LocId) -> Option<Feeder>
    ensures is { result ≡ feeder_at machine.now loc.0 }
    ensures known { IfSome result (λ f. f.loc.0 < most_locations) }
{
    first_at(machine.feeders.as_slice(), loc.0)
}

/// The feeder at the location with this name. None where the name is no location's, or no feeder is there.
pub fn feeder_named(machine: &Machine, name: &Name) -> Option<Feeder>
    ensures is { result ≡ feeder_named machine.now name.now }
    ensures known { IfSome result (λ f. f.loc.0 < most_locations) }
{
    let loc = machine.locations.find(name)?;
    feeder_at(machine, LocId(loc))
}

/// Whether a feeder is not endless.
fn has_stock(machine: &Machine) -> bool
    ensures { result ≡ list_any (λ f. is_some f.stock) machine.now.feeders }
{
    machine
        .feeders
        .as_slice()
        .iter()
        .any(|feeder| feeder.stock.is_some())
}

/// The feeders that are empty where these plans took their sheets. Takes the time of the feeders, and of the plans where not all
/// feeders are endless.
pub fn empty_feeders(machine: &Machine, refills: &Refills, schedule: &Schedule) -> Empties
    requires bounded { IsBounded refills.now.0 }
    ensures { result ≡ empties machine.now refills.now.0 schedule.now.plans }
{
    machine_law(machine);
    if !has_stock(machine) {
        return Empties::none();
    }
    let taken = count_taken(machine, schedule);
    let mut empty = Empties::none();
    'feeders: for feeder in machine.feeders.as_slice() {
        if free_stock(refills, &taken, feeder) == Some(0) {
            empty = empty.with(feeder.loc);
        }
    }
    empty
}
