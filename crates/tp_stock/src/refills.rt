//! The refills of feeders.
ghost use Rattle.std.specs.Prelude.{◌≡◌, ℕ, ◌<◌, ◌^◌, Bool, false, List, filter, get_or, not};
ghost use Rattle.tp_machine.specs.Limits.{most_locations};
ghost use Rattle.tp_schedule.specs.declared.parts.Plan.{Plan};
ghost use Rattle.tp_stock.specs.Stock.{IsBounded, by_location, is_counted, left_of, less_taken, more_at, refilled, taken_at};

use crate::taken::{MOST_LOCATIONS, Taken, count_taken};
use tp_machine::{LocId, Machine};
use tp_schedule::Schedule;

/// For the feeder at each location the sum of its refills, less the sheets that plans took which are forgotten. So a number
/// may be below 0.
#[derive(Clone, Copy, Debug)]
pub struct Refills(pub [i64; MOST_LOCATIONS]);

/// At which locations sheets are counted.
fn counted_locations(machine: &Machine) -> [bool; MOST_LOCATIONS]
    ensures { result ≡ by_location (is_counted machine.now) }
{
    let mut counted = [false; MOST_LOCATIONS];
    'feeders: for feeder in machine.feeders.as_slice() {
        if feeder.stock.is_some() && feeder.loc.0 < 256 {
            counted[usize::from(feeder.loc.0)] = true;
        }
    }
    counted
}

/// The refills where so much was taken before, and so much of it still is, at the locations where sheets are counted.
fn less(
    refills: &Refills,
    counted: &[bool; MOST_LOCATIONS],
    before: &Taken,
    after: &Taken,
) -> Refills
    requires bounded { IsBounded refills.now.0 }
    ensures { result.0 ≡ by_location (λ loc. left_of (get_or counted.now loc false)
        (refilled refills.now.0 loc) (get_or before.now.0 loc 0) (get_or after.now.0 loc 0)) }
{
    let mut left = refills.0;
    'locations: for at in 0..MOST_LOCATIONS {
        if counted[at] {
            left[at] = refills.0[at] + i64::from(after.0[at]) - i64::from(before.0[at]);
        }
    }
    Refills(left)
}

impl Refills {
    ghost use Rattle.tp_stock.specs.Stock.{no_refills};

    /// No feeder has been refilled.
    pub fn none() -> Refills
        ensures { result.0 ≡ no_refills }
    {
        Refills([0; MOST_LOCATIONS])
    }

    /// The refills with so many sheets more at a location.
    pub fn add(&self, loc: LocId, count: u32) -> Refills
        requires bounded { IsBounded self.now.0 }
        requires known { loc.0 < most_locations }
        requires small { count < 2 ^ 32 }
        ensures { result.0 ≡ more_at loc.0 count self.now.0 }
    {
        let mut refills = self.0;
        refills[usize::from(loc.0)] += i64::from(count);
        Refills(refills)
    }

    /// The refills once only these plans are left of those that were counted before: what the others took is taken off.
    /// Takes the time of all plans that are left.
    pub fn forget(&self, machine: &Machine, before: &Taken, left: &Schedule) -> Refills
        requires bounded { IsBounded self.now.0 }
        ensures { (plans : List Plan) (stays : Plan → Bool)
            → before.now.0 ≡ by_location (taken_at machine.now plans)
            → left.now.plans ≡ filter stays plans
            → result.0 ≡ less_taken machine.now
            (filter (λ p. not (stays p)) plans) self.now.0 }
    {
        let after = count_taken(machine, left);
        less(self, &counted_locations(machine), before, &after)
    }
}
