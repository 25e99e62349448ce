//! What is left at a feeder.

ghost use Rattle.std.specs.Prelude.{◌≡◌, ◌<◌, ◌≤ℤ◌, Some, option_map, pos};
ghost use Rattle.tp_machine.specs.Limits.{most_locations};
ghost use Rattle.tp_session.specs.Stocks.{IsFreeOf};
ghost use Rattle.tp_stock.specs.Stock.{feeder_at, free_stock, most_stocked};
ghost use Rattle.tp_event_rules.specs.LiveStates.{seen};
ghost use Rattle.tp_event_rules.specs.Ready.{KeepsStock, last_copy};

use tp_event_rules::LiveState;
use tp_machine::{Feeder, LocId, Machine};
use tp_stock::{count_taken, feeder_at, free_stock};

/// The free stock of the feeder at the location.
pub(crate) fn free_sheets(machine: &Machine, state: &LiveState, loc: LocId) -> Option<u32>
    requires stocked { KeepsStock machine.now last_copy (seen state.now) }
    ensures { IsFreeOf machine.now (seen state.now) loc result }
{
    match feeder_at(machine, loc) {
        Some(feeder) => free_at_feeder(machine, state, loc, &feeder),
        None => None,
    }
}

/// The free stock of this feeder at the location.
fn free_at_feeder(machine: &Machine, state: &LiveState, loc: LocId, feeder: &Feeder) -> Option<u32>
    requires stocked { KeepsStock machine.now last_copy (seen state.now) }
    requires there { feeder_at machine.now loc.0 ≡ Some feeder.now }
    requires known { feeder.now.loc.0 < most_locations }
    ensures { option_map pos result
        ≡ free_stock machine.now state.now.refills.0 state.now.schedule.plans feeder.now }
{
    let taken = count_taken(machine, &state.schedule);
    match free_stock(&state.refills, &taken, feeder) {
        Some(free) => Some(count_of(free)),
        None => None,
    }
}

/// A free stock as a count.
fn count_of(free: i64) -> u32
    requires some { pos 0 ≤ℤ free }
    requires few { free ≤ℤ pos most_stocked }
    ensures { pos result ≡ free }
{
    free as u32
}
