//! The stock of feeders as it is kept: what is free at each, and the refills by which so much is.

ghost use Rattle.std.specs.Prelude.{◌≡◌, ◌<◌, ◌≤ℤ◌, IfOk, IfSome, get_or, map, option_map, pos};
ghost use Rattle.tp_machine.specs.Limits.{most_locations};
ghost use Rattle.tp_session_standing.specs.StandingStates.{count_of, free_sheets, refill_at, refill_by};
ghost use Rattle.tp_stock.specs.Stock.{IsBounded, by_location, free_of, most_stocked, refilled, taken_at};
ghost use Rattle.tp_event_rules.specs.LiveStates.{seen};
ghost use Rattle.tp_event_rules.specs.Ready.{KeepsStock, last_copy};

use std::alloc::Global;
use tp_base::{Items, Memory};
use tp_event_rules::LiveState;
use tp_jobs::StockRows;
use tp_machine::{Feeder, Machine, machine_law};
use tp_schedule::Schedule;
use tp_stock::{Refills, Taken, count_taken, free_stock};

/// A free stock as a count.
fn count_of(free: i64) -> u32
    requires some { pos 0 ≤ℤ free }
    requires few { free ≤ℤ pos most_stocked }
    ensures { result ≡ count_of free }
{
    free as u32
}

/// What is free at the feeder, where so many sheets were taken.
fn free_at(refills: &Refills, taken: &Taken, feeder: &Feeder) -> Option<u32>
    requires bounded { IsBounded refills.now.0 }
    requires known { feeder.now.loc.0 < most_locations }
    requires some { IfSome (free_of feeder.now.stock (refilled refills.now.0 feeder.now.loc.0)
        (get_or taken.now.0 feeder.now.loc.0 0)) (λ free. pos 0 ≤ℤ free) }
    requires few { IfSome (free_of feeder.now.stock (refilled refills.now.0 feeder.now.loc.0)
        (get_or taken.now.0 feeder.now.loc.0 0)) (λ free. free ≤ℤ pos most_stocked) }
    ensures { result ≡ option_map count_of (free_of feeder.now.stock
        (refilled refills.now.0 feeder.now.loc.0) (get_or taken.now.0 feeder.now.loc.0 0)) }
{
    match free_stock(refills, taken, feeder) {
        Some(free) => Some(count_of(free)),
        None => None,
    }
}

/// What is free at each feeder of the machine. Takes the time of the live plans and of the feeders.
pub(crate) fn stock_rows(
    alloc: Global,
    machine: &Machine,
    state: &LiveState,
) -> Result<StockRows, Memory>
    requires stocked { KeepsStock machine.now last_copy (seen state.now) }
    ensures { IfOk result (λ rows.
        rows ≡ map (free_sheets machine.now (seen state.now)) machine.now.feeders) }
{
    machine_law(machine);
    let taken = count_taken(machine, &state.schedule);
    let mut rows = Items::new(alloc);
    'feeders: for at in 0..machine.feeders.len() {
        rows.push(free_at(&state.refills, &taken, machine.feeders.get(at)))?;
    }
    Ok(rows)
}

/// The refills by which so much of the stock is free where so many sheets were taken.
fn refill_by(taken: u32, stock: Option<u32>, free: Option<u32>) -> i64
    ensures { result ≡ refill_by taken stock free }
{
    match (stock, free) {
        (Some(stock), Some(free)) => i64::from(free) + i64::from(taken) - i64::from(stock),
        (Some(_), None) | (None, _) => 0,
    }
}

/// The refills at a location.
fn refill_at(taken: u32, loc: u16, feeders: &[Feeder], stock: &[Option<u32>]) -> i64
    ensures { result ≡ refill_at taken loc feeders.now stock.now }
{
    let [feeder, feeders @ ..] = feeders else {
        return 0;
    };
    let [free, stock @ ..] = stock else {
        return 0;
    };
    if feeder.loc.0 == loc {
        refill_by(taken, feeder.stock, *free)
    } else {
        refill_at(taken, loc, feeders, stock)
    }
}

/// The refills by which so much is free at the feeders of the machine where these plans took their sheets.
pub(crate) fn refills_of(machine: &Machine, plans: &Schedule, stock: &[Option<u32>]) -> Refills
    ensures { result.0 ≡ by_location (λ loc. refill_at (taken_at machine.now plans.now.plans loc)
        loc machine.now.feeders stock.now) }
{
    let taken = count_taken(machine, plans);
    let feeders = machine.feeders.as_slice();
    let mut refills = [0i64; 256];
    'locations: for at in 0..256u16 {
        let place = usize::from(at);
        refills[place] = refill_at(taken.0[place], at, feeders, stock);
    }
    Refills(refills)
}
