//! The start states of an ask.
ghost use Rattle.std.specs.Prelude.{◌≡◌, ℕ, ◌*◌, ◌<◌, ◌≤◌, None, length, replicate, vec_capacity, [], ◌↔◌, IsTrue, IsFalse};
ghost use Rattle.tp_schedule.specs.LocationSets.{has};
ghost use Rattle.tp_routes.specs.Tables.{IsKnownOrigin};
ghost use Rattle.tp_routes.specs.FilledRooms.{IsFilling, IsSpreadTo, StartsAreIn};

use crate::relaxation::offer;
use tp_machine::{Feeder, Machine};
use tp_schedule::{Ask, Origin, new_sheet};

/// Puts the start states of the ask into an empty table, with the sum 0.
pub(crate) fn start(machine: &Machine, ask: &Ask, sums: &mut [Option<u32>], waiting: &mut Vec<u32>)
    requires states { length sums.old ≡ 8 * length machine.now.locations }
    requires empty { sums.old ≡ replicate (length sums.old) None }
    requires none { waiting.old.items ≡ [] }
    requires room { length sums.old ≤ vec_capacity waiting.old }
    requires origin { IsKnownOrigin machine.now ask.now.origin }
    ensures filling { IsFilling machine.now ask.entry.now sums.new waiting.new.items }
    ensures spread { (busy : ℕ) → IsSpreadTo machine.now ask.entry.now sums.new
        waiting.new.items
        busy (length machine.now.actions) }
    ensures starts { StartsAreIn machine.now ask.entry.now sums.new }
    ensures room { length sums.new ≤ vec_capacity waiting.new }
{
    match ask.origin {
        Origin::Front { state, .. } => offer(machine, ask, sums, waiting, state, 0),
        Origin::Feeder => start_fresh(machine, ask, sums, waiting),
    }
}

/// Whether a new copy may begin at the feeder.
fn may_begin(ask: &Ask, feeder: &Feeder) -> bool
    ensures { IsTrue result ↔ ((feeder.now.media ≡ ask.entry.now.want.media)
        × IsFalse (has ask.entry.now.empty feeder.now.loc)) }
{
    feeder.media == ask.want.media && ask.may_begin_at(feeder.loc)
}

/// Puts a new sheet at each feeder of the ask's media that isn't empty into the table.
fn start_fresh(machine: &Machine, ask: &Ask, sums: &mut [Option<u32>], waiting: &mut Vec<u32>)
    requires filling { IsFilling machine.now ask.now sums.old waiting.old.items }
    requires spread { (busy : ℕ) → IsSpreadTo machine.now ask.now sums.old
        waiting.old.items busy
        (length machine.now.actions) }
    requires room { length sums.old ≤ vec_capacity waiting.old }
    requires fresh { ask.now.origin ≡ Origin.Feeder }
    ensures filling { IsFilling machine.now ask.entry.now sums.new waiting.new.items }
    ensures spread { (busy : ℕ) → IsSpreadTo machine.now ask.entry.now sums.new
        waiting.new.items
        busy (length machine.now.actions) }
    ensures starts { StartsAreIn machine.now ask.entry.now sums.new }
    ensures room { length sums.new ≤ vec_capacity waiting.new }
{
    'feeders: for feeder in machine.feeders.as_slice() {
        if may_begin(ask, feeder) {
            offer(machine, ask, sums, waiting, new_sheet(feeder.loc), 0);
        }
    }
}
