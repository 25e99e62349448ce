//! Whether the times of a schedule are those that are wanted.
ghost use Rattle.std.specs.Prelude.{◌≤◌, ◌↔◌, IfOk, IfSome, IsNone};
ghost use Rattle.tp_schedule.specs.Legality.{IsLegal};
ghost use Rattle.tp_schedule.specs.PlannerAnswers.{last_tick};
ghost use Rattle.tp_schedule_check.specs.Faults.{HasOrders, HasTimes, IsBoundsFault, IsTimesFault, KeepsBounds};

use crate::fault::Fault;
use crate::{find_below_floor, find_clash, find_early, find_parting, find_past_horizon};
use std::alloc::Global;
use tp_base::{Memory, Tick};
use tp_machine::Machine;
use tp_schedule::{Ask, Schedule, SheetId};

/// For which moment times are wanted, the ask whose new holds are in no order yet, and the copy whose starts have no floors.
#[derive(Clone, Copy)]
pub(crate) struct Wanted {
    pub(crate) moment: Tick,
    pub(crate) asked: Option<Ask>,
    pub(crate) exempt: Option<SheetId>,
}

/// What is wrong in a legal schedule that keeps floors and horizon.
fn find_in_orders(
    alloc: Global,
    machine: &Machine,
    wanted: &Wanted,
    before: &Schedule,
    after: &Schedule,
) -> Result<Option<Fault>, Memory>
    requires moment { wanted.now.moment ≤ last_tick }
    requires before { IsLegal machine.now before.now.plans }
    requires after { IsLegal machine.now after.now.plans }
    requires bounds { KeepsBounds machine.now wanted.now after.now.plans }
    ensures right { IfOk result (λ found. IsNone found
        ↔ HasOrders machine.now wanted.now before.now.plans after.now.plans) }
    ensures fault { IfOk result (λ found. IfSome found
        (IsTimesFault machine.now wanted.now before.now.plans after.now.plans)) }
{
    match find_parting(alloc, machine, wanted.asked, before, after)? {
        Some(parting) => return Ok(Some(Fault::Order(parting))),
        None => {}
    }
    match find_early(alloc, machine, wanted.moment, wanted.exempt, after)? {
        Some(early) => Ok(Some(Fault::Early(early))),
        None => Ok(None),
    }
}

/// What breaks floors or horizon.
fn find_out_of_bounds(machine: &Machine, wanted: &Wanted, after: &Schedule) -> Option<Fault>
    ensures right { IsNone result ↔ KeepsBounds machine.now wanted.now after.now.plans }
    ensures fault { IfSome result (IsBoundsFault machine.now wanted.now after.now.plans) }
{
    match find_below_floor(machine, wanted.moment, wanted.exempt, after) {
        Some(point) => return Some(Fault::Floor(point)),
        None => {}
    }
    match find_past_horizon(machine, wanted.moment, after) {
        Some(point) => Some(Fault::Horizon(point)),
        None => None,
    }
}

/// What is wrong in a legal schedule.
fn find_in_legal(
    alloc: Global,
    machine: &Machine,
    wanted: &Wanted,
    before: &Schedule,
    after: &Schedule,
) -> Result<Option<Fault>, Memory>
    requires moment { wanted.now.moment ≤ last_tick }
    requires before { IsLegal machine.now before.now.plans }
    requires after { IsLegal machine.now after.now.plans }
    ensures right { IfOk result (λ found. IsNone found
        ↔ HasTimes machine.now wanted.now before.now.plans after.now.plans) }
    ensures fault { IfOk result (λ found. IfSome found
        (IsTimesFault machine.now wanted.now before.now.plans after.now.plans)) }
{
    match find_out_of_bounds(machine, wanted, after) {
        Some(fault) => Ok(Some(fault)),
        None => find_in_orders(alloc, machine, wanted, before, after),
    }
}

/// What is wrong with the times of the second schedule, or None exactly where they are those that are wanted.
pub(crate) fn find_in_times(
    alloc: Global,
    machine: &Machine,
    wanted: &Wanted,
    before: &Schedule,
    after: &Schedule,
) -> Result<Option<Fault>, Memory>
    requires moment { wanted.now.moment ≤ last_tick }
    requires before { IsLegal machine.now before.now.plans }
    ensures right { IfOk result (λ found. IsNone found
        ↔ HasTimes machine.now wanted.now before.now.plans after.now.plans) }
    ensures fault { IfOk result (λ found. IfSome found
        (IsTimesFault machine.now wanted.now before.now.plans after.now.plans)) }
{
    match find_clash(alloc, machine, after)? {
        Some(clash) => Ok(Some(Fault::Clash(clash))),
        None => find_in_legal(alloc, machine, wanted, before, after),
    }
}
