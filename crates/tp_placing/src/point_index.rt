//! Which point of the network a point of a plan is.
ghost use Rattle.std.specs.Prelude.{◌≡◌, ◌^◌, ◌<◌, ◌≤◌, AllPairs, length, slice_get, Some, IsSomeAnd};
ghost use Rattle.tp_schedule.specs.Plans.{IsEarlier, plan_of};
ghost use Rattle.tp_schedule.specs.Spots.Spot.{kept};
ghost use Rattle.tp_constraints.specs.Numbers.{table_of};
ghost use Rattle.tp_placing.specs.LoadedBoard.{AreFirsts};

use tp_base::PointId;
use tp_schedule::{Plan, SheetId, copy_place};

/// The point of this number of a copy's plan.
pub(crate) fn point_of(plans: &[Plan], firsts: &[PointId], copy: SheetId, at: u32) -> PointId
    requires in_order { AllPairs IsEarlier plans.now }
    requires firsts { AreFirsts 0 plans.now firsts.now }
    requires there { IsSomeAnd (plan_of copy plans.now) (λ p. at ≤ length p.acts) }
    requires few { length (table_of plans.now) < 2 ^ 32 }
    ensures { slice_get (table_of plans.now) result.0 ≡ Some (kept copy at) }
{
    match copy_place(plans, copy) {
        Some(place) => PointId(firsts[place].0 + at),
        None => unreachable!(),
    }
}
