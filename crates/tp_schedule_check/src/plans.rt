//! The plan of a copy, and the actions of plans.
ghost use Rattle.std.specs.Prelude.{◌≡◌, ◌↔◌, IfSome, IsTrue, option_copied};
ghost use Rattle.tp_schedule.specs.Plans.{IsFormed, plan_of};

use tp_machine::ActId;
use tp_schedule::{Plan, Schedule, SheetId};

/// The plan that the copy has in the schedule, if it has one.
pub fn plan_of(schedule: &Schedule, copy: SheetId) -> Option<&Plan>
    ensures plan { option_copied result ≡ plan_of copy schedule.now.plans }
    ensures formed { IfSome (option_copied result) IsFormed }
{
    match schedule.find(copy) {
        Some(at) => Some(schedule.plan_at(at)),
        None => None,
    }
}

/// Whether both lists are the same.
pub(crate) fn are_same_acts(one: &[ActId], other: &[ActId]) -> bool
    ensures { IsTrue result ↔ (other.now ≡ one.now) }
{
    other == one
}
