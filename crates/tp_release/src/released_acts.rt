//! Actions that are released for good.

ghost use Rattle.std.specs.Prelude.{◌≡◌, map};
ghost use Rattle.tp_schedule.specs.Plans.{IsFormed};
ghost use Rattle.tp_event_rules.specs.Moments.{release_until};

use tp_base::Tick;
use tp_schedule::{Plan, Schedule};

/// How many actions of the plan are released once those that start at the tick or before are.
fn count_released(plan: &Plan, last: Tick) -> u32
    requires formed { IsFormed plan.now }
    ensures { result ≡ (release_until last plan.now).released }
{
    let mut released = plan.released;
    for at in plan.released..plan.acts.len() {
        if plan.points.get(at) <= last {
            released += 1;
        }
    }
    released
}

/// Releases the actions of all plans that start at the tick or before. Takes no memory.
pub(crate) fn release_all(schedule: &mut Schedule, last: Tick)
    ensures plans { schedule.new.plans ≡ map (release_until last) schedule.old.plans }
    ensures spare { schedule.new.spare ≡ schedule.old.spare }
{
    for at in 0..schedule.len() {
        let count = count_released(schedule.plan_at(at), last);
        schedule.freeze_at(at, count);
    }
}
