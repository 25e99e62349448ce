//! How many sheets plans took at each location.
ghost use Rattle.std.specs.Prelude.{◌≡◌, option_and_then, option_map, slice_get};
ghost use Rattle.tp_machine.specs.ModuleUse.{action_at};
ghost use Rattle.tp_stock.specs.Stock.{by_location, taken_at};

use tp_machine::{LocId, Machine};
use tp_schedule::{Plan, Schedule};

/// The most locations of a machine.
pub(crate) const MOST_LOCATIONS: usize = 256;

/// The number of plans that begin at each location.
#[derive(Clone, Copy, Debug)]
pub struct Taken(pub [u32; MOST_LOCATIONS]);

/// Where the plan begins.
fn first_location(machine: &Machine, plan: &Plan) -> Option<LocId>
    ensures { result ≡ option_map (λ a. a.from)
        (option_and_then (λ act. action_at machine.now act.0) (slice_get plan.now.acts 0)) }
{
    let act = plan.acts.as_slice().first()?;
    let action = machine.actions.as_slice().get(usize::from(act.0))?;
    Some(action.from)
}

/// Counts the plans that begin at each location. Takes the time of all plans, and no memory.
pub fn count_taken(machine: &Machine, schedule: &Schedule) -> Taken
    ensures { result.0 ≡ by_location (taken_at machine.now schedule.now.plans) }
{
    let mut counts = [0u32; MOST_LOCATIONS];
    'plans: for at in 0..schedule.len() {
        match first_location(machine, schedule.plan_at(at)) {
            Some(loc) => {
                if loc.0 < 256 {
                    counts[usize::from(loc.0)] += 1;
                }
            }
            None => {}
        }
    }
    Taken(counts)
}
