//! Plans in their times.
ghost use Rattle.std.specs.Prelude.{◌↔◌, All, IsTrue};
ghost use Rattle.tp_snapshot_rules.specs.Rules.{AreOnTheirWay, IsOnItsWay};

use tp_base::Tick;
use tp_jobs::Standing;
use tp_machine::Machine;
use tp_schedule::{Plan, is_plan_live};
use tp_schedule_check::is_timed_plan;

fn is_on_its_way(machine: &Machine, now: Tick, plan: &Plan) -> bool
    ensures { IsTrue result ↔ IsOnItsWay machine.now now plan.now }
{
    let timed = is_timed_plan(machine, plan);
    let live = is_plan_live(machine, now, plan);
    timed && live
}

fn are_all(machine: &Machine, now: Tick, plans: &[Plan]) -> bool
    ensures { IsTrue result ↔ All (IsOnItsWay machine.now now) plans.now }
{
    for plan in plans {
        if !is_on_its_way(machine, now, plan) {
            return false;
        }
    }
    true
}

/// Whether each plan is a timed plan, and live.
pub(crate) fn are_on_their_way(machine: &Machine, standing: &Standing) -> bool
    ensures { IsTrue result ↔ AreOnTheirWay machine.now standing.entry.now }
{
    are_all(machine, standing.now, standing.plans.as_slice())
}
