//! The rules from 7 on, in their order.
ghost use Rattle.std.specs.Prelude.{◌≡◌, ◌≤◌, AllPairs, IfOk, IfSome, None, length};
ghost use Rattle.tp_schedule.specs.Answers.{KeepsFloors};
ghost use Rattle.tp_schedule.specs.Limits.{most_live};
ghost use Rattle.tp_schedule.specs.PlannerAnswers.{last_tick, none_exempt};
ghost use Rattle.tp_snapshot_rules.specs.Rules.{AreInOrder, AreKeptTo, AreOnTheirWay, IsFirstBroken, WaitsBefore};

use crate::copies::keeps_copies;
use crate::courses::are_on_their_way;
use crate::schedule::{keeps_schedule, keeps_times};
use std::alloc::Global;
use tp_base::Memory;
use tp_jobs::Standing;
use tp_machine::Machine;

/// The number of the first rule from 7 on that the standing breaks, if it breaks one. Takes time in proportion to the plans, points
/// and holds and their sort, and to the copies that wait.
pub fn first_broken(
    alloc: Global,
    machine: &Machine,
    standing: &Standing,
) -> Result<Option<u8>, Memory>
    requires moment { standing.now.now ≤ last_tick }
    requires few { length standing.now.plans ≤ most_live }
    requires plans { AreInOrder standing.now.plans }
    requires waiting { AllPairs WaitsBefore standing.now.waiting }
    requires floors { AreOnTheirWay machine.now standing.now
        → KeepsFloors machine.now standing.now.now none_exempt standing.now.plans }
    ensures kept { IfOk result (λ rule. rule ≡ None
        → AreKeptTo 10 machine.now standing.entry.now) }
    ensures broken { IfOk result (λ rule. IfSome rule
        (λ n. IsFirstBroken n machine.now standing.entry.now)) }
{
    if !are_on_their_way(machine, standing) {
        return Ok(Some(7));
    }
    let schedule = keeps_schedule(alloc, machine, standing)?;
    if !schedule {
        return Ok(Some(8));
    }
    if !keeps_copies(standing) {
        return Ok(Some(9));
    }
    let times = keeps_times(alloc, machine, standing)?;
    if times { Ok(None) } else { Ok(Some(10)) }
}
