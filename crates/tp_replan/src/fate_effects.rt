//! What befalls all copies at once.

ghost use Rattle.std.specs.Prelude.{◌≡◌, ◌+◌, ◌<◌, ◌≤◌, ◌^◌, length, All, OnOk};
ghost use Rattle.tp_schedule.specs.declared.parts.Plan.{Plan};
ghost use Rattle.tp_event_rules.specs.Fates.{Fate as Befalls, befall, waits_for};
ghost use Rattle.tp_event_rules.specs.Lines.{put_all_waiting};
ghost use Rattle.tp_event_rules.specs.LiveStates.{seen};
ghost use Rattle.tp_event_rules.specs.Seen.{HasNextCopy};
ghost use Rattle.tp_replan.specs.Meanings.{AreCutStarted, AreFates, CanAllWait};
ghost use Rattle.tp_replan.specs.Meanings.{IsKnown, meant, waits_in};
ghost use Rattle.tp_replan.specs.Open.{most_waiting};

use crate::fate::Fate;
use crate::lost_copies::lost_by;
use crate::remaining_plans::leave_all;
use std::alloc::Global;
use tp_base::Memory;
use tp_event_rules::LiveState;
use tp_jobs::Lines;
use tp_schedule::{Plan, Schedule};

/// What waits after the fate of the plan's copy.
fn wait_one(lines: &mut Lines, plan: &Plan, fate: Fate) -> Result<(), Memory>
    requires known { IsKnown lines.old.jobs plan.now }
    requires next { HasNextCopy plan.now.sheet }
    requires can_wait { CanAllWait lines.old.waiting (waits_for plan.now (meant fate)) }
    requires room { length lines.old.waiting + 1 < 2 ^ 32 }
    ensures waits { OnOk result (lines.new ≡ record lines.old {
      waiting = put_all_waiting lines.old.waiting (waits_for plan.now (meant fate));
    }) }
    ensures marked { lines.new.kept ≡ lines.old.kept }
{
    match fate {
        Fate::Stays | Fate::Lost | Fate::Cut | Fate::Purged | Fate::Dropped => Ok(()),
        Fate::Withdrawn => lines.wait(plan.sheet, plan.want),
        Fate::Replaced => {
            lines.again(plan.sheet, plan.want)?;
            Ok(())
        }
    }
}

/// What waits after the fates of all copies.
fn wait_all(schedule: &Schedule, lines: &mut Lines, fates: &[Fate]) -> Result<(), Memory>
    requires each { length fates.now ≡ length schedule.now.plans }
    requires known { All (IsKnown lines.old.jobs) schedule.now.plans }
    requires next { All (λ p. HasNextCopy p.sheet) schedule.now.plans }
    requires can_wait { CanAllWait lines.old.waiting (waits_in schedule.now.plans fates.now) }
    requires room { length lines.old.waiting + length (waits_in schedule.now.plans fates.now)
        ≤ most_waiting }
    ensures waits { OnOk result (lines.new ≡ record lines.old {
      waiting = put_all_waiting lines.old.waiting (waits_in schedule.now.plans fates.now);
    }) }
    ensures marked { lines.new.kept ≡ lines.old.kept }
{
    for at in 0..schedule.len() {
        wait_one(lines, schedule.plan_at(at), fates[at as usize])?;
    }
    Ok(())
}

/// Each copy that has a plan meets its fate. It appends no record.
///
/// After an error nothing is known of the state, so that the caller drops it.
pub(crate) fn befall(alloc: Global, state: &mut LiveState, fates: &[Fate]) -> Result<(), Memory>
    requires each { length fates.now ≡ length state.old.schedule.plans }
    requires known { All (IsKnown state.old.lines.jobs) state.old.schedule.plans }
    requires next { All (λ p. HasNextCopy p.sheet) state.old.schedule.plans }
    requires started { AreCutStarted state.old.moment state.old.schedule.plans fates.now }
    requires can_wait { CanAllWait state.old.lines.waiting
        (waits_in state.old.schedule.plans fates.now) }
    requires room { length state.old.lines.waiting
        + length (waits_in state.old.schedule.plans fates.now) ≤ most_waiting }
    ensures follows { OnOk result ((rule : Plan → Befalls)
        → AreFates rule state.old.schedule.plans fates.now
        → seen state.new ≡ befall rule (seen state.old)) }
    ensures marked { state.new.lines.kept ≡ state.old.lines.kept }
{
    state.lost = lost_by(alloc, state, fates)?;
    wait_all(&state.schedule, &mut state.lines, fates)?;
    leave_all(&mut state.schedule, state.moment, fates);
    Ok(())
}
