//! The records of the fates of copies.

ghost use Rattle.std.specs.Prelude.{◌≡◌, ◌<◌, ◌++◌, length, All, OnOk};
ghost use Rattle.tp_schedule.specs.Plans.{IsFormed};
ghost use Rattle.tp_schedule.specs.declared.parts.Plan.{Plan};
ghost use Rattle.tp_event_rules.specs.Fates.{Fate as Befalls, recalls, told_by, told_of};
ghost use Rattle.tp_event_rules.specs.LiveStates.{seen};
ghost use Rattle.tp_event_rules.specs.Seen.{HasNextCopy};
ghost use Rattle.tp_replan.specs.Meanings.{AreFates, IsKnown, meant, told_behind};

use crate::copy_labels::{label, next_copy};
use crate::fate::Fate;
use tp_base::{Memory, Tick};
use tp_event_rules::LiveState;
use tp_jobs::Lines;
use tp_schedule::{Plan, Record};

/// Notes the recall of each released action of the plan that has not started.
fn tell_recalls(
    lines: &Lines,
    now: Tick,
    plan: &Plan,
    notes: &mut Vec<Record>,
) -> Result<(), Memory>
    requires formed { IsFormed plan.now }
    requires known { IsKnown lines.now.jobs plan.now }
    ensures { OnOk result (notes.new.items
        ≡ notes.old.items ++ recalls lines.now.jobs now plan.now) }
{
    for at in 0..plan.acts.len() {
        if at < plan.released && now < plan.points.get(at) {
            notes.push(Record::Recall {
                sheet: label(lines, plan.sheet),
                act: at + 1,
            })?;
        }
    }
    Ok(())
}

/// Appends the records behind the recalls.
fn tell_end(lines: &Lines, plan: &Plan, fate: Fate, notes: &mut Vec<Record>) -> Result<(), Memory>
    requires known { IsKnown lines.now.jobs plan.now }
    requires next { HasNextCopy plan.now.sheet }
    ensures { OnOk result (notes.new.items
        ≡ notes.old.items ++ told_behind lines.now.jobs plan.now (meant fate)) }
{
    let sheet = label(lines, plan.sheet);
    match fate {
        Fate::Stays | Fate::Lost => {}
        Fate::Withdrawn => notes.push(Record::Withdraw { sheet })?,
        Fate::Cut => notes.push(Record::Cut { sheet })?,
        Fate::Purged => notes.push(Record::Purge { sheet })?,
        Fate::Replaced => {
            notes.push(Record::Purge { sheet })?;
            let sheet = label(lines, next_copy(plan.sheet));
            notes.push(Record::Again { sheet })?;
        }
        Fate::Dropped => notes.push(Record::Drop { sheet })?,
    }
    Ok(())
}

/// Appends the records of a copy that has the fate.
pub(crate) fn tell_fate(
    lines: &Lines,
    now: Tick,
    plan: &Plan,
    fate: Fate,
    notes: &mut Vec<Record>,
) -> Result<(), Memory>
    requires formed { IsFormed plan.now }
    requires known { IsKnown lines.now.jobs plan.now }
    requires next { HasNextCopy plan.now.sheet }
    ensures { OnOk result (notes.new.items
        ≡ notes.old.items ++ told_of lines.now.jobs now plan.now (meant fate)) }
{
    match fate {
        Fate::Stays => Ok(()),
        Fate::Lost => {
            let sheet = label(lines, plan.sheet);
            notes.push(Record::Lost { sheet })?;
            tell_recalls(lines, now, plan, notes)
        }
        Fate::Withdrawn | Fate::Cut | Fate::Purged | Fate::Replaced | Fate::Dropped => {
            tell_recalls(lines, now, plan, notes)?;
            tell_end(lines, plan, fate, notes)
        }
    }
}

/// Appends the records of all copies, each of which has its fate.
pub(crate) fn tell_fates(
    state: &LiveState,
    fates: &[Fate],
    notes: &mut Vec<Record>,
) -> Result<(), Memory>
    requires each { length fates.now ≡ length state.now.schedule.plans }
    requires known { All (IsKnown state.now.lines.jobs) state.now.schedule.plans }
    requires next { All (λ p. HasNextCopy p.sheet) state.now.schedule.plans }
    ensures { OnOk result ((rule : Plan → Befalls)
        → AreFates rule state.now.schedule.plans fates.now
        → notes.new.items ≡ notes.old.items ++ told_by rule (seen state.now)) }
{
    for at in 0..state.schedule.len() {
        let fate = fates[at as usize];
        let plan = state.schedule.plan_at(at);
        tell_fate(&state.lines, state.moment, plan, fate, notes)?;
    }
    Ok(())
}
