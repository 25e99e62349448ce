//! Which copies are lost.

ghost use Rattle.std.specs.Prelude.{◌≡◌, ◌||◌, length, IfOk};
ghost use Rattle.std.specs.List.{list_any};
ghost use Rattle.tp_schedule.specs.Plans.{is_same_copy};
ghost use Rattle.tp_schedule.specs.declared.parts.Plan.{Plan};
ghost use Rattle.tp_event_rules.specs.Fates.{Fate as Befalls, is_loss, lost_by};
ghost use Rattle.tp_event_rules.specs.Lines.{is_lost};
ghost use Rattle.tp_event_rules.specs.LiveStates.{seen};
ghost use Rattle.tp_replan.specs.Meanings.{AreFates, meant};

use crate::fate::Fate;
use std::alloc::Global;
use tp_base::Memory;
use tp_event_rules::LiveState;
use tp_schedule::{Plan, SheetId};

/// Whether the two are one copy.
fn is_same(one: SheetId, other: SheetId) -> bool
    ensures { result ≡ is_same_copy one other }
{
    one.job == other.job && one.number == other.number && one.copy == other.copy
}

/// Whether the copy is one of these.
fn is_among(copies: &[SheetId], sheet: SheetId) -> bool
    ensures { result ≡ list_any (is_same_copy sheet) copies.now }
{
    copies.iter().any(|other| is_same(sheet, *other))
}

/// Whether the plan is that of a copy which was lost.
pub(crate) fn is_lost(state: &LiveState, plan: &Plan) -> bool
    ensures { result ≡ is_lost (seen state.now) plan.now }
{
    is_among(state.lost.as_slice(), plan.sheet)
}

fn is_loss(fate: Fate) -> bool
    ensures { result ≡ is_loss (meant fate) }
{
    fate == Fate::Lost
}

/// Whether the plan's copy was lost, or gets lost by its fate.
fn is_lost_by(state: &LiveState, plan: &Plan, fate: Fate) -> bool
    ensures { result ≡ (is_lost (seen state.now) plan.now || is_loss (meant fate)) }
{
    is_lost(state, plan) || is_loss(fate)
}

/// The copies that were lost, and those that get lost by their fates, in the order of copies.
pub(crate) fn lost_by(
    alloc: Global,
    state: &LiveState,
    fates: &[Fate],
) -> Result<Vec<SheetId>, Memory>
    requires { length fates.now ≡ length state.now.schedule.plans }
    ensures { IfOk result (λ copies. (rule : Plan → Befalls)
        → AreFates rule state.now.schedule.plans fates.now
        → copies.items ≡ lost_by rule (seen state.now)) }
{
    let mut copies = Vec::new(alloc);
    for at in 0..state.schedule.len() {
        let plan = state.schedule.plan_at(at);
        if is_lost_by(state, plan, fates[at as usize]) {
            copies.push(plan.sheet)?;
        }
    }
    Ok(copies)
}
