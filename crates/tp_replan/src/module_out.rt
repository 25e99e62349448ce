//! A module goes out.

ghost use Rattle.std.specs.Prelude.{◌≡◌, ℕ, Bool, ◌<◌, [], ◌++◌, length, map, flat_map};
ghost use Rattle.std.specs.Prelude.{All, IfOk, OnOk};
ghost use Rattle.tp_machine.specs.Limits.{most_modules};
ghost use Rattle.tp_machine.specs.declared.machine.Machine.{Machine};
ghost use Rattle.tp_schedule.specs.declared.parts.Plan.{Plan};
ghost use Rattle.tp_event_rules.specs.Fates.{Fate as Befalls};
ghost use Rattle.tp_event_rules.specs.LiveStates.{seen};
ghost use Rattle.tp_event_rules.specs.Outages.{displaced, displaced_by, fate_in_outage, going_out, outage};
ghost use Rattle.tp_event_rules.specs.Outages.{told_in_outage};
ghost use Rattle.tp_event_rules.specs.Seen.{HasNextCopy};
ghost use Rattle.tp_replan.specs.Meanings.{AreFates, IsKnown, Leads, lost_alone, lost_aside, meant};
ghost use Rattle.tp_replan.specs.Open.{CanFall};

use crate::displaced::Displaced;
use crate::fall_backs::fall_back_all;
use crate::fate::Fate;
use crate::fate_effects::befall;
use crate::fate_records::tell_fates;
use crate::fate_rules::fates_in_outage;
use crate::moments::is_to_tray;
use crate::outage::Outage;
use std::alloc::Global;
use tp_base::Memory;
use tp_event_rules::LiveState;
use tp_machine::Machine;
use tp_schedule::{Plan, Record, Schedule};

/// The fates of the lost copies alone.
fn lost_alone(alloc: Global, fates: &[Fate]) -> Result<Vec<Fate>, Memory>
    ensures { IfOk result (λ alone. alone.items ≡ map lost_alone fates.now) }
{
    let mut alone = Vec::new(alloc);
    for fate in fates {
        alone.push(match fate {
            Fate::Lost => Fate::Lost,
            _ => Fate::Stays,
        })?;
    }
    Ok(alone)
}

/// The fates of the copies that are not lost.
fn lost_aside(alloc: Global, fates: &[Fate]) -> Result<Vec<Fate>, Memory>
    ensures { IfOk result (λ others. others.items ≡ map lost_aside fates.now) }
{
    let mut others = Vec::new(alloc);
    for fate in fates {
        others.push(match fate {
            Fate::Lost => Fate::Stays,
            fate => *fate,
        })?;
    }
    Ok(others)
}

/// A lost copy that was to go to its tray is displaced, and so is one that is withdrawn.
fn push_displaced(copies: &mut Vec<Displaced>, plan: &Plan, fate: Fate) -> Result<(), Memory>
    ensures { OnOk result (copies.new.items
        ≡ copies.old.items ++ displaced_by plan.now (meant fate)) }
{
    let again = fate == Fate::Lost;
    if (again && is_to_tray(plan.goal)) || fate == Fate::Withdrawn {
        copies.push(Displaced {
            sheet: plan.sheet,
            want: plan.want,
            again,
        })?;
    }
    Ok(())
}

/// The displaced copies, in their order.
fn displaced_by(
    alloc: Global,
    schedule: &Schedule,
    fates: &[Fate],
) -> Result<Vec<Displaced>, Memory>
    requires { length fates.now ≡ length schedule.now.plans }
    ensures { IfOk result (λ copies. (rule : Plan → Befalls)
        → AreFates rule schedule.now.plans fates.now
        → copies.items ≡ flat_map (λ p. displaced_by p (rule p)) schedule.now.plans) }
{
    let mut copies = Vec::new(alloc);
    for at in 0..schedule.len() {
        push_displaced(&mut copies, schedule.plan_at(at), fates[at as usize])?;
    }
    Ok(copies)
}

/// Appends the records of the outage itself: first those of the lost copies, then those of the others.
fn tell_outage(
    alloc: Global,
    state: &LiveState,
    fates: &[Fate],
    notes: &mut Vec<Record>,
) -> Result<(), Memory>
    requires each { length fates.now ≡ length state.now.schedule.plans }
    requires known { All (IsKnown state.now.lines.jobs) state.now.schedule.plans }
    requires next { All (λ p. HasNextCopy p.sheet) state.now.schedule.plans }
    ensures { OnOk result ((machine : Machine) (m : ℕ) (jam : Bool)
        → AreFates (fate_in_outage machine m jam (seen state.now))
        state.now.schedule.plans fates.now
        → notes.new.items
        ≡ notes.old.items ++ told_in_outage machine m jam (seen state.now)) }
{
    let alone = lost_alone(alloc, fates)?;
    tell_fates(state, alone.as_slice(), notes)?;
    let others = lost_aside(alloc, fates)?;
    tell_fates(state, others.as_slice(), notes)?;
    Ok(())
}

/// The module is out, and each copy meets its fate. Answers with the displaced copies.
///
/// After an error nothing is known of the state, so that the caller drops it, and notes may have come.
fn put_module_out(
    alloc: Global,
    machine: &Machine,
    state: &mut LiveState,
    event: Outage,
    notes: &mut Vec<Record>,
) -> Result<Vec<Displaced>, Memory>
    requires there { event.module.0 < most_modules }
    requires can { CanFall (seen state.old) [] }
    ensures copies { IfOk result (λ copies. copies.items
        ≡ displaced machine.now event.module.0 event.jammed (seen state.old)) }
    ensures leads { OnOk result
        (Leads (going_out machine.now event.module.0 event.jammed (seen state.old))
        notes.old.items notes.new.items (seen state.new)) }
    ensures marked { state.new.lines.kept ≡ state.old.lines.kept }
{
    state.schedule.ordered();
    let fates = fates_in_outage(alloc, machine, state, event)?;
    tell_outage(alloc, state, fates.as_slice(), notes)?;
    let copies = displaced_by(alloc, &state.schedule, fates.as_slice())?;
    befall(alloc, state, fates.as_slice())?;
    state.outs = state.outs.put_out(event.module);
    Ok(copies)
}

/// The outage of the module: it is out, each copy meets its fate, and the displaced copies fall back in their order.
///
/// After an error nothing is known of the state, so that the caller drops it, and notes may have come.
pub(crate) fn take_out(
    alloc: Global,
    machine: &Machine,
    state: &mut LiveState,
    event: Outage,
    notes: &mut Vec<Record>,
) -> Result<(), Memory>
    requires there { event.module.0 < most_modules }
    requires can { CanFall (seen state.old) [] }
    ensures leads { OnOk result
        (Leads (outage machine.now event.module.0 event.jammed (seen state.old))
        notes.old.items notes.new.items (seen state.new)) }
    ensures marked { state.new.lines.kept ≡ state.old.lines.kept }
{
    state.schedule.ordered();
    let copies = put_module_out(alloc, machine, state, event, notes)?;
    fall_back_all(alloc, state, copies.as_slice(), notes)?;
    Ok(())
}
