//! Which fates copies have in a fall-back, in a break and in an outage.

ghost use Rattle.std.specs.Prelude.{◌≡◌, ◌<◌, ◌&&◌, length, All, IfOk};
ghost use Rattle.tp_schedule.specs.Plans.{IsFormed};
ghost use Rattle.tp_event_rules.specs.FallBacks.{fate_in_break, fate_in_fall_back, is_copy};
ghost use Rattle.tp_event_rules.specs.FallBacks.{is_later, is_line_entering, is_on_its_way};
ghost use Rattle.tp_event_rules.specs.Lines.{is_same_line};
ghost use Rattle.tp_event_rules.specs.LiveStates.{seen};
ghost use Rattle.tp_event_rules.specs.Moments.{is_entering, is_to_run_on};
ghost use Rattle.tp_event_rules.specs.Outages.{fate_in_outage, is_lost_by};
ghost use Rattle.tp_replan.specs.Meanings.{AreFates, IsKnown, meant};

use crate::copy_labels::tray_of;
use crate::fate::Fate;
use crate::lost_copies::is_lost;
use crate::moments::{
    is_entering, is_in_flight, is_running_on, is_to_run_on, is_to_tray, is_unstarted,
};
use crate::outage::Outage;
use std::alloc::Global;
use tp_base::{Memory, Tick};
use tp_event_rules::LiveState;
use tp_jobs::Lines;
use tp_machine::{Machine, ModId};
use tp_schedule::{Plan, SheetId, is_earlier};

/// Whether the copy is in flight, with its tray as goal.
fn is_on_its_way(plan: &Plan, now: Tick) -> bool
    ensures { result ≡ is_on_its_way now plan.now }
{
    is_in_flight(plan, now) && is_to_tray(plan.goal)
}

/// Whether the copies are asked for one tray.
fn is_same_line(lines: &Lines, one: SheetId, other: SheetId) -> bool
    requires one { one.job < length lines.now.jobs }
    requires other { other.job < length lines.now.jobs }
    ensures { result ≡ is_same_line lines.now.jobs one other }
{
    tray_of(lines, one).0 == tray_of(lines, other).0
}

/// Whether the plan is that of a later copy of the line, which is not lost.
fn is_later(state: &LiveState, copy: SheetId, plan: &Plan) -> bool
    requires copy { copy.job < length state.now.lines.jobs }
    requires known { IsKnown state.now.lines.jobs plan.now }
    ensures { result ≡ is_later (seen state.now) copy plan.now }
{
    let behind = is_earlier(copy, plan.sheet);
    let of_line = is_same_line(&state.lines, copy, plan.sheet);
    let gone = is_lost(state, plan);
    behind && of_line && !gone
}

fn fate_in_fall_back(state: &LiveState, copy: SheetId, plan: &Plan) -> Fate
    requires formed { IsFormed plan.now }
    requires copy { copy.job < length state.now.lines.jobs }
    requires known { IsKnown state.now.lines.jobs plan.now }
    ensures { meant result ≡ fate_in_fall_back (seen state.now) copy plan.now }
{
    if !is_later(state, copy, plan) {
        Fate::Stays
    } else if is_unstarted(plan, state.moment) {
        Fate::Withdrawn
    } else if is_on_its_way(plan, state.moment) {
        Fate::Replaced
    } else {
        Fate::Stays
    }
}

/// The fates of all copies in the fall-back of the copy.
pub(crate) fn fates_in_fall_back(
    alloc: Global,
    state: &LiveState,
    copy: SheetId,
) -> Result<Vec<Fate>, Memory>
    requires copy { copy.job < length state.now.lines.jobs }
    requires known { All (IsKnown state.now.lines.jobs) state.now.schedule.plans }
    ensures { IfOk result (λ fates.
        AreFates (fate_in_fall_back (seen state.now) copy) state.now.schedule.plans fates.items) }
{
    let mut fates = Vec::new(alloc);
    for at in 0..state.schedule.len() {
        let fate = fate_in_fall_back(state, copy, state.schedule.plan_at(at));
        fates.push(fate)?;
    }
    Ok(fates)
}

/// Whether the plan is that of a later copy of the line, which is entering.
fn is_later_entering(state: &LiveState, copy: SheetId, plan: &Plan) -> bool
    requires formed { IsFormed plan.now }
    requires copy { copy.job < length state.now.lines.jobs }
    requires known { IsKnown state.now.lines.jobs plan.now }
    ensures { result ≡ (is_later (seen state.now) copy plan.now
        && is_entering state.now.moment plan.now) }
{
    let enters = is_entering(plan, state.moment);
    is_later(state, copy, plan) && enters
}

/// Whether a later copy of the line is entering.
pub(crate) fn is_line_entering(state: &LiveState, copy: SheetId) -> bool
    requires copy { copy.job < length state.now.lines.jobs }
    requires known { All (IsKnown state.now.lines.jobs) state.now.schedule.plans }
    ensures { result ≡ is_line_entering (seen state.now) copy }
{
    for at in 0..state.schedule.len() {
        if is_later_entering(state, copy, state.schedule.plan_at(at)) {
            return true;
        }
    }
    false
}

fn fate_in_break(state: &LiveState, job: u32, plan: &Plan) -> Fate
    requires { IsFormed plan.now }
    ensures { meant result ≡ fate_in_break (seen state.now) job plan.now }
{
    let enters = is_entering(plan, state.moment);
    if plan.sheet.job != job || is_lost(state, plan) {
        Fate::Stays
    } else if is_unstarted(plan, state.moment) {
        Fate::Dropped
    } else if is_on_its_way(plan, state.moment) && !enters {
        Fate::Purged
    } else {
        Fate::Stays
    }
}

/// The fates of all copies where the job breaks.
pub(crate) fn fates_in_break(
    alloc: Global,
    state: &LiveState,
    job: u32,
) -> Result<Vec<Fate>, Memory>
    ensures { IfOk result (λ fates.
        AreFates (fate_in_break (seen state.now) job) state.now.schedule.plans fates.items) }
{
    let mut fates = Vec::new(alloc);
    for at in 0..state.schedule.len() {
        fates.push(fate_in_break(state, job, state.schedule.plan_at(at)))?;
    }
    Ok(fates)
}

/// Whether the module jams and takes the plan's copy with it.
fn is_lost_by(machine: &Machine, state: &LiveState, event: Outage, plan: &Plan) -> bool
    ensures { result ≡
        is_lost_by machine.now event.module.0 event.jammed (seen state.now) plan.now }
{
    let gone = is_lost(state, plan);
    let runs = is_running_on(machine, plan, state.moment, event.module);
    event.jammed && !gone && runs
}

/// Whether the plan is of a copy that is not lost, and is to run on the module.
fn is_to_make_way(machine: &Machine, state: &LiveState, id: ModId, plan: &Plan) -> bool
    ensures { result ≡ (is_copy (seen state.now) plan.now
        && is_to_run_on machine.now state.now.moment id.0 plan.now) }
{
    let gone = is_lost(state, plan);
    !gone && is_to_run_on(machine, plan, state.moment, id)
}

fn fate_in_outage(machine: &Machine, state: &LiveState, event: Outage, plan: &Plan) -> Fate
    requires { IsFormed plan.now }
    ensures { meant result ≡
        fate_in_outage machine.now event.module.0 event.jammed (seen state.now) plan.now }
{
    if is_lost_by(machine, state, event, plan) {
        Fate::Lost
    } else if !is_to_make_way(machine, state, event.module, plan) {
        Fate::Stays
    } else if is_unstarted(plan, state.moment) {
        Fate::Withdrawn
    } else {
        Fate::Cut
    }
}

/// The fates of all copies where the module goes out.
pub(crate) fn fates_in_outage(
    alloc: Global,
    machine: &Machine,
    state: &LiveState,
    event: Outage,
) -> Result<Vec<Fate>, Memory>
    ensures { IfOk result (λ fates.
        AreFates (fate_in_outage machine.now event.module.0 event.jammed (seen state.now))
        state.now.schedule.plans fates.items) }
{
    let mut fates = Vec::new(alloc);
    for at in 0..state.schedule.len() {
        let plan = state.schedule.plan_at(at);
        fates.push(fate_in_outage(machine, state, event, plan))?;
    }
    Ok(fates)
}
