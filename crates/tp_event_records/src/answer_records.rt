//! The records of answers to asks and of points that moved.

ghost use Rattle.std.specs.Prelude.{◌≡◌, ◌<◌, ◌+◌, ◌^◌, ◌++◌, ◌∷◌, List, [], drop, map, All, IfOk, OnOk};
ghost use Rattle.tp_schedule.specs.Answers.{kept_of};
ghost use Rattle.tp_schedule.specs.PlannerAnswers.{IsKnownGoal};
ghost use Rattle.tp_schedule.specs.Plans.{IsTimedPlan, plan_of, with_points, without};
ghost use Rattle.tp_schedule.specs.declared.parts.Plan.{Plan};
ghost use Rattle.tp_schedule.specs.declared.records.Record.TheVariants.{FullUp};
ghost use Rattle.tp_event_rules.specs.AnswerRecords.{moves, told_of_move, told_of_plan, told_of_planned, told_of_reply};
ghost use Rattle.tp_event_rules.specs.Labels.{action_name};
ghost use Rattle.tp_event_records.specs.RecordNames.{IsKnown, others, points_of, told_alone};

use crate::labels::{action_name, end_name, goal_name, label};
use crate::times::{Times, is_of};
use std::alloc::Global;
use tp_base::{Items, Memory, Name, Tick};
use tp_machine::Machine;
use tp_schedule::{Acts, Ask, Plan, Points, Record, Reply, Schedule, SheetId, SheetName};

/// Notes what an answer says: the plan, and each other plan that moved; or that there is none; or that the budget was
/// spent. The times are those of the other plans before the answer, and the schedule is that after it.
pub fn tell_reply(
    machine: &Machine,
    before: &Times,
    ask: &Ask,
    reply: Reply,
    after: &Schedule,
    notes: &mut Vec<Record>,
) -> Result<(), Memory>
    requires goal { IsKnownGoal machine.now ask.now.goal }
    requires timed { All (IsTimedPlan machine.now) after.now.plans }
    ensures { OnOk result ((plans : List Plan)
        → before.now ≡ points_of (without ask.entry.now.sheet plans)
        → notes.new.items ≡ notes.old.items
        ++ told_of_reply machine.now plans ask.entry.now reply after.now.plans) }
{
    tell_alone(machine, ask, reply, after, notes)?;
    match reply {
        Reply::Planned => {
            let alloc = *notes.allocator();
            tell_moves(alloc, before, after, Some(ask.sheet), notes)
        }
        Reply::Never | Reply::Spent { .. } => Ok(()),
    }
}

/// Notes what an answer says but for the plans that moved: all of it, where no other plan did.
pub fn tell_alone(
    machine: &Machine,
    ask: &Ask,
    reply: Reply,
    after: &Schedule,
    notes: &mut Vec<Record>,
) -> Result<(), Memory>
    requires goal { IsKnownGoal machine.now ask.now.goal }
    requires timed { All (IsTimedPlan machine.now) after.now.plans }
    ensures told { OnOk result (notes.new.items ≡ notes.old.items
        ++ told_alone machine.now ask.entry.now reply after.now.plans) }
    ensures all { OnOk result ((plans : List Plan)
        → without ask.entry.now.sheet after.now.plans ≡ without ask.entry.now.sheet plans
        → notes.new.items ≡ notes.old.items
        ++ told_of_reply machine.now plans ask.entry.now reply after.now.plans) }
{
    let alloc = *notes.allocator();
    let sheet = label(ask.name, ask.sheet);
    match reply {
        Reply::Planned => tell_planned(alloc, machine, ask, after, notes),
        Reply::Never => {
            let goal = goal_name(machine, ask.goal);
            notes.push(Record::Never { sheet, goal })?;
            Ok(())
        }
        Reply::Spent { bound } => {
            let goal = goal_name(machine, ask.goal);
            notes.push(Record::Budget { sheet, goal, bound })?;
            Ok(())
        }
    }
}

/// Notes that as many copies are live as may be.
pub fn tell_full(sheet: SheetName, notes: &mut Vec<Record>) -> Result<(), Memory>
    ensures { OnOk result (notes.new.items ≡ notes.old.items ++ FullUp sheet ∷ []) }
{
    notes.push(Record::FullUp { sheet })?;
    Ok(())
}

/// Notes the plan of the asked copy, without the actions that it kept.
fn tell_planned(
    alloc: Global,
    machine: &Machine,
    ask: &Ask,
    after: &Schedule,
    notes: &mut Vec<Record>,
) -> Result<(), Memory>
    requires timed { All (IsTimedPlan machine.now) after.now.plans }
    ensures { OnOk result (notes.new.items ≡ notes.old.items
        ++ told_of_planned machine.now (kept_of ask.entry.now)
        (plan_of ask.entry.now.sheet after.now.plans)) }
{
    if let Some(at) = after.find(ask.sheet) {
        let record = plan_record(alloc, machine, ask.origin.kept(), after.plan_at(at))?;
        notes.push(record)?;
    }
    Ok(())
}

/// The record of a plan without its first actions.
fn plan_record(alloc: Global, machine: &Machine, kept: u32, plan: &Plan) -> Result<Record, Memory>
    requires { IsTimedPlan machine.now plan.now }
    ensures { IfOk result (λ told. told ≡ told_of_plan machine.now kept plan.now) }
{
    let points = points_from(alloc, kept, &plan.points)?;
    let acts = names_from(alloc, machine, kept, &plan.acts)?;
    Ok(Record::Plan {
        sheet: label(plan.name, plan.sheet),
        place: end_name(machine, plan),
        points,
        acts,
    })
}

/// The points from a place on.
fn points_from(alloc: Global, from: u32, points: &Points) -> Result<Items<Tick>, Memory>
    ensures { IfOk result (λ items. items ≡ drop from points.now) }
{
    let mut items = Items::new(alloc);
    for at in from..points.len() {
        items.push(points.get(at))?;
    }
    Ok(items)
}

/// The names of the actions from a place on.
fn names_from(
    alloc: Global,
    machine: &Machine,
    from: u32,
    acts: &Acts,
) -> Result<Items<Name>, Memory>
    requires { All (IsKnown machine.now) acts.now }
    ensures { IfOk result (λ items. items ≡ map (action_name machine.now) (drop from acts.now)) }
{
    let mut items = Items::new(alloc);
    for at in from..acts.len() {
        items.push(action_name(machine, acts.get(at)))?;
    }
    Ok(items)
}

/// Notes the plans whose points changed, in the order of copies. The times are those before.
pub fn tell_all_moves(
    alloc: Global,
    before: &Times,
    after: &Schedule,
    notes: &mut Vec<Record>,
) -> Result<(), Memory>
    ensures { OnOk result ((plans : List Plan) → before.now ≡ points_of plans
        → notes.new.items ≡ notes.old.items ++ moves plans after.now.plans) }
{
    tell_moves(alloc, before, after, None, notes)
}

/// Notes the plans whose points changed, in the order of copies, but for the plan of the asked copy, if there is one.
fn tell_moves(
    alloc: Global,
    before: &Times,
    after: &Schedule,
    asked: Option<SheetId>,
    notes: &mut Vec<Record>,
) -> Result<(), Memory>
    ensures { OnOk result ((plans : List Plan) → before.now ≡ points_of plans
        → notes.new.items ≡ notes.old.items ++ moves plans (others asked after.now.plans)) }
{
    let mut place = 0;
    'moves: for at in 0..after.len() {
        let plan = after.plan_at(at);
        if place < before.len() && !is_of(asked, plan) {
            tell_move(alloc, before.get(place), plan, notes)?;
            place += 1;
        }
    }
    Ok(())
}

/// Notes the points of a plan where they changed.
fn tell_move(
    alloc: Global,
    before: &[Tick],
    after: &Plan,
    notes: &mut Vec<Record>,
) -> Result<(), Memory>
    ensures { OnOk result (notes.new.items ≡ notes.old.items
        ++ told_of_move (with_points before.now after.now) after.now) }
{
    if before != after.points.as_slice() {
        let sheet = label(after.name, after.sheet);
        let points = points_from(alloc, 0, &after.points)?;
        notes.push(Record::Move { sheet, points })?;
    }
    Ok(())
}
