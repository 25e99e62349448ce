//! An answer to an ask, from the record and the items that tell it.
ghost use Rattle.std.specs.Prelude.{◌≡◌, ◌+◌, ◌↔◌, ◌<◌, ◌≤◌, ◌^◌, ◌∷◌, None, Some, IfErr, IfOk, IsFalse, IsSome, IsTrue, MatchBool, MatchResult, OnErr, OnOk, length};
ghost use Rattle.tp_log.specs.declared.item.Item.TheVariants.{Note};
ghost use Rattle.tp_schedule.specs.Answers.{IsAsked};
ghost use Rattle.tp_schedule.specs.Legality.{IsLegal};
ghost use Rattle.tp_schedule.specs.PlannerAnswers.{CanAsk, IsKnownGoal, last_tick};
ghost use Rattle.tp_schedule.specs.PlannerAnswers.Due.{asking};
ghost use Rattle.tp_schedule.specs.Plans.{IsFormed, plan_of, put_plan, without};
ghost use Rattle.tp_schedule.specs.declared.parts.Reply.TheVariants.{Planned};
ghost use Rattle.tp_schedule.specs.declared.records.Record.{Record};
ghost use Rattle.tp_event_rules.specs.AnswerRecords.{label_of_asked};
ghost use Rattle.tp_event_rules.specs.Labels.{goal_name};
ghost use Rattle.tp_schedule_check.specs.Faults.{IsAnswerFault, IsRight, exempt_of};
ghost use Rattle.tp_log_planner.specs.TakenAnswers.{DoTellPlan, TakesAnswer};
ghost use Rattle.tp_log_planner.specs.Breaches.{TellsUnfit};
ghost use Rattle.tp_log_planner.specs.Failures.{Denies, is_stop};
ghost use Rattle.tp_log_planner.specs.ToldPlans.{IsOnlyPlan, TellsNoForm, TellsNoPlan};
ghost use Rattle.tp_log_planner.specs.Reasons.{IfStop, IsAskedReason, IsFrom, IsOff, IsTimesReason, reason_in, reason_of};
ghost use Rattle.tp_log_planner.specs.declared.failure.Reason.TheVariants.{Due as IsDue};
ghost use Rattle.tp_log_planner.specs.ToldAnswers.{TellsDue, behind_asides, is_aside, is_other, is_plan};

use crate::alone::find_in_plan;
use crate::failure::{Failure, FoundReason, Reason, Wrong, reason_of};
use crate::faults::Read;
use crate::told_moves::{Moving, take_all_moves};
use crate::told_plan::read_plan;
use crate::trees::take_tree;
use std::alloc::Global;
use tp_base::{Memory, Name};
use tp_bound_laws::Claim;
use tp_event_records::{goal_name, label};
use tp_log::Item;
use tp_machine::Machine;
use tp_schedule::{Ask, Plan, Record, Reply, Schedule, SheetId, SheetName};
use tp_schedule_check::{find_fault, plan_of};

/// Another item is due in place of the first of so many.
fn due(left: usize) -> Failure
    ensures stops { IsTrue (is_stop result) }
    ensures from { IfStop (IsFrom left (λ reason. reason ≡ IsDue)) result }
{
    Failure::Stop(FoundReason {
        left,
        reason: Reason::Due,
    })
}

/// The failure as one of an item with `count` more items behind it.
pub(crate) fn ahead_of(failure: Failure, count: usize) -> Failure
    ensures stops { is_stop result ≡ is_stop failure }
    ensures reason { reason_in result ≡ reason_in failure }
{
    match failure {
        Failure::Memory => Failure::Memory,
        Failure::Stop(found) => Failure::Stop(FoundReason {
            left: found.left.saturating_add(count),
            reason: found.reason,
        }),
    }
}

fn has_plan(schedule: &Schedule, copy: SheetId) -> bool
    ensures { MatchBool result (IsSome (plan_of copy schedule.now.plans))
        (plan_of copy schedule.now.plans ≡ None) }
{
    match plan_of(schedule, copy) {
        Some(_) => true,
        None => false,
    }
}

/// The plan becomes that of its copy.
fn put_plan(schedule: &mut Schedule, plan: Plan) -> Result<(), Memory>
    requires formed { IsFormed plan }
    requires few { plan_of plan.sheet schedule.old.plans ≡ None
        → length schedule.old.plans + 1 < 2 ^ 32 }
    ensures { OnOk result (schedule.new.plans
        ≡ put_plan plan (without plan.sheet schedule.old.plans)) }
{
    schedule.ordered();
    let planned = has_plan(schedule, plan.sheet);
    if planned {
        schedule.replace(plan);
        return Ok(());
    }
    match schedule.reserve() {
        Ok(()) => {
            schedule.put(plan);
            Ok(())
        }
        Err(memory) => Err(memory),
    }
}

/// The copy whose new starts have no floors: an asked one in flight.
fn exempt_of(ask: &Ask) -> Option<SheetId>
    ensures { result ≡ exempt_of ask.entry.now }
{
    if 0 < ask.origin.kept() {
        Some(ask.sheet)
    } else {
        None
    }
}

/// Looks at the schedule that a plan and the first items, its moves, tell: it is an alternative with least times.
fn check_answer(
    alloc: Global,
    machine: &Machine,
    ask: &Ask,
    before: &Schedule,
    after: &Schedule,
    moves: &[Item],
) -> Result<(), Failure>
    requires moment { ask.now.now ≤ last_tick }
    requires legal { IsLegal machine.now before.now.plans }
    ensures right { OnOk result
        (IsRight machine.now before.now.plans ask.entry.now after.now.plans) }
    ensures refused { IfErr result
        (Denies (IsRight machine.now before.now.plans ask.entry.now after.now.plans)) }
    ensures why { IfErr result (IfStop (λ left. IsTimesReason
        (IsAnswerFault machine.now before.now.plans ask.entry.now after.now.plans)
        machine.now ask.entry.now.now (exempt_of ask.entry.now) after.now.plans)) }
{
    match find_fault(alloc, machine, ask, before, after) {
        Err(_) => Err(Failure::Memory),
        Ok(Some(fault)) => {
            let read = Read {
                moves,
                unmoved: moves.len().saturating_add(1),
                after,
                now: ask.now,
            };
            Err(Failure::Stop(read.stop_of(machine, &fault)))
        }
        Ok(None) => Ok(()),
    }
}

/// Writes the schedule that a plan and the items behind its record tell, where that is right and its tree shows it. How many
/// items those are.
fn place_plan(
    alloc: Global,
    machine: &Machine,
    ask: &Ask,
    plan: Plan,
    later: &[Item],
    schedule: &mut Schedule,
) -> Result<usize, Failure>
    requires can { CanAsk machine.now schedule.old.plans ask.now }
    requires formed { IsFormed plan }
    requires sheet { plan.sheet ≡ ask.now.sheet }
    ensures told { IfOk result (λ taken. (told : Record)
        → IsOnlyPlan machine.now schedule.old.plans ask.entry.now told plan
        → IsFalse (is_other told)
        → TakesAnswer machine.now schedule.old.plans ask.entry.now (Note told ∷ later.now)
        Planned schedule.new.plans (taken + 1)) }
    ensures refused { IfErr result (λ failure. (told : Record)
        → IsOnlyPlan machine.now schedule.old.plans ask.entry.now told plan
        → IsFalse (is_other told)
        → Denies (DoTellPlan machine.now schedule.old.plans ask.entry.now
        (Note told ∷ later.now)) failure) }
    ensures why { IfErr result (λ failure. (told : Record)
        → IsOnlyPlan machine.now schedule.old.plans ask.entry.now told plan
        → IfStop (IsAskedReason machine.now schedule.old.plans ask.entry.now
        (Note told ∷ later.now)) failure) }
    ensures stays { OnErr result (schedule.new.plans ≡ schedule.old.plans) }
{
    let moving = Moving {
        moment: ask.now,
        asked: Some(ask.sheet),
    };
    let claim = Claim::Earliest(plan.points.get(plan.acts.len()));
    let Ok(mut after) = schedule.copy(alloc) else {
        return Err(Failure::Memory);
    };
    let taken = match take_all_moves(alloc, machine, &moving, later, schedule, &mut after) {
        Ok(taken) => taken,
        Err(failure) => return Err(failure),
    };
    match put_plan(&mut after, plan) {
        Ok(()) => {}
        Err(_) => return Err(Failure::Memory),
    }
    match check_answer(alloc, machine, ask, schedule, &after, &later[..taken]) {
        Ok(()) => {}
        Err(failure) => return Err(ahead_of(failure, later.len() - taken)),
    }
    match take_tree(alloc, machine, schedule, ask, claim, &later[taken..]) {
        Ok(()) => {}
        Err(failure) => return Err(failure),
    }
    *schedule = after;
    Ok(taken + 1)
}

/// Whether a record is about the asked copy.
fn is_of(ask: &Ask, sheet: &SheetName) -> bool
    ensures { IsTrue result ↔ (sheet.now ≡ label_of_asked ask.entry.now) }
{
    *sheet == label(ask.name, ask.sheet)
}

/// Whether it is about its goal too.
fn is_about(machine: &Machine, ask: &Ask, sheet: &SheetName, goal: &Option<Name>) -> bool
    requires { IsKnownGoal machine.now ask.now.goal }
    ensures { IsTrue result ↔ ((sheet.now ≡ label_of_asked ask.entry.now)
        × (goal.now ≡ goal_name machine.now ask.entry.now.goal)) }
{
    let of = is_of(ask, sheet);
    let to = *goal == goal_name(machine, ask.goal);
    of && to
}

/// The plan that a record tells.
fn read_told(machine: &Machine, before: &Schedule, ask: &Ask, told: &Record) -> Result<Plan, Wrong>
    requires legal { IsLegal machine.now before.now.plans }
    requires asked { IsAsked machine.now before.now.plans ask.now }
    ensures told { MatchResult result
        (IsOnlyPlan machine.now before.now.plans ask.entry.now told.now)
        (λ reason. TellsNoPlan machine.now before.now.plans ask.entry.now told.now) }
    ensures why { IfErr result
        (IsOff (TellsNoForm machine.now before.now.plans ask.entry.now told.now)
        (TellsUnfit before.now.plans ask.entry.now told.now)) }
{
    match told {
        Record::Plan {
            sheet,
            place,
            points,
            acts,
        } => {
            let of = is_of(ask, sheet);
            if !of {
                return Err(Wrong::Due);
            }
            read_plan(
                machine,
                before,
                ask,
                place,
                points.as_slice(),
                acts.as_slice(),
            )
        }
        _ => Err(Wrong::Due),
    }
}

/// The record of a plan is wrong, the first of so many items.
fn wrong_plan(wrong: Wrong, left: usize) -> Failure
    ensures stops { IsTrue (is_stop result) }
    ensures from { IfStop (IsFrom left (λ reason. reason ≡ reason_of wrong)) result }
{
    Failure::Stop(FoundReason {
        left,
        reason: reason_of(wrong),
    })
}

/// Takes a plan, by its record and the items behind it. How many items those are.
fn take_plan(
    alloc: Global,
    machine: &Machine,
    ask: &Ask,
    told: &Record,
    later: &[Item],
    schedule: &mut Schedule,
) -> Result<usize, Failure>
    requires can { CanAsk machine.now schedule.old.plans ask.now }
    requires plan { IsTrue (is_plan told.now) }
    requires first { IsFalse (is_other told.now) }
    ensures told { IfOk result (λ taken. TakesAnswer machine.now schedule.old.plans ask.entry.now
        (Note told.now ∷ later.now) Planned schedule.new.plans (taken + 1)) }
    ensures refused { IfErr result (Denies (DoTellPlan machine.now schedule.old.plans
        ask.entry.now (Note told.now ∷ later.now))) }
    ensures why { IfErr result (IfStop (IsAskedReason machine.now schedule.old.plans
        ask.entry.now (Note told.now ∷ later.now))) }
    ensures stays { OnErr result (schedule.new.plans ≡ schedule.old.plans) }
{
    let plan = match read_told(machine, schedule, ask, told) {
        Ok(plan) => plan,
        Err(wrong) => return Err(wrong_plan(wrong, later.len() + 1)),
    };
    match find_in_plan(alloc, machine, ask.now, exempt_of(ask), &plan) {
        Err(_) => return Err(Failure::Memory),
        Ok(Some(wrong)) => return Err(wrong_plan(wrong, later.len() + 1)),
        Ok(None) => {}
    }
    match place_plan(alloc, machine, ask, plan, later, schedule) {
        Ok(taken) => Ok(taken),
        Err(failure) => Err(failure),
    }
}

/// Takes an answer, by its record and the items behind it: the schedule is then as it leaves it. The reply, and how many
/// items those are.
fn take_told(
    alloc: Global,
    machine: &Machine,
    ask: &Ask,
    told: &Record,
    later: &[Item],
    schedule: &mut Schedule,
) -> Result<(Reply, usize), Failure>
    requires can { CanAsk machine.now schedule.old.plans ask.now }
    requires first { IsFalse (is_other told.now) }
    ensures told { IfOk result (λ taken. TakesAnswer machine.now schedule.old.plans ask.entry.now
        (Note told.now ∷ later.now) taken.0 schedule.new.plans taken.1) }
    ensures refused { IfErr result (Denies (TellsDue machine.now schedule.old.plans
        (Note told.now ∷ later.now) (asking ask.entry.now))) }
    ensures why { IfErr result (IfStop (IsAskedReason machine.now schedule.old.plans
        ask.entry.now (Note told.now ∷ later.now))) }
    ensures stays { OnErr result (schedule.new.plans ≡ schedule.old.plans) }
{
    match told {
        Record::Plan { .. } => {
            match take_plan(alloc, machine, ask, told, later, schedule) {
                Ok(taken) => Ok((Reply::Planned, taken + 1)),
                Err(failure) => Err(failure),
            }
        }
        Record::Never { sheet, goal } => {
            let about = is_about(machine, ask, sheet, goal);
            if !about {
                return Err(due(later.len() + 1));
            }
            match take_tree(alloc, machine, schedule, ask, Claim::Never, later) {
                Ok(()) => Ok((Reply::Never, 2)),
                Err(failure) => Err(failure),
            }
        }
        Record::Budget { sheet, goal, bound } => {
            let about = is_about(machine, ask, sheet, goal);
            if !about {
                return Err(due(later.len() + 1));
            }
            Ok((Reply::Spent { bound: *bound }, 1))
        }
        _ => Err(due(later.len() + 1)),
    }
}

fn take_item(
    alloc: Global,
    machine: &Machine,
    ask: &Ask,
    item: &Item,
    later: &[Item],
    schedule: &mut Schedule,
) -> Result<(Reply, usize), Failure>
    requires can { CanAsk machine.now schedule.old.plans ask.now }
    requires first { IsFalse (is_aside item.now) }
    ensures told { IfOk result (λ taken. TakesAnswer machine.now schedule.old.plans ask.entry.now
        (item.now ∷ later.now) taken.0 schedule.new.plans taken.1) }
    ensures refused { IfErr result (Denies (TellsDue machine.now schedule.old.plans
        (item.now ∷ later.now) (asking ask.entry.now))) }
    ensures why { IfErr result (IfStop (IsAskedReason machine.now schedule.old.plans
        ask.entry.now (item.now ∷ later.now))) }
    ensures stays { OnErr result (schedule.new.plans ≡ schedule.old.plans) }
{
    match item {
        Item::Note(told) => match take_told(alloc, machine, ask, told, later, schedule) {
            Ok(taken) => Ok(taken),
            Err(failure) => Err(failure),
        },
        _ => Err(due(later.len() + 1)),
    }
}

/// Takes an answer from items, of which the first is no aside: the schedule is then as it leaves it. The reply, and how many
/// items those are.
pub(crate) fn take_answer(
    alloc: Global,
    machine: &Machine,
    ask: &Ask,
    items: &[Item],
    schedule: &mut Schedule,
) -> Result<(Reply, usize), Failure>
    requires can { CanAsk machine.now schedule.old.plans ask.now }
    requires first { behind_asides items.now ≡ items.now }
    ensures told { IfOk result (λ taken. TakesAnswer machine.now schedule.old.plans ask.entry.now
        items.now taken.0 schedule.new.plans taken.1) }
    ensures refused { IfErr result (Denies (TellsDue machine.now schedule.old.plans items.now
        (asking ask.entry.now))) }
    ensures why { IfErr result (IfStop (IsAskedReason machine.now schedule.old.plans
        ask.entry.now items.now)) }
    ensures stays { OnErr result (schedule.new.plans ≡ schedule.old.plans) }
{
    match items {
        [item, later @ ..] => match take_item(alloc, machine, ask, item, later, schedule) {
            Ok(taken) => Ok(taken),
            Err(failure) => Err(failure),
        },
        [] => Err(due(0)),
    }
}
