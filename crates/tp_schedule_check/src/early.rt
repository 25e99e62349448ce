//! Whether the points of a legal schedule are least, and where not, a point that could stand earlier.
ghost use Rattle.std.specs.Prelude.{◌≡◌, ℕ, ◌+◌, ◌<◌, ◌≤◌, ◌^◌, ◌↔◌, ◌++◌, [], ◌∷◌, Some, IfOk, IfSome, IsNone, MatchOption, OnOk, flat_map, if◌then◌else◌, length, option_copied};
ghost use Rattle.tp_machine.specs.ModuleUse.{action_at};
ghost use Rattle.tp_schedule.specs.Answers.{IsLeast, KeepsFloors, KeepsHorizon};
ghost use Rattle.tp_schedule.specs.Legality.{IsLegal};
ghost use Rattle.tp_schedule.specs.Limits.{most_plan_points};
ghost use Rattle.tp_schedule.specs.PlannerAnswers.{last_tick};
ghost use Rattle.tp_schedule.specs.Plans.{IsFormed, is_fixed};
ghost use Rattle.tp_schedule.specs.Spots.{ticks_of};
ghost use Rattle.tp_constraints.specs.Gaps.{low_of};
ghost use Rattle.tp_constraints.specs.Laws.{plans_gaps};
ghost use Rattle.tp_constraints.specs.Numbers.{table_of};
ghost use Rattle.tp_schedule_check.specs.Early.{AreMarked, AreTightSteps, IsEarly, IsUnmarkedAt, IsUnmarkedIn, act_steps, acts_steps, anchor_point, chain_steps, hold_steps, is_exempt, is_low, low_marks, pair_steps, plan_marks, plans_steps, touches};
ghost use Rattle.tp_schedule_check.specs.Lines.{point_count};
ghost use Rattle.tp_schedule_check.specs.Marks.{IsMarked};

use crate::held::{NumberedHold, free_at, sorted_holds};
use crate::line_ends::{PlanEnd, line_pairs};
use crate::marks::{MarkStep, spread};
use std::alloc::Global;
use tp_base::{Memory, Tick};
use tp_machine::{ActId, Action, Anchor, Machine, machine_law};
use tp_schedule::{Kind, Plan, Schedule, SheetId};

/// Point `at` of the copy's plan stands at `given`, and could stand at `earlier`.
#[derive(Clone, Copy, PartialEq, Eq, Debug)]
pub struct Early {
    pub sheet: SheetId,
    pub at: u32,
    pub given: Tick,
    pub earlier: Tick,
}

/// Whether the plan is that of the copy, if there is one.
pub fn is_exempt(exempt: Option<SheetId>, plan: &Plan) -> bool
    ensures { result ≡ is_exempt exempt plan.now }
{
    match exempt {
        Some(copy) => plan.sheet == copy,
        None => false,
    }
}

/// Whether the point is the start or the end of a released action, or any point of a front.
pub(crate) fn is_fixed(plan: &Plan, at: u32) -> bool
    ensures { result ≡ is_fixed plan.now at }
{
    let begun = 0 < plan.released && at <= plan.released;
    plan.kind == Kind::Front || begun
}

/// The least tick of a point: its own where it is fixed, and above the floor for an unreleased start of a plan that is not
/// exempt.
fn lowest(plan: &Plan, at: u32, floor: Tick, exempt: Option<SheetId>) -> Tick
    requires formed { IsFormed plan.now }
    requires within { at ≤ length plan.now.acts }
    requires fits { floor + 1 < 2 ^ 32 }
    ensures { result ≡ low_of floor (is_exempt exempt) plan.now at }
{
    let fixed = is_fixed(plan, at);
    let unreleased = plan.released <= at && at < plan.acts.len();
    let exempted = is_exempt(exempt, plan);
    if fixed {
        plan.points.get(at)
    } else if unreleased && !exempted {
        floor + 1
    } else {
        0
    }
}

fn is_low(plan: &Plan, at: u32, floor: Tick, exempt: Option<SheetId>) -> bool
    requires formed { IsFormed plan.now }
    requires within { at ≤ length plan.now.acts }
    requires fits { floor + 1 < 2 ^ 32 }
    ensures { result ≡ is_low floor (is_exempt exempt) plan.now at }
{
    plan.points.get(at) == lowest(plan, at, floor, exempt)
}

/// Adds whether each point of the plan stands at its least tick.
fn add_marks(
    marks: &mut Vec<bool>,
    plan: &Plan,
    floor: Tick,
    exempt: Option<SheetId>,
) -> Result<(), Memory>
    requires formed { IsFormed plan.now }
    requires fits { floor + 1 < 2 ^ 32 }
    ensures { OnOk result (marks.new.items ≡ marks.old.items
        ++ plan_marks floor (is_exempt exempt) plan.entry.now) }
{
    'points: for at in 0..plan.acts.len() + 1 {
        marks.push(is_low(plan, at, floor, exempt))?;
    }
    Ok(())
}

/// Whether each point stands at its least tick, where the points of all plans are numbered, one plan after another.
fn low_marks(
    alloc: Global,
    schedule: &Schedule,
    floor: Tick,
    exempt: Option<SheetId>,
) -> Result<Vec<bool>, Memory>
    requires { floor + 1 < 2 ^ 32 }
    ensures { IfOk result (λ marks. marks.items
        ≡ low_marks floor (is_exempt exempt) schedule.now.plans) }
{
    let mut marks = Vec::new(alloc);
    'plans: for at in 0..schedule.len() {
        add_marks(&mut marks, schedule.plan_at(at), floor, exempt)?;
    }
    Ok(marks)
}

pub(crate) fn action_of(machine: &Machine, act: ActId) -> Option<&Action>
    ensures { option_copied result ≡ action_at machine.now act.0 }
{
    machine.actions.as_slice().get(usize::from(act.0))
}

fn add_if(steps: &mut Vec<MarkStep>, tight: bool, step: MarkStep) -> Result<(), Memory>
    ensures { OnOk result (steps.new.items ≡ steps.old.items
        ++ (if tight then step ∷ [] else [])) }
{
    if tight {
        steps.push(step)?;
    }
    Ok(())
}

/// Adds the steps of an action that lasts its least or its most, and starts at the point with this number.
fn add_action(
    steps: &mut Vec<MarkStep>,
    action: &Action,
    number: usize,
    start: Tick,
    end: Tick,
) -> Result<(), Memory>
    requires { number + 1 < 2 ^ 64 }
    ensures { OnOk result (steps.new.items ≡ steps.old.items
        ++ act_steps (Some action.entry.now) number start end) }
{
    let least = u64::from(start) + action.least as u64 == u64::from(end);
    let most = u64::from(start) + action.most as u64 == u64::from(end);
    add_if(
        steps,
        least,
        MarkStep {
            from: number,
            to: number + 1,
        },
    )?;
    add_if(
        steps,
        most,
        MarkStep {
            from: number + 1,
            to: number,
        },
    )?;
    Ok(())
}

fn add_act(
    steps: &mut Vec<MarkStep>,
    machine: &Machine,
    act: ActId,
    number: usize,
    start: Tick,
    end: Tick,
) -> Result<(), Memory>
    requires { number + 1 < 2 ^ 64 }
    ensures { OnOk result (steps.new.items ≡ steps.old.items
        ++ act_steps (action_at machine.entry.now act.0) number start end) }
{
    match action_of(machine, act) {
        Some(action) => add_action(steps, action, number, start, end),
        None => Ok(()),
    }
}

fn add_acts(
    steps: &mut Vec<MarkStep>,
    machine: &Machine,
    plan: &Plan,
    number: usize,
) -> Result<(), Memory>
    requires formed { IsFormed plan.now }
    requires fits { number + most_plan_points < 2 ^ 64 }
    ensures { OnOk result (steps.new.items ≡ steps.old.items
        ++ acts_steps machine.entry.now number plan.entry.now.acts plan.entry.now.points) }
{
    let acts = plan.acts.as_slice();
    let points = plan.points.as_slice();
    'acts: for at in 0..acts.len() {
        add_act(
            steps,
            machine,
            acts[at],
            number + at,
            points[at],
            points[at + 1],
        )?;
    }
    Ok(())
}

fn add_durations(
    steps: &mut Vec<MarkStep>,
    machine: &Machine,
    schedule: &Schedule,
) -> Result<(), Memory>
    ensures { OnOk result (steps.new.items ≡ steps.old.items
        ++ plans_steps machine.entry.now 0 schedule.entry.now.plans) }
{
    let mut number = 0;
    'plans: for at in 0..schedule.len() {
        let plan = schedule.plan_at(at);
        add_acts(steps, machine, plan, number)?;
        number += plan.acts.len() as usize + 1;
    }
    Ok(())
}

fn add_line(steps: &mut Vec<MarkStep>, end: &PlanEnd, later: &PlanEnd) -> Result<(), Memory>
    ensures { OnOk result (steps.new.items ≡ steps.old.items
        ++ pair_steps (end.entry.now, later.entry.now)) }
{
    if u64::from(end.tick) + 1 == u64::from(later.tick) {
        steps.push(MarkStep {
            from: end.number,
            to: later.number,
        })?;
    }
    Ok(())
}

fn add_lines(steps: &mut Vec<MarkStep>, pairs: &[(PlanEnd, PlanEnd)]) -> Result<(), Memory>
    ensures { OnOk result (steps.new.items ≡ steps.old.items
        ++ flat_map pair_steps pairs.entry.now) }
{
    'pairs: for at in 0..pairs.len() {
        add_line(steps, &pairs[at].0, &pairs[at].1)?;
    }
    Ok(())
}

fn anchor_point(anchor: Anchor, held: &NumberedHold) -> usize
    ensures { result ≡ anchor_point anchor held.now }
{
    match anchor {
        Anchor::Start => held.from,
        Anchor::End => held.to,
    }
}

fn do_touch(machine: &Machine, one: &NumberedHold, other: &NumberedHold) -> bool
    ensures { result ≡ touches machine.now one.now other.now }
{
    one.rule.resource == other.rule.resource && free_at(machine, one, other) == other.begin
}

fn add_hold(
    steps: &mut Vec<MarkStep>,
    machine: &Machine,
    one: &NumberedHold,
    other: &NumberedHold,
) -> Result<(), Memory>
    ensures { OnOk result (steps.new.items ≡ steps.old.items
        ++ hold_steps machine.entry.now one.entry.now other.entry.now) }
{
    if do_touch(machine, one, other) {
        steps.push(MarkStep {
            from: anchor_point(one.rule.end, one),
            to: anchor_point(other.rule.begin, other),
        })?;
    }
    Ok(())
}

fn add_chains(
    steps: &mut Vec<MarkStep>,
    machine: &Machine,
    holds: &[NumberedHold],
) -> Result<(), Memory>
    ensures { OnOk result (steps.new.items ≡ steps.old.items
        ++ chain_steps machine.entry.now holds.entry.now) }
{
    'holds: for at in 1..holds.len() {
        add_hold(steps, machine, &holds[at - 1], &holds[at])?;
    }
    Ok(())
}

/// The steps of all rules that the schedule's ticks leave no room.
fn tight_steps(
    alloc: Global,
    machine: &Machine,
    schedule: &Schedule,
) -> Result<Vec<MarkStep>, Memory>
    requires { IsLegal machine.now schedule.now.plans }
    ensures { IfOk result (λ steps. AreTightSteps (table_of schedule.now.plans)
        (ticks_of schedule.now.plans) (plans_gaps machine.now schedule.now.plans) steps.items) }
{
    schedule.ordered();
    let holds = sorted_holds(alloc, machine, schedule)?;
    let pairs = line_pairs(alloc, schedule)?;
    let mut steps = Vec::new(alloc);
    add_durations(&mut steps, machine, schedule)?;
    add_lines(&mut steps, pairs.as_slice())?;
    add_chains(&mut steps, machine, holds.as_slice())?;
    Ok(steps)
}

/// The first point of the plan that is not marked.
fn find_in(plan: &Plan, marks: &[bool], number: usize) -> Option<Early>
    requires formed { IsFormed plan.now }
    requires within { number + (length plan.now.acts + 1) ≤ length marks.now }
    ensures { MatchOption result ((i : ℕ) → i ≤ length plan.now.acts
        → IsMarked marks.now (number + i)) (IsUnmarkedIn marks.now number plan.now) }
{
    'points: for at in 0..plan.acts.len() + 1 {
        if !marks[number + at as usize] {
            let given = plan.points.get(at);
            return Some(Early {
                sheet: plan.sheet,
                at,
                given,
                earlier: given.saturating_sub(1),
            });
        }
    }
    None
}

/// The first point that is not marked.
fn find_unmarked(schedule: &Schedule, marks: &[bool]) -> Option<Early>
    requires { length marks.now ≡ point_count schedule.now.plans }
    ensures { MatchOption result (AreMarked marks.now 0 schedule.now.plans)
        (IsUnmarkedAt marks.now 0 schedule.now.plans) }
{
    let mut number = 0;
    'plans: for at in 0..schedule.len() {
        let plan = schedule.plan_at(at);
        match find_in(plan, marks, number) {
            Some(early) => return Some(early),
            None => {}
        }
        number += plan.acts.len() as usize + 1;
    }
    None
}

/// A point of a legal schedule that could stand earlier, or None exactly where the schedule is least at the moment: there no
/// other with the same plans, actions, orders, fixed points, floors and horizon has a point at a smaller tick. The plan of the
/// exempt copy has no floors. Takes time in proportion to the points and holds and their sort.
pub fn find_early(
    alloc: Global,
    machine: &Machine,
    now: Tick,
    exempt: Option<SheetId>,
    schedule: &Schedule,
) -> Result<Option<Early>, Memory>
    requires moment { now ≤ last_tick }
    requires legal { IsLegal machine.now schedule.now.plans }
    requires floors { KeepsFloors machine.now now (is_exempt exempt) schedule.now.plans }
    requires horizon { KeepsHorizon machine.now now schedule.now.plans }
    ensures least { IfOk result (λ found. IsNone found
        ↔ IsLeast machine.now now (is_exempt exempt) schedule.now.plans) }
    ensures early { IfOk result (λ found. IfSome found
        (IsEarly machine.now now (is_exempt exempt) schedule.now.plans)) }
{
    machine_law(machine);
    let mut marks = low_marks(alloc, schedule, now + machine.lead, exempt)?;
    let mut steps = tight_steps(alloc, machine, schedule)?;
    spread(alloc, &mut steps, &mut marks)?;
    Ok(find_unmarked(schedule, marks.as_slice()))
}
