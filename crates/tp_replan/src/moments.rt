//! What a plan does at a moment.

ghost use Rattle.std.specs.Prelude.{◌≡◌, ℕ, ◌≤◌, ◌&&◌, not, nat_le, nat_lt, length, count_by};
ghost use Rattle.std.specs.List.{list_any};
ghost use Rattle.tp_schedule.specs.Holders.{runs_from};
ghost use Rattle.tp_schedule.specs.Plans.{IsFormed};
ghost use Rattle.tp_schedule.specs.declared.parts.SheetId.{SheetId};
ghost use Rattle.tp_event_rules.specs.Moments.{does_use, is_entering, is_in_flight, is_running};
ghost use Rattle.tp_event_rules.specs.Moments.{is_running_on, is_started, is_to_run_on, is_to_tray};
ghost use Rattle.tp_event_rules.specs.Moments.{is_tray_plan, is_unstarted, started_count};

use tp_base::Tick;
use tp_machine::{ActId, Machine, ModId, uses};
use tp_schedule::{Goal, Kind, Plan};

/// Whether what runs from start to end runs now.
fn is_within(now: Tick, start: Tick, end: Tick) -> bool
    ensures { result ≡ (nat_le start now && nat_lt now end) }
{
    start <= now && now < end
}

fn is_any_running(now: Tick, acts: &[ActId], points: &[Tick]) -> bool
    ensures { (sheet : SheetId) (number : ℕ)
        → list_any (is_running now) (runs_from sheet number acts.now points.now) ≡ result }
{
    if let [_, later @ ..] = acts
        && let [start, end, ..] = points
    {
        let here = is_within(now, *start, *end);
        let after = is_any_running(now, later, &points[1..]);
        here || after
    } else {
        false
    }
}

/// Whether an action of the plan runs.
pub(crate) fn is_in_flight(plan: &Plan, now: Tick) -> bool
    ensures { result ≡ is_in_flight now plan.now }
{
    is_any_running(now, plan.acts.as_slice(), plan.points.as_slice())
}

/// Whether the plan's first action is yet to start.
pub(crate) fn is_unstarted(plan: &Plan, now: Tick) -> bool
    requires { IsFormed plan.now }
    ensures { result ≡ is_unstarted now plan.now }
{
    now < plan.points.get(0)
}

pub(crate) fn is_to_tray(goal: Goal) -> bool
    ensures { result ≡ is_to_tray goal }
{
    match goal {
        Goal::Tray(_) => true,
        Goal::Purge => false,
    }
}

/// Whether the plan is whole and goes to a tray.
fn is_tray_plan(plan: &Plan) -> bool
    ensures { result ≡ is_tray_plan plan.now }
{
    match plan.kind {
        Kind::Front => false,
        Kind::Whole => is_to_tray(plan.goal),
    }
}

/// Whether the last action of the plan runs, by which the copy enters its tray.
pub(crate) fn is_entering(plan: &Plan, now: Tick) -> bool
    requires { IsFormed plan.now }
    ensures { result ≡ is_entering now plan.now }
{
    let count = plan.acts.len();
    let start = plan.points.get(count - 1);
    let end = plan.points.get(count);
    let runs = is_within(now, start, end);
    is_tray_plan(plan) && runs
}

/// Whether the action uses the module.
fn does_use(machine: &Machine, id: ModId, act: ActId) -> bool
    ensures { result ≡ does_use machine.now id.0 act }
{
    if u32::from(act.0) < machine.actions.len() {
        uses(machine, act, id)
    } else {
        false
    }
}

/// Whether the action, which takes from `start` to `end`, runs now and uses the module.
fn does_run_on(machine: &Machine, now: Tick, id: ModId, act: ActId, start: Tick, end: Tick) -> bool
    ensures { result ≡ ((nat_le start now && nat_lt now end) && does_use machine.now id.0 act) }
{
    is_within(now, start, end) && does_use(machine, id, act)
}

fn is_any_running_on(
    machine: &Machine,
    now: Tick,
    id: ModId,
    acts: &[ActId],
    points: &[Tick],
) -> bool
    ensures { (sheet : SheetId) (number : ℕ)
        → list_any (λ run. is_running now run && does_use machine.now id.0 run.act)
        (runs_from sheet number acts.now points.now) ≡ result }
{
    if let [act, later @ ..] = acts
        && let [start, end, ..] = points
    {
        let here = does_run_on(machine, now, id, *act, *start, *end);
        let after = is_any_running_on(machine, now, id, later, &points[1..]);
        here || after
    } else {
        false
    }
}

/// Whether the action of the plan that runs uses the module.
pub(crate) fn is_running_on(machine: &Machine, plan: &Plan, now: Tick, id: ModId) -> bool
    ensures { result ≡ is_running_on machine.now now id.0 plan.now }
{
    let points = plan.points.as_slice();
    is_any_running_on(machine, now, id, plan.acts.as_slice(), points)
}

/// Whether the action, which begins at `start`, is yet to start and uses the module.
fn is_to_use(machine: &Machine, now: Tick, id: ModId, act: ActId, start: Tick) -> bool
    ensures { result ≡ (not (nat_le start now) && does_use machine.now id.0 act) }
{
    now < start && does_use(machine, id, act)
}

fn is_any_to_run_on(
    machine: &Machine,
    now: Tick,
    id: ModId,
    acts: &[ActId],
    points: &[Tick],
) -> bool
    ensures { (sheet : SheetId) (number : ℕ)
        → list_any (λ run. not (is_started now run) && does_use machine.now id.0 run.act)
        (runs_from sheet number acts.now points.now) ≡ result }
{
    if let [act, later @ ..] = acts
        && let [start, _, ..] = points
    {
        let here = is_to_use(machine, now, id, *act, *start);
        let after = is_any_to_run_on(machine, now, id, later, &points[1..]);
        here || after
    } else {
        false
    }
}

/// Whether an action of the plan that is yet to start uses the module.
pub(crate) fn is_to_run_on(machine: &Machine, plan: &Plan, now: Tick, id: ModId) -> bool
    ensures { result ≡ is_to_run_on machine.now now id.0 plan.now }
{
    let points = plan.points.as_slice();
    is_any_to_run_on(machine, now, id, plan.acts.as_slice(), points)
}

fn count_started(now: Tick, acts: &[ActId], points: &[Tick]) -> usize
    ensures count { (sheet : SheetId) (number : ℕ)
        → count_by (is_started now) (runs_from sheet number acts.now points.now) ≡ result }
    ensures within { result ≤ length acts.now }
{
    if let [_, later @ ..] = acts
        && let [start, _, ..] = points
    {
        let after = count_started(now, later, &points[1..]);
        if *start <= now { after + 1 } else { after }
    } else {
        0
    }
}

/// How many actions of the plan have started.
pub(crate) fn started_count(plan: &Plan, now: Tick) -> u32
    ensures count { result ≡ started_count now plan.now }
    ensures within { result ≤ length plan.now.acts }
{
    count_started(now, plan.acts.as_slice(), plan.points.as_slice()) as u32
}
