//! The plans of a snapshot, read and written.
ghost use Rattle.std.specs.Prelude.{◌≡◌, ◌+◌, ◌≤◌, ◌<◌, ◌^◌, IfOk, IfSome, OnOk, codes, length, nat_le, map, not, position, slice_get, true};
ghost use Rattle.std.specs.List.{list_all, prefix_len};
ghost use Rattle.std.specs.Str.{bytes_eq};
ghost use Rattle.serde_json.specs.Data.{array, boolean, put as with_member};
ghost use Rattle.serde_json.specs.View.{items_of, members_view, view};
ghost use Rattle.tp_machine.specs.Limits.{most_actions};
ghost use Rattle.tp_schedule.specs.Limits.{most_acts, most_live, most_plan_points};
ghost use Rattle.tp_schedule.specs.PlannerAnswers.{last_tick};
ghost use Rattle.tp_schedule.specs.Plans.{is_front};
ghost use Rattle.tp_jobs.specs.Backlogs.{names_of};
ghost use Rattle.tp_session_standing.specs.Sound.{last_point};
ghost use Rattle.tp_snapshot.specs.Plans.{act_in, act_named, course_of, goal_in, kind_of, owner_of, plan_of, plan_with, plans_of, released_of};
ghost use Rattle.tp_snapshot.specs.Values.{few_read, field_of, whole_of};
ghost use Rattle.tp_snapshot.specs.Written.{act_data, copy_data, goal_data, is_action, is_goal_known, is_plan_known, list_data, plan_data, want_data, whole_data};

use crate::copies::{copy_value, want_value};
use crate::course::{Owner, TimedActs};
use crate::jobs::read_tray;
use crate::json_lookup::{has_members, read_name, read_whole, truth_at, value_at, values_at};
use crate::json_values::name_value;
use crate::waiting_copies::{copy_at, want_at};
use indexmap::IndexSet;
use serde_json::{Map, Value, put};
use std::alloc::Global;
use tp_base::{Items, Memory, Name, Tick};
use tp_event_records::{action_name, location_name};
use tp_jobs::{JobRow, PlanRows};
use tp_machine::{ActId, Action, LocId, Machine, machine_law};
use tp_schedule::{Acts, Goal, Kind, Plan, Points};

/// The most plans of a snapshot, actions and points of a plan, and the last tick of a point.
const MOST_PLANS: usize = 256;

const MOST_ACTS: usize = 64;

const MOST_POINTS: usize = 65;

const LAST_POINT: u32 = 2_000_000_000;

/// The place of the action of this name.
fn place_named(actions: &[Action], name: &Name) -> Option<usize>
    ensures place { result ≡ position (λ a. bytes_eq name.now a.name) actions.now }
    ensures within { IfSome result (λ place. place < length actions.now) }
{
    actions.iter().position(|action| *name == action.name)
}

/// The action of this name.
fn act_named(actions: &[Action], name: &Name) -> Option<ActId>
    requires { length actions.now ≤ most_actions }
    ensures { result ≡ act_named actions.now name.now }
{
    match place_named(actions, name) {
        Some(place) => Some(ActId(place as u16)),
        None => None,
    }
}

fn read_act(machine: &Machine, value: &Value) -> Option<ActId>
    ensures { result ≡ act_in machine.now (view value.now) }
{
    machine_law(machine);
    act_named(machine.actions.as_slice(), &read_name(value)?)
}

fn acts_in(machine: &Machine, values: &[Value]) -> Option<Acts>
    ensures { result ≡ few_read most_acts (act_in machine.now) (map view values.now) }
{
    if values.len() > MOST_ACTS {
        return None;
    }
    let mut acts = Acts::new();
    for value in values {
        match read_act(machine, value) {
            Some(act) => acts.push(act),
            None => return None,
        }
    }
    Some(acts)
}

fn points_in(values: &[Value]) -> Option<Points>
    ensures { result ≡ few_read most_plan_points (whole_of last_point) (map view values.now) }
{
    if values.len() > MOST_POINTS {
        return None;
    }
    let mut points = Points::new();
    for value in values {
        match read_whole(value, LAST_POINT) {
            Some(point) => points.push(point),
            None => return None,
        }
    }
    Some(points)
}

/// The actions and points of a plan.
#[tactic(auto, unfolding(crate::specs::Plans::course_of))]
fn read_course(machine: &Machine, value: &Value) -> Option<TimedActs>
    ensures course { result ≡ course_of machine.now (view value.now) }
    ensures points { IfSome result (λ course. length course.points ≡ length course.acts + 1) }
{
    let acts = acts_in(machine, values_at(value, "acts")?)?;
    let points = points_in(values_at(value, "points")?)?;
    if 1 <= acts.len() && points.len() == acts.len() + 1 {
        Some(TimedActs { acts, points })
    } else {
        None
    }
}

/// Whose plan it is.
#[tactic(auto, unfolding(crate::specs::Plans::owner_of))]
fn read_owner(names: &IndexSet<Name>, value: &Value) -> Option<Owner>
    requires { length names.now.keys < 2 ^ 32 }
    ensures { result ≡ owner_of names.now.keys (view value.now) }
{
    let sheet = copy_at(names, value)?;
    let want = want_at(value)?;
    let whole = truth_at(value, "whole")?;
    Some(Owner { sheet, want, whole })
}

/// The job's tray, or a purge.
fn read_goal(machine: &Machine, tray: LocId, value: &Value) -> Option<Goal>
    ensures { result ≡ goal_in machine.now tray (view value.now) }
{
    if value.is_null() {
        return Some(Goal::Purge);
    }
    let goal = read_tray(machine, value)?;
    if goal == tray {
        Some(Goal::Tray(goal))
    } else {
        None
    }
}

fn goal_at(machine: &Machine, tray: LocId, value: &Value) -> Option<Goal>
    ensures { result ≡ field_of (codes "goal") (goal_in machine.now tray) (view value.now) }
{
    read_goal(machine, tray, value_at(value, "goal")?)
}

fn kind_of(whole: bool) -> Kind
    ensures { result ≡ kind_of whole }
{
    if whole { Kind::Whole } else { Kind::Front }
}

/// How many of the first starts are not after this tick.
fn count_started(by: Tick, starts: &[Tick]) -> u32
    requires { length starts.now ≤ most_acts }
    ensures count { result ≡ prefix_len (λ start. nat_le start by) starts.now }
    ensures within { result ≤ length starts.now }
{
    match starts {
        [start, rest @ ..] if *start <= by => 1 + count_started(by, rest),
        _ => 0,
    }
}

/// How many actions with these starts count as released where those do that start by this tick.
fn released_of(by: Tick, kind: Kind, starts: &[Tick]) -> u32
    requires { length starts.now ≤ most_acts }
    ensures { result ≡ released_of by kind starts.now }
{
    match kind {
        Kind::Front => starts.len() as u32,
        Kind::Whole => count_started(by, starts),
    }
}

fn plan_with(by: Tick, job: &JobRow, owner: Owner, course: TimedActs, goal: Goal) -> Plan
    requires few { length course.acts ≤ most_acts }
    requires points { length course.acts ≤ length course.points }
    ensures { result ≡ plan_with by job.now owner course goal }
{
    let kind = kind_of(owner.whole);
    let starts = &course.points.as_slice()[..course.acts.len() as usize];
    let released = released_of(by, kind, starts);
    Plan {
        sheet: owner.sheet,
        name: job.name,
        want: owner.want,
        goal,
        kind,
        acts: course.acts,
        points: course.points,
        released,
    }
}

fn job_at(jobs: &[JobRow], at: u32) -> Option<JobRow>
    ensures { result ≡ slice_get jobs.now at }
{
    match jobs.get(at as usize) {
        Some(job) => Some(*job),
        None => None,
    }
}

/// A plan of one of the jobs, whose names these are.
#[tactic(auto, unfolding(crate::specs::Plans::plan_of, crate::specs::Plans::plan_from))]
fn read_plan(
    machine: &Machine,
    now: Tick,
    jobs: &[JobRow],
    names: &IndexSet<Name>,
    value: &Value,
) -> Option<Plan>
    requires names { names.now.keys ≡ names_of jobs.now }
    requires few { length names.now.keys < 2 ^ 32 }
    requires moment { now ≤ last_tick }
    ensures { result ≡ plan_of machine.now now jobs.now (view value.now) }
{
    machine_law(machine);
    if !has_members(value, 6) {
        return None;
    }
    let owner = read_owner(names, value)?;
    let job = job_at(jobs, owner.sheet.job)?;
    let course = read_course(machine, value)?;
    let goal = goal_at(machine, job.tray, value)?;
    Some(plan_with(now + machine.lead, &job, owner, course, goal))
}

fn plans_in(
    alloc: Global,
    machine: &Machine,
    now: Tick,
    jobs: &[JobRow],
    names: &IndexSet<Name>,
    values: &[Value],
) -> Result<Option<PlanRows>, Memory>
    requires names { names.now.keys ≡ names_of jobs.now }
    requires few { length names.now.keys < 2 ^ 32 }
    requires moment { now ≤ last_tick }
    ensures { IfOk result (λ plans. plans
        ≡ few_read most_live (plan_of machine.now now jobs.now) (map view values.now)) }
{
    if values.len() > MOST_PLANS {
        return Ok(None);
    }
    let mut plans = Items::new(alloc);
    for value in values {
        match read_plan(machine, now, jobs, names, value) {
            Some(plan) => plans.push(plan)?,
            None => return Ok(None),
        }
    }
    Ok(Some(plans))
}

/// The plans of a snapshot at the moment `now`.
pub(crate) fn read_plans(
    alloc: Global,
    machine: &Machine,
    now: Tick,
    jobs: &[JobRow],
    names: &IndexSet<Name>,
    value: &Value,
) -> Result<Option<PlanRows>, Memory>
    requires names { names.now.keys ≡ names_of jobs.now }
    requires few { length names.now.keys < 2 ^ 32 }
    requires moment { now ≤ last_tick }
    ensures { IfOk result (λ plans. plans ≡ plans_of machine.now now jobs.now (view value.now)) }
{
    match values_at(value, "plans") {
        Some(values) => plans_in(alloc, machine, now, jobs, names, values),
        None => Ok(None),
    }
}

fn acts_value(alloc: Global, machine: &Machine, acts: &[ActId]) -> Result<Value, Memory>
    requires { list_all (is_action machine.now) acts.now ≡ true }
    ensures { IfOk result (λ value. view value
        ≡ array (items_of (map (act_data machine.now) acts.now))) }
{
    let mut array = Vec::new(alloc);
    let mut rest = acts;
    'acts: while let [act, others @ ..] = rest {
        array.push(name_value(alloc, &action_name(machine, *act))?)?;
        rest = others;
    }
    Ok(Value::from(array))
}

fn points_value(alloc: Global, points: &[Tick]) -> Result<Value, Memory>
    ensures { IfOk result (λ value. view value ≡ array (items_of (map whole_data points.now))) }
{
    let mut array = Vec::new(alloc);
    let mut rest = points;
    'points: while let [point, others @ ..] = rest {
        array.push(Value::from(*point))?;
        rest = others;
    }
    Ok(Value::from(array))
}

fn goal_value(alloc: Global, machine: &Machine, goal: Goal) -> Result<Value, Memory>
    requires { is_goal_known machine.now goal ≡ true }
    ensures { IfOk result (λ value. view value ≡ goal_data machine.now goal) }
{
    match goal {
        Goal::Tray(tray) => name_value(alloc, &location_name(machine, tray)),
        Goal::Purge => Ok(Value::Null),
    }
}

fn is_whole(kind: Kind) -> bool
    ensures { result ≡ not (is_front kind) }
{
    match kind {
        Kind::Whole => true,
        Kind::Front => false,
    }
}

/// Puts what a plan is into the members of its object.
#[tactic(auto, unfolding(crate::specs::Written::is_plan_known))]
fn put_plan(
    alloc: Global,
    members: &mut Map<String, Value>,
    machine: &Machine,
    plan: &Plan,
) -> Result<(), Memory>
    requires { is_plan_known machine.now plan.now ≡ true }
    ensures { OnOk result (members_view members.new.entries
        ≡ with_member (codes "whole") (boolean (not (is_front plan.now.kind)))
        (with_member (codes "want") (want_data plan.now.want)
        (with_member (codes "sheet") (copy_data plan.now.name plan.now.sheet)
        (with_member (codes "points") (list_data whole_data plan.now.points)
        (with_member (codes "goal") (goal_data machine.now plan.now.goal)
        (with_member (codes "acts") (list_data (act_data machine.now) plan.now.acts)
        (members_view members.old.entries))))))) }
{
    put(
        members,
        alloc,
        "acts",
        acts_value(alloc, machine, plan.acts.as_slice())?,
    )?;
    put(
        members,
        alloc,
        "goal",
        goal_value(alloc, machine, plan.goal)?,
    )?;
    put(
        members,
        alloc,
        "points",
        points_value(alloc, plan.points.as_slice())?,
    )?;
    put(
        members,
        alloc,
        "sheet",
        copy_value(alloc, plan.name, plan.sheet)?,
    )?;
    put(members, alloc, "want", want_value(alloc, &plan.want)?)?;
    put(members, alloc, "whole", Value::from(is_whole(plan.kind)))?;
    Ok(())
}

#[tactic(auto, unfolding(crate::specs::Written::plan_data))]
fn plan_value(alloc: Global, machine: &Machine, plan: &Plan) -> Result<Value, Memory>
    requires { is_plan_known machine.now plan.now ≡ true }
    ensures { IfOk result (λ value. view value ≡ plan_data machine.now plan.now) }
{
    let mut members = Map::new(alloc);
    put_plan(alloc, &mut members, machine, plan)?;
    Ok(Value::Object(members))
}

/// An array of the plans.
pub(crate) fn plans_value(alloc: Global, machine: &Machine, plans: &[Plan]) -> Result<Value, Memory>
    requires { list_all (is_plan_known machine.now) plans.now ≡ true }
    ensures { IfOk result (λ value. view value
        ≡ array (items_of (map (plan_data machine.now) plans.now))) }
{
    let mut array = Vec::new(alloc);
    let mut rest = plans;
    'plans: while let [plan, others @ ..] = rest {
        array.push(plan_value(alloc, machine, plan)?)?;
        rest = others;
    }
    Ok(Value::from(array))
}
