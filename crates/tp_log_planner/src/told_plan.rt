//! The plan that a record tells.
ghost use Rattle.std.specs.Prelude.{◌≡◌, ◌↔◌, ◌≤◌, All, IfErr, IfSome, IsTrue, MatchOption, MatchResult, length, option_copied};
ghost use Rattle.tp_schedule.specs.Answers.{IsAsked, acts_in};
ghost use Rattle.tp_schedule.specs.Legality.{IsLegal};
ghost use Rattle.tp_schedule.specs.Limits.{most_plan_points};
ghost use Rattle.tp_schedule.specs.Plans.{IsFormed, plan_of};
ghost use Rattle.tp_schedule.specs.declared.records.Record.TheVariants.{Plan as TellsPlan};
ghost use Rattle.tp_event_records.specs.RecordNames.{IsKnown};
ghost use Rattle.tp_event_rules.specs.AnswerRecords.{label_of_asked};
ghost use Rattle.tp_event_rules.specs.Labels.{end_location, location_name};
ghost use Rattle.tp_log_planner.specs.Breaches.{IsUnfit, IsUnjoined};
ghost use Rattle.tp_log_planner.specs.ToldPlans.{AreMismatched, DoFit, IsJoined, IsOnlyPlan, TellsNoForm, TellsNoPlan, plan_with, points_behind};
ghost use Rattle.tp_log_planner.specs.Reasons.{IsOff};

use crate::action_names::add_named;
use crate::failure::Wrong;
use crate::points::points_behind;
use tp_base::{Name, Tick};
use tp_event_records::location_name;
use tp_machine::{Machine, machine_law};
use tp_schedule::{Acts, Ask, Kind, Plan, Schedule};
use tp_schedule_check::{answers_ask, plan_of};

/// How many actions a plan may have.
const MOST_ACTS: u32 = 64;

/// The actions that the copy keeps.
fn kept_acts(front: Option<&Plan>) -> Acts
    ensures { result ≡ acts_in (option_copied front.entry) }
{
    match front {
        Some(front) => front.acts.copy(),
        None => Acts::new(),
    }
}

/// The first new point and the end of the front, where they are two.
fn find_apart(front: Option<&Plan>, points: &[Tick]) -> Option<Wrong>
    requires formed { IfSome (option_copied front) IsFormed }
    requires some { 1 ≤ length points.now }
    ensures joined { MatchOption result (IsJoined (option_copied front.entry) points.now)
        (λ reason. IsJoined (option_copied front.entry) points.now → ⊥) }
    ensures why { IfSome result
        (IsOff ⊥ (IsUnjoined (option_copied front.entry) points.now)) }
{
    match front {
        Some(front) => {
            let first = points[0];
            let end = front.points.get(front.acts.len());
            if first == end {
                None
            } else {
                Some(Wrong::Illegal {
                    first: i64::from(first),
                    second: i64::from(end),
                })
            }
        }
        None => None,
    }
}

/// Why new points and actions of these names don't fit the front.
fn find_unfit(front: Option<&Plan>, points: &[Tick], names: &[Name]) -> Option<Wrong>
    requires { IfSome (option_copied front) IsFormed }
    ensures fit { MatchOption result (DoFit (option_copied front.entry) points.now names.now)
        (λ reason. DoFit (option_copied front.entry) points.now names.now → ⊥) }
    ensures why { IfSome result
        (IsOff (AreMismatched points.now names.now)
        (IsUnfit (option_copied front.entry) points.now names.now)) }
{
    let kept = kept_acts(front);
    let count = u64::from(kept.len()) + names.len() as u64;
    if u64::from(MOST_ACTS) < count {
        return Some(Wrong::Illegal {
            first: i64::try_from(count).unwrap_or(i64::MAX),
            second: i64::from(MOST_ACTS),
        });
    }
    if names.is_empty() || points.len() != names.len() + 1 {
        return Some(Wrong::Due);
    }
    find_apart(front, points)
}

fn is_same_name(one: &Name, other: &Name) -> bool
    ensures { IsTrue result ↔ (one.now ≡ other.now) }
{
    one == other
}

/// The name of the location where the last action leads to.
fn end_name(machine: &Machine, plan: &Plan) -> Name
    requires formed { IsFormed plan.now }
    requires known { All (IsKnown machine.now) plan.now.acts }
    ensures { result ≡ location_name machine.now (end_location machine.now plan.now) }
{
    machine_law(machine);
    let last = plan.acts.get(plan.acts.len() - 1);
    let action = machine.actions.get(u32::from(last.0));
    location_name(machine, action.to)
}

/// The plan of the asked copy by its actions and its new points.
fn make_plan(ask: &Ask, front: Option<&Plan>, acts: Acts, points: &[Tick]) -> Plan
    requires some { 1 ≤ length points.now }
    requires room { length (points_behind (option_copied front) points.now) ≤ most_plan_points }
    ensures { result ≡ plan_with ask.entry.now (option_copied front.entry) acts points.now }
{
    Plan {
        sheet: ask.sheet,
        name: ask.name,
        want: ask.want,
        goal: ask.goal,
        kind: Kind::Whole,
        acts,
        points: points_behind(front, points),
        released: ask.origin.kept(),
    }
}

/// The plan that a record tells of the asked copy: to the place of this name, with these new points and actions.
pub(crate) fn read_plan(
    machine: &Machine,
    before: &Schedule,
    ask: &Ask,
    place: &Name,
    points: &[Tick],
    names: &[Name],
) -> Result<Plan, Wrong>
    requires legal { IsLegal machine.now before.now.plans }
    requires asked { IsAsked machine.now before.now.plans ask.now }
    ensures told { MatchResult result
        (IsOnlyPlan machine.now before.now.plans ask.entry.now
        (TellsPlan (label_of_asked ask.entry.now) place.now points.now names.now))
        (λ reason. TellsNoPlan machine.now before.now.plans ask.entry.now
        (TellsPlan (label_of_asked ask.entry.now) place.now points.now names.now)) }
    ensures why { IfErr result (IsOff (TellsNoForm machine.now before.now.plans ask.entry.now
        (TellsPlan (label_of_asked ask.entry.now) place.now points.now names.now))
        (IsUnfit (plan_of ask.entry.now.sheet before.now.plans) points.now names.now)) }
{
    machine_law(machine);
    let front = plan_of(before, ask.sheet);
    match find_unfit(front, points, names) {
        Some(reason) => return Err(reason),
        None => {}
    }
    let mut acts = kept_acts(front);
    let named = add_named(machine, names, &mut acts);
    if !named {
        return Err(Wrong::Due);
    }
    let plan = make_plan(ask, front, acts, points);
    let answers = answers_ask(machine, before, ask, &plan);
    if !answers {
        return Err(Wrong::Due);
    }
    let ends = is_same_name(&end_name(machine, &plan), place);
    if !ends {
        return Err(Wrong::Due);
    }
    Ok(plan)
}
