//! The names by which records call copies, locations, goals and actions.

ghost use Rattle.std.specs.Prelude.{◌≡◌};
ghost use Rattle.tp_machine.specs.Machines.{IsLocation};
ghost use Rattle.tp_schedule.specs.PlannerAnswers.{IsKnownGoal};
ghost use Rattle.tp_schedule.specs.Plans.{IsTimedPlan};
ghost use Rattle.tp_event_rules.specs.Labels.{action_name, end_location, goal_name, label_by, location_name};
ghost use Rattle.tp_event_records.specs.RecordNames.{IsKnown};

use tp_base::Name;
use tp_machine::{ActId, LocId, Machine, machine_law};
use tp_schedule::{Goal, Plan, SheetId, SheetName};

/// A copy by the name of its job.
pub fn label(name: Name, sheet: SheetId) -> SheetName
    ensures { result ≡ label_by name sheet }
{
    SheetName {
        job: name,
        number: sheet.number,
        copy: sheet.copy,
    }
}

pub fn location_name(machine: &Machine, loc: LocId) -> Name
    requires { IsLocation machine.now loc }
    ensures { result ≡ location_name machine.now loc }
{
    machine.locations.get(loc.0)
}

pub fn action_name(machine: &Machine, act: ActId) -> Name
    requires { IsKnown machine.now act }
    ensures { result ≡ action_name machine.now act }
{
    machine.actions.get(u32::from(act.0)).name
}

/// The tray's name, or None for a purge.
pub fn goal_name(machine: &Machine, goal: Goal) -> Option<Name>
    requires { IsKnownGoal machine.now goal }
    ensures { result ≡ goal_name machine.now goal }
{
    machine_law(machine);
    match goal {
        Goal::Tray(tray) => Some(location_name(machine, tray)),
        Goal::Purge => None,
    }
}

/// The name of the location where a plan ends.
pub fn end_name(machine: &Machine, plan: &Plan) -> Name
    requires { IsTimedPlan machine.now plan.now }
    ensures { result ≡ location_name machine.now (end_location machine.now plan.now) }
{
    machine_law(machine);
    let last = plan.acts.get(plan.acts.len() - 1);
    let action = machine.actions.get(u32::from(last.0));
    location_name(machine, action.to)
}
