//! Actions by their names.
ghost use Rattle.std.specs.Prelude.{◌≡◌, ◌≢◌, ◌+◌, ◌≤◌, ◌++◌, List, MatchBool, MatchOption, length};
ghost use Rattle.tp_machine.specs.declared.parts.ActId.{ActId};
ghost use Rattle.tp_schedule.specs.Limits.{most_acts};
ghost use Rattle.tp_event_records.specs.RecordNames.{IsKnown};
ghost use Rattle.tp_event_rules.specs.Labels.{action_name};
ghost use Rattle.tp_log_planner.specs.ToldPlans.{HaveNames};

use tp_base::Name;
use tp_machine::{ActId, Machine, machine_law};
use tp_schedule::Acts;

/// The action of this name.
fn act_named(machine: &Machine, name: &Name) -> Option<ActId>
    ensures { MatchOption result
        ((act : ActId) → IsKnown machine.now act → action_name machine.now act ≢ name.now)
        (λ act. IsKnown machine.now act × (action_name machine.now act ≡ name.now)) }
{
    machine_law(machine);
    'acts: for at in 0..machine.actions.len() {
        let action = machine.actions.get(at);
        if action.name == *name {
            return Some(ActId(at as u16));
        }
    }
    None
}

/// Adds the actions of these names, or answers false where one has none.
pub(crate) fn add_named(machine: &Machine, names: &[Name], acts: &mut Acts) -> bool
    requires { length acts.old + length names.now ≤ most_acts }
    ensures { MatchBool result
        ((ids : List ActId) × (acts.new ≡ acts.old ++ ids)
        × HaveNames machine.now names.now ids)
        ((ids : List ActId) → HaveNames machine.now names.now ids → ⊥) }
{
    if let [name, later @ ..] = names {
        match act_named(machine, name) {
            Some(act) => {
                acts.push(act);
                add_named(machine, later, acts)
            }
            None => false,
        }
    } else {
        true
    }
}
