//! How long an action may last.
ghost use Rattle.std.specs.Prelude.{◌≡◌, IfSome, option_copied};
ghost use Rattle.tp_machine.specs.ModuleUse.{action_at};
ghost use Rattle.tp_bound_check.specs.Ranges.{IsShort, range_in};
ghost use Rattle.tp_bound_laws.specs.Chains.{act_in};

use tp_machine::{ActId, Action, Machine, machine_law};

/// The least and the most that an action lasts.
#[derive(Clone, Copy)]
pub(crate) struct ActLength {
    pub(crate) least: u32,
    pub(crate) most: u32,
}

/// The action, if the machine has it.
pub(crate) fn action_of(machine: &Machine, act: ActId) -> Option<&Action>
    ensures { option_copied result ≡ action_at machine.now act.0 }
{
    machine.actions.as_slice().get(usize::from(act.0))
}

/// The range of the action.
pub(crate) fn range_of(machine: &Machine, act: Option<ActId>) -> Option<ActLength>
    ensures range { result ≡ range_in (act_in machine.now act) }
    ensures short { IfSome result IsShort }
{
    machine_law(machine);
    match act {
        Some(act) => match action_of(machine, act) {
            Some(action) => Some(ActLength {
                least: action.least,
                most: action.most,
            }),
            None => None,
        },
        None => None,
    }
}
