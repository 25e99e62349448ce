//! What a machine's rules give to the layers above.
ghost use Rattle.tp_machine.specs.Machines.{IsMachine};

use crate::machine::Machine;

/// Every machine keeps the rules of a machine text. The call does nothing: its contract is the law.
pub fn machine_law(machine: &Machine)
    ensures { IsMachine machine.now }
{}
