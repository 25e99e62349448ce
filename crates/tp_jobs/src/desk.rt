//! What can tell where it stands, and go on from where another stood.

ghost use Rattle.std.specs.Prelude.{◌≡◌, IfOk, OnErr, OnOk};
ghost use Rattle.tp_jobs.specs.declared.standing.Standing.{Standing};
ghost use Rattle.tp_machine.specs.declared.machine.Machine.{Machine};

use crate::standing::Standing;
use std::alloc::Global;
use tp_base::Memory;

/// What can tell where it stands, so that this can be saved, and go on from a standing that was saved.
pub trait Desk {
    // the machine that it plans for
    ghost machine: { Self → Machine };

    // where it stands
    ghost stands: { Self → Standing };

    // where a desk of the machine can stand
    ghost sound: { Machine → Standing → Type 0 };

    /// Where the desk stands now. Takes the time of all jobs.
    fn standing(&self, alloc: Global) -> Result<Standing, Memory>
        ensures { IfOk result (λ told. told ≡ stands self.now) };

    /// From now on the desk stands there. After `Memory` it is as before.
    fn restore(&mut self, standing: &Standing) -> Result<(), Memory>
        requires sound { sound (machine self.old) standing.now }
        ensures restored { OnOk result (stands self.new ≡ standing.entry.now) }
        ensures stays { OnErr result (stands self.new ≡ stands self.old) }
        ensures same_machine { machine self.new ≡ machine self.old };
}
