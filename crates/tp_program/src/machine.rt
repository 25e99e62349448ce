//! The machine that the shelf has under a name.

ghost use Rattle.std.specs.Prelude.{◌≡◌, IfOk, IfErr, IfSome, IsSome, OnOk};
ghost use Rattle.tp_machine_text.specs.Texts.{IsMachineText};
ghost use Rattle.tp_outside.specs.Outside.{IsCounted, Rises, file_at};
ghost use Rattle.tp_program.specs.Runs.{NoMachine};
ghost use Rattle.tp_program.specs.Texts.{IsShelved};

use crate::Status;
use crate::text::find_text;
use std::alloc::Global;
use tp_machine::Machine;
use tp_machine_text::{MachineFault, read_machine};
use tp_outside::Shelf;

/// Reads the machine text of this name. An `Err` is the status that the run ends with.
pub(crate) fn find_machine<H: Shelf>(
    alloc: Global,
    shelf: &mut H,
    name: &str,
) -> Result<Machine, Status>
    ensures found { IfOk result (λ machine.
        IsShelved (H.known shelf.old) name.now (λ text. IsMachineText text machine)) }
    ensures none { IfErr result (NoMachine (H.known shelf.old) name.now) }
    ensures shelf { IfErr result (λ s. s ≡ Status.Shelf
        → Rises (H.faults shelf.old) (H.faults shelf.new)) }
    ensures amiss { IfErr result (λ s. s ≡ Status.Shelf → IfSome (H.known shelf.old) (λ files.
        IsSome (file_at files name.now) → Rises (H.amiss shelf.old) (H.amiss shelf.new))) }
    ensures known_stays { H.known shelf.new ≡ H.known shelf.old }
    ensures counted { IsCounted (H.faults shelf.old) (H.faults shelf.new) }
    ensures not_amiss { OnOk result (IfSome (H.known shelf.old)
        (λ _. H.amiss shelf.new ≡ H.amiss shelf.old)) }
{
    let text = match find_text(alloc, shelf, name) {
        Ok(text) => text,
        Err(status) => return Err(status),
    };
    match read_machine(alloc, &text) {
        Ok(machine) => Ok(machine),
        Err(MachineFault::Memory) => Err(Status::Memory),
        Err(MachineFault::NotToml) => Err(Status::Machine(MachineFault::NotToml)),
        Err(MachineFault::Rule(n)) => Err(Status::Machine(MachineFault::Rule(n))),
    }
}
