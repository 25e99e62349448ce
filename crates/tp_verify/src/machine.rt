//! The machine that the shelf has under a name.

ghost use Rattle.std.specs.Prelude.{◌≡◌, IfOk, IfErr, IfSome, IsSome};
ghost use Rattle.tp_machine_text.specs.Texts.{IsMachineText};
ghost use Rattle.tp_outside.specs.Outside.{Rises, file_at};
ghost use Rattle.tp_verify.specs.Machines.{IsShelved, NoMachine};

use crate::{LongInput, VerifyStatus};
use std::alloc::Global;
use tp_machine::Machine;
use tp_machine_text::{MachineFault, read_machine};
use tp_outside::{ReadError, Shelf, read_file};

/// The most bytes of a machine text.
const MACHINE_BYTES: usize = 1_048_576;

/// Reads the machine text of this name. An `Err` is the status that the check ends with.
pub(crate) fn find_machine<H: Shelf>(
    alloc: Global,
    shelf: &mut H,
    name: &str,
) -> Result<Machine, VerifyStatus>
    ensures found { IfOk result (λ machine.
        IsShelved (H.known shelf.old) name.now (λ text. IsMachineText text machine)) }
    ensures none { IfErr result (NoMachine (H.known shelf.old) name.now) }
    ensures shelf { IfErr result (λ s. s ≡ VerifyStatus.Shelf
        → Rises (H.faults shelf.old) (H.faults shelf.new)) }
    ensures amiss { IfErr result (λ s. s ≡ VerifyStatus.Shelf → IfSome (H.known shelf.old)
        (λ files. IsSome (file_at files name.now)
        → Rises (H.amiss shelf.old) (H.amiss shelf.new))) }
{
    let text = match read_file(alloc, shelf, name, MACHINE_BYTES) {
        Ok(text) => text,
        Err(ReadError::Memory) => return Err(VerifyStatus::Memory),
        Err(ReadError::Failed) => return Err(VerifyStatus::Shelf),
        Err(ReadError::TooLong) => return Err(VerifyStatus::TooLong(LongInput::MachineText)),
    };
    match read_machine(alloc, &text) {
        Ok(machine) => Ok(machine),
        Err(MachineFault::Memory) => Err(VerifyStatus::Memory),
        Err(MachineFault::NotToml) => Err(VerifyStatus::Machine(MachineFault::NotToml)),
        Err(MachineFault::Rule(n)) => Err(VerifyStatus::Machine(MachineFault::Rule(n))),
    }
}
