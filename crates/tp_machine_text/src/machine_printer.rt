//! A machine as a machine text.
ghost use Rattle.std.specs.Prelude.{◌≡◌, IfOk, IsUtf8, string_bytes};
ghost use Rattle.tp_machine_text.specs.Texts.{IsMachineText, IsPrintedText};

use crate::machine_table::table_of;
use std::alloc::Global;
use tp_base::Memory;
use tp_machine::Machine;

/// Prints a machine as a text of format 2 that is read as an equal machine. Every key is there, in
/// byte order and on a line of its own. The feeders, the gaps, the resources, the stocks, each action
/// and each hold stand under a header.
pub fn print_machine(alloc: Global, machine: &Machine) -> Result<Vec<u8>, Memory>
    ensures reads { IfOk result (λ text. IsMachineText text.items machine.now) }
    ensures printed { IfOk result (λ text. IsPrintedText text.items machine.now) }
{
    let table = table_of(alloc, machine)?;
    match toml::table_to_string(alloc, &table) {
        Ok(text) => Ok(bytes_of(text)),
        Err(toml::ser::Error::OutOfMemory) => Err(Memory),
        // No machine's table holds a date.
        Err(toml::ser::Error::DateInvalid) => unreachable!(),
    }
}

fn bytes_of(text: String) -> Vec<u8>
    ensures bytes { result.items ≡ string_bytes text }
    ensures utf8 { IsUtf8 (string_bytes text) }
{
    // For the prover: brings that the bytes of a text are UTF-8.
    let _shown = text.as_str();
    text.into_bytes()
}
