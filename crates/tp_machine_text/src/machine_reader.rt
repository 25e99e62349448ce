//! Machine texts, read: a machine, or the first rule that is broken.
ghost use Rattle.std.specs.Prelude.{◌≡◌, ℕ, Some, None, IfOk, IfErr};
ghost use Rattle.toml.specs.View.{table_view};
ghost use Rattle.tp_machine_text.specs.Broken.{first_broken};
ghost use Rattle.tp_machine_text.specs.TheMachine.{IsMachineOf};
ghost use Rattle.tp_machine_text.specs.Texts.{IsNotToml, IsBrokenAt, IsMachineText, IsSound};

use crate::machine::machine_of;
use crate::rules::first_broken;
use std::alloc::Global;
use toml::Table;
use tp_base::Memory;
use tp_machine::Machine;

/// Why a text is no machine text.
#[derive(Clone, Copy, PartialEq, Eq, Debug)]
pub enum MachineFault {
    /// Memory ran out. It says nothing of the text.
    Memory,
    /// The bytes are not UTF-8, or not TOML.
    NotToml,
    /// The number of the first rule, from 1 to 26, that the text breaks.
    Rule(u8),
}

/// Reads a machine text.
pub fn read_machine(alloc: Global, text: &[u8]) -> Result<Machine, MachineFault>
    ensures ok { IfOk result (IsMachineText text.now) }
    ensures sound { IfOk result (λ _. IsSound text.now) }
    ensures not_toml { IfErr result (λ e. e ≡ MachineFault.NotToml → IsNotToml text.now) }
    ensures rule { IfErr result (λ e. (n : ℕ) → e ≡ MachineFault.Rule n
        → IsBrokenAt n text.now) }
{
    match toml::table_from_slice(alloc, text) {
        Ok(table) => read_table(alloc, &table),
        Err(error) if error.is_memory() => Err(MachineFault::Memory),
        Err(_) => Err(MachineFault::NotToml),
    }
}

/// Reads the table of a machine text.
pub fn read_table(alloc: Global, table: &Table) -> Result<Machine, MachineFault>
    ensures ok { IfOk result (IsMachineOf (table_view table.now)) }
    ensures kept { IfOk result (λ _. first_broken (table_view table.now) ≡ None) }
    ensures toml { IfErr result (λ e. ¬ (e ≡ MachineFault.NotToml)) }
    ensures rule { IfErr result (λ e. (n : ℕ) → e ≡ MachineFault.Rule n
        → first_broken (table_view table.now) ≡ Some n) }
{
    if let Some(rule) = first_broken(table) {
        return Err(MachineFault::Rule(rule));
    }
    match machine_of(alloc, table) {
        Ok(machine) => Ok(machine),
        Err(Memory) => Err(MachineFault::Memory),
    }
}
