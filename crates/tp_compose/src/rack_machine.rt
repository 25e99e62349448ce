//! What is composed of a rack text.
ghost use Rattle.std.specs.Prelude.{◌≡◌, ℕ, Some, None, IfOk, IfErr};
ghost use Rattle.toml.specs.View.{table_view};
ghost use Rattle.tp_machine_text.specs.Texts.{IsNotToml};
ghost use Rattle.tp_compose.specs.Broken.{first_broken};
ghost use Rattle.tp_compose.specs.Flat.{flat};
ghost use Rattle.tp_compose.specs.Texts.{flat_broken, IsMachineOfRack, IsRackBrokenAt, IsFlatBrokenAt, IsComposed, IsSoundRack, IsTextOf};

use crate::end_rules::{first_broken_end, first_ends, own_names};
use crate::flat_table::flat_of;
use crate::type_rules::first_broken_type;
use std::alloc::Global;
use toml::Table;
use tp_base::Memory;
use tp_machine::Machine;
use tp_machine_text::{MachineFault, print_machine, read_table};

/// Why nothing is composed of a text.
#[derive(Clone, Copy, PartialEq, Eq, Debug)]
pub enum RackFault {
    /// Memory ran out. It says nothing of the text.
    Memory,
    /// The bytes are not UTF-8, or not TOML.
    NotToml,
    /// The number of the first rule of racks, from 1 to 10, that the text breaks.
    Rule(u8),
    /// The number of the first rule of machine texts, from 1 to 26, that the rack's flat table breaks.
    Flat(u8),
}

/// Composes the machine text of a rack text.
pub fn compose(alloc: Global, text: &[u8]) -> Result<Vec<u8>, RackFault>
    ensures ok { IfOk result (λ bytes. IsComposed text.now bytes.items) }
    ensures sound { IfOk result (λ _. IsSoundRack text.now) }
    ensures not_toml { IfErr result (λ e. e ≡ RackFault.NotToml → IsNotToml text.now) }
    ensures rule { IfErr result (λ e. (n : ℕ) → e ≡ RackFault.Rule n
        → IsRackBrokenAt n text.now) }
    ensures flat { IfErr result (λ e. (n : ℕ) → e ≡ RackFault.Flat n
        → IsFlatBrokenAt n text.now) }
{
    match toml::table_from_slice(alloc, text) {
        Ok(table) => compose_table(alloc, &table),
        Err(error) if error.is_memory() => Err(RackFault::Memory),
        Err(_) => Err(RackFault::NotToml),
    }
}

/// Composes the machine text of a rack's table. It never returns NotToml.
fn compose_table(alloc: Global, table: &Table) -> Result<Vec<u8>, RackFault>
    ensures ok { IfOk result (λ bytes. (machine : Machine)
        × IsMachineOfRack (table_view table.now) machine × IsTextOf bytes.items machine) }
    ensures toml { IfErr result (λ e. ¬ (e ≡ RackFault.NotToml)) }
    ensures rule { IfErr result (λ e. (n : ℕ) → e ≡ RackFault.Rule n
        → first_broken (table_view table.now) ≡ Some n) }
    ensures flat { IfErr result (λ e. (n : ℕ) → e ≡ RackFault.Flat n
        → (first_broken (table_view table.now) ≡ None)
        × (flat_broken (table_view table.now) ≡ Some n)) }
{
    match machine_of(alloc, table) {
        Ok(machine) => match print_machine(alloc, &machine) {
            Ok(bytes) => Ok(bytes),
            Err(Memory) => Err(RackFault::Memory),
        },
        Err(fault) => Err(fault),
    }
}

/// The machine of a rack's table.
fn machine_of(alloc: Global, table: &Table) -> Result<Machine, RackFault>
    ensures ok { IfOk result (IsMachineOfRack (table_view table.now)) }
    ensures toml { IfErr result (λ e. ¬ (e ≡ RackFault.NotToml)) }
    ensures rule { IfErr result (λ e. (n : ℕ) → e ≡ RackFault.Rule n
        → first_broken (table_view table.now) ≡ Some n) }
    ensures flat { IfErr result (λ e. (n : ℕ) → e ≡ RackFault.Flat n
        → (first_broken (table_view table.now) ≡ None)
        × (flat_broken (table_view table.now) ≡ Some n)) }
{
    match flat_or_rule(alloc, table) {
        Ok(Ok(flat)) => read_flat(alloc, table, &flat),
        Ok(Err(rule)) => Err(RackFault::Rule(rule)),
        Err(Memory) => Err(RackFault::Memory),
    }
}

/// The machine of a flat table that was made of a rack's.
fn read_flat(alloc: Global, table: &Table, made: &Table) -> Result<Machine, RackFault>
    requires kept { first_broken (table_view table.now) ≡ None }
    requires made { table_view made.now ≡ flat (table_view table.now) }
    ensures ok { IfOk result (IsMachineOfRack (table_view table.now)) }
    ensures toml { IfErr result (λ e. ¬ (e ≡ RackFault.NotToml)) }
    ensures rule { IfErr result (λ e. (n : ℕ) → ¬ (e ≡ RackFault.Rule n)) }
    ensures flat { IfErr result (λ e. (n : ℕ) → e ≡ RackFault.Flat n
        → flat_broken (table_view table.now) ≡ Some n) }
{
    match read_table(alloc, made) {
        Ok(machine) => Ok(machine),
        Err(MachineFault::Rule(rule)) => Err(RackFault::Flat(rule)),
        Err(_) => Err(RackFault::Memory),
    }
}

/// The flat table, or the first rule of racks that is broken.
#[tactic(auto, unfolding(crate::specs::Broken::first_broken))]
fn flat_or_rule(alloc: Global, table: &Table) -> Result<Result<Table, u8>, Memory>
    ensures flat { IfOk result (λ found. IfOk found (λ made.
        (first_broken (table_view table.now) ≡ None)
        × (table_view made ≡ flat (table_view table.now)))) }
    ensures rule { IfOk result (λ found. IfErr found (λ rule.
        first_broken (table_view table.now) ≡ Some rule)) }
{
    if let Some(rule) = first_broken_type(table) {
        return Ok(Err(rule));
    }
    let own = own_names(alloc, table)?;
    let firsts = first_ends(alloc, table)?;
    if let Some(rule) = first_broken_end(alloc, table, &own, &firsts)? {
        return Ok(Err(rule));
    }
    Ok(Ok(flat_of(alloc, table, &own, &firsts)?))
}
