//! A snapshot read: its machine and its standing, which keep the ten rules.
ghost use Rattle.std.specs.Prelude.{◌≡◌, ◌↔◌, ℕ, IfErr, IfOk, IfSome, IsTrue, None, Some, codes};
ghost use Rattle.serde_json.specs.View.{view};
ghost use Rattle.tp_machine.specs.declared.machine.Machine.{Machine};
ghost use Rattle.tp_session_standing.specs.Sound.{IsSound};
ghost use Rattle.tp_snapshot.specs.Rules.{Breaks, BreaksOf, HasMachine, IsBrokenAt, IsSnapshot, KeepsRules, KeepsTo, has_keys};
ghost use Rattle.tp_machine_text.specs.Texts.{IsMachineText};
ghost use Rattle.tp_snapshot.specs.Texts.{IsJson, IsNotJson};
ghost use Rattle.tp_snapshot.specs.Values.{field_of, whole_of};

use crate::fault::SnapFault;
use crate::json_lookup::{has_key, has_members, read_whole, text_at, value_at};
use crate::standing_reader::standing_in;
use serde_json::Value;
use std::alloc::Global;
use tp_base::Memory;
use tp_jobs::Standing;
use tp_machine::Machine;
use tp_machine_text::{MachineFault, read_machine};
use tp_snapshot_rules::first_broken;

/// A machine and where its session stood.
#[derive(Drop)]
pub struct Opened {
    pub machine: Machine,
    pub standing: Standing,
}

/// The value of the bytes.
fn parse(alloc: Global, bytes: &[u8]) -> Result<Value, SnapFault>
    ensures ok { IfOk result (λ value. IsJson bytes.now (view value)) }
    ensures not_json { IfErr result (λ e. e ≡ SnapFault.NotJson → IsNotJson bytes.now) }
    ensures rule { IfErr result (λ e. (n : ℕ) → ¬ (e ≡ SnapFault.Rule n)) }
{
    match Value::from_slice(alloc, bytes) {
        Ok(value) => Ok(value),
        Err(error) if error.is_memory() => Err(SnapFault::Memory),
        Err(_) => Err(SnapFault::NotJson),
    }
}

/// Whether the value is an object of just the eight keys.
#[tactic(auto, unfolding(crate::specs::Rules::has_keys))]
fn has_keys(value: &Value) -> bool
    ensures { result ≡ has_keys (view value.now) }
{
    let settings = has_key(value, "format") && has_key(value, "machine") && has_key(value, "now");
    let supplies = has_key(value, "out") && has_key(value, "stock");
    let lists = has_key(value, "jobs") && has_key(value, "plans") && has_key(value, "waiting");
    has_members(value, 8) && settings && supplies && lists
}

/// Whether the format of the value is 1.
fn has_format(value: &Value) -> bool
    ensures { IsTrue result
        ↔ (field_of (codes "format") (whole_of 1) (view value.now) ≡ Some 1) }
{
    match value_at(value, "format") {
        Some(format) => read_whole(format, 1) == Some(1),
        None => false,
    }
}

/// The machine of a text.
fn machine_of(alloc: Global, text: &[u8]) -> Result<Option<Machine>, Memory>
    ensures some { IfOk result (λ read. IfSome read (IsMachineText text.now)) }
    ensures none { IfOk result (λ read. read ≡ None
        → (machine : Machine) → ¬ IsMachineText text.now machine) }
{
    match read_machine(alloc, text) {
        Ok(machine) => Ok(Some(machine)),
        Err(MachineFault::Memory) => Err(Memory),
        Err(MachineFault::NotToml) => Ok(None),
        Err(MachineFault::Rule(_)) => Ok(None),
    }
}

/// The machine of the value's text, where its format is 1.
fn machine_in(alloc: Global, value: &Value) -> Result<Option<Machine>, Memory>
    ensures some { IfOk result (λ read. IfSome read (HasMachine (view value.now))) }
    ensures none { IfOk result (λ read. read ≡ None
        → (machine : Machine) → ¬ HasMachine (view value.now) machine) }
{
    if !has_format(value) {
        return Ok(None);
    }
    match text_at(value, "machine") {
        Some(text) => machine_of(alloc, text.as_bytes()),
        None => Ok(None),
    }
}

/// The standing, where it keeps the rules from 7 on.
fn sound_in(
    alloc: Global,
    machine: &Machine,
    value: &Value,
    standing: Standing,
) -> Result<Standing, SnapFault>
    requires { KeepsTo 6 machine.now (view value.now) standing }
    ensures ok { IfOk result (KeepsTo 10 machine.now (view value.now)) }
    ensures not_json { IfErr result (λ e. ¬ (e ≡ SnapFault.NotJson)) }
    ensures rule { IfErr result (λ e. (n : ℕ) → e ≡ SnapFault.Rule n
        → BreaksOf n machine.now (view value.now)) }
{
    match first_broken(alloc, machine, &standing) {
        Ok(None) => Ok(standing),
        Ok(Some(rule)) => Err(SnapFault::Rule(rule)),
        Err(Memory) => Err(SnapFault::Memory),
    }
}

/// The standing that the value tells, where it keeps the rules from 3 on.
fn standing_of(alloc: Global, machine: &Machine, value: &Value) -> Result<Standing, SnapFault>
    ensures ok { IfOk result (KeepsTo 10 machine.now (view value.now)) }
    ensures not_json { IfErr result (λ e. ¬ (e ≡ SnapFault.NotJson)) }
    ensures rule { IfErr result (λ e. (n : ℕ) → e ≡ SnapFault.Rule n
        → BreaksOf n machine.now (view value.now)) }
{
    match standing_in(alloc, machine, value) {
        Ok(Ok(standing)) => sound_in(alloc, machine, value, standing),
        Ok(Err(rule)) => Err(SnapFault::Rule(rule)),
        Err(Memory) => Err(SnapFault::Memory),
    }
}

/// The machine with the standing that the value tells of it.
fn opened_with(alloc: Global, machine: Machine, value: &Value) -> Result<Opened, SnapFault>
    ensures ok { IfOk result (λ opened. (opened.machine ≡ machine)
        × KeepsTo 10 machine (view value.now) opened.standing) }
    ensures not_json { IfErr result (λ e. ¬ (e ≡ SnapFault.NotJson)) }
    ensures rule { IfErr result (λ e. (n : ℕ) → e ≡ SnapFault.Rule n
        → BreaksOf n machine (view value.now)) }
{
    match standing_of(alloc, &machine, value) {
        Ok(standing) => Ok(Opened { machine, standing }),
        Err(fault) => Err(fault),
    }
}

/// The machine and the standing that the value tells.
fn opened_in(alloc: Global, value: &Value) -> Result<Opened, SnapFault>
    ensures ok { IfOk result (λ opened.
        KeepsRules (view value.now) opened.machine opened.standing) }
    ensures not_json { IfErr result (λ e. ¬ (e ≡ SnapFault.NotJson)) }
    ensures rule { IfErr result (λ e. (n : ℕ) → e ≡ SnapFault.Rule n
        → Breaks n (view value.now)) }
{
    if !has_keys(value) {
        return Err(SnapFault::Rule(1));
    }
    match machine_in(alloc, value) {
        Ok(Some(machine)) => opened_with(alloc, machine, value),
        Ok(None) => Err(SnapFault::Rule(2)),
        Err(Memory) => Err(SnapFault::Memory),
    }
}

/// Reads a snapshot. Takes memory and time in proportion to the bytes.
pub fn read_snapshot(alloc: Global, bytes: &[u8]) -> Result<Opened, SnapFault>
    ensures ok { IfOk result (λ opened.
        IsSnapshot bytes.now opened.machine opened.standing) }
    ensures sound { IfOk result (λ opened. IsSound opened.machine opened.standing) }
    ensures not_json { IfErr result (λ e. e ≡ SnapFault.NotJson → IsNotJson bytes.now) }
    ensures rule { IfErr result (λ e. (n : ℕ) → e ≡ SnapFault.Rule n
        → IsBrokenAt n bytes.now) }
{
    match parse(alloc, bytes) {
        Ok(value) => opened_in(alloc, &value),
        Err(fault) => Err(fault),
    }
}
