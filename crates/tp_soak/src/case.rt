//! The case of a number: a machine and a script.

ghost use Rattle.std.specs.Prelude.{◌≡◌, All, IfOk, length};
ghost use Rattle.tp_soak.specs.Cases.{IsMachineFor, events_for};
ghost use Rattle.tp_soak.specs.Scripts.{IsScripted};

use crate::draws::Draws;
use crate::machine::machine_with;
use crate::made_engine::draw_engines;
use crate::script::script;
use std::alloc::Global;
use tp_base::Memory;
use tp_machine::Machine;
use tp_script::Event;

/// A machine, and the events of a script for it.
#[derive(Drop)]
pub struct Case {
    pub machine: Machine,
    pub events: Vec<Event>,
}

/// Makes the case of a number. `docs/formats.md` says how; the same number always gives the same case.
pub fn soak_case(alloc: Global, arg: u32) -> Result<Case, Memory>
    ensures machine { IfOk result (λ case. IsMachineFor arg case.machine) }
    ensures events { IfOk result (λ case. case.events.items ≡ events_for arg) }
    ensures whole { IfOk result (λ case. All IsScripted case.events.items) }
    ensures count { IfOk result (λ case. length case.events.items ≡ 27) }
{
    let mut draws = Draws::new(arg);
    let engines = draw_engines(alloc, &mut draws)?;
    let events = script(alloc, &mut draws)?;
    let machine = machine_with(alloc, &engines)?;
    Ok(Case { machine, events })
}
