//! Which module a `jam`, an `off` or an `on` names, or why it is refused.

ghost use Rattle.std.specs.Prelude.{◌≡◌, ◌<◌, Some, length, option_map, IsTrue, IfSome, IfOk};
ghost use Rattle.tp_machine.specs.Limits.{most_modules};
ghost use Rattle.tp_event_rules.specs.Refusals.{jam_refusal, module_of, off_refusal, on_refusal};
ghost use Rattle.tp_event_turn.specs.ModuleChecks.{is_of_module, module_named, module_refusal, out_cause, out_cause_in};

use crate::out_fault::OutFault;
use tp_base::Name;
use tp_machine::{Machine, ModId, Outs, machine_law};
use tp_schedule::Cause;
use tp_script::Event;

/// The module of the event, or why it is refused where these modules are out: a module that is out may jam again, but not be
/// switched off, and only one that is out comes back. Takes no memory.
pub fn check_module(machine: &Machine, outs: Outs, event: &Event) -> Result<ModId, OutFault>
    requires { IsTrue (is_of_module event.now) }
    ensures refused { out_cause_in result ≡ module_refusal machine.now outs event.now }
    ensures found { IfOk result (λ id. module_named machine.now event.now ≡ Some id.0) }
    ensures there { IfOk result (λ id. id.0 < length machine.now.modules) }
    ensures known { IfOk result (λ id. id.0 < most_modules) }
{
    match event {
        Event::Jam { module } => find_named(machine, *module),
        Event::Off { module } => find_on(machine, outs, *module),
        Event::On { module } => find_out(machine, outs, *module),
        Event::Bad | Event::Job { .. } | Event::Clock { .. } | Event::Refill { .. } => {
            unreachable!()
        }
    }
}

/// The module of a name.
fn find_named(machine: &Machine, name: Name) -> Result<ModId, OutFault>
    ensures refused { out_cause_in result ≡ jam_refusal machine.now name }
    ensures found { IfOk result (λ id. module_of machine.now name ≡ Some id.0) }
    ensures there { IfOk result (λ id. id.0 < length machine.now.modules) }
    ensures known { IfOk result (λ id. id.0 < most_modules) }
{
    match module_of(machine, &name) {
        None => Err(OutFault::UnknownModule(name)),
        Some(id) => Ok(id),
    }
}

/// The module of a name, if it isn't out.
fn find_on(machine: &Machine, outs: Outs, name: Name) -> Result<ModId, OutFault>
    ensures refused { out_cause_in result ≡ off_refusal machine.now outs name }
    ensures found { IfOk result (λ id. module_of machine.now name ≡ Some id.0) }
    ensures there { IfOk result (λ id. id.0 < length machine.now.modules) }
    ensures known { IfOk result (λ id. id.0 < most_modules) }
{
    match module_of(machine, &name) {
        None => Err(OutFault::UnknownModule(name)),
        Some(id) => {
            if outs.contains(id) {
                Err(OutFault::AlreadyOut(name))
            } else {
                Ok(id)
            }
        }
    }
}

/// The module of a name, if it is out.
fn find_out(machine: &Machine, outs: Outs, name: Name) -> Result<ModId, OutFault>
    ensures refused { out_cause_in result ≡ on_refusal machine.now outs name }
    ensures found { IfOk result (λ id. module_of machine.now name ≡ Some id.0) }
    ensures there { IfOk result (λ id. id.0 < length machine.now.modules) }
    ensures known { IfOk result (λ id. id.0 < most_modules) }
{
    match module_of(machine, &name) {
        None => Err(OutFault::UnknownModule(name)),
        Some(id) => {
            if outs.contains(id) {
                Ok(id)
            } else {
                Err(OutFault::NotOut(name))
            }
        }
    }
}

/// The cause that records tell.
pub(crate) fn cause_of(fault: OutFault) -> Cause
    ensures { result ≡ out_cause fault }
{
    match fault {
        OutFault::UnknownModule(name) => Cause::Module(name),
        OutFault::AlreadyOut(name) => Cause::Out(name),
        OutFault::NotOut(name) => Cause::NotOn(name),
    }
}

/// The module of the name.
fn module_of(machine: &Machine, name: &Name) -> Option<ModId>
    ensures named { option_map (λ id. id.0) result ≡ module_of machine.now name.now }
    ensures there { IfSome result (λ id. id.0 < length machine.now.modules) }
{
    machine_law(machine);
    let at = machine.modules.find(name)?;
    Some(ModId(at as u8))
}
