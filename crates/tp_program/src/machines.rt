//! The machines that a list on the shelf names.

ghost use Rattle.std.specs.Prelude.{◌≡◌, ◌+◌, ◌≤◌, [], All, length, map, IfOk, IfErr, IfSome, IsSome, OnOk};
ghost use Rattle.std.specs.List.{AllZip};
ghost use Rattle.tp_command.specs.App.{seen};
ghost use Rattle.tp_farm.specs.Inside.{state_of};
ghost use Rattle.tp_outside.specs.Outside.{IsCounted, Rises, file_at};
ghost use Rattle.tp_program.specs.FarmEnds.{NoneListedMissing, BeginsOn, IsFarmFor, NoFarm, NoMachines, NoneMissing, of_machine};
ghost use Rattle.tp_program.specs.Runs.{NoMachine};
ghost use Rattle.tp_words.specs.Parts.{shown};

use crate::Status;
use crate::farm_fault::FarmFault;
use crate::machine::find_machine;
use crate::text::find_text;
use std::alloc::Global;
use tp_command::Request;
use tp_farm::{Farm, ListFault, read_list};
use tp_outside::Shelf;
use tp_session::{Session, Settings};

/// What the status of one machine says of a farm in which it has this number.
fn of_machine(number: u32, status: Status) -> Status
    ensures { result ≡ of_machine number status }
{
    match status {
        Status::Machine(fault) => Status::Farm(FarmFault::Machine { at: number, fault }),
        Status::Done
        | Status::Memory
        | Status::Usage
        | Status::Shelf
        | Status::Source
        | Status::Sink
        | Status::TooLong(_)
        | Status::Rejected(_)
        | Status::Snapshot(_)
        | Status::Rack(_)
        | Status::Farm(_) => status,
    }
}

/// A session on the machine of this name. An `Err` is the status of a run on it.
fn find_session<H: Shelf>(
    alloc: Global,
    shelf: &mut H,
    name: &str,
    settings: Settings,
) -> Result<Session, Status>
    ensures begins { IfOk result (λ session.
        BeginsOn (H.known shelf.old) settings.budget settings.bounds name.now session.standing) }
    ensures fresh { IfOk result (λ session. (session.text ≡ []) × (session.answered ≡ 0)) }
    ensures none { IfErr result (NoMachine (H.known shelf.old) name.now) }
    ensures shelf { IfErr result (λ s. s ≡ Status.Shelf
        → Rises (H.faults shelf.old) (H.faults shelf.new)) }
    ensures amiss { IfErr result (λ s. s ≡ Status.Shelf → IfSome (H.known shelf.old) (λ files.
        IsSome (file_at files name.now) → Rises (H.amiss shelf.old) (H.amiss shelf.new))) }
    ensures known_stays { H.known shelf.new ≡ H.known shelf.old }
    ensures counted { IsCounted (H.faults shelf.old) (H.faults shelf.new) }
    ensures not_amiss { OnOk result (IfSome (H.known shelf.old)
        (λ _. H.amiss shelf.new ≡ H.amiss shelf.old)) }
{
    let machine = match find_machine(alloc, shelf, name) {
        Ok(machine) => machine,
        Err(status) => return Err(status),
    };
    match Session::new(alloc, machine, settings) {
        Ok(session) => Ok(session),
        Err(_) => Err(Status::Memory),
    }
}

/// A session on the machine of each name, in their order. Each text is read and looked at before the next one.
fn find_sessions<H: Shelf>(
    alloc: Global,
    shelf: &mut H,
    names: &[&str],
    settings: Settings,
) -> Result<Vec<Session>, Status>
    requires { length names.now ≤ 8 }
    ensures begin { IfOk result (λ sessions.
        AllZip (BeginsOn (H.known shelf.old) settings.budget settings.bounds) (shown names.now)
        (map (λ s. s.standing) sessions.items)) }
    ensures fresh { IfOk result (λ sessions.
        All (λ s. (s.text ≡ []) × (s.answered ≡ 0)) sessions.items) }
    ensures none { IfErr result (NoMachines (H.known shelf.old) (shown names.now)) }
    ensures shelf { IfErr result (λ s. s ≡ Status.Shelf
        → Rises (H.faults shelf.old) (H.faults shelf.new)) }
    ensures amiss { IfErr result (λ s. s ≡ Status.Shelf → IfSome (H.known shelf.old) (λ files.
        NoneMissing files (shown names.now) → Rises (H.amiss shelf.old) (H.amiss shelf.new))) }
{
    let mut sessions = Vec::new(alloc);
    for (place, name) in names.iter().enumerate() {
        match find_session(alloc, shelf, name, settings) {
            Ok(session) => match sessions.push(session) {
                Ok(()) => {}
                Err(_) => return Err(Status::Memory),
            },
            Err(status) => return Err(of_machine(place as u32 + 1, status)),
        }
    }
    Ok(sessions)
}

/// The farm of the machines that the list of ARG names, at their start. An `Err` is the status that all ends with.
pub(crate) fn find_farm<H: Shelf>(
    alloc: Global,
    request: &Request<'_>,
    shelf: &mut H,
) -> Result<Farm<Session>, Status>
    ensures found { IfOk result (λ farm. IsFarmFor (H.known shelf.old) (seen request.now)
        (state_of (λ s. s.standing) farm)) }
    ensures fresh { IfOk result (λ farm. farm.lines ≡ 0) }
    ensures none { IfErr result (NoFarm (H.known shelf.old) request.now.arg.now) }
    ensures shelf { IfErr result (λ s. s ≡ Status.Shelf
        → Rises (H.faults shelf.old) (H.faults shelf.new)) }
    ensures amiss { IfErr result (λ s. s ≡ Status.Shelf → IfSome (H.known shelf.old) (λ files.
        IsSome (file_at files request.now.arg.now) → NoneListedMissing files request.now.arg.now
        → Rises (H.amiss shelf.old) (H.amiss shelf.new))) }
{
    let list = match find_text(alloc, shelf, request.arg) {
        Ok(list) => list,
        Err(status) => return Err(status),
    };
    let names = match read_list(alloc, &list) {
        Ok(names) => names,
        Err(ListFault::Memory) => return Err(Status::Memory),
        Err(ListFault::Lines) => return Err(Status::Farm(FarmFault::Lines)),
        Err(ListFault::Name(number)) => return Err(Status::Farm(FarmFault::Name(number))),
    };
    let settings = Settings {
        budget: request.budget,
        bounds: request.bounds,
    };
    match find_sessions(alloc, shelf, &names, settings) {
        Ok(sessions) => Ok(Farm::new(alloc, sessions)),
        Err(status) => Err(status),
    }
}
