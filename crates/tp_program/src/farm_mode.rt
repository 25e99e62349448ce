//! A farm: a script answered on the machines that a list names.

ghost use Rattle.std.specs.Prelude.{◌≡◌, ℕ, Bool, List, Option, IfSome, IsSome};
ghost use Rattle.tp_command.specs.App.{seen};
ghost use Rattle.tp_farm.specs.Inside.{state_of};
ghost use Rattle.tp_program.specs.FarmRuns.{farm_start};
ghost use Rattle.tp_machine.specs.declared.machine.Machine.{Machine};
ghost use Rattle.tp_outside.specs.Outside.{Rises, file_at};
ghost use Rattle.tp_program.specs.FarmEnds.{NoneListedMissing, FarmEnds, FarmEndsOn};

use crate::machines::find_farm;
use crate::{Long, Status, farms_are_lawful};
use std::alloc::Global;
use tp_command::Request;
use tp_farm::{Farm, answer_farm};
use tp_outside::{Shelf, Sink, Source};
use tp_session::Session;
use tp_stream::Stop;

/// Answers the script of the source by the farm, and tells how it ended.
fn farm_on<S: Source, K: Sink>(
    alloc: Global,
    farm: Farm<Session>,
    source: &mut S,
    sink: &mut K,
) -> Status
    requires { farm.lines ≡ 0 }
    ensures ends { (machines : List Machine) (budget : Option ℕ) (bounds : Bool)
        → state_of (λ s. s.standing) farm ≡ farm_start machines budget bounds
        → FarmEndsOn machines budget bounds (S.left source.old) (S.left source.new)
        (K.taken sink.old) (K.taken sink.new) result }
    ensures source { result ≡ Status.Source
        → Rises (S.faults source.old) (S.faults source.new) }
    ensures sink { result ≡ Status.Sink → Rises (K.faults sink.old) (K.faults sink.new) }
{
    farms_are_lawful();
    match answer_farm(alloc, farm, source, sink) {
        Ok(()) => Status::Done,
        Err(Stop::Memory) => Status::Memory,
        Err(Stop::Source) => Status::Source,
        Err(Stop::Sink) => Status::Sink,
        Err(Stop::Line(n)) => Status::TooLong(Long::Line(n)),
        Err(Stop::Lines) => Status::TooLong(Long::Lines),
        // No line of a script is refused.
        Err(Stop::Refused) => unreachable!(),
    }
}

/// Reads the list that is asked for and the machine texts that it names, then the script line by line, and writes what the
/// machines tell of each line before the next one is handled. The first check that fails ends it: the shelf, the length and the
/// names of the list; for each name the shelf, the length and the rules of its text; then as in a run.
pub(crate) fn farm<H: Shelf, S: Source, K: Sink>(
    alloc: Global,
    request: &Request<'_>,
    shelf: &mut H,
    source: &mut S,
    sink: &mut K,
) -> Status
    ensures ends { FarmEnds S.left K.taken (H.known shelf.old) source.old source.new sink.old
        sink.new (seen request.now) result }
    ensures shelf { result ≡ Status.Shelf → Rises (H.faults shelf.old) (H.faults shelf.new) }
    ensures amiss { result ≡ Status.Shelf → IfSome (H.known shelf.old) (λ files.
        IsSome (file_at files request.now.arg.now) → NoneListedMissing files request.now.arg.now
        → Rises (H.amiss shelf.old) (H.amiss shelf.new)) }
    ensures source { result ≡ Status.Source
        → Rises (S.faults source.old) (S.faults source.new) }
    ensures sink { result ≡ Status.Sink → Rises (K.faults sink.old) (K.faults sink.new) }
{
    match find_farm(alloc, request, shelf) {
        Ok(farm) => farm_on(alloc, farm, source, sink),
        Err(status) => status,
    }
}
