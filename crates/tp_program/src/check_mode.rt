//! A log checked on the machine of a text.

ghost use Rattle.std.specs.Prelude.{◌≡◌, ◌⊎◌, IfSome, IsSome};
ghost use Rattle.tp_command.specs.App.{seen};
ghost use Rattle.tp_outside.specs.Outside.{Rises, file_at};
ghost use Rattle.tp_program.specs.Checks.{CheckEnds, ChecksOn, WritesCounts, status_of};

use crate::machine::find_machine;
use crate::{Long, Status};
use std::alloc::Global;
use tp_command::Request;
use tp_log_check::{Counts, Rejection, check_log, summary_line};
use tp_machine::Machine;
use tp_outside::{Failed, Shelf, Sink, Source, write_all};

fn status_of(cause: Rejection) -> Status
    ensures { result ≡ status_of cause }
{
    match cause {
        Rejection::Memory => Status::Memory,
        Rejection::Source => Status::Source,
        Rejection::Line(n) => Status::TooLong(Long::Line(n)),
        Rejection::Log => Status::TooLong(Long::Log),
        Rejection::Flaw(flaw) => Status::Rejected(flaw),
    }
}

/// Writes the line of what an accepted log has.
fn accept<K: Sink>(alloc: Global, counts: &Counts, sink: &mut K) -> Status
    ensures ends { ((result ≡ Status.Memory) × (sink.new ≡ sink.old))
        ⊎ WritesCounts counts.now (K.taken sink.old) (K.taken sink.new) result }
    ensures sink { result ≡ Status.Sink → Rises (K.faults sink.old) (K.faults sink.new) }
{
    let line = match summary_line(alloc, counts) {
        Ok(line) => line,
        Err(_) => return Status::Memory,
    };
    match write_all(sink, &line) {
        Ok(()) => Status::Done,
        Err(Failed) => Status::Sink,
    }
}

/// Looks at the log of the source as one of the machine, and tells how that ended.
fn check_on<S: Source, K: Sink>(
    alloc: Global,
    machine: Machine,
    source: &mut S,
    sink: &mut K,
) -> Status
    ensures ends { ChecksOn K.taken machine (S.left source.old) (S.left source.new) sink.old
        sink.new result }
    ensures source { result ≡ Status.Source
        → Rises (S.faults source.old) (S.faults source.new) }
    ensures sink { result ≡ Status.Sink → Rises (K.faults sink.old) (K.faults sink.new) }
{
    match check_log(alloc, machine, source) {
        Ok(counts) => accept(alloc, &counts, sink),
        Err(cause) => status_of(cause),
    }
}

/// Reads the machine text that is asked for, then the log line by line, and looks at it. The first check that fails ends it: the
/// shelf, the length and the rules of the machine text; then for each line the source, its length, the length of the log, and what
/// the line tells. Where all is right, one line is written.
pub(crate) fn check<H: Shelf, S: Source, K: Sink>(
    alloc: Global,
    request: &Request<'_>,
    shelf: &mut H,
    source: &mut S,
    sink: &mut K,
) -> Status
    ensures ends { CheckEnds S.left K.taken (H.known shelf.old) source.old source.new sink.old
        sink.new (seen request.now) result }
    ensures shelf { result ≡ Status.Shelf → Rises (H.faults shelf.old) (H.faults shelf.new) }
    ensures amiss { result ≡ Status.Shelf → IfSome (H.known shelf.old) (λ files.
        IsSome (file_at files request.now.arg.now)
        → Rises (H.amiss shelf.old) (H.amiss shelf.new)) }
    ensures source { result ≡ Status.Source
        → Rises (S.faults source.old) (S.faults source.new) }
    ensures sink { result ≡ Status.Sink → Rises (K.faults sink.old) (K.faults sink.new) }
{
    match find_machine(alloc, shelf, request.arg) {
        Ok(machine) => check_on(alloc, machine, source, sink),
        Err(status) => status,
    }
}
