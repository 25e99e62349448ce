//! A log checked on the machine of a text.

ghost use Rattle.std.specs.Prelude.{◌≡◌, ◌⊎◌, IfSome, IsSome};
ghost use Rattle.tp_outside.specs.Outside.{Rises, file_at};
ghost use Rattle.tp_verify.specs.Checks.{CheckEnds, ChecksOn, WritesCounts, status_of};

use crate::machine::find_machine;
use crate::{LongInput, VerifyStatus};
use std::alloc::Global;
use tp_log_check::{Counts, Rejection, check_log, summary_line};
use tp_machine::Machine;
use tp_outside::{Failed, Shelf, Sink, Source, write_all};

fn status_of(cause: Rejection) -> VerifyStatus
    ensures { result ≡ status_of cause }
{
    match cause {
        Rejection::Memory => VerifyStatus::Memory,
        Rejection::Source => VerifyStatus::Source,
        Rejection::Line(n) => VerifyStatus::TooLong(LongInput::Line(n)),
        Rejection::Log => VerifyStatus::TooLong(LongInput::Log),
        Rejection::Flaw(flaw) => VerifyStatus::Rejected(flaw),
    }
}

/// Writes the line of the counts of an accepted log.
fn accept<K: Sink>(alloc: Global, counts: &Counts, sink: &mut K) -> VerifyStatus
    ensures ends { ((result ≡ VerifyStatus.Memory) × (sink.new ≡ sink.old))
        ⊎ WritesCounts counts.now (K.taken sink.old) (K.taken sink.new) result }
    ensures sink { result ≡ VerifyStatus.Sink → Rises (K.faults sink.old) (K.faults sink.new) }
{
    let line = match summary_line(alloc, counts) {
        Ok(line) => line,
        Err(_) => return VerifyStatus::Memory,
    };
    match write_all(sink, &line) {
        Ok(()) => VerifyStatus::Done,
        Err(Failed) => VerifyStatus::Sink,
    }
}

/// Checks the log of the source as one of the machine, and returns how that ended.
fn check_on<S: Source, K: Sink>(
    alloc: Global,
    machine: Machine,
    source: &mut S,
    sink: &mut K,
) -> VerifyStatus
    ensures ends { ChecksOn K.taken machine (S.left source.old) (S.left source.new) sink.old
        sink.new result }
    ensures source { result ≡ VerifyStatus.Source
        → Rises (S.faults source.old) (S.faults source.new) }
    ensures sink { result ≡ VerifyStatus.Sink → Rises (K.faults sink.old) (K.faults sink.new) }
{
    match check_log(alloc, machine, source) {
        Ok(counts) => accept(alloc, &counts, sink),
        Err(cause) => status_of(cause),
    }
}

/// Reads the machine text of this name, then the log line by line, and checks it. The first check that fails ends it: the shelf,
/// the length and the rules of the machine text; then for each line the source, its length, the length of the log, and what the
/// line says. If all is right, one line is written.
pub(crate) fn check<H: Shelf, S: Source, K: Sink>(
    alloc: Global,
    name: &str,
    shelf: &mut H,
    source: &mut S,
    sink: &mut K,
) -> VerifyStatus
    ensures ends { CheckEnds S.left K.taken (H.known shelf.old) source.old source.new sink.old
        sink.new name.now result }
    ensures shelf { result ≡ VerifyStatus.Shelf
        → Rises (H.faults shelf.old) (H.faults shelf.new) }
    ensures amiss { result ≡ VerifyStatus.Shelf → IfSome (H.known shelf.old) (λ files.
        IsSome (file_at files name.now)
        → Rises (H.amiss shelf.old) (H.amiss shelf.new)) }
    ensures source { result ≡ VerifyStatus.Source
        → Rises (S.faults source.old) (S.faults source.new) }
    ensures sink { result ≡ VerifyStatus.Sink → Rises (K.faults sink.old) (K.faults sink.new) }
{
    match find_machine(alloc, shelf, name) {
        Ok(machine) => check_on(alloc, machine, source, sink),
        Err(status) => status,
    }
}
